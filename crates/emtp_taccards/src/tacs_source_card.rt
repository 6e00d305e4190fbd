//! Source cards of the control.

ghost use Rattle.emtp_fix.specs.declared.limit.TheConstants.{LARGEST_TIME};
ghost use Rattle.std.specs.Prelude.{◌≡◌, ◌≤◌, length, IfOk};
ghost use Rattle.emtp_case.specs.held.Range.{IsBetween};
ghost use Rattle.emtp_netcards.specs.held.Reading.{judged};
ghost use Rattle.emtp_taccards.specs.TacsSourceCard.{cosine_of, driven, fields_of, level_of, period_field, pulse_of, saw_of, signal_field, signal_of, source_record, source_with, tacs_source_card, value_of, width_field};
ghost use Rattle.emtp_taccards.specs.held.TacsSourceCard.{HasTacsSourceNumbers, IsDriven, IsSignal};

use emtp_card::{Bad, Fault, Line, MAX_BYTES, NumberField, Why, field_whole, in_column};
use emtp_case::{Name, Shape};
use emtp_fix::LARGEST_TIME;
use emtp_netcards::{
    SourceCard, active_times, amplitude, both, card_on, cosine_numbers, needed_name,
};

/// The period of a pulse or a saw tooth, in ps.
const PERIOD: NumberField = NumberField {
    first: 21,
    last: 30,
    scale: 12,
    low: 1,
    high: LARGEST_TIME as i64,
};

/// The width of a pulse, in ps.
const WIDTH: NumberField = NumberField {
    first: 31,
    last: 40,
    scale: 12,
    low: 1,
    high: LARGEST_TIME as i64,
};

/// The course of a source in time, and its amplitude.
type Course = (Shape, i64);

/// From when to when a source is active, in ps.
type Times = (i64, Option<i64>);

/// The type of a source card of the control.
#[derive(Clone, Copy, PartialEq, Eq)]
pub(crate) enum Signal {
    /// 11: the amplitude.
    Level,
    /// 14: a cosine.
    Cosine,
    /// 23: pulses.
    Pulse,
    /// 24: a sawtooth.
    Saw,
    /// 90: the voltage of a node.
    NodeVoltage,
    /// 91: the current of a switch.
    SwitchCurrent,
    /// 93: the state of a switch.
    SwitchStatus,
}

/// Reads a source card of the control. The number of a node or a switch in its shape is 0 until its name is resolved.
///
/// A refusal is the fault of the line's bytes, else the least fault of its fields.
#[tactic(auto, unfolding(crate::specs::TacsSourceCard::tacs_source_card))]
pub fn tacs_source(line: Line<'_>) -> Result<SourceCard, Bad>
    requires { length line.bytes.now ≤ MAX_BYTES }
    ensures value { result ≡ tacs_source_card line.entry.number line.entry.bytes.now }
    ensures numbers { IfOk result HasTacsSourceNumbers }
{
    card_on(&line, fields(line.number, line.bytes))
}

#[tactic(auto, unfolding(crate::specs::TacsSourceCard::fields_of))]
fn fields(number: u32, line: &[u8]) -> Result<SourceCard, Fault>
    ensures value { result ≡ fields_of number line.now }
    ensures numbers { IfOk result HasTacsSourceNumbers }
{
    let name = in_column(3, needed_name(line, 3));
    let signal = signal_value(line, in_column(1, signal_type(line)));
    source_with(number, name, signal)
}

fn source_with(
    number: u32,
    name: Result<Name, Fault>,
    signal: Result<(Course, Times), Fault>,
) -> Result<SourceCard, Fault>
    requires { IfOk signal (λ signal. IsSignal signal.0 signal.1) }
    ensures value { result ≡ source_with number name signal }
    ensures numbers { IfOk result HasTacsSourceNumbers }
{
    let (name, (course, times)) = both(name, signal)?;
    Ok(source_record(number, name, course, times))
}

fn source_record(number: u32, name: Name, course: Course, times: Times) -> SourceCard
    requires { IsSignal course times }
    ensures value { result ≡ source_record number name course times }
    ensures numbers { HasTacsSourceNumbers result }
{
    SourceCard {
        line: number,
        name,
        current: false,
        shape: course.0,
        amplitude: course.1,
        start: times.0,
        stop: times.1,
    }
}

fn signal_type(line: &[u8]) -> Result<Signal, Why>
    ensures { result ≡ signal_field line.now }
{
    match field_whole(line, 1, 2) {
        Ok(Some(number)) => signal_of(number),
        Ok(None) | Err(_) => Err(Why::BadType),
    }
}

fn signal_of(number: i64) -> Result<Signal, Why>
    ensures { result ≡ signal_of number }
{
    match number {
        11 => Ok(Signal::Level),
        14 => Ok(Signal::Cosine),
        23 => Ok(Signal::Pulse),
        24 => Ok(Signal::Saw),
        90 => Ok(Signal::NodeVoltage),
        91 => Ok(Signal::SwitchCurrent),
        93 => Ok(Signal::SwitchStatus),
        _ => Err(Why::BadType),
    }
}

/// The course in time, the amplitude, and from when to when it is active: what the type asks for. A source whose value a
/// node or a switch gives has no other fields.
fn signal_value(line: &[u8], kind: Result<Signal, Fault>) -> Result<(Course, Times), Fault>
    ensures value { result ≡ judged kind (value_of line.now) }
    ensures numbers { IfOk result (λ signal. IsSignal signal.0 signal.1) }
{
    match kind? {
        Signal::Level => driven(line, level(line)),
        Signal::Cosine => driven(line, cosine(line)),
        Signal::Pulse => driven(line, pulse(line)),
        Signal::Saw => driven(line, saw(line)),
        Signal::NodeVoltage => Ok(((Shape::NodeVoltage { node: 0 }, 0), (0, None))),
        Signal::SwitchCurrent => Ok(((Shape::SwitchCurrent { switch: 0 }, 0), (0, None))),
        Signal::SwitchStatus => Ok(((Shape::SwitchStatus { switch: 0 }, 0), (0, None))),
    }
}

/// A source whose value the card gives.
fn driven(line: &[u8], course: Result<Course, Fault>) -> Result<(Course, Times), Fault>
    requires { IfOk course IsDriven }
    ensures value { result ≡ driven line.now course }
    ensures numbers { IfOk result (λ signal. IsSignal signal.0 signal.1) }
{
    both(course, active_times(line))
}

#[tactic(auto, unfolding(crate::specs::TacsSourceCard::level_of))]
fn level(line: &[u8]) -> Result<Course, Fault>
    ensures value { result ≡ level_of line.now }
    ensures numbers { IfOk result IsDriven }
{
    Ok((Shape::Step, amplitude(line)?))
}

#[tactic(auto, unfolding(crate::specs::TacsSourceCard::cosine_of))]
fn cosine(line: &[u8]) -> Result<Course, Fault>
    ensures value { result ≡ cosine_of line.now }
    ensures numbers { IfOk result IsDriven }
{
    let (amplitude, (freq, phase)) = both(amplitude(line), cosine_numbers(line))?;
    Ok((Shape::Cosine { freq, phase }, amplitude))
}

#[tactic(auto, unfolding(crate::specs::TacsSourceCard::pulse_of))]
fn pulse(line: &[u8]) -> Result<Course, Fault>
    ensures value { result ≡ pulse_of line.now }
    ensures numbers { IfOk result IsDriven }
{
    let times = both(period(line), width(line));
    let (amplitude, (period, width)) = both(amplitude(line), times)?;
    Ok((Shape::Pulse { period, width }, amplitude))
}

#[tactic(auto, unfolding(crate::specs::TacsSourceCard::saw_of))]
fn saw(line: &[u8]) -> Result<Course, Fault>
    ensures value { result ≡ saw_of line.now }
    ensures numbers { IfOk result IsDriven }
{
    let (amplitude, period) = both(amplitude(line), period(line))?;
    Ok((Shape::Saw { period }, amplitude))
}

/// The time from one pulse or tooth to the next.
fn period(line: &[u8]) -> Result<i64, Fault>
    ensures value { result ≡ period_field line.now }
    ensures range { IfOk result (IsBetween 1 LARGEST_TIME) }
{
    PERIOD.required(line)
}

fn width(line: &[u8]) -> Result<i64, Fault>
    ensures value { result ≡ width_field line.now }
    ensures range { IfOk result (IsBetween 1 LARGEST_TIME) }
{
    WIDTH.required(line)
}
