//! Which number each field of a card holds, by the first column of the field.

ghost use Rattle.std.specs.Prelude.{◌≡◌, ◌≤◌, IfSome};
ghost use Rattle.emtp_fields.specs.Measures.{a_measure, amplitude_measure, angle_measure, block_measure, branch_measure, coefficient, coefficient_measure, course_measure, device_measure, first_run_measure, inductance_measure, line_measure, measure_of, nonlinear_measure, period_measure, point_measure, reactor_measure, resistor_measure, second_run_measure, series_measure, source_measure, switch_measure, table_measure, tacs_source_measure, time_measure, tolerance_measure, travel_measure, valve_measure, velocity_measure, whole_at, wide_measure, width_measure, window_measure};
ghost use Rattle.emtp_fields.specs.held.Measure.{IsMeasure};

use crate::measure::{Blank, Measure, Reading, Unit, measure_with};
use crate::numbers::{
    A, A1, AMPLITUDE, ASKED, B, C, C_OF_DEVICE, CLOSING, COPT, CURRENT, DELAY, DELAY_OF_DEVICE,
    DELTAT, FLASHOVER, FLUX, FORM, FREQUENCY, FREQUENCY_OF_DEVICE, GAIN, HIGH, HOLDING, IGNITION,
    INPUT, IOUT, IPLOT, JUMP, L, LENGTH, LINE_C, LINE_L, LINE_R, LOW, MARGIN, OPENING, ORDER,
    OUTPUT, PERIOD, PHASE, R, RISE, SOURCE_KIND, START, STOP, SURGE_IMPEDANCE, T_CLOSE, T_OPEN,
    TMAX, TOLERANCE, TRAVEL_TIME, VELOCITY, VOLTAGE, WIDE_C, WIDE_L, WIDE_R, WIDTH, XOPT,
};
use emtp_card::{NumberField, Why, field_whole};
use emtp_fix::LARGEST_COEFFICIENT;
use emtp_netcards::{BranchKind, PointScale, SwitchType, branch_kind, switch_type};
use emtp_walk::Kind;

/// What the number of the field that begins in a column is; none where the field holds none, as a name or a type.
pub(crate) fn measure_of(line: &[u8], kind: Kind, first: usize) -> Option<Measure>
    ensures value { result ≡ measure_of line.now kind first }
    ensures field { IfSome result IsMeasure }
{
    match kind {
        Kind::Tolerance => tolerance_measure(first),
        Kind::FirstRun => first_run_measure(first),
        Kind::SecondRun => second_run_measure(first),
        Kind::Block => block_measure(first),
        Kind::Coefficients(_) => coefficient_measure(first),
        Kind::TacsSource => tacs_source_measure(whole_at(line, 1, 2), first),
        Kind::Extra => device_measure(whole_at(line, 9, 10), first),
        Kind::Branch(wide) => branch_measure(
            &branch_kind(line),
            wide,
            whole_at(line, 51, 52),
            first,
        ),
        Kind::Point(scale) => point_measure(scale, first),
        Kind::Switch => switch_measure(&switch_type(line), first),
        Kind::Source => source_measure(whole_at(line, 1, 2), whole_at(line, 9, 10), first),
        _ => None,
    }
}

/// The whole number in some columns; 0 where there is none.
fn whole_at(line: &[u8], first: usize, last: usize) -> i64
    requires some { 1 ≤ first }
    requires order { first ≤ last }
    requires few { last ≤ 80 }
    ensures { result ≡ whole_at line.now first last }
{
    match field_whole(line, first, last) {
        Ok(Some(number)) => number,
        Ok(None) | Err(_) => 0,
    }
}

/// A branch of no known type is a series branch.
fn branch_measure(
    kind: &Result<BranchKind, Why>,
    wide: bool,
    form: i64,
    first: usize,
) -> Option<Measure>
    ensures value { result ≡ branch_measure kind.now wide form first }
    ensures field { IfSome result IsMeasure }
{
    match kind {
        Ok(BranchKind::Line) | Ok(BranchKind::Second) | Ok(BranchKind::Third) => {
            line_measure(form, first)
        }
        Ok(BranchKind::Reactor) | Ok(BranchKind::Resistor) => nonlinear_measure(first),
        Ok(BranchKind::Series) | Err(_) => {
            if wide {
                wide_measure(first)
            } else {
                series_measure(first)
            }
        }
    }
}

/// A line by its form, ILINE.
fn line_measure(form: i64, first: usize) -> Option<Measure>
    ensures value { result ≡ line_measure form first }
    ensures field { IfSome result IsMeasure }
{
    match form {
        1 => velocity_measure(first),
        2 => travel_measure(first),
        _ => inductance_measure(first),
    }
}

fn point_measure(scale: PointScale, first: usize) -> Option<Measure>
    ensures value { result ≡ point_measure scale first }
    ensures field { IfSome result IsMeasure }
{
    match scale {
        PointScale::Resistor => resistor_measure(first),
        PointScale::Reactor => reactor_measure(first),
        PointScale::Table => table_measure(first),
        PointScale::Times => window_measure(first),
    }
}

fn switch_measure(kind: &Result<SwitchType, Why>, first: usize) -> Option<Measure>
    ensures value { result ≡ switch_measure kind.now first }
    ensures field { IfSome result IsMeasure }
{
    match kind {
        Ok(SwitchType::Valve) | Ok(SwitchType::Control) => valve_measure(first),
        Ok(SwitchType::Time) | Err(_) => time_measure(first),
    }
}

/// Of a source of the network, by its type and its kind: a ramp has T0 where a cosine has its phase.
fn source_measure(kind: i64, current: i64, first: usize) -> Option<Measure>
    ensures value { result ≡ source_measure kind current first }
    ensures field { IfSome result IsMeasure }
{
    match first {
        9 => Some(measure_with(SOURCE_KIND, Unit::Whole, Blank::Zero, Reading::Whole)),
        11 => Some(amplitude_measure(current)),
        31 => Some(angle_measure(kind)),
        _ => course_measure(first),
    }
}

fn amplitude_measure(current: i64) -> Measure
    ensures value { result ≡ amplitude_measure current }
    ensures field { IsMeasure result }
{
    if current < 0 {
        measure_with(AMPLITUDE, Unit::Ampere, Blank::Zero, Reading::Number)
    } else {
        measure_with(AMPLITUDE, Unit::Volt, Blank::Zero, Reading::Number)
    }
}

fn angle_measure(kind: i64) -> Measure
    ensures value { result ≡ angle_measure kind }
    ensures field { IsMeasure result }
{
    match kind {
        12 => measure_with(RISE, Unit::Second, Blank::Nothing, Reading::Number),
        _ => measure_with(PHASE, Unit::Degree, Blank::Zero, Reading::Number),
    }
}

/// Of a source of the control, by its type: pulses and a sawtooth have times where a cosine has frequency and phase.
fn tacs_source_measure(kind: i64, first: usize) -> Option<Measure>
    ensures value { result ≡ tacs_source_measure kind first }
    ensures field { IfSome result IsMeasure }
{
    match first {
        11 => Some(measure_with(AMPLITUDE, Unit::Plain, Blank::Zero, Reading::Number)),
        21 => Some(period_measure(kind)),
        31 => Some(width_measure(kind)),
        _ => course_measure(first),
    }
}

fn period_measure(kind: i64) -> Measure
    ensures value { result ≡ period_measure kind }
    ensures field { IsMeasure result }
{
    match kind {
        23 => measure_with(PERIOD, Unit::Second, Blank::Nothing, Reading::Number),
        24 => measure_with(PERIOD, Unit::Second, Blank::Nothing, Reading::Number),
        _ => measure_with(FREQUENCY, Unit::Hertz, Blank::Zero, Reading::Number),
    }
}

fn width_measure(kind: i64) -> Measure
    ensures value { result ≡ width_measure kind }
    ensures field { IsMeasure result }
{
    match kind {
        23 => measure_with(WIDTH, Unit::Second, Blank::Nothing, Reading::Number),
        _ => measure_with(PHASE, Unit::Degree, Blank::Zero, Reading::Number),
    }
}

/// Of a supplemental card, by the code of its device.
fn device_measure(code: i64, first: usize) -> Option<Measure>
    ensures value { result ≡ device_measure code first }
    ensures field { IfSome result IsMeasure }
{
    match first {
        51 => Some(a_measure(code)),
        57 => Some(measure_with(B, Unit::Plain, Blank::Zero, Reading::Number)),
        63 => Some(measure_with(C_OF_DEVICE, Unit::Plain, Blank::Zero, Reading::Number)),
        _ => None,
    }
}

/// A of a delay is a time, that of an effective value a frequency.
fn a_measure(code: i64) -> Measure
    ensures value { result ≡ a_measure code }
    ensures field { IsMeasure result }
{
    match code {
        53 => measure_with(DELAY_OF_DEVICE, Unit::Second, Blank::Zero, Reading::Number),
        66 => measure_with(
            FREQUENCY_OF_DEVICE,
            Unit::Hertz,
            Blank::Nothing,
            Reading::Number,
        ),
        _ => measure_with(A, Unit::Plain, Blank::Zero, Reading::Number),
    }
}

/// A coefficient of a block, in ten columns.
fn coefficient_measure(first: usize) -> Option<Measure>
    ensures value { result ≡ coefficient_measure first }
    ensures field { IfSome result IsMeasure }
{
    match first {
        1 => Some(coefficient(1)),
        11 => Some(coefficient(11)),
        21 => Some(coefficient(21)),
        31 => Some(coefficient(31)),
        41 => Some(coefficient(41)),
        51 => Some(coefficient(51)),
        61 => Some(coefficient(61)),
        71 => Some(coefficient(71)),
        _ => None,
    }
}

fn coefficient(first: u32) -> Measure
    requires some { 1 ≤ first }
    requires few { first ≤ 71 }
    ensures value { result ≡ coefficient first }
    ensures field { IsMeasure result }
{
    let field = NumberField {
        first,
        last: first + 9,
        scale: 12,
        low: -(LARGEST_COEFFICIENT as i64),
        high: LARGEST_COEFFICIENT as i64,
    };
    measure_with(field, Unit::Plain, Blank::Zero, Reading::Number)
}

/// Of the tolerance.
fn tolerance_measure(first: usize) -> Option<Measure>
    ensures value { result ≡ tolerance_measure first }
    ensures field { IfSome result IsMeasure }
{
    match first {
        25 => Some(measure_with(TOLERANCE, Unit::Ampere, Blank::Nothing, Reading::Number)),
        _ => None,
    }
}

/// Of the first miscellaneous card.
fn first_run_measure(first: usize) -> Option<Measure>
    ensures value { result ≡ first_run_measure first }
    ensures field { IfSome result IsMeasure }
{
    match first {
        1 => Some(measure_with(DELTAT, Unit::Second, Blank::Nothing, Reading::Number)),
        9 => Some(measure_with(TMAX, Unit::Second, Blank::Nothing, Reading::Number)),
        17 => Some(measure_with(XOPT, Unit::Plain, Blank::Zero, Reading::Number)),
        25 => Some(measure_with(COPT, Unit::Plain, Blank::Zero, Reading::Number)),
        _ => None,
    }
}

/// Of the second miscellaneous card.
fn second_run_measure(first: usize) -> Option<Measure>
    ensures value { result ≡ second_run_measure first }
    ensures field { IfSome result IsMeasure }
{
    match first {
        1 => Some(measure_with(IOUT, Unit::Whole, Blank::Zero, Reading::Whole)),
        9 => Some(measure_with(IPLOT, Unit::Whole, Blank::One, Reading::Whole)),
        _ => None,
    }
}

/// Of a block.
fn block_measure(first: usize) -> Option<Measure>
    ensures value { result ≡ block_measure first }
    ensures field { IfSome result IsMeasure }
{
    match first {
        1 => Some(measure_with(ORDER, Unit::Whole, Blank::Zero, Reading::Whole)),
        51 => Some(measure_with(GAIN, Unit::Plain, Blank::One, Reading::Number)),
        57 => Some(measure_with(LOW, Unit::Plain, Blank::Nothing, Reading::Number)),
        63 => Some(measure_with(HIGH, Unit::Plain, Blank::Nothing, Reading::Number)),
        _ => None,
    }
}

/// Of a series branch.
fn series_measure(first: usize) -> Option<Measure>
    ensures value { result ≡ series_measure first }
    ensures field { IfSome result IsMeasure }
{
    match first {
        27 => Some(measure_with(R, Unit::Ohm, Blank::Zero, Reading::Number)),
        33 => Some(measure_with(L, Unit::Millihenry, Blank::Zero, Reading::Number)),
        39 => Some(measure_with(C, Unit::Microfarad, Blank::Zero, Reading::Number)),
        80 => Some(measure_with(ASKED, Unit::Whole, Blank::Zero, Reading::Whole)),
        _ => None,
    }
}

/// Of a series branch with wide fields.
fn wide_measure(first: usize) -> Option<Measure>
    ensures value { result ≡ wide_measure first }
    ensures field { IfSome result IsMeasure }
{
    match first {
        27 => Some(measure_with(WIDE_R, Unit::Ohm, Blank::Zero, Reading::Number)),
        43 => Some(measure_with(WIDE_L, Unit::Millihenry, Blank::Zero, Reading::Number)),
        59 => Some(measure_with(WIDE_C, Unit::Microfarad, Blank::Zero, Reading::Number)),
        80 => Some(measure_with(ASKED, Unit::Whole, Blank::Zero, Reading::Whole)),
        _ => None,
    }
}

/// Of a line by its inductance and capacitance.
fn inductance_measure(first: usize) -> Option<Measure>
    ensures value { result ≡ inductance_measure first }
    ensures field { IfSome result IsMeasure }
{
    match first {
        27 => Some(measure_with(LINE_R, Unit::Ohm, Blank::Zero, Reading::Number)),
        33 => Some(measure_with(LINE_L, Unit::Millihenry, Blank::Nothing, Reading::Number)),
        39 => Some(measure_with(LINE_C, Unit::Microfarad, Blank::Nothing, Reading::Number)),
        45 => Some(measure_with(LENGTH, Unit::Plain, Blank::Nothing, Reading::Number)),
        51 => Some(measure_with(FORM, Unit::Whole, Blank::Zero, Reading::Whole)),
        80 => Some(measure_with(ASKED, Unit::Whole, Blank::Zero, Reading::Whole)),
        _ => None,
    }
}

/// Of a line by its velocity.
fn velocity_measure(first: usize) -> Option<Measure>
    ensures value { result ≡ velocity_measure first }
    ensures field { IfSome result IsMeasure }
{
    match first {
        27 => Some(measure_with(LINE_R, Unit::Ohm, Blank::Zero, Reading::Number)),
        33 => Some(measure_with(SURGE_IMPEDANCE, Unit::Ohm, Blank::Nothing, Reading::Number)),
        39 => Some(measure_with(VELOCITY, Unit::Plain, Blank::Nothing, Reading::Number)),
        45 => Some(measure_with(LENGTH, Unit::Plain, Blank::Nothing, Reading::Number)),
        51 => Some(measure_with(FORM, Unit::Whole, Blank::Zero, Reading::Whole)),
        80 => Some(measure_with(ASKED, Unit::Whole, Blank::Zero, Reading::Whole)),
        _ => None,
    }
}

/// Of a line by its travel time.
fn travel_measure(first: usize) -> Option<Measure>
    ensures value { result ≡ travel_measure first }
    ensures field { IfSome result IsMeasure }
{
    match first {
        27 => Some(measure_with(LINE_R, Unit::Ohm, Blank::Zero, Reading::Number)),
        33 => Some(measure_with(SURGE_IMPEDANCE, Unit::Ohm, Blank::Nothing, Reading::Number)),
        39 => Some(measure_with(TRAVEL_TIME, Unit::Second, Blank::Nothing, Reading::Number)),
        45 => Some(measure_with(LENGTH, Unit::Plain, Blank::Nothing, Reading::Number)),
        51 => Some(measure_with(FORM, Unit::Whole, Blank::Zero, Reading::Whole)),
        80 => Some(measure_with(ASKED, Unit::Whole, Blank::Zero, Reading::Whole)),
        _ => None,
    }
}

/// Of a nonlinear resistor or reactor.
fn nonlinear_measure(first: usize) -> Option<Measure>
    ensures value { result ≡ nonlinear_measure first }
    ensures field { IfSome result IsMeasure }
{
    match first {
        27 => Some(measure_with(FLASHOVER, Unit::Plain, Blank::Zero, Reading::Number)),
        33 => Some(measure_with(DELAY, Unit::Plain, Blank::Zero, Reading::Number)),
        39 => Some(measure_with(JUMP, Unit::Plain, Blank::Zero, Reading::Number)),
        80 => Some(measure_with(ASKED, Unit::Whole, Blank::Zero, Reading::Whole)),
        _ => None,
    }
}

/// Of a point of a resistor.
fn resistor_measure(first: usize) -> Option<Measure>
    ensures value { result ≡ resistor_measure first }
    ensures field { IfSome result IsMeasure }
{
    match first {
        1 => Some(measure_with(CURRENT, Unit::Ampere, Blank::Nothing, Reading::Number)),
        17 => Some(measure_with(VOLTAGE, Unit::Volt, Blank::Nothing, Reading::Number)),
        _ => None,
    }
}

/// Of a point of a reactor.
fn reactor_measure(first: usize) -> Option<Measure>
    ensures value { result ≡ reactor_measure first }
    ensures field { IfSome result IsMeasure }
{
    match first {
        1 => Some(measure_with(CURRENT, Unit::Ampere, Blank::Nothing, Reading::Number)),
        17 => Some(measure_with(FLUX, Unit::Weber, Blank::Nothing, Reading::Number)),
        _ => None,
    }
}

/// Of a point of a table.
fn table_measure(first: usize) -> Option<Measure>
    ensures value { result ≡ table_measure first }
    ensures field { IfSome result IsMeasure }
{
    match first {
        1 => Some(measure_with(INPUT, Unit::Plain, Blank::Nothing, Reading::Number)),
        17 => Some(measure_with(OUTPUT, Unit::Plain, Blank::Nothing, Reading::Number)),
        _ => None,
    }
}

/// Of a pair of times.
fn window_measure(first: usize) -> Option<Measure>
    ensures value { result ≡ window_measure first }
    ensures field { IfSome result IsMeasure }
{
    match first {
        1 => Some(measure_with(CLOSING, Unit::Second, Blank::Nothing, Reading::Number)),
        17 => Some(measure_with(OPENING, Unit::Second, Blank::Nothing, Reading::Number)),
        _ => None,
    }
}

/// Of a time switch.
fn time_measure(first: usize) -> Option<Measure>
    ensures value { result ≡ time_measure first }
    ensures field { IfSome result IsMeasure }
{
    match first {
        15 => Some(measure_with(T_CLOSE, Unit::Second, Blank::Zero, Reading::Held)),
        25 => Some(measure_with(T_OPEN, Unit::Second, Blank::Open, Reading::Held)),
        35 => Some(measure_with(MARGIN, Unit::Ampere, Blank::Zero, Reading::Number)),
        80 => Some(measure_with(ASKED, Unit::Whole, Blank::Zero, Reading::Whole)),
        _ => None,
    }
}

/// Of a valve.
fn valve_measure(first: usize) -> Option<Measure>
    ensures value { result ≡ valve_measure first }
    ensures field { IfSome result IsMeasure }
{
    match first {
        15 => Some(measure_with(IGNITION, Unit::Volt, Blank::Zero, Reading::Number)),
        25 => Some(measure_with(HOLDING, Unit::Ampere, Blank::Zero, Reading::Number)),
        80 => Some(measure_with(ASKED, Unit::Whole, Blank::Zero, Reading::Whole)),
        _ => None,
    }
}

/// Of what all sources have.
fn course_measure(first: usize) -> Option<Measure>
    ensures value { result ≡ course_measure first }
    ensures field { IfSome result IsMeasure }
{
    match first {
        21 => Some(measure_with(FREQUENCY, Unit::Hertz, Blank::Zero, Reading::Number)),
        41 => Some(measure_with(A1, Unit::Plain, Blank::Zero, Reading::Number)),
        61 => Some(measure_with(START, Unit::Second, Blank::Zero, Reading::Held)),
        71 => Some(measure_with(STOP, Unit::Second, Blank::Never, Reading::Held)),
        _ => None,
    }
}
