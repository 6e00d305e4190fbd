//! The cards of devices.

ghost use Rattle.emtp_fix.specs.declared.limit.TheConstants.{LARGEST_TIME};
ghost use Rattle.std.specs.Prelude.{◌≡◌, ◌^◌, ◌≤◌, length, IfOk, IsSome, IsTrue};
ghost use Rattle.emtp_case.specs.Control.{needs_d};
ghost use Rattle.emtp_case.specs.held.Control.{HasRangeOfA};
ghost use Rattle.emtp_case.specs.held.Range.{IsBetween};
ghost use Rattle.emtp_netcards.specs.held.Fields.{IsSmall};
ghost use Rattle.emtp_netcards.specs.held.Reading.{judged};
ghost use Rattle.emtp_taccards.specs.DeviceCard.{a_by, code_field, code_of, coded_by, d_by, d_field, delay_field, device_card, device_record, device_with, fields_of, hertz_field, plain_fields, variables_of};
ghost use Rattle.emtp_taccards.specs.held.DeviceCard.{HasDeviceNumbers, HasItsD};

use crate::group::head;
use crate::inputs::inputs;
use emtp_card::{
    Bad, Fault, Line, MAX_BYTES, NumberField, Why, field_name, field_whole, in_column,
};
use emtp_case::{DeviceCode, Group, Name};
use emtp_fix::{LARGEST_TIME, LARGEST_VALUE};
use emtp_netcards::{LARGEST_FREQUENCY, both, card_on};

/// A, in nano.
const PLAIN: NumberField = NumberField {
    first: 51,
    last: 56,
    scale: 9,
    low: -(LARGEST_VALUE as i64),
    high: LARGEST_VALUE as i64,
};

/// A of a delay and a delayed pulse, in ps.
const DELAY: NumberField = NumberField {
    first: 51,
    last: 56,
    scale: 12,
    low: 0,
    high: LARGEST_TIME as i64,
};

/// A of an effective value, in micro-hertz.
const FREQUENCY: NumberField = NumberField {
    first: 51,
    last: 56,
    scale: 6,
    low: 1,
    high: LARGEST_FREQUENCY,
};

/// B, in nano.
const B: NumberField = NumberField {
    first: 57,
    last: 62,
    scale: 9,
    low: -(LARGEST_VALUE as i64),
    high: LARGEST_VALUE as i64,
};

/// C, in nano.
const C: NumberField = NumberField {
    first: 63,
    last: 68,
    scale: 9,
    low: -(LARGEST_VALUE as i64),
    high: LARGEST_VALUE as i64,
};

/// The code of a device, with the number A and the variable D that it asks for.
type Coded = (DeviceCode, (i64, Option<Name>));

/// The inputs, and the variable E.
type Variables = ([Option<(bool, Name)>; 5], Option<Name>);

/// The card of a device. Points follow that of a table, and pairs of times that of a window.
#[derive(Clone, Copy)]
pub struct DeviceCard {
    /// The number of its line, from 1.
    pub line: u32,
    /// The name of its variable.
    pub name: Name,
    /// When it is computed.
    pub group: Group,
    /// Its equation.
    pub code: DeviceCode,
    /// The inputs: whether each counts with a minus sign, and its name.
    pub inputs: [Option<(bool, Name)>; 5],
    /// The number A: in nano to 10^18 in magnitude; of a delay or delayed pulse in ps from 0 to 10^18; of an effective
    /// value in micro-hertz from 1 to 10^13.
    pub a: i64,
    /// The number B, in nano: to 10^18 in magnitude.
    pub b: i64,
    /// The number C, in nano: to 10^18 in magnitude.
    pub c: i64,
    /// The variable D, where it is named. Both gates and the selector name it.
    pub d: Option<Name>,
    /// The variable E, where it is named.
    pub e: Option<Name>,
}

/// Reads a device.
#[tactic(auto, unfolding(crate::specs::DeviceCard::device_card))]
pub(crate) fn device(line: &Line<'_>) -> Result<DeviceCard, Bad>
    requires { length line.now.bytes.now ≤ MAX_BYTES }
    ensures value { result ≡ device_card line.now.number line.now.bytes.now }
    ensures numbers { IfOk result HasDeviceNumbers }
    ensures d { IfOk result HasItsD }
{
    card_on(line, fields(line.number, line.bytes))
}

#[tactic(auto, unfolding(crate::specs::DeviceCard::fields_of))]
fn fields(number: u32, line: &[u8]) -> Result<DeviceCard, Fault>
    ensures value { result ≡ fields_of number line.now }
    ensures numbers { IfOk result HasDeviceNumbers }
    ensures d { IfOk result HasItsD }
{
    let coded = with_code(line, in_column(9, code(line)));
    let variables = named_variables(line);
    device_with(number, head(line), coded, variables, plain_numbers(line))
}

fn device_with(
    number: u32,
    head: Result<(Group, Name), Fault>,
    coded: Result<Coded, Fault>,
    variables: Result<Variables, Fault>,
    plain: Result<(i64, i64), Fault>,
) -> Result<DeviceCard, Fault>
    requires a { IfOk coded (λ coded. HasRangeOfA coded.0 coded.1.0) }
    requires d { IfOk coded (λ coded. IsTrue (needs_d coded.0) → IsSome coded.1.1) }
    requires b { IfOk plain (λ plain. IsSmall plain.0) }
    requires c { IfOk plain (λ plain. IsSmall plain.1) }
    ensures value { result ≡ device_with number head coded variables plain }
    ensures numbers { IfOk result HasDeviceNumbers }
    ensures d { IfOk result HasItsD }
{
    let ((head, coded), (variables, plain)) = both(both(head, coded), both(variables, plain))?;
    Ok(device_record(number, head, coded, variables, plain))
}

fn device_record(
    number: u32,
    head: (Group, Name),
    coded: Coded,
    variables: Variables,
    plain: (i64, i64),
) -> DeviceCard
    requires a { HasRangeOfA coded.0 coded.1.0 }
    requires d { IsTrue (needs_d coded.0) → IsSome coded.1.1 }
    requires b { IsSmall plain.0 }
    requires c { IsSmall plain.1 }
    ensures value { result ≡ device_record number head coded variables plain }
    ensures numbers { HasDeviceNumbers result }
    ensures d { HasItsD result }
{
    let (group, name) = head;
    let (code, (a, d)) = coded;
    let (inputs, e) = variables;
    let (b, c) = plain;
    DeviceCard {
        line: number,
        name,
        group,
        code,
        inputs,
        a,
        b,
        c,
        d,
        e,
    }
}

fn code(line: &[u8]) -> Result<DeviceCode, Why>
    ensures { result ≡ code_field line.now }
{
    match field_whole(line, 9, 10) {
        Ok(Some(number)) => code_of(number),
        Ok(None) | Err(_) => Err(Why::BadType),
    }
}

fn code_of(number: i64) -> Result<DeviceCode, Why>
    ensures { result ≡ code_of number }
{
    match number {
        51 => Ok(DeviceCode::Gate),
        52 => Ok(DeviceCode::GateAbove),
        53 => Ok(DeviceCode::Delay),
        54 => Ok(DeviceCode::DelayedPulse),
        56 => Ok(DeviceCode::Table),
        57 => Ok(DeviceCode::Window),
        58 => Ok(DeviceCode::Integral),
        59 => Ok(DeviceCode::Derivative),
        60 => Ok(DeviceCode::Selector),
        62 => Ok(DeviceCode::SampleHold),
        63 => Ok(DeviceCode::Extreme),
        64 => Ok(DeviceCode::PeakHold),
        65 => Ok(DeviceCode::Counter),
        66 => Ok(DeviceCode::EffectiveValue),
        _ => Err(Why::BadType),
    }
}

/// The code with what it asks for; where it is refused, A and D aren't read.
fn with_code(line: &[u8], code: Result<DeviceCode, Fault>) -> Result<Coded, Fault>
    ensures value { result ≡ judged code (coded_by line.now) }
    ensures a { IfOk result (λ coded. HasRangeOfA coded.0 coded.1.0) }
    ensures d { IfOk result (λ coded. IsTrue (needs_d coded.0) → IsSome coded.1.1) }
{
    coded_by(line, code?)
}

#[tactic(auto, unfolding(crate::specs::DeviceCard::coded_by))]
fn coded_by(line: &[u8], code: DeviceCode) -> Result<Coded, Fault>
    ensures value { result ≡ coded_by line.now code }
    ensures a { IfOk result (λ coded. HasRangeOfA coded.0 coded.1.0) }
    ensures d { IfOk result (λ coded. IsTrue (needs_d coded.0) → IsSome coded.1.1) }
{
    let (a, d) = both(a_by(line, code), named_d(line, code))?;
    Ok((code, (a, d)))
}

fn a_by(line: &[u8], code: DeviceCode) -> Result<i64, Fault>
    ensures value { result ≡ a_by line.now code }
    ensures range { IfOk result (HasRangeOfA code) }
{
    match code {
        DeviceCode::Delay | DeviceCode::DelayedPulse => delay(line),
        DeviceCode::EffectiveValue => hertz(line),
        _ => PLAIN.number_or(0, line),
    }
}

fn delay(line: &[u8]) -> Result<i64, Fault>
    ensures value { result ≡ delay_field line.now }
    ensures range { IfOk result (IsBetween 0 LARGEST_TIME) }
{
    DELAY.number_or(0, line)
}

fn hertz(line: &[u8]) -> Result<i64, Fault>
    ensures value { result ≡ hertz_field line.now }
    ensures range { IfOk result (IsBetween 1 (10 ^ 13)) }
{
    FREQUENCY.required(line)
}

/// The variable D.
fn named_d(line: &[u8], code: DeviceCode) -> Result<Option<Name>, Fault>
    ensures value { result ≡ d_field line.now code }
    ensures some { IfOk result (λ d. IsTrue (needs_d code) → IsSome d) }
{
    d_by(code, in_column(69, field_name(line, 69))?)
}

/// A device that looks at a variable D has one.
fn d_by(code: DeviceCode, d: Option<Name>) -> Result<Option<Name>, Fault>
    ensures value { result ≡ d_by code d }
    ensures some { IfOk result (λ name. IsTrue (needs_d code) → IsSome name) }
{
    match d {
        Some(name) => Ok(Some(name)),
        None if needs_d(code) => Err(Fault {
            column: 69,
            why: Why::BadName,
        }),
        None => Ok(None),
    }
}

fn needs_d(code: DeviceCode) -> bool
    ensures { result ≡ needs_d code }
{
    matches!(
        code,
        DeviceCode::Gate | DeviceCode::GateAbove | DeviceCode::Selector
    )
}

/// The inputs, and the variable E.
#[tactic(auto, unfolding(crate::specs::DeviceCard::variables_of))]
fn named_variables(line: &[u8]) -> Result<Variables, Fault>
    ensures { result ≡ variables_of line.now }
{
    both(inputs(line), in_column(75, field_name(line, 75)))
}

/// The numbers B and C.
#[tactic(auto, unfolding(crate::specs::DeviceCard::plain_fields))]
fn plain_numbers(line: &[u8]) -> Result<(i64, i64), Fault>
    ensures value { result ≡ plain_fields line.now }
    ensures b { IfOk result (λ plain. IsSmall plain.0) }
    ensures c { IfOk result (λ plain. IsSmall plain.1) }
{
    both(B.number_or(0, line), C.number_or(0, line))
}
