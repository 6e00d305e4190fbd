//! What the number of a field is: its unit, its range, and its value as it is read.

ghost use Rattle.std.specs.Prelude.{◌≡◌, ◌++◌, ◌≤◌, OnOk, unsigned_abs};
ghost use Rattle.emtp_fields.specs.Measure.{measured_blank, span_text, held_text, measure_with, measured_text, measured_number, places, measured_range, read_by, measured_value, stands_for_zero, unit_text};
ghost use Rattle.emtp_card.specs.held.NumberField.{IsNumberField};
ghost use Rattle.emtp_fields.specs.held.Measure.{IsMeasure};

use emtp_card::{NumberField, Why, field_held, field_number, field_whole};
use emtp_text::{put, put_fixed};
use std::alloc::AllocError;

/// The unit that a number is written in.
#[derive(Clone, Copy)]
pub(crate) enum Unit {
    /// ohm.
    Ohm,
    /// mH.
    Millihenry,
    /// uF.
    Microfarad,
    /// s.
    Second,
    /// V.
    Volt,
    /// A.
    Ampere,
    /// Wb.
    Weber,
    /// Hz.
    Hertz,
    /// degree.
    Degree,
    /// None.
    Plain,
    /// None; a whole number.
    Whole,
}

/// How a field is read.
#[derive(Clone, Copy)]
pub(crate) enum Reading {
    /// A number; what is out of its range is refused.
    Number,
    /// A number; of one out of its range the nearer end is taken.
    Held,
    /// A whole number.
    Whole,
}

/// What a blank field is read as.
#[derive(Clone, Copy)]
pub(crate) enum Blank {
    /// It is refused, or there is no such number.
    Nothing,
    /// 0.
    Zero,
    /// 1, as a 0 is.
    One,
    /// Never, as a 0 is.
    Never,
    /// Never.
    Open,
}

/// What the number of a field is.
#[derive(Clone, Copy)]
pub(crate) struct Measure {
    /// Its columns, the unit that it is kept in, and its range.
    pub(crate) field: NumberField,
    /// The unit that it is written in.
    pub(crate) unit: Unit,
    /// What a blank field is read as.
    pub(crate) blank: Blank,
    /// How it is read.
    pub(crate) reading: Reading,
}

/// What the number of a field is, by the field, the unit that it is written in, what a blank one is and how it is read.
pub(crate) fn measure_with(
    field: NumberField,
    unit: Unit,
    blank: Blank,
    reading: Reading,
) -> Measure
    requires field { IsNumberField field }
    requires places { unsigned_abs field.scale ≤ 18 }
    ensures value { result ≡ measure_with field unit blank reading }
    ensures field { IsMeasure result }
{
    Measure {
        field,
        unit,
        blank,
        reading,
    }
}

pub(crate) const OHM: &[u8] = b"ohm";

pub(crate) const MILLIHENRY: &[u8] = b"mH";

pub(crate) const MICROFARAD: &[u8] = b"uF";

pub(crate) const SECOND: &[u8] = b"s";

pub(crate) const VOLT: &[u8] = b"V";

pub(crate) const AMPERE: &[u8] = b"A";

pub(crate) const WEBER: &[u8] = b"Wb";

pub(crate) const HERTZ: &[u8] = b"Hz";

pub(crate) const DEGREE: &[u8] = b"degree";

pub(crate) const PLAIN: &[u8] = b"";

/// In place of a unit.
pub(crate) const WHOLE: &[u8] = b"whole";

/// Between the ends of a range.
pub(crate) const TO: &[u8] = b" to ";

/// Behind a range that a number is held to.
pub(crate) const HELD: &[u8] = b", the nearer end beyond";

pub(crate) const ZERO: &[u8] = b"0";

pub(crate) const ONE: &[u8] = b"1";

pub(crate) const NEVER: &[u8] = b"never";

/// In place of unit, range and value, where a field holds no number.
pub(crate) const UNMEASURED: &[u8] = b"\t\t";

/// Puts the unit of a field's number after a text, its range, and its value as it is read on a line.
#[tactic(auto, unfolding(crate::specs::Measure::measured_text))]
pub(crate) fn put_measured(
    out: &mut Vec<u8>,
    line: &[u8],
    measure: &Measure,
) -> Result<(), AllocError>
    requires { IsMeasure measure.now }
    ensures { OnOk result (out.new.items ≡ out.old.items ++ measured_text line.now measure.now) }
{
    put(out, unit_text(measure.unit))?;
    put(out, b"\t")?;
    put_range(out, measure)?;
    put(out, b"\t")?;
    put_read(out, line, measure)
}

fn unit_text(unit: Unit) -> &'static [u8]
    ensures { result.now ≡ unit_text unit }
{
    match unit {
        Unit::Ohm => OHM,
        Unit::Millihenry => MILLIHENRY,
        Unit::Microfarad => MICROFARAD,
        Unit::Second => SECOND,
        Unit::Volt => VOLT,
        Unit::Ampere => AMPERE,
        Unit::Weber => WEBER,
        Unit::Hertz => HERTZ,
        Unit::Degree => DEGREE,
        Unit::Plain => PLAIN,
        Unit::Whole => WHOLE,
    }
}

/// Puts a range after a text; a number that has no other stands alone.
fn put_range(out: &mut Vec<u8>, measure: &Measure) -> Result<(), AllocError>
    requires { IsMeasure measure.now }
    ensures { OnOk result (out.new.items ≡ out.old.items ++ measured_range measure.now) }
{
    let field = measure.field;
    if field.low == field.high {
        put_fixed(out, field.low, places(measure))
    } else {
        put_ends(out, measure)
    }
}

/// Puts both ends of a range after a text, and whether a number is held to it.
#[tactic(auto, unfolding(crate::specs::Measure::span_text))]
fn put_ends(out: &mut Vec<u8>, measure: &Measure) -> Result<(), AllocError>
    requires { IsMeasure measure.now }
    ensures { OnOk result (out.new.items ≡ out.old.items ++ span_text measure.now) }
{
    put_fixed(out, measure.field.low, places(measure))?;
    put(out, TO)?;
    put_fixed(out, measure.field.high, places(measure))?;
    put(out, held_text(measure.reading))
}

fn held_text(reading: Reading) -> &'static [u8]
    ensures { result.now ≡ held_text reading }
{
    match reading {
        Reading::Held => HELD,
        Reading::Number | Reading::Whole => PLAIN,
    }
}

/// The digits behind the point that are kept of a number.
fn places(measure: &Measure) -> usize
    requires { IsMeasure measure.now }
    ensures value { result ≡ places measure.now }
    ensures few { result ≤ 18 }
{
    measure.field.scale.unsigned_abs() as usize
}

/// Puts what is read of a field after a text: nothing of what is refused.
fn put_read(out: &mut Vec<u8>, line: &[u8], measure: &Measure) -> Result<(), AllocError>
    requires { IsMeasure measure.now }
    ensures { OnOk result (out.new.items ≡ out.old.items ++ measured_value line.now measure.now) }
{
    match read(line, measure.field, measure.reading) {
        Ok(None) => put(out, measured_blank(measure.blank)),
        Ok(Some(value)) => put_number(out, value, measure),
        Err(_) => Ok(()),
    }
}

/// What a card's reader reads of a field.
fn read(line: &[u8], field: NumberField, reading: Reading) -> Result<Option<i64>, Why>
    requires { IsNumberField field }
    ensures { result ≡ read_by reading field line.now }
{
    let (first, last) = (field.first as usize, field.last as usize);
    match reading {
        Reading::Number => field_number(line, first, last, field.scale, field.low, field.high),
        Reading::Held => field_held(line, first, last, field.scale, field.low, field.high),
        Reading::Whole => field_whole(line, first, last),
    }
}

/// Puts a number that is read after a text: what a blank is read as where it means the same, and nothing where it is out of
/// its range.
fn put_number(out: &mut Vec<u8>, value: i64, measure: &Measure) -> Result<(), AllocError>
    requires { IsMeasure measure.now }
    ensures { OnOk result (out.new.items ≡ out.old.items ++ measured_number measure.now value) }
{
    if value < measure.field.low || measure.field.high < value {
        Ok(())
    } else if value == 0 && stands_for_zero(measure.blank) {
        put(out, measured_blank(measure.blank))
    } else {
        put_fixed(out, value, places(measure))
    }
}

/// Whether a 0 is read as a blank field.
fn stands_for_zero(blank: Blank) -> bool
    ensures { result ≡ stands_for_zero blank }
{
    match blank {
        Blank::One | Blank::Never => true,
        Blank::Nothing | Blank::Zero | Blank::Open => false,
    }
}

fn measured_blank(blank: Blank) -> &'static [u8]
    ensures { result.now ≡ measured_blank blank }
{
    match blank {
        Blank::Nothing => PLAIN,
        Blank::Zero => ZERO,
        Blank::One => ONE,
        Blank::Never | Blank::Open => NEVER,
    }
}
