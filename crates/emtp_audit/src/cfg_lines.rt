//! The lines of the configuration that say something of the data.
ghost use Rattle.std.specs.Prelude.{◌≡◌, false, ◌+◌, ◌<◌, ◌≤◌, ◌≤ℤ◌, [], ◌∷◌, length, pos, slice_index_or, unsigned_abs, unwrap_or, IfOk, IfErr, OnOk};
ghost use Rattle.emtp_comtrade.specs.Record.{analog_before};
ghost use Rattle.emtp_audit.specs.Cfg.{analog_rule, named_rule, identity_rules, scale_rule, rates_rule, unit_rule, file_line, scale_number, scale_on, rates_number, rates_on, unit_number, unit_on};
ghost use Rattle.emtp_audit.specs.held.Dat.{IsScale};
ghost use Rattle.emtp_audit.specs.Rules.{line_differs};
ghost use Rattle.emtp_audit.specs.held.Walk.{Walks, Behind, difference_in, Passes, StopsAt};
ghost use Rattle.emtp_audit.specs.declared.limit.TheConstants.{LARGEST_SCALE, LARGEST_UNIT, MOST_FIELDS};

use crate::check::{Check, walk_checks};
use crate::differs::{DifferCause, Differs};
use crate::fields::Fields;
use crate::lines::Lines;
use crate::numbers::{rates_number, scale_number, unit_number};
use crate::scale::Scale;
use emtp_case::Case;
use emtp_comtrade::unit_at;

// ---- analog channels

/// The analog channel at a place has to come next. Answers its scale.
pub(crate) fn read_scale(
    lines: &mut Lines<'_>,
    case: &Case,
    place: usize,
    analog: u32,
) -> Result<Scale, Differs>
    requires place { place < length case.now.parts.channels }
    requires analog { analog ≡ analog_before case.now.parts place }
    ensures ok { OnOk result (Passes lines.old lines.new (analog_rule case.now.parts place ∷ [])) }
    ensures err { IfErr result (StopsAt lines.old (analog_rule case.now.parts place ∷ [])) }
    ensures value { IfOk result (λ scale. scale ≡ scale_on (file_line lines.old.lines 0)) }
    ensures limits { IfOk result IsScale }
{
    let mut name = [0; 16];
    let len = case.channel_name(place, &mut name);
    read_named(lines, analog + 1, &name[..len], unit_at(case, place))
}

/// The analog channel of a number, a name and a unit has to come next.
fn read_named<'a>(
    lines: &mut Lines<'_>,
    number: u32,
    name: &'a [u8],
    unit: &'a [u8],
) -> Result<Scale, Differs>
    ensures ok { OnOk result (Passes lines.old lines.new (named_rule number name.now unit.now ∷ [])) }
    ensures err { IfErr result (StopsAt lines.old (named_rule number name.now unit.now ∷ [])) }
    ensures value { IfOk result (λ scale. scale ≡ scale_on (file_line lines.old.lines 0)) }
    ensures limits { IfOk result IsScale }
{
    match lines.take() {
        Ok(text) => scale_line(lines.number(), text, number, name, unit),
        Err(differs) => Err(differs),
    }
}

fn scale_line<'a>(
    line: u32,
    text: &[u8],
    number: u32,
    name: &'a [u8],
    unit: &'a [u8],
) -> Result<Scale, Differs>
    ensures same { line_differs false line (named_rule number name.now unit.now) text.now ≡ difference_in result }
    ensures value { IfOk result (λ scale. scale ≡ scale_on text.now) }
    ensures limits { IfOk result IsScale }
{
    let mut fields = Fields::of(false, line, text);
    match walk_identity(&mut fields, number, name, unit) {
        Ok(()) => {}
        Err(differs) => return Err(differs),
    }
    let scale = match read_scale_numbers(&mut fields) {
        Ok(scale) => scale,
        Err(differs) => return Err(differs),
    };
    match walk_checks(&mut fields, &[Check::Any; 6]) {
        Ok(()) => {}
        Err(differs) => return Err(differs),
    }
    match fields.finish() {
        Ok(()) => Ok(scale),
        Err(differs) => Err(differs),
    }
}

/// The number, the name and the unit of a channel have to come next.
fn walk_identity<'a>(
    fields: &mut Fields<'_>,
    number: u32,
    name: &'a [u8],
    unit: &'a [u8],
) -> Result<(), Differs>
    requires { fields.old.number ≡ 1 }
    ensures walks { Walks result fields.old fields.new (identity_rules number name.now unit.now) }
    ensures next { OnOk result (fields.new.number ≡ 6) }
    ensures behind { OnOk result (Behind fields.old.fields 5 fields.new.fields) }
{
    walk_checks(
        fields,
        &[
            Check::Number(number),
            Check::Text(name),
            Check::Any,
            Check::Any,
            Check::Text(unit),
        ],
    )
}

/// Both numbers of a scale have to come next.
fn read_scale_numbers(fields: &mut Fields<'_>) -> Result<Scale, Differs>
    requires { fields.old.number ≡ 6 }
    ensures walks { Walks result fields.old fields.new (scale_rule ∷ scale_rule ∷ []) }
    ensures next { OnOk result (fields.new.number ≡ 8) }
    ensures a { IfOk result (λ scale. scale.a
        ≡ unwrap_or (scale_number (slice_index_or fields.old.fields 0 [])) (pos 0)) }
    ensures b { IfOk result (λ scale. scale.b
        ≡ unwrap_or (scale_number (slice_index_or fields.old.fields 1 [])) (pos 0)) }
    ensures limits { IfOk result IsScale }
{
    let a = match read_scale_number(fields) {
        Ok(a) => a,
        Err(differs) => return Err(differs),
    };
    match read_scale_number(fields) {
        Ok(b) => Ok(Scale { a, b }),
        Err(differs) => Err(differs),
    }
}

fn read_scale_number(fields: &mut Fields<'_>) -> Result<i128, Differs>
    requires { fields.old.number ≤ MOST_FIELDS }
    ensures walks { Walks result fields.old fields.new (scale_rule ∷ []) }
    ensures next { OnOk result (fields.new.number ≡ fields.old.number + 1) }
    ensures behind { OnOk result (Behind fields.old.fields 1 fields.new.fields) }
    ensures value { IfOk result (λ number. number
        ≡ unwrap_or (scale_number (slice_index_or fields.old.fields 0 [])) (pos 0)) }
    ensures limit { IfOk result (λ number. unsigned_abs number ≤ LARGEST_SCALE) }
{
    let field = match fields.take() {
        Ok(field) => field,
        Err(differs) => return Err(differs),
    };
    match scale_number(field) {
        Some(number) => Ok(number),
        None => Err(fields.differs(DifferCause::NotNumber)),
    }
}

// ---- the sampling rates

/// The number of sampling rates has to come next.
pub(crate) fn read_rates(lines: &mut Lines<'_>) -> Result<u32, Differs>
    ensures ok { OnOk result (Passes lines.old lines.new (rates_rule ∷ [])) }
    ensures err { IfErr result (StopsAt lines.old (rates_rule ∷ [])) }
    ensures value { IfOk result (λ rates. rates ≡ rates_on (file_line lines.old.lines 0)) }
{
    match lines.take() {
        Ok(text) => rates_line(lines.number(), text),
        Err(differs) => Err(differs),
    }
}

fn rates_line(line: u32, text: &[u8]) -> Result<u32, Differs>
    ensures same { line_differs false line rates_rule text.now ≡ difference_in result }
    ensures value { IfOk result (λ rates. rates ≡ rates_on text.now) }
{
    let mut fields = Fields::of(false, line, text);
    let field = match fields.take() {
        Ok(field) => field,
        Err(differs) => return Err(differs),
    };
    let rates = match rates_number(field) {
        Some(rates) => rates,
        None => return Err(fields.differs(DifferCause::NotNumber)),
    };
    match fields.finish() {
        Ok(()) => Ok(rates as u32),
        Err(differs) => Err(differs),
    }
}

// ---- the unit of time stamps

/// The unit of time stamps has to come next.
pub(crate) fn read_unit(lines: &mut Lines<'_>) -> Result<i64, Differs>
    ensures ok { OnOk result (Passes lines.old lines.new (unit_rule ∷ [])) }
    ensures err { IfErr result (StopsAt lines.old (unit_rule ∷ [])) }
    ensures value { IfOk result (λ unit. unit ≡ unit_on (file_line lines.old.lines 0)) }
    ensures least { IfOk result (λ unit. pos 1 ≤ℤ unit) }
    ensures most { IfOk result (λ unit. unit ≤ℤ pos LARGEST_UNIT) }
{
    match lines.take() {
        Ok(text) => unit_line(lines.number(), text),
        Err(differs) => Err(differs),
    }
}

fn unit_line(line: u32, text: &[u8]) -> Result<i64, Differs>
    ensures same { line_differs false line unit_rule text.now ≡ difference_in result }
    ensures value { IfOk result (λ unit. unit ≡ unit_on text.now) }
    ensures least { IfOk result (λ unit. pos 1 ≤ℤ unit) }
    ensures most { IfOk result (λ unit. unit ≤ℤ pos LARGEST_UNIT) }
{
    let mut fields = Fields::of(false, line, text);
    let field = match fields.take() {
        Ok(field) => field,
        Err(differs) => return Err(differs),
    };
    let unit = match unit_number(field) {
        Some(unit) => unit,
        None => return Err(fields.differs(DifferCause::NotNumber)),
    };
    match fields.finish() {
        Ok(()) => Ok(unit as i64),
        Err(differs) => Err(differs),
    }
}
