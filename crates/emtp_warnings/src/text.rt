//! The text of warnings, a line each.

ghost use Rattle.std.specs.Prelude.{◌≡◌, ◌++◌, ◌≤◌, IfOk, OnOk};
ghost use Rattle.emtp_warnings.specs.WarningText.{clean_text, drift_text, finding_text, number_text, numbers_text, pair_text, piece, quantity_text, spot_text, touching_text, warning_line, warnings_text};

use crate::finding::{Finding, Spot, Warning};
use crate::words::{
    ACTING_CAPACITANCE, ACTS_AS_WIRE, AFTER_END, ASKED_TWICE, BARE_ARRESTER, CASE_ALONE, CLEAN,
    DRIFT, DRIFTS, EARLY_COSINE, LATE_NAME, LATE_TRAVEL, LONE_NODE, MICROFARAD, MILLIHENRY,
    NEVER_ACTS, NO_FREQUENCY, NO_UNIT, NODE_ZERO, NOT_READ, NUMBERS_TOUCH, OHM, OPENS_FIRST,
    OTHER_CAPACITANCE, OTHER_RESISTANCE, SERIES_RESISTANCE, SHORT_TRAVEL, SIDE_BY_SIDE,
    SMALL_CAPACITANCE, WHOLE_RESISTANCE,
};
use emtp_card::{Cards, columns, trim};
use emtp_causes::field_name;
use emtp_text::{put, put_fixed, put_number};
use emtp_walk::{Kind, LineReading};
use std::alloc::{AllocError, Global};

/// The text of warnings, a line each: `warning, line 39, columns 45-54, not read` and so on. This project's own form.
///
/// # Errors
///
/// [`AllocError`] where memory is wanting.
pub fn warnings_text(
    alloc: Global,
    cards: &Cards<'_>,
    readings: &[LineReading],
    found: &[Warning],
) -> Result<Vec<u8>, AllocError>
    ensures { IfOk result (λ text. text.items ≡ warnings_text readings.now cards.now found.now) }
{
    let mut text = Vec::new(alloc);
    for warning in found {
        put_warning(&mut text, cards, readings, warning)?;
    }
    Ok(text)
}

/// Puts the line of a warning after a text.
#[tactic(auto, unfolding(crate::specs::WarningText::warning_line))]
fn put_warning(
    text: &mut Vec<u8>,
    cards: &Cards<'_>,
    readings: &[LineReading],
    warning: &Warning,
) -> Result<(), AllocError>
    ensures { OnOk result (text.new.items ≡ text.old.items ++ warning_line readings.now cards.now warning.now) }
{
    put(text, b"warning, ")?;
    put_spot(text, &warning.spot)?;
    put(text, b", ")?;
    put(text, finding_text(warning.finding))?;
    put_numbers(text, cards, readings, warning)?;
    put(text, b"\n")
}

/// Puts the numbers of a warning after a text.
fn put_numbers(
    text: &mut Vec<u8>,
    cards: &Cards<'_>,
    readings: &[LineReading],
    warning: &Warning,
) -> Result<(), AllocError>
    ensures { OnOk result (text.new.items ≡ text.old.items ++ numbers_text readings.now cards.now warning.now) }
{
    match &warning.finding {
        Finding::NumbersTouch { first, last } => {
            put_touching(text, cards, readings, &warning.spot, (*first, *last))
        }
        Finding::Drifts {
            resistance,
            drift,
            clean,
        } => put_drift(text, *resistance, *drift, *clean),
        Finding::OtherResistance(acting) => put_quantity(text, WHOLE_RESISTANCE, *acting, 9, OHM),
        Finding::OtherCapacitance(acting) => {
            put_quantity(text, ACTING_CAPACITANCE, *acting, 9, MICROFARAD)
        }
        _ => Ok(()),
    }
}

/// Puts two numbers that touch after a text, as they are read, behind the names of their fields: in the columns of a warning the
/// first one's last byte and the second one's first, between the outer columns of both fields.
fn put_touching(
    text: &mut Vec<u8>,
    cards: &Cards<'_>,
    readings: &[LineReading],
    spot: &Spot,
    outer: (usize, usize),
) -> Result<(), AllocError>
    ensures { OnOk result (text.new.items ≡ text.old.items ++ touching_text readings.now cards.now spot.now outer.0 outer.1) }
{
    match spot {
        Spot::Columns {
            line,
            first: at,
            last: next,
        } => {
            let before = line.saturating_sub(1) as usize;
            match (cards.lines().get(before), readings.get(before)) {
                (Some(line), Some(read)) => {
                    put_pair(text, line, read.kind, (outer.0, *at), (*next, outer.1))
                }
                _ => Ok(()),
            }
        }
        _ => Ok(()),
    }
}

/// Puts the resistance that a branch acts with after a text, what it does over the run, and the inductance that has none.
#[tactic(auto, unfolding(crate::specs::WarningText::drift_text))]
fn put_drift(
    text: &mut Vec<u8>,
    resistance: i64,
    drift: i64,
    clean: Option<i64>,
) -> Result<(), AllocError>
    ensures { OnOk result (text.new.items ≡ text.old.items ++ drift_text resistance drift clean) }
{
    put_quantity(text, SERIES_RESISTANCE, resistance, 9, OHM)?;
    put_quantity(text, DRIFT, drift, 9, NO_UNIT)?;
    put_clean(text, clean)
}

fn put_clean(text: &mut Vec<u8>, clean: Option<i64>) -> Result<(), AllocError>
    ensures { OnOk result (text.new.items ≡ text.old.items ++ clean_text clean) }
{
    match clean {
        None => Ok(()),
        Some(l) => put_quantity(text, CLEAN, l, 6, MILLIHENRY),
    }
}

/// Puts a number in parts of 10^-places after a text, between its name and its unit.
#[tactic(auto, unfolding(crate::specs::WarningText::quantity_text))]
fn put_quantity(
    text: &mut Vec<u8>,
    name: &[u8],
    value: i64,
    places: usize,
    unit: &[u8],
) -> Result<(), AllocError>
    requires { places ≤ 18 }
    ensures { OnOk result (text.new.items ≡ text.old.items ++ quantity_text name.now value places unit.now) }
{
    put(text, name)?;
    put_fixed(text, value, places)?;
    put(text, unit)
}

/// Puts the numbers of two fields after a text, each by its first and its last column.
#[tactic(auto, unfolding(crate::specs::WarningText::pair_text))]
fn put_pair(
    text: &mut Vec<u8>,
    line: &[u8],
    kind: Kind,
    one: (usize, usize),
    other: (usize, usize),
) -> Result<(), AllocError>
    ensures { OnOk result (text.new.items ≡ text.old.items ++ pair_text line.now kind one.1 other.0 one.0 other.1) }
{
    put(text, b": ")?;
    put_field(text, line, kind, one)?;
    put(text, b", ")?;
    put_field(text, line, kind, other)
}

/// Puts the number of a field after a text, behind the field's name.
#[tactic(auto, unfolding(crate::specs::WarningText::number_text))]
fn put_field(
    text: &mut Vec<u8>,
    line: &[u8],
    kind: Kind,
    field: (usize, usize),
) -> Result<(), AllocError>
    ensures { OnOk result (text.new.items ≡ text.old.items ++ number_text line.now kind field.0 field.1) }
{
    let first = field.0.max(1);
    put(text, field_name(line, kind, first, field.1.max(first)))?;
    put(text, b"=")?;
    put(text, piece(line, field.0, field.1))
}

/// What stands in columns, without the outer blanks.
fn piece(line: &[u8], first: usize, last: usize) -> &[u8]
    ensures { result.now ≡ piece line.now first last }
{
    let first = first.max(1);
    trim(columns(line, first, last.max(first)))
}

/// Puts after a text where a warning points.
#[tactic(auto, unfolding(crate::specs::WarningText::columns_text))]
fn put_spot(text: &mut Vec<u8>, spot: &Spot) -> Result<(), AllocError>
    ensures { OnOk result (text.new.items ≡ text.old.items ++ spot_text spot.now) }
{
    match spot {
        Spot::Columns { line, first, last } => {
            put(text, b"line ")?;
            put_number(text, *line)?;
            put(text, b", columns ")?;
            put_number(text, *first)?;
            put(text, b"-")?;
            put_number(text, *last)
        }
        Spot::Line(line) => {
            put(text, b"line ")?;
            put_number(text, *line)
        }
        Spot::Channel(place) => {
            put(text, b"channel ")?;
            put_number(text, *place)
        }
    }
}

/// The words for what is warned of.
fn finding_text(finding: Finding) -> &'static [u8]
    ensures { result.now ≡ finding_text finding }
{
    match finding {
        Finding::NotRead => NOT_READ,
        Finding::NumbersTouch { .. } => NUMBERS_TOUCH,
        Finding::LateName => LATE_NAME,
        Finding::LoneNode => LONE_NODE,
        Finding::NodeZero => NODE_ZERO,
        Finding::CaseAlone => CASE_ALONE,
        Finding::NoFrequency => NO_FREQUENCY,
        Finding::ShortTravel => SHORT_TRAVEL,
        Finding::LateTravel => LATE_TRAVEL,
        Finding::SmallCapacitance => SMALL_CAPACITANCE,
        Finding::SideBySide => SIDE_BY_SIDE,
        Finding::AfterEnd => AFTER_END,
        Finding::EarlyCosine => EARLY_COSINE,
        Finding::NeverActs => NEVER_ACTS,
        Finding::OpensFirst => OPENS_FIRST,
        Finding::AskedTwice => ASKED_TWICE,
        Finding::Drifts { .. } => DRIFTS,
        Finding::OtherResistance(_) => OTHER_RESISTANCE,
        Finding::OtherCapacitance(_) => OTHER_CAPACITANCE,
        Finding::ActsAsWire => ACTS_AS_WIRE,
        Finding::BareArrester => BARE_ARRESTER,
    }
}
