//! The names of a card's fields over their columns.

ghost use Rattle.std.specs.Prelude.{◌≡◌, ◌≤◌, length, take_while};
ghost use Rattle.emtp_causes.specs.Legend.{branch_legend, card_legend, dash_count, extra_legend, field_name, point_legend, switch_legend, without_dashes};

use crate::texts::{
    BLOCK_FIELDS, CHARACTERISTIC_FIELDS, COEFFICIENT_FIELDS, DEVICE_FIELDS, FIRST_RUN_FIELDS,
    FORMULA_FIELDS, LINE_FIELDS, OUTPUT_FIELDS, PAIR_FIELDS, RESISTOR_FIELDS, SECOND_RUN_FIELDS,
    SERIES_FIELDS, SOURCE_FIELDS, TACS_SOURCE_FIELDS, TIME_SWITCH_FIELDS, TOLERANCE_FIELDS,
    VALVE_FIELDS, WIDE_SERIES_FIELDS,
};
use emtp_card::{Why, columns, field_text};
use emtp_netcards::{BranchKind, PointScale, SwitchType, branch_kind, switch_type};
use emtp_walk::Kind;

/// The names of the fields of the card that a line is read as; nothing where it has no fields.
pub fn card_legend(line: &[u8], kind: Kind) -> &'static [u8]
    ensures { result.now ≡ card_legend line.now kind }
{
    match kind {
        Kind::Tolerance => TOLERANCE_FIELDS,
        Kind::FirstRun => FIRST_RUN_FIELDS,
        Kind::SecondRun => SECOND_RUN_FIELDS,
        Kind::Block => BLOCK_FIELDS,
        Kind::Coefficients(_) => COEFFICIENT_FIELDS,
        Kind::TacsSource => TACS_SOURCE_FIELDS,
        Kind::Extra => extra_legend(line),
        Kind::TacsOutput | Kind::Output => OUTPUT_FIELDS,
        Kind::Branch(wide) => branch_legend(wide, &branch_kind(line)),
        Kind::Point(scale) => point_legend(scale),
        Kind::Switch => switch_legend(&switch_type(line)),
        Kind::Source => SOURCE_FIELDS,
        Kind::Comment
        | Kind::SectionEnd
        | Kind::Begin
        | Kind::Hybrid
        | Kind::Initial
        | Kind::Vintage
        | Kind::After => b"",
    }
}

/// The name of the field that the card of a line has in these columns; nothing where it has none.
pub fn field_name(line: &[u8], kind: Kind, first: usize, last: usize) -> &'static [u8]
    requires some { 1 ≤ first }
    requires order { first ≤ last }
    ensures { result.now ≡ field_name line.now kind first last }
{
    without_dashes(columns(card_legend(line, kind), first, last))
}

/// A name that dashes fill up to the width of its field.
fn without_dashes(name: &'static [u8]) -> &'static [u8]
    ensures { result.now ≡ without_dashes name.now }
{
    &name[..name.len() - dash_count(name)]
}

/// How many dashes stand at the end.
fn dash_count(name: &[u8]) -> usize
    ensures count { result ≡ dash_count name.now }
    ensures within { result ≤ length name.now }
{
    name.iter().rev().take_while(|byte| **byte == b'-').count()
}

/// A card of no known type is shown as a series branch.
fn branch_legend(wide: bool, kind: &Result<BranchKind, Why>) -> &'static [u8]
    ensures { result.now ≡ branch_legend wide kind.now }
{
    match kind {
        Ok(BranchKind::Line) | Ok(BranchKind::Second) | Ok(BranchKind::Third) => LINE_FIELDS,
        Ok(BranchKind::Reactor) | Ok(BranchKind::Resistor) => RESISTOR_FIELDS,
        Ok(BranchKind::Series) | Err(_) => {
            if wide {
                WIDE_SERIES_FIELDS
            } else {
                SERIES_FIELDS
            }
        }
    }
}

/// A formula is known by its blank columns 9 and 10.
fn extra_legend(line: &[u8]) -> &'static [u8]
    ensures { result.now ≡ extra_legend line.now }
{
    if field_text(line, 9, 10).is_empty() {
        FORMULA_FIELDS
    } else {
        DEVICE_FIELDS
    }
}

fn point_legend(scale: PointScale) -> &'static [u8]
    ensures { result.now ≡ point_legend scale }
{
    match scale {
        PointScale::Resistor | PointScale::Reactor => CHARACTERISTIC_FIELDS,
        PointScale::Table | PointScale::Times => PAIR_FIELDS,
    }
}

fn switch_legend(kind: &Result<SwitchType, Why>) -> &'static [u8]
    ensures { result.now ≡ switch_legend kind.now }
{
    match kind {
        Ok(SwitchType::Valve) | Ok(SwitchType::Control) => VALVE_FIELDS,
        Ok(SwitchType::Time) | Err(_) => TIME_SWITCH_FIELDS,
    }
}
