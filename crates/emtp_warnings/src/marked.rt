//! Which columns of a line are read: the ruler of its card.

ghost use Rattle.std.specs.Prelude.{◌≡◌, ◌≤◌, length};
ghost use Rattle.emtp_netcards.specs.BranchCard.{kind_field};
ghost use Rattle.emtp_netcards.specs.OutputCard.{output_card};
ghost use Rattle.emtp_netcards.specs.SourceCard as sources;
ghost use Rattle.emtp_netcards.specs.SwitchCard as switches;
ghost use Rattle.emtp_taccards.specs.TacsSourceCard.{tacs_source_card};
ghost use Rattle.emtp_warnings.specs.Marked.{extra_ruler, field_ruler, fullest_ruler, names_another, output_ruler, ends_points, point_ruler, ruler_of, ruler_of_kind, source_ruler, switch_ruler, tacs_source_ruler};

use crate::rulers::{
    ALL_NODES, BLOCK, CONTROLLED, COPY, COSINE, DEVICE, ENDING, FIRST_RUN, FORMULA, FREE, LEVEL,
    LINE, MEASURED, MEASURING, NAMES, POINT, POLYNOMIAL, PULSE, RAMP, RESISTOR, SAW, SECOND_RUN,
    SERIES, STEP, TACS_COSINE, THIRD_PHASE, TIME_SWITCH, TOLERANCE, VALVE, VARIABLE, WIDE_SERIES,
};
use emtp_card::{Line, MAX_BYTES, ends_section, field_text};
use emtp_case::Shape;
use emtp_netcards::{
    BranchKind, OutputCard, PointScale, SourceType, SwitchType, branch_kind, outputs, point,
    source_type, switch_type,
};
use emtp_taccards::tacs_source;
use emtp_walk::Kind;

/// The ruler for the fields of a line: of a card whose own columns don't say which one it has, as one of no known type, that of
/// the fullest type; nothing where the line has no fields.
pub fn field_ruler(line: &Line<'_>, kind: Kind) -> &'static [u8]
    requires { length line.now.bytes.now ≤ MAX_BYTES }
    ensures { result.now ≡ field_ruler line.now.number line.now.bytes.now kind }
{
    let ruler = ruler_of(line, kind);
    if ruler == FREE {
        fullest_ruler(kind)
    } else {
        ruler
    }
}

/// The ruler of the type of a card that has the most fields.
fn fullest_ruler(kind: Kind) -> &'static [u8]
    ensures { result.now ≡ fullest_ruler kind }
{
    match kind {
        Kind::TacsSource => TACS_COSINE,
        Kind::Branch(wide) => { if wide { WIDE_SERIES } else { SERIES } }
        Kind::Switch => TIME_SWITCH,
        Kind::Source => COSINE,
        Kind::Output => NAMES,
        _ => b"",
    }
}

/// The ruler of a line by as what it is read. The coefficients of powers above the order aren't read.
pub(crate) fn ruler_of(line: &Line<'_>, kind: Kind) -> &'static [u8]
    requires { length line.now.bytes.now ≤ MAX_BYTES }
    ensures { result.now ≡ ruler_of line.now.number line.now.bytes.now kind }
{
    match kind {
        Kind::Tolerance => TOLERANCE,
        Kind::FirstRun => FIRST_RUN,
        Kind::SecondRun => {
            if ends_section(line.bytes) {
                FREE
            } else {
                SECOND_RUN
            }
        }
        Kind::Block => BLOCK,
        Kind::Coefficients(order) => &POLYNOMIAL[..(10 * (order as usize + 1)).min(80)],
        Kind::TacsSource => tacs_source_ruler(line),
        Kind::Extra => extra_ruler(line.bytes),
        Kind::TacsOutput => NAMES,
        Kind::Branch(wide) => branch_ruler(line.bytes, wide),
        Kind::Point(scale) => point_ruler(line, scale),
        Kind::Switch => switch_ruler(line.bytes),
        Kind::Source => source_ruler(line.bytes),
        Kind::Output => output_ruler(line),
        _ => FREE,
    }
}

/// The values of a card that takes those of another, which columns 15 to 26 name, aren't read.
fn branch_ruler(line: &[u8], wide: bool) -> &'static [u8]
    ensures { result.now ≡ ruler_of_kind wide (names_another line.now) (kind_field line.now) }
{
    let copies = !(field_text(line, 15, 20).is_empty() && field_text(line, 21, 26).is_empty());
    match branch_kind(line) {
        Ok(BranchKind::Third) => THIRD_PHASE,
        Ok(BranchKind::Reactor) => COPY,
        Err(_) => FREE,
        Ok(_) if copies => COPY,
        Ok(BranchKind::Series) => { if wide { WIDE_SERIES } else { SERIES } }
        Ok(BranchKind::Line) | Ok(BranchKind::Second) => LINE,
        Ok(BranchKind::Resistor) => RESISTOR,
    }
}

fn switch_ruler(line: &[u8]) -> &'static [u8]
    ensures { result.now ≡ switch_ruler (switches.is_measuring line.now) (switches.type_field line.now) }
{
    let measuring = field_text(line, 55, 64) == b"MEASURING".as_slice();
    match switch_type(line) {
        Ok(SwitchType::Time) => { if measuring { MEASURING } else { TIME_SWITCH } }
        Ok(SwitchType::Valve) => VALVE,
        Ok(SwitchType::Control) => CONTROLLED,
        Err(_) => FREE,
    }
}

fn source_ruler(line: &[u8]) -> &'static [u8]
    ensures { result.now ≡ source_ruler (sources.type_field line.now) }
{
    match source_type(line) {
        Ok(SourceType::Step) => STEP,
        Ok(SourceType::Ramp) => RAMP,
        Ok(SourceType::Cosine) => COSINE,
        Ok(SourceType::Tacs) => VARIABLE,
        Err(_) => FREE,
    }
}

fn output_ruler(line: &Line<'_>) -> &'static [u8]
    requires { length line.now.bytes.now ≤ MAX_BYTES }
    ensures { result.now ≡ output_ruler (output_card line.now.number line.now.bytes.now) }
{
    match outputs(*line) {
        Ok(OutputCard::All) => ALL_NODES,
        Ok(OutputCard::Names(_)) => NAMES,
        Err(_) => FREE,
    }
}

/// A card of its own ends points.
fn point_ruler(line: &Line<'_>, scale: PointScale) -> &'static [u8]
    requires { length line.now.bytes.now ≤ MAX_BYTES }
    ensures { result.now ≡ point_ruler (ends_points line.now.number line.now.bytes.now scale) }
{
    match point(*line, scale) {
        Ok(None) => ENDING,
        _ => POINT,
    }
}

fn tacs_source_ruler(line: &Line<'_>) -> &'static [u8]
    requires { length line.now.bytes.now ≤ MAX_BYTES }
    ensures { result.now ≡ tacs_source_ruler (tacs_source_card line.now.number line.now.bytes.now) }
{
    let Ok(card) = tacs_source(*line) else {
        return FREE;
    };
    match card.shape {
        Shape::Step => LEVEL,
        Shape::Cosine { .. } => TACS_COSINE,
        Shape::Pulse { .. } => PULSE,
        Shape::Saw { .. } => SAW,
        Shape::NodeVoltage { .. } | Shape::SwitchCurrent { .. } | Shape::SwitchStatus { .. } => {
            MEASURED
        }
        Shape::Ramp { .. } | Shape::Tacs { .. } => FREE,
    }
}

/// A formula is known by its blank columns 9 and 10.
fn extra_ruler(line: &[u8]) -> &'static [u8]
    ensures { result.now ≡ extra_ruler line.now }
{
    let code = field_text(line, 9, 10);
    if code.is_empty() { FORMULA } else { DEVICE }
}
