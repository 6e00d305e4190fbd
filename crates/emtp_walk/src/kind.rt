//! As what a line is read, by the place where it stands.

ghost use Rattle.std.specs.Prelude.{◌≡◌};
ghost use Rattle.emtp_walk.specs.ControlSteps.{device_scale};
ghost use Rattle.emtp_walk.specs.Readings.{branch_kind, card_kind, control_due, control_kind, due, end_or, first_kind, first_of, first_of_control, first_waiting, kind_at, kind_due, line_reading, start_kind, waiting_kind};
ghost use Rattle.emtp_walk.specs.Walk.{is_second, scale_of};

use crate::branch_steps::{is_second, scale_of};
use crate::control_cards::ControlPlace;
use crate::deck::Place;
use crate::device_steps::device_scale;
use emtp_card::{Line, comment, ends_section};
use emtp_netcards::{PointScale, branch_kind as kind_of_branch};

/// As what a line is read: what decides which columns of it are read, but for the type that its own columns give.
#[derive(Clone, Copy, PartialEq, Eq)]
pub enum Kind {
    /// A comment.
    Comment,
    /// A line that ends a section, or a blank one before or behind them.
    SectionEnd,
    /// `BEGIN NEW DATA CASE`.
    Begin,
    /// `RESIDUAL TOLERANCE`.
    Tolerance,
    /// The first miscellaneous card.
    FirstRun,
    /// The second miscellaneous card.
    SecondRun,
    /// `TACS HYBRID`.
    Hybrid,
    /// A block card.
    Block,
    /// The coefficients of a block of this order.
    Coefficients(u8),
    /// A source card of the control.
    TacsSource,
    /// A supplemental card.
    Extra,
    /// An output card of the control.
    TacsOutput,
    /// An initial condition, which no card can give.
    Initial,
    /// A vintage card.
    Vintage,
    /// A branch card; the flag says that the fields of series branches are wide.
    Branch(bool),
    /// A point or a pair of times, or the card that ends them.
    Point(PointScale),
    /// A switch card.
    Switch,
    /// A source card.
    Source,
    /// An output card.
    Output,
    /// A card behind the sections.
    After,
}

/// As what a line is read, and to which card it belongs.
#[derive(Clone, Copy, PartialEq, Eq)]
pub struct LineReading {
    /// As what it is read.
    pub kind: Kind,
    /// The line of the card that it belongs to: that of the branch or the device whose point it is, of the block whose
    /// coefficients it has, of the first of three phases; else its own.
    pub first: u32,
}

/// As what a line is read at a place.
pub(crate) fn line_reading(place: &Place, line: &Line<'_>) -> LineReading
    ensures { result ≡ line_reading line.now.number place.now line.now.bytes.now }
{
    LineReading {
        kind: kind_at(place, line.bytes),
        first: first_of(place, line.number, line.bytes),
    }
}

/// What is due at a place, on the line of a number where no line is.
pub(crate) fn due(place: &Place, number: u32) -> LineReading
    ensures { result ≡ due number place.now }
{
    LineReading {
        kind: kind_due(place),
        first: first_of(place, number, b""),
    }
}

fn kind_at(place: &Place, line: &[u8]) -> Kind
    ensures { result ≡ kind_at place.now line.now }
{
    if comment(line) {
        Kind::Comment
    } else {
        card_kind(place, line)
    }
}

/// As what a line is read that is no comment, in the order in which the step of its place asks.
fn card_kind(place: &Place, line: &[u8]) -> Kind
    ensures { result ≡ card_kind place.now line.now }
{
    match place {
        Place::Begin => end_or(line, Kind::Begin),
        Place::First(_) => first_kind(line),
        Place::Second => Kind::SecondRun,
        Place::Start => start_kind(line),
        Place::Control(at) => control_kind(at, line),
        Place::Branches(wide) => branch_kind(line, *wide),
        Place::Points(group) => Kind::Point(scale_of(group)),
        Place::Waiting { wide, .. } => waiting_kind(line, *wide),
        Place::Third { wide, .. } => Kind::Branch(*wide),
        Place::Switches => end_or(line, Kind::Switch),
        Place::Sources => end_or(line, Kind::Source),
        Place::Outputs => end_or(line, Kind::Output),
        Place::After(_) => end_or(line, Kind::After),
    }
}

/// A line that ends a section, or a card.
fn end_or(line: &[u8], kind: Kind) -> Kind
    ensures { result ≡ end_or line.now kind }
{
    if ends_section(line) {
        Kind::SectionEnd
    } else {
        kind
    }
}

fn first_kind(line: &[u8]) -> Kind
    ensures { result ≡ first_kind line.now }
{
    if line.starts_with(b"RESIDUAL TOLERANCE") {
        Kind::Tolerance
    } else {
        Kind::FirstRun
    }
}

fn start_kind(line: &[u8]) -> Kind
    ensures { result ≡ start_kind line.now }
{
    if line.starts_with(b"TACS HYBRID") {
        Kind::Hybrid
    } else {
        branch_kind(line, false)
    }
}

fn branch_kind(line: &[u8], wide: bool) -> Kind
    ensures { result ≡ branch_kind line.now wide }
{
    if line.starts_with(b"$VINTAGE") {
        end_or(line, Kind::Vintage)
    } else {
        end_or(line, Kind::Branch(wide))
    }
}

/// A card -2 behind a card -1 is its second phase.
fn waiting_kind(line: &[u8], wide: bool) -> Kind
    ensures { result ≡ waiting_kind line.now wide }
{
    if is_second(&kind_of_branch(line)) {
        Kind::Branch(wide)
    } else {
        branch_kind(line, wide)
    }
}

fn control_kind(at: &ControlPlace, line: &[u8]) -> Kind
    ensures { result ≡ control_kind at.now line.now }
{
    match at {
        ControlPlace::Blocks => end_or(line, Kind::Block),
        ControlPlace::Numerator(card) => Kind::Coefficients(card.order),
        ControlPlace::Denominator { card, .. } => Kind::Coefficients(card.order),
        ControlPlace::TacsSources => end_or(line, Kind::TacsSource),
        ControlPlace::Extras => end_or(line, Kind::Extra),
        ControlPlace::DevicePoints(group) => Kind::Point(device_scale(group.card.code)),
        ControlPlace::TacsOutputs => end_or(line, Kind::TacsOutput),
        ControlPlace::Initial => end_or(line, Kind::Initial),
    }
}

/// Which card is due at a place.
fn kind_due(place: &Place) -> Kind
    ensures { result ≡ kind_due place.now }
{
    match place {
        Place::Begin => Kind::Begin,
        Place::First(_) => Kind::FirstRun,
        Place::Second => Kind::SecondRun,
        Place::Start => Kind::Branch(false),
        Place::Control(at) => control_due(at),
        Place::Branches(wide) => Kind::Branch(*wide),
        Place::Points(group) => Kind::Point(scale_of(group)),
        Place::Waiting { wide, .. } => Kind::Branch(*wide),
        Place::Third { wide, .. } => Kind::Branch(*wide),
        Place::Switches => Kind::Switch,
        Place::Sources => Kind::Source,
        Place::Outputs => Kind::Output,
        Place::After(_) => Kind::After,
    }
}

fn control_due(at: &ControlPlace) -> Kind
    ensures { result ≡ control_due at.now }
{
    match at {
        ControlPlace::Blocks => Kind::Block,
        ControlPlace::Numerator(card) => Kind::Coefficients(card.order),
        ControlPlace::Denominator { card, .. } => Kind::Coefficients(card.order),
        ControlPlace::TacsSources => Kind::TacsSource,
        ControlPlace::Extras => Kind::Extra,
        ControlPlace::DevicePoints(group) => Kind::Point(device_scale(group.card.code)),
        ControlPlace::TacsOutputs => Kind::TacsOutput,
        ControlPlace::Initial => Kind::Initial,
    }
}

/// The line of the card that the line of a number belongs to.
fn first_of(place: &Place, number: u32, line: &[u8]) -> u32
    ensures { result ≡ first_of place.now number line.now }
{
    match place {
        Place::Points(group) => group.card.line,
        Place::Waiting { card, .. } => first_waiting(card.line, number, line),
        Place::Third { zero, .. } => zero.line,
        Place::Control(at) => first_of_control(at, number),
        _ => number,
    }
}

/// The same behind a card -1, by the line of it: a card -2 is its second phase.
fn first_waiting(first: u32, number: u32, line: &[u8]) -> u32
    ensures { result ≡ first_waiting first number line.now }
{
    if is_second(&kind_of_branch(line)) {
        first
    } else {
        number
    }
}

fn first_of_control(at: &ControlPlace, number: u32) -> u32
    ensures { result ≡ first_of_control at.now number }
{
    match at {
        ControlPlace::Numerator(card) => card.line,
        ControlPlace::Denominator { card, .. } => card.line,
        ControlPlace::DevicePoints(group) => group.card.line,
        _ => number,
    }
}
