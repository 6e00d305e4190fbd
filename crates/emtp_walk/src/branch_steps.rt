//! Lines of the branch section.

ghost use Rattle.emtp_case.specs.declared.limit.TheConstants.{MOST_POINTS};
ghost use Rattle.std.specs.Prelude.{◌≡◌, ◌<◌, ◌+◌, ◌≤◌, length, Ok, Err, IfOk, IfErr, false};
ghost use Rattle.emtp_walk.specs.held.Answer.{IsWant, Leaves};
ghost use Rattle.emtp_walk.specs.held.Sound.{IsGroupOf, IsSound, IsTrioEntry, IsWaiting, IsWhole, has_points};
ghost use Rattle.emtp_walk.specs.Walk.{branch_step, card_step, end_group, is_phase, is_second, point_step, scale_of, start_step, take_branch, take_copied, take_point, take_third, third_step, waiting_step, with_card};
ghost use Rattle.emtp_netcards.specs.held.BranchCard.{HasNumbers, kind_of_values};
ghost use Rattle.emtp_netcards.specs.held.PointCard.{Follows, IsPointOf};

use crate::control_cards::ControlPlace;
use crate::deck::{BranchEntry, Deck, Group, Place};
use crate::steps::order_fault;
use emtp_card::{Bad, Line, MAX_BYTES, Refused, Why, ends_section, judge};
use emtp_case::Point;
use emtp_netcards::{
    BranchCard, BranchKind, BranchValues, PointScale, branch, branch_kind, next_point, vintage,
};

/// Takes the line right after the miscellaneous cards, where the control may begin.
#[tactic(auto, unfolding(crate::specs::Walk::start_step))]
pub(crate) fn start_step(deck: &mut Deck, line: &Line<'_>) -> Result<Place, Refused>
    requires short { length line.now.bytes.now ≤ MAX_BYTES }
    requires whole { IsWhole deck.old }
    ensures value { Leaves result (start_step deck.old line.now.number line.now.bytes.now) deck.new }
    ensures sound { IfOk result (IsSound deck.new) }
{
    if line.bytes.starts_with(b"TACS HYBRID") {
        return match judge(line, None) {
            Some(bad) => Err(Refused::Bad(bad)),
            None => Ok(Place::Control(ControlPlace::Blocks)),
        };
    }
    branch_step(deck, line, false)
}

/// Takes a line of the branch section.
#[tactic(auto, unfolding(crate::specs::Walk::branch_step))]
pub(crate) fn branch_step(deck: &mut Deck, line: &Line<'_>, wide: bool) -> Result<Place, Refused>
    requires short { length line.now.bytes.now ≤ MAX_BYTES }
    requires whole { IsWhole deck.old }
    ensures value { Leaves result (branch_step deck.old line.now.number line.now.bytes.now wide) deck.new }
    ensures sound { IfOk result (IsSound deck.new) }
{
    if ends_section(line.bytes) {
        return Ok(Place::Switches);
    }
    match vintage(*line) {
        Some(Ok(wide)) => Ok(Place::Branches(wide)),
        Some(Err(bad)) => Err(Refused::Bad(bad)),
        None => card_step(deck, line, wide),
    }
}

/// Takes a card that is no vintage card.
#[tactic(auto, unfolding(crate::specs::Walk::card_step))]
fn card_step(deck: &mut Deck, line: &Line<'_>, wide: bool) -> Result<Place, Refused>
    requires short { length line.now.bytes.now ≤ MAX_BYTES }
    requires whole { IsWhole deck.old }
    ensures value { Leaves result (card_step deck.old line.now.number line.now.bytes.now wide) deck.new }
    ensures sound { IfOk result (IsSound deck.new) }
{
    if is_phase(&branch_kind(line.bytes)) {
        return match order_fault(line) {
            Some(bad) => Err(Refused::Bad(bad)),
            None => Ok(Place::Branches(wide)),
        };
    }
    match branch(*line, &deck.run, wide) {
        Ok(card) => take_branch(deck, card, wide),
        Err(bad) => Err(Refused::Bad(bad)),
    }
}

/// Whether it is the second or the third phase of a line.
fn is_phase(kind: &Result<BranchKind, Why>) -> bool
    ensures { result ≡ is_phase kind.now }
{
    matches!(kind, Ok(BranchKind::Second | BranchKind::Third))
}

pub(crate) fn is_second(kind: &Result<BranchKind, Why>) -> bool
    ensures { result ≡ is_second kind.now }
{
    matches!(kind, Ok(BranchKind::Second))
}

/// Keeps a branch card, or waits for what may follow it.
fn take_branch(deck: &mut Deck, card: BranchCard, wide: bool) -> Result<Place, Refused>
    requires whole { IsWhole deck.old }
    requires numbers { HasNumbers deck.old.run.dt card }
    requires single { is_phase (Ok (kind_of_values card.values)) ≡ false }
    ensures ok { IfOk result (λ next. take_branch deck.old card wide ≡ (deck.new, next)) }
    ensures bad { IfErr result IsWant }
    ensures sound { IfOk result (IsSound deck.new) }
{
    match card.values {
        BranchValues::Line { .. } => Ok(Place::Waiting { card, wide }),
        BranchValues::Reactor | BranchValues::Resistor => Ok(Place::Points(Group {
            card,
            first: deck.points.len(),
            count: 0,
            before: None,
            wide,
        })),
        BranchValues::Copied { kind, .. } => take_copied(deck, card, kind, wide),
        _ => {
            keep(deck, card)?;
            Ok(Place::Branches(wide))
        }
    }
}

/// Keeps a card that takes the values of another, or waits for the second phase of a line.
fn take_copied(
    deck: &mut Deck,
    card: BranchCard,
    kind: BranchKind,
    wide: bool,
) -> Result<Place, Refused>
    requires whole { IsWhole deck.old }
    requires numbers { HasNumbers deck.old.run.dt card }
    requires single { is_phase (Ok (kind_of_values card.values)) ≡ false }
    requires kind { kind_of_values card.values ≡ kind }
    requires no_points { has_points card ≡ false }
    ensures ok { IfOk result (λ next. take_copied deck.old card wide kind ≡ (deck.new, next)) }
    ensures bad { IfErr result IsWant }
    ensures sound { IfOk result (IsSound deck.new) }
{
    match kind {
        BranchKind::Line => Ok(Place::Waiting { card, wide }),
        _ => {
            keep(deck, card)?;
            Ok(Place::Branches(wide))
        }
    }
}

/// Keeps a branch card without points.
fn keep(deck: &mut Deck, card: BranchCard) -> Result<(), Refused>
    requires whole { IsWhole deck.old }
    requires numbers { HasNumbers deck.old.run.dt card }
    requires single { is_phase (Ok (kind_of_values card.values)) ≡ false }
    requires no_points { has_points card ≡ false }
    ensures ok { IfOk result (λ done. deck.new ≡ with_card deck.old card) }
    ensures bad { IfErr result IsWant }
    ensures whole { IfOk result (λ done. IsWhole deck.new) }
{
    deck.branches.push(BranchEntry::Single {
        card,
        first: 0,
        count: 0,
    })?;
    Ok(())
}

/// Takes the card after a card -1.
#[tactic(auto, unfolding(crate::specs::Walk::waiting_step))]
pub(crate) fn waiting_step(
    deck: &mut Deck,
    line: &Line<'_>,
    card: &BranchCard,
    wide: bool,
) -> Result<Place, Refused>
    requires short { length line.now.bytes.now ≤ MAX_BYTES }
    requires sound { IsWhole deck.old × IsWaiting deck.old card.now }
    ensures value { Leaves result (waiting_step deck.old line.now.number line.now.bytes.now card.now wide) deck.new }
    ensures sound { IfOk result (IsSound deck.new) }
{
    if is_second(&branch_kind(line.bytes)) {
        return match branch(*line, &deck.run, wide) {
            Ok(positive) => Ok(Place::Third {
                zero: *card,
                positive,
                wide,
            }),
            Err(bad) => Err(Refused::Bad(bad)),
        };
    }
    keep(deck, *card)?;
    branch_step(deck, line, wide)
}

/// Takes the card after a card -2.
#[tactic(auto, unfolding(crate::specs::Walk::third_step))]
pub(crate) fn third_step(
    deck: &mut Deck,
    line: &Line<'_>,
    zero: &BranchCard,
    positive: &BranchCard,
    wide: bool,
) -> Result<Place, Refused>
    requires short { length line.now.bytes.now ≤ MAX_BYTES }
    requires sound { IsWhole deck.old × IsTrioEntry deck.old.run zero.now positive.now }
    ensures value { Leaves result (third_step deck.old line.now.number line.now.bytes.now zero.now positive.now wide) deck.new }
    ensures sound { IfOk result (IsSound deck.new) }
{
    if ends_section(line.bytes) {
        return Err(Refused::Bad(Bad {
            line: line.number,
            column: 1,
            why: Why::BadOrder,
        }));
    }
    match branch_kind(line.bytes) {
        Ok(BranchKind::Third) => take_third(deck, line, zero, positive, wide),
        Err(_) if !line.bytes.starts_with(b"$VINTAGE") => {
            take_third(deck, line, zero, positive, wide)
        }
        _ => match order_fault(line) {
            Some(bad) => Err(Refused::Bad(bad)),
            None => Ok(Place::Branches(wide)),
        },
    }
}

fn take_third(
    deck: &mut Deck,
    line: &Line<'_>,
    zero: &BranchCard,
    positive: &BranchCard,
    wide: bool,
) -> Result<Place, Refused>
    requires short { length line.now.bytes.now ≤ MAX_BYTES }
    requires whole { IsWhole deck.old }
    requires trio { IsTrioEntry deck.old.run zero.now positive.now }
    ensures value { Leaves result (take_third deck.old line.now.number line.now.bytes.now zero.now positive.now wide) deck.new }
    ensures sound { IfOk result (IsSound deck.new) }
{
    match branch(*line, &deck.run, wide) {
        Ok(third) => {
            deck.keep_trio(*zero, *positive, third)?;
            Ok(Place::Branches(wide))
        }
        Err(bad) => Err(Refused::Bad(bad)),
    }
}

/// Takes a point of a branch, or its ending card.
#[tactic(auto, unfolding(crate::specs::Walk::point_step))]
pub(crate) fn point_step(deck: &mut Deck, line: &Line<'_>, group: &Group) -> Result<Place, Refused>
    requires short { length line.now.bytes.now ≤ MAX_BYTES }
    requires sound { IsWhole deck.old × IsGroupOf deck.old group.now }
    ensures value { Leaves result (point_step deck.old line.now.number line.now.bytes.now group.now) deck.new }
    ensures sound { IfOk result (IsSound deck.new) }
{
    match next_point(
        *line,
        scale_of(group),
        &group.before,
        group.count,
        deck.run.dt,
    ) {
        Ok(Some(point)) => take_point(deck, group, point),
        Ok(None) => end_group(deck, group),
        Err(bad) => Err(Refused::Bad(bad)),
    }
}

pub(crate) fn scale_of(group: &Group) -> PointScale
    ensures { result ≡ scale_of group.now }
{
    match group.card.values {
        BranchValues::Reactor => PointScale::Reactor,
        _ => PointScale::Resistor,
    }
}

fn take_point(deck: &mut Deck, group: &Group, point: Point) -> Result<Place, Refused>
    requires whole { IsWhole deck.old }
    requires group { IsGroupOf deck.old group.now }
    requires room { group.now.count < MOST_POINTS }
    requires range { IsPointOf (scale_of group.now) point }
    requires follows { Follows (scale_of group.now) deck.old.run.dt group.now.before point }
    ensures ok { IfOk result (λ next. take_point deck.old group.now point ≡ (deck.new, next)) }
    ensures bad { IfErr result IsWant }
    ensures sound { IfOk result (IsSound deck.new) }
{
    deck.points.push(point)?;
    Ok(Place::Points(Group {
        card: group.card,
        first: group.first,
        count: group.count + 1,
        before: Some(point),
        wide: group.wide,
    }))
}

fn end_group(deck: &mut Deck, group: &Group) -> Result<Place, Refused>
    requires whole { IsWhole deck.old }
    requires group { IsGroupOf deck.old group.now }
    requires some { 1 ≤ group.now.count }
    ensures ok { IfOk result (λ next. end_group deck.old group.now ≡ (deck.new, next)) }
    ensures bad { IfErr result IsWant }
    ensures sound { IfOk result (IsSound deck.new) }
{
    deck.branches.push(BranchEntry::Single {
        card: group.card,
        first: group.first,
        count: group.count,
    })?;
    Ok(Place::Branches(group.wide))
}
