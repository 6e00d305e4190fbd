//! The walk over all lines of a case.

ghost use Rattle.std.specs.Prelude.{◌≡◌, ◌≤◌, length, Ok, Err, IfOk, IfErr, true};
ghost use Rattle.emtp_walk.specs.held.Answer.{Answers, IfBad, Leaves};
ghost use Rattle.emtp_walk.specs.LineRead.{order_fault};
ghost use Rattle.emtp_walk.specs.held.Sound.{IsHead, IsSound, IsWhole};
ghost use Rattle.emtp_walk.specs.Walk.{advance, after_place, begin_fault, begin_place, empty_deck, first_step, second_step, step, times_step, tolerance_step, walk};
ghost use Rattle.emtp_walk.specs.held.WalkPlaces.{IsBeginning, IsEnding};

use crate::branch_steps::{branch_step, point_step, start_step, third_step, waiting_step};
use crate::control_steps::control_step;
use crate::deck::{Deck, Place};
use crate::section_steps::{output_step, source_step, switch_step};
use emtp_card::{Bad, Cards, Fault, Line, MAX_BYTES, Refused, Why, comment, ends_section, judge};
use emtp_netcards::{first_card, second_card, tolerance};
use std::alloc::Global;

/// The cards of a case and the place after its last line, or the first card that has a fault of form.
///
/// The answer is that of `walk` of `specs/Walk`; only want of memory is free. `IsSound` says what the cards keep at each
/// place, `IsWhole` what they keep at all of them.
pub fn walk(alloc: Global, cards: &Cards<'_>) -> Result<(Deck, Place), Refused>
    ensures ok { IfOk result (λ end. walk 1 empty_deck Place.Begin cards.now ≡ Ok (end.0, end.1)) }
    ensures bad { IfErr result (λ refused. IfBad refused (λ bad. walk 1 empty_deck Place.Begin cards.now ≡ Err bad)) }
    ensures sound { IfOk result (λ end. IsSound end.0 end.1) }
    ensures whole { IfOk result (λ end. IsWhole end.0) }
{
    let mut deck = Deck::new(alloc);
    match take_lines(alloc, &mut deck, cards) {
        Ok(place) => Ok((deck, place)),
        Err(refused) => {
            drop(deck);
            Err(refused)
        }
    }
}

/// Takes all lines, one after the other.
fn take_lines(alloc: Global, deck: &mut Deck, cards: &Cards<'_>) -> Result<Place, Refused>
    requires empty { deck.old ≡ empty_deck }
    ensures value { Leaves result (walk 1 empty_deck Place.Begin cards.now) deck.new }
    ensures sound { IfOk result (IsSound deck.new) }
{
    let mut place = Place::Begin;
    for at in 0..cards.len() {
        match advance(alloc, deck, place, &cards.line(at)) {
            Ok(next) => place = next,
            Err(refused) => return Err(refused),
        }
    }
    Ok(place)
}

/// Takes the next line; comments are skipped.
pub(crate) fn advance(
    alloc: Global,
    deck: &mut Deck,
    place: Place,
    line: &Line<'_>,
) -> Result<Place, Refused>
    requires short { length line.now.bytes.now ≤ MAX_BYTES }
    requires sound { IsSound deck.old place }
    ensures value { Leaves result (advance deck.old place line.now.number line.now.bytes.now) deck.new }
    ensures sound { IfOk result (IsSound deck.new) }
{
    if comment(line.bytes) {
        Ok(place)
    } else {
        step(alloc, deck, place, line)
    }
}

/// Takes one line that is no comment.
fn step(alloc: Global, deck: &mut Deck, place: Place, line: &Line<'_>) -> Result<Place, Refused>
    requires short { length line.now.bytes.now ≤ MAX_BYTES }
    requires sound { IsSound deck.old place }
    ensures value { Leaves result (step deck.old place line.now.number line.now.bytes.now) deck.new }
    ensures sound { IfOk result (IsSound deck.new) }
{
    match place {
        Place::Begin => begin_place(line),
        Place::First(seen) => first_step(deck, line, seen),
        Place::Second => second_step(deck, line),
        Place::Start => start_step(deck, line),
        Place::Control(at) => control_step(alloc, deck, line, &at),
        Place::Branches(wide) => branch_step(deck, line, wide),
        Place::Points(group) => point_step(deck, line, &group),
        Place::Waiting { card, wide } => waiting_step(deck, line, &card, wide),
        Place::Third {
            zero,
            positive,
            wide,
        } => third_step(deck, line, &zero, &positive, wide),
        Place::Switches => switch_step(deck, line),
        Place::Sources => source_step(deck, line),
        Place::Outputs => output_step(deck, line),
        Place::After(seen) => after_place(line, seen),
    }
}

/// What refuses a card that can't stand where it does.
pub(crate) fn order_fault(line: &Line<'_>) -> Option<Bad>
    requires { length line.now.bytes.now ≤ MAX_BYTES }
    ensures { result ≡ order_fault line.now.number line.now.bytes.now }
{
    judge(
        line,
        Some(Fault {
            column: 1,
            why: Why::BadOrder,
        }),
    )
}

/// Takes a line where `BEGIN NEW DATA CASE` is due.
#[tactic(auto, unfolding(crate::specs::Walk::begin_place))]
fn begin_place(line: &Line<'_>) -> Result<Place, Refused>
    requires short { length line.now.bytes.now ≤ MAX_BYTES }
    ensures value { Answers result (begin_place line.now.number line.now.bytes.now) }
    ensures head { IfOk result IsBeginning }
{
    if ends_section(line.bytes) {
        return Ok(Place::Begin);
    }
    match begin_fault(line) {
        Some(bad) => Err(Refused::Bad(bad)),
        None => Ok(Place::First(false)),
    }
}

/// What refuses a card where `BEGIN NEW DATA CASE` is due.
fn begin_fault(line: &Line<'_>) -> Option<Bad>
    requires { length line.now.bytes.now ≤ MAX_BYTES }
    ensures { result ≡ begin_fault line.now.number line.now.bytes.now }
{
    if line.bytes.starts_with(b"BEGIN NEW DATA CASE") {
        judge(line, None)
    } else {
        order_fault(line)
    }
}

/// Takes a line after the outputs.
#[tactic(auto, unfolding(crate::specs::Walk::after_place))]
fn after_place(line: &Line<'_>, seen: bool) -> Result<Place, Refused>
    requires short { length line.now.bytes.now ≤ MAX_BYTES }
    ensures value { Answers result (after_place line.now.number line.now.bytes.now seen) }
    ensures after { IfOk result IsEnding }
{
    if ends_section(line.bytes) {
        return Ok(Place::After(seen));
    }
    let fault = if seen {
        order_fault(line)
    } else {
        begin_fault(line)
    };
    match fault {
        Some(bad) => Err(Refused::Bad(bad)),
        None => Ok(Place::After(true)),
    }
}

/// Takes a line where the first miscellaneous card is due.
#[tactic(auto, unfolding(crate::specs::Walk::first_step))]
fn first_step(deck: &mut Deck, line: &Line<'_>, seen: bool) -> Result<Place, Refused>
    requires short { length line.now.bytes.now ≤ MAX_BYTES }
    requires head { IsHead deck.old }
    ensures value { Leaves result (first_step deck.old line.now.number line.now.bytes.now seen) deck.new }
    ensures sound { IfOk result (IsSound deck.new) }
{
    if line.bytes.starts_with(b"RESIDUAL TOLERANCE") {
        tolerance_step(deck, line, seen)
    } else {
        times_step(deck, line)
    }
}

#[tactic(auto, unfolding(crate::specs::Walk::tolerance_step))]
fn tolerance_step(deck: &mut Deck, line: &Line<'_>, seen: bool) -> Result<Place, Refused>
    requires short { length line.now.bytes.now ≤ MAX_BYTES }
    requires head { IsHead deck.old }
    ensures value { Leaves result (tolerance_step deck.old line.now.number line.now.bytes.now seen) deck.new }
    ensures sound { IfOk result (IsSound deck.new) }
{
    if seen {
        return match order_fault(line) {
            Some(bad) => Err(Refused::Bad(bad)),
            None => Ok(Place::First(true)),
        };
    }
    match tolerance(*line) {
        Ok(tolerance) => {
            deck.run.tolerance = tolerance;
            Ok(Place::First(true))
        }
        Err(bad) => Err(Refused::Bad(bad)),
    }
}

#[tactic(auto, unfolding(crate::specs::Walk::times_step))]
fn times_step(deck: &mut Deck, line: &Line<'_>) -> Result<Place, Refused>
    requires short { length line.now.bytes.now ≤ MAX_BYTES }
    requires head { IsHead deck.old }
    ensures value { Leaves result (times_step deck.old line.now.number line.now.bytes.now) deck.new }
    ensures sound { IfOk result (IsSound deck.new) }
{
    match first_card(*line) {
        Ok(card) => {
            deck.run.dt = card.dt;
            deck.run.steps = card.steps;
            Ok(Place::Second)
        }
        Err(bad) => Err(Refused::Bad(bad)),
    }
}

#[tactic(auto, unfolding(crate::specs::Walk::second_step))]
fn second_step(deck: &mut Deck, line: &Line<'_>) -> Result<Place, Refused>
    requires short { length line.now.bytes.now ≤ MAX_BYTES }
    requires head { IsHead deck.old }
    ensures value { Leaves result (second_step deck.old line.now.number line.now.bytes.now) deck.new }
    ensures sound { IfOk result (IsSound deck.new) }
{
    match second_card(*line) {
        Ok(every) => {
            deck.run.every = every;
            deck.second = line.number;
            Ok(Place::Start)
        }
        Err(bad) => Err(Refused::Bad(bad)),
    }
}
