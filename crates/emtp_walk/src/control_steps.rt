//! Lines of the control: five sections, each ended by a line that ends a section.

ghost use Rattle.std.specs.Prelude.{◌≡◌, ◌≤◌, length, Ok, Err, IfOk, IfErr, false};
ghost use Rattle.emtp_walk.specs.held.Answer.{Answers, IsWant, Leaves};
ghost use Rattle.emtp_walk.specs.ControlSteps.{block_step, control_step, denominator_step, initial_place, keep_block, numerator_step, tacs_output_step, tacs_source_step, take_block};
ghost use Rattle.emtp_taccards.specs.held.PolynomialCard.{IsPolynomial};
ghost use Rattle.emtp_walk.specs.held.Coefficients.{IsBlockDue, IsBlockEntry};
ghost use Rattle.emtp_walk.specs.held.Sound.{IsControlSound, IsSound, IsWhole};

use crate::coefficients::divided_bad;
use crate::control_cards::{BlockEntry, ControlPlace, TacsOutputEntry};
use crate::deck::{Deck, Place};
use crate::device_steps::{device_point_step, extra_step};
use crate::steps::order_fault;
use emtp_card::{Line, MAX_BYTES, Refused, ends_section};
use emtp_taccards::{BlockCard, block, polynomial, tacs_outputs, tacs_source};
use std::alloc::Global;

/// Takes a line of the control.
pub(crate) fn control_step(
    alloc: Global,
    deck: &mut Deck,
    line: &Line<'_>,
    place: &ControlPlace,
) -> Result<Place, Refused>
    requires short { length line.now.bytes.now ≤ MAX_BYTES }
    requires sound { IsControlSound deck.old place.now }
    ensures value { Leaves result (control_step deck.old line.now.number line.now.bytes.now place.now) deck.new }
    ensures sound { IfOk result (IsSound deck.new) }
{
    match place {
        ControlPlace::Blocks => block_step(deck, line),
        ControlPlace::Numerator(card) => numerator_step(deck, line, card),
        ControlPlace::Denominator {
            card,
            top,
            line: top_line,
        } => denominator_step(deck, line, card, top, *top_line),
        ControlPlace::TacsSources => tacs_source_step(deck, line),
        ControlPlace::Extras => extra_step(alloc, deck, line),
        ControlPlace::DevicePoints(group) => device_point_step(deck, line, group),
        ControlPlace::TacsOutputs => tacs_output_step(deck, line),
        ControlPlace::Initial => initial_place(line),
    }
}

/// Takes a line of the block section.
#[tactic(auto, unfolding(crate::specs::ControlSteps::block_step))]
fn block_step(deck: &mut Deck, line: &Line<'_>) -> Result<Place, Refused>
    requires short { length line.now.bytes.now ≤ MAX_BYTES }
    requires whole { IsWhole deck.old }
    ensures value { Leaves result (block_step deck.old line.now.number line.now.bytes.now) deck.new }
    ensures sound { IfOk result (IsSound deck.new) }
{
    if ends_section(line.bytes) {
        return Ok(Place::Control(ControlPlace::TacsSources));
    }
    match block(*line) {
        Ok(card) => take_block(deck, card),
        Err(bad) => Err(Refused::Bad(bad)),
    }
}

/// Keeps a block of order 0, or waits for the coefficients of another one.
fn take_block(deck: &mut Deck, card: BlockCard) -> Result<Place, Refused>
    requires whole { IsWhole deck.old }
    requires block { IsBlockDue card }
    ensures ok { IfOk result (λ next. take_block deck.old card ≡ (deck.new, next)) }
    ensures bad { IfErr result IsWant }
    ensures sound { IfOk result (IsSound deck.new) }
{
    if card.order == 0 {
        keep_block(
            deck,
            BlockEntry {
                card,
                top: [0; 8],
                bottom: [0; 8],
            },
        )
    } else {
        Ok(Place::Control(ControlPlace::Numerator(card)))
    }
}

/// Keeps a block and its coefficients.
fn keep_block(deck: &mut Deck, entry: BlockEntry) -> Result<Place, Refused>
    requires whole { IsWhole deck.old }
    requires block { IsBlockEntry deck.old.run.dt entry }
    ensures ok { IfOk result (λ next. keep_block deck.old entry ≡ (deck.new, next)) }
    ensures bad { IfErr result IsWant }
    ensures sound { IfOk result (IsSound deck.new) }
{
    deck.control.blocks.push(entry)?;
    Ok(Place::Control(ControlPlace::Blocks))
}

/// Takes the numerator of a block.
#[tactic(auto, unfolding(crate::specs::ControlSteps::numerator_step))]
fn numerator_step(deck: &mut Deck, line: &Line<'_>, card: &BlockCard) -> Result<Place, Refused>
    requires short { length line.now.bytes.now ≤ MAX_BYTES }
    requires whole { IsWhole deck.old }
    requires block { IsBlockDue card.now }
    ensures value { Leaves result (numerator_step deck.old line.now.number line.now.bytes.now card.now) deck.new }
    ensures sound { IfOk result (IsSound deck.new) }
{
    match polynomial(*line, card.order, deck.run.dt) {
        Ok(top) => Ok(Place::Control(ControlPlace::Denominator {
            card: *card,
            top,
            line: line.number,
        })),
        Err(bad) => Err(Refused::Bad(bad)),
    }
}

/// Takes the denominator of a block.
#[tactic(auto, unfolding(crate::specs::ControlSteps::denominator_step))]
fn denominator_step(
    deck: &mut Deck,
    line: &Line<'_>,
    card: &BlockCard,
    top: &[i64; 8],
    top_line: u32,
) -> Result<Place, Refused>
    requires short { length line.now.bytes.now ≤ MAX_BYTES }
    requires whole { IsWhole deck.old }
    requires block { IsBlockDue card.now }
    requires numerator { IsPolynomial deck.old.run.dt card.now.order top.now }
    ensures value { Leaves result
        (denominator_step deck.old line.now.number line.now.bytes.now card.now top.now top_line) deck.new }
    ensures sound { IfOk result (IsSound deck.new) }
{
    let bottom = match polynomial(*line, card.order, deck.run.dt) {
        Ok(bottom) => bottom,
        Err(bad) => return Err(Refused::Bad(bad)),
    };
    let entry = BlockEntry {
        card: *card,
        top: *top,
        bottom,
    };
    match divided_bad(deck.run.dt, &entry, top_line, line.number) {
        Some(bad) => Err(Refused::Bad(bad)),
        None => keep_block(deck, entry),
    }
}

/// Takes a line of the section of the control's sources.
#[tactic(auto, unfolding(crate::specs::ControlSteps::tacs_source_step))]
fn tacs_source_step(deck: &mut Deck, line: &Line<'_>) -> Result<Place, Refused>
    requires short { length line.now.bytes.now ≤ MAX_BYTES }
    requires whole { IsWhole deck.old }
    ensures value { Leaves result (tacs_source_step deck.old line.now.number line.now.bytes.now) deck.new }
    ensures sound { IfOk result (IsSound deck.new) }
{
    if ends_section(line.bytes) {
        return Ok(Place::Control(ControlPlace::Extras));
    }
    match tacs_source(*line) {
        Ok(card) => {
            deck.control.sources.push(card)?;
            Ok(Place::Control(ControlPlace::TacsSources))
        }
        Err(bad) => Err(Refused::Bad(bad)),
    }
}

/// Takes a line of the section of the control's outputs.
#[tactic(auto, unfolding(crate::specs::ControlSteps::tacs_output_step))]
fn tacs_output_step(deck: &mut Deck, line: &Line<'_>) -> Result<Place, Refused>
    requires short { length line.now.bytes.now ≤ MAX_BYTES }
    requires whole { IsWhole deck.old }
    ensures value { Leaves result (tacs_output_step deck.old line.now.number line.now.bytes.now) deck.new }
    ensures sound { IfOk result (IsSound deck.new) }
{
    if ends_section(line.bytes) {
        return Ok(Place::Control(ControlPlace::Initial));
    }
    match tacs_outputs(*line) {
        Ok(names) => {
            deck.control.outputs.push(TacsOutputEntry {
                line: line.number,
                names,
            })?;
            Ok(Place::Control(ControlPlace::TacsOutputs))
        }
        Err(bad) => Err(Refused::Bad(bad)),
    }
}

/// Takes a line of the section of initial conditions, which has no card.
#[tactic(auto, unfolding(crate::specs::ControlSteps::initial_place))]
fn initial_place(line: &Line<'_>) -> Result<Place, Refused>
    requires short { length line.now.bytes.now ≤ MAX_BYTES }
    ensures value { Answers result (initial_place line.now.number line.now.bytes.now) }
    ensures place { IfOk result (λ next. next ≡ Place.Branches false) }
{
    if ends_section(line.bytes) {
        return Ok(Place::Branches(false));
    }
    match order_fault(line) {
        Some(bad) => Err(Refused::Bad(bad)),
        None => Ok(Place::Branches(false)),
    }
}
