//! Lines of the sections after the branches.

ghost use Rattle.std.specs.Prelude.{◌≤◌, length, Ok, Err, IfOk};
ghost use Rattle.emtp_walk.specs.held.Answer.{Leaves};
ghost use Rattle.emtp_walk.specs.held.Sound.{IsSound, IsWhole};
ghost use Rattle.emtp_walk.specs.Walk.{output_step, source_step, switch_step};

use crate::deck::{Deck, OutputEntry, Place};
use emtp_card::{Line, MAX_BYTES, Refused, ends_section};
use emtp_netcards::{outputs, source, switch};

/// Takes a line of the switch section.
#[tactic(auto, unfolding(crate::specs::Walk::switch_step))]
pub(crate) fn switch_step(deck: &mut Deck, line: &Line<'_>) -> Result<Place, Refused>
    requires short { length line.now.bytes.now ≤ MAX_BYTES }
    requires whole { IsWhole deck.old }
    ensures value { Leaves result (switch_step deck.old line.now.number line.now.bytes.now) deck.new }
    ensures sound { IfOk result (IsSound deck.new) }
{
    if ends_section(line.bytes) {
        return Ok(Place::Sources);
    }
    match switch(*line) {
        Ok(card) => {
            deck.switches.push(card)?;
            Ok(Place::Switches)
        }
        Err(bad) => Err(Refused::Bad(bad)),
    }
}

/// Takes a line of the source section.
#[tactic(auto, unfolding(crate::specs::Walk::source_step))]
pub(crate) fn source_step(deck: &mut Deck, line: &Line<'_>) -> Result<Place, Refused>
    requires short { length line.now.bytes.now ≤ MAX_BYTES }
    requires whole { IsWhole deck.old }
    ensures value { Leaves result (source_step deck.old line.now.number line.now.bytes.now) deck.new }
    ensures sound { IfOk result (IsSound deck.new) }
{
    if ends_section(line.bytes) {
        return Ok(Place::Outputs);
    }
    match source(*line) {
        Ok(card) => {
            deck.sources.push(card)?;
            Ok(Place::Sources)
        }
        Err(bad) => Err(Refused::Bad(bad)),
    }
}

/// Takes a line of the output section.
#[tactic(auto, unfolding(crate::specs::Walk::output_step))]
pub(crate) fn output_step(deck: &mut Deck, line: &Line<'_>) -> Result<Place, Refused>
    requires short { length line.now.bytes.now ≤ MAX_BYTES }
    requires whole { IsWhole deck.old }
    ensures value { Leaves result (output_step deck.old line.now.number line.now.bytes.now) deck.new }
    ensures sound { IfOk result (IsSound deck.new) }
{
    if ends_section(line.bytes) {
        return Ok(Place::After(false));
    }
    match outputs(*line) {
        Ok(card) => {
            deck.outputs.push(OutputEntry {
                line: line.number,
                card,
            })?;
            Ok(Place::Outputs)
        }
        Err(bad) => Err(Refused::Bad(bad)),
    }
}
