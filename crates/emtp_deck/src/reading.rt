//! The case of a deck.

ghost use Rattle.emtp_case.specs.declared.limit.TheConstants.{MOST_CHANNELS, MOST_STORED_VALUES};
ghost use Rattle.std.specs.Prelude.{◌≡◌, ◌+◌, ◌*◌, ◌++◌, ◌≤◌, [], All, length, Ok, Err, IfErr, IfOk, OnOk, false};
ghost use Rattle.emtp_case.specs.held.Case.{DefinesEach};
ghost use Rattle.emtp_case.specs.held.Channel.{IsChannel};
ghost use Rattle.emtp_case.specs.RunData.{samples_of};
ghost use Rattle.emtp_case.specs.held.Sizes.{sizes_of};
ghost use Rattle.emtp_deck.specs.held.Accepted.{IsAccepted};
ghost use Rattle.emtp_walk.specs.held.Answer.{IfBad, IsWant};
ghost use Rattle.emtp_deck.specs.held.ControlSensible.{IsSensibleWhole};
ghost use Rattle.emtp_deck.specs.Deck.{case_of, control_made, deck_case, deck_of, is_ended, made_of_deck, unfinished};
ghost use Rattle.emtp_deck.specs.held.Filling.{AreThere, IsFilling, Makes, made_of};
ghost use Rattle.emtp_deck.specs.Made.{all_asked, count_asked};
ghost use Rattle.emtp_deck.specs.held.Made.{named_made};
ghost use Rattle.emtp_walk.specs.held.Sound.{IsSound, IsWhole};
ghost use Rattle.emtp_sense.specs.Names.{case_nodes, known_nodes};
ghost use Rattle.emtp_sense.specs.Variables.{variable_names};
ghost use Rattle.emtp_sense.specs.held.Naming.{HasNodes};

use crate::asked::Asked;
use crate::branches::{pending_fault, take_branches};
use crate::control_filling::{add_control, add_tacs_sources};
use crate::filling::Filling;
use crate::outputs::{take_outputs, take_tacs_outputs};
use crate::samples::{has_too_many, samples_bad};
use crate::sources::take_sources;
use crate::switches::take_switches;
use emtp_card::{Bad, Cards, Refused, Why};
use emtp_case::{Case, Channel, Draft};
use emtp_sense::{KnownNames, control_bad};
use emtp_walk::{Deck, Place, walk};
use std::alloc::Global;

/// Takes the cards of all sections, in the order of their lines.
fn take_sections(filling: &mut Filling, deck: &Deck) -> Result<(), Refused>
    requires control { made_of filling.old ≡ control_made filling.old.nodes.keys filling.old.variables.keys deck.now }
    requires filling { IsFilling filling.old }
    requires whole { IsWhole deck.now }
    requires nodes { HasNodes filling.old.nodes.keys deck.now }
    ensures value { Makes result (made_of_deck filling.old.nodes.keys filling.old.variables.keys deck.now) (made_of filling.new) }
    ensures filling { OnOk result (IsFilling filling.new) }
{
    take_tacs_outputs(filling, deck.control.outputs.as_slice())?;
    take_branches(filling, deck.points.as_slice(), deck.branches.as_slice())?;
    take_switches(filling, deck.switches.as_slice())?;
    take_sources(filling, deck.sources.as_slice())?;
    take_outputs(filling, deck.outputs.as_slice())
}

/// Gives a draft channels.
fn add_channels(draft: &mut Draft, channels: &[Channel]) -> Result<(), Refused>
    requires room { length draft.old.parts.channels + length channels.now ≤ MOST_CHANNELS }
    requires fits { All (IsChannel (sizes_of draft.old.parts)) channels.now }
    requires stored { (length draft.old.parts.channels + length channels.now) * samples_of draft.old.parts.run
        ≤ MOST_STORED_VALUES }
    ensures ok { OnOk result (draft.new.parts ≡ record draft.old.parts { channels = draft.old.parts.channels ++ channels.now }) }
    ensures err { IfErr result IsWant }
{
    for channel in channels {
        draft.add_channel(*channel)?;
    }
    Ok(())
}

/// Gives a draft all channels, in the order of the record.
fn add_asked(draft: &mut Draft, asked: &Asked) -> Result<(), Refused>
    requires empty { draft.old.parts.channels ≡ [] }
    requires few { count_asked asked.now ≤ MOST_CHANNELS }
    requires there { AreThere (sizes_of draft.old.parts) asked.now }
    requires stored { count_asked asked.now * samples_of draft.old.parts.run ≤ MOST_STORED_VALUES }
    ensures ok { OnOk result (draft.new.parts ≡ record draft.old.parts { channels = all_asked asked.now }) }
    ensures err { IfErr result IsWant }
{
    add_channels(draft, asked.outputs.as_slice())?;
    add_channels(draft, asked.branches.as_slice())?;
    add_channels(draft, asked.switches.as_slice())?;
    add_channels(draft, asked.variables.as_slice())?;
    add_channels(draft, asked.statuses.as_slice())
}

/// Adds what is added to a whole network: the sources of the control, and the channels.
fn add_sources_and_channels(filling: &mut Filling, deck: &Deck) -> Result<(), Refused>
    requires filling { IsFilling filling.old }
    requires stored { count_asked filling.old.asked * samples_of filling.old.draft.parts.run ≤ MOST_STORED_VALUES }
    requires control { IsSensibleWhole filling.old deck.now }
    ensures ok { OnOk result (filling.new.draft.parts ≡ case_of deck.now (made_of filling.old)) }
    ensures err { IfErr result IsWant }
{
    let sources = deck.control.sources.as_slice();
    add_tacs_sources(filling, deck.switches.as_slice(), sources)?;
    add_asked(&mut filling.draft, &filling.asked)
}

/// Why a deck isn't whole after its last line: a card of a group that it cuts off, or the section that is missing.
fn unfinished(filling: &Filling, place: &Place, line: u32) -> Bad
    requires filling { IsFilling filling.now }
    requires place { is_ended place.now ≡ false }
    ensures { unfinished line (made_of filling.now) place.now ≡ Some result }
{
    match pending_fault(filling, place) {
        Some(bad) => bad,
        None => Bad {
            line,
            column: 1,
            why: Why::MissingSection,
        },
    }
}

/// Makes the case of cards whose control has no fault of sense, from one that has its nodes alone.
fn take_deck(
    alloc: Global,
    filling: &mut Filling,
    deck: &Deck,
    place: &Place,
    line: u32,
) -> Result<(), Refused>
    requires empty { made_of filling.old ≡ named_made filling.old.nodes.keys deck.now.run }
    requires sound { IsSound deck.now place.now }
    requires whole { IsWhole deck.now }
    requires nodes { filling.old.nodes.keys ≡ case_nodes (known_nodes deck.now place.now) }
    requires variables { filling.old.variables.keys ≡ variable_names deck.now place.now }
    requires accepted { IsAccepted deck.now place.now }
    ensures ok { OnOk result (deck_case line deck.now place.now ≡ Ok filling.new.draft.parts) }
    ensures each { OnOk result (DefinesEach filling.new.draft.parts) }
    ensures bad { IfErr result (λ refused. IfBad refused (λ bad. deck_case line deck.now place.now ≡ Err bad)) }
{
    add_control(alloc, filling, deck)?;
    match take_sections(filling, deck) {
        Ok(()) => match place {
            Place::After(_) => add_sources_and_channels(filling, deck),
            _ => Err(Refused::Bad(unfinished(filling, place, line))),
        },
        Err(refused) => Err(refused),
    }
}

/// The case of cards whose control has no fault of sense.
fn sensible_case(
    alloc: Global,
    deck: &Deck,
    place: &Place,
    line: u32,
    names: KnownNames,
) -> Result<Case, Refused>
    requires sound { IsSound deck.now place.now }
    requires whole { IsWhole deck.now }
    requires nodes { names.nodes.keys ≡ case_nodes (known_nodes deck.now place.now) }
    requires variables { names.variables.keys ≡ variable_names deck.now place.now }
    requires accepted { IsAccepted deck.now place.now }
    ensures ok { IfOk result (λ case. deck_case line deck.now place.now ≡ Ok case.parts) }
    ensures bad { IfErr result (λ refused. IfBad refused (λ bad. deck_case line deck.now place.now ≡ Err bad)) }
{
    let mut filling = Filling::new(alloc, deck.run, names)?;
    match take_deck(alloc, &mut filling, deck, place, line) {
        Ok(()) => Ok(filling.into_case()),
        Err(refused) => {
            drop(filling);
            Err(refused)
        }
    }
}

/// The case of the cards that were read, or the first fault of sense.
#[tactic(auto, unfolding(crate::specs::Deck::deck_case))]
fn deck_case(alloc: Global, deck: &Deck, place: &Place, line: u32) -> Result<Case, Refused>
    requires sound { IsSound deck.now place.now }
    requires whole { IsWhole deck.now }
    ensures ok { IfOk result (λ case. deck_case line deck.now place.now ≡ Ok case.parts) }
    ensures bad { IfErr result (λ refused. IfBad refused (λ bad. deck_case line deck.now place.now ≡ Err bad)) }
{
    let mut names = KnownNames::new(alloc, deck, place)?;
    if has_too_many(&names, deck, place) {
        drop(names);
        return Err(Refused::Bad(samples_bad(deck)));
    }
    if let Some(bad) = control_bad(&names, deck, place) {
        drop(names);
        return Err(Refused::Bad(bad));
    }
    names.keep_case_nodes();
    sensible_case(alloc, deck, place, line, names)
}

/// The case that the lines give, or the one fault that decides.
#[tactic(auto, unfolding(crate::specs::Deck::deck_of))]
pub fn read(alloc: Global, cards: &Cards<'_>) -> Result<Case, Refused>
    ensures ok { IfOk result (λ case. deck_of cards.now ≡ Ok case.parts) }
    ensures bad { IfErr result (λ refused. IfBad refused (λ bad. deck_of cards.now ≡ Err bad)) }
{
    match walk(alloc, cards) {
        Ok((deck, place)) => {
            let case = deck_case(alloc, &deck, &place, cards.len() as u32 + 1);
            drop(deck);
            case
        }
        Err(refused) => Err(refused),
    }
}
