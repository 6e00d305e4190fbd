//! Filling the switches.

ghost use Rattle.emtp_case.specs.declared.limit.TheConstants.{MOST_CHANNELS, MOST_NODES, MOST_SWITCHES, MOST_VARIABLES};
ghost use Rattle.std.specs.Prelude.{◌≡◌, ◌+◌, ◌<◌, ◌≤◌, All, length, IfErr, OnOk};
ghost use Rattle.emtp_case.specs.held.Range.{AreEnds};
ghost use Rattle.emtp_walk.specs.held.Answer.{IsWant};
ghost use Rattle.emtp_deck.specs.held.Filling.{IsFilling, Makes, made_of};
ghost use Rattle.emtp_deck.specs.Made.{count_asked};
ghost use Rattle.emtp_sense.specs.Names.{node_number};
ghost use Rattle.emtp_deck.specs.Channels.{switch_channel_count};
ghost use Rattle.emtp_sense.specs.held.ControlSensible.{IsKnown};
ghost use Rattle.emtp_sense.specs.held.Naming.{HasSwitchNodes};
ghost use Rattle.emtp_deck.specs.Switches.{controlled_kind, switch_at, switch_fault, take_switch, take_switches, with_switch};
ghost use Rattle.emtp_netcards.specs.held.SwitchCard.{HasSwitchNumbers};

use crate::channels::{ask, ask_status, no_room, switch_channel_count};
use crate::filling::Filling;
use emtp_card::{Fault, Refused, least};
use emtp_case::{Channel, MOST_NODES, MOST_SWITCHES, Name, Switch, SwitchKind};
use emtp_netcards::SwitchCard;
use emtp_sense::{node_number, number_of, too_many, unknown_name};
use indexmap::IndexSet;

/// The faults of sense of a card.
fn switch_fault(filling: &Filling, card: &SwitchCard) -> Option<Fault>
    requires { IsFilling filling.now }
    ensures { result ≡ switch_fault (made_of filling.now) card.now }
{
    let nodes = &filling.nodes;
    least(&[
        too_many(MOST_SWITCHES <= filling.draft.parts.switches.len(), 1),
        too_many(no_room(&filling.asked, switch_channel_count(card.asked)), 1),
        too_many(MOST_NODES < node_number(nodes, &card.from) as usize, 3),
        too_many(MOST_NODES < node_number(nodes, &card.to) as usize, 9),
        unknown_name(&filling.variables, 65, &card.control),
    ])
}

/// What opens and closes a switch, the variable that its card names having its number.
fn controlled_kind(
    variables: &IndexSet<Name>,
    control: &Option<Name>,
    kind: SwitchKind,
) -> SwitchKind
    requires few { length variables.now.keys ≤ MOST_VARIABLES }
    ensures { result ≡ controlled_kind variables.now.keys control.now kind }
{
    match kind {
        SwitchKind::Valve {
            ignition,
            holding,
            ..
        } => SwitchKind::Valve {
            ignition,
            holding,
            control: number_of(variables, control),
        },
        SwitchKind::Control { .. } => SwitchKind::Control {
            control: number_of(variables, control).unwrap_or(0),
        },
        kind => kind,
    }
}

fn switch_at(nodes: &IndexSet<Name>, variables: &IndexSet<Name>, card: &SwitchCard) -> Switch
    requires few { length nodes.now.keys ≤ MOST_NODES }
    requires few_variables { length variables.now.keys ≤ MOST_VARIABLES }
    ensures { result ≡ switch_at nodes.now.keys variables.now.keys card.now }
{
    Switch {
        line: card.line,
        from: node_number(nodes, &card.from),
        to: node_number(nodes, &card.to),
        kind: controlled_kind(variables, &card.control, card.kind),
    }
}

/// Takes a switch card.
#[tactic(auto, unfolding(crate::specs::Switches::take_switch))]
fn take_switch(filling: &mut Filling, card: &SwitchCard) -> Result<(), Refused>
    requires filling { IsFilling filling.old }
    requires card { HasSwitchNumbers card.now }
    requires nodes { HasSwitchNodes filling.old.nodes.keys card.now }
    ensures value { Makes result (take_switch (made_of filling.old) card.now) (made_of filling.new) }
    ensures filling { OnOk result (IsFilling filling.new) }
    ensures nodes { filling.new.nodes.keys ≡ filling.old.nodes.keys }
{
    if let Some(fault) = switch_fault(filling, card) {
        return Err(Refused::Bad(fault.on_line(card.line)));
    }
    add_switch(filling, card)
}

/// Adds the switch of a card, and the channels that it asks for.
fn add_switch(filling: &mut Filling, card: &SwitchCard) -> Result<(), Refused>
    requires filling { IsFilling filling.old }
    requires card { HasSwitchNumbers card.now }
    requires room { length filling.old.draft.parts.switches < MOST_SWITCHES }
    requires asked { count_asked filling.old.asked + switch_channel_count card.now.asked ≤ MOST_CHANNELS }
    requires control { IsKnown filling.old.variables.keys card.now.control }
    requires ends { AreEnds (length filling.old.draft.parts.nodes) (node_number filling.old.nodes.keys card.now.from)
        (node_number filling.old.nodes.keys card.now.to) }
    ensures ok { OnOk result (made_of filling.new ≡ with_switch (made_of filling.old) card.now) }
    ensures err { IfErr result IsWant }
    ensures filling { OnOk result (IsFilling filling.new) }
    ensures nodes { filling.new.nodes.keys ≡ filling.old.nodes.keys }
{
    let at = filling.draft.parts.switches.len() as u32;
    let switch = switch_at(&filling.nodes, &filling.variables, card);
    filling.draft.add_switch(switch)?;
    ask(
        &mut filling.asked.switches,
        card.asked,
        Channel::SwitchCurrent(at),
        Channel::SwitchVoltage(at),
    )?;
    ask_status(&mut filling.asked.statuses, card.asked, at)
}

/// Takes all switch cards, up to the first that has a fault.
pub(crate) fn take_switches(filling: &mut Filling, cards: &[SwitchCard]) -> Result<(), Refused>
    requires filling { IsFilling filling.old }
    requires cards { All HasSwitchNumbers cards.now }
    requires nodes { All (HasSwitchNodes filling.old.nodes.keys) cards.now }
    ensures value { Makes result (take_switches (made_of filling.old) cards.now) (made_of filling.new) }
    ensures filling { OnOk result (IsFilling filling.new) }
{
    for card in cards {
        match take_switch(filling, card) {
            Ok(()) => {}
            Err(refused) => return Err(refused),
        }
    }
    Ok(())
}
