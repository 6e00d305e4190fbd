//! Filling the outputs: the channels that the cards of the network and those of the control ask for.

ghost use Rattle.emtp_case.specs.declared.limit.TheConstants.{MOST_CHANNELS, MOST_NODES};
ghost use Rattle.std.specs.Option.{ForSome};
ghost use Rattle.std.specs.Prelude.{◌≡◌, ◌<◌, ◌≤◌, ◌++◌, ◌∷◌, [], length, IfErr, OnOk};
ghost use Rattle.emtp_case.specs.held.Channel.{IsChannel};
ghost use Rattle.emtp_case.specs.held.Sizes.{sizes_of};
ghost use Rattle.emtp_walk.specs.held.Answer.{IsWant};
ghost use Rattle.emtp_deck.specs.held.Filling.{IsFilling, Makes, made_of};
ghost use Rattle.emtp_deck.specs.Made.{count_asked};
ghost use Rattle.emtp_deck.specs.Outputs.{channel_of, name_fault, node_channels, take_all_nodes, take_known_name, take_names, take_output, take_outputs, take_tacs_outputs, with_channels};

use crate::asked::Asked;
use crate::channels::no_room;
use crate::filling::Filling;
use emtp_card::{Fault, Refused, Why};
use emtp_case::{Channel, Items, Name};
use emtp_netcards::OutputCard;
use emtp_sense::{find_node, find_variable, too_many};
use emtp_walk::{OutputEntry, TacsOutputEntry};

/// What the names on output cards are those of.
#[derive(Clone, Copy, PartialEq, Eq)]
pub(crate) enum Named {
    /// Nodes, whose voltages are asked for.
    Node,
    /// Variables of the control, whose values are asked for.
    Variable,
}

/// The channel of what has a name, if anything has it.
fn channel_of(filling: &Filling, named: Named, name: &Name) -> Option<Channel>
    requires { IsFilling filling.now }
    ensures value { result ≡ channel_of named filling.now.draft.parts name.now }
    ensures there { ForSome result (IsChannel (sizes_of filling.now.draft.parts)) }
{
    match named {
        Named::Node => match find_node(&filling.nodes, name) {
            Some(node) => Some(Channel::NodeVoltage(node)),
            None => None,
        },
        Named::Variable => match find_variable(&filling.variables, name) {
            Some(variable) => Some(Channel::Tacs(variable)),
            None => None,
        },
    }
}

/// The fault of a name in a column, given its channel, if it has one.
fn name_fault(asked: &Asked, column: u32, channel: Option<Channel>) -> Option<Fault>
    requires { count_asked asked.now ≤ MOST_CHANNELS }
    ensures { result ≡ name_fault asked.now column channel }
{
    match channel {
        None => Some(Fault {
            column,
            why: Why::UnknownName,
        }),
        Some(_) => too_many(no_room(asked, 1), column),
    }
}

/// Asks for one channel more.
fn ask_for(filling: &mut Filling, named: Named, channel: Channel) -> Result<(), Refused>
    requires filling { IsFilling filling.old }
    requires room { count_asked filling.old.asked < MOST_CHANNELS }
    requires there { IsChannel (sizes_of filling.old.draft.parts) channel }
    ensures made { OnOk result (made_of filling.new ≡ with_channels named (made_of filling.old) (channel ∷ [])) }
    ensures filling { OnOk result (IsFilling filling.new) }
    ensures err { IfErr result IsWant }
{
    match named {
        Named::Node => filling.asked.outputs.push(channel)?,
        Named::Variable => filling.asked.variables.push(channel)?,
    }
    Ok(())
}

/// Takes a name that is not blank, in a column.
#[tactic(auto, unfolding(crate::specs::Outputs::take_known_name))]
fn take_known_name(
    filling: &mut Filling,
    named: Named,
    line: u32,
    column: u32,
    name: &Name,
) -> Result<(), Refused>
    requires filling { IsFilling filling.old }
    ensures value { Makes result (take_known_name named line (made_of filling.old) column name.now) (made_of filling.new) }
    ensures filling { OnOk result (IsFilling filling.new) }
{
    let channel = channel_of(filling, named, name);
    if let Some(fault) = name_fault(&filling.asked, column, channel) {
        return Err(Refused::Bad(fault.on_line(line)));
    }
    match channel {
        Some(channel) => ask_for(filling, named, channel),
        None => Ok(()),
    }
}

/// Takes the names of a card; blank ones are skipped.
fn take_names(
    filling: &mut Filling,
    named: Named,
    line: u32,
    names: &[Option<Name>],
) -> Result<(), Refused>
    requires filling { IsFilling filling.old }
    requires few { length names.now ≤ 13 }
    ensures value { Makes result (take_names named line (made_of filling.old) 3 names.now) (made_of filling.new) }
    ensures filling { OnOk result (IsFilling filling.new) }
{
    let mut column = 3;
    for name in names {
        if let Some(name) = name {
            match take_known_name(filling, named, line, column, name) {
                Ok(()) => {}
                Err(refused) => return Err(refused),
            }
        }
        column += 6;
    }
    Ok(())
}

/// Adds the voltages of all nodes up to a number, in order.
fn ask_nodes(outputs: &mut Items<Channel>, nodes: u32) -> Result<(), Refused>
    requires { nodes ≤ MOST_NODES }
    ensures ok { OnOk result (outputs.new ≡ outputs.old ++ node_channels nodes) }
    ensures err { IfErr result IsWant }
{
    for at in 0..nodes {
        outputs.push(Channel::NodeVoltage(at + 1))?;
    }
    Ok(())
}

/// Takes a card that asks for all nodes.
#[tactic(auto, unfolding(crate::specs::Outputs::take_all_nodes))]
fn take_all_nodes(filling: &mut Filling, line: u32) -> Result<(), Refused>
    requires filling { IsFilling filling.old }
    ensures value { Makes result (take_all_nodes line (made_of filling.old)) (made_of filling.new) }
    ensures filling { OnOk result (IsFilling filling.new) }
{
    let nodes = filling.draft.parts.nodes.len();
    if let Some(fault) = too_many(no_room(&filling.asked, nodes), 1) {
        return Err(Refused::Bad(fault.on_line(line)));
    }
    ask_nodes(&mut filling.asked.outputs, nodes as u32)
}

fn take_output(filling: &mut Filling, entry: &OutputEntry) -> Result<(), Refused>
    requires filling { IsFilling filling.old }
    ensures value { Makes result (take_output entry.now.line (made_of filling.old) entry.now.card) (made_of filling.new) }
    ensures filling { OnOk result (IsFilling filling.new) }
{
    match &entry.card {
        OutputCard::All => take_all_nodes(filling, entry.line),
        OutputCard::Names(names) => take_names(filling, Named::Node, entry.line, names),
    }
}

/// Takes all output cards, up to the first that has a fault.
pub(crate) fn take_outputs(filling: &mut Filling, entries: &[OutputEntry]) -> Result<(), Refused>
    requires filling { IsFilling filling.old }
    ensures value { Makes result (take_outputs (made_of filling.old) entries.now) (made_of filling.new) }
    ensures filling { OnOk result (IsFilling filling.new) }
{
    for entry in entries {
        match take_output(filling, entry) {
            Ok(()) => {}
            Err(refused) => return Err(refused),
        }
    }
    Ok(())
}

/// Takes all output cards of the control, up to the first that has a fault.
pub(crate) fn take_tacs_outputs(
    filling: &mut Filling,
    entries: &[TacsOutputEntry],
) -> Result<(), Refused>
    requires filling { IsFilling filling.old }
    ensures value { Makes result (take_tacs_outputs (made_of filling.old) entries.now) (made_of filling.new) }
    ensures filling { OnOk result (IsFilling filling.new) }
{
    for entry in entries {
        match take_names(filling, Named::Variable, entry.line, &entry.names) {
            Ok(()) => {}
            Err(refused) => return Err(refused),
        }
    }
    Ok(())
}
