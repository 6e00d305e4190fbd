//! The names of the nodes, and their numbers.

ghost use Rattle.emtp_case.specs.declared.limit.TheConstants.{MOST_NODES};
ghost use Rattle.std.specs.Prelude.{◌*◌, ◌≡◌, ◌≤◌, [], fold, length, IfErr, OnOk};
ghost use Rattle.emtp_walk.specs.held.Answer.{IsWant};
ghost use Rattle.emtp_sense.specs.Names.{find_node, node_names, node_number, with_ends, with_entry_names, with_name, with_switch_names};

use emtp_card::Refused;
use emtp_case::Name;
use emtp_netcards::SwitchCard;
use emtp_walk::{BranchEntry, Deck};
use indexmap::IndexSet;

/// Adds a name, unless it is there; ground has none.
fn add_name(names: &mut IndexSet<Name>, name: &Option<Name>) -> Result<(), Refused>
    ensures ok { OnOk result (names.new.keys ≡ with_name names.old.keys name.now) }
    ensures err { IfErr result IsWant }
{
    if let Some(name) = name {
        names.insert_full(*name)?;
    }
    Ok(())
}

/// Adds the names of a card's two ends.
pub(crate) fn add_ends(
    names: &mut IndexSet<Name>,
    from: &Option<Name>,
    to: &Option<Name>,
) -> Result<(), Refused>
    ensures ok { OnOk result (names.new.keys ≡ with_ends names.old.keys from.now to.now) }
    ensures err { IfErr result IsWant }
{
    add_name(names, from)?;
    add_name(names, to)
}

/// Adds the names of an entry's nodes.
fn add_entry_names(names: &mut IndexSet<Name>, entry: &BranchEntry) -> Result<(), Refused>
    ensures ok { OnOk result (names.new.keys ≡ with_entry_names names.old.keys entry.now) }
    ensures err { IfErr result IsWant }
{
    match entry {
        BranchEntry::Single { card, .. } => add_ends(names, &card.from, &card.to),
        BranchEntry::Trio {
            zero,
            positive,
            third,
        } => {
            add_ends(names, &zero.from, &zero.to)?;
            add_ends(names, &positive.from, &positive.to)?;
            add_ends(names, &third.from, &third.to)
        }
    }
}

/// Adds the names of all nodes.
pub(crate) fn add_node_names(nodes: &mut IndexSet<Name>, deck: &Deck) -> Result<(), Refused>
    requires empty { nodes.old.keys ≡ [] }
    ensures ok { OnOk result (nodes.new.keys ≡ node_names deck.now) }
    ensures err { IfErr result IsWant }
{
    add_branch_names(nodes, deck.branches.as_slice())?;
    add_switch_names(nodes, deck.switches.as_slice())
}

fn add_branch_names(nodes: &mut IndexSet<Name>, entries: &[BranchEntry]) -> Result<(), Refused>
    ensures ok { OnOk result (nodes.new.keys ≡ fold with_entry_names nodes.old.keys entries.now) }
    ensures err { IfErr result IsWant }
{
    for entry in entries {
        add_entry_names(nodes, entry)?;
    }
    Ok(())
}

fn add_switch_names(nodes: &mut IndexSet<Name>, cards: &[SwitchCard]) -> Result<(), Refused>
    ensures ok { OnOk result (nodes.new.keys ≡ fold with_switch_names nodes.old.keys cards.now) }
    ensures err { IfErr result IsWant }
{
    for card in cards {
        add_ends(nodes, &card.from, &card.to)?;
    }
    Ok(())
}

/// The number of a node, from 1, or one more than there are where no node has the name; 0 for ground.
pub fn node_number(names: &IndexSet<Name>, name: &Option<Name>) -> u32
    requires { length names.now.keys ≤ 2 * MOST_NODES }
    ensures { result ≡ node_number names.now.keys name.now }
{
    match name {
        None => 0,
        Some(name) => names.get_index_of(name).unwrap_or(names.len()) as u32 + 1,
    }
}

/// The number of the node with a name, from 1.
pub fn find_node(names: &IndexSet<Name>, name: &Name) -> Option<u32>
    requires { length names.now.keys ≤ 2 * MOST_NODES }
    ensures { result ≡ find_node names.now.keys name.now }
{
    match names.get_index_of(name) {
        Some(at) => Some(at as u32 + 1),
        None => None,
    }
}
