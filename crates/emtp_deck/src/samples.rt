//! How many channels all cards ask for, and whether their record would be too large.

ghost use Rattle.std.specs.Prelude.{◌≡◌, ◌+◌, ◌≤◌, min};
ghost use Rattle.std.specs.List.{sum_by};
ghost use Rattle.emtp_case.specs.held.RunData.{IsRun};
ghost use Rattle.emtp_deck.specs.Branches.{entry_count};
ghost use Rattle.emtp_deck.specs.Samples.{count_of_entry, count_of_switch, count_of_variables, deck_count, has_too_many, name_count, output_count, pending_count, samples_bad};

use crate::channels::{channel_count, switch_channel_count};
use emtp_card::{Bad, Why};
use emtp_case::{MOST_STORED_VALUES, Name};
use emtp_netcards::{OutputCard, SwitchCard};
use emtp_sense::KnownNames;
use emtp_walk::{BranchEntry, Deck, OutputEntry, Place, TacsOutputEntry};
use indexmap::IndexSet;

/// More channels than any record has room for; a count is held there.
const MANY: usize = 4_000_001;

/// A count with more channels.
fn plus(count: usize, more: usize) -> usize
    ensures { result ≡ min (count + more) MANY }
{
    count.saturating_add(more).min(MANY)
}

fn entry_count(entry: &BranchEntry) -> usize
    ensures value { result ≡ entry_count entry.now }
    ensures few { result ≤ 6 }
{
    match entry {
        BranchEntry::Single { card, .. } => channel_count(card.asked),
        BranchEntry::Trio {
            zero,
            positive,
            third,
        } => {
            channel_count(zero.asked) + channel_count(positive.asked) + channel_count(third.asked)
        }
    }
}

fn branches_count(entries: &[BranchEntry]) -> usize
    ensures { result ≡ min (sum_by entry_count entries.now) MANY }
{
    let mut count = 0;
    for entry in entries {
        count = plus(count, entry_count(entry));
    }
    count
}

fn switches_count(cards: &[SwitchCard]) -> usize
    ensures { result ≡ min (sum_by count_of_switch cards.now) MANY }
{
    let mut count = 0;
    for card in cards {
        count = plus(count, switch_channel_count(card.asked));
    }
    count
}

/// How many of a card's names are those of nodes.
fn names_count(nodes: &IndexSet<Name>, names: &[Option<Name>]) -> usize
    ensures { result ≡ sum_by (name_count nodes.now.keys) names.now }
{
    let mut count = 0;
    for name in names {
        if let Some(name) = name {
            if nodes.get_index_of(name).is_some() {
                count += 1;
            }
        }
    }
    count
}

fn output_count(nodes: &IndexSet<Name>, card: &OutputCard) -> usize
    ensures { result ≡ output_count nodes.now.keys card.now }
{
    match card {
        OutputCard::All => nodes.len(),
        OutputCard::Names(names) => names_count(nodes, names),
    }
}

fn outputs_count(nodes: &IndexSet<Name>, entries: &[OutputEntry]) -> usize
    ensures { result ≡ min (sum_by (count_of_entry nodes.now.keys) entries.now) MANY }
{
    let mut count = 0;
    for entry in entries {
        count = plus(count, output_count(nodes, &entry.card));
    }
    count
}

/// How many of the names of a card of the control are those of variables.
fn variables_count(variables: &IndexSet<Name>, entries: &[TacsOutputEntry]) -> usize
    ensures { result ≡ min (sum_by (count_of_variables variables.now.keys) entries.now) MANY }
{
    let mut count = 0;
    for entry in entries {
        count = plus(count, names_count(variables, &entry.names));
    }
    count
}

/// The channels of a group that the file cuts off.
fn pending_count(place: &Place) -> usize
    ensures value { result ≡ pending_count place.now }
    ensures few { result ≤ 4 }
{
    match place {
        Place::Points(group) => channel_count(group.card.asked),
        Place::Waiting { card, .. } => channel_count(card.asked),
        Place::Third { zero, positive, .. } => {
            channel_count(zero.asked) + channel_count(positive.asked)
        }
        _ => 0,
    }
}

fn all_count(names: &KnownNames, deck: &Deck, place: &Place) -> usize
    ensures { result ≡ min (deck_count names.now.nodes.keys names.now.variables.keys deck.now + pending_count place.now) MANY }
{
    let variables = variables_count(&names.variables, deck.control.outputs.as_slice());
    let branches = branches_count(deck.branches.as_slice());
    let switches = switches_count(deck.switches.as_slice());
    let outputs = outputs_count(&names.nodes, deck.outputs.as_slice());
    (variables + branches + switches + outputs + pending_count(place)).min(MANY)
}

/// Whether the record of all channels would have too many stored values.
pub(crate) fn has_too_many(names: &KnownNames, deck: &Deck, place: &Place) -> bool
    requires { IsRun deck.now.run }
    ensures { result ≡ has_too_many names.now.nodes.keys names.now.variables.keys deck.now place.now }
{
    let count = all_count(names, deck, place);
    MOST_STORED_VALUES < count as u64 * u64::from(deck.run.samples())
}

/// What refuses the second miscellaneous card then.
pub(crate) fn samples_bad(deck: &Deck) -> Bad
    ensures { result ≡ samples_bad deck.now }
{
    Bad {
        line: deck.second,
        column: 9,
        why: Why::TooManySamples,
    }
}
