//! The names of all nodes and of the control's variables, and the numbers of the variables.

ghost use Rattle.emtp_case.specs.declared.limit.TheConstants.{MOST_VARIABLES};
ghost use Rattle.std.specs.Prelude.{◌≡◌, ◌≤◌, [], fold, length, option_map, IfErr, IfOk, OnOk};
ghost use Rattle.emtp_case.specs.Case.{standing_names};
ghost use Rattle.emtp_walk.specs.held.Answer.{IsWant};
ghost use Rattle.emtp_sense.specs.Names.{case_nodes, known_nodes, with_pending_nodes};
ghost use Rattle.emtp_sense.specs.Variables.{defined_variables, extra_name, find_variable, unknown_name, variable_names, variable_number, with_block_name, with_extra_name, with_pending_variable, with_source_name, with_variable};

use crate::names::{add_ends, add_node_names};
use emtp_card::{Fault, Refused, Why};
use emtp_case::{MOST_NODES, Name};
use emtp_netcards::SourceCard;
use emtp_walk::{BlockEntry, ControlCards, ControlPlace, Deck, ExtraEntry, Place};
use indexmap::IndexSet;
use std::alloc::Global;

/// The names that the cards of a deck define, also those of a group that the file cuts off.
#[derive(Drop)]
pub struct KnownNames {
    /// The nodes.
    pub nodes: IndexSet<Name>,
    /// The variables.
    pub variables: IndexSet<Name>,
}

impl KnownNames {
    /// The names of a deck whose lines end at a place.
    pub fn new(alloc: Global, deck: &Deck, place: &Place) -> Result<KnownNames, Refused>
        ensures nodes { IfOk result (λ names. names.nodes.keys ≡ known_nodes deck.now place.now) }
        ensures variables { IfOk result (λ names. names.variables.keys ≡ variable_names deck.now place.now) }
        ensures err { IfErr result IsWant }
    {
        let mut names = KnownNames {
            nodes: IndexSet::new(alloc),
            variables: IndexSet::new(alloc),
        };
        names.add_all(deck, place)?;
        Ok(names)
    }

    /// Keeps the nodes that a case may have. A name beyond them has the number that none of them has, and its card is
    /// refused.
    pub fn keep_case_nodes(&mut self)
        ensures nodes { self.new.nodes.keys ≡ case_nodes self.old.nodes.keys }
        ensures variables { self.new.variables.keys ≡ self.old.variables.keys }
    {
        self.nodes.truncate(MOST_NODES);
    }

    fn add_all(&mut self, deck: &Deck, place: &Place) -> Result<(), Refused>
        requires no_node { self.old.nodes.keys ≡ [] }
        requires no_variable { self.old.variables.keys ≡ [] }
        ensures nodes { OnOk result (self.new.nodes.keys ≡ known_nodes deck.now place.now) }
        ensures variables { OnOk result (self.new.variables.keys ≡ variable_names deck.now place.now) }
        ensures err { IfErr result IsWant }
    {
        add_node_names(&mut self.nodes, deck)?;
        add_pending_nodes(&mut self.nodes, place)?;
        add_defined_variables(&mut self.variables, &deck.control)?;
        add_pending_variable(&mut self.variables, place)
    }
}

fn add_pending_nodes(names: &mut IndexSet<Name>, place: &Place) -> Result<(), Refused>
    ensures ok { OnOk result (names.new.keys ≡ with_pending_nodes names.old.keys place.now) }
    ensures err { IfErr result IsWant }
{
    match place {
        Place::Points(group) => add_ends(names, &group.card.from, &group.card.to),
        Place::Waiting { card, .. } => add_ends(names, &card.from, &card.to),
        Place::Third { zero, positive, .. } => {
            add_ends(names, &zero.from, &zero.to)?;
            add_ends(names, &positive.from, &positive.to)
        }
        _ => Ok(()),
    }
}

/// Adds a variable, unless it is there.
fn add_variable(names: &mut IndexSet<Name>, name: &Name) -> Result<(), Refused>
    ensures ok { OnOk result (names.new.keys ≡ with_variable names.old.keys name.now) }
    ensures err { IfErr result IsWant }
{
    names.insert_full(*name)?;
    Ok(())
}

fn add_pending_variable(names: &mut IndexSet<Name>, place: &Place) -> Result<(), Refused>
    ensures ok { OnOk result (names.new.keys ≡ with_pending_variable names.old.keys place.now) }
    ensures err { IfErr result IsWant }
{
    match place {
        Place::Control(ControlPlace::Numerator(card)) => add_variable(names, &card.name),
        Place::Control(ControlPlace::Denominator { card, .. }) => add_variable(names, &card.name),
        Place::Control(ControlPlace::DevicePoints(group)) => add_variable(names, &group.card.name),
        _ => Ok(()),
    }
}

fn add_standing(names: &mut IndexSet<Name>) -> Result<(), Refused>
    requires empty { names.old.keys ≡ [] }
    ensures ok { OnOk result (names.new.keys ≡ standing_names) }
    ensures err { IfErr result IsWant }
{
    names.insert_full(Name::new(b"TIMEX"))?;
    names.insert_full(Name::new(b"ISTEP"))?;
    names.insert_full(Name::new(b"DELTAT"))?;
    names.insert_full(Name::new(b"ZERO"))?;
    names.insert_full(Name::new(b"PLUS1"))?;
    names.insert_full(Name::new(b"MINUS1"))?;
    Ok(())
}

fn add_blocks(names: &mut IndexSet<Name>, entries: &[BlockEntry]) -> Result<(), Refused>
    ensures ok { OnOk result (names.new.keys ≡ fold with_block_name names.old.keys entries.now) }
    ensures err { IfErr result IsWant }
{
    for entry in entries {
        add_variable(names, &entry.card.name)?;
    }
    Ok(())
}

fn add_sources(names: &mut IndexSet<Name>, cards: &[SourceCard]) -> Result<(), Refused>
    ensures ok { OnOk result (names.new.keys ≡ fold with_source_name names.old.keys cards.now) }
    ensures err { IfErr result IsWant }
{
    for card in cards {
        add_variable(names, &card.name)?;
    }
    Ok(())
}

fn extra_name(entry: &ExtraEntry) -> Name
    ensures { result ≡ extra_name entry.now }
{
    match entry {
        ExtraEntry::Device { card, .. } => card.name,
        ExtraEntry::Formula(card) => card.name,
    }
}

fn add_extras(names: &mut IndexSet<Name>, entries: &[ExtraEntry]) -> Result<(), Refused>
    ensures ok { OnOk result (names.new.keys ≡ fold with_extra_name names.old.keys entries.now) }
    ensures err { IfErr result IsWant }
{
    for entry in entries {
        add_variable(names, &extra_name(entry))?;
    }
    Ok(())
}

/// Adds the variables of every case, and those that the cards define.
fn add_defined_variables(names: &mut IndexSet<Name>, cards: &ControlCards) -> Result<(), Refused>
    requires empty { names.old.keys ≡ [] }
    ensures ok { OnOk result (names.new.keys ≡ defined_variables cards.now) }
    ensures err { IfErr result IsWant }
{
    add_standing(names)?;
    add_blocks(names, cards.blocks.as_slice())?;
    add_sources(names, cards.sources.as_slice())?;
    add_extras(names, cards.extras.as_slice())
}

/// The number of the variable with a name, from 0.
pub fn find_variable(variables: &IndexSet<Name>, name: &Name) -> Option<u32>
    requires { length variables.now.keys ≤ MOST_VARIABLES }
    ensures { result ≡ find_variable variables.now.keys name.now }
{
    match variables.get_index_of(name) {
        Some(at) => Some(at as u32),
        None => None,
    }
}

/// The number of the variable with a name, or how many there are where no variable has it.
pub fn variable_number(variables: &IndexSet<Name>, name: &Name) -> u32
    requires { length variables.now.keys ≤ MOST_VARIABLES }
    ensures { result ≡ variable_number variables.now.keys name.now }
{
    find_variable(variables, name).unwrap_or(variables.len() as u32)
}

/// The number of a variable that may be named.
pub fn number_of(variables: &IndexSet<Name>, name: &Option<Name>) -> Option<u32>
    requires { length variables.now.keys ≤ MOST_VARIABLES }
    ensures { result ≡ option_map (variable_number variables.now.keys) name.now }
{
    match name {
        Some(name) => Some(variable_number(variables, name)),
        None => None,
    }
}

/// The fault of a name in a column that is there and isn't that of a variable.
pub fn unknown_name(variables: &IndexSet<Name>, column: u32, name: &Option<Name>) -> Option<Fault>
    ensures { result ≡ unknown_name variables.now.keys column name.now }
{
    match name {
        Some(name) if variables.get_index_of(name).is_none() => Some(Fault {
            column,
            why: Why::UnknownName,
        }),
        _ => None,
    }
}
