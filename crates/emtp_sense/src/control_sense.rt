//! The faults of sense of the cards of the control.

ghost use Rattle.emtp_case.specs.declared.limit.TheConstants.{MOST_CONTROL_CARDS, MOST_HISTORY_VALUES, MOST_NODES};
ghost use Rattle.emtp_case.specs.held.RunData.{IsTimeStep};
ghost use Rattle.std.specs.Prelude.{◌≡◌, ◌+◌, ◌*◌, ◌^◌, ◌<◌, ◌≤◌, All, length, IfOk};
ghost use Rattle.emtp_case.specs.held.Control.{HasRangeOfA};
ghost use Rattle.emtp_case.specs.held.RunData.{IsRun};
ghost use Rattle.emtp_sense.specs.ControlSense.{block_bad, block_sense, blocks_bad, card_history_values, control_bad, device_bad, device_sense, ends_at, entry_history_values, extra_bad, find_switch, first_extra, first_source, formula_bad, formula_sense, inputs_sense, is_end, is_measurable, is_unknown, judge_extras, measured_sense, names_sense, pending_control_bad, pending_device, second_sense, tacs_source_bad, tacs_source_sense, tacs_sources_bad};
ghost use Rattle.emtp_walk.specs.held.Sound.{IsDeviceDue, IsExtraEntry, IsSound};

use crate::limits::too_many;
use crate::names::find_node;
use crate::variables::{KnownNames, unknown_name};
use emtp_card::{Bad, Fault, Why, least};
use emtp_case::{MOST_CONTROL_CARDS, MOST_HISTORY_VALUES, Name, Point, Shape};
use emtp_netcards::{SourceCard, SwitchCard};
use emtp_taccards::{BlockCard, DeviceCard, FormulaCard};
use emtp_walk::{BlockEntry, ControlPlace, Deck, ExtraEntry, Place};
use indexmap::IndexSet;

/// The variables of every case.
const STANDING: usize = 6;

/// The fault of a card that defines a variable a second time, where the next one has this number.
fn second_sense(variables: &IndexSet<Name>, next: usize, name: &Name) -> Option<Fault>
    ensures { result ≡ second_sense variables.now.keys next name.now }
{
    if variables.get_index_of(name).unwrap_or(variables.len()) < next {
        Some(Fault {
            column: 3,
            why: Why::TwoSources,
        })
    } else {
        None
    }
}

/// The least fault of the names of a card's signed inputs.
fn inputs_sense(variables: &IndexSet<Name>, inputs: &[Option<(bool, Name)>; 5]) -> Option<Fault>
    ensures { result ≡ inputs_sense variables.now.keys 12 inputs.now }
{
    let mut column = 12;
    for input in inputs {
        let name = match input {
            Some((_, name)) => Some(*name),
            None => None,
        };
        if let Some(fault) = unknown_name(variables, column, &name) {
            return Some(fault);
        }
        column += 8;
    }
    None
}

// ---- blocks

/// The faults of the block after so many.
#[tactic(auto, unfolding(crate::specs::ControlSense::block_sense))]
fn block_sense(variables: &IndexSet<Name>, at: usize, card: &BlockCard) -> Option<Fault>
    requires at { at ≤ 100000000 }
    ensures { result ≡ block_sense variables.now.keys at card.now }
{
    least(&[
        too_many(MOST_CONTROL_CARDS <= at, 1),
        second_sense(variables, STANDING + at, &card.name),
        inputs_sense(variables, &card.inputs),
        unknown_name(variables, 69, &card.low_name),
        unknown_name(variables, 75, &card.high_name),
    ])
}

fn block_bad(variables: &IndexSet<Name>, at: usize, card: &BlockCard) -> Option<Bad>
    requires at { at ≤ 100000000 }
    ensures { result ≡ block_bad variables.now.keys at card.now }
{
    match block_sense(variables, at, card) {
        Some(fault) => Some(fault.on_line(card.line)),
        None => None,
    }
}

fn blocks_bad(variables: &IndexSet<Name>, entries: &[BlockEntry]) -> Option<Bad>
    ensures { result ≡ blocks_bad variables.now.keys 0 entries.now }
{
    let mut at = 0;
    for entry in entries {
        if let Some(bad) = block_bad(variables, at, &entry.card) {
            return Some(bad);
        }
        at += 1;
    }
    None
}

// ---- sources

fn is_end(name: &Name, end: &Option<Name>) -> bool
    ensures { result ≡ is_end name.now end.now }
{
    match end {
        Some(node) => name == node,
        None => false,
    }
}

fn ends_at(name: &Name, card: &SwitchCard) -> bool
    ensures { result ≡ ends_at name.now card.now }
{
    is_end(name, &card.from) || is_end(name, &card.to)
}

/// The place of the first switch that has a name at an end.
pub fn find_switch(switches: &[SwitchCard], name: &Name) -> Option<usize>
    ensures { result ≡ find_switch switches.now name.now }
{
    switches.iter().position(|card| ends_at(name, card))
}

/// Whether a source that measures has something to measure.
fn is_measurable(
    nodes: &IndexSet<Name>,
    switches: &[SwitchCard],
    name: &Name,
    shape: &Shape,
) -> bool
    ensures { result ≡ is_measurable nodes.now.keys switches.now name.now shape.now }
{
    match shape {
        Shape::NodeVoltage { .. } => nodes.get_index_of(name).is_some(),
        Shape::SwitchCurrent { .. } | Shape::SwitchStatus { .. } => {
            find_switch(switches, name).is_some()
        }
        _ => true,
    }
}

fn measured_sense(
    nodes: &IndexSet<Name>,
    switches: &[SwitchCard],
    card: &SourceCard,
) -> Option<Fault>
    ensures { result ≡ measured_sense nodes.now.keys switches.now card.now }
{
    if is_measurable(nodes, switches, &card.name, &card.shape) {
        None
    } else {
        Some(Fault {
            column: 3,
            why: Why::UnknownName,
        })
    }
}

/// The faults of the source after so many, the next variable having this number.
#[tactic(auto, unfolding(crate::specs::ControlSense::tacs_source_sense))]
fn tacs_source_sense(
    names: &KnownNames,
    switches: &[SwitchCard],
    at: usize,
    next: usize,
    card: &SourceCard,
) -> Option<Fault>
    ensures { result ≡ tacs_source_sense names.now.nodes.keys switches.now names.now.variables.keys at next card.now }
{
    least(&[
        too_many(MOST_CONTROL_CARDS <= at, 1),
        second_sense(&names.variables, next, &card.name),
        measured_sense(&names.nodes, switches, card),
    ])
}

fn tacs_source_bad(
    names: &KnownNames,
    switches: &[SwitchCard],
    at: usize,
    next: usize,
    card: &SourceCard,
) -> Option<Bad>
    ensures { result ≡ tacs_source_bad names.now.nodes.keys switches.now names.now.variables.keys at next card.now }
{
    match tacs_source_sense(names, switches, at, next, card) {
        Some(fault) => Some(fault.on_line(card.line)),
        None => None,
    }
}

fn tacs_sources_bad(
    names: &KnownNames,
    switches: &[SwitchCard],
    first: usize,
    cards: &[SourceCard],
) -> Option<Bad>
    requires first { first ≤ MOST_NODES }
    ensures { result ≡ tacs_sources_bad names.now.nodes.keys switches.now names.now.variables.keys first 0 cards.now }
{
    let mut at = 0;
    for card in cards {
        if let Some(bad) = tacs_source_bad(names, switches, at, first + at, card) {
            return Some(bad);
        }
        at += 1;
    }
    None
}

// ---- supplemental cards

fn is_unknown(variables: &IndexSet<Name>, name: &Name) -> bool
    ensures { result ≡ is_unknown variables.now.keys name.now }
{
    variables.get_index_of(name).is_none()
}

/// The fault of an expression that names what isn't a variable.
fn names_sense(variables: &IndexSet<Name>, names: &[Name]) -> Option<Fault>
    ensures { result ≡ names_sense variables.now.keys names.now }
{
    for name in names {
        if is_unknown(variables, name) {
            return Some(Fault {
                column: 12,
                why: Why::UnknownName,
            });
        }
    }
    None
}

/// The faults of the device after so many cards, which needs so many history values with those before it.
#[tactic(auto, unfolding(crate::specs::ControlSense::device_sense))]
fn device_sense(
    variables: &IndexSet<Name>,
    at: usize,
    next: usize,
    history: u64,
    card: &DeviceCard,
) -> Option<Fault>
    ensures { result ≡ device_sense variables.now.keys at next history card.now }
{
    least(&[
        too_many(MOST_CONTROL_CARDS <= at, 1),
        too_many(MOST_HISTORY_VALUES < history, 1),
        second_sense(variables, next, &card.name),
        inputs_sense(variables, &card.inputs),
        unknown_name(variables, 69, &card.d),
        unknown_name(variables, 75, &card.e),
    ])
}

fn device_bad(
    variables: &IndexSet<Name>,
    at: usize,
    next: usize,
    history: u64,
    card: &DeviceCard,
) -> Option<Bad>
    ensures { result ≡ device_bad variables.now.keys at next history card.now }
{
    match device_sense(variables, at, next, history, card) {
        Some(fault) => Some(fault.on_line(card.line)),
        None => None,
    }
}

#[tactic(auto, unfolding(crate::specs::ControlSense::formula_sense))]
fn formula_sense(
    variables: &IndexSet<Name>,
    at: usize,
    next: usize,
    card: &FormulaCard,
) -> Option<Fault>
    ensures { result ≡ formula_sense variables.now.keys at next card.now }
{
    least(&[
        too_many(MOST_CONTROL_CARDS <= at, 1),
        second_sense(variables, next, &card.name),
        names_sense(variables, card.parsed.names.as_slice()),
    ])
}

fn formula_bad(
    variables: &IndexSet<Name>,
    at: usize,
    next: usize,
    card: &FormulaCard,
) -> Option<Bad>
    ensures { result ≡ formula_bad variables.now.keys at next card.now }
{
    match formula_sense(variables, at, next, card) {
        Some(fault) => Some(fault.on_line(card.line)),
        None => None,
    }
}

fn extra_bad(
    variables: &IndexSet<Name>,
    at: usize,
    next: usize,
    history: u64,
    entry: &ExtraEntry,
) -> Option<Bad>
    ensures { result ≡ extra_bad variables.now.keys at next history entry.now }
{
    match entry {
        ExtraEntry::Device { card, .. } => device_bad(variables, at, next, history, card),
        ExtraEntry::Formula(card) => formula_bad(variables, at, next, card),
    }
}

/// How many past values the device of a card needs.
fn card_history_values(dt: i64, card: &DeviceCard) -> u64
    requires dt { IsTimeStep dt }
    requires a { HasRangeOfA card.now.code card.now.a }
    ensures value { result ≡ card_history_values dt card.now }
    ensures few { result ≤ 2 * 10 ^ 18 }
{
    card.code.history_values(card.a, dt)
}

/// How many past values the device of a supplemental card needs; a formula needs none.
pub fn entry_history_values(dt: i64, points: &[Point], entry: &ExtraEntry) -> u64
    requires dt { IsTimeStep dt }
    requires entry { IsExtraEntry points.now entry.now }
    ensures value { result ≡ entry_history_values dt entry.now }
    ensures few { result ≤ 2 * 10 ^ 18 }
{
    match entry {
        ExtraEntry::Device { card, .. } => card_history_values(dt, card),
        ExtraEntry::Formula(_) => 0,
    }
}

/// Judges all supplemental cards: how many history values they need, or what refuses the first that has a fault.
fn judge_extras(
    variables: &IndexSet<Name>,
    dt: i64,
    first: usize,
    points: &[Point],
    entries: &[ExtraEntry],
) -> Result<u64, Bad>
    requires dt { IsTimeStep dt }
    requires first { first ≤ MOST_NODES }
    requires entries { All (IsExtraEntry points.now) entries.now }
    ensures value { result ≡ judge_extras variables.now.keys dt first 0 0 entries.now }
    ensures few { IfOk result (λ history. history ≤ MOST_HISTORY_VALUES) }
{
    let mut at = 0;
    let mut history = 0;
    for entry in entries {
        history += entry_history_values(dt, points, entry);
        if let Some(bad) = extra_bad(variables, at, first + at, history, entry) {
            return Err(bad);
        }
        at += 1;
    }
    Ok(history)
}

// ---- all cards

/// What refuses the card of a group that the file cuts off, after cards that need so many history values.
fn pending_control_bad(
    variables: &IndexSet<Name>,
    deck: &Deck,
    place: &Place,
    first: usize,
    history: u64,
) -> Option<Bad>
    requires sound { IsSound deck.now place.now }
    requires blocks { length deck.now.control.blocks ≤ MOST_CONTROL_CARDS }
    requires extras { length deck.now.control.extras ≤ MOST_CONTROL_CARDS }
    requires first { first ≡ first_extra deck.now.control }
    requires few { first ≤ MOST_NODES }
    requires history { history ≤ MOST_HISTORY_VALUES }
    ensures { result ≡ pending_control_bad variables.now.keys deck.now place.now history }
{
    let cards = &deck.control;
    match place {
        Place::Control(ControlPlace::Numerator(card)) => {
            block_bad(variables, cards.blocks.len(), card)
        }
        Place::Control(ControlPlace::Denominator { card, .. }) => {
            block_bad(variables, cards.blocks.len(), card)
        }
        Place::Control(ControlPlace::DevicePoints(group)) => {
            pending_device(variables, deck, first, history, &group.card)
        }
        _ => None,
    }
}

fn pending_device(
    variables: &IndexSet<Name>,
    deck: &Deck,
    first: usize,
    history: u64,
    card: &DeviceCard,
) -> Option<Bad>
    requires run { IsRun deck.now.run }
    requires card { IsDeviceDue card.now }
    requires extras { length deck.now.control.extras ≤ MOST_CONTROL_CARDS }
    requires first { first ≡ first_extra deck.now.control }
    requires few { first ≤ MOST_NODES }
    requires history { history ≤ MOST_HISTORY_VALUES }
    ensures { result ≡ pending_device variables.now.keys deck.now.run.dt deck.now.control history card.now }
{
    let at = deck.control.extras.len();
    let sum = history + card_history_values(deck.run.dt, card);
    device_bad(variables, at, first + at, sum, card)
}

/// What refuses the first card of the control that has a fault of sense.
#[tactic(auto, unfolding(crate::specs::ControlSense::control_bad))]
pub fn control_bad(names: &KnownNames, deck: &Deck, place: &Place) -> Option<Bad>
    requires sound { IsSound deck.now place.now }
    ensures { result ≡ control_bad names.now.nodes.keys names.now.variables.keys deck.now place.now }
{
    let cards = &deck.control;
    if let Some(bad) = blocks_bad(&names.variables, cards.blocks.as_slice()) {
        return Some(bad);
    }
    let first_source = STANDING + cards.blocks.len();
    let switches = deck.switches.as_slice();
    let sources = cards.sources.as_slice();
    if let Some(bad) = tacs_sources_bad(names, switches, first_source, sources) {
        return Some(bad);
    }
    let first_extra = first_source + sources.len();
    match judge_extras(
        &names.variables,
        deck.run.dt,
        first_extra,
        deck.points.as_slice(),
        cards.extras.as_slice(),
    ) {
        Ok(history) => pending_control_bad(&names.variables, deck, place, first_extra, history),
        Err(bad) => Some(bad),
    }
}
