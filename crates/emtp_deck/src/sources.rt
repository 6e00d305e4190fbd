//! Filling the sources.

ghost use Rattle.emtp_case.specs.declared.limit.TheConstants.{MOST_SOURCES, MOST_VARIABLES};
ghost use Rattle.std.specs.Prelude.{◌≡◌, ◌<◌, ◌≤◌, All, Some, false, length, IfErr, OnOk};
ghost use Rattle.emtp_walk.specs.held.Answer.{IsWant};
ghost use Rattle.emtp_deck.specs.held.Filling.{IsFilling, Makes, made_of};
ghost use Rattle.emtp_deck.specs.Sources.{driven_shape, driver_fault, is_second, node_fault, source_at, source_fault, take_source, take_sources, with_source};
ghost use Rattle.emtp_netcards.specs.held.SourceCard.{HasSourceCardNumbers};

use crate::filling::Filling;
use emtp_card::{Fault, Refused, Why, least};
use emtp_case::{Draft, MOST_SOURCES, Name, Shape, Source};
use emtp_netcards::SourceCard;
use emtp_sense::{find_node, too_many, unknown_name, variable_number};
use indexmap::IndexSet;

/// Whether a card is the second voltage source of a node.
fn is_second(draft: &Draft, card: &SourceCard, node: u32) -> bool
    ensures { result ≡ is_second card.now node draft.now.parts.sources }
{
    !card.current && draft.has_voltage_source(node)
}

/// The fault of a source of type 60 whose name isn't that of a variable.
fn driver_fault(variables: &IndexSet<Name>, card: &SourceCard) -> Option<Fault>
    ensures { result ≡ driver_fault variables.now.keys card.now }
{
    match card.shape {
        Shape::Tacs { .. } => unknown_name(variables, 3, &Some(card.name)),
        _ => None,
    }
}

fn node_fault(draft: &Draft, card: &SourceCard, node: Option<u32>) -> Option<Fault>
    ensures { result ≡ node_fault card.now draft.now.parts.sources node }
{
    let why = match node {
        None => Why::UnknownName,
        Some(node) if is_second(draft, card, node) => Why::TwoSources,
        Some(_) => return None,
    };
    Some(Fault { column: 3, why })
}

/// The faults of sense of a card, given the number of its node, if it is one.
fn source_fault(filling: &Filling, card: &SourceCard, node: Option<u32>) -> Option<Fault>
    requires { IsFilling filling.now }
    ensures { result ≡ source_fault filling.now.draft.parts card.now node }
{
    let draft = &filling.draft;
    least(&[
        too_many(MOST_SOURCES <= draft.parts.sources.len(), 1),
        node_fault(draft, card, node),
        driver_fault(&filling.variables, card),
    ])
}

/// Takes a source card.
#[tactic(auto, unfolding(crate::specs::Sources::take_source))]
fn take_source(filling: &mut Filling, card: &SourceCard) -> Result<(), Refused>
    requires filling { IsFilling filling.old }
    requires card { HasSourceCardNumbers card.now }
    ensures value { Makes result (take_source (made_of filling.old) card.now) (made_of filling.new) }
    ensures filling { OnOk result (IsFilling filling.new) }
{
    let node = find_node(&filling.nodes, &card.name);
    if let Some(fault) = source_fault(filling, card, node) {
        return Err(Refused::Bad(fault.on_line(card.line)));
    }
    match node {
        Some(node) => add_source(filling, card, node),
        None => Ok(()),
    }
}

/// The shape of a source, the variable that drives it having its number.
fn driven_shape(variables: &IndexSet<Name>, name: &Name, shape: Shape) -> Shape
    requires { length variables.now.keys ≤ MOST_VARIABLES }
    ensures { result ≡ driven_shape variables.now.keys name.now shape }
{
    match shape {
        Shape::Tacs { .. } => Shape::Tacs {
            var: variable_number(variables, name),
        },
        shape => shape,
    }
}

/// The source of a card at its node.
fn source_at(variables: &IndexSet<Name>, card: &SourceCard, node: u32) -> Source
    requires { length variables.now.keys ≤ MOST_VARIABLES }
    ensures { result ≡ source_at variables.now.keys card.now node }
{
    Source {
        line: card.line,
        node,
        current: card.current,
        shape: driven_shape(variables, &card.name, card.shape),
        amplitude: card.amplitude,
        start: card.start,
        stop: card.stop,
    }
}

/// Adds the source of a card whose node is there.
fn add_source(filling: &mut Filling, card: &SourceCard, node: u32) -> Result<(), Refused>
    requires filling { IsFilling filling.old }
    requires room { length filling.old.draft.parts.sources < MOST_SOURCES }
    requires above_ground { 1 ≤ node }
    requires there { node ≤ length filling.old.draft.parts.nodes }
    requires card { HasSourceCardNumbers card.now }
    requires driver { driver_fault filling.old.variables.keys card.now ≡ None }
    requires first { is_second card.now node filling.old.draft.parts.sources ≡ false }
    ensures ok { OnOk result (made_of filling.new ≡ with_source (made_of filling.old) card.now (Some node)) }
    ensures err { IfErr result IsWant }
    ensures filling { OnOk result (IsFilling filling.new) }
{
    let source = source_at(&filling.variables, card, node);
    filling.draft.add_source(source)?;
    Ok(())
}

/// Takes all source cards, up to the first that has a fault.
pub(crate) fn take_sources(filling: &mut Filling, cards: &[SourceCard]) -> Result<(), Refused>
    requires filling { IsFilling filling.old }
    requires cards { All HasSourceCardNumbers cards.now }
    ensures value { Makes result (take_sources (made_of filling.old) cards.now) (made_of filling.new) }
    ensures filling { OnOk result (IsFilling filling.new) }
{
    for card in cards {
        match take_source(filling, card) {
            Ok(()) => {}
            Err(refused) => return Err(refused),
        }
    }
    Ok(())
}
