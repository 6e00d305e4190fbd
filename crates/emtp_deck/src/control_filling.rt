//! The records of the control, whose cards have no fault of sense.

ghost use Rattle.emtp_case.specs.declared.limit.TheConstants.{MOST_CONTROL_CARDS, MOST_HISTORY_VALUES, MOST_NODES, MOST_SWITCHES, MOST_VARIABLES};
ghost use Rattle.std.specs.Prelude.{◌≡◌, ◌+◌, ◌<◌, ◌≤◌, ◌++◌, All, fold, length, map, sum_by, IfErr, IfOk, OnOk};
ghost use Rattle.emtp_case.specs.HistoryValues.{history_values_of};
ghost use Rattle.emtp_case.specs.held.Name.{IsName};
ghost use Rattle.emtp_walk.specs.held.Answer.{IsWant};
ghost use Rattle.emtp_deck.specs.ControlFilling.{block_of, bound_of, device_of, formula_of, inputs_of, measuring, switch_place, tacs_source_of, with_extra};
ghost use Rattle.emtp_sense.specs.ControlSense.{entry_history_values};
ghost use Rattle.emtp_sense.specs.held.ControlSensible.{IsSensibleBlock, IsSensibleExtra, IsSensibleTacsSource};
ghost use Rattle.emtp_deck.specs.held.ControlSensible.{IsSensibleControl};
ghost use Rattle.emtp_walk.specs.held.Coefficients.{IsBlockEntry};
ghost use Rattle.emtp_deck.specs.Deck.{control_made};
ghost use Rattle.emtp_deck.specs.held.Filling.{IsFilling, made_of};
ghost use Rattle.emtp_deck.specs.held.Made.{named_made};
ghost use Rattle.emtp_sense.specs.held.Naming.{Continues};
ghost use Rattle.emtp_walk.specs.held.Sound.{IsExtraEntry, IsTacsSourceCard, IsWhole};
ghost use Rattle.emtp_sense.specs.Variables.{variable_number};

use crate::filling::Filling;
use emtp_card::Refused;
use emtp_case::{Block, Bound, Device, Draft, Formula, Input, Items, Name, Point, Shape, Source};
use emtp_netcards::{SourceCard, SwitchCard};
use emtp_sense::{entry_history_values, find_node, find_switch, number_of, variable_number};
use emtp_taccards::{DeviceCard, FormulaCard};
use emtp_walk::{BlockEntry, Deck, ExtraEntry};
use indexmap::IndexSet;
use std::alloc::Global;

// ---- inputs

/// The inputs of a card that have a name.
fn inputs_of(
    alloc: Global,
    variables: &IndexSet<Name>,
    inputs: &[Option<(bool, Name)>; 5],
) -> Result<Items<Input>, Refused>
    requires { length variables.now.keys ≤ MOST_VARIABLES }
    ensures ok { IfOk result (λ list. list ≡ inputs_of variables.now.keys inputs.now) }
    ensures few { IfOk result (λ list. length list ≤ 5) }
    ensures err { IfErr result IsWant }
{
    let mut list = Items::new(alloc);
    for input in inputs {
        if let Some((minus, name)) = input {
            list.push(Input {
                var: variable_number(variables, name),
                minus: *minus,
            })?;
        }
    }
    Ok(list)
}

// ---- blocks

/// A limit; a named one replaces the fixed one.
fn bound_of(variables: &IndexSet<Name>, name: &Option<Name>, fixed: Option<i64>) -> Bound
    requires { length variables.now.keys ≤ MOST_VARIABLES }
    ensures { result ≡ bound_of variables.now.keys name.now fixed }
{
    match (name, fixed) {
        (Some(name), _) => Bound::Named(variable_number(variables, name)),
        (None, Some(x)) => Bound::Fixed(x),
        (None, None) => Bound::None,
    }
}

fn block_of(alloc: Global, variables: &IndexSet<Name>, entry: &BlockEntry) -> Result<Block, Refused>
    requires { length variables.now.keys ≤ MOST_VARIABLES }
    ensures ok { IfOk result (λ block. block ≡ block_of variables.now.keys entry.now) }
    ensures few { IfOk result (λ block. length block.inputs ≤ 5) }
    ensures err { IfErr result IsWant }
{
    let card = &entry.card;
    Ok(Block {
        line: card.line,
        var: variable_number(variables, &card.name),
        order: card.order,
        inputs: inputs_of(alloc, variables, &card.inputs)?,
        gain: card.gain,
        top: entry.top,
        bottom: entry.bottom,
        low: bound_of(variables, &card.low_name, card.low),
        high: bound_of(variables, &card.high_name, card.high),
    })
}

fn add_blocks(
    alloc: Global,
    draft: &mut Draft,
    variables: &IndexSet<Name>,
    entries: &[BlockEntry],
) -> Result<(), Refused>
    requires variables { variables.now.keys ≡ draft.old.parts.vars }
    requires room { length draft.old.parts.blocks + length entries.now ≤ MOST_CONTROL_CARDS }
    requires entries { All (IsBlockEntry draft.old.parts.run.dt) entries.now }
    requires sensible { All (IsSensibleBlock variables.now.keys) entries.now }
    ensures ok { OnOk result
        (draft.new.parts ≡ record draft.old.parts
        { blocks = draft.old.parts.blocks ++ map (block_of variables.now.keys) entries.now }) }
    ensures err { IfErr result IsWant }
{
    for entry in entries {
        draft.add_block(block_of(alloc, variables, entry)?)?;
    }
    Ok(())
}

// ---- supplemental cards

fn device_of(
    alloc: Global,
    variables: &IndexSet<Name>,
    card: &DeviceCard,
) -> Result<Device, Refused>
    requires { length variables.now.keys ≤ MOST_VARIABLES }
    ensures ok { IfOk result (λ device. device ≡ device_of variables.now.keys card.now) }
    ensures few { IfOk result (λ device. length device.inputs ≤ 5) }
    ensures err { IfErr result IsWant }
{
    Ok(Device {
        line: card.line,
        var: variable_number(variables, &card.name),
        group: card.group,
        code: card.code,
        inputs: inputs_of(alloc, variables, &card.inputs)?,
        a: card.a,
        b: card.b,
        c: card.c,
        d: number_of(variables, &card.d),
        e: number_of(variables, &card.e),
        first: 0,
        count: 0,
    })
}

/// The numbers of an expression's variables.
fn numbers_of(
    alloc: Global,
    variables: &IndexSet<Name>,
    names: &[Name],
) -> Result<Items<u32>, Refused>
    requires { length variables.now.keys ≤ MOST_VARIABLES }
    ensures ok { IfOk result (λ numbers. numbers ≡ map (variable_number variables.now.keys) names.now) }
    ensures err { IfErr result IsWant }
{
    let mut numbers = Items::new(alloc);
    for name in names {
        numbers.push(variable_number(variables, name))?;
    }
    Ok(numbers)
}

fn formula_of(
    alloc: Global,
    variables: &IndexSet<Name>,
    card: &FormulaCard,
) -> Result<Formula, Refused>
    requires { length variables.now.keys ≤ MOST_VARIABLES }
    ensures ok { IfOk result (λ formula. formula ≡ formula_of variables.now.keys card.now) }
    ensures err { IfErr result IsWant }
{
    let mut expr = Items::new(alloc);
    expr.extend_from_slice(card.parsed.nodes.as_slice())?;
    Ok(Formula {
        line: card.line,
        var: variable_number(variables, &card.name),
        group: card.group,
        expr,
        vars: numbers_of(alloc, variables, card.parsed.names.as_slice())?,
    })
}

/// Adds the device or the formula of a card.
fn add_extra(
    alloc: Global,
    draft: &mut Draft,
    variables: &IndexSet<Name>,
    points: &[Point],
    entry: &ExtraEntry,
) -> Result<(), Refused>
    requires variables { variables.now.keys ≡ draft.old.parts.vars }
    requires room { length draft.old.parts.extras < MOST_CONTROL_CARDS }
    requires entry { IsExtraEntry points.now entry.now }
    requires sensible { IsSensibleExtra variables.now.keys entry.now }
    requires history { history_values_of draft.old.parts + entry_history_values draft.old.parts.run.dt entry.now
        ≤ MOST_HISTORY_VALUES }
    ensures ok { OnOk result (draft.new.parts ≡ with_extra variables.now.keys points.now draft.old.parts entry.now) }
    ensures history { OnOk result
        (history_values_of draft.new.parts
        ≡ history_values_of draft.old.parts + entry_history_values draft.old.parts.run.dt entry.now) }
    ensures err { IfErr result IsWant }
{
    match entry {
        ExtraEntry::Device { card, first, count } => {
            let device = device_of(alloc, variables, card)?;
            draft.add_device(device, &points[*first..*first + *count])?;
        }
        ExtraEntry::Formula(card) => draft.add_formula(formula_of(alloc, variables, card)?)?,
    }
    Ok(())
}

/// Adds the devices and the formulas of all cards; how many history values they need.
fn add_extras(
    alloc: Global,
    draft: &mut Draft,
    variables: &IndexSet<Name>,
    points: &[Point],
    entries: &[ExtraEntry],
) -> Result<u64, Refused>
    requires variables { variables.now.keys ≡ draft.old.parts.vars }
    requires room { length draft.old.parts.extras + length entries.now ≤ MOST_CONTROL_CARDS }
    requires entries { All (IsExtraEntry points.now) entries.now }
    requires sensible { All (IsSensibleExtra variables.now.keys) entries.now }
    requires history { history_values_of draft.old.parts
        + sum_by (entry_history_values draft.old.parts.run.dt) entries.now ≤ MOST_HISTORY_VALUES }
    ensures ok { IfOk result
        (λ total. draft.new.parts ≡ fold (with_extra variables.now.keys points.now) draft.old.parts entries.now) }
    ensures history { IfOk result (λ total. history_values_of draft.new.parts ≡ history_values_of draft.old.parts + total) }
    ensures err { IfErr result IsWant }
{
    let mut history = 0;
    for entry in entries {
        add_extra(alloc, draft, variables, points, entry)?;
        history += entry_history_values(draft.parts.run.dt, points, entry);
    }
    Ok(history)
}

/// Gives a draft the variables that are new.
fn add_variables(draft: &mut Draft, variables: &IndexSet<Name>) -> Result<(), Refused>
    requires grows { Continues draft.old.parts.vars variables.now.keys }
    requires few { length variables.now.keys ≤ MOST_VARIABLES }
    requires names { All IsName variables.now.keys }
    ensures ok { OnOk result (draft.new.parts ≡ record draft.old.parts { vars = variables.now.keys }) }
    ensures history { OnOk result (history_values_of draft.new.parts ≡ history_values_of draft.old.parts) }
    ensures err { IfErr result IsWant }
{
    for at in draft.parts.vars.len()..variables.len() {
        draft.add_variable(variables.as_slice()[at])?;
    }
    Ok(())
}

/// Adds what the control makes before the network: its variables, blocks and supplemental cards.
pub(crate) fn add_control(alloc: Global, filling: &mut Filling, deck: &Deck) -> Result<(), Refused>
    requires empty { made_of filling.old ≡ named_made filling.old.nodes.keys deck.now.run }
    requires whole { IsWhole deck.now }
    requires sensible { IsSensibleControl filling.old.variables.keys deck.now }
    ensures ok { OnOk result (made_of filling.new ≡ control_made filling.old.nodes.keys filling.old.variables.keys deck.now) }
    ensures nodes { OnOk result (filling.new.nodes.keys ≡ filling.old.nodes.keys) }
    ensures variables { OnOk result (filling.new.variables.keys ≡ filling.old.variables.keys) }
    ensures err { IfErr result IsWant }
    ensures filling { OnOk result (IsFilling filling.new) }
{
    let (draft, variables) = (&mut filling.draft, &filling.variables);
    add_variables(draft, variables)?;
    add_blocks(alloc, draft, variables, deck.control.blocks.as_slice())?;
    let points = deck.points.as_slice();
    let extras = deck.control.extras.as_slice();
    filling.history = add_extras(alloc, draft, variables, points, extras)?;
    Ok(())
}

// ---- sources

/// The place of the first switch that has a name at an end.
fn switch_place(switches: &[SwitchCard], name: &Name) -> u32
    requires { length switches.now ≤ MOST_SWITCHES }
    ensures { result ≡ switch_place switches.now name.now }
{
    find_switch(switches, name).unwrap_or(0) as u32
}

/// The shape of a source, which measures the node or the switch of its name.
fn measuring(nodes: &IndexSet<Name>, switches: &[SwitchCard], name: &Name, shape: Shape) -> Shape
    requires nodes { length nodes.now.keys ≤ MOST_NODES }
    requires switches { length switches.now ≤ MOST_SWITCHES }
    ensures { result ≡ measuring nodes.now.keys switches.now name.now shape }
{
    match shape {
        Shape::NodeVoltage { .. } => Shape::NodeVoltage {
            node: find_node(nodes, name).unwrap_or(0),
        },
        Shape::SwitchCurrent { .. } => Shape::SwitchCurrent {
            switch: switch_place(switches, name),
        },
        Shape::SwitchStatus { .. } => Shape::SwitchStatus {
            switch: switch_place(switches, name),
        },
        shape => shape,
    }
}

fn tacs_source_of(
    nodes: &IndexSet<Name>,
    switches: &[SwitchCard],
    variables: &IndexSet<Name>,
    card: &SourceCard,
) -> Source
    requires nodes { length nodes.now.keys ≤ MOST_NODES }
    requires switches { length switches.now ≤ MOST_SWITCHES }
    requires variables { length variables.now.keys ≤ MOST_VARIABLES }
    ensures { result ≡ tacs_source_of nodes.now.keys switches.now variables.now.keys card.now }
{
    Source {
        line: card.line,
        node: variable_number(variables, &card.name),
        current: false,
        shape: measuring(nodes, switches, &card.name, card.shape),
        amplitude: card.amplitude,
        start: card.start,
        stop: card.stop,
    }
}

/// Adds the sources of the control to a whole network.
pub(crate) fn add_tacs_sources(
    filling: &mut Filling,
    switches: &[SwitchCard],
    cards: &[SourceCard],
) -> Result<(), Refused>
    requires filling { IsFilling filling.old }
    requires room { length cards.now ≤ MOST_CONTROL_CARDS }
    requires switches { length switches.now ≡ length filling.old.draft.parts.switches }
    requires cards { All IsTacsSourceCard cards.now }
    requires sensible { All (IsSensibleTacsSource filling.old.nodes.keys switches.now filling.old.variables.keys) cards.now }
    ensures ok { OnOk result
        (filling.new.draft.parts
        ≡ record filling.old.draft.parts {
          tacs_sources = map (tacs_source_of filling.old.nodes.keys switches.now filling.old.variables.keys)
              cards.now;
        }) }
    ensures asked { filling.new.asked ≡ filling.old.asked }
    ensures err { IfErr result IsWant }
{
    for card in cards {
        let source = tacs_source_of(&filling.nodes, switches, &filling.variables, card);
        filling.draft.add_tacs_source(source)?;
    }
    Ok(())
}
