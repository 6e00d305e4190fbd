//! The line behind the note of a run that ends with RANGE.

ghost use Rattle.std.specs.Prelude.{◌≡◌, ◌++◌, ◌+◌, ◌<◌, ◌≤◌, IfSome, OnOk, Some, codes, length, position};
ghost use Rattle.std.specs.Str.{bytes_eq};
ghost use Rattle.emtp_assess.specs.Fronts.{branch_front, switch_front};
ghost use Rattle.emtp_assess.specs.RangeLine.{beside_end, line_of_reached, node_named, owner_text, range_by, range_line, range_text, ranged_by, ranged_node, reached_text};
ghost use Rattle.emtp_machine.specs.History.{history};

use crate::fronts::{put_branch_front, put_node, put_switch_front};
use crate::judged_lines::{put_count, put_quantity};
use crate::stepped::Stepped;
use crate::texts::{AMPERE, CURRENT, FLUX, KEPT_VOLTAGE, NODE, RANGE, STEP, VOLT, VOLTAGE, WEBER};
use emtp_case::{Branch, Case, Name, Switch};
use emtp_fix::{LARGEST_VALUE, Steps};
use emtp_machine::{Cause, End, Machine};
use emtp_text::{put, put_fixed};
use emtp_worth::{Number, Reached, nearest_at_end};
use std::alloc::{AllocError, Global};
use std::marker::Brand;
use std::sync::ledger::{Blank, Ledger};

// ---- the line

/// Puts a number of the record of a step after a text, and what it is of.
#[tactic(auto, unfolding(crate::specs::RangeLine::range_line))]
fn put_range_line(
    text: &mut Vec<u8>,
    nodes: &[Name],
    step: u32,
    reached: &Reached,
) -> Result<(), AllocError>
    ensures { OnOk result (text.new.items ≡ text.old.items ++ range_line nodes.now step reached.now) }
{
    put(text, RANGE)?;
    put_count(text, STEP, step)?;
    put_owner(text, nodes, &reached.of)?;
    put_reached(text, &reached.of, &reached.value)?;
    put(text, b"\n")
}

/// Puts what a number is of after a text.
fn put_owner(text: &mut Vec<u8>, nodes: &[Name], of: &Number) -> Result<(), AllocError>
    ensures { OnOk result (text.new.items ≡ text.old.items ++ owner_text nodes.now of.now) }
{
    match of {
        Number::Voltage(node) => put_node(text, NODE, nodes, *node),
        Number::Current(b) => put_branch_owner(text, nodes, b),
        Number::Kept(b) => put_branch_owner(text, nodes, b),
        Number::Flux(b) => put_branch_owner(text, nodes, b),
        Number::Through(s) => put_switch_owner(text, nodes, s),
    }
}

fn put_branch_owner(text: &mut Vec<u8>, nodes: &[Name], b: &Branch) -> Result<(), AllocError>
    ensures { OnOk result (text.new.items ≡ text.old.items ++ (codes ", " ++ branch_front nodes.now b.now)) }
{
    put(text, b", ")?;
    put_branch_front(text, nodes, b)
}

fn put_switch_owner(text: &mut Vec<u8>, nodes: &[Name], s: &Switch) -> Result<(), AllocError>
    ensures { OnOk result (text.new.items ≡ text.old.items ++ (codes ", " ++ switch_front nodes.now s.now)) }
{
    put(text, b", ")?;
    put_switch_front(text, nodes, s)
}

/// Puts a number after a text, beside the end of its range.
fn put_reached(text: &mut Vec<u8>, of: &Number, value: &i64) -> Result<(), AllocError>
    ensures { OnOk result (text.new.items ≡ text.old.items ++ reached_text of.now value.now) }
{
    match of {
        Number::Voltage(_) => put_beside_end(text, VOLTAGE, 9, VOLT, value),
        Number::Current(_) => put_beside_end(text, CURRENT, 9, AMPERE, value),
        Number::Kept(_) => put_beside_end(text, KEPT_VOLTAGE, 9, VOLT, value),
        Number::Flux(_) => put_beside_end(text, FLUX, 12, WEBER, value),
        Number::Through(_) => put_beside_end(text, CURRENT, 9, AMPERE, value),
    }
}

#[tactic(auto, unfolding(crate::specs::RangeLine::beside_end))]
fn put_beside_end(
    text: &mut Vec<u8>,
    name: &[u8],
    places: usize,
    unit: &[u8],
    value: &i64,
) -> Result<(), AllocError>
    requires { places ≤ 18 }
    ensures { OnOk result (text.new.items ≡ text.old.items ++ beside_end name.now places unit.now value.now) }
{
    put_quantity(text, name, places, unit, value)?;
    put(text, b" of ")?;
    put_fixed(text, LARGEST_VALUE as i64, places)?;
    put(text, unit)
}

fn put_some_reached(
    text: &mut Vec<u8>,
    nodes: &[Name],
    step: u32,
    reached: &Option<Reached>,
) -> Result<(), AllocError>
    ensures { OnOk result (text.new.items ≡ text.old.items ++ line_of_reached nodes.now step reached.now) }
{
    match reached {
        None => Ok(()),
        Some(reached) => put_range_line(text, nodes, step, reached),
    }
}

// ---- where there is one

/// The node that an end names by RANGE.
fn ranged_node(case: &Case, end: &Option<End>) -> Option<u32>
    ensures value { result ≡ ranged_node case.now.parts end.now }
    ensures there { IfSome result (λ n. n ≤ length case.now.parts.nodes) }
{
    match end {
        None => None,
        Some(end) => ranged_by(case, end),
    }
}

fn ranged_by(case: &Case, end: &End) -> Option<u32>
    ensures value { result ≡ ranged_by case.now.parts end.now.cause end.now.name }
    ensures there { IfSome result (λ n. n ≤ length case.now.parts.nodes) }
{
    match end.cause {
        Cause::Range => named(case, &end.name),
        _ => None,
    }
}

/// The number of the node with a name.
fn named(case: &Case, name: &Name) -> Option<u32>
    ensures value { result ≡ node_named case.now.parts name.now }
    ensures there { IfSome result (λ n. n ≤ length case.now.parts.nodes) }
{
    match first_place(case.parts.nodes.as_slice(), name.as_slice()) {
        Some(at) => Some(at as u32 + 1),
        None => None,
    }
}

/// The first place of a name.
fn first_place(names: &[Name], name: &[u8]) -> Option<usize>
    ensures { result ≡ position (λ n. bytes_eq n name.now) names.now }
{
    names.iter().position(|n| n.as_slice() == name)
}

/// Puts the line of a run's end after a text, where the run made so many steps and ended with RANGE. The run is made once
/// more, up to its last record: after its end nothing of it can be read.
///
/// # Errors
///
/// [`AllocError`] where memory is wanting.
pub(crate) fn put_range(
    text: &mut Vec<u8>,
    alloc: Global,
    case: &Case,
    end: &Option<End>,
    made: u32,
) -> Result<(), AllocError>
    requires end { end.now ≡ (history case.now.parts).end }
    requires made { made + 1 ≡ length (history case.now.parts).records }
    ensures { OnOk result (text.new.items ≡ text.old.items ++ range_text case.now.parts (history case.now.parts)) }
{
    match ranged_node(case, end) {
        None => Ok(()),
        Some(node) => put_nearest::<Brand>(text, alloc, case, node, made, Blank::new(1)),
    }
}

/// The same over a ledger, of a node.
fn put_nearest<L: Ledger>(
    text: &mut Vec<u8>,
    alloc: Global,
    case: &Case,
    node: u32,
    made: u32,
    blank: Blank,
) -> Result<(), AllocError>
    requires name { blank.name ≡ L.name }
    requires parts { blank.parts ≡ L.parts }
    requires some { 0 < blank.parts }
    requires node { node ≤ length case.now.parts.nodes }
    requires made { made + 1 ≡ length (history case.now.parts).records }
    ensures { OnOk result (text.new.items
        ≡ text.old.items ++ range_by case.now.parts (history case.now.parts) (Some node)) }
{
    let machine = Machine::open(alloc, case)?;
    let mut run = Stepped {
        machine,
        steps: Steps::<L>::new(blank),
    };
    let reached = nearest_at_end(case, &mut run, node, made);
    // A call, since a drop in place is proved here list by list.
    drop(run);
    put_some_reached(text, case.parts.nodes.as_slice(), made, &reached)
}
