//! What is the same in all steps.

ghost use Rattle.emtp_case.specs.declared.limit.TheConstants.{MOST_NODES};
ghost use Rattle.std.specs.Prelude.{◌≡◌, ◌≤◌, ◌+◌, length, map, min, IfOk};
ghost use Rattle.std.specs.List.{range_with_len};
ghost use Rattle.emtp_case.specs.held.RowOrder.{IsRowOrder};
ghost use Rattle.emtp_switch.specs.Groups.{alone, by_rank, known_nodes};
ghost use Rattle.emtp_switch.specs.held.Plan.{IsPlan, MarksKnown};
ghost use Rattle.emtp_switch.specs.held.Tallies.{ends_of};

use crate::kinds::Ends;
use emtp_case::{Case, Parts, RowOrder};
use std::alloc::{AllocError, Global};

/// What is the same in all steps.
#[derive(Drop)]
pub struct Plan {
    /// Ground, the nodes with a voltage source, and the other nodes from the last row back: the first of them in a group
    /// is its root.
    pub ranked: Vec<u32>,
    /// By node, ground first: whether its voltage is known.
    pub known: Vec<bool>,
    /// By node, ground first: what ends there.
    pub ends: Vec<Ends>,
}

impl Plan {
    pub(crate) fn open(alloc: Global, case: &Case, order: &RowOrder) -> Result<Plan, AllocError>
        requires order { IsRowOrder case.now.parts order.now }
        ensures { IfOk result (IsPlan case.now.parts order.now) }
    {
        let rows = case.parts.nodes.len();
        let ranked = rank(alloc, order, rows)?;
        let known = know(alloc, order, rows)?;
        let ends = find_ends(alloc, &case.parts, rows)?;
        Ok(Plan {
            ranked,
            known,
            ends,
        })
    }
}

/// The nodes by rank: ground, those with a voltage source, the others from the last row back.
fn rank(alloc: Global, order: &RowOrder, rows: usize) -> Result<Vec<u32>, AllocError>
    requires rows { rows ≡ length order.now.nodes }
    ensures { IfOk result (λ ranked. ranked.items ≡ by_rank order.now) }
{
    let fixed = source_rows(order, rows);
    let mut ranked = Vec::new(alloc);
    ranked.push(0)?;
    for row in 0..fixed {
        ranked.push(order.node_at(row))?;
    }
    for row in (fixed..rows).rev() {
        ranked.push(order.node_at(row))?;
    }
    Ok(ranked)
}

/// The number of rows of voltage sources.
fn source_rows(order: &RowOrder, rows: usize) -> usize
    ensures within { result ≤ rows }
    ensures value { result ≡ min order.now.fixed rows }
{
    let fixed = order.fixed();
    if fixed < rows { fixed } else { rows }
}

/// Marks ground and the nodes with a voltage source.
fn know(alloc: Global, order: &RowOrder, rows: usize) -> Result<Vec<bool>, AllocError>
    requires rows { rows ≡ length order.now.nodes }
    requires few { rows ≤ MOST_NODES }
    ensures size { IfOk result (λ known. length known.items ≡ rows + 1) }
    ensures marks { IfOk result (λ known. MarksKnown (known_nodes order.now) (alone rows) known.items) }
{
    let mut known = vec![in alloc; false; rows + 1]?;
    known[0] = true;
    for row in 0..source_rows(order, rows) {
        known[order.node_at(row) as usize] = true;
    }
    Ok(known)
}

/// What ends at each node, ground first.
fn find_ends(alloc: Global, parts: &Parts, rows: usize) -> Result<Vec<Ends>, AllocError>
    requires few { rows ≤ MOST_NODES }
    ensures { IfOk result (λ ends. ends.items ≡ map (ends_of parts.now) (range_with_len 0 (rows + 1))) }
{
    let mut ends = Vec::new(alloc);
    for node in 0..rows as u32 + 1 {
        ends.push(Ends::of(parts, node))?;
    }
    Ok(ends)
}
