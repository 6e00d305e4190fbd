//! The branches at each node.

ghost use Rattle.std.specs.Prelude.{◌≡◌, ◌<◌, ◌++◌, length, slice_get, Some, IfOk, OnOk};
ghost use Rattle.emtp_case.specs.RowOrder.{order_of};
ghost use Rattle.emtp_phasor.specs.held.HeldBranches.{branches_at, branches_by_row, has_end_at, place_if};

use emtp_case::{Branch, Case, Items, RowOrder};
use std::alloc::{AllocError, Global};

/// For each row the places of the branches at its node, in order: a row's entries and its residual need no other.
pub(crate) fn branches_by_row(
    alloc: Global,
    case: &Case,
    order: &RowOrder,
) -> Result<Vec<Items<u32>>, AllocError>
    requires { order.now ≡ order_of case.now.parts }
    ensures { IfOk result (λ rows. rows.items ≡ branches_by_row case.now.parts) }
{
    let mut rows = Vec::new(alloc);
    for row in 0..case.parts.nodes.len() {
        let places = branches_at(alloc, case, order.node_at(row))?;
        rows.push(Items::from_vec(places))?;
    }
    Ok(rows)
}

/// The places of the branches with an end at a node.
fn branches_at(alloc: Global, case: &Case, node: u32) -> Result<Vec<u32>, AllocError>
    ensures { IfOk result (λ places. places.items ≡ branches_at case.now.parts node) }
{
    let mut places = Vec::new(alloc);
    for at in 0..case.parts.branches.len() {
        add_place(&mut places, case, node, at)?;
    }
    Ok(places)
}

/// Adds the place of a branch, where it has an end at the node.
fn add_place(places: &mut Vec<u32>, case: &Case, node: u32, at: usize) -> Result<(), AllocError>
    requires { at < length case.now.parts.branches }
    ensures { OnOk result (places.new.items
        ≡ places.old.items ++ place_if (has_end_at node (slice_get case.now.parts.branches at)) at) }
{
    if has_end_at(node, &case.parts.branches.as_slice()[at]) {
        places.push(at as u32)?;
    }
    Ok(())
}

fn has_end_at(node: u32, branch: &Branch) -> bool
    ensures { result ≡ has_end_at node (Some branch.now) }
{
    let (from, to) = branch.ends();
    from == node || to == node
}
