//! The rows of each group.

ghost use Rattle.std.specs.Prelude.{◌≡◌, ◌<◌, ◌≤◌, ◌++◌, length, IfOk, OnOk};
ghost use Rattle.emtp_case.specs.declared.limit.TheConstants.{MOST_NODES};
ghost use Rattle.emtp_case.specs.NodeRows.{is_member, is_tie_to};
ghost use Rattle.emtp_phasor.specs.held.HeldBranches.{place_if};
ghost use Rattle.emtp_phasor.specs.held.HeldGroups.{members_by_row, members_of};

use emtp_case::{Items, RowKind};
use std::alloc::{AllocError, Global};

/// For each row the rows whose nodes are of its group, in order: what leaves a group needs no other.
pub(crate) fn members_by_row(
    alloc: Global,
    kinds: &[RowKind],
) -> Result<Vec<Items<u32>>, AllocError>
    requires { length kinds.now ≤ MOST_NODES }
    ensures { IfOk result (λ rows. rows.items ≡ members_by_row kinds.now) }
{
    let mut rows = Vec::new(alloc);
    for row in 0..kinds.len() {
        let members = members_of(alloc, kinds, row)?;
        rows.push(Items::from_vec(members))?;
    }
    Ok(rows)
}

/// The rows whose nodes are of the group of row `i`.
fn members_of(alloc: Global, kinds: &[RowKind], i: usize) -> Result<Vec<u32>, AllocError>
    requires { length kinds.now ≤ MOST_NODES }
    ensures { IfOk result (λ members. members.items ≡ members_of kinds.now i) }
{
    let mut members = Vec::new(alloc);
    for at in 0..kinds.len() {
        add_member(&mut members, kinds, i, at)?;
    }
    Ok(members)
}

/// Adds a row, where it is one of the group.
fn add_member(
    members: &mut Vec<u32>,
    kinds: &[RowKind],
    i: usize,
    at: usize,
) -> Result<(), AllocError>
    requires few { length kinds.now ≤ MOST_NODES }
    requires there { at < length kinds.now }
    ensures { OnOk result (members.new.items ≡ members.old.items ++ place_if (is_member kinds.now i at) at) }
{
    if is_member(kinds, i, at) {
        members.push(at as u32)?;
    }
    Ok(())
}

fn is_member(kinds: &[RowKind], i: usize, k: usize) -> bool
    requires { k < length kinds.now }
    ensures { result ≡ is_member kinds.now i k }
{
    k == i || is_tie_to(i, kinds[k])
}

fn is_tie_to(i: usize, kind: RowKind) -> bool
    ensures { result ≡ is_tie_to i kind }
{
    match kind {
        RowKind::Tie(row) => row as usize == i,
        RowKind::Kcl | RowKind::Sum | RowKind::Ground | RowKind::Source => false,
    }
}
