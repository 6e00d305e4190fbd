//! Which terms the branches bring into the rows.

ghost use Rattle.std.specs.Prelude.{◌≡◌, ℕ, ◌<◌, ◌≤◌, ◌∷◌, [], length, drop, map, slice_get, slice_index_or, Some, IfOk, OnOk};
ghost use Rattle.emtp_case.specs.Branch.{first_of_trio};
ghost use Rattle.emtp_case.specs.held.Branch.{IsBranch};
ghost use Rattle.emtp_case.specs.RowOrder.{order_of};
ghost use Rattle.emtp_case.specs.declared.branch.Branch.TheVariants.{Phase as OfPhase};
ghost use Rattle.emtp_case.specs.held.Sizes.{sizes_of};
ghost use Rattle.emtp_rows.specs.Nodal.{end_node, node_at, phase_node};
ghost use Rattle.emtp_rows.specs.held.Terms.{Adds, AddsEnd, HasAllTerms, AmountIsThere, end_rows, end_terms, terms_at};
ghost use Rattle.emtp_rows.specs.held.Touched.{row_at};

use crate::term::{Amount, Term};
use emtp_case::{Branch, Case, Items, Phase, RowOrder, Trio};
use std::alloc::{AllocError, Global};

/// The terms of each row, from one pass over the branches.
pub(crate) fn terms_of_rows(
    alloc: Global,
    case: &Case,
    order: &RowOrder,
) -> Result<Vec<Items<Term>>, AllocError>
    requires order { order.now ≡ order_of case.now.parts }
    ensures count { IfOk result (λ rows. length rows.items ≡ length case.now.parts.nodes) }
    ensures terms { IfOk result (λ rows. HasAllTerms case.now.parts rows.items) }
{
    let mut rows = no_terms(alloc, case.parts.nodes.len())?;
    for at in 0..case.parts.branches.len() {
        add_branch(&mut rows, case, order, at)?;
    }
    Ok(rows)
}

/// So many rows without a term.
fn no_terms(alloc: Global, count: usize) -> Result<Vec<Items<Term>>, AllocError>
    ensures count { IfOk result (λ rows. length rows.items ≡ count) }
    ensures none { IfOk result (λ rows. (i : ℕ) → slice_index_or rows.items i [] ≡ []) }
{
    let mut rows = Vec::new(alloc);
    for _ in 0..count {
        rows.push(Items::new(alloc))?;
    }
    Ok(rows)
}

/// Adds the terms of one branch in the current equations of its two nodes.
fn add_branch(
    rows: &mut [Items<Term>],
    case: &Case,
    order: &RowOrder,
    at: usize,
) -> Result<(), AllocError>
    requires order { order.now ≡ order_of case.now.parts }
    requires there { at < length case.now.parts.branches }
    requires count { length rows.old ≡ length case.now.parts.nodes }
    ensures count { length rows.new ≡ length rows.old }
    ensures adds { OnOk result ((i : ℕ) → i < length rows.old
        → Adds case.now.parts (terms_at case.now.parts (node_at case.now.parts i) at)
        (slice_index_or rows.old i []) (slice_index_or rows.new i [])) }
{
    let branch = &case.parts.branches.as_slice()[at];
    let (from, to) = branch.ends();
    add_in_row(rows, case, order, at, false, branch)?;
    if to == from {
        return Ok(());
    }
    add_in_row(rows, case, order, at, true, branch)
}

/// Adds the terms of one end of a branch in the row of its node; ground has no row.
fn add_in_row(
    rows: &mut [Items<Term>],
    case: &Case,
    order: &RowOrder,
    at: usize,
    second: bool,
    branch: &Branch,
) -> Result<(), AllocError>
    requires order { order.now ≡ order_of case.now.parts }
    requires there { slice_get case.now.parts.branches at ≡ Some branch.now }
    requires fits { IsBranch case.now.parts.run (sizes_of case.now.parts) case.now.parts.points branch.now }
    requires count { length rows.old ≡ length case.now.parts.nodes }
    ensures count { length rows.new ≡ length rows.old }
    ensures adds { OnOk result (AddsEnd case.now.parts (end_node second branch.now) (end_terms case.now.parts at second branch.now)
        rows.old rows.new) }
{
    let node = end_node(second, branch);
    if node == 0 {
        return Ok(());
    }
    let row = order.row_of(node);
    add_end(&mut rows[row], case, order, at, second, branch)
}

/// Adds the terms of one end of a branch.
fn add_end(
    terms: &mut Items<Term>,
    case: &Case,
    order: &RowOrder,
    at: usize,
    second: bool,
    branch: &Branch,
) -> Result<(), AllocError>
    requires order { order.now ≡ order_of case.now.parts }
    requires there { slice_get case.now.parts.branches at ≡ Some branch.now }
    requires fits { IsBranch case.now.parts.run (sizes_of case.now.parts) case.now.parts.points branch.now }
    ensures { OnOk result (Adds case.now.parts (end_terms case.now.parts at second branch.now) terms.old terms.new) }
{
    let node = end_node(second, branch);
    let b = at as u32;
    add_term(terms, case, order, node, Amount::Own(b))?;
    match branch {
        Branch::Lumped(_) | Branch::Pseudo(_) => {
            add_term(
                terms,
                case,
                order,
                end_node(!second, branch),
                Amount::Turned(b),
            )
        }
        Branch::Line(_) => Ok(()),
        Branch::Phase(phase) => add_phases(terms, case, order, second, phase),
    }
}

/// Adds the terms of the two other phases of a three-phase line, at one of its ends.
fn add_phases(
    terms: &mut Items<Term>,
    case: &Case,
    order: &RowOrder,
    second: bool,
    phase: &Phase,
) -> Result<(), AllocError>
    requires order { order.now ≡ order_of case.now.parts }
    requires trio { phase.now.trio < length case.now.parts.trios }
    requires phase { phase.now.phase < 3 }
    ensures { OnOk result (Adds case.now.parts (drop 1 (end_terms case.now.parts 0 second (OfPhase phase.now)))
        terms.old terms.new) }
{
    let coupling = Amount::Mutual(phase.trio);
    let next = phase_node(case, second, phase.trio, (phase.phase + 1) % 3);
    add_term(terms, case, order, next, coupling)?;
    let last = phase_node(case, second, phase.trio, (phase.phase + 2) % 3);
    add_term(terms, case, order, last, coupling)
}

/// The node of a phase of a three-phase line, at its first or its second end.
pub fn phase_node(case: &Case, second: bool, trio: u32, phase: u8) -> u32
    requires trio { trio < length case.now.parts.trios }
    requires phase { phase < 3 }
    ensures value { result ≡ phase_node case.now.parts second trio phase }
    ensures there { result ≤ length case.now.parts.nodes }
{
    let first = first_of_trio(case.parts.trios.as_slice(), trio) as usize;
    end_at(
        case.parts.branches.as_slice(),
        second,
        first + phase as usize,
    )
}

fn first_of_trio(trios: &[Trio], trio: u32) -> u32
    requires { trio < length trios.now }
    ensures { result ≡ first_of_trio trios.now trio }
{
    trios[trio as usize].first
}

fn end_at(branches: &[Branch], second: bool, at: usize) -> u32
    requires { at < length branches.now }
    ensures { result ≡ slice_index_or (map (end_node second) branches.now) at 0 }
{
    end_node(second, &branches[at])
}

/// The node at an end of a branch.
fn end_node(second: bool, branch: &Branch) -> u32
    ensures { result ≡ end_node second branch.now }
{
    let (from, to) = branch.ends();
    if second { to } else { from }
}

/// Adds a number in the column of a node; ground has no column.
fn add_term(
    terms: &mut Items<Term>,
    case: &Case,
    order: &RowOrder,
    node: u32,
    amount: Amount,
) -> Result<(), AllocError>
    requires order { order.now ≡ order_of case.now.parts }
    requires node { node ≤ length case.now.parts.nodes }
    requires amount { AmountIsThere (length case.now.parts.branches) (length case.now.parts.trios) amount }
    ensures { OnOk result (Adds case.now.parts (record { node = node; amount = amount } ∷ []) terms.old terms.new) }
{
    if node != 0 {
        let column = order.row_of(node) as u32;
        terms.push(Term { column, amount })?;
    }
    Ok(())
}

/// The rows of the two nodes of each branch; ground has the number of rows.
pub fn ends_of_branches(
    alloc: Global,
    case: &Case,
    order: &RowOrder,
) -> Result<Vec<(u32, u32)>, AllocError>
    requires { order.now ≡ order_of case.now.parts }
    ensures { IfOk result (λ ends. ends.items ≡ map (end_rows case.now.parts) case.now.parts.branches) }
{
    let mut ends = Vec::new(alloc);
    for branch in case.parts.branches.as_slice() {
        let (from, to) = branch.ends();
        ends.push((row_at(case, order, from), row_at(case, order, to)))?;
    }
    Ok(ends)
}

/// The row of a node, or the number of rows for ground.
fn row_at(case: &Case, order: &RowOrder, node: u32) -> u32
    requires order { order.now ≡ order_of case.now.parts }
    requires node { node ≤ length case.now.parts.nodes }
    ensures { result ≡ row_at case.now.parts node }
{
    if node == 0 {
        case.parts.nodes.len() as u32
    } else {
        order.row_of(node) as u32
    }
}
