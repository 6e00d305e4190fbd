//! Sums of currents, by row.

ghost use Rattle.emtp_case.specs.declared.limit.TheConstants.{MOST_NODES};
ghost use Rattle.std.specs.Prelude.{◌≡◌, ◌*◌, ◌^◌, ◌<◌, ◌≤◌, ◌+ℤ◌, false, ℕ, length, map, slice_set, unsigned_abs};
ghost use Rattle.emtp_case.specs.RowOrder.{order_of};
ghost use Rattle.emtp_elim.specs.Matrix.{item};
ghost use Rattle.emtp_net.specs.held.Sums.{AddsAt, AddsEnds, AddsTied, AreUntied, FoldsGroups, in_row};
ghost use Rattle.emtp_rows.specs.Nodal.{kind_at};
ghost use Rattle.emtp_rows.specs.held.Terms.{end_rows};
ghost use Rattle.emtp_rows.specs.held.Touched.{is_sum, tied_row};

use emtp_case::{Case, RowKind, RowOrder};

/// Adds an amount to the row of a node; ground has none.
pub(crate) fn add_at(case: &Case, order: &RowOrder, node: u32, amount: i128, out: &mut [i128])
    requires order { order.now ≡ order_of case.now.parts }
    requires node { node ≤ length case.now.parts.nodes }
    requires out { length out.old ≡ length case.now.parts.nodes }
    requires small { unsigned_abs amount ≤ 10 ^ 30 }
    requires bound { (j : ℕ) → j < length out.old → unsigned_abs (item out.old j) ≤ 10 ^ 36 }
    ensures { AddsAt case.now.parts node amount out.old out.new }
{
    if node != 0 {
        let row = order.row_of(node);
        add_to(out, row, amount);
    }
}

fn add_to(out: &mut [i128], at: usize, amount: i128)
    requires place { at < length out.old }
    requires entry { unsigned_abs (item out.old at) ≤ 10 ^ 38 }
    requires amount { unsigned_abs amount ≤ 10 ^ 35 }
    ensures { out.new ≡ slice_set out.old at (item out.old at +ℤ amount) }
{
    out[at] += amount;
}

/// Adds an amount to a row; ground has none, and stands behind the last one.
fn add_in_row(row: usize, amount: i128, out: &mut [i128])
    requires small { unsigned_abs amount ≤ 10 ^ 30 }
    requires bound { (j : ℕ) → j < length out.old → unsigned_abs (item out.old j) ≤ 10 ^ 36 }
    ensures { (j : ℕ) → j < length out.old → item out.new j ≡ item out.old j +ℤ in_row row amount j }
{
    if row < out.len() {
        add_to(out, row, amount);
    }
}

fn add_in_rows(rows: (u32, u32), ends: (i128, i128), out: &mut [i128])
    requires first { unsigned_abs ends.0 ≤ 10 ^ 30 }
    requires second { unsigned_abs ends.1 ≤ 10 ^ 30 }
    requires bound { (j : ℕ) → j < length out.old → unsigned_abs (item out.old j) ≤ 10 ^ 35 }
    ensures { (j : ℕ) → j < length out.old
        → item out.new j ≡ item out.old j +ℤ (in_row rows.0 ends.0 j +ℤ in_row rows.1 ends.1 j) }
{
    add_in_row(rows.0 as usize, ends.0, out);
    add_in_row(rows.1 as usize, ends.1, out);
}

/// Adds what a branch brings to its two nodes to their rows, which `rows` has for each branch.
pub(crate) fn add_ends(
    case: &Case,
    rows: &[(u32, u32)],
    at: usize,
    ends: (i128, i128),
    out: &mut [i128],
)
    requires rows { rows.now ≡ map (end_rows case.now.parts) case.now.parts.branches }
    requires there { at < length case.now.parts.branches }
    requires out { length out.old ≡ length case.now.parts.nodes }
    requires first { unsigned_abs ends.0 ≤ 10 ^ 30 }
    requires second { unsigned_abs ends.1 ≤ 10 ^ 30 }
    requires bound { (j : ℕ) → j < length out.old → unsigned_abs (item out.old j) ≤ 10 ^ 35 }
    ensures { AddsEnds case.now.parts at ends out.old out.new }
{
    add_in_rows(rows[at], ends, out);
}

/// Whether a row is tied to the sum of a group.
pub(crate) fn has_ties(kinds: &[RowKind]) -> bool
    ensures { result ≡ false → AreUntied kinds.now }
{
    for k in 0..kinds.len() {
        let to = tied_row(kinds, kinds[k]);
        if to < kinds.len() {
            return true;
        }
    }
    false
}

/// Adds what stands in the rows that are tied to the sum of a group to the row of that sum. The other rows stay. `ties`
/// is [`has_ties`]: where no row is tied, none is looked at.
pub(crate) fn fold(ties: bool, kinds: &[RowKind], sums: &mut [i128])
    requires ties { ties ≡ false → AreUntied kinds.now }
    requires each { length kinds.now ≡ length sums.old }
    requires few { length sums.old ≤ MOST_NODES }
    requires small { (j : ℕ) → j < length sums.old → unsigned_abs (item sums.old j) ≤ 2 * 10 ^ 34 }
    ensures groups { FoldsGroups kinds.now sums.old sums.new }
    ensures bound { (j : ℕ) → j < length sums.old → unsigned_abs (item sums.new j) ≤ 10 ^ 38 }
{
    if ties {
        fold_rows(kinds, sums);
    }
}

/// The same, row by row.
fn fold_rows(kinds: &[RowKind], sums: &mut [i128])
    requires each { length kinds.now ≡ length sums.old }
    requires few { length sums.old ≤ MOST_NODES }
    requires small { (j : ℕ) → j < length sums.old → unsigned_abs (item sums.old j) ≤ 2 * 10 ^ 34 }
    ensures groups { FoldsGroups kinds.now sums.old sums.new }
    ensures bound { (j : ℕ) → j < length sums.old → unsigned_abs (item sums.new j) ≤ 10 ^ 38 }
{
    for k in 0..kinds.len() {
        fold_row(kinds, k, sums);
    }
}

/// Adds what stands in a row to the row of the sum that it is tied to, if it is.
fn fold_row(kinds: &[RowKind], k: usize, sums: &mut [i128])
    requires each { length kinds.now ≡ length sums.old }
    requires there { k < length kinds.now }
    requires amount { is_sum (kind_at kinds.now k) ≡ false → unsigned_abs (item sums.old k) ≤ 2 * 10 ^ 34 }
    requires bound { (j : ℕ) → j < length sums.old → unsigned_abs (item sums.old j) ≤ 4 * 10 ^ 37 }
    ensures { AddsTied kinds.now k sums.old sums.new }
{
    let to = tied_row(kinds, kinds[k]);
    let amount = sums[k];
    if to < kinds.len() {
        add_to(sums, to, amount);
    }
}

/// The sum that a row of this kind is tied to, or the number of rows, where it is tied to none.
fn tied_row(kinds: &[RowKind], kind: RowKind) -> usize
    ensures { result ≡ tied_row kinds.now kind }
{
    match kind {
        RowKind::Tie(row) => {
            let row = row as usize;
            if row < kinds.len() && kinds[row] == RowKind::Sum {
                row
            } else {
                kinds.len()
            }
        }
        RowKind::Kcl | RowKind::Sum | RowKind::Ground | RowKind::Source => kinds.len(),
    }
}
