//! Which rows a change touches. Rows before them are neither filled nor compared by who keeps the factor.

ghost use Rattle.std.specs.Prelude.{◌≡◌, ◌+◌, ◌<◌, ◌≤◌, ℕ, length, slice_get, Some};
ghost use Rattle.emtp_rows.specs.Nodal.{kind_at};
ghost use Rattle.emtp_rows.specs.held.Touched.{AgreesBy, equation_row, sum_row, tied_row};

use emtp_case::RowKind;

/// The row that has the currents of the node of a row, or the number of rows, where no row has them.
fn equation_row(kinds: &[RowKind], row: usize) -> usize
    requires { row ≤ length kinds.now }
    ensures { result ≡ equation_row kinds.now row }
{
    if row == kinds.len() {
        return row;
    }
    match kinds[row] {
        RowKind::Kcl | RowKind::Sum => row,
        RowKind::Tie(_) | RowKind::Ground | RowKind::Source => tied_row(kinds, kinds[row]),
    }
}

/// The row, where it is the sum of a group; else the number of rows.
fn sum_row(kinds: &[RowKind], row: usize) -> usize
    ensures { result ≡ sum_row kinds.now row }
{
    if row < kinds.len() && kinds[row] == RowKind::Sum {
        row
    } else {
        kinds.len()
    }
}

/// The least row that has the currents of a branch between the nodes of these rows.
pub(crate) fn touched_by_branch(kinds: &[RowKind], ends: (u32, u32)) -> usize
    requires from_row { ends.0 ≤ length kinds.now }
    requires to_row { ends.1 ≤ length kinds.now }
    ensures at_from { result ≤ equation_row kinds.now ends.0 }
    ensures at_to { result ≤ equation_row kinds.now ends.1 }
{
    let (from, to) = ends;
    equation_row(kinds, from as usize).min(equation_row(kinds, to as usize))
}

/// The same of the three phases from a place on.
pub(crate) fn touched_by_phases(kinds: &[RowKind], ends: &[(u32, u32)], first: usize) -> usize
    requires there { first + 3 ≤ length ends.now }
    requires rows { (b : ℕ) (e : ℕ × ℕ) → slice_get ends.now b ≡ Some e → (e.0 ≤ length kinds.now) × (e.1 ≤ length kinds.now) }
    ensures { (p : ℕ) (e : ℕ × ℕ) → p < 3 → slice_get ends.now (first + p) ≡ Some e
        → (result ≤ equation_row kinds.now e.0) × (result ≤ equation_row kinds.now e.1) }
{
    touched_by_branch(kinds, ends[first])
        .min(touched_by_branch(kinds, ends[first + 1]))
        .min(touched_by_branch(kinds, ends[first + 2]))
}

/// The least row that says something else where the rows get other kinds.
pub(crate) fn touched_by_kinds(old: &[RowKind], new: &[RowKind]) -> usize
    requires { length old.now ≡ length new.now }
    ensures agrees { (i k : ℕ) → i < result → k < length new.now → AgreesBy new.now i k (kind_at old.now k) (kind_at new.now k) }
    ensures same { old.now ≡ new.now → result ≡ length new.now }
{
    let mut least = new.len();
    for k in 0..new.len() {
        least = least.min(touched_by_kind(k, old[k], new[k], new));
    }
    least
}

/// The least row that says something else where row `k` gets another kind.
fn touched_by_kind(k: usize, old: RowKind, new: RowKind, kinds: &[RowKind]) -> usize
    ensures agrees { (i : ℕ) → i < result → AgreesBy kinds.now i k old new }
    ensures same { old ≡ new → result ≡ length kinds.now }
{
    if old == new {
        return kinds.len();
    }
    k.min(tied_row(kinds, old)).min(tied_row(kinds, new))
}

/// The sum that a row of this kind is tied to, or the number of rows, where it is tied to none.
fn tied_row(kinds: &[RowKind], kind: RowKind) -> usize
    ensures { result ≡ tied_row kinds.now kind }
{
    match kind {
        RowKind::Tie(to) => sum_row(kinds, to as usize),
        RowKind::Kcl | RowKind::Sum | RowKind::Ground | RowKind::Source => kinds.len(),
    }
}
