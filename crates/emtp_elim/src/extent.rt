// Between which columns a row has its numbers.
ghost use Rattle.std.specs.Prelude.{◌≡◌, ℕ, ◌<◌, ◌≤◌, ℤ, List, pos, length};
ghost use Rattle.emtp_elim.specs.Matrix.{item};
ghost use Rattle.emtp_elim.specs.held.Extent.{IsExtent, IsClearAfter};
ghost use Rattle.emtp_elim.specs.held.Written.{IsWritten};
ghost use Rattle.emtp_elim.specs.held.Row.{numbers, IsRow};

use crate::row::FinishedRow;

/// The columns from `first` on and before `end`, among them that of the diagonal: the row has only zeros elsewhere.
///
/// The work on a row stays in them, so that its cost goes with them and not with the width of the matrix.
#[derive(Clone, Copy)]
pub struct Extent {
    pub first: usize,
    pub diagonal: usize,
    pub end: usize,
}

/// The first column before `upto` with a number that isn't 0, or `upto`.
fn first_column(row: &[i128], upto: usize) -> usize
    requires { upto ≤ length row.now }
    ensures within { result ≤ upto }
    ensures clear { (j : ℕ) → j < result → item row.now j ≡ pos 0 }
{
    for j in 0..upto {
        if row[j] != 0 {
            return j;
        }
    }
    upto
}

/// The column after the last one from `from` on with a number that isn't 0, or `from`.
fn end_column(row: &[i128], from: usize) -> usize
    requires { from ≤ length row.now }
    ensures low { from ≤ result }
    ensures within { result ≤ length row.now }
    ensures clear { IsClearAfter row.now result }
{
    for j in (from..row.len()).rev() {
        if row[j] != 0 {
            return j + 1;
        }
    }
    from
}

/// The extent of a row with its diagonal in this column.
pub fn extent_of(row: &[i128], diagonal: usize) -> Extent
    requires { diagonal < length row.now }
    ensures extent { IsExtent row.now result }
    ensures diagonal { result.diagonal ≡ diagonal }
{
    Extent {
        first: first_column(row, diagonal),
        diagonal,
        end: end_column(row, diagonal + 1),
    }
}

/// The end of a row of `size` numbers, from whose columns before `end` finished row `k` is taken away.
pub fn end_with(end: usize, above: FinishedRow<'_>, k: usize, size: usize) -> usize
    requires above { IsRow size k above }
    requires place { k < end }
    requires end { end ≤ size }
    ensures low { end ≤ result }
    ensures within { result ≤ size }
    ensures clear { IsClearAfter (numbers size above.entry) result }
{
    if above.pivot + 1 == above.last {
        return end;
    }
    let last = above.columns[above.last - 1] as usize;
    if last < end { end } else { last + 1 }
}

/// The extent of a row of `size` numbers with its diagonal in this column, which was written from column `first` on and
/// before `end` alone.
pub fn extent_over(first: usize, end: usize, diagonal: usize, size: usize) -> Extent
    requires place { diagonal < size }
    requires end { end ≤ size }
    ensures extent { (row : List ℤ) → length row ≡ size → IsWritten row first end → IsExtent row result }
    ensures diagonal { result.diagonal ≡ diagonal }
{
    let least = first_with(first, diagonal);
    let most = end_behind(end, diagonal, size);
    Extent {
        first: least,
        diagonal,
        end: most,
    }
}

/// The lesser of two columns.
pub fn first_with(first: usize, column: usize) -> usize
    ensures low { result ≤ first }
    ensures there { result ≤ column }
{
    if column < first { column } else { first }
}

/// An end behind this column too, in a row of `size` numbers.
pub fn end_behind(end: usize, column: usize, size: usize) -> usize
    requires place { column < size }
    requires end { end ≤ size }
    ensures low { end ≤ result }
    ensures there { column < result }
    ensures within { result ≤ size }
{
    if column < end { end } else { column + 1 }
}
