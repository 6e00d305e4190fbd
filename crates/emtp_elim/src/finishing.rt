// The next row of a matrix, finished by the rows above it.
ghost use Rattle.std.specs.Prelude.{◌≡◌, ℕ, ◌<◌, ◌≤◌, unsigned_abs, length, IfOk, OnOk, IfErr};
ghost use Rattle.std.specs.Bool.{OnTrue, OnFalse};
ghost use Rattle.emtp_fix.specs.declared.limit.TheConstants.{LARGEST_ENTRY};
ghost use Rattle.emtp_elim.specs.Matrix.{item};
ghost use Rattle.emtp_elim.specs.held.Matrix.{AreWithin};
ghost use Rattle.emtp_elim.specs.held.Clearing.{IsFinishedRow};
ghost use Rattle.emtp_elim.specs.held.Extent.{IsExtent};
ghost use Rattle.emtp_elim.specs.held.Finished.{FinishesRow, FaultsRow};

use crate::clearing::clear_column;
use crate::extent::{Extent, end_with};
use crate::fault::RowCause;
use crate::sparse::SparseRows;
use emtp_fix::LARGEST_ENTRY;

/// Whether all numbers of a row are in range.
fn are_in_range(row: &[i128], extent: Extent) -> bool
    requires { IsExtent row.now extent }
    ensures within { OnTrue result (AreWithin LARGEST_ENTRY row.now) }
    ensures out { OnFalse result ((j : ℕ) × (LARGEST_ENTRY < unsigned_abs (item row.now j))) }
{
    for j in extent.first..extent.end {
        if row[j].unsigned_abs() > LARGEST_ENTRY {
            return false;
        }
    }
    true
}

/// Clears the columns before its diagonal from the row that comes after the finished ones, at work within its extent and
/// what the rows above fill in alone.
pub fn finish_row(done: &SparseRows, work: &mut [i128], given: Extent) -> Result<Extent, RowCause>
    requires size { length work.old ≡ done.now.size }
    requires room { length done.now.rows < done.now.size }
    requires extent { IsExtent work.old given }
    requires diagonal { given.diagonal ≡ length done.now.rows }
    ensures numbers { OnOk result (IsFinishedRow done.now.size (length done.now.rows) work.new) }
    ensures finished { OnOk result (FinishesRow done.now.rows work.old work.new) }
    ensures extent { IfOk result (IsExtent work.new) }
    ensures diagonal { IfOk result (λ extent. extent.diagonal ≡ length done.now.rows) }
    ensures fault { IfErr result (FaultsRow done.now.rows work.old) }
{
    let (size, count) = (work.len(), done.rows());
    if !are_in_range(work, given) {
        return Err(RowCause::Range);
    }
    let mut end = given.end;
    for k in given.first..count {
        if work[k] == 0 {
            continue;
        }
        let above = done.row(k);
        if !clear_column(work, above, k) {
            return Err(RowCause::Range);
        }
        end = end_with(end, above, k, size);
    }
    if work[count] == 0 {
        return Err(RowCause::ZeroPivot);
    }
    Ok(Extent {
        first: given.first,
        diagonal: given.diagonal,
        end,
    })
}
