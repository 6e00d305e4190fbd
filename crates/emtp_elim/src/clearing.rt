// One column cleared from a row.
ghost use Rattle.std.specs.Prelude.{ℕ, ◌<◌, ◌≤◌, unsigned_abs, length};
ghost use Rattle.std.specs.Bool.{OnTrue, OnFalse};
ghost use Rattle.emtp_fix.specs.declared.limit.TheConstants.{LARGEST_ENTRY};
ghost use Rattle.emtp_elim.specs.Matrix.{item};
ghost use Rattle.emtp_elim.specs.held.Clearing.{IsClearedRow, LeavesRangeAt};
ghost use Rattle.emtp_elim.specs.held.Row.{numbers, IsRow};

use crate::arithmetic::{less_by_word, ratio};
use crate::row::FinishedRow;
use emtp_fix::{LARGEST_ENTRY, LARGEST_RATIO, ratio_word};

/// Clears column `k` from a row by finished row `k`, and puts the ratio of the two in its place. False where the ratio
/// or an entry leaves its range. A row that is clear there already needs no call.
pub fn clear_column(work: &mut [i128], above: FinishedRow<'_>, k: usize) -> bool
    requires above { IsRow (length work.old) k above }
    requires place { k < length work.old }
    requires entries { (j : ℕ) → k ≤ j → unsigned_abs (item work.old j) ≤ LARGEST_ENTRY }
    ensures cleared { OnTrue result (IsClearedRow k work.old (numbers (length work.old) above.entry) work.new) }
    ensures out { OnFalse result (LeavesRangeAt k work.old (numbers (length work.old) above.entry)) }
{
    let columns = above.columns;
    let values = above.values;
    let m = ratio(work[k], i128::from(values[above.pivot]));
    if m.unsigned_abs() > LARGEST_RATIO {
        return false;
    }
    let word = ratio_word(m as i64);
    for e in above.pivot + 1..above.last {
        let column = columns[e] as usize;
        let entry = less_by_word(work[column], m, word, i128::from(values[e]));
        if entry.unsigned_abs() > LARGEST_ENTRY {
            return false;
        }
        work[column] = entry;
    }
    work[k] = m;
    true
}
