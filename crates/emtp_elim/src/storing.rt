// A finished row put after those that are kept.
ghost use Rattle.std.specs.Prelude.{◌≡◌, ℕ, ◌+◌, ◌<◌, ◌≤◌, unsigned_abs, length, vec_capacity, [], ◌∷◌, ◌++◌};
ghost use Rattle.emtp_fix.specs.declared.limit.TheConstants.{LARGEST_RATIO};
ghost use Rattle.emtp_elim.specs.Matrix.{item};
ghost use Rattle.emtp_elim.specs.held.Clearing.{IsFinishedRow};
ghost use Rattle.emtp_elim.specs.held.Extent.{IsExtent};
ghost use Rattle.emtp_elim.specs.held.Stored.{Packs, AreStored, rows_kept};
ghost use Rattle.emtp_elim.specs.declared.limit.TheConstants.{MOST_ROWS};

use crate::extent::Extent;
use crate::row_words::RowWords;

/// Puts the numbers of a row that aren't 0, from column `from` on and before `upto`, with their columns after the
/// `first` entries that are kept, and answers how many are kept then.
fn pack(
    work: &[i128],
    from: usize,
    upto: usize,
    columns: &mut [u16],
    values: &mut [i64],
    first: usize,
) -> usize
    requires part { from ≤ upto }
    requires row { upto ≤ length work.now }
    requires few { length work.now ≤ MOST_ROWS }
    requires room { first + upto ≤ length columns.old + from }
    requires same_room { length values.old ≡ length columns.old }
    requires numbers { (j : ℕ) → unsigned_abs (item work.now j) ≤ LARGEST_RATIO }
    ensures { Packs work.now from upto columns.old columns.new values.old values.new first result }
{
    let mut at = first;
    for j in from..upto {
        if work[j] == 0 {
            continue;
        }
        columns[at] = j as u16;
        values[at] = work[j] as i64;
        at += 1;
    }
    at
}

/// Keeps a finished row, and its words, after those that are kept: as many as the number of its diagonal.
pub fn store_next(
    starts: &mut [usize],
    pivots: &mut [usize],
    columns: &mut [u16],
    values: &mut [i64],
    words: &mut RowWords,
    extent: Extent,
    work: &[i128],
)
    requires extent { IsExtent work.now extent }
    requires stored { AreStored (length work.now) extent.diagonal starts.old pivots.old columns.old values.old words.old }
    requires room { extent.diagonal < length work.now }
    requires finished { IsFinishedRow (length work.now) extent.diagonal work.now }
    ensures stored { AreStored (length work.now) (extent.diagonal + 1) starts.new pivots.new columns.new values.new words.new }
    ensures rows { rows_kept (length work.now) (extent.diagonal + 1) starts.new columns.new values.new
        ≡ rows_kept (length work.now) extent.diagonal starts.old columns.old values.old ++ work.now ∷ [] }
    ensures has_words { vec_capacity words.new.has_words ≡ vec_capacity words.old.has_words }
    ensures ratio_words { vec_capacity words.new.ratio_words ≡ vec_capacity words.old.ratio_words }
    ensures dividers { vec_capacity words.new.dividers ≡ vec_capacity words.old.dividers }
{
    let count = extent.diagonal;
    let pivot = pack(work, extent.first, count, columns, values, starts[count]);
    columns[pivot] = count as u16;
    values[pivot] = work[count] as i64;
    let end = pack(work, count + 1, extent.end, columns, values, pivot + 1);
    pivots[count] = pivot;
    words.keep(count, values, starts[count], pivot);
    starts[count + 1] = end;
}
