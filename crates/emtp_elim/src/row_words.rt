// What of finished rows makes the work on right sides short.
ghost use Rattle.std.specs.Prelude.{◌≡◌, ℕ, ◌+◌, ◌<◌, ◌≤◌, length, vec_capacity, true, IfOk};
ghost use Rattle.emtp_elim.specs.Matrix.{item};
ghost use Rattle.emtp_elim.specs.held.RowWords.{HaveWords, HasRoom, KeepsWords};
ghost use Rattle.emtp_elim.specs.declared.limit.TheConstants.{MOST_ROWS};

use emtp_fix::{PICO, Pivot, ratio_word};
use std::alloc::{AllocError, Global};

/// Of each finished row the words of its ratios, and what divides by its pivot.
#[derive(Drop)]
pub struct RowWords {
    /// Whether the ratios of row `i` have their words: where all of them are below 2 in magnitude.
    pub has_words: Vec<bool>,
    /// The words of the ratios of row `i` stand from the place `i * i / 2` on, in the order of the columns.
    pub ratio_words: Vec<i64>,
    /// What divides by the pivot of row `i`; None where no [`Pivot`] is made of it.
    pub dividers: Vec<Option<Pivot>>,
}

impl RowWords {
    /// Room for `size` rows, at most `MOST_ROWS`.
    pub fn open(alloc: Global, size: usize) -> Result<RowWords, AllocError>
        requires { size ≤ MOST_ROWS }
        ensures { IfOk result (HasRoom size) }
    {
        Ok(RowWords {
            has_words: vec![in alloc; false; size]?,
            ratio_words: vec![in alloc; 0i64; size * size / 2]?,
            dividers: vec![in alloc; None; size]?,
        })
    }

    /// Keeps what there is of row `i`, whose ratios stand from the place `first` on and before `pivot`, and its pivot there.
    pub fn keep(&mut self, i: usize, values: &[i64], first: usize, pivot: usize)
        requires room { HasRoom (length self.old.has_words.items) self.old }
        requires few { length self.old.has_words.items ≤ MOST_ROWS }
        requires row { i < length self.old.has_words.items }
        requires order { first ≤ pivot }
        requires ratios { pivot ≤ first + i }
        requires pivot { pivot < length values.now }
        ensures keeps { KeepsWords (length self.old.has_words.items) i values.now first pivot self.old self.new }
        ensures has_words { vec_capacity self.new.has_words ≡ vec_capacity self.old.has_words }
        ensures ratio_words { vec_capacity self.new.ratio_words ≡ vec_capacity self.old.ratio_words }
        ensures dividers { vec_capacity self.new.dividers ≡ vec_capacity self.old.dividers }
    {
        self.has_words[i] = put_ratio_words(values, first, pivot, &mut self.ratio_words, i * i / 2);
        self.dividers[i] = Pivot::new(values[pivot].cast_unsigned());
    }
}

/// Puts the words of the ratios from the place `first` on and before `pivot` from the place `from` on, and answers whether
/// all of them are below 2 in magnitude.
fn put_ratio_words(
    values: &[i64],
    first: usize,
    pivot: usize,
    words: &mut [i64],
    from: usize,
) -> bool
    requires order { first ≤ pivot }
    requires values { pivot ≤ length values.now }
    requires room { from + pivot ≤ first + length words.old }
    ensures words { result ≡ true → HaveWords values.now words.new first pivot from }
    ensures same { (w : ℕ) → w < from → item words.new w ≡ item words.old w }
{
    for e in first..pivot {
        if values[e].unsigned_abs() >= 2 * PICO as u64 {
            return false;
        }
        words[from + (e - first)] = ratio_word(values[e]);
    }
    true
}
