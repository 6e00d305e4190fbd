// A finished row, as the work on later rows and right sides sees it.

use emtp_fix::Pivot;

/// A finished row, by its numbers that aren't 0, in units of 1e-12, and their columns.
///
/// They stand from the place `first` on and before the place `last` among those of all rows: the ratios, the pivot at
/// the place `pivot`, then the later entries. The words of the ratios stand from the place `words_from` on, where
/// `has_words` is true. `divider` divides by the pivot.
#[derive(Clone, Copy)]
pub struct FinishedRow<'a> {
    pub columns: &'a [u16],
    pub values: &'a [i64],
    pub ratio_words: &'a [i64],
    pub first: usize,
    pub pivot: usize,
    pub last: usize,
    pub words_from: usize,
    pub has_words: bool,
    pub divider: &'a Option<Pivot>,
}
