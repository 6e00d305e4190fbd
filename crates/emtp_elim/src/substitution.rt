// The work on the right sides, and the unknowns from the last row back.
ghost use Rattle.std.specs.Prelude.{◌≡◌, ◌≢◌, ℕ, ◌*◌, ◌+◌, ◌-◌, ◌^◌, ◌<◌, ◌≤◌, pos, ◌*ℤ◌, ◌+ℤ◌, ◌-ℤ◌, unsigned_abs, true, length, drop, IfSome, OnSome, IfNone, OnOk, IfErr};
ghost use Rattle.emtp_fix.specs.Rounding.{near};
ghost use Rattle.emtp_fix.specs.declared.limit.TheConstants.{LARGEST_VALUE, LARGEST_WIDE, PICO};
ghost use Rattle.emtp_elim.specs.Matrix.{Matrix, item, products, row_of};
ghost use Rattle.emtp_elim.specs.held.Matrix.{AreWithin, IsSquare};
ghost use Rattle.emtp_elim.specs.Elimination.{last_unknowns};
ghost use Rattle.emtp_elim.specs.held.Fault.{IsRightFault};
ghost use Rattle.emtp_elim.specs.held.Finished.{AreAllFinished};
ghost use Rattle.emtp_elim.specs.held.Row.{numbers, HasWords, IsRow};
ghost use Rattle.emtp_elim.specs.held.Substitution.{partial_right, AreReduced, IsLastFault};
ghost use Rattle.emtp_elim.specs.declared.limit.TheConstants.{MOST_ROWS};

use crate::arithmetic::less_in_range;
use crate::fault::SolveFault;
use crate::row::FinishedRow;
use crate::sparse::SparseRows;
use emtp_fix::{LARGEST_VALUE, PICO, Pivot, near, ratio_product};

/// The right side of row `i`, which is `start`, less the products of the row's ratios and the reduced right sides before
/// it. None where it leaves its range.
#[inline(always)]
fn reduced(done: &SparseRows, start: i128, above: &[i64], i: usize) -> Option<i64>
    requires row { i < length done.now.rows }
    requires size { length above.now ≡ done.now.size }
    requires before { (k : ℕ) → k < i → unsigned_abs (item above.now k) ≤ LARGEST_VALUE }
    ensures value { IfSome result (λ v. v ≡ partial_right start (row_of done.now.rows i) above.now i) }
    ensures within { OnSome result
        ((k : ℕ) → k ≤ i → unsigned_abs (partial_right start (row_of done.now.rows i) above.now k) ≤ LARGEST_VALUE) }
    ensures out { IfNone result
        ((k : ℕ) × (k ≤ i) × (LARGEST_VALUE < unsigned_abs (partial_right start (row_of done.now.rows i) above.now k))) }
{
    let row = done.row(i);
    if row.has_words {
        let (value, overflow) = overflowing_reduced(start, above, i, row);
        if overflow == 0 {
            return Some(value);
        }
    }
    reduced_with_care(done, start, above, i)
}

/// The same without a test at a product, and an overflow word: 0 only where the number is right and none on the way to it
/// left its range.
#[inline(always)]
fn overflowing_reduced(start: i128, above: &[i64], i: usize, row: FinishedRow<'_>) -> (i64, u64)
    requires index { i < length above.now }
    requires row { IsRow (length above.now) i row }
    requires words { HasWords i row }
    requires has_words { row.has_words ≡ true }
    requires before { (k : ℕ) → k < i → unsigned_abs (item above.now k) ≤ LARGEST_VALUE }
    ensures value { result.1 ≡ 0 → result.0 ≡ partial_right start (numbers (length above.now) row.entry) above.now i }
    ensures within { result.1 ≡ 0 → (k : ℕ) → k ≤ i → unsigned_abs
        (partial_right start (numbers (length above.now) row.entry) above.now k) ≤ LARGEST_VALUE }
{
    let (mut lifted, overflow) = lift(start);
    let mut seen = lifted;
    let columns = row.columns;
    let values = row.values;
    let words = row.ratio_words;
    for e in row.first..row.pivot {
        let word = words[row.words_from + (e - row.first)];
        let product = ratio_product(values[e], word, above[columns[e] as usize]);
        lifted = lessened(lifted, product);
        seen |= lifted;
    }
    (lowered(lifted), overflow | seen / (1 << 60))
}

/// `x + 2^59`, and an overflow word: 0 only where the number is right. It is below 2^60 only where `x` is at most 2^59 in
/// magnitude.
#[inline(always)]
fn lift(x: i128) -> (u64, u64)
    ensures { result.1 ≡ 0 → pos result.0 ≡ x +ℤ pos (2 ^ 59) }
{
    let lifted = x.wrapping_add(1 << 59).cast_unsigned();
    let above = (lifted / (1 << 64)) as u64;
    ((lifted % (1 << 64)) as u64, above)
}

/// A lifted number less a product: both are below 2^60 only where it is right.
#[inline(always)]
fn lessened(lifted: u64, product: i64) -> u64
    requires { unsigned_abs product ≤ 2 ^ 62 }
    ensures { lifted < 2 ^ 60 → result < 2 ^ 60 → pos result ≡ pos lifted -ℤ product }
{
    lifted.wrapping_sub(product.cast_unsigned())
}

/// The number that was lifted.
#[inline(always)]
fn lowered(lifted: u64) -> i64
    ensures { lifted < 2 ^ 60 → result ≡ pos lifted -ℤ pos (2 ^ 59) }
{
    lifted.cast_signed().wrapping_sub(1 << 59)
}

/// The same with a test at each product.
#[cold]
#[inline(never)]
fn reduced_with_care(done: &SparseRows, start: i128, above: &[i64], i: usize) -> Option<i64>
    requires row { i < length done.now.rows }
    requires size { length above.now ≡ done.now.size }
    requires before { (k : ℕ) → k < i → unsigned_abs (item above.now k) ≤ LARGEST_VALUE }
    ensures value { IfSome result (λ v. v ≡ partial_right start (row_of done.now.rows i) above.now i) }
    ensures within { OnSome result
        ((k : ℕ) → k ≤ i → unsigned_abs (partial_right start (row_of done.now.rows i) above.now k) ≤ LARGEST_VALUE) }
    ensures out { IfNone result
        ((k : ℕ) × (k ≤ i) × (LARGEST_VALUE < unsigned_abs (partial_right start (row_of done.now.rows i) above.now k))) }
{
    less_products(start, above, i, done.row(i))
}

fn less_products(start: i128, above: &[i64], i: usize, row: FinishedRow<'_>) -> Option<i64>
    requires index { i < length above.now }
    requires row { IsRow (length above.now) i row }
    requires before { (k : ℕ) → k < i → unsigned_abs (item above.now k) ≤ LARGEST_VALUE }
    ensures value { IfSome result (λ v. v ≡ partial_right start (numbers (length above.now) row.entry) above.now i) }
    ensures within { OnSome result
        ((k : ℕ) → k ≤ i → unsigned_abs
        (partial_right start (numbers (length above.now) row.entry) above.now k) ≤ LARGEST_VALUE) }
    ensures out { IfNone result
        ((k : ℕ) × (k ≤ i) × (LARGEST_VALUE
        < unsigned_abs (partial_right start (numbers (length above.now) row.entry) above.now k))) }
{
    if start.unsigned_abs() > LARGEST_VALUE {
        return None;
    }
    let mut value = start as i64;
    let columns = row.columns;
    let values = row.values;
    for e in row.first..row.pivot {
        match less_in_range(value, values[e], above[columns[e] as usize]) {
            Some(less) => value = less,
            None => return None,
        }
    }
    Some(value)
}

/// Does the work of the elimination on the right sides, by the finished rows, and puts what is left of them into `x`.
pub fn reduce_right(done: &SparseRows, right: &[i128], x: &mut [i64]) -> Result<(), SolveFault>
    requires full { length done.now.rows ≡ done.now.size }
    requires size { length right.now ≡ done.now.size }
    requires x { length x.old ≡ done.now.size }
    ensures within { OnOk result (AreWithin LARGEST_VALUE x.new) }
    ensures reduced { OnOk result
        ((rows : Matrix) → AreAllFinished rows done.now.rows
        → AreReduced rows right.now (length right.now) x.new) }
    ensures fault { IfErr result
        (λ fault. (rows : Matrix) → AreAllFinished rows done.now.rows → IsRightFault rows right.now fault.row) }
    ensures row { IfErr result (λ fault. fault.row < done.now.size) }
{
    for i in 0..right.len() {
        match reduced(done, right[i], x, i) {
            Some(value) => x[i] = value,
            None => return Err(SolveFault { row: i }),
        }
    }
    Ok(())
}

/// What is left of the right side of row `k` once the products of its later entries and their unknowns are taken away,
/// in units of 1e-21. `x` holds the right side in the place of its unknown.
#[inline(always)]
fn remainder(x: &[i64], k: usize, row: FinishedRow<'_>) -> i128
    requires index { k < length x.now }
    requires few { length x.now ≤ MOST_ROWS }
    requires row { IsRow (length x.now) k row }
    requires small { AreWithin LARGEST_VALUE x.now }
    ensures value { result ≡ item x.now k *ℤ PICO
        -ℤ products (drop (k + 1) (numbers (length x.now) row.entry)) (drop (k + 1) x.now) (length x.now - (k + 1)) }
    ensures bound { unsigned_abs result ≤ LARGEST_WIDE }
{
    let mut left = i128::from(x[k]) * PICO;
    let columns = row.columns;
    let values = row.values;
    for e in row.pivot + 1..row.last {
        let column = columns[e] as usize;
        left -= i128::from(values[e]) * i128::from(x[column]);
    }
    left
}

/// Finds the unknowns of the triangular system of the finished rows, from the last one back, each in the place of its
/// right side.
pub fn substitute_back(done: &SparseRows, x: &mut [i64]) -> Result<(), SolveFault>
    requires full { length done.now.rows ≡ done.now.size }
    requires size { length x.old ≡ done.now.size }
    requires right { AreWithin LARGEST_VALUE x.old }
    ensures solved { OnOk result (x.new ≡ last_unknowns done.now.rows x.old (length done.now.rows)) }
    ensures within { OnOk result (AreWithin LARGEST_VALUE x.new) }
    ensures fault { IfErr result (λ fault. IsLastFault done.now.rows x.old fault.row) }
    ensures square { IsSquare done.now.rows }
{
    for k in (0..done.rows()).rev() {
        let row = done.row(k);
        let left = remainder(x, k, row);
        match unknown(left, row.values[row.pivot], row.divider) {
            Some(unknown) => x[k] = unknown,
            None => return Err(SolveFault { row: k }),
        }
    }
    Ok(())
}

/// What is left of a right side, in units of 1e-21, divided by the pivot. None where it leaves its range.
#[inline(always)]
fn unknown(left: i128, pivot: i64, divider: &Option<Pivot>) -> Option<i64>
    requires left { unsigned_abs left ≤ LARGEST_WIDE }
    requires pivot { pivot ≢ pos 0 }
    ensures value { IfSome result (λ x. x ≡ near left pivot) }
    ensures within { IfSome result (λ x. unsigned_abs x ≤ LARGEST_VALUE) }
    ensures out { IfNone result (LARGEST_VALUE < unsigned_abs (near left pivot)) }
{
    let (unknown, overflow) = match divider {
        Some(divider) => divider.overflowing_near(left, pivot.cast_unsigned(), 0),
        None => (0, 1),
    };
    if overflow == 0 && pivot > 0 && unknown.unsigned_abs() <= LARGEST_VALUE as u64 {
        return Some(unknown);
    }
    unknown_with_care(left, pivot)
}

/// The same by a division of 128 bits.
#[cold]
#[inline(never)]
fn unknown_with_care(left: i128, pivot: i64) -> Option<i64>
    requires left { unsigned_abs left ≤ LARGEST_WIDE }
    requires pivot { pivot ≢ pos 0 }
    ensures value { IfSome result (λ x. x ≡ near left pivot) }
    ensures within { IfSome result (λ x. unsigned_abs x ≤ LARGEST_VALUE) }
    ensures out { IfNone result (LARGEST_VALUE < unsigned_abs (near left pivot)) }
{
    let unknown = near(left, i128::from(pivot));
    if unknown.unsigned_abs() <= LARGEST_VALUE {
        Some(unknown as i64)
    } else {
        None
    }
}
