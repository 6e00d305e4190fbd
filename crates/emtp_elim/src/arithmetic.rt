// The two sums of an elimination, in 128 bits.
ghost use Rattle.std.specs.Prelude.{◌≡◌, ◌≢◌, ◌<◌, ◌≤◌, pos, unsigned_abs, IfNone, IfSome};
ghost use Rattle.emtp_fix.specs.declared.limit.TheConstants.{LARGEST_ENTRY, LARGEST_RATIO, LARGEST_VALUE};
ghost use Rattle.emtp_fix.specs.held.Ratio.{IsRatioWord};
ghost use Rattle.emtp_elim.specs.Elimination.{less_product, quotient};

use emtp_fix::{LARGEST_VALUE, PICO, narrow_product, ratio_product, scaled};

/// `a / p`, in units of 1e-12.
pub fn ratio(a: i128, p: i128) -> i128
    requires a { unsigned_abs a ≤ LARGEST_ENTRY }
    requires p { unsigned_abs p ≤ LARGEST_ENTRY }
    requires nonzero { p ≢ pos 0 }
    ensures { result ≡ quotient a p }
{
    scaled(a, PICO, p)
}

/// `a` less the product of `m`, in units of 1e-12, and `p`.
pub fn less(a: i128, m: i128, p: i128) -> i128
    requires a { unsigned_abs a ≤ LARGEST_VALUE }
    requires m { unsigned_abs m ≤ LARGEST_RATIO }
    requires p { unsigned_abs p ≤ LARGEST_VALUE }
    ensures { result ≡ less_product a m p }
{
    if m == 0 {
        return a;
    }
    a - scaled(m, p, PICO)
}

/// The same without a division where `word` is the ratio's word, as it is where `m` is below 2 in magnitude.
#[inline(always)]
pub fn less_by_word(a: i128, m: i128, word: i64, p: i128) -> i128
    requires a { unsigned_abs a ≤ LARGEST_VALUE }
    requires m { unsigned_abs m ≤ LARGEST_RATIO }
    requires word { IsRatioWord m word }
    requires p { unsigned_abs p ≤ LARGEST_VALUE }
    ensures { result ≡ less_product a m p }
{
    if m.unsigned_abs() < 2 * PICO as u128 {
        a - i128::from(ratio_product(m as i64, word, p as i64))
    } else {
        less(a, m, p)
    }
}

/// The same in 64 bits, where it is in range; else None.
pub fn less_in_range(a: i64, m: i64, p: i64) -> Option<i64>
    requires a { unsigned_abs a ≤ LARGEST_VALUE }
    requires m { unsigned_abs m ≤ LARGEST_RATIO }
    requires p { unsigned_abs p ≤ LARGEST_VALUE }
    ensures value { IfSome result (λ v. v ≡ less_product a m p) }
    ensures within { IfSome result (λ v. unsigned_abs v ≤ LARGEST_VALUE) }
    ensures out { IfNone result (LARGEST_VALUE < unsigned_abs (less_product a m p)) }
{
    match narrow_product(m, p) {
        None => None,
        Some(product) => {
            let rest = a - product;
            if rest.unsigned_abs() > LARGEST_VALUE as u64 {
                None
            } else {
                Some(rest)
            }
        }
    }
}
