// Products by a ratio whose word was made once, without a test.
ghost use Rattle.std.specs.Prelude.{◌≡◌, ◌*◌, ◌+◌, ◌^◌, ◌<◌, ◌≤◌, pos, ◌*ℤ◌, ◌+ℤ◌, ◌≤ℤ◌, ◌<ℤ◌, unsigned_abs};
ghost use Rattle.emtp_fix.specs.Rounding.{near};
ghost use Rattle.emtp_fix.specs.held.Ratio.{IsRatioWord};
ghost use Rattle.emtp_fix.specs.declared.limit.TheConstants.{LARGEST_VALUE, PICO};

use crate::limit::PICO;
use crate::product::wide_product;

/// The word by which [`ratio_product`] takes a ratio in units of 10^-12: 2^62 ratios, rounded down, where the ratio is below
/// 2 in magnitude; else 0.
#[inline(always)]
pub fn ratio_word(ratio: i64) -> i64
    ensures { IsRatioWord ratio result }
{
    if ratio.unsigned_abs() < 2 * PICO as u64 {
        small_ratio_word(ratio)
    } else {
        0
    }
}

fn small_ratio_word(ratio: i64) -> i64
    requires { unsigned_abs ratio < 2 * 10 ^ 12 }
    ensures low { (result *ℤ pos (10 ^ 12)) ≤ℤ (ratio *ℤ pos (2 ^ 62)) }
    ensures high { (ratio *ℤ pos (2 ^ 62)) ≤ℤ (result *ℤ pos (10 ^ 12) +ℤ pos (10 ^ 12)) }
{
    let lifted = (ratio + 2_000_000_000_000) as u64;
    let quotient = (u128::from(lifted) * (1 << 62) / 1_000_000_000_000) as u64;
    (i128::from(quotient) - (1 << 63)) as i64
}

/// `ratio * x / 10^12`, rounded as by [`near`](crate::near), where `word` is [`ratio_word`] `ratio`.
///
/// The ratio is below 2 in magnitude, in units of 10^-12.
#[inline(always)]
pub fn ratio_product(ratio: i64, word: i64, x: i64) -> i64
    requires ratio { unsigned_abs ratio < 2 * 10 ^ 12 }
    requires word { IsRatioWord ratio word }
    requires x { unsigned_abs x ≤ LARGEST_VALUE }
    ensures value { result ≡ near (ratio *ℤ x) PICO }
    ensures small { unsigned_abs result ≤ 2 ^ 62 }
{
    guessed(wide_product(ratio, x), wide_product(word, 4 * x))
}

/// `a / 10^12`, rounded as by [`near`](crate::near), where `e / 2^64` is less than a quarter from it.
#[inline(always)]
fn guessed(a: i128, e: i128) -> i64
    requires a { unsigned_abs a ≤ 2 * 10 ^ 30 }
    requires low { (e *ℤ pos (10 ^ 12)) ≤ℤ (a *ℤ pos (2 ^ 64) +ℤ pos (4 * 10 ^ 30)) }
    requires high { (a *ℤ pos (2 ^ 64)) ≤ℤ (e *ℤ pos (10 ^ 12) +ℤ pos (4 * 10 ^ 30)) }
    ensures value { result ≡ near a PICO }
    ensures small { unsigned_abs result ≤ 2 ^ 62 }
{
    let below = if e < 0 { 1 } else { 0 };
    one_more_signed(a + PICO / 2 - below, rounded_down(e + (1 << 62)))
}

/// `e / 2^64`, rounded down.
#[inline(always)]
fn rounded_down(e: i128) -> i64
    requires { unsigned_abs e ≤ 2 ^ 126 }
    ensures low { (result *ℤ pos (2 ^ 64)) ≤ℤ e }
    ensures high { e <ℤ (result *ℤ pos (2 ^ 64) +ℤ pos (2 ^ 64)) }
{
    ((e.cast_unsigned() / (1 << 64)) as u64).cast_signed()
}

/// `a / 10^12`, rounded down, which is `guess` or one more.
#[inline(always)]
fn one_more_signed(a: i128, guess: i64) -> i64
    requires guess { unsigned_abs guess < 2 ^ 62 }
    requires low { (guess *ℤ pos (10 ^ 12)) ≤ℤ a }
    requires high { a <ℤ (guess *ℤ pos (10 ^ 12) +ℤ pos (2 * 10 ^ 12)) }
    ensures low { (result *ℤ pos (10 ^ 12)) ≤ℤ a }
    ensures high { a <ℤ (result *ℤ pos (10 ^ 12) +ℤ pos (10 ^ 12)) }
    ensures small { unsigned_abs result ≤ 2 ^ 62 }
{
    let left = ((a.cast_unsigned() % (1 << 64)) as u64).wrapping_sub(
        guess.cast_unsigned().wrapping_mul(PICO as u64),
    );
    let more = if left >= PICO as u64 { 1 } else { 0 };
    guess + more
}
