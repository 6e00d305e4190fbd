// Rounding to the nearest whole number, a half away from zero.
ghost use Rattle.std.specs.Prelude.{◌≡◌, ◌≢◌, ◌+◌, ◌-◌, ◌*◌, ◌/◌, ◌^◌, ◌<◌, ◌≤◌, ℕ, pos, unsigned_abs};
ghost use Rattle.emtp_fix.specs.Rounding.{near, near_abs};
ghost use Rattle.emtp_fix.specs.held.Rounding.{IsNearest};
ghost use Rattle.emtp_fix.specs.declared.limit.TheConstants.{LARGEST_WIDE, KILO, MICRO, NANO, PICO, ATTO};

use crate::limit::{ATTO, KILO, MICRO, NANO, PICO};
use crate::quotient::{
    atto_quotient, guess, is_quotient, kilo_quotient, micro_quotient, nano_quotient, pico_quotient,
};

/// `a / b`, rounded to the nearest whole number, a half away from zero.
///
/// `b` isn't 0, and both magnitudes are at most 1.6e38. Where `b` is 10^6, 10^9, 10^12 or 10^18, as nearly
/// every product of the simulator has it, only divisions of 64 bits are made. This project's own rule.
pub fn near(a: i128, b: i128) -> i128
    requires nonzero { b ≢ pos 0 }
    requires small_a { unsigned_abs a ≤ LARGEST_WIDE }
    requires small_b { unsigned_abs b ≤ LARGEST_WIDE }
    ensures value { result ≡ near a b }
    ensures nearest { IsNearest a b result }
    ensures bound { unsigned_abs result ≤ unsigned_abs a }
{
    rounded(a, b)
}

/// The same, by the cheapest way for `b`.
fn rounded(a: i128, b: i128) -> i128
    requires nonzero { b ≢ pos 0 }
    requires small_a { unsigned_abs a ≤ LARGEST_WIDE }
    requires small_b { unsigned_abs b ≤ LARGEST_WIDE }
    ensures { result ≡ near a b }
{
    if b == PICO {
        near_pico(a)
    } else if b == MICRO {
        near_micro(a)
    } else if b == NANO {
        near_nano(a)
    } else if b == ATTO {
        near_atto(a)
    } else if b == KILO {
        near_kilo(a)
    } else {
        near_signed(a, b)
    }
}

/// By one division of 128 bits.
fn near_signed(a: i128, b: i128) -> i128
    requires nonzero { b ≢ pos 0 }
    requires small_a { unsigned_abs a ≤ LARGEST_WIDE }
    requires small_b { unsigned_abs b ≤ LARGEST_WIDE }
    ensures { result ≡ near a b }
{
    signed(a, b, near_magnitude(a.unsigned_abs(), b.unsigned_abs()))
}

/// The magnitude of a quotient with the sign of the quotient.
fn signed(a: i128, b: i128, magnitude: u128) -> i128
    requires small { magnitude ≤ LARGEST_WIDE }
    requires magnitude { magnitude ≡ near_abs (unsigned_abs a) (unsigned_abs b) }
    ensures { result ≡ near a b }
{
    if b < 0 {
        -with_sign_of(a, magnitude)
    } else {
        with_sign_of(a, magnitude)
    }
}

fn near_magnitude(a: u128, b: u128) -> u128
    requires nonzero { 0 < b }
    requires small_a { a ≤ LARGEST_WIDE }
    requires small_b { b ≤ LARGEST_WIDE }
    ensures value { result ≡ near_abs a b }
    ensures bound { result ≤ a }
{
    let whole = a / b;
    let left = a % b;
    if left >= b - left { whole + 1 } else { whole }
}

fn with_sign_of(a: i128, magnitude: u128) -> i128
    requires { magnitude ≤ LARGEST_WIDE }
    ensures value { (d : ℕ) → magnitude ≡ near_abs (unsigned_abs a) d → result ≡ near a (pos d) }
    ensures bound { unsigned_abs result ≤ magnitude }
{
    if a < 0 {
        -(magnitude as i128)
    } else {
        magnitude as i128
    }
}

/// The same in 64 bits.
pub(crate) fn narrow_with_sign_of(a: i128, magnitude: u64) -> i64
    requires { magnitude ≤ 4 * 10 ^ 18 }
    ensures value { (d : ℕ) → magnitude ≡ near_abs (unsigned_abs a) d → result ≡ near a (pos d) }
    ensures bound { unsigned_abs result ≤ magnitude }
{
    if a < 0 {
        -(magnitude as i64)
    } else {
        magnitude as i64
    }
}

fn near_kilo(a: i128) -> i128
    requires { unsigned_abs a ≤ LARGEST_WIDE }
    ensures { result ≡ near a KILO }
{
    with_sign_of(a, kilo_quotient(a.unsigned_abs() + KILO as u128 / 2))
}

fn near_micro(a: i128) -> i128
    requires { unsigned_abs a ≤ LARGEST_WIDE }
    ensures { result ≡ near a MICRO }
{
    with_sign_of(a, micro_quotient(a.unsigned_abs() + MICRO as u128 / 2))
}

fn near_nano(a: i128) -> i128
    requires { unsigned_abs a ≤ LARGEST_WIDE }
    ensures { result ≡ near a NANO }
{
    with_sign_of(a, nano_quotient(a.unsigned_abs() + NANO as u128 / 2))
}

fn near_pico(a: i128) -> i128
    requires { unsigned_abs a ≤ LARGEST_WIDE }
    ensures { result ≡ near a PICO }
{
    with_sign_of(a, pico_quotient(a.unsigned_abs() + PICO as u128 / 2))
}

fn near_atto(a: i128) -> i128
    requires { unsigned_abs a ≤ LARGEST_WIDE }
    ensures { result ≡ near a ATTO }
{
    with_sign_of(a, atto_quotient(a.unsigned_abs() + ATTO as u128 / 2))
}

/// The word by which [`near_by`] divides by `b`: a 64-bit reciprocal of it, or 0 where `b` has more than 64 bits.
///
/// A divisor that is used often, as a pivot or a time step, has its word made once. By Moeller and Granlund 2011.
pub fn word_of(b: i128) -> u64 {
    let small = (b.unsigned_abs() % (1 << 64)) as u64;
    if small == 0 {
        return 0;
    }
    let up = u128::from(small) << small.leading_zeros();
    (u128::MAX / up % (1 << 64)) as u64
}

/// `a / b`, rounded as by [`near`]: without a division where the quotient fits 64 bits and `word` is [`word_of`] `b`.
///
/// The word gives a guess, which is checked. With any other word the answer is the same, by a division of 128 bits.
pub fn near_by(a: i128, b: i128, word: u64) -> i128
    requires nonzero { b ≢ pos 0 }
    requires small_a { unsigned_abs a ≤ LARGEST_WIDE }
    requires small_b { unsigned_abs b ≤ LARGEST_WIDE }
    ensures value { result ≡ near a b }
    ensures nearest { IsNearest a b result }
    ensures bound { unsigned_abs result ≤ unsigned_abs a }
{
    signed_by(a, b, word)
}

fn signed_by(a: i128, b: i128, word: u64) -> i128
    requires nonzero { b ≢ pos 0 }
    requires small_a { unsigned_abs a ≤ LARGEST_WIDE }
    requires small_b { unsigned_abs b ≤ LARGEST_WIDE }
    ensures { result ≡ near a b }
{
    signed(
        a,
        b,
        near_magnitude_by(a.unsigned_abs(), b.unsigned_abs(), word),
    )
}

fn near_magnitude_by(a: u128, b: u128, word: u64) -> u128
    requires nonzero { 0 < b }
    requires small_a { a ≤ LARGEST_WIDE }
    requires small_b { b ≤ LARGEST_WIDE }
    ensures value { result ≡ near_abs a b }
    ensures bound { result ≤ a }
{
    if b <= u128::from(u64::MAX) {
        let x = a + b / 2;
        let guess = u128::from(guess(x, b as u64, word));
        if is_quotient(x, b, guess) {
            return guess;
        }
    }
    near_far(a, b)
}

/// Kept apart, since it is seldom called.
#[cold]
#[inline(never)]
fn near_far(a: u128, b: u128) -> u128
    requires nonzero { 0 < b }
    requires small_a { a ≤ LARGEST_WIDE }
    requires small_b { b ≤ LARGEST_WIDE }
    ensures value { result ≡ near_abs a b }
    ensures bound { result ≤ a }
{
    near_magnitude(a, b)
}
