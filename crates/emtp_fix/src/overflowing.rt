// Rounded quotients and sums without a test: each answers a number that may be wrong, and an overflow word that says so.
//
// A chain of them hands the word on, and its caller tests it once: a test, a sign or an `Option` a quotient costs as much as
// the quotient.
ghost use Rattle.std.specs.Prelude.{◌≡◌, ◌+◌, ◌*◌, ◌/◌, ◌^◌, ◌<◌, ◌≤◌, pos, ◌-ℤ◌, ◌*ℤ◌, ◌+ℤ◌, unsigned_abs, Some};
ghost use Rattle.emtp_fix.specs.Limit.{in_range};
ghost use Rattle.emtp_fix.specs.Rounding.{near};
ghost use Rattle.emtp_fix.specs.declared.limit.TheConstants.{MICRO, PICO};

use crate::limit::{MICRO, PICO};
use crate::product::wide_product;
use crate::quotient::{micro_or_any, pico_or_any};

/// What is added before a division by 10^6, so that no number is below 0: so many times the divisor, and a half of it.
const MICRO_LIFT: i64 = 1_208_925_819_614_629_174;

const PICO_LIFT: i64 = 1_267_650_600_228_229_401;

/// `x / 10^6`, rounded as by [`near`](crate::near), and an overflow word: 0 only where `overflow` is and the number is right.
///
/// `x` is at most 2^126 in magnitude. Where the word isn't 0, the number is at most 1.3e18 in magnitude and nothing else.
#[inline(always)]
pub fn overflowing_near_micro(x: i128, overflow: u64) -> (i64, u64)
    requires { unsigned_abs x ≤ 2 ^ 126 }
    ensures value { result.1 ≡ 0 → result.0 ≡ near x MICRO }
    ensures overflow { result.1 ≡ 0 → overflow ≡ 0 }
    ensures small { unsigned_abs result.0 ≤ 13 * 10 ^ 17 }
{
    let y = lifted_micro(x);
    let beyond = (y / (1 << 64)) as u64 / (1 << 17);
    (lowered_micro(y), overflow | beyond)
}

#[inline(always)]
fn lifted_micro(x: i128) -> u128
    requires { unsigned_abs x ≤ 2 ^ 126 }
    ensures { result < 2 ^ 81 → near x MICRO ≡ pos (result / 10 ^ 6) -ℤ pos 1208925819614629174 }
{
    let below = if x < 0 { 1 } else { 0 };
    (x + (MICRO_LIFT as i128 * MICRO + MICRO / 2) - below).cast_unsigned()
}

#[inline(always)]
fn lowered_micro(y: u128) -> i64
    ensures value { y < 2 ^ 81 → result ≡ pos (y / 10 ^ 6) -ℤ pos 1208925819614629174 }
    ensures small { unsigned_abs result ≤ 13 * 10 ^ 17 }
{
    micro_or_any(y) as i64 - MICRO_LIFT
}

/// `x / 10^12`, in the same way.
#[inline(always)]
pub fn overflowing_near_pico(x: i128, overflow: u64) -> (i64, u64)
    requires { unsigned_abs x ≤ 2 ^ 126 }
    ensures value { result.1 ≡ 0 → result.0 ≡ near x PICO }
    ensures overflow { result.1 ≡ 0 → overflow ≡ 0 }
    ensures small { unsigned_abs result.0 ≤ 13 * 10 ^ 17 }
{
    let y = lifted_pico(x);
    let beyond = (y / (1 << 101)) as u64;
    (lowered_pico(y), overflow | beyond)
}

#[inline(always)]
fn lifted_pico(x: i128) -> u128
    requires { unsigned_abs x ≤ 2 ^ 126 }
    ensures { result < 2 ^ 101 → near x PICO ≡ pos (result / 10 ^ 12) -ℤ pos 1267650600228229401 }
{
    let below = if x < 0 { 1 } else { 0 };
    (x + (PICO_LIFT as i128 * PICO + PICO / 2) - below).cast_unsigned()
}

#[inline(always)]
fn lowered_pico(y: u128) -> i64
    ensures value { y < 2 ^ 101 → result ≡ pos (y / 10 ^ 12) -ℤ pos 1267650600228229401 }
    ensures small { unsigned_abs result ≤ 13 * 10 ^ 17 }
{
    pico_or_any(y) as i64 - PICO_LIFT
}

/// `rest + a * b / 10^6`, and an overflow word: 0 only where `overflow` is, the number is right, and it is at most 2^59 in
/// magnitude, so in the range of voltages, currents and values of the control.
///
/// `rest` is at most 7e18 in magnitude. Whatever the word is, the number is at most 1.3e18 apart from `rest`.
#[inline(always)]
pub fn overflowing_micro_sum(a: i64, b: i64, rest: i64, overflow: u64) -> (i64, u64)
    requires { unsigned_abs rest ≤ 7 * 10 ^ 18 }
    ensures value { result.1 ≡ 0 → in_range (rest +ℤ near (a *ℤ b) MICRO) ≡ Some result.0 }
    ensures within { result.1 ≡ 0 → unsigned_abs result.0 ≤ 2 ^ 59 }
    ensures overflow { result.1 ≡ 0 → overflow ≡ 0 }
    ensures small { unsigned_abs result.0 ≤ unsigned_abs rest + 13 * 10 ^ 17 }
    ensures back { unsigned_abs rest ≤ unsigned_abs result.0 + 13 * 10 ^ 17 }
{
    let (part, overflow) = overflowing_near_micro(wide_product(a, b), overflow);
    overflowing_range(rest + part, overflow)
}

/// `rest + a * b / 10^12`, in the same way.
#[inline(always)]
pub fn overflowing_pico_sum(a: i64, b: i64, rest: i64, overflow: u64) -> (i64, u64)
    requires { unsigned_abs rest ≤ 7 * 10 ^ 18 }
    ensures value { result.1 ≡ 0 → in_range (rest +ℤ near (a *ℤ b) PICO) ≡ Some result.0 }
    ensures within { result.1 ≡ 0 → unsigned_abs result.0 ≤ 2 ^ 59 }
    ensures overflow { result.1 ≡ 0 → overflow ≡ 0 }
    ensures small { unsigned_abs result.0 ≤ unsigned_abs rest + 13 * 10 ^ 17 }
    ensures back { unsigned_abs rest ≤ unsigned_abs result.0 + 13 * 10 ^ 17 }
{
    let (part, overflow) = overflowing_near_pico(wide_product(a, b), overflow);
    overflowing_range(rest + part, overflow)
}

/// `x`, and an overflow word: 0 only where `overflow` is and `x` is at most 2^59 in magnitude.
#[inline(always)]
fn overflowing_range(x: i64, overflow: u64) -> (i64, u64)
    requires { unsigned_abs x ≤ 85 * 10 ^ 17 }
    ensures same { result.0 ≡ x }
    ensures value { result.1 ≡ 0 → in_range x ≡ Some x }
    ensures within { result.1 ≡ 0 → unsigned_abs x ≤ 2 ^ 59 }
    ensures overflow { result.1 ≡ 0 → overflow ≡ 0 }
{
    (x, overflow | beyond(x))
}

/// 0 where `x` is at most 2^59 in magnitude.
#[inline(always)]
fn beyond(x: i64) -> u64
    requires { unsigned_abs x ≤ 85 * 10 ^ 17 }
    ensures { result ≡ 0 → unsigned_abs x ≤ 2 ^ 59 }
{
    (x + (1 << 59)).cast_unsigned() / (1 << 60)
}
