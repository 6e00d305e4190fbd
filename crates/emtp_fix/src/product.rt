// Products that are brought back to a unit.
ghost use Rattle.std.specs.Prelude.{◌≡◌, ◌≢◌, ◌*◌, ◌^◌, ◌<◌, ◌≤◌, ℕ, pos, ◌+ℤ◌, ◌*ℤ◌, unsigned_abs, IfNone, IfSome};
ghost use Rattle.emtp_fix.specs.Limit.{in_range};
ghost use Rattle.emtp_fix.specs.Rounding.{near};
ghost use Rattle.emtp_fix.specs.declared.limit.TheConstants.{LARGEST_VALUE, LARGEST_WIDE, MICRO, PICO};

use crate::limit::{LARGEST_VALUE, MICRO, PICO};
use crate::quotient::{narrow_micro_quotient, narrow_pico_quotient};
use crate::rounding::{narrow_with_sign_of, near};

/// `a * b / unit`, rounded as by [`near`]: a product that is brought back to its unit, or a share of `a`.
///
/// `a` is at most 8e18 in magnitude, `b` at most 2e19 (so it may be a difference of two numbers of 64 bits), and
/// `unit` isn't 0.
pub fn scaled(a: i128, b: i128, unit: i128) -> i128
    requires a { unsigned_abs a ≤ 8 * 10 ^ 18 }
    requires b { unsigned_abs b ≤ 2 * 10 ^ 19 }
    requires nonzero { unit ≢ pos 0 }
    requires unit { unsigned_abs unit ≤ LARGEST_WIDE }
    ensures value { result ≡ near (a *ℤ b) unit }
    ensures within { (m : ℕ) → unsigned_abs (a *ℤ b) ≤ m * unsigned_abs unit → unsigned_abs result ≤ m }
    ensures bound { unsigned_abs result ≤ LARGEST_WIDE }
{
    near(a * b, unit)
}

/// `a * b`, which is at most 2^126 in magnitude.
#[inline(always)]
pub fn wide_product(a: i64, b: i64) -> i128
    ensures value { result ≡ a *ℤ b }
    ensures small { unsigned_abs result ≤ 2 ^ 126 }
{
    i128::from(a) * i128::from(b)
}

/// `a * b / 10^12`, rounded as by [`near`], where its magnitude is at most 4e18; else None. It costs less than
/// [`scaled`], since what comes after is in 64 bits.
pub fn narrow_product(a: i64, b: i64) -> Option<i64>
    requires a { unsigned_abs a ≤ 2 * 10 ^ 18 }
    requires b { unsigned_abs b ≤ 2 * 10 ^ 18 }
    ensures value { IfSome result (λ z. z ≡ near (a *ℤ b) PICO) }
    ensures small { IfSome result (λ z. unsigned_abs z ≤ 4 * 10 ^ 18) }
    ensures large { IfNone result (4 * 10 ^ 18 < unsigned_abs (near (a *ℤ b) PICO)) }
{
    narrow_pico(i128::from(a) * i128::from(b))
}

fn narrow_pico(a: i128) -> Option<i64>
    requires { unsigned_abs a ≤ LARGEST_WIDE }
    ensures value { IfSome result (λ z. z ≡ near a PICO) }
    ensures small { IfSome result (λ z. unsigned_abs z ≤ 4 * 10 ^ 18) }
    ensures large { IfNone result (4 * 10 ^ 18 < unsigned_abs (near a PICO)) }
{
    match narrow_pico_quotient(a.unsigned_abs() + PICO as u128 / 2) {
        None => None,
        Some(magnitude) => Some(narrow_with_sign_of(a, magnitude)),
    }
}

/// `rest + a * b / 10^6`, where it is in the range of voltages, currents and values of the control; else None. An absent
/// part, where `a` is 0, costs no division.
pub fn micro_sum(a: i64, b: i64, rest: i64) -> Option<i64>
    requires a { unsigned_abs a ≤ 2 * 10 ^ 18 }
    requires b { unsigned_abs b ≤ 2 * 10 ^ 18 }
    requires rest { unsigned_abs rest ≤ 2 * 10 ^ 18 }
    ensures value { result ≡ in_range (rest +ℤ near (a *ℤ b) MICRO) }
    ensures bound { IfSome result (λ y. unsigned_abs y ≤ LARGEST_VALUE) }
{
    if a == 0 {
        return narrow_in_range(rest);
    }
    match micro_product(a, b) {
        None => None,
        Some(part) => narrow_in_range(rest + part),
    }
}

fn micro_product(a: i64, b: i64) -> Option<i64>
    requires a { unsigned_abs a ≤ 2 * 10 ^ 18 }
    requires b { unsigned_abs b ≤ 2 * 10 ^ 18 }
    ensures value { IfSome result (λ z. z ≡ near (a *ℤ b) MICRO) }
    ensures small { IfSome result (λ z. unsigned_abs z ≤ 4 * 10 ^ 18) }
    ensures large { IfNone result (4 * 10 ^ 18 < unsigned_abs (near (a *ℤ b) MICRO)) }
{
    narrow_micro(i128::from(a) * i128::from(b))
}

fn narrow_micro(a: i128) -> Option<i64>
    requires { unsigned_abs a ≤ LARGEST_WIDE }
    ensures value { IfSome result (λ z. z ≡ near a MICRO) }
    ensures small { IfSome result (λ z. unsigned_abs z ≤ 4 * 10 ^ 18) }
    ensures large { IfNone result (4 * 10 ^ 18 < unsigned_abs (near a MICRO)) }
{
    match narrow_micro_quotient(a.unsigned_abs() + MICRO as u128 / 2) {
        None => None,
        Some(magnitude) => Some(narrow_with_sign_of(a, magnitude)),
    }
}

fn narrow_in_range(x: i64) -> Option<i64>
    ensures value { result ≡ in_range x }
    ensures bound { IfSome result (λ y. unsigned_abs y ≤ LARGEST_VALUE) }
{
    if x.unsigned_abs() > LARGEST_VALUE as u64 {
        None
    } else {
        Some(x)
    }
}
