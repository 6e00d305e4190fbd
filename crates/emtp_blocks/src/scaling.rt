//! Products that are brought back to their unit.

ghost use Rattle.emtp_case.specs.held.RunData.{IsTimeStep};
ghost use Rattle.std.specs.Prelude.{◌≡◌, ◌^◌, ◌*◌, ◌≤◌, ◌*ℤ◌, unsigned_abs};
ghost use Rattle.emtp_fix.specs.Rounding.{near};
ghost use Rattle.emtp_fix.specs.declared.limit.TheConstants.{NANO, PICO};

use emtp_fix::{NANO, PICO, near, overflowing_near_pico, scaled, wide_product};

/// `a * b / unit`, rounded.
pub(crate) fn product(a: i64, b: i64, unit: i128) -> i128
    requires a { unsigned_abs a ≤ 8 * 10 ^ 18 }
    requires b { unsigned_abs b ≤ 8 * 10 ^ 18 }
    requires unit { IsTimeStep unit }
    ensures value { result ≡ near (a *ℤ b) unit }
    ensures bound { unsigned_abs result ≤ 10 ^ 35 }
{
    scaled(a as i128, b as i128, unit)
}

/// `a * b / 10^12`, rounded, with one test: whether the quotient is a short one.
#[inline(always)]
pub(crate) fn pico_product(a: i64, b: i64) -> i128
    requires a { unsigned_abs a ≤ 8 * 10 ^ 18 }
    requires b { unsigned_abs b ≤ 8 * 10 ^ 18 }
    ensures value { result ≡ near (a *ℤ b) PICO }
    ensures bound { unsigned_abs result ≤ 10 ^ 35 }
{
    let (quotient, overflow) = overflowing_near_pico(wide_product(a, b), 0);
    if overflow != 0 {
        return far_pico_product(a, b);
    }
    i128::from(quotient)
}

/// Kept apart, since it is seldom called.
#[cold]
#[inline(never)]
fn far_pico_product(a: i64, b: i64) -> i128
    requires a { unsigned_abs a ≤ 8 * 10 ^ 18 }
    requires b { unsigned_abs b ≤ 8 * 10 ^ 18 }
    ensures value { result ≡ near (a *ℤ b) PICO }
    ensures bound { unsigned_abs result ≤ 10 ^ 35 }
{
    product(a, b, PICO)
}

/// The whole number nearest to `x / 10^9`.
pub(crate) fn in_nano(x: i128) -> i128
    requires { unsigned_abs x ≤ 10 ^ 38 }
    ensures value { result ≡ near x NANO }
    ensures bound { unsigned_abs result ≤ 10 ^ 30 }
{
    near(x, NANO)
}
