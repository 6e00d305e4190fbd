//! The directions of a circle in hundredths of a degree.

ghost use Rattle.std.specs.Prelude.{◌≡◌, ◌^◌, ◌*◌, ◌≤◌, ◌+ℤ◌, ◌-ℤ◌, ◌*ℤ◌, pos, unsigned_abs};
ghost use Rattle.emtp_fix.specs.Rounding.{near};
ghost use Rattle.emtp_fix.specs.declared.limit.TheConstants.{ATTO};
ghost use Rattle.emtp_wave.specs.Cosine.{turned, rounded};
ghost use Rattle.emtp_wave.specs.held.Cosine.{IsSmall};

use emtp_fix::{ATTO, near};

/// A direction by its cosine and sine, in 10^-18.
#[derive(Clone, Copy, Debug, PartialEq, Eq)]
pub struct Direction {
    /// The cosine.
    pub cosine: i64,
    /// The sine.
    pub sine: i64,
}

/// The direction of zero degrees.
pub(crate) const EAST: Direction = Direction {
    cosine: 1_000_000_000_000_000_000,
    sine: 0,
};

const STEP_COSINE: i128 = 999_999_984_769_129_049;

const STEP_SINE: i128 = 174_532_924_313_337;

/// Turned on by a hundredth of a degree.
pub(crate) fn turned(d: &Direction) -> Direction
    requires { IsSmall d.now }
    ensures { result ≡ turned d.now }
{
    Direction {
        cosine: in_unit(wide_cosine(d.cosine, d.sine)),
        sine: in_unit(wide_sine(d.cosine, d.sine)),
    }
}

fn wide_cosine(cosine: i64, sine: i64) -> i128
    requires cosine { unsigned_abs cosine ≤ 2 * 10 ^ 18 }
    requires sine { unsigned_abs sine ≤ 2 * 10 ^ 18 }
    ensures value { result ≡ cosine *ℤ pos 999999984769129049 -ℤ sine *ℤ pos 174532924313337 }
    ensures bound { unsigned_abs result ≤ 3 * 10 ^ 36 }
{
    cosine as i128 * STEP_COSINE - sine as i128 * STEP_SINE
}

fn wide_sine(cosine: i64, sine: i64) -> i128
    requires cosine { unsigned_abs cosine ≤ 2 * 10 ^ 18 }
    requires sine { unsigned_abs sine ≤ 2 * 10 ^ 18 }
    ensures value { result ≡ sine *ℤ pos 999999984769129049 +ℤ cosine *ℤ pos 174532924313337 }
    ensures bound { unsigned_abs result ≤ 3 * 10 ^ 36 }
{
    sine as i128 * STEP_COSINE + cosine as i128 * STEP_SINE
}

fn in_unit(x: i128) -> i64
    requires { unsigned_abs x ≤ 3 * 10 ^ 36 }
    ensures { result ≡ near x ATTO }
{
    near(x, ATTO) as i64
}

/// The cosine of a direction, in 10^-12.
pub(crate) fn rounded(d: &Direction) -> i64
    requires { IsSmall d.now }
    ensures { result ≡ rounded d.now }
{
    near(d.cosine as i128, 1_000_000) as i64
}
