//! 66: the effective value of the inputs of a period.

ghost use Rattle.emtp_case.specs.declared.limit.TheConstants.{MOST_HISTORY_VALUES};
ghost use Rattle.std.specs.Prelude.{◌≡◌, ◌*◌, ◌^◌, ◌≤◌, ◌≤ℤ◌, ◌∷◌, ◌+ℤ◌, ◌*ℤ◌, List, pos, take, unsigned_abs, ℤ};
ghost use Rattle.emtp_devices.specs.Device.{effective_value, square, sum_of_squares};
ghost use Rattle.emtp_devices.specs.held.Held.{IsHeld};
ghost use Rattle.emtp_fix.specs.Rounding.{near};
ghost use Rattle.emtp_fix.specs.declared.limit.TheConstants.{LARGEST_VALUE, NANO};
ghost use Rattle.emtp_hist.specs.held.History.{Remembers};

use crate::held::HeldDevice;
use emtp_fix::{NANO, isqrt, near, scaled};

/// The effective value of the inputs of a period, this one included, in nano.
pub(crate) fn effective_value(held: &HeldDevice, s: i64) -> i128
    requires held { IsHeld held.now }
    requires sum { held.now.squares ≡ sum_of_squares held.now.inputs.values }
    requires s { unsigned_abs s ≤ LARGEST_VALUE }
    ensures { (inputs : List ℤ) → Remembers held.now.inputs inputs
        → result ≡ effective_value held.now.depth (s ∷ inputs) }
{
    isqrt(mean(squares_after(held, s), held.depth))
}

/// The running sum once an input has come: its square comes, and that of the oldest input goes.
pub(crate) fn squares_after(held: &HeldDevice, s: i64) -> i128
    requires held { IsHeld held.now }
    requires sum { held.now.squares ≡ sum_of_squares held.now.inputs.values }
    requires s { unsigned_abs s ≤ LARGEST_VALUE }
    ensures { result ≡ sum_of_squares (take held.now.depth (s ∷ held.now.inputs.values)) }
{
    let oldest = held.inputs.back(held.depth - 1);
    exchanged(held.squares, square(s), square(oldest))
}

fn exchanged(sum: i128, comes: i128, goes: i128) -> i128
    requires sum { unsigned_abs sum ≤ 2 * 10 ^ 33 }
    requires comes { unsigned_abs comes ≤ 10 ^ 27 }
    requires goes { unsigned_abs goes ≤ 10 ^ 27 }
    ensures { result +ℤ goes ≡ sum +ℤ comes }
{
    sum + comes - goes
}

/// The square of an input, in nano: to 10^27.
fn square(s: i64) -> i128
    requires { unsigned_abs s ≤ LARGEST_VALUE }
    ensures value { result ≡ square s }
    ensures small { unsigned_abs result ≤ 10 ^ 27 }
{
    scaled(s as i128, s as i128, NANO)
}

/// The mean of so many squares in nano, in units of 10^-18: to 10^36.
fn mean(sum: i128, depth: usize) -> i128
    requires some { 1 ≤ depth }
    requires few { depth ≤ MOST_HISTORY_VALUES }
    requires least { pos 0 ≤ℤ sum }
    requires most { unsigned_abs sum ≤ depth * 10 ^ 27 }
    ensures value { result ≡ near sum (pos depth) *ℤ NANO }
    ensures least { pos 0 ≤ℤ result }
{
    near(sum, depth as i128) * NANO
}
