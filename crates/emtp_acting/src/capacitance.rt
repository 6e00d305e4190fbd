//! What the capacitance of a series branch acts as: dt/2C is a whole number of micro-ohm.

ghost use Rattle.std.specs.Prelude.{◌≡◌, ◌≢◌, ◌*◌, ◌^◌, ◌*ℤ◌, ◌≤◌, pos, unsigned_abs};
ghost use Rattle.emtp_fix.specs.Rounding.{near};
ghost use Rattle.emtp_acting.specs.Capacitance.{acting_capacitance, capacitance_is_off, capacitance_of, is_off, is_rest_off};
ghost use Rattle.emtp_case.specs.held.Branch.{HasSeriesNumbers};
ghost use Rattle.emtp_case.specs.held.Range.{IsBetween};
ghost use Rattle.emtp_case.specs.held.RunData.{IsTimeStep};
ghost use Rattle.emtp_fix.specs.declared.limit.TheConstants.{LARGEST_CAPACITANCE, NANO};

use crate::fictitious::held;
use emtp_case::{Lumped, capacitor_impedance};
use emtp_fix::{NANO, near};

/// The capacitance in fF that the one of a branch acts as at a time step in ps, held to 10^18; 0 where there is none, and
/// where it acts as a wire, since dt/2C is below half a micro-ohm. This project's own.
pub fn acting_capacitance(dt: i64, b: &Lumped) -> i64
    requires dt { IsTimeStep dt }
    requires numbers { HasSeriesNumbers dt b.now.r b.now.l b.now.c }
    ensures { result ≡ acting_capacitance dt b.now.c }
{
    of_impedance(dt, capacitor_impedance(dt, b.c))
}

/// Whether the capacitance of a branch that has one acts as one that differs from it by more than the 10^-4 part.
pub fn is_capacitance_off(dt: i64, b: &Lumped) -> bool
    requires dt { IsTimeStep dt }
    requires numbers { HasSeriesNumbers dt b.now.r b.now.l b.now.c }
    ensures { result ≡ capacitance_is_off dt b.now.c }
{
    b.c != 0 && is_off(dt as i128, capacitor_impedance(dt, b.c), b.c as i128)
}

/// The capacitance in fF that has this impedance in micro-ohm; 0 of none.
fn of_impedance(dt: i64, zc: i128) -> i64
    requires dt { IsTimeStep dt }
    requires zc { unsigned_abs zc ≤ 10 ^ 21 }
    ensures { result ≡ capacitance_of dt zc }
{
    if zc == 0 {
        0
    } else {
        held(half_step(dt as i128, zc))
    }
}

fn half_step(dt: i128, zc: i128) -> i128
    requires dt { IsTimeStep dt }
    requires some { zc ≢ pos 0 }
    requires zc { unsigned_abs zc ≤ 10 ^ 21 }
    ensures { result ≡ near (dt *ℤ NANO) (pos 2 *ℤ zc) }
{
    near(dt * NANO, 2 * zc)
}

fn is_off(dt: i128, zc: i128, c: i128) -> bool
    requires dt { IsTimeStep dt }
    requires zc { unsigned_abs zc ≤ 10 ^ 21 }
    requires c { IsBetween 0 LARGEST_CAPACITANCE c }
    ensures { result ≡ is_off dt zc c }
{
    is_rest_off(dt * NANO, product(zc, 2 * c))
}

fn product(zc: i128, c: i128) -> i128
    requires zc { unsigned_abs zc ≤ 10 ^ 21 }
    requires c { unsigned_abs c ≤ 2 * 10 ^ 15 }
    ensures value { result ≡ zc *ℤ c }
    ensures bound { unsigned_abs result ≤ 2 * 10 ^ 36 }
{
    zc * c
}

/// Whether a step differs by more than its 10^-4 part from what it acts as.
fn is_rest_off(step: i128, own: i128) -> bool
    requires step { unsigned_abs step ≤ 10 ^ 21 }
    requires own { unsigned_abs own ≤ 2 * 10 ^ 36 }
    ensures { result ≡ is_rest_off step own }
{
    own.unsigned_abs() / 10_000 < (step - own).unsigned_abs()
}
