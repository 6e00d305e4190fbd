//! An inductance that acts without a fictitious resistance to speak of.

ghost use Rattle.std.specs.Prelude.{◌≡◌, ◌*◌, ◌^◌, ◌≤◌, IsTrue, unsigned_abs};
ghost use Rattle.emtp_acting.specs.Clean.{clean_inductance, inductance_of, is_clean, is_clean_at, is_impedance, is_inductance, left_to, nearest_inductance};
ghost use Rattle.emtp_case.specs.held.Branch.{HasSeriesNumbers};
ghost use Rattle.emtp_case.specs.held.Range.{IsBetween};
ghost use Rattle.emtp_case.specs.held.RunData.{IsTimeStep};
ghost use Rattle.emtp_fix.specs.Rounding.{near};
ghost use Rattle.emtp_fix.specs.declared.limit.TheConstants.{ATTO, LARGEST_ENTRY, LARGEST_IMPEDANCE, LARGEST_INDUCTANCE, LARGEST_TIME, LEAST_IMPEDANCE};

use crate::fictitious::{Fictitious, at_impedance, held};
use emtp_case::{Lumped, capacitor_impedance, series_impedance};
use emtp_fix::{ATTO, LARGEST_IMPEDANCE, LARGEST_INDUCTANCE, LEAST_IMPEDANCE, near};

/// The inductance in nH with which the impedance of a branch is the reciprocal of its whole conductance, to the nearest nH,
/// where a branch may have it and |r| T/L is at most 10^-3 with it in a time T in ps; else None. It differs from that of the
/// branch by some half pS of the conductance. This project's own.
pub fn clean_inductance(dt: i64, time: i64, b: &Lumped) -> Option<i64>
    requires dt { IsTimeStep dt }
    requires time { IsBetween 0 LARGEST_TIME time }
    requires numbers { HasSeriesNumbers dt b.now.r b.now.l b.now.c }
    ensures { result ≡ clean_inductance dt time b.now }
{
    let l = nearest_inductance(dt, b);
    if is_clean(dt, time, b, l) {
        Some(l)
    } else {
        None
    }
}

fn nearest_inductance(dt: i64, b: &Lumped) -> i64
    requires dt { IsTimeStep dt }
    requires numbers { HasSeriesNumbers dt b.now.r b.now.l b.now.c }
    ensures { result ≡ nearest_inductance dt b.now }
{
    let g = Fictitious::of(dt, b).conductance as i128;
    inductance(
        dt as i128,
        left_to(g, b.r as i128, capacitor_impedance(dt, b.c)),
    )
}

/// The impedance in micro-ohm that is left to the inductance of a branch of this conductance in pS.
fn left_to(g: i128, r: i128, zc: i128) -> i128
    requires g { IsBetween 1000 LARGEST_ENTRY g }
    requires r { IsBetween 0 LARGEST_IMPEDANCE r }
    requires zc { unsigned_abs zc ≤ 10 ^ 21 }
    ensures value { result ≡ left_to g r zc }
    ensures bound { unsigned_abs result ≤ 2 * 10 ^ 21 }
{
    near(ATTO, g) - r - zc
}

/// The inductance in nH of an impedance in micro-ohm, held to 10^18.
fn inductance(dt: i128, zl: i128) -> i64
    requires dt { IsTimeStep dt }
    requires zl { unsigned_abs zl ≤ 2 * 10 ^ 21 }
    ensures { result ≡ inductance_of dt zl }
{
    held(near(zl * dt, 2_000_000_000))
}

/// Whether a branch may have an inductance, and has no fictitious resistance to speak of with it.
fn is_clean(dt: i64, time: i64, b: &Lumped, l: i64) -> bool
    requires dt { IsTimeStep dt }
    requires time { IsBetween 0 LARGEST_TIME time }
    requires numbers { HasSeriesNumbers dt b.now.r b.now.l b.now.c }
    ensures { result ≡ is_clean dt time b.now l }
{
    is_inductance(l) && is_clean_at(time, series_impedance(dt, b.r, l, b.c), l)
}

fn is_inductance(l: i64) -> bool
    ensures value { result ≡ is_inductance l }
    ensures range { IsTrue result → IsBetween 1 LARGEST_INDUCTANCE l }
{
    0 < l && l <= LARGEST_INDUCTANCE as i64
}

fn is_impedance(z: i128) -> bool
    ensures value { result ≡ is_impedance z }
    ensures range { IsTrue result → IsBetween LEAST_IMPEDANCE LARGEST_IMPEDANCE z }
{
    LEAST_IMPEDANCE as i128 <= z && z <= LARGEST_IMPEDANCE as i128
}

fn is_clean_at(time: i64, z: i128, l: i64) -> bool
    requires time { IsBetween 0 LARGEST_TIME time }
    requires l { IsBetween 1 LARGEST_INDUCTANCE l }
    ensures { result ≡ is_clean_at time z l }
{
    is_impedance(z) && !at_impedance(z).drifts(time, l)
}
