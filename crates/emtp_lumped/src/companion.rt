//! The companion of a series branch: what its card makes of it, the same in all steps.

ghost use Rattle.emtp_case.specs.held.RunData.{IsTimeStep};
ghost use Rattle.std.specs.Prelude.{◌≡◌, ◌≤◌, ◌+ℤ◌, unsigned_abs};
ghost use Rattle.emtp_case.specs.held.Branch.{HasSeriesNumbers};
ghost use Rattle.emtp_case.specs.held.Range.{IsBetween};
ghost use Rattle.emtp_fix.specs.Rounding.{near};
ghost use Rattle.emtp_fix.specs.declared.limit.TheConstants.{ATTO, LARGEST_ENTRY, LARGEST_IMPEDANCE, LEAST_IMPEDANCE};
ghost use Rattle.emtp_lumped.specs.Companion.{companion_of};

use emtp_case::{Lumped, capacitor_impedance, inductor_impedance};
use emtp_fix::{ATTO, near};

/// A series branch over one step, by the trapezoidal rule: a conductance beside a current source that stands for the
/// past (Dommel 1969).
#[derive(Clone, Copy, Debug, PartialEq, Eq)]
pub struct Companion {
    /// The conductance of the whole branch, in pS: from 0 to 10^17.
    pub conductance: i64,
    /// The impedance of the inductance, in micro-ohm: from 0 to 10^15; 0 where there is none.
    pub inductor: i64,
    /// The impedance of the capacitance, in micro-ohm: from 0 to 10^15; 0 where there is none.
    pub capacitor: i64,
}

impl Companion {
    /// The companion of a branch at a time step in ps.
    pub(crate) fn of(dt: i64, b: &Lumped) -> Companion
        requires dt { IsTimeStep dt }
        requires branch { HasSeriesNumbers dt b.now.r b.now.l b.now.c }
        ensures { result ≡ companion_of dt b.now }
    {
        let inductor = narrow(inductor_impedance(dt, b.l));
        let capacitor = narrow(capacitor_impedance(dt, b.c));
        let conductance = narrow(conductance(impedance(b.r, inductor, capacitor)));
        Companion {
            conductance,
            inductor,
            capacitor,
        }
    }
}

fn impedance(r: i64, inductor: i64, capacitor: i64) -> i128
    requires r { unsigned_abs r ≤ LARGEST_IMPEDANCE }
    requires inductor { unsigned_abs inductor ≤ LARGEST_IMPEDANCE }
    requires capacitor { unsigned_abs capacitor ≤ LARGEST_IMPEDANCE }
    ensures { result ≡ r +ℤ inductor +ℤ capacitor }
{
    r as i128 + inductor as i128 + capacitor as i128
}

fn conductance(z: i128) -> i128
    requires { IsBetween LEAST_IMPEDANCE LARGEST_IMPEDANCE z }
    ensures value { result ≡ near ATTO z }
    ensures bound { unsigned_abs result ≤ LARGEST_ENTRY }
{
    near(ATTO, z)
}

fn narrow(z: i128) -> i64
    requires { unsigned_abs z ≤ LARGEST_ENTRY }
    ensures { result ≡ z }
{
    z as i64
}
