//! The numbers that a line, or a mode of a three-phase line, has in all steps.

ghost use Rattle.emtp_case.specs.held.RunData.{IsTimeStep};
ghost use Rattle.std.specs.Prelude.{◌≡◌, ◌^◌, ◌≤◌, ◌*ℤ◌, unsigned_abs};
ghost use Rattle.emtp_case.specs.held.Branch.{HasLineNumbers};
ghost use Rattle.emtp_case.specs.held.Range.{IsBetween};
ghost use Rattle.emtp_fix.specs.Rounding.{near};
ghost use Rattle.emtp_fix.specs.declared.limit.TheConstants.{ATTO, LARGEST_ENTRY, LARGEST_IMPEDANCE, LEAST_IMPEDANCE, PICO};
ghost use Rattle.emtp_line.specs.Mode.{mode_of};
ghost use Rattle.emtp_line.specs.held.Mode.{IsMode};

use emtp_case::line_impedance;
use emtp_fix::{ATTO, PICO, near, scaled};

/// What the law of a line makes of its surge impedance, its resistance, its travel time and the time step.
#[derive(Clone, Copy, Debug, PartialEq, Eq)]
pub struct Mode {
    /// The conductance at each end, in pS: from 0 to 10^17.
    pub conductance: i64,
    /// The part of an end's current that goes into its wave, in 1e-12: to 10^12 in magnitude.
    pub attenuation: i64,
    /// The part of the other end's wave that arrives, in 1e-12: from 0 to 10^12.
    pub far_share: i64,
    /// The part of the end's own wave that comes back, in 1e-12: from 0 to 10^12.
    pub near_share: i64,
    /// The whole steps of the travel time: at least 1.
    pub steps: usize,
    /// The rest of the travel time, in ps: from 0 to below the time step.
    pub rest: i64,
    /// The time step, in ps.
    pub dt: i64,
}

impl Mode {
    /// The mode of this surge impedance and total resistance in micro-ohm and this travel time in ps, at a time step in
    /// ps.
    pub(crate) fn of(dt: i64, zc: i64, r: i64, delay: i64) -> Mode
        requires dt { IsTimeStep dt }
        requires line { HasLineNumbers dt zc r delay }
        ensures value { result ≡ mode_of dt zc r delay }
        ensures fits { IsMode result }
    {
        let z = narrow(line_impedance(zc, r));
        let far_share = share(zc, z);
        Mode {
            conductance: conductance(z),
            attenuation: share(zc - (z - zc), z),
            far_share,
            near_share: WHOLE - far_share,
            steps: (delay.unsigned_abs() / dt.unsigned_abs()) as usize,
            rest: (delay.unsigned_abs() % dt.unsigned_abs()) as i64,
            dt,
        }
    }
}

/// A share of 1.
pub(crate) const WHOLE: i64 = PICO as i64;

fn narrow(z: i128) -> i64
    requires { unsigned_abs z ≤ LARGEST_ENTRY }
    ensures { result ≡ z }
{
    z as i64
}

fn conductance(z: i64) -> i64
    requires { IsBetween LEAST_IMPEDANCE LARGEST_IMPEDANCE z }
    ensures value { result ≡ near ATTO z }
    ensures bound { IsBetween 0 LARGEST_ENTRY result }
{
    near(ATTO, z as i128) as i64
}

/// A part of an impedance, in 1e-12.
fn share(part: i64, z: i64) -> i64
    requires z { IsBetween LEAST_IMPEDANCE LARGEST_IMPEDANCE z }
    requires part { unsigned_abs part ≤ unsigned_abs z }
    ensures value { result ≡ near (part *ℤ PICO) z }
    ensures bound { unsigned_abs result ≤ 10 ^ 12 }
{
    scaled(part as i128, PICO, z as i128) as i64
}
