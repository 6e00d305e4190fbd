//! History values: how many past values lines and devices need.

ghost use Rattle.emtp_case.specs.held.RunData.{IsTimeStep};
ghost use Rattle.std.specs.Prelude.{◌≡◌, ◌+◌, ◌*◌, ◌^◌, ◌≤◌};
ghost use Rattle.emtp_case.specs.held.Control.{HasRangeOfA};
ghost use Rattle.emtp_case.specs.HistoryValues.{branch_history_values, delay_steps, device_history_values, line_history_values, period_steps, travel_steps, trio_history_values};
ghost use Rattle.emtp_case.specs.held.Range.{IsBetween};

use crate::branch::{Branch, Trio};
use crate::control::{Device, DeviceCode};
use crate::impedance::product;
use emtp_fix::{ATTO, near};

impl Branch {
    /// How many past values a branch needs at a time step in ps: those of both ends of a single line, none of another
    /// branch. Those of a three-phase line are counted with its modes.
    pub fn history_values(&self, dt: i64) -> u64
        requires { IsTimeStep dt }
        ensures { result ≡ branch_history_values dt self.now }
    {
        match self {
            Branch::Line(b) => line_history_values(dt, b.delay),
            Branch::Lumped(_) | Branch::Pseudo(_) | Branch::Phase(_) => 0,
        }
    }
}

impl Trio {
    /// How many past values a three-phase line needs at a time step in ps: those of both ends of the zero sequence, and
    /// of both ends of the positive sequence in each phase.
    pub fn history_values(&self, dt: i64) -> u64
        requires { IsTimeStep dt }
        ensures { result ≡ trio_history_values dt self.now }
    {
        2 * (travel_steps(dt, self.delay[0]) + 1) + 6 * (travel_steps(dt, self.delay[1]) + 1)
    }
}

impl Device {
    /// How many past values a device needs at a time step in ps, by its code and its number A.
    pub fn history_values(&self, dt: i64) -> u64
        requires dt { IsTimeStep dt }
        requires a { HasRangeOfA self.now.code self.now.a }
        ensures { result ≡ device_history_values dt self.now.code self.now.a }
    {
        self.code.history_values(self.a, dt)
    }
}

impl DeviceCode {
    /// How many past values a device of this code with the number A needs at a time step in ps: the steps of a delay, A in
    /// ps, and one more, or the steps of a period, A in micro-hertz, one at least.
    pub fn history_values(self, a: i64, dt: i64) -> u64
        requires dt { IsTimeStep dt }
        requires a { HasRangeOfA self a }
        ensures { result ≡ device_history_values dt self a }
    {
        match self {
            DeviceCode::Delay | DeviceCode::DelayedPulse => delay_steps(dt, a) + 1,
            DeviceCode::EffectiveValue => period_steps(dt, a),
            _ => 0,
        }
    }
}

/// How many past values a single line with a travel time in ps needs at a time step in ps: those of both its ends.
pub fn line_history_values(dt: i64, delay: i64) -> u64
    requires { IsTimeStep dt }
    ensures value { result ≡ line_history_values dt delay }
    ensures few { result ≤ 5 * 10 ^ 16 }
{
    2 * (travel_steps(dt, delay) + 1)
}

/// A travel time in whole steps.
fn travel_steps(dt: i64, delay: i64) -> u64
    requires { IsTimeStep dt }
    ensures value { result ≡ travel_steps dt delay }
    ensures few { result ≤ 2 * 10 ^ 16 }
{
    delay.unsigned_abs() / dt.unsigned_abs()
}

fn delay_steps(dt: i64, a: i64) -> u64
    requires dt { IsTimeStep dt }
    requires a { IsBetween 0 (10 ^ 18) a }
    ensures value { result ≡ delay_steps dt a }
    ensures few { result ≤ 10 ^ 18 }
{
    near(a as i128, dt as i128).unsigned_abs() as u64
}

fn period_steps(dt: i64, a: i64) -> u64
    requires dt { IsTimeStep dt }
    requires a { IsBetween 1 (10 ^ 13) a }
    ensures value { result ≡ period_steps dt a }
{
    let steps = near(ATTO, product(a, dt)).unsigned_abs();
    (steps as u64).max(1)
}
