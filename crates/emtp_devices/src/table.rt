//! Tables and pairs of times.

ghost use Rattle.std.specs.Prelude.{◌≡◌, ◌+◌, ◌≤◌, ◌<ℤ◌, length, unsigned_abs};
ghost use Rattle.emtp_case.specs.Branch.{points_of};
ghost use Rattle.emtp_case.specs.held.Control.{IsTable};
ghost use Rattle.emtp_case.specs.RunData.{time_of};
ghost use Rattle.emtp_devices.specs.Device.{between_points, is_within_pair, table_value};
ghost use Rattle.emtp_fix.specs.declared.limit.TheConstants.{LARGEST_VALUE};

use emtp_case::{Device, Point, RunData};
use emtp_fix::scaled;

/// The points or pairs of times of a device.
pub(crate) fn points_of<'a>(points: &'a [Point], device: &Device) -> &'a [Point]
    requires { device.now.first + device.now.count ≤ length points.now }
    ensures { result.now ≡ points_of points.now device.now.first device.now.count }
{
    let first = device.first as usize;
    &points[first..first + device.count as usize]
}

/// 56: the value of a table at an input, in nano.
pub(crate) fn table_value(s: i64, points: &[Point]) -> i128
    requires s { unsigned_abs s ≤ LARGEST_VALUE }
    requires table { IsTable points.now }
    ensures { result ≡ table_value s points.now }
{
    if s < points[0].current {
        return points[0].other as i128;
    }
    for at in 1..points.len() {
        if s <= points[at].current {
            return between_points(s, &points[at - 1], &points[at]);
        }
    }
    points[points.len() - 1].other as i128
}

fn between_points(s: i64, p: &Point, q: &Point) -> i128
    requires s { unsigned_abs s ≤ LARGEST_VALUE }
    requires p { unsigned_abs p.now.current ≤ LARGEST_VALUE }
    requires p_other { unsigned_abs p.now.other ≤ LARGEST_VALUE }
    requires q { unsigned_abs q.now.current ≤ LARGEST_VALUE }
    requires q_other { unsigned_abs q.now.other ≤ LARGEST_VALUE }
    requires rising { p.now.current <ℤ q.now.current }
    ensures { result ≡ between_points s p.now q.now }
{
    let share = scaled(
        s as i128 - p.current as i128,
        q.other as i128 - p.other as i128,
        q.current as i128 - p.current as i128,
    );
    p.other as i128 + share
}

/// 57: whether a time in ps lies within a pair of times.
pub(crate) fn is_within_pair(t: i128, pairs: &[Point]) -> bool
    ensures { result ≡ is_within_pair t pairs.now }
{
    pairs
        .iter()
        .any(|p| p.current as i128 <= t && t < p.other as i128)
}

/// The time of a step, in ps.
pub(crate) fn time_of(run: &RunData, step: u32) -> i128
    ensures { result ≡ time_of run.now step }
{
    step as i128 * run.dt as i128
}
