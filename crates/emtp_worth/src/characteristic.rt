//! How far a point lies off a characteristic.

ghost use Rattle.std.specs.Prelude.{Bool, ℤ, ◌≡◌, ◌+◌, ◌*◌, ◌^◌, ◌<◌, ◌≤◌, ◌≤ℤ◌, length, pos, take_while, int_lt, unsigned_abs};
ghost use Rattle.emtp_case.specs.declared.branch.Point.{Point};
ghost use Rattle.emtp_case.specs.held.Branch.{IsCharacteristic, IsSegment};
ghost use Rattle.emtp_case.specs.held.Range.{IsBetween};
ghost use Rattle.emtp_fix.specs.declared.limit.TheConstants.{LARGEST_VALUE};
ghost use Rattle.emtp_pseudo.specs.Segment.{point_at};
ghost use Rattle.emtp_worth.specs.Characteristic.{along, due, excess, is_off, outward, segment_with};

use emtp_case::Point;
use emtp_fix::scaled;

/// A point is off its characteristic where it lies more than this part of the first point's voltage or flux beside it.
pub const SHARE: u128 = 200;

const ORIGIN: Point = Point {
    current: 0,
    other: 0,
};

/// Point `k` of a characteristic; point 0 is the origin.
fn point(points: &[Point], k: usize) -> Point
    requires { k ≤ length points.now }
    ensures { result ≡ point_at points.now k }
{
    if k == 0 { ORIGIN } else { points[k - 1] }
}

/// The straight line through two points, at a current.
fn along(a: Point, b: Point, i: i64) -> i128
    requires segment { (reactor : Bool) × (dt : ℤ) × IsSegment reactor dt a b }
    requires a { pos 0 ≤ℤ a.current }
    requires low { pos 0 ≤ℤ a.other }
    requires i { IsBetween 0 (2 * LARGEST_VALUE) i }
    ensures value { result ≡ along a b i }
    ensures bound { unsigned_abs result ≤ 10 ^ 37 }
{
    a.other as i128
        + scaled(
            (b.other - a.other) as i128,
            i as i128 - a.current as i128,
            (b.current - a.current) as i128,
        )
}

/// Whether a current passes a point.
fn is_passed(point: &Point, i: i64) -> bool
    ensures { result ≡ int_lt point.now.current i }
{
    point.current < i
}

/// How many points a current passes.
fn count_passed(points: &[Point], i: i64) -> usize
    ensures value { result ≡ length (take_while (λ (p : Point). int_lt p.current i) points.now) }
{
    points.iter().take_while(|p| is_passed(p, i)).count()
}

/// The segment of a current from 0 on.
fn segment_with(points: &[Point], i: i64) -> usize
    requires { 1 ≤ length points.now }
    ensures value { result ≡ segment_with points.now i }
    ensures within { result < length points.now }
{
    count_passed(points, i).min(points.len() - 1)
}

/// What the characteristic has at a current from 0 on.
fn outward(points: &[Point], i: i64) -> i128
    requires points { (reactor : Bool) × (dt : ℤ) × IsCharacteristic reactor dt points.now }
    requires some { 1 ≤ length points.now }
    requires i { IsBetween 0 (2 * LARGEST_VALUE) i }
    ensures value { result ≡ outward points.now i }
    ensures bound { unsigned_abs result ≤ 10 ^ 37 }
{
    let k = segment_with(points, i);
    along(point(points, k), point(points, k + 1), i)
}

/// What the characteristic has at a current: the voltage in nV of a resistor, the flux in pWb of a reactor.
#[tactic(auto, unfolding(crate::specs::Characteristic::due))]
pub(crate) fn due(points: &[Point], i: i64) -> i128
    requires points { (reactor : Bool) × (dt : ℤ) × IsCharacteristic reactor dt points.now }
    requires some { 1 ≤ length points.now }
    requires i { unsigned_abs i ≤ 2 * LARGEST_VALUE }
    ensures value { result ≡ due points.now i }
    ensures bound { unsigned_abs result ≤ 10 ^ 37 }
{
    if i < 0 {
        -outward(points, -i)
    } else {
        outward(points, i)
    }
}

/// How far a voltage or flux lies from what its characteristic has.
pub(crate) fn excess(due: i128, y: i64) -> u128
    requires { unsigned_abs due ≤ 10 ^ 37 }
    ensures value { result ≡ excess due y }
    ensures bound { result ≤ 10 ^ 38 }
{
    (y as i128 - due).unsigned_abs()
}

/// Whether a point that lies so far from a characteristic is off it.
pub(crate) fn is_off(points: &[Point], e: u128) -> bool
    requires { 1 ≤ length points.now }
    ensures { result ≡ is_off points.now e }
{
    u128::from(point(points, 1).other.unsigned_abs()) / SHARE < e
}
