//! One straight segment of a characteristic.

ghost use Rattle.emtp_case.specs.held.RunData.{IsTimeStep};
ghost use Rattle.std.specs.Prelude.{◌≡◌, ◌+◌, ◌<◌, ◌≤◌, ◌<ℤ◌, Bool, length, unsigned_abs, IfSome};
ghost use Rattle.emtp_case.specs.held.Branch.{IsCharacteristic, IsSegment};
ghost use Rattle.emtp_case.specs.held.Range.{IsBetween};
ghost use Rattle.emtp_fix.specs.Rounding.{near};
ghost use Rattle.emtp_fix.specs.declared.limit.TheConstants.{ATTO, LARGEST_ENTRY, LARGEST_IMPEDANCE, LARGEST_VALUE, LEAST_IMPEDANCE};
ghost use Rattle.emtp_pseudo.specs.Segment.{conductance_of, inner_end, is_above, is_below, mirrored, mirrored_end, mirrored_point, next_segment, outer_end, outward, point_at, rise_of, segment_of};
ghost use Rattle.emtp_pseudo.specs.held.Segment.{IsSound, IsPoint};

use emtp_case::{Point, slope};
use emtp_fix::{ATTO, near};

/// A segment of a characteristic: what the law needs of it, and where it ends.
#[derive(Clone, Copy)]
pub(crate) struct Segment {
    /// The conductance over one step, in pS: from 0 to 10^17.
    pub(crate) conductance: i64,
    /// The point that the segment is reckoned from: its end towards the origin, or the origin.
    pub(crate) base: Point,
    /// How far current and voltage or flux rise from there to the other end: both from 1 to 10^18.
    pub(crate) rise: Point,
    /// The voltage in nV or flux in pWb above which the next segment begins; the last segment has no end there.
    pub(crate) upper: Option<i64>,
    /// The voltage in nV or flux in pWb below which the segment before begins; the last one below 0 has no end there.
    pub(crate) lower: Option<i64>,
}

const ORIGIN: Point = Point {
    current: 0,
    other: 0,
};

impl Segment {
    /// Segment `k` of the characteristic through these points, at a time step in ps. Below 0 it is the mirror image of
    /// segment `-k`.
    #[tactic(auto, unfolding(crate::specs::Segment::segment_of))]
    pub(crate) fn of(reactor: bool, dt: i64, points: &[Point], k: i32) -> Segment
        requires dt { IsTimeStep dt }
        requires points { IsCharacteristic reactor dt points.now }
        requires within { unsigned_abs k < length points.now }
        ensures value { result ≡ segment_of reactor dt points.now k }
        ensures sound { IsSound reactor result }
    {
        let outward = Segment::outward(reactor, dt, points, k.unsigned_abs() as usize);
        if k < 0 { outward.mirrored() } else { outward }
    }

    /// A segment from its end towards the origin on.
    fn outward(reactor: bool, dt: i64, points: &[Point], k: usize) -> Segment
        requires dt { IsTimeStep dt }
        requires points { IsCharacteristic reactor dt points.now }
        requires within { k < length points.now }
        ensures { result ≡ outward reactor dt points.now k }
    {
        let base = point(points, k);
        let end = points[k];
        Segment {
            conductance: conductance(reactor, dt, base, end),
            base,
            rise: rise(base, end),
            upper: outer_end(points, k),
            lower: inner_end(points, k),
        }
    }

    /// The mirror image at the origin.
    fn mirrored(&self) -> Segment
        requires { (reactor : Bool) × IsSound reactor self.now }
        ensures { result ≡ mirrored self.now }
    {
        Segment {
            conductance: self.conductance,
            base: mirrored_point(self.base),
            rise: self.rise,
            upper: mirrored_end(self.lower),
            lower: mirrored_end(self.upper),
        }
    }

    /// The number of the segment after a step on this one, number `k`, that ends at the voltage or flux `y`: at most one
    /// further.
    pub(crate) fn next(&self, k: i32, y: i128) -> i32
        requires { unsigned_abs k ≤ 63 }
        ensures { result ≡ next_segment self.now k y }
    {
        if is_above(y, self.upper) {
            k + 1
        } else if is_below(y, self.lower) {
            k - 1
        } else {
            k
        }
    }
}

/// Point `k` of a characteristic; point 0 is the origin.
fn point(points: &[Point], k: usize) -> Point
    requires { k ≤ length points.now }
    ensures { result ≡ point_at points.now k }
{
    if k == 0 { ORIGIN } else { points[k - 1] }
}

fn rise(a: Point, b: Point) -> Point
    requires a { IsPoint a }
    requires b { IsPoint b }
    requires current { a.current <ℤ b.current }
    requires other { a.other <ℤ b.other }
    ensures { result ≡ rise_of a b }
{
    Point {
        current: b.current - a.current,
        other: b.other - a.other,
    }
}

fn outer_end(points: &[Point], k: usize) -> Option<i64>
    requires { k < length points.now }
    ensures { result ≡ outer_end points.now k }
{
    if k + 1 < points.len() {
        Some(points[k].other)
    } else {
        None
    }
}

fn inner_end(points: &[Point], k: usize) -> Option<i64>
    requires within { k < length points.now }
    requires small { IfSome (outer_end points.now 0) (λ y. unsigned_abs y ≤ LARGEST_VALUE) }
    ensures { result ≡ inner_end points.now k }
{
    if k == 0 {
        mirrored_end(outer_end(points, 0))
    } else {
        Some(points[k - 1].other)
    }
}

fn mirrored_end(end: Option<i64>) -> Option<i64>
    requires { IfSome end (λ y. unsigned_abs y ≤ LARGEST_VALUE) }
    ensures { result ≡ mirrored_end end }
{
    match end {
        Some(y) => Some(-y),
        None => None,
    }
}

fn mirrored_point(p: Point) -> Point
    requires current { unsigned_abs p.current ≤ LARGEST_VALUE }
    requires other { unsigned_abs p.other ≤ LARGEST_VALUE }
    ensures { result ≡ mirrored_point p }
{
    Point {
        current: -p.current,
        other: -p.other,
    }
}

fn conductance(reactor: bool, dt: i64, a: Point, b: Point) -> i64
    requires dt { IsTimeStep dt }
    requires segment { IsSegment reactor dt a b }
    requires a { IsPoint a }
    requires b { IsPoint b }
    ensures { result ≡ conductance_of reactor dt a b }
{
    if reactor {
        slope(true, dt, a, b) as i64
    } else {
        reciprocal(slope(false, dt, a, b)) as i64
    }
}

/// The conductance of a resistance.
fn reciprocal(r: i128) -> i128
    requires { IsBetween LEAST_IMPEDANCE LARGEST_IMPEDANCE r }
    ensures value { result ≡ near ATTO r }
    ensures bound { unsigned_abs result ≤ LARGEST_ENTRY }
{
    near(ATTO, r)
}

fn is_above(y: i128, end: Option<i64>) -> bool
    ensures { result ≡ is_above y end }
{
    match end {
        Some(end) => (end as i128) < y,
        None => false,
    }
}

fn is_below(y: i128, end: Option<i64>) -> bool
    ensures { result ≡ is_below y end }
{
    match end {
        Some(end) => y < end as i128,
        None => false,
    }
}
