//! The numbers that a step makes of a card's: companions of inductances and capacitances, the impedance of a lossy
//! line's end, the slope of a segment. A reader judges by them, and the laws step with them.

ghost use Rattle.emtp_case.specs.held.RunData.{IsTimeStep};
ghost use Rattle.emtp_fix.specs.declared.limit.TheConstants.{LARGEST_CAPACITANCE, LARGEST_IMPEDANCE, LARGEST_INDUCTANCE, LARGEST_VALUE};
ghost use Rattle.std.specs.Prelude.{◌≡◌, ◌*◌, ◌^◌, ◌≤◌, pos, ◌*ℤ◌, unsigned_abs};
ghost use Rattle.emtp_case.specs.Branch.{capacitor_impedance, inductor_impedance, line_impedance, series_impedance, slope_of};
ghost use Rattle.emtp_case.specs.held.Branch.{IsRise};
ghost use Rattle.emtp_case.specs.held.Range.{IsBetween};
ghost use Rattle.emtp_fix.specs.Rounding.{near};

use crate::branch::Point;
use emtp_fix::near;

/// The impedance in micro-ohm of an inductance in nH, at a time step in ps, by the trapezoidal rule (Dommel 1969).
pub fn inductor_impedance(dt: i64, l: i64) -> i128
    requires dt { IsTimeStep dt }
    requires l { IsBetween 0 LARGEST_INDUCTANCE l }
    ensures value { result ≡ inductor_impedance dt l }
    ensures bound { unsigned_abs result ≤ 2 * 10 ^ 24 }
{
    near(2_000_000_000 * l as i128, dt as i128)
}

/// The impedance in micro-ohm of a capacitance in fF, at a time step in ps, by the trapezoidal rule (Dommel 1969).
/// A capacitance of 0 is absent, and has none.
pub fn capacitor_impedance(dt: i64, c: i64) -> i128
    requires dt { IsTimeStep dt }
    requires c { IsBetween 0 LARGEST_CAPACITANCE c }
    ensures value { result ≡ capacitor_impedance dt c }
    ensures bound { unsigned_abs result ≤ 10 ^ 21 }
{
    if c == 0 { 0 } else { half_step(dt, c) }
}

/// The whole number nearest to `dt * 10^9 / (2 * c)`.
fn half_step(dt: i64, c: i64) -> i128
    requires dt { IsTimeStep dt }
    requires c { IsBetween 1 LARGEST_CAPACITANCE c }
    ensures value { result ≡ near (dt *ℤ pos (10 ^ 9)) (pos 2 *ℤ c) }
    ensures bound { unsigned_abs result ≤ 10 ^ 21 }
{
    near(dt as i128 * 1_000_000_000, 2 * c as i128)
}

/// The impedance in micro-ohm of a resistance, an inductance and a capacitance in series, over one step in ps.
pub fn series_impedance(dt: i64, r: i64, l: i64, c: i64) -> i128
    requires dt { IsTimeStep dt }
    requires r { IsBetween 0 LARGEST_IMPEDANCE r }
    requires l { IsBetween 0 LARGEST_INDUCTANCE l }
    requires c { IsBetween 0 LARGEST_CAPACITANCE c }
    ensures { result ≡ series_impedance dt r l c }
{
    r as i128 + inductor_impedance(dt, l) + capacitor_impedance(dt, c)
}

/// The impedance in micro-ohm of the end of a line of this surge impedance and total resistance, both in micro-ohm: a
/// quarter of the resistance stands at each end of each half (EMTP Theory Book).
pub fn line_impedance(zc: i64, r: i64) -> i128
    requires zc { IsBetween 0 LARGEST_IMPEDANCE zc }
    requires r { IsBetween 0 LARGEST_IMPEDANCE r }
    ensures { result ≡ line_impedance zc r }
{
    zc as i128 + near(r as i128, 4)
}

/// The resistance in micro-ohm of a resistor's segment from point `a` to point `b`, or the conductance in pS of a
/// reactor's at a time step in ps.
pub fn slope(reactor: bool, dt: i64, a: Point, b: Point) -> i128
    requires dt { IsTimeStep dt }
    requires current { IsRise a.current b.current }
    requires other { IsRise a.other b.other }
    ensures { result ≡ slope_of reactor dt a b }
{
    if reactor {
        reactor_slope(dt, b.current - a.current, b.other - a.other)
    } else {
        resistor_slope(b.current - a.current, b.other - a.other)
    }
}

fn resistor_slope(current: i64, voltage: i64) -> i128
    requires current { IsBetween 1 LARGEST_VALUE current }
    requires voltage { IsBetween 1 LARGEST_VALUE voltage }
    ensures { result ≡ near (voltage *ℤ pos (10 ^ 6)) current }
{
    near(voltage as i128 * 1_000_000, current as i128)
}

fn reactor_slope(dt: i64, current: i64, flux: i64) -> i128
    requires dt { IsTimeStep dt }
    requires current { IsBetween 1 LARGEST_VALUE current }
    requires flux { IsBetween 1 (10 ^ 18) flux }
    ensures { result ≡ near (dt *ℤ current *ℤ pos 1000) (pos 2 *ℤ flux) }
{
    near(product(dt, current) * 1000, 2 * flux as i128)
}

/// A product that is wider than its factors.
pub(crate) fn product(a: i64, b: i64) -> i128
    requires a { IsBetween 1 (10 ^ 13) a }
    requires b { IsBetween 1 (10 ^ 18) b }
    ensures value { result ≡ a *ℤ b }
    ensures range { IsBetween 1 (10 ^ 31) result }
{
    a as i128 * b as i128
}
