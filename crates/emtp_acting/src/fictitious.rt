//! The fictitious resistance of a series branch, as an exact fraction, and whether it matters.

ghost use Rattle.std.specs.Prelude.{◌≡◌, ◌*◌, ◌^◌, ◌≤◌, ◌-ℤ◌, ◌*ℤ◌, int_lt, pos, unsigned_abs};
ghost use Rattle.emtp_acting.specs.Fictitious.{drift_of, drifts, fictitious_of, held, is_half, matters, of_impedance, resistance_of, with_resistance};
ghost use Rattle.emtp_acting.specs.held.Fictitious.{IsFictitious};
ghost use Rattle.emtp_case.specs.held.Branch.{HasSeriesNumbers};
ghost use Rattle.emtp_case.specs.held.Range.{IsBetween};
ghost use Rattle.emtp_case.specs.held.RunData.{IsTimeStep};
ghost use Rattle.emtp_fix.specs.Rounding.{near};
ghost use Rattle.emtp_fix.specs.declared.limit.TheConstants.{ATTO, KILO, LARGEST_ENTRY, LARGEST_IMPEDANCE, LARGEST_INDUCTANCE, LARGEST_TIME, LEAST_IMPEDANCE};

use emtp_case::{Lumped, series_impedance};
use emtp_fix::{ATTO, KILO, LARGEST_VALUE, near, scaled};

/// The resistance r = 1/g - Z that a series branch acts with besides its own, of either sign, as an exact fraction:
/// `conducted` over `conductance`, in micro-ohm. This project's own.
#[derive(Clone, Copy, Debug, PartialEq, Eq)]
pub struct Fictitious {
    /// g r, in 10^-18: to 5 * 10^14 in magnitude. Below 0 the branch gives energy.
    pub conducted: i64,
    /// g, in pS: from 1,000 to 10^17.
    pub conductance: i64,
}

impl Fictitious {
    /// That of a branch at a time step in ps.
    pub fn of(dt: i64, b: &Lumped) -> Fictitious
        requires dt { IsTimeStep dt }
        requires branch { HasSeriesNumbers dt b.now.r b.now.l b.now.c }
        ensures value { result ≡ fictitious_of dt b.now }
        ensures range { IsFictitious result }
    {
        at_impedance(series_impedance(dt, b.r, b.l, b.c))
    }

    /// Whether r is below 0: a current that nothing drives, and that no resistance takes, grows.
    pub fn is_negative(&self) -> bool
        ensures { result ≡ int_lt self.now.conducted (pos 0) }
    {
        self.conducted < 0
    }

    /// r in 10^-9 ohm, to the nearest: to 5 * 10^14 in magnitude.
    pub fn resistance(&self) -> i64
        requires { IsFictitious self.now }
        ensures value { result ≡ resistance_of self.now }
        ensures bound { unsigned_abs result ≤ 5 * 10 ^ 14 }
    {
        narrow(nano_ohms(self.conducted as i128, self.conductance as i128))
    }

    /// R + r in 10^-9 ohm, of a resistance R in micro-ohm: what a branch acts with of both.
    pub fn with_resistance(&self, r: i64) -> i64
        requires range { IsFictitious self.now }
        requires r { IsBetween 0 LARGEST_IMPEDANCE r }
        ensures { result ≡ with_resistance self.now r }
    {
        1000 * r + self.resistance()
    }

    /// r T/L in 10^-9, for a time T in ps and an inductance L in nH, held to 10^18: by which part of itself a current that
    /// nothing drives falls in that time, or grows where it is below 0, to the first order.
    pub fn drift(&self, time: i64, l: i64) -> i64
        requires range { IsFictitious self.now }
        requires time { IsBetween 0 LARGEST_TIME time }
        requires l { IsBetween 1 LARGEST_INDUCTANCE l }
        ensures { result ≡ drift_of self.now time l }
    {
        held(scaled(
            self.conducted as i128,
            time as i128,
            product(self.conductance as i128, l as i128),
        ))
    }

    /// Whether |r| T/L exceeds 10^-3, for a time T in ps and an inductance L in nH.
    pub fn drifts(&self, time: i64, l: i64) -> bool
        requires range { IsFictitious self.now }
        requires time { IsBetween 0 LARGEST_TIME time }
        requires l { IsBetween 0 LARGEST_INDUCTANCE l }
        ensures { result ≡ drifts self.now time l }
    {
        let drift = self.conducted.unsigned_abs() as u128 * time as u128;
        let thousandth = 1_000_000 * (l as u128 * self.conductance as u128);
        thousandth < drift
    }

    /// Whether |r| exceeds the 10^-4 part of a resistance in micro-ohm, so that this one doesn't hide it.
    pub fn matters(&self, r: i64) -> bool
        requires range { IsFictitious self.now }
        requires r { IsBetween 0 LARGEST_IMPEDANCE r }
        ensures { result ≡ matters self.now r }
    {
        r as u128 * (self.conductance as u128) < 10_000 * self.conducted.unsigned_abs() as u128
    }

    /// Whether |r| is at least half of a resistance in micro-ohm that is there: the branch acts with half of it or less, or
    /// with half as much again or more.
    pub fn is_half(&self, r: i64) -> bool
        requires range { IsFictitious self.now }
        requires r { IsBetween 0 LARGEST_IMPEDANCE r }
        ensures { result ≡ is_half self.now r }
    {
        0 < r && r as u128 * (self.conductance as u128) <= 2 * self.conducted.unsigned_abs() as u128
    }
}

/// That of a branch of this impedance, in micro-ohm.
pub(crate) fn at_impedance(z: i128) -> Fictitious
    requires { IsBetween LEAST_IMPEDANCE LARGEST_IMPEDANCE z }
    ensures value { result ≡ of_impedance z }
    ensures range { IsFictitious result }
{
    let g = conductance(z);
    Fictitious {
        conducted: narrow(lack(g, z)),
        conductance: narrow(g),
    }
}

fn conductance(z: i128) -> i128
    requires { IsBetween LEAST_IMPEDANCE LARGEST_IMPEDANCE z }
    ensures value { result ≡ near ATTO z }
    ensures bound { unsigned_abs result ≤ LARGEST_ENTRY }
{
    near(ATTO, z)
}

/// What a product lacks of 10^18.
fn lack(g: i128, z: i128) -> i128
    requires g { unsigned_abs g ≤ LARGEST_ENTRY }
    requires z { unsigned_abs z ≤ LARGEST_IMPEDANCE }
    ensures { result ≡ ATTO -ℤ g *ℤ z }
{
    ATTO - g * z
}

/// A conducted resistance over its conductance, in 10^-9 ohm.
fn nano_ohms(conducted: i128, conductance: i128) -> i128
    requires conducted { unsigned_abs conducted ≤ 5 * 10 ^ 14 }
    requires conductance { IsBetween 1000 LARGEST_ENTRY conductance }
    ensures value { result ≡ near (conducted *ℤ KILO) conductance }
    ensures bound { unsigned_abs result ≤ 5 * 10 ^ 14 }
{
    scaled(conducted, KILO, conductance)
}

/// A product of a conductance in pS and an inductance in nH.
fn product(g: i128, l: i128) -> i128
    requires g { IsBetween 1 LARGEST_ENTRY g }
    requires l { IsBetween 1 (2 * 10 ^ 15) l }
    ensures value { result ≡ g *ℤ l }
    ensures range { IsBetween 1 (2 * 10 ^ 32) result }
{
    g * l
}

/// A number held to 10^18 in magnitude.
pub(crate) fn held(x: i128) -> i64
    ensures { result ≡ held x }
{
    let most = LARGEST_VALUE as i128;
    x.clamp(-most, most) as i64
}

fn narrow(x: i128) -> i64
    requires { unsigned_abs x ≤ LARGEST_ENTRY }
    ensures { result ≡ x }
{
    x as i64
}
