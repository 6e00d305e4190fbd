//! The admittances of branches at a frequency.

ghost use Rattle.std.specs.Prelude.{◌≡◌, ◌≢◌, ◌*◌, ◌^◌, ◌≤◌, ◌-ℤ◌, ◌*ℤ◌, pos, unsigned_abs, false, IfSome, IfOk};
ghost use Rattle.emtp_case.specs.held.Range.{IsBetween};
ghost use Rattle.emtp_admittance.specs.held.Frequency.{IsFrequency};
ghost use Rattle.emtp_fix.specs.Rounding.{near};
ghost use Rattle.emtp_fix.specs.declared.limit.TheConstants.{ATTO, LARGEST_CAPACITANCE, LARGEST_ENTRY, LARGEST_IMPEDANCE, LARGEST_INDUCTANCE, LARGEST_TIME, LEAST_IMPEDANCE};
ghost use Rattle.emtp_admittance.specs.held.Admittances.{IsSmallAdmittance, IsSmallPort};
ghost use Rattle.emtp_admittance.specs.Impedance.{across_ends, across_impedance, angular_frequency, barring_reason, capacitive_reactance, inductive_reactance, inverse, is_too_large, line_port, linear_port, lossless_port, port_of, reactance_port, series_port, squared, susceptance, turn_port, opposite_admittance};
ghost use Rattle.emtp_admittance.specs.held.Numbers.{HasPortNumbers};

use crate::admittance::{Admittance, TwoPort};
use crate::refusal::Refusal;
use emtp_case::{Branch, Line, Lumped};
use emtp_fix::{ATTO, LARGEST_ENTRY, LARGEST_IMPEDANCE, PICO, near, scaled};
use emtp_wave::CosTable;

/// 2 pi in 10^-15.
const TWO_PI: i128 = 6_283_185_307_179_586;

/// The unit of a reciprocal of two numbers in 10^-9 and 10^-15, in micro-ohm, and of 1 / (sine * impedance), in pS.
const RECIPROCAL: i128 = 1_000_000_000_000_000_000_000_000_000_000;

/// A quarter turn.
const QUARTER: i128 = 250_000_000_000_000_000;

/// The least square of an impedance, in square micro-ohm.
const LEAST_SQUARE: u128 = 100;

/// 2 pi times a frequency in micro-hertz, in 10^-9 radians a second.
pub(crate) fn angular_frequency(freq: i64) -> i128
    requires { IsFrequency freq }
    ensures value { result ≡ angular_frequency freq }
    ensures range { IsBetween 1 (10 ^ 17) result }
{
    scaled(TWO_PI, freq as i128, PICO)
}

/// A product far from the limits of 128 bits.
pub fn product(a: i128, b: i128) -> i128
    requires a { unsigned_abs a ≤ 10 ^ 18 }
    requires b { unsigned_abs b ≤ 10 ^ 18 }
    ensures value { result ≡ a *ℤ b }
    ensures bound { unsigned_abs result ≤ 10 ^ 36 }
{
    a * b
}

fn inductive_reactance(w: i128, l: i64) -> i128
    requires w { IsBetween 1 (10 ^ 17) w }
    requires l { IsBetween 0 LARGEST_INDUCTANCE l }
    ensures { result ≡ inductive_reactance w l }
{
    scaled(w, l as i128, PICO)
}

#[tactic(auto, unfolding(crate::specs::Impedance::capacitive_reactance))]
fn capacitive_reactance(w: i128, c: i64) -> i128
    requires w { IsBetween 1 (10 ^ 17) w }
    requires c { IsBetween 0 LARGEST_CAPACITANCE c }
    ensures { result ≡ capacitive_reactance w c }
{
    if c == 0 {
        0
    } else {
        near(RECIPROCAL, product(w, c as i128))
    }
}

fn squared(r: i128, x: i128) -> i128
    requires r { unsigned_abs r ≤ LARGEST_IMPEDANCE }
    requires x { unsigned_abs x ≤ 2 * LARGEST_IMPEDANCE }
    ensures value { result ≡ squared r x }
    ensures bound { unsigned_abs result ≤ 10 ^ 31 }
{
    product(r, r) + product(x, x)
}

/// A quotient in units of 1e-12 of two numbers in 1e-6.
fn quotient(part: i128, whole: i128) -> i64
    requires part { unsigned_abs part ≤ 2 * LARGEST_IMPEDANCE }
    requires nonzero { whole ≢ pos 0 }
    requires bound { unsigned_abs whole ≤ 10 ^ 36 }
    requires small { unsigned_abs (near (part *ℤ ATTO) whole) ≤ LARGEST_ENTRY }
    ensures value { result ≡ near (part *ℤ ATTO) whole }
    ensures small { unsigned_abs result ≤ LARGEST_ENTRY }
{
    scaled(part, ATTO, whole) as i64
}

fn turned(y: &Admittance) -> Admittance
    requires { IsSmallAdmittance y.now }
    ensures value { result ≡ opposite_admittance y.now }
    ensures small { IsSmallAdmittance result }
{
    Admittance {
        conductance: -y.conductance,
        susceptance: -y.susceptance,
    }
}

fn across(y: &Admittance) -> TwoPort
    requires { IsSmallAdmittance y.now }
    ensures value { result ≡ across_ends y.now }
    ensures small { IsSmallPort result }
{
    TwoPort {
        own: *y,
        other: turned(y),
    }
}

fn across_impedance(r: i128, x: i128) -> Option<TwoPort>
    requires r { unsigned_abs r ≤ LARGEST_IMPEDANCE }
    requires x { unsigned_abs x ≤ 2 * LARGEST_IMPEDANCE }
    ensures value { result ≡ across_impedance r x }
    ensures small { IfSome result IsSmallPort }
{
    let square = squared(r, x);
    if square.unsigned_abs() < LEAST_SQUARE {
        None
    } else {
        Some(across(&inverse(r, x, square)))
    }
}

/// The inverse of an impedance, by the square of its magnitude.
fn inverse(r: i128, x: i128, square: i128) -> Admittance
    requires r { unsigned_abs r ≤ LARGEST_IMPEDANCE }
    requires x { unsigned_abs x ≤ 2 * LARGEST_IMPEDANCE }
    requires square { square ≡ squared r x }
    requires least { 100 ≤ unsigned_abs square }
    requires most { unsigned_abs square ≤ 10 ^ 31 }
    ensures value { result ≡ inverse r x }
    ensures small { IsSmallAdmittance result }
{
    Admittance {
        conductance: quotient(r, square),
        susceptance: -quotient(x, square),
    }
}

/// The two-port of a series branch.
#[tactic(auto, unfolding(crate::specs::Impedance::series_port))]
fn series_port(w: i128, b: &Lumped) -> Option<TwoPort>
    requires w { IsBetween 1 (10 ^ 17) w }
    requires r { IsBetween 0 LARGEST_IMPEDANCE b.now.r }
    requires l { IsBetween 0 LARGEST_INDUCTANCE b.now.l }
    requires c { IsBetween 0 LARGEST_CAPACITANCE b.now.c }
    ensures value { result ≡ series_port w b.now }
    ensures small { IfSome result IsSmallPort }
{
    reactance_port(
        b.r as i128,
        inductive_reactance(w, b.l),
        capacitive_reactance(w, b.c),
    )
}

/// The two-port of a resistance and two reactances in series.
fn reactance_port(r: i128, inductive: i128, capacitive: i128) -> Option<TwoPort>
    requires { unsigned_abs r ≤ LARGEST_IMPEDANCE }
    ensures value { result ≡ reactance_port r inductive capacitive }
    ensures small { IfSome result IsSmallPort }
{
    if is_too_large(inductive) {
        None
    } else if is_too_large(capacitive) {
        None
    } else {
        across_impedance(r, difference(inductive, capacitive))
    }
}

fn difference(a: i128, b: i128) -> i128
    requires a { unsigned_abs a ≤ LARGEST_IMPEDANCE }
    requires b { unsigned_abs b ≤ LARGEST_IMPEDANCE }
    ensures value { result ≡ a -ℤ b }
    ensures bound { unsigned_abs result ≤ 2 * LARGEST_IMPEDANCE }
{
    a - b
}

fn is_too_large(x: i128) -> bool
    ensures value { result ≡ is_too_large x }
    ensures small { result ≡ false → unsigned_abs x ≤ LARGEST_IMPEDANCE }
{
    x.unsigned_abs() > LARGEST_IMPEDANCE
}

fn susceptance(b: i64) -> Admittance
    requires { unsigned_abs b ≤ LARGEST_ENTRY }
    ensures value { result ≡ susceptance b }
    ensures small { IsSmallAdmittance result }
{
    Admittance {
        conductance: 0,
        susceptance: b,
    }
}

fn lossless_port(cs: i64, sn: i64, zc: i64) -> Option<TwoPort>
    requires cs { unsigned_abs cs ≤ 10 ^ 12 }
    requires sn { unsigned_abs sn ≤ 10 ^ 12 }
    requires nonzero { sn ≢ pos 0 }
    requires zc { IsBetween LEAST_IMPEDANCE LARGEST_IMPEDANCE zc }
    ensures value { result ≡ lossless_port cs sn zc }
    ensures small { IfSome result IsSmallPort }
{
    let span = product(sn as i128, zc as i128);
    let mutual = near(RECIPROCAL, span);
    if mutual.unsigned_abs() > LARGEST_ENTRY {
        None
    } else {
        Some(TwoPort {
            own: susceptance(-quotient(cs as i128, span)),
            other: susceptance(mutual as i64),
        })
    }
}

/// How far a wave turns on its way.
fn travel(freq: i64, delay: i64) -> i128
    requires freq { IsFrequency freq }
    requires delay { unsigned_abs delay ≤ LARGEST_TIME }
    ensures value { result ≡ freq *ℤ delay }
    ensures bound { unsigned_abs result ≤ 10 ^ 31 }
{
    freq as i128 * delay as i128
}

/// The same a quarter turn before.
fn before_quarter(phase: i128) -> i128
    requires { unsigned_abs phase ≤ 10 ^ 31 }
    ensures value { result ≡ phase -ℤ pos (25 * 10 ^ 16) }
    ensures bound { unsigned_abs result ≤ 10 ^ 35 }
{
    phase - QUARTER
}

/// The two-port of a lossless line whose travel is a turn with this cosine and sine.
fn turn_port(cs: i64, sn: i64, zc: i64) -> Option<TwoPort>
    requires cs { unsigned_abs cs ≤ 10 ^ 12 }
    requires sn { unsigned_abs sn ≤ 10 ^ 12 }
    requires zc { IsBetween LEAST_IMPEDANCE LARGEST_IMPEDANCE zc }
    ensures value { result ≡ turn_port cs sn zc }
    ensures small { IfSome result IsSmallPort }
{
    if sn == 0 {
        None
    } else {
        lossless_port(cs, sn, zc)
    }
}

/// The two-port of a lossless line.
#[tactic(auto, unfolding(crate::specs::Impedance::line_port))]
fn line_port(table: &CosTable, freq: i64, b: &Line) -> Option<TwoPort>
    requires freq { IsFrequency freq }
    requires zc { IsBetween LEAST_IMPEDANCE LARGEST_IMPEDANCE b.now.zc }
    requires delay { unsigned_abs b.now.delay ≤ LARGEST_TIME }
    ensures value { result ≡ line_port freq b.now }
    ensures small { IfSome result IsSmallPort }
{
    let travel = travel(freq, b.delay);
    turn_port(
        table.cosine(travel),
        table.cosine(before_quarter(travel)),
        b.zc,
    )
}

/// Why no frequency makes a branch good.
pub(crate) fn barring_reason(branch: &Branch) -> Option<Refusal>
    ensures { result ≡ barring_reason branch.now }
{
    match branch {
        Branch::Lumped(_) => None,
        Branch::Line(b) => { if b.r == 0 { None } else { Some(Refusal::Loss) } }
        Branch::Pseudo(_) => Some(Refusal::Nonlinear),
        Branch::Phase(_) => Some(Refusal::Phases),
    }
}

/// The two-port of a branch that isn't barred.
fn linear_port(table: &CosTable, freq: i64, branch: &Branch) -> Option<TwoPort>
    requires freq { IsFrequency freq }
    requires numbers { HasPortNumbers branch.now }
    ensures value { result ≡ linear_port freq branch.now }
    ensures small { IfSome result IsSmallPort }
{
    match branch {
        Branch::Lumped(b) => series_port(angular_frequency(freq), b),
        Branch::Line(b) => line_port(table, freq, b),
        Branch::Pseudo(_) | Branch::Phase(_) => None,
    }
}

/// The two-port of a branch, or why it has none.
pub fn branch_port(table: &CosTable, freq: i64, branch: &Branch) -> Result<TwoPort, Refusal>
    requires freq { IsFrequency freq }
    requires numbers { HasPortNumbers branch.now }
    ensures value { result ≡ port_of freq branch.now }
    ensures small { IfOk result IsSmallPort }
{
    match barring_reason(branch) {
        Some(reason) => Err(reason),
        None => match linear_port(table, freq, branch) {
            Some(port) => Ok(port),
            None => Err(Refusal::Impedance),
        },
    }
}
