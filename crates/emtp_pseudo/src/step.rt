//! One step of a pseudo-nonlinear branch. A function an equation.

ghost use Rattle.emtp_case.specs.held.RunData.{IsTimeStep};
ghost use Rattle.std.specs.Prelude.{◌≡◌, ◌≢◌, ◌^◌, ◌*◌, ◌≤◌, pos, ◌+ℤ◌, ◌*ℤ◌, Bool, true, false, unsigned_abs, IfSome};
ghost use Rattle.emtp_case.specs.held.Range.{IsBetween};
ghost use Rattle.emtp_fix.specs.Rounding.{near};
ghost use Rattle.emtp_fix.specs.declared.limit.TheConstants.{LARGEST_ENTRY, LARGEST_VALUE, PICO};
ghost use Rattle.emtp_pseudo.specs.Segment.{next_segment};
ghost use Rattle.emtp_pseudo.specs.held.Segment.{IsSound};
ghost use Rattle.emtp_pseudo.specs.Step.{current_of, flux_of, history_current_of, next_state, place_of, DOUBLE_NANO};
ghost use Rattle.emtp_pseudo.specs.held.Step.{IsMoment};
ghost use Rattle.emtp_pseudo.specs.declared.moment.Moment.{Moment};

use crate::moment::Moment;
use crate::segment::Segment;
use emtp_case::PseudoState;
use emtp_fix::{PICO, in_range, near_by, scaled};

/// What the next record keeps at a branch voltage, where all of it is in range. `history` is the history current.
pub(crate) fn next(
    reactor: bool,
    dt: i64,
    segment: &Segment,
    old: &Moment,
    history: i128,
    v: i128,
) -> Option<PseudoState>
    requires dt { IsTimeStep dt }
    requires segment { IsSound reactor segment.now }
    requires old { IsMoment old.now }
    requires history { history ≡ history_current_of reactor segment.now old.now }
    requires small { unsigned_abs history ≤ 10 ^ 30 }
    requires v { unsigned_abs v ≤ 2 ^ 64 }
    ensures value { result ≡ next_state reactor dt segment.now old.now v }
    ensures current { IfSome result (λ state. unsigned_abs state.current ≤ LARGEST_VALUE) }
    ensures flux { IfSome result (λ state. unsigned_abs state.flux ≤ LARGEST_VALUE) }
    ensures segment { IfSome result
        (λ state. state.segment ≡ next_segment segment.now old.now.state.segment (place_of reactor state.flux v)) }
{
    let current = in_range(current(reactor, segment, old, history, v))?;
    let flux = in_range(flux(reactor, dt, old, v))?;
    let segment = number_after(reactor, segment, old, flux, v);
    Some(PseudoState {
        current,
        segment,
        flux,
    })
}

/// The history current of the next step; `word` is the reciprocal word of the segment's rise.
pub(crate) fn history_current(reactor: bool, segment: &Segment, word: u64, old: &Moment) -> i128
    requires segment { IsSound reactor segment.now }
    requires old { IsMoment old.now }
    ensures value { result ≡ history_current_of reactor segment.now old.now }
    ensures bound { unsigned_abs result ≤ 10 ^ 30 }
{
    if reactor {
        reactor_history(segment, word, old)
    } else {
        resistor_history(segment)
    }
}

fn resistor_history(s: &Segment) -> i128
    requires { (reactor : Bool) × IsSound reactor s.now }
    ensures value { (old : Moment) → result ≡ history_current_of false s.now old }
    ensures bound { unsigned_abs result ≤ 10 ^ 30 }
{
    s.base.current as i128 - driven(s.conductance, s.base.other as i128)
}

fn reactor_history(s: &Segment, word: u64, old: &Moment) -> i128
    requires segment { IsSound true s.now }
    requires old { IsMoment old.now }
    ensures value { result ≡ history_current_of true s.now old.now }
    ensures bound { unsigned_abs result ≤ 10 ^ 30 }
{
    driven(s.conductance, old.voltage)
        + s.base.current as i128
        + along(s, word, old.state.flux - s.base.other)
}

/// The current that a voltage drives through a conductance.
fn driven(g: i64, v: i128) -> i128
    requires g { IsBetween 0 LARGEST_ENTRY g }
    requires v { unsigned_abs v ≤ 2 ^ 64 }
    ensures value { result ≡ near (g *ℤ v) PICO }
    ensures bound { unsigned_abs result ≤ 10 ^ 25 }
{
    scaled(g as i128, v, PICO)
}

/// How far the current rises along a segment where the flux rises so far.
fn along(s: &Segment, word: u64, flux: i64) -> i128
    requires segment { IsSound true s.now }
    requires flux { unsigned_abs flux ≤ 2 * LARGEST_VALUE }
    ensures value { result ≡ near (s.now.rise.current *ℤ flux) s.now.rise.other }
    ensures bound { unsigned_abs result ≤ 7 * 10 ^ 29 }
{
    quotient(
        s.rise.current as i128,
        flux as i128,
        s.rise.other as i128,
        word,
    )
}

fn current(reactor: bool, s: &Segment, old: &Moment, history: i128, v: i128) -> i128
    requires segment { IsSound reactor s.now }
    requires history { history ≡ history_current_of reactor s.now old.now }
    requires small { unsigned_abs history ≤ 10 ^ 30 }
    requires v { unsigned_abs v ≤ 2 ^ 64 }
    ensures { result ≡ current_of reactor s.now old.now v }
{
    driven(s.conductance, v) + history
}

fn flux(reactor: bool, dt: i64, old: &Moment, v: i128) -> i128
    requires dt { IsTimeStep dt }
    requires old { IsMoment old.now }
    requires v { unsigned_abs v ≤ 2 ^ 64 }
    ensures { result ≡ flux_of reactor dt old.now v }
{
    if reactor {
        old.state.flux as i128 + trapezoid(dt, old.voltage, v)
    } else {
        0
    }
}

/// The flux of one step between two voltages, by the trapezoidal rule.
fn trapezoid(dt: i64, old: i128, v: i128) -> i128
    requires dt { IsTimeStep dt }
    requires old { unsigned_abs old ≤ 2 ^ 64 }
    requires v { unsigned_abs v ≤ 2 ^ 64 }
    ensures value { result ≡ near (dt *ℤ (old +ℤ v)) DOUBLE_NANO }
    ensures bound { unsigned_abs result ≤ 10 ^ 30 }
{
    quotient(dt as i128, old + v, 2_000_000_000, DOUBLE_NANO_WORD)
}

/// The reciprocal word of 2 * 10^9: what `word_of` gives for it.
const DOUBLE_NANO_WORD: u64 = 1_360_296_554_856_532_782;

/// `a * b / d`, rounded, by the reciprocal word of `d`: these divisors aren't among those that `near` knows.
fn quotient(a: i128, b: i128, d: i128, word: u64) -> i128
    requires a { unsigned_abs a ≤ LARGEST_VALUE }
    requires b { unsigned_abs b ≤ 2 ^ 65 }
    requires nonzero { d ≢ pos 0 }
    requires d { unsigned_abs d ≤ LARGEST_VALUE }
    ensures { result ≡ near (a *ℤ b) d }
{
    near_by(a * b, d, word)
}

fn number_after(reactor: bool, s: &Segment, old: &Moment, flux: i64, v: i128) -> i32
    requires { IsMoment old.now }
    ensures { result ≡ next_segment s.now old.now.state.segment (place_of reactor flux v) }
{
    let k = old.state.segment;
    if reactor {
        s.next(k, flux as i128)
    } else {
        s.next(k, v)
    }
}
