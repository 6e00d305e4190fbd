//! One step of the waves of one mode. A function an equation: put into their callers, they cost a fifth less.

ghost use Rattle.std.specs.Prelude.{◌≡◌, ◌^◌, ◌+◌, ◌≤◌, ◌+ℤ◌, ◌-ℤ◌, ◌*ℤ◌, neg_ℤ, ℤ, List, unsigned_abs, IfSome};
ghost use Rattle.emtp_fix.specs.Rounding.{near};
ghost use Rattle.emtp_fix.specs.declared.limit.TheConstants.{LARGEST_ENTRY, LARGEST_VALUE, PICO};
ghost use Rattle.emtp_hist.specs.held.History.{Remembers};
ghost use Rattle.emtp_line.specs.held.Mode.{IsMode};
ghost use Rattle.emtp_line.specs.Wave.{between, past_wave, history_of, wave_of, end_of};

use crate::mode::{Mode, WHOLE};
use crate::overflowing::overflowing_history;
use emtp_fix::{PICO, in_range, near, near_by};
use emtp_hist::History;

/// The history currents of the next step at `from` and at `to`, in nA, from the waves that left these ends. `word` is
/// the kept word of the time step.
#[inline(always)]
pub(crate) fn histories(mode: &Mode, from: &History, to: &History, word: u64) -> (i128, i128)
    requires mode { IsMode mode.now }
    requires from { from.now.depth ≡ mode.now.steps + 1 }
    requires to { to.now.depth ≡ mode.now.steps + 1 }
    ensures value { (from' to' : List ℤ) → Remembers from.now from' → Remembers to.now to'
        → result ≡ (history_of mode.now to' from', history_of mode.now from' to') }
    ensures from_small { unsigned_abs result.0 ≤ 10 ^ 20 }
    ensures to_small { unsigned_abs result.1 ≤ 10 ^ 20 }
{
    let from = past(mode, from, word);
    let to = past(mode, to, word);
    let (from_history, overflow) = overflowing_history(mode, to, from, 0);
    let (to_history, overflow) = overflowing_history(mode, from, to, overflow);
    if overflow != 0 {
        return histories_with_care(mode, from, to);
    }
    (i128::from(from_history), i128::from(to_history))
}

/// The same of the waves that left the ends one travel time before, with a test at each number.
#[cold]
#[inline(never)]
fn histories_with_care(mode: &Mode, from: i64, to: i64) -> (i128, i128)
    requires { IsMode mode.now }
    ensures from { result.0 ≡ neg_ℤ (near (mode.now.far_share *ℤ to) PICO) -ℤ near (mode.now.near_share *ℤ from) PICO }
    ensures to { result.1 ≡ neg_ℤ (near (mode.now.far_share *ℤ from) PICO) -ℤ near (mode.now.near_share *ℤ to) PICO }
    ensures from_small { unsigned_abs result.0 ≤ 10 ^ 20 }
    ensures to_small { unsigned_abs result.1 ≤ 10 ^ 20 }
{
    (history(mode, to, from), history(mode, from, to))
}

/// The wave that left an end one travel time before the next step.
#[inline(always)]
fn past(mode: &Mode, waves: &History, word: u64) -> i64
    requires mode { IsMode mode.now }
    requires depth { waves.now.depth ≡ mode.now.steps + 1 }
    ensures { (waves' : List ℤ) → Remembers waves.now waves' → result ≡ past_wave mode.now waves' }
{
    let newer = waves.back(mode.steps - 1);
    if mode.rest == 0 {
        return newer;
    }
    interpolated(mode, newer, waves.back(mode.steps), word)
}

/// Between two waves; it is never outside of them.
fn interpolated(mode: &Mode, newer: i64, older: i64, word: u64) -> i64
    requires { IsMode mode.now }
    ensures { result ≡ between mode.now newer older }
{
    (newer as i128 + portion(mode, rise(newer, older), word)) as i64
}

fn rise(newer: i64, older: i64) -> i128
    ensures value { result ≡ older -ℤ newer }
    ensures bound { unsigned_abs result ≤ 2 ^ 64 }
{
    older as i128 - newer as i128
}

fn portion(mode: &Mode, rise: i128, word: u64) -> i128
    requires mode { IsMode mode.now }
    requires rise { unsigned_abs rise ≤ 2 ^ 64 }
    ensures value { result ≡ near (mode.now.rest *ℤ rise) mode.now.dt }
    ensures bound { unsigned_abs result ≤ 2 ^ 64 }
{
    near_by(mode.rest as i128 * rise, mode.dt as i128, word)
}

fn history(mode: &Mode, other: i64, own: i64) -> i128
    requires { IsMode mode.now }
    ensures value { result ≡ neg_ℤ (near (mode.now.far_share *ℤ other) PICO) -ℤ near (mode.now.near_share *ℤ own) PICO }
    ensures bound { unsigned_abs result ≤ 10 ^ 20 }
{
    -attenuated(mode.far_share, other as i128) - returned(mode.near_share, own as i128)
}

/// The current and the wave of an end at a history current and a voltage, where both are in range.
pub(crate) fn end(mode: &Mode, history: i128, v: i64) -> Option<(i64, i64)>
    requires mode { IsMode mode.now }
    requires history { unsigned_abs history ≤ 10 ^ 20 }
    ensures value { result ≡ end_of mode.now history v }
    ensures current { IfSome result (λ e. unsigned_abs e.0 ≤ LARGEST_VALUE) }
{
    let driven = driven(mode.conductance, v as i128);
    let current = in_range(sum(driven, history))?;
    let wave = in_range(sum(driven, attenuated(mode.attenuation, current as i128)))?;
    Some((current, wave))
}

/// The wave of a voltage and a current that may be out of range.
pub(crate) fn wave(mode: &Mode, v: i128, i: i128) -> i128
    requires mode { IsMode mode.now }
    requires v { unsigned_abs v ≤ 10 ^ 20 }
    requires i { unsigned_abs i ≤ 10 ^ 26 }
    ensures value { result ≡ wave_of mode.now v i }
    ensures bound { unsigned_abs result ≤ 10 ^ 27 }
{
    sum(driven(mode.conductance, v), attenuated(mode.attenuation, i))
}

fn sum(x: i128, y: i128) -> i128
    requires x { unsigned_abs x ≤ 10 ^ 26 }
    requires y { unsigned_abs y ≤ 10 ^ 26 }
    ensures value { result ≡ x +ℤ y }
    ensures bound { unsigned_abs result ≤ 10 ^ 27 }
{
    x + y
}

/// `g * v` in nA, for a conductance in pS and a voltage in nV.
fn driven(g: i64, v: i128) -> i128
    requires g { unsigned_abs g ≤ LARGEST_ENTRY }
    requires v { unsigned_abs v ≤ 10 ^ 20 }
    ensures value { result ≡ near (g *ℤ v) PICO }
    ensures bound { unsigned_abs result ≤ 10 ^ 25 }
{
    near(g as i128 * v, PICO)
}

/// The part, in 1e-12, of a wave or a current that goes on. On a line without loss it is the whole, and its quotient is
/// spared.
fn attenuated(share: i64, x: i128) -> i128
    requires share { unsigned_abs share ≤ 10 ^ 12 }
    requires x { unsigned_abs x ≤ 10 ^ 26 }
    ensures value { result ≡ near (share *ℤ x) PICO }
    ensures bound { unsigned_abs result ≤ unsigned_abs x }
{
    if share == WHOLE { x } else { part(share, x) }
}

/// The part, in 1e-12, of an end's own wave that comes back. On a line without loss it is 0, and its quotient is spared.
fn returned(share: i64, x: i128) -> i128
    requires share { unsigned_abs share ≤ 10 ^ 12 }
    requires x { unsigned_abs x ≤ 10 ^ 26 }
    ensures value { result ≡ near (share *ℤ x) PICO }
    ensures bound { unsigned_abs result ≤ unsigned_abs x }
{
    if share == 0 { 0 } else { part(share, x) }
}

/// A part, in 1e-12.
fn part(share: i64, x: i128) -> i128
    requires share { unsigned_abs share ≤ 10 ^ 12 }
    requires x { unsigned_abs x ≤ 10 ^ 26 }
    ensures value { result ≡ near (share *ℤ x) PICO }
    ensures bound { unsigned_abs result ≤ unsigned_abs x }
{
    near(share as i128 * x, PICO)
}
