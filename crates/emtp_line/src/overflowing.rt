//! One step of a line without a test: numbers that may be wrong, and an overflow word that says so.

ghost use Rattle.std.specs.Prelude.{◌≡◌, ◌+◌, ◌*◌, ◌^◌, ◌<◌, ◌≤◌, ◌+ℤ◌, ◌-ℤ◌, ◌*ℤ◌, neg_ℤ, pos, unsigned_abs, Some};
ghost use Rattle.emtp_fix.specs.Limit.{in_range};
ghost use Rattle.emtp_fix.specs.Rounding.{near};
ghost use Rattle.emtp_fix.specs.declared.limit.TheConstants.{LARGEST_VALUE, PICO};
ghost use Rattle.emtp_line.specs.Line.{line_state};
ghost use Rattle.emtp_line.specs.Wave.{end_of};
ghost use Rattle.emtp_line.specs.held.Mode.{IsMode};
ghost use Rattle.emtp_line.specs.held.Waves.{IsWaves};

use crate::mode::Mode;
use crate::waves::Waves;
use emtp_case::LineState;
use emtp_fix::{overflowing_near_pico, overflowing_pico_sum, wide_product};

/// A line after one more step, where `overflow` is 0; elsewhere its numbers say nothing.
#[derive(Clone, Copy)]
pub(crate) struct NextStep {
    /// The numbers of the next record.
    pub(crate) state: LineState,
    /// The overflow word.
    pub(crate) overflow: u64,
}

/// The step of a line at the voltages of its ends.
#[inline(always)]
pub(crate) fn overflowing_next(waves: &Waves, v: i64, w: i64) -> NextStep
    requires { IsWaves waves.now }
    ensures value { result.overflow ≡ 0
        → line_state waves.now.mode (waves.now.from_history, waves.now.to_history) v w ≡ Some result.state }
    ensures from { result.overflow ≡ 0 → unsigned_abs result.state.from_current ≤ LARGEST_VALUE }
    ensures to { result.overflow ≡ 0 → unsigned_abs result.state.to_current ≤ LARGEST_VALUE }
{
    let from = overflowing_end(&waves.mode, waves.from_history, v, 0);
    let to = overflowing_end(&waves.mode, waves.to_history, w, from.overflow);
    NextStep {
        state: LineState {
            from_current: from.current,
            to_current: to.current,
            from_wave: from.wave,
            to_wave: to.wave,
        },
        overflow: to.overflow,
    }
}

/// An end after one more step, where `overflow` is 0.
#[derive(Clone, Copy)]
struct NextEnd {
    /// The current into the line, in nA.
    current: i64,
    /// The wave that leaves the end, in nA.
    wave: i64,
    /// The overflow word.
    overflow: u64,
}

#[inline(always)]
fn overflowing_end(mode: &Mode, history: i128, v: i64, overflow: u64) -> NextEnd
    requires mode { IsMode mode.now }
    requires history { unsigned_abs history ≤ 10 ^ 20 }
    ensures value { result.overflow ≡ 0 → end_of mode.now history v ≡ Some (result.current, result.wave) }
    ensures within { result.overflow ≡ 0 → unsigned_abs result.current ≤ 2 ^ 59 }
    ensures overflow { result.overflow ≡ 0 → overflow ≡ 0 }
{
    let (driven, overflow) = overflowing_near_pico(wide_product(mode.conductance, v), overflow);
    let (current, overflow) = overflowing_sum(driven, history, overflow);
    let (wave, overflow) = overflowing_pico_sum(mode.attenuation, current, driven, overflow);
    NextEnd {
        current,
        wave,
        overflow,
    }
}

/// `x + history`, and an overflow word: 0 only where `overflow` is and the sum is at most 2^59 in magnitude.
#[inline(always)]
fn overflowing_sum(x: i64, history: i128, overflow: u64) -> (i64, u64)
    requires x { unsigned_abs x ≤ 13 * 10 ^ 17 }
    requires history { unsigned_abs history ≤ 10 ^ 20 }
    ensures value { result.1 ≡ 0 → in_range (x +ℤ history) ≡ Some result.0 }
    ensures within { result.1 ≡ 0 → unsigned_abs result.0 ≤ 2 ^ 59 }
    ensures overflow { result.1 ≡ 0 → overflow ≡ 0 }
{
    let lifted = lifted_sum(x, history);
    let low = (lifted % (1 << 64)) as u64;
    let high = (lifted / (1 << 64)) as u64;
    (lowered(low), overflow | high | low / (1 << 60))
}

#[inline(always)]
fn lifted_sum(x: i64, history: i128) -> u128
    requires x { unsigned_abs x ≤ 13 * 10 ^ 17 }
    requires history { unsigned_abs history ≤ 10 ^ 20 }
    ensures { result < 2 ^ 60 → pos result ≡ x +ℤ history +ℤ pos (2 ^ 59) }
{
    (i128::from(x) + history + (1 << 59)).cast_unsigned()
}

#[inline(always)]
fn lowered(lifted: u64) -> i64
    ensures { lifted < 2 ^ 60 → result ≡ pos lifted -ℤ pos (2 ^ 59) }
{
    lifted.cast_signed().wrapping_sub(1 << 59)
}

/// What an end's history current is made of the waves that arrive at it, in nA.
#[inline(always)]
pub(crate) fn overflowing_history(mode: &Mode, other: i64, own: i64, overflow: u64) -> (i64, u64)
    requires { IsMode mode.now }
    ensures value { result.1 ≡ 0
        → result.0 ≡ neg_ℤ (near (mode.now.far_share *ℤ other) PICO) -ℤ near (mode.now.near_share *ℤ own) PICO }
    ensures small { unsigned_abs result.0 ≤ 26 * 10 ^ 17 }
    ensures overflow { result.1 ≡ 0 → overflow ≡ 0 }
{
    let (far, overflow) = overflowing_near_pico(wide_product(mode.far_share, other), overflow);
    let (near, overflow) = overflowing_near_pico(wide_product(mode.near_share, own), overflow);
    (-far - near, overflow)
}
