//! One step of a series branch without a test: numbers that may be wrong, and an overflow word that says so.

ghost use Rattle.std.specs.Prelude.{◌≡◌, ◌^◌, ◌<◌, ◌≤◌, ◌-ℤ◌, pos, unsigned_abs};
ghost use Rattle.emtp_lumped.specs.held.Companion.{IsCompanion};
ghost use Rattle.emtp_lumped.specs.held.Held.{IsKeptHistory, IsNextStep};
ghost use Rattle.emtp_lumped.specs.held.Step.{IsInRange};

use crate::companion::Companion;
use emtp_case::LumpedState;
use emtp_fix::{overflowing_micro_sum, overflowing_near_pico, overflowing_pico_sum, wide_product};

/// A branch after one more step, where `overflow` is 0; elsewhere its numbers say nothing.
#[derive(Clone, Copy)]
pub(crate) struct NextStep {
    /// The numbers of the next record.
    pub(crate) state: LumpedState,
    /// The history current of the step after it, in nA: to 1.3e18 in magnitude.
    pub(crate) history_current: i64,
    /// The overflow word.
    pub(crate) overflow: u64,
}

/// The step of a branch at a voltage, from its kept history current.
#[inline(always)]
fn overflowing_series(
    companion: &Companion,
    old: &LumpedState,
    history: i64,
    v: i64,
    overflow: u64,
) -> NextStep
    requires companion { IsCompanion companion.now }
    requires old { IsInRange old.now }
    requires history { IsKeptHistory companion.now old.now history }
    ensures { IsNextStep companion.now old.now v overflow result }
{
    let (current, overflow) = overflowing_pico_sum(companion.conductance, v, history, overflow);
    let (v_l, overflow) = overflowing_micro_sum(
        companion.inductor,
        current - old.current,
        -old.v_l,
        overflow,
    );
    let (v_c, overflow) = overflowing_micro_sum(
        companion.capacitor,
        current + old.current,
        old.v_c,
        overflow,
    );
    let (history_voltage, overflow) = overflowing_micro_sum(
        companion.inductor - companion.capacitor,
        current,
        v_l - v_c,
        overflow,
    );
    let (history_current, overflow) = overflowing_near_pico(
        wide_product(companion.conductance, history_voltage),
        overflow,
    );
    NextStep {
        state: LumpedState {
            current,
            v_l,
            v_c,
            history_voltage,
        },
        history_current,
        overflow,
    }
}

/// The same of a branch without capacitance: the voltage of what isn't there stays.
#[inline(always)]
fn overflowing_inductive(
    companion: &Companion,
    old: &LumpedState,
    history: i64,
    v: i64,
    overflow: u64,
) -> NextStep
    requires none { companion.now.capacitor ≡ pos 0 }
    requires companion { IsCompanion companion.now }
    requires old { IsInRange old.now }
    requires history { IsKeptHistory companion.now old.now history }
    ensures { IsNextStep companion.now old.now v overflow result }
{
    let (current, overflow) = overflowing_pico_sum(companion.conductance, v, history, overflow);
    let (v_l, overflow) = overflowing_micro_sum(
        companion.inductor,
        current - old.current,
        -old.v_l,
        overflow,
    );
    let (history_voltage, overflow) = overflowing_micro_sum(
        companion.inductor,
        current,
        v_l - old.v_c,
        overflow,
    );
    let (history_current, overflow) = overflowing_near_pico(
        wide_product(companion.conductance, history_voltage),
        overflow,
    );
    NextStep {
        state: LumpedState {
            current,
            v_l,
            v_c: old.v_c,
            history_voltage,
        },
        history_current,
        overflow,
    }
}

/// The same of a branch without inductance, whose voltage turns its sign.
#[inline(always)]
fn overflowing_capacitive(
    companion: &Companion,
    old: &LumpedState,
    history: i64,
    v: i64,
    overflow: u64,
) -> NextStep
    requires none { companion.now.inductor ≡ pos 0 }
    requires companion { IsCompanion companion.now }
    requires old { IsInRange old.now }
    requires history { IsKeptHistory companion.now old.now history }
    ensures { IsNextStep companion.now old.now v overflow result }
{
    let (current, overflow) = overflowing_pico_sum(companion.conductance, v, history, overflow);
    let v_l = -old.v_l;
    let (v_c, overflow) = overflowing_micro_sum(
        companion.capacitor,
        current + old.current,
        old.v_c,
        overflow,
    );
    let (history_voltage, overflow) = overflowing_micro_sum(
        -companion.capacitor,
        current,
        v_l - v_c,
        overflow,
    );
    let (history_current, overflow) = overflowing_near_pico(
        wide_product(companion.conductance, history_voltage),
        overflow,
    );
    NextStep {
        state: LumpedState {
            current,
            v_l,
            v_c,
            history_voltage,
        },
        history_current,
        overflow,
    }
}

/// The step of a branch by what it has: without capacitance or without inductance a product less is made.
#[inline(always)]
pub(crate) fn overflowing_next(
    companion: &Companion,
    old: &LumpedState,
    history: i64,
    v: i64,
    overflow: u64,
) -> NextStep
    requires companion { IsCompanion companion.now }
    requires old { IsInRange old.now }
    requires history { IsKeptHistory companion.now old.now history }
    ensures { IsNextStep companion.now old.now v overflow result }
{
    if companion.capacitor == 0 {
        overflowing_inductive(companion, old, history, v, overflow)
    } else if companion.inductor == 0 {
        overflowing_capacitive(companion, old, history, v, overflow)
    } else {
        overflowing_series(companion, old, history, v, overflow)
    }
}

/// `v - w`, and an overflow word: 0 only where both are at most 2^59 in magnitude, so that they are in range.
#[inline(always)]
pub(crate) fn overflowing_difference(v: i64, w: i64) -> (i64, u64)
    ensures { result.1 ≡ 0 → result.0 ≡ v -ℤ w }
{
    (v.wrapping_sub(w), (lifted(v) | lifted(w)) / (1 << 60))
}

/// Below 2^60 only where `x` is at most 2^59 in magnitude.
#[inline(always)]
fn lifted(x: i64) -> u64
    ensures { result < 2 ^ 60 → unsigned_abs x ≤ 2 ^ 59 }
{
    x.wrapping_add(1 << 59).cast_unsigned()
}
