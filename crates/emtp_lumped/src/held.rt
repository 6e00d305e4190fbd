//! What is held of one series branch.

ghost use Rattle.std.specs.Prelude.{◌≡◌, ◌^◌, ◌≤◌, ◌-ℤ◌, unsigned_abs, Some, None, true, false};
ghost use Rattle.emtp_lumped.specs.held.Companion.{IsCompanion};
ghost use Rattle.emtp_lumped.specs.held.Held.{IsHeld, IsKeptHistory, held_at_rest};
ghost use Rattle.emtp_lumped.specs.held.Step.{IsInRange};
ghost use Rattle.emtp_lumped.specs.Step.{history_current_of, next_state};

use crate::companion::Companion;
use crate::overflowing::{overflowing_difference, overflowing_next};
use crate::step::{history_current, next};
use emtp_case::LumpedState;

/// A series branch between two steps.
#[derive(Clone, Copy)]
pub(crate) struct HeldBranch {
    /// The companion.
    pub(crate) companion: Companion,
    /// The numbers of the last record.
    pub(crate) state: LumpedState,
    /// The history current of the next step, in nA, where it is at most 2^61 in magnitude; else 2^62, so far out of range
    /// that the next step is made with care.
    pub(crate) kept_history: i64,
}

const MOST_KEPT: u64 = 1 << 61;

const NOT_KEPT: i64 = 1 << 62;

const REST: LumpedState = LumpedState {
    current: 0,
    v_l: 0,
    v_c: 0,
    history_voltage: 0,
};

impl HeldBranch {
    /// The branch of record 0.
    pub(crate) fn at_rest(companion: Companion) -> HeldBranch
        requires { IsCompanion companion }
        ensures value { result ≡ held_at_rest companion }
        ensures held { IsHeld result }
    {
        HeldBranch {
            companion,
            state: REST,
            kept_history: 0,
        }
    }

    /// The history current of the next step, in nA.
    #[inline(always)]
    pub(crate) fn history_current(&self) -> i128
        requires { IsHeld self.now }
        ensures { result ≡ history_current_of self.now.companion self.now.state }
    {
        if self.kept_history.unsigned_abs() <= MOST_KEPT {
            i128::from(self.kept_history)
        } else {
            self.history_current_anew()
        }
    }

    #[cold]
    #[inline(never)]
    fn history_current_anew(&self) -> i128
        requires { IsHeld self.now }
        ensures { result ≡ history_current_of self.now.companion self.now.state }
    {
        history_current(&self.companion, &self.state)
    }

    /// Moves the branch by one step at the voltages of its ends, and answers whether all of its numbers are in range. Where
    /// one isn't, the branch is as before.
    #[inline(always)]
    pub(crate) fn step(&mut self, v: i64, w: i64) -> bool
        requires { IsHeld self.old }
        ensures moved { result ≡ true → next_state self.old.companion self.old.state (v -ℤ w) ≡ Some self.new.state }
        ensures out { result ≡ false → next_state self.old.companion self.old.state (v -ℤ w) ≡ None }
        ensures same { result ≡ false → self.new ≡ self.old }
        ensures companion { self.new.companion ≡ self.old.companion }
        ensures held { IsHeld self.new }
    {
        let (across, overflow) = overflowing_difference(v, w);
        let next = overflowing_next(
            &self.companion,
            &self.state,
            self.kept_history,
            across,
            overflow,
        );
        if next.overflow != 0 {
            return self.step_with_care(v, w);
        }
        self.state = next.state;
        self.kept_history = next.history_current;
        true
    }

    /// The same, with a test at each number.
    #[cold]
    #[inline(never)]
    fn step_with_care(&mut self, v: i64, w: i64) -> bool
        requires { IsHeld self.old }
        ensures moved { result ≡ true → next_state self.old.companion self.old.state (v -ℤ w) ≡ Some self.new.state }
        ensures out { result ≡ false → next_state self.old.companion self.old.state (v -ℤ w) ≡ None }
        ensures same { result ≡ false → self.new ≡ self.old }
        ensures companion { self.new.companion ≡ self.old.companion }
        ensures held { IsHeld self.new }
    {
        let across = v as i128 - w as i128;
        let history = history_current(&self.companion, &self.state);
        match next(&self.companion, &self.state, history, across) {
            None => false,
            Some(state) => {
                self.kept_history = kept_history(&self.companion, &state);
                self.state = state;
                true
            }
        }
    }
}

/// What is kept of the history current of the next step.
fn kept_history(companion: &Companion, state: &LumpedState) -> i64
    requires companion { IsCompanion companion.now }
    requires state { IsInRange state.now }
    ensures { IsKeptHistory companion.now state.now result }
{
    let history = history_current(companion, state);
    if history.unsigned_abs() <= MOST_KEPT as u128 {
        history as i64
    } else {
        NOT_KEPT
    }
}
