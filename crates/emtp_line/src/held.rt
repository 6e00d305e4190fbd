//! What is held of a single line, or of a phase, between two steps.

ghost use Rattle.std.specs.Prelude.{◌≡◌, ◌≤◌, ◌^◌, ◌∷◌, unsigned_abs, List, ℤ, None, IfOk, IfSome, OnErr};
ghost use Rattle.emtp_case.specs.declared.branch.LineState.{LineState};
ghost use Rattle.emtp_fix.specs.declared.limit.TheConstants.{LARGEST_VALUE};
ghost use Rattle.emtp_line.specs.held.Held.{IsHeld, LineStands, LineMoved, held_at_rest};
ghost use Rattle.emtp_line.specs.Line.{line_state, next_state};
ghost use Rattle.emtp_line.specs.held.Mode.{IsMode};
ghost use Rattle.emtp_line.specs.held.Waves.{IsWaves, WavesStand};

use crate::mode::Mode;
use crate::overflowing::overflowing_next;
use crate::wave::end;
use crate::waves::Waves;
use emtp_case::LineState;
use emtp_fix::OutOfRange;
use std::alloc::{AllocError, Global};

/// A line between two steps: its currents in the last record, and its waves.
#[derive(Drop)]
pub(crate) struct HeldLine {
    /// The waves.
    pub(crate) waves: Waves,
    /// The current that enters at `from`, in nA.
    pub(crate) from_current: i64,
    /// The current that enters at `to`, in nA.
    pub(crate) to_current: i64,
}

impl HeldLine {
    /// The line of record 0.
    pub(crate) fn at_rest(alloc: Global, mode: Mode) -> Result<HeldLine, AllocError>
        requires { IsMode mode }
        ensures { IfOk result (λ x. x ≡ held_at_rest mode) }
    {
        Ok(HeldLine {
            waves: Waves::at_rest(alloc, mode)?,
            from_current: 0,
            to_current: 0,
        })
    }

    /// Takes the voltages of both ends in nV, moves the line by one step and answers the branch current in nA. `word`
    /// is the kept word of the time step.
    #[inline(always)]
    pub(crate) fn accept(&mut self, v: i64, w: i64, word: u64) -> Result<i64, OutOfRange>
        requires { IsHeld self.old }
        ensures fits { IsHeld self.new }
        ensures mode { self.new.waves.mode ≡ self.old.waves.mode }
        ensures moved { (past : List LineState) → LineStands self.old past
            → IfOk result (LineMoved self.new past (next_state self.old.waves.mode past v w)) }
        ensures out { (past : List LineState) → LineStands self.old past
            → OnErr result (next_state self.old.waves.mode past v w ≡ None) }
        ensures same { OnErr result (self.new ≡ self.old) }
    {
        let next = overflowing_next(&self.waves, v, w);
        if next.overflow != 0 {
            return self.accept_with_care(v, w, word);
        }
        self.push(&next.state, word);
        Ok(next.state.from_current)
    }

    /// The same, with a test at each number.
    #[cold]
    #[inline(never)]
    fn accept_with_care(&mut self, v: i64, w: i64, word: u64) -> Result<i64, OutOfRange>
        requires { IsHeld self.old }
        ensures fits { IsHeld self.new }
        ensures mode { self.new.waves.mode ≡ self.old.waves.mode }
        ensures moved { (past : List LineState) → LineStands self.old past
            → IfOk result (LineMoved self.new past (next_state self.old.waves.mode past v w)) }
        ensures out { (past : List LineState) → LineStands self.old past
            → OnErr result (next_state self.old.waves.mode past v w ≡ None) }
        ensures same { OnErr result (self.new ≡ self.old) }
    {
        match next(&self.waves, v, w) {
            Some(state) => {
                self.push(&state, word);
                Ok(state.from_current)
            }
            None => Err(OutOfRange),
        }
    }

    /// The history currents of the next step at `from` and at `to`, in nA.
    pub(crate) fn history_currents(&self) -> (i128, i128)
        requires { IsHeld self.now }
        ensures value { result ≡ (self.now.waves.from_history, self.now.waves.to_history) }
        ensures from_bound { unsigned_abs result.0 ≤ 10 ^ 21 }
        ensures to_bound { unsigned_abs result.1 ≤ 10 ^ 21 }
    {
        (self.waves.from_history, self.waves.to_history)
    }

    /// The currents in the last record at `from` and at `to`, in nA.
    pub(crate) fn end_currents(&self) -> (i64, i64)
        requires { IsHeld self.now }
        ensures value { result ≡ (self.now.from_current, self.now.to_current) }
        ensures from_bound { unsigned_abs result.0 ≤ LARGEST_VALUE }
        ensures to_bound { unsigned_abs result.1 ≤ LARGEST_VALUE }
    {
        (self.from_current, self.to_current)
    }

    /// Makes the numbers of a step the newest ones.
    #[inline(always)]
    pub(crate) fn push(&mut self, state: &LineState, word: u64)
        requires held { IsHeld self.old }
        requires from { unsigned_abs state.now.from_current ≤ LARGEST_VALUE }
        requires to { unsigned_abs state.now.to_current ≤ LARGEST_VALUE }
        ensures fits { IsHeld self.new }
        ensures mode { self.new.waves.mode ≡ self.old.waves.mode }
        ensures from { self.new.from_current ≡ state.now.from_current }
        ensures to { self.new.to_current ≡ state.now.to_current }
        ensures waves { (from' to' : List ℤ) → WavesStand self.old.waves from' to'
            → WavesStand self.new.waves (state.now.from_wave ∷ from') (state.now.to_wave ∷ to') }
    {
        self.waves.push(state.from_wave, state.to_wave, word);
        self.from_current = state.from_current;
        self.to_current = state.to_current;
    }
}

/// What the next record keeps of a line at these voltages, where it is in range.
fn next(waves: &Waves, v: i64, w: i64) -> Option<LineState>
    requires { IsWaves waves.now }
    ensures value { result ≡ line_state waves.now.mode (waves.now.from_history, waves.now.to_history) v w }
    ensures from { IfSome result (λ s. unsigned_abs s.from_current ≤ LARGEST_VALUE) }
    ensures to { IfSome result (λ s. unsigned_abs s.to_current ≤ LARGEST_VALUE) }
{
    let (from_current, from_wave) = end(&waves.mode, waves.from_history, v)?;
    let (to_current, to_wave) = end(&waves.mode, waves.to_history, w)?;
    Some(LineState {
        from_current,
        to_current,
        from_wave,
        to_wave,
    })
}
