//! What is held of a three-phase line between two steps.

ghost use Rattle.std.specs.Prelude.{◌≡◌, ◌^◌, ◌<◌, ◌≤◌, pos, ◌+ℤ◌, ◌-ℤ◌, ◌*ℤ◌, unsigned_abs, List, ℕ, Err, IfOk, IfErr, OnErr};
ghost use Rattle.emtp_case.specs.held.Branch.{IsTrio};
ghost use Rattle.emtp_case.specs.held.Range.{IsBetween};
ghost use Rattle.emtp_case.specs.held.RunData.{IsRun};
ghost use Rattle.emtp_case.specs.declared.branch.PhaseState.{PhaseState};
ghost use Rattle.emtp_fix.specs.Rounding.{near};
ghost use Rattle.emtp_fix.specs.declared.limit.TheConstants.{LARGEST_ENTRY, LARGEST_VALUE};
ghost use Rattle.emtp_line.specs.held.Held.{IsHeldTrio, TrioStands, TrioMoved, held_at_rest, held_from_histories, held_to_histories, held_modes, phase_held, trio_at_rest, with_states};
ghost use Rattle.emtp_line.specs.held.Mode.{IsMode};
ghost use Rattle.emtp_line.specs.held.PhaseEnd.{AreWithin, AreSmall};
ghost use Rattle.emtp_line.specs.Phases.{mode_of_trio, phase_end};
ghost use Rattle.emtp_line.specs.held.Phases.{next_phases, three_states};

use crate::held::HeldLine;
use crate::mode::Mode;
use crate::phase_end::phase_end;
use crate::phase_states::{PhaseRange, three_states};
use crate::waves::Waves;
use emtp_case::{LineState, PhaseState, RunData, Trio};
use emtp_fix::near;
use std::alloc::{AllocError, Global};

/// A three-phase line between two steps. The waves of the zero sequence leave an end once for all three phases, those
/// of the positive sequence once for each.
#[derive(Drop)]
pub(crate) struct HeldTrio {
    /// The conductance of a phase, in pS: from 0 to 10^17.
    pub(crate) own: i64,
    /// The conductance from one phase to another, in pS: to 10^17 in magnitude.
    pub(crate) coupling: i64,
    /// The waves of the zero sequence.
    pub(crate) zero_sequence: Waves,
    /// Phase 0.
    pub(crate) first: HeldLine,
    /// Phase 1.
    pub(crate) second: HeldLine,
    /// Phase 2.
    pub(crate) third: HeldLine,
}

impl HeldTrio {
    /// The line of record 0.
    pub(crate) fn at_rest(alloc: Global, run: &RunData, trio: &Trio) -> Result<HeldTrio, AllocError>
        requires run { IsRun run.now }
        requires trio { IsTrio run.now trio.now }
        ensures { IfOk result (λ x. x ≡ trio_at_rest run.now.dt trio.now) }
    {
        let zero = mode_of_trio(run, trio, 0);
        let positive = mode_of_trio(run, trio, 1);
        let zero_sequence = Waves::at_rest(alloc, zero)?;
        let (first, second, third) = phases_at_rest(alloc, positive)?;
        Ok(HeldTrio {
            own: own_conductance(zero.conductance, positive.conductance),
            coupling: mutual_conductance(zero.conductance, positive.conductance),
            zero_sequence,
            first,
            second,
            third,
        })
    }

    /// Phase 0, 1 or 2.
    pub(crate) fn phase(&self, phase: usize) -> &HeldLine
        requires { phase < 3 }
        ensures { result.now ≡ phase_held self.now phase }
    {
        if phase == 0 {
            &self.first
        } else if phase == 1 {
            &self.second
        } else {
            &self.third
        }
    }

    /// The history currents of a phase in the next step at `from` and at `to`, in nA.
    pub(crate) fn history_currents(&self, phase: usize) -> (i128, i128)
        requires held { IsHeldTrio self.now }
        requires phase { phase < 3 }
        ensures value { result
            ≡ (
              self.now.zero_sequence.from_history +ℤ (phase_held self.now phase).waves.from_history,
              self.now.zero_sequence.to_history +ℤ (phase_held self.now phase).waves.to_history,
            ) }
        ensures from_bound { unsigned_abs result.0 ≤ 10 ^ 21 }
        ensures to_bound { unsigned_abs result.1 ≤ 10 ^ 21 }
    {
        let (from, to) = self.phase(phase).history_currents();
        (
            self.zero_sequence.from_history + from,
            self.zero_sequence.to_history + to,
        )
    }

    /// The currents of a phase in the last record at `from` and at `to`, in nA.
    pub(crate) fn end_currents(&self, phase: usize) -> (i64, i64)
        requires held { IsHeldTrio self.now }
        requires phase { phase < 3 }
        ensures value { result ≡ ((phase_held self.now phase).from_current, (phase_held self.now phase).to_current) }
        ensures from_bound { unsigned_abs result.0 ≤ LARGEST_VALUE }
        ensures to_bound { unsigned_abs result.1 ≤ LARGEST_VALUE }
    {
        self.phase(phase).end_currents()
    }

    /// Takes the voltages of all ends in nV, moves the line by one step and answers the branch currents in nA. `word` is
    /// the kept word of the time step.
    pub(crate) fn accept(
        &mut self,
        v: &[i64; 3],
        w: &[i64; 3],
        word: u64,
    ) -> Result<[i64; 3], PhaseRange>
        requires { IsHeldTrio self.old }
        ensures fits { IsHeldTrio self.new }
        ensures modes { held_modes self.new ≡ held_modes self.old }
        ensures moved { (past : ℕ → List PhaseState) → TrioStands self.old past
            → IfOk result (TrioMoved self.new past (next_phases (held_modes self.old) past v.now w.now)) }
        ensures out { (past : ℕ → List PhaseState) → TrioStands self.old past
            → IfErr result (λ fault. next_phases (held_modes self.old) past v.now w.now ≡ Err fault) }
        ensures same { OnErr result (self.new ≡ self.old) }
        ensures phase { IfErr result (λ fault. fault.phase < 3) }
    {
        match self.next(v, w) {
            Ok(states) => {
                self.push(&states, word);
                Ok([
                    states[0].from_current,
                    states[1].from_current,
                    states[2].from_current,
                ])
            }
            Err(fault) => Err(fault),
        }
    }

    /// What the next record keeps of the phases.
    fn next(&self, v: &[i64; 3], w: &[i64; 3]) -> Result<[PhaseState; 3], PhaseRange>
        requires { IsHeldTrio self.now }
        ensures value { result
            ≡ three_states
            (phase_end (held_modes self.now) (held_from_histories self.now) v.now)
            (phase_end (held_modes self.now) (held_to_histories self.now) w.now) }
        ensures small { IfOk result AreSmall }
        ensures phase { IfErr result (λ fault. fault.phase < 3) }
    {
        let from = phase_end(self, &from_histories(self), v);
        let to = phase_end(self, &to_histories(self), w);
        three_states(&from, &to)
    }

    /// Makes the numbers of a step the newest ones.
    fn push(&mut self, states: &[PhaseState; 3], word: u64)
        requires held { IsHeldTrio self.old }
        requires small { AreSmall states.now }
        ensures fits { IsHeldTrio self.new }
        ensures modes { held_modes self.new ≡ held_modes self.old }
        ensures stands { (past : ℕ → List PhaseState) → TrioStands self.old past
            → TrioStands self.new (with_states states.now past) }
    {
        self.zero_sequence
            .push(states[0].from_zero_wave, states[0].to_zero_wave, word);
        self.first.push(&positive_part(&states[0]), word);
        self.second.push(&positive_part(&states[1]), word);
        self.third.push(&positive_part(&states[2]), word);
    }
}

/// The phases of record 0, which have one mode. Apart, so that few ways out have to drop what was opened: a drop in
/// place is proved list by list.
fn phases_at_rest(alloc: Global, mode: Mode) -> Result<(HeldLine, HeldLine, HeldLine), AllocError>
    requires { IsMode mode }
    ensures { IfOk result (λ x. x ≡ (held_at_rest mode, held_at_rest mode, held_at_rest mode)) }
{
    let first = HeldLine::at_rest(alloc, mode)?;
    let second = HeldLine::at_rest(alloc, mode)?;
    let third = HeldLine::at_rest(alloc, mode)?;
    Ok((first, second, third))
}

/// The currents of a phase, and its waves of the positive sequence.
fn positive_part(state: &PhaseState) -> LineState
    ensures { result ≡ record {
      from_current = state.now.from_current;
      to_current = state.now.to_current;
      from_wave = state.now.from_wave;
      to_wave = state.now.to_wave;
    } }
{
    LineState {
        from_current: state.from_current,
        to_current: state.to_current,
        from_wave: state.from_wave,
        to_wave: state.to_wave,
    }
}

/// The history currents of the phases in the next step at `from`, in nA.
fn from_histories(trio: &HeldTrio) -> [i128; 3]
    requires { IsHeldTrio trio.now }
    ensures value { result ≡ held_from_histories trio.now }
    ensures within { AreWithin (10 ^ 21) result }
{
    let zero = trio.zero_sequence.from_history;
    let first = zero + trio.first.waves.from_history;
    let second = zero + trio.second.waves.from_history;
    let third = zero + trio.third.waves.from_history;
    [first, second, third]
}

/// Those at `to`.
fn to_histories(trio: &HeldTrio) -> [i128; 3]
    requires { IsHeldTrio trio.now }
    ensures value { result ≡ held_to_histories trio.now }
    ensures within { AreWithin (10 ^ 21) result }
{
    let zero = trio.zero_sequence.to_history;
    let first = zero + trio.first.waves.to_history;
    let second = zero + trio.second.waves.to_history;
    let third = zero + trio.third.waves.to_history;
    [first, second, third]
}

/// Mode 0 is the zero sequence, mode 1 the positive sequence.
fn mode_of_trio(run: &RunData, trio: &Trio, mode: usize) -> Mode
    requires run { IsRun run.now }
    requires trio { IsTrio run.now trio.now }
    requires mode { mode < 2 }
    ensures value { result ≡ mode_of_trio run.now.dt trio.now mode }
    ensures fits { IsMode result }
{
    Mode::of(run.dt, trio.zc[mode], trio.r[mode], trio.delay[mode])
}

/// The conductance of a phase, from those of the two modes.
fn own_conductance(zero: i64, positive: i64) -> i64
    requires zero { IsBetween 0 LARGEST_ENTRY zero }
    requires positive { IsBetween 0 LARGEST_ENTRY positive }
    ensures value { result ≡ near (zero +ℤ pos 2 *ℤ positive) (pos 3) }
    ensures range { IsBetween 0 LARGEST_ENTRY result }
{
    near((zero + 2 * positive) as i128, 3) as i64
}

/// The conductance from one phase to another.
fn mutual_conductance(zero: i64, positive: i64) -> i64
    requires zero { IsBetween 0 LARGEST_ENTRY zero }
    requires positive { IsBetween 0 LARGEST_ENTRY positive }
    ensures value { result ≡ near (zero -ℤ positive) (pos 3) }
    ensures small { unsigned_abs result ≤ LARGEST_ENTRY }
{
    near((zero - positive) as i128, 3) as i64
}
