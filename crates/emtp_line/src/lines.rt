//! All lines of a case.

ghost use Rattle.std.specs.Prelude.{◌≡◌, ◌^◌, ◌≤◌, ◌<◌, ◌∷◌, [], unsigned_abs, length, slice_get, IfOk};
ghost use Rattle.emtp_case.specs.held.Branch.{phase_of};
ghost use Rattle.emtp_case.specs.held.Range.{IsBetween};
ghost use Rattle.emtp_case.specs.StepRecord.{rest_of};
ghost use Rattle.emtp_case.specs.declared.branch.Line.{Line};
ghost use Rattle.emtp_case.specs.declared.branch.Phase.{Phase};
ghost use Rattle.emtp_fix.specs.declared.limit.TheConstants.{LARGEST_ENTRY, LARGEST_VALUE};
ghost use Rattle.emtp_line.specs.Lines.{trio_of};
ghost use Rattle.emtp_line.specs.held.Lines.{AreLineEnds, ArePhaseEnds, HasWaves, IsLineAt, IsPhaseAt, Moves, StandsFor, TrioMoves};
ghost use Rattle.emtp_line.specs.held.Lines.{line_end_currents, line_history_currents, phase_end_currents, phase_history_currents};
ghost use Rattle.emtp_line.specs.Mode.{mode_of_line};
ghost use Rattle.emtp_line.specs.Phases.{modes_of, mutual_conductance, own_conductance};

use crate::held::HeldLine;
use crate::held_trio::HeldTrio;
use crate::phase_states::PhaseRange;
use crate::rest::{lines_at_rest, trios_at_rest};
use emtp_case::{Branch, Case};
use emtp_fix::{OutOfRange, word_of};
use std::alloc::{AllocError, Global};
use std::marker::Model;

/// The lines of a case: single lines numbered by their place among all branches, three-phase lines by theirs among the
/// trios. It stands for a list of records: of each end it keeps the newest current, and the waves that left it within
/// one travel time. All currents flow from a node into the line.
#[derive(Drop)]
pub struct Lines<'a> {
    case: &'a Case,
    lines: Vec<HeldLine>,
    trios: Vec<HeldTrio>,
    /// The kept word of the time step: it spares the division where a travel time isn't one of whole steps.
    word: u64,
}

impl<'a> Model for Lines<'a> {
    ghost use Rattle.std.specs.Prelude.{vec_capacity};
    ghost use Rattle.emtp_line.specs.held.Lines.{Lining, IsLining, capacities_of};

    ghost Value = { Lining };

    ghost use Rattle.std.specs.Coded.{codes};

    ghost coded = { Prim.hlevel codes };

    ghost view = { λ s. record {
      case = s.case.now.parts;
      lines = s.lines.items;
      trios = s.trios.items;
      capacities = capacities_of (vec_capacity s.lines) (vec_capacity s.trios) s.lines.items s.trios.items;
    } };

    ghost invariant = { λ s. IsLining s.case.now.parts s.lines.items s.trios.items };
}

impl<'a> Lines<'a> {
    /// The lines of record 0: all of their numbers are 0. All memory is taken here.
    pub fn open(alloc: Global, case: &'a Case) -> Result<Lines<'a>, AllocError>
        ensures case { IfOk result (λ s. s.case ≡ case.now.parts) }
        ensures stands { IfOk result (λ s. StandsFor s (rest_of case.now.parts ∷ [])) }
    {
        let lines = lines_at_rest(alloc, case)?;
        let trios = trios_at_rest(alloc, case)?;
        Ok(Lines {
            case,
            lines,
            trios,
            word: word_of(case.parts.run.dt as i128),
        })
    }

    /// The conductance of a line or a phase at each end, in pS; it is the same in all steps.
    pub fn conductance(&self, branch: usize) -> i64
        requires { HasWaves (slice_get self.now.case.branches branch) }
        ensures bound { IsBetween 0 LARGEST_ENTRY result }
        ensures line { (x : Line) → IsLineAt self.now.case branch x → result ≡ (mode_of_line self.now.case.run.dt x).conductance }
        ensures phase { (x : Phase) → IsPhaseAt self.now.case branch x
            → result ≡ own_conductance (modes_of self.now.case.run.dt (trio_of self.now.case x.trio)) }
    {
        match phase_of(&self.case.parts.branches.as_slice()[branch]) {
            Some((trio, _)) => self.trios[trio].own,
            None => self.lines[branch].waves.mode.conductance,
        }
    }

    /// The conductance from one phase to another of a three-phase line at each end, in pS; it is the same in all steps.
    pub fn mutual(&self, trio: usize) -> i64
        requires { trio < length self.now.case.trios }
        ensures bound { unsigned_abs result ≤ LARGEST_ENTRY }
        ensures value { result ≡ mutual_conductance (modes_of self.now.case.run.dt (trio_of self.now.case trio)) }
    {
        self.trios[trio].coupling
    }

    /// The history currents of a line or a phase in the next step at `from` and at `to`, in nA: to 10^21 in magnitude.
    /// They flow from the node into the line.
    pub fn history_currents(&self, branch: usize) -> (i128, i128)
        requires { HasWaves (slice_get self.now.case.branches branch) }
        ensures from_bound { unsigned_abs result.0 ≤ 10 ^ 21 }
        ensures to_bound { unsigned_abs result.1 ≤ 10 ^ 21 }
        ensures line { AreLineEnds self.now branch (line_history_currents self.now.case) result }
        ensures phase { ArePhaseEnds self.now branch (phase_history_currents self.now.case) result }
    {
        match phase_of(&self.case.parts.branches.as_slice()[branch]) {
            Some((trio, phase)) => self.trios[trio].history_currents(phase),
            None => self.lines[branch].history_currents(),
        }
    }

    /// Takes the voltages `v` and `w` in nV of a single line's ends `from` and `to`, moves the line by one step and
    /// answers its branch current in nA, which is that at `from`. Where a number that is kept exceeds 10^18 it is out of
    /// range. It takes no memory: the lists of the lines and the rings of the waves keep their capacities.
    pub fn accept(&mut self, branch: usize, v: i64, w: i64) -> Result<i64, OutOfRange>
        requires { (x : Line) × IsLineAt self.old.case branch x }
        ensures { Moves self.old self.new branch v w result }
    {
        self.lines[branch].accept(v, w, self.word)
    }

    /// The same for a three-phase line, with the voltages of its three phases. It answers the three branch currents, or
    /// the first phase with a number out of range.
    pub fn accept_three(
        &mut self,
        trio: usize,
        v: [i64; 3],
        w: [i64; 3],
    ) -> Result<[i64; 3], PhaseRange>
        requires { trio < length self.old.case.trios }
        ensures { TrioMoves self.old self.new trio v w result }
    {
        self.trios[trio].accept(&v, &w, self.word)
    }

    /// The currents into a line or a phase in the last record at `from` and at `to`, in nA: to 10^18 in magnitude.
    pub fn end_currents(&self, branch: usize) -> (i64, i64)
        requires { HasWaves (slice_get self.now.case.branches branch) }
        ensures from_bound { unsigned_abs result.0 ≤ LARGEST_VALUE }
        ensures to_bound { unsigned_abs result.1 ≤ LARGEST_VALUE }
        ensures line { AreLineEnds self.now branch line_end_currents result }
        ensures phase { ArePhaseEnds self.now branch phase_end_currents result }
    {
        match phase_of(&self.case.parts.branches.as_slice()[branch]) {
            Some((trio, phase)) => self.trios[trio].end_currents(phase),
            None => self.lines[branch].end_currents(),
        }
    }
}

/// The three-phase line and the number of a phase.
fn phase_of(branch: &Branch) -> Option<(usize, usize)>
    ensures { result ≡ phase_of branch.now }
{
    match branch {
        Branch::Phase(x) => Some((x.trio as usize, x.phase as usize)),
        Branch::Lumped(_) | Branch::Line(_) | Branch::Pseudo(_) => None,
    }
}
