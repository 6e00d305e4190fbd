//! What is true of the branches of a network. The functions do nothing: their clauses are proved.

ghost use Rattle.std.specs.Prelude.{◌≡◌, ◌+◌, ◌<◌, ℕ, ℤ, pos, List, Some, length, map, option_map, slice_get};
ghost use Rattle.emtp_case.specs.StepRecord.{StepRecord, latest, no_lumped};
ghost use Rattle.emtp_case.specs.Sums.{sum_below};
ghost use Rattle.emtp_case.specs.declared.branch.Branch.TheVariants.{Line as OfLine, Lumped as OfLumped};
ghost use Rattle.emtp_case.specs.declared.branch.Line.{Line};
ghost use Rattle.emtp_case.specs.declared.branch.LineState.{LineState};
ghost use Rattle.emtp_case.specs.declared.branch.Lumped.{Lumped};
ghost use Rattle.emtp_line.specs.Line.{from_waves, line_histories, next_state, to_waves};
ghost use Rattle.emtp_line.specs.Lines.{trio_of};
ghost use Rattle.emtp_line.specs.Mode.{mode_of_line};
ghost use Rattle.emtp_line.specs.Phases.{Modes, modes_of};
ghost use Rattle.emtp_case.specs.declared.branch.LumpedState.{LumpedState};
ghost use Rattle.emtp_lumped.specs.Companion.{companion_of};
ghost use Rattle.emtp_lumped.specs.Lumps.{newest, next_of};
ghost use Rattle.emtp_machine.specs.Laws.{records_upto};
ghost use Rattle.emtp_net.specs.System.{conductances, couplings};
ghost use Rattle.emtp_rows.specs.Nodal.{current_entry};
ghost use Rattle.emtp_laws.specs.Branches.{AddsUpDrops, AreHistoriesWithin, AreWavesWithin, DoesNotAmplify, HasItsHistoryVoltage, HasTwoPolesAlone, IsResistorAt, TakesPower, reversed_line, reversed_series, voltage_across};
ghost use Rattle.emtp_laws.specs.Mirror.{mirrored_lumped};
ghost use Rattle.emtp_laws.specs.Phases.{AnswersBy, AnswersReversed, cycled, exchanged};

use emtp_case::Case;

/// A resistor takes power and never gives it: in no record of a run is its voltage times its current below 0.
pub fn resistor_takes_power(case: &Case)
    ensures { (n b : ℕ) (x : Lumped) → IsResistorAt case.now.parts b x → TakesPower b x (latest (records_upto case.now.parts n)) }
{}

/// The conductance between two nodes is the same seen from either, in each step of any network, three-phase lines among it.
pub fn conductances_are_symmetric(case: &Case)
    ensures { (H : List StepRecord) (n m : ℕ)
        → current_entry case.now.parts (conductances case.now.parts H) (couplings case.now.parts) n m
        ≡ current_entry case.now.parts (conductances case.now.parts H) (couplings case.now.parts) m n }
{}

/// Of series and pseudo-nonlinear branches alone the conductances at a node add up to 0 over all nodes with ground: a voltage
/// that all nodes have against a point outside drives no current.
pub fn conductances_add_up_to_zero(case: &Case)
    requires plain { HasTwoPolesAlone case.now.parts }
    ensures { (H : List StepRecord) (n : ℕ)
        → sum_below (length case.now.parts.nodes + 1)
        (λ m. current_entry case.now.parts (conductances case.now.parts H) (couplings case.now.parts) n
        m) ≡ pos 0 }
{}

/// A line doesn't amplify: the history current of an end is at most the greatest past wave of both ends, and 1 nA of rounding.
pub fn line_does_not_amplify(case: &Case)
    ensures { (b : ℕ) (x : Line) (past : List LineState) (limit : ℕ)
        → slice_get case.now.parts.branches b ≡ Some (OfLine x) → AreWavesWithin limit (from_waves past)
        → AreWavesWithin limit (to_waves past)
        → AreHistoriesWithin (limit + 1) (line_histories (mode_of_line case.now.parts.run.dt x) past) }
{}

/// Neither does a transposed three-phase line: the history current of a phase at an end is at most the greatest past wave of the
/// zero sequence and the greatest one of the phase, of both ends, and 2 nA of rounding.
pub fn three_phase_line_does_not_amplify(case: &Case)
    ensures { (t : ℕ) → t < length case.now.parts.trios
        → DoesNotAmplify (modes_of case.now.parts.run.dt (trio_of case.now.parts t)) }
{}

/// A line that is put in the other way round answers alike: with the voltages of its ends exchanged, each end has what the other
/// one had, to the last digit.
pub fn reversed_line_answers_alike(case: &Case)
    ensures { (x : Line) (past : List LineState) (v w : ℤ)
        → next_state (mode_of_line case.now.parts.run.dt x) (map reversed_line past) w v
        ≡ option_map reversed_line (next_state (mode_of_line case.now.parts.run.dt x) past v w) }
{}

/// So does a transposed three-phase line: with the voltages of its ends exchanged, each phase has at each end what it had at the
/// other, or the same phase is the first out of range.
pub fn reversed_three_phase_line_answers_alike()
    ensures { (m : Modes) → AnswersReversed m }
{}

/// A transposed three-phase line whose phases have other numbers answers by these numbers, to the last digit: each phase has the
/// currents and waves that it had, and the wave of the zero sequence is the same.
pub fn renumbered_phases_answer_renumbered()
    ensures cycled { (m : Modes) → AnswersBy cycled m }
    ensures exchanged { (m : Modes) → AnswersBy exchanged m }
{}

/// A series branch that is put in the other way round has the opposite current and the opposite voltages inside, to the last
/// digit, whatever the voltages of its nodes are.
pub fn reversed_series_branch_answers_opposite(case: &Case)
    ensures { (x : Lumped) (past : List LumpedState) (voltages : List ℤ)
        → next_of case.now.parts (reversed_series x) (map mirrored_lumped past)
        (voltage_across voltages (reversed_series x))
        ≡ option_map mirrored_lumped (next_of case.now.parts x past (voltage_across voltages x)) }
{}

/// Along a series branch the voltage is the sum of its drops R i + vL + vC, within the rounding of a step: 1.5 nV, 1 nA times the
/// impedance Z of the branch, and the part Z / 2e12 of the magnitudes of the voltage and of the last history voltage, Z in
/// ohm. Each record keeps the history voltage that the next one's sum asks for, the first one too.
pub fn series_voltage_is_the_sum_of_its_drops(case: &Case)
    ensures rest { (x : Lumped) → HasItsHistoryVoltage (companion_of case.now.parts.run.dt x) no_lumped }
    ensures step { (b : ℕ) (x : Lumped) (past : List LumpedState) (v : ℤ) (new : LumpedState)
        → slice_get case.now.parts.branches b ≡ Some (OfLumped x)
        → HasItsHistoryVoltage (companion_of case.now.parts.run.dt x) (newest past)
        → next_of case.now.parts x past v ≡ Some new
        → AddsUpDrops case.now.parts.run.dt x (newest past) v new
        × HasItsHistoryVoltage (companion_of case.now.parts.run.dt x) new }
{}
