//! What is true of lines in the field's own words. The functions do nothing: their clauses are proved.

ghost use Rattle.std.specs.Prelude.{◌≡◌, ◌∷◌, ◌≤◌, ◌+ℤ◌, ◌-ℤ◌, ◌*ℤ◌, neg_ℤ, unsigned_abs, pos, Some, List, ℕ, ℤ};
ghost use Rattle.emtp_case.specs.held.Range.{IsBetween};
ghost use Rattle.emtp_case.specs.StepRecord.{no_line};
ghost use Rattle.emtp_case.specs.declared.branch.LineState.{LineState};
ghost use Rattle.emtp_fix.specs.Rounding.{near};
ghost use Rattle.emtp_fix.specs.declared.limit.TheConstants.{LARGEST_IMPEDANCE, LEAST_IMPEDANCE, PICO};
ghost use Rattle.emtp_line.specs.Laws.{Cancel, IsAtRest, IsLossless, MeetAtTravelTime, alike, steps_before};
ghost use Rattle.emtp_line.specs.Line.{line_histories, next_state};
ghost use Rattle.emtp_line.specs.Mode.{mode_of};
ghost use Rattle.emtp_line.specs.Phases.{Modes, mutual_conductance, of_phase, own_conductance, phase_current, phase_end, phase_wave, zero_wave};
ghost use Rattle.emtp_line.specs.Wave.{current_of, wave_of};

use crate::mode::Mode;

/// A line at rest with no voltage at its ends stays at rest.
pub fn rest_stays(mode: &Mode)
    ensures next { (past : List LineState) → IsAtRest past → next_state mode.now past (pos 0) (pos 0) ≡ Some no_line }
    ensures stays { (past : List LineState) → IsAtRest past → IsAtRest (no_line ∷ past) }
{}

/// A line without resistance gives back nothing of an end's own wave, and all of the other end's arrives.
pub fn without_loss(dt: i64, zc: i64, delay: i64)
    requires { IsBetween LEAST_IMPEDANCE LARGEST_IMPEDANCE zc }
    ensures { IsLossless (mode_of dt zc (pos 0) delay) }
{}

/// On a line without loss, with a travel time of whole steps, what leaves one end arrives at the other after exactly
/// that many steps: where v was the voltage of the end `from` then, the history current of the end `to` is -(g*v + i) of
/// that step. The other way round it holds too.
pub fn arrives_whole(mode: &Mode)
    requires lossless { IsLossless mode.now }
    requires whole { mode.now.rest ≡ pos 0 }
    ensures to { (past : List LineState) (v : ℤ)
        → (steps_before mode.now.steps past).from_wave ≡ wave_of mode.now v (steps_before mode.now.steps past).from_current
        → (line_histories mode.now past).1
        ≡ neg_ℤ (near (mode.now.conductance *ℤ v) PICO +ℤ (steps_before mode.now.steps past).from_current) }
    ensures from { (past : List LineState) (v : ℤ)
        → (steps_before mode.now.steps past).to_wave ≡ wave_of mode.now v (steps_before mode.now.steps past).to_current
        → (line_histories mode.now past).0
        ≡ neg_ℤ (near (mode.now.conductance *ℤ v) PICO +ℤ (steps_before mode.now.steps past).to_current) }
{}

/// And not before: the history currents of a step depend on the records one travel time before it alone, whatever
/// happened since.
pub fn not_before(mode: &Mode)
    ensures { (past other : List LineState) → MeetAtTravelTime mode.now past other
        → line_histories mode.now past ≡ line_histories mode.now other }
{}

/// Where both modes are one, a phase has the conductance of a single line and none to the others, and its current at a
/// voltage and a history current is that of a single line, to the last digit.
pub fn equal_modes_part(mode: &Mode)
    ensures own { own_conductance (alike mode.now) ≡ mode.now.conductance }
    ensures coupling { mutual_conductance (alike mode.now) ≡ pos 0 }
    ensures current { (histories v : List ℤ) (p : ℕ)
        → phase_current (alike mode.now) histories v p ≡ current_of mode.now (of_phase histories p) (of_phase v p) }
{}

/// Where both modes are one, the two waves of a phase add up to the wave of a single line, but for one unit of
/// rounding in each of the two products.
pub fn equal_modes_add_up(mode: &Mode)
    ensures { (v i : List ℤ) (p : ℕ)
        → unsigned_abs ((zero_wave (alike mode.now) v i +ℤ phase_wave (alike mode.now) v i p)
        -ℤ wave_of mode.now (of_phase v p) (of_phase i p)) ≤ 2 }
{}

/// Where the voltages of an end cancel, and its history currents do, no wave of the zero sequence leaves it, to the last
/// digit: the roundings of the three currents are too small to make one. (The waves of the positive sequence cancel but
/// for their roundings, so over many steps the zero sequence is near to rest, not at rest.)
pub fn balanced_end()
    ensures { (m : Modes) (histories v : List ℤ) → Cancel v → Cancel histories → (phase_end m histories v).zero_wave ≡ pos 0 }
{}
