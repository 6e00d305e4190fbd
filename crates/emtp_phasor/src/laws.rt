//! What an engineer may count on in steady states and scans. The functions do nothing: their clauses are proved, and a caller
//! has them by a call.

ghost use Rattle.std.specs.Prelude.{◌≡◌, ◌<◌, ◌+ℤ◌, ◌-ℤ◌, ◌*ℤ◌, ℕ, ℤ, Bool, false, true, ◌∷◌, List, Some, Ok, length, slice_get, IfErr, IfOk};
ghost use Rattle.emtp_fix.specs.Rounding.{near};
ghost use Rattle.emtp_fix.specs.declared.limit.TheConstants.{PICO};
ghost use Rattle.emtp_admittance.specs.Impedance.{across_ends};
ghost use Rattle.emtp_admittance.specs.Probes.{judged_probe};
ghost use Rattle.emtp_admittance.specs.declared.admittance.Admittance.{Admittance};
ghost use Rattle.emtp_admittance.specs.declared.admittance.TwoPort.{TwoPort};
ghost use Rattle.emtp_admittance.specs.declared.probe.Probe.{Probe};
ghost use Rattle.emtp_case.specs.declared.branch.Lumped.{Lumped};
ghost use Rattle.emtp_case.specs.declared.case.Parts.{Parts};
ghost use Rattle.emtp_phasor.specs.Balance.{IsBalanced, NamesNode};
ghost use Rattle.emtp_phasor.specs.ComplexEntries.{IsComplexAt};
ghost use Rattle.emtp_phasor.specs.Doubled.{Doubled, admittance_entry};
ghost use Rattle.emtp_phasor.specs.Scanning.{frequency_at, frequency_count, impedance_seen, line_at, scan_lines};
ghost use Rattle.emtp_phasor.specs.SingleBranch.{IsBranchToGround, IsSeen, reactance_at};
ghost use Rattle.emtp_phasor.specs.held.Solving.{IsSolved};
ghost use Rattle.emtp_phasor.specs.Steady.{entering, steady};
ghost use Rattle.emtp_phasor.specs.Volts.{nothing, volt_at};
ghost use Rattle.emtp_phasor.specs.declared.line.ScanAnswer.TheVariants.{Impedance};
ghost use Rattle.emtp_phasor.specs.declared.phasor.Phasor.{Phasor};
ghost use Rattle.emtp_phasor.specs.declared.steady_state.Phasors.{Phasors};

use emtp_case::Case;

/// The doubled matrix is one of complex numbers: wherever a row of the network meets a column, it has the block of g and -b
/// over b and g.
pub fn matrix_is_complex()
    ensures { (s : Doubled) (r c : ℕ) → r < length s.case.nodes → c < length s.case.nodes → IsComplexAt s r c }
{}

/// The admittance between two nodes is the same from either of them, part by part.
pub fn admittances_are_symmetric()
    ensures { (case : Parts) (ports : List TwoPort) (row column : Bool) (n m : ℕ)
        → admittance_entry case ports row column n m ≡ admittance_entry case ports row column m n }
{}

/// The current of a series branch of the admittance G + jB goes by the difference a + jb of the voltages at its ends alone:
/// it is (G a - B b) + j (B a + G b), each part rounded once.
pub fn series_current_goes_by_the_difference()
    ensures real { (y : Admittance) (v u : Phasor)
        → entering false (across_ends y) v u
        ≡ near (y.conductance *ℤ (v.re -ℤ u.re) -ℤ y.susceptance *ℤ (v.im -ℤ u.im)) PICO }
    ensures imaginary { (y : Admittance) (v u : Phasor)
        → entering true (across_ends y) v u
        ≡ near (y.susceptance *ℤ (v.re -ℤ u.re) +ℤ y.conductance *ℤ (v.im -ℤ u.im)) PICO }
{}

/// Each line of a scan is that of its frequency alone.
pub fn scan_lines_stand_alone()
    ensures { (case : Parts) (probe : Probe) (first last by : ℤ) (k : ℕ) → k < frequency_count first last by
        → slice_get (scan_lines case probe first last by) k ≡ Some (line_at case probe (frequency_at first by k)) }
{}

/// Where a case has a steady state at a frequency, the line of a scan has the voltage that this state has at the source's
/// node, over the amplitude.
pub fn scan_line_is_the_phasor()
    ensures { (case : Parts) (probe : Probe) (freq : ℤ) (p : Phasors) → IsSolved case (Some freq) p
        → (line_at case probe freq).answer
        ≡ impedance_seen case probe (volt_at (nothing ∷ p.volts.items) probe.node) }
{}

/// The source of a scan that feeds a single series branch to ground, at a node that no closed switch joins with another one, sees
/// R + jX, each part within half a nano-ohm, |R| + |X| times the tolerance and half a nA over the amplitude, and |R| + |X| times
/// half a pS times the magnitudes that it sees and 1 nano-ohm.
pub fn single_branch_is_seen_as_r_and_x()
    ensures { (case : Parts) (probe : Probe) (b : Lumped) (freq re im : ℤ) → judged_probe case ≡ Ok probe
        → IsBranchToGround case b probe.node → (line_at case probe freq).answer ≡ Impedance re im
        → IsSeen b.r (reactance_at freq b) case.run.tolerance probe.amplitude re im }
{}

/// In a steady state the currents that leave each row of Kirchhoff's current law, a node's or that of a group that closed
/// switches join, less those that its current sources bring, add up to 0 within the residual that is printed, in both parts;
/// and this residual is within the tolerance of the case.
pub fn steady_rows_balance()
    ensures { (case : Parts) (freq : ℤ) → IfOk (steady case freq) (IsBalanced case freq) }
{}

/// Where a case has no steady state at a frequency, the end names a node of the case.
pub fn steady_ends_name_a_node(case: &Case)
    ensures { (freq : ℤ) → IfErr (steady case.now.parts freq) (NamesNode case.now.parts) }
{}
