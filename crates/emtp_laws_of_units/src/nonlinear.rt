//! A pseudo-nonlinear resistor in units: its points in nA over nV. The function does nothing: its clause is proved.

ghost use Rattle.std.specs.Prelude.{◌≡◌, ◌<◌, ℕ, ℤ, List, Some, false, unsigned_abs};
ghost use Rattle.emtp_case.specs.declared.branch.Pseudo.{Pseudo};
ghost use Rattle.emtp_case.specs.declared.branch.PseudoState.{PseudoState};
ghost use Rattle.emtp_laws_of_units.specs.Characteristic.{LiesOnLine};
ghost use Rattle.emtp_pseudo.specs.Pseudos.{newest, next_of, present};
ghost use Rattle.emtp_pseudo.specs.declared.moment.Moment.{Moment};
ghost use Rattle.emtp_pseudo.specs.held.Pseudos.{IsPseudoAt};

use emtp_case::Case;

/// The current of a pseudo-nonlinear resistor is that of the straight line of its segment at its voltage, within 1 nA and half a
/// pS times the voltage from the segment's base; and within the part of this and of the current from the base that half a
/// micro-ohm is of the segment's slope. The segment is that of the record before, one of the branch's characteristic.
pub fn nonlinear_resistor_current_lies_on_its_segment(case: &Case)
    ensures { (b : ℕ) (x : Pseudo) (past : List Moment) (v : ℤ) (new : PseudoState) → IsPseudoAt case.now.parts b x
        → x.reactor ≡ false → unsigned_abs (newest past).state.segment < x.count
        → next_of case.now.parts x past v ≡ Some new
        → LiesOnLine (present case.now.parts x past) v new }
{}
