//! A pseudo-nonlinear reactor in units: flux in pWb, voltage in nV, the time step in ps. The functions do nothing: their clauses
//! are proved.

ghost use Rattle.std.specs.Prelude.{◌≡◌, ◌<◌, ℕ, ℤ, List, Some, true, unsigned_abs};
ghost use Rattle.emtp_case.specs.declared.branch.Pseudo.{Pseudo};
ghost use Rattle.emtp_case.specs.declared.branch.PseudoState.{PseudoState};
ghost use Rattle.emtp_laws_of_units.specs.Reactor.{LiesOnSegment, LinksFlux};
ghost use Rattle.emtp_pseudo.specs.Pseudos.{newest, next_of, present};
ghost use Rattle.emtp_pseudo.specs.declared.moment.Moment.{Moment};
ghost use Rattle.emtp_pseudo.specs.held.Pseudos.{IsPseudoAt};

use emtp_case::Case;

/// A step of dt turns the mean of the voltages at its ends into a rise of the flux: flux - flux' = dt (v + v') / 2, within half a
/// pWb.
pub fn reactor_flux_follows_the_trapezoidal_rule(case: &Case)
    ensures { (x : Pseudo) (past : List Moment) (v : ℤ) (new : PseudoState) → x.reactor ≡ true
        → next_of case.now.parts x past v ≡ Some new → LinksFlux case.now.parts.run.dt (newest past) v new }
{}

/// The current of a reactor is that of the straight line of its segment at the flux that the step ends with, within 1.5 nA, half a
/// pS times the sum of the voltages at both ends of the step, and the part of the line that belongs to half a pWb. The segment is
/// that of the record before, one of the branch's characteristic.
pub fn reactor_current_lies_on_its_segment(case: &Case)
    ensures { (b : ℕ) (x : Pseudo) (past : List Moment) (v : ℤ) (new : PseudoState) → IsPseudoAt case.now.parts b x
        → x.reactor ≡ true → unsigned_abs (newest past).state.segment < x.count
        → next_of case.now.parts x past v ≡ Some new
        → LiesOnSegment (present case.now.parts x past) (newest past) v new }
{}
