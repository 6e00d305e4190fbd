//! What is true of finished rows and of faults, whatever matrix they are of. The functions do nothing: their clauses are
//! proved, and a caller has them by a call.

ghost use Rattle.std.specs.Prelude.{◌≡◌, ℤ, List, Err};
ghost use Rattle.emtp_elim.specs.Matrix.{Matrix};
ghost use Rattle.emtp_elim.specs.held.Matrix.{opposites};
ghost use Rattle.emtp_elim.specs.held.Fault.{IsRowFault};
ghost use Rattle.emtp_elim.specs.held.Finished.{FinishedRowsStay};
ghost use Rattle.emtp_elim.specs.Outcome.{outcome};
ghost use Rattle.emtp_elim.specs.held.Outcome.{opposite_end};
ghost use Rattle.emtp_elim.specs.declared.fault.PlainFault.{PlainFault};
ghost use Rattle.emtp_elim.specs.declared.fault.RowFault.{RowFault};

/// Fewer finished rows are finished too, and those of one matrix are those of each other one that begins with the same
/// rows.
pub fn finished_rows_stay()
    ensures { FinishedRowsStay }
{}

/// The least faulty row of a matrix ends each system with it.
pub fn row_fault_ends_systems()
    ensures { (rows : Matrix) (right : List ℤ) (fault : RowFault) → IsRowFault rows fault.row fault.cause
        → outcome rows right ≡ Err (PlainFault.Row fault) }
{}

/// Elimination is odd in the right side: the opposite right sides give the opposite unknowns, to the last digit, and a system
/// that ends in a fault ends in the same one.
pub fn elimination_is_odd()
    ensures { (rows : Matrix) (right : List ℤ) → outcome rows (opposites right) ≡ opposite_end (outcome rows right) }
{}
