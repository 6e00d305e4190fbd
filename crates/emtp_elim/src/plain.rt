// A whole system, eliminated from its first row.
ghost use Rattle.std.specs.Prelude.{◌≡◌, length, OnOk, IfOk, IfErr, Ok};
ghost use Rattle.emtp_fix.specs.declared.limit.TheConstants.{LARGEST_VALUE};
ghost use Rattle.emtp_elim.specs.held.Matrix.{AreWithin};
ghost use Rattle.emtp_elim.specs.held.Finished.{AreAllFinished, IsMatrixFault};
ghost use Rattle.emtp_elim.specs.Outcome.{outcome};
ghost use Rattle.emtp_elim.specs.held.Outcome.{EndsInFault, HasRow};

use crate::fault::{PlainFault, RowFault};
use crate::rows::Rows;
use crate::sparse::SparseRows;
use std::alloc::Global;

/// The finished rows of a matrix.
fn factor<R: Rows>(alloc: Global, rows: &R) -> Result<SparseRows, PlainFault>
    ensures size { IfOk result (λ done. done.size ≡ length (R.matrix rows.now)) }
    ensures finished { IfOk result (λ done. AreAllFinished (R.matrix rows.now) done.rows) }
    ensures fault { IfErr result (IsMatrixFault (R.matrix rows.now)) }
{
    let size = rows.size();
    let mut done = SparseRows::open(alloc, size)?;
    let mut buffer = vec![in alloc; 0i128; size]?;
    let work = buffer.as_mut_slice();
    for i in 0..size {
        rows.row(i, work);
        if let Err(cause) = done.add(work) {
            return Err(PlainFault::Row(RowFault { row: i, cause }));
        }
    }
    Ok(done)
}

/// Solves a system of equations by elimination from the first row on, without exchange of rows, in whole numbers.
///
/// The matrix is in units of 1e-12, right sides and unknowns in units of 1e-9. This is Gauss's elimination with this
/// project's own rounding: each product and quotient is rounded to the nearest whole number. The fault is that of the
/// least faulty row of the matrix; then that of the least right side, or else of the last unknown, that exceeds 1e18.
pub fn eliminate_plain<R: Rows>(
    alloc: Global,
    rows: &R,
    rhs: &[i128],
    x: &mut [i64],
) -> Result<(), PlainFault>
    requires rhs { length rhs.now ≡ length (R.matrix rows.now) }
    requires x { length x.old ≡ length (R.matrix rows.now) }
    ensures solved { OnOk result (outcome (R.matrix rows.now) rhs.now ≡ Ok x.new) }
    ensures within { OnOk result (AreWithin LARGEST_VALUE x.new) }
    ensures fault { IfErr result (EndsInFault (outcome (R.matrix rows.now) rhs.now)) }
    ensures row { IfErr result (HasRow (length (R.matrix rows.now))) }
{
    let done = factor(alloc, rows)?;
    let mut buffer = Vec::from_slice(alloc, rhs)?;
    match done.solve(buffer.as_mut_slice(), x) {
        Ok(()) => Ok(()),
        Err(fault) => Err(PlainFault::Solve(fault)),
    }
}
