// The kept factor.
ghost use Rattle.emtp_fix.specs.declared.limit.TheConstants.{LARGEST_VALUE};
ghost use Rattle.std.specs.Prelude.{◌≡◌, ◌+◌, ◌*◌, ◌<◌, ◌≤◌, ℤ, List, length, take, [], ◌∷◌, vec_capacity, IfOk, OnOk, IfErr, Ok, Err};
ghost use Rattle.emtp_elim.specs.held.Matrix.{AreWithin};
ghost use Rattle.emtp_elim.specs.held.Fault.{IsRowFault, IsGoodMatrix};
ghost use Rattle.emtp_elim.specs.held.Finished.{AreFinished};
ghost use Rattle.emtp_elim.specs.Outcome.{outcome};
ghost use Rattle.emtp_tail.specs.held.Given.{rows_in};
ghost use Rattle.emtp_elim.specs.declared.fault.PlainFault.{PlainFault};
ghost use Rattle.emtp_tail.specs.Good.{first_change};
ghost use Rattle.emtp_tail.specs.held.Good.{Good, IsFirstChange};
ghost use Rattle.emtp_tail.specs.held.Keeping.{IsKept, IsRedone};

use emtp_elim::{
    RowFault, Rows, SolveFault, SparseRows, eliminate_row, finished_rows_stay,
    row_fault_ends_systems,
};
use emtp_fix::Steps;
use std::alloc::{AllocError, Global};
use std::marker::Model;
use std::sync::ledger::Ledger;

/// The finished rows of the matrix that was given last, as far as it is good.
///
/// `given` has its rows of `size` numbers one after another, in units of 1e-12, of which the first ones are good, and
/// `work` has room for one row.
#[derive(Drop)]
pub struct Kept {
    size: usize,
    given: Vec<i128>,
    work: Vec<i128>,
    done: SparseRows,
}

impl Model for Kept {
    ghost Value = { Good };

    ghost view = { λ k. record {
      size = k.size;
      rows = rows_in k.size (length k.done.rows) k.given.items;
      done = k.done.rows;
      capacities = vec_capacity k.given ∷ vec_capacity k.work ∷ k.done.capacities;
    } };

    ghost invariant = { λ k. IsKept k.size k.given.items k.work.items k.done };
}

/// The first row that differs from the good row of its number, or the number of good rows, where the rows before `from`
/// are the good ones.
fn changed_row<R: Rows>(
    rows: &R,
    given: &[i128],
    good: usize,
    from: usize,
    work: &mut [i128],
) -> usize
    requires given { length given.now ≡ length (R.matrix rows.now) * length (R.matrix rows.now) }
    requires good { good ≤ length (R.matrix rows.now) }
    requires from { from ≤ good }
    requires before { take from (R.matrix rows.now) ≡ take from (rows_in (length (R.matrix rows.now)) good given.now) }
    requires work { length work.old ≡ length (R.matrix rows.now) }
    ensures { IsFirstChange (rows_in (length (R.matrix rows.now)) good given.now) (R.matrix rows.now) result }
{
    let size = rows.size();
    for i in from..good {
        rows.row(i, work);
        let at = i * size;
        if &*work != &given[at..at + size] {
            return i;
        }
    }
    good
}

/// Finishes the rows from `first` on.
fn redo<R: Rows, L: Ledger>(
    rows: &R,
    first: usize,
    given: &mut [i128],
    work: &mut [i128],
    done: &mut SparseRows,
    steps: &mut Steps<L>,
) -> Result<(), RowFault>
    requires kept { IsKept (length (R.matrix rows.now)) given.old work.old done.old }
    requires first { IsFirstChange (rows_in (length (R.matrix rows.now)) (length done.old.rows) given.old)
        (R.matrix rows.now) first }
    ensures redone { OnOk result (IsRedone (R.matrix rows.now) (length (R.matrix rows.now)) given.new done.new) }
    ensures ticks { OnOk result (steps.new + first ≡ steps.old + length (R.matrix rows.now)) }
    ensures fault { IfErr result (λ fault. IsRowFault (R.matrix rows.now) fault.row fault.cause) }
    ensures prefix { IfErr result (λ fault. IsRedone (R.matrix rows.now) fault.row given.new done.new) }
    ensures fault_ticks { IfErr result (λ fault. steps.new + first ≡ steps.old + fault.row + 1) }
    ensures kept { IsKept (length (R.matrix rows.now)) given.new work.new done.new }
    ensures earlier { take first done.new.rows ≡ take first done.old.rows }
    ensures capacities { done.new.capacities ≡ done.old.capacities }
{
    finished_rows_stay();
    done.cut(first);
    let size = rows.size();
    for i in first..size {
        rows.row(i, work);
        let at = i * size;
        given[at..at + size].copy_from_slice(work);
        if let Err(cause) = eliminate_row(done, work, steps) {
            return Err(RowFault { row: i, cause });
        }
    }
    Ok(())
}

impl Kept {
    /// Room for the factor of a matrix of this size, of which no row is good yet.
    pub fn open<R: Rows>(alloc: Global, rows: &R) -> Result<Kept, AllocError>
        ensures { IfOk result (λ kept. kept
            ≡ record { size = length (R.matrix rows.now); rows = []; done = []; capacities = kept.capacities }) }
    {
        let size = rows.size();
        Ok(Kept {
            size,
            given: vec![in alloc; 0i128; size * size]?,
            work: vec![in alloc; 0i128; size]?,
            done: SparseRows::open(alloc, size)?,
        })
    }

    /// How many rows and columns the matrix has.
    pub fn size(&self) -> usize
        ensures { result ≡ self.now.size }
    {
        self.size
    }

    /// How many rows are good: the first ones of the matrix that was given last.
    pub fn good(&self) -> usize
        ensures count { result ≡ length self.now.rows }
        ensures within { result ≤ self.now.size }
    {
        self.done.rows()
    }

    /// The first row in which these rows differ from the good ones, or the number of good rows. Nothing is redone.
    ///
    /// The rows before `from` have to be the good ones, as after a change that is known to touch later rows alone; they
    /// are neither filled nor compared.
    pub fn changed_from<R: Rows>(&mut self, rows: &R, from: usize) -> usize
        requires size { self.old.size ≡ length (R.matrix rows.now) }
        requires from { from ≤ length self.old.rows }
        requires before { take from (R.matrix rows.now) ≡ take from self.old.rows }
        ensures first { result ≡ first_change self.old.rows (R.matrix rows.now) }
        ensures same { self.new ≡ self.old }
    {
        let good = self.done.rows();
        changed_row(rows, &self.given, good, from, &mut self.work)
    }

    /// Makes the factor that of these rows, of which `first` is the first changed one: the rows from it on are redone,
    /// and each ticks once. Nothing is compared.
    ///
    /// A fault is that of the matrix given, and of every system with it. Then the rows before the faulty one are good.
    pub fn update_from<R: Rows, L: Ledger>(
        &mut self,
        rows: &R,
        first: usize,
        steps: &mut Steps<L>,
    ) -> Result<(), RowFault>
        requires size { self.old.size ≡ length (R.matrix rows.now) }
        requires first { first ≡ first_change self.old.rows (R.matrix rows.now) }
        ensures size { self.new.size ≡ self.old.size }
        ensures finished { AreFinished self.new.rows self.new.done }
        ensures earlier { take first self.new.done ≡ take first self.old.done }
        ensures capacities { self.new.capacities ≡ self.old.capacities }

        // The matrix has no faulty row.
        ensures rows { OnOk result (self.new.rows ≡ R.matrix rows.now) }
        ensures good { OnOk result (IsGoodMatrix (R.matrix rows.now)) }
        ensures ticks { OnOk result (steps.new + first ≡ steps.old + self.old.size) }

        // It has one.
        ensures fault { IfErr result (λ fault. IsRowFault (R.matrix rows.now) fault.row fault.cause) }
        ensures ends { IfErr result (λ fault. (right : List ℤ) → outcome (R.matrix rows.now) right ≡ Err (PlainFault.Row fault)) }
        ensures prefix { IfErr result (λ fault. self.new.rows ≡ take fault.row (R.matrix rows.now)) }
        ensures fault_ticks { IfErr result (λ fault. steps.new + first ≡ steps.old + fault.row + 1) }
    {
        row_fault_ends_systems();
        redo(
            rows,
            first,
            &mut self.given,
            &mut self.work,
            &mut self.done,
            steps,
        )
    }

    /// Makes the factor that of these rows, and answers the first row that was redone, or the size where none was.
    ///
    /// Rows are redone from the first one that differs from the good row of its number, or that is not good, and each
    /// ticks once. A fault is that of the matrix given, and of every system with it; then the rows before the faulty one
    /// are good, and `update` may be called again.
    pub fn update<R: Rows, L: Ledger>(
        &mut self,
        rows: &R,
        steps: &mut Steps<L>,
    ) -> Result<usize, RowFault>
        requires { self.old.size ≡ length (R.matrix rows.now) }
        ensures size { self.new.size ≡ self.old.size }
        ensures finished { AreFinished self.new.rows self.new.done }
        ensures earlier { take (first_change self.old.rows (R.matrix rows.now)) self.new.done
            ≡ take (first_change self.old.rows (R.matrix rows.now)) self.old.done }
        ensures capacities { self.new.capacities ≡ self.old.capacities }

        // The matrix has no faulty row.
        ensures redone { IfOk result (λ first. first ≡ first_change self.old.rows (R.matrix rows.now)) }
        ensures rows { OnOk result (self.new.rows ≡ R.matrix rows.now) }
        ensures good { OnOk result (IsGoodMatrix (R.matrix rows.now)) }
        ensures ticks { OnOk result (steps.new + first_change self.old.rows (R.matrix rows.now) ≡ steps.old + self.old.size) }

        // It has one.
        ensures fault { IfErr result (λ fault. IsRowFault (R.matrix rows.now) fault.row fault.cause) }
        ensures ends { IfErr result (λ fault. (right : List ℤ) → outcome (R.matrix rows.now) right ≡ Err (PlainFault.Row fault)) }
        ensures prefix { IfErr result (λ fault. self.new.rows ≡ take fault.row (R.matrix rows.now)) }
        ensures fault_ticks { IfErr result
            (λ fault. steps.new + first_change self.old.rows (R.matrix rows.now) ≡ steps.old + fault.row + 1) }
    {
        let first = self.changed_from(rows, 0);
        match self.update_from(rows, first, steps) {
            Ok(()) => Ok(first),
            Err(fault) => Err(fault),
        }
    }

    /// Solves the system of the rows given last for one right side, in units of 1e-9, as full elimination from the first
    /// row does. `rhs` and `x` hold unstated numbers after a fault.
    pub fn solve(&self, rhs: &mut [i128], x: &mut [i64]) -> Result<(), SolveFault>
        requires all { length self.now.rows ≡ self.now.size }
        requires rhs { length rhs.old ≡ self.now.size }
        requires x { length x.old ≡ self.now.size }
        ensures solved { OnOk result (outcome self.now.rows rhs.old ≡ Ok x.new) }
        ensures within { OnOk result (AreWithin LARGEST_VALUE x.new) }
        ensures fault { IfErr result (λ fault. outcome self.now.rows rhs.old ≡ Err (PlainFault.Solve fault)) }
        ensures row { IfErr result (λ fault. fault.row < self.now.size) }
    {
        self.done.solve(rhs, x)
    }
}
