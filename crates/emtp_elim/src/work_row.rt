// The next row of a matrix, written over zeros.
ghost use Rattle.std.specs.Prelude.{◌≡◌, ◌+◌, ◌<◌, ◌≤◌, ◌+ℤ◌, pos, replicate, unsigned_abs, length, slice_set, IfOk, OnOk, OnErr, IfErr};
ghost use Rattle.emtp_elim.specs.Matrix.{item};
ghost use Rattle.emtp_elim.specs.held.Extent.{IsExtent};
ghost use Rattle.emtp_elim.specs.held.Finished.{AddsRow, FaultsRow};
ghost use Rattle.emtp_elim.specs.held.WorkRow.{IsClearRow};
ghost use Rattle.emtp_elim.specs.declared.limit.TheConstants.{LARGEST_WORK};

use crate::extent::{Extent, end_behind, extent_over, first_with};
use crate::fault::RowCause;
use crate::sparse::SparseRows;
use emtp_fix::Steps;
use std::alloc::{AllocError, Global};
use std::marker::Model;
use std::sync::ledger::Ledger;

/// The next row of a matrix, in units of 1e-12, written number by number over zeros.
///
/// It knows between which columns it was written: those before `first` and from `end` on are 0. So neither filling nor
/// eliminating it costs the width of the matrix.
#[derive(Drop)]
pub struct WorkRow {
    numbers: Vec<i128>,
    first: usize,
    end: usize,
}

impl Model for WorkRow {
    ghost use Rattle.std.specs.Prelude.{List, ℤ};
    ghost use Rattle.emtp_elim.specs.held.Written.{IsWritten};

    ghost Value = { List ℤ };

    ghost view = { λ w. w.numbers.items };

    ghost invariant = { λ w. IsWritten w.numbers.items w.first w.end };
}

/// So many zeros.
fn zeros(alloc: Global, size: usize) -> Result<Vec<i128>, AllocError>
    ensures { IfOk result (λ numbers. numbers.items ≡ replicate size (pos 0)) }
{
    vec![in alloc; 0i128; size]
}

/// Adds an amount to a number of a row.
fn add_amount(row: &mut [i128], column: usize, amount: i128)
    requires place { column < length row.old }
    requires number { unsigned_abs (item row.old column) ≤ LARGEST_WORK }
    requires amount { unsigned_abs amount ≤ LARGEST_WORK }
    ensures { row.new ≡ slice_set row.old column (item row.old column +ℤ amount) }
{
    row[column] += amount;
}

/// Clears a row, which has only zeros outside of its extent.
fn clear(work: &mut [i128], extent: Extent)
    requires { IsExtent work.old extent }
    ensures { IsClearRow (length work.old) work.new }
{
    for j in extent.first..extent.end {
        work[j] = 0;
    }
}

/// Finishes the next row of the matrix, keeps it and clears it. A row at fault is cleared whole: it is the last one.
fn finish_and_clear(done: &mut SparseRows, work: &mut [i128], given: Extent) -> Result<(), RowCause>
    requires size { length work.old ≡ done.old.size }
    requires room { length done.old.rows < done.old.size }
    requires extent { IsExtent work.old given }
    requires diagonal { given.diagonal ≡ length done.old.rows }
    ensures clear { IsClearRow (length work.old) work.new }
    ensures added { OnOk result (AddsRow done.old done.new work.old) }
    ensures kept { OnErr result (done.new ≡ done.old) }
    ensures fault { IfErr result (FaultsRow done.old.rows work.old) }
{
    match done.add_within(work, given) {
        Ok(extent) => {
            clear(work, extent);
            Ok(())
        }
        Err(cause) => {
            work.fill(0);
            Err(cause)
        }
    }
}

impl WorkRow {
    /// A row of `size` zeros.
    pub fn open(alloc: Global, size: usize) -> Result<WorkRow, AllocError>
        ensures { IfOk result (IsClearRow size) }
    {
        let numbers = zeros(alloc, size)?;
        Ok(WorkRow {
            numbers,
            first: size,
            end: 0,
        })
    }

    /// How many numbers it has.
    pub fn len(&self) -> usize
        ensures { result ≡ length self.now }
    {
        self.numbers.len()
    }

    /// Adds an amount to the number in a column.
    pub fn add_to(&mut self, column: usize, amount: i128)
        requires place { column < length self.old }
        requires number { unsigned_abs (item self.old column) ≤ LARGEST_WORK }
        requires amount { unsigned_abs amount ≤ LARGEST_WORK }
        ensures { self.new ≡ slice_set self.old column (item self.old column +ℤ amount) }
    {
        let size = self.numbers.len();
        let first = first_with(self.first, column);
        let end = end_behind(self.end, column, size);
        self.first = first;
        self.end = end;
        add_amount(&mut self.numbers, column, amount);
    }

    /// Finishes the row by the finished ones, keeps it with them, and clears it.
    fn finish(&mut self, done: &mut SparseRows) -> Result<(), RowCause>
        requires size { length self.old ≡ done.old.size }
        requires room { length done.old.rows < done.old.size }
        ensures clear { IsClearRow (length self.old) self.new }
        ensures added { OnOk result (AddsRow done.old done.new self.old) }
        ensures kept { OnErr result (done.new ≡ done.old) }
        ensures fault { IfErr result (FaultsRow done.old.rows self.old) }
    {
        let size = self.numbers.len();
        let count = done.rows();
        let given = extent_over(self.first, self.end, count, size);
        self.first = size;
        self.end = 0;
        finish_and_clear(done, &mut self.numbers, given)
    }
}

/// Finishes the next row of the matrix by the finished rows above it, and keeps it, as [`eliminate_row`] does. It ticks
/// once, whatever it answers.
///
/// `work` holds the row, in units of 1e-12, and only zeros afterwards. After a refusal the finished rows are as before.
/// The cause is that of full elimination of any matrix that goes on with this row after these finished ones.
///
/// [`eliminate_row`]: crate::eliminate_row
pub fn eliminate_work_row<L: Ledger>(
    done: &mut SparseRows,
    work: &mut WorkRow,
    steps: &mut Steps<L>,
) -> Result<(), RowCause>
    requires size { length work.old ≡ done.old.size }
    requires room { length done.old.rows < done.old.size }
    ensures clear { IsClearRow (length work.old) work.new }
    ensures steps { steps.new ≡ steps.old + 1 }
    ensures added { OnOk result (AddsRow done.old done.new work.old) }
    ensures kept { OnErr result (done.new ≡ done.old) }
    ensures fault { IfErr result (FaultsRow done.old.rows work.old) }
{
    steps.tick();
    work.finish(done)
}
