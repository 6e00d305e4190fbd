// The finished rows of a matrix, and the next row finished by them.
ghost use Rattle.std.specs.Prelude.{◌≡◌, ℕ, ◌+◌, ◌<◌, ◌≤◌, length, take, [], ◌∷◌, vec_capacity, IfOk, OnOk, OnErr, IfErr, Ok, Err};
ghost use Rattle.emtp_fix.specs.declared.limit.TheConstants.{LARGEST_VALUE};
ghost use Rattle.emtp_elim.specs.Matrix.{row_of};
ghost use Rattle.emtp_elim.specs.held.Matrix.{AreWithin};
ghost use Rattle.emtp_elim.specs.held.Extent.{IsExtent};
ghost use Rattle.emtp_elim.specs.held.Finished.{Finished, AddsRow, FaultsRow};
ghost use Rattle.emtp_elim.specs.held.Stored.{AreStored, rows_kept};
ghost use Rattle.emtp_elim.specs.held.Row.{numbers, HasWords, IsRow};
ghost use Rattle.emtp_elim.specs.held.Substitution.{SolvesAs};
ghost use Rattle.emtp_elim.specs.declared.fault.PlainFault.{PlainFault};
ghost use Rattle.emtp_elim.specs.declared.limit.TheConstants.{MOST_ROWS};

use crate::extent::{Extent, extent_of};
use crate::fault::{RowCause, SolveFault};
use crate::finishing::finish_row;
use crate::row::FinishedRow;
use crate::row_words::RowWords;
use crate::storing::store_next;
use crate::substitution::{reduce_right, substitute_back};
use emtp_fix::Steps;
use std::alloc::{AllocError, Global};
use std::marker::Model;
use std::sync::ledger::Ledger;

/// The finished rows of a matrix: the ratios to the pivots above before the diagonal, the entries from it on.
///
/// `values` has the numbers that aren't 0, in units of 1e-12, row after row without gaps, and `columns` beside each its
/// column. The entries of row `i` stand from place `starts[i]` on and before `starts[i + 1]`, its pivot at the place
/// `pivots[i]`. So the work on later rows and right sides meets no zeros. `words` makes the work on right sides short, in
/// every solution.
#[derive(Drop)]
pub struct SparseRows {
    size: usize,
    count: usize,
    starts: Vec<usize>,
    pivots: Vec<usize>,
    columns: Vec<u16>,
    values: Vec<i64>,
    words: RowWords,
}

impl Model for SparseRows {
    ghost Value = { Finished };

    ghost view = { λ s. record {
      size = s.size;
      rows = rows_kept s.size s.count s.starts.items s.columns.items s.values.items;
      capacities =
          vec_capacity s.starts
          ∷ vec_capacity s.pivots
          ∷ vec_capacity s.columns
          ∷ vec_capacity s.values
          ∷ vec_capacity s.words.has_words
          ∷ vec_capacity s.words.ratio_words
          ∷ vec_capacity s.words.dividers
          ∷ [];
    } };

    ghost invariant = { λ s. AreStored s.size s.count s.starts.items s.pivots.items s.columns.items s.values.items s.words };
}

impl SparseRows {
    /// Room for `size` finished rows, at most `MOST_ROWS`.
    pub fn open(alloc: Global, size: usize) -> Result<SparseRows, AllocError>
        requires { size ≤ MOST_ROWS }
        ensures { IfOk result (λ rows. rows ≡ record { size = size; rows = []; capacities = rows.capacities }) }
    {
        Ok(SparseRows {
            size,
            count: 0,
            starts: vec![in alloc; 0usize; size + 1]?,
            pivots: vec![in alloc; 0usize; size]?,
            columns: vec![in alloc; 0u16; size * size]?,
            values: vec![in alloc; 0i64; size * size]?,
            words: RowWords::open(alloc, size)?,
        })
    }

    /// How many rows are finished.
    pub fn rows(&self) -> usize
        ensures count { result ≡ length self.now.rows }
        ensures width { (i : ℕ) → i < length self.now.rows → length (row_of self.now.rows i) ≡ self.now.size }
    {
        self.count
    }

    /// Finished row `i`.
    #[tactic(auto, using(crate::proofs::KeptRows::count_is))]
    pub(crate) fn row(&self, i: usize) -> FinishedRow<'_>
        requires { i < length self.now.rows }
        ensures row { IsRow self.now.size i result }
        ensures numbers { numbers self.now.size result ≡ row_of self.now.rows i }
        ensures few { self.now.size ≤ MOST_ROWS }
        ensures words { HasWords i result }
    {
        FinishedRow {
            columns: &self.columns,
            values: &self.values,
            ratio_words: &self.words.ratio_words,
            first: self.starts[i],
            pivot: self.pivots[i],
            last: self.starts[i + 1],
            words_from: i * i / 2,
            has_words: self.words.has_words[i],
            divider: &self.words.dividers[i],
        }
    }

    /// Keeps the first rows.
    pub fn cut(&mut self, rows: usize)
        requires { rows ≤ length self.old.rows }
        ensures { self.new ≡ record self.old { rows = take rows self.old.rows } }
    {
        self.count = rows;
    }

    /// Solves the system of the finished rows: the work of the elimination on the right sides, in units of 1e-9, and the
    /// unknowns from the last row back. `rhs` and `x` hold unstated numbers after a fault.
    ///
    /// The answer is that of full elimination of any matrix of which these are the finished rows.
    pub fn solve(&self, rhs: &mut [i128], x: &mut [i64]) -> Result<(), SolveFault>
        requires full { length self.now.rows ≡ self.now.size }
        requires rhs { length rhs.old ≡ self.now.size }
        requires x { length x.old ≡ self.now.size }
        ensures solved { OnOk result (SolvesAs self.now.rows rhs.old (Ok x.new)) }
        ensures within { OnOk result (AreWithin LARGEST_VALUE x.new) }
        ensures fault { IfErr result (λ fault. SolvesAs self.now.rows rhs.old (Err (PlainFault.Solve fault))) }
        ensures row { IfErr result (λ fault. fault.row < self.now.size) }
    {
        reduce_right(self, rhs, x)?;
        substitute_back(self, x)
    }

    /// Finishes the next row of the matrix, and keeps it. After a refusal the rows are as before.
    pub(crate) fn add(&mut self, work: &mut [i128]) -> Result<(), RowCause>
        requires size { length work.old ≡ self.old.size }
        requires room { length self.old.rows < self.old.size }
        ensures added { OnOk result (AddsRow self.old self.new work.old) }
        ensures capacities { self.new.capacities ≡ self.old.capacities }
        ensures kept { OnErr result (self.new ≡ self.old) }
        ensures fault { IfErr result (FaultsRow self.old.rows work.old) }
    {
        let given = extent_of(work, self.rows());
        match self.add_within(work, given) {
            Ok(_) => Ok(()),
            Err(cause) => Err(cause),
        }
    }

    /// The same of a row whose extent is known, and the extent that it has then: `work` holds only zeros outside of it.
    #[tactic(auto, using(crate::proofs::KeptRows::count_is))]
    pub(crate) fn add_within(
        &mut self,
        work: &mut [i128],
        given: Extent,
    ) -> Result<Extent, RowCause>
        requires size { length work.old ≡ self.old.size }
        requires room { length self.old.rows < self.old.size }
        requires extent { IsExtent work.old given }
        requires diagonal { given.diagonal ≡ length self.old.rows }
        ensures added { OnOk result (AddsRow self.old self.new work.old) }
        ensures extent { IfOk result (IsExtent work.new) }
        ensures capacities { self.new.capacities ≡ self.old.capacities }
        ensures kept { OnErr result (self.new ≡ self.old) }
        ensures fault { IfErr result (FaultsRow self.old.rows work.old) }
    {
        let extent = finish_row(self, work, given)?;
        store_next(
            &mut self.starts,
            &mut self.pivots,
            &mut self.columns,
            &mut self.values,
            &mut self.words,
            extent,
            work,
        );
        self.count += 1;
        Ok(extent)
    }
}

/// Finishes the next row of the matrix by the finished rows above it, and keeps it. It ticks once, whatever it answers.
///
/// `work` holds the row, in units of 1e-12, and unstated numbers afterwards. After a refusal the finished rows are as
/// before. The cause is that of full elimination of any matrix that goes on with this row after these finished ones.
pub fn eliminate_row<L: Ledger>(
    done: &mut SparseRows,
    work: &mut [i128],
    steps: &mut Steps<L>,
) -> Result<(), RowCause>
    requires size { length work.old ≡ done.old.size }
    requires room { length done.old.rows < done.old.size }
    ensures steps { steps.new ≡ steps.old + 1 }
    ensures added { OnOk result (AddsRow done.old done.new work.old) }
    ensures capacities { done.new.capacities ≡ done.old.capacities }
    ensures kept { OnErr result (done.new ≡ done.old) }
    ensures fault { IfErr result (FaultsRow done.old.rows work.old) }
{
    steps.tick();
    done.add(work)
}
