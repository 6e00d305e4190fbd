//! The blocks as one system over a kept factor.

ghost use Rattle.emtp_case.specs.declared.limit.TheConstants.{MOST_CONTROL_CARDS};
ghost use Rattle.std.specs.Prelude.{◌≡◌, ◌≤◌, ◌<◌, ◌+◌, ◌-◌, ◌*◌, ◌==◌, ◌∷◌, [], if◌then◌else◌, length, IfErr, IfOk, OnOk};
ghost use Rattle.emtp_case.specs.held.Control.{AreKnown};
ghost use Rattle.emtp_blocks.specs.held.BlockRows.{AreUnknowns, StandsFor as BlocksStandFor, rows_of_blocks};
ghost use Rattle.emtp_case.specs.StepRecord.{rest_of};
ghost use Rattle.emtp_elim.specs.declared.fault.PlainFault.{PlainFault};
ghost use Rattle.emtp_tacs.specs.held.Stages.{AcceptsOutputs, FindsOutputs, HoldsSystem, NamesVariable, RefusesFactor, SolvesBlocks, capacities_of_system};
ghost use Rattle.emtp_tacs.specs.Step.{block_var, system_fault, with_outputs};
ghost use Rattle.emtp_tail.specs.Good.{first_change};

use crate::fault::{TacsFault, range_fault};
use emtp_blocks::{BlockRows, rows_are_the_matrix};
use emtp_case::Case;
use emtp_elim::{RowCause, RowFault};
use emtp_fix::Steps;
use emtp_tail::Kept;
use std::alloc::{AllocError, Global};
use std::sync::ledger::Ledger;

/// The blocks at the last record, and the factor of the last step's matrix.
#[derive(Drop)]
pub(crate) struct BlockSystem<'a> {
    pub(crate) blocks: BlockRows<'a>,
    pub(crate) kept: Kept,
    /// Whether the factor is that of the next step's matrix: no limiter moved since it was made.
    pub(crate) current: bool,
    /// Room for the right side, in nano.
    pub(crate) right: Vec<i128>,
    /// Room for the outputs, in nano.
    pub(crate) x: Vec<i64>,
    /// How many rows the steps redid, but for the first one.
    pub(crate) redone: u64,
}

impl<'a> BlockSystem<'a> {
    /// The blocks at rest, and a factor of which no row is good. All memory is taken here.
    pub(crate) fn open(alloc: Global, case: &'a Case) -> Result<BlockSystem<'a>, AllocError>
        ensures holds { IfOk result (HoldsSystem case.now.parts) }
        ensures rest { IfOk result (λ s. BlocksStandFor s.blocks (rest_of case.now.parts ∷ [])) }
        ensures none { IfOk result (λ s. s.kept.rows ≡ []) }
        ensures redone { IfOk result (λ s. s.redone ≡ 0) }
    {
        let count = case.parts.blocks.len();
        let right = vec![in alloc; 0i128; count]?;
        let x = vec![in alloc; 0i64; count]?;
        let blocks = BlockRows::open(alloc, case)?;
        let kept = Kept::open(alloc, &blocks)?;
        Ok(BlockSystem {
            blocks,
            kept,
            current: false,
            right,
            x,
            redone: 0,
        })
    }

    /// The first row of the next step's matrix that differs from the last step's, or their number. Rows that have to be
    /// redone are counted, but for the first step's. The matrix depends on the records alone, so this may come first.
    pub(crate) fn first_changed(&mut self, case: &Case, made: u32) -> usize
        requires holds { HoldsSystem case.now.parts self.old }
        requires few { self.old.redone ≤ MOST_CONTROL_CARDS * made }
        requires made { made < case.now.parts.run.steps }
        ensures holds { HoldsSystem case.now.parts self.new }
        ensures capacities { capacities_of_system self.new ≡ capacities_of_system self.old }
        ensures first { result ≡ first_change self.old.kept.rows (rows_of_blocks self.old.blocks) }
        ensures redone { self.new.redone ≡ self.old.redone + (if made == 0 then 0 else length case.now.parts.blocks - result) }
        ensures few { self.new.redone ≤ self.old.redone + MOST_CONTROL_CARDS }
        ensures blocks { self.new.blocks ≡ self.old.blocks }
        ensures kept { self.new.kept ≡ self.old.kept }
    {
        let from = if self.current { self.kept.good() } else { 0 };
        let first = self.kept.changed_from(&self.blocks, from);
        if made != 0 {
            self.redone += (self.kept.size() - first) as u64;
        }
        first
    }

    /// Solves the blocks of a step from what is known before them, and writes their outputs; or answers the first fault.
    /// `first` is the first changed row.
    pub(crate) fn solve<L: Ledger>(
        &mut self,
        case: &Case,
        first: usize,
        values: &mut [i64],
        steps: &mut Steps<L>,
    ) -> Result<(), TacsFault>
        requires holds { HoldsSystem case.now.parts self.old }
        requires first { first ≡ first_change self.old.kept.rows (rows_of_blocks self.old.blocks) }
        requires values { AreKnown case.now.parts values.old }
        ensures holds { HoldsSystem case.now.parts self.new }
        ensures capacities { capacities_of_system self.new ≡ capacities_of_system self.old }
        ensures values { AreKnown case.now.parts values.new }
        ensures redone { self.new.redone ≡ self.old.redone }
        ensures solves { SolvesBlocks result case.now.parts values.old values.new self.old self.new }
        ensures ticks { OnOk result (steps.new + first ≡ steps.old + length case.now.parts.blocks) }
        ensures most { steps.new + first ≤ steps.old + length case.now.parts.blocks }
        ensures var { IfErr result (NamesVariable case.now.parts) }
    {
        self.factor(case, first, steps)?;
        let count = case.parts.blocks.len();
        if count == 0 {
            return Ok(());
        }
        self.find_outputs(case, values)?;
        self.accept(case, values)?;
        put_outputs(case, &self.x, values);
        Ok(())
    }

    /// Makes the factor that of the next step's matrix.
    fn factor<L: Ledger>(
        &mut self,
        case: &Case,
        first: usize,
        steps: &mut Steps<L>,
    ) -> Result<(), TacsFault>
        requires holds { HoldsSystem case.now.parts self.old }
        requires first { first ≡ first_change self.old.kept.rows (rows_of_blocks self.old.blocks) }
        ensures holds { HoldsSystem case.now.parts self.new }
        ensures capacities { capacities_of_system self.new ≡ capacities_of_system self.old }
        ensures blocks { self.new.blocks ≡ self.old.blocks }
        ensures redone { self.new.redone ≡ self.old.redone }
        ensures rows { OnOk result (self.new.kept.rows ≡ rows_of_blocks self.old.blocks) }
        ensures ticks { OnOk result (steps.new + first ≡ steps.old + length case.now.parts.blocks) }
        ensures most { steps.new + first ≤ steps.old + length case.now.parts.blocks }
        ensures fault { RefusesFactor result case.now.parts self.old }
        ensures var { IfErr result (NamesVariable case.now.parts) }
    {
        self.current = false;
        match self.kept.update_from(&self.blocks, first, steps) {
            Ok(()) => {
                self.current = true;
                Ok(())
            }
            Err(fault) => Err(row_fault(case, fault)),
        }
    }

    /// Solves the system of the factor for the right side of the step.
    fn find_outputs(&mut self, case: &Case, values: &[i64]) -> Result<(), TacsFault>
        requires holds { HoldsSystem case.now.parts self.old }
        requires rows { self.old.kept.rows ≡ rows_of_blocks self.old.blocks }
        requires values { AreKnown case.now.parts values.now }
        ensures holds { HoldsSystem case.now.parts self.new }
        ensures capacities { capacities_of_system self.new ≡ capacities_of_system self.old }
        ensures blocks { self.new.blocks ≡ self.old.blocks }
        ensures kept { self.new.kept ≡ self.old.kept }
        ensures redone { self.new.redone ≡ self.old.redone }
        ensures small { OnOk result (AreUnknowns case.now.parts self.new.x.items) }
        ensures finds { FindsOutputs result case.now.parts values.now self.old self.new }
        ensures var { IfErr result (NamesVariable case.now.parts) }
    {
        self.blocks.history(values, &mut self.right);
        match self.kept.solve(&mut self.right, &mut self.x) {
            Ok(()) => Ok(()),
            Err(fault) => Err(range_fault(block_var(case, fault.row))),
        }
    }

    /// Lets the blocks take their solved outputs, and leaves the recorded ones. The factor stays current where no limiter
    /// moves.
    fn accept(&mut self, case: &Case, values: &[i64]) -> Result<(), TacsFault>
        requires holds { HoldsSystem case.now.parts self.old }
        requires rows { self.old.kept.rows ≡ rows_of_blocks self.old.blocks }
        requires values { AreKnown case.now.parts values.now }
        requires x { AreUnknowns case.now.parts self.old.x.items }
        ensures holds { HoldsSystem case.now.parts self.new }
        ensures capacities { capacities_of_system self.new ≡ capacities_of_system self.old }
        ensures kept { self.new.kept ≡ self.old.kept }
        ensures redone { self.new.redone ≡ self.old.redone }
        ensures accepts { AcceptsOutputs result case.now.parts values.now self.old self.new }
        ensures small { OnOk result (AreUnknowns case.now.parts self.new.x.items) }
        ensures var { IfErr result (NamesVariable case.now.parts) }
    {
        self.current = false;
        match self.blocks.accept(values, &mut self.x) {
            Ok(()) => {
                self.current = !self.blocks.moved();
                Ok(())
            }
            Err(fault) => Err(range_fault(block_var(case, fault.block))),
        }
    }
}

/// Writes the outputs of the blocks, in nano, each at its variable.
fn put_outputs(case: &Case, x: &[i64], values: &mut [i64])
    requires x { AreUnknowns case.now.parts x.now }
    requires values { AreKnown case.now.parts values.old }
    ensures values { AreKnown case.now.parts values.new }
    ensures value { values.new ≡ with_outputs case.now.parts x.now (length case.now.parts.blocks) values.old }
{
    for at in 0..case.parts.blocks.len() {
        values[block_var(case, at) as usize] = x[at];
    }
}

/// The variable of a block.
fn block_var(case: &Case, at: usize) -> u32
    requires { at < length case.now.parts.blocks }
    ensures value { result ≡ block_var case.now.parts at }
    ensures there { result < length case.now.parts.vars }
{
    case.parts.blocks.as_slice()[at].var
}

/// A fault of the elimination, by the variable of its row's block.
fn row_fault(case: &Case, fault: RowFault) -> TacsFault
    requires { fault.row < length case.now.parts.blocks }
    ensures value { result ≡ system_fault case.now.parts (PlainFault.Row fault) }
    ensures var { NamesVariable case.now.parts result }
{
    let var = block_var(case, fault.row);
    match fault.cause {
        RowCause::Range => TacsFault { var, pivot: false },
        RowCause::ZeroPivot => TacsFault { var, pivot: true },
    }
}
