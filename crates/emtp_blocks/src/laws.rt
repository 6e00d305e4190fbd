//! What is true of blocks in the field's own words. The functions do nothing: their clauses are proved.

ghost use Rattle.std.specs.Prelude.{◌≡◌, ℤ, List, Some, IfSome, false};
ghost use Rattle.emtp_case.specs.StepRecord.{StepRecord};
ghost use Rattle.emtp_case.specs.declared.control.Block.{Block};
ghost use Rattle.emtp_case.specs.declared.control.BlockState.{BlockState};
ghost use Rattle.emtp_case.specs.declared.control.Limiter.TheVariants.{AtHigh, AtLow, Free};
ghost use Rattle.emtp_blocks.specs.Block.{is_above, is_below, limiter_for, next_state, output_of, unlimited_output};
ghost use Rattle.emtp_blocks.specs.held.BlockRows.{StandsFor, rows_of_blocks};
ghost use Rattle.emtp_blocks.specs.Laws.{FallsByErrors};
ghost use Rattle.emtp_blocks.specs.System.{matrix};
ghost use Rattle.emtp_blocks.specs.declared.limits.Limits.{Limits};

use crate::block_rows::BlockRows;

/// The rows are the matrix of the next step, which the records alone decide.
pub fn rows_are_the_matrix(blocks: &BlockRows<'_>)
    ensures { (H : List StepRecord) → StandsFor blocks.now H → rows_of_blocks blocks.now ≡ matrix blocks.now.case H }
{}

/// A free block whose output comes to a limit is recorded at this limit.
pub fn limit_is_recorded()
    ensures high { (limits : Limits) (solved : ℤ) → limiter_for limits solved ≡ AtHigh
        → Some (output_of limits Free solved) ≡ limits.high }
    ensures low { (limits : Limits) (solved : ℤ) → limiter_for limits solved ≡ AtLow
        → Some (output_of limits Free solved) ≡ limits.low }
{}

/// A block is free after the step in which what it would put out without limits is within them, wherever it was.
pub fn leaves_its_limit()
    ensures { (dt : ℤ) (b : Block) (limits : Limits) (old : BlockState) (solved s : ℤ)
        → is_above limits.high (unlimited_output dt b old solved s) ≡ false
        → is_below limits.low (unlimited_output dt b old solved s) ≡ false
        → IfSome (next_state dt b limits old solved s) (λ new. new.limiter ≡ Free) }
{}

/// A block of first order whose output no limit changes obeys the trapezoidal rule, and no rounding enters it: its number
/// falls by the errors of both steps.
pub fn first_order_is_trapezoidal()
    ensures { (dt : ℤ) (b : Block) (limits : Limits) (old : BlockState) (solved s : ℤ)
        → b.order ≡ 1 → output_of limits old.limiter solved ≡ unlimited_output dt b old solved s
        → IfSome (next_state dt b limits old solved s) (FallsByErrors old) }
{}
