//! What is true of the control's blocks. The functions do nothing: their clauses are proved.

ghost use Rattle.std.specs.Prelude.{◌≡◌, ◌<◌, ◌≤◌, ℕ, ℤ, List, Some, Ok, IfSome, length, slice_get};
ghost use Rattle.emtp_blocks.specs.Block.{limit_of, limits_of, next_state};
ghost use Rattle.emtp_blocks.specs.System.{output_at, state_at};
ghost use Rattle.emtp_case.specs.StepRecord.{StepRecord, latest};
ghost use Rattle.emtp_case.specs.declared.control.Block.{Block};
ghost use Rattle.emtp_case.specs.declared.control.BlockState.{BlockState};
ghost use Rattle.emtp_elim.specs.Matrix.{item};
ghost use Rattle.emtp_tacs.specs.Part.{ControlPart};
ghost use Rattle.emtp_tacs.specs.Step.{Measured, SoFar, control_step, known_before};
ghost use Rattle.emtp_machine.specs.Laws.{records_upto};
ghost use Rattle.emtp_laws.specs.Control.{AreLimitsKept, AreOrderedLimits, GoesByTheRule, HasItsLimit, IsExactAlone, IsWithinLimits};

use emtp_case::Case;

/// The recorded output of a block lies between its limits of the step, where the low one is at most the high one, also of a
/// block that was at a limit, whatever the solved output is. And a block is only at a limit that it has, in whatever step: so
/// in each step of a run the output lies between its limits, wherever the limiter stood before.
pub fn outputs_lie_between_their_limits(case: &Case)
    ensures output { (H : List StepRecord) (known xs : List ℤ) (i : ℕ) (b : Block)
        → slice_get case.now.parts.blocks i ≡ Some b
        → AreOrderedLimits (limit_of known b.low) (limit_of known b.high)
        → HasItsLimit (limit_of known b.low) (limit_of known b.high) (state_at H i).limiter
        → IsWithinLimits (limit_of known b.low) (limit_of known b.high) (output_at case.now.parts H known xs i) }
    ensures limiter { (b : Block) (known later : List ℤ) (old : BlockState) (solved s : ℤ)
        → IfSome (next_state case.now.parts.run.dt b (limits_of known b) old solved s)
        (λ new. HasItsLimit (limit_of later b.low) (limit_of later b.high) new.limiter) }
    ensures run { (n : ℕ) (known xs : List ℤ) (i : ℕ) (b : Block) → slice_get case.now.parts.blocks i ≡ Some b
        → AreOrderedLimits (limit_of known b.low) (limit_of known b.high)
        → IsWithinLimits (limit_of known b.low) (limit_of known b.high)
        (output_at case.now.parts (records_upto case.now.parts n) known xs i) }
{}

/// In each record of a run the variable of each block lies between the block's limits, where the low one is at most the high
/// one: it has the output that the blocks record, and no other card writes it behind them.
pub fn block_variables_lie_between_their_limits(case: &Case)
    ensures { (n : ℕ) → AreLimitsKept case.now.parts (records_upto case.now.parts n) }
{}

/// In each step of the control the variable of a block has the output that the blocks record: no other card writes it behind
/// them.
pub fn block_variables_have_their_outputs(case: &Case)
    ensures { (H : List StepRecord) (m : Measured) (known : SoFar) (part : ControlPart) (i : ℕ) (b : Block)
        → length (latest H).values ≡ length case.now.parts.vars → known_before case.now.parts H m ≡ Ok known
        → control_step case.now.parts H m ≡ Ok part → slice_get case.now.parts.blocks i ≡ Some b
        → (xs : List ℤ) × (item part.values b.var ≡ output_at case.now.parts H known.values xs i) }
{}

/// A block of any order goes by the trapezoidal rule in each number of its chain, and no rounding enters it: over a step a number
/// rises by what the number before it is more than the error of that power, at both ends of the step. The last number does so
/// where no limit changes the output; number 0 is 0.
pub fn blocks_are_trapezoidal()
    ensures { (dt : ℤ) (b : Block) (j : ℕ) → b.order ≤ 7 → j < b.order → GoesByTheRule dt b j }
{}

/// A block that no other one reaches within a step puts out what its card says, to the last digit and whatever the other blocks do:
/// where it is free, and none of its inputs is a block's output, k times the sum of its inputs and what its past brings, k s + h;
/// where it is at a limit, the limit.
pub fn blocks_that_stand_alone_are_exact(case: &Case)
    ensures { (H : List StepRecord) (known : List ℤ) (i : ℕ) → IsExactAlone case.now.parts H known i }
{}
