//! Taking the solved outputs into the blocks.

ghost use Rattle.std.specs.Prelude.{◌≡◌, ◌<◌, ℕ, List, length, slice_set, slice_index_or, All, OnOk, IfErr, IfNone, IfSome, true, false};
ghost use Rattle.emtp_case.specs.StepRecord.{StepRecord};
ghost use Rattle.emtp_blocks.specs.held.Block.{IsKept};
ghost use Rattle.emtp_blocks.specs.held.BlockRows.{AreUnknowns, AreStepValues, IsDiagram, AcceptsAll, HasTaken, IsOut, KeepsLimiters, StandsAt, no_kept};

use crate::block_rows::BlockRange;
use crate::diagram::BlockDiagram;
use crate::inputs::{StepValues, input_sum};
use crate::limits::{limits_in_step, output};
use crate::next::{Signals, step};
use emtp_case::{BlockState, Limiter};

/// A block after a step, but for its state, which is large and moves in place.
#[derive(Clone, Copy)]
pub(crate) struct Accepted {
    /// Its recorded output, in nano.
    pub(crate) output: i64,
    /// Whether its limiter stands where it stood.
    pub(crate) same: bool,
}

/// Takes the solved outputs into the block at a place, whose state moves; none where it is out of range, and then no state
/// has moved.
fn accept_one(
    diagram: &BlockDiagram<'_>,
    states: &mut [BlockState],
    values: &StepValues<'_>,
    at: usize,
) -> Option<Accepted>
    requires there { at < length diagram.now.case.now.parts.blocks }
    requires diagram { IsDiagram diagram.now }
    requires state_each { length states.old ≡ length diagram.now.case.now.parts.blocks }
    requires state { IsKept (slice_index_or states.old at no_kept) }
    requires values { AreStepValues diagram.now.case.now.parts values.now }
    ensures taken { IfSome result
        (HasTaken diagram.now.case.now.parts states.old states.new values.now.known.now values.now.solved.now at) }
    ensures out { IfNone result
        (IsOut diagram.now.case.now.parts states.old values.now.known.now values.now.solved.now at) }
    ensures stays { IfNone result (states.new ≡ states.old) }
{
    let block = &diagram.case.parts.blocks.as_slice()[at];
    let limits = limits_in_step(values.known, block);
    let solved = values.solved[at];
    let x = output(&limits, states[at].limiter, solved);
    let s = input_sum(diagram.places, values, at, x, block.inputs.as_slice());
    let signals = Signals {
        sum: s,
        solved,
        output: x,
    };
    let before = states[at].limiter;
    if !step(block, &diagram.laws[at], &limits, &mut states[at], signals) {
        return None;
    }
    let same = is_same(before, states[at].limiter);
    Some(Accepted { output: x, same })
}

/// Writes the output of one block, and answers whether a limiter has moved up to it.
fn put(out: &mut [i64], moved: bool, at: usize, accepted: Accepted) -> bool
    requires out { at < length out.old }
    ensures out { out.new ≡ slice_set out.old at accepted.output }
    ensures moved { result ≡ false → (moved ≡ false) × (accepted.same ≡ true) }
{
    out[at] = accepted.output;
    moved || !accepted.same
}

fn is_same(a: Limiter, b: Limiter) -> bool
    ensures { result ≡ true → a ≡ b }
{
    a == b
}

/// Takes the solved outputs into the blocks, in card order. An error is the first block that is out of range.
pub(crate) fn accept_all(
    diagram: &BlockDiagram<'_>,
    states: &mut [BlockState],
    values: &StepValues<'_>,
    out: &mut [i64],
    moved: &mut bool,
) -> Result<(), BlockRange>
    requires diagram { IsDiagram diagram.now }
    requires state_each { length states.old ≡ length diagram.now.case.now.parts.blocks }
    requires states_fit { All IsKept states.old }
    requires values { AreStepValues diagram.now.case.now.parts values.now }
    requires out { length out.old ≡ length diagram.now.case.now.parts.blocks }
    ensures value { (H : List StepRecord) → ((i : ℕ) → StandsAt diagram.now.case.now.parts states.old H i)
        → AcceptsAll result diagram.now.case.now.parts states.new out.new H values.now.known.now values.now.solved.now }
    ensures moved { OnOk result (moved.new ≡ false → KeepsLimiters states.old states.new) }
    ensures kept { All IsKept states.new }
    ensures small { OnOk result (AreUnknowns diagram.now.case.now.parts out.new) }
    ensures block { IfErr result (λ e. e.block < length diagram.now.case.now.parts.blocks) }
{
    *moved = false;
    for at in 0..diagram.case.parts.blocks.len() {
        match accept_one(diagram, states, values, at) {
            Some(accepted) => *moved = put(out, *moved, at, accepted),
            None => return Err(BlockRange { block: at }),
        }
    }
    Ok(())
}
