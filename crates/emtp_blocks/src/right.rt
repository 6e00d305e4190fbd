//! The right side of the block system.

ghost use Rattle.std.specs.Prelude.{◌≡◌, ◌≤◌, ◌<◌, ◌+ℤ◌, ◌*ℤ◌, ℕ, ℤ, List, length, slice_get, unsigned_abs, All};
ghost use Rattle.emtp_case.specs.StepRecord.{StepRecord};
ghost use Rattle.emtp_case.specs.declared.control.Block.{Block};
ghost use Rattle.emtp_case.specs.declared.control.Input.{Input};
ghost use Rattle.emtp_elim.specs.Matrix.{item};
ghost use Rattle.emtp_fix.specs.Rounding.{near};
ghost use Rattle.emtp_blocks.specs.Block.{held, past_output};
ghost use Rattle.emtp_blocks.specs.held.Block.{IsKept, IsLaw};
ghost use Rattle.emtp_case.specs.held.Control.{AreKnown};
ghost use Rattle.emtp_blocks.specs.held.BlockRows.{IsDiagram, IsStateAt, StandsAt, place_in};
ghost use Rattle.emtp_blocks.specs.System.{right, right_by, outside_sum};
ghost use Rattle.emtp_fix.specs.declared.limit.TheConstants.{LARGEST_VALUE, PICO};
ghost use Rattle.emtp_blocks.specs.declared.next.TheConstants.{LARGEST_CHAIN};

use crate::diagram::BlockDiagram;
use crate::inputs::outside_sum;
use crate::law::BlockLaw;
use crate::limits::{held, limits_in_step};
use crate::moving::past_output;
use crate::scaling::pico_product;
use emtp_case::{Block, BlockState, Limiter};

/// The right side of a free block, in nano: what the inputs from outside and the past bring.
fn free_right(
    block: &Block,
    law: &BlockLaw,
    state: &BlockState,
    places: &[Option<usize>],
    known: &[i64],
) -> i128
    requires order { block.now.order ≤ 7 }
    requires few { length block.now.inputs ≤ 5 }
    requires there { All (λ (i : Input). i.var < length known.now) block.now.inputs }
    requires law { IsLaw law.now }
    requires state { IsKept state.now }
    requires places { length places.now ≡ length known.now }
    requires known { All (λ v. unsigned_abs v ≤ LARGEST_VALUE) known.now }
    ensures value { result ≡ near (law.now.gain *ℤ outside_sum (place_in places.now) known.now block.now.inputs) PICO
        +ℤ past_output block.now.order state.now.errors state.now.chain }
    ensures small { unsigned_abs result ≤ LARGEST_CHAIN }
{
    let s = outside_sum(places, known, block.inputs.as_slice());
    pico_product(law.gain, s) + past_output(state, block.order as usize)
}

/// The right side of a block, in nano.
fn right_of(diagram: &BlockDiagram<'_>, state: &BlockState, known: &[i64], at: usize) -> i128
    requires there { at < length diagram.now.case.now.parts.blocks }
    requires diagram { IsDiagram diagram.now }
    requires state { IsKept state.now }
    requires known { AreKnown diagram.now.case.now.parts known.now }
    ensures value { (H : List StepRecord) → IsStateAt diagram.now.case.now.parts state.now H at
        → result ≡ right_by diagram.now.case.now.parts H known.now at (slice_get diagram.now.case.now.parts.blocks at) }
    ensures small { unsigned_abs result ≤ LARGEST_CHAIN }
{
    let block = &diagram.case.parts.blocks.as_slice()[at];
    let limits = limits_in_step(known, block);
    match state.limiter {
        Limiter::Free => free_right(block, &diagram.laws[at], state, diagram.places, known),
        Limiter::AtHigh => held(&limits, Limiter::AtHigh, 0) as i128,
        Limiter::AtLow => held(&limits, Limiter::AtLow, 0) as i128,
    }
}

/// Fills in the right sides of all blocks.
pub(crate) fn fill_right(
    diagram: &BlockDiagram<'_>,
    states: &[BlockState],
    known: &[i64],
    rhs: &mut [i128],
)
    requires diagram { IsDiagram diagram.now }
    requires state_each { length states.now ≡ length diagram.now.case.now.parts.blocks }
    requires states_fit { All IsKept states.now }
    requires known { AreKnown diagram.now.case.now.parts known.now }
    requires rhs { length rhs.old ≡ length diagram.now.case.now.parts.blocks }
    ensures value { (H : List StepRecord) → ((i : ℕ) → StandsAt diagram.now.case.now.parts states.now H i)
        → rhs.new ≡ right diagram.now.case.now.parts H known.now }
    ensures small { (j : ℕ) → j < length rhs.old → unsigned_abs (item rhs.new j) ≤ LARGEST_CHAIN }
{
    for at in 0..diagram.case.parts.blocks.len() {
        rhs[at] = right_of(diagram, &states[at], known, at);
    }
}
