//! The blocks of a case.

ghost use Rattle.std.specs.Prelude.{◌≡◌, ◌≤◌, ◌<◌, ◌∷◌, [], ℕ, List, All, pos, length, position, ◌==◌, replicate, false, unsigned_abs, IfOk, OnOk, IfErr};
ghost use Rattle.emtp_case.specs.StepRecord.{StepRecord, rest_of};
ghost use Rattle.emtp_case.specs.declared.control.Block.{Block};
ghost use Rattle.emtp_elim.specs.Matrix.{item, row_of};
ghost use Rattle.emtp_blocks.specs.held.Block.{IsLaw};
ghost use Rattle.emtp_case.specs.held.Control.{AreKnown};
ghost use Rattle.emtp_blocks.specs.held.BlockRows.{Blocking, StandsFor, Accepts, AreLaws, AreUnknowns, limiters_kept, places_of, IsAtRest, IsDiagram};
ghost use Rattle.emtp_blocks.specs.System.{block_of, control_matrix, right};
ghost use Rattle.emtp_blocks.specs.declared.next.TheConstants.{LARGEST_CHAIN};

use crate::accepting::accept_all;
use crate::diagram::BlockDiagram;
use crate::inputs::{StepValues, add_inputs, fill_unit};
use crate::law::{BlockLaw, law};
use crate::right::fill_right;
use emtp_case::{Block, BlockState, Case, Limiter};
use emtp_elim::Rows;
use std::alloc::{AllocError, Global};
use std::marker::Model;

/// The first block, in card order, that left its range.
#[derive(Clone, Copy, Debug, PartialEq, Eq)]
pub struct BlockRange {
    /// Its place among the blocks.
    pub block: usize,
}

/// The blocks of a case at their last step, and the rows of their next matrix.
#[derive(Drop)]
pub struct BlockRows<'a> {
    case: &'a Case,
    // the block of each variable that is a block's output
    places: Vec<Option<usize>>,
    laws: Vec<BlockLaw>,
    states: Vec<BlockState>,
    // room for the recorded outputs
    out: Vec<i64>,
    moved: bool,
}

impl<'a> Model for BlockRows<'a> {
    ghost use Rattle.std.specs.Prelude.{[], ◌∷◌, vec_capacity};
    ghost use Rattle.emtp_blocks.specs.held.BlockRows.{Blocking, IsHeld};

    ghost Value = { Blocking };

    ghost use Rattle.std.specs.Coded.{codes};

    ghost coded = { Prim.hlevel codes };

    ghost view = { λ s. record {
      case = s.case.now.parts;
      states = s.states.items;
      moved = s.moved;
      capacities = vec_capacity s.states ∷ vec_capacity s.out ∷ [];
    } };

    ghost invariant = { λ s. IsHeld s.case.now.parts s.places.items s.laws.items s.states.items s.out.items };
}

impl<'a> BlockRows<'a> {
    /// The blocks at rest, as record 0 has them. All memory is taken here.
    pub fn open(alloc: Global, case: &'a Case) -> Result<BlockRows<'a>, AllocError>
        ensures case { IfOk result (λ s. s.case ≡ case.now.parts) }
        ensures stands { IfOk result (λ s. StandsFor s (rest_of case.now.parts ∷ [])) }
    {
        let places = places_of(alloc, case)?;
        let laws = laws_of(alloc, case)?;
        let states = at_rest(alloc, case.parts.blocks.len())?;
        let out = zeros(alloc, case.parts.blocks.len())?;
        Ok(BlockRows {
            case,
            places,
            laws,
            states,
            out,
            moved: true,
        })
    }

    /// Whether the last step moved a limiter. Where it did not, the matrix of the next step is that of the last one.
    pub fn moved(&self) -> bool
        ensures { result ≡ self.now.moved }
    {
        self.moved
    }

    /// Fills in the right sides of the next step, in nano.
    pub fn history(&self, known: &[i64], rhs: &mut [i128])
        requires known { AreKnown self.now.case known.now }
        requires rhs { length rhs.old ≡ length self.now.case.blocks }
        ensures value { (H : List StepRecord) → StandsFor self.now H → rhs.new ≡ right self.now.case H known.now }
        ensures small { (j : ℕ) → j < length rhs.old → unsigned_abs (item rhs.new j) ≤ LARGEST_CHAIN }
    {
        let diagram = BlockDiagram {
            case: self.case,
            places: &self.places,
            laws: &self.laws,
        };
        fill_right(&diagram, &self.states, known, rhs);
    }

    /// Takes the solved outputs, moves the states and leaves the recorded outputs in `x`. After an error what is left is
    /// unstated. It takes no memory: the lists that it writes keep their capacities.
    pub fn accept(&mut self, known: &[i64], x: &mut [i64]) -> Result<(), BlockRange>
        requires known { AreKnown self.old.case known.now }
        requires x { AreUnknowns self.old.case x.old }
        ensures case { self.new.case ≡ self.old.case }
        ensures capacities { self.new.capacities ≡ self.old.capacities }
        ensures value { (H : List StepRecord) → StandsFor self.old H → Accepts result self.new x.new H known.now x.old }
        ensures moved { OnOk result (self.new.moved ≡ false
            → limiters_kept self.new.states ≡ limiters_kept self.old.states) }
        ensures small { OnOk result (AreUnknowns self.old.case x.new) }
        ensures block { IfErr result (λ e. e.block < length self.old.case.blocks) }
    {
        let diagram = BlockDiagram {
            case: self.case,
            places: &self.places,
            laws: &self.laws,
        };
        let values = StepValues { known, solved: x };
        match accept_all(
            &diagram,
            &mut self.states,
            &values,
            &mut self.out,
            &mut self.moved,
        ) {
            Ok(()) => {}
            Err(e) => return Err(e),
        }
        x.copy_from_slice(&self.out);
        Ok(())
    }
}

impl<'a> Rows for BlockRows<'a> {
    ghost use Rattle.emtp_blocks.specs.held.BlockRows.{rows_of_blocks};

    ghost matrix = { rows_of_blocks };

    ghost fixed = { λ s. 0 };

    fn size(&self) -> usize {
        self.case.parts.blocks.len()
    }

    fn fixed(&self) -> usize {
        0
    }

    fn row(&self, i: usize, out: &mut [i128]) {
        let diagram = BlockDiagram {
            case: self.case,
            places: &self.places,
            laws: &self.laws,
        };
        fill_block(&diagram, &self.states, i, out);
    }
}

/// Fills `out` with the row of block `i`.
fn fill_block(diagram: &BlockDiagram<'_>, states: &[BlockState], i: usize, out: &mut [i128])
    requires there { i < length diagram.now.case.now.parts.blocks }
    requires diagram { IsDiagram diagram.now }
    requires state_each { length states.now ≡ length diagram.now.case.now.parts.blocks }
    requires out { length out.old ≡ length diagram.now.case.now.parts.blocks }
    ensures { out.new ≡ row_of (control_matrix diagram.now.case.now.parts (limiters_kept states.now)) i }
{
    let block = &diagram.case.parts.blocks.as_slice()[i];
    fill_unit(i, out);
    match states[i].limiter {
        Limiter::Free => add_inputs(
            diagram.places,
            diagram.laws[i].gain,
            block.inputs.as_slice(),
            out,
        ),
        Limiter::AtHigh => {}
        Limiter::AtLow => {}
    }
}

/// The block of each variable.
fn places_of(alloc: Global, case: &Case) -> Result<Vec<Option<usize>>, AllocError>
    ensures { IfOk result (λ places. places.items ≡ places_of case.now.parts) }
{
    let mut places = Vec::new(alloc);
    for var in 0..case.parts.vars.len() {
        places.push(block_of(case.parts.blocks.as_slice(), var))?;
    }
    Ok(places)
}

fn block_of(blocks: &[Block], var: usize) -> Option<usize>
    ensures { result ≡ position (λ (b : Block). b.var == var) blocks.now }
{
    blocks.iter().position(|b| b.var as usize == var)
}

/// The law of each block.
fn laws_of(alloc: Global, case: &Case) -> Result<Vec<BlockLaw>, AllocError>
    ensures each { IfOk result (λ laws. length laws.items ≡ length case.now.parts.blocks) }
    ensures are { IfOk result (λ laws. AreLaws case.now.parts laws.items (length case.now.parts.blocks)) }
    ensures fit { IfOk result (λ laws. All IsLaw laws.items) }
{
    let mut laws = Vec::new(alloc);
    for at in 0..case.parts.blocks.len() {
        laws.push(law(case.parts.run.dt, &case.parts.blocks.as_slice()[at]))?;
    }
    Ok(laws)
}

const REST: BlockState = BlockState {
    limiter: Limiter::Free,
    errors: [0; 8],
    chain: [0; 8],
};

fn at_rest(alloc: Global, count: usize) -> Result<Vec<BlockState>, AllocError>
    ensures each { IfOk result (λ states. length states.items ≡ count) }
    ensures rest { IfOk result (λ states. All IsAtRest states.items) }
{
    let mut states = Vec::new(alloc);
    for _at in 0..count {
        states.push(REST)?;
    }
    Ok(states)
}

fn zeros(alloc: Global, count: usize) -> Result<Vec<i64>, AllocError>
    ensures { IfOk result (λ numbers. numbers.items ≡ replicate count (pos 0)) }
{
    vec![in alloc; 0i64; count]
}
