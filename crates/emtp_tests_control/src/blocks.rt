//! A caller that has the clauses of a step of the blocks.

ghost use Rattle.std.specs.Prelude.{◌≡◌, List, length, OnOk};
ghost use Rattle.emtp_case.specs.held.Control.{AreKnown};
ghost use Rattle.emtp_case.specs.StepRecord.{StepRecord};
ghost use Rattle.emtp_blocks.specs.held.BlockRows.{StandsFor};
ghost use Rattle.emtp_tests_control.specs.Stepping.{Steps};

use emtp_blocks::{BlockRows, rows_are_the_matrix};
use emtp_elim::eliminate_plain;
use std::alloc::Global;

/// Why a step of the blocks has no end.
#[derive(Clone, Copy)]
enum Stop {
    /// Their system has no solution in range.
    Unsolved,
    /// The input or the chain of a block left its range.
    OutOfRange,
}

/// One step of all blocks as the control makes it, from the values that are known before it: `x` has their recorded
/// outputs then.
fn step(
    alloc: Global,
    blocks: &mut BlockRows<'_>,
    known: &[i64],
    rhs: &mut [i128],
    x: &mut [i64],
) -> Result<(), Stop>
    requires known { AreKnown blocks.old.case known.now }
    requires rhs { length rhs.old ≡ length blocks.old.case.blocks }
    requires x { length x.old ≡ length blocks.old.case.blocks }
    ensures case { blocks.new.case ≡ blocks.old.case }
    ensures steps { (H : List StepRecord) → StandsFor blocks.old H → OnOk result (Steps blocks.old.case H known.now blocks.new x.new) }
{
    rows_are_the_matrix(blocks);
    blocks.history(known, rhs);
    match eliminate_plain(alloc, blocks, rhs, x) {
        Ok(()) => {}
        Err(_) => return Err(Stop::Unsolved),
    }
    match blocks.accept(known, x) {
        Ok(()) => Ok(()),
        Err(_) => Err(Stop::OutOfRange),
    }
}
