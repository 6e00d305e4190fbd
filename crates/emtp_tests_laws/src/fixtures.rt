//! What the tests share.

ghost use Rattle.std.specs.Prelude.{◌≡◌, ◌≤◌, length, IfOk, OnOk};
ghost use Rattle.emtp_case.specs.Case.{empty_parts};

use emtp_case::{Draft, Name, RunData};
use std::alloc::{AllocError, Global};

/// 100 microseconds a step, five steps.
pub const RUN: RunData = RunData {
    dt: 100_000_000,
    steps: 5,
    every: 1,
    tolerance: 10_000_000,
};

/// 1 volt in nV, 1 ampere in nA.
pub const V: i64 = 1_000_000_000;

/// What stands for a current that is out of range.
pub const OUT: i64 = i64::MIN;

/// A case with so many nodes, and nothing else so far. No law asks for their names, so all have one.
pub fn nodes(alloc: Global, count: usize) -> Result<Draft, AllocError>
    requires { count ≤ 6 }
    ensures { IfOk result (λ draft. (draft.parts ≡ record (empty_parts RUN) { nodes = draft.parts.nodes }) × (length draft.parts.nodes ≡ count)) }
{
    let mut draft = Draft::new(alloc, RUN)?;
    match add_nodes(&mut draft, count) {
        Ok(()) => Ok(draft),
        Err(error) => {
            drop(draft);
            Err(error)
        }
    }
}

fn add_nodes(draft: &mut Draft, count: usize) -> Result<(), AllocError>
    requires few { count ≤ 6 }
    requires none { draft.old.parts ≡ empty_parts RUN }
    ensures others { OnOk result (draft.new.parts ≡ record draft.old.parts { nodes = draft.new.parts.nodes }) }
    ensures count { OnOk result (length draft.new.parts.nodes ≡ count) }
{
    for _ in 0..count {
        draft.add_node(Name::new(b"N"))?;
    }
    Ok(())
}
