//! Which rows a change touches, worked out by hand.

ghost use Rattle.std.specs.Prelude.{◌≡◌, ◌<◌, ◌≤◌, ◌≢◌, length, true, unsigned_abs, IfOk, IfErr, OnOk};
ghost use Rattle.emtp_fix.specs.declared.limit.TheConstants.{LARGEST_ENTRY};
ghost use Rattle.emtp_case.specs.held.Branch.{IsLumped};
ghost use Rattle.emtp_case.specs.Case.{empty_parts};
ghost use Rattle.emtp_case.specs.RowOrder.{order_of};
ghost use Rattle.emtp_case.specs.held.Sizes.{sizes_with};
ghost use Rattle.emtp_case.specs.held.Source.{IsSource};
ghost use Rattle.emtp_elim.specs.held.Fault.{IsRowFault};
ghost use Rattle.emtp_rows.specs.Nodal.{nodal_matrix};
ghost use Rattle.emtp_rows.specs.held.Touched.{StandsUntouched};

use emtp_case::{Case, Draft, Lumped, Name, RowKind, RowOrder, RunData, Shape, Source, order};
use emtp_elim::{RowFault, Rows};
use emtp_fix::Steps;
use emtp_rows::NetRows;
use emtp_tail::Kept;
use std::alloc::{AllocError, Global};
use std::sync::ledger::Ledger;
use std::test::Fail;

/// Gives a branch another conductance, and redoes the kept factor from the first row that changed; rows before the
/// first touched one are neither filled nor compared.
pub fn follow<L: Ledger>(
    rows: &mut NetRows<'_>,
    kept: &mut Kept,
    branch: usize,
    g: i64,
    steps: &mut Steps<L>,
) -> Result<(), RowFault>
    requires there { branch < length rows.old.nodal.case.branches }
    requires small { unsigned_abs g ≤ LARGEST_ENTRY }
    requires size { kept.old.size ≡ length (nodal_matrix rows.old.nodal) }
    requires stands { StandsUntouched rows.old kept.old.rows }
    ensures stands { StandsUntouched rows.new kept.new.rows }
    ensures good { OnOk result (kept.new.rows ≡ nodal_matrix rows.new.nodal) }
    ensures fault { IfErr result (λ fault. IsRowFault (nodal_matrix rows.new.nodal) fault.row fault.cause) }
{
    rows.set_conductance(branch, g);
    let from = rows.take_touched().min(kept.good());
    let first = kept.changed_from(&*rows, from);
    kept.update_from(&*rows, first, steps)
}

/// 100 microseconds a step, five steps.
const RUN: RunData = RunData {
    dt: 100_000_000,
    steps: 5,
    every: 1,
    tolerance: 10_000_000,
};

/// 1 ohm between two of three nodes.
#[tactic(auto, unfolding(emtp_fix::specs::Rounding::near, emtp_fix::specs::Rounding::near_abs, emtp_case::specs::Branch::capacitor_impedance))]
fn ohm(from: u32, to: u32) -> Lumped
    requires from_there { from ≤ 3 }
    requires to_there { to ≤ 3 }
    requires apart { from ≢ to }
    ensures { IsLumped RUN (sizes_with 3) result }
{
    Lumped {
        line: 4,
        from,
        to,
        r: 1_000_000,
        l: 0,
        c: 0,
    }
}

/// 100 V at SRC.
fn battery() -> Source
    ensures { IsSource (sizes_with 3) result }
{
    Source {
        line: 8,
        node: 1,
        current: false,
        shape: Shape::Step,
        amplitude: 100_000_000_000,
        start: 0,
        stop: None,
    }
}

/// 1 ohm from SRC to MID, from MID to ground and from MID to END. Its rows are SRC, which has a source, END, at which one
/// branch ends, and MID, at which three do.
fn network(alloc: Global) -> Result<Case, AllocError>
    ensures nodes { IfOk result (λ case. length case.parts.nodes ≡ 3) }
    ensures branches { IfOk result (λ case. length case.parts.branches ≡ 3) }
{
    let mut draft = Draft::new(alloc, RUN)?;
    match add_parts(&mut draft) {
        Ok(()) => Ok(draft.finish_network()),
        Err(error) => {
            drop(draft);
            Err(error)
        }
    }
}

fn add_parts(draft: &mut Draft) -> Result<(), AllocError>
    requires { draft.old.parts ≡ empty_parts RUN }
    ensures nodes { OnOk result (length draft.new.parts.nodes ≡ 3) }
    ensures branches { OnOk result (length draft.new.parts.branches ≡ 3) }
    ensures others { OnOk result (draft.new.parts ≡ record draft.old.parts { nodes = draft.new.parts.nodes; branches = draft.new.parts.branches; sources = draft.new.parts.sources }) }
{
    draft.add_node(Name::new(b"SRC"))?;
    draft.add_node(Name::new(b"MID"))?;
    draft.add_node(Name::new(b"END"))?;
    draft.add_lumped(ohm(1, 2))?;
    draft.add_lumped(ohm(2, 0))?;
    draft.add_lumped(ohm(2, 3))?;
    draft.add_source(battery())
}

/// END tied to the source.
const TIED: [RowKind; 3] = [RowKind::Source, RowKind::Tie(0), RowKind::Kcl];

/// Ties END to the source.
fn tie(rows: &mut NetRows<'_>)
    requires nodes { length rows.old.nodal.case.nodes ≡ 3 }
    requires fixed { (order_of rows.old.nodal.case).fixed ≡ 1 }
    ensures { rows.new.nodal.case ≡ rows.old.nodal.case }
{
    rows.set_kinds(&TIED);
}

/// The first row that another conductance touches.
fn touched_by(rows: &mut NetRows<'_>, branch: usize, g: i64) -> usize
    requires there { branch < length rows.old.nodal.case.branches }
    requires small { unsigned_abs g ≤ LARGEST_ENTRY }
    ensures { rows.new.nodal.case ≡ rows.old.nodal.case }
{
    rows.set_conductance(branch, g);
    rows.take_touched()
}

fn is_untouched(rows: &mut NetRows<'_>) -> bool
    ensures case { rows.new.nodal.case ≡ rows.old.nodal.case }
    ensures fixed { result ≡ true → (order_of rows.old.nodal.case).fixed ≡ 1 }
{
    rows.fixed() == 1 && rows.take_touched() == 0 && rows.take_touched() == 3
}

/// Whether new conductances touch the rows of their ends, and equal ones none.
fn touch_their_ends(rows: &mut NetRows<'_>) -> bool
    requires { length rows.old.nodal.case.branches ≡ 3 }
    ensures { rows.new.nodal.case ≡ rows.old.nodal.case }
{
    touched_by(rows, 0, 10) == 2
        && touched_by(rows, 1, 20) == 2
        && touched_by(rows, 1, 20) == 3
        && touched_by(rows, 2, 30) == 1
}

/// Whether another kind touches its row, and a branch at a tied node the row of its other end alone.
fn touch_no_tied_row(rows: &mut NetRows<'_>) -> bool
    requires nodes { length rows.old.nodal.case.nodes ≡ 3 }
    requires branches { length rows.old.nodal.case.branches ≡ 3 }
    requires fixed { (order_of rows.old.nodal.case).fixed ≡ 1 }
{
    tie(rows);
    rows.take_touched() == 1 && touched_by(rows, 2, 31) == 2
}

fn are_touched(alloc: Global, case: &Case, order: &RowOrder) -> Result<bool, AllocError>
    requires order { order.now ≡ order_of case.now.parts }
    requires nodes { length case.now.parts.nodes ≡ 3 }
    requires branches { length case.now.parts.branches ≡ 3 }
{
    let mut rows = NetRows::open(alloc, case, order)?;
    let are = is_untouched(&mut rows)
        && touch_their_ends(&mut rows)
        && touch_no_tied_row(&mut rows);
    drop(rows);
    Ok(are)
}

fn are_touched_in(alloc: Global, case: &Case) -> Result<bool, AllocError>
    requires nodes { length case.now.parts.nodes ≡ 3 }
    requires branches { length case.now.parts.branches ≡ 3 }
{
    let order = order(alloc, case)?;
    let are = are_touched(alloc, case, &order);
    drop(order);
    are
}

#[test]
fn first_touched_row(rt: HostRuntime) -> Result<(), Fail> {
    let case = network(rt.alloc())?;
    let are = are_touched_in(rt.alloc(), &case);
    drop(case);
    assert!(rt; are?);
    Ok(())
}
