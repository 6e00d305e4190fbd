//! A whole run of calls of a kept factor, and a caller that has its clauses.
ghost use Rattle.std.specs.Prelude.{◌≡◌, ◌*◌, ◌<◌, ◌≤◌, length, All, IfOk, OnOk, IfErr, Ok, Err};
ghost use Rattle.emtp_elim.specs.Outcome.{outcome};
ghost use Rattle.emtp_tail.specs.Runs.{FitsSize};
ghost use Rattle.emtp_tests_numbers.specs.Tables.{table_rows};

use crate::table::{P, Table, filled};
use emtp_elim::{PlainFault, RowCause, RowFault, Rows};
use emtp_fix::Steps;
use emtp_tail::{Call, Kept, Reply, answer_all};
use std::alloc::{AllocError, Global};
use std::marker::Brand;
use std::process::Abort;
use std::sync::ledger::{Blank, Ledger};

/// A source of 100 V at one end of two branches of 1 ohm, whose other end has 1 ohm to ground. Its row is a unit row.
const AT_FIRST: [i64; 9] = [0, 0, 0, -P, 2 * P, -P, 0, -P, 2 * P];

/// With 0.5 ohm to ground.
const LAST_CHANGED: [i64; 9] = [0, 0, 0, -P, 2 * P, -P, 0, -P, 3 * P];

/// With the two branches gone from the middle.
const MIDDLE_GONE: [i64; 9] = [0, 0, 0, 0, 0, 0, 0, -P, 3 * P];

/// What is wrong with it.
const MIDDLE_FAULT: RowFault = RowFault {
    row: 1,
    cause: RowCause::ZeroPivot,
};

const RIGHT: [i128; 3] = [100_000_000_000, 0, 0];

/// The solution with 0.5 ohm to ground.
const DIVIDED: [i64; 3] = [100_000_000_000, 60_000_000_000, 20_000_000_000];

/// The voltages of this step, in nV, from the factor of the step before.
fn voltages<R: Rows, L: Ledger>(
    kept: &mut Kept,
    rows: &R,
    currents: &mut [i128],
    voltages: &mut [i64],
    steps: &mut Steps<L>,
) -> Result<(), PlainFault>
    requires size { kept.old.size ≡ length (R.matrix rows.now) }
    requires currents { length currents.old ≡ length (R.matrix rows.now) }
    requires voltages { length voltages.old ≡ length (R.matrix rows.now) }
    ensures size { kept.new.size ≡ kept.old.size }
    ensures solved { OnOk result (outcome (R.matrix rows.now) currents.old ≡ Ok voltages.new) }
    ensures fault { IfErr result (λ fault. outcome (R.matrix rows.now) currents.old ≡ Err fault) }
{
    if let Err(fault) = kept.update(rows, steps) {
        return Err(PlainFault::Row(fault));
    }
    match kept.solve(currents, voltages) {
        Ok(()) => Ok(()),
        Err(fault) => Err(PlainFault::Solve(fault)),
    }
}

/// A factor for the table of these numbers, of which no row is good yet.
pub fn opened(rt: &impl Abort, alloc: Global, size: usize, cells: &[i64]) -> Kept
    requires few { size ≤ 1000 }
    requires cells { length cells.now ≡ size * size }
    ensures { result.size ≡ size }
{
    let rows = filled(alloc, size, 0, cells).expect(rt, "memory");
    let kept = Kept::open(alloc, &rows).expect(rt, "memory");
    drop(rows);
    kept
}

/// What a call is answered.
#[derive(Clone, Copy)]
enum Wanted {
    Redone(usize),
    Faulty(RowFault),
    Divided,
    NotReady,
}

/// Three updates, a solution, a matrix at fault with which nothing is solved, and an update that mends it. Where there is
/// no matrix, the right side is solved for.
const RUN: [(Option<[i64; 9]>, Wanted); 8] = [
    (Some(AT_FIRST), Wanted::Redone(0)),
    (Some(AT_FIRST), Wanted::Redone(3)),
    (Some(LAST_CHANGED), Wanted::Redone(2)),
    (None, Wanted::Divided),
    (Some(MIDDLE_GONE), Wanted::Faulty(MIDDLE_FAULT)),
    (None, Wanted::NotReady),
    (Some(LAST_CHANGED), Wanted::Redone(1)),
    (None, Wanted::Divided),
];

fn is_wanted(reply: &Reply, wanted: Wanted) -> bool {
    match (reply, wanted) {
        (Reply::Redone(first), Wanted::Redone(wanted)) => *first == wanted,
        (Reply::Faulty(fault), Wanted::Faulty(wanted)) => *fault == wanted,
        (Reply::Solved(x), Wanted::Divided) => x.as_slice() == DIVIDED.as_slice(),
        (Reply::NotReady, Wanted::NotReady) => true,
        _ => false,
    }
}

fn call(alloc: Global, cells: Option<[i64; 9]>) -> Result<Call<Table>, AllocError>
    ensures { IfOk result (FitsSize (λ (t : Table). table_rows t.size t.fixed t.cells.items) 3) }
{
    match cells {
        Some(cells) => Ok(Call::Update(filled(alloc, 3, 1, &cells)?)),
        None => Ok(Call::Solve(Vec::from_slice(alloc, &RIGHT)?)),
    }
}

fn all_calls(alloc: Global) -> Result<Vec<Call<Table>>, AllocError>
    ensures { IfOk result (λ calls. All (FitsSize (λ (t : Table). table_rows t.size t.fixed t.cells.items) 3) calls.items) }
{
    let mut calls = Vec::new(alloc);
    for (cells, _) in RUN {
        calls.push(call(alloc, cells)?)?;
    }
    Ok(calls)
}

/// The whole run on one factor.
fn eight_calls<L: Ledger>(rt: &impl Abort, alloc: Global, blank: Blank)
    requires name { blank.name ≡ L.name }
    requires parts { blank.parts ≡ L.parts }
    requires some { 0 < blank.parts }
{
    let mut kept = opened(rt, alloc, 3, &AT_FIRST);
    let mut steps = Steps::<L>::new(blank);
    answer_run(rt, alloc, &mut kept, &mut steps);
    drop(kept);
}

fn answer_run<L: Ledger>(rt: &impl Abort, alloc: Global, kept: &mut Kept, steps: &mut Steps<L>)
    requires { kept.old.size ≡ 3 }
{
    let calls = all_calls(alloc).expect(rt, "memory");
    let replies = answer_all(alloc, kept, &calls, steps).expect(rt, "memory");
    run_is_right(rt, &replies);
}

fn run_is_right(rt: &impl Abort, replies: &[Reply]) {
    assert!(rt; replies.len() == RUN.len());
    for (at, (_, wanted)) in RUN.iter().enumerate() {
        assert!(rt;
            at < replies.len() && is_wanted(&replies[at], *wanted),
            "call {at}"
        );
    }
}

#[test]
fn answers_a_whole_run(rt: HostRuntime) {
    eight_calls::<Brand>(&rt, rt.alloc(), Blank::new(1));
}
