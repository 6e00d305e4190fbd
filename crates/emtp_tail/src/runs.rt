// Whole runs of calls on a kept factor.
ghost use Rattle.std.specs.Prelude.{◌≡◌, length, All, IfOk};
ghost use Rattle.emtp_tail.specs.Runs.{FitsSize, SolvesTo, Step, Run};

use crate::Kept;
use emtp_elim::{RowFault, Rows, SolveFault};
use emtp_fix::Steps;
use std::alloc::{AllocError, Global};
use std::marker::Model;
use std::sync::ledger::Ledger;

/// A call on a kept factor.
#[derive(Drop)]
pub enum Call<R> {
    /// Make the factor that of these rows.
    Update(R),

    /// Solve for this right side, in units of 1e-9.
    Solve(Vec<i128>),
}

/// The unknowns of a system, in units of 1e-9.
#[derive(Drop)]
pub struct Unknowns {
    values: Vec<i64>,
}

impl Model for Unknowns {
    ghost use Rattle.std.specs.Prelude.{ℤ, List};

    ghost Value = { List ℤ };

    ghost view = { λ x. x.values.items };
}

impl Unknowns {
    /// The unknowns, in the order of the rows.
    pub fn as_slice(&self) -> &[i64]
        ensures { result.now ≡ self.now }
    {
        self.values.as_slice()
    }
}

/// What a call is answered.
#[derive(Drop)]
pub enum Reply {
    /// The rows from this one on were redone; where none was, this is the size.
    Redone(usize),

    /// The matrix has this fault.
    Faulty(RowFault),

    /// The system has this solution.
    Solved(Unknowns),

    /// A right side or an unknown leaves its range.
    TooLarge(SolveFault),

    /// There is no matrix, or the last one was at fault.
    NotReady,
}

/// Solves for one right side, with all rows good.
fn solve_for(alloc: Global, kept: &Kept, right: &[i128]) -> Result<Reply, AllocError>
    requires all { length kept.now.rows ≡ kept.now.size }
    requires right { length right.now ≡ kept.now.size }
    ensures { IfOk result (SolvesTo kept.now right.now) }
{
    let mut sides = Vec::from_slice(alloc, right)?;
    let mut values = vec![in alloc; 0i64; right.len()]?;
    match kept.solve(sides.as_mut_slice(), values.as_mut_slice()) {
        Ok(()) => Ok(Reply::Solved(Unknowns { values })),
        Err(fault) => Ok(Reply::TooLarge(fault)),
    }
}

/// Answers one call.
fn answer<R: Rows, L: Ledger>(
    alloc: Global,
    kept: &mut Kept,
    call: &Call<R>,
    steps: &mut Steps<L>,
) -> Result<Reply, AllocError>
    requires { FitsSize R.matrix kept.old.size call.now }
    ensures size { kept.new.size ≡ kept.old.size }
    ensures step { IfOk result (λ reply. Step R.matrix kept.old steps.old call.now reply kept.new steps.new) }
{
    match call {
        Call::Update(rows) => match kept.update(rows, steps) {
            Ok(first) => Ok(Reply::Redone(first)),
            Err(fault) => Ok(Reply::Faulty(fault)),
        },
        Call::Solve(right) => {
            if kept.good() < kept.size() {
                return Ok(Reply::NotReady);
            }
            solve_for(alloc, kept, right)
        }
    }
}

/// Answers calls in turn, whatever matrices come, and changed in whatever places.
///
/// Each right side is solved for as full elimination of the matrix that was given last does, from its first row. An
/// update is at fault exactly where that matrix is, and ticks once for each row that it redoes.
pub fn answer_all<R: Rows, L: Ledger>(
    alloc: Global,
    kept: &mut Kept,
    calls: &[Call<R>],
    steps: &mut Steps<L>,
) -> Result<Vec<Reply>, AllocError>
    requires { All (FitsSize R.matrix kept.old.size) calls.now }
    ensures size { kept.new.size ≡ kept.old.size }
    ensures run { IfOk result (λ replies. Run R.matrix kept.old steps.old calls.now replies.items kept.new steps.new) }
{
    let mut replies = Vec::new(alloc);
    for call in calls {
        let reply = answer(alloc, kept, call, steps)?;
        replies.push(reply)?;
    }
    Ok(replies)
}
