//! All pseudo-nonlinear branches of a run.

ghost use Rattle.std.specs.Prelude.{◌≡◌, ◌+◌, ◌<◌, ◌≤◌, [], IfOk, IsTrue, length};
ghost use Rattle.emtp_case.specs.Branch.{points_of};
ghost use Rattle.emtp_case.specs.StepRecord.{latest};
ghost use Rattle.emtp_case.specs.declared.limit.TheConstants.{MOST_STEPS};
ghost use Rattle.emtp_worth.specs.Found.{reading};
ghost use Rattle.emtp_worth.specs.Judged.{all_judged, more};
ghost use Rattle.emtp_worth.specs.held.Run.{IsJudged, before};

use crate::characteristic::due;
use crate::found::{Found, Reading};
use crate::run::Run;
use emtp_case::{Branch, Case, Point, Pseudo, PseudoState};
use std::alloc::{AllocError, Global};

/// A pseudo-nonlinear branch, and what is found of it.
#[derive(Clone, Copy)]
pub struct Judged {
    /// Its place among the branches.
    pub branch: usize,
    /// What the case says of it.
    pub card: Pseudo,
    /// What the records say of it.
    pub found: Found,
}

/// The points of a branch.
fn points<'a>(case: &'a Case, card: &Pseudo) -> &'a [Point]
    requires { card.now.first + card.now.count ≤ length case.now.parts.points }
    ensures value { result.now ≡ points_of case.now.parts.points card.now.first card.now.count }
    ensures count { length result.now ≡ card.now.count }
{
    let first = card.first as usize;
    &case.parts.points.as_slice()[first..first + card.count as usize]
}

/// A branch in a step, at a voltage and in a state, where its characteristic has `due`.
fn reading(reactor: bool, step: u32, voltage: i64, state: PseudoState, due: i128) -> Reading
    ensures { result ≡ reading reactor step voltage state due }
{
    Reading {
        step,
        voltage,
        current: state.current,
        value: if reactor { state.flux } else { voltage },
        due,
        shown: if reactor { state.current } else { voltage },
    }
}

/// A branch with the last record of a run more.
fn look<R: Run>(case: &Case, run: &R, step: u32, j: Judged) -> Judged
    requires same { R.case run.now ≡ case.now.parts }
    requires live { IsTrue (R.live run.now) }
    requires judged { IsJudged case.now.parts step j }
    requires few { step ≤ MOST_STEPS }
    ensures { result ≡ more case.now.parts step (latest (R.records run.now)) j }
{
    let points = points(case, &j.card);
    let voltage = run.voltage(j.card.from) - run.voltage(j.card.to);
    let state = run.pseudo(j.branch);
    let due = due(points, state.current);
    let reading = reading(j.card.reactor, step, voltage, state, due);
    Judged {
        found: j.found.with(points, case.parts.run.every, reading),
        ..j
    }
}

/// All branches with the last record of a run more.
pub fn look_all<R: Run>(case: &Case, run: &R, judged: &mut [Judged])
    requires same { R.case run.now ≡ case.now.parts }
    requires live { IsTrue (R.live run.now) }
    requires judged { judged.old ≡ all_judged case.now.parts (before (R.records run.now)) }
    ensures { judged.new ≡ all_judged case.now.parts (R.records run.now) }
{
    let step = run.done();
    for at in 0..judged.len() {
        judged[at] = look(case, run, step, judged[at]);
    }
}

/// The pseudo-nonlinear branches of a case, of which no record says anything yet.
pub fn listed(alloc: Global, case: &Case) -> Result<Vec<Judged>, AllocError>
    ensures { IfOk result (λ v. v.items ≡ all_judged case.now.parts []) }
{
    let branches = case.parts.branches.as_slice();
    let mut judged = Vec::new(alloc);
    for at in 0..branches.len() {
        if let Branch::Pseudo(card) = branches[at] {
            judged.push(Judged {
                branch: at,
                card,
                found: Found::nothing(),
            })?;
        }
    }
    Ok(judged)
}

/// Makes the steps of a run, and says what its records say of the pseudo-nonlinear branches of its case.
///
/// # Errors
///
/// [`AllocError`] where memory is wanting for the list of the branches.
pub fn judge<R: Run>(alloc: Global, case: &Case, run: &mut R) -> Result<Vec<Judged>, AllocError>
    requires same { R.case run.old ≡ case.now.parts }
    requires live { IsTrue (R.live run.old) }
    requires rest { length (R.records run.old) ≡ 1 }
    ensures case { R.case run.new ≡ R.case run.old }
    ensures judged { IfOk result (λ v. v.items ≡ all_judged case.now.parts (R.whole run.old)) }
{
    let mut judged = listed(alloc, case)?;
    look_all(case, run, &mut judged);
    'steps: while run.advance() {
        look_all(case, run, &mut judged);
    }
    Ok(judged)
}
