//! The number of a run's last record that lies nearest to its range's end.

ghost use Rattle.std.specs.Prelude.{Some, ◌≡◌, ◌+◌, ◌<◌, ◌≤◌, IsTrue, length, slice_get, unsigned_abs};
ghost use Rattle.emtp_case.specs.StepRecord.{latest};
ghost use Rattle.emtp_case.specs.held.Branch.{HasSeriesNumbers, IsBranch};
ghost use Rattle.emtp_case.specs.held.RunData.{IsTimeStep};
ghost use Rattle.emtp_case.specs.held.Sizes.{sizes_of};
ghost use Rattle.emtp_worth.specs.Nearest.{greater, held, kept_voltage, magnitude, nearest, with_branch, with_branches, with_numbers, with_switch, with_switches};

use crate::run::Run;
use emtp_case::{Branch, Case, Lumped, Switch, branch_name, inductor_impedance, switch_name};
use emtp_fix::{LARGEST_VALUE, MICRO, scaled};

/// What a number of a record is of.
#[derive(Clone, Copy)]
pub enum Number {
    /// The voltage of a node, in nV.
    Voltage(u32),
    /// The current of a branch, in nA: into a line at its first end.
    Current(Branch),
    /// The voltage 2 L i / DELTAT that the inductance of a series branch keeps of its current for the next step, in nV.
    Kept(Branch),
    /// The flux of a nonlinear reactor, in pWb.
    Flux(Branch),
    /// The current of a switch, in nA.
    Through(Switch),
}

/// A number of a record that isn't 0. Each range ends at 10^18.
#[derive(Clone, Copy)]
pub struct Reached {
    /// What it is of.
    pub of: Number,
    /// Its value.
    pub value: i64,
}

/// The magnitude of a number; 0 of none.
fn magnitude(best: &Option<Reached>) -> u64
    ensures { result ≡ magnitude best.now }
{
    match best {
        None => 0,
        Some(reached) => reached.value.unsigned_abs(),
    }
}

/// The greater one of two numbers; of equal ones the first, and a 0 never.
fn greater(best: Option<Reached>, of: Number, value: i64) -> Option<Reached>
    ensures { result ≡ greater best of value }
{
    if magnitude(&best) < value.unsigned_abs() {
        Some(Reached { of, value })
    } else {
        best
    }
}

/// A number held to 10^18.
fn held(x: i128) -> i64
    ensures { result ≡ held x }
{
    let most = LARGEST_VALUE as i128;
    x.clamp(-most, most) as i64
}

/// The voltage that the inductance of a series branch keeps of its current in nA for the next step, in nV, held to 10^18.
fn kept_voltage(dt: i64, x: &Lumped, i: i64) -> i64
    requires dt { IsTimeStep dt }
    requires numbers { HasSeriesNumbers dt x.now.r x.now.l x.now.c }
    ensures { result ≡ kept_voltage dt x.now.l i }
{
    held(scaled(inductor_impedance(dt, x.l), i as i128, MICRO))
}

/// With the numbers of the branch at a place.
fn with_numbers<R: Run>(
    case: &Case,
    run: &R,
    at: usize,
    branch: Branch,
    best: Option<Reached>,
) -> Option<Reached>
    requires same { R.case run.now ≡ case.now.parts }
    requires live { IsTrue (R.live run.now) }
    requires there { slice_get case.now.parts.branches at ≡ Some branch }
    requires branch { IsBranch case.now.parts.run (sizes_of case.now.parts) case.now.parts.points branch }
    requires place { at < length case.now.parts.branches }
    ensures { result ≡ with_numbers case.now.parts (latest (R.records run.now)) at branch best }
{
    let current = run.branch_current(at);
    let best = greater(best, Number::Current(branch), current);
    match branch {
        Branch::Lumped(x) => {
            let kept = kept_voltage(case.parts.run.dt, &x, current);
            greater(best, Number::Kept(branch), kept)
        }
        Branch::Pseudo(_) => greater(best, Number::Flux(branch), run.pseudo(at).flux),
        Branch::Line(_) => best,
        Branch::Phase(_) => best,
    }
}

/// With those of a branch that is named by a node.
fn with_branch<R: Run>(
    case: &Case,
    run: &R,
    node: u32,
    at: usize,
    branch: Branch,
    best: Option<Reached>,
) -> Option<Reached>
    requires same { R.case run.now ≡ case.now.parts }
    requires live { IsTrue (R.live run.now) }
    requires there { slice_get case.now.parts.branches at ≡ Some branch }
    requires branch { IsBranch case.now.parts.run (sizes_of case.now.parts) case.now.parts.points branch }
    requires place { at < length case.now.parts.branches }
    ensures { result ≡ with_branch case.now.parts node (latest (R.records run.now)) at branch best }
{
    if branch_name(case, at) == node {
        with_numbers(case, run, at, branch, best)
    } else {
        best
    }
}

/// With those of all branches.
fn with_branches<R: Run>(case: &Case, run: &R, node: u32, best: Option<Reached>) -> Option<Reached>
    requires same { R.case run.now ≡ case.now.parts }
    requires live { IsTrue (R.live run.now) }
    ensures { result ≡ with_branches case.now.parts node (latest (R.records run.now)) 0 case.now.parts.branches best }
{
    let branches = case.parts.branches.as_slice();
    let mut best = best;
    for at in 0..branches.len() {
        best = with_branch(case, run, node, at, branches[at], best);
    }
    best
}

/// With the current of a switch that is named by a node.
fn with_switch<R: Run>(
    case: &Case,
    run: &R,
    node: u32,
    at: usize,
    switch: Switch,
    best: Option<Reached>,
) -> Option<Reached>
    requires same { R.case run.now ≡ case.now.parts }
    requires live { IsTrue (R.live run.now) }
    requires place { at < length case.now.parts.switches }
    ensures { result ≡ with_switch case.now.parts node (latest (R.records run.now)) at switch best }
{
    if switch_name(case, at) == node {
        greater(best, Number::Through(switch), run.switch_current(at))
    } else {
        best
    }
}

/// With those of all switches.
fn with_switches<R: Run>(case: &Case, run: &R, node: u32, best: Option<Reached>) -> Option<Reached>
    requires same { R.case run.now ≡ case.now.parts }
    requires live { IsTrue (R.live run.now) }
    ensures { result ≡ with_switches case.now.parts node (latest (R.records run.now)) 0 case.now.parts.switches best }
{
    let switches = case.parts.switches.as_slice();
    let mut best = best;
    for at in 0..switches.len() {
        best = with_switch(case, run, node, at, switches[at], best);
    }
    best
}

/// The number of the last record nearest to its range's end, of those by which RANGE names a node.
#[tactic(auto, unfolding(crate::specs::Nearest::nearest))]
fn nearest<R: Run>(case: &Case, run: &R, node: u32) -> Option<Reached>
    requires same { R.case run.now ≡ case.now.parts }
    requires live { IsTrue (R.live run.now) }
    requires node { node ≤ length case.now.parts.nodes }
    ensures { result ≡ nearest case.now.parts node (latest (R.records run.now)) }
{
    let best = greater(None, Number::Voltage(node), run.voltage(node));
    let best = with_branches(case, run, node, best);
    with_switches(case, run, node, best)
}

/// The same where the run has made its last step, else what was found before.
fn found_at<R: Run>(
    case: &Case,
    run: &R,
    node: u32,
    last: u32,
    found: Option<Reached>,
) -> Option<Reached>
    requires same { R.case run.now ≡ case.now.parts }
    requires live { IsTrue (R.live run.now) }
    requires node { node ≤ length case.now.parts.nodes }
    ensures { length (R.records run.now) ≡ last + 1 → result ≡ nearest case.now.parts node (latest (R.records run.now)) }
{
    if run.done() == last {
        nearest(case, run, node)
    } else {
        found
    }
}

/// Makes the steps of a run that makes so many, and answers the number of its last record that is nearest to its range's end, of
/// those by which RANGE names a node. The record is read once: where a run has ended, none can be read any more.
pub fn nearest_at_end<R: Run>(case: &Case, run: &mut R, node: u32, last: u32) -> Option<Reached>
    requires same { R.case run.old ≡ case.now.parts }
    requires live { IsTrue (R.live run.old) }
    requires node { node ≤ length case.now.parts.nodes }
    requires last { length (R.whole run.old) ≡ last + 1 }
    ensures { result ≡ nearest case.now.parts node (latest (R.whole run.old)) }
{
    let mut found = found_at(case, run, node, last, None);
    'steps: while run.advance() {
        found = found_at(case, run, node, last, found);
    }
    found
}
