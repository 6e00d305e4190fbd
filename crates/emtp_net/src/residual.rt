//! The residuals of a step.

ghost use Rattle.std.specs.Prelude.{◌≡◌, ◌^◌, ◌<◌, ◌≤◌, ◌≤ℤ◌, false, ℕ, pos, neg_ℤ, length, map, unsigned_abs, IfSome};
ghost use Rattle.emtp_elim.specs.Matrix.{item};
ghost use Rattle.emtp_case.specs.RowOrder.{order_of};
ghost use Rattle.emtp_net.specs.held.Branches.{HasCase};
ghost use Rattle.emtp_net.specs.held.Judging.{FillsCurrents, FillsLeaving, IsUnbalanced, JudgesRows, magnitude_in};
ghost use Rattle.emtp_net.specs.held.Sums.{AreUntied};
ghost use Rattle.emtp_rows.specs.held.Terms.{end_rows};

use crate::branches::Branches;
use crate::right::add_sources;
use crate::step_network::StepNetwork;
use crate::sums::{add_ends, fold};
use emtp_case::{Case, RowKind};

/// Turns the sign of each number.
pub(crate) fn turn(sums: &mut [i128])
    requires { (j : ℕ) → j < length sums.old → unsigned_abs (item sums.old j) ≤ 10 ^ 34 }
    ensures { (j : ℕ) → j < length sums.old → item sums.new j ≡ neg_ℤ (item sums.old j) }
{
    for at in 0..sums.len() {
        sums[at] = turned(sums[at]);
    }
}

fn turned(x: i128) -> i128
    requires { unsigned_abs x ≤ 10 ^ 38 }
    ensures value { result ≡ neg_ℤ x }
    ensures bound { unsigned_abs result ≤ 10 ^ 38 }
{
    -x
}

/// The residual of a row that says a sum of currents, in nA; 0 of another row.
fn residual(kind: RowKind, sum: i128) -> i128
    requires { unsigned_abs sum ≤ 10 ^ 38 }
    ensures value { result ≡ pos (magnitude_in sum kind) }
    ensures bound { unsigned_abs result ≤ 10 ^ 38 }
{
    match kind {
        RowKind::Kcl | RowKind::Sum => { if sum < 0 { turned(sum) } else { sum } }
        RowKind::Tie(_) | RowKind::Ground | RowKind::Source => 0,
    }
}

/// The first row whose residual exceeds the tolerance, with the residual, where the sums of currents go by row.
pub(crate) fn first_above(kinds: &[RowKind], sums: &[i128], tolerance: i64) -> Option<(usize, i128)>
    requires each { length kinds.now ≡ length sums.now }
    requires bound { (j : ℕ) → j < length sums.now → unsigned_abs (item sums.now j) ≤ 10 ^ 38 }
    requires tolerance { pos 0 ≤ℤ tolerance }
    ensures { IsUnbalanced kinds.now sums.now (unsigned_abs tolerance) result }
{
    for row in 0..sums.len() {
        let residual = residual(kinds[row], sums[row]);
        if residual > tolerance as i128 {
            return Some((row, residual));
        }
    }
    None
}

/// Adds what all branches bring by their currents of the last record.
fn add_currents(
    case: &Case,
    rows: &[(u32, u32)],
    branches: &Branches<'_>,
    currents: &[i64],
    out: &mut [i128],
)
    requires rows { rows.now ≡ map (end_rows case.now.parts) case.now.parts.branches }
    requires same { HasCase branches.now case.now.parts }
    requires currents { length currents.now ≡ length case.now.parts.branches }
    requires out { length out.old ≡ length case.now.parts.nodes }
    requires zeros { (j : ℕ) → j < length out.old → item out.old j ≡ pos 0 }
    ensures value { FillsCurrents case.now.parts branches.now currents.now out.old out.new }
    ensures bound { (j : ℕ) → j < length out.old → unsigned_abs (item out.new j) ≤ 10 ^ 23 }
{
    for at in 0..case.parts.branches.len() {
        add_ends(case, rows, at, branches.brought(case, currents, at), out);
    }
}

/// What leaves the node of each row through branches in the last record, less what its current sources bring, in nA.
/// `rows` has the rows of the two nodes of each branch.
pub(crate) fn fill_leaving(
    network: StepNetwork<'_>,
    currents: &[i64],
    values: &[i64],
    rows: &[(u32, u32)],
    out: &mut [i128],
)
    requires order { network.order.now ≡ order_of network.case.now.parts }
    requires rows { rows.now ≡ map (end_rows network.case.now.parts) network.case.now.parts.branches }
    requires same { HasCase network.branches.now network.case.now.parts }
    requires currents { length currents.now ≡ length network.case.now.parts.branches }
    requires values { length values.now ≡ length network.case.now.parts.sources }
    requires out { length out.old ≡ length network.case.now.parts.nodes }
    ensures value { FillsLeaving network.entry.case.now.parts network.entry.branches.now currents.now values.now out.new }
    ensures small { (j : ℕ) → j < length out.old → unsigned_abs (item out.new j) ≤ 10 ^ 24 }
{
    out.fill(0);
    add_currents(network.case, rows, network.branches, currents, out);
    add_sources(network.case, network.order, values, out);
    turn(out);
}

/// The first row whose residual exceeds the tolerance, with the residual in nA, by what leaves the node of each row.
pub(crate) fn judge(
    case: &Case,
    ties: bool,
    kinds: &[RowKind],
    leaving: &mut [i128],
) -> Option<(usize, i128)>
    requires ties { ties ≡ false → AreUntied kinds.now }
    requires kinds { length kinds.now ≡ length case.now.parts.nodes }
    requires leaving { length leaving.old ≡ length case.now.parts.nodes }
    requires small { (j : ℕ) → j < length leaving.old → unsigned_abs (item leaving.old j) ≤ 10 ^ 24 }
    ensures judges { JudgesRows result case.now.parts kinds.now leaving.old }
    ensures there { IfSome result (λ p. p.0 < length case.now.parts.nodes) }
    ensures magnitude { IfSome result (λ p. pos 0 ≤ℤ p.1) }
{
    fold(ties, kinds, leaving);
    first_above(kinds, leaving, case.parts.run.tolerance)
}
