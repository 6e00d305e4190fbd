//! The currents of branches in the steady state, and how far they are from Kirchhoff's current law.

ghost use Rattle.std.specs.Prelude.{◌≡◌, ◌*◌, ◌+◌, ◌^◌, ◌<◌, ◌≤◌, ◌+ℤ◌, ◌*ℤ◌, All, Some, true, max, pos, length, nat_lt, unsigned_abs, IfSome, IsNone};
ghost use Rattle.emtp_fix.specs.declared.limit.TheConstants.{LARGEST_ENTRY, LARGEST_VALUE};
ghost use Rattle.emtp_case.specs.Branch.{from_of, to_of};
ghost use Rattle.emtp_admittance.specs.held.Admittances.{IsSmallPort};
ghost use Rattle.emtp_phasor.specs.held.SteadyNetwork.{IsSteadyNetwork, group_leaves, node_leaves};
ghost use Rattle.emtp_phasor.specs.Steady.{entering, first_current, first_flow_out, flows, is_in_range, resting_kinds, leaving_through, row_residual, second_current};
ghost use Rattle.emtp_phasor.specs.held.Steady.{AllFlow, JudgesResiduals};
ghost use Rattle.emtp_phasor.specs.held.Volts.{IsVolt};

use crate::fill::{imaginary_column, real_column};
use crate::phasor::Phasor;
use crate::sources::brought_at;
use crate::steady_network::SteadyNetwork;
use emtp_admittance::{TwoPort, product};
use emtp_case::{Branch, Case, RowKind};
use emtp_fix::{LARGEST_VALUE, PICO, near};

/// A voltage times the two numbers of a row.
fn weighted(g: i128, b: i128, v: Phasor) -> i128
    requires g { unsigned_abs g ≤ LARGEST_ENTRY }
    requires b { unsigned_abs b ≤ LARGEST_ENTRY }
    requires v { IsVolt v }
    ensures value { result ≡ g *ℤ v.re +ℤ b *ℤ v.im }
    ensures bound { unsigned_abs result ≤ 2 * 10 ^ 36 }
{
    sum(product(g, v.re as i128), product(b, v.im as i128))
}

fn sum(a: i128, b: i128) -> i128
    requires a { unsigned_abs a ≤ 2 * 10 ^ 36 }
    requires b { unsigned_abs b ≤ 2 * 10 ^ 36 }
    ensures value { result ≡ a +ℤ b }
    ensures bound { unsigned_abs result ≤ unsigned_abs a + unsigned_abs b }
{
    a + b
}

/// A part of the current that enters a branch at an end with voltage `v`, where the other end has voltage `u`, in nA.
fn entering(imaginary: bool, y: &TwoPort, v: Phasor, u: Phasor) -> i128
    requires small { IsSmallPort y.now }
    requires v { IsVolt v }
    requires u { IsVolt u }
    ensures value { result ≡ entering imaginary y.now v u }
{
    let own = weighted(
        real_column(imaginary, &y.own),
        imaginary_column(imaginary, &y.own),
        v,
    );
    let other = weighted(
        real_column(imaginary, &y.other),
        imaginary_column(imaginary, &y.other),
        u,
    );
    near(sum(own, other), PICO)
}

/// A part of the current at the first end of a branch.
fn first_current(imaginary: bool, y: &TwoPort, volts: &[Phasor], b: &Branch) -> i128
    requires small { IsSmallPort y.now }
    requires volts { All IsVolt volts.now }
    requires from { from_of b.now < length volts.now }
    requires to { to_of b.now < length volts.now }
    ensures { result ≡ first_current imaginary y.now volts.now b.now }
{
    let (from, to) = b.ends();
    entering(imaginary, y, volts[from as usize], volts[to as usize])
}

/// A part of the current at the second end of a branch.
fn second_current(imaginary: bool, y: &TwoPort, volts: &[Phasor], b: &Branch) -> i128
    requires small { IsSmallPort y.now }
    requires volts { All IsVolt volts.now }
    requires from { from_of b.now < length volts.now }
    requires to { to_of b.now < length volts.now }
    ensures { result ≡ second_current imaginary y.now volts.now b.now }
{
    let (from, to) = b.ends();
    entering(imaginary, y, volts[to as usize], volts[from as usize])
}

fn is_in_range(x: i128) -> bool
    ensures { result ≡ is_in_range x }
{
    x.unsigned_abs() <= LARGEST_VALUE
}

/// Whether all currents of a branch are in range.
fn flows(y: &TwoPort, volts: &[Phasor], b: &Branch) -> bool
    requires small { IsSmallPort y.now }
    requires volts { All IsVolt volts.now }
    requires from { from_of b.now < length volts.now }
    requires to { to_of b.now < length volts.now }
    ensures { result ≡ flows y.now volts.now (Some b.now) }
{
    (is_in_range(first_current(false, y, volts, b))
        && is_in_range(first_current(true, y, volts, b)))
        && (is_in_range(second_current(false, y, volts, b))
            && is_in_range(second_current(true, y, volts, b)))
}

/// The first branch with a current out of range.
pub(crate) fn first_out(case: &Case, ports: &[TwoPort], volts: &[Phasor]) -> Option<usize>
    requires ports { length ports.now ≡ length case.now.parts.branches }
    requires small { All IsSmallPort ports.now }
    requires volts { All IsVolt volts.now }
    requires nodes { length volts.now ≡ length case.now.parts.nodes + 1 }
    ensures value { result ≡ first_flow_out case.now.parts ports.now volts.now }
    ensures there { IfSome result (λ b. b < length case.now.parts.branches) }
    ensures none { IsNone result → AllFlow case.now.parts ports.now volts.now (length case.now.parts.branches) }
{
    let branches = case.parts.branches.as_slice();
    for at in 0..branches.len() {
        if !flows(&ports[at], volts, &branches[at]) {
            return Some(at);
        }
    }
    None
}

/// A part of the current that leaves a node through a branch.
fn leaving_by(imaginary: bool, y: &TwoPort, volts: &[Phasor], node: u32, b: &Branch) -> i128
    requires small { IsSmallPort y.now }
    requires volts { All IsVolt volts.now }
    requires from { from_of b.now < length volts.now }
    requires to { to_of b.now < length volts.now }
    requires flows { flows y.now volts.now (Some b.now) ≡ true }
    ensures value { result ≡ leaving_through imaginary y.now volts.now node (Some b.now) }
    ensures small { unsigned_abs result ≤ 2 * LARGEST_VALUE }
{
    let (from, to) = b.ends();
    if from == node {
        if to == node {
            first_current(imaginary, y, volts, b) + second_current(imaginary, y, volts, b)
        } else {
            first_current(imaginary, y, volts, b)
        }
    } else if to == node {
        second_current(imaginary, y, volts, b)
    } else {
        0
    }
}

/// A part of the current that leaves the node of a row through branches, less what its current sources bring.
fn leaving(network: SteadyNetwork<'_>, volts: &[Phasor], imaginary: bool, row: usize) -> i128
    requires network { IsSteadyNetwork network }
    requires volts { All IsVolt volts.now }
    requires nodes { length volts.now ≡ length network.case.now.parts.nodes + 1 }
    requires flows { AllFlow network.case.now.parts network.ports.now volts.now (length network.case.now.parts.branches) }
    requires row { row < length network.case.now.parts.nodes }
    ensures value { result ≡ node_leaves network.entry volts.now imaginary row }
    ensures bound { unsigned_abs result ≤ 10 ^ 23 }
{
    let node = network.order.node_at(row);
    let branches = network.case.parts.branches.as_slice();
    let ports = network.ports;
    let lists = network.lists;
    let places = lists[row].as_slice();
    let mut sum = 0;
    for place in places {
        let at = *place as usize;
        sum += leaving_by(imaginary, &ports[at], volts, node, &branches[at]);
    }
    sum - brought_at(network, imaginary, row)
}

/// A part of the current that leaves the group of a row.
fn leaving_group(network: SteadyNetwork<'_>, volts: &[Phasor], imaginary: bool, row: usize) -> i128
    requires network { IsSteadyNetwork network }
    requires volts { All IsVolt volts.now }
    requires nodes { length volts.now ≡ length network.case.now.parts.nodes + 1 }
    requires flows { AllFlow network.case.now.parts network.ports.now volts.now (length network.case.now.parts.branches) }
    requires row { row < length network.case.now.parts.nodes }
    ensures value { result ≡ group_leaves network.entry volts.now imaginary row }
    ensures bound { unsigned_abs result ≤ 10 ^ 27 }
{
    let groups = network.groups;
    let members = groups[row].as_slice();
    let mut sum = 0;
    for member in members {
        let at = *member as usize;
        sum += leaving(network, volts, imaginary, at);
    }
    sum
}

/// The greater of two magnitudes.
fn greater(a: i128, b: i128) -> i128
    requires a { unsigned_abs a ≤ 10 ^ 30 }
    requires b { unsigned_abs b ≤ 10 ^ 30 }
    ensures value { result ≡ pos (max (unsigned_abs a) (unsigned_abs b)) }
    ensures bound { unsigned_abs result ≤ 10 ^ 30 }
{
    let (a, b) = (a.unsigned_abs(), b.unsigned_abs());
    if a < b { b as i128 } else { a as i128 }
}

/// The residual of a row.
fn residual(network: SteadyNetwork<'_>, volts: &[Phasor], row: usize) -> i128
    requires network { IsSteadyNetwork network }
    requires kinds { network.kinds.now ≡ resting_kinds network.case.now.parts }
    requires volts { All IsVolt volts.now }
    requires nodes { length volts.now ≡ length network.case.now.parts.nodes + 1 }
    requires flows { AllFlow network.case.now.parts network.ports.now volts.now (length network.case.now.parts.branches) }
    requires row { row < length network.case.now.parts.nodes }
    ensures value { result ≡ pos (row_residual network.entry.case.now.parts network.entry.ports.now volts.now row) }
    ensures bound { unsigned_abs result ≤ 10 ^ 30 }
{
    let kinds = network.kinds;
    match kinds[row] {
        RowKind::Kcl => greater(
            leaving(network, volts, false, row),
            leaving(network, volts, true, row),
        ),
        RowKind::Sum => greater(
            leaving_group(network, volts, false, row),
            leaving_group(network, volts, true, row),
        ),
        RowKind::Tie(_) | RowKind::Ground | RowKind::Source => 0,
    }
}

/// Whether a residual exceeds the tolerance.
fn exceeds(residual: i128, tolerance: i64) -> bool
    ensures { result ≡ nat_lt (unsigned_abs tolerance) (unsigned_abs residual) }
{
    residual.unsigned_abs() > u128::from(tolerance.unsigned_abs())
}

/// The greatest residual, or the first row above the tolerance with its residual, in nA.
pub(crate) fn judge(network: SteadyNetwork<'_>, volts: &[Phasor]) -> Result<i128, (usize, i128)>
    requires network { IsSteadyNetwork network }
    requires kinds { network.kinds.now ≡ resting_kinds network.case.now.parts }
    requires volts { All IsVolt volts.now }
    requires nodes { length volts.now ≡ length network.case.now.parts.nodes + 1 }
    requires flows { AllFlow network.case.now.parts network.ports.now volts.now (length network.case.now.parts.branches) }
    ensures { JudgesResiduals network.entry.case.now.parts network.entry.ports.now volts.now result }
{
    let case = network.case;
    let mut greatest = 0;
    for i in 0..case.parts.nodes.len() {
        let residual = residual(network, volts, i);
        if exceeds(residual, case.parts.run.tolerance) {
            return Err((i, residual));
        }
        greatest = greater(greatest, residual);
    }
    Ok(greatest)
}
