//! Filling a row of the doubled matrix.

ghost use Rattle.std.specs.Prelude.{◌≡◌, ◌*◌, ◌^◌, ◌<◌, ◌≤◌, ℕ, false, true, length, unsigned_abs};
ghost use Rattle.emtp_elim.specs.Matrix.{item};
ghost use Rattle.emtp_elim.specs.held.WorkRow.{IsClearRow};
ghost use Rattle.emtp_fix.specs.declared.limit.TheConstants.{LARGEST_ENTRY};
ghost use Rattle.emtp_admittance.specs.Admittances.{in_block, port_at};
ghost use Rattle.emtp_admittance.specs.held.Admittances.{IsSmallAdmittance, IsSmallPort};
ghost use Rattle.emtp_phasor.specs.held.SteadyNetwork.{AddsToRow, IsSteadyNetwork, branch_part, end_part, group_part, node_part, row_part};

use crate::steady_network::SteadyNetwork;
use emtp_admittance::{Admittance, TwoPort};
use emtp_case::RowKind;
use emtp_elim::WorkRow;
use emtp_fix::PICO;

/// Writes a row over zeros, at the cost of the branches at its node, or of its group's.
pub(crate) fn fill_row(network: SteadyNetwork<'_>, row: usize, out: &mut WorkRow)
    requires network { IsSteadyNetwork network }
    requires row { row < 2 * length network.case.now.parts.nodes }
    requires clear { IsClearRow (2 * length network.case.now.parts.nodes) out.old }
    ensures same { length out.new ≡ length out.old }
    ensures value { (c : ℕ) → c < length out.old → item out.new c ≡ row_part network.entry row c }
{
    let imaginary = row % 2 == 1;
    let kinds = network.kinds;
    match kinds[row / 2] {
        RowKind::Kcl => add_node(network, row / 2, imaginary, out),
        RowKind::Sum => add_group(network, row / 2, imaginary, out),
        RowKind::Tie(other) => {
            out.add_to(row, PICO);
            out.add_to(2 * other as usize + row % 2, -PICO);
        }
        RowKind::Ground | RowKind::Source => out.add_to(row, PICO),
    }
}

/// Adds the currents of each node of the group of a row of the network.
fn add_group(network: SteadyNetwork<'_>, row: usize, imaginary: bool, out: &mut WorkRow)
    requires network { IsSteadyNetwork network }
    requires row { row < length network.case.now.parts.nodes }
    requires out { length out.old ≡ 2 * length network.case.now.parts.nodes }
    requires bound { (c : ℕ) → c < length out.old → unsigned_abs (item out.old c) ≤ 10 ^ 28 }
    ensures same { length out.new ≡ length out.old }
    ensures value { AddsToRow out.old out.new (group_part network.entry imaginary row) }
{
    let groups = network.groups;
    let members = groups[row].as_slice();
    for member in members {
        let at = *member as usize;
        add_node(network, at, imaginary, out);
    }
}

/// Adds a part of the currents that leave the node of a row of the network through the branches at it, each in its columns.
fn add_node(network: SteadyNetwork<'_>, row: usize, imaginary: bool, out: &mut WorkRow)
    requires network { IsSteadyNetwork network }
    requires row { row < length network.case.now.parts.nodes }
    requires out { length out.old ≡ 2 * length network.case.now.parts.nodes }
    requires bound { (c : ℕ) → c < length out.old → unsigned_abs (item out.old c) ≤ 10 ^ 29 }
    ensures same { length out.new ≡ length out.old }
    ensures value { AddsToRow out.old out.new (node_part network.entry imaginary row) }
{
    let node = network.order.node_at(row);
    let lists = network.lists;
    let places = lists[row].as_slice();
    for place in places {
        let at = *place as usize;
        add_branch(network, at, node, imaginary, out);
    }
}

/// Adds a part of the current that leaves a node through the branch at a place.
fn add_branch(network: SteadyNetwork<'_>, at: usize, node: u32, imaginary: bool, out: &mut WorkRow)
    requires network { IsSteadyNetwork network }
    requires there { at < length network.case.now.parts.branches }
    requires out { length out.old ≡ 2 * length network.case.now.parts.nodes }
    requires bound { (c : ℕ) → c < length out.old → unsigned_abs (item out.old c) ≤ 10 ^ 30 }
    ensures same { length out.new ≡ length out.old }
    ensures value { AddsToRow out.old out.new (branch_part network.entry imaginary node at) }
{
    let port = port_at(network, at);
    let (from, to) = network.case.parts.branches.as_slice()[at].ends();
    if from == node {
        add_end(network, from, &port.own, imaginary, out);
        add_end(network, to, &port.other, imaginary, out);
    } else if to == node {
        add_end(network, to, &port.own, imaginary, out);
        add_end(network, from, &port.other, imaginary, out);
    }
}

/// The two-port of the branch at a place.
fn port_at(network: SteadyNetwork<'_>, at: usize) -> TwoPort
    requires network { IsSteadyNetwork network }
    requires there { at < length network.case.now.parts.branches }
    ensures value { result ≡ port_at network.entry.ports.now at }
    ensures small { IsSmallPort result }
{
    let ports = network.ports;
    ports[at]
}

/// Adds an admittance in the columns of a node; ground has none.
fn add_end(
    network: SteadyNetwork<'_>,
    node: u32,
    y: &Admittance,
    imaginary: bool,
    out: &mut WorkRow,
)
    requires network { IsSteadyNetwork network }
    requires node { node ≤ length network.case.now.parts.nodes }
    requires small { IsSmallAdmittance y.now }
    requires out { length out.old ≡ 2 * length network.case.now.parts.nodes }
    requires bound { (c : ℕ) → c < length out.old → unsigned_abs (item out.old c) ≤ 2 * 10 ^ 30 }
    ensures same { length out.new ≡ length out.old }
    ensures value { AddsToRow out.old out.new (end_part network.entry imaginary node y.now) }
{
    if node != 0 {
        let row = network.order.row_of(node);
        out.add_to(2 * row, real_column(imaginary, y));
        out.add_to(2 * row + 1, imaginary_column(imaginary, y));
    }
}

/// What an admittance puts into the real column.
pub(crate) fn real_column(imaginary: bool, y: &Admittance) -> i128
    requires { IsSmallAdmittance y.now }
    ensures value { result ≡ in_block imaginary false y.now }
    ensures small { unsigned_abs result ≤ LARGEST_ENTRY }
{
    if imaginary {
        y.susceptance as i128
    } else {
        y.conductance as i128
    }
}

/// What an admittance puts into the imaginary column.
pub(crate) fn imaginary_column(imaginary: bool, y: &Admittance) -> i128
    requires { IsSmallAdmittance y.now }
    ensures value { result ≡ in_block imaginary true y.now }
    ensures small { unsigned_abs result ≤ LARGEST_ENTRY }
{
    if imaginary {
        y.conductance as i128
    } else {
        -(y.susceptance as i128)
    }
}
