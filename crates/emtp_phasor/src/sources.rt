//! The right side of the doubled system, which is the same at all frequencies.

ghost use Rattle.std.specs.Prelude.{◌≡◌, ◌*◌, ◌/◌, ◌^◌, ◌<◌, ◌≤◌, ◌*ℤ◌, ◌==◌, ◌&&◌, if◌then◌else◌, pos, length, unsigned_abs, IfOk};
ghost use Rattle.emtp_fix.specs.Rounding.{near};
ghost use Rattle.emtp_fix.specs.declared.limit.TheConstants.{LARGEST_VALUE, PICO};
ghost use Rattle.emtp_case.specs.RowOrder.{order_of};
ghost use Rattle.emtp_phasor.specs.held.HeldSources.{IsSmallBrought, brought_by_row};
ghost use Rattle.emtp_phasor.specs.held.SteadyNetwork.{IsSteadyNetwork, group_brought, node_brought, right_part};
ghost use Rattle.emtp_phasor.specs.Volts.{part_phase, cosine_phase, doubled_right, source_part, source_phasors_into, source_phasor_at};

use crate::steady_network::SteadyNetwork;
use emtp_case::{Case, RowKind, RowOrder, Shape, Source};
use emtp_fix::{PICO, scaled};
use emtp_wave::CosTable;
use std::alloc::{AllocError, Global};

/// A quarter turn.
const QUARTER: i128 = 250_000_000_000_000_000;

fn phase_of(shape: Shape) -> i64
    ensures { result ≡ cosine_phase shape }
{
    match shape {
        Shape::Cosine { phase, .. } => phase,
        _ => 0,
    }
}

/// A part of an amplitude.
fn share(amplitude: i64, cosine: i64) -> i64
    requires amplitude { unsigned_abs amplitude ≤ LARGEST_VALUE }
    requires cosine { unsigned_abs cosine ≤ 10 ^ 12 }
    ensures value { result ≡ near (amplitude *ℤ cosine) PICO }
    ensures small { unsigned_abs result ≤ LARGEST_VALUE }
{
    scaled(amplitude as i128, cosine as i128, PICO) as i64
}

/// The phase that a part goes by.
fn part_phase(imaginary: bool, phase: i64) -> i128
    ensures value { result ≡ part_phase imaginary phase }
    ensures bound { unsigned_abs result ≤ 10 ^ 35 }
{
    if imaginary {
        phase as i128 - QUARTER
    } else {
        phase as i128
    }
}

/// A part of the phasor of a source, in nV or nA.
fn source_part(table: &CosTable, imaginary: bool, s: &Source) -> i64
    requires { unsigned_abs s.now.amplitude ≤ LARGEST_VALUE }
    ensures value { result ≡ source_part imaginary s.now }
    ensures small { unsigned_abs result ≤ LARGEST_VALUE }
{
    share(
        s.amplitude,
        table.cosine(part_phase(imaginary, phase_of(s.shape))),
    )
}

/// A part of what a source brings to a node.
fn brought(table: &CosTable, imaginary: bool, node: u32, s: &Source) -> i128
    requires { unsigned_abs s.now.amplitude ≤ LARGEST_VALUE }
    ensures value { result ≡ (if s.now.current && (s.now.node == node) then source_part imaginary s.now else pos 0) }
    ensures small { unsigned_abs result ≤ LARGEST_VALUE }
{
    if s.current && s.node == node {
        source_part(table, imaginary, s) as i128
    } else {
        0
    }
}

/// A part of what the current sources bring to a node.
fn sources_into(table: &CosTable, case: &Case, imaginary: bool, node: u32) -> i128
    ensures value { result ≡ source_phasors_into case.now.parts imaginary node }
    ensures small { unsigned_abs result ≤ 10 ^ 21 }
{
    let sources = case.parts.sources.as_slice();
    let mut sum = 0;
    for at in 0..sources.len() {
        sum += brought(table, imaginary, node, &sources[at]);
    }
    sum
}

/// What the current sources bring to the node of each row, part by part, in nA: the same at all frequencies.
pub(crate) fn brought_by_row(
    alloc: Global,
    table: &CosTable,
    case: &Case,
    order: &RowOrder,
) -> Result<Vec<i128>, AllocError>
    requires { order.now ≡ order_of case.now.parts }
    ensures value { IfOk result (λ brought. brought.items ≡ brought_by_row case.now.parts) }
    ensures small { IfOk result (λ brought. IsSmallBrought case.now.parts brought.items) }
{
    let mut brought = vec![in alloc; 0i128; 2 * case.parts.nodes.len()]?;
    fill_brought(table, case, order, &mut brought);
    Ok(brought)
}

fn fill_brought(table: &CosTable, case: &Case, order: &RowOrder, out: &mut [i128])
    requires order { order.now ≡ order_of case.now.parts }
    requires out { length out.old ≡ 2 * length case.now.parts.nodes }
    ensures value { out.new ≡ brought_by_row case.now.parts }
    ensures small { IsSmallBrought case.now.parts out.new }
{
    for row in 0..out.len() {
        let node = order.node_at(row / 2);
        out[row] = sources_into(table, case, row % 2 == 1, node);
    }
}

/// A part of the voltage that a source keeps at a node.
fn voltage_of(table: &CosTable, case: &Case, imaginary: bool, node: u32) -> i128
    ensures { result ≡ source_phasor_at case.now.parts imaginary node }
{
    match case
        .parts
        .sources
        .as_slice()
        .iter()
        .find(|s| s.is_voltage_at(node))
    {
        Some(s) => source_part(table, imaginary, s) as i128,
        None => 0,
    }
}

/// A part of what the current sources bring to the node of a row.
pub(crate) fn brought_at(network: SteadyNetwork<'_>, imaginary: bool, row: usize) -> i128
    requires network { IsSteadyNetwork network }
    requires row { row < length network.case.now.parts.nodes }
    ensures value { result ≡ node_brought network.entry imaginary row }
    ensures small { unsigned_abs result ≤ 10 ^ 21 }
{
    let brought = network.brought;
    if imaginary {
        brought[2 * row + 1]
    } else {
        brought[2 * row]
    }
}

/// A part of what the current sources bring to the group of a row.
fn brought_to_group(network: SteadyNetwork<'_>, imaginary: bool, row: usize) -> i128
    requires network { IsSteadyNetwork network }
    requires row { row < length network.case.now.parts.nodes }
    ensures value { result ≡ group_brought network.entry imaginary row }
    ensures small { unsigned_abs result ≤ 10 ^ 25 }
{
    let groups = network.groups;
    let members = groups[row].as_slice();
    let mut sum = 0;
    for member in members {
        let at = *member as usize;
        sum += brought_at(network, imaginary, at);
    }
    sum
}

/// The right side of a row.
fn right_of(table: &CosTable, network: SteadyNetwork<'_>, row: usize) -> i128
    requires network { IsSteadyNetwork network }
    requires row { row < 2 * length network.case.now.parts.nodes }
    ensures { result ≡ right_part network.entry row }
{
    let imaginary = row % 2 == 1;
    let kinds = network.kinds;
    match kinds[row / 2] {
        RowKind::Kcl => brought_at(network, imaginary, row / 2),
        RowKind::Sum => brought_to_group(network, imaginary, row / 2),
        RowKind::Tie(_) | RowKind::Ground => 0,
        RowKind::Source => {
            let node = network.order.node_at(row / 2);
            voltage_of(table, network.case, imaginary, node)
        }
    }
}

/// Fills the right side.
pub(crate) fn fill_right(table: &CosTable, network: SteadyNetwork<'_>, out: &mut [i128])
    requires network { IsSteadyNetwork network }
    requires out { length out.old ≡ 2 * length network.case.now.parts.nodes }
    ensures { out.new ≡ doubled_right network.entry.case.now.parts network.entry.kinds.now }
{
    for row in 0..out.len() {
        out[row] = right_of(table, network, row);
    }
}
