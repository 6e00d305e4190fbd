//! The right side of the nodal system.

ghost use Rattle.emtp_case.specs.declared.limit.TheConstants.{MOST_SOURCES};
ghost use Rattle.std.specs.Prelude.{◌≡◌, ◌+◌, ◌*◌, ◌^◌, ◌<◌, ◌≤◌, if◌then◌else◌, false, ℕ, pos, length, map, slice_index, unsigned_abs, IfOk};
ghost use Rattle.std.specs.List.{position, position_or_len};
ghost use Rattle.emtp_case.specs.Source.{is_voltage_source_at};
ghost use Rattle.emtp_case.specs.RowOrder.{order_of};
ghost use Rattle.emtp_case.specs.declared.source.Source.{Source};
ghost use Rattle.emtp_elim.specs.Matrix.{item};
ghost use Rattle.emtp_net.specs.held.Branches.{HasCase};
ghost use Rattle.emtp_net.specs.held.Rights.{AddsSources, FillsHistories, FillsRight, SetsRows, places_of, row_value};
ghost use Rattle.emtp_net.specs.held.Sums.{AreUntied};
ghost use Rattle.emtp_rows.specs.held.Terms.{end_rows};
ghost use Rattle.emtp_wave.specs.Wave.{value_of};

use crate::branches::Branches;
use crate::step_network::StepNetwork;
use crate::sums::{add_at, add_ends, fold};
use emtp_case::{Case, RowKind, RowOrder, Source};
use emtp_wave::CosTable;
use std::alloc::{AllocError, Global};

/// The values of all sources in a step, in nV and nA.
pub(crate) fn fill_values(table: &CosTable, case: &Case, step: u32, tacs: &[i64], out: &mut [i64])
    requires step { step ≤ case.now.parts.run.steps }
    requires tacs { length tacs.now ≡ length case.now.parts.vars }
    requires out { length out.old ≡ length case.now.parts.sources }
    ensures { out.new ≡ map (λ (s : Source). value_of case.now.parts.run tacs.now s step) case.now.parts.sources }
{
    let sources = case.parts.sources.as_slice();
    for at in 0..sources.len() {
        out[at] = table.value(&sources[at], step, &case.parts.run, tacs);
    }
}

/// Adds what the current sources bring to their nodes.
pub(crate) fn add_sources(case: &Case, order: &RowOrder, values: &[i64], out: &mut [i128])
    requires order { order.now ≡ order_of case.now.parts }
    requires values { length values.now ≡ length case.now.parts.sources }
    requires out { length out.old ≡ length case.now.parts.nodes }
    requires bound { (j : ℕ) → j < length out.old → unsigned_abs (item out.old j) ≤ 10 ^ 34 }
    ensures value { AddsSources case.now.parts values.now out.old out.new }
    ensures bound { (j : ℕ) → j < length out.old
        → unsigned_abs (item out.new j) ≤ unsigned_abs (item out.old j) + MOST_SOURCES * 10 ^ 19 }
{
    let sources = case.parts.sources.as_slice();
    for at in 0..sources.len() {
        let source = &sources[at];
        add_at(
            case,
            order,
            source.node,
            current_of(source, values[at]),
            out,
        );
    }
}

/// What a source of this value brings into its node.
fn current_of(source: &Source, value: i64) -> i128
    ensures value { result ≡ (if source.now.current then value else pos 0) }
    ensures small { unsigned_abs result ≤ 10 ^ 19 }
{
    if source.current { value as i128 } else { 0 }
}

/// Sets the rows that say no sum of currents: a source's row to its voltage, in nV, and that of a tie or of ground to 0.
pub(crate) fn set_rows(kinds: &[RowKind], places: &[u32], values: &[i64], out: &mut [i128])
    requires kinds { length kinds.now ≡ length out.old }
    requires places { length places.now ≡ length out.old }
    ensures { SetsRows kinds.now places.now values.now out.old out.new }
{
    for i in 0..kinds.len() {
        out[i] = row_value(kinds[i], out[i], voltage(places, values, i));
    }
}

/// The right side of a row, by the sum of its currents and the voltage of its source.
fn row_value(kind: RowKind, sum: i128, voltage: i64) -> i128
    ensures { result ≡ row_value sum voltage kind }
{
    match kind {
        RowKind::Kcl | RowKind::Sum => sum,
        RowKind::Tie(_) | RowKind::Ground => 0,
        RowKind::Source => voltage as i128,
    }
}

/// The voltage of the source at the node of a row, or 0 where it has none.
fn voltage(places: &[u32], values: &[i64], row: usize) -> i64
    requires { row < length places.now }
    ensures { result ≡ item values.now (slice_index places.now row) }
{
    let place = places[row] as usize;
    if place < values.len() {
        values[place]
    } else {
        0
    }
}

/// Where the voltage source of each row's node stands among the sources, or their number where there is none.
pub(crate) fn places_of(
    alloc: Global,
    case: &Case,
    order: &RowOrder,
) -> Result<Vec<u32>, AllocError>
    requires { order.now ≡ order_of case.now.parts }
    ensures { IfOk result (λ places. places.items ≡ places_of case.now.parts) }
{
    let mut places = Vec::new(alloc);
    for row in 0..case.parts.nodes.len() {
        places.push(place_of(case.parts.sources.as_slice(), order.node_at(row)))?;
    }
    Ok(places)
}

fn place_of(sources: &[Source], node: u32) -> u32
    requires { length sources.now ≤ MOST_SOURCES }
    ensures { result ≡ position_or_len (is_voltage_source_at node) sources.now }
{
    match find_source(sources, node) {
        Some(at) => at as u32,
        None => sources.len() as u32,
    }
}

fn find_source(sources: &[Source], node: u32) -> Option<usize>
    ensures { result ≡ position (is_voltage_source_at node) sources.now }
{
    sources.iter().position(|s| s.is_voltage_at(node))
}

/// Adds the history currents of all branches.
fn add_histories(case: &Case, rows: &[(u32, u32)], branches: &Branches<'_>, out: &mut [i128])
    requires rows { rows.now ≡ map (end_rows case.now.parts) case.now.parts.branches }
    requires same { HasCase branches.now case.now.parts }
    requires out { length out.old ≡ length case.now.parts.nodes }
    requires zeros { (j : ℕ) → j < length out.old → item out.old j ≡ pos 0 }
    ensures value { FillsHistories case.now.parts branches.now out.old out.new }
    ensures bound { (j : ℕ) → j < length out.old → unsigned_abs (item out.new j) ≤ 10 ^ 34 }
{
    for at in 0..case.parts.branches.len() {
        add_ends(case, rows, at, branches.history(case, at), out);
    }
}

/// What the rows of a step say, but for the history currents, and where these go.
#[derive(Clone, Copy)]
pub(crate) struct StepRows<'s> {
    /// Whether a row is tied to the sum of a group.
    pub(crate) ties: bool,
    /// The kinds of the rows.
    pub(crate) kinds: &'s [RowKind],
    /// For each row the place of its node's voltage source among the sources, or their number.
    pub(crate) places: &'s [u32],
    /// The values of the sources, in nV and nA.
    pub(crate) values: &'s [i64],
    /// For each branch the rows of its two nodes.
    pub(crate) ends: &'s [(u32, u32)],
}

/// The right side of the next step, by row, in nA and nV.
pub(crate) fn fill_right(network: StepNetwork<'_>, rows: StepRows<'_>, out: &mut [i128])
    requires order { network.order.now ≡ order_of network.case.now.parts }
    requires ends { rows.ends.now ≡ map (end_rows network.case.now.parts) network.case.now.parts.branches }
    requires same { HasCase network.branches.now network.case.now.parts }
    requires ties { rows.ties ≡ false → AreUntied rows.kinds.now }
    requires kinds { length rows.kinds.now ≡ length network.case.now.parts.nodes }
    requires places { rows.places.now ≡ places_of network.case.now.parts }
    requires values { length rows.values.now ≡ length network.case.now.parts.sources }
    requires out { length out.old ≡ length network.case.now.parts.nodes }
    ensures { FillsRight network.entry.case.now.parts network.entry.branches.now rows.entry.kinds.now rows.entry.values.now
        out.new }
{
    out.fill(0);
    add_histories(network.case, rows.ends, network.branches, out);
    add_sources(network.case, network.order, rows.values, out);
    fold(rows.ties, rows.kinds, out);
    set_rows(rows.kinds, rows.places, rows.values, out);
}
