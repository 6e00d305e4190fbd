//! The warnings of the records of a case.

ghost use Rattle.std.specs.Prelude.{◌≡◌, ◌==◌, ◌+◌, ◌<◌, OnOk, count_by, flat_map, length, min, not, slice_get, take};
ghost use Rattle.emtp_case.specs.held.Branch.{IsBranch};
ghost use Rattle.emtp_case.specs.held.Sizes.{sizes_of};
ghost use Rattle.emtp_warnings.specs.AddsTo.{AddsTo};
ghost use Rattle.emtp_warnings.specs.RecordWarnings.{acting_warnings, are_closed, beside_warnings, branch_warnings, end_of_run, ends_warnings, has_twin, is_after_end, is_before, is_beside, is_case_alone, is_closed_after, is_constant, is_cosine, is_idle, is_lone, is_node_zero, is_short, is_small, is_twin, opens_after, record_warnings, source_warnings, switch_warnings, times_warnings, travel_time_of, value_warnings};

use crate::acting::add_series;
use crate::arresters::is_bare;
use crate::finding::{Finding, Warning, add_found, columns_row, line_row};
use emtp_case::{Branch, Case, Name, Parts, Shape, Source, Switch, SwitchKind};
use std::alloc::AllocError;

/// The columns of BUS1.
const BUS1: (usize, usize) = (3, 8);

/// The columns of BUS2.
const BUS2: (usize, usize) = (9, 14);

/// The least capacitance that isn't warned of, in fF.
const LEAST_CAPACITANCE: i64 = 1000;

/// Adds the warnings of all records, in the order of their lines.
pub(crate) fn add_records(out: &mut Vec<Warning>, case: &Case) -> Result<(), AllocError>
    ensures { OnOk result (AddsTo out.old.items (record_warnings case.now.parts) out.new.items) }
{
    let last = end_of_run(case);
    add_sources(out, last, case.parts.tacs_sources.as_slice())?;
    add_branches(out, case)?;
    add_switches(out, case)?;
    add_sources(out, last, case.parts.sources.as_slice())?;
    Ok(())
}

/// The time of the last step, in ps.
fn end_of_run(case: &Case) -> i64
    ensures { result ≡ end_of_run case.now.parts }
{
    case.parts.run.time(case.parts.run.steps)
}

fn add_branches(out: &mut Vec<Warning>, case: &Case) -> Result<(), AllocError>
    ensures { OnOk result (AddsTo out.old.items
        (flat_map (branch_warnings case.now.parts) case.now.parts.branches) out.new.items) }
{
    for branch in case.parts.branches.as_slice() {
        add_branch(out, case, branch)?;
    }
    Ok(())
}

fn add_switches(out: &mut Vec<Warning>, case: &Case) -> Result<(), AllocError>
    ensures { OnOk result (AddsTo out.old.items
        (flat_map (switch_warnings case.now.parts) case.now.parts.switches) out.new.items) }
{
    for switch in case.parts.switches.as_slice() {
        add_switch(out, case, switch)?;
    }
    Ok(())
}

/// Adds the warnings of sources of the network, or of the control.
fn add_sources(out: &mut Vec<Warning>, last: i64, sources: &[Source]) -> Result<(), AllocError>
    ensures { OnOk result (AddsTo out.old.items (flat_map (source_warnings last) sources.now) out.new.items) }
{
    for source in sources {
        add_source(out, last, source)?;
    }
    Ok(())
}

// ---- branches

fn add_branch(out: &mut Vec<Warning>, case: &Case, branch: &Branch) -> Result<(), AllocError>
    requires { IsBranch case.now.parts.run (sizes_of case.now.parts) case.now.parts.points branch.now }
    ensures { OnOk result (AddsTo out.old.items (branch_warnings case.now.parts branch.now) out.new.items) }
{
    let (from, to) = branch.ends();
    add_ends(out, &case.parts, branch.line(), from, to)?;
    add_values(out, case, branch)?;
    add_acting(out, case, branch)?;
    Ok(())
}

/// Adds what a series branch acts as over the run, where that isn't what its card says.
fn add_acting(out: &mut Vec<Warning>, case: &Case, branch: &Branch) -> Result<(), AllocError>
    requires { IsBranch case.now.parts.run (sizes_of case.now.parts) case.now.parts.points branch.now }
    ensures { OnOk result (AddsTo out.old.items (acting_warnings case.now.parts branch.now) out.new.items) }
{
    let run = &case.parts.run;
    match branch {
        Branch::Lumped(b) => add_series(out, run.dt, run.time(run.steps), b),
        _ => Ok(()),
    }
}

/// Adds the warnings of the travel time of a line, of the capacitance of a series branch and of an arrester at a line.
fn add_values(out: &mut Vec<Warning>, case: &Case, branch: &Branch) -> Result<(), AllocError>
    ensures { OnOk result (AddsTo out.old.items (value_warnings case.now.parts branch.now) out.new.items) }
{
    let line = branch.line();
    let delay = travel_time_of(&case.parts, branch);
    let late = is_after_end(end_of_run(case), delay);
    let rows = [
        line_row(
            line,
            is_short(case.parts.run.dt, delay),
            Finding::ShortTravel,
        ),
        line_row(line, late, Finding::LateTravel),
        line_row(line, is_small(branch), Finding::SmallCapacitance),
        line_row(line, is_bare(&case.parts, branch), Finding::BareArrester),
    ];
    add_found(out, &rows)
}

/// The travel time of a line; that of the zero sequence of a first phase, and that of the positive one of a second.
fn travel_time_of(parts: &Parts, branch: &Branch) -> Option<i64>
    ensures { result ≡ travel_time_of parts.now branch.now }
{
    match branch {
        Branch::Line(line) => Some(line.delay),
        Branch::Phase(phase) => {
            let trio = parts.trios.as_slice().get(phase.trio as usize)?;
            trio.delay.get(phase.phase as usize).copied()
        }
        _ => None,
    }
}

/// Whether the travel time of a line is below two steps.
fn is_short(dt: i64, delay: Option<i64>) -> bool
    ensures { result ≡ is_short dt delay }
{
    matches!(delay, Some(delay) if i128::from(delay) < 2 * i128::from(dt))
}

/// Whether a series branch has a capacitance below 1 pF.
fn is_small(branch: &Branch) -> bool
    ensures { result ≡ is_small branch.now }
{
    matches!(branch, Branch::Lumped(lumped) if 0 < lumped.c && lumped.c < LEAST_CAPACITANCE)
}

// ---- switches

fn add_switch(out: &mut Vec<Warning>, case: &Case, switch: &Switch) -> Result<(), AllocError>
    ensures { OnOk result (AddsTo out.old.items (switch_warnings case.now.parts switch.now) out.new.items) }
{
    add_ends(out, &case.parts, switch.line, switch.from, switch.to)?;
    add_times(out, case, switch)?;
    add_beside(out, case, switch)?;
    Ok(())
}

/// Adds that a switch is closed beside another one, where it is.
fn add_beside(out: &mut Vec<Warning>, case: &Case, switch: &Switch) -> Result<(), AllocError>
    ensures { OnOk result (AddsTo out.old.items (beside_warnings case.now.parts switch.now) out.new.items) }
{
    let beside = is_side_by_side(end_of_run(case), case.parts.switches.as_slice(), switch);
    add_found(out, &[line_row(switch.line, beside, Finding::SideBySide)])
}

fn is_side_by_side(last: i64, switches: &[Switch], switch: &Switch) -> bool
    ensures { result ≡ not (count_by (is_beside last switch.now) switches.now == 0) }
{
    let beside = |other: &&Switch| is_beside(last, switch, other);
    switches.iter().filter(beside).count() != 0
}

/// Whether another switch before this one joins the same nodes while it is closed.
fn is_beside(last: i64, switch: &Switch, other: &Switch) -> bool
    ensures { result ≡ is_beside last switch.now other.now }
{
    let along = switch.from == other.from && switch.to == other.to;
    let against = switch.from == other.to && switch.to == other.from;
    other.line < switch.line && (along || against) && are_closed(last, &switch.kind, &other.kind)
}

/// Whether both are closed at one time, by their times; a measuring switch is always closed.
fn are_closed(last: i64, kind: &SwitchKind, other: &SwitchKind) -> bool
    ensures { result ≡ are_closed last kind.now other.now }
{
    match (kind, other) {
        (
            SwitchKind::Time { close, open_at, .. },
            SwitchKind::Time {
                close: its,
                open_at: its_open,
                ..
            },
        ) => {
            is_closed_after(last, *its, *close, *open_at)
                && is_closed_after(last, *close, *its, *its_open)
        }
        (SwitchKind::Time { close, open_at, .. }, SwitchKind::Measuring)
        | (SwitchKind::Measuring, SwitchKind::Time { close, open_at, .. }) => {
            is_closed_after(last, *close, *close, *open_at)
        }
        (SwitchKind::Measuring, SwitchKind::Measuring) => true,
        _ => false,
    }
}

/// Whether a time switch closes in the run, and opens after that and after another closing time.
fn is_closed_after(last: i64, time: i64, close: i64, open_at: Option<i64>) -> bool
    ensures { result ≡ is_closed_after last time close open_at }
{
    close <= last && opens_after(close, open_at) && opens_after(time, open_at)
}

/// Whether an opening, where there is one, comes after a time.
fn opens_after(time: i64, open_at: Option<i64>) -> bool
    ensures { result ≡ opens_after time open_at }
{
    match open_at {
        None => true,
        Some(open_at) => time < open_at,
    }
}

/// Adds the warnings of the times of a switch.
fn add_times(out: &mut Vec<Warning>, case: &Case, switch: &Switch) -> Result<(), AllocError>
    ensures { OnOk result (AddsTo out.old.items (times_warnings (end_of_run case.now.parts) switch.now.line switch.now.kind)
        out.new.items) }
{
    let SwitchKind::Time { close, open_at, .. } = switch.kind else {
        return Ok(());
    };
    let line = switch.line;
    let last = end_of_run(case);
    let late = is_after_end(last, open_at);
    let first = is_before(close, open_at);
    let rows = [
        columns_row(line, (15, 24), last < close, Finding::AfterEnd),
        columns_row(line, (25, 34), late, Finding::AfterEnd),
        columns_row(line, (25, 34), first, Finding::OpensFirst),
    ];
    add_found(out, &rows)
}

/// Whether a time, where there is one, is after the end of the run.
fn is_after_end(last: i64, time: Option<i64>) -> bool
    ensures { result ≡ is_after_end last time }
{
    matches!(time, Some(time) if last < time)
}

/// Whether an opening, where there is one, comes before this time.
fn is_before(time: i64, open_at: Option<i64>) -> bool
    ensures { result ≡ is_before time open_at }
{
    matches!(open_at, Some(open_at) if open_at < time)
}

// ---- sources

fn add_source(out: &mut Vec<Warning>, last: i64, source: &Source) -> Result<(), AllocError>
    ensures { OnOk result (AddsTo out.old.items (source_warnings last source.now) out.new.items) }
{
    let line = source.line;
    let constant = is_constant(&source.shape);
    let early = is_cosine(&source.shape) && source.start < 0;
    let idle = is_idle(source.start, source.stop);
    let rows = [
        columns_row(line, (21, 30), constant, Finding::NoFrequency),
        columns_row(line, (61, 70), last < source.start, Finding::AfterEnd),
        columns_row(line, (61, 70), early, Finding::EarlyCosine),
        columns_row(line, (71, 80), idle, Finding::NeverActs),
    ];
    add_found(out, &rows)
}

fn is_cosine(shape: &Shape) -> bool
    ensures { result ≡ is_cosine shape.now }
{
    matches!(shape, Shape::Cosine { .. })
}

/// Whether it is a cosine of frequency 0.
fn is_constant(shape: &Shape) -> bool
    ensures { result ≡ is_constant shape.now }
{
    matches!(shape, Shape::Cosine { freq, .. } if *freq == 0)
}

/// Whether a source stops, where it does, before it starts or with it.
fn is_idle(start: i64, stop: Option<i64>) -> bool
    ensures { result ≡ is_idle start stop }
{
    matches!(stop, Some(stop) if stop <= start)
}

// ---- nodes

/// Adds the warnings of BUS1 and BUS2 of a branch or a switch.
fn add_ends(
    out: &mut Vec<Warning>,
    parts: &Parts,
    line: u32,
    from: u32,
    to: u32,
) -> Result<(), AllocError>
    ensures { OnOk result (AddsTo out.old.items (ends_warnings parts.now line from to) out.new.items) }
{
    let rows = [
        columns_row(line, BUS1, is_lone(parts, from), Finding::LoneNode),
        columns_row(line, BUS1, is_node_zero(parts, from), Finding::NodeZero),
        columns_row(line, BUS1, is_case_alone(parts, from), Finding::CaseAlone),
        columns_row(line, BUS2, is_lone(parts, to), Finding::LoneNode),
        columns_row(line, BUS2, is_node_zero(parts, to), Finding::NodeZero),
        columns_row(line, BUS2, is_case_alone(parts, to), Finding::CaseAlone),
    ];
    add_found(out, &rows)
}

/// Whether a node that isn't ground has no other branch, switch or source.
fn is_lone(parts: &Parts, node: u32) -> bool
    ensures { result ≡ is_lone parts.now node }
{
    let ends_at = |b: &&Branch| {
        let (from, to) = b.ends();
        from == node || to == node
    };
    let branches = parts.branches.as_slice().iter().filter(ends_at).count();
    let switches = parts
        .switches
        .as_slice()
        .iter()
        .filter(|s| s.from == node || s.to == node)
        .count();
    let sources = parts
        .sources
        .as_slice()
        .iter()
        .filter(|s| s.node == node)
        .count();
    node != 0 && branches as u128 + switches as u128 + sources as u128 == 1
}

/// Whether a node that isn't ground has the name `0`.
fn is_node_zero(parts: &Parts, node: u32) -> bool
    ensures { result ≡ is_node_zero parts.now node }
{
    node != 0
        && matches!(parts.nodes.as_slice().get(node as usize - 1), Some(name) if name.as_slice() == b"0".as_slice())
}

/// Whether the name of a node that isn't ground differs in case alone from that of a node before it.
fn is_case_alone(parts: &Parts, node: u32) -> bool
    ensures { result ≡ is_case_alone parts.now node }
{
    node != 0 && has_twin(parts.nodes.as_slice(), node as usize - 1)
}

fn has_twin(names: &[Name], at: usize) -> bool
    ensures { result ≡ has_twin (take (min at (length names.now)) names.now) (slice_get names.now at) }
{
    let before = names[..at.min(names.len())].iter();
    matches!(names.get(at), Some(name) if before.filter(|other| is_twin(name, other)).count() != 0)
}

fn is_twin(name: &Name, other: &Name) -> bool
    ensures { result ≡ is_twin name.now other.now }
{
    name.as_slice() != other.as_slice() && name.as_slice().eq_ignore_ascii_case(other.as_slice())
}
