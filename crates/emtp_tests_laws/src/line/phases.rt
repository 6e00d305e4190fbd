//! A three-phase line with losses whose numbers don't divide evenly.

ghost use Rattle.std.specs.Prelude.{◌≡◌, ◌≤◌, ◌<◌, length, IfOk};
ghost use Rattle.emtp_case.specs.held.Branch.{IsTrio};
ghost use Rattle.emtp_case.specs.HistoryValues.{trio_history_values};
ghost use Rattle.emtp_case.specs.held.Range.{AreEnds};

use crate::fixtures::{OUT, RUN, V, nodes};
use emtp_case::{Case, Phase, Trio};
use emtp_line::Lines;
use std::alloc::{AllocError, Global};
use std::test::Fail;

/// Numbers that don't divide evenly.
#[tactic(auto, unfolding(emtp_fix::specs::Rounding::near, emtp_fix::specs::Rounding::near_abs))]
fn sequences_with_losses() -> Trio
    ensures fits { IsTrio RUN result }
    ensures history { trio_history_values RUN.dt result ≤ 100 }
{
    Trio {
        first: 0,
        zc: [498_765_432, 287_654_321],
        r: [123_456_789, 23_456_789],
        delay: [345_678_901, 234_567_890],
    }
}

fn phase(from: u32, to: u32) -> Phase
    requires { AreEnds 6 from to }
    ensures { AreEnds 6 result.from result.to }
{
    Phase {
        line: 4,
        from,
        to,
        trio: 0,
        phase: 0,
    }
}

/// A case of one three-phase line, from nodes 1, 3 and 5 to nodes 2, 4 and 6.
fn three_phases(alloc: Global, modes: Trio) -> Result<Case, AllocError>
    requires fits { IsTrio RUN modes }
    requires history { trio_history_values RUN.dt modes ≤ 100 }
    ensures { IfOk result (λ case. length case.parts.trios ≡ 1) }
{
    let mut draft = nodes(alloc, 6)?;
    match draft.add_trio(modes, phase(1, 2), phase(3, 4), phase(5, 6)) {
        Ok(()) => Ok(draft.finish_network()),
        Err(error) => {
            drop(draft);
            Err(error)
        }
    }
}

/// The voltages of the ends, and the three branch currents that they make.
type Row = ([i64; 3], [i64; 3], [i64; 3]);

/// The first row that a line doesn't step like.
fn walk(alloc: Global, case: &Case, rows: &[Row]) -> Result<Option<usize>, AllocError>
    requires { 0 < length case.now.parts.trios }
{
    let mut lines = Lines::open(alloc, case)?;
    let found = first_difference(&mut lines, rows);
    drop(lines);
    Ok(found)
}

fn first_difference(lines: &mut Lines<'_>, rows: &[Row]) -> Option<usize>
    requires { 0 < length lines.old.case.trios }
{
    for at in 0..rows.len() {
        let (v, w, expected) = rows[at];
        if currents(lines, v, w) != expected {
            return Some(at);
        }
    }
    None
}

fn currents(lines: &mut Lines<'_>, v: [i64; 3], w: [i64; 3]) -> [i64; 3]
    requires { 0 < length lines.old.case.trios }
    ensures { lines.new.case ≡ lines.old.case }
{
    lines.accept_three(0, v, w).unwrap_or([OUT; 3])
}

/// Losses take of both sequences.
const WITH_LOSSES: &[Row] = &[
    (
        [123_456_789_012, -55_555_555_555, 31],
        [-987_654_321, 7, 100 * V],
        [386_233_112, -223_651_217, -34_376_769],
    ),
    (
        [7, 99_999_999_999, -3],
        [1, 2, 3],
        [-50_627_606, 290_066_401, -50_627_606],
    ),
    (
        [-123_456_789, 77_777_777_777, 1],
        [4 * V, -5, 6],
        [97_019_384, 373_822_037, -324_221_374],
    ),
    (
        [5, 6, 7 * V],
        [V, V, V],
        [9_025_370, 6_317_265, -189_890_436],
    ),
    (
        [3 * V, -2 * V, 11],
        [-V, 0, 2 * V],
        [207_963_377, -275_351_525, -99_873_246],
    ),
];

#[test]
fn sequences_that_lose(rt: HostRuntime) -> Result<(), Fail> {
    let case = three_phases(rt.alloc(), sequences_with_losses())?;
    let found = walk(rt.alloc(), &case, WITH_LOSSES);
    drop(case);
    assert_eq!(rt; found?, None);
    Ok(())
}
