//! A line with losses whose numbers don't divide evenly, and one of the least impedance.

ghost use Rattle.std.specs.Prelude.{◌≡◌, ◌≤◌, [], ◌∷◌, IfOk};
ghost use Rattle.emtp_case.specs.held.Branch.{IsLine};
ghost use Rattle.emtp_case.specs.HistoryValues.{branch_history_values};
ghost use Rattle.emtp_case.specs.held.Sizes.{sizes_with};
ghost use Rattle.emtp_case.specs.declared.branch.Line.{Line};
ghost use Rattle.emtp_line.specs.held.Lines.{IsLineAt};

use crate::fixtures::{OUT, RUN, V, nodes};
use emtp_case::{Branch, Case, Line};
use emtp_line::Lines;
use std::alloc::{AllocError, Global};
use std::test::Fail;

mod phases;

/// The greatest current in nA.
const LARGEST: i128 = 1_000_000_000_000_000_000;

/// Numbers that don't divide evenly.
#[tactic(auto, unfolding(emtp_fix::specs::Rounding::near, emtp_fix::specs::Rounding::near_abs))]
fn with_losses() -> Line
    ensures fits { IsLine RUN (sizes_with 2) result }
    ensures history { branch_history_values RUN.dt (Branch.Line result) ≤ 100 }
{
    Line {
        line: 4,
        from: 1,
        to: 2,
        zc: 312_345_678,
        r: 54_321_098,
        delay: 234_567_891,
    }
}

/// A case of one line from A to B.
fn one_line(alloc: Global, line: Line) -> Result<Case, AllocError>
    requires fits { IsLine RUN (sizes_with 2) line }
    requires history { branch_history_values RUN.dt (Branch.Line line) ≤ 100 }
    ensures { IfOk result (λ case. case.parts.branches ≡ Branch.Line line ∷ []) }
{
    let mut draft = nodes(alloc, 2)?;
    match draft.add_branch(Branch::Line(line)) {
        Ok(()) => Ok(draft.finish_network()),
        Err(error) => {
            drop(draft);
            Err(error)
        }
    }
}

/// The history currents before, the branch current, and the currents of both ends after.
type Step = ((i128, i128), i64, (i64, i64));

fn step(lines: &mut Lines<'_>, voltages: (i64, i64)) -> Step
    requires { (x : Line) × IsLineAt lines.old.case 0 x }
    ensures { lines.new.case ≡ lines.old.case }
{
    let histories = lines.history_currents(0);
    let current = lines.accept(0, voltages.0, voltages.1).unwrap_or(OUT);
    (histories, current, lines.end_currents(0))
}

/// The voltages of the ends, and the step that they make.
type Row = ((i64, i64), Step);

/// Rows of steps in range, whose branch current is that of the first end.
macro_rules! rows {
    ($($v:expr, $w:expr => $near:expr, $far:expr; $from:expr, $to:expr;)*) => {
        &[$((($v, $w), (($near, $far), $from, ($from, $to)))),*]
    };
}

/// The first row that a line doesn't step like.
fn difference(alloc: Global, line: Line, rows: &[Row]) -> Result<Option<usize>, AllocError>
    requires fits { IsLine RUN (sizes_with 2) line }
    requires history { branch_history_values RUN.dt (Branch.Line line) ≤ 100 }
{
    let case = one_line(alloc, line)?;
    let found = walk(alloc, &case, rows);
    drop(case);
    found
}

fn walk(alloc: Global, case: &Case, rows: &[Row]) -> Result<Option<usize>, AllocError>
    requires { (x : Line) × IsLineAt case.now.parts 0 x }
{
    let mut lines = Lines::open(alloc, case)?;
    let found = first_difference(&mut lines, rows);
    drop(lines);
    Ok(found)
}

fn first_difference(lines: &mut Lines<'_>, rows: &[Row]) -> Option<usize>
    requires { (x : Line) × IsLineAt lines.old.case 0 x }
{
    for at in 0..rows.len() {
        let (voltages, wanted) = rows[at];
        if step(lines, voltages) != wanted {
            return Some(at);
        }
    }
    None
}

/// Losses take of the waves.
const WITH_LOSSES: &[Row] = rows! {
    123_456_789_012, -987_654_321 => 0, 0; 378_787_844, -3_030_303;
    -55_555_555_555, 7 => 0, 0; -170_454_531, 0;
    31, 100 * V => -16_151_523, -455_091_764; -16_151_523, -148_273_608;
    99_999_999_999, -3 => 374_210, -35_563_177; 307_192_366, -35_563_177;
    -123_456_789, 77_777_777_777 => -102_055_318, 112_853_823; -102_434_106, 351_490_167;
};

/// A lead of the least impedance, one step long.
#[tactic(auto, unfolding(emtp_fix::specs::Rounding::near, emtp_fix::specs::Rounding::near_abs))]
fn lead() -> Line
    ensures fits { IsLine RUN (sizes_with 2) result }
    ensures history { branch_history_values RUN.dt (Branch.Line result) ≤ 100 }
{
    Line {
        line: 4,
        from: 1,
        to: 2,
        zc: 10,
        r: 0,
        delay: 100_000_000,
    }
}

/// 5 kV make 0.5 GA and a wave of 1 GA, which is the greatest; 1 nV more is too much, at either end. A line out of
/// range stays as it was.
const GREATEST_WAVE: &[Row] = &[
    ((5_000 * V + 1, 0), ((0, 0), OUT, (0, 0))),
    ((0, 5_000 * V + 1), ((0, 0), OUT, (0, 0))),
    (
        (5_000 * V, 0),
        ((0, 0), 500_000_000 * V, (500_000_000 * V, 0)),
    ),
    ((0, 0), ((0, -LARGEST), 0, (0, -1_000_000_000 * V))),
    (
        (0, 0),
        ((LARGEST, 0), 1_000_000_000 * V, (1_000_000_000 * V, 0)),
    ),
];

/// The first differences of all lines.
fn differences(alloc: Global) -> [Result<Option<usize>, AllocError>; 2] {
    [
        difference(alloc, with_losses(), WITH_LOSSES),
        difference(alloc, lead(), GREATEST_WAVE),
    ]
}

#[test]
fn worked_lines(rt: HostRuntime) -> Result<(), Fail> {
    assert_eq!(rt; differences(rt.alloc()), [Ok(None); 2]);
    Ok(())
}
