//! A reactor and a resistor whose numbers don't divide evenly, walked through all of their segments at given voltages.

ghost use Rattle.std.specs.Prelude.{◌≡◌, ◌≤◌, ◌-ℤ◌, ◌∷◌, [], List, true, false, length, IfOk};
ghost use Rattle.emtp_case.specs.held.Branch.{IsCharacteristic};
ghost use Rattle.emtp_case.specs.declared.branch.Pseudo.{Pseudo};
ghost use Rattle.emtp_pseudo.specs.Pseudos.{next_history_current, present};
ghost use Rattle.emtp_pseudo.specs.held.Pseudos.{IsPseudoAt, Moves, StandsAt};
ghost use Rattle.emtp_pseudo.specs.declared.moment.Moment.{Moment};

use crate::fixtures::{RUN, V, nodes};
use emtp_case::{Branch, Case, Point, Pseudo};
use emtp_fix::OutOfRange;
use emtp_pseudo::Pseudos;
use std::alloc::{AllocError, Global};
use std::test::Fail;

/// One step of a branch.
#[derive(Clone, Copy)]
struct BranchStep {
    conductance: i64,
    history_current: i128,
    current: Result<i64, OutOfRange>,
    segment: i32,
}

/// One step of a branch as the network makes it: what it takes into its equations, and after the solution at the voltages
/// `v` and `w` what the record says of the branch.
fn step(pseudos: &mut Pseudos<'_>, branch: usize, v: i64, w: i64) -> BranchStep
    requires { (x : Pseudo) × IsPseudoAt pseudos.old.case branch x }
    ensures conductance { (x : Pseudo) (past : List Moment) → IsPseudoAt pseudos.old.case branch x → StandsAt pseudos.old branch past → result.conductance ≡ (present pseudos.old.case x past).conductance }
    ensures history { (x : Pseudo) (past : List Moment) → IsPseudoAt pseudos.old.case branch x → StandsAt pseudos.old branch past → result.history_current ≡ next_history_current pseudos.old.case x past }
    ensures moves { Moves pseudos.old pseudos.new branch (v -ℤ w) result.current }
{
    let conductance = pseudos.conductance(branch);
    let history_current = pseudos.history_current(branch);
    let current = pseudos.accept(branch, v, w);
    BranchStep {
        conductance,
        history_current,
        current,
        segment: pseudos.segment(branch),
    }
}

// Cases.

/// A case of one branch from a node to ground.
fn one_branch(alloc: Global, reactor: bool, points: &[Point]) -> Result<Case, AllocError>
    requires some { 1 ≤ length points.now }
    requires few { length points.now ≤ 64 }
    requires characteristic { IsCharacteristic reactor RUN.dt points.now }
    ensures { IfOk result (λ case. case.parts.branches ≡ Branch.Pseudo (record { line = 4; from = 1; to = 0; reactor = reactor; first = 0; count = length points.now }) ∷ []) }
{
    let branch = Pseudo {
        line: 4,
        from: 1,
        to: 0,
        reactor,
        first: 0,
        count: 0,
    };
    let mut draft = nodes(alloc, 1)?;
    match draft.add_pseudo(branch, points) {
        Ok(()) => Ok(draft.finish_network()),
        Err(error) => {
            drop(draft);
            Err(error)
        }
    }
}

/// A reactor of three uneven segments.
fn uneven_reactor() -> [Point; 3]
    ensures { IsCharacteristic true RUN.dt result }
{
    [
        Point {
            current: 123_456_789,
            other: 9_876_543_210,
        },
        Point {
            current: 1_234_567_890,
            other: 12_345_678_901,
        },
        Point {
            current: 23_456_789_012,
            other: 13_000_000_001,
        },
    ]
}

/// A resistor of three uneven segments.
fn uneven_resistor() -> [Point; 3]
    ensures { IsCharacteristic false RUN.dt result }
{
    [
        Point {
            current: 123_456_789,
            other: 45_678_901_234,
        },
        Point {
            current: 1_234_567_890,
            other: 56_789_012_345,
        },
        Point {
            current: 23_456_789_012,
            other: 60_000_000_001,
        },
    ]
}

// Walks.

/// The voltages of the two ends; then conductance and history current before the step, and current and segment after it.
type Row = (i64, i64, i64, i128, Result<i64, OutOfRange>, i32);

/// Rows, one a line.
macro_rules! rows {
    ($($v:expr, $w:expr => $conductance:expr, $history:expr, $current:expr, $segment:expr;)*) => {
        &[$(($v, $w, $conductance, $history, $current, $segment)),*]
    };
}

/// The first row that a branch with these points doesn't step like.
fn difference(
    alloc: Global,
    reactor: bool,
    points: &[Point],
    rows: &[Row],
) -> Result<Option<usize>, AllocError>
    requires some { 1 ≤ length points.now }
    requires few { length points.now ≤ 64 }
    requires characteristic { IsCharacteristic reactor RUN.dt points.now }
{
    let case = one_branch(alloc, reactor, points)?;
    let found = walk(alloc, &case, rows);
    drop(case);
    found
}

fn walk(alloc: Global, case: &Case, rows: &[Row]) -> Result<Option<usize>, AllocError>
    requires { (x : Pseudo) × IsPseudoAt case.now.parts 0 x }
{
    let mut pseudos = Pseudos::open(alloc, case)?;
    let found = first_difference(&mut pseudos, rows);
    drop(pseudos);
    Ok(found)
}

fn first_difference(pseudos: &mut Pseudos<'_>, rows: &[Row]) -> Option<usize>
    requires { (x : Pseudo) × IsPseudoAt pseudos.old.case 0 x }
{
    for at in 0..rows.len() {
        let (v, w, conductance, history_current, current, segment) = rows[at];
        let step = step(pseudos, 0, v, w);
        let companion = step.conductance == conductance && step.history_current == history_current;
        if !(companion && step.current == current && step.segment == segment) {
            return Some(at);
        }
    }
    None
}

/// One row has a difference of voltages that 64 bits don't hold, and the next goes on from before it.
const UNEVEN_REACTOR: &[Row] = rows! {
    150 * V, 1 => 624_999_994, 0, Ok(93_749_999), 0;
    7, -90 * V => 624_999_994, 187_499_998, Ok(243_749_997), 1;
    60 * V, 60 * V => 22_500_000_811, 6_479_012_574, Ok(6_479_012_574), 2;
    -123_456_789_012, 0 => 1_698_112_831_911, 397_041_611_998, Ok(187_398_054_390), 2;
    -200 * V, 0 => 1_698_112_831_911, -22_245_503_231, Ok(-361_868_069_613), 1;
    -150 * V, V => 22_500_000_811, -8_076_543_457, Ok(-11_474_043_579), 0;
    0, 111 * V => 624_999_994, -293_070_983, Ok(-362_445_982), -1;
    31, 0 => 22_500_000_811, -11_224_568_251, Ok(-11_224_568_250), -2;
    i64::MAX, i64::MIN => 1_698_112_831_911, -755_196_665_171, Err(OutOfRange), -2;
    90 * V, 0 => 1_698_112_831_911, -755_196_665_171, Ok(-602_366_510_299), -2;
};

/// An end belongs to both of its segments.
const UNEVEN_RESISTOR: &[Row] = rows! {
    45_678_901_234, 0 => 2_702_709_255, 0, Ok(123_456_789), 0;
    50 * V, 1 => 2_702_709_255, 0, Ok(135_135_463), 1;
    58 * V, 0 => 100_009_000_810, -4_444_844_482, Ok(1_355_677_565), 2;
    i64::MAX, i64::MIN => 6_920_702_589_727, -391_785_296_914, Err(OutOfRange), 2;
    61 * V, 0 => 6_920_702_589_727, -391_785_296_914, Ok(30_377_561_059), 2;
    -46 * V, 0 => 6_920_702_589_727, -391_785_296_914, Ok(-710_137_616_041), 1;
    -46 * V, 3 => 100_009_000_810, -4_444_844_482, Ok(-9_045_258_520), 0;
    V, 47 * V => 2_702_709_255, 0, Ok(-124_324_626), -1;
    0, 58 * V => 100_009_000_810, 4_444_844_482, Ok(-1_355_677_565), -2;
    -61 * V, 0 => 6_920_702_589_727, 391_785_296_914, Ok(-30_377_561_059), -2;
    -V, 0 => 6_920_702_589_727, 391_785_296_914, Ok(384_864_594_324), -1;
    0, 0 => 100_009_000_810, 4_444_844_482, Ok(4_444_844_482), 0;
};

/// The first differences of all branches.
fn differences(alloc: Global) -> [Result<Option<usize>, AllocError>; 2] {
    [
        difference(alloc, true, &uneven_reactor(), UNEVEN_REACTOR),
        difference(alloc, false, &uneven_resistor(), UNEVEN_RESISTOR),
    ]
}

#[test]
fn worked_branches(rt: HostRuntime) -> Result<(), Fail> {
    assert_eq!(rt; differences(rt.alloc()), [Ok(None); 2]);
    Ok(())
}
