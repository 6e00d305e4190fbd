//! Two branches whose numbers don't divide evenly, stepped together by 100 microseconds.

ghost use Rattle.std.specs.Prelude.{◌≡◌, ◌≢◌, ◌+◌, ◌<◌, [], ◌∷◌, List, ℕ, None, length, IfOk, OnOk, OnErr, IfErr};
ghost use Rattle.emtp_case.specs.held.Branch.{IsLumped};
ghost use Rattle.emtp_case.specs.Case.{empty_parts};
ghost use Rattle.emtp_case.specs.held.Sizes.{sizes_with};
ghost use Rattle.emtp_case.specs.StepRecord.{StepRecord};
ghost use Rattle.emtp_case.specs.declared.branch.Lumped.{Lumped};
ghost use Rattle.emtp_case.specs.declared.branch.LumpedState.{LumpedState};
ghost use Rattle.emtp_lumped.specs.Lumps.{next_of};
ghost use Rattle.emtp_lumped.specs.held.Lumps.{IsSeries, StandsAt, StandsFor, HasMoved};
ghost use Rattle.emtp_tests_laws.specs.Stepping.{voltage_of, HaveMoved, IsNext, IsFirstOut};

use crate::fixtures::{RUN, V, nodes};
use emtp_case::{Branch, Case, Draft, Lumped};
use emtp_fix::OutOfRange;
use emtp_lumped::Lumps;
use std::alloc::{AllocError, Global};
use std::test::Fail;

// One step of all series branches, as the network makes it.

/// Takes the node voltages into one branch, and answers its current; 0 where it is no series branch.
fn accept_one(
    case: &Case,
    lumps: &mut Lumps<'_>,
    voltages: &[i64],
    at: usize,
) -> Result<i64, OutOfRange>
    requires same { lumps.old.case ≡ case.now.parts }
    requires each { length voltages.now ≡ length case.now.parts.nodes + 1 }
    requires there { at < length case.now.parts.branches }
    ensures case { lumps.new.case ≡ lumps.old.case }
    ensures moved { (x : Lumped) (past : List LumpedState) → IsSeries case.now.parts at x → StandsAt lumps.old at past → IfOk result (HasMoved lumps.new at past (next_of case.now.parts x past (voltage_of x voltages.now))) }
    ensures out { OnErr result ((x : Lumped) × IsSeries case.now.parts at x × ((past : List LumpedState) → StandsAt lumps.old at past → next_of case.now.parts x past (voltage_of x voltages.now) ≡ None)) }
    ensures others { (b : ℕ) (past : List LumpedState) → b ≢ at → StandsAt lumps.old b past → StandsAt lumps.new b past }
{
    match case.parts.branches.as_slice()[at] {
        Branch::Lumped(b) => {
            match lumps.accept(at, voltages[b.from as usize], voltages[b.to as usize]) {
                Ok(current) => Ok(current),
                Err(e) => Err(e),
            }
        }
        Branch::Line(_) => Ok(0),
        Branch::Pseudo(_) => Ok(0),
        Branch::Phase(_) => Ok(0),
    }
}

/// Takes the node voltages into all series branches, in the order of the cards, and writes their currents. An error is
/// the first branch that is out of range.
fn accept_all(
    case: &Case,
    lumps: &mut Lumps<'_>,
    voltages: &[i64],
    currents: &mut [i64],
) -> Result<(), usize>
    requires same { lumps.old.case ≡ case.now.parts }
    requires each { length voltages.now ≡ length case.now.parts.nodes + 1 }
    requires currents { length currents.old ≡ length case.now.parts.branches }
    ensures case { lumps.new.case ≡ lumps.old.case }
    ensures moved { (H : List StepRecord) → StandsFor lumps.old H → IfOk result (λ done. HaveMoved case.now.parts H voltages.now lumps.new currents.new (length case.now.parts.branches)) }
    ensures stands { (H : List StepRecord) (r : StepRecord) → StandsFor lumps.old H → IsNext case.now.parts H voltages.now r → IfOk result (λ done. StandsFor lumps.new (r ∷ H)) }
    ensures first { (H : List StepRecord) → StandsFor lumps.old H → IfErr result (IsFirstOut case.now.parts H voltages.now) }
{
    for at in 0..case.parts.branches.len() {
        match accept_one(case, lumps, voltages, at) {
            Ok(current) => currents[at] = current,
            Err(_) => return Err(at),
        }
    }
    Ok(())
}

// Cases.

/// 10 ohm and 5 nH, whose impedance is 100 micro-ohm, from node 1 to ground.
#[tactic(auto, unfolding(emtp_fix::specs::Rounding::near, emtp_fix::specs::Rounding::near_abs, emtp_case::specs::Branch::capacitor_impedance))]
fn short_lead() -> Lumped
    ensures { IsLumped RUN (sizes_with 2) result }
{
    Lumped {
        line: 4,
        from: 1,
        to: 0,
        r: 10_000_000,
        l: 5,
        c: 0,
    }
}

/// All three parts from node 2 to ground.
#[tactic(auto, unfolding(emtp_fix::specs::Rounding::near, emtp_fix::specs::Rounding::near_abs, emtp_case::specs::Branch::capacitor_impedance))]
fn all_parts() -> Lumped
    ensures { IsLumped RUN (sizes_with 2) result }
{
    Lumped {
        line: 4,
        from: 2,
        to: 0,
        r: 1_234_567,
        l: 76_543,
        c: 9_876_543_210,
    }
}

/// A case of both branches.
fn two_branches(alloc: Global) -> Result<Case, AllocError>
    ensures branches { IfOk result (λ case. length case.parts.branches ≡ 2) }
    ensures nodes { IfOk result (λ case. length case.parts.nodes ≡ 2) }
{
    let mut draft = nodes(alloc, 2)?;
    match add_branches(&mut draft, short_lead(), all_parts()) {
        Ok(()) => Ok(draft.finish_network()),
        Err(error) => {
            drop(draft);
            Err(error)
        }
    }
}

fn add_branches(draft: &mut Draft, first: Lumped, second: Lumped) -> Result<(), AllocError>
    requires empty { draft.old.parts ≡ record (empty_parts RUN) { nodes = draft.old.parts.nodes } }
    requires nodes { length draft.old.parts.nodes ≡ 2 }
    requires first { IsLumped RUN (sizes_with 2) first }
    requires second { IsLumped RUN (sizes_with 2) second }
    ensures { OnOk result (draft.new.parts ≡ record draft.old.parts { branches = Branch.Lumped first ∷ Branch.Lumped second ∷ [] }) }
{
    draft.add_lumped(first)?;
    draft.add_lumped(second)
}

/// The voltages of the nodes, ground first, and the currents that they make; or the branch that is out of range.
type Row = ([i64; 3], Result<[i64; 2], usize>);

/// 0.5 GA through the short lead are in range, 2.5 GA through the other branch aren't.
const STEPS: [Row; 4] = [
    (
        [0, 100 * V, 124_444_443_333],
        Ok([9_999_900_001, 15_897_496_659]),
    ),
    (
        [0, 100 * V, -55_555_555_562],
        Ok([10_000_099_997, -21_441_695_325]),
    ),
    (
        [0, 100 * V, 31 - 100 * V],
        Ok([9_999_900_005, -20_208_049_890]),
    ),
    ([0, 5_000_000_000 * V, 5_000_000_000 * V], Err(1)),
];

/// Whether a step ends so.
fn ends(case: &Case, lumps: &mut Lumps<'_>, row: &Row) -> bool
    requires same { lumps.old.case ≡ case.now.parts }
    requires nodes { length case.now.parts.nodes ≡ 2 }
    requires branches { length case.now.parts.branches ≡ 2 }
    ensures { lumps.new.case ≡ lumps.old.case }
{
    let (voltages, wanted) = *row;
    let mut currents = [0; 2];
    match accept_all(case, lumps, &voltages, &mut currents) {
        Ok(()) => wanted == Ok(currents),
        Err(branch) => wanted == Err(branch),
    }
}

fn all_end(alloc: Global, case: &Case) -> Result<bool, AllocError>
    requires nodes { length case.now.parts.nodes ≡ 2 }
    requires branches { length case.now.parts.branches ≡ 2 }
{
    let mut lumps = Lumps::open(alloc, case)?;
    let are = ends(case, &mut lumps, &STEPS[0])
        && ends(case, &mut lumps, &STEPS[1])
        && ends(case, &mut lumps, &STEPS[2])
        && ends(case, &mut lumps, &STEPS[3]);
    drop(lumps);
    Ok(are)
}

#[test]
fn all_branches_step_by_step(rt: HostRuntime) -> Result<(), Fail> {
    let case = two_branches(rt.alloc())?;
    let are = all_end(rt.alloc(), &case);
    drop(case);
    assert!(rt; are?);
    Ok(())
}
