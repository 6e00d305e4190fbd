//! Which series branch makes a current grow that nothing drives: its resistance and the fictitious one are below 0 together.

ghost use Rattle.std.specs.Prelude.{◌≡◌, ◌++◌, ◌*◌, ◌^◌, ◌≤◌, OnOk, unsigned_abs};
ghost use Rattle.emtp_acting.specs.Fictitious.{fictitious_of, held, with_resistance};
ghost use Rattle.emtp_acting.specs.held.Fictitious.{IsFictitious};
ghost use Rattle.emtp_case.specs.held.Branch.{HasSeriesNumbers, IsBranch};
ghost use Rattle.emtp_case.specs.held.Range.{IsBetween};
ghost use Rattle.emtp_case.specs.held.RunData.{IsTimeStep};
ghost use Rattle.emtp_case.specs.held.Sizes.{sizes_of};
ghost use Rattle.emtp_fix.specs.declared.limit.TheConstants.{LARGEST_IMPEDANCE, LARGEST_INDUCTANCE, LARGEST_TIME};
ghost use Rattle.emtp_inspect.specs.Growing.{another_text, elsewhere_text, ends_at, greater, greatest, grown_at, grown_of, grown_by, grown_text, grown_with, growing_by, growing_text, growth_of, growth_text, named_text, node_name, framed_text, is_sought};

use emtp_acting::Fictitious;
use emtp_case::{Branch, Case, Lumped, Parts};
use emtp_fix::{LARGEST_VALUE, scaled};
use emtp_text::{put, put_fixed, put_number};
use std::alloc::AllocError;

/// The word for ground, which is no name.
const GROUND: &[u8] = b"(ground)";

const NONE_AT: &[u8] = b"At ";

const BUT_ANOTHER: &[u8] =
    b" no series branch makes a current grow that nothing drives, but one elsewhere does.\n";

const BRANCH_OF_LINE: &[u8] = b"The series branch of line ";

const FROM: &[u8] = b", from ";

const TO: &[u8] = b" to ";

const ACTS_WITH: &[u8] = b", acts with r=";

const OHM: &[u8] = b" ohm";

const GROWS_BY: &[u8] =
    b" besides its R, since its conductance is\nrounded to whole pS. A current that nothing drives grows in it: (R + r) t/L=";

const GROWTH_CURE: &[u8] =
    b" up to this step, where -1 is e times.\nAn L without r helps, which show names where there is one, or a reactor of one point (docs/modelling.md).\n";

/// A series branch that makes a current grow.
#[derive(Clone, Copy)]
pub(crate) struct Grown {
    /// The branch.
    pub(crate) branch: Lumped,
    /// The fictitious resistance r, in 10^-9 ohm.
    pub(crate) resistance: i64,
    /// (R + r) t/L in 10^-9, below 0: by which part of itself a current grows in a time t, to the first order.
    pub(crate) growth: i64,
}

/// Puts after a text which branch makes a current grow up to a step: the one at a node with the greatest growth, or else that of
/// the case. Puts nothing where there is none.
pub(crate) fn put_growing(
    out: &mut Vec<u8>,
    case: &Case,
    step: u64,
    name: &[u8],
) -> Result<(), AllocError>
    ensures { OnOk result (out.new.items ≡ out.old.items ++ growing_by case.now.parts step name.now) }
{
    let run = &case.parts.run;
    let time = run.time(step.min(u64::from(run.steps)) as u32);
    put_greatest(out, case, time, name)
}

fn put_greatest(out: &mut Vec<u8>, case: &Case, time: i64, name: &[u8]) -> Result<(), AllocError>
    requires time { IsBetween 0 LARGEST_TIME time }
    ensures { OnOk result (out.new.items ≡ out.old.items ++ growing_text case.now.parts time name.now) }
{
    match greatest(case, time, true, name) {
        Some(grown) => put_grown(out, &case.parts, &grown),
        None => put_elsewhere(out, &case.parts, name, greatest(case, time, false, name)),
    }
}

fn put_elsewhere(
    out: &mut Vec<u8>,
    parts: &Parts,
    name: &[u8],
    found: Option<Grown>,
) -> Result<(), AllocError>
    ensures { OnOk result (out.new.items ≡ out.old.items ++ elsewhere_text parts.now.nodes name.now found) }
{
    match found {
        Some(grown) => put_another(out, parts, name, &grown),
        None => Ok(()),
    }
}

/// Puts that no branch at a node does it, and the one that does.
#[tactic(auto, unfolding(crate::specs::Growing::another_text))]
fn put_another(
    out: &mut Vec<u8>,
    parts: &Parts,
    name: &[u8],
    grown: &Grown,
) -> Result<(), AllocError>
    ensures { OnOk result (out.new.items ≡ out.old.items ++ another_text parts.now.nodes name.now grown.now) }
{
    put(out, NONE_AT)?;
    put(out, name)?;
    put(out, BUT_ANOTHER)?;
    put_grown(out, parts, grown)
}

#[tactic(auto, unfolding(crate::specs::Growing::grown_text))]
fn put_grown(out: &mut Vec<u8>, parts: &Parts, grown: &Grown) -> Result<(), AllocError>
    ensures { OnOk result (out.new.items ≡ out.old.items ++ grown_text parts.now.nodes grown.now) }
{
    put_named(out, parts, &grown.branch)?;
    put_growth(out, grown.resistance, grown.growth)
}

#[tactic(auto, unfolding(crate::specs::Growing::growth_text))]
fn put_growth(out: &mut Vec<u8>, resistance: i64, growth: i64) -> Result<(), AllocError>
    ensures { OnOk result (out.new.items ≡ out.old.items ++ growth_text resistance growth) }
{
    put_framed(out, ACTS_WITH, resistance, OHM)?;
    put_framed(out, GROWS_BY, growth, GROWTH_CURE)
}

/// Puts a number in parts of 10^-9 after a text, between what stands in front of it and behind it.
#[tactic(auto, unfolding(crate::specs::Growing::framed_text))]
fn put_framed(out: &mut Vec<u8>, front: &[u8], value: i64, behind: &[u8]) -> Result<(), AllocError>
    ensures { OnOk result (out.new.items ≡ out.old.items ++ framed_text front.now value behind.now) }
{
    put(out, front)?;
    put_fixed(out, value, 9)?;
    put(out, behind)
}

/// Puts which branch it is.
#[tactic(auto, unfolding(crate::specs::Growing::named_text))]
fn put_named(out: &mut Vec<u8>, parts: &Parts, b: &Lumped) -> Result<(), AllocError>
    ensures { OnOk result (out.new.items ≡ out.old.items ++ named_text parts.now.nodes b.now) }
{
    put(out, BRANCH_OF_LINE)?;
    put_number(out, b.line)?;
    put(out, FROM)?;
    put(out, node_name(parts, b.from))?;
    put(out, TO)?;
    put(out, node_name(parts, b.to))
}

// ---- of a case

/// The greatest growth in a time in ps of all branches, or of those that stand at the node of a name.
fn greatest(case: &Case, time: i64, here: bool, name: &[u8]) -> Option<Grown>
    requires time { IsBetween 0 LARGEST_TIME time }
    ensures { result ≡ greatest case.now.parts time here name.now }
{
    let mut best = None;
    let mut rest = case.parts.branches.as_slice();
    while let [branch, more @ ..] = rest {
        best = greater(best, grown_at(case, time, here, name, branch));
        rest = more;
    }
    best
}

/// The greater growth, the first of two alike.
fn greater(best: Option<Grown>, next: Option<Grown>) -> Option<Grown>
    ensures { result ≡ greater best next }
{
    match (best, next) {
        (best, None) => best,
        (None, next) => next,
        (Some(best), Some(next)) => Some(if next.growth < best.growth {
            next
        } else {
            best
        }),
    }
}

fn grown_at(case: &Case, time: i64, here: bool, name: &[u8], branch: &Branch) -> Option<Grown>
    requires time { IsBetween 0 LARGEST_TIME time }
    requires branch { IsBranch case.now.parts.run (sizes_of case.now.parts) case.now.parts.points branch.now }
    ensures { result ≡ grown_at case.now.parts time here name.now branch.now }
{
    if is_sought(&case.parts, here, name, branch) {
        grown_of(case, time, branch)
    } else {
        None
    }
}

/// Whether a branch stands at the node of a name, where it has to.
fn is_sought(parts: &Parts, here: bool, name: &[u8], branch: &Branch) -> bool
    ensures { result ≡ is_sought parts.now.nodes here name.now branch.now }
{
    !here || ends_at(parts, name, branch)
}

fn ends_at(parts: &Parts, name: &[u8], branch: &Branch) -> bool
    ensures { result ≡ ends_at parts.now.nodes name.now branch.now }
{
    let (from, to) = branch.ends();
    node_name(parts, from) == name || node_name(parts, to) == name
}

/// The name of a node, or the word for ground.
fn node_name(parts: &Parts, node: u32) -> &[u8]
    ensures { result.now ≡ node_name parts.now.nodes node }
{
    if node == 0 {
        return GROUND;
    }
    match parts.nodes.as_slice().get(node.saturating_sub(1) as usize) {
        Some(name) => name.as_slice(),
        None => b"",
    }
}

// ---- a branch

fn grown_of(case: &Case, time: i64, branch: &Branch) -> Option<Grown>
    requires time { IsBetween 0 LARGEST_TIME time }
    requires branch { IsBranch case.now.parts.run (sizes_of case.now.parts) case.now.parts.points branch.now }
    ensures { result ≡ grown_of case.now.parts.run.dt time branch.now }
{
    match branch {
        Branch::Lumped(b) => grown_with(case.parts.run.dt, time, b),
        _ => None,
    }
}

/// What a series branch makes of a current, where it grows.
fn grown_with(dt: i64, time: i64, b: &Lumped) -> Option<Grown>
    requires dt { IsTimeStep dt }
    requires time { IsBetween 0 LARGEST_TIME time }
    requires numbers { HasSeriesNumbers dt b.now.r b.now.l b.now.c }
    ensures { result ≡ grown_with (fictitious_of dt b.now) time b.now }
{
    if 0 < b.l {
        let f = Fictitious::of(dt, b);
        inductance_grown(&f, time, b)
    } else {
        None
    }
}

fn inductance_grown(f: &Fictitious, time: i64, b: &Lumped) -> Option<Grown>
    requires range { IsFictitious f.now }
    requires time { IsBetween 0 LARGEST_TIME time }
    requires r { IsBetween 0 LARGEST_IMPEDANCE b.now.r }
    requires l { IsBetween 1 LARGEST_INDUCTANCE b.now.l }
    ensures { result ≡ grown_by f.now (growth_of (with_resistance f.now b.now.r) time b.now.l) b.now }
{
    grown_by(f, growth(acting(f, b.r), time, b.l), b)
}

fn grown_by(f: &Fictitious, growth: i64, b: &Lumped) -> Option<Grown>
    requires { IsFictitious f.now }
    ensures { result ≡ grown_by f.now growth b.now }
{
    if growth < -1_000_000 {
        Some(Grown {
            branch: *b,
            resistance: f.resistance(),
            growth,
        })
    } else {
        None
    }
}

/// R + r in 10^-9 ohm, of a resistance R in micro-ohm.
fn acting(f: &Fictitious, r: i64) -> i64
    requires range { IsFictitious f.now }
    requires r { IsBetween 0 LARGEST_IMPEDANCE r }
    ensures value { result ≡ with_resistance f.now r }
    ensures bound { unsigned_abs result ≤ 2 * 10 ^ 18 }
{
    1000 * r + f.resistance()
}

/// (R + r) t/L in 10^-9, held to 10^18, of R + r in 10^-9 ohm, a time in ps and an inductance in nH.
fn growth(acting: i64, time: i64, l: i64) -> i64
    requires acting { unsigned_abs acting ≤ 2 * 10 ^ 18 }
    requires time { IsBetween 0 LARGEST_TIME time }
    requires l { IsBetween 1 LARGEST_INDUCTANCE l }
    ensures { result ≡ growth_of acting time l }
{
    held(scaled(acting as i128, time as i128, 1000 * l as i128))
}

/// A number held to 10^18 in magnitude.
fn held(x: i128) -> i64
    ensures { result ≡ held x }
{
    let most = LARGEST_VALUE as i128;
    x.clamp(-most, most) as i64
}
