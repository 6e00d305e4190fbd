//! The lines of record 0.

ghost use Rattle.std.specs.Prelude.{◌≡◌, map, IfOk};
ghost use Rattle.emtp_case.specs.held.RunData.{IsRun};
ghost use Rattle.emtp_line.specs.held.Held.{trio_at_rest};
ghost use Rattle.emtp_line.specs.held.Lines.{HasMode, mode_at, rest_at};
ghost use Rattle.emtp_line.specs.held.Mode.{IsMode};

use crate::held::HeldLine;
use crate::held_trio::HeldTrio;
use crate::mode::Mode;
use emtp_case::{Branch, Case, RunData};
use std::alloc::{AllocError, Global};

/// What is held of each branch; one without waves has an empty mode.
pub(crate) fn lines_at_rest(alloc: Global, case: &Case) -> Result<Vec<HeldLine>, AllocError>
    ensures { IfOk result (λ lines. lines.items ≡ map (rest_at case.now.parts.run.dt) case.now.parts.branches) }
{
    let mut lines = Vec::new(alloc);
    for branch in case.parts.branches.as_slice() {
        lines.push(HeldLine::at_rest(alloc, mode_of(&case.parts.run, branch))?)?;
    }
    Ok(lines)
}

/// What is held of each three-phase line.
pub(crate) fn trios_at_rest(alloc: Global, case: &Case) -> Result<Vec<HeldTrio>, AllocError>
    ensures { IfOk result (λ trios. trios.items ≡ map (trio_at_rest case.now.parts.run.dt) case.now.parts.trios) }
{
    let mut trios = Vec::new(alloc);
    for trio in case.parts.trios.as_slice() {
        trios.push(HeldTrio::at_rest(alloc, &case.parts.run, trio)?)?;
    }
    Ok(trios)
}

fn mode_of(run: &RunData, branch: &Branch) -> Mode
    requires run { IsRun run.now }
    requires branch { HasMode run.now.dt branch.now }
    ensures value { result ≡ mode_at run.now.dt branch.now }
    ensures fits { IsMode result }
{
    match branch {
        Branch::Line(x) => Mode::of(run.dt, x.zc, x.r, x.delay),
        Branch::Lumped(_) | Branch::Pseudo(_) | Branch::Phase(_) => NO_MODE,
    }
}

const NO_MODE: Mode = Mode {
    conductance: 0,
    attenuation: 0,
    far_share: 0,
    near_share: 0,
    steps: 1,
    rest: 0,
    dt: 1,
};
