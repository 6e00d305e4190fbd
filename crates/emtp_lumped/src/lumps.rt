//! All series branches of a case.

ghost use Rattle.std.specs.Prelude.{◌≡◌, ◌^◌, ◌≤◌, ◌∷◌, [], List, ◌-ℤ◌, unsigned_abs, map, IfOk};
ghost use Rattle.emtp_case.specs.held.Range.{IsBetween};
ghost use Rattle.emtp_case.specs.held.RunData.{IsRun};
ghost use Rattle.emtp_case.specs.StepRecord.{rest_of};
ghost use Rattle.emtp_case.specs.declared.branch.Lumped.{Lumped};
ghost use Rattle.emtp_case.specs.declared.branch.LumpedState.{LumpedState};
ghost use Rattle.emtp_fix.specs.declared.limit.TheConstants.{LARGEST_ENTRY};
ghost use Rattle.emtp_lumped.specs.Companion.{companion_of};
ghost use Rattle.emtp_lumped.specs.Lumps.{newest};
ghost use Rattle.emtp_lumped.specs.held.Lumps.{IsSeries, StandsAt, StandsFor, Moves, HasNumbers, rest_at};
ghost use Rattle.emtp_lumped.specs.Step.{history_current_of};

use crate::companion::Companion;
use crate::held::HeldBranch;
use emtp_case::{Branch, Case, Lumped, LumpedState, RunData};
use emtp_fix::OutOfRange;
use std::alloc::{AllocError, Global};
use std::marker::Model;

/// The series branches of a case, numbered by their place among all branches. It stands for a list of records: of each
/// branch it keeps the newest numbers. A branch voltage is that of `from` less that of `to`, and all currents flow
/// from `from` to `to` through the branch.
#[derive(Drop)]
pub struct Lumps<'a> {
    case: &'a Case,
    held: Vec<HeldBranch>,
}

impl<'a> Model for Lumps<'a> {
    ghost use Rattle.std.specs.Prelude.{◌∷◌, [], vec_capacity};
    ghost use Rattle.emtp_lumped.specs.held.Lumps.{Lumping, IsLumping};

    ghost Value = { Lumping };

    ghost use Rattle.std.specs.Coded.{codes};

    ghost coded = { Prim.hlevel codes };

    ghost view = { λ s. record {
      case = s.case.now.parts;
      held = s.held.items;
      capacities = vec_capacity s.held ∷ [];
    } };

    ghost invariant = { λ s. IsLumping s.case.now.parts s.held.items };
}

impl<'a> Lumps<'a> {
    /// The branches of record 0: all of their numbers are 0.
    pub fn open(alloc: Global, case: &'a Case) -> Result<Lumps<'a>, AllocError>
        ensures case { IfOk result (λ s. s.case ≡ case.now.parts) }
        ensures stands { IfOk result (λ s. StandsFor s (rest_of case.now.parts ∷ [])) }
    {
        let held = at_rest(alloc, case)?;
        Ok(Lumps { case, held })
    }

    /// The conductance of a branch, in pS; it is the same in all steps.
    pub fn conductance(&self, branch: usize) -> i64
        requires { (x : Lumped) × IsSeries self.now.case branch x }
        ensures bound { IsBetween 0 LARGEST_ENTRY result }
        ensures value { (x : Lumped) → IsSeries self.now.case branch x
            → result ≡ (companion_of self.now.case.run.dt x).conductance }
    {
        self.held[branch].companion.conductance
    }

    /// The history current of the next step, in nA: to 10^30 in magnitude. It flows from `from` to `to`, so it leaves
    /// the node `from` and enters the node `to`.
    pub fn history_current(&self, branch: usize) -> i128
        requires { (x : Lumped) × IsSeries self.now.case branch x }
        ensures bound { unsigned_abs result ≤ 10 ^ 30 }
        ensures value { (x : Lumped) (past : List LumpedState) → IsSeries self.now.case branch x
            → StandsAt self.now branch past
            → result ≡ history_current_of (companion_of self.now.case.run.dt x) (newest past) }
    {
        self.held[branch].history_current()
    }

    /// Takes the voltages `v` and `w` in nV of a branch's ends `from` and `to`, moves the branch by one step and answers
    /// its current in nA, from `from` to `to`. Where a number that is kept exceeds 10^18 it is out of range. It takes no
    /// memory: the list of the branches keeps its capacity.
    pub fn accept(&mut self, branch: usize, v: i64, w: i64) -> Result<i64, OutOfRange>
        requires { (x : Lumped) × IsSeries self.old.case branch x }
        ensures { Moves self.old self.new branch (v -ℤ w) result }
    {
        let held = &mut self.held[branch];
        if !held.step(v, w) {
            return Err(OutOfRange);
        }
        Ok(held.state.current)
    }
}

/// Each branch at rest; one of another kind has an empty companion.
fn at_rest(alloc: Global, case: &Case) -> Result<Vec<HeldBranch>, AllocError>
    ensures { IfOk result (λ held. held.items ≡ map (rest_at case.now.parts.run.dt) case.now.parts.branches) }
{
    let mut held = Vec::new(alloc);
    for branch in case.parts.branches.as_slice() {
        held.push(rest(&case.parts.run, branch))?;
    }
    Ok(held)
}

fn rest(run: &RunData, branch: &Branch) -> HeldBranch
    requires run { IsRun run.now }
    requires branch { HasNumbers run.now.dt branch.now }
    ensures { result ≡ rest_at run.now.dt branch.now }
{
    match branch {
        Branch::Lumped(b) => HeldBranch::at_rest(Companion::of(run.dt, b)),
        Branch::Line(_) | Branch::Pseudo(_) | Branch::Phase(_) => HeldBranch::at_rest(NO_COMPANION),
    }
}

const NO_COMPANION: Companion = Companion {
    conductance: 0,
    inductor: 0,
    capacitor: 0,
};
