//! All pseudo-nonlinear branches of a case.

ghost use Rattle.std.specs.Prelude.{◌≡◌, ◌^◌, ◌≤◌, ◌∷◌, [], ◌-ℤ◌, List, length, unsigned_abs, IfOk};
ghost use Rattle.emtp_case.specs.held.Range.{IsBetween};
ghost use Rattle.emtp_case.specs.StepRecord.{rest_of};
ghost use Rattle.emtp_case.specs.declared.branch.Pseudo.{Pseudo};
ghost use Rattle.emtp_fix.specs.declared.limit.TheConstants.{LARGEST_ENTRY, LARGEST_VALUE};
ghost use Rattle.emtp_pseudo.specs.held.Held.{HasNumbers, IsOfBranch};
ghost use Rattle.emtp_pseudo.specs.Pseudos.{next_history_current, newest, present};
ghost use Rattle.emtp_pseudo.specs.held.Pseudos.{IsPseudoAt, Moves, StandsAt, StandsFor, AreHeldAtRest};
ghost use Rattle.emtp_pseudo.specs.declared.moment.Moment.{Moment};

use crate::held::HeldBranch;
use crate::moment::Moment;
use crate::segment::Segment;
use emtp_case::{Branch, Case, Point, Pseudo, PseudoState};
use emtp_fix::OutOfRange;
use std::alloc::{AllocError, Global};
use std::marker::Model;

/// The pseudo-nonlinear branches of a case, numbered by their place among all branches. It stands for a list of records:
/// of each branch it keeps the newest numbers and the newest voltage. A branch voltage is that of `from` less that of
/// `to`, and all currents flow from `from` to `to` through the branch.
#[derive(Drop)]
pub struct Pseudos<'a> {
    case: &'a Case,
    held: Vec<HeldBranch>,
}

impl<'a> Model for Pseudos<'a> {
    ghost use Rattle.std.specs.Prelude.{◌∷◌, [], vec_capacity};
    ghost use Rattle.emtp_pseudo.specs.held.Pseudos.{HeldPseudos, AreHeld};

    ghost Value = { HeldPseudos };

    ghost use Rattle.std.specs.Coded.{codes};

    ghost coded = { Prim.hlevel codes };

    ghost view = { λ s. record {
      case = s.case.now.parts;
      held = s.held.items;
      capacities = vec_capacity s.held ∷ [];
    } };

    ghost invariant = { λ s. AreHeld s.case.now.parts s.held.items };
}

impl<'a> Pseudos<'a> {
    /// The branches of record 0: all of their numbers are 0, and each is on its segment 0.
    pub fn open(alloc: Global, case: &'a Case) -> Result<Pseudos<'a>, AllocError>
        ensures case { IfOk result (λ s. s.case ≡ case.now.parts) }
        ensures stands { IfOk result (λ s. StandsFor s (rest_of case.now.parts ∷ [])) }
    {
        let held = at_rest(alloc, case)?;
        Ok(Pseudos { case, held })
    }

    /// The conductance of a branch in the next step, in pS. It is another one where the last step changed the segment.
    pub fn conductance(&self, branch: usize) -> i64
        requires { (x : Pseudo) × IsPseudoAt self.now.case branch x }
        ensures bound { IsBetween 0 LARGEST_ENTRY result }
        ensures value { (x : Pseudo) (past : List Moment) → IsPseudoAt self.now.case branch x
            → StandsAt self.now branch past → result ≡ (present self.now.case x past).conductance }
    {
        self.held[branch].segment.conductance
    }

    /// The history current of the next step, in nA: to 10^30 in magnitude. It flows from `from` to `to`, so it leaves
    /// the node `from` and enters the node `to`.
    pub fn history_current(&self, branch: usize) -> i128
        requires { (x : Pseudo) × IsPseudoAt self.now.case branch x }
        ensures bound { unsigned_abs result ≤ 10 ^ 30 }
        ensures value { (x : Pseudo) (past : List Moment) → IsPseudoAt self.now.case branch x
            → StandsAt self.now branch past → result ≡ next_history_current self.now.case x past }
    {
        self.held[branch].history_current
    }

    /// Takes the voltages `v` and `w` in nV of a branch's ends `from` and `to`, moves the branch by one step and answers
    /// its current in nA, from `from` to `to`. Where a current in nA or a flux in pWb that is kept exceeds 10^18 it is out
    /// of range. It takes no memory: the list of the branches keeps its capacity.
    pub fn accept(&mut self, branch: usize, v: i64, w: i64) -> Result<i64, OutOfRange>
        requires { (x : Pseudo) × IsPseudoAt self.old.case branch x }
        ensures { Moves self.old self.new branch (v -ℤ w) result }
    {
        match self.held[branch].after(self.case, v as i128 - w as i128) {
            Some(held) => {
                self.held[branch] = held;
                Ok(held.moment.state.current)
            }
            None => Err(OutOfRange),
        }
    }

    /// The segment of the last record, which the next step is on: from -63 to 63.
    pub fn segment(&self, branch: usize) -> i32
        requires { (x : Pseudo) × IsPseudoAt self.now.case branch x }
        ensures { (past : List Moment) → StandsAt self.now branch past → result ≡ (newest past).state.segment }
    {
        self.held[branch].moment.state.segment
    }

    /// What the last record keeps of a branch: its current in nA, the segment that the next step is on, its flux in pWb.
    pub fn state(&self, branch: usize) -> PseudoState
        requires { (x : Pseudo) × IsPseudoAt self.now.case branch x }
        ensures value { (past : List Moment) → StandsAt self.now branch past → result ≡ (newest past).state }
        ensures current { unsigned_abs result.current ≤ LARGEST_VALUE }
        ensures flux { unsigned_abs result.flux ≤ LARGEST_VALUE }
    {
        self.held[branch].moment.state
    }
}

/// Each branch at rest; one of another kind has an empty characteristic.
fn at_rest(alloc: Global, case: &Case) -> Result<Vec<HeldBranch>, AllocError>
    ensures { IfOk result (λ held. AreHeldAtRest case.now.parts (length case.now.parts.branches) held.items) }
{
    let mut held = Vec::new(alloc);
    for branch in case.parts.branches.as_slice() {
        held.push(rest(case, branch))?;
    }
    Ok(held)
}

fn rest(case: &Case, branch: &Branch) -> HeldBranch
    requires { HasNumbers case.now.parts branch.now }
    ensures { IsOfBranch case.now.parts branch.now result }
{
    match branch {
        Branch::Pseudo(x) => HeldBranch::of(case, x, REST),
        Branch::Lumped(_) | Branch::Line(_) | Branch::Phase(_) => NO_BRANCH,
    }
}

const REST: Moment = Moment {
    state: PseudoState {
        current: 0,
        segment: 0,
        flux: 0,
    },
    voltage: 0,
};

const ORIGIN: Point = Point {
    current: 0,
    other: 0,
};

const NO_BRANCH: HeldBranch = HeldBranch {
    card: Pseudo {
        line: 0,
        from: 0,
        to: 0,
        reactor: false,
        first: 0,
        count: 0,
    },
    moment: REST,
    segment: Segment {
        conductance: 0,
        base: ORIGIN,
        rise: ORIGIN,
        upper: None,
        lower: None,
    },
    word: 0,
    history_current: 0,
};
