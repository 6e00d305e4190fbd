//! What is true of pseudo-nonlinear branches in the field's own words. The functions do nothing: their clauses are proved.

ghost use Rattle.std.specs.Prelude.{◌≡◌, ◌≤◌, ◌<◌, ◌-ℤ◌, neg_ℤ, ℤ, List, pos, Some, IfSome, unsigned_abs};
ghost use Rattle.emtp_case.specs.held.Branch.{IsPseudo};
ghost use Rattle.emtp_case.specs.held.Sizes.{sizes_of};
ghost use Rattle.emtp_case.specs.StepRecord.{no_pseudo};
ghost use Rattle.emtp_pseudo.specs.Laws.{mirrored_moment, mirrored_next};
ghost use Rattle.emtp_pseudo.specs.Pseudos.{newest, next_of};
ghost use Rattle.emtp_pseudo.specs.Step.{moment_at_rest};
ghost use Rattle.emtp_pseudo.specs.declared.moment.Moment.{Moment};

use emtp_case::{Case, Pseudo};

/// At rest and with no voltage nothing moves.
pub fn rest_stays(case: &Case, x: &Pseudo)
    requires { IsPseudo case.now.parts.run (sizes_of case.now.parts) case.now.parts.points x.now }
    ensures { (past : List Moment) → newest past ≡ moment_at_rest → next_of case.now.parts x.now past (pos 0) ≡ Some no_pseudo }
{}

/// A step leaves its segment for no other than one of the two beside it.
pub fn one_segment_a_step(case: &Case, x: &Pseudo)
    ensures { (past : List Moment) (v : ℤ)
        → IfSome (next_of case.now.parts x.now past v)
        (λ state. unsigned_abs (state.segment -ℤ (newest past).state.segment) ≤ 1) }
{}

/// The branch is odd: with the last record and the voltage turned, current, flux and segment are turned.
pub fn odd_symmetry(case: &Case, x: &Pseudo)
    requires { IsPseudo case.now.parts.run (sizes_of case.now.parts) case.now.parts.points x.now }
    ensures { (past turned : List Moment) (v : ℤ) → newest turned ≡ mirrored_moment (newest past)
        → next_of case.now.parts x.now turned (neg_ℤ v) ≡ mirrored_next (next_of case.now.parts x.now past v) }
{}
