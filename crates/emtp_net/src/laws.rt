//! What is true of the steps of a network in the field's own words. The functions do nothing: their clauses are proved.

ghost use Rattle.std.specs.Prelude.{◌≡◌, ◌+◌, ◌≤◌, ◌<◌, ◌∷◌, ℕ, List, length, unsigned_abs, Ok};
ghost use Rattle.emtp_case.specs.StepRecord.{StepRecord};
ghost use Rattle.emtp_net.specs.Part.{NetworkPart};
ghost use Rattle.emtp_net.specs.Redone.{net_redone, step_redone};
ghost use Rattle.emtp_net.specs.held.Redone.{net_ticks};
ghost use Rattle.emtp_net.specs.Residual.{residual_of};
ghost use Rattle.emtp_net.specs.Step.{network_part};
ghost use Rattle.emtp_net.specs.System.{conductances, kinds_of};

use emtp_case::Case;

/// In each step that is made, the currents that leave a node or a group without known voltage add up to what its current
/// sources bring, but for the tolerance. They are the currents of the branch laws, and never those of the matrix.
pub fn residual_within_tolerance(case: &Case)
    ensures { (H : List StepRecord) (part : NetworkPart) → network_part case.now.parts H ≡ Ok part
        → (row : ℕ) → row < length case.now.parts.nodes
        → residual_of case.now.parts H part.branches row ≤ unsigned_abs case.now.parts.run.tolerance }
{}

/// Once a step is made, the rows that were eliminated are those of one matrix and the rows redone.
pub fn ticks_are_size_and_redone(case: &Case)
    ensures { (r s : StepRecord) (past : List StepRecord)
        → net_ticks case.now.parts (r ∷ s ∷ past) ≡ length case.now.parts.nodes + net_redone case.now.parts (r ∷ s ∷ past) }
{}

/// A step in which no conductance and no kind of a row is another than in the step before redoes no row.
pub fn unchanged_redoes_nothing(case: &Case)
    ensures { (r s : StepRecord) (past : List StepRecord)
        → conductances case.now.parts (r ∷ s ∷ past) ≡ conductances case.now.parts (s ∷ past)
        → kinds_of case.now.parts (r ∷ s ∷ past) ≡ kinds_of case.now.parts (s ∷ past)
        → step_redone case.now.parts (r ∷ s ∷ past) ≡ 0 }
{}
