//! What is true of the control's steps in the field's own words. The functions do nothing: their clauses are proved.

ghost use Rattle.std.specs.Prelude.{◌≡◌, ◌≢◌, ◌+◌, ◌<◌, ◌∷◌, ◌++◌, [], ℕ, ℤ, List, drop, length, take, Some, Ok, IfOk};
ghost use Rattle.emtp_blocks.specs.System.{limiters_of};
ghost use Rattle.emtp_case.specs.held.Case.{HasNoControl};
ghost use Rattle.emtp_case.specs.StepRecord.{StepRecord, latest};
ghost use Rattle.emtp_elim.specs.Matrix.{item};
ghost use Rattle.emtp_tacs.specs.Part.{ControlPart, standing_values};
ghost use Rattle.emtp_tacs.specs.Redone.{control_redone, control_step_redone};
ghost use Rattle.emtp_tacs.specs.held.Redone.{control_ticks};
ghost use Rattle.emtp_tacs.specs.Step.{Measured, SoFar, control_step, written};

use emtp_case::Case;

/// In each record the variables that every case has (TIMEX, ISTEP, DELTAT, ZERO, PLUS1, MINUS1) have the values of its
/// step: no card writes them.
pub fn standing_variables_are_present(case: &Case)
    ensures { (H : List StepRecord) (m : Measured) (part : ControlPart) → control_step case.now.parts H m ≡ Ok part
        → take 6 part.values ≡ standing_values case.now.parts.run (length H) }
{}

/// A control without cards computes the variables that every case has and nothing else, and never ends in a fault.
pub fn no_cards_change_nothing(case: &Case)
    requires { HasNoControl case.now.parts }
    ensures { (H : List StepRecord) (m : Measured)
        → control_step case.now.parts H m
        ≡ Ok (record {
          values = standing_values case.now.parts.run (length H) ++ drop 6 (latest H).values;
          blocks = [];
          devices = (latest H).devices;
        }) }
{}

/// Once a card wrote its variable, a later card reads this value; every other variable reads what it read before.
pub fn later_cards_read_what_was_written()
    ensures own { (var : ℕ) (s : SoFar) (y : ℤ) → var < length s.values
        → IfOk (written var s (Some y)) (λ t. item t.values var ≡ y) }
    ensures others { (var other : ℕ) (s : SoFar) (y : ℤ) → other ≢ var
        → IfOk (written var s (Some y)) (λ t. item t.values other ≡ item s.values other) }
{}

/// Once a step is made, the rows that were eliminated are those of one matrix and the rows redone.
pub fn ticks_are_blocks_and_redone(case: &Case)
    ensures { (r s : StepRecord) (past : List StepRecord)
        → control_ticks case.now.parts (r ∷ s ∷ past)
        ≡ length case.now.parts.blocks + control_redone case.now.parts (r ∷ s ∷ past) }
{}

/// A step after one in which no limiter moved redoes no row.
pub fn unmoved_redoes_nothing(case: &Case)
    ensures { (r s : StepRecord) (past : List StepRecord)
        → limiters_of case.now.parts (r ∷ s ∷ past) ≡ limiters_of case.now.parts (s ∷ past)
        → control_step_redone case.now.parts (r ∷ s ∷ past) ≡ 0 }
{}
