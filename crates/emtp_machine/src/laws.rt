//! What is true of every run in the field's own words. The functions do nothing: their clauses are proved.

ghost use Rattle.std.specs.Prelude.{ℕ, ◌≤◌, All, IfSome};
ghost use Rattle.emtp_machine.specs.History.{history, samples};
ghost use Rattle.emtp_machine.specs.Laws.{IsBalanced, SamplesBalance, records_upto};
ghost use Rattle.emtp_machine.specs.held.Laws.{IsChain, IsRefusal};
ghost use Rattle.emtp_machine.specs.Ranges.{AreSamplesInRange, IsRecordInRange};

use emtp_case::Case;

/// The records of a run begin at rest, and each other one is the record after those before it.
pub fn records_are_a_chain(case: &Case)
    ensures { (n : ℕ) → IsChain case.now.parts (records_upto case.now.parts n) }
{}

/// A run that ends early ends at the first step that has no record.
pub fn end_is_the_first_refusal(case: &Case)
    ensures { IfSome (history case.now.parts).end (IsRefusal case.now.parts (history case.now.parts).records) }
{}

/// In each record of a run the currents at each node or group add up to 0 within the tolerance.
pub fn each_record_balances(case: &Case)
    ensures { (n : ℕ) → IsBalanced case.now.parts (records_upto case.now.parts n) }
{}

/// Each sample has the values of its record, and in that record the currents at each node or group add up to 0 within
/// the tolerance.
pub fn samples_balance(case: &Case)
    ensures { SamplesBalance case.now.parts }
{}

/// In each record of a run no voltage, no current and no value of the control exceeds 1e18 in magnitude: a number that
/// leaves its range ends the run at its step, which has no record.
pub fn records_are_in_range(case: &Case)
    ensures { (n : ℕ) → n ≤ case.now.parts.run.steps → All IsRecordInRange (records_upto case.now.parts n) }
{}

/// A run has no more samples than its steps over `every` and one, and none of their numbers exceeds 1e18 in magnitude.
pub fn samples_are_in_range(case: &Case)
    ensures { AreSamplesInRange case.now.parts (samples case.now.parts (history case.now.parts)) }
{}
