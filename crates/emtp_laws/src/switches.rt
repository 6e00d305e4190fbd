//! What is true of switches in the steps and the records of a run. The functions do nothing: their clauses are proved.

ghost use Rattle.std.specs.Prelude.{◌≡◌, ℕ, ℤ, List, Option, Ok, length};
ghost use Rattle.emtp_case.specs.RunData.{time_of};
ghost use Rattle.emtp_case.specs.StepRecord.{StepRecord, latest, record_back, switch_current_at, switch_state_at};
ghost use Rattle.emtp_case.specs.declared.switch.SwitchKind.TheVariants.{Time};
ghost use Rattle.emtp_case.specs.declared.switch.SwitchState.TheVariants.{Closed, Opened};
ghost use Rattle.emtp_machine.specs.Laws.{records_upto};
ghost use Rattle.emtp_net.specs.Part.{NetworkPart};
ghost use Rattle.emtp_net.specs.Step.{network_part};
ghost use Rattle.emtp_switch.specs.Groups.{switch_at};
ghost use Rattle.emtp_switch.specs.States.{next_state};
ghost use Rattle.emtp_laws.specs.Switches.{AreIdleSwitchesDead, GoValvesRightly, GoesRightly, MayOpen, OpensBreakersRightly};

use emtp_case::Case;

/// A breaker opens only once its opening time has come, and only where its current is within its margin or has changed its
/// sign: in each step after whatever records, and in each record of a run.
pub fn breaker_opens_near_zero_current(case: &Case)
    ensures step { (H : List StepRecord) (s : ℕ) (close : ℤ) (open_at : Option ℤ) (margin : ℤ)
        → (switch_at case.now.parts.switches s).kind ≡ Time close open_at margin
        → switch_state_at s (latest H) ≡ Closed → next_state case.now.parts H s ≡ Opened
        → MayOpen open_at (time_of case.now.parts.run (length H)) margin (switch_current_at s (latest H))
        (switch_current_at s (record_back H 1)) }
    ensures run { (n : ℕ) → OpensBreakersRightly case.now.parts (records_upto case.now.parts n) }
{}

/// A valve goes by its numbers. While it conducts, it goes on in the next step exactly where its current isn't below the
/// holding current. While it doesn't, it fires in the next step exactly where its voltage from anode to cathode is above 0 and
/// not below the ignition voltage, and its variable of the control, if it has one, above 0. So it is in each step after
/// whatever records, and from each record of a run to the next.
pub fn valve_goes_by_its_numbers(case: &Case)
    ensures step { (H : List StepRecord) (s : ℕ) → GoesRightly case.now.parts s (latest H) (next_state case.now.parts H s) }
    ensures run { (n : ℕ) → GoValvesRightly case.now.parts (records_upto case.now.parts n) }
{}

/// An open switch has no current, and neither has a slack one, which closes a loop of closed switches.
pub fn idle_switches_have_no_current(case: &Case)
    ensures step { (H : List StepRecord) (part : NetworkPart) → network_part case.now.parts H ≡ Ok part
        → AreIdleSwitchesDead case.now.parts part.switch_states part.switch_currents }
    ensures run { (n : ℕ) → AreIdleSwitchesDead case.now.parts (latest (records_upto case.now.parts n)).switch_states
        (latest (records_upto case.now.parts n)).switch_currents }
{}
