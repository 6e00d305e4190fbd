//! A caller that has the clauses of a step of switches.

ghost use Rattle.std.specs.Prelude.{◌≡◌, ◌+◌, ◌≤◌, ◌∷◌, List, Some, length, unsigned_abs, IfErr, IfOk};
ghost use Rattle.std.specs.List.{All};
ghost use Rattle.emtp_case.specs.StepRecord.{StepRecord};
ghost use Rattle.emtp_fix.specs.declared.limit.TheConstants.{LARGEST_VALUE};
ghost use Rattle.emtp_switch.specs.Groups.{tied_of};
ghost use Rattle.emtp_switch.specs.Kinds.{kinds_of};
ghost use Rattle.emtp_switch.specs.States.{next_states};
ghost use Rattle.emtp_switch.specs.held.Switching.{AreLatest, StandsFor};

use emtp_case::RowKind;
use emtp_switch::{Switches, Tied};

/// One step of the switches, as the network makes it: the kinds of the rows are written anew only where a state changed.
fn decide(
    switches: &mut Switches<'_>,
    kinds: &mut [RowKind],
    step: u32,
    voltages: &[i64],
    currents: &[i64],
    tacs: &[i64],
) -> Result<(), Tied>
    requires step { step ≤ switches.old.case.run.steps }
    requires voltages { length voltages.now ≡ length switches.old.case.nodes + 1 }
    requires small { All (λ v. unsigned_abs v ≤ LARGEST_VALUE) voltages.now }
    requires currents { length currents.now ≡ length switches.old.case.switches }
    requires tacs { length tacs.now ≡ length switches.old.case.vars }
    requires room { length kinds.old ≡ length switches.old.case.nodes }
    requires kinds { kinds.old ≡ kinds_of switches.old.case switches.old.rows switches.old.states }
    ensures stands { (H : List StepRecord) (r : StepRecord) → StandsFor switches.old H → AreLatest step voltages.now currents.now tacs.now H → r.switch_states ≡ next_states switches.old.case H → StandsFor switches.new (r ∷ H) }
    ensures kinds { IfOk result (λ done. kinds.new ≡ kinds_of switches.new.case switches.new.rows switches.new.states) }
    ensures tied { IfErr result (λ e. tied_of switches.new.case.switches switches.new.rows switches.new.states ≡ Some e.switch) }
{
    switches.decide(step, voltages, currents, tacs);
    if switches.changed() {
        switches.kinds(kinds)?;
    }
    Ok(())
}
