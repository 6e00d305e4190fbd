//! A resistance in a run, in ohm. The functions do nothing: their clauses are proved.

ghost use Rattle.std.specs.Prelude.{ℕ};
ghost use Rattle.emtp_case.specs.declared.branch.Lumped.{Lumped};
ghost use Rattle.emtp_laws_of_units.specs.Resistor.{LeadsAlone, ObeysOhm};
ghost use Rattle.emtp_machine.specs.Laws.{records_upto};

use emtp_case::Case;

/// Ohm's law over a run, sign included: where a resistance R alone leads from a node to ground, in a case without switches, the
/// node's voltage in each record after record 0 is R times the current that the sources bring into the node in that step, within
/// R times the case's tolerance, half a nA and half a pS times the voltage.
pub fn resistor_has_the_voltage_of_its_current(case: &Case)
    ensures { (m b n : ℕ) (x : Lumped) → LeadsAlone case.now.parts b n x
        → ObeysOhm case.now.parts n x (records_upto case.now.parts m) }
{}
