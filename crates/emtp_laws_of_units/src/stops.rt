//! When a source acts. The function does nothing: its clauses are proved.

ghost use Rattle.std.specs.Prelude.{◌*ℤ◌, ℕ, List, length, pos};
ghost use Rattle.emtp_case.specs.StepRecord.{StepRecord};
ghost use Rattle.emtp_case.specs.declared.source.Source.{Source};
ghost use Rattle.emtp_laws_of_units.specs.Stops.{ActsWithin, AreTimesKept};
ghost use Rattle.emtp_machine.specs.Laws.{records_upto};
ghost use Rattle.emtp_net.specs.System.{source_value};

use emtp_case::Case;

/// A source of the network acts from TSTART to TSTOP, both included, in the time of its step, number times time step: before and
/// after them it has the value 0, and within them that of a step is its amplitude. So the node of a voltage source has it in each
/// record of a run but the first, which is rest.
pub fn sources_act_from_start_to_stop(case: &Case)
    ensures step { (H : List StepRecord) (s : Source)
        → ActsWithin s (pos (length H) *ℤ case.now.parts.run.dt) (source_value case.now.parts H s) }
    ensures run { (n : ℕ) → AreTimesKept case.now.parts (records_upto case.now.parts n) }
{}
