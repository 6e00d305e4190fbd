//! The losses of a line, in ohm. The function does nothing: its clause is proved.

ghost use Rattle.std.specs.Prelude.{ℕ};
ghost use Rattle.emtp_case.specs.StepRecord.{latest, record_back};
ghost use Rattle.emtp_case.specs.declared.branch.Line.{Line};
ghost use Rattle.emtp_laws_of_units.specs.Losses.{MixesWaves, TravelsFor};
ghost use Rattle.emtp_machine.specs.Laws.{records_upto};

use emtp_case::Case;

/// A line with the resistance R behaves as one without loss that has R/4 at each end and R/2 in the middle (Dommel 1969; EMTP
/// Theory Book). With the current i into the line at an end, the wave that leaves it is v/(Zc + R/4) and (Zc - R/4)/(Zc + R/4)
/// of i, within half a nA and 5e-13 of i. What comes to it, v/(Zc + R/4) - i, is Zc/(Zc + R/4) of the wave that left the other
/// end a travel time before and (R/4)/(Zc + R/4) of its own, within 1 nA and 5e-13 of their difference. R/4 is taken in whole
/// micro-ohm, 1/(Zc + R/4) in whole pS. So it is in each record of a run, where the travel time is a number of time steps;
/// before record 0 nothing was on the line.
pub fn line_with_losses_mixes_its_waves(case: &Case)
    ensures { (n b k : ℕ) (x : Line) → TravelsFor case.now.parts b x k
        → MixesWaves b x (record_back (records_upto case.now.parts n) k) (latest (records_upto case.now.parts n)) }
{}
