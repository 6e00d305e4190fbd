//! What is true of series branches in the field's own words. The functions do nothing: their clauses are proved.

ghost use Rattle.std.specs.Prelude.{◌≡◌, ◌*ℤ◌, pos, Some};
ghost use Rattle.emtp_case.specs.StepRecord.{no_lumped};
ghost use Rattle.emtp_fix.specs.Rounding.{near};
ghost use Rattle.emtp_fix.specs.declared.limit.TheConstants.{PICO};
ghost use Rattle.emtp_lumped.specs.held.Companion.{IsResistor};
ghost use Rattle.emtp_lumped.specs.Step.{next_state};
ghost use Rattle.emtp_lumped.specs.held.Step.{current_alone, HasNoHistory};

use crate::companion::Companion;
use emtp_case::LumpedState;

/// At rest and with no voltage nothing moves.
pub fn rest_stays(companion: &Companion)
    ensures { next_state companion.now no_lumped (pos 0) ≡ Some no_lumped }
{}

/// The current of a resistor is its conductance times its voltage, whatever its current was, and nothing else is kept.
pub fn resistor_forgets(companion: &Companion, old: &LumpedState, v: i64)
    requires resistor { IsResistor companion.now }
    requires old { HasNoHistory old.now }
    ensures { next_state companion.now old.now v ≡ current_alone (near (companion.now.conductance *ℤ v) PICO) }
{}
