//! The variables that every case has.

ghost use Rattle.emtp_fix.specs.declared.limit.TheConstants.{LARGEST_TIME, LARGEST_VALUE};
ghost use Rattle.std.specs.Prelude.{◌≡◌, ◌≤◌, ◌++◌, drop, pos, unsigned_abs};
ghost use Rattle.emtp_case.specs.held.Control.{AreKnown};
ghost use Rattle.emtp_fix.specs.Rounding.{near};
ghost use Rattle.emtp_tacs.specs.Part.{standing_values};

use emtp_case::Case;
use emtp_fix::NANO;

/// Gives the variables that every case has their values of a step, in nano.
pub(crate) fn set_standing(case: &Case, step: u32, values: &mut [i64])
    requires step { step ≤ case.now.parts.run.steps }
    requires values { AreKnown case.now.parts values.old }
    ensures values { AreKnown case.now.parts values.new }
    ensures value { values.new ≡ standing_values case.now.parts.run step ++ drop 6 values.old }
{
    let run = &case.parts.run;
    values[0] = nanoseconds(run.time(step));
    values[1] = i64::from(step) * NANO as i64;
    values[2] = nanoseconds(run.dt);
    values[3] = 0;
    values[4] = NANO as i64;
    values[5] = -(NANO as i64);
}

/// A time in ps, in nanoseconds: to 10^15. It needs no more than 64 bits.
fn nanoseconds(time: i64) -> i64
    requires { unsigned_abs time ≤ LARGEST_TIME }
    ensures value { result ≡ near time (pos 1000) }
    ensures small { unsigned_abs result ≤ LARGEST_VALUE }
{
    let magnitude = ((time.unsigned_abs() + 500) / 1000) as i64;
    if time < 0 { -magnitude } else { magnitude }
}
