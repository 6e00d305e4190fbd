//! A control without cards, stepped: what it puts out are the variables that every case has.

ghost use Rattle.std.specs.Prelude.{◌≡◌, ◌<◌, [], length};

use emtp_case::{Case, Draft, RunData};
use emtp_fix::Steps;
use emtp_tacs::Tacs;
use std::alloc::{AllocError, Global};
use std::marker::Brand;
use std::sync::ledger::{Blank, Ledger};
use std::test::Fail;

/// 1 in nano.
const UNIT: i64 = 1_000_000_000;

/// 100 microseconds a step, six steps.
const RUN: RunData = RunData {
    dt: 100_000_000,
    steps: 6,
    every: 1,
    tolerance: 10_000_000,
};

/// The values up to the first step that has a fault.
fn six_steps<L: Ledger>(tacs: &mut Tacs<'_>, var: usize, steps: &mut Steps<L>) -> [i64; 6]
    requires made { tacs.old.made ≡ 0 }
    requires steps { tacs.old.case.run.steps ≡ 6 }
    requires nodes { tacs.old.case.nodes ≡ [] }
    requires switches { tacs.old.case.switches ≡ [] }
    requires var { var < length tacs.old.case.vars }
{
    let mut values = [0; 6];
    for at in 0..6 {
        if tacs.step(&[0], &[], &[], steps).is_err() {
            return values;
        }
        values[at] = tacs.values()[var];
    }
    values
}

/// The values of a variable in the six steps.
fn values<L: Ledger>(
    alloc: Global,
    case: &Case,
    var: usize,
    blank: Blank,
) -> Result<[i64; 6], AllocError>
    requires name { blank.name ≡ L.name }
    requires parts { blank.parts ≡ L.parts }
    requires some { 0 < blank.parts }
    requires steps { case.now.parts.run.steps ≡ 6 }
    requires nodes { case.now.parts.nodes ≡ [] }
    requires switches { case.now.parts.switches ≡ [] }
    requires var { var < length case.now.parts.vars }
{
    let mut tacs = Tacs::open(alloc, case)?;
    let mut steps = Steps::<L>::new(blank);
    let found = six_steps(&mut tacs, var, &mut steps);
    drop(tacs);
    Ok(found)
}

#[test]
fn counts_its_steps(rt: HostRuntime) -> Result<(), Fail> {
    let case = Draft::new(rt.alloc(), RUN)?.finish_network();
    // ISTEP is the second of the standing variables.
    let found = values::<Brand>(rt.alloc(), &case, 1, Blank::new(1));
    drop(case);
    assert_eq!(rt;
        found?,
        [UNIT, 2 * UNIT, 3 * UNIT, 4 * UNIT, 5 * UNIT, 6 * UNIT]
    );
    Ok(())
}
