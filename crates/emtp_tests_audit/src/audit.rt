//! A caller that has the clauses of `audit`, over the record of a case that records nothing.

ghost use Rattle.std.specs.Prelude.{◌≡◌, length};

use emtp_audit::{AuditFault, DifferCause, Differs, audit};
use emtp_case::{Case, Draft, RunData};
use emtp_machine::Samples;
use std::alloc::{AllocError, Global};
use std::test::Fail;

/// The first difference of a record, if there is one.
fn first_difference(
    alloc: Global,
    case: &Case,
    samples: &Samples,
    cfg: &[u8],
    dat: &[u8],
) -> Result<Option<Differs>, AllocError>
    requires { samples.now.channels ≡ length case.now.parts.channels }
{
    match audit(alloc, case, samples, cfg, dat) {
        Ok(()) => Ok(None),
        Err(AuditFault::Differs(differs)) => Ok(Some(differs)),
        Err(AuditFault::NoMemory) => Err(AllocError),
    }
}

/// 100 microseconds a step, one step after record 0.
const RUN: RunData = RunData {
    dt: 100_000_000,
    steps: 1,
    every: 1,
    tolerance: 10_000_000,
};

const CFG: &str = concat!(
    "EMTP,CASE,1999\r\n",
    "0,0A,0D\r\n",
    "60\r\n",
    "0\r\n",
    "0,2\r\n",
    "01/01/2000,00:00:00.000000\r\n",
    "01/01/2000,00:00:00.000000\r\n",
    "ASCII\r\n",
    "100\r\n",
);

/// What is found where the data are these.
fn found(alloc: Global, dat: &str) -> Result<Option<Differs>, AllocError> {
    let case = Draft::new(alloc, RUN)?.finish_network();
    let mut samples = Samples::open(alloc, 0, 2)?;
    samples.push(&[]);
    samples.push(&[]);
    let found = first_difference(alloc, &case, &samples, CFG.as_bytes(), dat.as_bytes());
    drop(samples);
    drop(case);
    found
}

#[test]
fn finds_the_first_difference(rt: HostRuntime) -> Result<(), Fail> {
    assert_eq!(rt; found(rt.alloc(), "1,0\r\n2,1\r\n\x1a")?, None);
    let wrong = Differs {
        dat: true,
        line: 2,
        field: 2,
        cause: DifferCause::Wrong,
    };
    assert_eq!(rt; found(rt.alloc(), "1,0\r\n2,3\r\n\x1a")?, Some(wrong));
    Ok(())
}
