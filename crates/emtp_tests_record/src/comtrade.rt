//! A caller that makes both files of a record, and the record of a case that records nothing.

ghost use Rattle.std.specs.Prelude.{◌≡◌, length};

use emtp_case::{Case, Draft, RunData};
use emtp_comtrade::{scales, write_cfg, write_dat};
use emtp_io::{Cabinet, Failed, MemoryCabinet, Output};
use emtp_machine::Samples;
use std::alloc::{AllocError, Global};
use std::test::Fail;

/// Makes both files of a record.
fn make_record(cabinet: &mut MemoryCabinet, case: &Case, samples: &Samples) -> Result<(), Failed>
    requires { samples.now.channels ≡ length case.now.parts.channels }
{
    let multipliers = scales(case, samples);
    cabinet.create(Output::Cfg, "a.cfg")?;
    write_cfg(cabinet, case, samples, &multipliers)?;
    cabinet.create(Output::Dat, "a.dat")?;
    write_dat(cabinet, case, samples, &multipliers)
}

/// 100 microseconds a step, one step after record 0.
const RUN: RunData = RunData {
    dt: 100_000_000,
    steps: 1,
    every: 1,
    tolerance: 10_000_000,
};

const CFG: &str = concat!(
    "EMTP,CASE,1999\r\n",
    "0,0A,0D\r\n",
    "60\r\n",
    "0\r\n",
    "0,2\r\n",
    "01/01/2000,00:00:00.000000\r\n",
    "01/01/2000,00:00:00.000000\r\n",
    "ASCII\r\n",
    "100\r\n",
);

const DAT: &str = "1,0\r\n2,1\r\n\x1a";

/// Whether the record of two samples has these bytes.
fn makes_files(alloc: Global) -> Result<bool, AllocError> {
    let case = Draft::new(alloc, RUN)?.finish_network();
    let mut samples = Samples::open(alloc, 0, 2)?;
    samples.push(&[]);
    samples.push(&[]);
    let mut cabinet = MemoryCabinet::new(alloc, Vec::new(alloc), Vec::new(alloc), 4096, 4096)?;
    let are = make_record(&mut cabinet, &case, &samples).is_ok()
        && cabinet.written(Output::Cfg) == Some(CFG.as_bytes())
        && cabinet.written(Output::Dat) == Some(DAT.as_bytes());
    drop(cabinet);
    drop(samples);
    drop(case);
    Ok(are)
}

#[test]
fn writes_a_record(rt: HostRuntime) -> Result<(), Fail> {
    assert!(rt; makes_files(rt.alloc())?);
    Ok(())
}
