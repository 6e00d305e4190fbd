//! The command `audit CASE CFG DAT`: whether two files are the record of a case.
ghost use Rattle.std.specs.Prelude.{◌≡◌, [], ◌∷◌, None, Some, length, IfOk, IfErr, OnOk};
ghost use Rattle.emtp_audit.specs.Audit.{audit_differs};
ghost use Rattle.emtp_audit.specs.held.Walk.{OnDiffers};
ghost use Rattle.emtp_machine.specs.History.{history, samples};
ghost use Rattle.emtp_run.specs.Command.{audit_outcome};
ghost use Rattle.emtp_run.specs.held.Command.{HoldsOfRuns};
ghost use Rattle.emtp_run.specs.Outcome.{HasRun};
ghost use Rattle.emtp_run.specs.held.Outcome.{EndsAfterReading};

use crate::note;
use crate::outputs::{leave_summary, refuse};
use crate::status::Status;
use crate::summary::of_audit;
use emtp_audit::{AuditFault, audit};
use emtp_case::Case;
use emtp_io::Cabinet;
use emtp_machine::Machine;
use std::alloc::Global;

/// Runs the case, and compares the two files with its samples.
pub fn run_audit<C: Cabinet>(
    alloc: Global,
    case: &Case,
    cfg: &[u8],
    dat: &[u8],
    cabinet: &mut C,
) -> Status
    ensures runs { HasRun result → HoldsOfRuns (case.now.parts ∷ []) }
    ensures ends { EndsAfterReading result (audit_outcome case.now.parts cfg.now dat.now)
        (C.state cabinet.old) (C.state cabinet.new) }
{
    match compare(alloc, case, cfg, dat) {
        Ok(count) => leave_summary(cabinet, of_audit(count).as_slice()),
        Err(AuditFault::Differs(differs)) => {
            refuse(cabinet, Status::Differs, note::differs(&differs).as_slice())
        }
        Err(AuditFault::NoMemory) => Status::NoMemory,
    }
}

/// Runs the case, compares the two files with its samples, and answers how many samples there are.
fn compare(alloc: Global, case: &Case, cfg: &[u8], dat: &[u8]) -> Result<u32, AuditFault>
    ensures count { IfOk result (λ count. count ≡ length (samples case.now.parts (history case.now.parts))) }
    ensures same { OnOk result
        (audit_differs case.now.parts (samples case.now.parts (history case.now.parts)) cfg.now dat.now ≡ None) }
    ensures differs { IfErr result (λ fault. OnDiffers fault (λ differs.
        audit_differs case.now.parts (samples case.now.parts (history case.now.parts)) cfg.now dat.now ≡ Some differs)) }
    ensures runs { OnOk result (HoldsOfRuns (case.now.parts ∷ [])) }
    ensures ran { IfErr result (λ fault. OnDiffers fault (λ differs. HoldsOfRuns (case.now.parts ∷ []))) }
{
    let mut machine = match Machine::open(alloc, case) {
        Ok(machine) => machine,
        Err(_) => return Err(AuditFault::NoMemory),
    };
    let _ = machine.run_alone();
    let count = machine.samples().count();
    let found = audit(alloc, case, machine.samples(), cfg, dat);
    // A call, since a drop in place is proved here list by list.
    drop(machine);
    match found {
        Ok(()) => Ok(count),
        Err(fault) => Err(fault),
    }
}
