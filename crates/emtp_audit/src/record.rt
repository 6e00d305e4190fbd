//! Whether two files are the record of a case.
ghost use Rattle.std.specs.Prelude.{◌≡◌, None, Some, length, IfErr, OnOk};
ghost use Rattle.emtp_audit.specs.Audit.{audit_differs};
ghost use Rattle.emtp_audit.specs.held.Walk.{OnDiffers};

use crate::cfg::read_cfg;
use crate::dat::read_dat;
use crate::differs::AuditFault;
use emtp_case::Case;
use emtp_machine::Samples;
use std::alloc::Global;

/// Compares the configuration and the data of a record with a case and its samples. `Ok` is the answer that no field
/// differs; else the first difference comes, the configuration judged before the data. Memory is taken for the scales of
/// the analog channels alone. This project's own, on IEEE C37.111-1999.
#[tactic(auto, unfolding(crate::specs::Audit::audit_differs))]
pub fn audit(
    alloc: Global,
    case: &Case,
    samples: &Samples,
    cfg: &[u8],
    dat: &[u8],
) -> Result<(), AuditFault>
    requires { samples.now.channels ≡ length case.now.parts.channels }
    ensures same { OnOk result (audit_differs case.now.parts samples.now.rows cfg.now dat.now ≡ None) }
    ensures differs { IfErr result (λ fault. OnDiffers fault (λ differs.
        audit_differs case.now.parts samples.now.rows cfg.now dat.now ≡ Some differs)) }
{
    let read = match read_cfg(alloc, cfg, case, samples.count()) {
        Ok(read) => read,
        Err(fault) => return Err(fault),
    };
    match read_dat(dat, case, samples, &read) {
        Ok(()) => Ok(()),
        Err(differs) => Err(AuditFault::Differs(differs)),
    }
}
