//! The commands `phasor CASE` and `scan CASE F0 F1 DF`: the steady state of a case, and its impedance over frequencies.
ghost use Rattle.std.specs.Prelude.{None};
ghost use Rattle.emtp_phasor.specs.held.Scanning.{IsScan};
ghost use Rattle.emtp_phasor_text.specs.Reports.{scan_report, steady_report};
ghost use Rattle.emtp_run.specs.Command.{report_outcome};
ghost use Rattle.emtp_run.specs.held.Outcome.{EndsAfterReading};

use crate::outputs::{leave_end, leave_summary, refuse};
use crate::status::Status;
use crate::words::ScanWords;
use emtp_case::Case;
use emtp_io::Cabinet;
use emtp_phasor_text::{Report, scan_report, steady_report};
use std::alloc::Global;

/// Solves the case at the frequency of its first source that has one, and tells its steady state.
pub fn tell_state<C: Cabinet>(alloc: Global, case: &Case, cabinet: &mut C) -> Status
    ensures { EndsAfterReading result (report_outcome (steady_report case.now.parts None))
        (C.state cabinet.old) (C.state cabinet.new) }
{
    match steady_report(alloc, case, None) {
        Ok(report) => tell(&report, cabinet),
        Err(_) => Status::NoMemory,
    }
}

/// Tells the impedance of the case over the frequencies.
pub fn tell_scan<C: Cabinet>(
    alloc: Global,
    case: &Case,
    words: ScanWords<'_>,
    cabinet: &mut C,
) -> Status
    requires { IsScan words.first words.last words.by }
    ensures { EndsAfterReading result
        (report_outcome (scan_report case.now.parts words.entry.first words.entry.last words.entry.by))
        (C.state cabinet.old) (C.state cabinet.new) }
{
    match scan_report(alloc, case, words.first, words.last, words.by) {
        Ok(report) => tell(&report, cabinet),
        Err(_) => Status::NoMemory,
    }
}

/// Makes what is told, which is whole in memory, and answers how the call ends.
fn tell<C: Cabinet>(report: &Report, cabinet: &mut C) -> Status
    ensures { EndsAfterReading result (report_outcome report.now) (C.state cabinet.old) (C.state cabinet.new) }
{
    match report {
        Report::Summary(text) => leave_summary(cabinet, text.as_slice()),
        Report::Refused(text) => refuse(cabinet, Status::Refused, text.as_slice()),
        Report::Ended(text) => leave_end(cabinet, text.as_slice()),
    }
}
