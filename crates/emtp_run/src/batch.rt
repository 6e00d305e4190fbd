//! The command `batch CASE TIMES`: a case under each row of a table of switch times.
ghost use Rattle.std.specs.Prelude.{◌≡◌, All, IfOk, OnOk};
ghost use Rattle.emtp_batch.specs.Altered.{altered_cases};
ghost use Rattle.emtp_batch.specs.held.Altered.{time_switches};
ghost use Rattle.emtp_batch.specs.Report.{reports_of};
ghost use Rattle.emtp_batch.specs.held.Row.{IsRowFor};
ghost use Rattle.emtp_batch.specs.Summary.{batch_text};
ghost use Rattle.emtp_batch.specs.Table.{times_table};
ghost use Rattle.emtp_run.specs.Command.{altered_in, batch_outcome};
ghost use Rattle.emtp_run.specs.held.Command.{HoldsOfRuns};
ghost use Rattle.emtp_run.specs.Outcome.{summarised, HasRun};
ghost use Rattle.emtp_run.specs.held.Outcome.{EndsAfterReading};

use crate::note;
use crate::outputs::{leave_summary, refuse};
use crate::status::Status;
use emtp_batch::{Row, TimesFault, batch, batch_summary, read_times};
use emtp_case::Case;
use emtp_io::Cabinet;
use std::alloc::{AllocError, Global};

/// Reads the table, and runs the case under each of its rows.
pub fn run_table<C: Cabinet>(
    alloc: Global,
    case: &mut Case,
    times: &[u8],
    cabinet: &mut C,
) -> Status
    ensures runs { HasRun result → HoldsOfRuns (altered_in case.old.parts (times_table times.now case.old.parts)) }
    ensures ends { EndsAfterReading result (batch_outcome case.old.parts (times_table times.now case.old.parts))
        (C.state cabinet.old) (C.state cabinet.new) }
{
    match read_times(alloc, times, case) {
        Ok(rows) => run_rows(alloc, case, &rows, cabinet),
        Err(TimesFault::Bad { line, item }) => {
            refuse(
                cabinet,
                Status::BadRow,
                note::bad_row(line, item).as_slice(),
            )
        }
        Err(TimesFault::NoMemory) => Status::NoMemory,
    }
}

/// Runs the case under each of these rows, and makes the summary.
fn run_rows<C: Cabinet>(alloc: Global, case: &mut Case, rows: &[Row], cabinet: &mut C) -> Status
    requires { All (IsRowFor (time_switches case.old.parts)) rows.now }
    ensures runs { HasRun result → HoldsOfRuns (altered_cases case.old.parts rows.now) }
    ensures ends { EndsAfterReading result (summarised (batch_text (reports_of case.old.parts rows.now)))
        (C.state cabinet.old) (C.state cabinet.new) }
{
    match summary_of(alloc, case, rows) {
        Ok(text) => leave_summary(cabinet, &text),
        Err(_) => Status::NoMemory,
    }
}

/// The summary of the case under each of these rows, whole before any output is created.
fn summary_of(alloc: Global, case: &mut Case, rows: &[Row]) -> Result<Vec<u8>, AllocError>
    requires { All (IsRowFor (time_switches case.old.parts)) rows.now }
    ensures text { IfOk result (λ v. v.items ≡ batch_text (reports_of case.old.parts rows.now)) }
    ensures runs { OnOk result (HoldsOfRuns (altered_cases case.old.parts rows.now)) }
{
    let reports = batch(alloc, case, rows)?;
    batch_summary(alloc, &reports)
}
