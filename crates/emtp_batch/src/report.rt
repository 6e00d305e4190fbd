//! What the run of each row gives.

ghost use Rattle.std.specs.Prelude.{◌≡◌, ◌<◌, ◌≤◌, length, unsigned_abs, All, IfOk, OnOk, OnErr};
ghost use Rattle.emtp_batch.specs.Altered.{altered_cases};
ghost use Rattle.emtp_batch.specs.held.Altered.{IsAfterSome, after_rows, time_switches};
ghost use Rattle.emtp_batch.specs.Report.{peak_of_channel, peaks_of, report_of, reports_of};
ghost use Rattle.emtp_batch.specs.held.Row.{IsRowFor};
ghost use Rattle.emtp_fix.specs.declared.limit.TheConstants.{LARGEST_VALUE};
ghost use Rattle.emtp_machine.specs.Laws.{EndsWithin, SamplesBalance};
ghost use Rattle.emtp_machine.specs.Ranges.{AreSamplesInRange};

use crate::table::Row;
use emtp_case::{Case, Items};
use emtp_machine::{End, Machine, Samples, samples_are_in_range};
use emtp_wave::CosTable;
use std::alloc::{AllocError, Global};
use std::rc::Rc;

/// What the run of a row gives.
#[derive(Drop)]
pub struct RowReport {
    /// The end of the run, if it stopped early.
    pub end: Option<End>,
    /// The greatest magnitude in the samples, one an analog channel, in their order: nV, nA or 10^-9 of a unit, from 0 to
    /// 10^18.
    pub peaks: Items<i64>,
}

/// Runs a case under each row of a table from rest on, and leaves it with the times of the last one.
///
/// # Errors
///
/// [`AllocError`] where memory is wanting; the case then has the times of some row, or its own.
pub fn batch(alloc: Global, case: &mut Case, rows: &[Row]) -> Result<Vec<RowReport>, AllocError>
    requires { All (IsRowFor (time_switches case.old.parts)) rows.now }
    ensures reports { IfOk result (λ v. v.items ≡ reports_of case.old.parts rows.now) }
    ensures balance { OnOk result (All SamplesBalance (altered_cases case.old.parts rows.now)) }
    ensures names { OnOk result (All EndsWithin (altered_cases case.old.parts rows.now)) }
    ensures case { OnOk result (case.new.parts ≡ after_rows case.old.parts rows.now) }
    ensures some { OnErr result (IsAfterSome case.old.parts rows.now case.new.parts) }
{
    let mut reports = Vec::with_capacity(alloc, rows.len())?;
    let table = Rc::new(alloc, CosTable::open(alloc)?)?;
    for row in rows {
        case.set_times(row.times.as_slice());
        reports.push(run_case(alloc, case, &table)?)?;
    }
    Ok(reports)
}

/// Runs a case from rest on, with a table of the cosine that all rows share.
#[tactic(auto, unfolding(crate::specs::Report::report_of))]
fn run_case(alloc: Global, case: &Case, table: &Rc<CosTable>) -> Result<RowReport, AllocError>
    ensures report { IfOk result (λ report. report ≡ report_of case.now.parts) }
    ensures balance { OnOk result (SamplesBalance case.now.parts) }
    ensures names { OnOk result (EndsWithin case.now.parts) }
{
    let mut machine = Machine::open_with(alloc, case, table)?;
    let end = machine.run_alone();
    samples_are_in_range(case);
    let peaks = peaks_of(alloc, case, machine.samples());
    // A call, since a drop in place is proved here list by list.
    drop(machine);
    Ok(RowReport { end, peaks: peaks? })
}

/// The peak of each analog channel.
fn peaks_of(alloc: Global, case: &Case, samples: &Samples) -> Result<Items<i64>, AllocError>
    requires channels { samples.now.channels ≡ length case.now.parts.channels }
    requires in_range { AreSamplesInRange case.now.parts samples.now.rows }
    ensures { IfOk result (λ peaks. peaks ≡ peaks_of case.now.parts samples.now.rows) }
{
    let channels = case.parts.channels.as_slice();
    let mut peaks = Vec::with_capacity(alloc, channels.len())?;
    for place in 0..channels.len() {
        if !channels[place].is_status() {
            peaks.push(peak_of_channel(samples, place))?;
        }
    }
    Ok(Items::from_vec(peaks))
}

/// The peak of the channel at a place.
fn peak_of_channel(samples: &Samples, place: usize) -> i64
    requires place { place < samples.now.channels }
    requires in_range { All (All (λ v. unsigned_abs v ≤ LARGEST_VALUE)) samples.now.rows }
    ensures { result ≡ peak_of_channel samples.now.rows place }
{
    samples.greatest(place) as i64
}
