//! The summary of a batch: a line a row, and a line an analog channel.

ghost use Rattle.std.specs.Prelude.{◌≡◌, ◌+◌, ◌^◌, ◌<◌, ◌++◌, length, position, IfOk, IfSome, OnOk};
ghost use Rattle.std.specs.Ordering.{int_eq};
ghost use Rattle.emtp_batch.specs.Summary.{analog_count, batch_text, end_text, first_row_with, greatest_peak, max_line, max_lines, max_of, peak_at, peaks_text, row_line, row_lines};

use crate::report::RowReport;
use emtp_machine::{End, put_cause};
use emtp_text::{put, put_fixed, put_number};
use std::alloc::{AllocError, Global};

/// The places of a peak: it counts units of 10^-9 V, A or unit of the control.
const PLACES: usize = 9;

/// The summary of the reports of all rows: `ROW 1 DONE PEAKS 75` and so on, and after the rows the greatest peak of each
/// analog channel with the first row that has it, `MAX 1 125 ROW 2`. This project's own form.
///
/// # Errors
///
/// [`AllocError`] where memory is wanting.
#[tactic(auto, unfolding(crate::specs::Summary::batch_text))]
pub fn batch_summary(alloc: Global, reports: &[RowReport]) -> Result<Vec<u8>, AllocError>
    ensures { IfOk result (λ text. text.items ≡ batch_text reports.now) }
{
    let mut text = Vec::new(alloc);
    put_rows(&mut text, reports)?;
    put_maxima(&mut text, reports)?;
    Ok(text)
}

/// Puts the lines of all rows after a text.
fn put_rows(text: &mut Vec<u8>, reports: &[RowReport]) -> Result<(), AllocError>
    ensures { OnOk result (text.new.items ≡ text.old.items ++ row_lines 1 reports.now) }
{
    for (place, report) in reports.iter().enumerate() {
        put_row(text, place + 1, report)?;
    }
    Ok(())
}

/// Puts the line of a row, whose number counts from 1, after a text.
#[tactic(auto, unfolding(crate::specs::Summary::row_line))]
fn put_row(text: &mut Vec<u8>, number: usize, report: &RowReport) -> Result<(), AllocError>
    ensures { OnOk result (text.new.items ≡ text.old.items ++ row_line number report.now) }
{
    put(text, b"ROW ")?;
    put_number(text, number)?;
    put(text, b" ")?;
    put_end(text, &report.end)?;
    put(text, b" PEAKS")?;
    put_peaks(text, report.peaks.as_slice())?;
    put(text, b"\n")
}

/// Puts after a text how the run of a row ended.
#[tactic(auto, unfolding(crate::specs::Summary::end_text))]
fn put_end(text: &mut Vec<u8>, end: &Option<End>) -> Result<(), AllocError>
    ensures { OnOk result (text.new.items ≡ text.old.items ++ end_text end.now) }
{
    let Some(end) = end else {
        return put(text, b"DONE");
    };
    put(text, b"ENDED STEP ")?;
    put_number(text, end.step)?;
    put(text, b" ")?;
    put_cause(text, end.cause, &end.name, end.measured)
}

/// Puts the peaks of a row after a text, each after a blank.
fn put_peaks(text: &mut Vec<u8>, peaks: &[i64]) -> Result<(), AllocError>
    ensures { OnOk result (text.new.items ≡ text.old.items ++ peaks_text peaks.now) }
{
    for peak in peaks {
        put(text, b" ")?;
        put_fixed(text, *peak, PLACES)?;
    }
    Ok(())
}

/// Puts the lines of all analog channels after a text.
fn put_maxima(text: &mut Vec<u8>, reports: &[RowReport]) -> Result<(), AllocError>
    ensures { OnOk result (text.new.items ≡ text.old.items ++ max_lines reports.now (analog_count reports.now)) }
{
    for channel in 0..analog_count(reports) {
        put_max(text, reports, channel)?;
    }
    Ok(())
}

/// How many analog channels the reports are of.
fn analog_count(reports: &[RowReport]) -> usize
    ensures { result ≡ analog_count reports.now }
{
    match reports {
        [report, ..] => report.peaks.len(),
        [] => 0,
    }
}

/// Puts the line of an analog channel, whose place counts from 0, after a text.
fn put_max(text: &mut Vec<u8>, reports: &[RowReport], channel: usize) -> Result<(), AllocError>
    requires { channel + 1 < 2 ^ 64 }
    ensures { OnOk result (text.new.items ≡ text.old.items ++ max_of reports.now channel) }
{
    let peak = greatest_peak(reports, channel);
    let row = first_row_with(reports, channel, peak);
    put_max_line(text, channel, peak, row)
}

/// Puts after a text that a channel, whose place counts from 0, has its greatest peak in a row, whose number counts from 1.
#[tactic(auto, unfolding(crate::specs::Summary::max_line))]
fn put_max_line(text: &mut Vec<u8>, channel: usize, peak: i64, row: usize) -> Result<(), AllocError>
    requires { channel + 1 < 2 ^ 64 }
    ensures { OnOk result (text.new.items ≡ text.old.items ++ max_line channel peak row) }
{
    put(text, b"MAX ")?;
    put_number(text, channel + 1)?;
    put(text, b" ")?;
    put_fixed(text, peak, PLACES)?;
    put(text, b" ROW ")?;
    put_number(text, row)?;
    put(text, b"\n")
}

/// The greatest peak of an analog channel in all rows.
fn greatest_peak(reports: &[RowReport], channel: usize) -> i64
    ensures { result ≡ greatest_peak channel reports.now }
{
    let mut greatest = 0;
    for report in reports {
        greatest = greatest.max(peak_at(report, channel));
    }
    greatest
}

/// The number of the first row in which an analog channel has this peak, from 1.
fn first_row_with(reports: &[RowReport], channel: usize, peak: i64) -> usize
    ensures { result ≡ first_row_with channel peak reports.now }
{
    match first_place_with(reports, channel, peak) {
        Some(place) => place + 1,
        None => 1,
    }
}

/// The place of the first row in which an analog channel has this peak, from 0.
fn first_place_with(reports: &[RowReport], channel: usize, peak: i64) -> Option<usize>
    ensures value { result ≡ position (λ report. int_eq (peak_at channel report) peak) reports.now }
    ensures within { IfSome result (λ place. place < length reports.now) }
{
    reports
        .iter()
        .position(|report| peak_at(report, channel) == peak)
}

/// The peak of an analog channel in a row.
fn peak_at(report: &RowReport, channel: usize) -> i64
    ensures { result ≡ peak_at channel report.now }
{
    match report.peaks.as_slice().get(channel) {
        Some(peak) => *peak,
        None => 0,
    }
}
