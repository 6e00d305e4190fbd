//! All warnings of a case, in order.

ghost use Rattle.std.specs.Prelude.{◌≡◌, ◌<◌, ◌≤◌, IfOk, IfSome, OnOk, length, not, position};
ghost use Rattle.emtp_warnings.specs.AddsTo.{AddsTo};
ghost use Rattle.emtp_warnings.specs.Finding.{points_to};
ghost use Rattle.emtp_warnings.specs.Warnings.{count_on, line_warnings, warnings, warnings_from};

use crate::channels::add_channels;
use crate::columns::add_column_warnings;
use crate::finding::Warning;
use crate::marked::ruler_of;
use crate::records::add_records;
use emtp_card::{Cards, Line, MAX_BYTES};
use emtp_case::Case;
use emtp_walk::{Kind, LineReading, read_at};
use std::alloc::{AllocError, Global};

/// The warnings of a case and of the cards that it was read from, by as what each line was read, line by line: first those of
/// the line's columns, then those of its record; channels come last. This project's own.
///
/// # Errors
///
/// [`AllocError`] where memory is wanting.
pub fn warnings(
    alloc: Global,
    cards: &Cards<'_>,
    readings: &[LineReading],
    case: &Case,
) -> Result<Vec<Warning>, AllocError>
    ensures { IfOk result (λ found. found.items ≡ warnings readings.now cards.now case.now.parts) }
{
    let mut records = Vec::new(alloc);
    add_records(&mut records, case)?;
    let mut out = Vec::new(alloc);
    add_lines(&mut out, cards, readings, &records)?;
    add_channels(&mut out, case.parts.channels.as_slice())?;
    Ok(out)
}

/// Adds the warnings of all lines, and of their records.
fn add_lines(
    out: &mut Vec<Warning>,
    cards: &Cards<'_>,
    readings: &[LineReading],
    records: &[Warning],
) -> Result<(), AllocError>
    ensures { OnOk result (AddsTo out.old.items (warnings_from 1 readings.now cards.now records.now) out.new.items) }
{
    let mut rest = records;
    for at in 0..cards.len().min(readings.len()) {
        let line = cards.line(at);
        let read = read_at(readings, at);
        add_line(out, &line, read.kind)?;
        let (here, after) = rest.split_at(count_on(line.number, rest));
        out.extend_from_slice(here)?;
        rest = after;
    }
    out.extend_from_slice(rest)?;
    Ok(())
}

/// Adds the warnings of the columns of a line. A comment has none: it may be longer than a ruler.
fn add_line(out: &mut Vec<Warning>, line: &Line<'_>, kind: Kind) -> Result<(), AllocError>
    requires { length line.now.bytes.now ≤ MAX_BYTES }
    ensures { OnOk result (AddsTo out.old.items (line_warnings line.now.number kind line.now.bytes.now) out.new.items) }
{
    match kind {
        Kind::Comment => Ok(()),
        _ => add_column_warnings(out, ruler_of(line, kind), line),
    }
}

/// How many of the first warnings are on a line.
fn count_on(number: u32, records: &[Warning]) -> usize
    ensures value { result ≡ count_on number records.now }
    ensures within { result ≤ length records.now }
{
    match first_elsewhere(number, records) {
        Some(at) => at,
        None => records.len(),
    }
}

/// The place of the first warning that isn't on a line.
fn first_elsewhere(number: u32, records: &[Warning]) -> Option<usize>
    ensures value { result ≡ position (λ w. not (points_to number w)) records.now }
    ensures within { IfSome result (λ at. at < length records.now) }
{
    records
        .iter()
        .position(|warning| !warning.points_to(number))
}
