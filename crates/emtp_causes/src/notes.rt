//! What a note means, in words: of an early end, of a case without a steady state, of a record that differs, of a row that is
//! refused.

ghost use Rattle.std.specs.Prelude.{◌≡◌, ◌+◌, ◌++◌, ◌≤◌, OnOk, length};
ghost use Rattle.emtp_causes.specs.Notes.{behind_blank, cause_item, differs_text, ended_cause, ended_item, ended_name, ended_step, ended_text, has_no_line, has_step, is_range_of_run, item_of, line_there, name_length, number_in, place_text, refused_row, row_text, shown_card, step_in, this_line, unsolved_case, unsolved_reason};

use crate::ends::{put_end, unsolved};
use crate::marked::put_shown;
use crate::parts::{first_blank, item_rest, put_field, put_item, up_to_blank};
use crate::texts::{
    FIELD_END, ITS_FIELD, LONG_RECORD, LONG_TABLE, NO_ROW, OF_FILE, ROW_TOO_MANY, THIS_LINE,
};
use emtp_card::read_digits;
use emtp_text::put;
use std::alloc::AllocError;

/// The most digits of a number of a note.
const MOST_DIGITS: usize = 9;

/// An item of a note, from 1 on, parted by blanks; nothing where it isn't there.
pub fn item_of(number: u64, note: &[u8]) -> &[u8]
    ensures { result.now ≡ item_of number note.now }
{
    up_to_blank(item_rest(note, number))
}

/// The number that an item of a note is.
pub fn number_in(number: u64, note: &[u8]) -> Option<u64>
    ensures { result ≡ number_in number note.now }
{
    read_digits(item_of(number, note), MOST_DIGITS)
}

// ---- an early end

/// Puts after a text what the note of an early end means, and the usual cure.
///
/// # Errors
///
/// [`AllocError`] where memory is wanting, here and in the functions below.
pub fn put_ended(out: &mut Vec<u8>, note: &[u8]) -> Result<(), AllocError>
    ensures { OnOk result (out.new.items ≡ out.old.items ++ ended_text note.now) }
{
    put_end(out, ended_cause(note), step_in(note), ended_name(note))
}

/// Whether it is the note of a run that ended since a number of the network left its range in a step.
pub fn is_range_of_run(note: &[u8]) -> bool
    ensures { result ≡ is_range_of_run note.now }
{
    ended_item(note) == 1 && has_step(note) && ended_cause(note) == b"RANGE".as_slice()
}

/// The cause of an early end.
fn ended_cause(note: &[u8]) -> &[u8]
    ensures { result.now ≡ ended_cause note.now }
{
    item_of(cause_item(note), note)
}

/// What the note of an early end names.
pub fn ended_name(note: &[u8]) -> &[u8]
    ensures { result.now ≡ ended_name note.now }
{
    let rest = behind_blank(item_rest(note, cause_item(note)));
    &rest[..name_length(rest)]
}

/// The number of the step of an early end; none of a steady state.
pub fn ended_step(note: &[u8]) -> Option<u64>
    ensures { result ≡ ended_step note.now }
{
    read_digits(step_in(note), MOST_DIGITS)
}

/// Which item is the word ENDED: a command, or a trial and its number, may stand in front of it.
fn ended_item(note: &[u8]) -> u64
    ensures value { result ≡ ended_item note.now }
    ensures few { result ≤ 3 }
{
    if item_of(1, note) == b"ENDED".as_slice() {
        1
    } else if item_of(2, note) == b"ENDED".as_slice() {
        2
    } else {
        3
    }
}

/// Whether the note tells a step.
fn has_step(note: &[u8]) -> bool
    ensures { result ≡ has_step note.now }
{
    item_of(ended_item(note) + 1, note) == b"STEP".as_slice()
}

/// The number of the step; nothing of a steady state.
fn step_in(note: &[u8]) -> &[u8]
    ensures { result.now ≡ step_in note.now }
{
    if has_step(note) {
        item_of(ended_item(note) + 2, note)
    } else {
        b""
    }
}

/// Which item is the cause.
fn cause_item(note: &[u8]) -> u64
    ensures { result ≡ cause_item note.now }
{
    if has_step(note) {
        ended_item(note) + 3
    } else {
        ended_item(note) + 1
    }
}

/// What stands behind the first blank.
fn behind_blank(text: &[u8]) -> &[u8]
    ensures { result.now ≡ behind_blank text.now }
{
    match first_blank(text) {
        Some(at) => &text[at + 1..],
        None => b"",
    }
}

/// How many bytes stand in front of the counts of a run.
fn name_length(text: &[u8]) -> usize
    ensures value { result ≡ name_length text.now }
    ensures within { result ≤ length text.now }
{
    let mut rest = text;
    let mut count = 0;
    while let [_, after @ ..] = rest {
        if rest.starts_with(b" SAMPLES ") {
            return count;
        }
        rest = after;
        count += 1;
    }
    count
}

// ---- no steady state

/// Puts after a text the card for which a case has no steady state, and why; no card where none is given.
pub fn put_unsolved(out: &mut Vec<u8>, note: &[u8], card: &[u8]) -> Result<(), AllocError>
    ensures { OnOk result (out.new.items ≡ out.old.items ++ unsolved_case note.now card.now) }
{
    put_card(out, card)?;
    put(out, unsolved(unsolved_reason(note)))
}

/// The word for why a case has no steady state.
pub fn unsolved_reason(note: &[u8]) -> &[u8]
    ensures { result.now ≡ unsolved_reason note.now }
{
    item_of(6, note)
}

/// Puts a card, where there is one.
fn put_card(out: &mut Vec<u8>, card: &[u8]) -> Result<(), AllocError>
    ensures { OnOk result (out.new.items ≡ out.old.items ++ shown_card card.now) }
{
    if card.is_empty() {
        return Ok(());
    }
    put_shown(out, card)?;
    put(out, b"\n")
}

// ---- records

/// Puts after a text a line of a record with a mark below the field that differs, how it does, and which line of which file it
/// is.
pub fn put_differs(
    out: &mut Vec<u8>,
    note: &[u8],
    file: &[u8],
    line: &[u8],
) -> Result<(), AllocError>
    ensures { OnOk result (out.new.items ≡ out.old.items ++ differs_text note.now file.now line.now) }
{
    match number_in(4, note) {
        None => Ok(()),
        Some(0) => put_long(out, file),
        Some(_) => put_place(out, note, file, line),
    }
}

fn put_long(out: &mut Vec<u8>, file: &[u8]) -> Result<(), AllocError>
    ensures { OnOk result (out.new.items ≡ out.old.items ++ (file.now ++ LONG_RECORD.now)) }
{
    put(out, file)?;
    put(out, LONG_RECORD)
}

fn put_place(out: &mut Vec<u8>, note: &[u8], file: &[u8], line: &[u8]) -> Result<(), AllocError>
    ensures { OnOk result (out.new.items ≡ out.old.items ++ place_text note.now file.now line.now) }
{
    put_field(
        out,
        line_there(note, line),
        item_of(6, note),
        item_of(7, note),
    )?;
    put_this_line(out, item_of(4, note), file, item_of(6, note))
}

fn put_this_line(
    out: &mut Vec<u8>,
    line: &[u8],
    file: &[u8],
    field: &[u8],
) -> Result<(), AllocError>
    ensures { OnOk result (out.new.items ≡ out.old.items ++ this_line line.now file.now field.now) }
{
    put(out, THIS_LINE)?;
    put(out, line)?;
    put(out, OF_FILE)?;
    put(out, file)?;
    put(out, ITS_FIELD)?;
    put(out, field)?;
    put(out, FIELD_END)?;
    Ok(())
}

/// Whether the file ends before the line, whose place the end mark of a file may have.
fn has_no_line(note: &[u8]) -> bool
    ensures { result ≡ has_no_line note.now }
{
    item_of(6, note) == b"1".as_slice() && item_of(7, note) == b"MISSING".as_slice()
}

fn line_there<'a>(note: &[u8], line: &'a [u8]) -> &'a [u8]
    ensures { result.now ≡ line_there note.now line.entry.now }
{
    if has_no_line(note) { b"" } else { line }
}

// ---- tables

/// Puts after a text the row of a table with a mark below the item that is refused, and why; `full` says whether a table's most
/// rows stand in front of it.
pub fn put_row(out: &mut Vec<u8>, note: &[u8], row: &[u8], full: bool) -> Result<(), AllocError>
    ensures { OnOk result (out.new.items ≡ out.old.items ++ row_text note.now row.now full) }
{
    match number_in(4, note) {
        None => Ok(()),
        Some(0) => put(out, LONG_TABLE),
        Some(_) => put_refused_row(out, note, row, full),
    }
}

fn put_refused_row(out: &mut Vec<u8>, note: &[u8], row: &[u8], full: bool) -> Result<(), AllocError>
    ensures { OnOk result (out.new.items ≡ out.old.items ++ refused_row note.now row.now full) }
{
    if row.is_empty() {
        put(out, NO_ROW)
    } else if full {
        put(out, ROW_TOO_MANY)
    } else {
        put_item(out, row, item_of(6, note))
    }
}
