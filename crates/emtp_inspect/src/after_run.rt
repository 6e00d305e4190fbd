//! What is told after a run that isn't whole, by its status, its note and its words, and by the file that the note speaks of.

ghost use Rattle.emtp_batch.specs.Table.{is_skipped};
ghost use Rattle.emtp_batch.specs.declared.table.TheConstants.{MAX_ROWS};
ghost use Rattle.emtp_card.specs.Lines.{is_blank, lines_of};
ghost use Rattle.emtp_causes.specs.Notes.{differs_text, number_in};
ghost use Rattle.emtp_inspect.specs.AfterRun.{EndsFailed, EndsUnread, Retells, TellsAfter, again, behind_row, card_in, case_of_range, ended_again, mending_text, differing, file_again, fourth, is_full, line_at, line_in, room_left, row_in, second, shown_name, text_of, third, told_again, told_alone, unsolved_again};
ghost use Rattle.emtp_run.specs.Command.{record_file};
ghost use Rattle.emtp_run.specs.Words.{texts};
ghost use Rattle.emtp_run.specs.held.Inputs.{named_input};
ghost use Rattle.emtp_run.specs.held.Outcome.{EndsAfterReading};
ghost use Rattle.emtp_run.specs.Outcome.{summarised};
ghost use Rattle.std.specs.List.{list_all};
ghost use Rattle.std.specs.Prelude.{◌≡◌, ◌++◌, IfOk, OnOk, codes, option_map};
ghost use Rattle.std.specs.Str.{bytes_eq};

use crate::case_again::{put_frequency, put_growing_in};
use crate::telling::{Told, tell};
use crate::words::Wanted;
use emtp_batch::MAX_ROWS;
use emtp_card::next_line;
use emtp_causes::{
    is_range_of_run, item_of, number_in, put_differs, put_ended, put_misfit, put_row, put_unsolved,
};
use emtp_io::{Cabinet, ReadEnd};
use emtp_run::{InputFile, Status, is_name, leave_summary, read_input, text_file};
use emtp_text::put;
use std::alloc::{AllocError, Global};

/// The most bytes of a file of a record that are read.
const RECORD_BOUND: usize = 64_000_001;

const UNREAD: &[u8] = b"A file couldn't be read.\n";

const CUT_SHORT: &[u8] =
    b"An output was cut short: the disk is full, or nobody takes the standard output.\n";

const NO_MEMORY: &[u8] = b"There wasn't enough memory; nothing was made.\n";

/// Leaves what a status means, by its number, and the note and the words of its run. Where the note speaks of a file that a word
/// names, that file is read again.
pub(crate) fn tell_after<C: Cabinet>(
    alloc: Global,
    status: &str,
    note: &[u8],
    words: &[String],
    cabinet: &mut C,
) -> Status
    ensures { TellsAfter status.now note.now (texts words.now) result (C.state cabinet.old) (C.state cabinet.new) }
{
    match file_again(status, note, words) {
        Some(file) => tell_again(alloc, file, status, note, words, cabinet),
        None => tell_alone(alloc, status, note, words, cabinet),
    }
}

/// Reads a file again, and leaves what is told by it.
fn tell_again<C: Cabinet>(
    alloc: Global,
    file: InputFile<'_>,
    status: &str,
    note: &[u8],
    words: &[String],
    cabinet: &mut C,
) -> Status
    ensures { Retells (named_input file.entry) status.now note.now (texts words.now) result (C.state cabinet.old)
        (C.state cabinet.new) }
{
    match read_input(alloc, file, cabinet) {
        Ok(bytes) => leave_again(alloc, status, note, words, &bytes, cabinet),
        Err(end) => leave_unread(alloc, end, status, note, words, cabinet),
    }
}

/// Leaves what is told where a file couldn't be read: of an early end, without it.
fn leave_unread<C: Cabinet>(
    alloc: Global,
    end: ReadEnd,
    status: &str,
    note: &[u8],
    words: &[String],
    cabinet: &mut C,
) -> Status
    ensures { EndsUnread end status.now note.now (texts words.now) result (C.state cabinet.old) (C.state cabinet.new) }
{
    match end {
        ReadEnd::Failed => leave_failed(alloc, status, note, words, cabinet),
        ReadEnd::NoMemory => Status::NoMemory,
    }
}

fn leave_failed<C: Cabinet>(
    alloc: Global,
    status: &str,
    note: &[u8],
    words: &[String],
    cabinet: &mut C,
) -> Status
    ensures { EndsFailed (bytes_eq status.now (codes "3")) status.now note.now (texts words.now) result
        (C.state cabinet.old) (C.state cabinet.new) }
{
    match status {
        "3" => tell_alone(alloc, status, note, words, cabinet),
        _ => Status::ReadFault,
    }
}

fn leave_again<C: Cabinet>(
    alloc: Global,
    status: &str,
    note: &[u8],
    words: &[String],
    bytes: &[u8],
    cabinet: &mut C,
) -> Status
    ensures { EndsAfterReading result (summarised (told_again status.now note.now (texts words.now) bytes.now))
        (C.state cabinet.old) (C.state cabinet.new) }
{
    match told_again(alloc, status, note, words, bytes) {
        Ok(text) => leave_summary(cabinet, &text),
        Err(_) => Status::NoMemory,
    }
}

/// Leaves what is told without a file.
fn tell_alone<C: Cabinet>(
    alloc: Global,
    status: &str,
    note: &[u8],
    words: &[String],
    cabinet: &mut C,
) -> Status
    ensures { EndsAfterReading result (summarised (told_alone status.now note.now (texts words.now)))
        (C.state cabinet.old) (C.state cabinet.new) }
{
    match told_alone(alloc, status, note, words) {
        Ok(text) => leave_summary(cabinet, &text),
        Err(_) => Status::NoMemory,
    }
}

// ---- the file that is read again

/// The case whose card is refused or whose run left its range, the file of a record that differs, or the table; none where the
/// status speaks of none, or where its word is no name.
fn file_again<'a>(status: &str, note: &[u8], words: &'a [String]) -> Option<InputFile<'a>>
    ensures { option_map named_input result ≡ file_again status.now note.now (texts words.entry.now) }
{
    match status {
        "2" | "7" => again(text_file(second(words))),
        "3" => case_of_range(note, words),
        "8" => again(record_file(differing(note, words))),
        "9" => again(text_file(third(words))),
        _ => None,
    }
}

/// The case of a run that ended since a number of the network left its range; none of another end.
fn case_of_range<'a>(note: &[u8], words: &'a [String]) -> Option<InputFile<'a>>
    ensures { option_map named_input result ≡ case_of_range note.now (texts words.entry.now) }
{
    if is_range_of_run(note) {
        again(text_file(second(words)))
    } else {
        None
    }
}

/// A file, where it has a name.
fn again<'a>(file: InputFile<'a>) -> Option<InputFile<'a>>
    ensures { option_map named_input result ≡ again (named_input file.entry) }
{
    if is_name(file.name) { Some(file) } else { None }
}

/// A file of a record.
fn record_file<'a>(name: &'a str) -> InputFile<'a>
    ensures { named_input result ≡ record_file name.entry.now }
{
    InputFile {
        name,
        bound: RECORD_BOUND,
    }
}

/// The word for the file of a record that differs.
fn differing<'a>(note: &[u8], words: &'a [String]) -> &'a str
    ensures { result.now ≡ differing note.now (texts words.entry.now) }
{
    if item_of(2, note) == b"CFG".as_slice() {
        third(words)
    } else {
        fourth(words)
    }
}

fn second<'a>(words: &'a [String]) -> &'a str
    ensures { result.now ≡ second (texts words.entry.now) }
{
    match words {
        [_, word, ..] => word.as_str(),
        _ => "",
    }
}

fn third<'a>(words: &'a [String]) -> &'a str
    ensures { result.now ≡ third (texts words.entry.now) }
{
    match words {
        [_, _, word, ..] => word.as_str(),
        _ => "",
    }
}

fn fourth<'a>(words: &'a [String]) -> &'a str
    ensures { result.now ≡ fourth (texts words.entry.now) }
{
    match words {
        [_, _, _, word, ..] => word.as_str(),
        _ => "",
    }
}

// ---- what is told

/// What is told without a file.
#[tactic(auto, unfolding(crate::specs::AfterRun::told_alone))]
fn told_alone(
    alloc: Global,
    status: &str,
    note: &[u8],
    words: &[String],
) -> Result<Vec<u8>, AllocError>
    ensures { IfOk result (λ text. text.items ≡ told_alone status.now note.now (texts words.now)) }
{
    let mut text = Vec::new(alloc);
    match status {
        "1" => put_misfit(&mut text, words)?,
        "3" => put_ended(&mut text, note)?,
        "4" => put(&mut text, UNREAD)?,
        "5" => put(&mut text, CUT_SHORT)?,
        "6" => put(&mut text, NO_MEMORY)?,
        "7" => put_unsolved(&mut text, note, b"")?,
        "8" => put_differs(&mut text, note, shown_name(differing(note, words)), b"")?,
        _ => {}
    }
    Ok(text)
}

/// The name of a file as it is told. One that can't be read again, as that of a pipe, has a dash in front.
fn shown_name(name: &str) -> &[u8]
    ensures { result.now ≡ shown_name name.now }
{
    match name.as_bytes() {
        [b'-', rest @ ..] => rest,
        whole => whole,
    }
}

/// What is told by the bytes of the file that the note speaks of.
#[tactic(auto, unfolding(crate::specs::AfterRun::told_again))]
fn told_again(
    alloc: Global,
    status: &str,
    note: &[u8],
    words: &[String],
    bytes: &[u8],
) -> Result<Vec<u8>, AllocError>
    ensures { IfOk result (λ text. text.items ≡ told_again status.now note.now (texts words.now) bytes.now) }
{
    let mut text = Vec::new(alloc);
    match status {
        "2" => put_cause(alloc, &mut text, bytes)?,
        "3" => put_ended_again(alloc, &mut text, note, bytes)?,
        "7" => put_unsolved_again(alloc, &mut text, note, bytes)?,
        "8" => put_differing(&mut text, note, words, bytes)?,
        _ => put_refused(&mut text, note, bytes)?,
    }
    Ok(text)
}

/// Puts what helps to mend the card that is refused.
#[tactic(auto, unfolding(crate::specs::AfterRun::mending_text))]
fn put_cause(alloc: Global, out: &mut Vec<u8>, bytes: &[u8]) -> Result<(), AllocError>
    ensures { OnOk result (out.new.items ≡ out.old.items ++ mending_text bytes.now) }
{
    let told = tell(alloc, Wanted::Cause, bytes)?;
    put(out, text_of(&told))
}

fn text_of(told: &Told) -> &[u8]
    ensures { result.now ≡ text_of told.now }
{
    match told {
        Told::Answer(text) => text.as_slice(),
        Told::Refusal(text) => text.as_slice(),
    }
}

/// Puts what an early end means, behind what its case says of it.
#[tactic(auto, unfolding(crate::specs::AfterRun::ended_again))]
fn put_ended_again(
    alloc: Global,
    out: &mut Vec<u8>,
    note: &[u8],
    bytes: &[u8],
) -> Result<(), AllocError>
    ensures { OnOk result (out.new.items ≡ out.old.items ++ ended_again note.now bytes.now) }
{
    put_growing_in(alloc, out, note, bytes)?;
    put_ended(out, note)
}

/// Puts why a case has no steady state, and what it says of that itself.
#[tactic(auto, unfolding(crate::specs::AfterRun::unsolved_again))]
fn put_unsolved_again(
    alloc: Global,
    out: &mut Vec<u8>,
    note: &[u8],
    bytes: &[u8],
) -> Result<(), AllocError>
    ensures { OnOk result (out.new.items ≡ out.old.items ++ unsolved_again note.now bytes.now) }
{
    put_unsolved(out, note, card_in(note, bytes))?;
    put_frequency(alloc, out, note, bytes)
}

fn put_differing(
    out: &mut Vec<u8>,
    note: &[u8],
    words: &[String],
    bytes: &[u8],
) -> Result<(), AllocError>
    ensures { OnOk result (out.new.items ≡ out.old.items
        ++ differs_text note.now (differing note.now (texts words.now)) (line_in (number_in 4 note.now) (lines_of bytes.now))) }
{
    let line = line_in(number_in(4, note), bytes);
    put_differs(out, note, differing(note, words).as_bytes(), line)
}

fn put_refused(out: &mut Vec<u8>, note: &[u8], bytes: &[u8]) -> Result<(), AllocError>
    ensures { OnOk result (out.new.items ≡ out.old.items ++ row_in note.now (lines_of bytes.now)) }
{
    let number = number_in(4, note);
    put_row(out, note, line_in(number, bytes), is_full(number, bytes))
}

// ---- lines of a file

/// The card for which a case has no steady state. Line 1 stands for the whole case, and none is told.
fn card_in<'a>(note: &[u8], bytes: &'a [u8]) -> &'a [u8]
    ensures { result.now ≡ card_in note.now (lines_of bytes.entry.now) }
{
    match number_in(3, note) {
        Some(1) => b"",
        number => line_in(number, bytes),
    }
}

/// The line of a number, from 1 on; nothing where it isn't there.
fn line_in<'a>(number: Option<u64>, bytes: &'a [u8]) -> &'a [u8]
    ensures { result.now ≡ line_in number (lines_of bytes.entry.now) }
{
    match number {
        Some(number) => line_at(number, bytes),
        None => b"",
    }
}

fn line_at<'a>(number: u64, bytes: &'a [u8]) -> &'a [u8]
    ensures { result.now ≡ line_at number (lines_of bytes.entry.now) }
{
    let mut rest = bytes;
    let mut left = number;
    while let Some((line, tail)) = next_line(rest) {
        if left <= 1 {
            return line;
        }
        left = left.saturating_sub(1);
        rest = tail;
    }
    b""
}

/// Whether as many rows as a table has at most stand in front of a line.
fn is_full(number: Option<u64>, table: &[u8]) -> bool
    ensures { result ≡ is_full number (lines_of table.now) }
{
    match number {
        Some(number) => room_left(number.saturating_sub(1), table) == 0,
        None => false,
    }
}

/// For how many rows more a table has room behind so many lines.
fn room_left(count: u64, table: &[u8]) -> usize
    ensures { result ≡ room_left MAX_ROWS count (lines_of table.now) }
{
    let mut room = MAX_ROWS;
    let mut left = count;
    let mut rest = table;
    while let Some((line, tail)) = next_line(rest) {
        if left == 0 {
            return room;
        }
        room = behind_row(room, line);
        left = left.saturating_sub(1);
        rest = tail;
    }
    room
}

/// The room behind a line, which is a row or none.
fn behind_row(room: usize, line: &[u8]) -> usize
    ensures { result ≡ behind_row room line.now }
{
    if is_skipped(line) {
        room
    } else {
        room.saturating_sub(1)
    }
}

fn is_skipped(line: &[u8]) -> bool
    ensures { result ≡ is_skipped line.now }
{
    all_blank(line) || line.starts_with(b"#")
}

fn all_blank(line: &[u8]) -> bool
    ensures { result ≡ list_all is_blank line.now }
{
    line.iter().all(|byte| *byte == b' ')
}
