//! The file that is read, and the output that is made.
ghost use Rattle.std.specs.Prelude.{◌≡◌, IfOk, List, ℕ};
ghost use Rattle.emtp_inspect.specs.Asking.{asked, explained, past_run};
ghost use Rattle.emtp_inspect.specs.Inspecting.{Inspects};
ghost use Rattle.emtp_inspect.specs.Showing.{Explains, RefusesWords, Shows, ShowsOrExplains, told_outcome, unread_status};
ghost use Rattle.emtp_inspect.specs.declared.telling.Told.{Told};
ghost use Rattle.emtp_run.specs.held.Outcome.{EndsAfterReading};
ghost use Rattle.emtp_run.specs.Words.{texts};

use crate::after_run::tell_after;
use crate::explaining::explained;
use crate::telling::{Told, tell};
use crate::words::{Wanted, past_words, read_words};
use emtp_io::{Cabinet, ReadEnd};
use emtp_run::{Status, leave_summary, read_input, refuse, text_file, usage};
use std::alloc::{AllocError, Global};

/// What tells of the bytes of a file.
pub trait Teller {
    /// What it tells, by the bytes.
    ghost told: { Self → List ℕ → Told };

    /// Tells it.
    ///
    /// # Errors
    ///
    /// [`AllocError`] where memory is wanting.
    fn tell(&self, alloc: Global, bytes: &[u8]) -> Result<Told, AllocError>
        ensures { IfOk result (λ text. text ≡ told self.now bytes.now) };
}

impl Teller for Wanted {
    ghost use Rattle.emtp_inspect.specs.Telling.{told_of};

    ghost told = { told_of };

    fn tell(&self, alloc: Global, bytes: &[u8]) -> Result<Told, AllocError> {
        tell(alloc, *self, bytes)
    }
}

/// Does what the words after the program's name ask for. The last word names the file of a case, which is read, and what was
/// read is told with its warnings, or, behind the word `--count`, how many warnings there are; the status is Done where it is a
/// case, and BadCard where a card is refused. Behind `--told`, the number of a status and a note stand the words of a run, and
/// what came of it is told. The status is Usage where the words don't fit.
pub fn inspect<C: Cabinet>(alloc: Global, words: &[String], cabinet: &mut C) -> Status
    ensures { Inspects (past_run (texts words.now)) (asked (texts words.now)) (explained (texts words.now)) result
        (C.state cabinet.old) (C.state cabinet.new) }
{
    match past_words(words) {
        Some(run) => tell_after(alloc, run.status, run.note, run.words, cabinet),
        None => show_or_explain(alloc, words, cabinet),
    }
}

/// Tells of the file that the words name, or what they mean.
fn show_or_explain<C: Cabinet>(alloc: Global, words: &[String], cabinet: &mut C) -> Status
    ensures { ShowsOrExplains (asked (texts words.now)) (explained (texts words.now)) result (C.state cabinet.old)
        (C.state cabinet.new) }
{
    match read_words(words) {
        Some((wanted, name)) => show(alloc, &wanted, name, cabinet),
        None => explain(alloc, words, cabinet),
    }
}

/// Leaves what words of a note mean (`explained`), or makes the note of words that don't fit.
fn explain<C: Cabinet>(alloc: Global, words: &[String], cabinet: &mut C) -> Status
    ensures { Explains (explained (texts words.now)) result (C.state cabinet.old) (C.state cabinet.new) }
{
    match explained(alloc, words) {
        Ok(Some(text)) => leave_summary(cabinet, &text),
        Ok(None) => refuse_words(cabinet),
        Err(_) => Status::NoMemory,
    }
}

/// Makes the note of words that don't fit.
pub fn refuse_words<C: Cabinet>(cabinet: &mut C) -> Status
    ensures { RefusesWords result (C.state cabinet.old) (C.state cabinet.new) }
{
    refuse(cabinet, Status::Usage, usage().as_slice())
}

/// Reads a file, and leaves what is told of it. The status is Done where it is an answer, BadCard where a card is refused.
pub fn show<T: Teller, C: Cabinet>(alloc: Global, teller: &T, name: &str, cabinet: &mut C) -> Status
    ensures { Shows (T.told teller.now) name.now result (C.state cabinet.old) (C.state cabinet.new) }
{
    match read_input(alloc, text_file(name), cabinet) {
        Ok(bytes) => leave(alloc, teller, &bytes, cabinet),
        Err(end) => unread_status(end),
    }
}

/// How it ends where a file wasn't read.
fn unread_status(end: ReadEnd) -> Status
    ensures { result ≡ unread_status end }
{
    match end {
        ReadEnd::Failed => Status::ReadFault,
        ReadEnd::NoMemory => Status::NoMemory,
    }
}

/// Leaves what is told of these bytes, whole before any output is created.
fn leave<T: Teller, C: Cabinet>(alloc: Global, teller: &T, bytes: &[u8], cabinet: &mut C) -> Status
    ensures { EndsAfterReading result (told_outcome (T.told teller.now bytes.now)) (C.state cabinet.old) (C.state cabinet.new) }
{
    match teller.tell(alloc, bytes) {
        Ok(told) => leave_told(&told, cabinet),
        Err(_) => Status::NoMemory,
    }
}

/// Makes the summary of a case that was read, or the note of a card that is refused.
fn leave_told<C: Cabinet>(told: &Told, cabinet: &mut C) -> Status
    ensures { EndsAfterReading result (told_outcome told.now) (C.state cabinet.old) (C.state cabinet.new) }
{
    match told {
        Told::Answer(text) => leave_summary(cabinet, text.as_slice()),
        Told::Refusal(text) => refuse(cabinet, Status::BadCard, text.as_slice()),
    }
}
