//! The file that is read, and the output that is made.
ghost use Rattle.std.specs.Prelude.{◌≡◌, IfOk};
ghost use Rattle.emtp_assess.specs.Asking.{question_in};
ghost use Rattle.emtp_assess.specs.Assessing.{Assesses};
ghost use Rattle.emtp_run.specs.Words.{texts};

use crate::telling::tell;
use crate::words::{Question, read_words};
use emtp_inspect::{Teller, Told, refuse_words, show};
use emtp_io::Cabinet;
use emtp_run::Status;
use std::alloc::{AllocError, Global};

impl Teller for Question {
    ghost use Rattle.emtp_assess.specs.Telling.{judged_of};

    ghost told = { judged_of };

    fn tell(&self, alloc: Global, bytes: &[u8]) -> Result<Told, AllocError> {
        tell(alloc, *self, bytes)
    }
}

/// Does what the words after the program's name ask for: the last word names the file of a case, which is read and run, and the
/// note of the run is left with what it is worth, or, behind `--samples`, with all digits of its samples; behind `--count` it isn't
/// run, and the number of branches that there are to judge is left. The status is Done also where the run ended early, which the
/// note says; BadCard where a card is refused, and Usage where the words don't fit.
pub fn assess<C: Cabinet>(alloc: Global, words: &[String], cabinet: &mut C) -> Status
    ensures { Assesses (question_in (texts words.now)) result (C.state cabinet.old) (C.state cabinet.new) }
{
    match read_words(words) {
        Some((question, name)) => show(alloc, &question, name, cabinet),
        None => refuse_words(cabinet),
    }
}
