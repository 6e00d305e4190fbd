//! What a host calls.
ghost use Rattle.std.specs.Prelude.{All, IfOk};
ghost use Rattle.std.specs.Str.{IsUtf8};
ghost use Rattle.emtp_card.specs.Lines.{lines_of};
ghost use Rattle.emtp_page.specs.Calls.{Answers, Called, JudgesRun, Keeps, Shows};
ghost use Rattle.emtp_page.specs.Given.{files_given};

use crate::answer::{Answer, tell, tell_wanting};
use crate::given::{files, read_words};
use crate::over_memory::{Ran, call, judge, show};
use std::alloc::{AllocError, Global};

/// Does what the words of a command line ask for, as `emtp` of `emtp_run` does, over the files that are handed over.
///
/// `words` has the words after the program's name, and `names` the names of the files, one a line; `first`, `second` and `third`
/// are the bytes of the file of the first name, of the second and of the third. Each output has room for `room` bytes and is put
/// into the slice of its name. Where an output has no room, the status is that of a fault in writing, and the call may be made
/// again with more.
#[unsafe(no_mangle)]
pub extern "C" fn emtp_page_call(
    alloc: Global,
    words: &[u8],
    names: &[u8],
    first: &[u8],
    second: &[u8],
    third: &[u8],
    room: usize,
    cfg: &mut [u8],
    dat: &mut [u8],
    note: &mut [u8],
    summary: &mut [u8],
    answer: &mut Answer,
)
    requires words { All IsUtf8 (lines_of words.now) }
    requires names { All IsUtf8 (lines_of names.now) }
    ensures { Answers (Keeps (lines_of words.now)) (files_given (lines_of names.now) first.now second.now third.now) room
        answer.new cfg.new dat.new note.new summary.new }
{
    match call_given(alloc, words, names, first, second, third, room) {
        Ok(ran) => {
            *answer = tell(ran.status, &ran.cabinet, cfg, dat, note, summary);
            drop(ran);
        }
        Err(_) => *answer = tell_wanting(),
    }
}

/// Shows what was read of a case, as `inspect` of `emtp_inspect` does, over the files that are handed over.
///
/// `words` has the words behind `show`; all else is as in [`emtp_page_call`].
#[unsafe(no_mangle)]
pub extern "C" fn emtp_page_show(
    alloc: Global,
    words: &[u8],
    names: &[u8],
    first: &[u8],
    second: &[u8],
    third: &[u8],
    room: usize,
    cfg: &mut [u8],
    dat: &mut [u8],
    note: &mut [u8],
    summary: &mut [u8],
    answer: &mut Answer,
)
    requires words { All IsUtf8 (lines_of words.now) }
    requires names { All IsUtf8 (lines_of names.now) }
    ensures { Answers (Shows (lines_of words.now)) (files_given (lines_of names.now) first.now second.now third.now) room
        answer.new cfg.new dat.new note.new summary.new }
{
    match show_given(alloc, words, names, first, second, third, room) {
        Ok(ran) => {
            *answer = tell(ran.status, &ran.cabinet, cfg, dat, note, summary);
            drop(ran);
        }
        Err(_) => *answer = tell_wanting(),
    }
}

/// Tells what the run of a case is worth, as `assess` of `emtp_assess` does, over the files that are handed over.
///
/// `words` has the words behind `judge`; all else is as in [`emtp_page_call`].
#[unsafe(no_mangle)]
pub extern "C" fn emtp_page_judge(
    alloc: Global,
    words: &[u8],
    names: &[u8],
    first: &[u8],
    second: &[u8],
    third: &[u8],
    room: usize,
    cfg: &mut [u8],
    dat: &mut [u8],
    note: &mut [u8],
    summary: &mut [u8],
    answer: &mut Answer,
)
    requires words { All IsUtf8 (lines_of words.now) }
    requires names { All IsUtf8 (lines_of names.now) }
    ensures { Answers (JudgesRun (lines_of words.now)) (files_given (lines_of names.now) first.now second.now third.now) room
        answer.new cfg.new dat.new note.new summary.new }
{
    match judge_given(alloc, words, names, first, second, third, room) {
        Ok(ran) => {
            *answer = tell(ran.status, &ran.cabinet, cfg, dat, note, summary);
            drop(ran);
        }
        Err(_) => *answer = tell_wanting(),
    }
}

/// Makes the call of these words over the files that are given.
fn call_given(
    alloc: Global,
    words: &[u8],
    names: &[u8],
    first: &[u8],
    second: &[u8],
    third: &[u8],
    room: usize,
) -> Result<Ran, AllocError>
    requires words { All IsUtf8 (lines_of words.now) }
    requires names { All IsUtf8 (lines_of names.now) }
    ensures { IfOk result (λ ran. Called (Keeps (lines_of words.now))
        (files_given (lines_of names.now) first.now second.now third.now) room ran.status ran.cabinet.outputs) }
{
    let words = read_words(alloc, words)?;
    let names = read_words(alloc, names)?;
    let files = files(alloc, &names, first, second, third)?;
    call(alloc, &words, files, room)
}

/// Makes the listing of these words over the files that are given.
fn show_given(
    alloc: Global,
    words: &[u8],
    names: &[u8],
    first: &[u8],
    second: &[u8],
    third: &[u8],
    room: usize,
) -> Result<Ran, AllocError>
    requires words { All IsUtf8 (lines_of words.now) }
    requires names { All IsUtf8 (lines_of names.now) }
    ensures { IfOk result (λ ran. Called (Shows (lines_of words.now))
        (files_given (lines_of names.now) first.now second.now third.now) room ran.status ran.cabinet.outputs) }
{
    let words = read_words(alloc, words)?;
    let names = read_words(alloc, names)?;
    let files = files(alloc, &names, first, second, third)?;
    show(alloc, &words, files, room)
}

/// Tells what these words ask for of a run, over the files that are given.
fn judge_given(
    alloc: Global,
    words: &[u8],
    names: &[u8],
    first: &[u8],
    second: &[u8],
    third: &[u8],
    room: usize,
) -> Result<Ran, AllocError>
    requires words { All IsUtf8 (lines_of words.now) }
    requires names { All IsUtf8 (lines_of names.now) }
    ensures { IfOk result (λ ran. Called (JudgesRun (lines_of words.now))
        (files_given (lines_of names.now) first.now second.now third.now) room ran.status ran.cabinet.outputs) }
{
    let words = read_words(alloc, words)?;
    let names = read_words(alloc, names)?;
    let files = files(alloc, &names, first, second, third)?;
    judge(alloc, &words, files, room)
}
