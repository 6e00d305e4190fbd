//! Whole calls over a cabinet in memory, in which each call of each kind fails in turn.
ghost use Rattle.std.specs.Prelude.{◌≡◌, ◌≢◌, ◌<◌, ◌≤◌, AllPairs, IfOk, string_bytes};

use crate::rows::{DIVIDER, ROWS, RUN, Row};
use crate::words::owned;
use emtp_io::{Failing, MemoryCabinet, Op, Output};
use emtp_run::{Status, emtp};
use std::alloc::{AllocError, Global};
use std::test::Fail;

/// The outputs in the order in which they are made.
const OUTPUTS: [Output; 4] = [Output::Cfg, Output::Dat, Output::Note, Output::Summary];

/// How far a call came with its outputs: how many were created, and how many bytes of them stand.
#[derive(Clone, Copy)]
struct Progress {
    created: u32,
    bytes: usize,
}

/// The files `a.case`, `b` and `c`, in a cabinet that moves at most `piece` bytes a call, and whose nth call of this kind
/// fails.
fn failing(
    alloc: Global,
    texts: &[&str; 3],
    piece: usize,
    op: Op,
    nth: u32,
) -> Result<MemoryCabinet, AllocError>
    requires { 0 < piece }
{
    let files = three_files(alloc, texts)?;
    let fails = Vec::from_slice(alloc, &[Failing { op, nth }])?;
    MemoryCabinet::new(alloc, files, fails, piece, 4096)
}

fn three_files(alloc: Global, texts: &[&str; 3]) -> Result<Vec<(String, Vec<u8>)>, AllocError>
    ensures { IfOk result (λ files. AllPairs (λ a b. string_bytes a.0 ≢ string_bytes b.0) files.items) }
{
    let [first, second, third] = texts;
    let case = file(alloc, "a.case", first)?;
    let b = file(alloc, "b", second)?;
    let c = file(alloc, "c", third)?;
    let mut files = Vec::new(alloc);
    files.push(case)?;
    files.push(b)?;
    files.push(c)?;
    Ok(files)
}

fn file(alloc: Global, name: &str, text: &str) -> Result<(String, Vec<u8>), AllocError>
    ensures { IfOk result (λ file. string_bytes file.0 ≡ name.now) }
{
    let name = String::from_str(alloc, name)?;
    let bytes = Vec::from_slice(alloc, text.as_bytes())?;
    Ok((name, bytes))
}

fn call(alloc: Global, words: &[&str], cabinet: &mut MemoryCabinet) -> Result<Status, AllocError> {
    let words = owned(alloc, words)?;
    let status = emtp(alloc, &words, cabinet);
    drop(words);
    Ok(status)
}

/// How many of these outputs are made.
fn count_of(made: &[Option<&str>; 4]) -> usize {
    made.iter().flatten().count()
}

/// How many bytes the first so many of these outputs have.
fn bytes_of(made: &[Option<&str>; 4], count: u32) -> usize {
    let mut left = count;
    let mut bytes = 0usize;
    for text in made.iter() {
        match text {
            Some(text) if left > 0 => {
                left -= 1;
                bytes = bytes.saturating_add(text.len());
            }
            _ => {}
        }
    }
    bytes
}

/// How far a call came. None where an output has other bytes than a front of its own, or was created before the one
/// before it was whole, or without being wanted.
fn made_so_far(cabinet: &MemoryCabinet, made: &[Option<&str>; 4]) -> Option<Progress> {
    let mut created = 0u32;
    let mut bytes = 0usize;
    let mut whole = true;
    for (out, text) in OUTPUTS.iter().zip(made.iter()) {
        match (cabinet.written(*out), text) {
            (None, None) => {}
            (None, Some(_)) => whole = false,
            (Some(written), Some(text))
                if whole && text.as_bytes().get(..written.len()) == Some(written) => {
                whole = written.len() == text.len();
                created = created.saturating_add(1);
                bytes = bytes.saturating_add(written.len());
            }
            _ => return None,
        }
    }
    Some(Progress { created, bytes })
}

/// What a row answers whose nth call of this kind fails, and how far it came. None as in `made_so_far`.
fn nth_failed(
    alloc: Global,
    row: &Row,
    piece: usize,
    op: Op,
    nth: u32,
) -> Result<Option<(Status, Progress)>, AllocError>
    requires { 0 < piece }
{
    let mut cabinet = failing(alloc, row.files, piece, op, nth)?;
    let status = call(alloc, row.words, &mut cabinet);
    let made = made_so_far(&cabinet, row.made);
    drop(cabinet);
    let status = status?;
    match made {
        Some(now) => Ok(Some((status, now))),
        None => Ok(None),
    }
}

/// Whether this is what a row answers and makes whose nth call of this kind fails: without a file no output is created; a
/// failed creation leaves those before it whole; a failed write leaves its output cut short, by one to `piece` bytes
/// behind the write before.
fn is_promised(
    row: &Row,
    piece: usize,
    op: Op,
    nth: u32,
    before: Option<usize>,
    status: Status,
    now: Progress,
) -> bool
    requires { 1 ≤ nth }
{
    let end = bytes_of(row.made, now.created);
    match op {
        Op::Open | Op::Read => status == Status::ReadFault && now.created == 0,
        Op::Create => status == row.cut && now.created == nth - 1 && now.bytes == end,
        Op::Write => status == row.cut && now.bytes < end && follows(before, now.bytes, piece),
    }
}

/// Whether so many bytes stand after one more write, of one to `piece` bytes; none before the first.
fn follows(before: Option<usize>, bytes: usize, piece: usize) -> bool {
    match before {
        None => bytes == 0,
        Some(before) => bytes > before && bytes <= piece.saturating_add(before),
    }
}

/// How many calls of this kind a row makes, each of which has failed in turn as promised. None where one has not.
fn failed_in_turn(
    alloc: Global,
    row: &Row,
    piece: usize,
    op: Op,
) -> Result<Option<usize>, AllocError>
    requires { 0 < piece }
{
    let mut before = None;
    for nth in 1..=1000u32 {
        let Some((status, now)) = nth_failed(alloc, row, piece, op, nth)? else {
            return Ok(None);
        };
        if now.bytes == bytes_of(row.made, 4) {
            return Ok((status == row.status).then_some((nth - 1) as usize));
        }
        if !is_promised(row, piece, op, nth, before, status, now) {
            return Ok(None);
        }
        before = Some(now.bytes);
    }
    Ok(None)
}

/// How many reads it takes to find the ends of the files that a row reads.
fn reads_of(row: &Row, piece: usize) -> usize
    requires { 0 < piece }
{
    let files = row.files;
    let mut reads = 0usize;
    for text in files.iter().take(row.read) {
        reads = reads.saturating_add(reads_to_end(text, piece));
    }
    reads
}

/// A read for each piece, and one that finds the end.
fn reads_to_end(text: &str, piece: usize) -> usize
    requires { 0 < piece }
{
    text.len().div_ceil(piece).saturating_add(1)
}

/// Whether each call of a row has failed in turn as promised: one opening for each file that is read, the reads to their
/// ends, a creation for each output, and at least a write for each piece of what is made.
fn all_failed_in_turn(alloc: Global, row: &Row, piece: usize) -> Result<bool, AllocError>
    requires { 0 < piece }
{
    let outputs = count_of(row.made);
    let writes = bytes_of(row.made, 4).div_ceil(piece);
    Ok(
        failed_in_turn(alloc, row, piece, Op::Open)? == Some(row.read)
            && failed_in_turn(alloc, row, piece, Op::Read)? == Some(reads_of(row, piece))
            && failed_in_turn(alloc, row, piece, Op::Create)? == Some(outputs)
            && failed_in_turn(alloc, row, piece, Op::Write)?.unwrap_or(0) >= writes,
    )
}

#[test]
fn stops_at_each_call_that_fails(rt: HostRuntime) -> Result<(), Fail> {
    for row in ROWS {
        assert!(rt; all_failed_in_turn(rt.alloc(), row, 1)?);
        assert!(rt; all_failed_in_turn(rt.alloc(), row, 7)?);
        assert!(rt; all_failed_in_turn(rt.alloc(), row, 4096)?);
    }
    Ok(())
}

/// Whether a run is done, and names its outputs by its words.
fn names_outputs(alloc: Global, cabinet: &mut MemoryCabinet) -> Result<bool, AllocError> {
    let is_done = call(alloc, RUN, cabinet)? == Status::Done;
    Ok(
        is_done
            && cabinet.name(Output::Cfg) == Some("a.cfg")
            && cabinet.name(Output::Dat) == Some("a.dat")
            && cabinet.name(Output::Note) == Some(""),
    )
}

#[test]
fn names_its_outputs_by_the_words(rt: HostRuntime) -> Result<(), Fail> {
    let mut cabinet = failing(rt.alloc(), &[DIVIDER, "", ""], 4096, Op::Write, 1000)?;
    let is_named = names_outputs(rt.alloc(), &mut cabinet);
    drop(cabinet);
    assert!(rt; is_named?);
    Ok(())
}
