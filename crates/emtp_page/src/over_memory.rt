//! A call over a cabinet in memory.
ghost use Rattle.std.specs.Prelude.{◌≢◌, AllPairs, IfOk, string_bytes};
ghost use Rattle.emtp_page.specs.Calls.{Called, JudgesRun, Keeps, Shows};
ghost use Rattle.emtp_page.specs.Given.{named};
ghost use Rattle.emtp_run.specs.Words.{texts};

use emtp_assess::assess;
use emtp_inspect::inspect;
use emtp_io::MemoryCabinet;
use emtp_run::{Status, emtp};
use std::alloc::{AllocError, Global};

/// The most bytes that a cabinet reads or writes in a call.
const PIECE: usize = 65_536;

/// A call that was made: its status, and the cabinet as it left it.
#[derive(Drop)]
pub struct Ran {
    pub status: Status,
    pub cabinet: MemoryCabinet,
}

/// Does what these words ask for, over these files.
pub fn call(
    alloc: Global,
    words: &[String],
    files: Vec<(String, Vec<u8>)>,
    room: usize,
) -> Result<Ran, AllocError>
    requires { AllPairs (λ a b. string_bytes a.0 ≢ string_bytes b.0) files.items }
    ensures { IfOk result (λ ran. Called (Keeps (texts words.now)) (named files.items) room ran.status ran.cabinet.outputs) }
{
    let mut cabinet = MemoryCabinet::new(alloc, files, Vec::new(alloc), PIECE, room)?;
    let status = emtp(alloc, words, &mut cabinet);
    Ok(Ran { status, cabinet })
}

/// Shows what these words behind `show` ask for, over these files.
pub fn show(
    alloc: Global,
    words: &[String],
    files: Vec<(String, Vec<u8>)>,
    room: usize,
) -> Result<Ran, AllocError>
    requires { AllPairs (λ a b. string_bytes a.0 ≢ string_bytes b.0) files.items }
    ensures { IfOk result (λ ran. Called (Shows (texts words.now)) (named files.items) room ran.status ran.cabinet.outputs) }
{
    let mut cabinet = MemoryCabinet::new(alloc, files, Vec::new(alloc), PIECE, room)?;
    let status = inspect(alloc, words, &mut cabinet);
    Ok(Ran { status, cabinet })
}

/// Tells of a run what these words behind `judge` ask for, over these files.
pub fn judge(
    alloc: Global,
    words: &[String],
    files: Vec<(String, Vec<u8>)>,
    room: usize,
) -> Result<Ran, AllocError>
    requires { AllPairs (λ a b. string_bytes a.0 ≢ string_bytes b.0) files.items }
    ensures { IfOk result (λ ran. Called (JudgesRun (texts words.now)) (named files.items) room ran.status ran.cabinet.outputs) }
{
    let mut cabinet = MemoryCabinet::new(alloc, files, Vec::new(alloc), PIECE, room)?;
    let status = assess(alloc, words, &mut cabinet);
    Ok(Ran { status, cabinet })
}
