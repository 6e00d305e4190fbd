//! What a host is told.
ghost use Rattle.std.specs.Prelude.{◌≡◌, false, length, take};
ghost use Rattle.emtp_io.specs.Cabinet.{output};
ghost use Rattle.emtp_page.specs.Answer.{absent, wanting, IsShown, Tells};

use emtp_io::{MemoryCabinet, Output};
use emtp_run::Status;

/// What is left of an output.
#[repr(C)]
#[derive(Clone, Copy)]
pub struct Left {
    /// Whether it was created.
    pub created: bool,
    /// How many bytes it has; 0 where it wasn't created. They stand at the front of its room, as far as that goes.
    pub length: usize,
}

/// What a call came to.
#[repr(C)]
#[derive(Clone, Copy)]
pub struct Answer {
    /// The number of the status, as that with which the program exits.
    pub status: u32,
    /// The configuration of the record.
    pub cfg: Left,
    /// The samples of the record.
    pub dat: Left,
    /// The note.
    pub note: Left,
    /// The summary.
    pub summary: Left,
}

/// Tells a host what a call came to.
pub(crate) fn tell(
    status: Status,
    cabinet: &MemoryCabinet,
    cfg: &mut [u8],
    dat: &mut [u8],
    note: &mut [u8],
    summary: &mut [u8],
) -> Answer
    ensures { Tells status cabinet.now.outputs result cfg.new dat.new note.new summary.new }
{
    Answer {
        status: u32::from(status.code()),
        cfg: show(cabinet, Output::Cfg, cfg),
        dat: show(cabinet, Output::Dat, dat),
        note: show(cabinet, Output::Note, note),
        summary: show(cabinet, Output::Summary, summary),
    }
}

/// Tells a host that there was no memory.
pub(crate) fn tell_wanting() -> Answer
    ensures { result ≡ wanting }
{
    Answer {
        status: u32::from(Status::NoMemory.code()),
        cfg: absent(),
        dat: absent(),
        note: absent(),
        summary: absent(),
    }
}

/// Puts what an output holds into the room for it.
fn show(cabinet: &MemoryCabinet, out: Output, room: &mut [u8]) -> Left
    ensures { IsShown (output cabinet.now.outputs out) result room.new }
{
    match cabinet.written(out) {
        Some(bytes) => {
            copy_front(room, bytes);
            Left {
                created: true,
                length: bytes.len(),
            }
        }
        None => absent(),
    }
}

/// An output that wasn't created.
fn absent() -> Left
    ensures { result ≡ absent }
{
    Left {
        created: false,
        length: 0,
    }
}

/// Copies the first bytes of `from` to the start of `to`, as many as there is room for.
fn copy_front(to: &mut [u8], from: &[u8])
    ensures { take (length from.now) to.new ≡ take (length to.new) from.now }
{
    let count = from.len().min(to.len());
    to[..count].copy_from_slice(&from[..count]);
}
