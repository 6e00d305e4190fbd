//! All of a file, and all of some bytes.
ghost use Rattle.std.specs.Prelude.{◌≡◌};
ghost use Rattle.emtp_io.specs.held.Whole.{Appends, ReadsAll};
ghost use Rattle.emtp_io.specs.declared.whole.ReadEnd.{ReadEnd};

use crate::{Cabinet, Failed, Output};
use std::alloc::{AllocError, Global};

/// Writes all bytes in order. It fails where a write fails; a prefix of the bytes was appended then.
#[tactic(auto, using(crate::proofs::Pieces::pieces))]
pub fn write_all<C: Cabinet>(cabinet: &mut C, out: Output, bytes: &[u8]) -> Result<(), Failed>
    ensures { Appends (C.state cabinet.old) (C.state cabinet.new) out bytes.now result }
{
    let mut done = 0;
    'pieces: while done < bytes.len() {
        done += cabinet.write(out, &bytes[done..])?;
    }
    Ok(())
}

/// Why a file was not read to its end.
#[derive(Clone, Copy, Debug, PartialEq, Eq)]
pub enum ReadEnd {
    /// A read failed.
    Failed,
    /// There was no memory for the bytes.
    NoMemory,
}

impl From<Failed> for ReadEnd {
    ghost from_gives = { λ _ e. e ≡ ReadEnd.Failed };

    fn from(_: Failed) -> Self {
        ReadEnd::Failed
    }
}

impl From<AllocError> for ReadEnd {
    ghost from_gives = { λ _ e. e ≡ ReadEnd.NoMemory };

    fn from(_: AllocError) -> Self {
        ReadEnd::NoMemory
    }
}

/// The most bytes that one call of `read` is asked for.
const CHUNK: usize = 4096;

/// Reads the opened file to its end, or until `bound` bytes were taken. After a refusal the bytes that
/// were taken are given up, and the read position is after them.
#[tactic(auto, using(crate::proofs::Pieces::pieces))]
pub fn read_all<C: Cabinet>(
    alloc: Global,
    cabinet: &mut C,
    bound: usize,
) -> Result<Vec<u8>, ReadEnd>
    ensures { ReadsAll (C.state cabinet.old) (C.state cabinet.new) bound result }
{
    let mut bytes = Vec::new(alloc);
    let mut buf = [0u8; CHUNK];
    'chunks: while bytes.len() < bound {
        let room = CHUNK.min(bound - bytes.len());
        let count = cabinet.read(&mut buf[..room])?;
        if count == 0 {
            break;
        }
        bytes.extend_from_slice(&buf[..count])?;
    }
    Ok(bytes)
}
