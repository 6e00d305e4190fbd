//! Texts that are written as they grow.
ghost use Rattle.std.specs.Prelude.{◌≡◌, ◌+◌, ◌≤◌, [], length, OnOk};
ghost use Rattle.emtp_io.specs.held.Whole.{Appends};
ghost use Rattle.emtp_comtrade.specs.held.Stream.{Gathers};

use crate::text::{LINE_ROOM, TEXT_ROOM, Text};
use emtp_io::{Cabinet, Failed, Output, write_all};

/// Writes the bytes that wait, and takes them away.
pub fn flush<C: Cabinet>(cabinet: &mut C, out: Output, text: &mut Text) -> Result<(), Failed>
    ensures written { Appends (C.state cabinet.old) (C.state cabinet.new) out text.old result }
    ensures empty { OnOk result (text.new ≡ []) }
{
    write_all(cabinet, out, text.as_slice())?;
    text.clear();
    Ok(())
}

/// Writes the bytes that wait, where they leave no room for another line.
pub fn make_room<C: Cabinet>(cabinet: &mut C, out: Output, text: &mut Text) -> Result<(), Failed>
    ensures text { Gathers (C.state cabinet.old) (C.state cabinet.new) out text.old text.new result }
    ensures room { OnOk result (length text.new + LINE_ROOM ≤ TEXT_ROOM) }
{
    if text.len() <= TEXT_ROOM - LINE_ROOM {
        return Ok(());
    }
    flush(cabinet, out, text)
}
