//! A line, and a mark below it.

ghost use Rattle.std.specs.Prelude.{◌≡◌, ◌+◌, ◌++◌, OnOk, map, replicate};
ghost use Rattle.emtp_causes.specs.Marked.{mark, shown_byte, shown_line};

use emtp_card::columns;
use emtp_text::put;
use std::alloc::AllocError;

/// How many columns behind a mark are shown.
const BEHIND: usize = 80;

/// Puts a line after a text, up to 80 columns behind this one, with `?` for each byte that a terminal may not show as one
/// column.
#[tactic(auto, unfolding(crate::specs::Marked::shown_line))]
pub(crate) fn put_line(out: &mut Vec<u8>, line: &[u8], column: u32) -> Result<(), AllocError>
    ensures { OnOk result (out.new.items ≡ out.old.items ++ shown_line line.now column) }
{
    put_shown(out, columns(line, 1, column as usize + BEHIND))?;
    put(out, b"\n")
}

/// Puts a text after another, with `?` for each byte that a terminal may not show as one column.
///
/// # Errors
///
/// [`AllocError`] where memory is wanting.
pub fn put_shown(out: &mut Vec<u8>, text: &[u8]) -> Result<(), AllocError>
    ensures { OnOk result (out.new.items ≡ out.old.items ++ map shown_byte text.now) }
{
    for byte in text {
        out.push(shown_byte(*byte))?;
    }
    Ok(())
}

fn shown_byte(byte: u8) -> u8
    ensures { result ≡ shown_byte byte }
{
    if byte < 0x20 || byte > 0x7E {
        b'?'
    } else {
        byte
    }
}

/// Puts a mark after a text, below a column.
#[tactic(auto, unfolding(crate::specs::Marked::mark))]
pub(crate) fn put_mark(out: &mut Vec<u8>, column: u32) -> Result<(), AllocError>
    ensures { OnOk result (out.new.items ≡ out.old.items ++ mark column) }
{
    put_blanks(out, column.saturating_sub(1))?;
    put(out, b"^ ")
}

/// Puts so many blanks after a text.
fn put_blanks(out: &mut Vec<u8>, count: u32) -> Result<(), AllocError>
    ensures { OnOk result (out.new.items ≡ out.old.items ++ replicate count 32) }
{
    for _ in 0..count {
        out.push(b' ')?;
    }
    Ok(())
}
