//! As what a line is read, in words.
ghost use Rattle.std.specs.Prelude.{◌≡◌, ◌++◌, OnOk};
ghost use Rattle.emtp_causes.specs.KindText.{due_line, kind_line, kind_text, kinds_text, mark_of, read_line, section_text};

use crate::kinds::kind_name;
use crate::texts::{DUE, ENDS_WHERE, IS_DUE, LINE_NUMBER, READ_AS};
use emtp_text::{put, put_number};
use emtp_walk::{Kind, LineReading};
use std::alloc::AllocError;

/// Puts a line after a text that says as what the line of a number was read, or what is due where the file ends.
pub fn put_section(
    out: &mut Vec<u8>,
    number: u32,
    there: bool,
    kind: &[u8],
) -> Result<(), AllocError>
    ensures { OnOk result (out.new.items ≡ out.old.items ++ section_text number there kind.now) }
{
    if there {
        put_read(out, number, kind)
    } else {
        put_due(out, number, kind)
    }
}

#[tactic(auto, unfolding(crate::specs::KindText::read_line))]
fn put_read(out: &mut Vec<u8>, number: u32, kind: &[u8]) -> Result<(), AllocError>
    ensures { OnOk result (out.new.items ≡ out.old.items ++ read_line number kind.now) }
{
    put(out, LINE_NUMBER)?;
    put_number(out, number)?;
    put(out, READ_AS)?;
    put(out, kind)?;
    put(out, b"\n")
}

#[tactic(auto, unfolding(crate::specs::KindText::due_line))]
fn put_due(out: &mut Vec<u8>, number: u32, kind: &[u8]) -> Result<(), AllocError>
    ensures { OnOk result (out.new.items ≡ out.old.items ++ due_line number kind.now) }
{
    put(out, LINE_NUMBER)?;
    put_number(out, number)?;
    put(out, ENDS_WHERE)?;
    put(out, kind)?;
    put(out, IS_DUE)
}

/// Puts a line after a text for each line of so many that is no comment: its number, and as what it is read; and what is due
/// behind them.
pub fn put_kinds(
    out: &mut Vec<u8>,
    count: usize,
    readings: &[LineReading],
) -> Result<(), AllocError>
    ensures { OnOk result (out.new.items ≡ out.old.items ++ kinds_text count 1 readings.now) }
{
    for at in 0..readings.len() {
        put_kind(out, at + 1, at + 1 <= count, readings[at].kind)?;
    }
    Ok(())
}

/// Puts the line of a number, of a line that is there or is due.
///
/// # Errors
///
/// [`AllocError`] where memory is wanting.
pub fn put_kind(out: &mut Vec<u8>, number: usize, there: bool, kind: Kind) -> Result<(), AllocError>
    ensures { OnOk result (out.new.items ≡ out.old.items ++ kind_text number there kind) }
{
    match kind {
        Kind::Comment => Ok(()),
        _ => put_line(out, number, mark_of(there), kind_name(kind)),
    }
}

#[tactic(auto, unfolding(crate::specs::KindText::kind_line))]
fn put_line(out: &mut Vec<u8>, number: usize, mark: &[u8], kind: &[u8]) -> Result<(), AllocError>
    ensures { OnOk result (out.new.items ≡ out.old.items ++ kind_line number mark.now kind.now) }
{
    put_number(out, number)?;
    put(out, mark)?;
    put(out, kind)?;
    put(out, b"\n")
}

/// What stands between a number and a kind: of a line that is there a tab, else also that the card is due.
fn mark_of(there: bool) -> &'static [u8]
    ensures { result.now ≡ mark_of there }
{
    if there { b"\t" } else { DUE }
}
