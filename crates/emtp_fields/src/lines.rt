//! The lines of a case, each with its fields.

ghost use Rattle.std.specs.Prelude.{◌≡◌, ◌+◌, ◌++◌, ◌^◌, ◌≤◌, OnOk, length, slice_get};
ghost use Rattle.emtp_fields.specs.Lines.{kind_head, card_fields, fields_at, line_fields, all_fields};

use crate::fields::put_fields;
use emtp_card::{Cards, Line, MAX_BYTES};
use emtp_causes::{card_legend, kind_name, put_kind};
use emtp_text::{put, put_number};
use emtp_walk::{Kind, LineReading};
use emtp_warnings::field_ruler;
use std::alloc::AllocError;

/// Puts each line but comments after a text, by as what it is read: its number, its kind and the names of its fields, parted by
/// tabs, and below it a line a field; and what is due behind the last one, where a reading says it. Behind the last reading no
/// line is told.
///
/// # Errors
///
/// [`AllocError`] where memory is wanting.
pub fn put_lines(
    out: &mut Vec<u8>,
    cards: &Cards<'_>,
    readings: &[LineReading],
) -> Result<(), AllocError>
    ensures { OnOk result (out.new.items ≡ out.old.items ++ all_fields 0 readings.now cards.now) }
{
    for at in 0..readings.len() {
        put_place(out, cards, at, readings[at].kind)?;
    }
    Ok(())
}

/// Puts the line of a place, or what is due there.
fn put_place(out: &mut Vec<u8>, cards: &Cards<'_>, at: usize, kind: Kind) -> Result<(), AllocError>
    requires { at ≤ 2 ^ 62 }
    ensures { OnOk result (out.new.items ≡ out.old.items ++ fields_at (at + 1) (slice_get cards.now at) kind) }
{
    if at < cards.len() {
        put_line(out, &cards.line(at), kind)
    } else {
        put_kind(out, at + 1, false, kind)
    }
}

/// Puts a line and its fields.
fn put_line(out: &mut Vec<u8>, line: &Line<'_>, kind: Kind) -> Result<(), AllocError>
    requires { length line.now.bytes.now ≤ MAX_BYTES }
    ensures { OnOk result (out.new.items ≡ out.old.items ++ line_fields line.now.number line.now.bytes.now kind) }
{
    match kind {
        Kind::Comment => Ok(()),
        _ => put_card(out, line, kind),
    }
}

/// Puts a card and its fields.
fn put_card(out: &mut Vec<u8>, line: &Line<'_>, kind: Kind) -> Result<(), AllocError>
    requires { length line.now.bytes.now ≤ MAX_BYTES }
    ensures { OnOk result (out.new.items ≡ out.old.items ++ card_fields line.now.number line.now.bytes.now kind) }
{
    put_head(out, line, kind)?;
    put_fields(out, field_ruler(line, kind), line.bytes, kind)
}

/// Puts the number of a line, its kind, and the names of its fields.
#[tactic(auto, unfolding(crate::specs::Lines::kind_head))]
fn put_head(out: &mut Vec<u8>, line: &Line<'_>, kind: Kind) -> Result<(), AllocError>
    ensures { OnOk result (out.new.items ≡ out.old.items ++ kind_head line.now.number line.now.bytes.now kind) }
{
    put_number(out, line.number)?;
    put(out, b"\t")?;
    put(out, kind_name(kind))?;
    put(out, b"\t")?;
    put(out, card_legend(line.bytes, kind))?;
    put(out, b"\n")
}
