//! The whole text of a refusal.

ghost use Rattle.std.specs.Prelude.{◌++◌, ◌≡◌, OnOk};
ghost use Rattle.emtp_causes.specs.Kinds.{kind_name};
ghost use Rattle.emtp_causes.specs.Legend.{card_legend};
ghost use Rattle.emtp_causes.specs.Refusal.{legend_line, missing_line, read_text, refusal_text, refused_card, size_text};

use crate::cause::put_cause;
use crate::kinds::kind_name;
use crate::legend::card_legend;
use crate::marked::{put_line, put_mark};
use crate::sections::put_sections;
use crate::texts::{CARD_IS_DUE, CASE_ENDS, IS_READ_AS, LONG_CASE, THIS_CARD, WHERE};
use emtp_card::{Bad, Cards};
use emtp_text::{put, put_number};
use emtp_walk::{Kind, LineReading};
use std::alloc::AllocError;

/// Puts after a text what helps to mend the card that is refused: the card below the names of its fields, a mark under the
/// column with the cause, as what it was read, and where the sections before it ended; of a case that ends too early which
/// card is due.
///
/// # Errors
///
/// [`AllocError`] where memory is wanting.
pub fn put_refusal(
    out: &mut Vec<u8>,
    cards: &Cards<'_>,
    readings: &[LineReading],
    bad: &Bad,
) -> Result<(), AllocError>
    ensures { OnOk result (out.new.items ≡ out.old.items ++ refusal_text readings.now cards.now bad.now) }
{
    let before = bad.line.saturating_sub(1) as usize;
    if let Some(read) = readings.get(before) {
        put_read(out, cards, bad, read.kind)?;
    }
    put_sections(out, cards, &readings[..before.min(readings.len())])
}

/// Puts after a text that a file is too long, so that none of its lines is read.
pub fn put_size(out: &mut Vec<u8>) -> Result<(), AllocError>
    ensures { OnOk result (out.new.items ≡ out.old.items ++ size_text) }
{
    put(out, LONG_CASE)
}

/// Puts the card that is refused, or which one is due behind the last line.
fn put_read(out: &mut Vec<u8>, cards: &Cards<'_>, bad: &Bad, kind: Kind) -> Result<(), AllocError>
    ensures { OnOk result (out.new.items ≡ out.old.items ++ read_text cards.now bad.now kind) }
{
    let before = bad.line.saturating_sub(1) as usize;
    match cards.lines().get(before) {
        Some(line) => put_card(out, line, kind, bad),
        None => put_missing(out, before, kind),
    }
}

fn put_card(out: &mut Vec<u8>, line: &[u8], kind: Kind, bad: &Bad) -> Result<(), AllocError>
    ensures { OnOk result (out.new.items ≡ out.old.items ++ refused_card line.now kind bad.now) }
{
    put_legend(out, line, kind)?;
    put_line(out, line, bad.column)?;
    put_mark(out, bad.column)?;
    put_cause(out, bad.line, line, kind, bad.column, bad.why)?;
    put(out, THIS_CARD)?;
    put_number(out, bad.line)?;
    put(out, IS_READ_AS)?;
    put_kind(out, kind)?;
    put(out, b".\n")?;
    Ok(())
}

/// Puts the name of a kind of line.
fn put_kind(out: &mut Vec<u8>, kind: Kind) -> Result<(), AllocError>
    ensures { OnOk result (out.new.items ≡ out.old.items ++ kind_name kind) }
{
    put(out, kind_name(kind))
}

/// Puts the names of the fields of a line, where it has some.
fn put_legend(out: &mut Vec<u8>, line: &[u8], kind: Kind) -> Result<(), AllocError>
    ensures { OnOk result (out.new.items ≡ out.old.items ++ legend_line (card_legend line.now kind)) }
{
    put_names(out, card_legend(line, kind))
}

fn put_names(out: &mut Vec<u8>, names: &[u8]) -> Result<(), AllocError>
    ensures { OnOk result (out.new.items ≡ out.old.items ++ legend_line names.now) }
{
    if names.is_empty() {
        return Ok(());
    }
    put(out, names)?;
    put(out, b"\n")
}

fn put_missing(out: &mut Vec<u8>, before: usize, kind: Kind) -> Result<(), AllocError>
    ensures { OnOk result (out.new.items ≡ out.old.items ++ missing_line before kind) }
{
    put(out, CASE_ENDS)?;
    put_number(out, before)?;
    put(out, WHERE)?;
    put_kind(out, kind)?;
    put(out, CARD_IS_DUE)?;
    Ok(())
}
