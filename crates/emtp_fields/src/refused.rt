//! The field that a refusal means.

ghost use Rattle.std.specs.Prelude.{◌≡◌, ◌++◌, ◌≤◌, IsTrue, OnOk, length};
ghost use Rattle.emtp_causes.specs.Legend.{field_name};
ghost use Rattle.emtp_fields.specs.Refused.{begins_field, in_line, is_of_field, place_line, refused_field};
ghost use Rattle.emtp_warnings.specs.ColumnWarnings.{last_of};

use emtp_card::{Bad, Cards, Line, MAX_BYTES, Why, byte_at};
use emtp_causes::field_name;
use emtp_text::{put, put_number};
use emtp_walk::{Kind, LineReading};
use emtp_warnings::{field_ruler, last_of};
use std::alloc::AllocError;

/// The last column of a card.
const LAST_COLUMN: u32 = 80;

/// In front of where a refusal points.
const REFUSED: &[u8] = b"refused\t";

/// Puts a line after a text that says where a refusal points: the line, the columns of the field that begins in its column, or
/// this column alone, and the field's name.
///
/// # Errors
///
/// [`AllocError`] where memory is wanting.
pub fn put_refused(
    out: &mut Vec<u8>,
    cards: &Cards<'_>,
    readings: &[LineReading],
    bad: &Bad,
) -> Result<(), AllocError>
    ensures { OnOk result (out.new.items ≡ out.old.items ++ refused_field readings.now cards.now bad.now) }
{
    let before = bad.line.saturating_sub(1) as usize;
    match readings.get(before) {
        Some(read) if before < cards.len() => {
            let line = Line {
                number: bad.line,
                bytes: cards.line(before).bytes,
            };
            put_in_line(out, &line, read.kind, bad)
        }
        _ => put_place(out, bad, bad.column as usize, b""),
    }
}

/// Puts where a refusal of a line points.
fn put_in_line(out: &mut Vec<u8>, line: &Line<'_>, kind: Kind, bad: &Bad) -> Result<(), AllocError>
    requires { length line.now.bytes.now ≤ MAX_BYTES }
    ensures { OnOk result (out.new.items ≡ out.old.items ++ in_line line.now.number line.now.bytes.now kind bad.now) }
{
    let ruler = field_ruler(line, kind);
    if is_of_field(bad.why) && begins_field(ruler, bad.column) {
        put_field(out, ruler, line.bytes, kind, bad)
    } else {
        put_place(out, bad, bad.column as usize, b"")
    }
}

/// Puts that a refusal means the field that begins in its column.
fn put_field(
    out: &mut Vec<u8>,
    ruler: &[u8],
    line: &[u8],
    kind: Kind,
    bad: &Bad,
) -> Result<(), AllocError>
    requires some { 1 ≤ bad.now.column }
    requires few { bad.now.column ≤ LAST_COLUMN }
    ensures { OnOk result (out.new.items ≡ out.old.items
        ++ place_line bad.now (last_of ruler.now bad.now.column) (field_name line.now kind bad.now.column (last_of ruler.now bad.now.column))) }
{
    let first = bad.column as usize;
    let last = last_of(ruler, first);
    put_place(out, bad, last, field_name(line, kind, first, last))
}

/// Whether a reason is one of a field, and not of a byte or of what isn't there.
fn is_of_field(why: Why) -> bool
    ensures { result ≡ is_of_field why }
{
    match why {
        Why::ByteOutside | Why::PastColumn80 | Why::MissingSection | Why::TooManyLines => false,
        _ => true,
    }
}

/// Whether a field of a ruler begins in a column.
fn begins_field(ruler: &[u8], column: u32) -> bool
    ensures value { result ≡ begins_field ruler.now column }
    ensures few { IsTrue result → column ≤ LAST_COLUMN }
    ensures some { IsTrue result → 1 ≤ column }
{
    if column < 1 || LAST_COLUMN < column {
        return false;
    }
    let at = column as usize;
    byte_at(ruler, at) != b' ' && (at == 1 || byte_at(ruler, at - 1) != byte_at(ruler, at))
}

/// Puts the line of a refusal, columns up to a last one, and a name.
#[tactic(auto, unfolding(crate::specs::Refused::place_line))]
fn put_place(out: &mut Vec<u8>, bad: &Bad, last: usize, name: &[u8]) -> Result<(), AllocError>
    ensures { OnOk result (out.new.items ≡ out.old.items ++ place_line bad.now last name.now) }
{
    put(out, REFUSED)?;
    put_number(out, bad.line)?;
    put(out, b"\t")?;
    put_number(out, bad.column)?;
    put(out, b"-")?;
    put_number(out, last)?;
    put(out, b"\t")?;
    put(out, name)?;
    put(out, b"\n")
}
