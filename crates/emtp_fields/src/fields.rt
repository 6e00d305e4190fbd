//! The fields of a line: each run of one mark in the ruler of its card.

ghost use Rattle.std.specs.Prelude.{◌≡◌, ◌+◌, ◌++◌, ◌<◌, ◌≤◌, ◌^◌, OnOk};
ghost use Rattle.emtp_causes.specs.Legend.{field_name};
ghost use Rattle.emtp_fields.specs.Fields.{field_ending, field_text, fields_text, marked_text, number_columns, value_text};
ghost use Rattle.emtp_fields.specs.Measures.{measure_of};
ghost use Rattle.emtp_warnings.specs.ColumnWarnings.{first_with};

use crate::measure::{UNMEASURED, put_measured};
use crate::measures::measure_of;
use emtp_card::{byte_at, columns, trim};
use emtp_causes::{field_name, put_shown};
use emtp_text::{put, put_number};
use emtp_walk::Kind;
use std::alloc::AllocError;

/// Puts a line after a text for each field of a line that the ruler of its card has.
pub(crate) fn put_fields(
    out: &mut Vec<u8>,
    ruler: &[u8],
    line: &[u8],
    kind: Kind,
) -> Result<(), AllocError>
    ensures { OnOk result (out.new.items ≡ out.old.items ++ fields_text ruler.now line.now kind) }
{
    let mut first = 1;
    for at in 0..ruler.len() {
        put_ending(out, ruler, line, kind, first, at + 1)?;
        first = first_behind(ruler, at + 1, first);
    }
    Ok(())
}

/// Where the mark of the next column begins, by where that of a column does.
fn first_behind(ruler: &[u8], column: usize, first: usize) -> usize
    requires some { 1 ≤ first }
    requires order { first ≤ column }
    requires few { column < 2 ^ 63 }
    ensures value { result ≡ first_with ruler.now column first }
    ensures some { 1 ≤ result }
    ensures order { result ≤ column + 1 }
{
    if byte_at(ruler, column + 1) == byte_at(ruler, column) {
        first
    } else {
        column + 1
    }
}

/// Puts the field that ends with a column, if one does, by where the column's mark begins.
fn put_ending(
    out: &mut Vec<u8>,
    ruler: &[u8],
    line: &[u8],
    kind: Kind,
    first: usize,
    column: usize,
) -> Result<(), AllocError>
    requires some { 1 ≤ first }
    requires order { first ≤ column }
    requires few { column < 2 ^ 63 }
    ensures { OnOk result (out.new.items ≡ out.old.items ++ field_ending ruler.now line.now kind first column) }
{
    let mark = byte_at(ruler, column);
    if byte_at(ruler, column + 1) == mark {
        Ok(())
    } else {
        put_run(out, mark, line, kind, first, column)
    }
}

/// Puts the field of the columns that have a mark; blanks mark none.
fn put_run(
    out: &mut Vec<u8>,
    mark: u8,
    line: &[u8],
    kind: Kind,
    first: usize,
    last: usize,
) -> Result<(), AllocError>
    requires some { 1 ≤ first }
    requires order { first ≤ last }
    ensures { OnOk result (out.new.items ≡ out.old.items ++ marked_text mark line.now kind first last) }
{
    if mark == b' ' {
        Ok(())
    } else {
        put_field(out, line, kind, first, last)
    }
}

/// Puts the columns of a field, its name, what stands there without the outer blanks, and what its number is.
fn put_field(
    out: &mut Vec<u8>,
    line: &[u8],
    kind: Kind,
    first: usize,
    last: usize,
) -> Result<(), AllocError>
    requires some { 1 ≤ first }
    requires order { first ≤ last }
    ensures { OnOk result (out.new.items ≡ out.old.items ++ field_text line.now kind first last) }
{
    put(out, b"\t")?;
    put_number(out, first)?;
    put(out, b"-")?;
    put_number(out, last)?;
    put(out, b"\t")?;
    put_name(out, line, kind, first, last)?;
    put(out, b"\t")?;
    put_value(out, line, first, last)?;
    put(out, b"\t")?;
    put_number_columns(out, line, kind, first)?;
    put(out, b"\n")?;
    Ok(())
}

/// Puts the unit of a field's number, its range and what it is read as; nothing between the tabs where it holds none.
fn put_number_columns(
    out: &mut Vec<u8>,
    line: &[u8],
    kind: Kind,
    first: usize,
) -> Result<(), AllocError>
    ensures { OnOk result (out.new.items ≡ out.old.items ++ number_columns line.now (measure_of line.now kind first)) }
{
    match measure_of(line, kind, first) {
        None => put(out, UNMEASURED),
        Some(measure) => put_measured(out, line, &measure),
    }
}

/// Puts the name of a field.
fn put_name(
    out: &mut Vec<u8>,
    line: &[u8],
    kind: Kind,
    first: usize,
    last: usize,
) -> Result<(), AllocError>
    requires some { 1 ≤ first }
    requires order { first ≤ last }
    ensures { OnOk result (out.new.items ≡ out.old.items ++ field_name line.now kind first last) }
{
    put(out, field_name(line, kind, first, last))
}

/// Puts what stands in columns, without the outer blanks.
fn put_value(out: &mut Vec<u8>, line: &[u8], first: usize, last: usize) -> Result<(), AllocError>
    requires some { 1 ≤ first }
    requires order { first ≤ last }
    ensures { OnOk result (out.new.items ≡ out.old.items ++ value_text line.now first last) }
{
    put_shown(out, trim(columns(line, first, last)))
}
