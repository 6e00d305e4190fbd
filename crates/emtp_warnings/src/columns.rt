//! The warnings of a line's columns, under the ruler of its card.

ghost use Rattle.std.specs.Prelude.{◌≡◌, ◌==◌, ◌+◌, ◌<◌, ◌≤◌, IfSome, OnOk, length, not, position};
ghost use Rattle.emtp_warnings.specs.AddsTo.{AddsTo};
ghost use Rattle.emtp_warnings.specs.ColumnWarnings.{at_column, column_warnings, first_with, is_late, is_name_border, is_unread, last_of, other_behind, run_with, touches, within};

use crate::finding::{Finding, Warning, add_found, columns_row};
use emtp_card::{Line, MAX_BYTES, byte_at, columns, trim};
use std::alloc::AllocError;

/// Adds what the columns of a line warn of.
pub(crate) fn add_column_warnings(
    out: &mut Vec<Warning>,
    ruler: &[u8],
    line: &Line<'_>,
) -> Result<(), AllocError>
    requires { length line.now.bytes.now ≤ MAX_BYTES }
    ensures { OnOk result (AddsTo out.old.items (column_warnings ruler.now line.now.number line.now.bytes.now) out.new.items) }
{
    let mut run = 1;
    let mut first = 1;
    for before in 0..line.bytes.len() {
        add_at_column(out, ruler, line, before + 1, run, first)?;
        run = run_with(ruler, line.bytes, before + 1, run);
        first = first_with(ruler, before + 1, first);
    }
    Ok(())
}

/// Adds what a column warns of, where the unread columns in a row begin that may end with it, and where its field does.
fn add_at_column(
    out: &mut Vec<Warning>,
    ruler: &[u8],
    line: &Line<'_>,
    at: usize,
    run: usize,
    first: usize,
) -> Result<(), AllocError>
    requires some { 1 ≤ at }
    requires few { at ≤ MAX_BYTES }
    requires begins { 1 ≤ first }
    ensures { OnOk result (AddsTo out.old.items (at_column ruler.now line.now.number line.now.bytes.now at run first)
        out.new.items) }
{
    let last = last_of(ruler, at + 1);
    let touch = touches(ruler, line.bytes, at);
    let late = is_late(ruler, line.bytes, at, first, last);
    let ends = is_unread(ruler, line.bytes, at) && !is_unread(ruler, line.bytes, at + 1);
    let touching = Finding::NumbersTouch { first, last };
    let rows = [
        columns_row(line.number, (at, at + 1), touch, touching),
        columns_row(line.number, (first, at), late, Finding::LateName),
        columns_row(line.number, (run, at), ends, Finding::NotRead),
    ];
    add_found(out, &rows)
}

/// Where the unread columns in a row begin that may end with the next column, by where those of a column do.
fn run_with(ruler: &[u8], line: &[u8], column: usize, run: usize) -> usize
    requires some { 1 ≤ column }
    requires few { column ≤ MAX_BYTES }
    ensures { result ≡ run_with ruler.now line.now column run }
{
    if is_unread(ruler, line, column) {
        run
    } else {
        column + 1
    }
}

/// Where the field of the next column begins, by where that of a column does.
fn first_with(ruler: &[u8], column: usize, first: usize) -> usize
    requires some { 1 ≤ column }
    requires few { column ≤ MAX_BYTES }
    requires begins { 1 ≤ first }
    ensures value { result ≡ first_with ruler.now column first }
    ensures begins { 1 ≤ result }
{
    let goes_on = byte_at(ruler, column + 1) == byte_at(ruler, column);
    if goes_on { first } else { column + 1 }
}

/// The last column of the field of a ruler that begins with a column.
pub fn last_of(ruler: &[u8], column: usize) -> usize
    requires some { 1 ≤ column }
    requires few { column ≤ MAX_BYTES + 1 }
    ensures value { result ≡ last_of ruler.now column }
    ensures least { column ≤ result }
{
    match other_behind(ruler, column, byte_at(ruler, column)) {
        Some(more) => column + more,
        None => ruler.len().max(column),
    }
}

/// How many columns behind a column another mark stands.
fn other_behind(ruler: &[u8], column: usize, mark: u8) -> Option<usize>
    ensures value { result ≡ other_behind ruler.now column mark }
    ensures within { IfSome result (λ more. more < length ruler.now) }
{
    first_other(&ruler[column.min(ruler.len())..], mark)
}

/// The place of the first mark that is another one.
fn first_other(marks: &[u8], mark: u8) -> Option<usize>
    ensures value { result ≡ position (λ next. not (next == mark)) marks.now }
    ensures within { IfSome result (λ at. at < length marks.now) }
{
    marks.iter().position(|next| *next != mark)
}

/// Whether a name ends with its field, at a column, and doesn't begin with it, beside the blank field of another name.
fn is_late(ruler: &[u8], line: &[u8], column: usize, first: usize, last: usize) -> bool
    requires some { 1 ≤ column }
    requires few { column ≤ MAX_BYTES }
    requires begins { 1 ≤ first }
    requires order { column + 1 ≤ last }
    ensures { result ≡ is_late ruler.now line.now column first last }
{
    is_name_border(byte_at(ruler, column), byte_at(ruler, column + 1))
        && byte_at(line, first) == b' '
        && byte_at(line, column) != b' '
        && within(line, column + 1, last).is_empty()
}

/// Whether one mark ends a name's field, and the next one begins another's.
fn is_name_border(mark: u8, next: u8) -> bool
    ensures { result ≡ is_name_border mark next }
{
    mark.is_ascii_lowercase() && next.is_ascii_lowercase() && mark != next
}

/// What stands in columns, without the outer blanks.
fn within(line: &[u8], first: usize, last: usize) -> &[u8]
    requires some { 1 ≤ first }
    requires order { first ≤ last }
    ensures { result.now ≡ within line.now first last }
{
    trim(columns(line, first, last))
}

/// Whether a column isn't blank, and no field has it.
fn is_unread(ruler: &[u8], line: &[u8], column: usize) -> bool
    requires { 1 ≤ column }
    ensures { result ≡ is_unread ruler.now line.now column }
{
    byte_at(ruler, column) == b' ' && byte_at(line, column) != b' '
}

/// Whether bytes of two numbers' fields stand side by side in a column and the next: one mark ends the first field, and the next
/// begins the other.
fn touches(ruler: &[u8], line: &[u8], column: usize) -> bool
    requires some { 1 ≤ column }
    requires few { column ≤ MAX_BYTES }
    ensures { result ≡ touches ruler.now line.now column }
{
    let mark = byte_at(ruler, column);
    let next = byte_at(ruler, column + 1);
    (mark.is_ascii_digit() && next.is_ascii_digit() && mark != next)
        && byte_at(line, column) != b' '
        && byte_at(line, column + 1) != b' '
}
