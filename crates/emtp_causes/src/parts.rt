//! An item of a table's row, or a field of a record's line, with a mark below it and the cause for which it is refused.

ghost use Rattle.std.specs.Prelude.{◌≡◌, ◌==◌, ◌++◌, ◌<◌, IfSome, OnOk, length, position, true};
ghost use Rattle.emtp_causes.specs.Parts.{begins_here, column_of, difference, field_cause, field_line, field_rest, item_cause, item_line, item_rest, is_time, left_behind, marked_part, number_or_one, odd_cause, one_less, skipped, up_to_blank};

use crate::marked::{put_line, put_mark};
use crate::texts::{
    CLOSING_TIME, EXTRA_FIELD, EXTRA_ITEM, EXTRA_LINE, MISSING_FIELD, MISSING_ITEM, MISSING_LINE,
    NO_FIELD_NUMBER, NO_TIME, WRONG_FIELD,
};
use emtp_card::{read_digits, read_held};
use emtp_fix::LARGEST_TIME;
use emtp_text::put;
use std::alloc::AllocError;

/// The most digits of the number of an item or a field.
const MOST_DIGITS: usize = 9;

/// The last column that has a mark.
const LAST_COLUMN: usize = 1_000_000;

/// Puts after a text the row of a table of times with a mark below an item, and why it is refused; the number of the item is
/// that of the note.
///
/// # Errors
///
/// [`AllocError`] where memory is wanting, here and in [`put_field`].
pub fn put_item(out: &mut Vec<u8>, row: &[u8], number: &[u8]) -> Result<(), AllocError>
    ensures { OnOk result (out.new.items ≡ out.old.items ++ item_line row.now (number_or_one number.now)) }
{
    let number = number_or_one(number);
    let rest = item_rest(row, number);
    let column = column_of(row.len(), rest.len());
    put_part(out, row, column, item_cause(up_to_blank(rest), number))
}

/// Puts after a text the line of a record with a mark below a field, and how it differs, by the word of the cause.
pub fn put_field(
    out: &mut Vec<u8>,
    line: &[u8],
    number: &[u8],
    cause: &[u8],
) -> Result<(), AllocError>
    ensures { OnOk result (out.new.items ≡ out.old.items ++ field_line line.now (number_or_one number.now) cause.now) }
{
    let number = number_or_one(number);
    let rest = skipped(field_rest(line, number));
    let column = column_of(line.len(), rest.len());
    put_part(out, line, column, field_cause(cause, number))
}

/// Puts a line, and a mark with words below a column.
fn put_part(out: &mut Vec<u8>, line: &[u8], column: u32, words: &[u8]) -> Result<(), AllocError>
    ensures { OnOk result (out.new.items ≡ out.old.items ++ marked_part line.now column words.now) }
{
    put_line(out, line, column)?;
    put_mark(out, column)?;
    put(out, words)?;
    put(out, b"\n")?;
    Ok(())
}

/// The column in which the rest of a line begins; a column behind it where nothing is left.
fn column_of(len: usize, left: usize) -> u32
    ensures { result ≡ column_of len left }
{
    if left == 0 {
        len.min(LAST_COLUMN) as u32 + 2
    } else {
        len.saturating_sub(left).min(LAST_COLUMN) as u32 + 1
    }
}

/// The number of an item or a field, from 1.
fn number_or_one(text: &[u8]) -> u64
    ensures { result ≡ number_or_one text.now }
{
    match read_digits(text, MOST_DIGITS) {
        Some(number) => number,
        None => 1,
    }
}

// ---- items

/// What is left of a row from an item on; nothing where it isn't there.
pub(crate) fn item_rest(row: &[u8], number: u64) -> &[u8]
    ensures { result.now ≡ item_rest number true row.now }
{
    let mut rest = row;
    let mut left = number;
    let mut blank = true;
    while let [byte, after @ ..] = rest {
        let begins = begins_here(blank, *byte);
        if begins && left <= 1 {
            return rest;
        }
        left = left_behind(begins, left);
        blank = *byte == b' ';
        rest = after;
    }
    rest
}

/// Whether an item begins with a byte.
fn begins_here(blank: bool, byte: u8) -> bool
    ensures { result ≡ begins_here blank byte }
{
    blank && byte != b' '
}

/// How many items are left to come to.
fn left_behind(begins: bool, left: u64) -> u64
    ensures { result ≡ left_behind begins left }
{
    if begins { left.saturating_sub(1) } else { left }
}

/// The bytes in front of the first blank.
pub(crate) fn up_to_blank(text: &[u8]) -> &[u8]
    ensures { result.now ≡ up_to_blank text.now }
{
    match first_blank(text) {
        Some(at) => &text[..at],
        None => text,
    }
}

pub(crate) fn first_blank(text: &[u8]) -> Option<usize>
    ensures value { result ≡ position (λ byte. byte == 32) text.now }
    ensures within { IfSome result (λ at. at < length text.now) }
{
    text.iter().position(|byte| *byte == b' ')
}

/// Why an item is refused.
fn item_cause(item: &[u8], number: u64) -> &'static [u8]
    ensures { result.now ≡ item_cause item.now number }
{
    if item.is_empty() {
        MISSING_ITEM
    } else if item == b"-".as_slice() && number % 2 == 1 {
        CLOSING_TIME
    } else {
        odd_cause(item)
    }
}

/// Of a good item in a place where none is due, or of one that is no time.
fn odd_cause(item: &[u8]) -> &'static [u8]
    ensures { result.now ≡ odd_cause item.now }
{
    if item == b"-".as_slice() || item == b"*".as_slice() || is_time(item) {
        EXTRA_ITEM
    } else {
        NO_TIME
    }
}

fn is_time(item: &[u8]) -> bool
    ensures { result ≡ is_time item.now }
{
    read_held(item, 12, -(LARGEST_TIME as i64), LARGEST_TIME as i64).is_ok()
}

// ---- fields

/// What is left of a line from a field on, between commas; nothing where it isn't there.
fn field_rest(line: &[u8], number: u64) -> &[u8]
    ensures { result.now ≡ field_rest number line.now }
{
    let mut rest = line;
    let mut left = number;
    while let [byte, after @ ..] = rest {
        if left <= 1 {
            return rest;
        }
        left = one_less(*byte == b',', left);
        rest = after;
    }
    rest
}

/// One less behind a comma.
fn one_less(comma: bool, left: u64) -> u64
    ensures { result ≡ one_less comma left }
{
    if comma { left.saturating_sub(1) } else { left }
}

/// A text without its blanks in front.
fn skipped(text: &[u8]) -> &[u8]
    ensures { result.now ≡ skipped text.now }
{
    let mut rest = text;
    while let [b' ', after @ ..] = rest {
        rest = after;
    }
    rest
}

/// How a line of a record differs, by the word of the cause.
fn field_cause(cause: &[u8], number: u64) -> &'static [u8]
    ensures { result.now ≡ field_cause cause.now number }
{
    if cause == b"MISSING".as_slice() {
        if number == 1 {
            MISSING_LINE
        } else {
            MISSING_FIELD
        }
    } else if cause == b"EXTRA".as_slice() {
        if number == 1 { EXTRA_LINE } else { EXTRA_FIELD }
    } else {
        difference(cause)
    }
}

fn difference(cause: &[u8]) -> &'static [u8]
    ensures { result.now ≡ difference cause.now }
{
    if cause == b"WRONG".as_slice() {
        WRONG_FIELD
    } else {
        NO_FIELD_NUMBER
    }
}
