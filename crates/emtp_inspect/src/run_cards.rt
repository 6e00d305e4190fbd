//! What the miscellaneous cards say that no case keeps.

ghost use Rattle.std.specs.Prelude.{◌≡◌, ◌++◌, OnOk};
ghost use Rattle.emtp_inspect.specs.RunCards.{card_text, end_text, first_text, print_of, print_text, run_text, second_text};

use crate::each_card::Shown;
use emtp_card::{Line, Why, field_number, field_whole};
use emtp_fix::LARGEST_TIME;
use emtp_text::{put, put_fixed, put_number};
use emtp_walk::{Kind, read_at};
use std::alloc::AllocError;

/// The greatest TMAX, in ps.
const LATEST: i64 = LARGEST_TIME as i64;

/// Puts a line for each miscellaneous card after a text: the first one with TMAX, the second with IOUT.
pub(crate) fn put_run_cards(out: &mut Vec<u8>, shown: Shown<'_>) -> Result<(), AllocError>
    ensures { OnOk result (out.new.items ≡ out.old.items ++ run_text shown.entry.readings.now shown.entry.cards.now) }
{
    for at in 0..shown.cards.len().min(shown.readings.len()) {
        let read = read_at(shown.readings, at);
        put_card(out, &shown.cards.line(at), read.kind)?;
    }
    Ok(())
}

fn put_card(out: &mut Vec<u8>, line: &Line<'_>, kind: Kind) -> Result<(), AllocError>
    ensures { OnOk result (out.new.items ≡ out.old.items ++ card_text line.now.number line.now.bytes.now kind) }
{
    match kind {
        Kind::FirstRun => put_first(out, line.number, line.bytes),
        Kind::SecondRun => put_second(out, line.number, line.bytes),
        _ => Ok(()),
    }
}

#[tactic(auto, unfolding(crate::specs::RunCards::first_text))]
fn put_first(out: &mut Vec<u8>, number: u32, line: &[u8]) -> Result<(), AllocError>
    ensures { OnOk result (out.new.items ≡ out.old.items ++ first_text number line.now) }
{
    put(out, b"line ")?;
    put_number(out, number)?;
    put(out, b", first miscellaneous card")?;
    put_end(out, field_number(line, 9, 16, 12, 1, LATEST))?;
    put(out, b"\n")
}

/// Puts TMAX after a text.
fn put_end(out: &mut Vec<u8>, end: Result<Option<i64>, Why>) -> Result<(), AllocError>
    ensures { OnOk result (out.new.items ≡ out.old.items ++ end_text end) }
{
    match end {
        Ok(Some(end)) => {
            put(out, b", TMAX=")?;
            put_fixed(out, end, 12)?;
            put(out, b" s")
        }
        _ => Ok(()),
    }
}

#[tactic(auto, unfolding(crate::specs::RunCards::second_text))]
fn put_second(out: &mut Vec<u8>, number: u32, line: &[u8]) -> Result<(), AllocError>
    ensures { OnOk result (out.new.items ≡ out.old.items ++ second_text number line.now) }
{
    put(out, b"line ")?;
    put_number(out, number)?;
    put(out, b", second miscellaneous card, ")?;
    put_print(out, print_of(field_whole(line, 1, 8)))?;
    put(out, b"\n")
}

/// Puts IOUT after a text.
fn put_print(out: &mut Vec<u8>, number: i64) -> Result<(), AllocError>
    ensures { OnOk result (out.new.items ≡ out.old.items ++ print_text number) }
{
    put(out, b"IOUT=")?;
    put_fixed(out, number, 0)
}

/// IOUT, which is 0 where it is blank.
fn print_of(print: Result<Option<i64>, Why>) -> i64
    ensures { result ≡ print_of print }
{
    match print {
        Ok(Some(number)) => number,
        _ => 0,
    }
}
