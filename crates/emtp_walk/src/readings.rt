//! As what each line of a case is read.

ghost use Rattle.std.specs.Prelude.{◌≡◌, ◌<◌, [], IfOk, OnOk, Some, length, slice_get};
ghost use Rattle.emtp_walk.specs.Readings.{line_readings};
ghost use Rattle.emtp_walk.specs.Walk.{empty_deck};

use crate::deck::{Deck, Place};
use crate::kind::{LineReading, due, line_reading};
use crate::steps::advance;
use emtp_card::{Cards, Refused};
use std::alloc::{AllocError, Global};

/// As what each line is read, from the first one on, up to the first one that has a fault of form, that one too; behind the
/// last line, where none has one, what is due there.
///
/// # Errors
///
/// [`AllocError`] where memory is wanting.
pub fn line_readings(alloc: Global, cards: &Cards<'_>) -> Result<Vec<LineReading>, AllocError>
    ensures { IfOk result (λ readings. readings.items ≡ line_readings cards.now) }
{
    let mut readings = Vec::new(alloc);
    let mut deck = Deck::new(alloc);
    let end = add_readings(alloc, &mut readings, &mut deck, cards);
    drop(deck);
    end?;
    Ok(readings)
}

/// Walks over all lines, and adds as what each is read.
fn add_readings(
    alloc: Global,
    readings: &mut Vec<LineReading>,
    deck: &mut Deck,
    cards: &Cards<'_>,
) -> Result<(), AllocError>
    requires none { readings.old.items ≡ [] }
    requires empty { deck.old ≡ empty_deck }
    ensures { OnOk result (readings.new.items ≡ line_readings cards.now) }
{
    let mut place = Place::Begin;
    for at in 0..cards.len() {
        let line = cards.line(at);
        readings.push(line_reading(&place, &line))?;
        match advance(alloc, deck, place, &line) {
            Ok(next) => place = next,
            Err(Refused::Bad(_)) => return Ok(()),
            Err(Refused::NoMemory) => return Err(AllocError),
        }
    }
    readings.push(due(&place, cards.len() as u32 + 1))?;
    Ok(())
}

/// As what the line at a place is read.
pub fn read_at(readings: &[LineReading], at: usize) -> LineReading
    requires { at < length readings.now }
    ensures { slice_get readings.now at ≡ Some result }
{
    readings[at]
}
