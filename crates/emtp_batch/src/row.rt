//! A row of the table: a closing and an opening time for each time switch.

ghost use Rattle.emtp_case.specs.declared.limit.TheConstants.{MOST_SWITCHES};
ghost use Rattle.emtp_fix.specs.declared.limit.TheConstants.{LARGEST_TIME};
ghost use Rattle.std.specs.Prelude.{◌≡◌, ◌+◌, ◌≤◌, ◌<◌, length, count_by, drop, All, Some, Ok, Err, IfOk, IfErr, unsigned_abs};
ghost use Rattle.std.specs.Option.{ForSome};
ghost use Rattle.emtp_case.specs.Switch.{card_times, is_time_switch};
ghost use Rattle.emtp_batch.specs.held.Answer.{IsRefused};
ghost use Rattle.emtp_batch.specs.Items.{items_of};
ghost use Rattle.emtp_batch.specs.Row.{closing_time, opening_time, row_times, time_of, times_at};
ghost use Rattle.emtp_batch.specs.held.Row.{AreTimesInRange, IsRowFor};
ghost use Rattle.emtp_batch.specs.Table.{on_line};

use crate::items::next_item;
use crate::table::{Row, TimesFault};
use emtp_card::read_held;
use emtp_case::{Case, Items, Times};
use emtp_fix::LARGEST_TIME;
use std::alloc::{AllocError, Global};

/// The times of the time switches of a case, in card order.
pub(crate) fn card_times(alloc: Global, case: &Case) -> Result<Vec<Times>, AllocError>
    ensures times { IfOk result (λ v. v.items ≡ card_times case.now.parts.switches) }
    ensures count { IfOk result (λ v. length v.items ≡ count_by is_time_switch case.now.parts.switches) }
    ensures in_range { IfOk result (λ v. All AreTimesInRange v.items) }
{
    let mut times = Vec::new(alloc);
    for switch in case.parts.switches.as_slice() {
        if let Some(own) = switch.times() {
            times.push(own)?;
        }
    }
    Ok(times)
}

/// A number of seconds, in ps, held to the range of times.
fn time_of(item: &[u8]) -> Option<i64>
    ensures value { result ≡ time_of item.now }
    ensures in_range { ForSome result (λ t. unsigned_abs t ≤ LARGEST_TIME) }
{
    read_held(item, 12, -(LARGEST_TIME as i64), LARGEST_TIME as i64).ok()
}

/// The closing time that an item gives.
fn closing_time(card: i64, item: &[u8]) -> Option<i64>
    requires { unsigned_abs card ≤ LARGEST_TIME }
    ensures value { result ≡ closing_time card item.now }
    ensures in_range { ForSome result (λ t. unsigned_abs t ≤ LARGEST_TIME) }
{
    if item == b"*".as_slice() {
        Some(card)
    } else {
        time_of(item)
    }
}

/// The opening time that an item gives.
fn opening_time(card: Option<i64>, item: &[u8]) -> Option<Option<i64>>
    requires { ForSome card (λ t. unsigned_abs t ≤ LARGEST_TIME) }
    ensures value { result ≡ opening_time card item.now }
    ensures in_range { ForSome result (λ o. ForSome o (λ t. unsigned_abs t ≤ LARGEST_TIME)) }
{
    if item == b"*".as_slice() {
        return Some(card);
    }
    if item == b"-".as_slice() {
        return Some(None);
    }
    match time_of(item) {
        Some(time) => Some(Some(time)),
        None => None,
    }
}

/// The times that the first two items of a text give, and what comes after them; or the number of the item that
/// gives none, where the first one has the number `at`.
fn read_pair<'a>(text: &'a [u8], card: &Times, at: u32) -> Result<(Times, &'a [u8]), u32>
    requires at { at ≤ 1000 }
    requires card { AreTimesInRange card.now }
    ensures ok { IfOk result (λ pair. times_at at card.now (items_of text.now) ≡ Ok pair.0) }
    ensures rest { IfOk result (λ pair. items_of pair.1.now ≡ drop 2 (items_of text.now)) }
    ensures in_range { IfOk result (λ pair. AreTimesInRange pair.0) }
    ensures err { IfErr result (λ item. times_at at card.now (items_of text.now) ≡ Err item) }
{
    let Some((item, rest)) = next_item(text) else {
        return Err(at);
    };
    let Some(close) = closing_time(card.close, item) else {
        return Err(at);
    };
    let Some((item, rest)) = next_item(rest) else {
        return Err(at + 1);
    };
    let Some(open_at) = opening_time(card.open_at, item) else {
        return Err(at + 1);
    };
    Ok((Times { close, open_at }, rest))
}

/// The row of a line, whose number is `line`, for time switches with these times on their cards.
pub(crate) fn read_row(
    alloc: Global,
    text: &[u8],
    line: u32,
    cards: &[Times],
) -> Result<Row, TimesFault>
    requires few { length cards.now ≤ MOST_SWITCHES }
    requires cards { All AreTimesInRange cards.now }
    ensures ok { IfOk result (λ row. row_times cards.now text.now ≡ Ok row.times) }
    ensures fits { IfOk result (IsRowFor (length cards.now)) }
    ensures bad { IfErr result (λ fault. IsRefused fault (on_line line (row_times cards.now text.now))) }
{
    let mut times = Vec::with_capacity(alloc, cards.len())?;
    let mut rest = text;
    let mut at = 1;
    for card in cards {
        match read_pair(rest, card, at) {
            Ok((pair, after)) => {
                times.push(pair)?;
                rest = after;
                at += 2;
            }
            Err(item) => return Err(TimesFault::Bad { line, item }),
        }
    }
    match next_item(rest) {
        Some(_) => Err(TimesFault::Bad { line, item: at }),
        None => Ok(Row {
            times: Items::from_vec(times),
        }),
    }
}
