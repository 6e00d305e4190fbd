//! Number fields, and numbers of any length.

ghost use Rattle.std.specs.Prelude.{◌≡◌, ◌+◌, ◌^◌, ◌≤◌, ◌<◌, ◌≤ℤ◌, ◌↔◌, ℤ, pos, unsigned_abs, Some, None, Ok, Result, IfOk, IfSome};
ghost use Rattle.emtp_card.specs.Decimal.{Decimal, signed};
ghost use Rattle.emtp_card.specs.Field.{columns, trimmed};
ghost use Rattle.emtp_card.specs.held.Field.{IsBlank};
ghost use Rattle.emtp_card.specs.Numeral.{decimal_of};
ghost use Rattle.emtp_card.specs.held.Numeral.{meaning_of, IsNumeral};
ghost use Rattle.emtp_card.specs.Spelling.{Spells};
ghost use Rattle.emtp_card.specs.held.Rounding.{magnitude_in};
ghost use Rattle.emtp_card.specs.Number.{number_in, in_range, held_in, in_limit, number_field, held_field, read_number_of, held_number, unless_blank};
ghost use Rattle.emtp_card.specs.held.Number.{IsWithin, Reads};
ghost use Rattle.emtp_card.specs.declared.reason.Why.{Why};

use crate::field::{field_text, trim};
use crate::numeral::{Numeral, read_numeral};
use crate::reason::Why;
use crate::rounding::MOST;

/// The number in the columns from `first` to `last`, counted from 1, in a unit of 10^-scale, rounded
/// to a whole number, a half away from zero. It is none exactly where these columns are blank.
///
/// `NotANumber` comes where the field is no number, and `OutOfUnitRange` where the rounded value
/// lies outside the range from `low` to `high`.
#[tactic(auto, unfolding(crate::specs::Number::number_field))]
pub fn field_number(
    line: &[u8],
    first: usize,
    last: usize,
    scale: i32,
    low: i64,
    high: i64,
) -> Result<Option<i64>, Why>
    requires first { 1 ≤ first }
    requires order { first ≤ last }
    requires last { last ≤ 80 }
    requires scale_low { pos 0 ≤ℤ scale }
    requires scale_high { scale ≤ℤ pos 18 }
    requires range { low ≤ℤ high }
    ensures value { result ≡ number_field line.now first last scale low high }
    ensures range { IfOk result (λ field. IfSome field (IsWithin low high)) }
    ensures blank { (result ≡ Ok None) ↔ IsBlank (columns line.now first last) }
{
    let text = field_text(line, first, last);
    unless_blank(text, within(value(text, scale), low, high))
}

/// The number of a field as `field_number` reads it, but the nearer end of the range where the value
/// lies outside.
#[tactic(auto, unfolding(crate::specs::Number::held_field))]
pub fn field_held(
    line: &[u8],
    first: usize,
    last: usize,
    scale: i32,
    low: i64,
    high: i64,
) -> Result<Option<i64>, Why>
    requires first { 1 ≤ first }
    requires order { first ≤ last }
    requires last { last ≤ 80 }
    requires scale_low { pos 0 ≤ℤ scale }
    requires scale_high { scale ≤ℤ pos 18 }
    requires range { low ≤ℤ high }
    ensures value { result ≡ held_field line.now first last scale low high }
    ensures range { IfOk result (λ field. IfSome field (IsWithin low high)) }
    ensures blank { (result ≡ Ok None) ↔ IsBlank (columns line.now first last) }
{
    let text = field_text(line, first, last);
    unless_blank(text, held(value(text, scale), low, high))
}

/// A text without its outer blanks, read as a number of any length in a unit of 10^-scale, rounded
/// to a whole number, a half away from zero.
///
/// `NotANumber` comes where it is none, as where it is empty, and `OutOfUnitRange` where the rounded
/// value's magnitude exceeds the limit.
#[tactic(auto, unfolding(crate::specs::Number::read_number_of))]
pub fn read_number(text: &[u8], scale: i32, limit: i128) -> Result<i128, Why>
    requires scale_low { pos 0 ≤ℤ scale }
    requires scale_high { scale ≤ℤ pos 18 }
    requires limit_low { pos 0 ≤ℤ limit }
    requires limit_high { limit ≤ℤ pos (10 ^ 36) }
    ensures value { result ≡ read_number_of text.now scale limit }
    ensures spelling { (decimal : Decimal) → (decimal_of (trimmed text.now) ≡ Some decimal) ↔ Spells (trimmed text.now) decimal }
{
    limited(value(trim(text), scale), limit)
}

/// A text without its outer blanks, read as [`read_number`] reads it, but the nearer end of the range where the value
/// lies outside.
#[tactic(auto, unfolding(crate::specs::Number::held_number))]
pub fn read_held(text: &[u8], scale: i32, low: i64, high: i64) -> Result<i64, Why>
    requires scale_low { pos 0 ≤ℤ scale }
    requires scale_high { scale ≤ℤ pos 18 }
    requires range { low ≤ℤ high }
    ensures value { result ≡ held_number text.now scale low high }
    ensures range { IfOk result (IsWithin low high) }
{
    held(value(trim(text), scale), low, high)
}

/// What was read of a field's text, and nothing where the text is empty.
pub(crate) fn unless_blank(text: &[u8], read: Result<i64, Why>) -> Result<Option<i64>, Why>
    ensures value { result ≡ unless_blank text.now read }
    ensures range { (low high : ℤ) → IfOk read (IsWithin low high) → IfOk result (λ field. IfSome field (IsWithin low high)) }
{
    if text.is_empty() {
        return Ok(None);
    }
    match read {
        Ok(value) => Ok(Some(value)),
        Err(why) => Err(why),
    }
}

/// The value of a text in a unit of 10^-scale. One that is greater than any limit is read as a
/// number beyond them, on the same side.
#[tactic(auto, unfolding(crate::specs::Number::number_in))]
fn value(text: &[u8], scale: i32) -> Result<i128, Why>
    requires scale_low { pos 0 ≤ℤ scale }
    requires scale_high { scale ≤ℤ pos 18 }
    ensures { Reads result (number_in scale text.now) }
{
    match read_numeral(text) {
        Some(numeral) => Ok(signed(numeral.negative, bounded(&numeral, scale))),
        None => Err(Why::NotANumber),
    }
}

/// The magnitude of a number, or one more than `MOST` where it is above that.
fn bounded(numeral: &Numeral<'_>, scale: i32) -> u128
    requires parts { IsNumeral numeral.now }
    requires scale_low { pos 0 ≤ℤ scale }
    requires scale_high { scale ≤ℤ pos 18 }
    ensures small { result ≤ MOST + 1 }
    ensures exact { magnitude_in scale (meaning_of numeral.now) ≤ MOST → result ≡ magnitude_in scale (meaning_of numeral.now) }
    ensures above { MOST < magnitude_in scale (meaning_of numeral.now) → result ≡ MOST + 1 }
{
    match numeral.magnitude(scale) {
        Some(magnitude) => magnitude,
        None => MOST + 1,
    }
}

fn signed(negative: bool, magnitude: u128) -> i128
    requires { magnitude ≤ MOST + 1 }
    ensures { result ≡ signed negative magnitude }
{
    if negative {
        -(magnitude as i128)
    } else {
        magnitude as i128
    }
}

/// A value that has to lie in a range.
fn within(read: Result<i128, Why>, low: i64, high: i64) -> Result<i64, Why>
    ensures value { (value : Result ℤ Why) → Reads read value → result ≡ in_range low high value }
    ensures range { IfOk result (IsWithin low high) }
{
    match read {
        Ok(value) => {
            if value < i128::from(low) || i128::from(high) < value {
                Err(Why::OutOfUnitRange)
            } else {
                Ok(value as i64)
            }
        }
        Err(why) => Err(why),
    }
}

/// A value that is held to the nearer end of a range that it lies outside.
fn held(read: Result<i128, Why>, low: i64, high: i64) -> Result<i64, Why>
    requires { low ≤ℤ high }
    ensures value { (value : Result ℤ Why) → Reads read value → result ≡ held_in low high value }
    ensures range { IfOk result (IsWithin low high) }
{
    match read {
        Ok(value) => {
            if value < i128::from(low) {
                Ok(low)
            } else if i128::from(high) < value {
                Ok(high)
            } else {
                Ok(value as i64)
            }
        }
        Err(why) => Err(why),
    }
}

/// A value whose magnitude has a limit.
fn limited(read: Result<i128, Why>, limit: i128) -> Result<i128, Why>
    requires { unsigned_abs limit ≤ MOST }
    ensures { (value : Result ℤ Why) → Reads read value → result ≡ in_limit limit value }
{
    match read {
        Ok(value) => {
            if value.unsigned_abs() > limit.unsigned_abs() {
                Err(Why::OutOfUnitRange)
            } else {
                Ok(value)
            }
        }
        Err(why) => Err(why),
    }
}
