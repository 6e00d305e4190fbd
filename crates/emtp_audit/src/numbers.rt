//! The numbers of a record, as another program may spell them.
ghost use Rattle.std.specs.Prelude.{◌≡◌, ◌^◌, ◌<◌, ◌≤◌, unsigned_abs, pos, ◌≤ℤ◌, IfSome};
ghost use Rattle.emtp_audit.specs.Numbers.{whole_of, stamp_of, decimal_in};
ghost use Rattle.emtp_audit.specs.Cfg.{scale_number, rates_number, unit_number};
ghost use Rattle.emtp_audit.specs.declared.limit.TheConstants.{LARGEST_SCALE, LARGEST_UNIT};

use crate::limit::{LARGEST_SCALE, LARGEST_UNIT};
use emtp_card::{read_digits, read_number, read_whole};

/// The most bytes of a decimal.
const DECIMAL_BYTES: usize = 40;

/// The most sampling rates.
const MOST_RATES: i64 = 10;

/// The most digits of a whole number.
const WHOLE_DIGITS: usize = 9;

/// The most digits of a time stamp.
const STAMP_DIGITS: usize = 10;

/// A whole number: an optional sign and one to nine digits.
#[tactic(auto, unfolding(crate::specs::Numbers::whole_of))]
pub(crate) fn whole(text: &[u8]) -> Option<i64>
    ensures value { result ≡ whole_of text.now }
    ensures small { IfSome result (λ x. unsigned_abs x < 10 ^ 10) }
{
    read_whole(text, WHOLE_DIGITS)
}

/// A time stamp: one to ten digits.
#[tactic(auto, unfolding(crate::specs::Numbers::stamp_of))]
pub(crate) fn stamp(text: &[u8]) -> Option<i64>
    ensures value { result ≡ stamp_of text.now }
    ensures low { IfSome result (λ x. pos 0 ≤ℤ x) }
    ensures small { IfSome result (λ x. unsigned_abs x < 10 ^ 10) }
{
    match read_digits(text, STAMP_DIGITS) {
        Some(number) => Some(number as i64),
        None => None,
    }
}

/// A decimal of at most 40 bytes, in a unit of 10^-scale and of limited magnitude.
#[tactic(auto, unfolding(crate::specs::Numbers::decimal_in))]
fn decimal(text: &[u8], scale: i32, limit: i128) -> Option<i128>
    requires scale_low { pos 0 ≤ℤ scale }
    requires scale_high { scale ≤ℤ pos 18 }
    requires limit_low { pos 0 ≤ℤ limit }
    requires limit_high { limit ≤ℤ pos (10 ^ 36) }
    ensures value { result ≡ decimal_in scale limit text.now }
    ensures limit { IfSome result (λ x. unsigned_abs x ≤ unsigned_abs limit) }
{
    if text.len() > DECIMAL_BYTES {
        return None;
    }
    match read_number(text, scale, limit) {
        Ok(value) => Some(value),
        Err(_) => None,
    }
}

/// A number of a scale, in 1e-18.
pub(crate) fn scale_number(text: &[u8]) -> Option<i128>
    ensures value { result ≡ scale_number text.now }
    ensures limit { IfSome result (λ number. unsigned_abs number ≤ LARGEST_SCALE) }
{
    decimal(text, 18, LARGEST_SCALE as i128)
}

/// The number of sampling rates.
pub(crate) fn rates_number(text: &[u8]) -> Option<i64>
    ensures value { result ≡ rates_number text.now }
    ensures low { IfSome result (λ rates. pos 0 ≤ℤ rates) }
    ensures high { IfSome result (λ rates. rates ≤ℤ pos 10) }
{
    match whole(text) {
        Some(rates) if 0 <= rates && rates <= MOST_RATES => Some(rates),
        _ => None,
    }
}

/// The unit of time stamps, in ps; the file gives it in microseconds.
pub(crate) fn unit_number(text: &[u8]) -> Option<i128>
    ensures value { result ≡ unit_number text.now }
    ensures least { IfSome result (λ unit. pos 1 ≤ℤ unit) }
    ensures most { IfSome result (λ unit. unit ≤ℤ pos LARGEST_UNIT) }
{
    match decimal(text, 6, LARGEST_UNIT as i128) {
        Some(unit) if 1 <= unit && unit <= LARGEST_UNIT as i128 => Some(unit),
        _ => None,
    }
}
