//! Whole numbers: those of fields, and those that are limited by their digits.

ghost use Rattle.std.specs.Prelude.{◌≡◌, ◌^◌, ◌≤◌, ◌<◌, ◌↔◌, ◌&&◌, nat_le, length, pos, unsigned_abs, Ok, None, IsTrue, IfOk, IfSome};
ghost use Rattle.std.specs.Char.{is_ascii_digit};
ghost use Rattle.std.specs.List.{list_all};
ghost use Rattle.std.specs.Option.{SomeIff};
ghost use Rattle.emtp_card.specs.Decimal.{number_of};
ghost use Rattle.emtp_card.specs.Field.{columns};
ghost use Rattle.emtp_card.specs.held.Field.{IsBlank};
ghost use Rattle.emtp_card.specs.Numeral.{few_digits, limited_whole};
ghost use Rattle.emtp_card.specs.held.Numeral.{AreDigits};
ghost use Rattle.emtp_card.specs.Whole.{all_digits, whole_in, whole_field};
ghost use Rattle.emtp_card.specs.held.Whole.{IsInBillion};

use crate::field::field_text;
use crate::number::unless_blank;
use crate::numeral::sign;
use crate::reason::Why;
use crate::rounding::append_digits;

/// The greatest magnitude of a whole number in a field.
const BILLION: u128 = 1_000_000_000;

/// The whole number in the columns from `first` to `last`, counted from 1: an optional sign and
/// digits. It is none exactly where these columns are blank.
///
/// `NotWhole` comes where the field is anything else, and `OutOfUnitRange` where the magnitude
/// exceeds 10^9.
#[tactic(auto, unfolding(crate::specs::Whole::whole_field))]
pub fn field_whole(line: &[u8], first: usize, last: usize) -> Result<Option<i64>, Why>
    requires first { 1 ≤ first }
    requires order { first ≤ last }
    requires last { last ≤ 80 }
    ensures value { result ≡ whole_field line.now first last }
    ensures small { IfOk result (λ field. IfSome field IsInBillion) }
    ensures blank { (result ≡ Ok None) ↔ IsBlank (columns line.now first last) }
{
    let text = field_text(line, first, last);
    unless_blank(text, whole(text))
}

/// A text read as an optional sign and digits.
#[tactic(auto, unfolding(crate::specs::Whole::whole_in))]
fn whole(text: &[u8]) -> Result<i64, Why>
    ensures value { result ≡ whole_in text.now }
    ensures small { IfOk result IsInBillion }
{
    let (negative, digits) = sign(text);
    if !only_digits(digits) {
        return Err(Why::NotWhole);
    }
    match small(digits) {
        Some(size) => Ok(if negative { -size } else { size }),
        None => Err(Why::OutOfUnitRange),
    }
}

/// A text read as an optional sign and one digit to `most`, and nothing else.
#[tactic(auto, unfolding(crate::specs::Numeral::limited_whole))]
pub fn read_whole(text: &[u8], most: usize) -> Option<i64>
    requires { most ≤ 18 }
    ensures value { result ≡ limited_whole most text.now }
    ensures small { IfSome result (λ whole. unsigned_abs whole < 10 ^ most) }
{
    let (negative, digits) = sign(text);
    let size = read_digits(digits, most)? as i64;
    Some(if negative { -size } else { size })
}

/// A text read as one digit to `most`, and nothing else.
pub fn read_digits(text: &[u8], most: usize) -> Option<u64>
    requires { most ≤ 18 }
    ensures value { result ≡ few_digits most text.now }
    ensures small { IfSome result (λ number. number < 10 ^ most) }
    ensures fits { IfSome result (λ number. number < 10 ^ 18) }
{
    if are_digits(text) && is_few(text.len(), most) {
        Some(number(text, most))
    } else {
        None
    }
}

fn is_few(digits: usize, most: usize) -> bool
    ensures { result ≡ (nat_le 1 digits && nat_le digits most) }
{
    1 <= digits && digits <= most
}

/// The number that at most so many digits write.
fn number(digits: &[u8], most: usize) -> u64
    requires digits { AreDigits digits.now }
    requires few { length digits.now ≤ most }
    requires most { most ≤ 18 }
    ensures value { result ≡ number_of digits.now }
    ensures small { result < 10 ^ most }
    ensures fits { result < 10 ^ 18 }
{
    let mut number = 0;
    for digit in digits {
        number = 10 * number + u64::from(digit - b'0');
    }
    number
}

/// Whether a text has digits, and nothing else.
fn only_digits(text: &[u8]) -> bool
    ensures value { result ≡ all_digits text.now }
    ensures are { IsTrue result → AreDigits text.now }
{
    !text.is_empty() && are_digits(text)
}

fn are_digits(text: &[u8]) -> bool
    ensures value { result ≡ list_all is_ascii_digit text.now }
    ensures are { IsTrue result → AreDigits text.now }
{
    text.iter().all(|byte| byte.is_ascii_digit())
}

/// The number that digits write, where it is at most 10^9.
fn small(digits: &[u8]) -> Option<i64>
    requires { AreDigits digits.now }
    ensures { SomeIff result (number_of digits.now ≤ 10 ^ 9) (pos (number_of digits.now)) }
{
    match append_digits(0, digits) {
        Some(number) if number <= BILLION => Some(number as i64),
        _ => None,
    }
}
