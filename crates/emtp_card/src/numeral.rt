//! Numbers as cards spell them.

ghost use Rattle.std.specs.Prelude.{◌≡◌, ◌<◌, ◌≤◌, length, take_while, unsigned_abs, IfSome, option_map};
ghost use Rattle.std.specs.Char.{is_ascii_digit};
ghost use Rattle.emtp_card.specs.Numeral.{sign_of, digits_of, fraction_of, power_of, exponent_of, decimal_of};
ghost use Rattle.emtp_card.specs.held.Numeral.{meaning_of, IsNumeral, AreDigits};

use crate::whole::read_whole;

/// A spelled number: its sign, the digits before and after the point, and its power of ten, from
/// -999 to 999. The digits stay in the text, so their number has no limit.
#[derive(Clone, Copy, Debug)]
pub(crate) struct Numeral<'a> {
    pub negative: bool,
    pub whole: &'a [u8],
    pub fraction: &'a [u8],
    pub exponent: i32,
}

/// Reads a text as a number: an optional sign; digits with at most one point, at least one digit;
/// then optionally an exponent, which is `E`, `e`, `D` or `d`, an optional sign and one to three
/// digits, or a sign and one to three digits. No blank may stand inside, and no point is implied.
#[tactic(auto, unfolding(crate::specs::Numeral::decimal_of))]
pub(crate) fn read_numeral(text: &[u8]) -> Option<Numeral<'_>>
    ensures value { option_map meaning_of result ≡ decimal_of text.now }
    ensures parts { IfSome result IsNumeral }
{
    let (negative, rest) = sign(text);
    let (whole, rest) = digits(rest);
    let (fraction, rest) = fraction(rest);
    if whole.is_empty() && fraction.is_empty() {
        return None;
    }
    let exponent = exponent(rest)?;
    Some(Numeral {
        negative,
        whole,
        fraction,
        exponent,
    })
}

/// Whether a minus stands in front, and what stands after the sign, if there is one.
pub(crate) fn sign(text: &[u8]) -> (bool, &[u8])
    ensures minus { result.0 ≡ (sign_of text.now).0 }
    ensures rest { result.1.now ≡ (sign_of text.now).1 }
{
    match text {
        [b'+', rest @ ..] => (false, rest),
        [b'-', rest @ ..] => (true, rest),
        _ => (false, text),
    }
}

/// The digits in front, and what stands after them.
fn digits(text: &[u8]) -> (&[u8], &[u8])
    ensures digits { result.0.now ≡ (digits_of text.now).0 }
    ensures rest { result.1.now ≡ (digits_of text.now).1 }
    ensures are { AreDigits result.0.now }
{
    text.split_at(count_digits(text))
}

fn count_digits(text: &[u8]) -> usize
    ensures count { result ≡ length (take_while is_ascii_digit text.now) }
    ensures within { result ≤ length text.now }
{
    text.iter().take_while(|byte| byte.is_ascii_digit()).count()
}

/// The digits after a point in front, and what stands after them.
fn fraction(text: &[u8]) -> (&[u8], &[u8])
    ensures digits { result.0.now ≡ (fraction_of text.now).0 }
    ensures rest { result.1.now ≡ (fraction_of text.now).1 }
    ensures are { AreDigits result.0.now }
{
    match text {
        [b'.', rest @ ..] => digits(rest),
        _ => (&text[..0], text),
    }
}

/// The power of ten of a number, which is 0 where nothing stands after its digits.
#[tactic(auto, unfolding(crate::specs::Numeral::exponent_of))]
fn exponent(text: &[u8]) -> Option<i32>
    ensures value { result ≡ exponent_of text.now }
    ensures small { IfSome result (λ power. unsigned_abs power < 1000) }
{
    match text {
        [] => Some(0),
        [b'E' | b'e' | b'D' | b'd', rest @ ..] => power(rest),
        [b'+' | b'-', ..] => power(text),
        _ => None,
    }
}

/// A sign or none, and one to three digits.
fn power(text: &[u8]) -> Option<i32>
    ensures value { result ≡ power_of text.now }
    ensures small { IfSome result (λ power. unsigned_abs power < 1000) }
{
    let power = read_whole(text, 3)?;
    Some(power as i32)
}
