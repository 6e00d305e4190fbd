//! The words of an expression.

ghost use Rattle.std.specs.Prelude.{◌≡◌, ◌≤◌, ◌<◌, length, IfSome};
ghost use Rattle.emtp_expr.specs.Words.{dotted, digit_count, letter_count, fraction_length, mantissa_length, sign_length, power_length, exponent_length, number_length, name_length, name_word, mark, word_at};

use crate::number::number_word;
use emtp_case::{BinaryOp, Name, UnaryOp};

/// A word of an expression.
#[derive(Clone, Copy)]
pub(crate) enum Word {
    /// A number, in nano.
    Number(i64),
    /// The name of a variable.
    Name(Name),
    /// The name of a function.
    Function(UnaryOp),
    /// An operator between two values; `+` and `-` may also stand in front of one.
    Operator(BinaryOp),
    /// `.NOT.`
    Not,
    /// `(`
    Open,
    /// `)`
    Close,
    /// A byte that begins no word, or a number that is too large.
    Nothing,
}

/// A word and the number of its bytes.
#[derive(Clone, Copy)]
pub(crate) struct Taken {
    /// The word.
    pub(crate) word: Word,
    /// How many bytes it has.
    pub(crate) length: usize,
}

/// The dotted word in front.
#[tactic(auto, unfolding(crate::specs::Words::dotted))]
fn dotted(text: &[u8]) -> Option<Taken>
    ensures value { result ≡ dotted text.now }
    ensures within { IfSome result (λ taken. (0 < taken.length) × (taken.length ≤ length text.now)) }
{
    let (word, length) = if text.starts_with(b".GT.") {
        (Word::Operator(BinaryOp::Gt), 4)
    } else if text.starts_with(b".GE.") {
        (Word::Operator(BinaryOp::Ge), 4)
    } else if text.starts_with(b".LT.") {
        (Word::Operator(BinaryOp::Lt), 4)
    } else if text.starts_with(b".LE.") {
        (Word::Operator(BinaryOp::Le), 4)
    } else if text.starts_with(b".EQ.") {
        (Word::Operator(BinaryOp::Eq), 4)
    } else if text.starts_with(b".NE.") {
        (Word::Operator(BinaryOp::Ne), 4)
    } else if text.starts_with(b".AND.") {
        (Word::Operator(BinaryOp::And), 5)
    } else if text.starts_with(b".OR.") {
        (Word::Operator(BinaryOp::Or), 4)
    } else if text.starts_with(b".NOT.") {
        (Word::Not, 5)
    } else {
        return None;
    };
    Some(Taken { word, length })
}

/// How many digits stand in front.
fn digit_count(text: &[u8]) -> usize
    ensures count { result ≡ digit_count text.now }
    ensures within { result ≤ length text.now }
{
    text.iter().take_while(|byte| byte.is_ascii_digit()).count()
}

/// How many letters and digits stand in front.
fn letter_count(text: &[u8]) -> usize
    ensures count { result ≡ letter_count text.now }
    ensures within { result ≤ length text.now }
{
    text.iter()
        .take_while(|byte| byte.is_ascii_alphanumeric())
        .count()
}

/// How many bytes a point in front has with the digits after it.
#[tactic(auto, unfolding(crate::specs::Words::fraction_length))]
fn fraction_length(text: &[u8]) -> usize
    ensures count { result ≡ fraction_length text.now }
    ensures within { result ≤ length text.now }
{
    match text {
        [b'.', rest @ ..] if dotted(text).is_none() => 1 + digit_count(rest),
        _ => 0,
    }
}

/// How many bytes the digits and the point of a number in front have.
#[tactic(auto, unfolding(crate::specs::Words::mantissa_length))]
fn mantissa_length(text: &[u8]) -> usize
    ensures count { result ≡ mantissa_length text.now }
    ensures within { result ≤ length text.now }
{
    let whole = digit_count(text);
    let fraction = fraction_length(&text[whole..]);
    if whole == 0 && fraction < 2 {
        0
    } else {
        whole + fraction
    }
}

/// How many bytes a sign in front has.
#[tactic(auto, unfolding(crate::specs::Words::sign_length))]
fn sign_length(text: &[u8]) -> usize
    ensures count { result ≡ sign_length text.now }
    ensures within { result ≤ length text.now }
{
    match text {
        [b'+' | b'-', ..] => 1,
        _ => 0,
    }
}

/// How many bytes a sign in front has, with up to three digits after it; 0 without a digit.
#[tactic(auto, unfolding(crate::specs::Words::power_length))]
fn power_length(text: &[u8]) -> usize
    ensures count { result ≡ power_length text.now }
    ensures within { result ≤ length text.now }
{
    let sign = sign_length(text);
    let rest = &text[sign..];
    let digits = digit_count(&rest[..rest.len().min(3)]);
    if digits == 0 { 0 } else { sign + digits }
}

/// How many bytes an exponent in front has.
#[tactic(auto, unfolding(crate::specs::Words::exponent_length))]
fn exponent_length(text: &[u8]) -> usize
    ensures count { result ≡ exponent_length text.now }
    ensures within { result ≤ length text.now }
{
    match text {
        [b'E' | b'D', rest @ ..] => {
            let power = power_length(rest);
            if power == 0 { 0 } else { 1 + power }
        }
        _ => 0,
    }
}

/// How many bytes a number in front has.
#[tactic(auto, unfolding(crate::specs::Words::number_length))]
pub(crate) fn number_length(text: &[u8]) -> usize
    ensures count { result ≡ number_length text.now }
    ensures within { result ≤ length text.now }
{
    let mantissa = mantissa_length(text);
    if mantissa == 0 {
        0
    } else {
        mantissa + exponent_length(&text[mantissa..])
    }
}

/// How many bytes a name in front has.
#[tactic(auto, unfolding(crate::specs::Words::name_length))]
fn name_length(text: &[u8]) -> usize
    ensures count { result ≡ name_length text.now }
    ensures within { result ≤ length text.now }
    ensures short { result ≤ 6 }
{
    match text {
        [first, rest @ ..] if first.is_ascii_alphabetic() => {
            1 + letter_count(&rest[..rest.len().min(5)])
        }
        _ => 0,
    }
}

/// A function, or else the name of a variable.
#[tactic(auto, unfolding(crate::specs::Words::name_word))]
fn name_word(text: &[u8]) -> Word
    requires { length text.now ≤ 6 }
    ensures { result ≡ name_word text.now }
{
    if text == b"ABS".as_slice() {
        Word::Function(UnaryOp::Abs)
    } else if text == b"SQRT".as_slice() {
        Word::Function(UnaryOp::Sqrt)
    } else if text == b"TRUNC".as_slice() {
        Word::Function(UnaryOp::Trunc)
    } else if text == b"SIGN".as_slice() {
        Word::Function(UnaryOp::Sign)
    } else {
        Word::Name(Name::new(text))
    }
}

/// The word of one byte.
#[tactic(auto, unfolding(crate::specs::Words::mark))]
fn mark(byte: u8) -> Word
    ensures { result ≡ mark byte }
{
    match byte {
        b'+' => Word::Operator(BinaryOp::Add),
        b'-' => Word::Operator(BinaryOp::Sub),
        b'*' => Word::Operator(BinaryOp::Mul),
        b'/' => Word::Operator(BinaryOp::Div),
        b'(' => Word::Open,
        b')' => Word::Close,
        _ => Word::Nothing,
    }
}

/// The word in front, which is no blank.
#[tactic(auto, unfolding(crate::specs::Words::word_at))]
pub(crate) fn word_at(text: &[u8]) -> Taken
    requires { 0 < length text.now }
    ensures value { result ≡ word_at text.now }
    ensures some { 0 < result.length }
    ensures within { result.length ≤ length text.now }
{
    if let Some(taken) = dotted(text) {
        return taken;
    }
    let length = number_length(text);
    if length > 0 {
        let word = number_word(&text[..length]);
        return Taken { word, length };
    }
    let length = name_length(text);
    if length > 0 {
        let word = name_word(&text[..length]);
        return Taken { word, length };
    }
    let word = mark(text[0]);
    Taken { word, length: 1 }
}
