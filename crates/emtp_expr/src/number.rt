//! The numbers of an expression.

ghost use Rattle.std.specs.Prelude.{◌≡◌};
ghost use Rattle.emtp_expr.specs.Number.{number_word, word_of};

use crate::words::Word;
use emtp_card::read_number;
use emtp_fix::{LARGEST_VALUE, in_range};

/// The word of a number's bytes.
pub(crate) fn number_word(text: &[u8]) -> Word
    ensures { result ≡ number_word text.now }
{
    match read_number(text, 9, LARGEST_VALUE as i128) {
        Ok(value) => word_of(in_range(value)),
        Err(_) => Word::Nothing,
    }
}

fn word_of(value: Option<i64>) -> Word
    ensures { result ≡ word_of value }
{
    match value {
        Some(value) => {
            if value < 0 {
                Word::Nothing
            } else {
                Word::Number(value)
            }
        }
        None => Word::Nothing,
    }
}
