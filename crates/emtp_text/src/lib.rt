//! Texts that are made whole in memory.
//!
//! A summary is made whole before an output is created, so that want of memory leaves no output. Each call puts
//! one piece after a text: bytes, a whole number ([`put_number`]) or a decimal ([`put_fixed`]). It stands on `emtp_fix`
//! for decimals and on `itoa` for digits; what tells of a run stands on it.
//!
//! ```text
//! put(&mut text, b"ROW ")?;
//! put_number(&mut text, 7u32)?;
//! put_fixed(&mut text, -1_500, 3)?;            the text is "ROW 7-1.5"
//! ```
#![tactic(auto)]

ghost use Rattle.std.specs.Prelude.{◌≡◌, ◌≤◌, ◌++◌, OnOk};
ghost use Rattle.emtp_fix.specs.Decimal.{fixed_text};

use emtp_fix::print_fixed;
use itoa::{Buffer, Integer};
use std::alloc::AllocError;

/// The most bytes of a number.
const NUMBER_ROOM: usize = 40;

/// Puts bytes after a text.
///
/// # Errors
///
/// [`AllocError`] where memory is wanting, here and in the other calls.
pub fn put(text: &mut Vec<u8>, bytes: &[u8]) -> Result<(), AllocError>
    ensures { OnOk result (text.new.items ≡ text.old.items ++ bytes.now) }
{
    text.extend_from_slice(bytes)
}

/// Puts a whole number after a text: its decimal digits, after a `-` where it is below 0.
pub fn put_number<I: Integer>(text: &mut Vec<u8>, number: I) -> Result<(), AllocError>
    ensures { OnOk result (text.new.items ≡ text.old.items ++ I.text number) }
{
    let mut buffer = Buffer::new();
    put(text, buffer.format(number).as_bytes())
}

/// Puts `number / 10^places` after a text, as [`print_fixed`] writes it: 1,500 with three places is `1.5`.
pub fn put_fixed(text: &mut Vec<u8>, number: i64, places: usize) -> Result<(), AllocError>
    requires { places ≤ 18 }
    ensures { OnOk result (text.new.items ≡ text.old.items ++ fixed_text number places) }
{
    let mut digits = [0; NUMBER_ROOM];
    let len = print_fixed(number, places, &mut digits);
    put(text, &digits[..len])
}
