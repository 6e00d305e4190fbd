//! A text that waits to be written.
ghost use Rattle.std.specs.Prelude.{◌≡◌, ◌+◌, ◌<◌, ◌≤◌, ◌++◌, ◌∷◌, [], decimal, length, unsigned_abs};
ghost use Rattle.std.specs.Fmt.{signed_decimal};
ghost use Rattle.emtp_fix.specs.Decimal.{fixed_text};

use arrayvec::ArrayVec;
use emtp_fix::print_fixed;
use itoa::{Buffer, Integer};
use std::marker::Model;

/// The most bytes that wait: a line after others that are not yet worth a call.
pub const TEXT_ROOM: usize = 8192;

/// The most bytes of a line: 64 channels of a number each, and what stands before and after them.
pub const LINE_ROOM: usize = 4096;

/// The most bytes of a channel's line in the configuration.
pub const CHANNEL_ROOM: usize = 200;

/// The most bytes of a number.
pub const NUMBER_ROOM: usize = 40;

/// Puts a piece after a text, which has room for it.
pub fn push<const ROOM: usize>(text: &mut ArrayVec<u8, ROOM>, piece: &[u8])
    requires { length text.old.items + length piece.now ≤ ROOM }
    ensures text { text.new.items ≡ text.old.items ++ piece.now }
    ensures length { length text.new.items ≡ length text.old.items + length piece.now }
{
    // There is room, so that this can't fail.
    let _ = text.try_extend_from_slice(piece);
}

/// Puts a whole number after a text.
pub fn push_number<I: Integer, const ROOM: usize>(text: &mut ArrayVec<u8, ROOM>, number: I)
    requires { length text.old.items + NUMBER_ROOM ≤ ROOM }
    ensures text { text.new.items ≡ text.old.items ++ I.text number }
    ensures length { length text.new.items ≤ length text.old.items + NUMBER_ROOM }
{
    let mut buffer = Buffer::new();
    push(text, buffer.format(number).as_bytes());
}

// The digits of a short number go straight behind the text: a buffer of their own and a copy of it cost as much as they do.

/// Puts a digit after a text.
#[inline(always)]
fn push_digit<const ROOM: usize>(text: &mut ArrayVec<u8, ROOM>, digit: u32)
    requires digit { digit < 10 }
    requires room { length text.old.items + 1 ≤ ROOM }
    ensures text { text.new.items ≡ text.old.items ++ decimal digit }
    ensures length { length text.new.items ≡ length text.old.items + 1 }
{
    text.push(b'0' + digit as u8);
}

/// Puts a whole number after a text, which ends with its last digit.
#[inline(always)]
fn push_two_digits<const ROOM: usize>(text: &mut ArrayVec<u8, ROOM>, number: u32)
    requires number { number < 100 }
    requires room { length text.old.items + 2 ≤ ROOM }
    ensures text { text.new.items ≡ text.old.items ++ decimal number }
    ensures length { length text.new.items ≤ length text.old.items + 2 }
{
    if number < 10 {
        return push_digit(text, number);
    }
    push_digit(text, number / 10);
    push_digit(text, number % 10);
}

#[inline(always)]
fn push_three_digits<const ROOM: usize>(text: &mut ArrayVec<u8, ROOM>, number: u32)
    requires number { number < 1000 }
    requires room { length text.old.items + 3 ≤ ROOM }
    ensures text { text.new.items ≡ text.old.items ++ decimal number }
    ensures length { length text.new.items ≤ length text.old.items + 3 }
{
    if number < 10 {
        return push_digit(text, number);
    }
    push_two_digits(text, number / 10);
    push_digit(text, number % 10);
}

#[inline(always)]
fn push_four_digits<const ROOM: usize>(text: &mut ArrayVec<u8, ROOM>, number: u32)
    requires number { number < 10000 }
    requires room { length text.old.items + 4 ≤ ROOM }
    ensures text { text.new.items ≡ text.old.items ++ decimal number }
    ensures length { length text.new.items ≤ length text.old.items + 4 }
{
    if number < 10 {
        return push_digit(text, number);
    }
    push_three_digits(text, number / 10);
    push_digit(text, number % 10);
}

/// Puts a whole number below 100,000 after a text.
#[inline(always)]
fn push_five_digits<const ROOM: usize>(text: &mut ArrayVec<u8, ROOM>, number: u32)
    requires number { number < 100000 }
    requires room { length text.old.items + 5 ≤ ROOM }
    ensures text { text.new.items ≡ text.old.items ++ decimal number }
    ensures length { length text.new.items ≤ length text.old.items + 5 }
{
    if number < 10 {
        return push_digit(text, number);
    }
    push_four_digits(text, number / 10);
    push_digit(text, number % 10);
}

/// The front of a text that waits to be written. It takes no memory.
#[derive(Drop)]
pub struct Text {
    bytes: ArrayVec<u8, TEXT_ROOM>,
}

impl Model for Text {
    ghost use Rattle.std.specs.Prelude.{ℕ, List};

    ghost Value = { List ℕ };

    ghost view = { λ t. t.bytes.items };
}

impl Text {
    /// No text.
    pub fn new() -> Self
        ensures { result ≡ [] }
    {
        Text {
            bytes: ArrayVec::new(),
        }
    }

    /// The bytes that wait.
    pub fn as_slice(&self) -> &[u8]
        ensures { result.now ≡ self.now }
    {
        self.bytes.as_slice()
    }

    /// How many bytes wait.
    pub fn len(&self) -> usize
        ensures { result ≡ length self.now }
    {
        self.bytes.len()
    }

    /// Takes all bytes away.
    pub fn clear(&mut self)
        ensures { self.new ≡ [] }
    {
        self.bytes.clear();
    }

    /// Puts bytes after the text, for which there is room.
    pub fn push(&mut self, bytes: &[u8])
        requires { length self.old + length bytes.now ≤ TEXT_ROOM }
        ensures text { self.new ≡ self.old ++ bytes.now }
        ensures length { length self.new ≡ length self.old + length bytes.now }
    {
        push(&mut self.bytes, bytes);
    }

    /// Puts a whole number after the text.
    pub fn push_number<I: Integer>(&mut self, number: I)
        requires { length self.old + NUMBER_ROOM ≤ TEXT_ROOM }
        ensures text { self.new ≡ self.old ++ I.text number }
        ensures length { length self.new ≤ length self.old + NUMBER_ROOM }
    {
        push_number(&mut self.bytes, number);
    }

    /// Puts a byte after the text.
    #[inline(always)]
    pub fn push_byte(&mut self, byte: u8)
        requires { length self.old + 1 ≤ TEXT_ROOM }
        ensures text { self.new ≡ self.old ++ byte ∷ [] }
        ensures length { length self.new ≡ length self.old + 1 }
    {
        self.bytes.push(byte);
    }

    /// Puts a whole number of at most five digits after the text.
    #[inline(always)]
    pub fn push_short(&mut self, number: i64)
        requires number { unsigned_abs number < 100000 }
        requires room { length self.old + NUMBER_ROOM ≤ TEXT_ROOM }
        ensures text { self.new ≡ self.old ++ signed_decimal number }
        ensures length { length self.new ≤ length self.old + NUMBER_ROOM }
    {
        if number < 0 {
            self.push_byte(b'-');
            push_five_digits(&mut self.bytes, (-number) as u32);
        } else {
            push_five_digits(&mut self.bytes, number as u32);
        }
    }

    /// Puts a decimal after the text: a whole number of units of 10^-places.
    pub fn push_fixed(&mut self, number: i64, places: usize)
        requires room { length self.old + NUMBER_ROOM ≤ TEXT_ROOM }
        requires places { places ≤ 18 }
        ensures text { self.new ≡ self.old ++ fixed_text number places }
        ensures length { length self.new ≤ length self.old + NUMBER_ROOM }
    {
        let mut digits = [0; NUMBER_ROOM];
        let len = print_fixed(number, places, &mut digits);
        self.push(&digits[..len]);
    }
}
