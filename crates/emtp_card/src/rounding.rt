//! The magnitude of a spelled number in a unit, whatever the number of its digits.
//!
//! Dividing by a power of ten cuts digits off, and the first one that is cut decides how the rest is
//! rounded. So no number above 10^37 is ever made, and the work grows with the digits.

ghost use Rattle.std.specs.Prelude.{◌≡◌, ◌+◌, ◌*◌, ◌^◌, ◌<◌, ◌≤◌, ◌≤ℤ◌, ◌+ℤ◌, pos, unsigned_abs, length, take, slice_index};
ghost use Rattle.std.specs.Option.{SomeIff};
ghost use Rattle.emtp_fix.specs.Rounding.{near_abs};
ghost use Rattle.emtp_card.specs.Decimal.{number_of, with_digits};
ghost use Rattle.emtp_card.specs.held.Numeral.{meaning_of, AreDigits, IsNumeral};
ghost use Rattle.emtp_card.specs.held.Rounding.{digits_in, magnitude_in};

use crate::numeral::Numeral;

/// The greatest magnitude that is read, in any unit.
pub(crate) const MOST: u128 = 1_000_000_000_000_000_000_000_000_000_000_000_000;

impl Numeral<'_> {
    /// The magnitude in a unit of 10^-scale, rounded to a whole number, a half upwards. There is
    /// none where it is above `MOST`.
    pub(crate) fn magnitude(&self, scale: i32) -> Option<u128>
        requires parts { IsNumeral self.now }
        requires low { pos 0 ≤ℤ scale }
        requires high { scale ≤ℤ pos 18 }
        ensures { SomeIff result (magnitude_in scale (meaning_of self.now) ≤ MOST) (magnitude_in scale (meaning_of self.now)) }
    {
        let places = self.places(scale);
        if places >= 0 {
            self.shifted(places as u32)
        } else {
            self.rounded(places.unsigned_abs() as usize)
        }
    }

    /// The power of ten by which the digits, read as a whole number, are to be multiplied.
    fn places(&self, scale: i32) -> i128
        requires parts { IsNumeral self.now }
        requires low { pos 0 ≤ℤ scale }
        requires high { scale ≤ℤ pos 18 }
        ensures value { result ≡ (meaning_of self.now).power +ℤ scale }
        ensures few { result ≤ℤ pos 1017 }
        ensures far { unsigned_abs result < 2 ^ 64 }
    {
        i128::from(self.exponent + scale) - self.fraction.len() as i128
    }

    /// The digits as a whole number, times a power of ten.
    fn shifted(&self, places: u32) -> Option<u128>
        requires parts { IsNumeral self.now }
        ensures { SomeIff result (number_of (digits_in self.now) * 10 ^ places ≤ MOST)
            (number_of (digits_in self.now) * 10 ^ places) }
    {
        match self.front(self.len()) {
            Some(number) => times_power_of_ten(number, places),
            None => None,
        }
    }

    /// The digits as a whole number, divided by a power of ten and rounded.
    fn rounded(&self, cut: usize) -> Option<u128>
        requires parts { IsNumeral self.now }
        requires cut { 1 ≤ cut }
        ensures { SomeIff result (near_abs (number_of (digits_in self.now)) (10 ^ cut) ≤ MOST)
            (near_abs (number_of (digits_in self.now)) (10 ^ cut)) }
    {
        let len = self.len();
        if cut > len {
            return Some(0);
        }
        let Some(front) = self.front(len - cut) else {
            return None;
        };
        if self.digit(len - cut) < b'5' {
            Some(front)
        } else if front < MOST {
            Some(front + 1)
        } else {
            None
        }
    }

    /// How many digits there are.
    fn len(&self) -> usize
        ensures { result ≡ length (digits_in self.now) }
    {
        self.whole.len() + self.fraction.len()
    }

    /// The number that the first digits write, where it is at most `MOST`.
    fn front(&self, count: usize) -> Option<u128>
        requires parts { IsNumeral self.now }
        requires count { count ≤ length (digits_in self.now) }
        ensures { SomeIff result (number_of (take count (digits_in self.now)) ≤ MOST)
            (number_of (take count (digits_in self.now))) }
    {
        if count <= self.whole.len() {
            return append_digits(0, &self.whole[..count]);
        }
        match append_digits(0, self.whole) {
            Some(start) => append_digits(start, &self.fraction[..count - self.whole.len()]),
            None => None,
        }
    }

    fn digit(&self, at: usize) -> u8
        requires { at < length (digits_in self.now) }
        ensures { result ≡ slice_index (digits_in self.now) at }
    {
        if at < self.whole.len() {
            self.whole[at]
        } else {
            self.fraction[at - self.whole.len()]
        }
    }
}

/// A number with digits written after it, where the whole is at most `MOST`.
pub(crate) fn append_digits(start: u128, digits: &[u8]) -> Option<u128>
    requires start { start ≤ MOST }
    requires digits { AreDigits digits.now }
    ensures { SomeIff result (with_digits start digits.now ≤ MOST) (with_digits start digits.now) }
{
    let mut number = start;
    for digit in digits {
        number = 10 * number + u128::from(digit - b'0');
        if number > MOST {
            return None;
        }
    }
    Some(number)
}

/// A number times a power of ten, where it is at most `MOST`.
fn times_power_of_ten(number: u128, places: u32) -> Option<u128>
    requires { number ≤ MOST }
    ensures { SomeIff result (number * 10 ^ places ≤ MOST) (number * 10 ^ places) }
{
    let mut product = number;
    for _ in 0..places {
        product *= 10;
        if product > MOST {
            return None;
        }
    }
    Some(product)
}
