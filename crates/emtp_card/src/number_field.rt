//! The number fields of cards: where each one stands, its unit, and what its values may be.

ghost use Rattle.std.specs.Prelude.{◌≡◌, IfOk, IfSome};
ghost use Rattle.emtp_card.specs.Fault.{filled_with, required};
ghost use Rattle.emtp_card.specs.Number.{held_field, number_field};
ghost use Rattle.emtp_card.specs.NumberField.{held_of, held_or, number_of, number_or, required_of};
ghost use Rattle.emtp_card.specs.held.Number.{IsWithin};
ghost use Rattle.emtp_card.specs.held.NumberField.{IsNumberField};

use crate::fault::{Fault, in_column};
use crate::number::{field_held, field_number};
use crate::reason::Why;

/// A number field of a card. Each field of a card is one constant, which its reader and its definition cite.
#[derive(Clone, Copy, Debug, PartialEq, Eq)]
pub struct NumberField {
    /// Its first column, from 1.
    pub first: u32,
    /// Its last column, to 80.
    pub last: u32,
    /// It is read in a unit of 10^-scale of the one that the card is written in: from 0 to 18.
    pub scale: i32,
    /// The least value, in the unit that it is read in.
    pub low: i64,
    /// The greatest value.
    pub high: i64,
}

impl NumberField {
    /// The number on a line as [`field_number`] reads it, or its fault in the first column; none where the field is blank.
    pub fn number(&self, line: &[u8]) -> Result<Option<i64>, Fault>
        requires { IsNumberField self.now }
        ensures value { result ≡ number_of self.now line.now }
        ensures range { IfOk result (λ number. IfSome number (IsWithin self.now.low self.now.high)) }
    {
        in_column(self.first, self.read(line))
    }

    /// The same, where a blank means `blank`.
    pub fn number_or(&self, blank: i64, line: &[u8]) -> Result<i64, Fault>
        requires field { IsNumberField self.now }
        requires blank { IsWithin self.now.low self.now.high blank }
        ensures value { result ≡ number_or self.now blank line.now }
        ensures range { IfOk result (IsWithin self.now.low self.now.high) }
    {
        in_column(self.first, self.read_or(blank, line))
    }

    /// The same, where it can't be blank, which is `OutOfUnitRange`.
    pub fn required(&self, line: &[u8]) -> Result<i64, Fault>
        requires { IsNumberField self.now }
        ensures value { result ≡ required_of self.now line.now }
        ensures range { IfOk result (IsWithin self.now.low self.now.high) }
    {
        in_column(self.first, self.read_required(line))
    }

    /// The number on a line as [`field_held`] reads it: the nearer end of the range where the value lies outside.
    pub fn held(&self, line: &[u8]) -> Result<Option<i64>, Fault>
        requires { IsNumberField self.now }
        ensures value { result ≡ held_of self.now line.now }
        ensures range { IfOk result (λ number. IfSome number (IsWithin self.now.low self.now.high)) }
    {
        in_column(self.first, self.read_held(line))
    }

    /// The same, where a blank means `blank`.
    pub fn held_or(&self, blank: i64, line: &[u8]) -> Result<i64, Fault>
        requires field { IsNumberField self.now }
        requires blank { IsWithin self.now.low self.now.high blank }
        ensures value { result ≡ held_or self.now blank line.now }
        ensures range { IfOk result (IsWithin self.now.low self.now.high) }
    {
        in_column(self.first, self.read_held_or(blank, line))
    }

    fn read(&self, line: &[u8]) -> Result<Option<i64>, Why>
        requires { IsNumberField self.now }
        ensures value { result ≡ number_field line.now self.now.first self.now.last self.now.scale self.now.low self.now.high }
        ensures range { IfOk result (λ number. IfSome number (IsWithin self.now.low self.now.high)) }
    {
        let (first, last) = (self.first as usize, self.last as usize);
        field_number(line, first, last, self.scale, self.low, self.high)
    }

    fn read_or(&self, blank: i64, line: &[u8]) -> Result<i64, Why>
        requires field { IsNumberField self.now }
        requires blank { IsWithin self.now.low self.now.high blank }
        ensures value { result ≡ filled_with blank
            (number_field line.now self.now.first self.now.last self.now.scale self.now.low self.now.high) }
        ensures range { IfOk result (IsWithin self.now.low self.now.high) }
    {
        match self.read(line) {
            Ok(Some(value)) => Ok(value),
            Ok(None) => Ok(blank),
            Err(why) => Err(why),
        }
    }

    fn read_required(&self, line: &[u8]) -> Result<i64, Why>
        requires { IsNumberField self.now }
        ensures value { result ≡ required
            (number_field line.now self.now.first self.now.last self.now.scale self.now.low self.now.high) }
        ensures range { IfOk result (IsWithin self.now.low self.now.high) }
    {
        match self.read(line) {
            Ok(Some(value)) => Ok(value),
            Ok(None) => Err(Why::OutOfUnitRange),
            Err(why) => Err(why),
        }
    }

    fn read_held(&self, line: &[u8]) -> Result<Option<i64>, Why>
        requires { IsNumberField self.now }
        ensures value { result ≡ held_field line.now self.now.first self.now.last self.now.scale self.now.low self.now.high }
        ensures range { IfOk result (λ number. IfSome number (IsWithin self.now.low self.now.high)) }
    {
        let (first, last) = (self.first as usize, self.last as usize);
        field_held(line, first, last, self.scale, self.low, self.high)
    }

    fn read_held_or(&self, blank: i64, line: &[u8]) -> Result<i64, Why>
        requires field { IsNumberField self.now }
        requires blank { IsWithin self.now.low self.now.high blank }
        ensures value { result ≡ filled_with blank
            (held_field line.now self.now.first self.now.last self.now.scale self.now.low self.now.high) }
        ensures range { IfOk result (IsWithin self.now.low self.now.high) }
    {
        match self.read_held(line) {
            Ok(Some(value)) => Ok(value),
            Ok(None) => Ok(blank),
            Err(why) => Err(why),
        }
    }
}
