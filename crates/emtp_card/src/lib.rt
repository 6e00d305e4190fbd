//! The lowest layer of the card reader: lines, fields and numbers of fixed-column cards.
//!
//! A case is a text of lines ([`Cards`], [`Line`]). A line is a comment, ends a section, or is a card
//! whose bytes are judged first ([`line_fault`]) and whose fields are then read from their columns:
//! numbers ([`field_number`], [`field_held`]), whole numbers ([`field_whole`]) and names
//! ([`field_name`]). Each call has one definition in `specs/`, and answers exactly what it says: the
//! value, or the reason ([`Why`]). A number is read exactly whatever its length, and rounded to the
//! nearest whole number of its unit. Only [`Cards::split`] takes memory, and no line is copied.
//!
//! The crate stands on the rounding of `emtp_fix` and the names of `emtp_case`.
//!
//! ```text
//! let card = b"  SRC   MID                  1.0";
//! // field_name(card, 3) is SRC; field_number(card, 27, 32, 6, 0, 10^15) is 1,000,000 micro-ohm
//! ```

#![tactic(auto)]

mod cards;
mod fault;
mod field;
mod lines;
mod name;
mod number;
mod number_field;
mod numeral;
mod reason;
mod rounding;
mod whole;

pub use cards::{Cards, MAX_BYTES, MAX_LINES, next_line};
pub use fault::{Fault, fault_at, in_column, judge, judge_due, least};
pub use field::{byte_at, columns, field_text, trim};
pub use lines::{Line, comment, ends_section, line_fault};
pub use name::field_name;
pub use number::{field_held, field_number, read_held, read_number};
pub use number_field::NumberField;
pub use reason::{Bad, Refused, Why};
pub use whole::{field_whole, read_digits, read_whole};
