//! The listing of a case: every record as it was read, a line or some a record, in the units of the cards.
//!
//! What an engineer meant and what was read may differ by a column of a card. [`listing`] writes each record with its
//! line's number, each value by name and with its unit, defaults included. Two cases of the same listing are the same
//! case (law `same_listing_is_same_case`), so it hides nothing. It stands on `emtp_case` for the records and on
//! `emtp_text`, which puts pieces after a text.
//!
//! ```text
//! listing(alloc, &case)?      "line 31, series branch, BUS1=SRC, BUS2=BUS, R=0.5 ohm, L=5 mH, C=0 uF" is one of its lines
//! ```
//!
//! - `sections`: the whole, section by section
//! - `branch`, `switch`, `source`, `control`, `extra`, `channel`: the lines of one kind of record
//! - `expression`: the text of a formula's expression
//! - `piece`: the entries of a line
//! - `history`: how many history values there are
//! - `laws`: what is true of listings
#![tactic(auto)]

mod branch;
mod channel;
mod control;
mod expression;
mod extra;
mod history;
mod laws;
mod piece;
mod sections;
mod source;
mod switch;

pub use laws::{
    counts_are_within_their_limits, decimals_differ, lines_differ, same_listing_is_same_case,
};
pub use sections::listing;
