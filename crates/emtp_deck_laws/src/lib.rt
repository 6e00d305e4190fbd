//! What holds of every deck as a whole: which fault is answered, what doesn't matter for it, which cards are the same, and
//! that an accepted deck gives a case.
//!
//! Each law is a function that does nothing: its clauses are proved, and say what holds of every file. No program calls
//! them. They are stated over the lines of a file, as `emtp_deck` reads them, and over the cards that `emtp_walk` finds in
//! them, so this crate stands above both. To use a law in a proof, call it:
//!
//! ```text
//! the_fault_is_the_least();
//! // now of every file whose cards can all be read, the refusal is known to be the least of all faults of its cards
//! ```
#![tactic(auto)]

mod cards;
mod cases;
mod faults;

pub use cards::wide_series_card_has_the_narrow_values;
pub use cases::{
    accepted_decks_are_cases, decks_of_one_listing_are_one_case,
    other_times_give_the_case_with_them,
};
pub use faults::{
    a_switch_card_is_refused_for_its_least_fault, lines_behind_a_fault_do_not_matter,
    the_fault_is_the_least, the_first_line_that_cannot_be_read_is_refused,
};
