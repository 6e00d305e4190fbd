//! The names of a deck, and the sense of the cards of its control.
//!
//! Nodes and variables are numbered in the order in which the cards name them first. With all names known, each card of
//! the control is judged among the others, in the order of lines: a variable is defined once, a name has to be that of a
//! variable, a source has to find what it measures, and limits by count hold. The cards of the network are judged by the
//! reader of the deck (`emtp_deck`), which fills the records of the case meanwhile. The crate stands on the cards that
//! `emtp_walk` reads, and on the lines and records of `emtp_card` and `emtp_case`.
//!
//! ```text
//! let names = KnownNames::new(alloc, &deck, &place)?;
//! let bad = control_bad(&names, &deck, &place);  // the first card of the control with a fault, and its least fault
//! ```
#![tactic(auto)]

mod control_sense;
mod limits;
mod names;
mod variables;

pub use control_sense::{control_bad, entry_history_values, find_switch};
pub use limits::too_many;
pub use names::{find_node, node_number};
pub use variables::{KnownNames, find_variable, number_of, unknown_name, variable_number};
