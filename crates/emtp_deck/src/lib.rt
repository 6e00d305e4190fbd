//! The deck: the case that the lines of a file give, or the one card that is refused.
//!
//! The cards are read first, line by line (`emtp_walk`); the first line with a fault of form decides. Then names are
//! numbered and the cards of the control judged (`emtp_sense`), and those of the network are judged here, again in the
//! order of lines, while the records of the case are filled. The crate stands on these two, on the lines of `emtp_card`,
//! the cards of `emtp_netcards` and `emtp_taccards`, and the records of `emtp_case`.
//!
//! ```text
//! let cards = Cards::split(alloc, &bytes)?;
//! let case = read(alloc, &cards)?;           // or Refused::Bad(line, column, reason)
//! ```
#![tactic(auto)]

mod asked;
mod branches;
mod channels;
mod control_filling;
mod copies;
mod filling;
mod laws;
mod outputs;
mod reading;
mod samples;
mod sources;
mod switches;

pub use asked::Asked;
pub use branches::Counts;
pub use copies::{LineNumbers, ValuesFrom, first_of_kind};
pub use laws::{blanks_at_ends_do_not_matter, comments_do_not_matter, returns_do_not_matter};
pub use reading::read;
