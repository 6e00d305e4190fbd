//! The walk over the lines of a case: the cards, section by section, or the first card that has a fault of form.
//!
//! Each line has its place, which says what is due there: a section, a point of a characteristic, the second phase of a
//! line, the denominator of a block. A place and a line give a card and the next place, or the least fault of the line.
//! Names aren't resolved here, and what a card means among the others is judged by the reader of the deck (`emtp_deck`).
//! The crate stands on the lines of `emtp_card`, the card readers of `emtp_netcards` and `emtp_taccards`, and the records
//! of `emtp_case`.
//!
//! ```text
//! let cards = Cards::split(alloc, &bytes)?;
//! let (deck, place) = walk(alloc, &cards)?;  // or Refused::Bad(line, column, reason)
//! let readings = line_readings(alloc, &cards)?;  // as what each line is read, up to a refused one
//! ```
//!
//! - `deck`, `control_cards`: the cards of a case, and the places where a line may stand
//! - `steps`, `section_steps`, `branch_steps`: the lines in front of the control and behind it
//! - `control_steps`, `coefficients`, `device_steps`: the lines of the control
//! - `kind`, `readings`: as what a line is read
//! - `laws`: what holds of every walk
#![tactic(auto)]

mod branch_steps;
mod coefficients;
mod control_cards;
mod control_steps;
mod deck;
mod device_steps;
mod kind;
mod laws;
mod readings;
mod section_steps;
mod steps;

pub use control_cards::{
    BlockEntry, ControlCards, ControlPlace, DeviceGroup, ExtraEntry, TacsOutputEntry,
};
pub use deck::{BranchEntry, Deck, Group, OutputEntry, Place};
pub use kind::{Kind, LineReading};
pub use laws::{
    cards_stand_in_order, readings_tell_the_cards, walk_skips_blanks_at_ends, walk_skips_comments,
};
pub use readings::{line_readings, read_at};
pub use steps::walk;
