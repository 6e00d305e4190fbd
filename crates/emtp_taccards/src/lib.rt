//! The cards of the control: each call reads one card, and answers its record or the least fault that the card gives.
//!
//! Each field of a card is read once, as in emtp_netcards and by its words: what was read is joined side by side, and a
//! rule over fields is judged where all of them were read, alike in the code and in its definition in `specs/`; so a
//! card's record and its least fault are one value. Parts that the control's sources and outputs share with those of the
//! network are read by that crate's calls. Names aren't resolved, and what needs another card is judged by the reader of
//! the deck. The cards are those of the EMTP's TACS; the columns are this project's own.
//!
//! The crate stands on the fields and faults of `emtp_card`, the words and the shared parts of `emtp_netcards`, the
//! expressions of `emtp_expr`, the records of `emtp_case` and the units of `emtp_fix`.
//!
//! ```text
//! let line = Line { number: 7, bytes: b"98DBL     = 2.0*MID + 1.0" };
//! // extra(alloc, line) is the formula of the variable DBL, of the group that is computed after the blocks
//! ```
#![tactic(auto)]

mod block_card;
mod device_card;
mod extra_card;
mod formula_card;
mod group;
mod inputs;
mod polynomial_card;
mod tacs_output_card;
mod tacs_source_card;

pub use block_card::{BlockCard, block};
pub use device_card::DeviceCard;
pub use extra_card::{ExtraCard, extra};
pub use formula_card::FormulaCard;
pub use polynomial_card::polynomial;
pub use tacs_output_card::tacs_outputs;
pub use tacs_source_card::tacs_source;
