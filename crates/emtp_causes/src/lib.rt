//! What a refusal means, in words: for the person who wrote the cards.
//!
//! A note names the line, the column and the reason of the first card that is refused. [`put_refusal`] writes what helps to
//! mend it: the card below the names of its fields, a mark under the column with the cause in words, as what kind of card the
//! line was read, and where the sections before it ended. A line that was meant otherwise (a card of ATP that isn't read here,
//! `blank` in small letters, a comment without its blank) is told as such. [`put_kinds`] and [`put_section`] write as what lines
//! are read, by the names of [`kind_name`]; [`card_legend`] names all fields of a card and [`field_name`] one; [`put_misfit`] writes why words are no
//! command.
//!
//! The crate stands on the lines of `emtp_card`, on the types of cards of `emtp_netcards`, on what `emtp_walk` says that each
//! line is read as, and on `emtp_text`.
//!
//! ```text
//! put_refusal(&mut text, &cards, &readings, &bad)?;
//!     TYBUS1--BUS2--BUS3--BUS4--R-----L-----C-----                                   A
//!       SRC   BUS                  1,0  40.0
//!                               ^ a comma; a number has a point
//!     Line 8 is read as a branch card.
//! ```
//!
//! - `texts`: every text
//! - `kinds`: the names of kinds of lines
//! - `kind_text`: as what a line is read
//! - `legend`: the names of a card's fields over their columns
//! - `slip`: what a line was meant as that isn't read here
//! - `cause`: the cause of a refusal
//! - `marked`: a line, and a mark below it
//! - `parts`: a mark below an item of a row or a field of a line
//! - `sections`: where sections end
//! - `refusal`: the whole text of a refusal
//! - `ends`: what an early end means, and why a case has no steady state
//! - `misfit`: why words are no command
//! - `notes`: what a note means, with the line of the file that it names
#![tactic(auto)]

mod cause;
mod ends;
mod kind_text;
mod kinds;
mod legend;
mod marked;
mod misfit;
mod notes;
mod parts;
mod refusal;
mod sections;
mod slip;
mod texts;

pub use ends::{put_end, unsolved};
pub use kind_text::{put_kind, put_kinds, put_section};
pub use kinds::kind_name;
pub use legend::{card_legend, field_name};
pub use marked::put_shown;
pub use misfit::put_misfit;
pub use notes::{
    ended_name, ended_step, is_range_of_run, item_of, number_in, put_differs, put_ended, put_row,
    put_unsolved, unsolved_reason,
};
pub use parts::{put_field, put_item};
pub use refusal::{put_refusal, put_size};
