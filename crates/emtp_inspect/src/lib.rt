//! The command `show CASE`: what was read of a case.
//!
//! [`inspect`] reads the file of a case, and leaves the listing of its records (`emtp_listing`) with what its cards say
//! besides, and the warnings in front of it (`emtp_warnings`), or how many warnings there are; or it tells which card is
//! refused, as what it was read, and the records before it; or what the words of a note or of a command line mean, or all
//! that a run came to (`emtp_causes`). It stands on `emtp_deck` for cases, on `emtp_walk` for the place of a card, on
//! `emtp_netcards` and `emtp_taccards` for cards, on `emtp_acting` for what a branch acts as, on `emtp_io` for the files, and on
//! `emtp_run` for the reading of a file, for the outputs and for their statuses and notes.
//!
//! ```text
//! let words = [breaker.case];
//! inspect(alloc, &words, &mut DiskCabinet::new(rt)) == Status::Done
//! ```
//!
//! - `words`: what the words ask for
//! - `showing`: the file that is read, and the output that is made
//! - `telling`: the text that the bytes of a file give
//! - `each_card`, `run_cards`, `copy_cards`, `channel_cards`: what the cards say that no case keeps
//! - `explaining`: what words of a note mean
//! - `after_run`: what the status of a run means, by its note and its files
//! - `case_again`: what the case of a run adds to that
//! - `growing`: which series branch makes a current grow that nothing drives
#![tactic(auto)]

mod after_run;
mod case_again;
mod channel_cards;
mod copy_cards;
mod each_card;
mod explaining;
mod growing;
mod run_cards;
mod showing;
mod telling;
mod words;

pub use showing::{Teller, inspect, refuse_words, show};
pub use telling::{Told, tell};
pub use words::Wanted;
