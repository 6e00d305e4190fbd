//! The calls of the simulator by a host that has no files of its own, as a page of a browser or a shell of another system.
//!
//! [`emtp_page_call`] does what the words of a command line ask for, [`emtp_page_show`] what the words behind `show` do, and
//! [`emtp_page_judge`] what those behind `judge` do. The host hands over the words, the files that they name, room for each output,
//! and room for an [`Answer`]; the call is the very `emtp` of `emtp_run`, `inspect` of `emtp_inspect`, or `assess` of `emtp_assess`,
//! over a cabinet of `emtp_io` in memory that holds these files. The lines of `emtp_card` part the words.
//!
//! ```text
//! emtp_page_call("run\ncase\ncfg\ndat\n", "case\n", cards, "", "", room, cfg, dat, note, summary, &mut answer);
//! // answer.status is 0, and answer.dat.length bytes of dat are the samples of the record
//! ```
//!
//! - `exports`: what a host calls
//! - `given`: the words and the files that it hands over
//! - `over_memory`: a call over a cabinet in memory
//! - `answer`: what a host is told
#![tactic(auto)]

mod answer;
mod exports;
mod given;
mod over_memory;

pub use answer::{Answer, Left};
