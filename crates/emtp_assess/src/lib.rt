//! What a run is worth: what is told of the run of a case.
//!
//! [`assess`] reads the file of a case, runs the case, and leaves the note of the run with what it is worth: which branches act as
//! others, and how far the points of arresters and reactors lay off their characteristics; or with all digits of its samples,
//! which a record holds in 16 bits. The text is made of the bytes of the file alone (`specs/Telling.antt`). It stands on
//! `emtp_machine` for the run, on `emtp_worth` for points and characteristics, on `emtp_warnings` for the warnings of branches, on
//! `emtp_run` for the case of a file, for notes, outputs and statuses, on `emtp_inspect` for the reading of a file and the telling
//! of it, on `emtp_text` for the text and on `emtp_io` for the files.
//!
//! ```text
//! let words = [--samples, breaker.case];
//! assess(alloc, &words, &mut DiskCabinet::new(rt)) == Status::Done
//! ```
//!
//! - `words`: what the words ask for
//! - `assessing`: the file that is read, and the output that is made
//! - `telling`: the text that the bytes of a file give
//! - `worth`, `stepped`: a run that is judged step by step
//! - `run_note`, `sample_lines`, `branch_warnings`, `judged_lines`: the note of the run, the lines of its samples, of branches that
//!   act as others, and of arresters and reactors
//! - `range_line`, `fronts`: the number that was nearest to its range's end where a step left it; how a line names a branch
//! - `texts`: the words of what is told
#![tactic(auto)]

mod assessing;
mod branch_warnings;
mod fronts;
mod judged_lines;
mod range_line;
mod run_note;
mod sample_lines;
mod stepped;
mod telling;
mod texts;
mod words;
mod worth;

pub use assessing::assess;
pub use words::Question;
