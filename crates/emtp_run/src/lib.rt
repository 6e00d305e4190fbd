//! The top call of the simulator: words and a cabinet of files in, outputs and a status out.
//!
//! [`emtp`] goes by one table of commands (`specs/Command.antt`): `run` steps a case and writes its COMTRADE record and a
//! note, `trial` runs a case of its own, `batch` runs a case under each row of a table of switch times, `audit` lays a
//! record beside a case, `phasor` and `scan` solve its steady state. All files of a command are read before any is judged.
//! It stands on `emtp_card` and `emtp_deck` for the cards, on `emtp_machine` and `emtp_comtrade` for runs and records, on the
//! crates of the tools, and on `emtp_io` for the files. It says nothing of rows or cards itself.
//!
//! ```text
//! let words = [run, divider.case, divider.cfg, divider.dat];
//! emtp(alloc, &words, &mut DiskCabinet::new(rt)) == Status::Done
//! ```
#![tactic(auto)]

mod audit;
mod batch;
mod note;
mod outputs;
mod reading;
mod report;
mod run;
mod status;
mod summary;
mod text;
mod trial;
mod words;

pub use note::{bad_card, usage};
pub use outputs::{leave_summary, refuse};
pub use reading::{InputFile, read_input, text_file};
pub use run::emtp;
pub use status::Status;
pub use trial::trial_deck;
pub use words::{BatchWords, RunWords, ScanWords, Words, is_name, read_words};
