//! The COMTRADE record of a run (IEEE C37.111-1999, ASCII form): configuration and data.
//!
//! [`scales`] gives each analog channel its multiplier, [`write_cfg`] and [`write_dat`] write the two files. Both
//! stream through a buffer of fixed size and take no memory; [`push`] and [`push_number`] put a piece after such a text, which
//! can't fail, where those of `emtp_text` may lack memory. It stands on the texts of `emtp_case` for the channels'
//! names, on `emtp_machine` for the samples, on `emtp_io` for the files and on `emtp_fix` for rounding and decimals.
//!
//! ```text
//! let multipliers = scales(case, samples);
//! cabinet.create(Output::Cfg, "out.cfg")?;
//! write_cfg(cabinet, case, samples, &multipliers)?;
//! ```
#![tactic(auto)]

mod configuration;
mod data;
mod limit;
mod multiplier;
mod multipliers;
mod stream;
mod text;

pub use configuration::{analog_count, sample_time, status_count, unit_at, write_cfg};
pub use data::{raw_value, write_dat};
pub use limit::LARGEST_MULTIPLIER;
pub use multipliers::{is_status_at, scales};
pub use text::{NUMBER_ROOM, push, push_number};
