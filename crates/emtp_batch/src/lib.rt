//! The runs of a case under each row of a table of switch times.
//!
//! [`read_times`] reads the table: a row a line, a closing and an opening time for each time switch. [`batch`] runs the
//! case under each row from rest on, and reports its end and the peak of each channel; [`batch_summary`] writes the reports as
//! text. The crate stands on `emtp_card` for lines and numbers, on `emtp_machine` for the run, on `emtp_text` for the
//! text, and on `emtp_case`; `emtp_run` calls it for the words `batch CASE TIMES`.
//!
//! ```text
//! let rows = read_times(alloc, b"-1. 2.E-4\n* -\n", &case)?;
//! let reports = batch(alloc, &mut case, &rows)?;
//! let text = batch_summary(alloc, &reports)?;
//! ```
#![tactic(auto)]

mod items;
mod laws;
mod report;
mod row;
mod summary;
mod table;

pub use laws::{
    each_row_stands_alone, greatest_peak_is_of_a_row, own_times_give_the_case, peaks_are_in_range,
    stars_keep_the_cards,
};
pub use report::{RowReport, batch};
pub use summary::batch_summary;
pub use table::{MAX_ROWS, Row, TimesFault, read_times};
