//! Gauss's elimination in whole numbers: from the first row on, without exchange of rows, each product and quotient
//! rounded to the nearest whole number.
//!
//! A matrix comes row by row ([`Rows`]). [`eliminate_plain`] solves one system from its first row. [`SparseRows`] keeps
//! finished rows with their ratios, of each the numbers that aren't 0 side by side; [`eliminate_row`] finishes the next
//! one by them and counts it, at work between the row's first number and its last one alone, and [`SparseRows::solve`]
//! solves for one right side after another. A [`WorkRow`] is written over zeros and knows between which columns, so that
//! [`eliminate_work_row`] doesn't look for them. It stands on `emtp_fix`.
//!
//! ```text
//! 1 0 0     100 A                                        100 V
//! -1 2 -1   0 A      eliminate_plain(alloc, &rows, ..)    60 V
//! 0 -1 3    0 A                                           20 V
//! ```
#![tactic(auto)]

mod arithmetic;
mod clearing;
mod extent;
mod fault;
mod finishing;
mod laws;
mod limit;
mod plain;
mod row;
mod row_words;
mod rows;
mod sparse;
mod storing;
mod substitution;
mod work_row;

pub use fault::{PlainFault, RowCause, RowFault, SolveFault};
pub use laws::{elimination_is_odd, finished_rows_stay, row_fault_ends_systems};
pub use limit::{LARGEST_WORK, MOST_ROWS};
pub use plain::eliminate_plain;
pub use rows::Rows;
pub use sparse::{SparseRows, eliminate_row};
pub use work_row::{WorkRow, eliminate_work_row};
