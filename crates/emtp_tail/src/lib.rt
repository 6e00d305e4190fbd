//! A factor that is kept from one matrix to the next, and redone from the first changed row on.
//!
//! [`Kept::update`] takes a matrix and redoes the rows from the first one that differs from the matrix before;
//! [`Kept::solve`] solves for a right side. The answers are those of full elimination of the matrix as it is now, with its
//! rounding and its faults, whatever came before. It stands on `emtp_elim` and `emtp_fix`.
//!
//! ```text
//! let mut kept = Kept::open(alloc, &rows)?;      // takes all its memory
//! kept.update(&rows, &mut steps)                 // Ok(0): every row
//! kept.update(&rows, &mut steps)                 // Ok(3): none of three
//! kept.solve(&mut right, &mut x)
//! ```
#![tactic(auto)]

mod kept;
mod laws;
mod runs;

pub use kept::Kept;
pub use laws::first_change_is_least;
pub use runs::{Call, Reply, Unknowns, answer_all};
