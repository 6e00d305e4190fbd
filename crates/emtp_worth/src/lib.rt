//! How far the records of a run are from the circuit at its arresters and reactors: where the points of pseudo-nonlinear
//! branches lie off their characteristics, how often, how far, and whether a peak is false by it; and which number of the last
//! record lies nearest to its range's end.
//!
//! A step has one segment of a characteristic, so a fast wave leaves points beside it. The crate follows a run of any kind
//! ([`Run`]), one record after the other, and stands on `emtp_case` for cases, on `emtp_pseudo` for the points of a segment
//! and on `emtp_fix`. What series branches act as stands in `emtp_acting`.
//!
//! ```text
//! let judged = judge(alloc, &case, &mut machine)?;
//! judged[0].found.greatest < judged[0].found.peak             the record shows a peak that the arrester doesn't have
//! ```
//!
//! - `characteristic`: what a characteristic has at a current, and how far a point lies off it
//! - `found`, `judged`: the points of a branch, and of all branches, one record after the other
//! - `nearest`: the number of a run's last record that lies nearest to its range's end
//! - `run`: a run that is stepped and read
#![tactic(auto)]

mod characteristic;
mod found;
mod judged;
mod nearest;
mod run;

pub use characteristic::SHARE;
pub use found::{Found, Reading};
pub use judged::{Judged, judge, listed, look_all};
pub use nearest::{Number, Reached, nearest_at_end};
pub use run::Run;
