//! Past values of a travelling wave or of a delayed control signal.
//!
//! A line needs its end quantities of one travel time ago, and a delay or an average in the
//! control system needs its input of some steps ago. A [`History`] keeps the last values that were
//! pushed, as many as its depth, and answers the one that was pushed a given number of pushes
//! before the last. It takes its memory when it is opened, and none after that.
//!
//! It stands on the ring of the crate `circular_buffer`. Contracts see it as its depth and the
//! values that it holds, newest first, and say what it remembers of the list of all pushes.
//!
//! ```text
//! let mut current = History::open(alloc, 2)?;
//! current.push(7);
//! current.push(9);
//! // back(0) is 9, back(1) is 7
//! ```

#![tactic(auto)]

mod history;

pub use history::History;
