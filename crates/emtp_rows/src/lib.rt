//! The rows of a network's nodal matrix.
//!
//! [`NetRows`] gives the matrix of a case, of the conductances of its branches and of the kinds of its rows to the
//! elimination, row by row. A row of the matrix says that the currents leaving a node, or a group of nodes that closed
//! switches join, add up; or that a voltage is known or is that of another node (Dommel 1969). Each row holds the terms of
//! its node alone, so a row costs its length and the branches there. Besides it is known from which row on something
//! changed. The crate stands on `emtp_elim`, `emtp_case` and `emtp_fix`; the network's step stands on it.
//!
//! ```text
//! let mut rows = NetRows::open(alloc, &case, &order)?;
//! rows.set_conductance(b, g);              // a segment changed
//! rows.set_kinds(&kinds);                  // a switch closed
//! let from = rows.take_touched();          // rows before it have stayed
//! kept.changed_from(&rows, from)
//! ```
#![tactic(auto)]

mod fill;
mod net_rows;
mod term;
mod terms;
mod touched;

pub use net_rows::NetRows;
pub use term::{Amount, Term};
pub use terms::{ends_of_branches, phase_node};
