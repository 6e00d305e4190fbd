//! The travelling-wave lines of a network: single lines, and transposed lines of three phases.
//!
//! Seen from an end each is a conductance beside a current source that stands for the waves which left the two ends one
//! travel time before (Dommel 1969), with the losses lumped at the ends and in the middle (EMTP Theory Book). The crate
//! stands on `emtp_fix`, `emtp_case` and `emtp_hist`; the network's step stands on it.
//!
//! ```text
//! let mut lines = Lines::open(alloc, &case)?;
//! let g = lines.conductance(b);              // into the nodal matrix, at both ends
//! let (from, to) = lines.history_currents(b);    // into the right side
//! let i = lines.accept(b, v, w)?;            // after the solution: the branch current
//! let (from, to) = lines.end_currents(b);    // for the residual
//! ```
#![tactic(auto)]

mod held;
mod held_trio;
mod laws;
mod lines;
mod mode;
mod overflowing;
mod phase_end;
mod phase_states;
mod rest;
mod wave;
mod waves;

pub use laws::{
    arrives_whole, balanced_end, equal_modes_add_up, equal_modes_part, not_before, rest_stays,
    without_loss,
};
pub use lines::Lines;
pub use mode::Mode;
pub use phase_states::PhaseRange;
