//! The pseudo-nonlinear branches of a network: resistors and reactors whose characteristic is a chain of straight
//! segments, as an arrester and a transformer that saturates.
//!
//! Within a step such a branch stays on one segment, so over the step it is a conductance beside a history current, as a
//! linear branch is; what the step ends with decides the segment of the next one (EMTP Theory Book in outline, the rule of
//! change is this project's own). The crate stands on `emtp_fix` and `emtp_case`; the network's step stands on it.
//!
//! ```text
//! let mut pseudos = Pseudos::open(alloc, &case)?;
//! let g = pseudos.conductance(b);          // into the nodal matrix: it is another one where the segment changed
//! let j = pseudos.history_current(b);      // into the right side
//! let i = pseudos.accept(b, v, w)?;        // after the solution: the branch current
//! ```
#![tactic(auto)]

mod held;
mod laws;
mod moment;
mod pseudos;
mod segment;
mod step;

pub use laws::{odd_symmetry, one_segment_a_step, rest_stays};
pub use pseudos::Pseudos;
