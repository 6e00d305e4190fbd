//! The series branches of a network: a resistance, an inductance and a capacitance in one branch.
//!
//! Over one step each is its companion: a conductance, the same in all steps, beside a current source that stands for
//! the past (Dommel 1969). The crate stands on `emtp_fix` and `emtp_case`; the network's step stands on it.
//!
//! ```text
//! let mut lumps = Lumps::open(alloc, &case)?;
//! let g = lumps.conductance(b);            // into the nodal matrix
//! let j = lumps.history_current(b);        // into the right side
//! let i = lumps.accept(b, v, w)?;          // after the solution: the branch current
//! ```
#![tactic(auto)]

mod companion;
mod held;
mod laws;
mod lumps;
mod overflowing;
mod step;

pub use companion::Companion;
pub use laws::{resistor_forgets, rest_stays};
pub use lumps::Lumps;
