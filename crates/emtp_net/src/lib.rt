//! One step of a network: its node voltages, branch and switch currents, by the nodal method (Dommel 1969).
//!
//! The switches are decided, the rows get the kinds and conductances of the step, the kept factor is redone from the
//! first row that changed, the system is solved, the branches and the switches follow, and each row's residual is judged
//! over the branches. The first fault ends the step. The crate stands on the laws of the branches, on switches, rows and
//! the kept factor; the run of a case stands on it. After `open` no call takes memory.
//!
//! ```text
//! let mut network = Network::open(alloc, &case)?;
//! network.step(tacs, &mut steps)?;          // by the control's values of the record before
//! let volts = network.voltages();           // of the new record, ground first
//! ```
#![tactic(auto)]

mod branches;
mod factor;
mod fault;
mod laws;
mod names;
mod network;
mod nodal_system;
mod residual;
mod right;
mod step_network;
mod sums;
mod voltages;

pub use fault::NetFault;
pub use laws::{residual_within_tolerance, ticks_are_size_and_redone, unchanged_redoes_nothing};
pub use network::Network;
