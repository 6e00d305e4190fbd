//! One step of the control (TACS): its sources, formulas, devices and blocks, each in its turn.
//!
//! First come the variables that every case has, then the sources, the supplemental cards 99, the blocks all together, and
//! the supplemental cards 88 and 98. A name reads its value of this step where it was computed before, else that of the
//! last record: there is one list of values, written in place. The blocks are one system over a kept factor of its own,
//! redone only where a limiter moved. The order is this project's own, after the EMTP's TACS (Theory Book in outline). The
//! crate stands on blocks, devices, expressions, waveforms and the kept factor; the run of a case stands on it. After
//! `open` no call takes memory.
//!
//! ```text
//! let mut tacs = Tacs::open(alloc, &case)?;
//! tacs.step(voltages, currents, closed, &mut steps)?;     // by the network's numbers of the same step
//! let values = tacs.values();                             // by variable, in nano
//! ```
#![tactic(auto)]

mod block_system;
mod extras;
mod fault;
mod formula;
mod laws;
mod measured;
mod sources;
mod standing;
mod tacs;
mod variables;

pub use fault::TacsFault;
pub use laws::{
    later_cards_read_what_was_written, no_cards_change_nothing, standing_variables_are_present,
    ticks_are_blocks_and_redone, unmoved_redoes_nothing,
};
pub use tacs::Tacs;
