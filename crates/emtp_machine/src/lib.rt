//! The run of a case: its records one after the other, its samples, and its end if it stops early.
//!
//! [`Machine`] steps the network and its control from rest on. Its history is a definition of the case alone. It takes all
//! its memory at opening. It stands on `emtp_net` for the network's step, on `emtp_tacs` for the control's, on `emtp_case`
//! and on `emtp_fix`; the record is written from its [`Samples`].
//!
//! ```text
//! let mut machine = Machine::open(alloc, &case)?;
//! let end = machine.run(&mut steps);
//! machine.samples().value(0, 0) == 0
//! ```
#![tactic(auto)]

mod channels;
mod controlled;
mod end;
mod laws;
mod machine;
mod samples;
mod whole_run;

pub use controlled::node_name;
pub use end::{Cause, End, put_cause};
pub use laws::{
    each_record_balances, end_is_the_first_refusal, records_are_a_chain, records_are_in_range,
    samples_are_in_range, samples_balance,
};
pub use machine::Machine;
pub use samples::Samples;
