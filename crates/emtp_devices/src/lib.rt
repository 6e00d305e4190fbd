//! The devices of the control: the supplemental cards with the codes 51 to 66.
//!
//! Over a step a device takes the signed sum of its inputs to its output, by one equation a code; some look back on the
//! inputs and the output of earlier steps. The equations are this project's own. The crate stands on `emtp_fix`,
//! `emtp_case` and `emtp_hist`; the control's step stands on it.
//!
//! ```text
//! let mut devices = Devices::open(alloc, &case)?;
//! let y = devices.step(extra, n, &values)?;    // at the device's turn in step n: its output, from what names read there
//! ```
#![tactic(auto)]

mod devices;
mod effective;
mod held;
mod inputs;
mod laws;
mod next;
mod output;
mod table;

pub use devices::Devices;
pub use laws::{
    counter_keeps, delay_looks_back, extreme_is_reached, gates_share_the_input, holds_its_value,
    no_delay, peak_never_falls, steady_input_has_no_derivative, table_meets_its_points,
};
