//! What a steady state is made of: the admittances of branches at a frequency, and the cards that are refused.
//!
//! A branch is a symmetrical two-port of complex admittances: a series branch of resistance, inductance and capacitance
//! has its inverse impedance between its ends, a lossless line the admittances of the travelling wave (Dommel 1969). Which
//! cards have none, which frequency a case has and which source a scan goes by is decided here, in an order that is this
//! project's own. The crate stands on `emtp_fix`, `emtp_case` and `emtp_wave`; `emtp_phasor` stands on it.
//!
//! ```text
//! let mut ports = vec![in alloc; NO_PORT; case.parts.branches.len()]?;
//! let freq = judged_ports(&table, &case, None, &mut ports)?;    // micro-hertz, or the refused card; pS of each branch
//! ```
//!
//! - `admittance`: complex admittances, and a branch as a two-port of them
//! - `impedance`: the two-port of a branch at a frequency, or why it has none
//! - `refusal`: why a card is refused, and the least of several lines
//! - `refusals`: the refused source, switch or card of the control, and the first frequency of a source
//! - `ports`: the frequency of a case and the two-ports of its branches at it, or the refusal that decides
//! - `probe`: which cases can be scanned, and by which source
//! - `limit`: limits of steady states
//! - `laws`: what an engineer may count on
#![tactic(auto)]

mod admittance;
mod impedance;
mod laws;
mod limit;
mod ports;
mod probe;
mod refusal;
mod refusals;

pub use admittance::{Admittance, NO_PORT, TwoPort};
pub use impedance::{branch_port, product};
pub use laws::{equal_reactances_leave_the_resistance, series_impedance_is_r_and_x};
pub use limit::{LARGEST_FREQUENCY, MOST_PHASOR_NODES};
pub use ports::judged_ports;
pub use probe::{Probe, judged_probe};
pub use refusal::{Refusal, Refused};
