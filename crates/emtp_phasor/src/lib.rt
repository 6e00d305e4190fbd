//! The sinusoidal steady state of a linear case, and its impedance over frequencies.
//!
//! [`solve`] answers the complex voltages of all nodes at one frequency, [`scan`] the impedance that the one source of a case
//! sees at many. The complex nodal system is solved as a real one with twice the rows, over the rows, groups and kinds that
//! the network's step has: what a frequency costs is the elimination of its own system. The crate stands on
//! `emtp_admittance`, `emtp_elim`, `emtp_rows`, `emtp_switch`, `emtp_wave`, `emtp_case`, `emtp_fix` and, for the causes of ends,
//! on `emtp_machine`.
//!
//! ```text
//! let state = solve(alloc, &case, None)?;                        // volts of each node, in nV
//! let lines = scan(alloc, &case, 50_000_000, 2_000_000_000, 50_000_000)?;    // 50 Hz to 2 kHz
//! ```
//!
//! - `steady_state`: the steady state at one frequency
//! - `scanning`: the impedance over frequencies, line by line
//! - `resting_network`: the network at rest, which is the same at all frequencies
//! - `resting_rows`: the kinds of its rows, and its right side
//! - `groups`: the rows of each group that closed switches join
//! - `node_branches`: the branches at each node
//! - `sources`: what sources bring to rows
//! - `steady_network`: the same network with its two-ports at a frequency
//! - `fill`: a row of its doubled matrix
//! - `elimination`: the rows of this matrix, finished one after another
//! - `workspace`: what a solution at a frequency is worked out in, and the unknowns in it
//! - `doubled_system`: network, two-ports and workspace, solved for one frequency after the other
//! - `voltages`: the voltages by node, and whether they are good
//! - `flow`: currents of branches, and residuals
//! - `phasor`, `line`, `ending`, `fault`: a complex number, a line of a scan, how a solution ends, why there is no answer
//! - `laws`: what an engineer may count on
#![tactic(auto)]

mod doubled_system;
mod elimination;
mod ending;
mod fault;
mod fill;
mod flow;
mod groups;
mod laws;
mod line;
mod node_branches;
mod phasor;
mod resting_network;
mod resting_rows;
mod scanning;
mod sources;
mod steady_network;
mod steady_state;
mod voltages;
mod workspace;

pub use fault::PhasorFault;
pub use laws::{
    admittances_are_symmetric, matrix_is_complex, scan_line_is_the_phasor, scan_lines_stand_alone,
    series_current_goes_by_the_difference, single_branch_is_seen_as_r_and_x,
    steady_ends_name_a_node, steady_rows_balance,
};
pub use line::{ScanAnswer, ScanLine};
pub use phasor::Phasor;
pub use scanning::{MOST_FREQUENCIES, scan};
pub use steady_state::{Phasors, solve};
