//! What a case's numbers mean in physical units: ohm, henry, farad, weber and seconds, over all cases.
//!
//! The companions of `emtp_lumped`, `emtp_line` and the others are formulas of a time step. These laws say in these units what
//! comes of them, with what is rounded in each of their bounds, so that a formula with another factor or a step too many meets
//! none of them. Each law is a function that does nothing: its clauses are proved, and say what holds of the case that it is
//! given. No program calls them. They are stated over a step of a branch, or over the history of a case (`emtp_machine`), so
//! this crate stands above them all, and nothing stands on it. To use a law in a proof, call it:
//!
//! ```text
//! inductance_follows_the_trapezoidal_rule(&case);
//! // now of each step of a series branch of `case` L (i - i') is known to be dt (vL + vL') / 2, within its rounding
//! ```
#![tactic(auto)]

mod cosine;
mod losses;
mod nonlinear;
mod phases;
mod reactor;
mod resistor;
mod series;
mod stops;
mod time;
mod travel;

pub use cosine::{cosine_repeats_after_its_period, cosine_table_adds_up};
pub use losses::line_with_losses_mixes_its_waves;
pub use nonlinear::nonlinear_resistor_current_lies_on_its_segment;
pub use phases::three_phases_meet_both_surge_impedances;
pub use reactor::{reactor_current_lies_on_its_segment, reactor_flux_follows_the_trapezoidal_rule};
pub use resistor::resistor_has_the_voltage_of_its_current;
pub use series::{
    capacitance_follows_the_trapezoidal_rule, inductance_follows_the_trapezoidal_rule,
};
pub use stops::sources_act_from_start_to_stop;
pub use time::{later_sources_act_later, memoryless_networks_go_by_time_alone};
pub use travel::{lossless_line_delays_between_two_steps, lossless_line_delays_by_its_travel_time};
