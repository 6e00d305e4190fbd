//! What an engineer may count on in every run, in the field's own words: laws over all cases and all their records.
//!
//! Each law is a function that does nothing: its clauses are proved, and say what holds of the case that it is given. No
//! program calls them. They are stated over the history of a case (`emtp_machine`) or over a step of it (`emtp_net`), of
//! which they need every layer, so this crate stands above them all, and only other laws stand on it. To use a law
//! in a proof, call it:
//!
//! ```text
//! closed_switch_has_no_voltage(&case);
//! // now `run` of this law is known of `case`: in each record of its run both ends of each closed switch have one voltage
//! ```
#![tactic(auto)]

mod branches;
mod control;
mod mirror;
mod nodes;
mod runs;
mod switches;

pub use branches::{
    conductances_add_up_to_zero, conductances_are_symmetric, line_does_not_amplify,
    renumbered_phases_answer_renumbered, resistor_takes_power, reversed_line_answers_alike,
    reversed_series_branch_answers_opposite, reversed_three_phase_line_answers_alike,
    series_voltage_is_the_sum_of_its_drops, three_phase_line_does_not_amplify,
};
pub use control::{
    block_variables_have_their_outputs, block_variables_lie_between_their_limits,
    blocks_are_trapezoidal, blocks_that_stand_alone_are_exact, outputs_lie_between_their_limits,
};
pub use mirror::{
    mirror_image_is_a_case, mirrored_run, mirrored_run_with_control, mirrored_step,
    network_is_blind_to_the_control, quiet_network_stays_at_rest,
};
pub use nodes::{
    closed_switch_has_no_voltage, currents_at_each_node_add_up_to_zero,
    grounded_nodes_have_no_voltage, voltage_sources_are_exact,
};
pub use runs::{
    ends_name_what_they_blame, longer_run_begins_alike, runs_agree_until_sources_differ,
    runs_agree_until_sources_end, samples_are_counted,
};
pub use switches::{
    breaker_opens_near_zero_current, idle_switches_have_no_current, valve_goes_by_its_numbers,
};
