//! What branches do with energy, over one step and over many.
//!
//! What a series branch takes in is the heat in its resistance, what its inductance and its capacitance store, and the heat in
//! its fictitious resistance r, which the rounding of its conductance makes (`emtp_acting`) and which may be below 0. Left alone
//! an inductance so wins or loses current; a reactor of one point, the same inductance in flux form, keeps it to the last digit.
//!
//! Each law is a function that does nothing: its clauses are proved, and say what holds of the case that it is given. They
//! stand over the steps of `emtp_lumped` and `emtp_pseudo`, and over the records of `emtp_machine`.
//!
//! ```text
//! AreSteps dt x past                       each moment is a step of the branch from the one before, the first from rest
//! series_branches_make_their_steps         so are those of any run
//! BalancesItsEnergy dt x past              what it took in is heat and what it stores
//! ```
//!
//! - `series`: a series branch
//! - `coil`: a reactor of one point
//! - `runs`: the records of a run
#![tactic(auto)]

mod coil;
mod runs;
mod series;

pub use coil::{
    coil_integrates_its_voltage, coil_left_alone_keeps_its_current, coil_stores_what_it_takes,
    coil_without_a_voltage_has_the_current_of_its_flux,
    reactor_flux_is_the_integral_of_its_voltage,
};
pub use runs::{
    reactors_make_their_steps, series_branches_balance_their_energy,
    series_branches_make_their_steps,
};
pub use series::{
    fictitious_resistance_is_small, inductance_alone_stores_what_it_takes,
    inductance_left_alone_keeps_its_current, inductance_rises_by_its_voltage,
    inductance_that_does_not_drift_keeps_its_current, negative_resistance_makes_current_grow,
    series_branch_balances_its_energy, series_voltage_has_its_fictitious_drop,
};
