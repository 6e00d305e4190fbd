//! What a series branch acts as, whose conductance and impedances are whole numbers.
//!
//! The conductance g of a branch is 1/Z in whole pS, so the branch acts as if a resistance r = 1/g - Z stood in series with
//! it, of either sign: the fictitious resistance. A current that nothing drives grows or falls by the part r T/L of itself in
//! a time T. dt/2C in whole micro-ohm makes a capacitance another one. Here stand these numbers, as exact fractions, and the
//! tests whether they matter. The crate stands on `emtp_fix` and `emtp_case`; warnings, judgements and laws cite it.
//!
//! ```text
//! let f = Fictitious::of(1_000_000, &inductance_of_5_600_mh);     1 us
//! f.resistance() == -35_839_885_312                               -35.84 ohm, in 10^-9
//! f.drifts(210_000_000_000, 5_600_000_000)                        in 210 ms a current that is left alone grows e^1.34 times
//! ```
//!
//! - `fictitious`: the fictitious resistance, and whether it matters
//! - `clean`: an inductance that has none to speak of
//! - `capacitance`: what a capacitance acts as
#![tactic(auto)]

mod capacitance;
mod clean;
mod fictitious;

pub use capacitance::{acting_capacitance, is_capacitance_off};
pub use clean::clean_inductance;
pub use fictitious::Fictitious;
