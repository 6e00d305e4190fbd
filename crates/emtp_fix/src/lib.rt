//! Whole numbers in fixed units: rounding, limits, roots and decimals.
//!
//! Every quantity of the simulator is a whole number of a small unit (nV, nA, pS, micro-ohm, ps, ..),
//! and every product and quotient is brought back to its unit by one rule, [`near`]. The crate stands
//! on `itoa` alone, and all other crates stand on it.
//!
//! ```text
//! near(7, 2) == 4          near(-7, 2) == -4       scaled(3, PICO, 2) == 1_500_000_000_000
//! fit(12, 10) == None      isqrt(17) == 4          print_fixed(1_500, 3, ..) writes "1.5"
//! ```
#![tactic(auto)]

mod decimal;
mod laws;
mod limit;
mod overflowing;
mod pivot;
mod product;
mod quotient;
mod ratio;
mod root;
mod rounding;
mod steps;

pub use decimal::print_fixed;
pub use laws::decimals_read_back;
pub use limit::{
    ATTO, KILO, LARGEST_CAPACITANCE, LARGEST_COEFFICIENT, LARGEST_ENTRY, LARGEST_IMPEDANCE,
    LARGEST_INDUCTANCE, LARGEST_RATIO, LARGEST_TIME, LARGEST_TOLERANCE, LARGEST_VALUE,
    LARGEST_WIDE, LEAST_IMPEDANCE, MICRO, NANO, OutOfRange, PICO, TURN, fit, in_range,
};
pub use overflowing::{
    overflowing_micro_sum, overflowing_near_micro, overflowing_near_pico, overflowing_pico_sum,
};
pub use pivot::Pivot;
pub use product::{micro_sum, narrow_product, scaled, wide_product};
pub use ratio::{ratio_product, ratio_word};
pub use root::isqrt;
pub use rounding::{near, near_by, word_of};
pub use steps::Steps;
