//! The numbers of a block that are the same in all steps.

ghost use Rattle.emtp_case.specs.held.RunData.{IsTimeStep};
ghost use Rattle.std.specs.Prelude.{◌≡◌, ◌≢◌, ◌^◌, ◌*◌, ◌≤◌, ◌*ℤ◌, ℕ, pos, unsigned_abs, slice_index_or, length};
ghost use Rattle.emtp_case.specs.Control.{quotient_of, step_gain};
ghost use Rattle.emtp_case.specs.held.Control.{HasWay, HasCoefficients};
ghost use Rattle.emtp_case.specs.Sums.{sum_upto};
ghost use Rattle.emtp_elim.specs.Matrix.{item};
ghost use Rattle.emtp_fix.specs.Rounding.{near};
ghost use Rattle.emtp_blocks.specs.held.Block.{IsLawOf, IsLaw};
ghost use Rattle.emtp_fix.specs.declared.limit.TheConstants.{LARGEST_COEFFICIENT, LARGEST_VALUE, PICO};

use crate::scaling::product;
use emtp_case::{Block, coefficient_divisor, coefficient_quotient};
use emtp_fix::PICO;

/// The numbers of a block that are the same in all steps.
#[derive(Clone, Copy)]
pub(crate) struct BlockLaw {
    /// n(0), n(1) and so on up to the order, in 10^-12: to 10^18 in magnitude.
    pub(crate) numerators: [i64; 8],
    /// d(0), d(1) and so on up to the order, in 10^-12: to 10^18 in magnitude.
    pub(crate) denominators: [i64; 8],
    /// c, in 10^-12: to 8*10^18 in magnitude.
    pub(crate) sum: i64,
    /// k, the gain within a step, in 10^-12: to 10^18 in magnitude.
    pub(crate) gain: i64,
}

/// The coefficient of a power as a part of the divisor, in 10^-12.
fn coefficient(dt: i64, card: &[i64; 8], power: usize, divisor: i128) -> i64
    requires dt { IsTimeStep dt }
    requires power { power ≤ 7 }
    requires way { HasWay dt (slice_index_or card.now power (pos 0)) power }
    requires some { divisor ≢ pos 0 }
    requires divisor { unsigned_abs divisor ≤ 64 * 10 ^ 25 }
    requires small { unsigned_abs (quotient_of dt card.now divisor power) ≤ LARGEST_VALUE }
    ensures { result ≡ quotient_of dt card.now divisor power }
{
    coefficient_quotient(dt, card, power, divisor) as i64
}

/// The quotients of a card's coefficients by the powers up to the order, and 0 above it.
fn coefficients(dt: i64, card: &[i64; 8], order: usize, divisor: i128) -> [i64; 8]
    requires dt { IsTimeStep dt }
    requires order { order ≤ 7 }
    requires way { (power : ℕ) → power ≤ order → HasWay dt (slice_index_or card.now power (pos 0)) power }
    requires some { divisor ≢ pos 0 }
    requires divisor { unsigned_abs divisor ≤ 64 * 10 ^ 25 }
    requires small { (j : ℕ) → j ≤ order → unsigned_abs (quotient_of dt card.now divisor j) ≤ LARGEST_VALUE }
    ensures value { (j : ℕ) → j ≤ order → item result j ≡ quotient_of dt card.now divisor j }
    ensures small { (j : ℕ) → unsigned_abs (item result j) ≤ LARGEST_VALUE }
{
    let mut quotients = [0; 8];
    for j in 0..order + 1 {
        quotients[j] = coefficient(dt, card, j, divisor);
    }
    quotients
}

/// The sum of the quotients up to the order.
fn sum(quotients: &[i64], order: usize) -> i64
    requires order { order ≤ 7 }
    requires there { 8 ≤ length quotients.now }
    requires small { (j : ℕ) → unsigned_abs (item quotients.now j) ≤ LARGEST_VALUE }
    ensures value { result ≡ sum_upto order (item quotients.now) }
    ensures small { unsigned_abs result ≤ 8 * LARGEST_COEFFICIENT }
{
    let mut sum = 0;
    for j in 0..order + 1 {
        sum += quotients[j];
    }
    sum
}

/// The gain of a block within one step.
fn step_gain(gain: i64, sum: i64) -> i64
    requires gain { unsigned_abs gain ≤ LARGEST_VALUE }
    requires sum { unsigned_abs sum ≤ 8 * LARGEST_COEFFICIENT }
    requires small { unsigned_abs (near (gain *ℤ sum) PICO) ≤ LARGEST_VALUE }
    ensures { result ≡ near (gain *ℤ sum) PICO }
{
    product(gain, sum, PICO) as i64
}

/// The law of a block at a time step in ps.
pub(crate) fn law(dt: i64, b: &Block) -> BlockLaw
    requires dt { IsTimeStep dt }
    requires order { b.now.order ≤ 7 }
    requires coefficients { 1 ≤ b.now.order → HasCoefficients dt b.now }
    requires gain { unsigned_abs b.now.gain ≤ LARGEST_VALUE }
    requires within_step { unsigned_abs (step_gain dt b.now) ≤ LARGEST_VALUE }
    ensures value { IsLawOf dt b.now result }
    ensures small { IsLaw result }
{
    if b.order == 0 {
        return BlockLaw {
            numerators: [0; 8],
            denominators: [0; 8],
            sum: PICO as i64,
            gain: step_gain(b.gain, PICO as i64),
        };
    }
    let order = b.order as usize;
    let divisor = coefficient_divisor(dt, &b.bottom, order);
    let numerators = coefficients(dt, &b.top, order, divisor);
    let denominators = coefficients(dt, &b.bottom, order, divisor);
    let sum = sum(&numerators, order);
    BlockLaw {
        numerators,
        denominators,
        sum,
        gain: step_gain(b.gain, sum),
    }
}
