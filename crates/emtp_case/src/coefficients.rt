//! The coefficients of a block as the bilinear rule, s = (2/dt)*(1 - z)/(1 + z), makes them of a card's (EMTP Theory Book
//! in outline; units and roundings are this project's own). A reader judges by them, and a block steps with them.
//!
//! A card's coefficient is in 10^-12 of its unit, which has a second for each power of s; times (2/dt)^power it has none.
//! The time step is in ps throughout: from 1,000 (a nanosecond) to 10^12 (a second). Each quotient is rounded to the
//! nearest whole number, a half away from zero.

ghost use Rattle.emtp_case.specs.held.RunData.{IsTimeStep};
ghost use Rattle.std.specs.Prelude.{◌≡◌, ◌≢◌, ◌^◌, ◌*◌, ◌≤◌, ◌*ℤ◌, ℕ, pos, unsigned_abs, slice_index_or};
ghost use Rattle.emtp_case.specs.Control.{bilinear, power_of, quotient_of};
ghost use Rattle.emtp_case.specs.held.Control.{HasWay};
ghost use Rattle.emtp_case.specs.Sums.{sum_upto};
ghost use Rattle.emtp_fix.specs.Rounding.{near};

use emtp_fix::{PICO, near};

/// One factor 2/dt of the bilinear rule: `p` times 2 s over `dt`, at a time step in ps. What is in 10^-12 stays so.
pub fn bilinear_step(dt: i64, p: i128) -> i128
    requires dt { IsTimeStep dt }
    requires p { unsigned_abs p ≤ 8 * 10 ^ 25 }
    ensures value { result ≡ near (p *ℤ pos (2 * 10 ^ 12)) dt }
    ensures bound { unsigned_abs result ≤ 16 * 10 ^ 37 }
{
    near(p * (2 * PICO), dt as i128)
}

/// A card's coefficient, in 10^-12, that is taken so many times through the bilinear rule at a time step in ps: P of a
/// denominator's power and Q of a numerator's, in 10^-12. Times 0 it is the coefficient itself.
pub fn bilinear(dt: i64, x: i64, times: usize) -> i128
    requires dt { IsTimeStep dt }
    requires way { HasWay dt x times }
    ensures value { result ≡ bilinear dt x times }
    ensures small { unsigned_abs result ≤ 8 * 10 ^ 25 }
{
    let mut p = x as i128;
    for i in 0..times {
        p = bilinear_step(dt, p);
    }
    p
}

/// S, by which all coefficients are divided: the sum of a denominator's coefficients from power 0 to the order, each
/// taken through the bilinear rule as often as its power, in 10^-12. The coefficients are a card's, in 10^-12, and the
/// time step is in ps. It can be 0, which no block may divide by: the reader refuses such a card.
pub fn coefficient_divisor(dt: i64, bottom: &[i64; 8], order: usize) -> i128
    requires dt { IsTimeStep dt }
    requires order { order ≤ 7 }
    requires way { (power : ℕ) → power ≤ order → HasWay dt (slice_index_or bottom.now power (pos 0)) power }
    ensures value { result ≡ sum_upto order (power_of dt bottom.now) }
    ensures small { unsigned_abs result ≤ 64 * 10 ^ 25 }
{
    let mut sum = 0;
    for power in 0..order + 1 {
        sum += bilinear(dt, bottom[power], power);
    }
    sum
}

/// d(j) of a denominator or n(j) of a numerator, a number without unit, in 10^-12: the card's coefficient of this power,
/// in 10^-12, taken through the bilinear rule as often as its power and divided by S, in 10^-12 too. The time step is in
/// ps.
pub fn coefficient_quotient(dt: i64, card: &[i64; 8], power: usize, divisor: i128) -> i128
    requires dt { IsTimeStep dt }
    requires power { power ≤ 7 }
    requires way { HasWay dt (slice_index_or card.now power (pos 0)) power }
    requires some { divisor ≢ pos 0 }
    requires divisor { unsigned_abs divisor ≤ 64 * 10 ^ 25 }
    ensures value { result ≡ quotient_of dt card.now divisor power }
    ensures small { unsigned_abs result ≤ 10 ^ 38 }
{
    near(bilinear(dt, card[power], power) * PICO, divisor)
}
