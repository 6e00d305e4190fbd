//! The coefficients of a block: what the sum of its denominator's coefficients divides.

ghost use Rattle.emtp_case.specs.held.RunData.{IsTimeStep};
ghost use Rattle.emtp_fix.specs.declared.limit.TheConstants.{LARGEST_COEFFICIENT};
ghost use Rattle.std.specs.Prelude.{◌≡◌, ℕ, ◌≢◌, ◌*◌, ◌^◌, ◌≤◌, pos, unsigned_abs, IfNone};
ghost use Rattle.emtp_case.specs.Control.{quotient_of};
ghost use Rattle.emtp_case.specs.Sums.{sum_upto};
ghost use Rattle.emtp_walk.specs.Coefficients.{divided_bad, divided_by, gain_bad, is_large, quotients_bad, range_bad};
ghost use Rattle.emtp_walk.specs.held.Coefficients.{IsBlockDue, IsBlockEntry};
ghost use Rattle.emtp_taccards.specs.held.PolynomialCard.{IsPolynomial};

use crate::control_cards::BlockEntry;
use emtp_card::{Bad, Why};
use emtp_case::{coefficient_divisor, coefficient_quotient};
use emtp_fix::{LARGEST_VALUE, PICO, scaled};

/// What refuses a number at a column of a line, if it is too large.
fn range_bad(line: u32, column: u32, is: bool) -> Option<Bad>
    ensures { result ≡ range_bad line column is }
{
    if is {
        Some(Bad {
            line,
            column,
            why: Why::OutOfUnitRange,
        })
    } else {
        None
    }
}

fn is_large(x: i128) -> bool
    ensures { result ≡ is_large x }
{
    LARGEST_VALUE < x.unsigned_abs()
}

/// What refuses the first of a card's quotients that is too large.
fn quotients_bad(line: u32, dt: i64, card: &[i64; 8], order: u8, divisor: i128) -> Option<Bad>
    requires dt { IsTimeStep dt }
    requires order { order ≤ 7 }
    requires card { IsPolynomial dt order card.now }
    requires some { divisor ≢ pos 0 }
    requires divisor { unsigned_abs divisor ≤ 64 * 10 ^ 25 }
    ensures value { result ≡ quotients_bad line (quotient_of dt card.now divisor) order }
    ensures small { IfNone result ((k : ℕ) → k ≤ order → unsigned_abs (quotient_of dt card.now divisor k) ≤ LARGEST_COEFFICIENT) }
{
    for power in 0..order as usize + 1 {
        let quotient = coefficient_quotient(dt, card, power, divisor);
        if let Some(bad) = range_bad(line, 10 * power as u32 + 1, is_large(quotient)) {
            return Some(bad);
        }
    }
    None
}

/// c: the sum of a numerator's quotients, in 10^-12.
fn numerator_sum(dt: i64, top: &[i64; 8], order: u8, divisor: i128) -> i64
    requires dt { IsTimeStep dt }
    requires order { order ≤ 7 }
    requires top { IsPolynomial dt order top.now }
    requires some { divisor ≢ pos 0 }
    requires divisor { unsigned_abs divisor ≤ 64 * 10 ^ 25 }
    requires small { (k : ℕ) → k ≤ order → unsigned_abs (quotient_of dt top.now divisor k) ≤ LARGEST_COEFFICIENT }
    ensures value { result ≡ sum_upto order (quotient_of dt top.now divisor) }
    ensures small { unsigned_abs result ≤ 8 * LARGEST_COEFFICIENT }
{
    let mut sum = 0;
    for power in 0..order as usize + 1 {
        sum += coefficient_quotient(dt, top, power, divisor) as i64;
    }
    sum
}

/// What refuses the gain within a step, k, if it is too large.
fn gain_bad(line: u32, gain: i64, sum: i64) -> Option<Bad>
    requires gain { unsigned_abs gain ≤ LARGEST_COEFFICIENT }
    requires sum { unsigned_abs sum ≤ 8 * LARGEST_COEFFICIENT }
    ensures { result ≡ gain_bad line gain sum }
{
    let k = scaled(gain as i128, sum as i128, PICO);
    range_bad(line, 51, is_large(k))
}

/// What refuses the coefficients of a block whose sum isn't 0.
fn divided_by(dt: i64, entry: &BlockEntry, top: u32, bottom: u32, divisor: i128) -> Option<Bad>
    requires dt { IsTimeStep dt }
    requires block { IsBlockDue entry.now.card }
    requires numerator { IsPolynomial dt entry.now.card.order entry.now.top }
    requires denominator { IsPolynomial dt entry.now.card.order entry.now.bottom }
    requires some { divisor ≢ pos 0 }
    requires divisor { unsigned_abs divisor ≤ 64 * 10 ^ 25 }
    ensures { result ≡ divided_by dt entry.now top bottom divisor }
{
    let card = &entry.card;
    let order = card.order;
    if let Some(bad) = quotients_bad(bottom, dt, &entry.bottom, order, divisor) {
        return Some(bad);
    }
    if let Some(bad) = quotients_bad(top, dt, &entry.top, order, divisor) {
        return Some(bad);
    }
    let sum = numerator_sum(dt, &entry.top, order, divisor);
    gain_bad(card.line, card.gain, sum)
}

/// What refuses the coefficients of a block once both cards were read: the sum, the denominators, the numerators and the
/// gain within a step, in this order; each has the line and the column of its field.
#[tactic(auto, unfolding(crate::specs::Coefficients::divided_bad))]
pub(crate) fn divided_bad(dt: i64, entry: &BlockEntry, top: u32, bottom: u32) -> Option<Bad>
    requires dt { IsTimeStep dt }
    requires block { IsBlockDue entry.now.card }
    requires numerator { IsPolynomial dt entry.now.card.order entry.now.top }
    requires denominator { IsPolynomial dt entry.now.card.order entry.now.bottom }
    ensures value { result ≡ divided_bad dt entry.now top bottom }
    ensures entry { IfNone result (IsBlockEntry dt entry.now) }
{
    let divisor = coefficient_divisor(dt, &entry.bottom, entry.card.order as usize);
    if divisor == 0 {
        return range_bad(bottom, 1, true);
    }
    divided_by(dt, entry, top, bottom, divisor)
}
