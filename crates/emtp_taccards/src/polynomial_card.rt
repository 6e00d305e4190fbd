//! Numerator and denominator cards of a block.

ghost use Rattle.std.specs.Prelude.{◌≡◌, ◌≤◌, length, All, IfOk};
ghost use Rattle.emtp_card.specs.held.NumberField.{IsNumberField};
ghost use Rattle.emtp_case.specs.held.RunData.{IsTimeStep};
ghost use Rattle.emtp_netcards.specs.held.Fields.{IsSmall};
ghost use Rattle.emtp_taccards.specs.PolynomialCard.{coefficient_at, coefficient_field, coefficients, four_of, pair_of, polynomial_card, stays, taken_field};
ghost use Rattle.emtp_taccards.specs.held.PolynomialCard.{IsPolynomial};

use emtp_card::{Bad, Fault, Line, MAX_BYTES, NumberField, Why};
use emtp_case::bilinear_step;
use emtp_fix::LARGEST_COEFFICIENT;
use emtp_netcards::{both, card_due};

/// The greatest magnitude of a coefficient on its way through the bilinear rule.
const LARGEST_ON_WAY: u128 = 80_000_000_000_000_000_000_000_000;

/// The coefficients of two powers.
type Pair = (i64, i64);

/// Reads a numerator or a denominator card of a block of this order: the coefficients by the power of s, in 10^-12.
/// Those of powers above the order are 0 and not read.
///
/// A refusal is the fault of the line's bytes, else the least fault of its fields, also of a coefficient that the bilinear
/// rule takes out of range at this time step; the bytes of a line that would end a section aren't judged, since the card
/// is due.
#[tactic(auto, unfolding(crate::specs::PolynomialCard::polynomial_card))]
pub fn polynomial(line: Line<'_>, order: u8, dt: i64) -> Result<[i64; 8], Bad>
    requires short { length line.bytes.now ≤ MAX_BYTES }
    requires dt { IsTimeStep dt }
    ensures value { result ≡ polynomial_card line.entry.number line.entry.bytes.now order dt }
    ensures numbers { IfOk result (IsPolynomial dt order) }
{
    card_due(&line, coefficients(line.bytes, order, dt))
}

#[tactic(auto, unfolding(crate::specs::PolynomialCard::coefficients))]
fn coefficients(line: &[u8], order: u8, dt: i64) -> Result<[i64; 8], Fault>
    requires { IsTimeStep dt }
    ensures value { result ≡ coefficients line.now order dt }
    ensures small { IfOk result (All IsSmall) }
{
    let (low, high) = both(four(line, order, dt, 0), four(line, order, dt, 4))?;
    let ((a, b), (c, d)) = low;
    let ((e, f), (g, h)) = high;
    Ok([a, b, c, d, e, f, g, h])
}

/// The coefficients of four powers, from this one.
#[tactic(auto, unfolding(crate::specs::PolynomialCard::four_of))]
fn four(line: &[u8], order: u8, dt: i64, power: u8) -> Result<(Pair, Pair), Fault>
    requires dt { IsTimeStep dt }
    requires power { power ≤ 4 }
    ensures value { result ≡ four_of line.now order dt power }
    ensures first { IfOk result (λ four. IsSmall four.0.0) }
    ensures second { IfOk result (λ four. IsSmall four.0.1) }
    ensures third { IfOk result (λ four. IsSmall four.1.0) }
    ensures fourth { IfOk result (λ four. IsSmall four.1.1) }
{
    both(
        pair(line, order, dt, power),
        pair(line, order, dt, power + 2),
    )
}

/// The coefficients of a power and the next one.
#[tactic(auto, unfolding(crate::specs::PolynomialCard::pair_of))]
fn pair(line: &[u8], order: u8, dt: i64, power: u8) -> Result<Pair, Fault>
    requires dt { IsTimeStep dt }
    requires power { power ≤ 6 }
    ensures value { result ≡ pair_of line.now order dt power }
    ensures first { IfOk result (λ pair. IsSmall pair.0) }
    ensures second { IfOk result (λ pair. IsSmall pair.1) }
{
    both(
        taken(line, order, dt, power),
        taken(line, order, dt, power + 1),
    )
}

/// The coefficient of a power, which the bilinear rule takes as often as the power says.
#[tactic(auto, unfolding(crate::specs::PolynomialCard::taken_by))]
fn taken(line: &[u8], order: u8, dt: i64, power: u8) -> Result<i64, Fault>
    requires dt { IsTimeStep dt }
    requires power { power ≤ 7 }
    ensures value { result ≡ taken_field line.now order dt power }
    ensures small { IfOk result IsSmall }
{
    match coefficient(line, order, power) {
        Ok(x) if stays(dt, x, power) => Ok(x),
        Ok(_) => Err(Fault {
            column: coefficient_at(power).first,
            why: Why::OutOfUnitRange,
        }),
        Err(fault) => Err(fault),
    }
}

fn coefficient(line: &[u8], order: u8, power: u8) -> Result<i64, Fault>
    requires { power ≤ 7 }
    ensures value { result ≡ coefficient_field line.now order power }
    ensures small { IfOk result IsSmall }
{
    if power > order {
        return Ok(0);
    }
    coefficient_at(power).number_or(0, line)
}

/// The field of the coefficient of a power, in 10^-12.
fn coefficient_at(power: u8) -> NumberField
    requires { power ≤ 7 }
    ensures value { result ≡ coefficient_at power }
    ensures field { IsNumberField result }
{
    let first = 10 * power as u32 + 1;
    NumberField {
        first,
        last: first + 9,
        scale: 12,
        low: -(LARGEST_COEFFICIENT as i64),
        high: LARGEST_COEFFICIENT as i64,
    }
}

/// Whether a coefficient stays in range while it is taken so many times through the bilinear rule.
fn stays(dt: i64, x: i64, times: u8) -> bool
    requires dt { IsTimeStep dt }
    requires x { IsSmall x }
    ensures { result ≡ stays dt x times }
{
    let mut p = x as i128;
    for i in 0..times {
        p = bilinear_step(dt, p);
        if LARGEST_ON_WAY < p.unsigned_abs() {
            return false;
        }
    }
    true
}
