//! The multiplier of an analog channel.
ghost use Rattle.std.specs.Prelude.{◌≡◌, ◌≤◌, ◌^◌, IfSome};
ghost use Rattle.emtp_comtrade.specs.declared.limit.TheConstants.{LARGEST_MULTIPLIER, LARGEST_POWER};
ghost use Rattle.emtp_comtrade.specs.Multiplier.{multiplier_in, multiplier_of};
ghost use Rattle.emtp_comtrade.specs.held.Multiplier.{IsMultiplier};

use crate::limit::LARGEST_MULTIPLIER;

/// The least of 1, 2 and 5 times a power of ten by which a magnitude is held in 16 bits.
#[tactic(auto, using(crate::proofs::LeastMultiplier::searching))]
pub fn least_multiplier(greatest: u64) -> u64
    requires { greatest ≤ 2 ^ 63 }
    ensures value { result ≡ multiplier_of greatest }
    ensures least { IsMultiplier greatest result }
    ensures bound { result ≤ LARGEST_MULTIPLIER }
{
    for power in 0..15 {
        if let Some(multiplier) = multiplier_in(greatest, power_of_ten(power)) {
            return multiplier;
        }
    }
    LARGEST_MULTIPLIER
}

/// The first of 1, 2 and 5 units that holds the magnitude.
fn multiplier_in(greatest: u64, unit: u64) -> Option<u64>
    requires { unit ≤ LARGEST_POWER }
    ensures value { result ≡ multiplier_in unit greatest }
    ensures bound { IfSome result (λ multiplier. multiplier ≤ LARGEST_MULTIPLIER) }
{
    if greatest <= 32767 * unit {
        Some(unit)
    } else if greatest <= 32767 * (2 * unit) {
        Some(2 * unit)
    } else if greatest <= 32767 * (5 * unit) {
        Some(5 * unit)
    } else {
        None
    }
}

#[tactic(auto, using(crate::proofs::LeastMultiplier::powers))]
fn power_of_ten(power: u32) -> u64
    requires { power ≤ 14 }
    ensures value { result ≡ 10 ^ power }
    ensures bound { result ≤ LARGEST_POWER }
{
    10u64.pow(power)
}
