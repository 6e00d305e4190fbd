// Limits of magnitude, and units. Clauses cite these constants by the names that the code has for them.
ghost use Rattle.std.specs.Prelude.{◌≡◌, ◌↔◌, ◌≤◌, pos, ◌≤ℤ◌, unsigned_abs, IsSome, IfSome};
ghost use Rattle.emtp_fix.specs.Limit.{in_range};
ghost use Rattle.emtp_fix.specs.declared.limit.TheConstants.{LARGEST_VALUE};

/// The greatest magnitude of a voltage in nV, a current in nA or a value of the control in 10^-9.
///
/// Twice it is below 2^63, so sums and differences of two of them need no wider number.
pub const LARGEST_VALUE: u128 = 1_000_000_000_000_000_000;

/// The greatest magnitude of a time of a case, in ps: of a start, a stop, a delay, a period.
pub const LARGEST_TIME: u64 = 1_000_000_000_000_000_000;

/// The greatest magnitude of a gain or a coefficient of a block, in 10^-12.
pub const LARGEST_COEFFICIENT: u64 = 1_000_000_000_000_000_000;

/// The greatest residual that a case may tolerate, in nA.
pub const LARGEST_TOLERANCE: u64 = 1_000_000_000_000;

/// The greatest magnitude of an entry of a nodal matrix or a conductance, in pS: that of 10 micro-ohm.
pub const LARGEST_ENTRY: u128 = 100_000_000_000_000_000;

/// The greatest magnitude of a ratio of two rows, in 10^-12.
pub const LARGEST_RATIO: u128 = 1_000_000_000_000_000_000;

/// The least impedance of a branch, in micro-ohm.
pub const LEAST_IMPEDANCE: u128 = 10;

/// The greatest impedance of a branch, in micro-ohm.
pub const LARGEST_IMPEDANCE: u128 = 1_000_000_000_000_000;

/// The greatest inductance of a branch, in nH.
pub const LARGEST_INDUCTANCE: u64 = 1_000_000_000_000_000;

/// The greatest capacitance of a branch, in fF.
pub const LARGEST_CAPACITANCE: u64 = 1_000_000_000_000_000;

/// The greatest magnitude of a product or a sum on the way, as [`near`](crate::near) takes it: 1.6e38.
pub const LARGEST_WIDE: u128 = 160_000_000_000_000_000_000_000_000_000_000_000_000;

/// 1 in units of 10^-3: what products of 10^-12 and 10^-9 are brought to 10^-18 by.
pub const KILO: i128 = 1000;

/// 1 in units of 10^-6, as of impedances in micro-ohm.
pub const MICRO: i128 = 1_000_000;

/// 1 in units of 10^-9, as of voltages in nV and currents in nA.
pub const NANO: i128 = 1_000_000_000;

/// 1 in units of 10^-12, as of conductances in pS, times in ps and ratios.
pub const PICO: i128 = 1_000_000_000_000;

/// 1 in units of 10^-18; by it a conductance in pS is the reciprocal of an impedance in micro-ohm.
pub const ATTO: i128 = 1_000_000_000_000_000_000;

/// A whole turn in units of 10^-18 turn, as of phases.
pub const TURN: u64 = 1_000_000_000_000_000_000;

/// A number that is kept left its range. Crates above return it as their refusal.
#[derive(Clone, Copy, Debug, PartialEq, Eq)]
pub struct OutOfRange;

/// `x`, where its magnitude is at most `limit`, in the unit of both; else None.
pub fn fit(x: i128, limit: i64) -> Option<i64>
    requires { pos 0 ≤ℤ limit }
    ensures value { IfSome result (λ y. y ≡ x) }
    ensures fits { IsSome result ↔ (unsigned_abs x ≤ unsigned_abs limit) }
{
    if x.unsigned_abs() <= limit as u128 {
        Some(x as i64)
    } else {
        None
    }
}

/// `x`, where it is in the range of voltages, currents and values of the control; else None.
pub fn in_range(x: i128) -> Option<i64>
    ensures value { result ≡ in_range x }
    ensures bound { IfSome result (λ y. unsigned_abs y ≤ LARGEST_VALUE) }
{
    fit(x, LARGEST_VALUE as i64)
}
