//! Limits of the multipliers of a record that is written.

/// The greatest multiplier of an analog channel, in 1e-9 V, A or unit.
///
/// 32,767 times it exceeds 2^63, so that nothing greater is needed.
pub const LARGEST_MULTIPLIER: u64 = 1_000_000_000_000_000;

/// The greatest power of ten of which 1, 2 and 5 times are tried before it, in 1e-9 V, A or unit.
pub const LARGEST_POWER: u64 = 100_000_000_000_000;
