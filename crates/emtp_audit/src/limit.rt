//! Limits of a record that is compared. A record beyond them differs.

/// The greatest unit of time stamps, and the greatest time from one sample to the next, both in ps: 10^6 steps of 1 s.
pub const LARGEST_UNIT: u64 = 1_000_000_000_000_000_000;

/// The greatest magnitude of a number of a scale, in 1e-18.
///
/// 10^10 times it, a raw value being less than that, is in the range of 128 bits.
pub const LARGEST_SCALE: u128 = 10_000_000_000_000_000_000_000_000_000;

/// The most bytes of a file of a record.
pub const MOST_BYTES: usize = 64_000_000;

/// The most fields of a line that are counted. The rules of a line are fewer: those of a sample are at most 66.
pub const MOST_FIELDS: u32 = 1_000;
