//! Limits of matrices, by count and by magnitude.

/// The most rows of a matrix.
pub const MOST_ROWS: usize = 1_000;

/// The greatest magnitude of a number of a row that is being written, and of an amount that is added to it, in 10^-12.
///
/// No sum of entries comes near it, and two of it are far from the limits of 128 bits.
pub const LARGEST_WORK: u128 = 10_000_000_000_000_000_000_000_000_000_000;
