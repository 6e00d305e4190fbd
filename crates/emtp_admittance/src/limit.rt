//! Limits of steady states.

/// The most nodes that a case may have.
pub const MOST_PHASOR_NODES: usize = 500;

/// The greatest frequency, in micro-hertz.
pub const LARGEST_FREQUENCY: u64 = 10_000_000_000_000;
