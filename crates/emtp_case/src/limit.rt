//! Limits of a case by count, and of its time step. What is beyond them is refused by the readers of cards.

/// The most nodes, ground not counted.
pub const MOST_NODES: usize = 1_000;

/// The most branches, each phase of a three-phase line counted.
pub const MOST_BRANCHES: usize = 5_000;

/// The most switches.
pub const MOST_SWITCHES: usize = 500;

/// The most sources of the network.
pub const MOST_SOURCES: usize = 500;

/// The most cards of each kind that the control may have: its sources, its blocks, its supplemental cards.
pub const MOST_CONTROL_CARDS: usize = 200;

/// The most variables: the six standing ones, and one a card of the control.
pub const MOST_VARIABLES: usize = 606;

/// The most channels of a record.
pub const MOST_CHANNELS: usize = 64;

/// The most points of a characteristic, and of a table of a device.
pub const MOST_POINTS: usize = 64;

/// The most past values that lines and devices keep together.
pub const MOST_HISTORY_VALUES: u64 = 2_000_000;

/// The most values of a record: channels times samples.
pub const MOST_STORED_VALUES: u64 = 4_000_000;

/// The most steps, and the most steps from one sample to the next.
pub const MOST_STEPS: u32 = 1_000_000;

/// The least time step, in ps: 1 ns.
pub const LEAST_TIME_STEP: u64 = 1_000;

/// The greatest time step, in ps: 1 s.
pub const LARGEST_TIME_STEP: u64 = 1_000_000_000_000;
