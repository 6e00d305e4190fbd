//! What the law needs of the past.

use emtp_case::PseudoState;

/// What the record of a step says of one branch.
#[derive(Clone, Copy)]
pub(crate) struct Moment {
    /// What the law keeps of the step.
    pub(crate) state: PseudoState,
    /// The voltage of `from` less that of `to`, in nV: to 2^64 in magnitude.
    pub(crate) voltage: i128,
}
