//! The block diagram of a case.

use crate::law::BlockLaw;
use emtp_case::Case;

/// The block diagram of a case: its blocks, what each is over a step, and which one drives a variable.
#[derive(Clone, Copy)]
pub(crate) struct BlockDiagram<'a> {
    /// The case.
    pub(crate) case: &'a Case,
    /// The block of each variable that is a block's output.
    pub(crate) places: &'a [Option<usize>],
    /// The law of each block.
    pub(crate) laws: &'a [BlockLaw],
}
