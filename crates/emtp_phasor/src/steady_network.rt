//! The network at a frequency, as the work on a row sees it.

use emtp_admittance::TwoPort;
use emtp_case::{Case, Items, RowKind, RowOrder};

/// The network at a frequency, as the work on a row sees it.
#[derive(Clone, Copy)]
pub(crate) struct SteadyNetwork<'a> {
    /// The case.
    pub(crate) case: &'a Case,
    /// The order of its rows.
    pub(crate) order: &'a RowOrder,
    /// The two-ports of its branches at the frequency.
    pub(crate) ports: &'a [TwoPort],
    /// The kinds of its rows.
    pub(crate) kinds: &'a [RowKind],
    /// For each row the places of the branches at its node.
    pub(crate) lists: &'a [Items<u32>],
    /// For each row the rows whose nodes are of its group.
    pub(crate) groups: &'a [Items<u32>],
    /// What the current sources bring to the node of each row, part by part, in nA.
    pub(crate) brought: &'a [i128],
}
