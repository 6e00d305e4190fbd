//! The network of a case, as the next step works on it.

use crate::branches::Branches;
use emtp_case::{Case, RowOrder};

/// The network of a case, as the next step works on it.
#[derive(Clone, Copy)]
pub(crate) struct StepNetwork<'a> {
    /// The case.
    pub(crate) case: &'a Case,
    /// The order of its rows.
    pub(crate) order: &'a RowOrder,
    /// Its branches.
    pub(crate) branches: &'a Branches<'a>,
}
