//! The kinds of the rows of a nodal matrix.

/// What a row of the nodal matrix says.
#[derive(Clone, Copy, PartialEq, Eq)]
pub enum RowKind {
    /// The sum of the currents that leave one node.
    Kcl,
    /// The sum of the currents that leave a group of nodes joined by closed switches.
    Sum,
    /// The node has the voltage of the node of this row.
    Tie(u32),
    /// The node is at ground.
    Ground,
    /// The node has the voltage of its source.
    Source,
}
