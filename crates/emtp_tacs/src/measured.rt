//! What the control reads of the network's same step.

/// The numbers of the network that sources of the control measure.
#[derive(Clone, Copy)]
pub(crate) struct Measurements<'m> {
    /// The node voltages by node number, ground first, in nV.
    pub(crate) voltages: &'m [i64],
    /// The currents of the switches, in nA.
    pub(crate) currents: &'m [i64],
    /// Whether each switch is closed.
    pub(crate) closed: &'m [bool],
}
