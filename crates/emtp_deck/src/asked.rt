//! The channels that cards ask for.

ghost use Rattle.emtp_case.specs.declared.limit.TheConstants.{MOST_CHANNELS};
ghost use Rattle.std.specs.Prelude.{◌≡◌, ◌≤◌};
ghost use Rattle.emtp_deck.specs.Made.{count_asked, none_asked};

use emtp_case::{Channel, Items};
use std::alloc::Global;

/// The channels that were asked for so far, each kind in the order of the cards.
#[derive(Drop)]
pub struct Asked {
    /// The values of the control's variables.
    pub variables: Items<Channel>,
    /// The voltages of nodes.
    pub outputs: Items<Channel>,
    /// The currents and voltages of branches.
    pub branches: Items<Channel>,
    /// The currents and voltages of switches.
    pub switches: Items<Channel>,
    /// The states of switches.
    pub statuses: Items<Channel>,
}

impl Asked {
    /// Nothing was asked for.
    pub(crate) fn new(alloc: Global) -> Asked
        ensures { result ≡ none_asked }
    {
        Asked {
            variables: Items::new(alloc),
            outputs: Items::new(alloc),
            branches: Items::new(alloc),
            switches: Items::new(alloc),
            statuses: Items::new(alloc),
        }
    }

    /// How many there are.
    pub(crate) fn count(&self) -> usize
        requires { count_asked self.now ≤ MOST_CHANNELS }
        ensures { result ≡ count_asked self.now }
    {
        self.variables.len()
            + self.outputs.len()
            + self.branches.len()
            + self.switches.len()
            + self.statuses.len()
    }
}
