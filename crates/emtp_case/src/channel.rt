//! The channels of the record.

ghost use Rattle.std.specs.Prelude.{◌≡◌};

/// A channel of the record.
#[derive(Clone, Copy, PartialEq, Eq)]
pub enum Channel {
    /// The voltage of a node, from 1.
    NodeVoltage(u32),
    /// The current of a branch, by its place.
    BranchCurrent(u32),
    /// The voltage of a branch, `from` less `to`, by its place.
    BranchVoltage(u32),
    /// The current of a switch, by its place.
    SwitchCurrent(u32),
    /// The voltage of a switch, `from` less `to`, by its place.
    SwitchVoltage(u32),
    /// The value of a TACS variable, by its number.
    Tacs(u32),
    /// The state of a switch, 0 or 1, by its place.
    Status(u32),
}

impl Channel {
    ghost use Rattle.emtp_case.specs.Channel.{is_status};

    /// Whether it is that of a switch's state; every other is analog.
    pub fn is_status(self) -> bool
        ensures { result ≡ is_status self }
    {
        matches!(self, Channel::Status(_))
    }
}
