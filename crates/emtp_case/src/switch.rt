//! The switches of a network.

ghost use Rattle.std.specs.Prelude.{◌≡◌};

/// A switch.
#[derive(Clone, Copy, PartialEq, Eq)]
pub struct Switch {
    /// The number of its card's line, from 1.
    pub line: u32,
    /// The node where the switch current enters; 0 is ground.
    pub from: u32,
    /// The node where the switch current leaves; 0 is ground.
    pub to: u32,
    /// What opens and closes it.
    pub kind: SwitchKind,
}

impl Switch {
    ghost use Rattle.emtp_case.specs.Switch.{is_time_switch, own_times, switch_with};

    /// Whether it is a time switch.
    pub fn is_time(&self) -> bool
        ensures { result ≡ is_time_switch self.now }
    {
        matches!(self.kind, SwitchKind::Time { .. })
    }

    /// The times of a time switch; none of another.
    pub fn times(&self) -> Option<Times>
        ensures { result ≡ own_times self.now }
    {
        match self.kind {
            SwitchKind::Time { close, open_at, .. } => Some(Times { close, open_at }),
            _ => None,
        }
    }

    /// The switch with other times, where it is a time switch.
    pub(crate) fn with_times(self, times: Times) -> Switch
        ensures { result ≡ switch_with self times }
    {
        let mut switch = self;
        if let SwitchKind::Time { margin, .. } = self.kind {
            let Times { close, open_at } = times;
            switch.kind = SwitchKind::Time {
                close,
                open_at,
                margin,
            };
        }
        switch
    }
}

/// What opens and closes a switch.
#[derive(Clone, Copy, PartialEq, Eq)]
pub enum SwitchKind {
    /// A breaker that closes and opens once, by the time.
    Time {
        /// The closing time, in ps, to 10^18 in magnitude; below 0 it starts closed.
        close: i64,
        /// The time from which it opens, in ps, to 10^18 in magnitude; none means never.
        open_at: Option<i64>,
        /// The greatest current that it interrupts away from a current zero, in nA: from 0 to 10^18.
        margin: i64,
    },
    /// A switch that is always closed, to measure a current.
    Measuring,
    /// A valve, which conducts in one direction.
    Valve {
        /// The least voltage at which it closes, in nV: from 0 to 10^18.
        ignition: i64,
        /// The current below which it opens, in nA: from 0 to 10^18.
        holding: i64,
        /// The TACS variable that has to be above 0 for it to close, if any.
        control: Option<u32>,
    },
    /// A switch that is closed exactly while a TACS variable is above 0.
    Control {
        /// The number of the variable.
        control: u32,
    },
}

/// The times of a time switch.
#[derive(Clone, Copy, PartialEq, Eq)]
pub struct Times {
    /// The closing time, in ps, to 10^18 in magnitude; below 0 the switch starts closed.
    pub close: i64,
    /// The time from which it opens, in ps, to 10^18 in magnitude; none means never.
    pub open_at: Option<i64>,
}

/// Where a switch stands after a step.
#[derive(Clone, Copy, PartialEq, Eq)]
pub enum SwitchState {
    /// Open, and not closed before: a time switch that waits for its closing time.
    Waiting,
    /// Closed.
    Closed,
    /// Open.
    Opened,
}
