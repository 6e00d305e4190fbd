//! The sources of a network and of its control.

ghost use Rattle.std.specs.Prelude.{◌≡◌};

/// A source: of the network, or a TACS source, where `node` is the number of its variable.
#[derive(Clone, Copy, PartialEq, Eq)]
pub struct Source {
    /// The number of its card's line, from 1.
    pub line: u32,
    /// Its node, from 1; of a TACS source its variable, from 0.
    pub node: u32,
    /// Whether it is a current source, which brings its value into the node, and not a voltage source. A TACS source
    /// is none.
    pub current: bool,
    /// The course of its value in time.
    pub shape: Shape,
    /// The amplitude, in nV, nA or nano: to 10^18 in magnitude. It is 0 where the value is that of a variable, a node or
    /// a switch.
    pub amplitude: i64,
    /// The time from which it is active, in ps: to 10^18 in magnitude. It is 0 where the value is that of a node or a
    /// switch.
    pub start: i64,
    /// The time up to which it is active, in ps: from 1 to 10^18; none means to the end, as it is where the value is
    /// that of a node or a switch.
    pub stop: Option<i64>,
}

impl Source {
    ghost use Rattle.emtp_case.specs.Source.{is_voltage_source_at};

    /// Whether it is a voltage source at a node.
    pub fn is_voltage_at(&self, node: u32) -> bool
        ensures { result ≡ is_voltage_source_at node self.now }
    {
        !self.current && self.node == node
    }
}

/// The course of a source's value in time. The last five stand in TACS sources alone.
#[derive(Clone, Copy, PartialEq, Eq)]
pub enum Shape {
    /// The amplitude.
    Step,
    /// A ramp up to the amplitude.
    Ramp {
        /// The time of the rise, in ps: from 1 to 10^18.
        rise: i64,
    },
    /// A cosine.
    Cosine {
        /// The frequency, in micro-hertz: from 0 to 10^13.
        freq: i64,
        /// The phase, in 10^-18 turn: from 0 to below 10^18.
        phase: i64,
    },
    /// The value of a TACS variable at the step before.
    Tacs {
        /// The number of the variable.
        var: u32,
    },
    /// Pulses of the amplitude.
    Pulse {
        /// The time from one pulse to the next, in ps: from 1 to 10^18.
        period: i64,
        /// The width of a pulse, in ps: from 1 to 10^18.
        width: i64,
    },
    /// A sawtooth that rises from 0 to the amplitude.
    Saw {
        /// The time of one tooth, in ps: from 1 to 10^18.
        period: i64,
    },
    /// The voltage of a node.
    NodeVoltage {
        /// The node, from 1.
        node: u32,
    },
    /// The current of a switch.
    SwitchCurrent {
        /// The place of the switch.
        switch: u32,
    },
    /// The state of a switch: 10^9 where it is closed, else 0.
    SwitchStatus {
        /// The place of the switch.
        switch: u32,
    },
}
