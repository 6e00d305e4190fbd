//! The branches of a network: series branches, travelling-wave lines, pseudo-nonlinear branches and the phases of
//! transposed three-phase lines.

ghost use Rattle.std.specs.Prelude.{◌≡◌};

/// A series branch of a resistance, an inductance and a capacitance. A part of 0 is absent.
#[derive(Clone, Copy, PartialEq, Eq)]
pub struct Lumped {
    /// The number of its card's line, from 1.
    pub line: u32,
    /// The node where the branch current enters; 0 is ground.
    pub from: u32,
    /// The node where the branch current leaves; 0 is ground.
    pub to: u32,
    /// The resistance, in micro-ohm: from 0 to 10^15.
    pub r: i64,
    /// The inductance, in nH: from 0 to 10^15.
    pub l: i64,
    /// The capacitance, in fF: from 0 to 10^15.
    pub c: i64,
}

/// What a series branch keeps of a step.
#[derive(Clone, Copy, PartialEq, Eq)]
pub struct LumpedState {
    /// The branch current, in nA: to 10^18 in magnitude.
    pub current: i64,
    /// The voltage of the inductance, in nV: to 10^18 in magnitude.
    pub v_l: i64,
    /// The voltage of the capacitance, in nV: to 10^18 in magnitude.
    pub v_c: i64,
    /// The voltage that drives the history current of the next step, in nV: to 10^18 in magnitude.
    pub history_voltage: i64,
}

/// A single travelling-wave line, with its losses lumped at the two ends and in the middle.
#[derive(Clone, Copy, PartialEq, Eq)]
pub struct Line {
    /// The number of its card's line, from 1.
    pub line: u32,
    /// The node at the sending end; 0 is ground.
    pub from: u32,
    /// The node at the receiving end; 0 is ground.
    pub to: u32,
    /// The surge impedance, in micro-ohm: from 10 to 10^15.
    pub zc: i64,
    /// The total resistance, in micro-ohm: from 0 to 10^15.
    pub r: i64,
    /// The travel time, in ps: from the time step to 10^18.
    pub delay: i64,
}

/// What a single line keeps of a step: of both ends the current, and the wave that leaves the end and comes to the
/// other one a travel time later.
#[derive(Clone, Copy, PartialEq, Eq)]
pub struct LineState {
    /// The current that enters the line at `from`, in nA: to 10^18 in magnitude.
    pub from_current: i64,
    /// The current that enters the line at `to`, in nA: to 10^18 in magnitude.
    pub to_current: i64,
    /// The wave that leaves the end at `from`, in nA: to 10^18 in magnitude.
    pub from_wave: i64,
    /// The wave that leaves the end at `to`, in nA: to 10^18 in magnitude.
    pub to_wave: i64,
}

/// A pseudo-nonlinear branch: its characteristic is a chain of straight segments, mirrored at the origin.
#[derive(Clone, Copy, PartialEq, Eq)]
pub struct Pseudo {
    /// The number of its card's line, from 1.
    pub line: u32,
    /// The node where the branch current enters; 0 is ground.
    pub from: u32,
    /// The node where the branch current leaves; 0 is ground.
    pub to: u32,
    /// Whether it is a reactor (current over flux, type 98) and not a resistor (current over voltage, type 99).
    pub reactor: bool,
    /// The place of its first point among the points of the case.
    pub first: u32,
    /// The number of its points: from 1 to 64.
    pub count: u32,
}

/// What a pseudo-nonlinear branch keeps of a step.
#[derive(Clone, Copy, PartialEq, Eq)]
pub struct PseudoState {
    /// The branch current, in nA: to 10^18 in magnitude.
    pub current: i64,
    /// The segment that the next step uses: from -63 to 63.
    pub segment: i32,
    /// The flux, in pWb: to 10^18 in magnitude; 0 for a resistor.
    pub flux: i64,
}

/// A point of a characteristic, of a table or of a list of times.
#[derive(Clone, Copy, PartialEq, Eq)]
pub struct Point {
    /// The current in nA of a pseudo-nonlinear branch, from 1 to 10^18; the input in nano of a table, to 10^18 in
    /// magnitude; the close time in ps of a list of times, from 0 to 10^18.
    pub current: i64,
    /// The voltage in nV of a resistor or the flux in pWb of a reactor, from 1 to 10^18; the output in nano of a
    /// table, to 10^18 in magnitude; the open time in ps of a list of times, from 0 to 10^18.
    pub other: i64,
}

/// One phase of a transposed three-phase line.
#[derive(Clone, Copy, PartialEq, Eq)]
pub struct Phase {
    /// The number of its card's line, from 1.
    pub line: u32,
    /// The node at the sending end; 0 is ground.
    pub from: u32,
    /// The node at the receiving end; 0 is ground.
    pub to: u32,
    /// The place of its line among the trios of the case.
    pub trio: u32,
    /// The number of the phase: 0, 1 or 2.
    pub phase: u8,
}

/// What one phase of a three-phase line keeps of a step: of both ends the current and the wave of the positive sequence.
/// Phase 0 keeps the waves of the zero sequence besides, which all three phases share.
#[derive(Clone, Copy, PartialEq, Eq)]
pub struct PhaseState {
    /// The current that enters the phase at `from`, in nA: to 10^18 in magnitude.
    pub from_current: i64,
    /// The current that enters the phase at `to`, in nA: to 10^18 in magnitude.
    pub to_current: i64,
    /// The wave of the positive sequence that leaves the end at `from`, in nA: to 10^18 in magnitude.
    pub from_wave: i64,
    /// The wave of the positive sequence that leaves the end at `to`, in nA: to 10^18 in magnitude.
    pub to_wave: i64,
    /// The wave of the zero sequence that leaves the ends at `from`, in nA: to 10^18 in magnitude; of phases 1 and 2 0.
    pub from_zero_wave: i64,
    /// The wave of the zero sequence that leaves the ends at `to`, in nA: to 10^18 in magnitude; of phases 1 and 2 0.
    pub to_zero_wave: i64,
}

/// The modes of a transposed three-phase line: at place 0 the zero sequence, at place 1 the positive sequence.
#[derive(Clone, Copy, PartialEq, Eq)]
pub struct Trio {
    /// The place of phase 0 among the branches; phases 1 and 2 follow it.
    pub first: u32,
    /// The surge impedances, in micro-ohm: from 10 to 10^15.
    pub zc: [i64; 2],
    /// The total resistances, in micro-ohm: from 0 to 10^15.
    pub r: [i64; 2],
    /// The travel times, in ps: from the time step to 10^18.
    pub delay: [i64; 2],
}

/// A branch of the network.
#[derive(Clone, Copy, PartialEq, Eq)]
pub enum Branch {
    /// A series branch.
    Lumped(Lumped),
    /// A single travelling-wave line.
    Line(Line),
    /// A pseudo-nonlinear branch.
    Pseudo(Pseudo),
    /// One phase of a transposed three-phase line.
    Phase(Phase),
}

impl Branch {
    ghost use Rattle.emtp_case.specs.Branch.{from_of, to_of, line_of};

    /// Its two nodes, `from` and `to`; 0 is ground.
    pub fn ends(&self) -> (u32, u32)
        ensures { result ≡ (from_of self.now, to_of self.now) }
    {
        match self {
            Branch::Lumped(b) => (b.from, b.to),
            Branch::Line(b) => (b.from, b.to),
            Branch::Pseudo(b) => (b.from, b.to),
            Branch::Phase(b) => (b.from, b.to),
        }
    }

    /// The number of its card's line.
    pub fn line(&self) -> u32
        ensures { result ≡ line_of self.now }
    {
        match self {
            Branch::Lumped(b) => b.line,
            Branch::Line(b) => b.line,
            Branch::Pseudo(b) => b.line,
            Branch::Phase(b) => b.line,
        }
    }
}
