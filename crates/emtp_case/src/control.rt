//! The blocks, devices and formulas of the control.

use crate::expr::Node;
use crate::items::Items;

/// One signed input of a block or a device.
#[derive(Clone, Copy, PartialEq, Eq)]
pub struct Input {
    /// The number of the variable.
    pub var: u32,
    /// Whether it counts with a minus sign.
    pub minus: bool,
}

/// A transfer function of order 0 to 7 with a limited output.
#[derive(Drop)]
pub struct Block {
    /// The number of its card's line, from 1.
    pub line: u32,
    /// The number of its variable.
    pub var: u32,
    /// The order: from 0 to 7. Order 0 is a plain gain.
    pub order: u8,
    /// The inputs: at most five.
    pub inputs: Items<Input>,
    /// The gain, in 10^-12: not 0, to 10^18 in magnitude.
    pub gain: i64,
    /// The coefficients of the numerator by the power of s, in 10^-12: to 10^18 in magnitude.
    pub top: [i64; 8],
    /// The coefficients of the denominator by the power of s, in 10^-12: to 10^18 in magnitude.
    pub bottom: [i64; 8],
    /// The low limit of the output.
    pub low: Bound,
    /// The high limit of the output.
    pub high: Bound,
}

/// A limit of a block's output.
#[derive(Clone, Copy, PartialEq, Eq)]
pub enum Bound {
    /// No limit.
    None,
    /// A fixed limit, in nano: to 10^18 in magnitude.
    Fixed(i64),
    /// The value of a variable.
    Named(u32),
}

/// Where the limiter of a block stands after a step.
#[derive(Clone, Copy, PartialEq, Eq)]
pub enum Limiter {
    /// Within both limits.
    Free,
    /// Held at the high limit.
    AtHigh,
    /// Held at the low limit.
    AtLow,
}

/// What a block keeps of a step. Past its order all entries are 0.
#[derive(Clone, Copy, PartialEq, Eq)]
pub struct BlockState {
    /// Where its limiter stands.
    pub limiter: Limiter,
    /// E(0), E(1) and so on, below the order, in 10^-18: to 2 * 10^35 in magnitude.
    pub errors: [i128; 8],
    /// Y(1), Y(2) and so on, up to the order, in 10^-18: to 10^36 in magnitude.
    pub chain: [i128; 8],
}

/// When a supplemental card is computed: its group.
#[derive(Clone, Copy, PartialEq, Eq)]
pub enum Group {
    /// Before the blocks: the cards 99.
    Input,
    /// After the blocks: the cards 88.
    Inside,
    /// After the blocks: the cards 98.
    Output,
}

/// The equation of a device, by the code of its card.
#[derive(Clone, Copy, PartialEq, Eq)]
pub enum DeviceCode {
    /// 51: the input where the magnitude of D is above A; with B the other way round.
    Gate,
    /// 52: the input where D is above A; with B the other way round.
    GateAbove,
    /// 53: the input of a time A before.
    Delay,
    /// 54: 1 where the input of a time A before is above 0.
    DelayedPulse,
    /// 56: the value at the input of a line through points.
    Table,
    /// 57: the input within the times of a pair.
    Window,
    /// 58: the integral of the input by the trapezoidal rule.
    Integral,
    /// 59: the change of the input a second.
    Derivative,
    /// 60: one of three inputs, as D is below, equal to or above A.
    Selector,
    /// 62: the input where D is above 0, else held.
    SampleHold,
    /// 63: the greatest or least input.
    Extreme,
    /// 64: the greatest or least input so far.
    PeakHold,
    /// 65: the sum of the input over the steps.
    Counter,
    /// 66: the effective value of the input over a period of the frequency A.
    EffectiveValue,
}

/// A device of the supplemental cards.
#[derive(Drop)]
pub struct Device {
    /// The number of its card's line, from 1.
    pub line: u32,
    /// The number of its variable.
    pub var: u32,
    /// When it is computed.
    pub group: Group,
    /// Its equation.
    pub code: DeviceCode,
    /// The inputs: at most five.
    pub inputs: Items<Input>,
    /// The number A: in nano to 10^18 in magnitude; of a delay or delayed pulse in ps from 0 to 10^18; of an effective
    /// value in micro-hertz from 1 to 10^13.
    pub a: i64,
    /// The number B, in nano: to 10^18 in magnitude.
    pub b: i64,
    /// The number C, in nano: to 10^18 in magnitude.
    pub c: i64,
    /// The variable D, if it is named. Both gates and the selector name it.
    pub d: Option<u32>,
    /// The variable E, if it is named.
    pub e: Option<u32>,
    /// The place of its first point or pair of times among the points of the case.
    pub first: u32,
    /// The number of a table's points, from 2 to 64, or of a window's pairs of times, from 1 to 64; else 0.
    pub count: u32,
}

/// What a record keeps of a device.
#[derive(Clone, Copy, PartialEq, Eq)]
pub struct DeviceState {
    /// The signed sum of its inputs, in nano: to 10^18 in magnitude.
    pub input: i64,
    /// Its output, in nano: to 10^18 in magnitude.
    pub output: i64,
}

/// A formula of the supplemental cards.
#[derive(Drop)]
pub struct Formula {
    /// The number of its card's line, from 1.
    pub line: u32,
    /// The number of its variable.
    pub var: u32,
    /// When it is computed.
    pub group: Group,
    /// The nodes of the expression in postfix order; its places are those in `vars`.
    pub expr: Items<Node>,
    /// The variables that the expression names.
    pub vars: Items<u32>,
}

/// A supplemental card.
#[derive(Drop)]
pub enum Extra {
    /// A device.
    Device(Device),
    /// A formula.
    Formula(Formula),
}
