//! The number fields of cards: where each one stands, its unit, and what its values may be.
//!
//! They are those that the readers of `emtp_netcards` and `emtp_taccards` have.

use emtp_card::NumberField;
use emtp_case::{LARGEST_TIME_STEP, LEAST_TIME_STEP};
use emtp_fix::{
    LARGEST_CAPACITANCE, LARGEST_COEFFICIENT, LARGEST_IMPEDANCE, LARGEST_INDUCTANCE, LARGEST_TIME,
    LARGEST_TOLERANCE, LARGEST_VALUE, LEAST_IMPEDANCE,
};
use emtp_netcards::LARGEST_FREQUENCY;

/// The greatest magnitude of a whole number.
const BILLION: i64 = 1_000_000_000;

/// The greatest part of a line's values.
const LARGEST_PART: i64 = 1_000_000_000_000;

/// The greatest velocity, in 10^-6 lengths a second.
const LARGEST_VELOCITY: i64 = 1_000_000_000_000_000_000;

/// The greatest flux, in pWb.
const LARGEST_FLUX: i64 = 1_000_000_000_000_000_000;

/// The greatest magnitude of a phase, in 10^-9 degree.
const LARGEST_PHASE: i64 = 1_000_000_000_000_000;

/// The tolerance, in nA.
pub(crate) const TOLERANCE: NumberField = NumberField {
    first: 25,
    last: 32,
    scale: 9,
    low: 0,
    high: LARGEST_TOLERANCE as i64,
};

/// DELTAT, in ps.
pub(crate) const DELTAT: NumberField = NumberField {
    first: 1,
    last: 8,
    scale: 12,
    low: LEAST_TIME_STEP as i64,
    high: LARGEST_TIME_STEP as i64,
};

/// TMAX, in ps.
pub(crate) const TMAX: NumberField = NumberField {
    first: 9,
    last: 16,
    scale: 12,
    low: 1,
    high: LARGEST_TIME as i64,
};

/// XOPT.
pub(crate) const XOPT: NumberField = NumberField {
    first: 17,
    last: 24,
    scale: 0,
    low: 0,
    high: 0,
};

/// COPT.
pub(crate) const COPT: NumberField = NumberField {
    first: 25,
    last: 32,
    scale: 0,
    low: 0,
    high: 0,
};

/// The resistance of a series branch, in micro-ohm.
pub(crate) const R: NumberField = NumberField {
    first: 27,
    last: 32,
    scale: 6,
    low: 0,
    high: LARGEST_IMPEDANCE as i64,
};

/// Its inductance, in nH.
pub(crate) const L: NumberField = NumberField {
    first: 33,
    last: 38,
    scale: 6,
    low: 0,
    high: LARGEST_INDUCTANCE as i64,
};

/// Its capacitance, in fF.
pub(crate) const C: NumberField = NumberField {
    first: 39,
    last: 44,
    scale: 9,
    low: 0,
    high: LARGEST_CAPACITANCE as i64,
};

/// Its resistance in wide columns.
pub(crate) const WIDE_R: NumberField = NumberField {
    first: 27,
    last: 42,
    scale: 6,
    low: 0,
    high: LARGEST_IMPEDANCE as i64,
};

/// Its inductance in wide columns.
pub(crate) const WIDE_L: NumberField = NumberField {
    first: 43,
    last: 58,
    scale: 6,
    low: 0,
    high: LARGEST_INDUCTANCE as i64,
};

/// Its capacitance in wide columns.
pub(crate) const WIDE_C: NumberField = NumberField {
    first: 59,
    last: 74,
    scale: 9,
    low: 0,
    high: LARGEST_CAPACITANCE as i64,
};

/// The resistance of a line per length, in micro-ohm.
pub(crate) const LINE_R: NumberField = NumberField {
    first: 27,
    last: 32,
    scale: 6,
    low: 0,
    high: LARGEST_PART,
};

/// Its inductance per length, in nH.
pub(crate) const LINE_L: NumberField = NumberField {
    first: 33,
    last: 38,
    scale: 6,
    low: 1,
    high: LARGEST_PART,
};

/// Its surge impedance, in micro-ohm.
pub(crate) const SURGE_IMPEDANCE: NumberField = NumberField {
    first: 33,
    last: 38,
    scale: 6,
    low: LEAST_IMPEDANCE as i64,
    high: LARGEST_IMPEDANCE as i64,
};

/// Its capacitance per length, in fF.
pub(crate) const LINE_C: NumberField = NumberField {
    first: 39,
    last: 44,
    scale: 9,
    low: 1,
    high: LARGEST_PART,
};

/// The velocity of its waves, in 10^-6 lengths a second.
pub(crate) const VELOCITY: NumberField = NumberField {
    first: 39,
    last: 44,
    scale: 6,
    low: 1,
    high: LARGEST_VELOCITY,
};

/// Its travel time, in ps.
pub(crate) const TRAVEL_TIME: NumberField = NumberField {
    first: 39,
    last: 44,
    scale: 12,
    low: 1,
    high: LARGEST_TIME as i64,
};

/// Its length, in 10^-6.
pub(crate) const LENGTH: NumberField = NumberField {
    first: 45,
    last: 50,
    scale: 6,
    low: 1,
    high: LARGEST_PART,
};

/// The flashover voltage of a nonlinear resistor, which is 0.
pub(crate) const FLASHOVER: NumberField = NumberField {
    first: 27,
    last: 32,
    scale: 0,
    low: 0,
    high: 0,
};

/// Its delay, which is 0.
pub(crate) const DELAY: NumberField = NumberField {
    first: 33,
    last: 38,
    scale: 0,
    low: 0,
    high: 0,
};

/// Its jump, which is 0.
pub(crate) const JUMP: NumberField = NumberField {
    first: 39,
    last: 44,
    scale: 0,
    low: 0,
    high: 0,
};

/// The current of a point, in nA.
pub(crate) const CURRENT: NumberField = NumberField {
    first: 1,
    last: 16,
    scale: 9,
    low: 1,
    high: LARGEST_VALUE as i64,
};

/// Its voltage, in nV.
pub(crate) const VOLTAGE: NumberField = NumberField {
    first: 17,
    last: 32,
    scale: 9,
    low: 1,
    high: LARGEST_VALUE as i64,
};

/// Its flux, in pWb.
pub(crate) const FLUX: NumberField = NumberField {
    first: 17,
    last: 32,
    scale: 12,
    low: 1,
    high: LARGEST_FLUX,
};

/// The input of a point of a table, in 10^-9.
pub(crate) const INPUT: NumberField = NumberField {
    first: 1,
    last: 16,
    scale: 9,
    low: -(LARGEST_VALUE as i64),
    high: LARGEST_VALUE as i64,
};

/// Its output, in 10^-9.
pub(crate) const OUTPUT: NumberField = NumberField {
    first: 17,
    last: 32,
    scale: 9,
    low: -(LARGEST_VALUE as i64),
    high: LARGEST_VALUE as i64,
};

/// The time at which a window closes, in ps.
pub(crate) const CLOSING: NumberField = NumberField {
    first: 1,
    last: 16,
    scale: 12,
    low: 0,
    high: LARGEST_TIME as i64,
};

/// The time at which it opens, in ps.
pub(crate) const OPENING: NumberField = NumberField {
    first: 17,
    last: 32,
    scale: 12,
    low: 0,
    high: LARGEST_TIME as i64,
};

/// T-CLOSE, in ps.
pub(crate) const T_CLOSE: NumberField = NumberField {
    first: 15,
    last: 24,
    scale: 12,
    low: -(LARGEST_TIME as i64),
    high: LARGEST_TIME as i64,
};

/// T-OPEN, in ps.
pub(crate) const T_OPEN: NumberField = NumberField {
    first: 25,
    last: 34,
    scale: 12,
    low: -(LARGEST_TIME as i64),
    high: LARGEST_TIME as i64,
};

/// The margin, in nA.
pub(crate) const MARGIN: NumberField = NumberField {
    first: 35,
    last: 44,
    scale: 9,
    low: 0,
    high: LARGEST_VALUE as i64,
};

/// The ignition voltage of a valve, in nV.
pub(crate) const IGNITION: NumberField = NumberField {
    first: 15,
    last: 24,
    scale: 9,
    low: 0,
    high: LARGEST_VALUE as i64,
};

/// Its holding current, in nA.
pub(crate) const HOLDING: NumberField = NumberField {
    first: 25,
    last: 34,
    scale: 9,
    low: 0,
    high: LARGEST_VALUE as i64,
};

/// The amplitude of a source, in nV, nA or 10^-9.
pub(crate) const AMPLITUDE: NumberField = NumberField {
    first: 11,
    last: 20,
    scale: 9,
    low: -(LARGEST_VALUE as i64),
    high: LARGEST_VALUE as i64,
};

/// The frequency of a cosine, in micro-hertz.
pub(crate) const FREQUENCY: NumberField = NumberField {
    first: 21,
    last: 30,
    scale: 6,
    low: 0,
    high: LARGEST_FREQUENCY,
};

/// Its phase, in 10^-9 degree.
pub(crate) const PHASE: NumberField = NumberField {
    first: 31,
    last: 40,
    scale: 9,
    low: -LARGEST_PHASE,
    high: LARGEST_PHASE,
};

/// T0 of a ramp, in ps.
pub(crate) const RISE: NumberField = NumberField {
    first: 31,
    last: 40,
    scale: 12,
    low: 1,
    high: LARGEST_TIME as i64,
};

/// A1 of a cosine, which is 0.
pub(crate) const A1: NumberField = NumberField {
    first: 41,
    last: 50,
    scale: 0,
    low: 0,
    high: 0,
};

/// TSTART, in ps.
pub(crate) const START: NumberField = NumberField {
    first: 61,
    last: 70,
    scale: 12,
    low: -(LARGEST_TIME as i64),
    high: LARGEST_TIME as i64,
};

/// TSTOP, in ps.
pub(crate) const STOP: NumberField = NumberField {
    first: 71,
    last: 80,
    scale: 12,
    low: 0,
    high: LARGEST_TIME as i64,
};

/// The period of pulses and of a sawtooth, in ps.
pub(crate) const PERIOD: NumberField = NumberField {
    first: 21,
    last: 30,
    scale: 12,
    low: 1,
    high: LARGEST_TIME as i64,
};

/// The width of pulses, in ps.
pub(crate) const WIDTH: NumberField = NumberField {
    first: 31,
    last: 40,
    scale: 12,
    low: 1,
    high: LARGEST_TIME as i64,
};

/// The gain of a block, in 10^-12.
pub(crate) const GAIN: NumberField = NumberField {
    first: 51,
    last: 56,
    scale: 12,
    low: -(LARGEST_COEFFICIENT as i64),
    high: LARGEST_COEFFICIENT as i64,
};

/// Its low limit, in 10^-9.
pub(crate) const LOW: NumberField = NumberField {
    first: 57,
    last: 62,
    scale: 9,
    low: -(LARGEST_VALUE as i64),
    high: LARGEST_VALUE as i64,
};

/// Its high limit, in 10^-9.
pub(crate) const HIGH: NumberField = NumberField {
    first: 63,
    last: 68,
    scale: 9,
    low: -(LARGEST_VALUE as i64),
    high: LARGEST_VALUE as i64,
};

/// A of a device, in 10^-9.
pub(crate) const A: NumberField = NumberField {
    first: 51,
    last: 56,
    scale: 9,
    low: -(LARGEST_VALUE as i64),
    high: LARGEST_VALUE as i64,
};

/// A of a delay, in ps.
pub(crate) const DELAY_OF_DEVICE: NumberField = NumberField {
    first: 51,
    last: 56,
    scale: 12,
    low: 0,
    high: LARGEST_TIME as i64,
};

/// A of an effective value, in micro-hertz.
pub(crate) const FREQUENCY_OF_DEVICE: NumberField = NumberField {
    first: 51,
    last: 56,
    scale: 6,
    low: 1,
    high: LARGEST_FREQUENCY,
};

/// B of a device, in 10^-9.
pub(crate) const B: NumberField = NumberField {
    first: 57,
    last: 62,
    scale: 9,
    low: -(LARGEST_VALUE as i64),
    high: LARGEST_VALUE as i64,
};

/// C of a device, in 10^-9.
pub(crate) const C_OF_DEVICE: NumberField = NumberField {
    first: 63,
    last: 68,
    scale: 9,
    low: -(LARGEST_VALUE as i64),
    high: LARGEST_VALUE as i64,
};

/// IOUT, which has no effect.
pub(crate) const IOUT: NumberField = NumberField {
    first: 1,
    last: 8,
    scale: 0,
    low: -BILLION,
    high: BILLION,
};

/// IPLOT: each so many records one is a sample.
pub(crate) const IPLOT: NumberField = NumberField {
    first: 9,
    last: 16,
    scale: 0,
    low: 0,
    high: 1_000_000,
};

/// The form of a line, ILINE.
pub(crate) const FORM: NumberField = NumberField {
    first: 51,
    last: 52,
    scale: 0,
    low: 0,
    high: 2,
};

/// What a branch or a switch asks for.
pub(crate) const ASKED: NumberField = NumberField {
    first: 80,
    last: 80,
    scale: 0,
    low: 0,
    high: 3,
};

/// The kind of a source: below 0 one of a current.
pub(crate) const SOURCE_KIND: NumberField = NumberField {
    first: 9,
    last: 10,
    scale: 0,
    low: -BILLION,
    high: BILLION,
};

/// The order of a block.
pub(crate) const ORDER: NumberField = NumberField {
    first: 1,
    last: 2,
    scale: 0,
    low: 0,
    high: 7,
};
