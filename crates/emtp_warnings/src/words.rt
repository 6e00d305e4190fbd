//! The words of warnings, each written once: the definitions cite them.

/// Columns that no field has.
pub(crate) const NOT_READ: &[u8] = b"not read";

/// Two numbers that may be one.
pub(crate) const NUMBERS_TOUCH: &[u8] = b"two numbers touch";

/// A name that may stand a column too far to the left.
pub(crate) const LATE_NAME: &[u8] = b"the name may be the next field's, which is blank";

/// A node that nothing else has.
pub(crate) const LONE_NODE: &[u8] = b"no other branch, switch or source has the node";

/// A node of the name `0`.
pub(crate) const NODE_ZERO: &[u8] = b"node 0 is not ground";

/// A node whose name differs from another's in case alone.
pub(crate) const CASE_ALONE: &[u8] = b"another node's name differs in case alone";

/// A cosine that is a constant.
pub(crate) const NO_FREQUENCY: &[u8] = b"cosine of frequency 0";

/// A line of less than two steps.
pub(crate) const SHORT_TRAVEL: &[u8] = b"travel time below two steps";

/// A line whose waves come to no end in the run.
pub(crate) const LATE_TRAVEL: &[u8] = b"travel time after the end of the run";

/// A capacitance that may have been meant in farads.
pub(crate) const SMALL_CAPACITANCE: &[u8] = b"a capacitance below 1 pF; C is in uF";

/// A switch beside another.
pub(crate) const SIDE_BY_SIDE: &[u8] =
    b"closed beside a switch between the same nodes: one of the two carries nothing";

/// A time that the run never comes to.
pub(crate) const AFTER_END: &[u8] = b"after the end of the run";

/// A cosine that should have begun before the run.
pub(crate) const EARLY_COSINE: &[u8] = b"every case starts at rest";

/// A source that stops before it starts.
pub(crate) const NEVER_ACTS: &[u8] = b"the source never acts";

/// A switch that opens before it closes.
pub(crate) const OPENS_FIRST: &[u8] = b"opens before it closes";

/// A channel that is there already.
pub(crate) const ASKED_TWICE: &[u8] = b"asked for twice";

/// A series branch in which a current drifts that nothing drives.
pub(crate) const DRIFTS: &[u8] = b"the rounding of its conductance acts as a resistance in series";

/// A resistance that its branch acts without, or with half of.
pub(crate) const OTHER_RESISTANCE: &[u8] = b"R acts as another one";

/// A capacitance whose dt/2C is another one in whole micro-ohm.
pub(crate) const OTHER_CAPACITANCE: &[u8] = b"C acts as another one";

/// A capacitance whose dt/2C is below half a micro-ohm.
pub(crate) const ACTS_AS_WIRE: &[u8] = b"C acts as a wire";

/// A nonlinear resistor that a wave meets without a front.
pub(crate) const BARE_ARRESTER: &[u8] =
    b"an arrester at a line's end without the capacitance of ten steps: a steep wave makes voltages off its characteristic";

/// The name before the resistance that a branch acts with besides its own.
pub(crate) const SERIES_RESISTANCE: &[u8] = b": r=";

/// The name before what it does to a current over the run.
pub(crate) const DRIFT: &[u8] = b", r T/L=";

/// The name before an inductance that has none to speak of.
pub(crate) const CLEAN: &[u8] = b", none with L=";

/// The name before what acts of both resistances.
pub(crate) const WHOLE_RESISTANCE: &[u8] = b": R + r=";

/// The name before what acts of a capacitance.
pub(crate) const ACTING_CAPACITANCE: &[u8] = b": acting C=";

/// No unit, as of a ratio.
pub(crate) const NO_UNIT: &[u8] = b"";

/// The unit of a resistance.
pub(crate) const OHM: &[u8] = b" ohm";

/// The unit of an inductance.
pub(crate) const MILLIHENRY: &[u8] = b" mH";

/// The unit of a capacitance.
pub(crate) const MICROFARAD: &[u8] = b" uF";
