//! The words of what is told, each written once: the definitions cite them.

/// The number that was nearest to its range's end before a step left it.
pub(crate) const RANGE: &[u8] = b"range";

/// A node by its name.
pub(crate) const NODE: &[u8] = b"node";

/// The voltage that an inductance keeps of its current.
pub(crate) const KEPT_VOLTAGE: &[u8] = b"2 L I / DELTAT";

/// In how many steps a point lay off its characteristic.
pub(crate) const OFF_IN_STEPS: &[u8] = b"off its characteristic in steps";

/// How many of these are samples.
pub(crate) const OFF_IN_SAMPLES: &[u8] = b"in samples";

/// The greatest voltage of the points that lay on it.
pub(crate) const VOLTAGE_ON: &[u8] = b"greatest |U| on it";

/// The greatest current of the points that lay on it.
pub(crate) const CURRENT_ON: &[u8] = b"greatest |I| on it";

/// The point off it with the greatest voltage.
pub(crate) const VOLTAGE_OFF: &[u8] = b"greatest |U| off it";

/// The point off it with the greatest current.
pub(crate) const CURRENT_OFF: &[u8] = b"greatest |I| off it";

/// The point that lies farthest off it.
pub(crate) const FARTHEST: &[u8] = b"farthest off it";

/// By how much it does.
pub(crate) const BY: &[u8] = b"by";

/// The number of a step.
pub(crate) const STEP: &[u8] = b"step";

/// A current.
pub(crate) const CURRENT: &[u8] = b"I";

/// A voltage.
pub(crate) const VOLTAGE: &[u8] = b"U";

/// A flux.
pub(crate) const FLUX: &[u8] = b"flux";

/// What a characteristic has at a current.
pub(crate) const CHARACTERISTIC: &[u8] = b"characteristic";

/// The unit of currents, behind a number.
pub(crate) const AMPERE: &[u8] = b" A";

/// The unit of voltages, behind a number.
pub(crate) const VOLT: &[u8] = b" V";

/// The unit of fluxes, behind a number.
pub(crate) const WEBER: &[u8] = b" Wb";

/// The greatest voltage off a characteristic exceeds the greatest one on it.
pub(crate) const FALSE_VOLTAGE: &[u8] =
    b"the record has a peak of the voltage that isn't on the characteristic";

/// The greatest current off a characteristic exceeds the greatest one on it.
pub(crate) const FALSE_CURRENT: &[u8] =
    b"the record has a peak of the current that isn't on the characteristic";
