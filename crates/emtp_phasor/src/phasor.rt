//! Complex numbers.

/// A complex number: a voltage in nV or a current in nA.
#[derive(Clone, Copy, Debug, PartialEq, Eq)]
pub struct Phasor {
    /// The real part: to 10^18 in magnitude.
    pub re: i64,
    /// The imaginary part: to 10^18 in magnitude.
    pub im: i64,
}

/// 0.
pub(crate) const NOTHING: Phasor = Phasor { re: 0, im: 0 };
