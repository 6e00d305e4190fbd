//! The lines of a scan.

use emtp_case::Name;
use emtp_machine::Cause;

/// What a scan finds at a frequency.
#[derive(Clone, Copy, Debug)]
pub enum ScanAnswer {
    /// The impedance that the source sees, in 10^-9 ohm: to 10^18 in magnitude.
    Impedance {
        /// The real part.
        re: i64,
        /// The imaginary part.
        im: i64,
    },
    /// A branch has no admittance at this frequency.
    Refused {
        /// The number of its line, from 1.
        line: u32,
    },
    /// The solution ends.
    Ended {
        /// The node that is named.
        name: Name,
        /// Why it ends.
        cause: Cause,
        /// The residual in nA where that is the cause, else 0.
        measured: i128,
    },
}

/// A line of a scan.
#[derive(Clone, Copy, Debug)]
pub struct ScanLine {
    /// The frequency, in micro-hertz.
    pub freq: i64,
    /// What is found there.
    pub answer: ScanAnswer,
}
