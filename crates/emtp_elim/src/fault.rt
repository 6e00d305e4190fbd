// What may be wrong with a matrix and a right side.
use std::alloc::AllocError;

/// What is wrong with a row of a matrix.
#[derive(Clone, Copy, Debug, PartialEq, Eq)]
pub enum RowCause {
    /// An entry exceeds 1e17, or a ratio to an earlier pivot 1e18, at the start or on the way. Units of 1e-12.
    Range,

    /// The row stays in range, and its pivot is 0.
    ZeroPivot,
}

/// The least faulty row of a matrix.
#[derive(Clone, Copy, Debug, PartialEq, Eq)]
pub struct RowFault {
    /// The row's number, from 0.
    pub row: usize,

    /// What is wrong with it.
    pub cause: RowCause,
}

/// A right side or an unknown that exceeds 1e18 in magnitude, with a matrix that is in order.
#[derive(Clone, Copy, Debug, PartialEq, Eq)]
pub struct SolveFault {
    /// The number of its row, from 0.
    pub row: usize,
}

/// Why an elimination has no solution.
#[derive(Debug, Drop)]
pub enum PlainFault {
    /// The matrix is at fault.
    Row(RowFault),

    /// A right side or an unknown leaves its range.
    Solve(SolveFault),

    /// There was no memory for the work.
    NoMemory,
}

impl From<AllocError> for PlainFault {
    ghost use Rattle.std.specs.Prelude.{◌≡◌};
    ghost use Rattle.emtp_elim.specs.declared.fault.PlainFault.{PlainFault};

    ghost from_gives = { λ _ fault. fault ≡ PlainFault.NoMemory };

    fn from(_: AllocError) -> Self {
        PlainFault::NoMemory
    }
}
