//! Why a case is refused, and where.

ghost use Rattle.std.specs.Prelude.{◌≡◌};
ghost use Rattle.emtp_card.specs.Reason.{reason_number};

use std::alloc::{AllocError, AllocFailed};
use std::fmt;
use thiserror::Error;

/// The reason for which a card is refused. This project's own list; notes print the number and the name.
#[derive(Clone, Copy, Debug, PartialEq, Eq)]
pub enum Why {
    /// A byte that isn't from 0x20 to 0x7E.
    ByteOutside,
    /// A byte other than a blank past column 80.
    PastColumn80,
    /// A field that is no number.
    NotANumber,
    /// A field that is no whole number.
    NotWhole,
    /// A number outside its field's range, or a blank field that must have one.
    OutOfUnitRange,
    /// More than 100,000 lines or 9,000,000 bytes.
    TooManyLines,
    /// A card type that isn't known, or isn't allowed there.
    BadType,
    /// A name that isn't allowed there.
    BadName,
    /// An impedance outside its range.
    BadImpedance,
    /// A line whose travel time is below the time step.
    ShortLine,
    /// A point of a characteristic, or of a table, out of order or of place.
    BadPoints,
    /// A card in a place where it can't stand.
    BadOrder,
    /// A name that nothing defines.
    UnknownName,
    /// A second voltage source of a node, or a second definition of a variable.
    TwoSources,
    /// A card that exceeds a limit by count.
    TooMany,
    /// A case that ends before its last section does.
    MissingSection,
    /// More stored values than a record may have.
    TooManySamples,
    /// A text that is no expression.
    BadExpression,
}

impl Why {
    /// The number of the reason, from 1 to 18.
    pub fn number(&self) -> u32
        ensures { result ≡ reason_number self.now }
    {
        match self {
            Why::ByteOutside => 1,
            Why::PastColumn80 => 2,
            Why::NotANumber => 3,
            Why::NotWhole => 4,
            Why::OutOfUnitRange => 5,
            Why::TooManyLines => 6,
            Why::BadType => 7,
            Why::BadName => 8,
            Why::BadImpedance => 9,
            Why::ShortLine => 10,
            Why::BadPoints => 11,
            Why::BadOrder => 12,
            Why::UnknownName => 13,
            Why::TwoSources => 14,
            Why::TooMany => 15,
            Why::MissingSection => 16,
            Why::TooManySamples => 17,
            Why::BadExpression => 18,
        }
    }
}

/// A refused card: its line and column, each counted from 1, and the reason.
#[derive(Clone, Copy, Debug, PartialEq, Eq)]
pub struct Bad {
    /// The line, counted from 1; comments count.
    pub line: u32,
    /// The column, counted from 1.
    pub column: u32,
    /// The reason.
    pub why: Why,
}

impl fmt::Display for Bad {
    fn fmt<W: fmt::Write>(&self, f: &mut fmt::Formatter<W>) -> fmt::Result {
        write!(
            f,
            "line {}, column {}: {:?}",
            self.line, self.column, self.why
        )
    }
}

/// Why a case isn't read: a refused card, or no memory.
#[derive(Debug, Drop, Error)]
pub enum Refused {
    /// The first card that doesn't fit, by the rules of the deck.
    #[error("{0}")]
    Bad(Bad),
    /// Memory was wanting.
    #[error("out of memory")]
    NoMemory,
}

impl From<AllocError> for Refused {
    ghost use Rattle.emtp_card.specs.declared.reason.Refused.TheVariants.{NoMemory};

    ghost from_gives = { λ _ refused. refused ≡ NoMemory };

    fn from(_error: AllocError) -> Refused {
        Refused::NoMemory
    }
}

impl<T: Drop> From<AllocFailed<T>> for Refused {
    ghost use Rattle.emtp_card.specs.declared.reason.Refused.TheVariants.{NoMemory};

    ghost from_gives = { λ _ refused. refused ≡ NoMemory };

    fn from(_error: AllocFailed<T>) -> Refused {
        Refused::NoMemory
    }
}
