//! Why a case has no steady state, or can't be scanned.

ghost use Rattle.std.specs.Prelude.{◌≡◌};

use emtp_admittance::Refusal;
use emtp_case::Name;
use emtp_machine::Cause;
use std::alloc::AllocError;

/// Why there is no answer.
#[derive(Clone, Copy, Debug)]
pub enum PhasorFault {
    /// A card is refused.
    Refused {
        /// The number of its line, from 1; 1 too where the whole case is refused.
        line: u32,
        /// Why it is refused.
        reason: Refusal,
    },
    /// The solution ends.
    Ended {
        /// The node that is named.
        name: Name,
        /// Why it ends.
        cause: Cause,
        /// The residual in nA where that is the cause, else 0.
        measured: i128,
    },
    /// No memory is left.
    NoMemory,
}

impl From<AllocError> for PhasorFault {
    ghost use Rattle.emtp_phasor.specs.declared.fault.PhasorFault.TheVariants.{NoMemory};

    ghost from_gives = { λ _ e. e ≡ NoMemory };

    fn from(_: AllocError) -> PhasorFault {
        PhasorFault::NoMemory
    }
}
