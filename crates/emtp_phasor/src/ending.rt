//! How a solution ends that has no steady state.

ghost use Rattle.std.specs.Prelude.{◌≡◌};
ghost use Rattle.emtp_phasor.specs.Steady.{cause_of, ending_at};

use emtp_elim::RowCause;
use emtp_machine::Cause;

/// The end of a solution that isn't there.
#[derive(Clone, Copy, Debug, PartialEq, Eq)]
pub struct Ending {
    /// The node that is named.
    pub node: u32,
    /// Why it ends.
    pub cause: Cause,
    /// The residual in nA where that is the cause, else 0.
    pub measured: i128,
}

/// An end at a node that measures nothing.
pub(crate) fn ending_at(node: u32, cause: Cause) -> Ending
    ensures { result ≡ ending_at node cause }
{
    Ending {
        node,
        cause,
        measured: 0,
    }
}

/// The cause of an end by a fault of a row.
pub(crate) fn cause_of(cause: RowCause) -> Cause
    ensures { result ≡ cause_of cause }
{
    match cause {
        RowCause::Range => Cause::Range,
        RowCause::ZeroPivot => Cause::ZeroPivot,
    }
}
