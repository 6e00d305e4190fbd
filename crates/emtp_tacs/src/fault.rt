//! Why a step of the control has no record.

ghost use Rattle.std.specs.Prelude.{◌≡◌};
ghost use Rattle.emtp_tacs.specs.Step.{range_fault};

/// The first fault of a step.
#[derive(Clone, Copy, Debug, PartialEq, Eq)]
pub struct TacsFault {
    /// The number of the variable that it is named by.
    pub var: u32,
    /// Whether the pivot of its block's row is 0; else a number left its range.
    pub pivot: bool,
}

/// A variable that is out of range.
pub(crate) fn range_fault(var: u32) -> TacsFault
    ensures { result ≡ range_fault var }
{
    TacsFault { var, pivot: false }
}
