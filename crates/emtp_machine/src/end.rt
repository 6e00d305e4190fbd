//! The end of a run that stops early.

ghost use Rattle.std.specs.Prelude.{◌≡◌, ◌≤◌, ◌++◌, length, OnOk};
ghost use Rattle.emtp_machine.specs.End.{cause_text, measured_text};

use emtp_case::Name;
use emtp_text::{put, put_number};
use std::alloc::AllocError;

/// Why a step has no record.
#[derive(Clone, Copy, Debug, PartialEq, Eq)]
pub enum Cause {
    /// Closed switches tie two known voltages.
    Tied,
    /// A pivot of the nodal matrix is 0.
    ZeroPivot,
    /// A number of the network leaves its range.
    Range,
    /// The residual of Kirchhoff's current law exceeds the tolerance.
    Residual,
    /// A pivot of the control's matrix is 0.
    TacsPivot,
    /// A number of the control leaves its range.
    TacsRange,
}

impl Cause {
    ghost use Rattle.emtp_machine.specs.End.{cause_word};

    /// Its word in notes and summaries, of at most nine letters. This project's own.
    pub fn word(self) -> &'static [u8]
        ensures word { result.now ≡ cause_word self }
        ensures short { length result.now ≤ 9 }
    {
        match self {
            Cause::Tied => b"TIED",
            Cause::ZeroPivot => b"ZEROPIVOT",
            Cause::Range => b"RANGE",
            Cause::Residual => b"RESIDUAL",
            Cause::TacsPivot => b"TACSPIVOT",
            Cause::TacsRange => b"TACSRANGE",
        }
    }
}

/// The step that has no record.
#[derive(Clone, Copy, Debug, PartialEq, Eq)]
pub struct End {
    /// Its number; rest is record 0.
    pub step: u32,
    /// The node, or the variable, that is named.
    pub name: Name,
    /// Why it has no record.
    pub cause: Cause,
    /// The residual in nA where that is the cause, else 0.
    pub measured: i128,
}

/// Puts after a text why a step has no record: the word of the cause, the node or variable that is named, and the
/// residual in nA where that is the cause.
///
/// # Errors
///
/// [`AllocError`] where memory is wanting.
#[tactic(auto, unfolding(crate::specs::End::cause_text))]
pub fn put_cause(
    text: &mut Vec<u8>,
    cause: Cause,
    name: &Name,
    measured: i128,
) -> Result<(), AllocError>
    ensures { OnOk result (text.new.items ≡ text.old.items ++ cause_text cause name.now measured) }
{
    put(text, cause.word())?;
    put(text, b" ")?;
    put(text, name.as_slice())?;
    put_measured(text, cause, measured)
}

/// Puts the residual that was measured after a text, where that is the cause.
fn put_measured(text: &mut Vec<u8>, cause: Cause, measured: i128) -> Result<(), AllocError>
    ensures { OnOk result (text.new.items ≡ text.old.items ++ measured_text cause measured) }
{
    if cause != Cause::Residual {
        return Ok(());
    }
    put(text, b" ")?;
    put_number(text, measured)
}
