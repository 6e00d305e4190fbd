//! The cards of a case that is shown, and the branch card of a line.

ghost use Rattle.std.specs.Prelude.{◌≡◌, ◌≤◌, length};
ghost use Rattle.emtp_inspect.specs.EachCard.{branch_in};

use emtp_card::{Cards, Line, MAX_BYTES};
use emtp_case::Case;
use emtp_netcards::{BranchCard, branch};
use emtp_walk::{Kind, LineReading};

/// What is shown: the cards of a case, as what each of their lines is read, and the case.
#[derive(Clone, Copy)]
pub(crate) struct Shown<'a> {
    /// The cards.
    pub(crate) cards: &'a Cards<'a>,
    /// As what each line is read.
    pub(crate) readings: &'a [LineReading],
    /// The case.
    pub(crate) case: &'a Case,
}

/// The branch card of a line, if it is one.
pub(crate) fn branch_in(case: &Case, line: &Line<'_>, kind: Kind) -> Option<BranchCard>
    requires { length line.now.bytes.now ≤ MAX_BYTES }
    ensures { result ≡ branch_in case.now.parts.run.dt line.now.number line.now.bytes.now kind }
{
    match kind {
        Kind::Branch(wide) => match branch(*line, &case.parts.run, wide) {
            Ok(card) => Some(card),
            Err(_) => None,
        },
        _ => None,
    }
}
