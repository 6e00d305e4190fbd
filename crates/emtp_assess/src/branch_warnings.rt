//! The warnings of series branches that act as others.
ghost use Rattle.std.specs.Prelude.{◌≡◌, IfOk};
ghost use Rattle.emtp_assess.specs.BranchWarnings.{branch_warnings, is_of_branch};
ghost use Rattle.emtp_warnings.specs.Warnings.{warnings};

use emtp_card::Cards;
use emtp_case::Case;
use emtp_walk::LineReading;
use emtp_warnings::{Finding, Warning, warnings};
use std::alloc::{AllocError, Global};

/// Whether a series branch that acts as another is warned of.
fn is_of_branch(finding: Finding) -> bool
    ensures { result ≡ is_of_branch finding }
{
    matches!(
        finding,
        Finding::Drifts { .. }
            | Finding::OtherResistance(_)
            | Finding::OtherCapacitance(_)
            | Finding::ActsAsWire
    )
}

/// The warnings of series branches that act as others, among all of a case.
pub(crate) fn branch_warnings(
    alloc: Global,
    cards: &Cards<'_>,
    readings: &[LineReading],
    case: &Case,
) -> Result<Vec<Warning>, AllocError>
    ensures { IfOk result (λ found. found.items ≡ branch_warnings (warnings readings.now cards.now case.now.parts)) }
{
    let all = warnings(alloc, cards, readings, case)?;
    let mut found = Vec::new(alloc);
    for warning in &all {
        if is_of_branch(warning.finding) {
            found.push(*warning)?;
        }
    }
    Ok(found)
}
