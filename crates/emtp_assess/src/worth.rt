//! What a run is worth: its note, what was nearest to the end of its range where a step left it, the warnings of branches that
//! act as others, and how far points lay off their characteristics.
ghost use Rattle.std.specs.Prelude.{◌≡◌, ◌++◌, ◌<◌, IfOk};
ghost use Rattle.emtp_assess.specs.JudgedLines.{judged_lines};
ghost use Rattle.emtp_assess.specs.RangeLine.{range_text};
ghost use Rattle.emtp_machine.specs.History.{history};
ghost use Rattle.emtp_machine.specs.held.Machine.{history_of};
ghost use Rattle.emtp_run.specs.Texts.{run_note};
ghost use Rattle.emtp_worth.specs.Judged.{all_judged};

use crate::judged_lines::put_all_judged;
use crate::range_line::put_range;
use crate::run_note::put_note;
use crate::stepped::Stepped;
use emtp_case::Case;
use emtp_fix::Steps;
use emtp_machine::{End, Machine};
use emtp_text::put;
use emtp_worth::{Judged, judge};
use std::alloc::{AllocError, Global};
use std::marker::Brand;
use std::sync::ledger::{Blank, Ledger};

/// Runs a case, and tells what the run is worth, with these warnings.
///
/// # Errors
///
/// [`AllocError`] where memory is wanting.
pub(crate) fn worth_text(alloc: Global, case: &Case, warned: &[u8]) -> Result<Vec<u8>, AllocError>
    ensures { IfOk result (λ text. text.items ≡ run_note case.now.parts (history case.now.parts)
        ++ range_text case.now.parts (history case.now.parts) ++ warned.now
        ++ judged_lines case.now.parts.nodes (all_judged case.now.parts (history case.now.parts).records)) }
{
    judged_run::<Brand>(alloc, case, warned, Blank::new(1))
}

/// The same over a ledger.
fn judged_run<L: Ledger>(
    alloc: Global,
    case: &Case,
    warned: &[u8],
    blank: Blank,
) -> Result<Vec<u8>, AllocError>
    requires name { blank.name ≡ L.name }
    requires parts { blank.parts ≡ L.parts }
    requires some { 0 < blank.parts }
    ensures { IfOk result (λ text. text.items ≡ run_note case.now.parts (history case.now.parts)
        ++ range_text case.now.parts (history case.now.parts) ++ warned.now
        ++ judged_lines case.now.parts.nodes (all_judged case.now.parts (history case.now.parts).records)) }
{
    let machine = Machine::open(alloc, case)?;
    let mut run = Stepped {
        machine,
        steps: Steps::<L>::new(blank),
    };
    let judged = judge(alloc, case, &mut run);
    let end = run.finish();
    let text = match judged {
        Ok(judged) => report(alloc, case, &run.machine, &end, warned, &judged),
        Err(error) => Err(error),
    };
    // A call, since a drop in place is proved here list by list.
    drop(run);
    text
}

/// The note of a run that is over, and behind it what was nearest to the end of its range, what is warned of and what was
/// judged.
fn report(
    alloc: Global,
    case: &Case,
    machine: &Machine<'_>,
    end: &Option<End>,
    warned: &[u8],
    judged: &[Judged],
) -> Result<Vec<u8>, AllocError>
    requires over { history_of machine.now ≡ history case.now.parts }
    requires end { end.now ≡ (history case.now.parts).end }
    ensures { IfOk result (λ text. text.items
        ≡ run_note machine.now.case (history_of machine.now) ++ range_text case.now.parts (history case.now.parts) ++ warned.now
        ++ judged_lines case.now.parts.nodes judged.now) }
{
    let mut text = Vec::new(alloc);
    let samples = machine.samples().count();
    put_note(&mut text, end, machine.done(), samples, machine.redone())?;
    put_range(&mut text, alloc, case, end, machine.done())?;
    put(&mut text, warned)?;
    put_all_judged(&mut text, case.parts.nodes.as_slice(), judged)?;
    Ok(text)
}
