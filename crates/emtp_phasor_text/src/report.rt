//! What is told of a case.

ghost use Rattle.std.specs.Prelude.{◌≡◌, IfOk};
ghost use Rattle.std.specs.Option.{ForSome};
ghost use Rattle.emtp_admittance.specs.held.Frequency.{IsFrequency};
ghost use Rattle.emtp_phasor.specs.held.Scanning.{IsScan};
ghost use Rattle.emtp_phasor.specs.held.Solving.{FaultsAt, IsSolved};
ghost use Rattle.emtp_phasor_text.specs.Reports.{scan_report, steady_report};

use crate::texts::{put_end, put_refusal, put_scan, put_steady};
use emtp_case::{Case, Items};
use emtp_phasor::{PhasorFault, Phasors, scan, solve};
use std::alloc::{AllocError, Global};

/// What is told of a case, each text with its line ends.
#[derive(Drop)]
pub enum Report {
    /// The summary of an answer.
    Summary(Items<u8>),
    /// Which card is refused, and why.
    Refused(Items<u8>),
    /// How the solution ended.
    Ended(Items<u8>),
}

/// What is told of the steady state of a case, at the given frequency in micro-hertz or at that of its first source that
/// has one.
///
/// # Errors
///
/// [`AllocError`] where memory is wanting, here and in `scan_report`.
pub fn steady_report(alloc: Global, case: &Case, given: Option<i64>) -> Result<Report, AllocError>
    requires { ForSome given IsFrequency }
    ensures { IfOk result (λ report. report ≡ steady_report case.now.parts given) }
{
    match solve(alloc, case, given) {
        Ok(state) => state_report(alloc, case, given, &state),
        Err(fault) => fault_report(alloc, case, given, fault),
    }
}

/// The summary of a steady state.
fn state_report(
    alloc: Global,
    case: &Case,
    given: Option<i64>,
    state: &Phasors,
) -> Result<Report, AllocError>
    requires { IsSolved case.now.parts given state.now }
    ensures { IfOk result (λ report. report ≡ steady_report case.now.parts given) }
{
    let mut text = Vec::new(alloc);
    put_steady(
        &mut text,
        case.parts.nodes.as_slice(),
        state.freq,
        state.residual,
        &state.volts,
    )?;
    Ok(Report::Summary(Items::from_vec(text)))
}

/// The note of a case without a steady state.
fn fault_report(
    alloc: Global,
    case: &Case,
    given: Option<i64>,
    fault: PhasorFault,
) -> Result<Report, AllocError>
    requires { FaultsAt case.now.parts given fault }
    ensures { IfOk result (λ report. report ≡ steady_report case.now.parts given) }
{
    let mut text = Vec::new(alloc);
    match fault {
        PhasorFault::Refused { line, reason } => {
            put_refusal(&mut text, line, reason)?;
            Ok(Report::Refused(Items::from_vec(text)))
        }
        PhasorFault::Ended {
            name,
            cause,
            measured,
        } => {
            put_end(&mut text, cause, &name, measured)?;
            Ok(Report::Ended(Items::from_vec(text)))
        }
        PhasorFault::NoMemory => Err(AllocError),
    }
}

/// What is told of a scan of a case, from the frequency `first` to `last` by steps of `by`, in micro-hertz.
#[tactic(auto, unfolding(crate::specs::Reports::scan_report))]
pub fn scan_report(
    alloc: Global,
    case: &Case,
    first: i64,
    last: i64,
    by: i64,
) -> Result<Report, AllocError>
    requires { IsScan first last by }
    ensures { IfOk result (λ report. report ≡ scan_report case.now.parts first last by) }
{
    let mut text = Vec::new(alloc);
    match scan(alloc, case, first, last, by) {
        Ok(lines) => {
            put_scan(&mut text, &lines)?;
            Ok(Report::Summary(Items::from_vec(text)))
        }
        Err(PhasorFault::Refused { line, reason }) => {
            put_refusal(&mut text, line, reason)?;
            Ok(Report::Refused(Items::from_vec(text)))
        }
        Err(PhasorFault::Ended { .. }) => Err(AllocError),
        Err(PhasorFault::NoMemory) => Err(AllocError),
    }
}
