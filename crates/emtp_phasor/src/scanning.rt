//! The impedance that the one source of a case sees, over frequencies.

ghost use Rattle.std.specs.Prelude.{◌≡◌, ◌<◌, ◌≤◌, ◌<ℤ◌, pos, length, unsigned_abs, IfOk, IfErr};
ghost use Rattle.emtp_admittance.specs.held.Frequency.{IsFrequency};
ghost use Rattle.emtp_admittance.specs.held.Probes.{IsProbe};
ghost use Rattle.emtp_admittance.specs.declared.limit.TheConstants.{MOST_PHASOR_NODES};
ghost use Rattle.emtp_case.specs.held.EndNames.{IsNode};
ghost use Rattle.emtp_fix.specs.declared.limit.TheConstants.{LARGEST_VALUE};
ghost use Rattle.emtp_phasor.specs.held.Ending.{EndsAlways};
ghost use Rattle.emtp_phasor.specs.held.HeldSystem.{HasPorts, IsReady};
ghost use Rattle.emtp_phasor.specs.held.Probed.{IsProbed, probed_answer, probed_lines};
ghost use Rattle.emtp_phasor.specs.Scanning.{answer_of_state, frequency_at, frequency_count, impedance_or_range, impedance_seen, over_amplitude, told_end};
ghost use Rattle.emtp_phasor.specs.held.Scanning.{FaultsScan, IsScan, IsScanned};
ghost use Rattle.emtp_phasor.specs.Steady.{steady};
ghost use Rattle.emtp_phasor.specs.held.Volts.{IsVolt};

use crate::doubled_system::{System, no_ports};
use crate::ending::Ending;
use crate::fault::PhasorFault;
use crate::line::{ScanAnswer, ScanLine};
use crate::phasor::Phasor;
use crate::resting_network::Stop;
use emtp_admittance::{Probe, TwoPort, judged_ports, judged_probe};
use emtp_case::Case;
use emtp_fix::{NANO, Steps, in_range, scaled};
use emtp_machine::{Cause, node_name};
use emtp_wave::CosTable;
use std::alloc::{AllocError, Global};
use std::marker::Brand;
use std::sync::ledger::{Blank, Ledger};

/// The most frequencies of a scan.
pub const MOST_FREQUENCIES: usize = 10_000;

/// The impedance that the one source of a case sees, from the frequency `first` to `last` by steps of `by`, in micro-hertz.
///
/// Each line is that of a system which is built for its frequency alone and eliminated from its first row, in the workspace
/// that was taken for all of them. The case has one source, a cosine current source without phase ([`judged_probe`]). A frequency at
/// which a card is refused, or at which the solution ends, has that in its line. This project's own.
pub fn scan(
    alloc: Global,
    case: &Case,
    first: i64,
    last: i64,
    by: i64,
) -> Result<Vec<ScanLine>, PhasorFault>
    requires { IsScan first last by }
    ensures scanned { IfOk result (λ lines. IsScanned case.now.parts first last by lines.items) }
    ensures fault { IfErr result (FaultsScan case.now.parts) }
{
    match CosTable::open(alloc) {
        Ok(table) => match judged_probe(case) {
            Ok(probe) => {
                let probed = Probed {
                    table: &table,
                    case,
                    probe: &probe,
                    span: Span { first, last, by },
                };
                scan_from::<Brand>(alloc, probed, Blank::new(1))
            }
            Err(refused) => Err(PhasorFault::Refused {
                line: refused.line,
                reason: refused.reason,
            }),
        },
        Err(_) => Err(PhasorFault::NoMemory),
    }
}

/// Which frequencies are scanned, in micro-hertz.
#[derive(Clone, Copy)]
pub(crate) struct Span {
    /// The first one.
    pub(crate) first: i64,
    /// What the last one is at most.
    pub(crate) last: i64,
    /// From one to the next.
    pub(crate) by: i64,
}

/// What is scanned: a case, by its source, over frequencies.
#[derive(Clone, Copy)]
pub(crate) struct Probed<'a> {
    /// The cosine table.
    pub(crate) table: &'a CosTable,
    /// The case.
    pub(crate) case: &'a Case,
    /// Its source.
    pub(crate) probe: &'a Probe,
    /// The frequencies.
    pub(crate) span: Span,
}

/// How many frequencies there are.
fn frequency_count(span: Span) -> usize
    requires { IsScan span.first span.last span.by }
    ensures { result ≡ frequency_count span.first span.last span.by }
{
    ((span.last - span.first).unsigned_abs() / span.by.unsigned_abs()) as usize + 1
}

/// The frequency of a line.
fn frequency_at(span: Span, k: usize) -> i64
    requires scan { IsScan span.first span.last span.by }
    requires there { k < frequency_count span.first span.last span.by }
    ensures value { result ≡ frequency_at span.first span.by k }
    ensures range { IsFrequency result }
{
    span.first + k as i64 * span.by
}

/// The lines of all frequencies, for the source of a scan.
fn scan_from<L: Ledger>(
    alloc: Global,
    probed: Probed<'_>,
    blank: Blank,
) -> Result<Vec<ScanLine>, PhasorFault>
    requires few { length probed.case.now.parts.nodes ≤ MOST_PHASOR_NODES }
    requires probed { IsProbed probed }
    requires name { blank.name ≡ L.name }
    requires parts { blank.parts ≡ L.parts }
    requires some { 0 < blank.parts }
    ensures lines { IfOk result (λ lines. lines.items ≡ probed_lines probed.entry) }
    ensures fault { IfErr result (λ e. e ≡ PhasorFault.NoMemory) }
{
    let ports = no_ports(alloc, probed.case)?;
    match System::open(alloc, probed.table, probed.case, ports) {
        Ok(mut system) => {
            let mut steps = Steps::<L>::new(blank);
            match solved_lines(alloc, probed, &mut system, &mut steps) {
                Ok(lines) => Ok(lines),
                Err(_) => Err(PhasorFault::NoMemory),
            }
        }
        Err(Stop::Ended(end)) => {
            let mut ports = no_ports(alloc, probed.case)?;
            match tied_lines(alloc, probed, end, &mut ports) {
                Ok(lines) => Ok(lines),
                Err(_) => Err(PhasorFault::NoMemory),
            }
        }
        Err(Stop::NoMemory) => Err(PhasorFault::NoMemory),
    }
}

/// The lines of a system.
fn solved_lines<L: Ledger>(
    alloc: Global,
    probed: Probed<'_>,
    system: &mut System,
    steps: &mut Steps<L>,
) -> Result<Vec<ScanLine>, AllocError>
    requires probed { IsProbed probed }
    requires ready { IsReady probed.case.now.parts system.old }
    ensures { IfOk result (λ lines. lines.items ≡ probed_lines probed.entry) }
{
    let mut lines = Vec::new(alloc);
    for k in 0..frequency_count(probed.span) {
        let freq = frequency_at(probed.span, k);
        let answer = answer_at(probed, system, freq, steps);
        lines.push(ScanLine { freq, answer })?;
    }
    Ok(lines)
}

/// The lines of a case whose switches tie two known voltages.
fn tied_lines(
    alloc: Global,
    probed: Probed<'_>,
    end: Ending,
    ports: &mut [TwoPort],
) -> Result<Vec<ScanLine>, AllocError>
    requires probed { IsProbed probed }
    requires end { EndsAlways probed.case.now.parts end }
    requires ports { length ports.old ≡ length probed.case.now.parts.branches }
    ensures { IfOk result (λ lines. lines.items ≡ probed_lines probed.entry) }
{
    let mut lines = Vec::new(alloc);
    for k in 0..frequency_count(probed.span) {
        let freq = frequency_at(probed.span, k);
        let answer = tied_answer(probed, freq, end, ports);
        lines.push(ScanLine { freq, answer })?;
    }
    Ok(lines)
}

/// The answer at a frequency.
fn answer_at<L: Ledger>(
    probed: Probed<'_>,
    system: &mut System,
    freq: i64,
    steps: &mut Steps<L>,
) -> ScanAnswer
    requires probed { IsProbed probed }
    requires ready { IsReady probed.case.now.parts system.old }
    requires freq { IsFrequency freq }
    ensures ready { IsReady probed.entry.case.now.parts system.new }
    ensures value { result ≡ probed_answer probed.entry freq }
{
    let case = probed.case;
    match system.judged_at(probed.table, case, freq) {
        Ok(freq) => solved_answer(case, probed.probe, system, freq, steps),
        Err(refused) => ScanAnswer::Refused { line: refused.line },
    }
}

/// The answer at a frequency that is good, once the system has its two-ports.
fn solved_answer<L: Ledger>(
    case: &Case,
    probe: &Probe,
    system: &mut System,
    freq: i64,
    steps: &mut Steps<L>,
) -> ScanAnswer
    requires probe { IsProbe case.now.parts probe.now }
    requires ready { IsReady case.now.parts system.old }
    requires ports { HasPorts case.now.parts freq system.old }
    ensures ready { IsReady case.now.parts system.new }
    ensures value { result ≡ answer_of_state case.now.parts probe.now (steady case.now.parts freq) }
{
    match system.at(case, freq, steps) {
        Ok(_) => impedance_seen(case, probe, system.workspace.volts[probe.node as usize]),
        Err(end) => told_end(case, end),
    }
}

/// The answer at a frequency where switches tie two known voltages.
fn tied_answer(probed: Probed<'_>, freq: i64, end: Ending, ports: &mut [TwoPort]) -> ScanAnswer
    requires freq { IsFrequency freq }
    requires end { EndsAlways probed.case.now.parts end }
    requires ports { length ports.old ≡ length probed.case.now.parts.branches }
    ensures { result ≡ probed_answer probed.entry freq }
{
    match judged_ports(probed.table, probed.case, Some(freq), ports) {
        Ok(_) => told_end(probed.case, end),
        Err(refused) => ScanAnswer::Refused { line: refused.line },
    }
}

/// An end, told by the name of its node.
fn told_end(case: &Case, end: Ending) -> ScanAnswer
    requires { IsNode case.now.parts end.node }
    ensures { result ≡ told_end case.now.parts end }
{
    ScanAnswer::Ended {
        name: node_name(case, end.node),
        cause: end.cause,
        measured: end.measured,
    }
}

/// The impedance that the source sees, or that it leaves its range.
fn impedance_seen(case: &Case, probe: &Probe, v: Phasor) -> ScanAnswer
    requires probe { IsProbe case.now.parts probe.now }
    requires small { IsVolt v }
    ensures { result ≡ impedance_seen case.now.parts probe.now v }
{
    impedance_or_range(
        case,
        probe.node,
        over_amplitude(v.re, probe),
        over_amplitude(v.im, probe),
    )
}

/// A part of a voltage over the amplitude of the source, in 10^-9 ohm, where it is in range.
fn over_amplitude(part: i64, probe: &Probe) -> Option<i64>
    requires part { unsigned_abs part ≤ LARGEST_VALUE }
    requires above { pos 0 <ℤ probe.now.amplitude }
    ensures { result ≡ over_amplitude part probe.now }
{
    in_range(scaled(part as i128, NANO, probe.amplitude as i128))
}

fn impedance_or_range(case: &Case, node: u32, re: Option<i64>, im: Option<i64>) -> ScanAnswer
    requires { IsNode case.now.parts node }
    ensures { result ≡ impedance_or_range case.now.parts node re im }
{
    match (re, im) {
        (Some(re), Some(im)) => ScanAnswer::Impedance { re, im },
        _ => ScanAnswer::Ended {
            name: node_name(case, node),
            cause: Cause::Range,
            measured: 0,
        },
    }
}
