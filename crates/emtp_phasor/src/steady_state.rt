//! The steady state of a case.

ghost use Rattle.std.specs.Prelude.{◌≡◌, ◌<◌, ◌≤◌, ◌∷◌, drop, length, IfOk, IfErr};
ghost use Rattle.std.specs.Option.{ForSome};
ghost use Rattle.emtp_admittance.specs.held.Frequency.{IsFrequency};
ghost use Rattle.emtp_phasor.specs.held.Ending.{EndsAlways, EndsSteady, StopsOpening};
ghost use Rattle.emtp_phasor.specs.held.HeldSystem.{HasPorts, IsReady};
ghost use Rattle.emtp_phasor.specs.held.Solving.{AnswersCase, FaultsAtFrequency};
ghost use Rattle.emtp_phasor.specs.held.Steady.{IsSteady};
ghost use Rattle.emtp_phasor.specs.Volts.{nothing};

use crate::doubled_system::{System, no_ports};
use crate::ending::Ending;
use crate::fault::PhasorFault;
use crate::phasor::Phasor;
use crate::resting_network::Stop;
use emtp_admittance::judged_ports;
use emtp_case::Case;
use emtp_fix::Steps;
use emtp_machine::node_name;
use emtp_wave::CosTable;
use std::alloc::{AllocError, Global};
use std::marker::Brand;
use std::sync::ledger::{Blank, Ledger};

/// The voltages of a steady state.
#[derive(Debug, Drop)]
pub struct Phasors {
    /// The frequency, in micro-hertz.
    pub freq: i64,
    /// The greatest residual of Kirchhoff's current law, in nA; 0 where no row has one.
    pub residual: i128,
    /// The voltages by node number from 1, in nV.
    pub volts: Vec<Phasor>,
}

/// The steady state of a case at the given frequency, in micro-hertz, or at that of its first source that has one.
///
/// The case is linear and without control: which cards are refused, and in which order, is decided by
/// [`judged_ports`]. The doubled system is eliminated from its first row, and each residual of an answer is within the
/// tolerance of the case. This project's own.
pub fn solve(alloc: Global, case: &Case, freq: Option<i64>) -> Result<Phasors, PhasorFault>
    requires { ForSome freq IsFrequency }
    ensures { AnswersCase case.now.parts freq result }
{
    let table = CosTable::open(alloc)?;
    let mut ports = no_ports(alloc, case)?;
    match judged_ports(&table, case, freq, &mut ports) {
        Ok(freq) => match System::open(alloc, &table, case, ports) {
            Ok(mut system) => { solve_at::<Brand>(alloc, case, freq, &mut system, Blank::new(1)) }
            Err(stop) => Err(stopped(case, freq, stop)),
        },
        Err(refused) => Err(PhasorFault::Refused {
            line: refused.line,
            reason: refused.reason,
        }),
    }
}

/// The steady state at a frequency that is good, by a system that has its two-ports.
fn solve_at<L: Ledger>(
    alloc: Global,
    case: &Case,
    freq: i64,
    system: &mut System,
    blank: Blank,
) -> Result<Phasors, PhasorFault>
    requires ready { IsReady case.now.parts system.old }
    requires ports { HasPorts case.now.parts freq system.old }
    requires name { blank.name ≡ L.name }
    requires parts { blank.parts ≡ L.parts }
    requires some { 0 < blank.parts }
    ensures freq { IfOk result (λ p. p.freq ≡ freq) }
    ensures good { IfOk result (λ p. IsSteady case.now.parts freq (nothing ∷ p.volts.items) p.residual) }
    ensures fault { IfErr result (FaultsAtFrequency case.now.parts freq) }
{
    let mut steps = Steps::<L>::new(blank);
    match system.at(case, freq, &mut steps) {
        Ok(residual) => match behind_ground(alloc, &system.workspace.volts) {
            Ok(volts) => Ok(Phasors {
                freq,
                residual,
                volts,
            }),
            Err(_) => Err(PhasorFault::NoMemory),
        },
        Err(end) => Err(ended(case, freq, end)),
    }
}

/// A copy of the voltages without that of ground.
fn behind_ground(alloc: Global, volts: &[Phasor]) -> Result<Vec<Phasor>, AllocError>
    requires { 1 ≤ length volts.now }
    ensures { IfOk result (λ copy. copy.items ≡ drop 1 volts.now) }
{
    volts[1..].iter().copied().collect(alloc)
}

/// An end, told by the name of its node.
fn ended(case: &Case, freq: i64, end: Ending) -> PhasorFault
    requires { EndsSteady case.now.parts freq end }
    ensures { FaultsAtFrequency case.now.parts freq result }
{
    PhasorFault::Ended {
        name: node_name(case, end.node),
        cause: end.cause,
        measured: end.measured,
    }
}

/// Why no system was opened.
fn stopped(case: &Case, freq: i64, stop: Stop) -> PhasorFault
    requires { StopsOpening case.now.parts stop }
    ensures { FaultsAtFrequency case.now.parts freq result }
{
    match stop {
        Stop::Ended(end) => always_ended(case, freq, end),
        Stop::NoMemory => PhasorFault::NoMemory,
    }
}

/// The same of an end of every frequency.
fn always_ended(case: &Case, freq: i64, end: Ending) -> PhasorFault
    requires { EndsAlways case.now.parts end }
    ensures { FaultsAtFrequency case.now.parts freq result }
{
    ended(case, freq, end)
}
