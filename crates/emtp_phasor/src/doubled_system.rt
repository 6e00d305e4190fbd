//! The doubled system of a case, which is solved for one frequency after the other.

ghost use Rattle.std.specs.Prelude.{◌≡◌, ◌≤◌, ◌∷◌, All, Some, length, drop, IfOk, IfErr, OnOk};
ghost use Rattle.emtp_admittance.specs.held.Admittances.{IsSmallPort};
ghost use Rattle.emtp_admittance.specs.held.Frequency.{IsFrequency};
ghost use Rattle.emtp_admittance.specs.declared.limit.TheConstants.{MOST_PHASOR_NODES};
ghost use Rattle.emtp_admittance.specs.Refusals.{judged_frequency};
ghost use Rattle.emtp_phasor.specs.held.Ending.{EndsSteady, StopsOpening};
ghost use Rattle.emtp_phasor.specs.held.HeldSystem.{HasPorts, IsReady, IsResting};
ghost use Rattle.emtp_phasor.specs.held.Steady.{IsSteady};
ghost use Rattle.emtp_phasor.specs.Volts.{nothing};
ghost use Rattle.emtp_phasor.specs.held.Volts.{IsVolt};

use crate::ending::Ending;
use crate::resting_network::{RestingNetwork, Stop};
use crate::resting_rows::right_side;
use crate::voltages::{fill_volts, judge_volts};
use crate::workspace::Workspace;
use emtp_admittance::{NO_PORT, Refused, TwoPort, judged_ports};
use emtp_case::Case;
use emtp_fix::Steps;
use emtp_wave::CosTable;
use std::alloc::{AllocError, Global};
use std::sync::ledger::Ledger;

/// The doubled system of a case.
#[derive(Drop)]
pub(crate) struct System {
    /// What is the same at all frequencies.
    pub(crate) resting: RestingNetwork,
    /// The right side, in nA and nV, the same too.
    pub(crate) right: Vec<i128>,
    /// The two-ports of the branches at the last frequency.
    pub(crate) ports: Vec<TwoPort>,
    /// What a solution is worked out in.
    pub(crate) workspace: Workspace,
}

/// Room for the two-ports of a case.
pub(crate) fn no_ports(alloc: Global, case: &Case) -> Result<Vec<TwoPort>, AllocError>
    ensures count { IfOk result (λ ports. length ports.items ≡ length case.now.parts.branches) }
    ensures small { IfOk result (λ ports. All IsSmallPort ports.items) }
{
    vec![in alloc; NO_PORT; case.parts.branches.len()]
}

impl System {
    /// The system of a case at rest, with these two-ports.
    pub(crate) fn open(
        alloc: Global,
        table: &CosTable,
        case: &Case,
        ports: Vec<TwoPort>,
    ) -> Result<System, Stop>
        requires few { length case.now.parts.nodes ≤ MOST_PHASOR_NODES }
        requires count { length ports.items ≡ length case.now.parts.branches }
        requires small { All IsSmallPort ports.items }
        ensures ready { IfOk result (IsReady case.now.parts) }
        ensures ports { IfOk result (λ system. system.ports.items ≡ ports.items) }
        ensures stop { IfErr result (StopsOpening case.now.parts) }
    {
        match RestingNetwork::open(alloc, table, case) {
            Ok(resting) => match System::over(alloc, table, case, resting, ports) {
                Ok(system) => Ok(system),
                Err(_) => Err(Stop::NoMemory),
            },
            Err(stop) => Err(stop),
        }
    }

    /// The same, once its network is known.
    fn over(
        alloc: Global,
        table: &CosTable,
        case: &Case,
        resting: RestingNetwork,
        ports: Vec<TwoPort>,
    ) -> Result<System, AllocError>
        requires resting { IsResting case.now.parts resting }
        requires few { length case.now.parts.nodes ≤ MOST_PHASOR_NODES }
        requires count { length ports.items ≡ length case.now.parts.branches }
        requires small { All IsSmallPort ports.items }
        ensures ready { IfOk result (IsReady case.now.parts) }
        ensures ports { IfOk result (λ system. system.ports.items ≡ ports.items) }
    {
        let right = right_side(alloc, table, resting.with_ports(case, &ports))?;
        let workspace = Workspace::open(alloc, case)?;
        Ok(System {
            resting,
            right,
            ports,
            workspace,
        })
    }

    /// Makes the two-ports of a frequency, or answers the refusal that decides.
    pub(crate) fn judged_at(
        &mut self,
        table: &CosTable,
        case: &Case,
        freq: i64,
    ) -> Result<i64, Refused>
        requires ready { IsReady case.now.parts self.old }
        requires freq { IsFrequency freq }
        ensures ready { IsReady case.now.parts self.new }
        ensures value { result ≡ judged_frequency case.now.parts (Some freq) }
        ensures range { IfOk result IsFrequency }
        ensures ports { IfOk result (λ found. HasPorts case.now.parts found self.new) }
    {
        judged_ports(table, case, Some(freq), &mut self.ports)
    }

    /// Solves the system at the frequency of its two-ports: the greatest residual in nA, or how the solution ends. The
    /// voltages stand in its workspace. The answer is that of rows which are eliminated from the first one, whatever frequency was
    /// before.
    pub(crate) fn at<L: Ledger>(
        &mut self,
        case: &Case,
        freq: i64,
        steps: &mut Steps<L>,
    ) -> Result<i128, Ending>
        requires ready { IsReady case.now.parts self.old }
        requires ports { HasPorts case.now.parts freq self.old }
        ensures ready { IsReady case.now.parts self.new }
        ensures good { IfOk result (λ greatest. IsSteady case.now.parts freq self.new.workspace.volts.items greatest) }
        ensures volts { OnOk result (All IsVolt self.new.workspace.volts.items) }
        ensures ground { OnOk result (self.new.workspace.volts.items ≡ nothing ∷ drop 1 self.new.workspace.volts.items) }
        ensures fault { IfErr result (EndsSteady case.now.parts freq) }
    {
        match self.workspace.solve(
            self.resting.with_ports(case, &self.ports),
            &self.right,
            steps,
        ) {
            Ok(()) => {
                fill_volts(
                    case,
                    &self.resting.order,
                    &self.workspace.x,
                    &mut self.workspace.volts,
                );
                judge_volts(
                    self.resting.with_ports(case, &self.ports),
                    &self.workspace.volts,
                )
            }
            Err(end) => Err(end),
        }
    }
}
