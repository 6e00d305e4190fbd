//! The network of a case with its control, one step after the other.

ghost use Rattle.std.specs.Prelude.{◌≡◌, ◌+◌, ◌<◌, ◌≤◌, [], ◌∷◌, List, IfErr, IfOk, OnOk};
ghost use Rattle.emtp_case.specs.StepRecord.{StepRecord, rest_of};
ghost use Rattle.emtp_machine.specs.Machine.{IsNamed};
ghost use Rattle.emtp_machine.specs.held.Controlled.{IsOf, MayMove, StandsFor, StepsTo, capacities_of, redone_of};
ghost use Rattle.emtp_machine.specs.History.{end_at};
ghost use Rattle.emtp_machine.specs.held.History.{next_ticks, ticks_by};
ghost use Rattle.emtp_machine.specs.Next.{control_fault, network_fault, next, node_name};
ghost use Rattle.emtp_net.specs.held.Fault.{IsNode, NamesNode};
ghost use Rattle.emtp_tacs.specs.held.Stages.{NamesVariable};

use crate::end::{Cause, End};
use emtp_case::{Case, Name};
use emtp_fix::Steps;
use emtp_net::{NetFault, Network};
use emtp_tacs::{Tacs, TacsFault};
use emtp_wave::CosTable;
use std::alloc::{AllocError, Global};
use std::rc::Rc;
use std::sync::ledger::Ledger;

/// The network of a case and its control, at the last record. In a step the network goes first, by the control's values
/// of the last record; then the control, by the network's numbers of this step.
#[derive(Drop)]
pub(crate) struct ControlledNetwork<'c> {
    pub(crate) network: Network<'c>,
    pub(crate) control: Tacs<'c>,
}

/// The name of a node, whose number counts from 1.
pub fn node_name(case: &Case, node: u32) -> Name
    requires { IsNode case.now.parts node }
    ensures { result ≡ node_name case.now.parts node }
{
    case.parts.nodes.as_slice()[node as usize - 1]
}

/// The end of a step by a fault of the network.
fn network_end(case: &Case, step: u32, fault: NetFault) -> End
    requires { NamesNode case.now.parts fault }
    ensures value { result ≡ end_at step (network_fault case.now.parts fault) }
    ensures named { IsNamed case.now.parts result.name }
{
    let (node, cause, measured) = match fault {
        NetFault::Tied(node) => (node, Cause::Tied, 0),
        NetFault::ZeroPivot(node) => (node, Cause::ZeroPivot, 0),
        NetFault::Range(node) => (node, Cause::Range, 0),
        NetFault::Residual(node, measured) => (node, Cause::Residual, measured),
    };
    End {
        step,
        name: node_name(case, node),
        cause,
        measured,
    }
}

/// The end of a step by a fault of the control.
fn control_end(case: &Case, step: u32, fault: TacsFault) -> End
    requires { NamesVariable case.now.parts fault }
    ensures value { result ≡ end_at step (control_fault case.now.parts fault) }
    ensures named { IsNamed case.now.parts result.name }
{
    End {
        step,
        name: case.parts.vars.as_slice()[fault.var as usize],
        cause: if fault.pivot {
            Cause::TacsPivot
        } else {
            Cause::TacsRange
        },
        measured: 0,
    }
}

impl<'c> ControlledNetwork<'c> {
    /// Both at record 0, with one table of the cosine. No later call has an answer for want of memory.
    pub(crate) fn open(
        alloc: Global,
        case: &'c Case,
        table: &Rc<CosTable>,
    ) -> Result<ControlledNetwork<'c>, AllocError>
        ensures case { IfOk result (IsOf case.now.parts) }
        ensures rest { IfOk result (λ s. StandsFor s (rest_of case.now.parts ∷ [])) }
    {
        let control = Tacs::open_with(alloc, case, table)?;
        match Network::open_with(alloc, case, table) {
            Ok(network) => Ok(ControlledNetwork { network, control }),
            Err(error) => {
                // A call, since a drop in place is proved here list by list.
                drop(control);
                Err(error)
            }
        }
    }

    /// Makes the next step, or answers its end; `step` is its number. After an end only the rows redone are stated.
    pub(crate) fn step<L: Ledger>(
        &mut self,
        case: &Case,
        step: u32,
        steps: &mut Steps<L>,
    ) -> Result<(), End>
        requires case { IsOf case.now.parts self.old }
        requires left { MayMove case.now.parts self.old }
        ensures case { IsOf case.now.parts self.new }
        ensures capacities { capacities_of self.new ≡ capacities_of self.old }
        ensures step { (H : List StepRecord) → StandsFor self.old H
            → StepsTo result case.now.parts self.new step H (next case.now.parts H) }
        ensures ticks { (H : List StepRecord) → StandsFor self.old H
            → OnOk result (steps.new ≡ steps.old + next_ticks case.now.parts H) }
        ensures most { (H : List StepRecord) → StandsFor self.old H
            → IfErr result (λ end. steps.new ≤ steps.old + ticks_by end.cause case.now.parts H) }
        ensures number { IfErr result (λ end. end.step ≡ step) }
        ensures named { IfErr result (λ end. IsNamed case.now.parts end.name) }
    {
        if let Err(fault) = self.network.step(self.control.values(), steps) {
            return Err(network_end(case, step, fault));
        }
        let network = &self.network;
        match self.control.step(
            network.voltages(),
            network.currents(),
            network.closed(),
            steps,
        ) {
            Ok(()) => Ok(()),
            Err(fault) => Err(control_end(case, step, fault)),
        }
    }

    /// How many rows of both matrices were redone, from the second step on.
    pub(crate) fn redone(&self, case: &Case) -> u64
        requires { IsOf case.now.parts self.now }
        ensures { result ≡ redone_of self.now }
    {
        self.network.redone() + self.control.redone()
    }
}
