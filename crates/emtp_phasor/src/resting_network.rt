//! What of a case is the same at all frequencies.

ghost use Rattle.std.specs.Prelude.{◌≡◌, ◌≤◌, All, None, length, IfOk, IfErr};
ghost use Rattle.emtp_admittance.specs.held.Admittances.{IsSmallPort};
ghost use Rattle.emtp_admittance.specs.declared.limit.TheConstants.{MOST_PHASOR_NODES};
ghost use Rattle.emtp_case.specs.held.RowKinds.{AreKinds};
ghost use Rattle.emtp_case.specs.RowOrder.{order_of};
ghost use Rattle.emtp_case.specs.StepRecord.{rest_of};
ghost use Rattle.emtp_switch.specs.Groups.{tied_of};
ghost use Rattle.emtp_phasor.specs.held.Ending.{StopsOpening};
ghost use Rattle.emtp_phasor.specs.held.HeldSystem.{IsResting};
ghost use Rattle.emtp_phasor.specs.held.Opening.{IsClosed};
ghost use Rattle.emtp_phasor.specs.held.SteadyNetwork.{IsSteadyNetwork};
ghost use Rattle.emtp_phasor.specs.Steady.{resting_kinds};

use crate::ending::{Ending, ending_at};
use crate::groups::members_by_row;
use crate::node_branches::branches_by_row;
use crate::resting_rows::{Closed, row_kinds};
use crate::sources::brought_by_row;
use crate::steady_network::SteadyNetwork;
use emtp_admittance::TwoPort;
use emtp_case::{Case, Items, RowKind, RowOrder, order, switch_name};
use emtp_machine::Cause;
use emtp_wave::CosTable;
use std::alloc::{AllocError, Global};

/// Why there is no system.
#[derive(Clone, Copy, Debug)]
pub enum Stop {
    /// Switches that are closed at rest tie two known voltages, so that each frequency ends so.
    Ended(Ending),
    /// No memory is left.
    NoMemory,
}

impl From<AllocError> for Stop {
    ghost use Rattle.emtp_phasor.specs.declared.resting_network.Stop.TheVariants.{NoMemory};

    ghost from_gives = { λ _ e. e ≡ NoMemory };

    fn from(_: AllocError) -> Stop {
        Stop::NoMemory
    }
}

/// The network of a case at rest: what is the same at all frequencies.
#[derive(Drop)]
pub(crate) struct RestingNetwork {
    /// The order of its rows.
    pub(crate) order: RowOrder,
    /// The kinds of its rows, by the switches at rest.
    pub(crate) kinds: Vec<RowKind>,
    /// For each row the places of the branches at its node.
    pub(crate) lists: Vec<Items<u32>>,
    /// For each row the rows whose nodes are of its group.
    pub(crate) groups: Vec<Items<u32>>,
    /// What the current sources bring to the node of each row, part by part, in nA.
    pub(crate) brought: Vec<i128>,
}

/// How an opening stops that gave no kinds.
fn stop_of(case: &Case, closed: Closed) -> Stop
    requires { IsClosed case.now.parts closed }
    ensures { StopsOpening case.now.parts result }
{
    match closed {
        Closed::Tied(switch) => Stop::Ended(ending_at(switch_name(case, switch), Cause::Tied)),
        Closed::NoMemory => Stop::NoMemory,
    }
}

impl RestingNetwork {
    /// The network of a case at rest.
    pub(crate) fn open(alloc: Global, table: &CosTable, case: &Case) -> Result<RestingNetwork, Stop>
        requires { length case.now.parts.nodes ≤ MOST_PHASOR_NODES }
        ensures resting { IfOk result (IsResting case.now.parts) }
        ensures stop { IfErr result (StopsOpening case.now.parts) }
    {
        let order = order(alloc, case)?;
        match row_kinds(alloc, case, &order) {
            Ok(kinds) => match RestingNetwork::over(alloc, table, case, order, kinds) {
                Ok(network) => Ok(network),
                Err(_) => Err(Stop::NoMemory),
            },
            Err(closed) => Err(stop_of(case, closed)),
        }
    }

    /// The same, once the kinds of the rows are known.
    fn over(
        alloc: Global,
        table: &CosTable,
        case: &Case,
        order: RowOrder,
        kinds: Vec<RowKind>,
    ) -> Result<RestingNetwork, AllocError>
        requires order { order ≡ order_of case.now.parts }
        requires few { length case.now.parts.nodes ≤ MOST_PHASOR_NODES }
        requires kinds { kinds.items ≡ resting_kinds case.now.parts }
        requires are { AreKinds (length case.now.parts.nodes) order.fixed kinds.items }
        requires free { tied_of case.now.parts.switches (order_of case.now.parts) (rest_of case.now.parts).switch_states ≡ None }
        ensures { IfOk result (IsResting case.now.parts) }
    {
        let lists = branches_by_row(alloc, case, &order)?;
        let groups = members_by_row(alloc, &kinds)?;
        let brought = brought_by_row(alloc, table, case, &order)?;
        Ok(RestingNetwork {
            order,
            kinds,
            lists,
            groups,
            brought,
        })
    }

    /// The same with the two-ports of its branches at a frequency.
    pub(crate) fn with_ports<'a>(
        &'a self,
        case: &'a Case,
        ports: &'a [TwoPort],
    ) -> SteadyNetwork<'a>
        requires resting { IsResting case.now.parts self.now }
        requires count { length ports.now ≡ length case.now.parts.branches }
        requires small { All IsSmallPort ports.now }
        ensures network { IsSteadyNetwork result }
        ensures case { result.case.now ≡ case.now }
        ensures ports { result.ports.now ≡ ports.now }
        ensures kinds { result.kinds.now ≡ resting_kinds result.case.now.parts }
    {
        SteadyNetwork {
            case,
            order: &self.order,
            ports,
            kinds: &self.kinds,
            lists: &self.lists,
            groups: &self.groups,
            brought: &self.brought,
        }
    }
}
