//! What the solution at a frequency is worked out in, filled anew at each.

ghost use Rattle.std.specs.Prelude.{◌≡◌, ◌*◌, ◌≤◌, Ok, length, IfOk, IfErr, OnOk};
ghost use Rattle.emtp_case.specs.held.EndNames.{IsNode};
ghost use Rattle.emtp_elim.specs.held.Matrix.{AreWithin};
ghost use Rattle.emtp_elim.specs.Outcome.{outcome};
ghost use Rattle.emtp_fix.specs.declared.limit.TheConstants.{LARGEST_VALUE};
ghost use Rattle.emtp_admittance.specs.declared.limit.TheConstants.{MOST_PHASOR_NODES};
ghost use Rattle.emtp_phasor.specs.Doubled.{doubled_matrix};
ghost use Rattle.emtp_phasor.specs.Steady.{named_ending};
ghost use Rattle.emtp_phasor.specs.held.HeldSystem.{HasWorkspace};
ghost use Rattle.emtp_phasor.specs.held.SteadyNetwork.{IsSteadyNetwork, doubled_of};

use crate::elimination::eliminate_rows;
use crate::ending::Ending;
use crate::phasor::{NOTHING, Phasor};
use crate::steady_network::SteadyNetwork;
use crate::voltages::solve_right;
use emtp_case::Case;
use emtp_elim::{SparseRows, WorkRow};
use emtp_fix::Steps;
use std::alloc::{AllocError, Global};
use std::sync::ledger::Ledger;

/// What the solution at a frequency is worked out in.
#[derive(Drop)]
pub(crate) struct Workspace {
    /// The finished rows of the last frequency's matrix.
    pub(crate) done: SparseRows,
    /// A row while it is written and eliminated, clear between two.
    pub(crate) work: WorkRow,
    /// The right side while it is eliminated.
    pub(crate) rhs: Vec<i128>,
    /// The unknowns, in nV.
    pub(crate) x: Vec<i64>,
    /// The voltages by node, ground first, in nV.
    pub(crate) volts: Vec<Phasor>,
}

impl Workspace {
    /// That of a case.
    pub(crate) fn open(alloc: Global, case: &Case) -> Result<Workspace, AllocError>
        requires { length case.now.parts.nodes ≤ MOST_PHASOR_NODES }
        ensures { IfOk result (HasWorkspace case.now.parts) }
    {
        let nodes = case.parts.nodes.len();
        let done = SparseRows::open(alloc, 2 * nodes)?;
        let work = WorkRow::open(alloc, 2 * nodes)?;
        let rhs = vec![in alloc; 0i128; 2 * nodes]?;
        let x = vec![in alloc; 0i64; 2 * nodes]?;
        let volts = vec![in alloc; NOTHING; nodes + 1]?;
        Ok(Workspace {
            done,
            work,
            rhs,
            x,
            volts,
        })
    }

    /// Finds the unknowns of a network with this right side.
    pub(crate) fn solve<L: Ledger>(
        &mut self,
        network: SteadyNetwork<'_>,
        right: &[i128],
        steps: &mut Steps<L>,
    ) -> Result<(), Ending>
        requires workspace { HasWorkspace network.case.now.parts self.old }
        requires network { IsSteadyNetwork network }
        requires right { length right.now ≡ 2 * length network.case.now.parts.nodes }
        ensures workspace { HasWorkspace network.entry.case.now.parts self.new }
        ensures solved { OnOk result (outcome (doubled_matrix (doubled_of network.entry)) right.now ≡ Ok self.new.x.items) }
        ensures within { OnOk result (AreWithin LARGEST_VALUE self.new.x.items) }
        ensures fault { IfErr result
            (λ e. named_ending network.entry.case.now.parts (outcome (doubled_matrix (doubled_of network.entry)) right.now) ≡ Err e) }
        ensures node { IfErr result (λ e. IsNode network.entry.case.now.parts e.node) }
    {
        match eliminate_rows(network, &mut self.done, &mut self.work, steps) {
            Ok(()) => solve_right(network, &self.done, right, &mut self.rhs, &mut self.x),
            Err(end) => Err(end),
        }
    }
}
