//! The factor, brought up to date from the first row that changed.

ghost use Rattle.emtp_case.specs.declared.limit.TheConstants.{MOST_NODES};
ghost use Rattle.std.specs.Prelude.{◌≡◌, ◌≢◌, ◌+◌, ◌^◌, ◌≤◌, ◌<◌, ◌==◌, ℕ, length, if◌then◌else◌, OnOk, IfErr};
ghost use Rattle.emtp_case.specs.RowOrder.{is_pseudo, order_of};
ghost use Rattle.emtp_elim.specs.Matrix.{item};
ghost use Rattle.emtp_net.specs.held.Branches.{HasCase};
ghost use Rattle.emtp_net.specs.held.Fault.{NamesNode};
ghost use Rattle.emtp_net.specs.held.Holding.{FollowsRows, HasConductance, HasFixed, HoldsRows};
ghost use Rattle.emtp_net.specs.held.Stages.{Factors, SetsConductances};
ghost use Rattle.emtp_net.specs.System.{couplings};
ghost use Rattle.emtp_rows.specs.held.Touched.{StandsUntouched, Touches};

use crate::branches::Branches;
use crate::fault::NetFault;
use crate::names::row_fault;
use crate::step_network::StepNetwork;
use emtp_case::{Branch, Case};
use emtp_elim::RowFault;
use emtp_fix::Steps;
use emtp_rows::NetRows;
use emtp_tail::Kept;
use std::sync::ledger::Ledger;

/// The nodal matrix of a network, by its rows, and its factor.
#[derive(Drop)]
pub(crate) struct NodalMatrix<'a> {
    /// The rows as they are set.
    pub(crate) rows: NetRows<'a>,
    /// The factor of the last step's matrix.
    pub(crate) kept: Kept,
    /// How many rows the steps redid, but for the first one.
    pub(crate) redone: u64,
}

impl<'a> NodalMatrix<'a> {
    /// Makes the factor that of the next step's matrix, once the rows have their kinds.
    pub(crate) fn factor<L: Ledger>(
        &mut self,
        network: StepNetwork<'_>,
        made: u32,
        steps: &mut Steps<L>,
    ) -> Result<(), NetFault>
        requires order { network.order.now ≡ order_of network.case.now.parts }
        requires same { HasCase network.branches.now network.case.now.parts }
        requires rows { HoldsRows network.case.now.parts self.old.rows self.old.kept }
        requires few { self.old.redone ≤ 10 ^ 12 }
        ensures rows { HoldsRows network.entry.case.now.parts self.new.rows self.new.kept }
        ensures kinds { self.new.rows.nodal.kinds ≡ self.old.rows.nodal.kinds }
        ensures all { OnOk result (length self.new.kept.rows ≡ length network.entry.case.now.parts.nodes) }
        ensures factors { Factors result network.entry.case.now.parts network.entry.branches.now made
            self.old self.new steps.old steps.new }
        ensures few { self.new.redone ≤ self.old.redone + MOST_NODES }
        ensures few_ticks { steps.new ≤ steps.old + MOST_NODES }
        ensures node { IfErr result (NamesNode network.entry.case.now.parts) }
    {
        set_conductances(network.case, network.branches, &mut self.rows);
        match self.follow(made, steps) {
            Ok(()) => Ok(()),
            Err(fault) => Err(row_fault(network.case, network.order, fault)),
        }
    }

    /// Makes the factor that of the rows as they are now. Rows before the first touched one are neither filled nor
    /// compared, and where none was touched nothing is done.
    fn follow<L: Ledger>(&mut self, made: u32, steps: &mut Steps<L>) -> Result<(), RowFault>
        requires size { self.old.kept.size ≡ length self.old.rows.nodal.case.nodes }
        requires nodes { length self.old.rows.nodal.case.nodes ≤ MOST_NODES }
        requires stands { StandsUntouched self.old.rows self.old.kept.rows }
        requires few { self.old.redone ≤ 10 ^ 12 }
        ensures nodal { self.new.rows.nodal ≡ self.old.rows.nodal }
        ensures size { self.new.kept.size ≡ self.old.kept.size }
        ensures stands { StandsUntouched self.new.rows self.new.kept.rows }
        ensures follows { FollowsRows result made self.old self.new steps.old steps.new }
        ensures few { self.new.redone ≤ self.old.redone + MOST_NODES }
    {
        let from = self.rows.take_touched().min(self.kept.good());
        let first = self.kept.changed_from(&self.rows, from);
        count(&mut self.redone, made, self.kept.size() - first);
        match self.kept.update_from(&self.rows, first, steps) {
            Ok(()) => Ok(()),
            Err(fault) => Err(fault),
        }
    }
}

/// Counts rows that are redone; the first step counts none.
fn count(redone: &mut u64, made: u32, rows: usize)
    requires few { redone.old ≤ 10 ^ 12 }
    requires rows { rows ≤ MOST_NODES }
    ensures value { redone.new ≡ redone.old + (if made == 0 then 0 else rows) }
    ensures most { redone.new ≤ redone.old + MOST_NODES }
{
    if made != 0 {
        *redone += rows as u64;
    }
}

/// Gives the rows the conductances of all branches in the next step.
pub(crate) fn set_all_conductances(case: &Case, branches: &Branches<'_>, rows: &mut NetRows<'_>)
    requires same { HasCase branches.now case.now.parts }
    requires rows { rows.old.nodal.case ≡ case.now.parts }
    requires own { length rows.old.nodal.own ≡ length case.now.parts.branches }
    ensures set { SetsConductances case.now.parts branches.now rows.old.nodal rows.new.nodal }
    ensures touched { Touches rows.old rows.new }
    ensures rest { rows.new.nodal ≡ record rows.old.nodal { own = rows.new.nodal.own } }
    ensures room { length rows.new.nodal.own ≡ length case.now.parts.branches }
{
    for at in 0..case.parts.branches.len() {
        rows.set_conductance(at, branches.conductance(case, at));
    }
}

fn is_pseudo(branch: &Branch) -> bool
    ensures { result ≡ is_pseudo branch.now }
{
    matches!(branch, Branch::Pseudo(_))
}

/// Gives the rows the conductance of a pseudo-nonlinear branch in the next step. That of another branch has stayed.
fn set_pseudo(case: &Case, branches: &Branches<'_>, at: usize, rows: &mut NetRows<'_>)
    requires same { HasCase branches.now case.now.parts }
    requires rows { rows.old.nodal.case ≡ case.now.parts }
    requires there { at < length case.now.parts.branches }
    requires own { length rows.old.nodal.own ≡ length case.now.parts.branches }
    requires fixed { HasFixed case.now.parts rows.old.nodal.own }
    ensures value { HasConductance branches.now case.now.parts rows.new.nodal.own at }
    ensures others { (b : ℕ) → b ≢ at → item rows.new.nodal.own b ≡ item rows.old.nodal.own b }
    ensures fixed { HasFixed case.now.parts rows.new.nodal.own }
    ensures touched { Touches rows.old rows.new }
    ensures rest { rows.new.nodal ≡ record rows.old.nodal { own = rows.new.nodal.own } }
    ensures room { length rows.new.nodal.own ≡ length case.now.parts.branches }
{
    let branch = &case.parts.branches.as_slice()[at];
    if is_pseudo(branch) {
        rows.set_conductance(at, branches.conductance(case, at));
    }
}

/// Gives the rows the conductances of the next step, where those that stay have theirs.
fn set_conductances(case: &Case, branches: &Branches<'_>, rows: &mut NetRows<'_>)
    requires same { HasCase branches.now case.now.parts }
    requires rows { rows.old.nodal.case ≡ case.now.parts }
    requires own { length rows.old.nodal.own ≡ length case.now.parts.branches }
    requires fixed { HasFixed case.now.parts rows.old.nodal.own }
    ensures set { SetsConductances case.now.parts branches.now rows.old.nodal rows.new.nodal }
    ensures fixed { HasFixed case.now.parts rows.new.nodal.own }
    ensures touched { Touches rows.old rows.new }
    ensures rest { rows.new.nodal ≡ record rows.old.nodal { own = rows.new.nodal.own } }
    ensures room { length rows.new.nodal.own ≡ length case.now.parts.branches }
{
    for at in 0..case.parts.branches.len() {
        set_pseudo(case, branches, at, rows);
    }
}

/// Gives the rows the mutual conductances of the three-phase lines, which are the same in all steps.
pub(crate) fn set_couplings(case: &Case, branches: &Branches<'_>, rows: &mut NetRows<'_>)
    requires same { HasCase branches.now case.now.parts }
    requires rows { rows.old.nodal.case ≡ case.now.parts }
    requires coupling { length rows.old.nodal.coupling ≡ length case.now.parts.trios }
    ensures { rows.new.nodal ≡ record rows.old.nodal { coupling = couplings case.now.parts } }
{
    for trio in 0..case.parts.trios.len() {
        rows.set_mutual(trio, branches.lines.mutual(trio));
    }
}
