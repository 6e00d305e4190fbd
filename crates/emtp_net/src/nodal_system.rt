//! The nodal system of a step, and what is made of its solution.

ghost use Rattle.std.specs.Prelude.{◌≡◌, ◌+◌, ◌^◌, ◌<◌, ◌≤◌, ℕ, pos, true, false, All, length, replicate, unsigned_abs, IfErr, IfOk};
ghost use Rattle.emtp_case.specs.RowOrder.{order_of};
ghost use Rattle.emtp_elim.specs.Matrix.{item};
ghost use Rattle.emtp_fix.specs.declared.limit.TheConstants.{LARGEST_VALUE};
ghost use Rattle.emtp_net.specs.held.Branches.{HasCase};
ghost use Rattle.emtp_net.specs.held.Fault.{NamesNode};
ghost use Rattle.emtp_net.specs.held.Holding.{HasRoom, HoldsSwitches, KeepsKinds, capacities_of};
ghost use Rattle.emtp_net.specs.held.Stages.{FindsCurrents, FindsLeaving, FindsVoltages, JudgesStep, SetsKinds, SetsSources};
ghost use Rattle.emtp_rows.specs.held.Touched.{Touches};

use crate::fault::NetFault;
use crate::residual::{fill_leaving, judge};
use crate::right::{StepRows, fill_right, fill_values, places_of};
use crate::step_network::StepNetwork;
use crate::sums::has_ties;
use crate::voltages::fill_voltages;
use emtp_case::{Case, RowKind, RowOrder, switch_name};
use emtp_rows::{NetRows, ends_of_branches};
use emtp_switch::Switches;
use emtp_tail::Kept;
use emtp_wave::CosTable;
use std::alloc::{AllocError, Global};
use std::rc::Rc;

/// The nodal system of a step. All of it is room that is filled anew in each step but for `places` and `ends`, and for
/// `kinds` where no switch changed.
#[derive(Drop)]
pub(crate) struct NodalSystem {
    /// The kinds of the rows.
    pub(crate) kinds: Vec<RowKind>,
    /// Whether the kinds, here and of the matrix, are those of the states that the switches have.
    pub(crate) decided: bool,
    /// Whether a row is tied to the sum of a group, for all that is known of `kinds`.
    pub(crate) ties: bool,
    /// For each row the place of its node's voltage source among the sources, or their number.
    pub(crate) places: Vec<u32>,
    /// The rows of the two nodes of each branch; ground has the number of rows.
    pub(crate) ends: Vec<(u32, u32)>,
    /// The values of the sources, in nV and nA.
    pub(crate) values: Vec<i64>,
    /// The right side, in nA and nV; once the branches moved, what leaves the node of each row, in nA.
    pub(crate) right: Vec<i128>,
    /// The unknowns, in nV.
    pub(crate) x: Vec<i64>,
}

impl NodalSystem {
    /// Room for a case.
    pub(crate) fn open(
        alloc: Global,
        case: &Case,
        order: &RowOrder,
    ) -> Result<NodalSystem, AllocError>
        requires { order.now ≡ order_of case.now.parts }
        ensures room { IfOk result (HasRoom case.now.parts) }
        ensures undecided { IfOk result (λ system. system.decided ≡ false) }
    {
        let nodes = case.parts.nodes.len();
        let places = places_of(alloc, case, order)?;
        let ends = ends_of_branches(alloc, case, order)?;
        let kinds = no_kinds(alloc, nodes)?;
        let values = zeros(alloc, case.parts.sources.len())?;
        let right = wide_zeros(alloc, nodes)?;
        let x = zeros(alloc, nodes)?;
        Ok(NodalSystem {
            kinds,
            decided: false,
            ties: true,
            places,
            ends,
            values,
            right,
            x,
        })
    }

    /// Whether the switches have the states that the kinds are of, now that they were moved.
    fn has_kinds(&self, switches: &Switches<'_>) -> bool
        ensures { result ≡ true → (self.now.decided ≡ true) × (switches.now.changed ≡ false) }
    {
        self.decided && !switches.changed()
    }

    /// Gives the rows the kinds that follow from the switches, which have their states of the next step. Where no switch
    /// changed, kinds are neither copied nor compared.
    pub(crate) fn set_kinds(
        &mut self,
        case: &Case,
        switches: &Switches<'_>,
        rows: &mut NetRows<'_>,
    ) -> Result<(), NetFault>
        requires room { HasRoom case.now.parts self.old }
        requires switches { HoldsSwitches case.now.parts switches.now }
        requires rows { rows.old.nodal.case ≡ case.now.parts }
        requires keeps { switches.now.changed ≡ false → KeepsKinds case.now.parts self.old rows.old switches.now }
        ensures room { HasRoom case.now.parts self.new }
        ensures capacities { capacities_of self.new ≡ capacities_of self.old }
        ensures touched { Touches rows.old rows.new }
        ensures rest { rows.new.nodal ≡ record rows.old.nodal { kinds = rows.new.nodal.kinds } }
        ensures keeps { KeepsKinds case.now.parts self.new rows.new switches.now }
        ensures kinds { SetsKinds result case.now.parts switches.now self.new rows.new }
        ensures node { IfErr result (NamesNode case.now.parts) }
    {
        if self.has_kinds(switches) {
            return Ok(());
        }
        self.decided = false;
        self.ties = true;
        match switches.kinds(&mut self.kinds) {
            Ok(()) => {
                rows.set_kinds(&self.kinds);
                self.ties = has_ties(&self.kinds);
                self.decided = true;
                Ok(())
            }
            Err(tied) => Err(NetFault::Tied(switch_name(case, tied.switch))),
        }
    }

    /// Takes the values of the sources in the next step.
    pub(crate) fn set_sources(&mut self, case: &Case, table: &Rc<CosTable>, step: u32, tacs: &[i64])
        requires room { HasRoom case.now.parts self.old }
        requires step { step ≤ case.now.parts.run.steps }
        requires tacs { length tacs.now ≡ length case.now.parts.vars }
        ensures room { HasRoom case.now.parts self.new }
        ensures capacities { capacities_of self.new ≡ capacities_of self.old }
        ensures kinds { self.new.kinds ≡ self.old.kinds }
        ensures decided { self.new.decided ≡ self.old.decided }
        ensures values { SetsSources case.now.parts step tacs.now self.new }
    {
        fill_values(table, case, step, tacs, &mut self.values);
    }

    /// Finds the voltages of the next step by the factor.
    pub(crate) fn solve(
        &mut self,
        network: StepNetwork<'_>,
        kept: &Kept,
        voltages: &mut [i64],
    ) -> Result<(), NetFault>
        requires room { HasRoom network.case.now.parts self.old }
        requires order { network.order.now ≡ order_of network.case.now.parts }
        requires same { HasCase network.branches.now network.case.now.parts }
        requires size { kept.now.size ≡ length network.case.now.parts.nodes }
        requires all { length kept.now.rows ≡ length network.case.now.parts.nodes }
        requires voltages { length voltages.old ≡ length network.case.now.parts.nodes + 1 }
        requires small { All (λ v. unsigned_abs v ≤ LARGEST_VALUE) voltages.old }
        ensures room { HasRoom network.entry.case.now.parts self.new }
        ensures capacities { capacities_of self.new ≡ capacities_of self.old }
        ensures kinds { self.new.kinds ≡ self.old.kinds }
        ensures decided { self.new.decided ≡ self.old.decided }
        ensures values { self.new.values ≡ self.old.values }
        ensures small { All (λ v. unsigned_abs v ≤ LARGEST_VALUE) voltages.new }
        ensures finds { FindsVoltages result network.entry.case.now.parts network.entry.branches.now
            self.old kept.now voltages.new }
        ensures node { IfErr result (NamesNode network.entry.case.now.parts) }
    {
        let rows = StepRows {
            ties: self.ties,
            kinds: &self.kinds,
            places: &self.places,
            values: &self.values,
            ends: &self.ends,
        };
        fill_right(network, rows, &mut self.right);
        match kept.solve(&mut self.right, &mut self.x) {
            Ok(()) => {
                fill_voltages(network.case, network.order, &self.x, voltages);
                Ok(())
            }
            Err(fault) => Err(NetFault::Range(network.order.node_at(fault.row))),
        }
    }

    /// Finds what leaves the node of each row in the next step, in nA, once the branches moved.
    pub(crate) fn find_leaving(&mut self, network: StepNetwork<'_>, currents: &[i64])
        requires room { HasRoom network.case.now.parts self.old }
        requires order { network.order.now ≡ order_of network.case.now.parts }
        requires same { HasCase network.branches.now network.case.now.parts }
        requires currents { length currents.now ≡ length network.case.now.parts.branches }
        ensures room { HasRoom network.entry.case.now.parts self.new }
        ensures capacities { capacities_of self.new ≡ capacities_of self.old }
        ensures kinds { self.new.kinds ≡ self.old.kinds }
        ensures decided { self.new.decided ≡ self.old.decided }
        ensures leaving { FindsLeaving network.entry.case.now.parts network.entry.branches.now currents.now self.old self.new }
        ensures small { (j : ℕ) → j < length network.entry.case.now.parts.nodes
            → unsigned_abs (item self.new.right.items j) ≤ 10 ^ 24 }
    {
        fill_leaving(network, currents, &self.values, &self.ends, &mut self.right);
    }

    /// Finds the switch currents of the next step, in nA, by what leaves the node of each row. Without switches there
    /// is no sweep.
    pub(crate) fn find_currents(
        &self,
        case: &Case,
        switches: &mut Switches<'_>,
        out: &mut [i64],
    ) -> Result<(), NetFault>
        requires room { HasRoom case.now.parts self.now }
        requires switches { HoldsSwitches case.now.parts switches.old }
        requires small { (j : ℕ) → j < length case.now.parts.nodes → unsigned_abs (item self.now.right.items j) ≤ 10 ^ 24 }
        requires out { length out.old ≡ length case.now.parts.switches }
        ensures same { switches.new ≡ switches.old }
        ensures currents { FindsCurrents result case.now.parts self.now switches.old out.new }
        ensures node { IfErr result (NamesNode case.now.parts) }
    {
        if out.is_empty() {
            return Ok(());
        }
        match switches.currents(&self.right, out) {
            Ok(()) => Ok(()),
            Err(fault) => Err(NetFault::Range(switch_name(case, fault.switch))),
        }
    }

    /// Judges the residuals of the next step by what leaves the node of each row, which is lost.
    pub(crate) fn judge(&mut self, case: &Case, order: &RowOrder) -> Result<(), NetFault>
        requires room { HasRoom case.now.parts self.old }
        requires order { order.now ≡ order_of case.now.parts }
        requires small { (j : ℕ) → j < length case.now.parts.nodes → unsigned_abs (item self.old.right.items j) ≤ 10 ^ 24 }
        ensures room { HasRoom case.now.parts self.new }
        ensures capacities { capacities_of self.new ≡ capacities_of self.old }
        ensures kinds { self.new.kinds ≡ self.old.kinds }
        ensures decided { self.new.decided ≡ self.old.decided }
        ensures judges { JudgesStep result case.now.parts self.old }
        ensures node { IfErr result (NamesNode case.now.parts) }
    {
        match judge(case, self.ties, &self.kinds, &mut self.right) {
            None => Ok(()),
            Some((row, residual)) => Err(NetFault::Residual(order.node_at(row), residual)),
        }
    }
}

pub(crate) fn zeros(alloc: Global, count: usize) -> Result<Vec<i64>, AllocError>
    ensures { IfOk result (λ numbers. numbers.items ≡ replicate count (pos 0)) }
{
    vec![in alloc; 0i64; count]
}

fn wide_zeros(alloc: Global, count: usize) -> Result<Vec<i128>, AllocError>
    ensures { IfOk result (λ numbers. numbers.items ≡ replicate count (pos 0)) }
{
    vec![in alloc; 0i128; count]
}

fn no_kinds(alloc: Global, count: usize) -> Result<Vec<RowKind>, AllocError>
    ensures { IfOk result (λ kinds. length kinds.items ≡ count) }
{
    vec![in alloc; RowKind::Kcl; count]
}
