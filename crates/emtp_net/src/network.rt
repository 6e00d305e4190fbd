//! The network of a case.

ghost use Rattle.emtp_case.specs.declared.limit.TheConstants.{MOST_NODES};
ghost use Rattle.std.specs.Prelude.{◌≡◌, ◌+◌, ◌*◌, ◌<◌, ◌≤◌, ◌∷◌, [], List, length, map, pos, replicate, unsigned_abs, All, IfErr, IfOk};
ghost use Rattle.emtp_case.specs.RowOrder.{order_of};
ghost use Rattle.emtp_case.specs.StepRecord.{StepRecord, branch_current_at, is_closed, latest, pseudo_at, rest_of};
ghost use Rattle.emtp_case.specs.declared.branch.Pseudo.{Pseudo};
ghost use Rattle.emtp_fix.specs.declared.limit.TheConstants.{LARGEST_VALUE};
ghost use Rattle.emtp_net.specs.held.Branches.{HasCase, StandsFor as BranchesStandFor};
ghost use Rattle.emtp_net.specs.held.Fault.{NamesNode};
ghost use Rattle.emtp_net.specs.held.Holding.{HoldsRows};
ghost use Rattle.emtp_net.specs.held.Network.{HasCounted, MakesStep, StandsFor, TicksStep};
ghost use Rattle.emtp_pseudo.specs.held.Pseudos.{IsPseudoAt};

use crate::branches::Branches;
use crate::factor::{NodalMatrix, set_all_conductances, set_couplings};
use crate::fault::NetFault;
use crate::nodal_system::{NodalSystem, zeros};
use crate::step_network::StepNetwork;
use emtp_case::{Case, PseudoState, RowOrder, order};
use emtp_fix::Steps;
use emtp_rows::NetRows;
use emtp_switch::Switches;
use emtp_tail::Kept;
use emtp_wave::CosTable;
use std::alloc::{AllocError, Global};
use std::marker::Model;
use std::rc::Rc;
use std::sync::ledger::Ledger;

/// The network of a case, at its last step (Dommel 1969).
///
/// `currents` has the currents of series branches and pseudo-nonlinear ones; those of lines are kept by their laws.
#[derive(Drop)]
pub struct Network<'a> {
    case: &'a Case,
    order: RowOrder,
    table: Rc<CosTable>,
    branches: Branches<'a>,
    switches: Switches<'a>,
    system: NodalSystem,
    matrix: NodalMatrix<'a>,
    voltages: Vec<i64>,
    currents: Vec<i64>,
    switch_currents: Vec<i64>,
    closed: Vec<bool>,
    made: u32,
}

impl<'a> Model for Network<'a> {
    ghost use Rattle.std.specs.Prelude.{[], ◌∷◌, ◌++◌, vec_capacity};
    ghost use Rattle.emtp_net.specs.held.Holding.{HoldsTogether, capacities_of};
    ghost use Rattle.emtp_net.specs.held.Network.{Net};

    ghost Value = { Net };

    ghost use Rattle.std.specs.Coded.{codes};

    ghost coded = { Prim.hlevel codes };

    ghost view = { λ s. record {
      case = s.case.now.parts;
      branches = s.branches;
      switches = s.switches;
      rows = s.matrix.rows;
      kept = s.matrix.kept;
      voltages = s.voltages.items;
      currents = s.currents.items;
      switch_currents = s.switch_currents.items;
      closed = s.closed.items;
      made = s.made;
      redone = s.matrix.redone;
      capacities = capacities_of s.system ++ vec_capacity s.voltages ∷ vec_capacity s.currents
          ∷ vec_capacity s.switch_currents ∷ vec_capacity s.closed ∷ [];
    } };

    ghost invariant = { λ s. HoldsTogether s.case.now.parts s.order s.branches s.switches s.system s.matrix
        s.voltages.items s.currents.items s.switch_currents.items s.closed.items s.made };
}

impl<'a> Network<'a> {
    /// The network of record 0, in which all is at rest. No later call has an answer for want of memory.
    pub fn open(alloc: Global, case: &'a Case) -> Result<Network<'a>, AllocError>
        ensures case { IfOk result (λ network. network.case ≡ case.now.parts) }
        ensures rest { IfOk result (λ network. StandsFor network (rest_of case.now.parts ∷ [])) }
        ensures made { IfOk result (λ network. network.made ≡ 0) }
    {
        let table = Rc::new(alloc, CosTable::open(alloc)?)?;
        Network::open_with(alloc, case, &table)
    }

    /// The same with a table of the cosine that others may share.
    ///
    /// # Errors
    ///
    /// [`AllocError`] where there is no memory for it.
    pub fn open_with(
        alloc: Global,
        case: &'a Case,
        table: &Rc<CosTable>,
    ) -> Result<Network<'a>, AllocError>
        ensures case { IfOk result (λ network. network.case ≡ case.now.parts) }
        ensures rest { IfOk result (λ network. StandsFor network (rest_of case.now.parts ∷ [])) }
        ensures made { IfOk result (λ network. network.made ≡ 0) }
    {
        // What is open is dropped by calls where a later part isn't opened: a drop in place is proved list by list.
        let table = table.clone()?;
        let order = order(alloc, case)?;
        let Ok(system) = NodalSystem::open(alloc, case, &order) else {
            drop((table, order));
            return Err(AllocError);
        };
        let Ok(switches) = Switches::open(alloc, case, &order) else {
            drop((table, order, system));
            return Err(AllocError);
        };
        let Ok(shown) = shown_at_rest(alloc, case, &switches) else {
            drop((table, order, system, switches));
            return Err(AllocError);
        };
        let Ok(branches) = Branches::open(alloc, case) else {
            drop((table, order, system, switches, shown));
            return Err(AllocError);
        };
        let Ok(matrix) = matrix_at_rest(alloc, case, &order, &branches) else {
            drop((table, order, system, switches, shown, branches));
            return Err(AllocError);
        };
        Ok(Network {
            case,
            order,
            table,
            branches,
            switches,
            system,
            matrix,
            voltages: shown.voltages,
            currents: shown.currents,
            switch_currents: shown.switch_currents,
            closed: shown.closed,
            made: 0,
        })
    }

    /// Makes the next step, with the values of the control of the record before. It answers the first fault, with the
    /// node that it is named by; after a fault only `redone` is stated. However it ends, the lists that it writes here keep
    /// their capacities: kinds of rows, values of sources, right side, unknowns, voltages, currents, switch currents, and
    /// which switches are closed. Of the lists of its parts (rows, factor, branches, switches) `capacities` doesn't speak.
    ///
    /// Where no conductance and no kind of a row changed since the step before, no row is redone, and none is filled or
    /// compared; of filling and comparing no clause speaks.
    pub fn step<L: Ledger>(&mut self, tacs: &[i64], steps: &mut Steps<L>) -> Result<(), NetFault>
        requires made { self.old.made < self.old.case.run.steps }
        requires tacs { length tacs.now ≡ length self.old.case.vars }
        ensures counts { HasCounted self.old self.new steps.old steps.new }
        ensures capacities { self.new.capacities ≡ self.old.capacities }
        ensures step { MakesStep result self.old self.new tacs.now }
        ensures ticks { TicksStep result self.old tacs.now steps.old steps.new }
        ensures node { IfErr result (NamesNode self.old.case) }
    {
        let made = self.made;
        self.made += 1;
        self.switches
            .decide(self.made, &self.voltages, &self.switch_currents, tacs);
        self.system
            .set_kinds(self.case, &self.switches, &mut self.matrix.rows)?;
        let network = StepNetwork {
            case: self.case,
            order: &self.order,
            branches: &self.branches,
        };
        self.matrix.factor(network, made, steps)?;
        self.system
            .set_sources(self.case, &self.table, self.made, tacs);
        self.system
            .solve(network, &self.matrix.kept, &mut self.voltages)?;
        self.branches
            .accept(self.case, &self.voltages, &mut self.currents)?;
        let network = StepNetwork {
            case: self.case,
            order: &self.order,
            branches: &self.branches,
        };
        self.system.find_leaving(network, &self.currents);
        self.system
            .find_currents(self.case, &mut self.switches, &mut self.switch_currents)?;
        self.switches.write_closed(&mut self.closed);
        self.system.judge(self.case, &self.order)
    }

    /// The node voltages of the last record by node number, ground first, in nV.
    pub fn voltages(&self) -> &[i64]
        ensures value { result.now ≡ self.now.voltages }
        ensures each { length result.now ≡ length self.now.case.nodes + 1 }
        ensures small { All (λ v. unsigned_abs v ≤ LARGEST_VALUE) result.now }
    {
        self.voltages.as_slice()
    }

    /// The switch currents of the last record by switch, in nA: they flow from `from` to `to`.
    pub fn currents(&self) -> &[i64]
        ensures value { result.now ≡ self.now.switch_currents }
        ensures each { length result.now ≡ length self.now.case.switches }
    {
        self.switch_currents.as_slice()
    }

    /// Whether each switch is closed in the last record.
    pub fn closed(&self) -> &[bool]
        ensures value { result.now ≡ self.now.closed }
        ensures each { length result.now ≡ length self.now.case.switches }
    {
        self.closed.as_slice()
    }

    /// The current of a branch in the last record, in nA: it flows from `from` to `to`, into a line at `from`.
    pub fn branch_current(&self, branch: usize) -> i64
        requires { branch < length self.now.case.branches }
        ensures { (H : List StepRecord) → StandsFor self.now H → result ≡ branch_current_at branch (latest H) }
    {
        self.branches.current(self.case, &self.currents, branch)
    }

    /// What the last record keeps of a pseudo-nonlinear branch: its current in nA, the segment that the next step is on, its
    /// flux in pWb.
    pub fn pseudo(&self, branch: usize) -> PseudoState
        requires { (x : Pseudo) × IsPseudoAt self.now.case branch x }
        ensures value { (H : List StepRecord) → StandsFor self.now H → result ≡ pseudo_at branch (latest H) }
        ensures current { unsigned_abs result.current ≤ LARGEST_VALUE }
        ensures flux { unsigned_abs result.flux ≤ LARGEST_VALUE }
    {
        self.branches.pseudos.state(branch)
    }

    /// How many rows of the nodal matrix the steps redid, but for the first step.
    pub fn redone(&self) -> u64
        ensures value { result ≡ self.now.redone }
        ensures few { result ≤ MOST_NODES * self.now.made }
        ensures made { self.now.made ≤ self.now.case.run.steps }
    {
        self.matrix.redone
    }

    /// The factor that the steps use. After the opening no row is good; after a step without a fault all are, and they
    /// are those of its nodal matrix.
    pub fn kept(&self) -> &Kept
        ensures { result.now ≡ self.now.kept }
    {
        &self.matrix.kept
    }
}

/// What a network shows of a record.
#[derive(Drop)]
struct Shown {
    voltages: Vec<i64>,
    currents: Vec<i64>,
    switch_currents: Vec<i64>,
    closed: Vec<bool>,
}

/// What a network shows of record 0.
fn shown_at_rest(alloc: Global, case: &Case, switches: &Switches<'_>) -> Result<Shown, AllocError>
    requires { switches.now.case ≡ case.now.parts }
    ensures voltages { IfOk result (λ shown. shown.voltages.items ≡ replicate (length case.now.parts.nodes + 1) (pos 0)) }
    ensures currents { IfOk result (λ shown. shown.currents.items ≡ replicate (length case.now.parts.branches) (pos 0)) }
    ensures switch_currents { IfOk result (λ shown.
        shown.switch_currents.items ≡ replicate (length case.now.parts.switches) (pos 0)) }
    ensures closed { IfOk result (λ shown. shown.closed.items ≡ map is_closed switches.now.states) }
    ensures count { IfOk result (λ shown. length shown.closed.items ≡ length case.now.parts.switches) }
{
    let voltages = zeros(alloc, case.parts.nodes.len() + 1)?;
    let currents = zeros(alloc, case.parts.branches.len())?;
    let switch_currents = zeros(alloc, case.parts.switches.len())?;
    let mut closed = vec![in alloc; false; case.parts.switches.len()]?;
    switches.write_closed(&mut closed);
    Ok(Shown {
        voltages,
        currents,
        switch_currents,
        closed,
    })
}

/// The nodal matrix of a case before any step, with the conductances of the first one, and a factor of which no row
/// is good.
fn matrix_at_rest<'a>(
    alloc: Global,
    case: &'a Case,
    order: &RowOrder,
    branches: &Branches<'_>,
) -> Result<NodalMatrix<'a>, AllocError>
    requires order { order.now ≡ order_of case.now.parts }
    requires same { HasCase branches.now case.now.parts }
    requires rest { BranchesStandFor branches.now (rest_of case.now.parts ∷ []) }
    ensures rows { IfOk result (λ matrix. HoldsRows case.now.parts matrix.rows matrix.kept) }
    ensures none { IfOk result (λ matrix. matrix.kept.rows ≡ []) }
    ensures redone { IfOk result (λ matrix. matrix.redone ≡ 0) }
{
    let mut rows = NetRows::open(alloc, case, order)?;
    set_couplings(case, branches, &mut rows);
    set_all_conductances(case, branches, &mut rows);
    let kept = Kept::open(alloc, &rows)?;
    Ok(NodalMatrix {
        rows,
        kept,
        redone: 0,
    })
}
