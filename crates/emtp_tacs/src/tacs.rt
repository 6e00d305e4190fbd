//! The control of a case.

ghost use Rattle.emtp_case.specs.declared.limit.TheConstants.{MOST_CONTROL_CARDS};
ghost use Rattle.std.specs.Prelude.{◌≡◌, ◌*◌, ◌<◌, ◌≤◌, ◌∷◌, [], All, length, unsigned_abs, IfErr, IfOk};
ghost use Rattle.emtp_case.specs.StepRecord.{rest_of};
ghost use Rattle.emtp_fix.specs.declared.limit.TheConstants.{LARGEST_VALUE};
ghost use Rattle.emtp_tacs.specs.held.Stages.{IsMeasured, NamesVariable, measured_from};
ghost use Rattle.emtp_tacs.specs.held.Tacs.{HasCounted, MakesStep, StandsFor, TicksStep};

use crate::block_system::BlockSystem;
use crate::extras::Pass;
use crate::fault::TacsFault;
use crate::measured::Measurements;
use crate::variables::Variables;
use emtp_case::Case;
use emtp_fix::Steps;
use emtp_tail::Kept;
use emtp_wave::CosTable;
use std::alloc::{AllocError, Global};
use std::marker::Model;
use std::rc::Rc;
use std::sync::ledger::Ledger;

/// The control of a case, at its last step.
#[derive(Drop)]
pub struct Tacs<'a> {
    case: &'a Case,
    variables: Variables<'a>,
    system: BlockSystem<'a>,
    made: u32,
}

impl<'a> Model for Tacs<'a> {
    ghost use Rattle.emtp_tacs.specs.held.Tacs.{HeldControl, HoldsTogether, capacities_of};

    ghost Value = { HeldControl };

    ghost use Rattle.std.specs.Coded.{codes};

    ghost coded = { Prim.hlevel codes };

    ghost view = { λ s. record {
      case = s.case.now.parts;
      blocks = s.system.blocks;
      devices = s.variables.devices;
      kept = s.system.kept;
      values = s.variables.values.items;
      made = s.made;
      redone = s.system.redone;
      capacities = capacities_of s.variables s.system;
    } };

    ghost invariant = { λ s. HoldsTogether s.case.now.parts s.variables s.system s.made };
}

impl<'a> Tacs<'a> {
    /// The control of record 0, in which all is at rest. No later call has an answer for want of memory.
    ///
    /// # Errors
    ///
    /// [`AllocError`] where there is no memory for it.
    pub fn open(alloc: Global, case: &'a Case) -> Result<Tacs<'a>, AllocError>
        ensures case { IfOk result (λ tacs. tacs.case ≡ case.now.parts) }
        ensures rest { IfOk result (λ tacs. StandsFor tacs (rest_of case.now.parts ∷ [])) }
        ensures made { IfOk result (λ tacs. tacs.made ≡ 0) }
    {
        let table = Rc::new(alloc, CosTable::open(alloc)?)?;
        Tacs::open_with(alloc, case, &table)
    }

    /// The same with a table of the cosine that others may share.
    ///
    /// # Errors
    ///
    /// [`AllocError`] where there is no memory for it.
    pub fn open_with(
        alloc: Global,
        case: &'a Case,
        table: &Rc<CosTable>,
    ) -> Result<Tacs<'a>, AllocError>
        ensures case { IfOk result (λ tacs. tacs.case ≡ case.now.parts) }
        ensures rest { IfOk result (λ tacs. StandsFor tacs (rest_of case.now.parts ∷ [])) }
        ensures made { IfOk result (λ tacs. tacs.made ≡ 0) }
    {
        let variables = Variables::open(alloc, case, table)?;
        let system = BlockSystem::open(alloc, case)?;
        Ok(Tacs {
            case,
            variables,
            system,
            made: 0,
        })
    }

    /// Makes the next step, by the network's numbers of the same step: the node voltages by node number, ground first, in
    /// nV; the currents of the switches, in nA; and whether each switch is closed. Where no limiter moved in the step
    /// before, no row is filled, compared or redone. It takes no memory: the lists that it writes keep their capacities; of
    /// those of the factor no clause says so.
    ///
    /// # Errors
    ///
    /// The first fault of the step, with the variable that it is named by. After a fault only `redone` and the
    /// capacities are stated.
    pub fn step<L: Ledger>(
        &mut self,
        voltages: &[i64],
        currents: &[i64],
        closed: &[bool],
        steps: &mut Steps<L>,
    ) -> Result<(), TacsFault>
        requires made { self.old.made < self.old.case.run.steps }
        requires measured { IsMeasured self.old.case (measured_from voltages.now currents.now closed.now) }
        ensures counts { HasCounted self.old self.new steps.old steps.new }
        ensures capacities { self.new.capacities ≡ self.old.capacities }
        ensures step { MakesStep result self.old self.new (measured_from voltages.now currents.now closed.now) }
        ensures ticks { TicksStep result self.old steps.old steps.new }
        ensures var { IfErr result (NamesVariable self.old.case) }
    {
        let measured = Measurements {
            voltages,
            currents,
            closed,
        };
        let made = self.made;
        self.made += 1;
        let first = self.system.first_changed(self.case, made);
        self.variables
            .compute_known(self.case, self.made, measured)?;
        self.system
            .solve(self.case, first, &mut self.variables.values, steps)?;
        let pass = Pass {
            case: self.case,
            early: false,
            step: self.made,
        };
        self.variables.compute_extras(pass)
    }

    /// The values of the last record by variable, in nano.
    pub fn values(&self) -> &[i64]
        ensures value { result.now ≡ self.now.values }
        ensures each { length result.now ≡ length self.now.case.vars }
        ensures small { All (λ v. unsigned_abs v ≤ LARGEST_VALUE) result.now }
    {
        self.variables.values.as_slice()
    }

    /// How many rows of the blocks' matrix the steps redid, but for the first step.
    pub fn redone(&self) -> u64
        ensures value { result ≡ self.now.redone }
        ensures few { result ≤ MOST_CONTROL_CARDS * self.now.made }
        ensures made { self.now.made ≤ self.now.case.run.steps }
    {
        self.system.redone
    }

    /// The factor that the steps use. After the opening no row is good; after a step without a fault all are, and they
    /// are those of its matrix.
    pub fn kept(&self) -> &Kept
        ensures { result.now ≡ self.now.kept }
    {
        &self.system.kept
    }
}
