//! The machine of a case: one step after the other, from rest on.

ghost use Rattle.std.specs.Prelude.{◌≡◌, ◌≢◌, ◌+◌, ◌<◌, ◌≤◌, length, unsigned_abs, None, All, IfErr, IfNone, IfOk, IfSome};
ghost use Rattle.std.specs.Bool.{OnFalse, OnTrue};
ghost use Rattle.emtp_case.specs.StepRecord.{branch_current_at, latest, pseudo_at};
ghost use Rattle.emtp_case.specs.declared.branch.Pseudo.{Pseudo};
ghost use Rattle.emtp_case.specs.declared.limit.TheConstants.{MOST_STEPS};
ghost use Rattle.emtp_fix.specs.declared.limit.TheConstants.{LARGEST_VALUE};
ghost use Rattle.emtp_machine.specs.History.{history, redone, samples};
ghost use Rattle.emtp_machine.specs.held.History.{rows_of_run};
ghost use Rattle.emtp_machine.specs.Machine.{IsEnd};
ghost use Rattle.emtp_machine.specs.held.Machine.{HasTicked, MayStep, answer_of, history_of};
ghost use Rattle.emtp_machine.specs.Laws.{SamplesBalance};
ghost use Rattle.emtp_pseudo.specs.held.Pseudos.{IsPseudoAt};

use crate::controlled::ControlledNetwork;
use crate::end::End;
use crate::samples::Samples;
use emtp_case::{Case, PseudoState};
use emtp_fix::Steps;
use emtp_wave::CosTable;
use std::alloc::{AllocError, Global};
use std::marker::Model;
use std::rc::Rc;
use std::sync::ledger::Ledger;

/// The machine of a case. It stands for the first records of the case's history, and for its end once it came.
///
/// `row` is room for one sample.
#[derive(Drop)]
pub struct Machine<'c> {
    case: &'c Case,
    network: ControlledNetwork<'c>,
    row: Vec<i64>,
    samples: Samples,
    made: u32,
    end: Option<End>,
}

impl<'c> Model for Machine<'c> {
    ghost use Rattle.std.specs.Prelude.{vec_capacity};
    ghost use Rattle.emtp_machine.specs.History.{history_upto};
    ghost use Rattle.emtp_machine.specs.held.Machine.{IsMachine, Progress, capacities_of_machine, tried_of};

    ghost Value = { Progress };

    ghost use Rattle.std.specs.Coded.{codes};

    ghost coded = { Prim.hlevel codes };

    ghost view = { λ m. record {
      case = m.case.now.parts;
      tried = tried_of m.made m.end;
      capacities = capacities_of_machine m.network (vec_capacity m.row) m.samples;
    } };

    ghost invariant = { λ m. IsMachine m.case.now.parts m.network m.row.items m.samples m.made m.end (history_upto m.case.now.parts (tried_of m.made m.end)) };
}

impl<'c> Machine<'c> {
    /// The machine at record 0, which is a sample. No later call has an answer for want of memory.
    ///
    /// # Errors
    ///
    /// [`AllocError`] where there is no memory for it.
    pub fn open(alloc: Global, case: &'c Case) -> Result<Machine<'c>, AllocError>
        ensures case { IfOk result (λ m. m.case ≡ case.now.parts) }
        ensures rest { IfOk result (λ m. m.tried ≡ 0) }
    {
        let table = Rc::new(alloc, CosTable::open(alloc)?)?;
        Machine::open_with(alloc, case, &table)
    }

    /// The same with a table of the cosine that other machines may share, since it is the same for each case.
    ///
    /// # Errors
    ///
    /// [`AllocError`] where there is no memory for it.
    pub fn open_with(
        alloc: Global,
        case: &'c Case,
        table: &Rc<CosTable>,
    ) -> Result<Machine<'c>, AllocError>
        ensures case { IfOk result (λ m. m.case ≡ case.now.parts) }
        ensures rest { IfOk result (λ m. m.tried ≡ 0) }
    {
        // What owns most is opened last, so that no way out has to drop it: a drop in place is proved list by list.
        let channels = case.parts.channels.len();
        let mut row = vec![in alloc; 0i64; channels]?;
        let mut samples = Samples::open(alloc, channels, case.parts.run.samples())?;
        let network = ControlledNetwork::open(alloc, case, table)?;
        network.take_sample(case, &mut row, &mut samples);
        Ok(Machine {
            case,
            network,
            row,
            samples,
            made: 0,
            end: None,
        })
    }

    /// Makes one step more, and takes its sample where it is due; or answers the end of the run, which stays. It takes
    /// no memory: the room for a sample, the samples, the control's lists and the network's own keep their capacities; of
    /// both factors, and of the network's rows, branches and switches, no clause says so.
    ///
    /// # Errors
    ///
    /// The [`End`] of this step, or of the step that ended the run.
    pub fn step<L: Ledger>(&mut self, steps: &mut Steps<L>) -> Result<(), End>
        requires { MayStep self.old }
        ensures case { self.new.case ≡ self.old.case }
        ensures capacities { self.new.capacities ≡ self.old.capacities }
        ensures further { (history_of self.old).end ≡ None → self.new.tried ≡ self.old.tried + 1 }
        ensures stays { (history_of self.old).end ≢ None → self.new ≡ self.old }
        ensures answer { result ≡ answer_of (history_of self.new).end }
        ensures names { IfErr result (IsEnd self.old.case) }
        ensures ticks { HasTicked self.old self.new steps.old steps.new }
    {
        if self.end.is_none() {
            self.advance(steps);
        }
        match self.end {
            None => Ok(()),
            Some(end) => Err(end),
        }
    }

    /// Makes one step more, or comes to its end.
    fn advance<L: Ledger>(&mut self, steps: &mut Steps<L>)
        requires running { (history_of self.old).end ≡ None }
        requires left { self.old.tried < self.old.case.run.steps }
        ensures case { self.new.case ≡ self.old.case }
        ensures capacities { self.new.capacities ≡ self.old.capacities }
        ensures further { self.new.tried ≡ self.old.tried + 1 }
        ensures ticks { HasTicked self.old self.new steps.old steps.new }
    {
        let case = self.case;
        match self.network.step(case, self.made + 1, steps) {
            Ok(()) => {
                self.made += 1;
                if self.made % case.parts.run.every == 0 {
                    self.network
                        .take_sample(case, &mut self.row, &mut self.samples);
                }
            }
            Err(end) => self.end = Some(end),
        }
    }

    /// Makes all steps that are left, or those before the end, and answers the end, if it came. It has no answer for want
    /// of memory, and the lists that `capacities` names keep their capacities.
    pub fn run<L: Ledger>(&mut self, steps: &mut Steps<L>) -> Option<End>
        ensures case { self.new.case ≡ self.old.case }
        ensures capacities { self.new.capacities ≡ self.old.capacities }
        ensures history { history_of self.new ≡ history self.old.case }
        ensures end { result ≡ (history self.old.case).end }
        ensures names { IfSome result (IsEnd self.old.case) }
        ensures balance { SamplesBalance self.old.case }
        ensures ticks { HasTicked self.old self.new steps.old steps.new }
        ensures rows { self.old.tried ≡ 0 → IfNone result (steps.new ≡ steps.old + rows_of_run self.old.case) }
        ensures most { self.old.tried ≡ 0 → steps.new ≤ steps.old + rows_of_run self.old.case }
    {
        'steps: while !self.is_over() {
            self.advance(steps);
        }
        self.end
    }

    /// Whether the run is over: its last step is made, or its end came.
    pub fn is_over(&self) -> bool
        ensures over { OnTrue result (history_of self.now ≡ history self.now.case) }
        ensures running { OnFalse result ((history_of self.now).end ≡ None) }
        ensures left { OnFalse result (self.now.tried < self.now.case.run.steps) }
    {
        self.end.is_some() || self.made == self.case.parts.run.steps
    }

    /// The number of steps that were made: rest is no step, and neither is that of an end.
    pub fn done(&self) -> u32
        ensures value { result + 1 ≡ length (history_of self.now).records }
        ensures few { result ≤ MOST_STEPS }
    {
        self.made
    }

    /// The voltages of the nodes in the last record, ground first, in nV. A step that ends a run leaves no record to read.
    pub fn voltages(&self) -> &[i64]
        requires running { (history_of self.now).end ≡ None }
        ensures value { result.now ≡ (latest (history_of self.now).records).voltages }
        ensures each { length result.now ≡ length self.now.case.nodes + 1 }
        ensures small { All (λ v. unsigned_abs v ≤ LARGEST_VALUE) result.now }
    {
        self.network.network.voltages()
    }

    /// The current of a branch in the last record, in nA: it flows from `from` to `to`, into a line at `from`.
    pub fn branch_current(&self, branch: usize) -> i64
        requires running { (history_of self.now).end ≡ None }
        requires branch { branch < length self.now.case.branches }
        ensures { result ≡ branch_current_at branch (latest (history_of self.now).records) }
    {
        self.network.network.branch_current(branch)
    }

    /// The switch currents in the last record, in nA: they flow from `from` to `to`.
    pub fn switch_currents(&self) -> &[i64]
        requires running { (history_of self.now).end ≡ None }
        ensures value { result.now ≡ (latest (history_of self.now).records).switch_currents }
        ensures each { length result.now ≡ length self.now.case.switches }
    {
        self.network.network.currents()
    }

    /// What the last record keeps of a pseudo-nonlinear branch: its current in nA, the segment that the next step is on, its
    /// flux in pWb.
    pub fn pseudo(&self, branch: usize) -> PseudoState
        requires running { (history_of self.now).end ≡ None }
        requires branch { (x : Pseudo) × IsPseudoAt self.now.case branch x }
        ensures value { result ≡ pseudo_at branch (latest (history_of self.now).records) }
        ensures current { unsigned_abs result.current ≤ LARGEST_VALUE }
        ensures flux { unsigned_abs result.flux ≤ LARGEST_VALUE }
    {
        self.network.network.pseudo(branch)
    }

    /// The samples of the records so far.
    pub fn samples(&self) -> &Samples
        ensures channels { result.now.channels ≡ length self.now.case.channels }
        ensures samples { result.now.rows ≡ samples self.now.case (history_of self.now) }
    {
        &self.samples
    }

    /// How many rows of the network's matrix and of the control's were redone, from the second step on; those of the end's
    /// step count too.
    pub fn redone(&self) -> u64
        ensures { result ≡ redone self.now.case (history_of self.now) }
    {
        self.network.redone(self.case)
    }
}
