//! The variables of the control, and what computes them but for the blocks.

ghost use Rattle.std.specs.Prelude.{◌≡◌, ◌≤◌, ◌∷◌, [], List, ℤ, length, IfErr, IfOk};
ghost use Rattle.emtp_case.specs.declared.control.Extra.{Extra};
ghost use Rattle.emtp_case.specs.declared.control.Formula.{Formula};
ghost use Rattle.emtp_case.specs.StepRecord.{rest_of};
ghost use Rattle.emtp_tacs.specs.held.Stages.{ComputesKnown, ComputesPass, HasNameRoom, HoldsVariables, IsMeasured, NamesVariable, VariablesStandFor, capacities_of_variables, measured_by};

use crate::extras::{Pass, compute_extras};
use crate::fault::TacsFault;
use crate::measured::Measurements;
use crate::sources::put_sources;
use crate::standing::set_standing;
use emtp_case::{Case, Extra};
use emtp_devices::Devices;
use emtp_wave::CosTable;
use std::alloc::{AllocError, Global};
use std::rc::Rc;

/// The variables of the control at the last record.
#[derive(Drop)]
pub(crate) struct Variables<'a> {
    pub(crate) table: Rc<CosTable>,
    pub(crate) devices: Devices<'a>,
    /// The values by variable, in nano: to 10^18 in magnitude.
    pub(crate) values: Vec<i64>,
    /// Room for the values of a formula's names.
    pub(crate) names: Vec<i64>,
}

impl<'a> Variables<'a> {
    /// The variables of record 0. All memory is taken here.
    pub(crate) fn open(
        alloc: Global,
        case: &'a Case,
        table: &Rc<CosTable>,
    ) -> Result<Variables<'a>, AllocError>
        ensures holds { IfOk result (HoldsVariables case.now.parts) }
        ensures rest { IfOk result (λ v. VariablesStandFor case.now.parts v (rest_of case.now.parts ∷ [])) }
    {
        let values = vec![in alloc; 0i64; case.parts.vars.len()]?;
        let names = vec![in alloc; 0i64; most_names(case)]?;
        let table = table.clone()?;
        let devices = Devices::open(alloc, case)?;
        Ok(Variables {
            table,
            devices,
            values,
            names,
        })
    }

    /// Computes what is known before the blocks of a step: the variables that every case has, the sources, and the
    /// supplemental cards 99.
    pub(crate) fn compute_known(
        &mut self,
        case: &Case,
        step: u32,
        measured: Measurements<'_>,
    ) -> Result<(), TacsFault>
        requires holds { HoldsVariables case.now.parts self.old }
        requires step { step ≤ case.now.parts.run.steps }
        requires measured { IsMeasured case.now.parts (measured_by measured) }
        ensures holds { HoldsVariables case.now.parts self.new }
        ensures capacities { capacities_of_variables self.new ≡ capacities_of_variables self.old }
        ensures known { ComputesKnown result case.now.parts step (measured_by measured.entry) self.old self.new }
        ensures var { IfErr result (NamesVariable case.now.parts) }
    {
        set_standing(case, step, &mut self.values);
        put_sources(case, &self.table, step, measured, &mut self.values)?;
        let pass = Pass {
            case,
            early: true,
            step,
        };
        self.compute_extras(pass)
    }

    /// Computes the supplemental cards of one pass.
    pub(crate) fn compute_extras(&mut self, pass: Pass<'_>) -> Result<(), TacsFault>
        requires holds { HoldsVariables pass.case.now.parts self.old }
        ensures holds { HoldsVariables pass.entry.case.now.parts self.new }
        ensures capacities { capacities_of_variables self.new ≡ capacities_of_variables self.old }
        ensures pass { ComputesPass result pass.entry self.old self.new }
        ensures var { IfErr result (NamesVariable pass.entry.case.now.parts) }
    {
        compute_extras(pass, &mut self.devices, &mut self.values, &mut self.names)
    }
}

/// How many names a formula of the case has at most.
fn most_names(case: &Case) -> usize
    ensures { (names : List ℤ) → length names ≡ result → HasNameRoom case.now.parts names }
{
    let mut most = 0;
    for extra in case.parts.extras.as_slice() {
        most = most.max(names_of(extra));
    }
    most
}

/// How many names a supplemental card has, if it is a formula.
fn names_of(extra: &Extra) -> usize
    ensures { (x : Formula) → extra.now ≡ Extra.Formula x → result ≡ length x.vars }
{
    match extra {
        Extra::Device(_) => 0,
        Extra::Formula(formula) => formula.vars.len(),
    }
}
