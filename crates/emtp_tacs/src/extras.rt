//! The supplemental cards: a pass before the blocks and a pass after them, each in card order.

ghost use Rattle.std.specs.Prelude.{◌≡◌, ◌≤◌, ◌<◌, length, unsigned_abs, IfErr, IfOk};
ghost use Rattle.emtp_case.specs.held.Control.{AreKnown, var_of};
ghost use Rattle.emtp_fix.specs.declared.limit.TheConstants.{LARGEST_VALUE};
ghost use Rattle.emtp_tacs.specs.held.Stages.{ComputesCard, ComputesCards, ComputesValue, HasNameRoom, NamesVariable};
ghost use Rattle.emtp_tacs.specs.Step.{group_of, is_in_pass};

use crate::fault::{TacsFault, range_fault};
use crate::formula::formula_value;
use emtp_case::{Case, Extra, Group};
use emtp_devices::Devices;
use emtp_fix::OutOfRange;

/// A pass over the supplemental cards in a step.
#[derive(Clone, Copy)]
pub(crate) struct Pass<'a> {
    /// The case.
    pub(crate) case: &'a Case,
    /// Whether it is the pass before the blocks, else the one after them.
    pub(crate) early: bool,
    /// The step.
    pub(crate) step: u32,
}

/// Computes the supplemental cards of one pass. It answers the first one out of range.
pub(crate) fn compute_extras(
    pass: Pass<'_>,
    devices: &mut Devices<'_>,
    values: &mut [i64],
    names: &mut [i64],
) -> Result<(), TacsFault>
    requires same { devices.old.case ≡ pass.case.now.parts }
    requires values { AreKnown pass.case.now.parts values.old }
    requires names { HasNameRoom pass.case.now.parts names.old }
    ensures same { devices.new.case ≡ pass.entry.case.now.parts }
    ensures capacities { devices.new.capacities ≡ devices.old.capacities }
    ensures values { AreKnown pass.entry.case.now.parts values.new }
    ensures cards { ComputesCards result pass.entry values.old values.new devices.old devices.new }
    ensures var { IfErr result (NamesVariable pass.entry.case.now.parts) }
{
    for at in 0..pass.case.parts.extras.len() {
        if is_in_pass(pass.early, group_of(&pass.case.parts.extras.as_slice()[at])) {
            match compute_extra(pass, devices, at, values, names) {
                Ok(()) => {}
                Err(fault) => return Err(fault),
            }
        }
    }
    Ok(())
}

/// Computes the supplemental card at a place, and writes its value.
fn compute_extra(
    pass: Pass<'_>,
    devices: &mut Devices<'_>,
    at: usize,
    values: &mut [i64],
    names: &mut [i64],
) -> Result<(), TacsFault>
    requires at { at < length pass.case.now.parts.extras }
    requires same { devices.old.case ≡ pass.case.now.parts }
    requires values { AreKnown pass.case.now.parts values.old }
    requires names { HasNameRoom pass.case.now.parts names.old }
    ensures same { devices.new.case ≡ pass.entry.case.now.parts }
    ensures capacities { devices.new.capacities ≡ devices.old.capacities }
    ensures values { AreKnown pass.entry.case.now.parts values.new }
    ensures card { ComputesCard result pass.entry at values.old values.new devices.old devices.new }
    ensures var { IfErr result (NamesVariable pass.entry.case.now.parts) }
{
    let extra = &pass.case.parts.extras.as_slice()[at];
    let var = variable_of(extra);
    match value_of(pass, devices, at, values, names) {
        Ok(value) => {
            values[var as usize] = value;
            Ok(())
        }
        Err(_) => Err(range_fault(var)),
    }
}

/// The value of the supplemental card at a place, in nano; a device moves by one step.
fn value_of(
    pass: Pass<'_>,
    devices: &mut Devices<'_>,
    at: usize,
    values: &[i64],
    names: &mut [i64],
) -> Result<i64, OutOfRange>
    requires at { at < length pass.case.now.parts.extras }
    requires same { devices.old.case ≡ pass.case.now.parts }
    requires values { AreKnown pass.case.now.parts values.now }
    requires names { HasNameRoom pass.case.now.parts names.old }
    ensures value { ComputesValue result pass.entry at values.now devices.old devices.new }
    ensures same { devices.new.case ≡ pass.entry.case.now.parts }
    ensures capacities { devices.new.capacities ≡ devices.old.capacities }
    ensures small { IfOk result (λ y. unsigned_abs y ≤ LARGEST_VALUE) }
{
    match &pass.case.parts.extras.as_slice()[at] {
        Extra::Device(_) => devices.step(at, pass.step, values),
        Extra::Formula(formula) => formula_value(pass.case, formula, values, names),
    }
}

/// The variable of a supplemental card.
fn variable_of(extra: &Extra) -> u32
    ensures { result ≡ var_of extra.now }
{
    match extra {
        Extra::Device(device) => device.var,
        Extra::Formula(formula) => formula.var,
    }
}

fn group_of(extra: &Extra) -> Group
    ensures { result ≡ group_of extra.now }
{
    match extra {
        Extra::Device(device) => device.group,
        Extra::Formula(formula) => formula.group,
    }
}

fn is_in_pass(early: bool, group: Group) -> bool
    ensures { result ≡ is_in_pass early group }
{
    match group {
        Group::Input => early,
        Group::Inside | Group::Output => !early,
    }
}
