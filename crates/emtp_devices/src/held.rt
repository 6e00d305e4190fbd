//! What is held of one device.

ghost use Rattle.std.specs.Prelude.{◌≡◌, ◌≤◌, ◌∷◌, IfOk, List, None, OnErr, map, take, unsigned_abs};
ghost use Rattle.emtp_case.specs.held.Control.{IsDevice, IsExtra, AreKnown};
ghost use Rattle.emtp_case.specs.held.Sizes.{sizes_of};
ghost use Rattle.emtp_case.specs.declared.control.DeviceCode.TheVariants.{EffectiveValue};
ghost use Rattle.emtp_case.specs.declared.control.DeviceState.{DeviceState};
ghost use Rattle.emtp_devices.specs.Device.{next_state, sum_of_squares};
ghost use Rattle.emtp_devices.specs.held.Held.{DeviceMoved, DeviceStands, IsHeld, IsHeldOf, depth_of, held_at_rest};
ghost use Rattle.emtp_fix.specs.declared.limit.TheConstants.{LARGEST_VALUE};

use crate::effective::squares_after;
use crate::next::next;
use emtp_case::{Case, Device, DeviceCode, DeviceState, Extra};
use emtp_fix::OutOfRange;
use emtp_hist::History;
use std::alloc::{AllocError, Global};

/// A device between two steps.
#[derive(Drop)]
pub(crate) struct HeldDevice {
    /// How many inputs are held: the steps of a delay and one more, those of a period, else 1.
    pub(crate) depth: usize,
    /// The last output, in nano.
    pub(crate) output: i64,
    /// Of an effective value the sum of the squares of the inputs held, in nano. It is exact, so it never drifts.
    pub(crate) squares: i128,
    /// The last inputs, in nano; that of record 0 is 0.
    pub(crate) inputs: History,
}

impl HeldDevice {
    /// A device of record 0.
    pub(crate) fn at_rest(alloc: Global, depth: usize) -> Result<HeldDevice, AllocError>
        requires { 1 ≤ depth }
        ensures { IfOk result (λ h. h ≡ held_at_rest depth) }
    {
        let mut inputs = History::open(alloc, depth)?;
        inputs.push(0);
        Ok(HeldDevice {
            depth,
            output: 0,
            squares: 0,
            inputs,
        })
    }

    /// Moves the device by one step and answers its output in nano.
    pub(crate) fn step(
        &mut self,
        case: &Case,
        device: &Device,
        step: u32,
        values: &[i64],
    ) -> Result<i64, OutOfRange>
        requires device { IsDevice (sizes_of case.now.parts) case.now.parts.points device.now }
        requires held { IsHeldOf case.now.parts.run.dt device.now self.old }
        requires values { AreKnown case.now.parts values.now }
        ensures fits { IsHeldOf case.now.parts.run.dt device.now self.new }
        ensures moved { (past : List DeviceState) → DeviceStands self.old past
            → IfOk result (DeviceMoved self.new past (next_state case.now.parts device.now step values.now past)) }
        ensures out { (past : List DeviceState) → DeviceStands self.old past
            → OnErr result (next_state case.now.parts device.now step values.now past ≡ None) }
        ensures same { OnErr result (self.new ≡ self.old) }
        ensures small { IfOk result (λ y. unsigned_abs y ≤ LARGEST_VALUE) }
    {
        match next(case, device, self, step, values) {
            Some(state) => {
                self.push(device, &state);
                Ok(state.output)
            }
            None => Err(OutOfRange),
        }
    }

    /// Makes a state the newest one.
    fn push(&mut self, device: &Device, state: &DeviceState)
        requires held { IsHeld self.old }
        requires sum { device.now.code ≡ EffectiveValue → self.old.squares ≡ sum_of_squares self.old.inputs.values }
        requires input { unsigned_abs state.now.input ≤ LARGEST_VALUE }
        requires output { unsigned_abs state.now.output ≤ LARGEST_VALUE }
        ensures depth { self.new.depth ≡ self.old.depth }
        ensures fits { IsHeld self.new }
        ensures sum { device.now.code ≡ EffectiveValue → self.new.squares ≡ sum_of_squares self.new.inputs.values }
        ensures stands { (past : List DeviceState) → DeviceStands self.old past → DeviceStands self.new (state.now ∷ past) }
    {
        self.squares = next_squares(device, self, state.input);
        self.output = state.output;
        self.inputs.push(state.input);
    }
}

/// The running sum of an effective value with one more input; that of another device isn't read.
fn next_squares(device: &Device, held: &HeldDevice, s: i64) -> i128
    requires held { IsHeld held.now }
    requires sum { device.now.code ≡ EffectiveValue → held.now.squares ≡ sum_of_squares held.now.inputs.values }
    requires s { unsigned_abs s ≤ LARGEST_VALUE }
    ensures { device.now.code ≡ EffectiveValue
        → result ≡ sum_of_squares (take held.now.depth (s ∷ held.now.inputs.values)) }
{
    match device.code {
        DeviceCode::EffectiveValue => squares_after(held, s),
        _ => held.squares,
    }
}

/// What is held of each supplemental card in record 0.
pub(crate) fn all_at_rest(alloc: Global, case: &Case) -> Result<Vec<HeldDevice>, AllocError>
    ensures { IfOk result (λ held.
        held.items ≡ map (λ e. held_at_rest (depth_of case.now.parts.run.dt e)) case.now.parts.extras) }
{
    let mut held = Vec::new(alloc);
    for extra in case.parts.extras.as_slice() {
        held.push(HeldDevice::at_rest(alloc, depth_of(case, extra))?)?;
    }
    Ok(held)
}

/// How many inputs a supplemental card holds. A formula holds one, which is never read.
fn depth_of(case: &Case, extra: &Extra) -> usize
    requires { IsExtra (sizes_of case.now.parts) case.now.parts.points extra.now }
    ensures { result ≡ depth_of case.now.parts.run.dt extra.now }
{
    match extra {
        Extra::Device(device) => (device.history_values(case.parts.run.dt) as usize).max(1),
        Extra::Formula(_) => 1,
    }
}
