//! One step of a device.

ghost use Rattle.std.specs.Prelude.{◌≡◌, ◌≤◌, ◌<◌, IfSome, List, unsigned_abs, ℤ};
ghost use Rattle.emtp_case.specs.held.Control.{IsDevice, AreKnown};
ghost use Rattle.emtp_case.specs.held.Sizes.{sizes_of};
ghost use Rattle.emtp_case.specs.declared.control.DeviceState.{DeviceState};
ghost use Rattle.emtp_devices.specs.Device.{next_state, output_by};
ghost use Rattle.emtp_devices.specs.held.Held.{DeviceStands, IsHeldOf};
ghost use Rattle.emtp_fix.specs.declared.limit.TheConstants.{LARGEST_VALUE};
ghost use Rattle.emtp_hist.specs.held.History.{Remembers};

use crate::effective::effective_value;
use crate::held::HeldDevice;
use crate::inputs::{brought_at, brought_sum, extreme, is_positive, named_value};
use crate::output::{
    chosen, counted, delayed, derivative, gated, integrated, last_input, one_above_zero, peak,
    taken_input,
};
use crate::table::{is_within_pair, points_of, table_value, time_of};
use emtp_case::{Case, Device, DeviceCode, DeviceState};
use emtp_fix::in_range;

/// What the next record keeps of a device; none where a number is out of range.
#[tactic(auto, unfolding(crate::specs::Device::next_state))]
pub(crate) fn next(
    case: &Case,
    device: &Device,
    held: &HeldDevice,
    step: u32,
    values: &[i64],
) -> Option<DeviceState>
    requires device { IsDevice (sizes_of case.now.parts) case.now.parts.points device.now }
    requires held { IsHeldOf case.now.parts.run.dt device.now held.now }
    requires values { AreKnown case.now.parts values.now }
    ensures value { (past : List DeviceState) → DeviceStands held.now past
        → result ≡ next_state case.now.parts device.now step values.now past }
    ensures input { IfSome result (λ state. unsigned_abs state.input ≤ LARGEST_VALUE) }
    ensures output { IfSome result (λ state. unsigned_abs state.output ≤ LARGEST_VALUE) }
{
    let input = in_range(brought_sum(values, device.inputs.as_slice()) as i128)?;
    let output = in_range(output(case, device, held, step, values, input))?;
    Some(DeviceState { input, output })
}

/// The output of a device at its input, in nano, in range or not: one equation a code.
fn output(
    case: &Case,
    device: &Device,
    held: &HeldDevice,
    step: u32,
    values: &[i64],
    s: i64,
) -> i128
    requires device { IsDevice (sizes_of case.now.parts) case.now.parts.points device.now }
    requires held { IsHeldOf case.now.parts.run.dt device.now held.now }
    requires values { AreKnown case.now.parts values.now }
    requires s { unsigned_abs s ≤ LARGEST_VALUE }
    ensures { (inputs : List ℤ) → Remembers held.now.inputs inputs
        → result ≡ output_by case.now.parts device.now
        (record { step = step; values = values.now; s = s; inputs = inputs; last = held.now.output }) device.now.code }
{
    let run = &case.parts.run;
    let points = case.parts.points.as_slice();
    let inputs = device.inputs.as_slice();
    match device.code {
        DeviceCode::Gate => {
            gated(device.a < named_value(values, device.d).abs(), device.b, s) as i128
        }
        DeviceCode::GateAbove => {
            gated(device.a < named_value(values, device.d), device.b, s) as i128
        }
        DeviceCode::Delay => delayed(held, s) as i128,
        DeviceCode::DelayedPulse => one_above_zero(delayed(held, s)) as i128,
        DeviceCode::Table => table_value(s, points_of(points, device)),
        DeviceCode::Window => {
            chosen(
                is_within_pair(time_of(run, step), points_of(points, device)),
                s,
                0,
            )
        }
        DeviceCode::Integral => {
            let reset = is_positive(false, values, device.e);
            let active = is_positive(true, values, device.d);
            integrated(reset, active, held, run.dt, s)
        }
        DeviceCode::Derivative => derivative(run.dt, s, last_input(held)),
        DeviceCode::Selector => {
            brought_at(
                values,
                inputs,
                taken_input(named_value(values, device.d) - device.a),
            ) as i128
        }
        DeviceCode::SampleHold => chosen(is_positive(true, values, device.d), s, held.output),
        DeviceCode::Extreme => extreme(device.a, values, inputs) as i128,
        DeviceCode::PeakHold => {
            let reset = is_positive(false, values, device.d);
            peak(reset, step, device.a, held.output, s)
        }
        DeviceCode::Counter => counted(is_positive(false, values, device.d), held.output, s),
        DeviceCode::EffectiveValue => effective_value(held, s),
    }
}
