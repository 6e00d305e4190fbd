//! What is true of devices in the field's own words. The functions do nothing: their clauses are proved.

ghost use Rattle.std.specs.Prelude.{◌≡◌, ◌≢◌, ◌+◌, ◌<◌, ◌≤◌, ◌+ℤ◌, ◌≤ℤ◌, ◌<ℤ◌, All, Bool, IfSome, List, false, length, map, pos, slice_index_or, true, ℕ, ℤ};
ghost use Rattle.std.specs.List.{Contains};
ghost use Rattle.emtp_case.specs.Branch.{origin, points_of};
ghost use Rattle.emtp_case.specs.held.Control.{IsTable};
ghost use Rattle.emtp_case.specs.HistoryValues.{delay_steps};
ghost use Rattle.emtp_case.specs.StepRecord.{no_device};
ghost use Rattle.emtp_case.specs.declared.case.Parts.{Parts};
ghost use Rattle.emtp_case.specs.declared.control.DeviceCode.TheVariants.{Counter, Delay, Derivative, Extreme, Integral, PeakHold, SampleHold, Table};
ghost use Rattle.emtp_case.specs.declared.control.DeviceState.{DeviceState};
ghost use Rattle.emtp_case.specs.declared.control.Input.{Input};
ghost use Rattle.emtp_devices.specs.Device.{brought, gated, is_positive, newest, next_state};
ghost use Rattle.emtp_devices.specs.Laws.{KeepsOutput, MeetsPoint};

use emtp_case::Device;

/// Of two gates that differ by B alone, one lets the input through where the other stops it.
pub fn gates_share_the_input()
    ensures { (is_open : Bool) (b s : ℤ) → b ≢ pos 0 → gated is_open (pos 0) s +ℤ gated is_open b s ≡ s }
{}

/// A delay by no time puts out its input.
pub fn no_delay(device: &Device)
    requires code { device.now.code ≡ Delay }
    requires a { device.now.a ≡ pos 0 }
    ensures { (case : Parts) (step : ℕ) (values : List ℤ) (past : List DeviceState)
        → IfSome (next_state case device.now step values past) (λ state. state.output ≡ state.input) }
{}

/// A delay by k + 1 steps puts out the input of the record k before the last one, and 0 before record 0.
pub fn delay_looks_back(device: &Device)
    requires { device.now.code ≡ Delay }
    ensures { (case : Parts) (step : ℕ) (values : List ℤ) (past : List DeviceState) (k : ℕ)
        → delay_steps case.run.dt device.now.a ≡ k + 1
        → IfSome (next_state case device.now step values past) (λ state.
        state.output ≡ (slice_index_or past k no_device).input) }
{}

/// A table puts out the value of a point at the input of this point, to the last digit.
pub fn table_meets_its_points(device: &Device)
    requires { device.now.code ≡ Table }
    ensures { (case : Parts) (step : ℕ) (values : List ℤ) (past : List DeviceState) (k : ℕ)
        → let points = points_of case.points device.now.first device.now.count in
        IsTable points → k < length points
        → IfSome (next_state case device.now step values past) (MeetsPoint (slice_index_or points k origin)) }
{}

/// While D isn't above 0, an integral that isn't reset and a sample hold keep their value.
pub fn holds_its_value(device: &Device)
    ensures integral { (case : Parts) (step : ℕ) (values : List ℤ) (past : List DeviceState) → device.now.code ≡ Integral
        → is_positive false values device.now.e ≡ false → is_positive true values device.now.d ≡ false
        → IfSome (next_state case device.now step values past) (KeepsOutput past) }
    ensures sample { (case : Parts) (step : ℕ) (values : List ℤ) (past : List DeviceState) → device.now.code ≡ SampleHold
        → is_positive true values device.now.d ≡ false
        → IfSome (next_state case device.now step values past) (KeepsOutput past) }
{}

/// A steady input has no derivative.
pub fn steady_input_has_no_derivative(device: &Device)
    requires { device.now.code ≡ Derivative }
    ensures { (case : Parts) (step : ℕ) (values : List ℤ) (past : List DeviceState)
        → IfSome (next_state case device.now step values past) (λ state.
        state.input ≡ (newest past).input → state.output ≡ pos 0) }
{}

/// No input brings more than the greatest of them, nor less than the least; and one of them brings it.
pub fn extreme_is_reached(device: &Device)
    requires { device.now.code ≡ Extreme }
    ensures greatest { (case : Parts) (step : ℕ) (values : List ℤ) (past : List DeviceState) → pos 0 ≤ℤ device.now.a
        → IfSome (next_state case device.now step values past) (λ state.
        All (λ (i : Input). brought values i ≤ℤ state.output) device.now.inputs) }
    ensures least { (case : Parts) (step : ℕ) (values : List ℤ) (past : List DeviceState) → device.now.a <ℤ pos 0
        → IfSome (next_state case device.now step values past) (λ state.
        All (λ (i : Input). state.output ≤ℤ brought values i) device.now.inputs) }
    ensures reached { (case : Parts) (step : ℕ) (values : List ℤ) (past : List DeviceState) → 0 < length device.now.inputs
        → IfSome (next_state case device.now step values past) (λ state.
        Contains (map (brought values) device.now.inputs) state.output) }
{}

/// A greatest value so far never falls while it isn't reset.
pub fn peak_never_falls(device: &Device)
    requires code { device.now.code ≡ PeakHold }
    requires a { pos 0 ≤ℤ device.now.a }
    ensures { (case : Parts) (step : ℕ) (values : List ℤ) (past : List DeviceState)
        → is_positive false values device.now.d ≡ false → 2 ≤ step
        → IfSome (next_state case device.now step values past) (λ state. (newest past).output ≤ℤ state.output) }
{}

/// A counter that isn't reset keeps its value while its input is 0.
pub fn counter_keeps(device: &Device)
    requires { device.now.code ≡ Counter }
    ensures { (case : Parts) (step : ℕ) (values : List ℤ) (past : List DeviceState)
        → is_positive false values device.now.d ≡ false
        → IfSome (next_state case device.now step values past) (λ state. state.input ≡ pos 0 → KeepsOutput past state) }
{}
