//! The states of the switches in a step.

ghost use Rattle.std.specs.Prelude.{◌≡◌, ◌≢◌, ◌≤◌, ◌<◌, ◌+◌, ◌-ℤ◌, false, true, length, slice_set, unsigned_abs};
ghost use Rattle.std.specs.Option.{ForSome};
ghost use Rattle.std.specs.List.{All};
ghost use Rattle.emtp_case.specs.StepRecord.{StepRecord, starting_state};
ghost use Rattle.emtp_fix.specs.declared.limit.TheConstants.{LARGEST_VALUE};
ghost use Rattle.emtp_switch.specs.Groups.{state_at};
ghost use Rattle.emtp_fix.specs.Items.{item};
ghost use Rattle.emtp_switch.specs.States.{oppose, interrupts, is_due, breaker_state, valve_state, state_after, control_of, is_on};
ghost use Rattle.emtp_switch.specs.held.Switching.{MovesStates};

use emtp_case::{Case, Switch, SwitchKind, SwitchState};

/// What a switch sees of the step and of the last two records.
#[derive(Clone, Copy)]
pub struct View {
    /// The time of the step, in ps.
    pub time: i64,
    /// Its current in the last record, in nA.
    pub current: i64,
    /// Its current in the record before that one, in nA.
    pub before: i64,
    /// The voltage of `from` less that of `to` in the last record, in nV: the exact difference, to twice 10^18.
    pub voltage: i64,
    /// Whether its control, if it has one, is above 0 in the last record.
    pub on: bool,
}

/// The state of a switch of record 0.
pub(crate) fn starting_state(kind: SwitchKind) -> SwitchState
    ensures { result ≡ starting_state kind }
{
    match kind {
        SwitchKind::Time { close, .. } => {
            if close < 0 {
                SwitchState::Closed
            } else {
                SwitchState::Waiting
            }
        }
        SwitchKind::Measuring => SwitchState::Closed,
        SwitchKind::Valve { .. } | SwitchKind::Control { .. } => SwitchState::Opened,
    }
}

fn oppose(a: i64, b: i64) -> bool
    ensures { result ≡ oppose a b }
{
    (a < 0 && b > 0) || (a > 0 && b < 0)
}

/// Whether a breaker that is to open may do so: the current is within its margin, or it has passed a zero.
fn interrupts(margin: i64, current: i64, before: i64) -> bool
    ensures { result ≡ interrupts margin current before }
{
    current.unsigned_abs() <= margin.unsigned_abs() || oppose(current, before)
}

fn is_due(open_at: Option<i64>, time: i64) -> bool
    ensures { result ≡ is_due open_at time }
{
    match open_at {
        Some(open_at) => open_at <= time,
        None => false,
    }
}

/// The state of a breaker after a state.
fn breaker_state(
    close: i64,
    open_at: Option<i64>,
    margin: i64,
    view: View,
    state: SwitchState,
) -> SwitchState
    ensures { result ≡ breaker_state close open_at margin view state }
{
    match state {
        SwitchState::Waiting => {
            if close <= view.time {
                SwitchState::Closed
            } else {
                SwitchState::Waiting
            }
        }
        SwitchState::Closed => {
            if is_due(open_at, view.time) && interrupts(margin, view.current, view.before) {
                SwitchState::Opened
            } else {
                SwitchState::Closed
            }
        }
        SwitchState::Opened => SwitchState::Opened,
    }
}

/// The state of a valve after a state.
fn valve_state(ignition: i64, holding: i64, view: View, state: SwitchState) -> SwitchState
    ensures { result ≡ valve_state ignition holding view state }
{
    match state {
        SwitchState::Closed => {
            if view.current < holding {
                SwitchState::Opened
            } else {
                SwitchState::Closed
            }
        }
        SwitchState::Waiting | SwitchState::Opened => {
            if view.voltage > 0 && ignition <= view.voltage && view.on {
                SwitchState::Closed
            } else {
                SwitchState::Opened
            }
        }
    }
}

/// The variable that has to be above 0, if there is one.
fn control_of(kind: SwitchKind) -> Option<u32>
    ensures { result ≡ control_of kind }
{
    match kind {
        SwitchKind::Time { .. } | SwitchKind::Measuring => None,
        SwitchKind::Valve { control, .. } => control,
        SwitchKind::Control { control } => Some(control),
    }
}

/// Whether a control is above 0; where there is none, it is.
fn is_on(control: Option<u32>, values: &[i64]) -> bool
    requires { ForSome control (λ v. v < length values.now) }
    ensures { (r : StepRecord) → values.now ≡ r.values → result ≡ is_on control r }
{
    match control {
        Some(var) => values[var as usize] > 0,
        None => true,
    }
}

/// The state of a switch in the step that it sees, after a state.
fn state_after(kind: SwitchKind, view: View, state: SwitchState) -> SwitchState
    ensures { result ≡ state_after kind view state }
{
    match kind {
        SwitchKind::Time {
            close,
            open_at,
            margin,
        } => breaker_state(close, open_at, margin, view, state),
        SwitchKind::Measuring => SwitchState::Closed,
        SwitchKind::Valve {
            ignition,
            holding,
            ..
        } => valve_state(ignition, holding, view, state),
        SwitchKind::Control { .. } => {
            if view.on {
                SwitchState::Closed
            } else {
                SwitchState::Opened
            }
        }
    }
}

/// The numbers of the last record that the switches of the next step see.
#[derive(Clone, Copy)]
pub(crate) struct LastNumbers<'r> {
    /// The node voltages, ground first, in nV.
    pub(crate) voltages: &'r [i64],
    /// The currents of the switches, in nA.
    pub(crate) currents: &'r [i64],
    /// The values of the control's variables.
    pub(crate) values: &'r [i64],
}

/// What a switch sees, at a time.
fn view_of(switch: &Switch, time: i64, current: i64, before: i64, last: LastNumbers<'_>) -> View
    requires from { switch.now.from < length last.voltages.now }
    requires to { switch.now.to < length last.voltages.now }
    requires control { ForSome (control_of switch.now.kind) (λ v. v < length last.values.now) }
    requires small { All (λ v. unsigned_abs v ≤ LARGEST_VALUE) last.voltages.now }
    ensures time { result.time ≡ time }
    ensures current { result.current ≡ current }
    ensures before { result.before ≡ before }
    ensures voltage { result.voltage
        ≡ item last.entry.voltages.now switch.now.from -ℤ item last.entry.voltages.now switch.now.to }
    ensures on { (r : StepRecord) → last.entry.values.now ≡ r.values → result.on ≡ is_on (control_of switch.now.kind) r }
{
    View {
        time,
        current,
        before,
        voltage: last.voltages[switch.from as usize] - last.voltages[switch.to as usize],
        on: is_on(control_of(switch.kind), last.values),
    }
}

/// Gives a switch a state, and answers whether it had another one.
fn replace(states: &mut [SwitchState], s: usize, state: SwitchState) -> bool
    requires { s < length states.old }
    ensures states { states.new ≡ slice_set states.old s state }
    ensures same { result ≡ false → states.new ≡ states.old }
    ensures other { result ≡ true → state_at states.old s ≢ state }
{
    if states[s] == state {
        return false;
    }
    states[s] = state;
    true
}

/// Moves all switches to their states of a step, and answers whether one of them had another state before.
pub(crate) fn move_states(
    case: &Case,
    step: u32,
    last: LastNumbers<'_>,
    before: &[i64],
    states: &mut [SwitchState],
) -> bool
    requires step { step ≤ case.now.parts.run.steps }
    requires voltages { length last.voltages.now ≡ length case.now.parts.nodes + 1 }
    requires small { All (λ v. unsigned_abs v ≤ LARGEST_VALUE) last.voltages.now }
    requires currents { length last.currents.now ≡ length case.now.parts.switches }
    requires before { length before.now ≡ length case.now.parts.switches }
    requires values { length last.values.now ≡ length case.now.parts.vars }
    requires states { length states.old ≡ length case.now.parts.switches }
    ensures moved { MovesStates case.now.parts states.old before.now step last.entry states.new }
    ensures same { result ≡ false → states.new ≡ states.old }
    ensures other { result ≡ true → states.new ≢ states.old }
{
    let time = case.parts.run.time(step);
    let switches = case.parts.switches.as_slice();
    let mut changed = false;
    for s in 0..switches.len() {
        let view = view_of(&switches[s], time, last.currents[s], before[s], last);
        let state = state_after(switches[s].kind, view, states[s]);
        if replace(states, s, state) {
            changed = true;
        }
    }
    changed
}
