//! One step of a series branch. A function an equation.

ghost use Rattle.std.specs.Prelude.{◌≡◌, ◌^◌, ◌*◌, ◌≤◌, ◌*ℤ◌, ◌≤ℤ◌, unsigned_abs, IfSome};
ghost use Rattle.emtp_fix.specs.Limit.{in_range};
ghost use Rattle.emtp_fix.specs.Rounding.{near};
ghost use Rattle.emtp_fix.specs.declared.limit.TheConstants.{LARGEST_VALUE, LARGEST_ENTRY, MICRO, PICO};
ghost use Rattle.emtp_lumped.specs.held.Companion.{IsCompanion};
ghost use Rattle.emtp_lumped.specs.Step.{history_current_of, current_of, inductor_voltage_of, capacitor_voltage_of, history_voltage_of, next_state};
ghost use Rattle.emtp_lumped.specs.held.Step.{IsInRange};

use crate::companion::Companion;
use emtp_case::LumpedState;
use emtp_fix::{PICO, in_range, micro_sum, scaled};

/// What the next record keeps of a branch at a voltage, where all of it is in range.
pub(crate) fn next(
    companion: &Companion,
    old: &LumpedState,
    history: i128,
    v: i128,
) -> Option<LumpedState>
    requires companion { IsCompanion companion.now }
    requires old { IsInRange old.now }
    requires history { history ≡ history_current_of companion.now old.now }
    requires v { unsigned_abs v ≤ 2 ^ 64 }
    ensures value { result ≡ next_state companion.now old.now v }
    ensures range { IfSome result IsInRange }
{
    let current = in_range(current(companion, old, history, v))?;
    let v_l = inductor_voltage(companion, old, current)?;
    let v_c = capacitor_voltage(companion, old, current)?;
    let history_voltage = history_voltage(companion, current, v_l, v_c)?;
    Some(LumpedState {
        current,
        v_l,
        v_c,
        history_voltage,
    })
}

/// The history current of the next step.
pub(crate) fn history_current(companion: &Companion, old: &LumpedState) -> i128
    requires companion { IsCompanion companion.now }
    requires old { IsInRange old.now }
    ensures { result ≡ history_current_of companion.now old.now }
{
    product(companion.conductance, old.history_voltage as i128, PICO)
}

fn current(companion: &Companion, old: &LumpedState, history: i128, v: i128) -> i128
    requires companion { IsCompanion companion.now }
    requires old { IsInRange old.now }
    requires history { history ≡ history_current_of companion.now old.now }
    requires v { unsigned_abs v ≤ 2 ^ 64 }
    ensures { result ≡ current_of companion.now old.now v }
{
    product(companion.conductance, v, PICO) + history
}

fn inductor_voltage(companion: &Companion, old: &LumpedState, i: i64) -> Option<i64>
    requires companion { IsCompanion companion.now }
    requires old { IsInRange old.now }
    requires i { unsigned_abs i ≤ LARGEST_VALUE }
    ensures value { result ≡ in_range (inductor_voltage_of companion.now old.now i) }
    ensures bound { IfSome result (λ y. unsigned_abs y ≤ LARGEST_VALUE) }
{
    micro_sum(companion.inductor, i - old.current, -old.v_l)
}

fn capacitor_voltage(companion: &Companion, old: &LumpedState, i: i64) -> Option<i64>
    requires companion { IsCompanion companion.now }
    requires old { IsInRange old.now }
    requires i { unsigned_abs i ≤ LARGEST_VALUE }
    ensures value { result ≡ in_range (capacitor_voltage_of companion.now old.now i) }
    ensures bound { IfSome result (λ y. unsigned_abs y ≤ LARGEST_VALUE) }
{
    micro_sum(companion.capacitor, i + old.current, old.v_c)
}

fn history_voltage(companion: &Companion, i: i64, v_l: i64, v_c: i64) -> Option<i64>
    requires companion { IsCompanion companion.now }
    requires i { unsigned_abs i ≤ LARGEST_VALUE }
    requires v_l { unsigned_abs v_l ≤ LARGEST_VALUE }
    requires v_c { unsigned_abs v_c ≤ LARGEST_VALUE }
    ensures value { result ≡ in_range (history_voltage_of companion.now i v_l v_c) }
    ensures bound { IfSome result (λ y. unsigned_abs y ≤ LARGEST_VALUE) }
{
    micro_sum(companion.inductor - companion.capacitor, i, v_l - v_c)
}

/// `a * b / unit`, rounded.
fn product(a: i64, b: i128, unit: i128) -> i128
    requires a { unsigned_abs a ≤ LARGEST_ENTRY }
    requires b { unsigned_abs b ≤ 2 ^ 64 }
    requires least { MICRO ≤ℤ unit }
    requires most { unit ≤ℤ PICO }
    ensures value { result ≡ near (a *ℤ b) unit }
    ensures bound { unsigned_abs result ≤ 2 * 10 ^ 30 }
{
    scaled(a as i128, b, unit)
}
