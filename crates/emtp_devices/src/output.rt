//! The parts of the equations.

ghost use Rattle.emtp_case.specs.held.RunData.{IsTimeStep};
ghost use Rattle.std.specs.Prelude.{◌≡◌, ◌*◌, ◌+◌, ◌≤◌, ◌==◌, ◌||◌, ◌∷◌, ◌+ℤ◌, List, if◌then◌else◌, pos, unsigned_abs, ℕ, ℤ};
ghost use Rattle.emtp_devices.specs.Device.{derivative, extreme_of_two, gated, integral, last_input, one_above_zero, taken_input};
ghost use Rattle.emtp_devices.specs.held.Held.{IsHeld};
ghost use Rattle.emtp_fix.specs.declared.limit.TheConstants.{LARGEST_VALUE};
ghost use Rattle.emtp_hist.specs.History.{value_before};
ghost use Rattle.emtp_hist.specs.held.History.{Remembers};

use crate::held::HeldDevice;
use emtp_fix::{NANO, PICO, scaled};

/// 51, 52: the input where the gate is open; where `b` isn't 0, where it is closed.
pub(crate) fn gated(is_open: bool, b: i64, s: i64) -> i64
    ensures { result ≡ gated is_open b s }
{
    if is_open == (b == 0) { s } else { 0 }
}

/// 53, 54: the input of the steps of the delay before.
pub(crate) fn delayed(held: &HeldDevice, s: i64) -> i64
    requires { IsHeld held.now }
    ensures { (inputs : List ℤ) (k : ℕ) → held.now.depth ≡ k + 1 → Remembers held.now.inputs inputs
        → result ≡ value_before (s ∷ inputs) k }
{
    if held.depth == 1 {
        s
    } else {
        held.inputs.back(held.depth - 2)
    }
}

/// 54: 1 where a number is above 0.
pub(crate) fn one_above_zero(z: i64) -> i64
    ensures { result ≡ one_above_zero z }
{
    if z > 0 { NANO as i64 } else { 0 }
}

/// The input of the last step.
pub(crate) fn last_input(held: &HeldDevice) -> i64
    requires { IsHeld held.now }
    ensures value { (inputs : List ℤ) → Remembers held.now.inputs inputs → result ≡ last_input inputs }
    ensures small { unsigned_abs result ≤ LARGEST_VALUE }
{
    held.inputs.back(0)
}

/// 58: the integral, by the trapezoidal rule, where it is neither reset nor held.
pub(crate) fn integrated(reset: bool, active: bool, held: &HeldDevice, dt: i64, s: i64) -> i128
    requires dt { IsTimeStep dt }
    requires held { IsHeld held.now }
    requires s { unsigned_abs s ≤ LARGEST_VALUE }
    ensures { (inputs : List ℤ) → Remembers held.now.inputs inputs
        → result
        ≡ (if reset then pos 0 else if active then integral dt s (last_input inputs) held.now.output else held.now.output) }
{
    if reset {
        0
    } else if active {
        integral(dt, s, last_input(held), held.output)
    } else {
        held.output as i128
    }
}

fn integral(dt: i64, s: i64, before: i64, y: i64) -> i128
    requires dt { IsTimeStep dt }
    requires s { unsigned_abs s ≤ LARGEST_VALUE }
    requires before { unsigned_abs before ≤ LARGEST_VALUE }
    requires y { unsigned_abs y ≤ LARGEST_VALUE }
    ensures { result ≡ integral dt s before y }
{
    y as i128 + scaled(dt as i128, s as i128 + before as i128, 2 * PICO)
}

/// 59: the change of the input a second.
pub(crate) fn derivative(dt: i64, s: i64, before: i64) -> i128
    requires dt { IsTimeStep dt }
    requires s { unsigned_abs s ≤ LARGEST_VALUE }
    requires before { unsigned_abs before ≤ LARGEST_VALUE }
    ensures { result ≡ derivative dt s before }
{
    scaled(s as i128 - before as i128, PICO, dt as i128)
}

/// 60: the place of the input that a difference takes.
pub(crate) fn taken_input(z: i64) -> usize
    ensures { result ≡ taken_input z }
{
    if z < 0 {
        0
    } else if z == 0 {
        1
    } else {
        2
    }
}

/// One of two numbers.
pub(crate) fn chosen(first: bool, x: i64, y: i64) -> i128
    ensures { result ≡ (if first then x else y) }
{
    if first { x as i128 } else { y as i128 }
}

/// 63, 64: the greater of two numbers where `a` is at least 0, else the lesser.
pub(crate) fn extreme_of_two(a: i64, x: i64, y: i64) -> i64
    ensures { result ≡ extreme_of_two a x y }
{
    if a >= 0 { x.max(y) } else { x.min(y) }
}

/// 64: the input where the peak starts anew, else the extreme of the last output and the input.
pub(crate) fn peak(reset: bool, step: u32, a: i64, y: i64, s: i64) -> i128
    ensures { result ≡ (if reset || step == 1 then s else extreme_of_two a y s) }
{
    if reset || step == 1 {
        s as i128
    } else {
        extreme_of_two(a, y, s) as i128
    }
}

/// 65: the sum of the inputs so far, where it isn't reset.
pub(crate) fn counted(reset: bool, y: i64, s: i64) -> i128
    ensures { result ≡ (if reset then pos 0 else y +ℤ s) }
{
    if reset { 0 } else { y as i128 + s as i128 }
}
