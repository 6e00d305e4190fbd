//! The numbers of one end of a three-phase line in one step, whether or not they are in range.

ghost use Rattle.std.specs.Prelude.{◌≡◌, ◌^◌, ◌*◌, ◌≤◌, ℕ, ℤ, pos, ◌+ℤ◌, ◌-ℤ◌, ◌*ℤ◌, ◌≤ℤ◌, unsigned_abs};
ghost use Rattle.emtp_fix.specs.Rounding.{near};
ghost use Rattle.emtp_fix.specs.declared.limit.TheConstants.{LARGEST_ENTRY, PICO};
ghost use Rattle.emtp_line.specs.held.Held.{IsHeldTrio, held_modes};
ghost use Rattle.emtp_line.specs.held.Mode.{IsMode};
ghost use Rattle.emtp_line.specs.held.PhaseEnd.{AreWithin};
ghost use Rattle.emtp_line.specs.Phases.{Modes, own_conductance, mutual_conductance, mean, phase_currents, phase_waves, phase_end};
ghost use Rattle.emtp_line.specs.Wave.{wave_of};

use crate::held_trio::HeldTrio;
use crate::mode::Mode;
use crate::wave::wave;
use emtp_fix::{PICO, near};

/// The numbers of one end, in nA.
#[derive(Drop)]
pub(crate) struct PhaseEnd {
    /// The currents into the three phases.
    pub(crate) currents: [i128; 3],
    /// The waves of the positive sequence that leave the three phases.
    pub(crate) waves: [i128; 3],
    /// The wave of the zero sequence that leaves the end.
    pub(crate) zero_wave: i128,
}

/// An end at these history currents in nA and voltages in nV.
pub(crate) fn phase_end(trio: &HeldTrio, histories: &[i128; 3], v: &[i64; 3]) -> PhaseEnd
    requires trio { IsHeldTrio trio.now }
    requires histories { AreWithin (10 ^ 21) histories.now }
    ensures { result ≡ phase_end (held_modes trio.now) histories.now v.now }
{
    let currents = currents(trio.own, trio.coupling, histories, v);
    let waves = waves(&trio.first.waves.mode, v, &currents);
    let zero_wave = zero_wave(&trio.zero_sequence.mode, v, &currents);
    PhaseEnd {
        currents,
        waves,
        zero_wave,
    }
}

fn currents(own: i64, coupling: i64, histories: &[i128; 3], v: &[i64; 3]) -> [i128; 3]
    requires own { unsigned_abs own ≤ LARGEST_ENTRY }
    requires coupling { unsigned_abs coupling ≤ LARGEST_ENTRY }
    requires histories { AreWithin (10 ^ 21) histories.now }
    ensures value { (m : Modes) → own ≡ own_conductance m → coupling ≡ mutual_conductance m
        → result ≡ phase_currents m histories.now v.now }
    ensures within { AreWithin (10 ^ 25) result }
{
    let first = driven(own, coupling, v[0], v[1], v[2]) + histories[0];
    let second = driven(own, coupling, v[1], v[2], v[0]) + histories[1];
    let third = driven(own, coupling, v[2], v[0], v[1]) + histories[2];
    [first, second, third]
}

/// What a phase's conductances take of its voltage and of those of the other two, `next` and `last`.
fn driven(own: i64, coupling: i64, v: i64, next: i64, last: i64) -> i128
    requires own { unsigned_abs own ≤ LARGEST_ENTRY }
    requires coupling { unsigned_abs coupling ≤ LARGEST_ENTRY }
    ensures value { result ≡ near (own *ℤ v +ℤ coupling *ℤ next +ℤ coupling *ℤ last) PICO }
    ensures bound { unsigned_abs result ≤ 4 * 10 ^ 24 }
{
    quotient(
        product(own, v),
        product(coupling, next),
        product(coupling, last),
        PICO,
    )
}

fn product(g: i64, v: i64) -> i128
    requires { unsigned_abs g ≤ LARGEST_ENTRY }
    ensures value { result ≡ g *ℤ v }
    ensures bound { unsigned_abs result ≤ 10 ^ 36 }
{
    g as i128 * v as i128
}

fn mean_voltage(v: &[i64; 3]) -> i128
    ensures value { result ≡ mean v.now }
    ensures bound { unsigned_abs result ≤ 10 ^ 19 }
{
    quotient(v[0] as i128, v[1] as i128, v[2] as i128, 3)
}

fn mean_current(i: &[i128; 3]) -> i128
    requires { AreWithin (10 ^ 25) i.now }
    ensures value { result ≡ mean i.now }
    ensures bound { unsigned_abs result ≤ 10 ^ 25 }
{
    quotient(i[0], i[1], i[2], 3)
}

/// The sum of three numbers, divided.
fn quotient(a: i128, b: i128, c: i128, by: i128) -> i128
    requires a { unsigned_abs a ≤ 10 ^ 36 }
    requires b { unsigned_abs b ≤ 10 ^ 36 }
    requires c { unsigned_abs c ≤ 10 ^ 36 }
    requires least { pos 3 ≤ℤ by }
    requires most { by ≤ℤ PICO }
    ensures value { result ≡ near (a +ℤ b +ℤ c) by }
    ensures within { (n m : ℕ) → unsigned_abs a ≤ n → unsigned_abs b ≤ n → unsigned_abs c ≤ n
        → 3 * n ≤ m * unsigned_abs by → unsigned_abs result ≤ m }
{
    near(a + b + c, by)
}

fn zero_wave(mode: &Mode, v: &[i64; 3], i: &[i128; 3]) -> i128
    requires mode { IsMode mode.now }
    requires i { AreWithin (10 ^ 25) i.now }
    ensures { result ≡ wave_of mode.now (mean v.now) (mean i.now) }
{
    wave(mode, mean_voltage(v), mean_current(i))
}

/// The wave of what a phase is apart from the means.
fn wave_apart(mode: &Mode, v: i64, v_mean: i128, i: i128, i_mean: i128) -> i128
    requires mode { IsMode mode.now }
    requires v_mean { unsigned_abs v_mean ≤ 10 ^ 19 }
    requires i { unsigned_abs i ≤ 10 ^ 25 }
    requires i_mean { unsigned_abs i_mean ≤ 10 ^ 25 }
    ensures { result ≡ wave_of mode.now (v -ℤ v_mean) (i -ℤ i_mean) }
{
    wave(mode, v as i128 - v_mean, i - i_mean)
}

fn waves(mode: &Mode, v: &[i64; 3], i: &[i128; 3]) -> [i128; 3]
    requires mode { IsMode mode.now }
    requires i { AreWithin (10 ^ 25) i.now }
    ensures { (m : Modes) → mode.now ≡ m.positive → result ≡ phase_waves m v.now i.now }
{
    let v_mean = mean_voltage(v);
    let i_mean = mean_current(i);
    let first = wave_apart(mode, v[0], v_mean, i[0], i_mean);
    let second = wave_apart(mode, v[1], v_mean, i[1], i_mean);
    let third = wave_apart(mode, v[2], v_mean, i[2], i_mean);
    [first, second, third]
}
