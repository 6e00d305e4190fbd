//! The warnings of arresters that a wave comes to from a line, where no capacitance makes a front of it.

ghost use Rattle.std.specs.List.{list_any};
ghost use Rattle.std.specs.Prelude.{◌≡◌, ◌*ℤ◌};
ghost use Rattle.emtp_fix.specs.declared.limit.TheConstants.{NANO};
ghost use Rattle.emtp_warnings.specs.declared.arresters.TheConstants.{STEPS_OF_A_FRONT};
ghost use Rattle.emtp_warnings.specs.ArresterWarnings.{holds_wave, is_bare, is_bare_at, is_bare_end, is_bare_resistor, is_capacitance_at, is_slow, is_without, stands_at, surge_impedance_of};

use emtp_case::{Branch, Lumped, Parts, Pseudo};
use emtp_fix::NANO;

/// How many steps the capacitance at an arrester has to hold a wave. With fewer its characteristic, of which a step has one
/// segment, is behind the wave; with ten a peak is right to some 1 of 200.
pub(crate) const STEPS_OF_A_FRONT: i128 = 10;

/// Whether a branch is a nonlinear resistor at the end of a line where no capacitance holds a wave for so long.
pub(crate) fn is_bare(parts: &Parts, branch: &Branch) -> bool
    ensures { result ≡ is_bare parts.now branch.now }
{
    match branch {
        Branch::Pseudo(x) => is_bare_resistor(parts, x),
        _ => false,
    }
}

fn is_bare_resistor(parts: &Parts, x: &Pseudo) -> bool
    ensures { result ≡ is_bare_resistor parts.now x.now }
{
    !x.reactor && (is_bare_at(parts, x.from) || is_bare_at(parts, x.to))
}

/// Whether a line ends at a node that isn't ground, and no capacitance there holds its waves.
fn is_bare_at(parts: &Parts, node: u32) -> bool
    ensures { result ≡ is_bare_at parts.now node }
{
    node != 0 && has_bare_end(parts, node, parts.branches.as_slice())
}

fn has_bare_end(parts: &Parts, node: u32, branches: &[Branch]) -> bool
    ensures { result ≡ list_any (is_bare_end parts.now node) branches.now }
{
    branches.iter().any(|b| is_bare_end(parts, node, b))
}

fn is_bare_end(parts: &Parts, node: u32, b: &Branch) -> bool
    ensures { result ≡ is_bare_end parts.now node b.now }
{
    stands_at(node, b) && is_without(parts, node, surge_impedance_of(parts, b))
}

fn stands_at(node: u32, b: &Branch) -> bool
    ensures { result ≡ stands_at node b.now }
{
    let (from, to) = b.ends();
    from == node || to == node
}

/// The surge impedance of a line, in micro-ohm; that of the positive sequence of a phase, the lesser one.
fn surge_impedance_of(parts: &Parts, b: &Branch) -> Option<i64>
    ensures { result ≡ surge_impedance_of parts.now b.now }
{
    match b {
        Branch::Line(line) => Some(line.zc),
        Branch::Phase(phase) => {
            let trio = parts.trios.as_slice().get(phase.trio as usize)?;
            trio.zc.get(1).copied()
        }
        _ => None,
    }
}

/// Whether no capacitance at a node holds the waves of a line of this surge impedance.
fn is_without(parts: &Parts, node: u32, surge: Option<i64>) -> bool
    ensures { result ≡ is_without parts.now node surge }
{
    match surge {
        None => false,
        Some(zc) => !holds_waves(parts.run.dt, node, zc, parts.branches.as_slice()),
    }
}

fn holds_waves(dt: i64, node: u32, zc: i64, branches: &[Branch]) -> bool
    ensures { result ≡ list_any (holds_wave dt node zc) branches.now }
{
    branches.iter().any(|b| holds_wave(dt, node, zc, b))
}

/// Whether a branch is a capacitance at a node that holds the waves of a line of this surge impedance.
fn holds_wave(dt: i64, node: u32, zc: i64, b: &Branch) -> bool
    ensures { result ≡ holds_wave dt node zc b.now }
{
    match b {
        Branch::Lumped(b) => is_capacitance_at(node, b) && is_slow(dt, zc, b.c),
        _ => false,
    }
}

/// Whether a series branch is a capacitance alone from a node to ground.
fn is_capacitance_at(node: u32, b: &Lumped) -> bool
    ensures { result ≡ is_capacitance_at node b.now }
{
    let along = b.from == node && b.to == 0;
    let against = b.to == node && b.from == 0;
    b.r == 0 && b.l == 0 && (along || against)
}

/// Whether an impedance in micro-ohm and a capacitance in fF have a time constant of ten steps at least.
fn is_slow(dt: i64, zc: i64, c: i64) -> bool
    ensures { result ≡ is_slow dt zc c }
{
    front(dt) <= time_constant(zc, c)
}

/// The time of ten steps, in 10^-9 ps.
fn front(dt: i64) -> i128
    ensures { result ≡ STEPS_OF_A_FRONT *ℤ NANO *ℤ dt }
{
    STEPS_OF_A_FRONT * NANO * i128::from(dt)
}

/// The product of an impedance in micro-ohm and a capacitance in fF, in 10^-9 ps.
fn time_constant(zc: i64, c: i64) -> i128
    ensures { result ≡ zc *ℤ c }
{
    i128::from(zc) * i128::from(c)
}
