//! The warnings of series branches that act as others, since their conductance and impedances are whole numbers.

ghost use Rattle.std.specs.Prelude.{◌≡◌, IsTrue, OnOk};
ghost use Rattle.emtp_acting.specs.held.Fictitious.{IsFictitious};
ghost use Rattle.emtp_case.specs.held.Branch.{HasSeriesNumbers};
ghost use Rattle.emtp_case.specs.held.Range.{IsBetween};
ghost use Rattle.emtp_case.specs.held.RunData.{IsTimeStep};
ghost use Rattle.emtp_fix.specs.declared.limit.TheConstants.{LARGEST_INDUCTANCE, LARGEST_TIME};
ghost use Rattle.emtp_warnings.specs.ActingWarnings.{capacitance_warnings, drift_warnings, drifts_in, resistance_warnings, series_warnings};
ghost use Rattle.emtp_warnings.specs.AddsTo.{AddsTo};

use crate::finding::{Finding, Warning, add_found, line_row};
use emtp_acting::{Fictitious, acting_capacitance, clean_inductance, is_capacitance_off};
use emtp_case::Lumped;
use std::alloc::AllocError;

/// Adds what a series branch acts as over a run of this time, in ps, where that isn't what its card says.
pub(crate) fn add_series(
    out: &mut Vec<Warning>,
    dt: i64,
    time: i64,
    b: &Lumped,
) -> Result<(), AllocError>
    requires dt { IsTimeStep dt }
    requires time { IsBetween 0 LARGEST_TIME time }
    requires numbers { HasSeriesNumbers dt b.now.r b.now.l b.now.c }
    ensures { OnOk result (AddsTo out.old.items (series_warnings dt time b.now) out.new.items) }
{
    add_drift(out, dt, time, b)?;
    add_resistance(out, dt, b)?;
    add_capacitance(out, dt, b)?;
    Ok(())
}

/// Adds that a current drifts in a branch that nothing drives, where it does.
fn add_drift(out: &mut Vec<Warning>, dt: i64, time: i64, b: &Lumped) -> Result<(), AllocError>
    requires dt { IsTimeStep dt }
    requires time { IsBetween 0 LARGEST_TIME time }
    requires numbers { HasSeriesNumbers dt b.now.r b.now.l b.now.c }
    ensures { OnOk result (AddsTo out.old.items (drift_warnings dt time b.now) out.new.items) }
{
    let f = Fictitious::of(dt, b);
    if drifts_in(&f, time, b) {
        let told = Finding::Drifts {
            resistance: f.resistance(),
            drift: f.drift(time, b.l),
            clean: clean_inductance(dt, time, b),
        };
        add_found(out, &[line_row(b.line, true, told)])?;
    }
    Ok(())
}

/// Whether the fictitious resistance of a branch with an inductance matters over this time, and beside its resistance.
fn drifts_in(f: &Fictitious, time: i64, b: &Lumped) -> bool
    requires range { IsFictitious f.now }
    requires time { IsBetween 0 LARGEST_TIME time }
    requires numbers { (dt : _) × HasSeriesNumbers dt b.now.r b.now.l b.now.c }
    ensures value { result ≡ drifts_in f.now time b.now }
    ensures some { IsTrue result → IsBetween 1 LARGEST_INDUCTANCE b.now.l }
{
    0 < b.l && f.drifts(time, b.l) && f.matters(b.r)
}

/// Adds that the resistance of a branch acts as half of itself or less, or as half as much again or more, where it does.
fn add_resistance(out: &mut Vec<Warning>, dt: i64, b: &Lumped) -> Result<(), AllocError>
    requires dt { IsTimeStep dt }
    requires numbers { HasSeriesNumbers dt b.now.r b.now.l b.now.c }
    ensures { OnOk result (AddsTo out.old.items (resistance_warnings dt b.now) out.new.items) }
{
    let f = Fictitious::of(dt, b);
    let acting = Finding::OtherResistance(f.with_resistance(b.r));
    add_found(out, &[line_row(b.line, f.is_half(b.r), acting)])
}

/// Adds that the capacitance of a branch acts as another one, or as a wire, where it does.
fn add_capacitance(out: &mut Vec<Warning>, dt: i64, b: &Lumped) -> Result<(), AllocError>
    requires dt { IsTimeStep dt }
    requires numbers { HasSeriesNumbers dt b.now.r b.now.l b.now.c }
    ensures { OnOk result (AddsTo out.old.items (capacitance_warnings dt b.now) out.new.items) }
{
    let acting = acting_capacitance(dt, b);
    let off = is_capacitance_off(dt, b);
    let other = Finding::OtherCapacitance(acting);
    let rows = [
        line_row(b.line, off && acting != 0, other),
        line_row(b.line, off && acting == 0, Finding::ActsAsWire),
    ];
    add_found(out, &rows)
}
