//! The ends of a three-phase line, in ohm. The function does nothing: its clause is proved.

ghost use Rattle.std.specs.Prelude.{◌+ℤ◌, ℕ, ℤ, List, pos, slice_index_or};
ghost use Rattle.emtp_case.specs.declared.branch.Trio.{Trio};
ghost use Rattle.emtp_fix.specs.Rounding.{near};
ghost use Rattle.emtp_fix.specs.declared.limit.TheConstants.{ATTO};
ghost use Rattle.emtp_laws_of_units.specs.ThreePhases.{MeetsBoth};
ghost use Rattle.emtp_line.specs.Phases.{modes_of, phase_currents};

use emtp_case::Case;

/// An end of a transposed three-phase line meets both surge impedances, at whatever voltages and history currents: three phases
/// together have the current that the sum of their voltages drives through Zc0 + R0/4, and between two of them flows what the
/// difference of their voltages drives through Zc1 + R1/4, each beside the history currents. The first is so within 1 pS times
/// that sum and 1.5 nA, the second within 1 pS times that difference and 1 nA. R/4 is taken in whole micro-ohm, 1/(Zc + R/4) in
/// whole pS.
pub fn three_phases_meet_both_surge_impedances(case: &Case)
    ensures { (t : Trio) (v histories : List ℤ) → MeetsBoth
        (near ATTO (slice_index_or t.zc 0 (pos 0) +ℤ near (slice_index_or t.r 0 (pos 0)) (pos 4)))
        (near ATTO (slice_index_or t.zc 1 (pos 0) +ℤ near (slice_index_or t.r 1 (pos 0)) (pos 4)))
        v histories (phase_currents (modes_of case.now.parts.run.dt t) histories v) }
{}
