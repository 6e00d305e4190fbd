//! What a record keeps of the three phases of a line, or the first phase that is out of range.

ghost use Rattle.std.specs.Prelude.{◌≡◌, ◌<◌, IfSome, IfErr, IfOk};
ghost use Rattle.emtp_line.specs.held.PhaseEnd.{AreSmall, IsSmall};
ghost use Rattle.emtp_line.specs.Phases.{phase_state, zero_wave_at};
ghost use Rattle.emtp_line.specs.held.Phases.{three_of, three_states};

use crate::phase_end::PhaseEnd;
use emtp_case::PhaseState;
use emtp_fix::in_range;

/// The first phase of a three-phase line with a number out of range.
#[derive(Clone, Copy, Debug, PartialEq, Eq)]
pub struct PhaseRange {
    /// Its number: 0, 1 or 2.
    pub phase: usize,
}

/// The three phases, from the numbers of both ends.
pub(crate) fn three_states(from: &PhaseEnd, to: &PhaseEnd) -> Result<[PhaseState; 3], PhaseRange>
    ensures value { result ≡ three_states from.now to.now }
    ensures small { IfOk result AreSmall }
    ensures phase { IfErr result (λ fault. fault.phase < 3) }
{
    three_of(
        phase_state(from, to, 0),
        phase_state(from, to, 1),
        phase_state(from, to, 2),
    )
}

fn three_of(
    first: Option<PhaseState>,
    second: Option<PhaseState>,
    third: Option<PhaseState>,
) -> Result<[PhaseState; 3], PhaseRange>
    requires first { IfSome first IsSmall }
    requires second { IfSome second IsSmall }
    requires third { IfSome third IsSmall }
    ensures value { result ≡ three_of first second third }
    ensures small { IfOk result AreSmall }
    ensures phase { IfErr result (λ fault. fault.phase < 3) }
{
    let Some(first) = first else {
        return Err(PhaseRange { phase: 0 });
    };
    let Some(second) = second else {
        return Err(PhaseRange { phase: 1 });
    };
    let Some(third) = third else {
        return Err(PhaseRange { phase: 2 });
    };
    Ok([first, second, third])
}

/// What is kept of a phase, where all of it is in range.
fn phase_state(from: &PhaseEnd, to: &PhaseEnd, phase: usize) -> Option<PhaseState>
    requires { phase < 3 }
    ensures value { result ≡ phase_state from.now to.now phase }
    ensures small { IfSome result IsSmall }
{
    let from_current = in_range(from.currents[phase])?;
    let to_current = in_range(to.currents[phase])?;
    let from_wave = in_range(from.waves[phase])?;
    let to_wave = in_range(to.waves[phase])?;
    let from_zero_wave = in_range(zero_wave_at(phase, from.zero_wave))?;
    let to_zero_wave = in_range(zero_wave_at(phase, to.zero_wave))?;
    Some(PhaseState {
        from_current,
        to_current,
        from_wave,
        to_wave,
        from_zero_wave,
        to_zero_wave,
    })
}

/// Phase 0 keeps the waves of the zero sequence.
fn zero_wave_at(phase: usize, wave: i128) -> i128
    ensures { result ≡ zero_wave_at phase wave }
{
    if phase == 0 { wave } else { 0 }
}
