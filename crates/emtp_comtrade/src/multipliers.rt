//! The multipliers of the analog channels of a record.
ghost use Rattle.std.specs.Prelude.{◌≡◌, ℕ, ℤ, ◌<ℤ◌, List, false, ◌+◌, ◌^◌, ◌<◌, ◌≤◌, length, pos, slice_index_or};
ghost use Rattle.emtp_comtrade.specs.Record.{is_status_at, analog_before, multiplier_at};
ghost use Rattle.emtp_comtrade.specs.Multiplier.{multiplier_of};
ghost use Rattle.emtp_comtrade.specs.held.Record.{AreMultipliers, AreGreatest};
ghost use Rattle.emtp_machine.specs.Samples.{value_at};
ghost use Rattle.emtp_comtrade.specs.held.Multiplier.{IsMultiplier, IsHeld};

use crate::multiplier::least_multiplier;
use emtp_case::Case;
use emtp_machine::Samples;

/// The multipliers of the analog channels, in the order of the channels, in 1e-9 V, A or unit: the least of 1, 2
/// and 5 times a power of ten by which each value of the channel is held in 16 bits. The entries after the last
/// analog one are 1. A raw value is at most 32,767 in magnitude, and at most half a multiplier off.
pub fn scales(case: &Case, samples: &Samples) -> [i64; 64]
    requires { samples.now.channels ≡ length case.now.parts.channels }
    ensures multipliers { AreMultipliers case.now.parts samples.now.rows result }
    ensures held { (sample place : ℕ) → sample < length samples.now.rows → place < length case.now.parts.channels
        → is_status_at case.now.parts place ≡ false
        → IsHeld (value_at samples.now.rows sample place) (multiplier_at samples.now.rows place) }
{
    let magnitudes = greatest_magnitudes(samples);
    let mut multipliers = [1; 64];
    let mut analog = 0;
    for place in 0..case.parts.channels.len() {
        if is_status_at(case, place) {
            continue;
        }
        multipliers[analog] = channel_multiplier(&magnitudes, place);
        analog += 1;
    }
    multipliers
}

/// The multiplier of the channel at a place.
fn channel_multiplier(magnitudes: &[u64; 64], place: usize) -> i64
    requires place { place < 64 }
    requires small { slice_index_or magnitudes.now place 0 ≤ 2 ^ 63 }
    ensures value { result ≡ pos (multiplier_of (slice_index_or magnitudes.now place 0)) }
    ensures least { IsMultiplier (slice_index_or magnitudes.now place 0)
        (multiplier_of (slice_index_or magnitudes.now place 0)) }
{
    least_multiplier(magnitudes[place]) as i64
}

/// The greatest magnitudes of the channels in all samples, in one pass: a pass a channel would load each sample anew.
fn greatest_magnitudes(samples: &Samples) -> [u64; 64]
    requires { samples.now.channels ≤ 64 }
    ensures { AreGreatest samples.now.rows samples.now.channels (length samples.now.rows) 0 result }
{
    let mut magnitudes = [0; 64];
    for sample in 0..samples.count() {
        raise_magnitudes(&mut magnitudes, samples, sample);
    }
    magnitudes
}

/// Raises the greatest magnitudes of the samples before one to those with that sample.
fn raise_magnitudes(magnitudes: &mut [u64; 64], samples: &Samples, sample: u32)
    requires channels { samples.now.channels ≤ 64 }
    requires sample { sample < length samples.now.rows }
    requires magnitudes { AreGreatest samples.now.rows samples.now.channels sample 0 magnitudes.old }
    ensures { AreGreatest samples.now.rows samples.now.channels (sample + 1) 0 magnitudes.new }
{
    for place in 0..samples.channels() {
        let magnitude = samples.value(sample, place).unsigned_abs();
        magnitudes[place] = magnitudes[place].max(magnitude);
    }
}

/// The multiplier of the analog channel at a place, before which so many analog channels stand.
pub fn multiplier_at(case: &Case, multipliers: &[i64; 64], place: usize, analog: usize) -> i64
    requires place { place < length case.now.parts.channels }
    requires kind { is_status_at case.now.parts place ≡ false }
    requires analog { analog ≡ analog_before case.now.parts place }
    ensures few { analog < 64 }

    // Whatever the samples are that these are the multipliers of.
    ensures value { (samples : List (List ℤ)) → AreMultipliers case.now.parts samples multipliers.now
        → result ≡ pos (multiplier_at samples place) }
    ensures positive { (samples : List (List ℤ)) → AreMultipliers case.now.parts samples multipliers.now
        → pos 0 <ℤ result }
{
    multipliers[analog]
}

/// Whether a status channel stands at a place.
pub fn is_status_at(case: &Case, place: usize) -> bool
    requires { place < length case.now.parts.channels }
    ensures { result ≡ is_status_at case.now.parts place }
{
    case.parts.channels.as_slice()[place].is_status()
}
