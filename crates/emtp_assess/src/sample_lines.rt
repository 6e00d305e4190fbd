//! Samples with all their digits: a line each.
ghost use Rattle.std.specs.Prelude.{◌≡◌, ◌<◌, ◌++◌, length, OnOk};
ghost use Rattle.emtp_assess.specs.SampleLines.{sample_line, sample_lines, value_text};

use emtp_machine::Samples;
use emtp_text::{put, put_number};
use std::alloc::AllocError;

/// Puts a line a sample after a text: the whole numbers of its channels in the order of the record, parted by a blank, in nV, nA
/// or 10^-9 of a unit, and 0 or 1 of a state.
pub(crate) fn put_samples(text: &mut Vec<u8>, samples: &Samples) -> Result<(), AllocError>
    ensures { OnOk result (text.new.items ≡ text.old.items ++ sample_lines samples.now.rows samples.now.channels) }
{
    for sample in 0..samples.count() {
        put_sample(text, samples, sample)?;
    }
    Ok(())
}

/// Puts the line of a sample after a text.
fn put_sample(text: &mut Vec<u8>, samples: &Samples, sample: u32) -> Result<(), AllocError>
    requires { sample < length samples.now.rows }
    ensures { OnOk result (text.new.items ≡ text.old.items ++ sample_line samples.now.rows samples.now.channels sample) }
{
    for channel in 0..samples.channels() {
        put_value(text, channel, samples.value(sample, channel))?;
    }
    put(text, b"\n")
}

/// Puts the value of a channel, whose place counts from 0, after a text.
#[tactic(auto, unfolding(crate::specs::SampleLines::value_text))]
fn put_value(text: &mut Vec<u8>, channel: usize, value: i64) -> Result<(), AllocError>
    ensures { OnOk result (text.new.items ≡ text.old.items ++ value_text channel value) }
{
    if channel == 0 {
        return put_number(text, value);
    }
    put(text, b" ")?;
    put_number(text, value)
}
