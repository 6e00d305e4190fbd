//! The summaries of a trial and of an audit.
ghost use Rattle.std.specs.Prelude.{◌≡◌, ◌+◌, ◌≤◌, ◌++◌, length};
ghost use Rattle.emtp_audit.specs.Note.{same_text};
ghost use Rattle.emtp_run.specs.Summary.{peak_of, sums_text, trial_head, trial_summary};

use crate::note::{push_done, push_ended};
use crate::outputs::Results;
use crate::text::{Text, push, push_number};
use emtp_machine::Samples;

/// The summary of the trial of a number.
#[tactic(auto, unfolding(crate::specs::Summary::trial_summary))]
pub fn of_trial(number: u32, results: Results<'_>) -> Text
    ensures { result.items ≡ trial_summary number results.entry.end.now results.entry.steps results.entry.redone
        results.entry.samples.now.rows results.entry.samples.now.channels }
{
    let samples = results.samples;
    let mut text = Text::new();
    push_head(&mut text, number);
    match results.end {
        Some(end) => {
            push(&mut text, b" ");
            push_ended(&mut text, end, samples.count(), results.redone);
        }
        None => {
            push_done(&mut text, results.steps, samples.count(), results.redone);
            push_sums(&mut text, samples);
        }
    }
    text
}

/// The summary of an audit that found no difference, of so many samples.
#[tactic(auto, unfolding(emtp_audit::specs::Note::same_text))]
pub fn of_audit(samples: u32) -> Text
    ensures { result.items ≡ same_text samples }
{
    let mut text = Text::new();
    push(&mut text, b"AUDIT SAME SAMPLES ");
    push_number(&mut text, samples);
    push(&mut text, b"\n");
    text
}

#[tactic(auto, unfolding(crate::specs::Summary::trial_head))]
fn push_head(text: &mut Text, number: u32)
    requires { length text.old.items ≤ 0 }
    ensures text { text.new.items ≡ text.old.items ++ trial_head number }
    ensures length { length text.new.items ≤ 46 }
{
    push(text, b"TRIAL ");
    push_number(text, number);
}

/// Puts the greatest magnitude of the first channel and the sum of all values after the text.
#[tactic(auto, unfolding(crate::specs::Summary::sums_text))]
fn push_sums(text: &mut Text, samples: &Samples)
    requires { length text.old.items ≤ 250 }
    ensures { text.new.items ≡ text.old.items ++ sums_text samples.now.rows samples.now.channels }
{
    push(text, b" PEAK ");
    push_number(text, peak(samples));
    push(text, b" SUM ");
    push_number(text, samples.total());
    push(text, b"\n");
}

/// The greatest magnitude of the first channel, or 0 where there is none.
fn peak(samples: &Samples) -> u64
    ensures { result ≡ peak_of samples.now.rows samples.now.channels }
{
    if samples.channels() == 0 {
        0
    } else {
        samples.greatest(0)
    }
}
