//! The note of a run, as a text in memory.
ghost use Rattle.std.specs.Prelude.{◌≡◌, ◌++◌, OnOk};
ghost use Rattle.emtp_run.specs.Note.{counts_text, done_note, ended_note, note_by};

use emtp_machine::{End, put_cause};
use emtp_text::{put, put_number};
use std::alloc::AllocError;

/// Puts the note of a run of so many steps and samples after a text, with the end of the step after them, if it came.
pub(crate) fn put_note(
    text: &mut Vec<u8>,
    end: &Option<End>,
    steps: u32,
    samples: u32,
    redone: u64,
) -> Result<(), AllocError>
    ensures { OnOk result (text.new.items ≡ text.old.items ++ note_by end.now steps samples redone) }
{
    match end {
        Some(end) => put_ended(text, end, samples, redone),
        None => put_done(text, steps, samples, redone),
    }
}

#[tactic(auto, unfolding(emtp_run::specs::Note::done_text))]
fn put_done(text: &mut Vec<u8>, steps: u32, samples: u32, redone: u64) -> Result<(), AllocError>
    ensures { OnOk result (text.new.items ≡ text.old.items ++ done_note steps samples redone) }
{
    put(text, b"DONE")?;
    put(text, b" STEPS ")?;
    put_number(text, steps)?;
    put_counts(text, samples, redone)?;
    put(text, b"\n")
}

fn put_ended(text: &mut Vec<u8>, end: &End, samples: u32, redone: u64) -> Result<(), AllocError>
    ensures { OnOk result (text.new.items ≡ text.old.items ++ ended_note end.now samples redone) }
{
    put(text, b"ENDED STEP ")?;
    put_number(text, end.step)?;
    put(text, b" ")?;
    put_cause(text, end.cause, &end.name, end.measured)?;
    put_counts(text, samples, redone)?;
    put(text, b"\n")
}

fn put_counts(text: &mut Vec<u8>, samples: u32, redone: u64) -> Result<(), AllocError>
    ensures { OnOk result (text.new.items ≡ text.old.items ++ counts_text samples redone) }
{
    put(text, b" SAMPLES ")?;
    put_number(text, samples)?;
    put(text, b" REDONE ")?;
    put_number(text, redone)
}
