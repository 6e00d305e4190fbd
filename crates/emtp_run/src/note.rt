//! The texts of the notes.
ghost use Rattle.std.specs.Prelude.{◌≡◌, ◌+◌, ◌≤◌, ◌++◌, length};
ghost use Rattle.emtp_audit.specs.Note.{differs_note};
ghost use Rattle.emtp_machine.specs.End.{measured_text};
ghost use Rattle.emtp_run.specs.Note.{usage_note, card_note, counts_text, done_text, ended_note, note_by, reason_name, row_note};

use crate::text::{Text, push, push_number};
use emtp_audit::Differs;
use emtp_card::{Bad, Why};
use emtp_machine::{Cause, End};

/// The note of words that don't fit.
#[tactic(auto, unfolding(crate::specs::Note::usage_note))]
pub fn usage() -> Text
    ensures { result.items ≡ usage_note }
{
    let mut note = Text::new();
    push(&mut note, b"USAGE\n");
    note
}

/// The note of a refused card.
#[tactic(auto, unfolding(crate::specs::Note::card_note))]
pub fn bad_card(bad: &Bad) -> Text
    ensures { result.items ≡ card_note bad.now }
{
    let mut note = Text::new();
    push(&mut note, b"BAD CARD LINE ");
    push_number(&mut note, bad.line);
    push(&mut note, b" COLUMN ");
    push_number(&mut note, bad.column);
    push(&mut note, b" REASON ");
    push_number(&mut note, bad.why.number());
    push(&mut note, b" ");
    push(&mut note, reason_name(&bad.why));
    push(&mut note, b"\n");
    note
}

/// The note of a refused row.
#[tactic(auto, unfolding(crate::specs::Note::row_note))]
pub fn bad_row(line: u32, item: u32) -> Text
    ensures { result.items ≡ row_note line item }
{
    let mut note = Text::new();
    push(&mut note, b"BAD ROW LINE ");
    push_number(&mut note, line);
    push(&mut note, b" ITEM ");
    push_number(&mut note, item);
    push(&mut note, b"\n");
    note
}

/// The note of a record that differs.
#[tactic(auto, unfolding(emtp_audit::specs::Note::differs_note))]
pub fn differs(differs: &Differs) -> Text
    ensures { result.items ≡ differs_note differs.now }
{
    let mut note = Text::new();
    push(&mut note, b"DIFFERS ");
    push(&mut note, differs.file());
    push(&mut note, b" LINE ");
    push_number(&mut note, differs.line);
    push(&mut note, b" FIELD ");
    push_number(&mut note, differs.field);
    push(&mut note, b" ");
    push(&mut note, differs.cause.word());
    push(&mut note, b"\n");
    note
}

/// The note of a run of so many steps and samples, with the end of the step after them, if it came.
pub fn of_run(end: &Option<End>, steps: u32, samples: u32, redone: u64) -> Text
    ensures { result.items ≡ note_by end.now steps samples redone }
{
    let mut note = Text::new();
    match end {
        Some(end) => push_ended(&mut note, end, samples, redone),
        None => {
            push(&mut note, b"DONE");
            push_done(&mut note, steps, samples, redone);
            push(&mut note, b"\n");
        }
    }
    note
}

/// Puts the steps, samples and redone rows of a run after a note.
#[tactic(auto, unfolding(crate::specs::Note::done_text))]
pub fn push_done(note: &mut Text, steps: u32, samples: u32, redone: u64)
    requires { length note.old.items ≤ 50 }
    ensures text { note.new.items ≡ note.old.items ++ done_text steps samples redone }
    ensures length { length note.new.items ≤ length note.old.items + 160 }
{
    push(note, b" STEPS ");
    push_number(note, steps);
    push_counts(note, samples, redone);
}

/// Puts the line of an early end after a note.
#[tactic(auto, unfolding(crate::specs::Note::ended_note))]
pub fn push_ended(note: &mut Text, end: &End, samples: u32, redone: u64)
    requires { length note.old.items ≤ 50 }
    ensures { note.new.items ≡ note.old.items ++ ended_note end.now samples redone }
{
    push(note, b"ENDED STEP ");
    push_number(note, end.step);
    push(note, b" ");
    push(note, end.cause.word());
    push(note, b" ");
    push(note, end.name.as_slice());
    push_measured(note, end);
    push_counts(note, samples, redone);
    push(note, b"\n");
}

/// Puts the residual that was measured after a note, where that is the cause.
fn push_measured(note: &mut Text, end: &End)
    requires { length note.old.items ≤ 200 }
    ensures text { note.new.items ≡ note.old.items ++ measured_text end.now.cause end.now.measured }
    ensures length { length note.new.items ≤ length note.old.items + 41 }
{
    if end.cause == Cause::Residual {
        push(note, b" ");
        push_number(note, end.measured);
    }
}

fn push_counts(note: &mut Text, samples: u32, redone: u64)
    requires { length note.old.items ≤ 300 }
    ensures text { note.new.items ≡ note.old.items ++ counts_text samples redone }
    ensures length { length note.new.items ≤ length note.old.items + 97 }
{
    push(note, b" SAMPLES ");
    push_number(note, samples);
    push(note, b" REDONE ");
    push_number(note, redone);
}

fn reason_name(why: &Why) -> &'static [u8]
    ensures word { result.now ≡ reason_name why.now }
    ensures short { length result.now ≤ 14 }
{
    match why {
        Why::ByteOutside => b"ByteOutside",
        Why::PastColumn80 => b"PastColumn80",
        Why::NotANumber => b"NotANumber",
        Why::NotWhole => b"NotWhole",
        Why::OutOfUnitRange => b"OutOfUnitRange",
        Why::TooManyLines => b"TooManyLines",
        Why::BadType => b"BadType",
        Why::BadName => b"BadName",
        Why::BadImpedance => b"BadImpedance",
        Why::ShortLine => b"ShortLine",
        Why::BadPoints => b"BadPoints",
        Why::BadOrder => b"BadOrder",
        Why::UnknownName => b"UnknownName",
        Why::TwoSources => b"TwoSources",
        Why::TooMany => b"TooMany",
        Why::MissingSection => b"MissingSection",
        Why::TooManySamples => b"TooManySamples",
        Why::BadExpression => b"BadExpression",
    }
}
