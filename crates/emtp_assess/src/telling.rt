//! The text that the bytes of a file give.
ghost use Rattle.std.specs.Prelude.{◌≡◌, ◌++◌, IfOk, length};
ghost use Rattle.emtp_assess.specs.SampleLines.{sample_lines};
ghost use Rattle.emtp_assess.specs.Telling.{judged_by, judged_of, samples_text, text_for};
ghost use Rattle.emtp_deck.specs.Deck.{deck_of};
ghost use Rattle.emtp_machine.specs.History.{history};
ghost use Rattle.emtp_run.specs.Note.{card_note, note_by};

use crate::branch_warnings::branch_warnings;
use crate::run_note::put_note;
use crate::sample_lines::put_samples;
use crate::words::Question;
use crate::worth::worth_text;
use emtp_card::{Bad, Cards, Refused};
use emtp_case::{Case, Items};
use emtp_deck::read;
use emtp_inspect::Told;
use emtp_machine::{End, Machine, Samples};
use emtp_run::bad_card;
use emtp_text::{put, put_number};
use emtp_walk::line_readings;
use emtp_warnings::warnings_text;
use emtp_worth::listed;
use std::alloc::{AllocError, Global};

/// What is told of these bytes: what is asked of the run of their case, or the note of a card that is refused.
///
/// # Errors
///
/// [`AllocError`] where memory is wanting.
pub(crate) fn tell(alloc: Global, question: Question, bytes: &[u8]) -> Result<Told, AllocError>
    ensures { IfOk result (λ told. told ≡ judged_of question bytes.now) }
{
    match Cards::split(alloc, bytes) {
        Ok(cards) => tell_cards(alloc, question, &cards),
        Err(Refused::Bad(bad)) => tell_bad(alloc, &bad),
        Err(Refused::NoMemory) => Err(AllocError),
    }
}

/// What is told of the cards of a file.
fn tell_cards(alloc: Global, question: Question, cards: &Cards<'_>) -> Result<Told, AllocError>
    ensures { IfOk result (λ told. told ≡ judged_by question cards.now (deck_of cards.now)) }
{
    match read(alloc, cards) {
        Ok(case) => tell_case(alloc, question, cards, &case),
        Err(Refused::Bad(bad)) => tell_bad(alloc, &bad),
        Err(Refused::NoMemory) => Err(AllocError),
    }
}

/// The note of a refused card.
fn tell_bad(alloc: Global, bad: &Bad) -> Result<Told, AllocError>
    ensures { IfOk result (λ told. told ≡ Told.Refusal (card_note bad.now)) }
{
    let mut text = Vec::new(alloc);
    put(&mut text, bad_card(bad).as_slice())?;
    Ok(Told::Refusal(Items::from_vec(text)))
}

/// What is asked of the run of a case.
fn tell_case(
    alloc: Global,
    question: Question,
    cards: &Cards<'_>,
    case: &Case,
) -> Result<Told, AllocError>
    ensures { IfOk result (λ told. told ≡ Told.Answer (text_for question cards.now case.now.parts)) }
{
    match question {
        Question::Worth => tell_worth(alloc, cards, case),
        Question::Samples => tell_samples(alloc, case),
        Question::Count => tell_count(alloc, cards, case),
    }
}

/// Runs a case, and tells what the run is worth.
fn tell_worth(alloc: Global, cards: &Cards<'_>, case: &Case) -> Result<Told, AllocError>
    ensures { IfOk result (λ told. told ≡ Told.Answer (text_for Question.Worth cards.now case.now.parts)) }
{
    let readings = line_readings(alloc, cards)?;
    let found = branch_warnings(alloc, cards, &readings, case)?;
    let warned = warnings_text(alloc, cards, &readings, &found)?;
    let text = worth_text(alloc, case, &warned)?;
    Ok(Told::Answer(Items::from_vec(text)))
}

/// Tells how much there is to judge.
fn tell_count(alloc: Global, cards: &Cards<'_>, case: &Case) -> Result<Told, AllocError>
    ensures { IfOk result (λ told. told ≡ Told.Answer (text_for Question.Count cards.now case.now.parts)) }
{
    let readings = line_readings(alloc, cards)?;
    let found = branch_warnings(alloc, cards, &readings, case)?;
    let judged = listed(alloc, case)?;
    let mut text = Vec::new(alloc);
    put_number(&mut text, found.len() as u128 + judged.len() as u128)?;
    put(&mut text, b"\n")?;
    Ok(Told::Answer(Items::from_vec(text)))
}

/// Runs a case, and tells the note of the run and its samples.
fn tell_samples(alloc: Global, case: &Case) -> Result<Told, AllocError>
    ensures { IfOk result (λ told. told ≡ Told.Answer (samples_text case.now.parts (history case.now.parts))) }
{
    let mut machine = Machine::open(alloc, case)?;
    let end = machine.run_alone();
    let text = samples_text(
        alloc,
        &end,
        machine.done(),
        machine.redone(),
        machine.samples(),
    );
    // A call, since a drop in place is proved here list by list.
    drop(machine);
    Ok(Told::Answer(Items::from_vec(text?)))
}

/// The note of a run, and behind it the lines of its samples.
fn samples_text(
    alloc: Global,
    end: &Option<End>,
    steps: u32,
    redone: u64,
    samples: &Samples,
) -> Result<Vec<u8>, AllocError>
    ensures { IfOk result (λ text. text.items
        ≡ note_by end.now steps (length samples.now.rows) redone ++ sample_lines samples.now.rows samples.now.channels) }
{
    let mut text = Vec::new(alloc);
    put_note(&mut text, end, steps, samples.count(), redone)?;
    put_samples(&mut text, samples)?;
    Ok(text)
}
