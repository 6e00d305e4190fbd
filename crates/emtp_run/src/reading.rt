//! The reading of the files of a command, all of them before any is judged.
ghost use Rattle.std.specs.Prelude.{◌≡◌, ◌+◌, ◌≤◌, ◌∷◌, [], ◌++◌, length, Some, IsTrue, IfOk, IfErr, IsErrOf, OnOk};
ghost use Rattle.emtp_io.specs.declared.whole.ReadEnd.{ReadEnd};
ghost use Rattle.emtp_run.specs.Command.{own_texts, reads, texts_for};
ghost use Rattle.emtp_run.specs.Inputs.{UnlessAny, content, contents};
ghost use Rattle.emtp_run.specs.held.Inputs.{IsUntouched, ReadsInputs, named_input, named_inputs, texts_of};
ghost use Rattle.emtp_run.specs.TrialDeck.{trial_cards};
ghost use Rattle.emtp_run.specs.held.Words.{IsTask, task_of};

use crate::trial::trial_deck;
use crate::words::Words;
use emtp_card::MAX_BYTES;
use emtp_io::{Cabinet, ReadEnd, read_all};
use std::alloc::Global;

/// The most bytes of a file of a record that are read. A byte past an audit's limit is enough to refuse it.
pub const RECORD_BOUND: usize = 64_000_001;

/// A file that is read.
#[derive(Clone, Copy)]
pub struct InputFile<'a> {
    /// Its name.
    pub name: &'a str,
    /// The most bytes of it that are read.
    pub bound: usize,
}

/// What a command is about: the cards first, of its own or of its first file, then what its other files hold.
pub fn read_texts<C: Cabinet>(
    alloc: Global,
    words: Words<'_>,
    cabinet: &mut C,
) -> Result<Vec<Vec<u8>>, ReadEnd>
    requires { IsTask (task_of words) }
    ensures reading { ReadsInputs (reads (task_of words.entry)) (C.state cabinet.old) (C.state cabinet.new) result }
    ensures unopened { UnlessAny (reads (task_of words.entry)) (IsUntouched (C.state cabinet.old) (C.state cabinet.new) result) }
    ensures texts { IsTrue (C.state cabinet.old).nature.tells →
        IfOk result (λ v. texts_for (task_of words.entry) (C.state cabinet.old).nature.files ≡ Some (texts_of v.items)) }
    ensures count { IfOk result
        (λ v. length v.items ≡ length (own_texts (task_of words.entry)) + length (reads (task_of words.entry))) }
{
    match words {
        Words::Run(words) => read_inputs(alloc, &[text_file(words.case)], cabinet),
        Words::Trial(number) => own_text(alloc, number),
        Words::Batch(words) => {
            let inputs = [text_file(words.case), text_file(words.times)];
            read_inputs(alloc, &inputs, cabinet)
        }
        Words::Phasor(name) => read_inputs(alloc, &[text_file(name)], cabinet),
        Words::Scan(words) => read_inputs(alloc, &[text_file(words.case)], cabinet),
        Words::Audit(words) => {
            let inputs = [
                text_file(words.case),
                record_file(words.cfg),
                record_file(words.dat),
            ];
            read_inputs(alloc, &inputs, cabinet)
        }
    }
}

/// A file of cards, or of a table of times. A byte past the limit is enough to refuse it.
pub fn text_file<'a>(name: &'a str) -> InputFile<'a>
    ensures { result ≡ record { name = name.entry; bound = MAX_BYTES + 1 } }
{
    InputFile {
        name,
        bound: MAX_BYTES + 1,
    }
}

/// A file of a record.
fn record_file<'a>(name: &'a str) -> InputFile<'a>
    ensures { result ≡ record { name = name.entry; bound = RECORD_BOUND } }
{
    InputFile {
        name,
        bound: RECORD_BOUND,
    }
}

/// The cards of a trial, as the one text of its command.
fn own_text(alloc: Global, number: u32) -> Result<Vec<Vec<u8>>, ReadEnd>
    requires some { 1 ≤ number }
    requires most { number ≤ 900 }
    ensures texts { IfOk result (λ v. texts_of v.items ≡ trial_cards number ∷ []) }
    ensures count { IfOk result (λ v. length v.items ≡ 1) }
    ensures read { IsErrOf result ReadEnd.Failed → ⊥ }
{
    let cards = trial_deck(alloc, number)?;
    let mut texts = Vec::new(alloc);
    put(&mut texts, cards)?;
    Ok(texts)
}

/// What is read of the files, one after another.
fn read_inputs<C: Cabinet>(
    alloc: Global,
    inputs: &[InputFile<'_>],
    cabinet: &mut C,
) -> Result<Vec<Vec<u8>>, ReadEnd>
    ensures reading { ReadsInputs (named_inputs inputs.now) (C.state cabinet.old) (C.state cabinet.new) result }
    ensures bytes { IsTrue (C.state cabinet.old).nature.tells →
        IfOk result (λ v. contents (C.state cabinet.old).nature.files (named_inputs inputs.now) ≡ Some (texts_of v.items)) }
    ensures count { IfOk result (λ v. length v.items ≡ length inputs.now) }
{
    let mut texts = Vec::new(alloc);
    for input in inputs {
        let text = read_input(alloc, *input, cabinet)?;
        put(&mut texts, text)?;
    }
    Ok(texts)
}

/// What is read of a file.
pub fn read_input<C: Cabinet>(
    alloc: Global,
    input: InputFile<'_>,
    cabinet: &mut C,
) -> Result<Vec<u8>, ReadEnd>
    ensures reading { ReadsInputs (named_input input.entry ∷ []) (C.state cabinet.old) (C.state cabinet.new) result }
    ensures bytes { IsTrue (C.state cabinet.old).nature.tells →
        IfOk result (λ v. content (C.state cabinet.old).nature.files (named_input input.entry) ≡ Some v.items) }
{
    cabinet.open(input.name)?;
    read_all(alloc, cabinet, input.bound)
}

fn put(texts: &mut Vec<Vec<u8>>, text: Vec<u8>) -> Result<(), ReadEnd>
    ensures ok { OnOk result (texts.new.items ≡ texts.old.items ++ text ∷ []) }
    ensures err { IfErr result (λ end. end ≡ ReadEnd.NoMemory) }
{
    match texts.push(text) {
        Ok(()) => Ok(()),
        Err(_) => Err(ReadEnd::NoMemory),
    }
}
