//! The top call.
ghost use Rattle.std.specs.Prelude.{◌≡◌, ◌≢◌, ◌↔◌, ◌+◌, ◌<◌, [], ◌∷◌, All, Some, None, Ok, Err, length, IsTrue, IfSome, IfOk, IfErr};
ghost use Rattle.emtp_walk.specs.held.Answer.{IfBad};
ghost use Rattle.emtp_machine.specs.History.{history};
ghost use Rattle.emtp_machine.specs.Laws.{EndsWithin, SamplesBalance};
ghost use Rattle.emtp_machine.specs.held.Machine.{history_of};
ghost use Rattle.emtp_run.specs.Command.{answer, cases_of, outcome, outcome_of, own_texts, reads, runs, runs_of, CreatesInTurn, OpensNothing, OpensOnce, TakesWithin};
ghost use Rattle.emtp_run.specs.held.Command.{HoldsOfRuns, IsAnswered};
ghost use Rattle.emtp_run.specs.held.Inputs.{texts_of};
ghost use Rattle.emtp_run.specs.Outcome.{ran, status_of, HasRoomFor, HasRun, HasStatusCause, IsCalmRun, IsComplete, Leaves, Settles};
ghost use Rattle.emtp_run.specs.held.Outcome.{writes_of, EndsAfterReading};
ghost use Rattle.emtp_run.specs.Reading.{deck};
ghost use Rattle.emtp_run.specs.Words.{fits, texts};
ghost use Rattle.emtp_run.specs.held.Words.{task_of, IsTask};

use crate::audit::run_audit;
use crate::batch::run_table;
use crate::note;
use crate::outputs::{Product, Results, make_all, refuse};
use crate::reading::read_texts;
use crate::report::{tell_scan, tell_state};
use crate::status::Status;
use crate::words::{Words, read_words};
use emtp_card::{Cards, Refused};
use emtp_case::Case;
use emtp_deck::read;
use emtp_io::{Cabinet, ReadEnd};
use emtp_machine::{End, Machine};
use std::alloc::Global;

/// Does what the words after the program's name ask for: `run CASE CFG DAT` reads the cards of a case, steps it by
/// Dommel's method (1969), and makes the record (IEEE C37.111-1999) and a note; `trial N` runs the trial case with N
/// sections and makes its summary; `batch CASE TIMES` runs a case under each row of a table of switch times and makes the
/// summary of all rows; `audit CASE CFG DAT` runs a case and says whether the two files are its record;
/// `phasor CASE` and `scan CASE F0 F1 DF` tell its steady state, and its impedance over frequencies. All files that a command
/// reads are read before any of them is judged.
///
/// Each status says how the outputs stand. The status of a refusal stays where its note can't be written.
pub fn emtp<C: Cabinet>(alloc: Global, words: &[String], cabinet: &mut C) -> Status
    ensures usage { (result ≡ Status.Usage) ↔ (fits (texts words.now) ≡ None) }
    ensures unopened { OpensNothing (fits (texts words.now)) result (C.state cabinet.old) (C.state cabinet.new) }
    ensures nature { (C.state cabinet.new).nature ≡ (C.state cabinet.old).nature }
    ensures cause { HasStatusCause result (C.state cabinet.old) (C.state cabinet.new) }

    // Over every cabinet, real files included: each file is opened by one call, each output created by one, in their order.
    ensures opened { OpensOnce (fits (texts words.now)) result (C.state cabinet.old) (C.state cabinet.new) }
    ensures created { CreatesInTurn (fits (texts words.now)) result (C.state cabinet.old) (C.state cabinet.new) }
    // A refusal makes nothing, or no file of a record.
    ensures no_record { Leaves result (C.state cabinet.old) (C.state cabinet.new) }

    // Over a cabinet that tells what it holds.
    ensures outcome { IsTrue (C.state cabinet.old).nature.tells →
        Settles result (outcome (texts words.now) (C.state cabinet.old).nature.files)
        (C.state cabinet.old) (C.state cabinet.new) }
    // Of a file at most its bound is taken, also where a call fails.
    ensures taken { IsTrue (C.state cabinet.old).nature.tells →
        TakesWithin (fits (texts words.now)) result (C.state cabinet.old) (C.state cabinet.new) }
    // Each sample of a run but the first, which is rest, is that of a record in which the currents at each node or group balance.
    ensures residual { IsTrue (C.state cabinet.old).nature.tells → HasRun result →
        All SamplesBalance (cases_of (texts words.now) (C.state cabinet.old).nature.files) }
    ensures early_end { IsTrue (C.state cabinet.old).nature.tells → HasRun result →
        All EndsWithin (cases_of (texts words.now) (C.state cabinet.old).nature.files) }
    ensures complete { IsTrue (C.state cabinet.old).nature.tells →
        IfSome (outcome (texts words.now) (C.state cabinet.old).nature.files)
        (IsComplete result (C.state cabinet.old) (C.state cabinet.new)) }
    ensures calm { IsTrue (C.state cabinet.old).nature.tells → IsTrue (C.state cabinet.old).nature.calm
        → HasRoomFor (outcome (texts words.now) (C.state cabinet.old).nature.files) (C.state cabinet.old).nature.room
        → IsCalmRun result (C.state cabinet.old) (C.state cabinet.new) }
{
    match read_words(words) {
        Some(words) => answer(alloc, words, cabinet),
        None => refuse(cabinet, Status::Usage, note::usage().as_slice()),
    }
}

/// Does what words ask for that fit: reads all files, and then goes by what they hold.
fn answer<C: Cabinet>(alloc: Global, words: Words<'_>, cabinet: &mut C) -> Status
    requires { IsTask (task_of words) }
    ensures no_usage { result ≢ Status.Usage }
    ensures answers { IsAnswered (Some (task_of words.entry)) result (C.state cabinet.old) (C.state cabinet.new) }
{
    match read_texts(alloc, words, cabinet) {
        Ok(texts) => judge(alloc, words, &texts, cabinet),
        Err(ReadEnd::Failed) => Status::ReadFault,
        Err(ReadEnd::NoMemory) => Status::NoMemory,
    }
}

/// Judges the cards, and goes on with the case that they give.
fn judge<C: Cabinet>(alloc: Global, words: Words<'_>, texts: &[Vec<u8>], cabinet: &mut C) -> Status
    requires task { IsTask (task_of words) }
    requires count { length texts.now ≡ length (own_texts (task_of words)) + length (reads (task_of words)) }
    ensures runs { HasRun result → HoldsOfRuns (runs_of (task_of words.entry) (texts_of texts.now)) }
    ensures ends { EndsAfterReading result (outcome_of (task_of words.entry) (texts_of texts.now))
        (C.state cabinet.old) (C.state cabinet.new) }
{
    match read_cards(alloc, &texts[0]) {
        Ok(case) => {
            let mut case = case;
            let status = work(alloc, words, &mut case, texts, cabinet);
            // A call, since a drop in place is proved here list by list.
            drop(case);
            status
        }
        Err(Refused::Bad(bad)) => refuse(cabinet, Status::BadCard, note::bad_card(&bad).as_slice()),
        Err(Refused::NoMemory) => Status::NoMemory,
    }
}

/// Does with an accepted case what the words ask for.
fn work<C: Cabinet>(
    alloc: Global,
    words: Words<'_>,
    case: &mut Case,
    texts: &[Vec<u8>],
    cabinet: &mut C,
) -> Status
    requires task { IsTask (task_of words) }
    requires count { length texts.now ≡ length (own_texts (task_of words)) + length (reads (task_of words)) }
    ensures runs { HasRun result → HoldsOfRuns (runs (task_of words.entry) (texts_of texts.now) case.old.parts) }
    ensures ends { EndsAfterReading result (answer (task_of words.entry) (texts_of texts.now) case.old.parts)
        (C.state cabinet.old) (C.state cabinet.new) }
{
    match words {
        Words::Run(words) => run_case(alloc, Product::Record(words), case, cabinet),
        Words::Trial(number) => run_case(alloc, Product::Trial(number), case, cabinet),
        Words::Batch(_) => run_table(alloc, case, &texts[1], cabinet),
        Words::Audit(_) => run_audit(alloc, case, &texts[1], &texts[2], cabinet),
        Words::Phasor(_) => tell_state(alloc, case, cabinet),
        Words::Scan(words) => tell_scan(alloc, case, words, cabinet),
    }
}

/// The case of these bytes.
fn read_cards(alloc: Global, bytes: &[u8]) -> Result<Case, Refused>
    ensures ok { IfOk result (λ case. deck bytes.now ≡ Ok case.parts) }
    ensures bad { IfErr result (λ refused. IfBad refused (λ bad. deck bytes.now ≡ Err bad)) }
{
    let cards = Cards::split(alloc, bytes)?;
    read(alloc, &cards)
}

/// Runs the case, and makes what it is to leave.
fn run_case<C: Cabinet>(alloc: Global, product: Product<'_>, case: &Case, cabinet: &mut C) -> Status
    ensures runs { HasRun result → HoldsOfRuns (case.now.parts ∷ []) }
    ensures ends { EndsAfterReading result (ran case.now.parts (writes_of product.entry case.now.parts (history case.now.parts)))
        (C.state cabinet.old) (C.state cabinet.new) }
{
    match Machine::open(alloc, case) {
        Ok(machine) => {
            let mut ran = Ran { machine, end: None };
            let status = ran.run(product, case, cabinet);
            // A call, since a drop in place is proved here list by list.
            drop(ran);
            status
        }
        Err(_) => Status::NoMemory,
    }
}

/// A machine, and its end, if it came.
#[derive(Drop)]
struct Ran<'c> {
    machine: Machine<'c>,
    end: Option<End>,
}

impl<'c> Ran<'c> {
    /// Makes all steps and what they leave, and answers how the run ended.
    fn run<C: Cabinet>(&mut self, product: Product<'_>, case: &Case, cabinet: &mut C) -> Status
        requires case { self.old.machine.case ≡ case.now.parts }
        ensures balance { SamplesBalance case.now.parts }
        ensures names { EndsWithin case.now.parts }
        ensures ends { EndsAfterReading result
            (ran case.now.parts (writes_of product.entry case.now.parts (history case.now.parts)))
            (C.state cabinet.old) (C.state cabinet.new) }
    {
        self.end = self.machine.run_alone();
        self.write(product, case, cabinet)
    }

    /// Makes what a run leaves, and answers how it ended.
    fn write<C: Cabinet>(&self, product: Product<'_>, case: &Case, cabinet: &mut C) -> Status
        requires case { self.now.machine.case ≡ case.now.parts }
        requires run { history_of self.now.machine ≡ history case.now.parts }
        requires end { self.now.end ≡ (history case.now.parts).end }
        ensures { EndsAfterReading result (ran case.now.parts (writes_of product.entry case.now.parts (history case.now.parts)))
            (C.state cabinet.old) (C.state cabinet.new) }
    {
        let machine = &self.machine;
        let results = Results {
            samples: machine.samples(),
            steps: machine.done(),
            redone: machine.redone(),
            end: &self.end,
        };
        match make_all(cabinet, product, case, results) {
            Ok(()) => status_of(&self.end),
            Err(_) => Status::WriteFault,
        }
    }
}

/// How a run ended: at its last step, or early.
fn status_of(end: &Option<End>) -> Status
    ensures { result ≡ status_of end.now }
{
    match end {
        Some(_) => Status::Ended,
        None => Status::Done,
    }
}
