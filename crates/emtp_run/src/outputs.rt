//! The outputs of a call, each made after the one before it is whole.
ghost use Rattle.std.specs.Prelude.{◌≡◌, [], ◌∷◌, Some, length};
ghost use Rattle.emtp_comtrade.specs.held.Record.{AreMultipliers};
ghost use Rattle.emtp_io.specs.held.Writes.{Makes};
ghost use Rattle.emtp_machine.specs.History.{history};
ghost use Rattle.emtp_run.specs.Outcome.{cfg, dat, ended_alone, note, record_writes, refusal, summarised, summary, TriesNote};
ghost use Rattle.emtp_run.specs.held.Outcome.{writes_of, AreResultsOf, Ends, EndsAfterReading, LeavesNote};
ghost use Rattle.emtp_run.specs.held.Words.{files_of};

use crate::note;
use crate::status::Status;
use crate::summary::of_trial;
use crate::words::RunWords;
use emtp_case::Case;
use emtp_comtrade::{scales, write_cfg, write_dat};
use emtp_io::{Cabinet, Failed, Output, write_all};
use emtp_machine::{End, Samples};

/// What the run of a case is to leave.
#[derive(Clone, Copy)]
pub enum Product<'a> {
    /// A record under these names, and a note.
    Record(RunWords<'a>),
    /// The summary of the trial of a number.
    Trial(u32),
}

/// What the run of a case came to.
#[derive(Clone, Copy)]
pub struct Results<'a> {
    /// The samples of the steps that were made.
    pub samples: &'a Samples,
    /// How many steps were made.
    pub steps: u32,
    /// How many rows of both matrices were redone.
    pub redone: u64,
    /// The end of the step after the last one, if it came.
    pub end: &'a Option<End>,
}

/// Makes the configuration of the record.
fn make_cfg<C: Cabinet>(
    cabinet: &mut C,
    name: &str,
    case: &Case,
    samples: &Samples,
    multipliers: &[i64; 64],
) -> Result<(), Failed>
    requires channels { samples.now.channels ≡ length case.now.parts.channels }
    requires multipliers { AreMultipliers case.now.parts samples.now.rows multipliers.now }
    ensures { Makes (C.state cabinet.old) (C.state cabinet.new)
        (cfg name.now case.now.parts samples.now.rows ∷ []) result }
{
    cabinet.create(Output::Cfg, name)?;
    write_cfg(cabinet, case, samples, multipliers)
}

/// Makes the data of the record.
fn make_dat<C: Cabinet>(
    cabinet: &mut C,
    name: &str,
    case: &Case,
    samples: &Samples,
    multipliers: &[i64; 64],
) -> Result<(), Failed>
    requires channels { samples.now.channels ≡ length case.now.parts.channels }
    requires multipliers { AreMultipliers case.now.parts samples.now.rows multipliers.now }
    ensures { Makes (C.state cabinet.old) (C.state cabinet.new)
        (dat name.now case.now.parts samples.now.rows ∷ []) result }
{
    cabinet.create(Output::Dat, name)?;
    write_dat(cabinet, case, samples, multipliers)
}

/// Makes a note of this text.
fn make_note<C: Cabinet>(cabinet: &mut C, text: &[u8]) -> Result<(), Failed>
    ensures { Makes (C.state cabinet.old) (C.state cabinet.new) (note text.now ∷ []) result }
{
    cabinet.create(Output::Note, "")?;
    write_all(cabinet, Output::Note, text)
}

/// Makes a summary of this text.
fn make_summary<C: Cabinet>(cabinet: &mut C, text: &[u8]) -> Result<(), Failed>
    ensures { Makes (C.state cabinet.old) (C.state cabinet.new) (summary text.now ∷ []) result }
{
    cabinet.create(Output::Summary, "")?;
    write_all(cabinet, Output::Summary, text)
}

/// Makes the record and the note of a run, each output after the one before it is whole.
fn make_record<C: Cabinet>(
    cabinet: &mut C,
    words: RunWords<'_>,
    case: &Case,
    results: Results<'_>,
) -> Result<(), Failed>
    requires { AreResultsOf case.now.parts results }
    ensures { Makes (C.state cabinet.old) (C.state cabinet.new)
        (record_writes (files_of words.entry) case.now.parts (history case.now.parts)) result }
{
    let samples = results.samples;
    let multipliers = scales(case, samples);
    let text = note::of_run(results.end, results.steps, samples.count(), results.redone);
    make_cfg(cabinet, words.cfg, case, samples, &multipliers)?;
    make_dat(cabinet, words.dat, case, samples, &multipliers)?;
    make_note(cabinet, text.as_slice())
}

/// Makes what a run leaves: its record and note, or the summary of a trial.
pub fn make_all<C: Cabinet>(
    cabinet: &mut C,
    product: Product<'_>,
    case: &Case,
    results: Results<'_>,
) -> Result<(), Failed>
    requires { AreResultsOf case.now.parts results }
    ensures { Makes (C.state cabinet.old) (C.state cabinet.new)
        (writes_of product.entry case.now.parts (history case.now.parts)) result }
{
    match product {
        Product::Record(words) => make_record(cabinet, words, case, results),
        Product::Trial(number) => {
            let text = of_trial(number, results);
            make_summary(cabinet, text.as_slice())
        }
    }
}

/// Makes the summary of a tool that came to its end, and answers how the call ends.
pub fn leave_summary<C: Cabinet>(cabinet: &mut C, text: &[u8]) -> Status
    ensures { EndsAfterReading result (summarised text.now) (C.state cabinet.old) (C.state cabinet.new) }
{
    match make_summary(cabinet, text) {
        Ok(()) => Status::Done,
        Err(_) => Status::WriteFault,
    }
}

/// Makes the note of a solution that ended early, and answers how the call ends.
pub fn leave_end<C: Cabinet>(cabinet: &mut C, text: &[u8]) -> Status
    ensures { EndsAfterReading result (ended_alone text.now) (C.state cabinet.old) (C.state cabinet.new) }
{
    match make_note(cabinet, text) {
        Ok(()) => Status::Ended,
        Err(_) => Status::WriteFault,
    }
}

/// Makes the note of a refusal, and answers its status, which stays where the note can't be written.
pub fn refuse<C: Cabinet>(cabinet: &mut C, status: Status, text: &[u8]) -> Status
    requires { LeavesNote status }
    ensures status { result ≡ status }
    ensures unread { (C.state cabinet.new).unread ≡ (C.state cabinet.old).unread }
    ensures opens { (C.state cabinet.new).opens ≡ (C.state cabinet.old).opens }
    ensures created { TriesNote (C.state cabinet.old) (C.state cabinet.new) }
    ensures ends { Ends status (Some (refusal status text.now)) (C.state cabinet.old) (C.state cabinet.new) }
{
    let _ = make_note(cabinet, text);
    status
}
