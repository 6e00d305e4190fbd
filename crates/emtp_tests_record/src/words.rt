//! The words of a command line, beside a reader of command lines that others wrote.

use clap::{Arg, ArgAction, ArgMatches, Command, Error};
use emtp_run::{RunWords, Words, read_words, trial_deck};
use std::alloc::{AllocError, Global};
use std::test::Fail;

/// The command line as clap sees it, with each command of the table and its words, all of them required.
fn command<'a>(alloc: Global) -> Result<Command<'a>, Error> {
    let program = Command::new(alloc, "emtp").subcommand_required(true);
    let program = with(program, of_three(alloc, "run", "CASE", "CFG", "DAT"))?;
    let program = with(program, of_three(alloc, "audit", "CASE", "CFG", "DAT"))?;
    let program = with(program, of_one(alloc, "trial", "N"))?;
    let program = with(program, of_two(alloc, "batch", "CASE", "TIMES"))?;
    let program = with(program, of_one(alloc, "phasor", "CASE"))?;
    with(program, scan(alloc))
}

/// The program with a command more, if that could be made.
fn with<'a>(program: Command<'a>, more: Result<Command<'a>, Error>) -> Result<Command<'a>, Error> {
    match more {
        Ok(more) => Ok(program.subcommand(more)?),
        Err(error) => {
            drop(program);
            Err(error)
        }
    }
}

fn of_one<'a>(alloc: Global, name: &'a str, a: &'a str) -> Result<Command<'a>, Error> {
    Ok(Command::new(alloc, name).arg(required(alloc, a))?)
}

fn of_two<'a>(alloc: Global, name: &'a str, a: &'a str, b: &'a str) -> Result<Command<'a>, Error> {
    Ok(of_one(alloc, name, a)?.arg(required(alloc, b))?)
}

fn of_three<'a>(
    alloc: Global,
    name: &'a str,
    a: &'a str,
    b: &'a str,
    c: &'a str,
) -> Result<Command<'a>, Error> {
    Ok(of_two(alloc, name, a, b)?.arg(required(alloc, c))?)
}

fn scan<'a>(alloc: Global) -> Result<Command<'a>, Error> {
    Ok(of_three(alloc, "scan", "CASE", "F0", "F1")?.arg(required(alloc, "DF"))?)
}

fn required<'a>(alloc: Global, name: &'a str) -> Arg<'a> {
    Arg::new(alloc, name).required(true).action(ArgAction::Set)
}

pub fn owned(alloc: Global, words: &[&str]) -> Result<Vec<String>, AllocError> {
    let mut all = Vec::new(alloc);
    for word in words {
        all.push(String::from_str(alloc, word)?)?;
    }
    Ok(all)
}

/// Whether clap and the program find the same files.
fn files_are_alike(matches: &ArgMatches, words: &[String]) -> bool {
    match (matches.subcommand(), read_words(words)) {
        (Some((name, run)), Some(Words::Run(files))) => name == "run" && are_record(run, files),
        (Some((name, audit)), Some(Words::Audit(files))) => {
            name == "audit" && are_record(audit, files)
        }
        (Some((name, batch)), Some(Words::Batch(files))) => {
            name == "batch"
                && batch.get_str("CASE") == Some(files.case)
                && batch.get_str("TIMES") == Some(files.times)
        }
        (Some((name, phasor)), Some(Words::Phasor(case))) => {
            name == "phasor" && phasor.get_str("CASE") == Some(case)
        }
        (Some((name, scan)), Some(Words::Scan(words))) => {
            name == "scan" && scan.get_str("CASE") == Some(words.case)
        }
        _ => false,
    }
}

fn are_record(matches: &ArgMatches, files: RunWords<'_>) -> bool {
    matches.get_str("CASE") == Some(files.case)
        && matches.get_str("CFG") == Some(files.cfg)
        && matches.get_str("DAT") == Some(files.dat)
}

/// Whether clap, of a command line, and the program, of the words after its name, find the same files.
fn finds_alike(alloc: Global, line: &[&str], words: &[&str]) -> Result<bool, Error> {
    let matches = command(alloc)?.try_get_matches_from(line)?;
    let alike = match owned(alloc, words) {
        Ok(own) => {
            let alike = files_are_alike(&matches, &own);
            drop(own);
            alike
        }
        Err(_) => false,
    };
    drop(matches);
    Ok(alike)
}

#[test]
fn finds_the_files_that_clap_finds(rt: HostRuntime) -> Result<(), Fail> {
    let alloc = rt.alloc();
    let run = ["emtp", "run", "a.case", "a.cfg", "a.dat"];
    let audit = ["emtp", "audit", "a.case", "a.cfg", "a.dat"];
    let batch = ["emtp", "batch", "a.case", "a.times"];
    let phasor = ["emtp", "phasor", "a.case"];
    let scan = ["emtp", "scan", "a.case", "50", "150", "50"];
    assert!(rt; finds_alike(alloc, &run, &run[1..])?);
    assert!(rt; finds_alike(alloc, &audit, &audit[1..])?);
    assert!(rt; finds_alike(alloc, &batch, &batch[1..])?);
    assert!(rt; finds_alike(alloc, &phasor, &phasor[1..])?);
    assert!(rt; finds_alike(alloc, &scan, &scan[1..])?);
    Ok(())
}

/// Whether clap finds this text as the number of sections, and the program this number.
fn number_is(matches: &ArgMatches, words: &[String], text: &str, wanted: u32) -> bool {
    match (matches.subcommand(), read_words(words)) {
        (Some((name, trial)), Some(Words::Trial(number))) => {
            name == "trial" && trial.get_str("N") == Some(text) && number == wanted
        }
        _ => false,
    }
}

#[test]
fn finds_the_number_that_clap_finds(rt: HostRuntime) -> Result<(), Fail> {
    let alloc = rt.alloc();
    let words = ["emtp", "trial", "300"];
    let matches = command(alloc)?.try_get_matches_from(&words)?;
    let alike = match owned(alloc, &words[1..]) {
        Ok(own) => {
            let alike = number_is(&matches, &own, "300", 300);
            drop(own);
            alike
        }
        Err(_) => false,
    };
    drop(matches);
    assert!(rt; alike);
    Ok(())
}

/// Whether clap refuses a command line, and the program the words after its name.
fn refused(alloc: Global, line: &[&str], words: &[&str]) -> Result<bool, Error> {
    let clap = command(alloc)?.try_get_matches_from(line).is_err();
    Ok(clap && read_words(&owned(alloc, words)?).is_none())
}

#[test]
fn refuses_words_as_clap_does(rt: HostRuntime) -> Result<(), Fail> {
    let alloc = rt.alloc();
    assert!(rt; refused(alloc, &["emtp", "run", "A", "B"], &["run", "A", "B"])?);
    assert!(rt; refused(alloc, &["emtp", "audit", "A", "B"], &["audit", "A", "B"])?);
    assert!(rt; refused(alloc, &["emtp", "batch", "A"], &["batch", "A"])?);
    assert!(rt; refused(alloc, &["emtp", "phasor"], &["phasor"])?);
    assert!(rt;
        refused(
            alloc,
            &["emtp", "scan", "A", "1", "2"],
            &["scan", "A", "1", "2"]
        )?
    );
    assert!(rt; refused(alloc, &["emtp"], &[])?);
    Ok(())
}

/// The trial case of two sections.
const TRIAL: &str = concat!(
    "BEGIN NEW DATA CASE\n",
    "   1.E-5     .02\n",
    "       1      20\n",
    "  N0000 N0001                 .5   1.0\n",
    "  N0001                                  .01\n",
    "  N0001 N0002                 .5   1.0\n",
    "  N0002                                  .01\n",
    "  LOAD                      100.\n",
    "BLANK\n",
    "  N0002 LOAD        .002      .006                                             1\n",
    "BLANK\n",
    "14N0000         1.E5       60.\n",
    "BLANK\n",
    "  N0002\n",
    "BLANK\n",
);

#[test]
fn writes_the_cards_of_a_trial(rt: HostRuntime) -> Result<(), Fail> {
    assert_eq!(rt; trial_deck(rt.alloc(), 2)?.as_slice(), TRIAL.as_bytes());
    Ok(())
}
