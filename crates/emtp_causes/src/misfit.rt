//! Why words are no command of `emtp`.

ghost use Rattle.std.specs.Prelude.{◌≡◌, ◌++◌, ◌∷◌, OnOk, map, string_bytes};
ghost use Rattle.emtp_causes.specs.Misfit.{between, count_line, dash_line, files_text, form_of, frequencies_text, hertz_line, is_odd_name, misfit_text, name_text, names_text, number_of, one_text, other_count, range_fault, three_text, trial_text, twice_line};

use crate::texts::{
    AND_HERE, BATCH_FORM, BEGINS_WITH_DASH, BEHIND, CASE_FORM, DOES, EMPTY_NAME, FALLING_SCAN,
    IS_NOT, LONG_SCAN, MORE_WORDS, NO_COMMAND, NO_COMMAND_NAMED, NO_FREQUENCY, NOTHING,
    RECORD_FORM, SCAN_FORM, STANDS, STANDS_TWICE, TRIAL_FORM, TRIAL_NUMBER,
};
use emtp_card::read_digits;
use emtp_text::put;
use std::alloc::AllocError;

/// The most digits of a number.
const MOST_DIGITS: usize = 8;

/// The greatest frequency, in hertz.
const MOST_HERTZ: u64 = 10_000_000;

/// The most frequencies of a scan.
const MOST_FREQUENCIES: u64 = 10_000;

/// Puts after a text why these words are no command; nothing where they may be one.
pub fn put_misfit(out: &mut Vec<u8>, words: &[String]) -> Result<(), AllocError>
    ensures { OnOk result (out.new.items ≡ out.old.items ++ misfit_text (map (λ word. string_bytes word) words.now)) }
{
    match words {
        [] => put(out, NO_COMMAND),
        [command, behind @ ..] => put_command(out, command, behind),
    }
}

/// Puts why a command has no such words behind it.
fn put_command(out: &mut Vec<u8>, command: &str, behind: &[String]) -> Result<(), AllocError>
    ensures { OnOk result (out.new.items ≡ out.old.items ++ misfit_text (command.now ∷ map (λ word. string_bytes word) behind.now)) }
{
    match behind {
        [] => put_other_count(out, command, NOTHING),
        [a] => put_one(out, command, a),
        [a, b] if command == "batch" => put_names(out, a, b),
        [_, _] => put_other_count(out, command, b"2"),
        [a, b, c] => put_three(out, command, a, b, c),
        [case, first, last, by] if command == "scan" => put_scan(out, case, first, last, by),
        [_, _, _, _] => put_other_count(out, command, b"4"),
        _ => put(out, MORE_WORDS),
    }
}

/// The words that stand behind a command; nothing of a word that is none.
fn form_of(command: &str) -> &'static [u8]
    ensures { result.now ≡ form_of command.now }
{
    match command {
        "run" | "audit" => RECORD_FORM,
        "show" | "phasor" => CASE_FORM,
        "batch" => BATCH_FORM,
        "scan" => SCAN_FORM,
        "trial" => TRIAL_FORM,
        _ => b"",
    }
}

/// Puts that another number of words is wanted, or that no command has this name.
fn put_other_count(out: &mut Vec<u8>, command: &str, given: &[u8]) -> Result<(), AllocError>
    ensures { OnOk result (out.new.items ≡ out.old.items ++ other_count command.now given.now) }
{
    let form = form_of(command);
    if form.is_empty() {
        put_between(out, NO_COMMAND_NAMED, command.as_bytes(), b".\n")
    } else {
        put_count(out, command.as_bytes(), form, given)
    }
}

/// Puts a word between two texts.
#[tactic(auto, unfolding(crate::specs::Misfit::between))]
fn put_between(out: &mut Vec<u8>, front: &[u8], word: &[u8], back: &[u8]) -> Result<(), AllocError>
    ensures { OnOk result (out.new.items ≡ out.old.items ++ between front.now word.now back.now) }
{
    put(out, front)?;
    put(out, word)?;
    put(out, back)
}

fn put_count(out: &mut Vec<u8>, command: &[u8], form: &[u8], given: &[u8]) -> Result<(), AllocError>
    ensures { OnOk result (out.new.items ≡ out.old.items ++ count_line command.now form.now given.now) }
{
    put(out, BEHIND)?;
    put(out, command)?;
    put(out, STANDS)?;
    put(out, form)?;
    put(out, AND_HERE)?;
    put(out, given)?;
    put(out, b".\n")?;
    Ok(())
}

fn put_one(out: &mut Vec<u8>, command: &str, word: &str) -> Result<(), AllocError>
    ensures { OnOk result (out.new.items ≡ out.old.items ++ one_text command.now word.now) }
{
    match command {
        "trial" => put_trial(out, word),
        "show" | "phasor" => put_name(out, word),
        _ => put_other_count(out, command, b"1"),
    }
}

fn put_three(out: &mut Vec<u8>, command: &str, a: &str, b: &str, c: &str) -> Result<(), AllocError>
    ensures { OnOk result (out.new.items ≡ out.old.items ++ three_text command.now a.now b.now c.now) }
{
    match command {
        "run" | "audit" => put_files(out, a, b, c),
        _ => put_other_count(out, command, b"3"),
    }
}

// ---- names

/// Whether a word names no file.
fn is_odd_name(name: &str) -> bool
    ensures { result ≡ is_odd_name name.now }
{
    name.is_empty() || name.as_bytes().starts_with(b"-")
}

/// Puts why a word names no file, where it names none.
fn put_name(out: &mut Vec<u8>, name: &str) -> Result<(), AllocError>
    ensures { OnOk result (out.new.items ≡ out.old.items ++ name_text name.now) }
{
    if name.is_empty() {
        put(out, EMPTY_NAME)
    } else if is_odd_name(name) {
        put_dash(out, name.as_bytes())
    } else {
        Ok(())
    }
}

fn put_dash(out: &mut Vec<u8>, name: &[u8]) -> Result<(), AllocError>
    ensures { OnOk result (out.new.items ≡ out.old.items ++ dash_line name.now) }
{
    put(out, name)?;
    put(out, BEGINS_WITH_DASH)?;
    put(out, name)?;
    put(out, DOES)?;
    Ok(())
}

fn put_twice(out: &mut Vec<u8>, name: &str) -> Result<(), AllocError>
    ensures { OnOk result (out.new.items ≡ out.old.items ++ twice_line name.now) }
{
    put_between(out, b"", name.as_bytes(), STANDS_TWICE)
}

fn put_names(out: &mut Vec<u8>, a: &str, b: &str) -> Result<(), AllocError>
    ensures { OnOk result (out.new.items ≡ out.old.items ++ names_text a.now b.now) }
{
    if is_odd_name(a) {
        put_name(out, a)
    } else if a == b {
        put_twice(out, a)
    } else {
        put_name(out, b)
    }
}

fn put_files(out: &mut Vec<u8>, a: &str, b: &str, c: &str) -> Result<(), AllocError>
    ensures { OnOk result (out.new.items ≡ out.old.items ++ files_text a.now b.now c.now) }
{
    if is_odd_name(a) {
        put_name(out, a)
    } else if a == b || a == c {
        put_twice(out, a)
    } else {
        put_names(out, b, c)
    }
}

// ---- numbers

fn put_trial(out: &mut Vec<u8>, word: &str) -> Result<(), AllocError>
    ensures { OnOk result (out.new.items ≡ out.old.items ++ trial_text word.now) }
{
    match number_of(word, 900) {
        Some(_) => Ok(()),
        None => put_between(out, TRIAL_NUMBER, word.as_bytes(), IS_NOT),
    }
}

/// A whole number from 1 on, without a leading 0.
fn number_of(word: &str, most: u64) -> Option<u64>
    ensures { result ≡ number_of word.now most }
{
    if word.as_bytes().starts_with(b"0") {
        return None;
    }
    match read_digits(word.as_bytes(), MOST_DIGITS) {
        Some(number) if number <= most => Some(number),
        _ => None,
    }
}

fn put_scan(
    out: &mut Vec<u8>,
    case: &str,
    first: &str,
    last: &str,
    by: &str,
) -> Result<(), AllocError>
    ensures { OnOk result (out.new.items ≡ out.old.items ++ frequencies_text case.now first.now last.now by.now) }
{
    if is_odd_name(case) {
        return put_name(out, case);
    }
    let Some(low) = number_of(first, MOST_HERTZ) else {
        return put_no_hertz(out, first);
    };
    let Some(high) = number_of(last, MOST_HERTZ) else {
        return put_no_hertz(out, last);
    };
    match number_of(by, MOST_HERTZ) {
        Some(step) => put(out, range_fault(low, high, step)),
        None => put_no_hertz(out, by),
    }
}

/// What is wrong with the numbers of a scan; nothing of good ones.
fn range_fault(low: u64, high: u64, step: u64) -> &'static [u8]
    ensures { result.now ≡ range_fault low high step }
{
    if high < low {
        FALLING_SCAN
    } else if (high - low) / step.max(1) >= MOST_FREQUENCIES {
        LONG_SCAN
    } else {
        b""
    }
}

fn put_no_hertz(out: &mut Vec<u8>, word: &str) -> Result<(), AllocError>
    ensures { OnOk result (out.new.items ≡ out.old.items ++ hertz_line word.now) }
{
    let range = NO_FREQUENCY;
    put_between(out, b"", word.as_bytes(), range)
}
