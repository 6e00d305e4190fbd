//! The words of a command line.
ghost use Rattle.std.specs.Char.{is_ascii_digit};
ghost use Rattle.std.specs.Prelude.{◌≡◌, ◌-◌, ◌≤◌, [], ◌∷◌, option_map, IfSome, IsTrue, nat_le};
ghost use Rattle.std.specs.Option.{ForSome};
ghost use Rattle.emtp_phasor.specs.Scanning.{frequency_count};
ghost use Rattle.emtp_run.specs.Words.{texts, is_name, is_leading, in_scan, in_trial, differ, fits, frequency_of_word, of_one, of_scan, of_three, trial_number, Trial};
ghost use Rattle.emtp_run.specs.held.Words.{files_of, task_of, IsScanned, IsTask};

use emtp_card::read_digits;
use emtp_phasor::MOST_FREQUENCIES;

/// The three files of `run CASE CFG DAT` and of `audit CASE CFG DAT`, by their names.
#[derive(Clone, Copy)]
pub struct RunWords<'a> {
    /// The data cards, which are read.
    pub case: &'a str,
    /// The configuration of the record, which is written, or read by an audit.
    pub cfg: &'a str,
    /// The samples of the record, which are written, or read by an audit.
    pub dat: &'a str,
}

/// The two files of `batch CASE TIMES`, by their names. Both are read.
#[derive(Clone, Copy)]
pub struct BatchWords<'a> {
    /// The data cards.
    pub case: &'a str,
    /// The table of switch times.
    pub times: &'a str,
}

/// The case of `scan CASE F0 F1 DF` by its name, and its frequencies in micro-hertz.
#[derive(Clone, Copy)]
pub struct ScanWords<'a> {
    /// The data cards.
    pub case: &'a str,
    /// The first frequency.
    pub first: i64,
    /// The greatest that the last one may be.
    pub last: i64,
    /// From one to the next.
    pub by: i64,
}

/// What the words ask for.
#[derive(Clone, Copy)]
pub enum Words<'a> {
    /// The run of a case from its file.
    Run(RunWords<'a>),
    /// The run of the trial case of a number, from 1 to 900.
    Trial(u32),
    /// The runs of a case under each row of a table of switch times.
    Batch(BatchWords<'a>),
    /// Whether two files are the record of a case.
    Audit(RunWords<'a>),
    /// The steady state of a case.
    Phasor(&'a str),
    /// The impedance of a case over frequencies.
    Scan(ScanWords<'a>),
}

/// What the words after the program's name ask for, where they fit. It takes no memory.
pub fn read_words(words: &[String]) -> Option<Words<'_>>
    ensures value { option_map (λ w. task_of w) result ≡ fits (texts words.now) }
    ensures task { IfSome result (λ w. IsTask (task_of w)) }
{
    match words {
        [] => None,
        [_] => None,
        [command, word] => of_one(command.as_str(), word.as_str()),
        [command, case, times] => batch_words(command.as_str(), case.as_str(), times.as_str()),
        [command, case, cfg, dat] => record_words(
            command.as_str(),
            case.as_str(),
            cfg.as_str(),
            dat.as_str(),
        ),
        [command, case, first, last, by] => scan_words(
            command.as_str(),
            case.as_str(),
            first.as_str(),
            last.as_str(),
            by.as_str(),
        ),
        _ => None,
    }
}

/// What `run CASE CFG DAT` and `audit CASE CFG DAT` name.
fn record_words<'a>(command: &str, case: &'a str, cfg: &'a str, dat: &'a str) -> Option<Words<'a>>
    ensures value { option_map (λ w. task_of w) result
        ≡ fits (command.now ∷ case.entry.now ∷ cfg.entry.now ∷ dat.entry.now ∷ []) }
    ensures task { IfSome result (λ w. IsTask (task_of w)) }
{
    if is_name(case) && is_name(cfg) && is_name(dat) && differ(case, cfg, dat) {
        of_three(command, RunWords { case, cfg, dat })
    } else {
        None
    }
}

/// What the command asks for that names these three files.
fn of_three<'a>(command: &str, words: RunWords<'a>) -> Option<Words<'a>>
    ensures value { option_map (λ w. task_of w) result ≡ of_three command.now (files_of words.entry) }
    ensures task { IfSome result (λ w. IsTask (task_of w)) }
{
    if command == "run" {
        Some(Words::Run(words))
    } else if command == "audit" {
        Some(Words::Audit(words))
    } else {
        None
    }
}

/// What `batch CASE TIMES` names.
fn batch_words<'a>(command: &str, case: &'a str, times: &'a str) -> Option<Words<'a>>
    ensures value { option_map (λ w. task_of w) result ≡ fits (command.now ∷ case.entry.now ∷ times.entry.now ∷ []) }
    ensures task { IfSome result (λ w. IsTask (task_of w)) }
{
    if command == "batch" && is_name(case) && is_name(times) && case != times {
        Some(Words::Batch(BatchWords { case, times }))
    } else {
        None
    }
}

/// What the command asks for that has this one word.
fn of_one<'a>(command: &str, word: &'a str) -> Option<Words<'a>>
    ensures value { option_map (λ w. task_of w) result ≡ of_one command.now word.entry.now }
    ensures task { IfSome result (λ w. IsTask (task_of w)) }
{
    if command == "trial" {
        return of_trial(trial_number(word.as_bytes()));
    }
    if command == "phasor" && is_name(word) {
        Some(Words::Phasor(word))
    } else {
        None
    }
}

fn of_trial<'a>(number: Option<u32>) -> Option<Words<'a>>
    requires { ForSome number (λ n. (1 ≤ n) × (n ≤ 900)) }
    ensures value { option_map (λ w. task_of w) result ≡ option_map Trial number }
    ensures task { IfSome result (λ w. IsTask (task_of w)) }
{
    match number {
        Some(number) => Some(Words::Trial(number)),
        None => None,
    }
}

/// What `scan CASE F0 F1 DF` names.
fn scan_words<'a>(
    command: &str,
    case: &'a str,
    first: &str,
    last: &str,
    by: &str,
) -> Option<Words<'a>>
    ensures value { option_map (λ w. task_of w) result
        ≡ fits (command.now ∷ case.entry.now ∷ first.now ∷ last.now ∷ by.now ∷ []) }
    ensures task { IfSome result (λ w. IsTask (task_of w)) }
{
    if command == "scan" && is_name(case) {
        of_scan(
            case,
            frequency(first.as_bytes()),
            frequency(last.as_bytes()),
            frequency(by.as_bytes()),
        )
    } else {
        None
    }
}

/// The scan of these frequencies, where they are few and in order.
fn of_scan<'a>(
    case: &'a str,
    first: Option<i64>,
    last: Option<i64>,
    by: Option<i64>,
) -> Option<Words<'a>>
    requires first { ForSome first IsScanned }
    requires last { ForSome last IsScanned }
    requires by { ForSome by IsScanned }
    ensures value { option_map (λ w. task_of w) result ≡ of_scan case.entry.now first last by }
    ensures task { IfSome result (λ w. IsTask (task_of w)) }
{
    match (first, last, by) {
        (Some(first), Some(last), Some(by)) if first <= last && are_few(first, last, by) => {
            Some(Words::Scan(ScanWords {
                case,
                first,
                last,
                by,
            }))
        }
        _ => None,
    }
}

fn are_few(first: i64, last: i64, by: i64) -> bool
    requires first { IsScanned first }
    requires last { IsScanned last }
    requires by { IsScanned by }
    ensures { result ≡ nat_le (frequency_count first last by) MOST_FREQUENCIES }
{
    (last - first).unsigned_abs() / by.unsigned_abs() + 1 <= MOST_FREQUENCIES as u64
}

/// A frequency in whole hertz, one to eight digits without a leading 0, in micro-hertz.
fn frequency(word: &[u8]) -> Option<i64>
    ensures value { result ≡ frequency_of_word word.now }
    ensures range { IfSome result IsScanned }
{
    match word {
        [first, ..] if is_leading(*first) => match read_digits(word, 8) {
            Some(hertz) => in_scan(hertz),
            None => None,
        },
        _ => None,
    }
}

fn in_scan(hertz: u64) -> Option<i64>
    ensures value { result ≡ in_scan hertz }
    ensures range { IfSome result IsScanned }
{
    if hertz >= 1 && hertz <= 10_000_000 {
        Some(hertz as i64 * 1_000_000)
    } else {
        None
    }
}

/// The number of a trial case: one to three digits without a leading 0, from 1 to 900.
fn trial_number(word: &[u8]) -> Option<u32>
    ensures value { result ≡ trial_number word.now }
    ensures range { IfSome result (λ n. (1 ≤ n) × (n ≤ 900)) }
{
    match word {
        [a] if is_leading(*a) => in_trial(digit(*a)),
        [a, b] if is_leading(*a) && b.is_ascii_digit() => in_trial(10 * digit(*a) + digit(*b)),
        [a, b, c] if is_leading(*a) && b.is_ascii_digit() && c.is_ascii_digit() => {
            in_trial(100 * digit(*a) + 10 * digit(*b) + digit(*c))
        }
        _ => None,
    }
}

/// Whether a word names a file: it isn't empty and doesn't begin with a dash.
pub fn is_name(word: &str) -> bool
    ensures { result ≡ is_name word.now }
{
    match word.as_bytes() {
        [] => false,
        [first, ..] => *first != b'-',
    }
}

fn differ(a: &str, b: &str, c: &str) -> bool
    ensures { result ≡ differ a.now b.now c.now }
{
    a != b && a != c && b != c
}

fn is_leading(byte: u8) -> bool
    ensures { result ≡ is_leading byte }
{
    byte.is_ascii_digit() && byte != b'0'
}

fn digit(byte: u8) -> u32
    requires { IsTrue (is_ascii_digit byte) }
    ensures { result ≡ byte - 48 }
{
    u32::from(byte - b'0')
}

fn in_trial(number: u32) -> Option<u32>
    ensures { result ≡ in_trial number }
{
    if number <= 900 { Some(number) } else { None }
}
