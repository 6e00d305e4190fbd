//! What the words of a command line ask for.
ghost use Rattle.std.specs.Prelude.{◌≡◌, None, option_map};
ghost use Rattle.emtp_inspect.specs.Asking.{asked, counted, named, past_run, run_of, told_behind};
ghost use Rattle.emtp_run.specs.Words.{texts};

use emtp_run::is_name;

/// What is wanted of a case that is read.
#[derive(Clone, Copy)]
pub enum Wanted {
    /// Its warnings and its listing.
    Listing,
    /// How many warnings there are.
    WarningCount,
    /// As what each line is read.
    Kinds,
    /// What helps to mend a card that is refused.
    Cause,
    /// The fields of its lines, and the refusal or the warnings.
    Fields,
}

/// What is wanted, and the name of the case's file, where the words fit: `CASE`, or `--count`, `--kinds`, `--why` or
/// `--fields` and `CASE`.
pub(crate) fn read_words(words: &[String]) -> Option<(Wanted, &str)>
    ensures { option_map (λ a. (a.0, a.1.now)) result ≡ asked (texts words.now) }
{
    match words {
        [word] => named(Wanted::Listing, word.as_str()),
        [first, word] => counted(first.as_str(), word.as_str()),
        _ => None,
    }
}

fn counted<'a>(first: &str, word: &'a str) -> Option<(Wanted, &'a str)>
    ensures { option_map (λ a. (a.0, a.1.now)) result ≡ counted first.now word.entry.now }
{
    match first {
        "--count" => named(Wanted::WarningCount, word),
        "--kinds" => named(Wanted::Kinds, word),
        "--why" => named(Wanted::Cause, word),
        "--fields" => named(Wanted::Fields, word),
        _ => None,
    }
}

fn named<'a>(wanted: Wanted, word: &'a str) -> Option<(Wanted, &'a str)>
    ensures { option_map (λ a. (a.0, a.1.now)) result ≡ named wanted word.entry.now }
{
    if is_name(word) {
        Some((wanted, word))
    } else {
        None
    }
}

// ---- a run that was made

/// What words say of a run that was made.
#[derive(Clone, Copy)]
pub(crate) struct PastWords<'a> {
    /// The number of its status.
    pub(crate) status: &'a str,
    /// Its note, without the end of the line.
    pub(crate) note: &'a [u8],
    /// Its words.
    pub(crate) words: &'a [String],
}

/// The run of which words ask what its status means: behind `--told` stand STATUS, NOTE and the words of the run.
pub(crate) fn past_words(words: &[String]) -> Option<PastWords<'_>>
    ensures { option_map (λ w. run_of w) result ≡ past_run (texts words.now) }
{
    match words {
        [first, status, note, behind @ ..] => {
            told_behind(first.as_str(), status.as_str(), note.as_str(), behind)
        }
        _ => None,
    }
}

fn told_behind<'a>(
    first: &str,
    status: &'a str,
    note: &'a str,
    words: &'a [String],
) -> Option<PastWords<'a>>
    ensures { option_map (λ w. run_of w) result
        ≡ told_behind first.now status.entry.now note.entry.now (texts words.entry.now) }
{
    match first {
        "--told" => Some(PastWords {
            status,
            note: note.as_bytes(),
            words,
        }),
        _ => None,
    }
}
