//! What the words of a command line ask for.
ghost use Rattle.std.specs.Prelude.{◌≡◌, option_map};
ghost use Rattle.emtp_assess.specs.Asking.{named, question_in, question_of};
ghost use Rattle.emtp_run.specs.Words.{texts};

use emtp_run::is_name;

/// What is asked of the run of a case.
#[derive(Clone, Copy)]
pub enum Question {
    /// What it is worth: its note, and how far it is from its circuit.
    Worth,
    /// Its note, and its samples with all their digits.
    Samples,
    /// How much there is to judge, for which it isn't run.
    Count,
}

/// What is asked, and the name of the case's file, where the words fit: `CASE` alone, or behind `--samples` or `--count`.
pub(crate) fn read_words(words: &[String]) -> Option<(Question, &str)>
    ensures { option_map (λ a. (a.0, a.1.now)) result ≡ question_in (texts words.now) }
{
    match words {
        [word] => named(Some(Question::Worth), word.as_str()),
        [first, word] => named(question_of(first.as_str()), word.as_str()),
        _ => None,
    }
}

/// What the word before the name asks for.
fn question_of(word: &str) -> Option<Question>
    ensures { result ≡ question_of word.now }
{
    match word {
        "--samples" => Some(Question::Samples),
        "--count" => Some(Question::Count),
        _ => None,
    }
}

/// A question of the case that a name names.
fn named(question: Option<Question>, word: &str) -> Option<(Question, &str)>
    ensures { option_map (λ a. (a.0, a.1.now)) result ≡ named question word.entry.now }
{
    match question {
        Some(question) if is_name(word) => Some((question, word)),
        _ => None,
    }
}
