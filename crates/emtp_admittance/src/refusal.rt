//! Why a card is refused.

ghost use Rattle.std.specs.Prelude.{◌≡◌, Option};
ghost use Rattle.emtp_admittance.specs.declared.refusal.Refused.{Refused};
ghost use Rattle.emtp_admittance.specs.held.Least.{AnswersBy};
ghost use Rattle.emtp_admittance.specs.Refusals.{least_refusal, refused_in, sooner};

/// Why a card is refused. The number that is printed of a reason is `refusal_number` of `emtp_phasor_text`.
#[derive(Clone, Copy, Debug, PartialEq, Eq)]
pub enum Refusal {
    /// The case has more than 500 nodes.
    Size,
    /// No frequency is given, and no source has one.
    NoSource,
    /// A source, block, formula or device of the control.
    Control,
    /// A valve or a switch that the control closes.
    Switch,
    /// A pseudo-nonlinear branch.
    Nonlinear,
    /// A line with losses.
    Loss,
    /// A phase of a three-phase line.
    Phases,
    /// An impedance that is too small or too large.
    Impedance,
    /// A source that is no cosine, or has another frequency.
    Source,
    /// The case hasn't the one source that a scan wants.
    Probe,
}

/// A card that is refused.
#[derive(Clone, Copy, Debug, PartialEq, Eq)]
pub struct Refused {
    /// The number of its line, from 1.
    pub line: u32,
    /// Why it is refused.
    pub reason: Refusal,
}

/// The card in this line, where there is a reason to refuse it.
pub(crate) fn refused_in(line: u32, reason: Option<Refusal>) -> Option<Refused>
    ensures { result ≡ refused_in line reason }
{
    match reason {
        Some(reason) => Some(Refused { line, reason }),
        None => None,
    }
}

/// The refusal of the lesser line, the first of two of one line.
pub(crate) fn sooner(a: Option<Refused>, b: Option<Refused>) -> Option<Refused>
    ensures { result ≡ sooner a b }
{
    match (a, b) {
        (None, _) => b,
        (Some(_), None) => a,
        (Some(x), Some(y)) => { if x.line <= y.line { a } else { b } }
    }
}

/// The refusal of the least line that `refused` answers to the cards, the first of two of one line.
pub(crate) fn least_refusal<T, F: Fn(&T) -> Option<Refused>>(
    cards: &[T],
    refused: F,
) -> Option<Refused>
    requires { F.IsAlwaysCallable refused }
    ensures { (f : T → Option Refused) → AnswersBy F.Fn refused f → result ≡ least_refusal f cards.now }
{
    let mut best = None;
    for card in cards {
        best = sooner(best, refused(card));
    }
    best
}
