//! What is true of a run as a whole. The functions do nothing: their clauses are proved.

ghost use Rattle.std.specs.Prelude.{◌≡◌, ◌+◌, ◌/◌, ◌≤◌, ℕ, None, IfSome, length};
ghost use Rattle.emtp_machine.specs.History.{history, history_upto, samples};
ghost use Rattle.emtp_laws.specs.Causality.{AgreeUpto, DifferAfter, DifferInLaterStops, SamplesAgreeUpto};
ghost use Rattle.emtp_laws.specs.Runs.{BeginsWith, NamesByCause, steps_made, with_steps};

use emtp_case::Case;

/// A run of more steps begins with the same records: how many steps a case has doesn't matter for any of them.
pub fn longer_run_begins_alike(case: &Case)
    ensures samples { (fewer more : ℕ) → fewer ≤ more
        → BeginsWith (samples (with_steps more case.now.parts) (history (with_steps more case.now.parts)))
        (samples (with_steps fewer case.now.parts) (history (with_steps fewer case.now.parts))) }
    ensures records { (steps n : ℕ) → history_upto (with_steps steps case.now.parts) n ≡ history_upto case.now.parts n }
{}

/// A run has a sample for each multiple of IPLOT up to its last step: their number is the steps made over IPLOT, whole part, and
/// one. A run without an end makes all its steps.
pub fn samples_are_counted(case: &Case)
    ensures samples { length (samples case.now.parts (history case.now.parts))
        ≡ steps_made case.now.parts / case.now.parts.run.every + 1 }
    ensures steps { (history case.now.parts).end ≡ None → steps_made case.now.parts ≡ case.now.parts.run.steps }
{}

/// An end names what its cause blames: TACSPIVOT and TACSRANGE a variable of the control, each other cause a node of the network.
pub fn ends_name_what_they_blame(case: &Case)
    ensures { IfSome (history case.now.parts).end (λ end. NamesByCause case.now.parts end.cause end.name) }
{}

/// What a source does later changes nothing before: two cases that differ only in what sources of the network or of the control do
/// after a step have the same records as far as that step, the same end where one comes by then, and the same samples.
pub fn runs_agree_until_sources_differ(case: &Case, other: &Case, step: u32)
    requires later { DifferAfter step case.now.parts other.now.parts }
    ensures records { AgreeUpto step case.now.parts other.now.parts }
    ensures samples { SamplesAgreeUpto step case.now.parts other.now.parts }
{}

/// So it is where two cases differ in nothing but the times at which sources end, TSTOP, and these come no sooner than that step.
pub fn runs_agree_until_sources_end(case: &Case, other: &Case, step: u32)
    requires later { DifferInLaterStops step case.now.parts other.now.parts }
    ensures records { AgreeUpto step case.now.parts other.now.parts }
    ensures samples { SamplesAgreeUpto step case.now.parts other.now.parts }
{}
