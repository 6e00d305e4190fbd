//! What is held of one pseudo-nonlinear branch.

ghost use Rattle.std.specs.Prelude.{◌≡◌, ◌<◌, ◌+◌, ◌^◌, ◌≤◌, unsigned_abs, length, option_map, IfSome};
ghost use Rattle.emtp_case.specs.Branch.{points_of};
ghost use Rattle.emtp_case.specs.held.Branch.{IsPseudo};
ghost use Rattle.emtp_case.specs.held.Sizes.{sizes_of};
ghost use Rattle.emtp_case.specs.declared.case.Parts.{Parts};
ghost use Rattle.emtp_pseudo.specs.Moment.{moment_at, segment_in};
ghost use Rattle.emtp_pseudo.specs.held.Held.{IsHeld, moment_in};
ghost use Rattle.emtp_pseudo.specs.held.Segment.{IsSound};
ghost use Rattle.emtp_pseudo.specs.Step.{history_current_of, next_state};
ghost use Rattle.emtp_pseudo.specs.held.Step.{IsMoment};

use crate::moment::Moment;
use crate::segment::Segment;
use crate::step::{history_current, next};
use emtp_case::{Case, Point, Pseudo};
use emtp_fix::word_of;

/// A pseudo-nonlinear branch between two steps. Its segment is made where it changes, and the history current once a step.
#[derive(Clone, Copy)]
pub(crate) struct HeldBranch {
    /// The branch of the case.
    pub(crate) card: Pseudo,
    /// What the last record says of it.
    pub(crate) moment: Moment,
    /// The segment of the next step.
    pub(crate) segment: Segment,
    /// The reciprocal word of the segment's rise of voltage or flux.
    pub(crate) word: u64,
    /// The history current of the next step, in nA.
    pub(crate) history_current: i128,
}

impl HeldBranch {
    /// The branch after a record.
    pub(crate) fn of(case: &Case, card: &Pseudo, moment: Moment) -> HeldBranch
        requires card { IsPseudo case.now.parts.run (sizes_of case.now.parts) case.now.parts.points card.now }
        requires moment { IsMoment moment }
        requires within { unsigned_abs moment.state.segment < card.now.count }
        ensures moment { result.moment ≡ moment }
        ensures held { IsHeld case.now.parts card.now result }
    {
        let segment = segment(case, card, moment.state.segment);
        let word = word_of(segment.rise.other as i128);
        HeldBranch {
            card: *card,
            moment,
            segment,
            word,
            history_current: history_current(card.reactor, &segment, word, &moment),
        }
    }

    /// The branch after one more step at a voltage, where all of its numbers are in range.
    pub(crate) fn after(&self, case: &Case, v: i128) -> Option<HeldBranch>
        requires card { IsPseudo case.now.parts.run (sizes_of case.now.parts) case.now.parts.points self.now.card }
        requires held { IsHeld case.now.parts self.now.card self.now }
        requires v { unsigned_abs v ≤ 2 ^ 64 }
        ensures value { option_map moment_in result
            ≡ option_map (moment_at v)
            (next_state self.now.card.reactor case.now.parts.run.dt self.now.segment self.now.moment v) }
        ensures held { IfSome result (IsHeld case.now.parts self.now.card) }
    {
        let state = next(
            self.card.reactor,
            case.parts.run.dt,
            &self.segment,
            &self.moment,
            self.history_current,
            v,
        )?;
        Some(self.with(case, Moment { state, voltage: v }))
    }

    /// The branch after one more record.
    fn with(&self, case: &Case, moment: Moment) -> HeldBranch
        requires card { IsPseudo case.now.parts.run (sizes_of case.now.parts) case.now.parts.points self.now.card }
        requires held { IsHeld case.now.parts self.now.card self.now }
        requires moment { IsMoment moment }
        requires within { unsigned_abs moment.state.segment < self.now.card.count }
        ensures moment { result.moment ≡ moment }
        ensures held { IsHeld case.now.parts self.now.card result }
    {
        if moment.state.segment == self.moment.state.segment {
            self.staying(moment)
        } else {
            HeldBranch::of(case, &self.card, moment)
        }
    }

    /// The branch after one more record that stays on its segment.
    fn staying(&self, moment: Moment) -> HeldBranch
        requires held { (case : Parts) × IsHeld case self.now.card self.now }
        requires moment { IsMoment moment }
        requires stays { moment.state.segment ≡ self.now.moment.state.segment }
        ensures moment { result.moment ≡ moment }
        ensures held { (case : Parts) → IsHeld case self.now.card self.now → IsHeld case self.now.card result }
    {
        HeldBranch {
            card: self.card,
            moment,
            segment: self.segment,
            word: self.word,
            history_current: self.next_history(&moment),
        }
    }

    /// The history current after one more record on the same segment. That of a resistor stays.
    fn next_history(&self, moment: &Moment) -> i128
        requires held { (case : Parts) × IsHeld case self.now.card self.now }
        requires moment { IsMoment moment.now }
        ensures value { result ≡ history_current_of self.now.card.reactor self.now.segment moment.now }
        ensures bound { unsigned_abs result ≤ 10 ^ 30 }
    {
        if self.card.reactor {
            history_current(true, &self.segment, self.word, moment)
        } else {
            self.history_current
        }
    }
}

fn segment(case: &Case, card: &Pseudo, k: i32) -> Segment
    requires card { IsPseudo case.now.parts.run (sizes_of case.now.parts) case.now.parts.points card.now }
    requires within { unsigned_abs k < card.now.count }
    ensures value { result ≡ segment_in case.now.parts card.now k }
    ensures sound { IsSound card.now.reactor result }
{
    Segment::of(card.reactor, case.parts.run.dt, points(case, card), k)
}

fn points<'a>(case: &'a Case, card: &Pseudo) -> &'a [Point]
    requires { card.now.first + card.now.count ≤ length case.now.parts.points }
    ensures value { result.now ≡ points_of case.now.parts.points card.now.first card.now.count }
    ensures count { length result.now ≡ card.now.count }
{
    let first = card.first as usize;
    &case.parts.points.as_slice()[first..first + card.count as usize]
}
