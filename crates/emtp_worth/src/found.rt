//! What is found of a pseudo-nonlinear branch, one step after the other.

ghost use Rattle.std.specs.Prelude.{Some, if◌then◌else◌, ◌≡◌, ◌+◌, ◌<◌, ◌^◌, ◌≤◌, length, unsigned_abs};
ghost use Rattle.emtp_worth.specs.Found.{nothing, with, with_excess, with_off, with_on};

use crate::characteristic::{excess, is_off};
use emtp_case::Point;

/// What a record says of a branch.
#[derive(Clone, Copy)]
pub struct Reading {
    /// The number of its step.
    pub step: u32,
    /// The branch voltage, in nV.
    pub voltage: i64,
    /// The branch current, in nA.
    pub current: i64,
    /// What the characteristic is over: the voltage in nV of a resistor, the flux in pWb of a reactor.
    pub value: i64,
    /// What the characteristic has at the current, in the same unit: to 10^37 in magnitude.
    pub due: i128,
    /// What is false where the point lies off the characteristic, and what a peak of the record shows: the voltage in nV of a
    /// resistor, the current in nA of a reactor.
    pub shown: i64,
}

/// What the records of a run say of a branch.
#[derive(Clone, Copy)]
pub struct Found {
    /// In how many steps its point lay off its characteristic.
    pub steps: u32,
    /// How many of these are samples.
    pub samples: u32,
    /// The greatest excess of voltage in nV or flux in pWb.
    pub excess: u128,
    /// The first record that has it; none where each point lay on the characteristic.
    pub worst: Option<Reading>,
    /// The greatest magnitude of what is shown by the points that lay off it, in nV or nA.
    pub peak: u64,
    /// The first record that has it.
    pub highest: Option<Reading>,
    /// The greatest magnitude of what is shown by the points that lay on it: where it is the greater one, no peak of the
    /// record is false.
    pub greatest: u64,
}

impl Found {
    /// What no record says.
    pub(crate) fn nothing() -> Found
        ensures { result ≡ nothing }
    {
        Found {
            steps: 0,
            samples: 0,
            excess: 0,
            worst: None,
            peak: 0,
            highest: None,
            greatest: 0,
        }
    }

    /// With a point more that lies on the characteristic.
    fn with_on(self, r: Reading) -> Found
        ensures { result ≡ with_on self r }
    {
        Found {
            greatest: self.greatest.max(r.shown.unsigned_abs()),
            ..self
        }
    }

    /// With a point more that lies so far off it.
    fn with_off(self, every: u32, r: Reading, excess: u128) -> Found
        requires every { 1 ≤ every }
        requires steps { self.steps < 10 ^ 7 }
        requires samples { self.samples < 10 ^ 7 }
        ensures { result ≡ with_off every self r excess }
    {
        let shown = r.shown.unsigned_abs();
        Found {
            steps: self.steps + 1,
            samples: self.samples + u32::from(r.step % every == 0),
            excess: self.excess.max(excess),
            worst: later(self.excess < excess, r, self.worst),
            peak: self.peak.max(shown),
            highest: later(self.peak < shown, r, self.highest),
            ..self
        }
    }

    fn with_excess(self, points: &[Point], every: u32, r: Reading, excess: u128) -> Found
        requires some { 1 ≤ length points.now }
        requires every { 1 ≤ every }
        requires steps { self.steps < 10 ^ 7 }
        requires samples { self.samples < 10 ^ 7 }
        ensures { result ≡ with_excess points.now every self r excess }
    {
        if is_off(points, excess) {
            self.with_off(every, r, excess)
        } else {
            self.with_on(r)
        }
    }

    /// With one record more.
    #[tactic(auto, unfolding(crate::specs::Found::with))]
    pub(crate) fn with(self, points: &[Point], every: u32, r: Reading) -> Found
        requires some { 1 ≤ length points.now }
        requires due { unsigned_abs r.due ≤ 10 ^ 37 }
        requires every { 1 ≤ every }
        requires steps { self.steps < 10 ^ 7 }
        requires samples { self.samples < 10 ^ 7 }
        ensures { result ≡ with points.now every self r }
    {
        self.with_excess(points, every, r, excess(r.due, r.value))
    }
}

/// A record that is greater than those before, or the first of these.
fn later(more: bool, r: Reading, before: Option<Reading>) -> Option<Reading>
    ensures { result ≡ (if more then Some r else before) }
{
    if more { Some(r) } else { before }
}
