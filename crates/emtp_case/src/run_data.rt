//! The numbers of the miscellaneous cards.

ghost use Rattle.emtp_case.specs.declared.limit.TheConstants.{MOST_STEPS};
ghost use Rattle.emtp_fix.specs.declared.limit.TheConstants.{LARGEST_TIME};
ghost use Rattle.std.specs.Prelude.{◌≡◌, ◌≤◌};
ghost use Rattle.emtp_case.specs.held.Range.{IsBetween};

/// The numbers of the miscellaneous cards, and the tolerance of the residual.
#[derive(Clone, Copy, PartialEq, Eq)]
pub struct RunData {
    /// The time step, in ps: from 1,000 to 10^12.
    pub dt: i64,
    /// The number of steps: from 1 to 1,000,000.
    pub steps: u32,
    /// Each `every`th record is a sample: from 1 to 1,000,000.
    pub every: u32,
    /// The greatest residual of a node's currents, in nA: from 0 to 10^12.
    pub tolerance: i64,
}

impl RunData {
    ghost use Rattle.emtp_case.specs.RunData.{samples_of, time_of};
    ghost use Rattle.emtp_case.specs.held.RunData.{IsRun};

    /// The time of a step, in ps: from 0 to 10^18.
    pub fn time(&self, step: u32) -> i64
        requires run { IsRun self.now }
        requires step { step ≤ self.now.steps }
        ensures value { result ≡ time_of self.now step }
        ensures bound { IsBetween 0 LARGEST_TIME result }
    {
        i64::from(step) * self.dt
    }

    /// The number of samples: record 0, and each `every`th one after it.
    pub fn samples(&self) -> u32
        requires some { 1 ≤ self.now.every }
        requires few { self.now.steps ≤ MOST_STEPS }
        ensures value { result ≡ samples_of self.now }
        ensures few { result ≤ 1000001 }
    {
        self.steps / self.every + 1
    }
}
