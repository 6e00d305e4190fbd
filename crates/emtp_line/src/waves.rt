//! What is held of the waves of one mode between two steps.

ghost use Rattle.std.specs.Prelude.{◌≡◌, ◌∷◌, List, ℤ, IfOk};
ghost use Rattle.emtp_line.specs.held.Mode.{IsMode};
ghost use Rattle.emtp_line.specs.held.Waves.{IsWaves, WavesStand, waves_at_rest};

use crate::mode::Mode;
use crate::wave::histories;
use emtp_hist::History;
use std::alloc::{AllocError, Global};

/// The waves that left the two ends within one travel time. The history currents are made once a step.
#[derive(Drop)]
pub(crate) struct Waves {
    /// The numbers that are the same in all steps.
    pub(crate) mode: Mode,
    /// The waves that left `from`, in nA.
    pub(crate) from: History,
    /// The waves that left `to`, in nA.
    pub(crate) to: History,
    /// The history current of the next step at `from`, in nA.
    pub(crate) from_history: i128,
    /// The history current of the next step at `to`, in nA.
    pub(crate) to_history: i128,
}

impl Waves {
    /// The waves of record 0, which are 0.
    pub(crate) fn at_rest(alloc: Global, mode: Mode) -> Result<Waves, AllocError>
        requires { IsMode mode }
        ensures { IfOk result (λ x. x ≡ waves_at_rest mode) }
    {
        let mut from = History::open(alloc, mode.steps + 1)?;
        from.push(0);
        let mut to = History::open(alloc, mode.steps + 1)?;
        to.push(0);
        Ok(Waves {
            mode,
            from,
            to,
            from_history: 0,
            to_history: 0,
        })
    }

    /// Makes the waves of a step, in nA, the newest ones. `word` is the kept word of the time step.
    #[inline(always)]
    pub(crate) fn push(&mut self, from: i64, to: i64, word: u64)
        requires { IsWaves self.old }
        ensures fits { IsWaves self.new }
        ensures mode { self.new.mode ≡ self.old.mode }
        ensures stands { (from' to' : List ℤ) → WavesStand self.old from' to' → WavesStand self.new (from ∷ from') (to ∷ to') }
    {
        self.from.push(from);
        self.to.push(to);
        let (from_history, to_history) = histories(&self.mode, &self.from, &self.to, word);
        self.from_history = from_history;
        self.to_history = to_history;
    }
}
