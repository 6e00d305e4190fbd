//! The chain of a block within a step.

ghost use Rattle.std.specs.Prelude.{◌≡◌, ◌^◌, ◌*◌, ◌≤◌, ◌+ℤ◌, ◌-ℤ◌, unsigned_abs};
ghost use Rattle.emtp_elim.specs.Matrix.{item};
ghost use Rattle.emtp_blocks.specs.Block.{carried, past_output, error_of, unlimited};
ghost use Rattle.emtp_blocks.specs.held.Block.{IsLaw, IsKept};
ghost use Rattle.emtp_fix.specs.declared.limit.TheConstants.{LARGEST_VALUE};
ghost use Rattle.emtp_blocks.specs.declared.next.TheConstants.{LARGEST_CHAIN};

use crate::law::BlockLaw;
use crate::scaling::{in_nano, product};
use emtp_case::{BlockState, Limiter};
use emtp_fix::PICO;

/// What brings products of 10^-12 and nano to the 10^-18 of a chain.
const KILO: i128 = 1000;

/// One link more of the chain: H of the next power.
pub(crate) fn link(carried: i128, here: i128, before: i128, error: i128) -> i128
    requires carried { unsigned_abs carried ≤ 3 * 10 ^ 37 }
    requires here { unsigned_abs here ≤ LARGEST_CHAIN }
    requires before { unsigned_abs before ≤ LARGEST_CHAIN }
    requires error { unsigned_abs error ≤ 2 * 10 ^ 35 }
    ensures { result ≡ ((here +ℤ before) -ℤ error) +ℤ carried }
{
    here + before - error + carried
}

/// What the last record leaves to the chain: H of the order.
fn carried(state: &BlockState, order: usize) -> i128
    requires order { order ≤ 7 }
    requires state { IsKept state.now }
    ensures value { result ≡ carried state.now.errors state.now.chain order }
    ensures small { unsigned_abs result ≤ 21 * 10 ^ 36 }
{
    let mut carried = 0;
    let mut before = 0;
    for j in 0..order {
        carried = link(carried, state.chain[j], before, state.errors[j]);
        before = state.chain[j];
    }
    carried
}

/// What the past brings to the output: h, in nano.
pub(crate) fn past_output(state: &BlockState, order: usize) -> i128
    requires order { order ≤ 7 }
    requires state { IsKept state.now }
    ensures value { result ≡ past_output order state.now.errors state.now.chain }
    ensures small { unsigned_abs result ≤ 10 ^ 30 }
{
    in_nano(-carried(state, order))
}

/// E of a power.
pub(crate) fn error(law: &BlockLaw, u: i64, x: i64, j: usize) -> i128
    requires law { IsLaw law.now }
    requires place { j ≤ 7 }
    requires u { unsigned_abs u ≤ LARGEST_VALUE }
    requires x { unsigned_abs x ≤ LARGEST_VALUE }
    ensures value { result ≡ error_of (item law.now.numerators) (item law.now.denominators) u x j }
    ensures small { unsigned_abs result ≤ 2 * 10 ^ 35 }
{
    product(law.numerators[j], u, KILO) - product(law.denominators[j], x, KILO)
}

/// What the block would put out without limits, in nano.
pub(crate) fn unlimited(law: &BlockLaw, limiter: Limiter, past: i128, solved: i64, u: i64) -> i128
    requires law { IsLaw law.now }
    requires u { unsigned_abs u ≤ LARGEST_VALUE }
    requires past { unsigned_abs past ≤ 10 ^ 30 }
    requires solved { unsigned_abs solved ≤ LARGEST_VALUE }
    ensures value { result ≡ unlimited law.now.sum limiter past solved u }
    ensures small { unsigned_abs result ≤ LARGEST_CHAIN }
{
    match limiter {
        Limiter::Free => solved as i128,
        Limiter::AtHigh => product(law.sum, u, PICO) + past,
        Limiter::AtLow => product(law.sum, u, PICO) + past,
    }
}
