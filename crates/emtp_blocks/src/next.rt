//! What is kept of a block after a step.

ghost use Rattle.std.specs.Prelude.{◌≡◌, ◌^◌, ◌*◌, ◌≤◌, ◌<◌, ◌+◌, ◌==◌, ◌&&◌, not, ◌+ℤ◌, ◌-ℤ◌, ◌*ℤ◌, ℕ, ℤ, suc, pos, true, false, unsigned_abs, length, Option, Some, None, if◌then◌else◌, IfSome};
ghost use Rattle.std.specs.Ordering.{int_eq};
ghost use Rattle.emtp_case.specs.declared.control.BlockState.{BlockState};
ghost use Rattle.emtp_elim.specs.Matrix.{item};
ghost use Rattle.emtp_fix.specs.Rounding.{near};
ghost use Rattle.emtp_case.specs.Sums.{sum_below};
ghost use Rattle.emtp_fix.specs.Limit.{is_within};
ghost use Rattle.emtp_blocks.specs.Block.{carried, error_of, each_within, past_output, unlimited, next_state};
ghost use Rattle.emtp_blocks.specs.held.Block.{AreSignals, IsLaw, IsLawOf, IsKept, HasState, Keeps};
ghost use Rattle.emtp_fix.specs.declared.limit.TheConstants.{LARGEST_VALUE, PICO};
ghost use Rattle.emtp_blocks.specs.declared.next.TheConstants.{LARGEST_CHAIN};

use crate::law::BlockLaw;
use crate::limits::{Limits, limiter_for};
use crate::moving::{error, link, past_output, unlimited};
use crate::scaling::pico_product;
use emtp_case::{Block, BlockState, Limiter};
use emtp_fix::in_range;

/// The greatest magnitude of a number of a chain, in 10^-18.
pub(crate) const LARGEST_CHAIN: u128 = 1_000_000_000_000_000_000_000_000_000_000_000_000;

/// The numbers of a block in a step, in nano.
#[derive(Clone, Copy)]
pub(crate) struct Signals {
    /// The sum of its inputs.
    pub(crate) sum: i64,
    /// Its solved output.
    pub(crate) solved: i64,
    /// Its recorded output.
    pub(crate) output: i64,
}

/// The input of a block, in nano, from the sum of its inputs; none where it is out of range.
fn input(gain: i64, s: i64) -> Option<i64>
    requires gain { unsigned_abs gain ≤ LARGEST_VALUE }
    requires s { unsigned_abs s ≤ 8 * 10 ^ 18 }
    ensures value { result
        ≡ (if is_within LARGEST_VALUE (near (gain *ℤ s) PICO) then Some (near (gain *ℤ s) PICO) else None) }
    ensures small { IfSome result (λ u. unsigned_abs u ≤ LARGEST_VALUE) }
{
    in_range(pico_product(gain, s))
}

/// E of the powers below the order, and 0 from the order on.
fn errors(law: &BlockLaw, order: usize, u: i64, x: i64) -> [i128; 8]
    requires order { order ≤ 7 }
    requires law { IsLaw law.now }
    requires u { unsigned_abs u ≤ LARGEST_VALUE }
    requires x { unsigned_abs x ≤ LARGEST_VALUE }
    ensures value { (j : ℕ) → j < order
        → item result j ≡ error_of (item law.now.numerators) (item law.now.denominators) u x j }
    ensures small { (j : ℕ) → unsigned_abs (item result j) ≤ 2 * 10 ^ 35 }
{
    let mut errors = [0; 8];
    for j in 0..order {
        errors[j] = error(law, u, x, j);
    }
    errors
}

fn plus(sum: i128, error: i128) -> i128
    requires sum { unsigned_abs sum ≤ 10 ^ 37 }
    requires error { unsigned_abs error ≤ 2 * 10 ^ 35 }
    ensures { result ≡ sum +ℤ error }
{
    sum + error
}

/// H less the sum of the lesser E.
fn less(carried: i128, sum: i128) -> i128
    requires carried { unsigned_abs carried ≤ 3 * 10 ^ 37 }
    requires sum { unsigned_abs sum ≤ 10 ^ 37 }
    ensures { result ≡ carried -ℤ sum }
{
    carried - sum
}

/// Y of the powers from 1 to the order, each one place lower, and 0 from there on.
fn chain(old: &BlockState, errors: &[i128], order: usize) -> [i128; 8]
    requires order { order ≤ 7 }
    requires old { IsKept old.now }
    requires there { 8 ≤ length errors.now }
    requires small { (j : ℕ) → unsigned_abs (item errors.now j) ≤ 2 * 10 ^ 35 }
    ensures value { (j : ℕ) → j < order
        → item result j ≡ carried old.now.errors old.now.chain (j + 1) -ℤ sum_below (j + 1) (item errors.now) }
    ensures past { (j : ℕ) → order ≤ j → item result j ≡ pos 0 }
    ensures size { 8 ≤ length result }
{
    let mut chain = [0; 8];
    let mut carried = 0;
    let mut before = 0;
    let mut sum = 0;
    for j in 0..order {
        carried = link(carried, old.chain[j], before, old.errors[j]);
        before = old.chain[j];
        sum = plus(sum, errors[j]);
        chain[j] = less(carried, sum);
    }
    chain
}

/// The chain with its last number replaced, where the output isn't what the chain would give.
fn replaced(chain: [i128; 8], order: usize, clamped: bool, last: i128) -> [i128; 8]
    requires order { order ≤ 7 }
    requires size { 8 ≤ length chain }
    requires last { unsigned_abs last ≤ 2 * 10 ^ 35 }
    ensures value { (j : ℕ) → j < order → item result j ≡ (if clamped && (suc j == order) then last else item chain j) }
    ensures past { (j : ℕ) → order ≤ j → item result j ≡ item chain j }
    ensures size { 8 ≤ length result }
{
    let mut chain = chain;
    if clamped && order != 0 {
        chain[order - 1] = last;
    }
    chain
}

/// E of the order, where the output isn't what the chain would give; else 0, since nothing asks for it.
fn last_error(law: &BlockLaw, u: i64, x: i64, order: usize, clamped: bool) -> i128
    requires order { order ≤ 7 }
    requires law { IsLaw law.now }
    requires u { unsigned_abs u ≤ LARGEST_VALUE }
    requires x { unsigned_abs x ≤ LARGEST_VALUE }
    ensures value { clamped ≡ true → result ≡ error_of (item law.now.numerators) (item law.now.denominators) u x order }
    ensures small { unsigned_abs result ≤ 2 * 10 ^ 35 }
{
    if clamped { error(law, u, x, order) } else { 0 }
}

/// What the past brings to the output of a block at a limit, in nano; 0 of a free one, which doesn't ask for it.
fn past_at_limit(state: &BlockState, order: usize) -> i128
    requires order { order ≤ 7 }
    requires state { IsKept state.now }
    ensures value { (c solved u : ℤ) → unlimited c state.now.limiter result solved u
        ≡ unlimited c state.now.limiter (past_output order state.now.errors state.now.chain) solved u }
    ensures small { unsigned_abs result ≤ 10 ^ 30 }
{
    match state.limiter {
        Limiter::Free => 0,
        Limiter::AtHigh => past_output(state, order),
        Limiter::AtLow => past_output(state, order),
    }
}

/// Whether the output isn't what the chain would give.
fn differs(x: i64, z: i128) -> bool
    ensures { result ≡ not (int_eq x z) }
{
    x as i128 != z
}

/// Whether the chain is in range up to the order.
fn is_in_range(chain: &[i128], order: usize) -> bool
    requires there { order ≤ length chain.now }
    ensures { result ≡ each_within LARGEST_CHAIN chain.now order }
{
    for j in 0..order {
        if chain[j].unsigned_abs() > LARGEST_CHAIN {
            return false;
        }
    }
    true
}

/// Moves what is kept of a block by one step, in place, and answers whether its input and the numbers of its chain are in
/// range. Where one isn't, the state is as before.
#[inline(always)]
pub(crate) fn step(
    block: &Block,
    law: &BlockLaw,
    limits: &Limits,
    state: &mut BlockState,
    signals: Signals,
) -> bool
    requires order { block.now.order ≤ 7 }
    requires gain { unsigned_abs block.now.gain ≤ LARGEST_VALUE }
    requires law { IsLaw law.now }
    requires old { IsKept state.old }
    requires signals { AreSignals limits.now state.old.limiter signals }
    ensures value { (dt : ℤ) (r : BlockState) → IsLawOf dt block.now law.now → HasState block.now.order state.old r
        → Keeps block.now.order (if result then Some state.new else None)
        (next_state dt block.now limits.now r signals.solved signals.sum) }
    ensures kept { IsKept state.new }
    ensures same { result ≡ false → state.new ≡ state.old }
{
    let order = block.order as usize;
    let x = signals.output;
    let Some(u) = input(block.gain, signals.sum) else {
        return false;
    };
    let past = past_at_limit(state, order);
    let z = unlimited(law, state.limiter, past, signals.solved, u);
    let errors = errors(law, order, u, x);
    let clamped = differs(x, z);
    let last = last_error(law, u, x, order, clamped);
    let chain = replaced(chain(state, &errors, order), order, clamped, last);
    if !is_in_range(&chain, order) {
        return false;
    }
    state.limiter = limiter_for(limits, z);
    state.errors = errors;
    state.chain = chain;
    true
}
