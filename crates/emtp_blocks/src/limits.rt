//! The limits of a block within a step.

ghost use Rattle.std.specs.Prelude.{◌≡◌, ◌≤◌, ◌<◌, length, All, unsigned_abs};
ghost use Rattle.std.specs.Option.{ForSome};
ghost use Rattle.emtp_case.specs.held.Control.{IsBound};
ghost use Rattle.emtp_case.specs.held.Sizes.{Sizes};
ghost use Rattle.emtp_blocks.specs.Block.{limit_of, limits_of, is_above, is_below, limiter_for, held, output_of};
ghost use Rattle.emtp_fix.specs.declared.limit.TheConstants.{LARGEST_VALUE};

use emtp_case::{Block, Bound, Limiter};

/// The limits of a block within a step, in nano.
#[derive(Clone, Copy)]
pub(crate) struct Limits {
    /// The low limit, if there is one.
    pub(crate) low: Option<i64>,
    /// The high limit, if there is one.
    pub(crate) high: Option<i64>,
}

fn limit(known: &[i64], bound: Bound) -> Option<i64>
    requires bound { (n : Sizes) × (n.vars ≡ length known.now) × IsBound n bound }
    requires known { All (λ v. unsigned_abs v ≤ LARGEST_VALUE) known.now }
    ensures value { result ≡ limit_of known.now bound }
    ensures small { ForSome result (λ v. unsigned_abs v ≤ LARGEST_VALUE) }
{
    match bound {
        Bound::None => None,
        Bound::Fixed(x) => Some(x),
        Bound::Named(v) => Some(known[v as usize]),
    }
}

/// The limits of a block, where a named one is the value of its variable.
pub(crate) fn limits_in_step(known: &[i64], block: &Block) -> Limits
    requires low { (n : Sizes) × (n.vars ≡ length known.now) × IsBound n block.now.low }
    requires high { (n : Sizes) × (n.vars ≡ length known.now) × IsBound n block.now.high }
    requires known { All (λ v. unsigned_abs v ≤ LARGEST_VALUE) known.now }
    ensures value { result ≡ limits_of known.now block.now }
    ensures low { ForSome result.low (λ v. unsigned_abs v ≤ LARGEST_VALUE) }
    ensures high { ForSome result.high (λ v. unsigned_abs v ≤ LARGEST_VALUE) }
{
    Limits {
        low: limit(known, block.low),
        high: limit(known, block.high),
    }
}

fn is_above(limit: Option<i64>, z: i128) -> bool
    ensures { result ≡ is_above limit z }
{
    match limit {
        Some(limit) => (limit as i128) < z,
        None => false,
    }
}

fn is_below(limit: Option<i64>, z: i128) -> bool
    ensures { result ≡ is_below limit z }
{
    match limit {
        Some(limit) => z < limit as i128,
        None => false,
    }
}

/// Where the limiter stands at `z`.
pub(crate) fn limiter_for(limits: &Limits, z: i128) -> Limiter
    ensures { result ≡ limiter_for limits.now z }
{
    if is_above(limits.high, z) {
        Limiter::AtHigh
    } else if is_below(limits.low, z) {
        Limiter::AtLow
    } else {
        Limiter::Free
    }
}

/// The output of a limiter, from that without limits.
pub(crate) fn held(limits: &Limits, limiter: Limiter, z: i64) -> i64
    requires low { ForSome limits.now.low (λ v. unsigned_abs v ≤ LARGEST_VALUE) }
    requires high { ForSome limits.now.high (λ v. unsigned_abs v ≤ LARGEST_VALUE) }
    requires z { unsigned_abs z ≤ LARGEST_VALUE }
    ensures value { result ≡ held limits.now limiter z }
    ensures small { unsigned_abs result ≤ LARGEST_VALUE }
{
    match limiter {
        Limiter::Free => z,
        Limiter::AtHigh => limits.high.unwrap_or(0),
        Limiter::AtLow => limits.low.unwrap_or(0),
    }
}

/// The recorded output of a block, from the solved one, by where its limiter stood.
pub(crate) fn output(limits: &Limits, limiter: Limiter, solved: i64) -> i64
    requires low { ForSome limits.now.low (λ v. unsigned_abs v ≤ LARGEST_VALUE) }
    requires high { ForSome limits.now.high (λ v. unsigned_abs v ≤ LARGEST_VALUE) }
    requires solved { unsigned_abs solved ≤ LARGEST_VALUE }
    ensures value { result ≡ output_of limits.now limiter solved }
    ensures small { unsigned_abs result ≤ LARGEST_VALUE }
{
    match limiter {
        Limiter::Free => held(limits, limiter_for(limits, solved as i128), solved),
        Limiter::AtHigh => held(limits, Limiter::AtHigh, solved),
        Limiter::AtLow => held(limits, Limiter::AtLow, solved),
    }
}
