//! The comparisons of a line of the data.
ghost use Rattle.std.specs.Prelude.{◌≡◌, ◌+◌, ◌*◌, ◌<◌, ◌≤◌, ◌∷◌, [], ℕ, ℤ, pos, ◌≤ℤ◌, ◌*ℤ◌, unsigned_abs, ◌-ℤ◌, ◌^◌, OnOk};
ghost use Rattle.emtp_fix.specs.declared.limit.TheConstants.{LARGEST_WIDE};
ghost use Rattle.emtp_audit.specs.Dat.{is_time, stamp_is, stands_for, raw_is, state_text, state_is};
ghost use Rattle.emtp_audit.specs.held.Dat.{IsScale};
ghost use Rattle.emtp_audit.specs.held.Walk.{Walks};
ghost use Rattle.emtp_audit.specs.declared.limit.TheConstants.{LARGEST_SCALE, LARGEST_UNIT, MOST_FIELDS};

use crate::differs::{DifferCause, Differs};
use crate::fields::{Fields, unless_wrong};
use crate::numbers::{stamp, whole};
use crate::scale::Scale;
use emtp_fix::NANO;

/// A product of two numbers with limits.
fn product(a: i128, b: i128) -> i128
    requires a { unsigned_abs a ≤ LARGEST_SCALE }
    requires b { unsigned_abs b ≤ 10 ^ 10 }
    ensures value { result ≡ a *ℤ b }
    ensures turned { result ≡ b *ℤ a }
    ensures bound { (m n : ℕ) → unsigned_abs a ≤ m → unsigned_abs b ≤ n → unsigned_abs result ≤ m * n }
{
    a * b
}

/// So many of a unit.
fn times(unit: i64, count: i64) -> i128
    requires unit { unsigned_abs unit ≤ LARGEST_UNIT }
    requires count { unsigned_abs count ≤ 10 ^ 10 }
    ensures value { result ≡ count *ℤ unit }
    ensures bound { unsigned_abs result ≤ LARGEST_SCALE }
{
    product(i128::from(unit), i128::from(count))
}

/// How far two numbers lie apart.
fn apart(a: i128, b: i128) -> u128
    requires { unsigned_abs a + unsigned_abs b ≤ LARGEST_WIDE }
    ensures { result ≡ unsigned_abs (a -ℤ b) }
{
    (a - b).unsigned_abs()
}

// ---- time stamps

/// A stamp that tells so many steps since the first stamp has to come next.
pub(crate) fn walk_stamp(
    fields: &mut Fields<'_>,
    step: i64,
    unit: i64,
    first: i64,
    steps: u32,
) -> Result<(), Differs>
    requires number { fields.old.number ≤ MOST_FIELDS }
    requires step { unsigned_abs step ≤ LARGEST_UNIT }
    requires unit { unsigned_abs unit ≤ LARGEST_UNIT }
    requires first_low { pos 0 ≤ℤ first }
    requires first_high { unsigned_abs first < 10 ^ 10 }
    ensures walks { Walks result fields.old fields.new (stamp_is step unit first steps ∷ []) }
    ensures next { OnOk result (fields.new.number ≡ fields.old.number + 1) }
{
    let field = fields.take()?;
    fields.judge(stamp_cause(field, step, unit, first, steps))
}

fn stamp_cause(field: &[u8], step: i64, unit: i64, first: i64, steps: u32) -> Option<DifferCause>
    requires step { unsigned_abs step ≤ LARGEST_UNIT }
    requires unit { unsigned_abs unit ≤ LARGEST_UNIT }
    requires first_low { pos 0 ≤ℤ first }
    requires first_high { unsigned_abs first < 10 ^ 10 }
    ensures { result ≡ stamp_is step unit first steps field.now }
{
    match stamp(field) {
        None => Some(DifferCause::NotNumber),
        Some(stamp) => unless_wrong(is_time(step, unit, first, steps, stamp)),
    }
}

fn is_time(step: i64, unit: i64, first: i64, steps: u32, stamp: i64) -> bool
    requires step { unsigned_abs step ≤ LARGEST_UNIT }
    requires unit { unsigned_abs unit ≤ LARGEST_UNIT }
    requires first_low { pos 0 ≤ℤ first }
    requires first_high { unsigned_abs first < 10 ^ 10 }
    requires stamp_low { pos 0 ≤ℤ stamp }
    requires stamp_high { unsigned_abs stamp < 10 ^ 10 }
    ensures { result ≡ is_time step unit first steps stamp }
{
    let shown = times(unit, stamp - first);
    let due = times(step, i64::from(steps));
    apart(shown, due) <= u128::from(unit.unsigned_abs())
}

// ---- raw values

/// A raw value that stands for a value has to come next.
pub(crate) fn walk_raw(fields: &mut Fields<'_>, scale: Scale, value: i64) -> Result<(), Differs>
    requires number { fields.old.number ≤ MOST_FIELDS }
    requires scale { IsScale scale }
    ensures walks { Walks result fields.old fields.new (raw_is scale value ∷ []) }
    ensures next { OnOk result (fields.new.number ≡ fields.old.number + 1) }
{
    let field = fields.take()?;
    fields.judge(raw_cause(field, scale, value))
}

fn raw_cause(field: &[u8], scale: Scale, value: i64) -> Option<DifferCause>
    requires { IsScale scale }
    ensures { result ≡ raw_is scale value field.now }
{
    match whole(field) {
        None => Some(DifferCause::NotNumber),
        Some(raw) => unless_wrong(stands_for(scale, value, raw)),
    }
}

fn stands_for(scale: Scale, value: i64, raw: i64) -> bool
    requires scale { IsScale scale }
    requires raw { unsigned_abs raw < 10 ^ 10 }
    ensures { result ≡ stands_for scale value raw }
{
    let shown = product(scale.a, i128::from(raw));
    let meant = product(i128::from(value), NANO);
    apart(shown + scale.b, meant) <= scale.a.unsigned_abs()
}

// ---- states

/// The state of a status has to come next.
pub(crate) fn walk_state(fields: &mut Fields<'_>, value: i64) -> Result<(), Differs>
    requires number { fields.old.number ≤ MOST_FIELDS }
    ensures walks { Walks result fields.old fields.new (state_is value ∷ []) }
    ensures next { OnOk result (fields.new.number ≡ fields.old.number + 1) }
{
    let field = fields.take()?;
    fields.judge(state_cause(field, value))
}

fn state_cause(field: &[u8], value: i64) -> Option<DifferCause>
    ensures { result ≡ state_is value field.now }
{
    if field == b"0".as_slice() || field == b"1".as_slice() {
        unless_wrong(field == state_text(value))
    } else {
        Some(DifferCause::NotNumber)
    }
}

fn state_text(value: i64) -> &'static [u8]
    ensures { result.now ≡ state_text value }
{
    if value.unsigned_abs() == 0 {
        b"0"
    } else {
        b"1"
    }
}
