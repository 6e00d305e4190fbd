//! The values of operators and functions, in nano: 1 is 10^9.

ghost use Rattle.std.specs.Prelude.{◌≡◌, ◌≤◌, ◌+ℤ◌, ◌-ℤ◌, ◌*ℤ◌, pos, unsigned_abs, IfSome};
ghost use Rattle.std.specs.Ordering.{int_eq};
ghost use Rattle.emtp_fix.specs.Limit.{in_range};
ghost use Rattle.emtp_fix.specs.Rounding.{near};
ghost use Rattle.emtp_fix.specs.declared.limit.TheConstants.{LARGEST_VALUE, NANO};
ghost use Rattle.emtp_expr.specs.Value.{binary, divided, signum, square_root, truth, unary, whole};

use emtp_case::{BinaryOp, UnaryOp};
use emtp_fix::{NANO, in_range, isqrt, scaled};

const ONE: i64 = NANO as i64;

fn truth(holds: bool) -> i64
    ensures value { result ≡ truth holds }
    ensures small { unsigned_abs result ≤ LARGEST_VALUE }
{
    if holds { ONE } else { 0 }
}

fn square_root(x: i64) -> Option<i64>
    requires { unsigned_abs x ≤ LARGEST_VALUE }
    ensures value { result ≡ square_root x }
    ensures small { IfSome result (λ y. unsigned_abs y ≤ LARGEST_VALUE) }
{
    if x < 0 {
        return None;
    }
    in_range(isqrt(x as i128 * NANO))
}

/// A value without its decimals.
fn whole(x: i64) -> i64
    requires { unsigned_abs x ≤ LARGEST_VALUE }
    ensures value { result ≡ whole x }
    ensures small { unsigned_abs result ≤ LARGEST_VALUE }
{
    x / ONE * ONE
}

fn signum(x: i64) -> i64
    ensures value { result ≡ signum x }
    ensures small { unsigned_abs result ≤ LARGEST_VALUE }
{
    if x > 0 {
        ONE
    } else if x < 0 {
        -ONE
    } else {
        0
    }
}

/// The value of a function, or of an operator of one value.
#[tactic(auto, unfolding(crate::specs::Value::unary))]
pub(crate) fn unary(op: UnaryOp, x: i64) -> Option<i64>
    requires { unsigned_abs x ≤ LARGEST_VALUE }
    ensures value { result ≡ unary op x }
    ensures small { IfSome result (λ y. unsigned_abs y ≤ LARGEST_VALUE) }
{
    match op {
        UnaryOp::Minus => Some(-x),
        UnaryOp::Not => Some(truth(x <= 0)),
        UnaryOp::Abs => Some(x.abs()),
        UnaryOp::Sqrt => square_root(x),
        UnaryOp::Trunc => Some(whole(x)),
        UnaryOp::Sign => Some(signum(x)),
    }
}

fn sum(a: i64, b: i64) -> Option<i64>
    ensures value { result ≡ in_range (a +ℤ b) }
    ensures small { IfSome result (λ y. unsigned_abs y ≤ LARGEST_VALUE) }
{
    in_range(a as i128 + b as i128)
}

fn difference(a: i64, b: i64) -> Option<i64>
    ensures value { result ≡ in_range (a -ℤ b) }
    ensures small { IfSome result (λ y. unsigned_abs y ≤ LARGEST_VALUE) }
{
    in_range(a as i128 - b as i128)
}

fn product(a: i64, b: i64) -> Option<i64>
    requires a { unsigned_abs a ≤ LARGEST_VALUE }
    requires b { unsigned_abs b ≤ LARGEST_VALUE }
    ensures value { result ≡ in_range (near (a *ℤ b) NANO) }
    ensures small { IfSome result (λ y. unsigned_abs y ≤ LARGEST_VALUE) }
{
    in_range(scaled(a as i128, b as i128, NANO))
}

fn is_zero(x: i64) -> bool
    ensures { result ≡ int_eq x (pos 0) }
{
    x == 0
}

fn divided(a: i64, b: i64) -> Option<i64>
    requires a { unsigned_abs a ≤ LARGEST_VALUE }
    ensures value { result ≡ divided a b }
    ensures small { IfSome result (λ y. unsigned_abs y ≤ LARGEST_VALUE) }
{
    if is_zero(b) {
        return None;
    }
    in_range(scaled(a as i128, NANO, b as i128))
}

/// The value of an operator between two values.
#[tactic(auto, unfolding(crate::specs::Value::binary))]
pub(crate) fn binary(op: BinaryOp, a: i64, b: i64) -> Option<i64>
    requires a { unsigned_abs a ≤ LARGEST_VALUE }
    requires b { unsigned_abs b ≤ LARGEST_VALUE }
    ensures value { result ≡ binary op a b }
    ensures small { IfSome result (λ y. unsigned_abs y ≤ LARGEST_VALUE) }
{
    match op {
        BinaryOp::Add => sum(a, b),
        BinaryOp::Sub => difference(a, b),
        BinaryOp::Mul => product(a, b),
        BinaryOp::Div => divided(a, b),
        BinaryOp::Gt => Some(truth(a > b)),
        BinaryOp::Ge => Some(truth(a >= b)),
        BinaryOp::Lt => Some(truth(a < b)),
        BinaryOp::Le => Some(truth(a <= b)),
        BinaryOp::Eq => Some(truth(a == b)),
        BinaryOp::Ne => Some(truth(a != b)),
        BinaryOp::And => Some(truth(a > 0 && b > 0)),
        BinaryOp::Or => Some(truth(a > 0 || b > 0)),
    }
}
