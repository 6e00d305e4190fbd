//! Texts, their values, and the column of the first word that no expression goes on with.

ghost use Rattle.std.specs.Prelude.{◌≡◌, ◌≤◌, Some, length, unsigned_abs, IfOk, IfSome};
ghost use Rattle.emtp_fix.specs.declared.limit.TheConstants.{LARGEST_VALUE};
ghost use Rattle.emtp_expr.specs.Parsing.{expression_of};
ghost use Rattle.emtp_expr.specs.Value.{value};
ghost use Rattle.emtp_expr.specs.held.Value.{AreInRange};

use emtp_card::MAX_BYTES;
use emtp_expr::{ExprFault, eval, parse};
use emtp_fix::in_range;
use std::alloc::{AllocError, Global};

macro_rules! columns {
    ($($text:expr => $column:expr;)*) => {
        &[$(($text, $column)),*]
    };
}

/// A text and the column of its fault. The columns are those of an independent program.
const COLUMNS: &[(&str, Option<u32>)] = columns! {
    "" => Some(1); "   " => Some(1); "1 +" => Some(4); "1 + " => Some(4); "ABS1" => None; "ABS 1" => Some(5);
    "ABS(1)" => None; "A B" => Some(3); "ABCDEFG" => Some(7); "1.GT.2" => None; "1..GT.2" => None; "1.EQ.2" => None;
    "1.EQ 2" => Some(3); "1.E5" => None; "2E" => Some(2); "0E1234" => Some(6); "1E1234" => Some(1); "1e5" => Some(2);
    "A.GT.B.GT.C" => Some(7); "A*-B" => Some(3); "-A*B" => None; "--A" => Some(2); "A .GT. -B" => None;
    ".NOT..NOT..NOT..NOT..NOT..NOT..NOT..NOT..NOT..NOT..NOT..NOT..NOT..NOT..NOT..NOT.A" => None;
    ".NOT..NOT..NOT..NOT..NOT..NOT..NOT..NOT..NOT..NOT..NOT..NOT..NOT..NOT..NOT..NOT..NOT.A" => Some(81);
    "((((((((((((((((1))))))))))))))))" => None; "(((((((((((((((((1)))))))))))))))))" => Some(17);
    "((((((((((((((((ABS(1)))))))))))))))))" => Some(17); "(A" => Some(3); "(A))" => Some(4); "()" => Some(2);
    "A ? B" => Some(3); "? B" => Some(1); "A .XX. B" => Some(3); "1.5.5" => Some(4); "." => Some(1);
    "1000000000" => None; "1000000001" => Some(1); "A + .NOT. B" => Some(5); "SQRT" => Some(5); "A,B" => Some(2);
    "abs(1)" => Some(4); "TRUNC(1.5)+SIGN(-2)" => None; "A.AND..NOT.B" => None; " 1.0 +" => Some(7);
    "2.0*MID + 1.0" => None;
};

#[test]
fn the_first_word_that_nothing_goes_on_with(rt: HostRuntime) {
    for (text, column) in COLUMNS {
        let bytes = text.as_bytes();
        assert!(rt; bytes.len() < 100);
        assert_eq!(rt; column_of(rt.alloc(), bytes), *column, "{text}");
    }
}

fn column_of(alloc: Global, text: &[u8]) -> Option<u32>
    requires { length text.now ≤ MAX_BYTES }
{
    match parse(alloc, text) {
        Ok(_) => None,
        Err(ExprFault::Column(column)) => Some(column),
        Err(ExprFault::NoMemory) => Some(0),
    }
}

/// 1 in nano.
const UNIT: i64 = 1_000_000_000;

macro_rules! values {
    ($($text:expr, $values:expr => $value:expr;)*) => {
        &[$(($text, $values, $value)),*]
    };
}

/// A text, the values of its names in order of first appearance, and its value, all in nano. The values are those of an
/// independent program, and were worked out by hand.
const VALUES: &[(&str, &[i64], Option<i64>)] = values! {
    "2.0*MID + 1.0", &[50 * UNIT] => Some(101 * UNIT); "1.0 / ZERO", &[0] => None;
    "A-B-C", &[10 * UNIT, 3 * UNIT, 2 * UNIT] => Some(5 * UNIT);
    "A/B/C", &[8 * UNIT, 2 * UNIT, 2 * UNIT] => Some(2 * UNIT); "-A*B", &[3 * UNIT, 2 * UNIT] => Some(-6 * UNIT);
    "-A+B", &[3 * UNIT, 2 * UNIT] => Some(-UNIT); "(A+B)*C", &[UNIT, 2 * UNIT, 3 * UNIT] => Some(9 * UNIT);
    ".NOT.A.AND.B", &[UNIT, 0] => Some(0); ".NOT.A.OR.B", &[UNIT, UNIT] => Some(UNIT);
    "A.OR.B.AND.C", &[UNIT, 0, 0] => Some(UNIT); "A+B.GT.C", &[UNIT, 2 * UNIT, 2_500_000_000] => Some(UNIT);
    "A.GE.B", &[UNIT, UNIT] => Some(UNIT); "A.LT.B", &[UNIT, UNIT] => Some(0); "A.LE.B", &[UNIT, UNIT] => Some(UNIT);
    "A.EQ.B", &[UNIT, 1_000_000_001] => Some(0); "A.NE.B", &[UNIT, 1_000_000_001] => Some(UNIT);
    "A.AND.B", &[1, -1] => Some(0); "A*B", &[1, 500_000_000] => Some(1); "A*B", &[-1, 500_000_000] => Some(-1);
    "A*B", &[1, 499_999_999] => Some(0); "A/B", &[UNIT, 3 * UNIT] => Some(333_333_333);
    "A/B", &[2 * UNIT, 3 * UNIT] => Some(666_666_667); "TRUNC(A)", &[-1_500_000_000] => Some(-UNIT);
    "TRUNC(A)", &[1_999_999_999] => Some(UNIT); "SQRT(A)", &[2 * UNIT] => Some(1_414_213_562);
    "SQRT(A)", &[-1] => None; "ABS(A)", &[-3 * UNIT] => Some(3 * UNIT); "SIGN(A)", &[-5] => Some(-UNIT);
    "SIGN(A)", &[0] => Some(0); "A+B", &[1_000_000_000_000_000_000, 0] => Some(1_000_000_000_000_000_000);
    "A+B", &[1_000_000_000_000_000_000, 1] => None; "A-B", &[-1_000_000_000_000_000_000, 1] => None;
    "A*B", &[1_000_000_000_000_000_000, UNIT] => Some(1_000_000_000_000_000_000);
    "A*B", &[1_000_000_000_000_000_000, 1_000_000_001] => None;
    "A/B", &[1_000_000_000_000_000_000, 999_999_999] => None; "A.EQ.A", &[7] => Some(UNIT);
    "1.5E3", &[] => Some(1500 * UNIT); "1.5D-3", &[] => Some(1_500_000); ".5E-9", &[] => Some(1);
    ".4E-9", &[] => Some(0); "ABS1-ABS2", &[UNIT, 2 * UNIT] => Some(-UNIT);
    "ABS(A)-SQRT(B)", &[-UNIT, 4 * UNIT] => Some(-UNIT);
};

#[test]
fn the_value_of_a_text(rt: HostRuntime) {
    for (text, values, expected) in VALUES {
        let bytes = text.as_bytes();
        assert!(rt; bytes.len() < 100);
        let found = value_at(rt.alloc(), bytes, values).expect(&rt, "memory");
        assert_eq!(rt; found, *expected, "{text}");
    }
}

/// The value of a text at these values of its names.
fn value_at(alloc: Global, text: &[u8], values: &[i64]) -> Result<Option<i64>, AllocError>
    requires { length text.now ≤ MAX_BYTES }
{
    let values = in_range_copy(alloc, values)?;
    let found = value_of(alloc, text, values.as_slice());
    drop(values);
    Ok(found)
}

/// The value of a text at values of its names; none where there are more or fewer names, where the text is no expression
/// or where its value is out of range.
fn value_of(alloc: Global, text: &[u8], values: &[i64]) -> Option<i64>
    requires text { length text.now ≤ MAX_BYTES }
    requires values { AreInRange values.now }
    ensures { IfSome result (λ x. IfOk (expression_of text.now) (λ parsed. value values.now parsed.nodes ≡ Some x)) }
{
    match parse(alloc, text) {
        Ok(parsed) if parsed.names.len() == values.len() => {
            match eval(parsed.nodes.as_slice(), values) {
                Ok(value) => Some(value),
                Err(_) => None,
            }
        }
        Ok(_) => None,
        Err(_) => None,
    }
}

/// The values, each held to its range.
fn in_range_copy(alloc: Global, values: &[i64]) -> Result<Vec<i64>, AllocError>
    ensures { IfOk result (λ copy. AreInRange copy.items) }
{
    let mut copy = Vec::new(alloc);
    for value in values {
        copy.push(held(*value))?;
    }
    Ok(copy)
}

fn held(value: i64) -> i64
    ensures { unsigned_abs result ≤ LARGEST_VALUE }
{
    match in_range(value as i128) {
        Some(value) => value,
        None => 0,
    }
}
