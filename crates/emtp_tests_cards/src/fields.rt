use emtp_card::*;

const E12: i64 = 1_000_000_000_000;

const E15: i64 = 1_000_000_000_000_000;

const E18: i64 = 1_000_000_000_000_000_000;

/// A branch card with a resistance of 1 ohm and an inductance of 2.5 mH, and the card of the time step.
const BRANCH: &str = "  SRC   MID                  1.0  2.5";

const RUN: &str = "   1.E-4   3.E-4";

/// What a reader of numbers answers.
type Read = Result<Option<i64>, Why>;

macro_rules! rows {
    ($($($given:expr),* => $($read:expr),*;)*) => {
        &[$(($($given),*, $($read),*)),*]
    };
}

/// A line, the columns of a field, its scale and range; the field as a number, and held to its range.
const NUMBERS: &[(&str, (usize, usize), i32, (i64, i64), Read, Read)] = rows! {
    BRANCH, (27, 32), 6, (0, E15) => Ok(Some(1_000_000)), Ok(Some(1_000_000));
    BRANCH, (33, 38), 6, (0, E15) => Ok(Some(2_500_000)), Ok(Some(2_500_000));
    BRANCH, (39, 44), 9, (0, E15) => Ok(None), Ok(None);
    BRANCH, (1, 2), 0, (0, 9) => Ok(None), Ok(None);
    BRANCH, (27, 38), 0, (0, 9) => Err(Why::NotANumber), Err(Why::NotANumber);
    BRANCH, (33, 80), 0, (3, 9) => Ok(Some(3)), Ok(Some(3));
    RUN, (1, 8), 12, (1_000, E12) => Ok(Some(100_000_000)), Ok(Some(100_000_000));
    RUN, (9, 16), 12, (1, E18) => Ok(Some(300_000_000)), Ok(Some(300_000_000));
    RUN, (17, 24), 0, (0, 0) => Ok(None), Ok(None);
    "      .4", (1, 8), 0, (0, 0) => Ok(Some(0)), Ok(Some(0));
    "      .5", (1, 8), 0, (0, 0) => Err(Why::OutOfUnitRange), Ok(Some(0));
    "     -.5", (1, 8), 0, (0, 0) => Err(Why::OutOfUnitRange), Ok(Some(0));
    "12345678", (8, 8), 0, (0, 9) => Ok(Some(8)), Ok(Some(8));
    "12345678", (1, 1), 0, (0, 9) => Ok(Some(1)), Ok(Some(1));
    "12345678", (3, 6), 0, (0, 3_455) => Err(Why::OutOfUnitRange), Ok(Some(3_455));
    "12345678", (3, 6), 0, (0, 3_456) => Ok(Some(3_456)), Ok(Some(3_456));
    "-1.E9     ", (1, 10), 9, (-E18, E18) => Ok(Some(-E18)), Ok(Some(-E18));
    "-1.E10    ", (1, 10), 9, (-E18, E18) => Err(Why::OutOfUnitRange), Ok(Some(-E18));
    "1.E10     ", (1, 10), 9, (-E18, E18) => Err(Why::OutOfUnitRange), Ok(Some(E18));
    "1.E99     ", (1, 10), 9, (-E18, E18) => Err(Why::OutOfUnitRange), Ok(Some(E18));
    "-1.E999   ", (1, 10), 9, (-E18, E18) => Err(Why::OutOfUnitRange), Ok(Some(-E18));
    "1.E9      ", (1, 10), 9, (-E18, 999_999_999_999_999_999) => Err(Why::OutOfUnitRange), Ok(Some(999_999_999_999_999_999));
    "-9        ", (1, 10), 12, (0, E18) => Err(Why::OutOfUnitRange), Ok(Some(0));
    "-.4       ", (1, 10), 0, (0, E18) => Ok(Some(0)), Ok(Some(0));
    "1 2", (1, 3), 0, (0, 99) => Err(Why::NotANumber), Err(Why::NotANumber);
    "x", (1, 1), 0, (0, 9) => Err(Why::NotANumber), Err(Why::NotANumber);
    "", (1, 80), 18, (-9, 9) => Ok(None), Ok(None);
    "                                                                               7", (80, 80), 0, (0, 3) => Err(Why::OutOfUnitRange), Ok(Some(3));
    "                                                                               3", (80, 80), 0, (0, 3) => Ok(Some(3)), Ok(Some(3));
    "99999999999999999999999999999999999999999999999999999999999999999999999999999999", (1, 80), 0, (0, i64::MAX) => Err(Why::OutOfUnitRange), Ok(Some(9_223_372_036_854_775_807));
    "00000000000000000000000000000000000000000000000000000000000000000000000000000009", (1, 80), 0, (i64::MIN, i64::MAX) => Ok(Some(9)), Ok(Some(9));
    "9223372036854775807", (1, 19), 0, (i64::MIN, i64::MAX) => Ok(Some(9_223_372_036_854_775_807)), Ok(Some(9_223_372_036_854_775_807));
    "9223372036854775808", (1, 19), 0, (i64::MIN, i64::MAX) => Err(Why::OutOfUnitRange), Ok(Some(9_223_372_036_854_775_807));
    "-9223372036854775808", (1, 20), 0, (i64::MIN, i64::MAX) => Ok(Some(-9_223_372_036_854_775_808)), Ok(Some(-9_223_372_036_854_775_808));
    "-9223372036854775809", (1, 20), 0, (i64::MIN, i64::MAX) => Err(Why::OutOfUnitRange), Ok(Some(-9_223_372_036_854_775_808));
};

/// A line, and the whole number in its columns 1 to 80.
const WHOLES: &[(&str, Read)] = rows! {
    "" => Ok(None); " " => Ok(None); "0" => Ok(Some(0)); " 0" => Ok(Some(0)); "00" => Ok(Some(0));
    "+0" => Ok(Some(0)); "-0" => Ok(Some(0)); "11" => Ok(Some(11)); "-1" => Ok(Some(-1)); "-2 " => Ok(Some(-2));
    " 60" => Ok(Some(60)); "1." => Err(Why::NotWhole); "1.0" => Err(Why::NotWhole); "1E1" => Err(Why::NotWhole);
    "+" => Err(Why::NotWhole); " -" => Err(Why::NotWhole); "- 1" => Err(Why::NotWhole); "1 1" => Err(Why::NotWhole);
    "1x" => Err(Why::NotWhole); "x" => Err(Why::NotWhole); "1000000000" => Ok(Some(1_000_000_000));
    "-1000000000" => Ok(Some(-1_000_000_000)); "1000000001" => Err(Why::OutOfUnitRange);
    "-1000000001" => Err(Why::OutOfUnitRange);
    "00000000000000000000000000000000000000000000000000000000001" => Ok(Some(1));
    "99999999999999999999999999999999999999999999999999" => Err(Why::OutOfUnitRange);
};

/// A line, the first column of a name, and that name.
const NAMES: &[(&str, usize, Result<Option<&str>, Why>)] = rows! {
    "  SRC   MID", 3 => Ok(Some("SRC")); "  SRC   MID", 9 => Ok(Some("MID")); "  SRC   MID", 15 => Ok(None);
    "  A B   ", 3 => Ok(Some("A B")); "A,B   ", 1 => Err(Why::BadName); "     ,", 1 => Err(Why::BadName);
    "      ,", 1 => Ok(None); ",", 1 => Err(Why::BadName); "abcdefgh", 1 => Ok(Some("abcdef"));
    "abcdefgh", 3 => Ok(Some("cdefgh")); "abcdefgh", 8 => Ok(Some("h")); " x  y ", 1 => Ok(Some("x  y"));
    "  ABCDEF", 3 => Ok(Some("ABCDEF"));
    "                                                                          NODE1", 75 => Ok(Some("NODE1"));
    "                                                                          NODE1,", 75 => Err(Why::BadName);
    "                                                                          NODE1 ,", 75 => Ok(Some("NODE1"));
};

/// Whether a field is read so as a number, and so where it is held to its range.
fn is_read(
    bytes: &[u8],
    (first, last): (usize, usize),
    scale: i32,
    (low, high): (i64, i64),
    number: &Read,
    held: &Read,
) -> bool {
    if first < 1 || last < first || 80 < last || scale < 0 || 18 < scale || high < low {
        return false;
    }
    field_number(bytes, first, last, scale, low, high) == *number
        && field_held(bytes, first, last, scale, low, high) == *held
}

#[test]
fn reads_number_fields(rt: HostRuntime) {
    for (line, columns, scale, range, number, held) in NUMBERS {
        let is = is_read(line.as_bytes(), *columns, *scale, *range, number, held);
        assert!(rt; is, "at {} of {line}", columns.0);
    }
}

#[test]
fn reads_whole_number_fields(rt: HostRuntime) {
    for (line, value) in WHOLES {
        let is = field_whole(line.as_bytes(), 1, 80) == *value;
        assert!(rt; is, "at {line}");
    }
}

/// Whether the name that begins in a column is this.
fn is_name(line: &[u8], first: usize, name: &Result<Option<&str>, Why>) -> bool {
    if first < 1 || 75 < first {
        return false;
    }
    match (&field_name(line, first), name) {
        (Ok(Some(read)), Ok(Some(name))) => read.as_slice() == name.as_bytes(),
        (Ok(None), Ok(None)) => true,
        (Err(read), Err(why)) => *read == *why,
        _ => false,
    }
}

#[test]
fn reads_name_fields(rt: HostRuntime) {
    for (line, first, name) in NAMES {
        let is = is_name(line.as_bytes(), *first, name);
        assert!(rt; is, "at {first} of {line}");
    }
}
