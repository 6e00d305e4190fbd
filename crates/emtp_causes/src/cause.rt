//! The cause of a refusal, in words.

ghost use Rattle.std.specs.Prelude.{◌≡◌, ◌++◌, ◌≤◌, OnOk};
ghost use Rattle.emtp_card.specs.Field.{byte_in};
ghost use Rattle.emtp_causes.specs.Cause.{byte_text, card_cause, cause, cause_text, first_cause, has_byte, has_comma, has_equals, hex_digit, is_mark, number_cause, number_width, odd_byte, extra_cause, place_cause, point_cause, reason, sign_cause, type_cause, types_of};
ghost use Rattle.emtp_causes.specs.Slip.{slip};

use crate::slip::slip;
use crate::texts::{
    A_COMMA, A_TAB, ALLOWED_BYTES, BAD_END_TIME, BAD_EXPRESSION, BAD_IMPEDANCE, BAD_NAME,
    BAD_ORDER, BAD_POINTS, BAD_STEP, BAD_TYPE, BRANCH_TYPES, BYTE_ORDER_MARK, BYTE_OUTSIDE,
    DEVICE_CODES, END_MARK_OF_DOS, FIRST_CARD, FORMULA_PLACE, MISSING_SECTION, NO_END_TIME,
    NOT_A_NUMBER, NOT_WHOLE, OTHER_UNITS, OUT_OF_RANGE, OUTPUT_MARKS, PAST_COLUMN_80,
    POINTS_WITHOUT_END, SHORT_LINE, SIGNS, SOURCE_TYPES, SUPPLEMENTAL_TYPES, SWITCH_TYPES,
    SWITCH_WORDS, TACS_OUTPUT_MARKS, TACS_SOURCE_TYPES, THE_BYTE, TOO_MANY, TOO_MANY_LINES,
    TOO_MANY_SAMPLES, TWO_SOURCES, UNKNOWN_NAME, VINTAGE_ENDS,
};
use emtp_card::{Why, columns, ends_section, field_text};
use emtp_text::put;
use emtp_walk::Kind;
use std::alloc::AllocError;

/// Puts after a text the cause for which the line of a number is refused at a column.
pub(crate) fn put_cause(
    out: &mut Vec<u8>,
    number: u32,
    line: &[u8],
    kind: Kind,
    column: u32,
    why: Why,
) -> Result<(), AllocError>
    ensures { OnOk result (out.new.items ≡ out.old.items ++ cause_text number line.now kind column why) }
{
    match why {
        Why::ByteOutside => put_byte(out, number, column, byte_of(line, column)),
        Why::PastColumn80 => put(out, reason(why)),
        _ => put_meant(out, line, kind, column, why),
    }
}

/// Puts what the line was meant as, or why its card is refused.
fn put_meant(
    out: &mut Vec<u8>,
    line: &[u8],
    kind: Kind,
    column: u32,
    why: Why,
) -> Result<(), AllocError>
    ensures { OnOk result (out.new.items ≡ out.old.items ++ card_cause (slip line.now) line.now kind column why) }
{
    let meant = slip(line);
    if meant.is_empty() {
        put(out, cause(line, kind, column, why))
    } else {
        put(out, meant)
    }
}

// ---- bytes

/// The byte in a column; a column past the line's end is blank.
fn byte_of(line: &[u8], column: u32) -> u8
    ensures { result ≡ byte_in line.now column }
{
    match line.get(column.saturating_sub(1) as usize) {
        Some(byte) => *byte,
        None => b' ',
    }
}

fn put_byte(out: &mut Vec<u8>, number: u32, column: u32, byte: u8) -> Result<(), AllocError>
    ensures { OnOk result (out.new.items ≡ out.old.items ++ byte_text number column byte) }
{
    if byte == 9 {
        put(out, A_TAB)
    } else if byte == 0x1A {
        put(out, END_MARK_OF_DOS)
    } else if is_mark(number, column, byte) {
        put(out, BYTE_ORDER_MARK)
    } else {
        put_odd_byte(out, byte)
    }
}

/// Whether a byte in front of a file begins a byte-order mark, of UTF-8 or of UTF-16.
fn is_mark(number: u32, column: u32, byte: u8) -> bool
    ensures { result ≡ is_mark number column byte }
{
    number == 1 && column == 1 && (byte == 0xEF || byte == 0xFE || byte == 0xFF)
}

#[tactic(auto, unfolding(crate::specs::Cause::odd_byte))]
fn put_odd_byte(out: &mut Vec<u8>, byte: u8) -> Result<(), AllocError>
    ensures { OnOk result (out.new.items ≡ out.old.items ++ odd_byte byte) }
{
    put(out, THE_BYTE)?;
    put(out, &[hex_digit(byte / 16), hex_digit(byte % 16)])?;
    put(out, ALLOWED_BYTES)
}

/// The digit of a number below 16.
fn hex_digit(number: u8) -> u8
    requires { number ≤ 15 }
    ensures { result ≡ hex_digit number }
{
    if number < 10 {
        48 + number
    } else {
        87 + number
    }
}

// ---- cards

/// Why a card is refused.
fn cause(line: &[u8], kind: Kind, column: u32, why: Why) -> &'static [u8]
    ensures { result.now ≡ cause line.now kind column why }
{
    match why {
        Why::NotANumber => number_cause(line, kind, column, why),
        Why::NotWhole => number_cause(line, kind, column, why),
        Why::BadPoints => point_cause(line, kind, column, why),
        Why::OutOfUnitRange => first_cause(line, kind, column),
        Why::BadType => type_cause(line, kind, column),
        _ => place_cause(kind, column, why),
    }
}

/// Of a field that is no number.
fn number_cause(line: &[u8], kind: Kind, column: u32, why: Why) -> &'static [u8]
    ensures { result.now ≡ number_cause line.now kind column why }
{
    if has_comma(line, column, number_width(kind)) {
        A_COMMA
    } else {
        point_cause(line, kind, column, why)
    }
}

/// Whether a comma stands in the columns of a number's field.
fn has_comma(line: &[u8], column: u32, width: usize) -> bool
    requires wide { 1 ≤ width }
    requires narrow { width ≤ 16 }
    ensures { result ≡ has_comma line.now column width }
{
    let first = (column as usize).max(1);
    has_byte(columns(line, first, first + width - 1), b',')
}

/// Whether a text has a byte.
fn has_byte(text: &[u8], wanted: u8) -> bool
    ensures { result ≡ has_byte text.now wanted }
{
    text.iter().filter(|byte| **byte == wanted).count() != 0
}

/// How many columns the field of a number has at least on a card of a kind.
fn number_width(kind: Kind) -> usize
    ensures value { result ≡ number_width kind }
    ensures some { 1 ≤ result }
    ensures few { result ≤ 16 }
{
    match kind {
        Kind::Point(_) => 16,
        Kind::Coefficients(_) | Kind::TacsSource | Kind::Switch | Kind::Source => 10,
        Kind::Tolerance | Kind::FirstRun | Kind::SecondRun => 8,
        _ => 6,
    }
}

/// Of a line among points.
fn point_cause(line: &[u8], kind: Kind, column: u32, why: Why) -> &'static [u8]
    ensures { result.now ≡ point_cause line.now kind column why }
{
    match kind {
        Kind::Point(_) => {
            if column == 1 && ends_section(line) {
                POINTS_WITHOUT_END
            } else {
                reason(why)
            }
        }
        _ => reason(why),
    }
}

/// Of a number out of its range, above all on the first miscellaneous card.
fn first_cause(line: &[u8], kind: Kind, column: u32) -> &'static [u8]
    ensures { result.now ≡ first_cause line.now kind column }
{
    match kind {
        Kind::FirstRun => {
            if column == 1 {
                BAD_STEP
            } else if column == 9 {
                if field_text(line, 9, 16).is_empty() {
                    NO_END_TIME
                } else {
                    BAD_END_TIME
                }
            } else {
                OTHER_UNITS
            }
        }
        _ => reason(Why::OutOfUnitRange),
    }
}

/// Of a type, a code, a mark or a sign that isn't known.
fn type_cause(line: &[u8], kind: Kind, column: u32) -> &'static [u8]
    ensures { result.now ≡ type_cause line.now kind column }
{
    if column == 1 {
        types_of(kind)
    } else {
        sign_cause(line, kind, column)
    }
}

/// Which types, or marks, a card may have in its first columns.
fn types_of(kind: Kind) -> &'static [u8]
    ensures { result.now ≡ types_of kind }
{
    match kind {
        Kind::Branch(_) => BRANCH_TYPES,
        Kind::Switch => SWITCH_TYPES,
        Kind::Source => SOURCE_TYPES,
        Kind::TacsSource => TACS_SOURCE_TYPES,
        Kind::Extra => SUPPLEMENTAL_TYPES,
        Kind::Output => OUTPUT_MARKS,
        Kind::TacsOutput => TACS_OUTPUT_MARKS,
        _ => reason(Why::BadType),
    }
}

/// What is wrong behind the first columns.
fn sign_cause(line: &[u8], kind: Kind, column: u32) -> &'static [u8]
    ensures { result.now ≡ sign_cause line.now kind column }
{
    match kind {
        Kind::Vintage => VINTAGE_ENDS,
        Kind::Block => SIGNS,
        Kind::Extra => extra_cause(line, column),
        _ => reason(Why::BadType),
    }
}

/// Of a supplemental card.
fn extra_cause(line: &[u8], column: u32) -> &'static [u8]
    ensures { result.now ≡ extra_cause line.now column }
{
    if has_equals(line) {
        FORMULA_PLACE
    } else if column == 9 {
        DEVICE_CODES
    } else {
        SIGNS
    }
}

/// Whether an `=` stands behind the name.
fn has_equals(line: &[u8]) -> bool
    ensures { result ≡ has_equals line.now }
{
    has_byte(columns(line, 9, 80), b'=')
}

/// Of a card, a word or a name that can't stand here.
fn place_cause(kind: Kind, column: u32, why: Why) -> &'static [u8]
    ensures { result.now ≡ place_cause kind column why }
{
    match (kind, why) {
        (Kind::Begin, Why::BadOrder) => FIRST_CARD,
        (Kind::Switch, Why::BadName) => {
            if column == 55 {
                SWITCH_WORDS
            } else {
                reason(why)
            }
        }
        (Kind::Extra, Why::BadExpression) => {
            if column == 11 {
                FORMULA_PLACE
            } else {
                reason(why)
            }
        }
        _ => reason(why),
    }
}

/// The reason in words.
fn reason(why: Why) -> &'static [u8]
    ensures { result.now ≡ reason why }
{
    match why {
        Why::ByteOutside => BYTE_OUTSIDE,
        Why::PastColumn80 => PAST_COLUMN_80,
        Why::NotANumber => NOT_A_NUMBER,
        Why::NotWhole => NOT_WHOLE,
        Why::OutOfUnitRange => OUT_OF_RANGE,
        Why::TooManyLines => TOO_MANY_LINES,
        Why::BadType => BAD_TYPE,
        Why::BadName => BAD_NAME,
        Why::BadImpedance => BAD_IMPEDANCE,
        Why::ShortLine => SHORT_LINE,
        Why::BadPoints => BAD_POINTS,
        Why::BadOrder => BAD_ORDER,
        Why::UnknownName => UNKNOWN_NAME,
        Why::TwoSources => TWO_SOURCES,
        Why::TooMany => TOO_MANY,
        Why::MissingSection => MISSING_SECTION,
        Why::TooManySamples => TOO_MANY_SAMPLES,
        Why::BadExpression => BAD_EXPRESSION,
    }
}
