//! The table of what the fields of a line have to be.
ghost use Rattle.std.specs.Prelude.{◌≡◌, false, ◌+◌, ◌-◌, ◌≤◌, ◌<◌, [], ◌∷◌, length, map, slice_index_or, OnOk};
ghost use Rattle.std.specs.Char.{to_ascii_uppercase};
ghost use Rattle.emtp_audit.specs.Cfg.{letters_are, counts, is_read};
ghost use Rattle.emtp_audit.specs.held.Check.{rule_of};
ghost use Rattle.emtp_audit.specs.Numbers.{whole_of};
ghost use Rattle.emtp_audit.specs.Rules.{LineRule, Fields, line_differs};
ghost use Rattle.emtp_audit.specs.held.Walk.{Walks, Behind, difference_in};
ghost use Rattle.emtp_audit.specs.declared.limit.TheConstants.{MOST_FIELDS};

use crate::differs::{DifferCause, Differs};
use crate::fields::{Fields, number_cause, unless_wrong};
use crate::numbers::whole;

/// What a field has to be.
#[derive(Clone, Copy)]
pub(crate) enum Check<'a> {
    /// Anything.
    Any,
    /// This text.
    Text(&'a [u8]),
    /// This text, in capital or small letters.
    Letters(&'a [u8]),
    /// A whole number of this value.
    Number(u32),
    /// A whole number of this value, and this capital letter in either case behind it.
    Count(u8, u32),
    /// A whole number.
    Whole,
}

/// Compares a line of the configuration with a table.
pub(crate) fn judge_line(line: u32, text: &[u8], checks: &[Check<'_>]) -> Result<(), Differs>
    requires { length checks.now < MOST_FIELDS }
    ensures { line_differs false line (LineRule.Fields (map rule_of checks.now)) text.now ≡ difference_in result }
{
    let mut fields = Fields::of(false, line, text);
    match walk_checks(&mut fields, checks) {
        Ok(()) => fields.finish(),
        Err(differs) => Err(differs),
    }
}

/// Fields of a table have to come next.
pub(crate) fn walk_checks(fields: &mut Fields<'_>, checks: &[Check<'_>]) -> Result<(), Differs>
    requires { fields.old.number + length checks.now ≤ MOST_FIELDS }
    ensures walks { Walks result fields.old fields.new (map rule_of checks.now) }
    ensures next { OnOk result (fields.new.number ≡ fields.old.number + length checks.now) }
    ensures behind { OnOk result (Behind fields.old.fields (length checks.now) fields.new.fields) }
{
    for check in checks {
        match walk_check(fields, check) {
            Ok(()) => {}
            Err(differs) => return Err(differs),
        }
    }
    Ok(())
}

fn walk_check(fields: &mut Fields<'_>, check: &Check<'_>) -> Result<(), Differs>
    requires { fields.old.number ≤ MOST_FIELDS }
    ensures walks { Walks result fields.old fields.new (rule_of check.now ∷ []) }
    ensures next { OnOk result (fields.new.number ≡ fields.old.number + 1) }
    ensures behind { OnOk result (Behind fields.old.fields 1 fields.new.fields) }
{
    let field = fields.take()?;
    fields.judge(cause(check, field))
}

fn cause(check: &Check<'_>, field: &[u8]) -> Option<DifferCause>
    ensures { result ≡ rule_of check.now field.now }
{
    match check {
        Check::Any => None,
        Check::Text(text) => unless_wrong(field == *text),
        Check::Letters(text) => letters_cause(field, text),
        Check::Number(number) => number_cause(field, *number),
        Check::Count(letter, number) => count_cause(field, *letter, *number),
        Check::Whole => whole_cause(field),
    }
}

fn letters_cause(field: &[u8], text: &[u8]) -> Option<DifferCause>
    ensures { result ≡ letters_are text.now field.now }
{
    unless_wrong(field.eq_ignore_ascii_case(text))
}

fn whole_cause(field: &[u8]) -> Option<DifferCause>
    ensures { result ≡ is_read (whole_of field.now) }
{
    match whole(field) {
        Some(_) => None,
        None => Some(DifferCause::NotNumber),
    }
}

fn count_cause(field: &[u8], letter: u8, number: u32) -> Option<DifferCause>
    ensures { result ≡ counts letter number field.now }
{
    match whole(&field[..field.len().saturating_sub(1)]) {
        None => Some(DifferCause::NotNumber),
        Some(x) => unless_wrong(x == i64::from(number) && last_letter(field) == letter),
    }
}

/// The last byte, as a capital letter; 0 where there is none.
fn last_letter(field: &[u8]) -> u8
    ensures { result ≡ to_ascii_uppercase (slice_index_or field.now (length field.now - 1) 0) }
{
    match field.last() {
        Some(byte) => byte.to_ascii_uppercase(),
        None => 0,
    }
}
