//! The fields of a line, one after the other.
ghost use Rattle.std.specs.Prelude.{◌≡◌, ◌+◌, ◌<◌, ◌≤◌, [], ◌∷◌, ℕ, pos, Ok, Err, Result, MatchOption, IfOk, IfErr, OnOk, position, Some, None};
ghost use Rattle.emtp_card.specs.Name.{is_comma};
ghost use Rattle.emtp_audit.specs.Rules.{comma_fields, differs_at, number_is, unless_wrong};
ghost use Rattle.emtp_audit.specs.held.Walk.{Walked, Walks, TakesField, JudgesField, finds, difference_in};
ghost use Rattle.emtp_audit.specs.declared.limit.TheConstants.{MOST_FIELDS};

use crate::differs::{DifferCause, Differs};
use crate::numbers::whole;
use emtp_card::trim;
use std::marker::Model;

/// A walk over the fields of a line.
#[derive(Drop)]
pub(crate) struct Fields<'a> {
    dat: bool,
    line: u32,
    taken: u32,
    ended: bool,
    text: &'a [u8],
}

impl<'a> Model for Fields<'a> {
    ghost use Rattle.std.specs.Prelude.{◌+◌, [], if◌then◌else◌};
    ghost use Rattle.emtp_audit.specs.Rules.{comma_fields};
    ghost use Rattle.emtp_audit.specs.held.Walk.{Walked};

    ghost Value = { Walked };

    ghost view = { λ f. record {
      dat = f.dat;
      line = f.line;
      number = f.taken + 1;
      fields = if f.ended then [] else comma_fields f.text.now;
    } };
}

impl<'a> Fields<'a> {
    /// Before the first field of a line, of the data or else of the configuration.
    pub fn of(dat: bool, line: u32, text: &'a [u8]) -> Fields<'a>
        ensures { result ≡ record { dat = dat; line = line; number = 1; fields = comma_fields text.now } }
    {
        Fields {
            dat,
            line,
            taken: 0,
            ended: false,
            text,
        }
    }

    /// Takes the next field, without its outer blanks.
    pub fn take(&mut self) -> Result<&'a [u8], Differs>
        requires { self.old.number ≤ MOST_FIELDS }
        ensures ok { IfOk result (λ field. TakesField (Ok field.now) self.old self.new) }
        ensures err { IfErr result (λ differs. TakesField (Err differs) self.old self.new) }
    {
        if self.ended {
            return Err(Differs {
                dat: self.dat,
                line: self.line,
                field: self.taken + 1,
                cause: DifferCause::Missing,
            });
        }
        let (field, rest) = first_field(self.text);
        self.taken += 1;
        match rest {
            Some(rest) => self.text = rest,
            None => self.ended = true,
        }
        Ok(field)
    }

    /// Whether no field is left.
    pub fn finish(mut self) -> Result<(), Differs>
        requires { self.number ≤ MOST_FIELDS }
        ensures { finds self.entry [] ≡ difference_in result }
    {
        match self.take() {
            Ok(_) => Err(self.differs(DifferCause::Extra)),
            Err(_) => Ok(()),
        }
    }

    /// The difference in the field that was taken last, if there is one.
    pub fn judge(&self, cause: Option<DifferCause>) -> Result<(), Differs>
        ensures { JudgesField result self.now cause }
    {
        match cause {
            None => Ok(()),
            Some(cause) => Err(self.differs(cause)),
        }
    }

    /// The difference of a cause in the field that was taken last.
    pub fn differs(&self, cause: DifferCause) -> Differs
        ensures { (at : ℕ) → self.now.number ≡ at + 1
            → Some result ≡ differs_at self.now.dat self.now.line at cause }
    {
        Differs {
            dat: self.dat,
            line: self.line,
            field: self.taken,
            cause,
        }
    }
}

/// A number with this value, however it is spelled, has to come next.
pub(crate) fn walk_number(fields: &mut Fields<'_>, number: u32) -> Result<(), Differs>
    requires { fields.old.number ≤ MOST_FIELDS }
    ensures walks { Walks result fields.old fields.new (number_is (pos number) ∷ []) }
    ensures next { OnOk result (fields.new.number ≡ fields.old.number + 1) }
{
    let field = fields.take()?;
    fields.judge(number_cause(field, number))
}

pub(crate) fn number_cause(field: &[u8], number: u32) -> Option<DifferCause>
    ensures { result ≡ number_is (pos number) field.now }
{
    match whole(field) {
        None => Some(DifferCause::NotNumber),
        Some(x) => unless_wrong(x == i64::from(number)),
    }
}

pub(crate) fn unless_wrong(right: bool) -> Option<DifferCause>
    ensures { result ≡ unless_wrong right }
{
    if right {
        None
    } else {
        Some(DifferCause::Wrong)
    }
}

/// The first field of a text, without its outer blanks, and what stands after the comma behind it.
fn first_field(text: &[u8]) -> (&[u8], Option<&[u8]>)
    ensures { MatchOption result.1 (comma_fields text.now ≡ result.0.now ∷ [])
        (λ rest. comma_fields text.now ≡ result.0.now ∷ comma_fields rest.now) }
{
    match comma(text) {
        Some(end) => (trim(&text[..end]), Some(&text[end + 1..])),
        None => (trim(text), None),
    }
}

/// The place of the first comma.
fn comma(text: &[u8]) -> Option<usize>
    ensures { result ≡ position is_comma text.now }
{
    text.iter().position(|byte| *byte == b',')
}
