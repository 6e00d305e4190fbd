//! The lines of a file that are compared, one after the other.
ghost use Rattle.std.specs.Prelude.{◌≡◌, false, ◌+◌, ◌<◌, ◌≤◌, [], ◌∷◌, Some, length, map, IfOk, IfErr, IfSome, OnOk, MatchOption};
ghost use Rattle.std.specs.List.{list_all};
ghost use Rattle.emtp_card.specs.Lines.{lines_of};
ghost use Rattle.emtp_audit.specs.held.Check.{rule_of};
ghost use Rattle.emtp_audit.specs.Rules.{LineRule, Fields, Anything, is_padding, audited_lines, differs_at};
ghost use Rattle.emtp_audit.specs.held.Walk.{LinesLeft, finds_lines, difference_in, Passes, StopsAt};
ghost use Rattle.emtp_audit.specs.declared.differs.DifferCause.TheVariants.{Missing};
ghost use Rattle.emtp_audit.specs.declared.limit.TheConstants.{MOST_BYTES, MOST_FIELDS};

use crate::check::{Check, judge_line};
use crate::differs::{DifferCause, Differs};
use emtp_card::next_line;
use std::marker::Model;

/// A walk over the lines of a configuration.
#[derive(Drop)]
pub(crate) struct Lines<'a> {
    taken: u32,
    rest: &'a [u8],
}

impl<'a> Model for Lines<'a> {
    ghost use Rattle.std.specs.Prelude.{◌+◌, ◌≤◌, length};
    ghost use Rattle.emtp_audit.specs.Rules.{audited_lines};
    ghost use Rattle.emtp_audit.specs.held.Walk.{LinesLeft};
    ghost use Rattle.emtp_audit.specs.declared.limit.TheConstants.{MOST_BYTES};

    ghost Value = { LinesLeft };

    ghost view = { λ l. record { taken = l.taken; lines = audited_lines l.rest.now } };

    ghost invariant = { λ l. l.taken + length l.rest.now ≤ MOST_BYTES };
}

impl<'a> Lines<'a> {
    /// Before the first line.
    pub fn of(bytes: &'a [u8]) -> Lines<'a>
        requires { length bytes.now ≤ MOST_BYTES }
        ensures { result ≡ record { taken = 0; lines = audited_lines bytes.now } }
    {
        Lines {
            taken: 0,
            rest: bytes,
        }
    }

    /// Takes the next line.
    pub fn take(&mut self) -> Result<&'a [u8], Differs>
        ensures ok { IfOk result (λ line. self.old.lines ≡ line.now ∷ self.new.lines) }
        ensures taken { OnOk result (self.new.taken ≡ self.old.taken + 1) }
        ensures none { IfErr result (λ differs. self.old.lines ≡ []) }
        ensures err { IfErr result (λ differs. Some differs ≡ differs_at false (self.old.taken + 1) 1 Missing) }
    {
        match next_audited(self.rest) {
            None => Err(Differs {
                dat: false,
                line: self.taken + 1,
                field: 1,
                cause: DifferCause::Missing,
            }),
            Some((line, tail)) => {
                self.taken += 1;
                self.rest = tail;
                Ok(line)
            }
        }
    }

    /// The number of the line that was taken last.
    pub fn number(&self) -> u32
        ensures { result ≡ self.now.taken }
    {
        self.taken
    }

    /// Whether no line is left.
    pub fn finish(self) -> Result<(), Differs>
        ensures { finds_lines self.entry [] ≡ difference_in result }
    {
        match next_audited(self.rest) {
            None => Ok(()),
            Some(_) => Err(Differs {
                dat: false,
                line: self.taken + 1,
                field: 1,
                cause: DifferCause::Extra,
            }),
        }
    }
}

/// A line has to come next, whatever it says.
pub(crate) fn walk_any(lines: &mut Lines<'_>) -> Result<(), Differs>
    ensures ok { OnOk result (Passes lines.old lines.new (Anything ∷ [])) }
    ensures err { IfErr result (StopsAt lines.old (Anything ∷ [])) }
{
    match lines.take() {
        Ok(_) => Ok(()),
        Err(differs) => Err(differs),
    }
}

/// A line that meets a table has to come next.
pub(crate) fn walk_line(lines: &mut Lines<'_>, checks: &[Check<'_>]) -> Result<(), Differs>
    requires { length checks.now < MOST_FIELDS }
    ensures ok { OnOk result (Passes lines.old lines.new (LineRule.Fields (map rule_of checks.now) ∷ [])) }
    ensures err { IfErr result (StopsAt lines.old (LineRule.Fields (map rule_of checks.now) ∷ [])) }
{
    match lines.take() {
        Ok(text) => judge_line(lines.number(), text, checks),
        Err(differs) => Err(differs),
    }
}

/// The first line of a text that is compared, and what stands after it; none where only padding is left.
pub(crate) fn next_audited(text: &[u8]) -> Option<(&[u8], &[u8])>
    ensures lines { MatchOption result (audited_lines text.now ≡ [])
        (λ found. audited_lines text.now ≡ found.0.now ∷ audited_lines found.1.now) }
    ensures short { IfSome result (λ found. length found.1.now < length text.now) }
{
    match next_line(text) {
        None => None,
        Some((line, tail)) => {
            if ends(line, tail) {
                None
            } else {
                Some((line, tail))
            }
        }
    }
}

/// Whether a line and all lines after it say nothing.
fn ends(line: &[u8], tail: &[u8]) -> bool
    ensures { result ≡ list_all is_padding (line.now ∷ lines_of tail.now) }
{
    is_padding(line) && are_padding(tail)
}

/// Whether all lines of a text say nothing.
fn are_padding(text: &[u8]) -> bool
    ensures { result ≡ list_all is_padding (lines_of text.now) }
{
    let mut rest = text;
    'lines: while let Some((line, tail)) = next_line(rest) {
        if !is_padding(line) {
            return false;
        }
        rest = tail;
    }
    true
}

/// Whether a line says nothing: it has blanks and end marks alone.
fn is_padding(line: &[u8]) -> bool
    ensures { result ≡ is_padding line.now }
{
    line.iter().all(|byte| *byte == b' ' || *byte == 0x1A)
}
