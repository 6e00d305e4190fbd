//! The lines of a case.

ghost use Rattle.std.specs.Prelude.{◌≡◌, ◌+◌, ◌<◌, ◌≤◌, [], ◌∷◌, Some, None, length, take, count_by, slice_get, position, MatchOption, IfSome, IfOk, OnOk, IsTrue, ◌↔◌, List, ℕ, map};
ghost use Rattle.emtp_card.specs.Lines.{lines_of, is_newline};
ghost use Rattle.emtp_card.specs.held.Lines.{without_return, SplitsIntoLines};
ghost use Rattle.std.specs.Borrow.{Bor};
ghost use Rattle.emtp_card.specs.Cards.{lesser_line, line_past_bytes, size_fault, too_many_at};
ghost use Rattle.emtp_card.specs.held.Cards.{AreInSize};

use crate::lines::Line;
use crate::reason::{Bad, Refused, Why};
use std::alloc::Global;
use std::marker::Model;

/// The greatest number of lines of a case.
pub const MAX_LINES: usize = 100_000;

/// The greatest number of bytes of a case.
pub const MAX_BYTES: usize = 9_000_000;

/// The lines of a case, comments included, in order. The bytes stay where they are.
#[derive(Debug, Drop)]
pub struct Cards<'a> {
    lines: Vec<&'a [u8]>,
}

impl<'a> Model for Cards<'a> {
    ghost use Rattle.std.specs.Prelude.{List, ℕ, map};
    ghost use Rattle.emtp_card.specs.held.Cards.{AreInSize};
    ghost use Rattle.std.specs.Borrow.{Bor};

    ghost Value = { List (List ℕ) };

    ghost view = { λ cards. map (λ (line : Bor (List ℕ)). line.now) cards.lines.items };

    ghost invariant = { λ cards. AreInSize cards.lines.items };
}

impl<'a> Cards<'a> {
    /// The lines of these bytes. A case of more than 100,000 lines or 9,000,000 bytes is refused as
    /// `TooManyLines` in column 1 of the first line that is too far.
    ///
    /// The only other error is the want of memory.
    pub fn split(alloc: Global, bytes: &'a [u8]) -> Result<Cards<'a>, Refused>
        ensures lines { IfOk result (λ cards. cards ≡ lines_of bytes.now) }
        ensures pieces { SplitsIntoLines bytes.now }
        ensures fits { OnOk result (size_fault bytes.now ≡ None) }
        ensures bad { (bad : Bad) → result ≡ Err (Refused.Bad bad) → size_fault bytes.now ≡ Some bad }
    {
        let far = past_bytes(bytes);
        let mut lines = Vec::new(alloc);
        let mut rest = bytes;
        while let Some((line, tail)) = next_line(rest) {
            if lines.len() == MAX_LINES {
                let first = lesser(MAX_LINES as u32 + 1, far);
                return Err(Refused::Bad(too_many_lines(first)));
            }
            lines.push(line)?;
            rest = tail;
        }
        match far {
            Some(line) => Err(Refused::Bad(too_many_lines(line))),
            None => Ok(Cards { lines }),
        }
    }

    /// How many lines there are.
    pub fn len(&self) -> usize
        ensures length { result ≡ length self.now }
        ensures few { result ≤ MAX_LINES }
    {
        self.lines.len()
    }

    /// Whether there are no lines.
    pub fn is_empty(&self) -> bool
        ensures { IsTrue result ↔ (self.now ≡ []) }
    {
        self.lines.is_empty()
    }

    /// The bytes of all lines, in order.
    pub fn lines(&self) -> &[&'a [u8]]
        ensures value { map (λ (line : Bor (List ℕ)). line.now) result.now ≡ self.now }
        ensures size { AreInSize result.now }
    {
        &self.lines
    }

    /// The line at a place, counted from 0; its number is one more.
    pub fn line(&self, at: usize) -> Line<'_>
        requires { at < length self.now }
        ensures number { result.number ≡ at + 1 }
        ensures bytes { slice_get self.now at ≡ Some result.bytes.now }
        ensures short { length result.bytes.now ≤ MAX_BYTES }
    {
        let bytes = self.lines[at];
        Line {
            number: at as u32 + 1,
            bytes,
        }
    }
}

/// The first of a line and one that may be.
fn lesser(line: u32, other: Option<u32>) -> u32
    ensures { lesser_line (Some line) other ≡ Some result }
{
    match other {
        Some(other) => line.min(other),
        None => line,
    }
}

fn too_many_lines(line: u32) -> Bad
    ensures { result ≡ too_many_at line }
{
    Bad {
        line,
        column: 1,
        why: Why::TooManyLines,
    }
}

/// The line that holds the first byte past the limit, where there is one.
#[tactic(auto, unfolding(crate::specs::Cards::line_past_bytes))]
fn past_bytes(bytes: &[u8]) -> Option<u32>
    ensures { result ≡ line_past_bytes bytes.now }
{
    if bytes.len() > MAX_BYTES {
        Some(line_of_byte(bytes, MAX_BYTES))
    } else {
        None
    }
}

/// The number of the line that holds the byte at a place, counted from 0.
fn line_of_byte(bytes: &[u8], place: usize) -> u32
    requires within { place < length bytes.now }
    requires small { place ≤ MAX_BYTES }
    ensures { result ≡ count_by is_newline (take place bytes.now) + 1 }
{
    count_newlines(&bytes[..place]) as u32 + 1
}

fn count_newlines(bytes: &[u8]) -> usize
    ensures count { result ≡ count_by is_newline bytes.now }
    ensures within { result ≤ length bytes.now }
{
    bytes.iter().filter(|byte| **byte == b'\n').count()
}

/// The first line of a text and what comes after it; none where nothing is left.
///
/// A line ends with LF, and one CR just before it is dropped; a last piece without LF is a line as it stands. It
/// serves every text of lines, also one that [`Cards::split`] refuses for its length.
pub fn next_line(rest: &[u8]) -> Option<(&[u8], &[u8])>
    ensures lines { MatchOption result (lines_of rest.now ≡ [])
        (λ found. lines_of rest.now ≡ found.0.now ∷ lines_of found.1.now) }
    ensures short { IfSome result (λ found. (length found.0.now ≤ length rest.now) × (length found.1.now < length rest.now)) }
{
    match newline(rest) {
        Some(end) => Some((without_carriage_return(&rest[..end]), &rest[end + 1..])),
        None => {
            if rest.is_empty() {
                None
            } else {
                Some((rest, &rest[rest.len()..]))
            }
        }
    }
}

/// The place of the first LF.
fn newline(rest: &[u8]) -> Option<usize>
    ensures { result ≡ position is_newline rest.now }
{
    rest.iter().position(|byte| *byte == b'\n')
}

/// A line without the one CR at its end, if it has one.
fn without_carriage_return(line: &[u8]) -> &[u8]
    ensures value { result.now ≡ without_return line.now }
    ensures short { length result.now ≤ length line.now }
{
    match line {
        [before @ .., b'\r'] => before,
        _ => line,
    }
}
