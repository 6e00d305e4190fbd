//! The faults of one card: each field and each rule over fields may give one, and the least counts.
//!
//! A card reader is a table: an array with one entry a field or rule, alike in the code and in its definition, and
//! [`least`] of it. So no reader keeps an order of columns, and a rule is silent where one of its fields is refused.

ghost use Rattle.std.specs.Prelude.{◌≡◌, ◌≤◌, length, option_map, IfSome};
ghost use Rattle.emtp_card.specs.Fault.{bad_at, comes_before, in_column, judge, least, lesser};
ghost use Rattle.emtp_card.specs.held.Fault.{IsLeastOf, fault_at, judge_due};

use crate::cards::MAX_BYTES;
use crate::lines::{Line, ends_section, line_fault};
use crate::reason::{Bad, Why};

/// A fault of a card: its column, counted from 1, and the reason.
#[derive(Clone, Copy, Debug, PartialEq, Eq)]
pub struct Fault {
    /// The column, counted from 1: the first one of a field.
    pub column: u32,
    /// The reason.
    pub why: Why,
}

impl Fault {
    /// Whether it counts before another: by the lesser column, and there by the lesser number of the reason.
    pub fn comes_before(&self, other: &Fault) -> bool
        ensures { result ≡ comes_before self.now other.now }
    {
        self.column < other.column
            || self.column == other.column && self.why.number() < other.why.number()
    }

    /// The refusal of the card on a line.
    pub fn on_line(&self, line: u32) -> Bad
        ensures { result ≡ bad_at line self.now }
    {
        Bad {
            line,
            column: self.column,
            why: self.why,
        }
    }
}

/// A field that begins in this column.
pub fn in_column<T: Copy>(column: u32, field: Result<T, Why>) -> Result<T, Fault>
    ensures { result ≡ in_column column field }
{
    match field {
        Ok(value) => Ok(value),
        Err(why) => Err(Fault { column, why }),
    }
}

/// The fault of what was read in a field, or by a rule, that begins in this column; none where it was read well.
pub fn fault_at<T: Copy>(column: u32, read: &Result<T, Why>) -> Option<Fault>
    ensures { result ≡ fault_at column read.now }
{
    match read {
        Ok(_) => None,
        Err(why) => Some(Fault { column, why: *why }),
    }
}

/// The least of the faults that are there: it is one of them, and none comes before it.
pub fn least(faults: &[Option<Fault>]) -> Option<Fault>
    ensures value { result ≡ least faults.now }
    ensures first { IfSome result (IsLeastOf faults.now) }
{
    fold(faults)
}

#[tactic(auto, unfolding(crate::specs::Fault::least))]
fn fold(faults: &[Option<Fault>]) -> Option<Fault>
    ensures { result ≡ least faults.now }
{
    faults
        .iter()
        .fold(None, |found, fault| lesser(found, *fault))
}

fn lesser(a: Option<Fault>, b: Option<Fault>) -> Option<Fault>
    ensures { result ≡ lesser a b }
{
    match (a, b) {
        (None, b) => b,
        (Some(a), None) => Some(a),
        (Some(a), Some(b)) => Some(if b.comes_before(&a) { b } else { a }),
    }
}

/// What refuses a card, given the least fault of its fields and rules: a fault of its bytes decides first.
pub fn judge(line: &Line<'_>, fields: Option<Fault>) -> Option<Bad>
    requires { length line.now.bytes.now ≤ MAX_BYTES }
    ensures { result ≡ judge line.now.number line.now.bytes.now fields }
{
    match line_fault(line.bytes) {
        Some((column, why)) => Some(Fault { column, why }.on_line(line.number)),
        None => on_line(line.number, fields),
    }
}

/// What refuses a card that is due whatever the line: the bytes of a line that would end a section aren't judged.
pub fn judge_due(line: &Line<'_>, fields: Option<Fault>) -> Option<Bad>
    requires { length line.now.bytes.now ≤ MAX_BYTES }
    ensures { result ≡ judge_due line.now.number line.now.bytes.now fields }
{
    if ends_section(line.bytes) {
        on_line(line.number, fields)
    } else {
        judge(line, fields)
    }
}

fn on_line(line: u32, fields: Option<Fault>) -> Option<Bad>
    ensures { result ≡ option_map (bad_at line) fields }
{
    match fields {
        Some(fault) => Some(fault.on_line(line)),
        None => None,
    }
}
