//! Fields that hold names.

ghost use Rattle.std.specs.Prelude.{◌≡◌, ◌+◌, ◌≤◌, ◌↔◌, Ok, None, IfOk, IfSome};
ghost use Rattle.std.specs.List.{list_any};
ghost use Rattle.emtp_case.specs.held.Name.{IsName};
ghost use Rattle.emtp_card.specs.Field.{columns};
ghost use Rattle.emtp_card.specs.held.Field.{IsBlank};
ghost use Rattle.emtp_card.specs.Lines.{fault_of_line};
ghost use Rattle.emtp_card.specs.Name.{is_comma, name_field};

use crate::field::{columns, field_text};
use crate::reason::Why;
use emtp_case::Name;

/// The name in the six columns from `first` on, counted from 1: their bytes without the outer
/// blanks. Inner blanks belong to the name, and small and capital letters differ. It is none exactly
/// where these columns are blank.
///
/// `BadName` comes where a comma is among them. On a line without a fault of its bytes it is a name of a case.
#[tactic(auto, unfolding(crate::specs::Name::name_field))]
pub fn field_name(line: &[u8], first: usize) -> Result<Option<Name>, Why>
    requires low { 1 ≤ first }
    requires high { first ≤ 75 }
    ensures value { result ≡ name_field line.now first }
    ensures blank { (result ≡ Ok None) ↔ IsBlank (columns line.now first (first + 5)) }
    ensures name { fault_of_line line.now ≡ None → IfOk result (λ field. IfSome field IsName) }
{
    if has_comma(line, first) {
        return Err(Why::BadName);
    }
    let text = field_text(line, first, first + 5);
    if text.is_empty() {
        Ok(None)
    } else {
        Ok(Some(Name::new(text)))
    }
}

/// Whether a comma is among the six columns from `first` on.
fn has_comma(line: &[u8], first: usize) -> bool
    requires low { 1 ≤ first }
    requires high { first ≤ 75 }
    ensures { result ≡ list_any is_comma (columns line.now first (first + 5)) }
{
    any_comma(columns(line, first, first + 5))
}

fn any_comma(text: &[u8]) -> bool
    ensures { result ≡ list_any is_comma text.now }
{
    text.contains(&b',')
}
