//! Output cards of the control.

ghost use Rattle.std.specs.Prelude.{◌≡◌, ◌≤◌, length};
ghost use Rattle.emtp_taccards.specs.TacsOutputCard.{fields_of, no_mark_field, tacs_output_card};

use emtp_card::{Bad, Fault, Line, MAX_BYTES, Why, field_whole, in_column};
use emtp_case::Name;
use emtp_netcards::{both, card_on, name_list};

/// Reads an output card of the control: 13 names of variables, of which blank ones are skipped. No mark asks for all.
///
/// A refusal is the fault of the line's bytes, else the least fault of its fields.
#[tactic(auto, unfolding(crate::specs::TacsOutputCard::tacs_output_card))]
pub fn tacs_outputs(line: Line<'_>) -> Result<[Option<Name>; 13], Bad>
    requires { length line.bytes.now ≤ MAX_BYTES }
    ensures { result ≡ tacs_output_card line.entry.number line.entry.bytes.now }
{
    card_on(&line, fields(line.bytes))
}

#[tactic(auto, unfolding(crate::specs::TacsOutputCard::fields_of))]
fn fields(line: &[u8]) -> Result<[Option<Name>; 13], Fault>
    ensures { result ≡ fields_of line.now }
{
    let ((), names) = both(in_column(1, no_mark(line)), name_list(line))?;
    Ok(names)
}

fn no_mark(line: &[u8]) -> Result<(), Why>
    ensures { result ≡ no_mark_field line.now }
{
    match field_whole(line, 1, 2) {
        Ok(None) | Ok(Some(0)) => Ok(()),
        Ok(Some(_)) | Err(_) => Err(Why::BadType),
    }
}
