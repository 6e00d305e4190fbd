//! The signed inputs of a block or a device.

ghost use Rattle.std.specs.Prelude.{◌≡◌, ◌≤◌};
ghost use Rattle.emtp_taccards.specs.Inputs.{four_inputs, input, inputs, is_minus, minus_field, signed_name};

use emtp_card::{Fault, Why, byte_at, field_name, in_column};
use emtp_case::Name;
use emtp_netcards::both;

/// An input: whether it is a minus, and its name.
type Input = Option<(bool, Name)>;

/// The five inputs, each whether it is a minus, and its name.
#[tactic(auto, unfolding(crate::specs::Inputs::inputs))]
pub(crate) fn inputs(line: &[u8]) -> Result<[Option<(bool, Name)>; 5], Fault>
    ensures { result ≡ inputs line.now }
{
    let (((a, b), (c, d)), e) = both(four_inputs(line), input(line, 43))?;
    Ok([a, b, c, d, e])
}

/// The first four inputs.
#[tactic(auto, unfolding(crate::specs::Inputs::four_inputs))]
fn four_inputs(line: &[u8]) -> Result<((Input, Input), (Input, Input)), Fault>
    ensures { result ≡ four_inputs line.now }
{
    both(
        both(input(line, 11), input(line, 19)),
        both(input(line, 27), input(line, 35)),
    )
}

/// The input whose sign stands in this column; a sign is judged also where its name is blank.
#[tactic(auto, unfolding(crate::specs::Inputs::input))]
fn input(line: &[u8], column: u32) -> Result<Input, Fault>
    requires low { 1 ≤ column }
    requires high { column ≤ 43 }
    ensures { result ≡ input line.now column }
{
    let sign = in_column(column, minus(line, column as usize));
    let name = in_column(column + 1, field_name(line, column as usize + 1));
    let (minus, name) = both(sign, name)?;
    Ok(signed_name(minus, name))
}

/// An input without a name is none.
fn signed_name(minus: bool, name: Option<Name>) -> Input
    ensures { result ≡ signed_name minus name }
{
    match name {
        Some(name) => Some((minus, name)),
        None => None,
    }
}

/// Whether the sign in a column is a minus.
fn minus(line: &[u8], column: usize) -> Result<bool, Why>
    requires { 1 ≤ column }
    ensures { result ≡ minus_field line.now column }
{
    is_minus(byte_at(line, column))
}

fn is_minus(byte: u8) -> Result<bool, Why>
    ensures { result ≡ is_minus byte }
{
    match byte {
        b' ' | b'+' => Ok(false),
        b'-' => Ok(true),
        _ => Err(Why::BadType),
    }
}
