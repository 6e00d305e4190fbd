//! What a device reads of the variables.

ghost use Rattle.std.specs.Prelude.{◌≡◌, ◌≤◌, ◌<◌, All, fold, length, map, pos, slice_index_or, unsigned_abs};
ghost use Rattle.std.specs.Option.{ForSome};
ghost use Rattle.emtp_case.specs.declared.control.Input.{Input};
ghost use Rattle.emtp_devices.specs.Device.{brought, brought_sum, extreme, extreme_of_two, is_positive, named_value};
ghost use Rattle.emtp_fix.specs.declared.limit.TheConstants.{LARGEST_VALUE};

use crate::output::extreme_of_two;
use emtp_case::Input;

/// What an input brings, in nano.
pub(crate) fn brought(values: &[i64], input: &Input) -> i64
    requires there { input.now.var < length values.now }
    requires values { All (λ v. unsigned_abs v ≤ LARGEST_VALUE) values.now }
    ensures value { result ≡ brought values.now input.now }
    ensures small { unsigned_abs result ≤ LARGEST_VALUE }
{
    let value = values[input.var as usize];
    if input.minus { -value } else { value }
}

/// The sum of what the inputs bring, in nano.
pub(crate) fn brought_sum(values: &[i64], inputs: &[Input]) -> i64
    requires few { length inputs.now ≤ 5 }
    requires there { All (λ (i : Input). i.var < length values.now) inputs.now }
    requires values { All (λ v. unsigned_abs v ≤ LARGEST_VALUE) values.now }
    ensures { result ≡ brought_sum values.now inputs.now }
{
    let mut sum = 0;
    for input in inputs {
        sum += brought(values, input);
    }
    sum
}

/// The value of a name, in nano; 0 where there is none.
pub(crate) fn named_value(values: &[i64], name: Option<u32>) -> i64
    requires there { ForSome name (λ v. v < length values.now) }
    requires values { All (λ v. unsigned_abs v ≤ LARGEST_VALUE) values.now }
    ensures value { result ≡ named_value values.now name }
    ensures small { unsigned_abs result ≤ LARGEST_VALUE }
{
    match name {
        Some(var) => values[var as usize],
        None => 0,
    }
}

/// Whether the value of a name is above 0; `unnamed` where there is none.
pub(crate) fn is_positive(unnamed: bool, values: &[i64], name: Option<u32>) -> bool
    requires { ForSome name (λ v. v < length values.now) }
    ensures { result ≡ is_positive unnamed values.now name }
{
    match name {
        Some(var) => values[var as usize] > 0,
        None => unnamed,
    }
}

/// What the input at a place brings, in nano; 0 where there is none.
pub(crate) fn brought_at(values: &[i64], inputs: &[Input], at: usize) -> i64
    requires there { All (λ (i : Input). i.var < length values.now) inputs.now }
    requires values { All (λ v. unsigned_abs v ≤ LARGEST_VALUE) values.now }
    ensures { result ≡ slice_index_or (map (brought values.now) inputs.now) at (pos 0) }
{
    match inputs.get(at) {
        Some(input) => brought(values, input),
        None => 0,
    }
}

/// The greatest or least of what the inputs bring, in nano; 0 where there are none.
pub(crate) fn extreme(a: i64, values: &[i64], inputs: &[Input]) -> i64
    requires there { All (λ (i : Input). i.var < length values.now) inputs.now }
    requires values { All (λ v. unsigned_abs v ≤ LARGEST_VALUE) values.now }
    ensures { result ≡ extreme a values.now inputs.now }
{
    if inputs.is_empty() {
        0
    } else {
        extreme_from(a, values, brought(values, &inputs[0]), &inputs[1..])
    }
}

fn extreme_from(a: i64, values: &[i64], first: i64, inputs: &[Input]) -> i64
    requires there { All (λ (i : Input). i.var < length values.now) inputs.now }
    requires values { All (λ v. unsigned_abs v ≤ LARGEST_VALUE) values.now }
    ensures { result ≡ fold (λ z i. extreme_of_two a z (brought values.now i)) first inputs.now }
{
    let mut found = first;
    for input in inputs {
        found = extreme_of_two(a, found, brought(values, input));
    }
    found
}
