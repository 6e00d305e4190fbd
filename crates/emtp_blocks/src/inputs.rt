//! The inputs of a block, and its row.

ghost use Rattle.std.specs.Prelude.{◌≡◌, ◌^◌, ◌*◌, ◌≤◌, ◌<◌, ◌+ℤ◌, ℕ, ℤ, neg_ℤ, length, All, unsigned_abs, slice_set};
ghost use Rattle.std.specs.Option.{ForSome};
ghost use Rattle.emtp_case.specs.declared.control.Input.{Input};
ghost use Rattle.emtp_elim.specs.Matrix.{item};
ghost use Rattle.emtp_case.specs.Sums.{total};
ghost use Rattle.emtp_blocks.specs.held.BlockRows.{place_in};
ghost use Rattle.emtp_blocks.specs.System.{signed, outside_by, outside_sum, inside_by, input_sum, coupling_by, unit};
ghost use Rattle.emtp_fix.specs.declared.limit.TheConstants.{LARGEST_VALUE};

use emtp_case::Input;
use emtp_fix::PICO;

/// What the blocks take in at a step, in nano.
#[derive(Clone, Copy)]
pub(crate) struct StepValues<'a> {
    /// Each variable's value where it is computed before the blocks, else that of the last record.
    pub(crate) known: &'a [i64],
    /// The solved output of each block.
    pub(crate) solved: &'a [i64],
}

fn signed(input: &Input, z: i64) -> i64
    requires { unsigned_abs z ≤ LARGEST_VALUE }
    ensures value { result ≡ signed input.now z }
    ensures small { unsigned_abs result ≤ LARGEST_VALUE }
{
    if input.minus { -z } else { z }
}

fn negated(gain: i64) -> i64
    requires { unsigned_abs gain ≤ LARGEST_VALUE }
    ensures value { result ≡ neg_ℤ gain }
    ensures small { unsigned_abs result ≤ LARGEST_VALUE }
{
    -gain
}

/// What an input brings before the blocks are solved.
fn outside(known: &[i64], input: &Input, place: Option<usize>) -> i64
    requires there { input.now.var < length known.now }
    requires known { All (λ v. unsigned_abs v ≤ LARGEST_VALUE) known.now }
    ensures value { result ≡ outside_by known.now input.now place }
    ensures small { unsigned_abs result ≤ LARGEST_VALUE }
{
    match place {
        Some(_) => 0,
        None => signed(input, known[input.var as usize]),
    }
}

/// The sum of the inputs that aren't outputs of blocks, in nano.
pub(crate) fn outside_sum(places: &[Option<usize>], known: &[i64], inputs: &[Input]) -> i64
    requires few { length inputs.now ≤ 5 }
    requires places { length places.now ≡ length known.now }
    requires there { All (λ (i : Input). i.var < length known.now) inputs.now }
    requires known { All (λ v. unsigned_abs v ≤ LARGEST_VALUE) known.now }
    ensures value { result ≡ outside_sum (place_in places.now) known.now inputs.now }
    ensures small { unsigned_abs result ≤ 5 * LARGEST_VALUE }
{
    let mut sum = 0;
    for input in inputs {
        sum += outside(known, input, places[input.var as usize]);
    }
    sum
}

/// What an input of block `at` brings.
fn inside(values: &StepValues<'_>, at: usize, x: i64, input: &Input, place: Option<usize>) -> i64
    requires there { input.now.var < length values.now.known.now }
    requires known { All (λ v. unsigned_abs v ≤ LARGEST_VALUE) values.now.known.now }
    requires place { ForSome place (λ j. j < length values.now.solved.now) }
    requires solved { All (λ v. unsigned_abs v ≤ LARGEST_VALUE) values.now.solved.now }
    requires x { unsigned_abs x ≤ LARGEST_VALUE }
    ensures value { result ≡ inside_by values.now.known.now values.now.solved.now at x input.now place }
    ensures small { unsigned_abs result ≤ LARGEST_VALUE }
{
    match place {
        Some(j) => signed(input, if j == at { x } else { values.solved[j] }),
        None => signed(input, values.known[input.var as usize]),
    }
}

/// The sum of the inputs of block `at`, in nano.
pub(crate) fn input_sum(
    places: &[Option<usize>],
    values: &StepValues<'_>,
    at: usize,
    x: i64,
    inputs: &[Input],
) -> i64
    requires few { length inputs.now ≤ 5 }
    requires places { length places.now ≡ length values.now.known.now }
    requires blocks { All (λ p. ForSome p (λ j. j < length values.now.solved.now)) places.now }
    requires there { All (λ (i : Input). i.var < length values.now.known.now) inputs.now }
    requires known { All (λ v. unsigned_abs v ≤ LARGEST_VALUE) values.now.known.now }
    requires solved { All (λ v. unsigned_abs v ≤ LARGEST_VALUE) values.now.solved.now }
    requires x { unsigned_abs x ≤ LARGEST_VALUE }
    ensures value { result ≡ input_sum (place_in places.now) values.now.known.now values.now.solved.now at x inputs.now }
    ensures small { unsigned_abs result ≤ 5 * LARGEST_VALUE }
{
    let mut sum = 0;
    for input in inputs {
        sum += inside(values, at, x, input, places[input.var as usize]);
    }
    sum
}

/// Adds an amount to an entry of a row.
fn add_to(out: &mut [i128], at: usize, amount: i128)
    requires place { at < length out.old }
    requires entry { unsigned_abs (item out.old at) ≤ 10 ^ 26 }
    requires amount { unsigned_abs amount ≤ LARGEST_VALUE }
    ensures { out.new ≡ slice_set out.old at (item out.old at +ℤ amount) }
{
    out[at] += amount;
}

/// What an input brings into a row.
fn add_input(gain: i64, input: &Input, place: Option<usize>, out: &mut [i128])
    requires gain { unsigned_abs gain ≤ LARGEST_VALUE }
    requires place { ForSome place (λ j. j < length out.old) }
    requires entries { (j : ℕ) → unsigned_abs (item out.old j) ≤ 10 ^ 26 }
    ensures value { (j : ℕ) → j < length out.old
        → item out.new j ≡ item out.old j +ℤ coupling_by gain j input.now place }
{
    if let Some(j) = place {
        add_to(out, j, signed(input, negated(gain)) as i128);
    }
}

/// Adds what the inputs bring into the row of a free block.
pub(crate) fn add_inputs(places: &[Option<usize>], gain: i64, inputs: &[Input], out: &mut [i128])
    requires few { length inputs.now ≤ 5 }
    requires there { All (λ (i : Input). i.var < length places.now) inputs.now }
    requires blocks { All (λ p. ForSome p (λ j. j < length out.old)) places.now }
    requires gain { unsigned_abs gain ≤ LARGEST_VALUE }
    requires entries { (j : ℕ) → unsigned_abs (item out.old j) ≤ 10 ^ 12 }
    ensures { (j : ℕ) → j < length out.old
        → item out.new j ≡ item out.old j +ℤ total (λ n. coupling_by gain j n (place_in places.now n.var)) inputs.now }
{
    for input in inputs {
        add_input(gain, input, places[input.var as usize], out);
    }
}

/// Fills `out` with 1 in column `i` and 0 elsewhere.
pub(crate) fn fill_unit(i: usize, out: &mut [i128])
    requires row { i < length out.old }
    ensures value { (j : ℕ) → j < length out.old → item out.new j ≡ unit i j }
{
    out.fill(0);
    out[i] = PICO;
}
