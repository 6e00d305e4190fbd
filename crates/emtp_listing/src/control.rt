//! The lines of blocks.

ghost use Rattle.std.specs.Prelude.{◌≡◌, ◌+◌, ◌<◌, ◌≤◌, All, OnOk, codes, length, map};
ghost use Rattle.emtp_case.specs.held.Control.{IsBlock, IsBound};
ghost use Rattle.emtp_case.specs.held.Sizes.{sizes_of};
ghost use Rattle.emtp_case.specs.declared.control.Input.{Input};
ghost use Rattle.emtp_listing.specs.ControlLines.{block_entries, block_lines, bound_entry, input_entries, input_entry, polynomial_line, power_entry, input_sign};
ghost use Rattle.emtp_listing.specs.Lines.{all_separated, card_line, lines_text, numbered, separated};
ghost use Rattle.emtp_listing.specs.Puts.{Puts};

use crate::piece::{put_count, put_end, put_figure, put_head, put_variable, put_word};
use emtp_case::{Block, Bound, Input, Parts};
use emtp_text::{put, put_fixed, put_number};
use std::alloc::AllocError;

/// Puts the lines of a block, of its numerator and of its denominator after a text.
pub(crate) fn put_block(out: &mut Vec<u8>, parts: &Parts, block: &Block) -> Result<(), AllocError>
    requires { IsBlock parts.now.run (sizes_of parts.now) block.now }
    ensures { OnOk result (Puts out.old.items (lines_text (block_lines parts.now.vars block.now)) out.new.items) }
{
    put_block_card(out, parts, block)?;
    put_end(out)?;
    put_polynomial(out, b"numerator", &block.top)?;
    put_end(out)?;
    put_polynomial(out, b"denominator", &block.bottom)?;
    put_end(out)?;
    Ok(())
}

/// Puts the line of a block after a text.
fn put_block_card(out: &mut Vec<u8>, parts: &Parts, block: &Block) -> Result<(), AllocError>
    requires { IsBlock parts.now.run (sizes_of parts.now) block.now }
    ensures { OnOk result (Puts out.old.items
        (card_line block.now.line (codes "block") (block_entries parts.now.vars block.now)) out.new.items) }
{
    put_head(out, b"line", block.line)?;
    put_word(out, b"block")?;
    put_variable(out, b"NAME", parts, block.var)?;
    put_count(out, b"order", usize::from(block.order))?;
    put_figure(out, b"gain", 12, b"", &block.gain)?;
    put_bound(out, b"low limit", parts, &block.low)?;
    put_bound(out, b"high limit", parts, &block.high)?;
    put_inputs(out, parts, block.inputs.as_slice())?;
    Ok(())
}

/// Puts an entry with a limit after a text.
fn put_bound(out: &mut Vec<u8>, side: &[u8], parts: &Parts, bound: &Bound) -> Result<(), AllocError>
    requires { IsBound (sizes_of parts.now) bound.now }
    ensures { OnOk result (Puts out.old.items (separated (bound_entry side.now parts.now.vars bound.now)) out.new.items) }
{
    match bound {
        Bound::None => {
            put(out, b", no ")?;
            put(out, side)
        }
        Bound::Fixed(x) => {
            put(out, b", fixed ")?;
            put(out, side)?;
            put(out, b"=")?;
            put_fixed(out, *x, 9)
        }
        Bound::Named(v) => {
            put(out, b", variable ")?;
            put(out, side)?;
            put(out, b"=")?;
            put(out, parts.vars.as_slice()[*v as usize].as_slice())
        }
    }
}

/// Puts a count of inputs, and an entry for each, after a text.
pub(crate) fn put_inputs(
    out: &mut Vec<u8>,
    parts: &Parts,
    inputs: &[Input],
) -> Result<(), AllocError>
    requires { All (λ (i : Input). i.var < length parts.now.vars) inputs.now }
    ensures { OnOk result (Puts out.old.items (all_separated (input_entries parts.now.vars inputs.now)) out.new.items) }
{
    put_count(out, b"inputs", inputs.len())?;
    put_each_input(out, parts, inputs)?;
    Ok(())
}

/// Puts an entry for each input after a text.
fn put_each_input(out: &mut Vec<u8>, parts: &Parts, inputs: &[Input]) -> Result<(), AllocError>
    requires { All (λ (i : Input). i.var < length parts.now.vars) inputs.now }
    ensures { OnOk result (Puts out.old.items (all_separated (map (input_entry parts.now.vars) inputs.now)) out.new.items) }
{
    for input in inputs {
        put_input(out, parts, *input)?;
    }
    Ok(())
}

/// Puts an entry with an input after a text.
fn put_input(out: &mut Vec<u8>, parts: &Parts, input: Input) -> Result<(), AllocError>
    requires { input.var < length parts.now.vars }
    ensures { OnOk result (Puts out.old.items (separated (input_entry parts.now.vars input)) out.new.items) }
{
    put(out, b", input=")?;
    put(out, input_sign(input.minus))?;
    put(out, parts.vars.as_slice()[input.var as usize].as_slice())
}

fn input_sign(minus: bool) -> &'static [u8]
    ensures { result.now ≡ input_sign minus }
{
    if minus { b"-" } else { b"+" }
}

/// Puts a word and the coefficients of the powers of s after a text.
fn put_polynomial(out: &mut Vec<u8>, word: &[u8], card: &[i64; 8]) -> Result<(), AllocError>
    ensures { OnOk result (Puts out.old.items (polynomial_line word.now card.now) out.new.items) }
{
    put(out, word)?;
    put_powers(out, card)?;
    Ok(())
}

/// Puts the coefficients of the powers of s, from power 0 on, after a text.
fn put_powers(out: &mut Vec<u8>, card: &[i64]) -> Result<(), AllocError>
    requires { length card.now ≤ 8 }
    ensures { OnOk result (Puts out.old.items (all_separated (numbered power_entry 0 card.now)) out.new.items) }
{
    let mut power = 0u32;
    for coefficient in card {
        put_power(out, power, coefficient)?;
        power += 1;
    }
    Ok(())
}

/// Puts an entry with the coefficient of a power of s after a text.
fn put_power(out: &mut Vec<u8>, power: u32, coefficient: &i64) -> Result<(), AllocError>
    ensures { OnOk result (Puts out.old.items (separated (power_entry power coefficient.now)) out.new.items) }
{
    put(out, b", s^")?;
    put_number(out, power)?;
    put(out, b"=")?;
    put_fixed(out, *coefficient, 12)
}
