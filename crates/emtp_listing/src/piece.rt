//! The entries of a line, each put after a text.

ghost use Rattle.std.specs.Prelude.{◌≡◌, ◌+◌, ◌<◌, ◌≤◌, ◌∷◌, [], OnOk, length};
ghost use Rattle.std.specs.Option.{ForSome};
ghost use Rattle.emtp_listing.specs.Entry.{choice_entry, count_entry, figure_entry, limited_entry, node_entry, node_word, number_entry, place_entry, time_entry, variable_entry, word_entry};
ghost use Rattle.emtp_listing.specs.Lines.{head_text, separated};
ghost use Rattle.emtp_listing.specs.Puts.{Puts};

use emtp_case::Parts;
use emtp_text::{put, put_fixed, put_number};
use std::alloc::AllocError;

/// Puts a word and a number after a text.
pub(crate) fn put_head(out: &mut Vec<u8>, word: &[u8], number: u32) -> Result<(), AllocError>
    ensures { OnOk result (Puts out.old.items (head_text word.now number) out.new.items) }
{
    put(out, word)?;
    put(out, b" ")?;
    put_number(out, number)
}

/// Puts the end of a line after a text.
pub(crate) fn put_end(out: &mut Vec<u8>) -> Result<(), AllocError>
    ensures { OnOk result (Puts out.old.items (10 ∷ []) out.new.items) }
{
    put(out, b"\n")
}

/// Puts an entry after a text that is a word alone.
pub(crate) fn put_word(out: &mut Vec<u8>, word: &[u8]) -> Result<(), AllocError>
    ensures { OnOk result (Puts out.old.items (separated word.now) out.new.items) }
{
    put(out, b", ")?;
    put(out, word)
}

/// Puts an entry with a word after a text.
pub(crate) fn put_named(out: &mut Vec<u8>, name: &[u8], word: &[u8]) -> Result<(), AllocError>
    ensures { OnOk result (Puts out.old.items (separated (word_entry name.now word.now)) out.new.items) }
{
    put(out, b", ")?;
    put(out, name)?;
    put(out, b"=")?;
    put(out, word)
}

/// Puts an entry with a number in parts of 10^-places after a text; the tail is empty, or a blank and a unit.
pub(crate) fn put_figure(
    out: &mut Vec<u8>,
    name: &[u8],
    places: usize,
    tail: &[u8],
    value: &i64,
) -> Result<(), AllocError>
    requires { places ≤ 18 }
    ensures { OnOk result (Puts out.old.items (separated (figure_entry name.now places tail.now value.now)) out.new.items) }
{
    put(out, b", ")?;
    put(out, name)?;
    put(out, b"=")?;
    put_fixed(out, *value, places)?;
    put(out, tail)
}

/// Puts an entry with a number in parts of 10^-places and its unit after a text.
pub(crate) fn put_quantity(
    out: &mut Vec<u8>,
    name: &[u8],
    places: usize,
    unit: &[u8],
    value: &i64,
) -> Result<(), AllocError>
    requires { places ≤ 18 }
    ensures { OnOk result (Puts out.old.items (separated (number_entry name.now places unit.now value.now)) out.new.items) }
{
    put_figure(out, name, places, b" ", value)?;
    put(out, unit)
}

/// Puts an entry with a time, or none, after a text.
pub(crate) fn put_time(out: &mut Vec<u8>, name: &[u8], time: &Option<i64>) -> Result<(), AllocError>
    ensures { OnOk result (Puts out.old.items (separated (time_entry name.now time.now)) out.new.items) }
{
    match time {
        None => put_named(out, name, b"never"),
        Some(time) => put_quantity(out, name, 12, b"s", time),
    }
}

/// Puts an entry with a count after a text.
pub(crate) fn put_count(out: &mut Vec<u8>, name: &[u8], count: usize) -> Result<(), AllocError>
    ensures { OnOk result (Puts out.old.items (separated (count_entry name.now count)) out.new.items) }
{
    put(out, b", ")?;
    put(out, name)?;
    put(out, b"=")?;
    put_number(out, count)
}

/// Puts an entry with a count and its limit after a text.
pub(crate) fn put_limited(
    out: &mut Vec<u8>,
    name: &[u8],
    limit: usize,
    count: usize,
) -> Result<(), AllocError>
    ensures { OnOk result (Puts out.old.items (separated (limited_entry name.now limit count)) out.new.items) }
{
    put_count(out, name, count)?;
    put(out, b" of ")?;
    put_number(out, limit)
}

/// Puts an entry with a place in a list, counted from 1, after a text.
pub(crate) fn put_place(out: &mut Vec<u8>, name: &[u8], place: u32) -> Result<(), AllocError>
    ensures { OnOk result (Puts out.old.items (separated (place_entry name.now place)) out.new.items) }
{
    put_count(out, name, place as usize + 1)
}

/// Puts an entry with a node after a text.
pub(crate) fn put_node(
    out: &mut Vec<u8>,
    name: &[u8],
    parts: &Parts,
    node: u32,
) -> Result<(), AllocError>
    requires { node ≤ length parts.now.nodes }
    ensures { OnOk result (Puts out.old.items (separated (node_entry name.now parts.now.nodes node)) out.new.items) }
{
    put_named(out, name, node_word(parts, node))
}

/// The name of a node, or the word for ground.
fn node_word(parts: &Parts, node: u32) -> &[u8]
    requires { node ≤ length parts.now.nodes }
    ensures { result.now ≡ node_word parts.now.nodes node }
{
    if node == 0 {
        b"(ground)"
    } else {
        parts.nodes.as_slice()[node as usize - 1].as_slice()
    }
}

/// Puts an entry with a variable of the control after a text.
pub(crate) fn put_variable(
    out: &mut Vec<u8>,
    name: &[u8],
    parts: &Parts,
    var: u32,
) -> Result<(), AllocError>
    requires { var < length parts.now.vars }
    ensures { OnOk result (Puts out.old.items (separated (variable_entry name.now parts.now.vars var)) out.new.items) }
{
    put_named(out, name, parts.vars.as_slice()[var as usize].as_slice())
}

/// Puts an entry with a variable of the control, or a word for none, after a text.
pub(crate) fn put_choice(
    out: &mut Vec<u8>,
    name: &[u8],
    absent: &[u8],
    parts: &Parts,
    choice: Option<u32>,
) -> Result<(), AllocError>
    requires { ForSome choice (λ v. v < length parts.now.vars) }
    ensures { OnOk result (Puts out.old.items (separated (choice_entry name.now absent.now parts.now.vars choice))
        out.new.items) }
{
    match choice {
        None => put_named(out, name, absent),
        Some(var) => put_variable(out, name, parts, var),
    }
}
