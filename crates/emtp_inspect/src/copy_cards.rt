//! Which card each card copies that takes the values of another.

ghost use Rattle.emtp_case.specs.declared.limit.TheConstants.{MOST_NODES};
ghost use Rattle.std.specs.Prelude.{◌≡◌, ◌++◌, ◌≤◌, ◌<◌, IfSome, OnOk, length, position};
ghost use Rattle.std.specs.Str.{bytes_eq};
ghost use Rattle.emtp_deck.specs.Copies.{earlier_of, type_of_kind};
ghost use Rattle.emtp_inspect.specs.CopyCards.{copied_line, copies_text, copy_text, line_of_values};
ghost use Rattle.emtp_inspect.specs.EachCard.{branch_in};
ghost use Rattle.emtp_sense.specs.Names.{node_number};

use crate::each_card::{Shown, branch_in};
use emtp_card::{Line, MAX_BYTES};
use emtp_case::{Case, MOST_NODES, Name};
use emtp_deck::first_of_kind;
use emtp_netcards::{BranchKind, BranchValues};
use emtp_text::{put, put_number};
use emtp_walk::{Kind, read_at};
use std::alloc::AllocError;

/// Puts a line after a text for each card of a case that copies.
pub(crate) fn put_copies(out: &mut Vec<u8>, shown: Shown<'_>) -> Result<(), AllocError>
    ensures { OnOk result (out.new.items ≡ out.old.items
        ++ copies_text shown.entry.readings.now shown.entry.cards.now shown.entry.case.now.parts) }
{
    for at in 0..shown.cards.len().min(shown.readings.len()) {
        let line = shown.cards.line(at);
        let read = read_at(shown.readings, at);
        let copied = copied_line(shown.case, &line, read.kind);
        put_copy(out, line.number, copied)?;
    }
    Ok(())
}

#[tactic(auto, unfolding(crate::specs::CopyCards::copy_line))]
fn put_copy(out: &mut Vec<u8>, number: u32, copied: Option<u32>) -> Result<(), AllocError>
    ensures { OnOk result (out.new.items ≡ out.old.items ++ copy_text number copied) }
{
    let Some(copied) = copied else {
        return Ok(());
    };
    put(out, b"line ")?;
    put_number(out, number)?;
    put(out, b", copies line=")?;
    put_number(out, copied)?;
    put(out, b"\n")
}

/// The line of the card that the card of a line copies, if it copies one.
fn copied_line(case: &Case, line: &Line<'_>, kind: Kind) -> Option<u32>
    requires { length line.now.bytes.now ≤ MAX_BYTES }
    ensures { result ≡ copied_line case.now.parts (branch_in case.now.parts.run.dt line.now.number line.now.bytes.now kind) }
{
    match branch_in(case, line, kind)?.values {
        BranchValues::Copied { kind, from, to } => first_line(case, kind, &from, &to),
        _ => None,
    }
}

/// The line of the first branch of a kind between two nodes.
fn first_line(case: &Case, kind: BranchKind, from: &Option<Name>, to: &Option<Name>) -> Option<u32>
    ensures { result ≡ line_of_values
        (earlier_of case.now.parts.nodes case.now.parts.branches (type_of_kind kind) from.now to.now) }
{
    let names = case.parts.nodes.as_slice();
    let from = node_number(names, from);
    let to = node_number(names, to);
    match first_of_kind(case.parts.branches.as_slice(), kind, from, to) {
        Some(branch) => Some(branch.line()),
        None => None,
    }
}

/// The number of an end: 0 where it is ground, and one more than there are where no node has its name.
fn node_number(names: &[Name], name: &Option<Name>) -> u32
    requires { length names.now ≤ MOST_NODES }
    ensures { result ≡ node_number names.now name.now }
{
    match name {
        Some(name) => place_of(names, name).unwrap_or(names.len()) as u32 + 1,
        None => 0,
    }
}

/// The first place of a name.
fn place_of(names: &[Name], name: &Name) -> Option<usize>
    ensures value { result ≡ position (bytes_eq name.now) names.now }
    ensures within { IfSome result (λ at. at < length names.now) }
{
    names.iter().position(|other| name == other)
}
