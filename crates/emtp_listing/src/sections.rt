//! The listing of a case, section by section.

ghost use Rattle.std.specs.Prelude.{◌≡◌, ◌≤◌, ◌∷◌, [], IfOk, OnOk, length, map};
ghost use Rattle.emtp_case.specs.held.Case.{IsCase};
ghost use Rattle.emtp_listing.specs.ControlLines.{block_lines, extra_lines, tacs_source_line};
ghost use Rattle.emtp_listing.specs.Lines.{grouped, lines_text, numbered};
ghost use Rattle.emtp_listing.specs.Listing.{case_line, control_part, listing, name_line, network_lines, record_line, run_line};
ghost use Rattle.emtp_listing.specs.NetworkLines.{branch_group, source_line, switch_line, trio_line};
ghost use Rattle.emtp_listing.specs.Puts.{Puts};

use crate::branch::{put_branch, put_trio};
use crate::channel::{put_channels, states_among};
use crate::control::put_block;
use crate::extra::put_extra;
use crate::history::history_values;
use crate::piece::{put_count, put_end, put_head, put_limited, put_named, put_quantity};
use crate::source::{put_source, put_tacs_source};
use crate::switch::put_switch;
use emtp_case::{
    Case, MOST_BRANCHES, MOST_CHANNELS, MOST_CONTROL_CARDS, MOST_HISTORY_VALUES, MOST_NODES,
    MOST_SOURCES, MOST_STEPS, MOST_STORED_VALUES, MOST_SWITCHES, Name, Parts, RunData,
};
use emtp_text::put;
use std::alloc::{AllocError, Global};

/// The listing of a case: a line for the case, one for its run and one for what a whole run leaves, one for each node and
/// each variable, and one or some for each record in the order of the cards. This project's own.
///
/// # Errors
///
/// [`AllocError`] where memory is wanting.
pub fn listing(alloc: Global, case: &Case) -> Result<Vec<u8>, AllocError>
    ensures { IfOk result (λ text. text.items ≡ listing case.now.parts) }
{
    let mut out = Vec::new(alloc);
    put_case(&mut out, &case.parts)?;
    put_run(&mut out, &case.parts.run)?;
    put_record(&mut out, &case.parts)?;
    put_names(&mut out, b"node", 1, case.parts.nodes.as_slice())?;
    put_names(&mut out, b"variable", 0, case.parts.vars.as_slice())?;
    put_network(&mut out, &case.parts)?;
    put_control(alloc, &mut out, case)?;
    Ok(out)
}

/// Puts the lines of the network's records after a text.
fn put_network(out: &mut Vec<u8>, parts: &Parts) -> Result<(), AllocError>
    requires { IsCase parts.now }
    ensures { OnOk result (Puts out.old.items (lines_text (network_lines parts.now)) out.new.items) }
{
    put_branches(out, parts)?;
    put_trios(out, parts)?;
    put_switches(out, parts)?;
    put_sources(out, parts)?;
    Ok(())
}

/// Puts the lines of the control's records and of the channels after a text.
fn put_control(alloc: Global, out: &mut Vec<u8>, case: &Case) -> Result<(), AllocError>
    ensures { OnOk result (Puts out.old.items (lines_text (control_part case.now.parts)) out.new.items) }
{
    put_tacs_sources(out, &case.parts)?;
    put_blocks(out, &case.parts)?;
    put_extras(alloc, out, &case.parts)?;
    put_channels(out, case)?;
    Ok(())
}

/// Puts the line of the counts after a text.
fn put_case(out: &mut Vec<u8>, parts: &Parts) -> Result<(), AllocError>
    ensures { OnOk result (Puts out.old.items (lines_text (case_line parts.now ∷ [])) out.new.items) }
{
    put(out, b"case")?;
    put_limited(out, b"nodes", MOST_NODES, parts.nodes.len())?;
    put_count(out, b"variables", parts.vars.len())?;
    put_limited(out, b"branches", MOST_BRANCHES, parts.branches.len())?;
    put_count(out, b"three-phase lines", parts.trios.len())?;
    put_limited(out, b"switches", MOST_SWITCHES, parts.switches.len())?;
    put_limited(out, b"sources", MOST_SOURCES, parts.sources.len())?;
    put_limited(
        out,
        b"control sources",
        MOST_CONTROL_CARDS,
        parts.tacs_sources.len(),
    )?;
    put_limited(out, b"blocks", MOST_CONTROL_CARDS, parts.blocks.len())?;
    put_limited(
        out,
        b"supplemental cards",
        MOST_CONTROL_CARDS,
        parts.extras.len(),
    )?;
    put_limited(out, b"channels", MOST_CHANNELS, parts.channels.len())?;
    put_end(out)?;
    Ok(())
}

/// Puts the line of the run after a text.
fn put_run(out: &mut Vec<u8>, run: &RunData) -> Result<(), AllocError>
    ensures { OnOk result (Puts out.old.items (lines_text (run_line run.now ∷ [])) out.new.items) }
{
    put(out, b"run")?;
    put_quantity(out, b"DELTAT", 12, b"s", &run.dt)?;
    put_limited(out, b"steps", MOST_STEPS as usize, run.steps as usize)?;
    put_count(out, b"IPLOT", run.every as usize)?;
    put_quantity(out, b"tolerance", 9, b"A", &run.tolerance)?;
    put_end(out)?;
    Ok(())
}

/// Puts the line of what a whole run leaves and needs after a text.
fn put_record(out: &mut Vec<u8>, parts: &Parts) -> Result<(), AllocError>
    requires { IsCase parts.now }
    ensures { OnOk result (Puts out.old.items (lines_text (record_line parts.now ∷ [])) out.new.items) }
{
    let end = parts.run.time(parts.run.steps);
    let samples = parts.run.samples() as usize;
    let channels = parts.channels.len();
    let states = states_among(parts.channels.as_slice());
    put(out, b"record")?;
    put_quantity(out, b"end", 12, b"s", &end)?;
    put_count(out, b"samples", samples)?;
    put_count(out, b"analog channels", channels - states)?;
    put_count(out, b"status channels", states)?;
    put_limited(
        out,
        b"values",
        MOST_STORED_VALUES as usize,
        channels * samples,
    )?;
    let history = history_values(parts) as usize;
    put_limited(
        out,
        b"history values",
        MOST_HISTORY_VALUES as usize,
        history,
    )?;
    put_end(out)?;
    Ok(())
}

/// Puts the lines of names, which are numbered on from a number, after a text.
fn put_names(out: &mut Vec<u8>, word: &[u8], first: u32, names: &[Name]) -> Result<(), AllocError>
    requires few { length names.now ≤ 1000 }
    requires low { first ≤ 1 }
    ensures { OnOk result (Puts out.old.items (lines_text (numbered (name_line word.now) first names.now)) out.new.items) }
{
    let mut number = first;
    for name in names {
        put_head(out, word, number)?;
        put_named(out, b"name", name.as_slice())?;
        put_end(out)?;
        number += 1;
    }
    Ok(())
}

/// Puts the lines of all branches after a text.
fn put_branches(out: &mut Vec<u8>, parts: &Parts) -> Result<(), AllocError>
    requires { IsCase parts.now }
    ensures { OnOk result (Puts out.old.items
        (lines_text (grouped (branch_group parts.now.nodes parts.now.points) parts.now.branches)) out.new.items) }
{
    for branch in parts.branches.as_slice() {
        put_branch(out, parts, branch)?;
    }
    Ok(())
}

/// Puts the lines of the modes of all three-phase lines after a text.
fn put_trios(out: &mut Vec<u8>, parts: &Parts) -> Result<(), AllocError>
    ensures { OnOk result (Puts out.old.items (lines_text (map trio_line parts.now.trios)) out.new.items) }
{
    for trio in parts.trios.as_slice() {
        put_trio(out, trio)?;
        put_end(out)?;
    }
    Ok(())
}

/// Puts the lines of all switches after a text.
fn put_switches(out: &mut Vec<u8>, parts: &Parts) -> Result<(), AllocError>
    requires { IsCase parts.now }
    ensures { OnOk result (Puts out.old.items
        (lines_text (map (switch_line parts.now.nodes parts.now.vars) parts.now.switches)) out.new.items) }
{
    for switch in parts.switches.as_slice() {
        put_switch(out, parts, switch)?;
        put_end(out)?;
    }
    Ok(())
}

/// Puts the lines of all sources of the network after a text.
fn put_sources(out: &mut Vec<u8>, parts: &Parts) -> Result<(), AllocError>
    requires { IsCase parts.now }
    ensures { OnOk result (Puts out.old.items
        (lines_text (map (source_line parts.now.nodes parts.now.vars) parts.now.sources)) out.new.items) }
{
    for source in parts.sources.as_slice() {
        put_source(out, parts, source)?;
        put_end(out)?;
    }
    Ok(())
}

/// Puts the lines of all sources of the control after a text.
fn put_tacs_sources(out: &mut Vec<u8>, parts: &Parts) -> Result<(), AllocError>
    requires { IsCase parts.now }
    ensures { OnOk result (Puts out.old.items
        (lines_text (map (tacs_source_line parts.now.nodes parts.now.vars) parts.now.tacs_sources)) out.new.items) }
{
    for source in parts.tacs_sources.as_slice() {
        put_tacs_source(out, parts, source)?;
        put_end(out)?;
    }
    Ok(())
}

/// Puts the lines of all blocks after a text.
fn put_blocks(out: &mut Vec<u8>, parts: &Parts) -> Result<(), AllocError>
    requires { IsCase parts.now }
    ensures { OnOk result (Puts out.old.items (lines_text (grouped (block_lines parts.now.vars) parts.now.blocks))
        out.new.items) }
{
    for block in parts.blocks.as_slice() {
        put_block(out, parts, block)?;
    }
    Ok(())
}

/// Puts the lines of all supplemental cards after a text.
fn put_extras(alloc: Global, out: &mut Vec<u8>, parts: &Parts) -> Result<(), AllocError>
    requires { IsCase parts.now }
    ensures { OnOk result (Puts out.old.items
        (lines_text (grouped (extra_lines parts.now.vars parts.now.points) parts.now.extras)) out.new.items) }
{
    for extra in parts.extras.as_slice() {
        put_extra(alloc, out, parts, extra)?;
    }
    Ok(())
}
