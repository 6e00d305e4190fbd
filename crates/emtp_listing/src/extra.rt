//! The lines of supplemental cards: devices and formulas.

ghost use Rattle.emtp_case.specs.declared.limit.TheConstants.{MOST_POINTS};
ghost use Rattle.std.specs.Prelude.{◌≡◌, ◌+◌, ◌<◌, ◌≤◌, All, OnOk, codes, length, map};
ghost use Rattle.emtp_case.specs.held.Control.{IsDevice, IsExtra, IsFormula};
ghost use Rattle.emtp_case.specs.held.Sizes.{sizes_of};
ghost use Rattle.emtp_listing.specs.ControlLines.{a_places, a_tail, code_number, device_entries, extra_card_line, extra_lines, extra_points, formula_entries, group_number, table_entries, table_line};
ghost use Rattle.emtp_listing.specs.Entry.{variable_entry};
ghost use Rattle.emtp_listing.specs.Lines.{all_separated, card_line, lines_text, numbered};
ghost use Rattle.emtp_listing.specs.Puts.{Puts};

use crate::branch::points_from;
use crate::control::put_inputs;
use crate::expression::expression_text;
use crate::piece::{
    put_choice, put_count, put_end, put_figure, put_head, put_named, put_place, put_quantity,
    put_variable, put_word,
};
use emtp_case::{Device, DeviceCode, Extra, Formula, Group, Parts, Point};
use std::alloc::{AllocError, Global};

/// Puts the lines of a supplemental card and of its points after a text.
pub(crate) fn put_extra(
    alloc: Global,
    out: &mut Vec<u8>,
    parts: &Parts,
    extra: &Extra,
) -> Result<(), AllocError>
    requires { IsExtra (sizes_of parts.now) parts.now.points extra.now }
    ensures { OnOk result (Puts out.old.items (lines_text (extra_lines parts.now.vars parts.now.points extra.now))
        out.new.items) }
{
    put_extra_card(alloc, out, parts, extra)?;
    put_end(out)?;
    put_extra_points(out, parts, extra)?;
    Ok(())
}

/// Puts the line of a supplemental card after a text.
fn put_extra_card(
    alloc: Global,
    out: &mut Vec<u8>,
    parts: &Parts,
    extra: &Extra,
) -> Result<(), AllocError>
    requires { IsExtra (sizes_of parts.now) parts.now.points extra.now }
    ensures { OnOk result (Puts out.old.items (extra_card_line parts.now.vars extra.now) out.new.items) }
{
    match extra {
        Extra::Device(device) => put_device(out, parts, device),
        Extra::Formula(formula) => put_formula(alloc, out, parts, formula),
    }
}

/// Puts the lines of the points of a supplemental card after a text.
fn put_extra_points(out: &mut Vec<u8>, parts: &Parts, extra: &Extra) -> Result<(), AllocError>
    requires { IsExtra (sizes_of parts.now) parts.now.points extra.now }
    ensures { OnOk result (Puts out.old.items (lines_text (extra_points parts.now.points extra.now)) out.new.items) }
{
    match extra {
        Extra::Device(device) => {
            let points = points_from(parts.points.as_slice(), device.first, device.count);
            put_table(out, device.code, points)
        }
        Extra::Formula(_) => Ok(()),
    }
}

/// Puts the line of a device after a text.
fn put_device(out: &mut Vec<u8>, parts: &Parts, device: &Device) -> Result<(), AllocError>
    requires { IsDevice (sizes_of parts.now) parts.now.points device.now }
    ensures { OnOk result (Puts out.old.items
        (card_line device.now.line (codes "device") (device_entries parts.now.vars device.now)) out.new.items) }
{
    put_head(out, b"line", device.line)?;
    put_word(out, b"device")?;
    put_variable(out, b"NAME", parts, device.var)?;
    put_count(out, b"card", group_number(device.group))?;
    put_count(out, b"code", code_number(device.code))?;
    put_figure(
        out,
        b"A",
        a_places(device.code),
        a_tail(device.code),
        &device.a,
    )?;
    put_figure(out, b"B", 9, b"", &device.b)?;
    put_figure(out, b"C", 9, b"", &device.c)?;
    put_choice(out, b"D", b"(no variable)", parts, device.d)?;
    put_choice(out, b"E", b"(no variable)", parts, device.e)?;
    put_place(out, b"first point", device.first)?;
    put_count(out, b"points", device.count as usize)?;
    put_inputs(out, parts, device.inputs.as_slice())?;
    Ok(())
}

fn group_number(group: Group) -> usize
    ensures { result ≡ group_number group }
{
    match group {
        Group::Input => 99,
        Group::Inside => 88,
        Group::Output => 98,
    }
}

fn code_number(code: DeviceCode) -> usize
    ensures { result ≡ code_number code }
{
    match code {
        DeviceCode::Gate => 51,
        DeviceCode::GateAbove => 52,
        DeviceCode::Delay => 53,
        DeviceCode::DelayedPulse => 54,
        DeviceCode::Table => 56,
        DeviceCode::Window => 57,
        DeviceCode::Integral => 58,
        DeviceCode::Derivative => 59,
        DeviceCode::Selector => 60,
        DeviceCode::SampleHold => 62,
        DeviceCode::Extreme => 63,
        DeviceCode::PeakHold => 64,
        DeviceCode::Counter => 65,
        DeviceCode::EffectiveValue => 66,
    }
}

fn a_places(code: DeviceCode) -> usize
    ensures value { result ≡ a_places code }
    ensures few { result ≤ 18 }
{
    match code {
        DeviceCode::Delay | DeviceCode::DelayedPulse => 12,
        DeviceCode::EffectiveValue => 6,
        _ => 9,
    }
}

fn a_tail(code: DeviceCode) -> &'static [u8]
    ensures { result.now ≡ a_tail code }
{
    match code {
        DeviceCode::Delay | DeviceCode::DelayedPulse => b" s",
        DeviceCode::EffectiveValue => b" Hz",
        _ => b"",
    }
}

/// Puts the lines of the points of a table or of the times of a window after a text.
fn put_table(out: &mut Vec<u8>, code: DeviceCode, points: &[Point]) -> Result<(), AllocError>
    requires { length points.now ≤ MOST_POINTS }
    ensures { OnOk result (Puts out.old.items (lines_text (numbered (table_line code) 1 points.now)) out.new.items) }
{
    let mut number = 1;
    for point in points {
        put_head(out, b"point", number)?;
        put_pair(out, code, point)?;
        put_end(out)?;
        number += 1;
    }
    Ok(())
}

/// Puts the entries of a point of a table, or of the times of a window, after a text.
fn put_pair(out: &mut Vec<u8>, code: DeviceCode, point: &Point) -> Result<(), AllocError>
    ensures { OnOk result (Puts out.old.items (all_separated (table_entries code point.now)) out.new.items) }
{
    match code {
        DeviceCode::Window => {
            put_quantity(out, b"close", 12, b"s", &point.current)?;
            put_quantity(out, b"open", 12, b"s", &point.other)?;
        }
        _ => {
            put_figure(out, b"input", 9, b"", &point.current)?;
            put_figure(out, b"output", 9, b"", &point.other)?;
        }
    }
    Ok(())
}

/// Puts the line of a formula after a text.
fn put_formula(
    alloc: Global,
    out: &mut Vec<u8>,
    parts: &Parts,
    formula: &Formula,
) -> Result<(), AllocError>
    requires { IsFormula (sizes_of parts.now) formula.now }
    ensures { OnOk result (Puts out.old.items
        (card_line formula.now.line (codes "formula") (formula_entries parts.now.vars formula.now)) out.new.items) }
{
    put_head(out, b"line", formula.line)?;
    put_word(out, b"formula")?;
    put_variable(out, b"NAME", parts, formula.var)?;
    put_count(out, b"card", group_number(formula.group))?;
    put_count(out, b"variables", formula.vars.len())?;
    put_variables(out, parts, formula.vars.as_slice())?;
    let text = expression_text(alloc, parts, formula)?;
    put_named(out, b"value", text.as_slice())?;
    Ok(())
}

/// Puts an entry for each variable that a formula names after a text.
fn put_variables(out: &mut Vec<u8>, parts: &Parts, vars: &[u32]) -> Result<(), AllocError>
    requires { All (λ v. v < length parts.now.vars) vars.now }
    ensures { OnOk result (Puts out.old.items
        (all_separated (map (variable_entry (codes "names") parts.now.vars) vars.now)) out.new.items) }
{
    for var in vars {
        put_variable(out, b"names", parts, *var)?;
    }
    Ok(())
}
