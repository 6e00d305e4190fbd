//! The lines of branches.

ghost use Rattle.emtp_case.specs.declared.limit.TheConstants.{MOST_POINTS};
ghost use Rattle.std.specs.Prelude.{◌≡◌, ◌+◌, ◌≤◌, OnOk, codes, length};
ghost use Rattle.emtp_case.specs.Branch.{from_of, points_of, to_of};
ghost use Rattle.emtp_case.specs.held.Branch.{IsBranch};
ghost use Rattle.emtp_case.specs.held.Sizes.{sizes_of};
ghost use Rattle.emtp_listing.specs.Puts.{Puts};
ghost use Rattle.emtp_listing.specs.Lines.{all_separated, card_line, lines_text, numbered};
ghost use Rattle.emtp_listing.specs.NetworkLines.{series_entries, line_entries, pseudo_word, pseudo_entries, phase_entries, branch_line, branch_group, branch_points, segment_entries, segment_line, trio_line};

use crate::piece::{put_count, put_end, put_head, put_node, put_place, put_quantity, put_word};
use emtp_case::{Branch, Line, Lumped, Parts, Phase, Point, Pseudo, Trio};
use emtp_text::put;
use std::alloc::AllocError;

/// Puts the lines of a branch and of its points after a text.
pub(crate) fn put_branch(
    out: &mut Vec<u8>,
    parts: &Parts,
    branch: &Branch,
) -> Result<(), AllocError>
    requires { IsBranch parts.now.run (sizes_of parts.now) parts.now.points branch.now }
    ensures { OnOk result (Puts out.old.items (lines_text (branch_group parts.now.nodes parts.now.points branch.now))
        out.new.items) }
{
    put_kind(out, parts, branch)?;
    put_end(out)?;
    put_points(out, parts, branch)?;
    Ok(())
}

/// Puts the line of a branch after a text.
fn put_kind(out: &mut Vec<u8>, parts: &Parts, branch: &Branch) -> Result<(), AllocError>
    requires from_there { from_of branch.now ≤ length parts.now.nodes }
    requires to_there { to_of branch.now ≤ length parts.now.nodes }
    ensures { OnOk result (Puts out.old.items (branch_line parts.now.nodes branch.now) out.new.items) }
{
    match branch {
        Branch::Lumped(b) => put_series(out, parts, b),
        Branch::Line(b) => put_line(out, parts, b),
        Branch::Pseudo(b) => put_pseudo(out, parts, b),
        Branch::Phase(b) => put_phase(out, parts, b),
    }
}

fn put_series(out: &mut Vec<u8>, parts: &Parts, b: &Lumped) -> Result<(), AllocError>
    requires from_there { b.now.from ≤ length parts.now.nodes }
    requires to_there { b.now.to ≤ length parts.now.nodes }
    ensures { OnOk result (Puts out.old.items
        (card_line b.now.line (codes "series branch") (series_entries parts.now.nodes b.now)) out.new.items) }
{
    put_head(out, b"line", b.line)?;
    put_word(out, b"series branch")?;
    put_node(out, b"BUS1", parts, b.from)?;
    put_node(out, b"BUS2", parts, b.to)?;
    put_quantity(out, b"R", 6, b"ohm", &b.r)?;
    put_quantity(out, b"L", 6, b"mH", &b.l)?;
    put_quantity(out, b"C", 9, b"uF", &b.c)?;
    Ok(())
}

fn put_line(out: &mut Vec<u8>, parts: &Parts, b: &Line) -> Result<(), AllocError>
    requires from_there { b.now.from ≤ length parts.now.nodes }
    requires to_there { b.now.to ≤ length parts.now.nodes }
    ensures { OnOk result (Puts out.old.items
        (card_line b.now.line (codes "line") (line_entries parts.now.nodes b.now)) out.new.items) }
{
    put_head(out, b"line", b.line)?;
    put_word(out, b"line")?;
    put_node(out, b"BUS1", parts, b.from)?;
    put_node(out, b"BUS2", parts, b.to)?;
    put_quantity(out, b"surge impedance", 6, b"ohm", &b.zc)?;
    put_quantity(out, b"R", 6, b"ohm", &b.r)?;
    put_quantity(out, b"travel time", 12, b"s", &b.delay)?;
    Ok(())
}

fn pseudo_word(reactor: bool) -> &'static [u8]
    ensures { result.now ≡ pseudo_word reactor }
{
    if reactor {
        b"nonlinear reactor"
    } else {
        b"nonlinear resistor"
    }
}

fn put_pseudo(out: &mut Vec<u8>, parts: &Parts, b: &Pseudo) -> Result<(), AllocError>
    requires from_there { b.now.from ≤ length parts.now.nodes }
    requires to_there { b.now.to ≤ length parts.now.nodes }
    ensures { OnOk result (Puts out.old.items
        (card_line b.now.line (pseudo_word b.now.reactor) (pseudo_entries parts.now.nodes b.now)) out.new.items) }
{
    put_head(out, b"line", b.line)?;
    put_word(out, pseudo_word(b.reactor))?;
    put_node(out, b"BUS1", parts, b.from)?;
    put_node(out, b"BUS2", parts, b.to)?;
    put_place(out, b"first point", b.first)?;
    put_count(out, b"points", b.count as usize)?;
    Ok(())
}

fn put_phase(out: &mut Vec<u8>, parts: &Parts, b: &Phase) -> Result<(), AllocError>
    requires from_there { b.now.from ≤ length parts.now.nodes }
    requires to_there { b.now.to ≤ length parts.now.nodes }
    ensures { OnOk result (Puts out.old.items
        (card_line b.now.line (codes "phase of a line") (phase_entries parts.now.nodes b.now)) out.new.items) }
{
    put_head(out, b"line", b.line)?;
    put_word(out, b"phase of a line")?;
    put_node(out, b"BUS1", parts, b.from)?;
    put_node(out, b"BUS2", parts, b.to)?;
    put_place(out, b"three-phase line", b.trio)?;
    put_place(out, b"phase", u32::from(b.phase))?;
    Ok(())
}

/// Puts the lines of the points of a branch after a text.
fn put_points(out: &mut Vec<u8>, parts: &Parts, branch: &Branch) -> Result<(), AllocError>
    requires { IsBranch parts.now.run (sizes_of parts.now) parts.now.points branch.now }
    ensures { OnOk result (Puts out.old.items (lines_text (branch_points parts.now.points branch.now)) out.new.items) }
{
    match branch {
        Branch::Lumped(_) => Ok(()),
        Branch::Line(_) => Ok(()),
        Branch::Pseudo(b) => {
            let points = points_from(parts.points.as_slice(), b.first, b.count);
            put_segments(out, b.reactor, points)
        }
        Branch::Phase(_) => Ok(()),
    }
}

/// So many points from a place on.
pub(crate) fn points_from(points: &[Point], first: u32, count: u32) -> &[Point]
    requires { first + count ≤ length points.now }
    ensures value { result.now ≡ points_of points.now first count }
    ensures few { length result.now ≤ count }
{
    let first = first as usize;
    &points[first..first + count as usize]
}

/// Puts the lines of the points of a characteristic after a text.
fn put_segments(out: &mut Vec<u8>, reactor: bool, points: &[Point]) -> Result<(), AllocError>
    requires { length points.now ≤ MOST_POINTS }
    ensures { OnOk result (Puts out.old.items (lines_text (numbered (segment_line reactor) 1 points.now)) out.new.items) }
{
    let mut number = 1;
    for point in points {
        put_head(out, b"point", number)?;
        put_segment(out, reactor, point)?;
        put_end(out)?;
        number += 1;
    }
    Ok(())
}

/// Puts the entries of a point of a characteristic after a text.
fn put_segment(out: &mut Vec<u8>, reactor: bool, point: &Point) -> Result<(), AllocError>
    ensures { OnOk result (Puts out.old.items (all_separated (segment_entries reactor point.now)) out.new.items) }
{
    put_quantity(out, b"current", 9, b"A", &point.current)?;
    if reactor {
        put_quantity(out, b"flux", 12, b"Wb", &point.other)?;
    } else {
        put_quantity(out, b"voltage", 9, b"V", &point.other)?;
    }
    Ok(())
}

/// Puts the line of a three-phase line's modes after a text.
pub(crate) fn put_trio(out: &mut Vec<u8>, trio: &Trio) -> Result<(), AllocError>
    ensures { OnOk result (Puts out.old.items (trio_line trio.now) out.new.items) }
{
    put(out, b"modes")?;
    put_place(out, b"first branch", trio.first)?;
    put_quantity(out, b"zero surge impedance", 6, b"ohm", &trio.zc[0])?;
    put_quantity(out, b"zero R", 6, b"ohm", &trio.r[0])?;
    put_quantity(out, b"zero travel time", 12, b"s", &trio.delay[0])?;
    put_quantity(out, b"positive surge impedance", 6, b"ohm", &trio.zc[1])?;
    put_quantity(out, b"positive R", 6, b"ohm", &trio.r[1])?;
    put_quantity(out, b"positive travel time", 12, b"s", &trio.delay[1])?;
    Ok(())
}
