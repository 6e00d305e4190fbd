//! The lines of sources, of the network and of the control.

ghost use Rattle.std.specs.Prelude.{◌≡◌, OnOk};
ghost use Rattle.emtp_case.specs.held.Sizes.{sizes_of};
ghost use Rattle.emtp_case.specs.held.Source.{IsSource, IsTacsSource};
ghost use Rattle.emtp_listing.specs.ControlLines.{tacs_source_line};
ghost use Rattle.emtp_listing.specs.HeldLines.{IsListedShape};
ghost use Rattle.emtp_listing.specs.Puts.{Puts};
ghost use Rattle.emtp_listing.specs.Lines.{all_separated};
ghost use Rattle.emtp_listing.specs.NetworkLines.{degrees, source_word, source_unit, shape_entries, source_line};

use crate::piece::{
    put_figure, put_head, put_node, put_place, put_quantity, put_time, put_variable, put_word,
};
use emtp_case::{Parts, Shape, Source};
use emtp_fix::scaled;
use std::alloc::AllocError;

/// Puts the line of a source after a text.
pub(crate) fn put_source(
    out: &mut Vec<u8>,
    parts: &Parts,
    source: &Source,
) -> Result<(), AllocError>
    requires { IsSource (sizes_of parts.now) source.now }
    ensures { OnOk result (Puts out.old.items (source_line parts.now.nodes parts.now.vars source.now) out.new.items) }
{
    put_head(out, b"line", source.line)?;
    put_word(out, source_word(source.current))?;
    put_node(out, b"NAME", parts, source.node)?;
    put_quantity(
        out,
        b"amplitude",
        9,
        source_unit(source.current),
        &source.amplitude,
    )?;
    put_quantity(out, b"TSTART", 12, b"s", &source.start)?;
    put_time(out, b"TSTOP", &source.stop)?;
    put_shape(out, parts, &source.shape)?;
    Ok(())
}

/// Puts the line of a source of the control after a text.
pub(crate) fn put_tacs_source(
    out: &mut Vec<u8>,
    parts: &Parts,
    source: &Source,
) -> Result<(), AllocError>
    requires { IsTacsSource (sizes_of parts.now) source.now }
    ensures { OnOk result (Puts out.old.items (tacs_source_line parts.now.nodes parts.now.vars source.now) out.new.items) }
{
    put_head(out, b"line", source.line)?;
    put_word(out, b"control source")?;
    put_variable(out, b"NAME", parts, source.node)?;
    put_figure(out, b"amplitude", 9, b"", &source.amplitude)?;
    put_quantity(out, b"TSTART", 12, b"s", &source.start)?;
    put_time(out, b"TSTOP", &source.stop)?;
    put_shape(out, parts, &source.shape)?;
    Ok(())
}

fn source_word(current: bool) -> &'static [u8]
    ensures { result.now ≡ source_word current }
{
    if current {
        b"current source"
    } else {
        b"voltage source"
    }
}

fn source_unit(current: bool) -> &'static [u8]
    ensures { result.now ≡ source_unit current }
{
    if current { b"A" } else { b"V" }
}

/// A phase in 10^-18 turn, in 10^-9 degree.
fn degrees(phase: &i64) -> i64
    ensures { result ≡ degrees phase.now }
{
    scaled(9, i128::from(*phase), 25_000_000) as i64
}

/// Puts the entries of the course of a source after a text.
fn put_shape(out: &mut Vec<u8>, parts: &Parts, shape: &Shape) -> Result<(), AllocError>
    requires { IsListedShape (sizes_of parts.now) shape.now }
    ensures { OnOk result (Puts out.old.items
        (all_separated (shape_entries parts.now.nodes parts.now.vars shape.now)) out.new.items) }
{
    match shape {
        Shape::Step => put_word(out, b"step"),
        Shape::Ramp { rise } => {
            put_word(out, b"ramp")?;
            put_quantity(out, b"T0", 12, b"s", rise)?;
            Ok(())
        }
        Shape::Cosine { freq, phase } => {
            put_word(out, b"cosine")?;
            put_quantity(out, b"frequency", 6, b"Hz", freq)?;
            put_quantity(out, b"phase", 18, b"turn", phase)?;
            put_quantity(out, b"angle", 9, b"degree", &degrees(phase))?;
            Ok(())
        }
        Shape::Tacs { var } => {
            put_word(out, b"driven")?;
            put_variable(out, b"control", parts, *var)?;
            Ok(())
        }
        Shape::Pulse { period, width } => {
            put_word(out, b"pulse")?;
            put_quantity(out, b"period", 12, b"s", period)?;
            put_quantity(out, b"width", 12, b"s", width)?;
            Ok(())
        }
        Shape::Saw { period } => {
            put_word(out, b"sawtooth")?;
            put_quantity(out, b"period", 12, b"s", period)?;
            Ok(())
        }
        Shape::NodeVoltage { node } => {
            put_word(out, b"voltage of a node")?;
            put_node(out, b"node", parts, *node)?;
            Ok(())
        }
        Shape::SwitchCurrent { switch } => {
            put_word(out, b"current of a switch")?;
            put_place(out, b"switch", *switch)?;
            Ok(())
        }
        Shape::SwitchStatus { switch } => {
            put_word(out, b"state of a switch")?;
            put_place(out, b"switch", *switch)?;
            Ok(())
        }
    }
}
