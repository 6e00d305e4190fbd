//! The sources of the control.

ghost use Rattle.std.specs.Prelude.{◌≡◌, ◌≤◌, IfErr};
ghost use Rattle.emtp_case.specs.held.Control.{AreKnown};
ghost use Rattle.emtp_case.specs.held.Sizes.{sizes_of};
ghost use Rattle.emtp_case.specs.held.Source.{IsTacsSource};
ghost use Rattle.emtp_tacs.specs.held.Stages.{IsMeasured, NamesVariable, WritesSources, measured_by};
ghost use Rattle.emtp_tacs.specs.Step.{source_value};

use crate::fault::{TacsFault, range_fault};
use crate::measured::Measurements;
use emtp_case::{Case, Shape, Source};
use emtp_fix::{NANO, in_range};
use emtp_wave::CosTable;

/// Writes the values of the sources in a step, in card order, in nano; or answers the first one out of range.
pub(crate) fn put_sources(
    case: &Case,
    table: &CosTable,
    step: u32,
    measured: Measurements<'_>,
    values: &mut [i64],
) -> Result<(), TacsFault>
    requires step { step ≤ case.now.parts.run.steps }
    requires measured { IsMeasured case.now.parts (measured_by measured) }
    requires values { AreKnown case.now.parts values.old }
    ensures values { AreKnown case.now.parts values.new }
    ensures sources { WritesSources result case.now.parts step (measured_by measured.entry) values.old values.new }
    ensures var { IfErr result (NamesVariable case.now.parts) }
{
    for at in 0..case.parts.tacs_sources.len() {
        let source = &case.parts.tacs_sources.as_slice()[at];
        let value = source_value(case, table, step, source, measured);
        match in_range(value as i128) {
            Some(value) => values[source.node as usize] = value,
            None => return Err(range_fault(source.node)),
        }
    }
    Ok(())
}

/// The value of a source in a step, in nano: that of the network, or by the time.
fn source_value(
    case: &Case,
    table: &CosTable,
    step: u32,
    source: &Source,
    measured: Measurements<'_>,
) -> i64
    requires step { step ≤ case.now.parts.run.steps }
    requires measured { IsMeasured case.now.parts (measured_by measured) }
    requires source { IsTacsSource (sizes_of case.now.parts) source.now }
    ensures { result ≡ source_value case.now.parts step (measured_by measured.entry) source.now source.now.shape }
{
    match source.shape {
        Shape::NodeVoltage { node } => measured.voltages[node as usize],
        Shape::SwitchCurrent { switch } => measured.currents[switch as usize],
        Shape::SwitchStatus { switch } => {
            if measured.closed[switch as usize] {
                NANO as i64
            } else {
                0
            }
        }
        Shape::Step
        | Shape::Ramp { .. }
        | Shape::Cosine { .. }
        | Shape::Tacs { .. }
        | Shape::Pulse { .. }
        | Shape::Saw { .. } => table.value(source, step, &case.parts.run, &[]),
    }
}
