//! What a warning is.

ghost use Rattle.std.specs.Prelude.{◌≡◌, OnOk};
ghost use Rattle.emtp_warnings.specs.AddsTo.{AddsTo};
ghost use Rattle.emtp_warnings.specs.Finding.{found, of_columns, of_line, points_to};

use std::alloc::AllocError;

/// Where a warning points.
#[derive(Clone, Copy, PartialEq, Eq)]
pub enum Spot {
    /// Columns of a line, the first and the last one counted from 1.
    Columns {
        /// The number of the line, from 1.
        line: u32,
        /// The first column.
        first: usize,
        /// The last column.
        last: usize,
    },
    /// A line, by its number from 1.
    Line(u32),
    /// A channel, by its place in the record from 1.
    Channel(usize),
}

/// What is warned of.
#[derive(Clone, Copy, PartialEq, Eq)]
pub enum Finding {
    /// Columns that are not blank, and that no field has.
    NotRead,
    /// The last byte of a number's field and the first byte of the next one's: the number may be one.
    NumbersTouch {
        /// The first column of the first field.
        first: usize,
        /// The last column of the second one.
        last: usize,
    },
    /// A name that ends with its field and doesn't begin with it, where the field of the next name is blank.
    LateName,
    /// A node that no other branch, switch or source has.
    LoneNode,
    /// A node whose name is `0`, which is not ground.
    NodeZero,
    /// A node whose name differs from another one's in case alone.
    CaseAlone,
    /// A cosine of frequency 0.
    NoFrequency,
    /// A travel time below two steps.
    ShortTravel,
    /// A travel time after the end of the run.
    LateTravel,
    /// A capacitance below 1 pF.
    SmallCapacitance,
    /// A switch that is closed while another one between the same nodes is.
    SideBySide,
    /// A time after the end of the run.
    AfterEnd,
    /// A cosine that begins before the run, which begins at rest.
    EarlyCosine,
    /// A source that stops before it starts, or with it.
    NeverActs,
    /// A switch that opens before it closes.
    OpensFirst,
    /// A channel that was asked for before.
    AskedTwice,
    /// A series branch that acts with another resistance in series, by which a current that nothing drives drifts over the
    /// run.
    Drifts {
        /// That resistance, in 10^-9 ohm; below 0 the branch gives energy.
        resistance: i64,
        /// The part of the current that it takes over the run to the first order, in 10^-9; below 0 the current grows.
        drift: i64,
        /// The nearest inductance that drifts no more than it may, in nH, where there is one.
        clean: Option<i64>,
    },
    /// A resistance that acts as half of itself or less, or as half as much again or more: as this, in 10^-9 ohm.
    OtherResistance(i64),
    /// A capacitance that acts as another one: as this, in fF.
    OtherCapacitance(i64),
    /// A capacitance that acts as a wire.
    ActsAsWire,
    /// A nonlinear resistor at the end of a line, where no capacitance holds a wave for ten steps.
    BareArrester,
}

/// A warning.
#[derive(Clone, Copy, PartialEq, Eq)]
pub struct Warning {
    /// Where it points.
    pub spot: Spot,
    /// What it warns of.
    pub finding: Finding,
}

impl Warning {
    /// Whether it points to a line, or to columns of it.
    pub(crate) fn points_to(&self, number: u32) -> bool
        ensures { result ≡ points_to number self.now }
    {
        match self.spot {
            Spot::Columns { line, .. } => line == number,
            Spot::Line(line) => line == number,
            Spot::Channel(_) => false,
        }
    }
}

/// A row of a table: where there is cause, a warning of columns of a line, from the first one to the last.
pub(crate) fn columns_row(
    line: u32,
    columns: (usize, usize),
    cause: bool,
    finding: Finding,
) -> (bool, Warning)
    ensures { result ≡ (cause, of_columns line columns.0 columns.1 finding) }
{
    let (first, last) = columns;
    let spot = Spot::Columns { line, first, last };
    (cause, Warning { spot, finding })
}

/// A row of a table: where there is cause, a warning of a line.
pub(crate) fn line_row(line: u32, cause: bool, finding: Finding) -> (bool, Warning)
    ensures { result ≡ (cause, of_line line finding) }
{
    let spot = Spot::Line(line);
    (cause, Warning { spot, finding })
}

/// Adds those of a table's warnings for which there is cause.
pub(crate) fn add_found(out: &mut Vec<Warning>, rows: &[(bool, Warning)]) -> Result<(), AllocError>
    ensures { OnOk result (AddsTo out.old.items (found rows.now) out.new.items) }
{
    for (cause, warning) in rows {
        if *cause {
            out.push(*warning)?;
        }
    }
    Ok(())
}
