//! The cards of the control, section by section, and the place of the next line among them.

ghost use Rattle.std.specs.Prelude.{◌≡◌};
ghost use Rattle.emtp_walk.specs.ControlSteps.{no_control};

use emtp_case::{Items, Name, Point};
use emtp_netcards::SourceCard;
use emtp_taccards::{BlockCard, DeviceCard, FormulaCard};
use std::alloc::Global;

/// A block, and the coefficients of its numerator and its denominator.
#[derive(Clone, Copy)]
pub struct BlockEntry {
    /// The card.
    pub card: BlockCard,
    /// The coefficients of the numerator by the power of s, in 10^-12; those of powers above the order are 0.
    pub top: [i64; 8],
    /// The coefficients of the denominator by the power of s, in 10^-12; those of powers above the order are 0.
    pub bottom: [i64; 8],
}

/// A supplemental card.
#[derive(Drop)]
pub enum ExtraEntry {
    /// A device, and its points or times: those of the deck from place `first` on, so many.
    Device {
        /// The card.
        card: DeviceCard,
        /// The place of its first point.
        first: usize,
        /// The number of its points; 0 where none follow.
        count: usize,
    },
    /// A formula.
    Formula(FormulaCard),
}

/// An output card of the control, and the number of its line.
#[derive(Clone, Copy)]
pub struct TacsOutputEntry {
    /// The number of its line, from 1.
    pub line: u32,
    /// The names of variables; blank ones are none.
    pub names: [Option<Name>; 13],
}

/// The cards of the control that were read.
#[derive(Drop)]
pub struct ControlCards {
    /// The blocks, in the order of their cards.
    pub blocks: Items<BlockEntry>,
    /// The sources of the control.
    pub sources: Items<SourceCard>,
    /// The supplemental cards.
    pub extras: Items<ExtraEntry>,
    /// The outputs of the control.
    pub outputs: Items<TacsOutputEntry>,
}

impl ControlCards {
    /// No card was read.
    pub(crate) fn new(alloc: Global) -> ControlCards
        ensures { result ≡ no_control }
    {
        ControlCards {
            blocks: Items::new(alloc),
            sources: Items::new(alloc),
            extras: Items::new(alloc),
            outputs: Items::new(alloc),
        }
    }
}

/// The points of a table or the times of a window, as far as they were read.
#[derive(Clone, Copy)]
pub struct DeviceGroup {
    /// The card of the device.
    pub card: DeviceCard,
    /// The place of its first point.
    pub first: usize,
    /// The number of its points so far.
    pub count: usize,
    /// The last of them, if there is one.
    pub before: Option<Point>,
}

/// What the next line of the control is read as.
#[derive(Clone, Copy)]
pub enum ControlPlace {
    /// A block card.
    Blocks,
    /// The numerator of a block.
    Numerator(BlockCard),
    /// The denominator of a block.
    Denominator {
        /// The card of the block.
        card: BlockCard,
        /// The coefficients of the numerator.
        top: [i64; 8],
        /// The line of the numerator.
        line: u32,
    },
    /// A source card of the control.
    TacsSources,
    /// A supplemental card.
    Extras,
    /// A point of a table or the times of a window, or the ending card.
    DevicePoints(DeviceGroup),
    /// An output card of the control.
    TacsOutputs,
    /// An initial condition, which no card can give.
    Initial,
}
