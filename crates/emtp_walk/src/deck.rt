//! The cards of a case, section by section, and the place of the next line.

ghost use Rattle.std.specs.Prelude.{◌≡◌, IfOk, IfErr};
ghost use Rattle.emtp_walk.specs.held.Answer.{IsWant};
ghost use Rattle.emtp_walk.specs.held.Sound.{IsTrioEntry, IsWhole};
ghost use Rattle.emtp_walk.specs.Walk.{empty_deck, with_trio};
ghost use Rattle.emtp_netcards.specs.held.BranchCard.{HasNumbers};

use crate::control_cards::{ControlCards, ControlPlace};
use emtp_card::Refused;
use emtp_case::{Items, Point, RunData};
use emtp_netcards::{BranchCard, OutputCard, SourceCard, SwitchCard};
use std::alloc::Global;

/// The branch cards that make one entry of a deck.
#[derive(Clone, Copy, Debug)]
pub enum BranchEntry {
    /// One branch, and its points: those of the deck from place `first` on, so many.
    Single {
        /// The card.
        card: BranchCard,
        /// The place of its first point.
        first: usize,
        /// The number of its points; 0 where none follow.
        count: usize,
    },
    /// The three phases of one line.
    Trio {
        /// The card -1, with the zero sequence.
        zero: BranchCard,
        /// The card -2, with the positive sequence.
        positive: BranchCard,
        /// The card -3.
        third: BranchCard,
    },
}

/// An output card, and the number of its line.
#[derive(Clone, Copy)]
pub struct OutputEntry {
    /// The number of its line, from 1.
    pub line: u32,
    /// The card.
    pub card: OutputCard,
}

/// The cards that were read.
#[derive(Drop)]
pub struct Deck {
    /// The numbers of the miscellaneous cards.
    pub run: RunData,
    /// The line of the second miscellaneous card; 0 before it was read.
    pub second: u32,
    /// The cards of the control.
    pub control: ControlCards,
    /// The branches, in the order of their cards.
    pub branches: Items<BranchEntry>,
    /// The points of the pseudo-nonlinear branches and the tables, and the times of the windows.
    pub points: Items<Point>,
    /// The switches.
    pub switches: Items<SwitchCard>,
    /// The sources.
    pub sources: Items<SourceCard>,
    /// The node outputs.
    pub outputs: Items<OutputEntry>,
}

impl Deck {
    /// No card was read.
    pub(crate) fn new(alloc: Global) -> Deck
        ensures { result ≡ empty_deck }
    {
        Deck {
            run: RunData {
                dt: 1000,
                steps: 1,
                every: 1,
                tolerance: 10_000_000,
            },
            second: 0,
            control: ControlCards::new(alloc),
            branches: Items::new(alloc),
            points: Items::new(alloc),
            switches: Items::new(alloc),
            sources: Items::new(alloc),
            outputs: Items::new(alloc),
        }
    }

    /// Keeps the three cards of a three-phase line.
    pub(crate) fn keep_trio(
        &mut self,
        zero: BranchCard,
        positive: BranchCard,
        third: BranchCard,
    ) -> Result<(), Refused>
        requires whole { IsWhole self.old }
        requires trio { IsTrioEntry self.old.run zero positive }
        requires third { HasNumbers self.old.run.dt third }
        ensures ok { IfOk result (λ done. self.new ≡ with_trio self.old zero positive third) }
        ensures bad { IfErr result IsWant }
        ensures whole { IfOk result (λ done. IsWhole self.new) }
    {
        self.branches.push(BranchEntry::Trio {
            zero,
            positive,
            third,
        })?;
        Ok(())
    }
}

/// The points of a branch, as far as they were read.
#[derive(Clone, Copy)]
pub struct Group {
    /// The branch card.
    pub card: BranchCard,
    /// The place of its first point.
    pub first: usize,
    /// The number of its points so far.
    pub count: usize,
    /// The last of them, if there is one.
    pub before: Option<Point>,
    /// Whether the fields of series branches after it are wide.
    pub wide: bool,
}

/// What the next line is read as.
#[derive(Clone, Copy)]
pub enum Place {
    /// `BEGIN NEW DATA CASE` is due.
    Begin,
    /// The first miscellaneous card; the flag says that a tolerance was read.
    First(bool),
    /// The second miscellaneous card.
    Second,
    /// Right after the miscellaneous cards: the control, or the first branch card.
    Start,
    /// A line of the control.
    Control(ControlPlace),
    /// A branch card; the flag says that the fields of series branches are wide.
    Branches(bool),
    /// A point of a branch, or its ending card.
    Points(Group),
    /// The card after a card -1, which may be its second phase.
    Waiting {
        /// The card -1.
        card: BranchCard,
        /// Whether the fields of series branches are wide.
        wide: bool,
    },
    /// The third phase of a line.
    Third {
        /// The card -1, with the zero sequence.
        zero: BranchCard,
        /// The card -2, with the positive sequence.
        positive: BranchCard,
        /// Whether the fields of series branches are wide.
        wide: bool,
    },
    /// A switch card.
    Switches,
    /// A source card.
    Sources,
    /// An output card.
    Outputs,
    /// After the outputs; the flag says that a second `BEGIN NEW DATA CASE` was read.
    After(bool),
}
