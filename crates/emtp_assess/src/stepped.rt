//! A machine that is stepped and read.

ghost use Rattle.std.specs.Prelude.{◌≡◌, ◌-◌, is_none};
ghost use Rattle.emtp_machine.specs.History.{history};
ghost use Rattle.emtp_machine.specs.held.Machine.{history_of};

use emtp_case::PseudoState;
use emtp_fix::Steps;
use emtp_machine::{End, Machine};
use emtp_worth::Run;
use std::sync::ledger::Ledger;

/// A machine with the ledger of its steps.
#[derive(Drop)]
pub(crate) struct Stepped<'c, L: Ledger> {
    /// The machine.
    pub(crate) machine: Machine<'c>,
    /// What counts the rows that it eliminates.
    pub(crate) steps: Steps<L>,
}

impl<'c, L: Ledger> Stepped<'c, L> {
    /// Makes all steps that are left, and answers the end of the run, if it came.
    pub(crate) fn finish(&mut self) -> Option<End>
        ensures case { self.new.machine.case ≡ self.old.machine.case }
        ensures history { history_of self.new.machine ≡ history self.old.machine.case }
        ensures end { result ≡ (history self.old.machine.case).end }
    {
        self.machine.run(&mut self.steps)
    }
}

impl<'c, L: Ledger> Run for Stepped<'c, L> {
    ghost case = { λ s. s.machine.case };

    ghost records = { λ s. (history_of s.machine).records };

    ghost whole = { λ s. (history s.machine.case).records };

    ghost live = { λ s. is_none (history_of s.machine).end };

    ghost left = { λ s. s.machine.case.run.steps - s.machine.tried };

    fn advance(&mut self) -> bool {
        if self.machine.is_over() {
            return false;
        }
        self.machine.step(&mut self.steps).is_ok()
    }

    fn done(&self) -> u32 {
        self.machine.done()
    }

    fn voltage(&self, node: u32) -> i64 {
        self.machine.voltages()[node as usize]
    }

    fn pseudo(&self, branch: usize) -> PseudoState {
        self.machine.pseudo(branch)
    }

    fn branch_current(&self, branch: usize) -> i64 {
        self.machine.branch_current(branch)
    }

    fn switch_current(&self, switch: usize) -> i64 {
        self.machine.switch_currents()[switch]
    }
}
