//! A whole run, over a ledger of its own.

ghost use Rattle.std.specs.Prelude.{◌≡◌, ◌<◌};
ghost use Rattle.emtp_machine.specs.History.{history};
ghost use Rattle.emtp_machine.specs.Laws.{EndsWithin, SamplesBalance};
ghost use Rattle.emtp_machine.specs.held.Machine.{history_of};

use crate::end::End;
use crate::machine::Machine;
use emtp_fix::Steps;
use std::marker::Brand;
use std::sync::ledger::{Blank, Ledger};

impl<'c> Machine<'c> {
    /// Makes all steps that are left, or those before the end, and answers the end, if it came; the rows that are
    /// eliminated are counted in a ledger that nobody else has. It takes no memory.
    pub fn run_alone(&mut self) -> Option<End>
        ensures case { self.new.case ≡ self.old.case }
        ensures capacities { self.new.capacities ≡ self.old.capacities }
        ensures history { history_of self.new ≡ history self.old.case }
        ensures end { result ≡ (history self.old.case).end }
        ensures balance { SamplesBalance self.old.case }
        ensures names { EndsWithin self.old.case }
    {
        run_counted::<Brand>(self, Blank::new(1))
    }
}

/// Makes all steps over a ledger, and answers the end of the run, if it came.
fn run_counted<L: Ledger>(machine: &mut Machine<'_>, blank: Blank) -> Option<End>
    requires name { blank.name ≡ L.name }
    requires parts { blank.parts ≡ L.parts }
    requires some { 0 < blank.parts }
    ensures case { machine.new.case ≡ machine.old.case }
    ensures capacities { machine.new.capacities ≡ machine.old.capacities }
    ensures history { history_of machine.new ≡ history machine.old.case }
    ensures end { result ≡ (history machine.old.case).end }
    ensures balance { SamplesBalance machine.old.case }
    ensures names { EndsWithin machine.old.case }
{
    machine.run(&mut Steps::<L>::new(blank))
}
