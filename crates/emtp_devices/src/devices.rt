//! All devices of a case.

ghost use Rattle.std.specs.Prelude.{◌≡◌, ◌≤◌, ◌∷◌, [], IfOk, unsigned_abs};
ghost use Rattle.emtp_case.specs.StepRecord.{rest_of};
ghost use Rattle.emtp_case.specs.declared.control.Device.{Device};
ghost use Rattle.emtp_devices.specs.held.Devices.{IsDeviceAt, Moves, StandsFor};
ghost use Rattle.emtp_case.specs.held.Control.{AreKnown};
ghost use Rattle.emtp_fix.specs.declared.limit.TheConstants.{LARGEST_VALUE};

use crate::held::{HeldDevice, all_at_rest};
use emtp_case::{Case, Extra};
use emtp_fix::OutOfRange;
use std::alloc::{AllocError, Global};
use std::marker::Model;

/// The devices of a case, numbered by their place among the supplemental cards. It stands for a list of records: of each
/// device it keeps the newest output, and the newest inputs as far as its equation looks back on them.
#[derive(Drop)]
pub struct Devices<'a> {
    case: &'a Case,
    held: Vec<HeldDevice>,
}

impl<'a> Model for Devices<'a> {
    ghost use Rattle.std.specs.Prelude.{vec_capacity};
    ghost use Rattle.emtp_devices.specs.held.Devices.{AreHeld, HeldDevices, capacities_of};

    ghost Value = { HeldDevices };

    ghost use Rattle.std.specs.Coded.{codes};

    ghost coded = { Prim.hlevel codes };

    ghost view = { λ s. record {
      case = s.case.now.parts;
      held = s.held.items;
      capacities = capacities_of (vec_capacity s.held) s.held.items;
    } };

    ghost invariant = { λ s. AreHeld s.case.now.parts s.held.items };
}

impl<'a> Devices<'a> {
    /// The devices of record 0: all of their numbers are 0. All memory is taken here.
    pub fn open(alloc: Global, case: &'a Case) -> Result<Devices<'a>, AllocError>
        ensures case { IfOk result (λ s. s.case ≡ case.now.parts) }
        ensures stands { IfOk result (λ s. StandsFor s (rest_of case.now.parts ∷ [])) }
    {
        let held = all_at_rest(alloc, case)?;
        Ok(Devices { case, held })
    }

    /// Computes the device at a place among the supplemental cards in a step, from the values that names read at its turn,
    /// in nano; moves it by one step and answers its output in nano. Where the sum of its inputs or its output exceeds
    /// 10^18 it is out of range. It takes no memory: the list of the devices and the ring of each keep their capacities.
    pub fn step(&mut self, extra: usize, step: u32, values: &[i64]) -> Result<i64, OutOfRange>
        requires device { (x : Device) × IsDeviceAt self.old.case extra x }
        requires values { AreKnown self.old.case values.now }
        ensures moves { Moves self.old self.new extra step values.now result }
        ensures capacities { self.new.capacities ≡ self.old.capacities }
        ensures small { IfOk result (λ y. unsigned_abs y ≤ LARGEST_VALUE) }
    {
        match &self.case.parts.extras.as_slice()[extra] {
            Extra::Device(device) => self.held[extra].step(self.case, device, step, values),
            Extra::Formula(_) => unreachable!(),
        }
    }
}
