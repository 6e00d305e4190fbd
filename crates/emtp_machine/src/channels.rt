//! The values of the channels at the last record.

ghost use Rattle.std.specs.Prelude.{◌≡◌, ◌<◌, ◌-ℤ◌, ◌++◌, ◌∷◌, [], List, length, pos, slice_index_or};
ghost use Rattle.emtp_case.specs.held.Channel.{IsChannel};
ghost use Rattle.emtp_case.specs.held.Sizes.{sizes_of};
ghost use Rattle.emtp_case.specs.StepRecord.{StepRecord, latest};
ghost use Rattle.emtp_machine.specs.Channels.{channel_value, sample_of, within_range};
ghost use Rattle.emtp_machine.specs.held.Controlled.{IsOf, StandsFor};

use crate::controlled::ControlledNetwork;
use crate::samples::Samples;
use emtp_case::{Case, Channel};
use emtp_fix::LARGEST_VALUE;

/// The voltage from one node to another, in nV, held within the range of voltages.
fn voltage_between(voltages: &[i64], from: u32, to: u32) -> i64
    requires from { from < length voltages.now }
    requires to { to < length voltages.now }
    ensures { result ≡ within_range (slice_index_or voltages.now from (pos 0) -ℤ slice_index_or voltages.now to (pos 0)) }
{
    let most = LARGEST_VALUE as i128;
    let difference = i128::from(voltages[from as usize]) - i128::from(voltages[to as usize]);
    difference.clamp(-most, most) as i64
}

impl<'c> ControlledNetwork<'c> {
    /// The value of a channel at the last record: nV, nA or 10^-9 of a unit, and 0 or 1 of a status.
    fn value(&self, case: &Case, channel: Channel) -> i64
        requires case { IsOf case.now.parts self.now }
        requires there { IsChannel (sizes_of case.now.parts) channel }
        ensures { (H : List StepRecord) → StandsFor self.now H → result ≡ channel_value case.now.parts (latest H) channel }
    {
        let network = &self.network;
        match channel {
            Channel::NodeVoltage(node) => network.voltages()[node as usize],
            Channel::BranchCurrent(branch) => network.branch_current(branch as usize),
            Channel::BranchVoltage(branch) => {
                let (from, to) = case.parts.branches.as_slice()[branch as usize].ends();
                voltage_between(network.voltages(), from, to)
            }
            Channel::SwitchCurrent(switch) => network.currents()[switch as usize],
            Channel::SwitchVoltage(switch) => {
                let switch = case.parts.switches.as_slice()[switch as usize];
                voltage_between(network.voltages(), switch.from, switch.to)
            }
            Channel::Tacs(var) => self.control.values()[var as usize],
            Channel::Status(switch) => i64::from(network.closed()[switch as usize]),
        }
    }

    /// Writes the values of all channels at the last record.
    fn fill_row(&self, case: &Case, row: &mut [i64])
        requires case { IsOf case.now.parts self.now }
        requires width { length row.old ≡ length case.now.parts.channels }
        ensures width { length row.new ≡ length row.old }
        ensures row { (H : List StepRecord) → StandsFor self.now H → row.new ≡ sample_of case.now.parts (latest H) }
    {
        for at in 0..row.len() {
            row[at] = self.value(case, case.parts.channels.as_slice()[at]);
        }
    }

    /// Takes the last record as a sample.
    pub(crate) fn take_sample(&self, case: &Case, row: &mut [i64], samples: &mut Samples)
        requires case { IsOf case.now.parts self.now }
        requires width { length row.old ≡ length case.now.parts.channels }
        requires channels { samples.old.channels ≡ length case.now.parts.channels }
        requires room { length samples.old.rows < samples.old.room }
        ensures width { length row.new ≡ length row.old }
        ensures capacity { samples.new.capacity ≡ samples.old.capacity }
        ensures samples { (H : List StepRecord) → StandsFor self.now H
            → samples.new ≡ record samples.old { rows = samples.old.rows ++ sample_of case.now.parts (latest H) ∷ [] } }
    {
        self.fill_row(case, row);
        samples.push(row);
    }
}
