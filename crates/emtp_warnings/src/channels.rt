//! The warnings of the channels of a case.

ghost use Rattle.std.specs.List.{list_any};
ghost use Rattle.std.specs.Prelude.{◌≡◌, ◌+◌, ◌<◌, OnOk, length, slice_get, take};
ghost use Rattle.emtp_warnings.specs.AddsTo.{AddsTo};
ghost use Rattle.emtp_warnings.specs.ChannelWarnings.{channel_warnings, is_same, was_asked};

use crate::finding::{Finding, Spot, Warning, add_found};
use emtp_case::Channel;
use std::alloc::AllocError;

/// Adds a warning for each channel that an earlier one asks for as well.
pub(crate) fn add_channels(out: &mut Vec<Warning>, channels: &[Channel]) -> Result<(), AllocError>
    ensures { OnOk result (AddsTo out.old.items (channel_warnings channels.now) out.new.items) }
{
    for place in 0..channels.len() {
        let spot = Spot::Channel(place + 1);
        let warning = Warning {
            spot,
            finding: Finding::AskedTwice,
        };
        add_found(out, &[(was_asked(channels, place), warning)])?;
    }
    Ok(())
}

/// Whether a channel before one asks for the same.
fn was_asked(channels: &[Channel], place: usize) -> bool
    requires { place < length channels.now }
    ensures { result ≡ was_asked (take place channels.now) (slice_get channels.now place) }
{
    match channels.get(place) {
        None => false,
        Some(channel) => is_among(&channels[..place], channel),
    }
}

fn is_among(channels: &[Channel], channel: &Channel) -> bool
    ensures { result ≡ list_any (is_same channel.now) channels.now }
{
    channels.iter().any(|other| is_same(channel, other))
}

/// Whether two channels are of one node, or of one variable.
fn is_same(channel: &Channel, other: &Channel) -> bool
    ensures { result ≡ is_same channel.now other.now }
{
    match (channel, other) {
        (Channel::NodeVoltage(node), Channel::NodeVoltage(asked)) => asked == node,
        (Channel::Tacs(var), Channel::Tacs(asked)) => asked == var,
        _ => false,
    }
}
