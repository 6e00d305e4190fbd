//! The lines of channels.

ghost use Rattle.std.specs.Prelude.{◌≡◌, ◌+◌, ◌-◌, ◌<◌, ◌≤◌, OnOk, codes, count_by, length, slice_index_or};
ghost use Rattle.emtp_case.specs.Channel.{is_status};
ghost use Rattle.emtp_case.specs.held.Channel.{IsChannel};
ghost use Rattle.emtp_case.specs.ChannelName.{name_of_channel};
ghost use Rattle.emtp_case.specs.held.Sizes.{sizes_of};
ghost use Rattle.emtp_case.specs.declared.channel.Channel.{Channel};
ghost use Rattle.emtp_listing.specs.ChannelLines.{channel_line, measured_entry, measured_word, record_entry, states_upto};
ghost use Rattle.emtp_listing.specs.Entry.{word_entry};
ghost use Rattle.emtp_listing.specs.Lines.{lines_text, numbered, separated};
ghost use Rattle.emtp_listing.specs.Puts.{Puts};

use crate::piece::{
    put_count, put_end, put_head, put_named, put_node, put_place, put_variable, put_word,
};
use emtp_case::{Case, Channel, Parts};
use std::alloc::AllocError;

/// Puts the lines of the channels of a case after a text.
pub(crate) fn put_channels(out: &mut Vec<u8>, case: &Case) -> Result<(), AllocError>
    ensures { OnOk result (Puts out.old.items
        (lines_text (numbered (channel_line case.now.parts) 1 case.now.parts.channels)) out.new.items) }
{
    let mut number = 1;
    let mut states = 0;
    for channel in case.parts.channels.as_slice() {
        if channel.is_status() {
            states += 1;
        }
        put_channel(out, case, number, states, channel)?;
        put_end(out)?;
        number += 1;
    }
    Ok(())
}

/// How many channels are states of switches.
pub(crate) fn states_among(channels: &[Channel]) -> usize
    ensures value { result ≡ count_by is_status channels.now }
    ensures most { result ≤ length channels.now }
{
    let mut count = 0;
    for channel in channels {
        if channel.is_status() {
            count += 1;
        }
    }
    count
}

/// Puts the line of a channel, by its number from 1 on and how many states there are as far as it, after a text.
fn put_channel(
    out: &mut Vec<u8>,
    case: &Case,
    number: u32,
    states: u32,
    channel: &Channel,
) -> Result<(), AllocError>
    requires some { 1 ≤ number }
    requires there { number ≤ length case.now.parts.channels }
    requires is { (d : Channel) → slice_index_or case.now.parts.channels (number - 1) d ≡ channel.now }
    requires states { states ≡ states_upto case.now.parts.channels number }
    requires few { states ≤ number }
    requires channel { IsChannel (sizes_of case.now.parts) channel.now }
    ensures { OnOk result (Puts out.old.items (channel_line case.now.parts number channel.now) out.new.items) }
{
    put_head(out, b"channel", number)?;
    put_word(out, measured_word(channel))?;
    put_measured(out, &case.parts, channel)?;
    put_name(out, case, number as usize - 1)?;
    put_record_number(out, channel.is_status(), number, states)?;
    Ok(())
}

/// Puts an entry with the number of a channel among those of its kind after a text.
fn put_record_number(
    out: &mut Vec<u8>,
    state: bool,
    number: u32,
    states: u32,
) -> Result<(), AllocError>
    requires { states ≤ number }
    ensures { OnOk result (Puts out.old.items (separated (record_entry state number states)) out.new.items) }
{
    if state {
        put_count(out, b"status channel", states as usize)
    } else {
        put_count(out, b"analog channel", number as usize - states as usize)
    }
}

/// Puts an entry with the name of a channel in the record, by its place, after a text.
fn put_name(out: &mut Vec<u8>, case: &Case, at: usize) -> Result<(), AllocError>
    requires { at < length case.now.parts.channels }
    ensures { OnOk result (Puts out.old.items
        (separated (word_entry (codes "name") (name_of_channel case.now.parts at))) out.new.items) }
{
    let mut name = [0; 16];
    let len = case.channel_name(at, &mut name);
    put_named(out, b"name", &name[..len])
}

fn measured_word(channel: &Channel) -> &'static [u8]
    ensures { result.now ≡ measured_word channel.now }
{
    match channel {
        Channel::NodeVoltage(_) => b"node voltage",
        Channel::BranchCurrent(_) => b"branch current",
        Channel::BranchVoltage(_) => b"branch voltage",
        Channel::SwitchCurrent(_) => b"switch current",
        Channel::SwitchVoltage(_) => b"switch voltage",
        Channel::Tacs(_) => b"variable of the control",
        Channel::Status(_) => b"switch state",
    }
}

/// Puts an entry with what a channel measures after a text.
fn put_measured(out: &mut Vec<u8>, parts: &Parts, channel: &Channel) -> Result<(), AllocError>
    requires { IsChannel (sizes_of parts.now) channel.now }
    ensures { OnOk result (Puts out.old.items (separated (measured_entry parts.now.nodes parts.now.vars channel.now))
        out.new.items) }
{
    match channel {
        Channel::NodeVoltage(node) => put_node(out, b"node", parts, *node),
        Channel::BranchCurrent(b) | Channel::BranchVoltage(b) => put_place(out, b"branch", *b),
        Channel::SwitchCurrent(s) | Channel::SwitchVoltage(s) | Channel::Status(s) => {
            put_place(out, b"switch", *s)
        }
        Channel::Tacs(v) => put_variable(out, b"variable", parts, *v),
    }
}
