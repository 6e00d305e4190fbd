//! The channels that a card asks for in column 80.

ghost use Rattle.emtp_case.specs.declared.limit.TheConstants.{MOST_BRANCHES, MOST_CHANNELS, MOST_NODES};
ghost use Rattle.std.specs.Prelude.{◌≡◌, ◌≤◌, ◌++◌, IfErr, OnOk};
ghost use Rattle.emtp_walk.specs.held.Answer.{IsWant};
ghost use Rattle.emtp_deck.specs.Made.{count_asked, no_room};
ghost use Rattle.emtp_deck.specs.Branches.{branch_channels};
ghost use Rattle.emtp_deck.specs.held.Branches.{line_channels};
ghost use Rattle.emtp_deck.specs.Channels.{channel_count, channels_of, status_of, switch_channel_count};

use crate::asked::Asked;
use emtp_card::Refused;
use emtp_case::{Channel, Items, MOST_CHANNELS};
use emtp_netcards::BranchCard;

/// Adds what a branch or a switch asks for, its current before its voltage.
pub(crate) fn ask(
    channels: &mut Items<Channel>,
    asked: u8,
    current: Channel,
    voltage: Channel,
) -> Result<(), Refused>
    ensures ok { OnOk result (channels.new ≡ channels.old ++ channels_of asked current voltage) }
    ensures err { IfErr result IsWant }
{
    match asked {
        0 => {}
        1 => channels.push(current)?,
        2 => channels.push(voltage)?,
        _ => {
            channels.push(current)?;
            channels.push(voltage)?;
        }
    }
    Ok(())
}

/// Asks for the channels of the branch at a place.
pub(crate) fn ask_branch(
    asked: &mut Items<Channel>,
    at: u32,
    card: &BranchCard,
) -> Result<(), Refused>
    ensures ok { OnOk result (asked.new ≡ asked.old ++ branch_channels at card.now) }
    ensures err { IfErr result IsWant }
{
    ask(
        asked,
        card.asked,
        Channel::BranchCurrent(at),
        Channel::BranchVoltage(at),
    )
}

/// Asks for the channels of a line whose first phase is at a place.
pub(crate) fn ask_line(
    asked: &mut Items<Channel>,
    at: u32,
    zero: &BranchCard,
    positive: &BranchCard,
    third: &BranchCard,
) -> Result<(), Refused>
    requires { at ≤ MOST_BRANCHES }
    ensures ok { OnOk result (asked.new ≡ asked.old ++ line_channels at zero.now positive.now third.now) }
    ensures err { IfErr result IsWant }
{
    ask_branch(asked, at, zero)?;
    ask_branch(asked, at + 1, positive)?;
    ask_branch(asked, at + 2, third)
}

/// How many channels a branch asks for.
pub(crate) fn channel_count(asked: u8) -> usize
    ensures value { result ≡ channel_count asked }
    ensures few { result ≤ 2 }
{
    match asked {
        0 => 0,
        1 | 2 => 1,
        _ => 2,
    }
}

/// Adds the state of a switch of which anything is asked.
pub(crate) fn ask_status(channels: &mut Items<Channel>, asked: u8, at: u32) -> Result<(), Refused>
    ensures ok { OnOk result (channels.new ≡ channels.old ++ status_of asked at) }
    ensures err { IfErr result IsWant }
{
    if asked != 0 {
        channels.push(Channel::Status(at))?;
    }
    Ok(())
}

/// How many channels a switch asks for, its state among them.
pub(crate) fn switch_channel_count(asked: u8) -> usize
    ensures value { result ≡ switch_channel_count asked }
    ensures few { result ≤ 3 }
{
    match asked {
        0 => 0,
        1 | 2 => 2,
        _ => 3,
    }
}

/// Whether a record has no room for so many channels more.
pub(crate) fn no_room(asked: &Asked, more: usize) -> bool
    requires few { count_asked asked.now ≤ MOST_CHANNELS }
    requires more { more ≤ MOST_NODES }
    ensures { result ≡ no_room asked.now more }
{
    MOST_CHANNELS < asked.count() + more
}
