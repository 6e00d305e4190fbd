//! Which card asks for each channel of the record.

ghost use Rattle.std.specs.Prelude.{◌≡◌, ◌++◌, ◌≤◌, IfOk, OnOk, count_by, is_some, length, replicate};
ghost use Rattle.emtp_deck.specs.Channels.{channel_count};
ghost use Rattle.emtp_inspect.specs.ChannelCards.{asked_in, asking_lines, channel_text, channel_texts, channels_text, lines_of_channels};

use crate::each_card::{Shown, branch_in};
use emtp_card::{Line, MAX_BYTES};
use emtp_case::{Case, Name};
use emtp_netcards::{OutputCard, outputs, switch};
use emtp_taccards::tacs_outputs;
use emtp_text::{put, put_number};
use emtp_walk::{Kind, read_at};
use std::alloc::{AllocError, Global};

/// What channels are of. A record has the channels of one group behind those of the group before it.
#[derive(Clone, Copy)]
pub(crate) enum Group {
    /// Voltages of nodes, which output cards ask for.
    NodeVoltages,
    /// Currents and voltages of branches.
    BranchValues,
    /// Currents and voltages of switches.
    SwitchValues,
    /// Variables of the control, which its output cards ask for.
    ControlVariables,
    /// States of switches of which anything is asked.
    SwitchStates,
}

/// Puts a line after a text for each channel of a case: which card asks for it.
pub(crate) fn put_channels(
    alloc: Global,
    out: &mut Vec<u8>,
    shown: Shown<'_>,
) -> Result<(), AllocError>
    ensures { OnOk result (out.new.items ≡ out.old.items
        ++ channels_text shown.entry.readings.now shown.entry.cards.now shown.entry.case.now.parts) }
{
    let lines = lines_of_channels(alloc, shown)?;
    put_lines(out, &lines)
}

/// The line of the card that asks for each channel, in the order of the record.
fn lines_of_channels(alloc: Global, shown: Shown<'_>) -> Result<Vec<u32>, AllocError>
    ensures { IfOk result (λ lines. lines.items
        ≡ lines_of_channels shown.entry.readings.now shown.entry.cards.now shown.entry.case.now.parts) }
{
    let mut lines = Vec::new(alloc);
    add_group(&mut lines, Group::NodeVoltages, shown)?;
    add_group(&mut lines, Group::BranchValues, shown)?;
    add_group(&mut lines, Group::SwitchValues, shown)?;
    add_group(&mut lines, Group::ControlVariables, shown)?;
    add_group(&mut lines, Group::SwitchStates, shown)?;
    Ok(lines)
}

/// Adds the lines that ask for the channels of a group.
fn add_group(lines: &mut Vec<u32>, group: Group, shown: Shown<'_>) -> Result<(), AllocError>
    ensures { OnOk result (lines.new.items ≡ lines.old.items
        ++ asking_lines shown.entry.readings.now shown.entry.cards.now shown.entry.case.now.parts group) }
{
    for at in 0..shown.cards.len().min(shown.readings.len()) {
        let line = shown.cards.line(at);
        let read = read_at(shown.readings, at);
        let count = asked_in(shown.case, group, &line, read.kind);
        add_times(lines, count, line.number)?;
    }
    Ok(())
}

/// Adds a number so many times.
fn add_times(lines: &mut Vec<u32>, count: usize, number: u32) -> Result<(), AllocError>
    ensures { OnOk result (lines.new.items ≡ lines.old.items ++ replicate count number) }
{
    for _ in 0..count {
        lines.push(number)?;
    }
    Ok(())
}

/// How many channels of a group a card asks for: a channel for each name, or for each node, and the state of a switch of which
/// anything is asked.
fn asked_in(case: &Case, group: Group, line: &Line<'_>, kind: Kind) -> usize
    requires { length line.now.bytes.now ≤ MAX_BYTES }
    ensures { result ≡ asked_in case.now.parts group line.now.number line.now.bytes.now kind }
{
    match (group, kind) {
        (Group::NodeVoltages, Kind::Output) => match outputs(*line) {
            Ok(OutputCard::All) => case.parts.nodes.len(),
            Ok(OutputCard::Names(names)) => name_count(&names),
            Err(_) => 0,
        },
        (Group::BranchValues, _) => match branch_in(case, line, kind) {
            Some(card) => channel_count(card.asked),
            None => 0,
        },
        (Group::SwitchValues, Kind::Switch) => match switch(*line) {
            Ok(card) => channel_count(card.asked),
            Err(_) => 0,
        },
        (Group::ControlVariables, Kind::TacsOutput) => match tacs_outputs(*line) {
            Ok(names) => name_count(&names),
            Err(_) => 0,
        },
        (Group::SwitchStates, Kind::Switch) => match switch(*line) {
            Ok(card) => if card.asked == 0 { 0 } else { 1 },
            Err(_) => 0,
        },
        _ => 0,
    }
}

/// How many names aren't blank.
fn name_count(names: &[Option<Name>]) -> usize
    ensures { result ≡ count_by is_some names.now }
{
    names.iter().filter(|name| name.is_some()).count()
}

/// How many channels column 80 asks for: the current, the voltage, or both.
fn channel_count(asked: u8) -> usize
    ensures { result ≡ channel_count asked }
{
    match asked {
        0 => 0,
        1 | 2 => 1,
        _ => 2,
    }
}

/// Puts a line after a text for each of these, which ask for the channels from the first one on.
fn put_lines(out: &mut Vec<u8>, lines: &[u32]) -> Result<(), AllocError>
    ensures { OnOk result (out.new.items ≡ out.old.items ++ channel_texts 1 lines.now) }
{
    for at in 0..lines.len() {
        put_channel(out, at + 1, lines[at])?;
    }
    Ok(())
}

#[tactic(auto, unfolding(crate::specs::ChannelCards::channel_text))]
fn put_channel(out: &mut Vec<u8>, channel: usize, line: u32) -> Result<(), AllocError>
    ensures { OnOk result (out.new.items ≡ out.old.items ++ channel_text channel line) }
{
    put(out, b"line ")?;
    put_number(out, line)?;
    put(out, b", asks for channel=")?;
    put_number(out, channel)?;
    put(out, b"\n")
}
