//! The configuration of a record.
ghost use Rattle.std.specs.Prelude.{◌≡◌, ◌+◌, ◌<◌, ◌≤◌, ◌++◌, ℤ, unsigned_abs, List, length, OnOk};
ghost use Rattle.emtp_case.specs.ChannelName.{name_of_channel};
ghost use Rattle.emtp_fix.specs.declared.limit.TheConstants.{LARGEST_TIME};
ghost use Rattle.emtp_io.specs.held.Whole.{Appends};
ghost use Rattle.emtp_comtrade.specs.Record.{joined, unit_of, unit_at, analog_before, status_before, analog_line, analog_line_at, status_line, status_line_at, sample_time, cfg_head, cfg_tail, cfg_text};
ghost use Rattle.emtp_comtrade.specs.held.Record.{AreMultipliers};
ghost use Rattle.emtp_comtrade.specs.held.Stream.{Gathers};

use crate::multipliers::{is_status_at, multiplier_at};
use crate::stream::{flush, make_room};
use crate::text::{CHANNEL_ROOM, LINE_ROOM, TEXT_ROOM, Text};
use emtp_case::{Case, Channel, RunData};
use emtp_io::{Cabinet, Failed, Output};
use emtp_machine::Samples;

/// The most bytes of the name of a channel: a letter, a blank and two names of six bytes joined by a dash.
const NAME_ROOM: usize = 16;

/// Writes the configuration: the station, the channels, the number of samples and their times. The caller created
/// `Cfg`. It takes no memory.
#[tactic(auto, unfolding(crate::specs::Record::cfg_text))]
pub fn write_cfg<C: Cabinet>(
    cabinet: &mut C,
    case: &Case,
    samples: &Samples,
    multipliers: &[i64; 64],
) -> Result<(), Failed>
    requires channels { samples.now.channels ≡ length case.now.parts.channels }
    requires multipliers { AreMultipliers case.now.parts samples.now.rows multipliers.now }
    ensures { Appends (C.state cabinet.old) (C.state cabinet.new) Output.Cfg
        (cfg_text case.now.parts samples.now.rows) result }
{
    let mut text = Text::new();
    push_head(&mut text, case);
    write_analog_lines(cabinet, &mut text, case, samples, multipliers)?;
    write_status_lines(cabinet, &mut text, case)?;
    push_tail(&mut text, case, samples.count());
    flush(cabinet, Output::Cfg, &mut text)
}

/// Puts the station and the numbers of channels after the text.
#[tactic(auto, unfolding(crate::specs::Record::cfg_head))]
fn push_head(text: &mut Text, case: &Case)
    requires { length text.old + CHANNEL_ROOM ≤ TEXT_ROOM }
    ensures text { text.new ≡ text.old ++ cfg_head case.now.parts }
    ensures length { length text.new ≤ length text.old + CHANNEL_ROOM }
{
    text.push(b"EMTP,CASE,1999\r\n");
    text.push_number(case.parts.channels.len());
    text.push(b",");
    text.push_number(analog_count(case));
    text.push(b"A,");
    text.push_number(status_count(case));
    text.push(b"D\r\n");
}

/// The number of analog channels.
pub fn analog_count(case: &Case) -> usize
    ensures { result ≡ analog_before case.now.parts (length case.now.parts.channels) }
{
    let mut analog = 0;
    for place in 0..case.parts.channels.len() {
        analog += usize::from(!is_status_at(case, place));
    }
    analog
}

/// The number of status channels.
pub fn status_count(case: &Case) -> usize
    ensures { result ≡ status_before case.now.parts (length case.now.parts.channels) }
{
    let mut status = 0;
    for place in 0..case.parts.channels.len() {
        status += usize::from(is_status_at(case, place));
    }
    status
}

/// Puts a line for each analog channel after the text, which is written where it grows long.
fn write_analog_lines<C: Cabinet>(
    cabinet: &mut C,
    text: &mut Text,
    case: &Case,
    samples: &Samples,
    multipliers: &[i64; 64],
) -> Result<(), Failed>
    requires channels { samples.now.channels ≡ length case.now.parts.channels }
    requires multipliers { AreMultipliers case.now.parts samples.now.rows multipliers.now }
    requires room { length text.old + LINE_ROOM ≤ TEXT_ROOM }
    ensures text { Gathers (C.state cabinet.old) (C.state cabinet.new) Output.Cfg
        (text.old ++ joined (length case.now.parts.channels)
        (analog_line_at case.now.parts samples.now.rows)) text.new result }
    ensures room { OnOk result (length text.new + LINE_ROOM ≤ TEXT_ROOM) }
{
    let mut analog = 0;
    for place in 0..case.parts.channels.len() {
        analog = push_analog(text, case, multipliers, place, analog);
        make_room(cabinet, Output::Cfg, text)?;
    }
    Ok(())
}

/// Puts a line after the text, where an analog channel stands at the place. Answers how many analog channels stand up
/// to there.
fn push_analog(
    text: &mut Text,
    case: &Case,
    multipliers: &[i64; 64],
    place: usize,
    analog: usize,
) -> usize
    requires place { place < length case.now.parts.channels }
    requires analog { analog ≡ analog_before case.now.parts place }
    requires room { length text.old + CHANNEL_ROOM ≤ TEXT_ROOM }
    ensures length { length text.new ≤ length text.old + CHANNEL_ROOM }
    ensures analog { result ≡ analog_before case.now.parts (place + 1) }

    // Whatever the samples are that these are the multipliers of.
    ensures text { (samples : List (List ℤ)) → AreMultipliers case.now.parts samples multipliers.now
        → text.new ≡ text.old ++ analog_line_at case.now.parts samples place }
{
    if is_status_at(case, place) {
        return analog;
    }
    let multiplier = multiplier_at(case, multipliers, place, analog);
    push_analog_line(text, case, place, analog, multiplier);
    analog + 1
}

#[tactic(auto, unfolding(crate::specs::Record::analog_line))]
fn push_analog_line(text: &mut Text, case: &Case, place: usize, analog: usize, multiplier: i64)
    requires place { place < length case.now.parts.channels }
    requires analog { analog ≡ analog_before case.now.parts place }
    requires few { analog < 64 }
    requires room { length text.old + CHANNEL_ROOM ≤ TEXT_ROOM }
    ensures text { text.new ≡ text.old ++ analog_line case.now.parts multiplier place }
    ensures length { length text.new ≤ length text.old + CHANNEL_ROOM }
{
    text.push_number(analog + 1);
    text.push(b",");
    push_name(text, case, place);
    text.push(b",,,");
    text.push(unit_at(case, place));
    text.push(b",");
    text.push_fixed(multiplier, 9);
    text.push(b",0,0,-32767,32767,1,1,P\r\n");
}

/// The unit of the channel at a place, `V`, `A` or `PU`; a status channel has none.
pub fn unit_at(case: &Case, place: usize) -> &'static [u8]
    requires { place < length case.now.parts.channels }
    ensures unit { result.now ≡ unit_at case.now.parts place }
    ensures short { length result.now ≤ 2 }
{
    unit(case.parts.channels.as_slice()[place])
}

/// The unit of a channel; a status channel has none.
fn unit(channel: Channel) -> &'static [u8]
    ensures unit { result.now ≡ unit_of channel }
    ensures short { length result.now ≤ 2 }
{
    match channel {
        Channel::NodeVoltage(_) | Channel::BranchVoltage(_) | Channel::SwitchVoltage(_) => b"V",
        Channel::BranchCurrent(_) | Channel::SwitchCurrent(_) => b"A",
        Channel::Tacs(_) => b"PU",
        Channel::Status(_) => b"",
    }
}

/// Puts the name of a channel after the text.
fn push_name(text: &mut Text, case: &Case, place: usize)
    requires place { place < length case.now.parts.channels }
    requires room { length text.old + NAME_ROOM ≤ TEXT_ROOM }
    ensures text { text.new ≡ text.old ++ name_of_channel case.now.parts place }
    ensures length { length text.new ≤ length text.old + NAME_ROOM }
{
    let mut name = [0; NAME_ROOM];
    let len = case.channel_name(place, &mut name);
    text.push(&name[..len]);
}

/// Puts a line for each status channel after the text, which is written where it grows long.
fn write_status_lines<C: Cabinet>(
    cabinet: &mut C,
    text: &mut Text,
    case: &Case,
) -> Result<(), Failed>
    requires room { length text.old + LINE_ROOM ≤ TEXT_ROOM }
    ensures text { Gathers (C.state cabinet.old) (C.state cabinet.new) Output.Cfg
        (text.old ++ joined (length case.now.parts.channels) (status_line_at case.now.parts)) text.new result }
    ensures room { OnOk result (length text.new + LINE_ROOM ≤ TEXT_ROOM) }
{
    let mut status = 0;
    for place in 0..case.parts.channels.len() {
        status = push_status(text, case, place, status);
        make_room(cabinet, Output::Cfg, text)?;
    }
    Ok(())
}

/// Puts a line after the text, where a status channel stands at the place. Answers how many status channels stand up
/// to there.
fn push_status(text: &mut Text, case: &Case, place: usize, status: usize) -> usize
    requires place { place < length case.now.parts.channels }
    requires status { status ≡ status_before case.now.parts place }
    requires room { length text.old + CHANNEL_ROOM ≤ TEXT_ROOM }
    ensures text { text.new ≡ text.old ++ status_line_at case.now.parts place }
    ensures length { length text.new ≤ length text.old + CHANNEL_ROOM }
    ensures status { result ≡ status_before case.now.parts (place + 1) }
{
    if !is_status_at(case, place) {
        return status;
    }
    push_status_line(text, case, place, status);
    status + 1
}

#[tactic(auto, unfolding(crate::specs::Record::status_line))]
fn push_status_line(text: &mut Text, case: &Case, place: usize, status: usize)
    requires place { place < length case.now.parts.channels }
    requires status { status ≡ status_before case.now.parts place }
    requires few { status < 64 }
    requires room { length text.old + CHANNEL_ROOM ≤ TEXT_ROOM }
    ensures text { text.new ≡ text.old ++ status_line case.now.parts place }
    ensures length { length text.new ≤ length text.old + CHANNEL_ROOM }
{
    text.push_number(status + 1);
    text.push(b",");
    push_name(text, case, place);
    text.push(b",,,0\r\n");
}

/// Puts what stands after the channels after the text.
#[tactic(auto, unfolding(crate::specs::Record::cfg_tail))]
fn push_tail(text: &mut Text, case: &Case, samples: u32)
    requires { length text.old + LINE_ROOM ≤ TEXT_ROOM }
    ensures text { text.new ≡ text.old ++ cfg_tail case.now.parts samples }
{
    text.push(b"60\r\n0\r\n0,");
    text.push_number(samples);
    text.push(b"\r\n01/01/2000,00:00:00.000000\r\n01/01/2000,00:00:00.000000\r\nASCII\r\n");
    text.push_fixed(sample_time(case), 6);
    text.push(b"\r\n");
}

/// The time between two samples in ps, from 1,000 to 1e18.
pub fn sample_time(case: &Case) -> i64
    ensures value { result ≡ sample_time case.now.parts }
    ensures bound { unsigned_abs result ≤ LARGEST_TIME }
{
    i64::from(case.parts.run.every) * case.parts.run.dt
}
