//! The lines of the data.
ghost use Rattle.std.specs.Prelude.{true, ◌≡◌, ◌≢◌, ℕ, ◌+◌, ◌*◌, ◌^◌, ◌<◌, ◌≤◌, ◌++◌, pos, ◌<ℤ◌, ◌-ℤ◌, ◌*ℤ◌, unsigned_abs, length, ◌==◌, OnOk};
ghost use Rattle.emtp_fix.specs.Rounding.{near, near_abs};
ghost use Rattle.emtp_io.specs.held.Whole.{Appends};
ghost use Rattle.emtp_comtrade.specs.Record.{joined, is_status_at, analog_before, raw_at, state_at, dat_line, dat_text};
ghost use Rattle.emtp_comtrade.specs.held.Record.{AreMultipliers, IsSheet};
ghost use Rattle.emtp_comtrade.specs.held.Stream.{Gathers};

use crate::multipliers::{is_status_at, multiplier_at};
use crate::stream::{flush, make_room};
use crate::text::{LINE_ROOM, NUMBER_ROOM, TEXT_ROOM, Text};
use emtp_case::Case;
use emtp_fix::near;
use emtp_io::{Cabinet, Failed, Output};
use emtp_machine::Samples;

/// The most channels of a case.
const CHANNELS: usize = 64;

/// The most bytes of a comma and a raw value.
const RAW_ROOM: usize = NUMBER_ROOM + 1;

/// The bytes of a comma and a state.
const STATE_ROOM: usize = 2;

/// What the data is made of.
#[derive(Clone, Copy)]
pub(crate) struct Sheet<'a> {
    /// The case.
    case: &'a Case,
    /// Its samples.
    samples: &'a Samples,
    /// The multipliers of its analog channels, and 1 after them.
    multipliers: &'a [i64; 64],
    /// The words of the multipliers, each of which divides once a sample.
    words: &'a [u64; 64],
}

/// The raw value of an analog channel: the nearest whole number of multipliers, a half away from zero. It lies at
/// most half a multiplier from the value, and within -32767 to 32767 for a multiplier of [`scales`](crate::scales).
#[tactic(auto, using(crate::proofs::Lines::rounding))]
pub fn raw_value(value: i64, multiplier: i64) -> i128
    requires { multiplier ≢ pos 0 }
    ensures value { result ≡ near value multiplier }
    ensures close { 2 * unsigned_abs (value -ℤ result *ℤ multiplier) ≤ unsigned_abs multiplier }
{
    near(i128::from(value), i128::from(multiplier))
}

/// The same in 64 bits, where it fits 16, without a division where `word` is that of the multiplier.
fn raw_value_by(value: i64, multiplier: i64, word: u64) -> i64
    requires positive { pos 0 <ℤ multiplier }
    requires held { unsigned_abs (near value multiplier) ≤ 32767 }
    ensures value { result ≡ near value multiplier }
    ensures small { unsigned_abs result ≤ 32767 }
{
    let magnitude = raw_magnitude(value.unsigned_abs(), multiplier.unsigned_abs(), word);
    with_sign_of(value, magnitude)
}

fn with_sign_of(value: i64, magnitude: u64) -> i64
    requires { magnitude ≤ 32767 }
    ensures { (d : ℕ) → magnitude ≡ near_abs (unsigned_abs value) d → result ≡ near value (pos d) }
{
    if value < 0 {
        -(magnitude as i64)
    } else {
        magnitude as i64
    }
}

/// The word gives a guess, which is checked. With any other word the answer is the same, by a division.
fn raw_magnitude(value: u64, multiplier: u64, word: u64) -> u64
    requires positive { 0 < multiplier }
    requires value { value ≤ 2 ^ 63 }
    ensures { result ≡ near_abs value multiplier }
{
    let raised = value + multiplier / 2;
    let guess = guess(raised, multiplier, word);
    if is_quotient(raised, multiplier, guess) {
        guess
    } else {
        raised / multiplier
    }
}

/// A guess of `x / multiplier`. It is right where `word` is that of the multiplier.
fn guess(x: u64, multiplier: u64, word: u64) -> u64 {
    let low = (u128::from(x).wrapping_mul(u128::from(word)) / (1 << 64)) as u64;
    let left = x.wrapping_sub(low.wrapping_mul(multiplier));
    if left >= multiplier {
        low.wrapping_add(1)
    } else {
        low
    }
}

/// Whether `guess` is `x / multiplier`.
fn is_quotient(x: u64, multiplier: u64, guess: u64) -> bool
    ensures { result ≡ true → (guess * multiplier ≤ x) × (x < guess * multiplier + multiplier) }
{
    let product = u128::from(guess) * u128::from(multiplier);
    product <= u128::from(x) && u128::from(x) - product < u128::from(multiplier)
}

/// The words of the multipliers: (2^64 - 1) / multiplier.
fn words_of(multipliers: &[i64; 64]) -> [u64; 64] {
    let mut words = [0; 64];
    for channel in 0..64 {
        words[channel] = u64::MAX / multipliers[channel].unsigned_abs().max(1);
    }
    words
}

/// Writes the data: a line a sample, and the end mark. The caller created `Dat`. It takes no memory.
#[tactic(auto, unfolding(crate::specs::Record::dat_text))]
pub fn write_dat<C: Cabinet>(
    cabinet: &mut C,
    case: &Case,
    samples: &Samples,
    multipliers: &[i64; 64],
) -> Result<(), Failed>
    requires channels { samples.now.channels ≡ length case.now.parts.channels }
    requires multipliers { AreMultipliers case.now.parts samples.now.rows multipliers.now }
    ensures { Appends (C.state cabinet.old) (C.state cabinet.new) Output.Dat
        (dat_text case.now.parts samples.now.rows) result }
{
    let words = words_of(multipliers);
    let mut text = Text::new();
    let sheet = Sheet {
        case,
        samples,
        multipliers,
        words: &words,
    };
    write_samples(cabinet, &mut text, &sheet)?;
    text.push(b"\x1a");
    flush(cabinet, Output::Dat, &mut text)
}

/// Puts a line a sample after the text, which is written where it grows long.
fn write_samples<C: Cabinet>(
    cabinet: &mut C,
    text: &mut Text,
    sheet: &Sheet<'_>,
) -> Result<(), Failed>
    requires sheet { IsSheet sheet.now }
    requires room { length text.old + LINE_ROOM ≤ TEXT_ROOM }
    ensures text { Gathers (C.state cabinet.old) (C.state cabinet.new) Output.Dat
        (text.old ++ joined (length sheet.now.samples.now.rows)
        (dat_line sheet.now.case.now.parts sheet.now.samples.now.rows)) text.new result }
    ensures room { OnOk result (length text.new + LINE_ROOM ≤ TEXT_ROOM) }
{
    for sample in 0..sheet.samples.count() {
        push_sample(text, sheet, sample);
        make_room(cabinet, Output::Dat, text)?;
    }
    Ok(())
}

/// Puts the line of a sample after the text.
#[tactic(auto, unfolding(crate::specs::Record::dat_line))]
pub fn push_sample(text: &mut Text, sheet: &Sheet<'_>, sample: u32)
    requires sheet { IsSheet sheet.now }
    requires sample { sample < length sheet.now.samples.now.rows }
    requires room { length text.old + LINE_ROOM ≤ TEXT_ROOM }
    ensures text { text.new ≡ text.old ++ dat_line sheet.now.case.now.parts sheet.now.samples.now.rows sample }
    ensures length { length text.new ≤ length text.old + LINE_ROOM }
{
    text.push_number(u64::from(sample) + 1);
    text.push(b",");
    text.push_number(sample);
    push_raws(text, sheet, sample);
    push_states(text, sheet, sample);
    text.push(b"\r\n");
}

/// Puts a comma and the raw value of each analog channel after the text.
fn push_raws(text: &mut Text, sheet: &Sheet<'_>, sample: u32)
    requires sheet { IsSheet sheet.now }
    requires sample { sample < length sheet.now.samples.now.rows }
    requires room { length text.old + CHANNELS * RAW_ROOM ≤ TEXT_ROOM }
    ensures text { text.new ≡ text.old ++ joined (length sheet.now.case.now.parts.channels)
        (raw_at sheet.now.case.now.parts sheet.now.samples.now.rows sample) }
    ensures length { length text.new ≤ length text.old + CHANNELS * RAW_ROOM }
{
    let mut analog = 0;
    for place in 0..sheet.case.parts.channels.len() {
        analog = push_raw(text, sheet, sample, place, analog);
    }
}

/// Puts a comma and the raw value after the text, where an analog channel stands at the place. Answers
/// how many analog channels stand up to there.
fn push_raw(text: &mut Text, sheet: &Sheet<'_>, sample: u32, place: usize, analog: usize) -> usize
    requires sheet { IsSheet sheet.now }
    requires sample { sample < length sheet.now.samples.now.rows }
    requires place { place < length sheet.now.case.now.parts.channels }
    requires analog { analog ≡ analog_before sheet.now.case.now.parts place }
    requires room { length text.old + RAW_ROOM ≤ TEXT_ROOM }
    ensures text { text.new ≡ text.old ++ raw_at sheet.now.case.now.parts sheet.now.samples.now.rows sample place }
    ensures length { length text.new ≤ length text.old + RAW_ROOM }
    ensures analog { result ≡ analog_before sheet.now.case.now.parts (place + 1) }
{
    if is_status_at(sheet.case, place) {
        return analog;
    }
    text.push_byte(b',');
    let multiplier = multiplier_at(sheet.case, sheet.multipliers, place, analog);
    let value = sheet.samples.value(sample, place);
    text.push_short(raw_value_by(value, multiplier, sheet.words[analog]));
    analog + 1
}

/// Puts a comma and the state of each status channel after the text.
fn push_states(text: &mut Text, sheet: &Sheet<'_>, sample: u32)
    requires sheet { IsSheet sheet.now }
    requires sample { sample < length sheet.now.samples.now.rows }
    requires room { length text.old + CHANNELS * STATE_ROOM ≤ TEXT_ROOM }
    ensures text { text.new ≡ text.old ++ joined (length sheet.now.case.now.parts.channels)
        (state_at sheet.now.case.now.parts sheet.now.samples.now.rows sample) }
    ensures length { length text.new ≤ length text.old + CHANNELS * STATE_ROOM }
{
    for place in 0..sheet.case.parts.channels.len() {
        push_state(text, sheet, sample, place);
    }
}

/// Puts a comma and the state after the text, where a status channel stands at the place.
fn push_state(text: &mut Text, sheet: &Sheet<'_>, sample: u32, place: usize)
    requires sheet { IsSheet sheet.now }
    requires sample { sample < length sheet.now.samples.now.rows }
    requires place { place < length sheet.now.case.now.parts.channels }
    requires room { length text.old + STATE_ROOM ≤ TEXT_ROOM }
    ensures text { text.new ≡ text.old ++ state_at sheet.now.case.now.parts sheet.now.samples.now.rows sample place }
    ensures length { length text.new ≤ length text.old + STATE_ROOM }
{
    if !is_status_at(sheet.case, place) {
        return;
    }
    if is_zero(sheet.samples.value(sample, place)) {
        text.push(b",0");
    } else {
        text.push(b",1");
    }
}

fn is_zero(value: i64) -> bool
    ensures { result ≡ (unsigned_abs value == 0) }
{
    value.unsigned_abs() == 0
}
