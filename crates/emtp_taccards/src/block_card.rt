//! Block cards.

ghost use Rattle.std.specs.Prelude.{◌≡◌, ◌≢◌, ◌≤◌, false, length, pos, IfOk};
ghost use Rattle.std.specs.Option.{ForSome};
ghost use Rattle.emtp_netcards.specs.held.Fields.{IsSmall};
ghost use Rattle.emtp_taccards.specs.BlockCard.{are_crossed, block_card, block_record, block_with, fields_of, gain_field, in_order, limits_of, order_and_name, order_field, order_of};
ghost use Rattle.emtp_taccards.specs.held.BlockCard.{HasBlockNumbers, HasLimitsInOrder};

use crate::inputs::inputs;
use emtp_card::{
    Bad, Fault, Line, MAX_BYTES, NumberField, Why, field_name, field_whole, in_column,
};
use emtp_case::Name;
use emtp_fix::{LARGEST_COEFFICIENT, LARGEST_VALUE, PICO};
use emtp_netcards::{both, card_on, needed_name};

/// The gain, in 10^-12; 0 means 1.
const GAIN: NumberField = NumberField {
    first: 51,
    last: 56,
    scale: 12,
    low: -(LARGEST_COEFFICIENT as i64),
    high: LARGEST_COEFFICIENT as i64,
};

/// The fixed low limit, in nano.
const LOW: NumberField = NumberField {
    first: 57,
    last: 62,
    scale: 9,
    low: -(LARGEST_VALUE as i64),
    high: LARGEST_VALUE as i64,
};

/// The fixed high limit, in nano.
const HIGH: NumberField = NumberField {
    first: 63,
    last: 68,
    scale: 9,
    low: -(LARGEST_VALUE as i64),
    high: LARGEST_VALUE as i64,
};

/// 1 in the unit of a gain.
const ONE: i64 = PICO as i64;

/// The fixed limits, low and high, and the names of those that a variable is.
type BlockLimits = ((Option<i64>, Option<i64>), (Option<Name>, Option<Name>));

/// A block card, its names not resolved. An order above 0 is followed by the cards of numerator and denominator.
#[derive(Clone, Copy)]
pub struct BlockCard {
    /// The number of its line, from 1.
    pub line: u32,
    /// The name of its variable.
    pub name: Name,
    /// The order: from 0 to 7.
    pub order: u8,
    /// The inputs: whether each counts with a minus sign, and its name.
    pub inputs: [Option<(bool, Name)>; 5],
    /// The gain, in 10^-12: not 0, to 10^18 in magnitude.
    pub gain: i64,
    /// The fixed low limit of the output, in nano: to 10^18 in magnitude; it doesn't count where it is named too.
    pub low: Option<i64>,
    /// The fixed high limit of the output, in nano: to 10^18 in magnitude; it doesn't count where it is named too.
    pub high: Option<i64>,
    /// The variable that is the low limit, where it is named.
    pub low_name: Option<Name>,
    /// The variable that is the high limit, where it is named.
    pub high_name: Option<Name>,
}

/// Reads a block card.
///
/// A refusal is the fault of the line's bytes, else the least fault of its fields and rules.
#[tactic(auto, unfolding(crate::specs::BlockCard::block_card))]
pub fn block(line: Line<'_>) -> Result<BlockCard, Bad>
    requires { length line.bytes.now ≤ MAX_BYTES }
    ensures value { result ≡ block_card line.entry.number line.entry.bytes.now }
    ensures numbers { IfOk result HasBlockNumbers }
    ensures limits { IfOk result HasLimitsInOrder }
{
    card_on(&line, fields(line.number, line.bytes))
}

#[tactic(auto, unfolding(crate::specs::BlockCard::fields_of))]
fn fields(number: u32, line: &[u8]) -> Result<BlockCard, Fault>
    ensures value { result ≡ fields_of number line.now }
    ensures numbers { IfOk result HasBlockNumbers }
    ensures limits { IfOk result HasLimitsInOrder }
{
    let head = order_and_name(line);
    block_with(number, head, inputs(line), gain(line), limits(line))
}

fn block_with(
    number: u32,
    head: Result<(u8, Name), Fault>,
    inputs: Result<[Option<(bool, Name)>; 5], Fault>,
    gain: Result<i64, Fault>,
    limits: Result<BlockLimits, Fault>,
) -> Result<BlockCard, Fault>
    requires order { IfOk head (λ head. head.0 ≤ 7) }
    requires some_gain { IfOk gain (λ gain. gain ≢ pos 0) }
    requires gain { IfOk gain IsSmall }
    requires low { IfOk limits (λ limits. ForSome limits.0.0 IsSmall) }
    requires high { IfOk limits (λ limits. ForSome limits.0.1 IsSmall) }
    requires uncrossed { IfOk limits (λ limits. are_crossed limits.0.0 limits.0.1 limits.1.0 limits.1.1 ≡ false) }
    ensures value { result ≡ block_with number head inputs gain limits }
    ensures numbers { IfOk result HasBlockNumbers }
    ensures limits { IfOk result HasLimitsInOrder }
{
    let ((head, inputs), (gain, limits)) = both(both(head, inputs), both(gain, limits))?;
    Ok(block_record(number, head, inputs, gain, limits))
}

fn block_record(
    number: u32,
    head: (u8, Name),
    inputs: [Option<(bool, Name)>; 5],
    gain: i64,
    limits: BlockLimits,
) -> BlockCard
    requires order { head.0 ≤ 7 }
    requires some_gain { gain ≢ pos 0 }
    requires gain { IsSmall gain }
    requires low { ForSome limits.0.0 IsSmall }
    requires high { ForSome limits.0.1 IsSmall }
    requires uncrossed { are_crossed limits.0.0 limits.0.1 limits.1.0 limits.1.1 ≡ false }
    ensures value { result ≡ block_record number head inputs gain limits }
    ensures numbers { HasBlockNumbers result }
    ensures limits { HasLimitsInOrder result }
{
    let (order, name) = head;
    let ((low, high), (low_name, high_name)) = limits;
    BlockCard {
        line: number,
        name,
        order,
        inputs,
        gain,
        low,
        high,
        low_name,
        high_name,
    }
}

#[tactic(auto, unfolding(crate::specs::BlockCard::order_and_name))]
fn order_and_name(line: &[u8]) -> Result<(u8, Name), Fault>
    ensures value { result ≡ order_and_name line.now }
    ensures few { IfOk result (λ head. head.0 ≤ 7) }
{
    both(
        in_column(1, order(line)),
        in_column(3, needed_name(line, 3)),
    )
}

fn order(line: &[u8]) -> Result<u8, Why>
    ensures value { result ≡ order_field line.now }
    ensures few { IfOk result (λ order. order ≤ 7) }
{
    match field_whole(line, 1, 2) {
        Ok(None) => Ok(0),
        Ok(Some(number)) => order_of(number),
        Err(why) => Err(why),
    }
}

fn order_of(number: i64) -> Result<u8, Why>
    ensures value { result ≡ order_of number }
    ensures few { IfOk result (λ order. order ≤ 7) }
{
    if number < 0 || 7 < number {
        Err(Why::OutOfUnitRange)
    } else {
        Ok(number as u8)
    }
}

fn gain(line: &[u8]) -> Result<i64, Fault>
    ensures value { result ≡ gain_field line.now }
    ensures some { IfOk result (λ gain. gain ≢ pos 0) }
    ensures small { IfOk result IsSmall }
{
    match GAIN.number_or(0, line) {
        Ok(0) => Ok(ONE),
        Ok(gain) => Ok(gain),
        Err(fault) => Err(fault),
    }
}

/// The limits: two fixed ones don't cross, where neither is replaced by a named one.
#[tactic(auto, unfolding(crate::specs::BlockCard::limits_of))]
fn limits(line: &[u8]) -> Result<BlockLimits, Fault>
    ensures value { result ≡ limits_of line.now }
    ensures low { IfOk result (λ limits. ForSome limits.0.0 IsSmall) }
    ensures high { IfOk result (λ limits. ForSome limits.0.1 IsSmall) }
    ensures uncrossed { IfOk result (λ limits. are_crossed limits.0.0 limits.0.1 limits.1.0 limits.1.1 ≡ false) }
{
    let low = LOW.number(line);
    let high = HIGH.number(line);
    let low_name = in_column(69, field_name(line, 69));
    let high_name = in_column(75, field_name(line, 75));
    let ((low, high), (low_name, high_name)) = both(both(low, high), both(low_name, high_name))?;
    in_order(low, high, low_name, high_name)
}

fn in_order(
    low: Option<i64>,
    high: Option<i64>,
    low_name: Option<Name>,
    high_name: Option<Name>,
) -> Result<BlockLimits, Fault>
    requires low { ForSome low IsSmall }
    requires high { ForSome high IsSmall }
    ensures value { result ≡ in_order low high low_name high_name }
    ensures low { IfOk result (λ limits. ForSome limits.0.0 IsSmall) }
    ensures high { IfOk result (λ limits. ForSome limits.0.1 IsSmall) }
    ensures uncrossed { IfOk result (λ limits. are_crossed limits.0.0 limits.0.1 limits.1.0 limits.1.1 ≡ false) }
{
    if are_crossed(&low, &high, &low_name, &high_name) {
        Err(Fault {
            column: 57,
            why: Why::OutOfUnitRange,
        })
    } else {
        Ok(((low, high), (low_name, high_name)))
    }
}

fn are_crossed(
    low: &Option<i64>,
    high: &Option<i64>,
    low_name: &Option<Name>,
    high_name: &Option<Name>,
) -> bool
    ensures { result ≡ are_crossed low.now high.now low_name.now high_name.now }
{
    match (low, high, low_name, high_name) {
        (Some(low), Some(high), None, None) => high < low,
        _ => false,
    }
}
