//! The lines that tell what the records of a run say of its nonlinear resistors and reactors.
ghost use Rattle.std.specs.Prelude.{◌≡◌, ◌++◌, ◌≤◌, OnOk};
ghost use Rattle.emtp_assess.specs.JudgedLines.{branch_line, capped, count_text, false_line, false_text, false_word, farthest_line, farthest_text, judged_lines, judged_text, on_text, peak_line, peak_text, peak_word, place_text, place_word, point_text, quantity};
ghost use Rattle.emtp_assess.specs.declared.texts.TheConstants.{CHARACTERISTIC};
ghost use Rattle.emtp_machine.specs.Channels.{within_range};

use crate::fronts::{put_branch_front, put_front};
use crate::texts::{
    AMPERE, BY, CHARACTERISTIC, CURRENT, CURRENT_OFF, CURRENT_ON, FALSE_CURRENT, FALSE_VOLTAGE,
    FARTHEST, FLUX, OFF_IN_SAMPLES, OFF_IN_STEPS, STEP, VOLT, VOLTAGE, VOLTAGE_OFF, VOLTAGE_ON,
    WEBER,
};
use emtp_case::{Branch, Name, Pseudo};
use emtp_fix::LARGEST_VALUE;
use emtp_text::{put, put_fixed, put_number};
use emtp_worth::{Found, Judged, Reading};
use std::alloc::AllocError;

// ---- the pieces of a line

/// Puts an entry with a count after a text.
#[tactic(auto, unfolding(crate::specs::JudgedLines::count_text))]
pub(crate) fn put_count(text: &mut Vec<u8>, name: &[u8], count: u32) -> Result<(), AllocError>
    ensures { OnOk result (text.new.items ≡ text.old.items ++ count_text name.now count) }
{
    put(text, b", ")?;
    put(text, name)?;
    put(text, b"=")?;
    put_number(text, count)
}

/// Puts an entry with a number in parts of 10^-places after a text; a unit begins with a blank.
#[tactic(auto, unfolding(crate::specs::JudgedLines::quantity))]
pub(crate) fn put_quantity(
    text: &mut Vec<u8>,
    name: &[u8],
    places: usize,
    unit: &[u8],
    value: &i64,
) -> Result<(), AllocError>
    requires { places ≤ 18 }
    ensures { OnOk result (text.new.items ≡ text.old.items ++ quantity name.now places unit.now value.now) }
{
    put(text, b", ")?;
    put(text, name)?;
    put(text, b"=")?;
    put_fixed(text, *value, places)?;
    put(text, unit)
}

/// Puts an entry with what a characteristic is over after a text: a voltage in nV, of a reactor a flux in pWb.
fn put_place(text: &mut Vec<u8>, reactor: bool, name: &[u8], value: &i64) -> Result<(), AllocError>
    ensures { OnOk result (text.new.items ≡ text.old.items ++ place_text reactor name.now value.now) }
{
    if reactor {
        put_quantity(text, name, 12, WEBER, value)
    } else {
        put_quantity(text, name, 9, VOLT, value)
    }
}

/// Puts the voltage of a point after a text, in nV; of a reactor the flux in pWb.
fn put_value(text: &mut Vec<u8>, reactor: bool, value: &i64) -> Result<(), AllocError>
    ensures { OnOk result (text.new.items ≡ text.old.items ++ place_text reactor (place_word reactor) value.now) }
{
    put_place(text, reactor, place_word(reactor), value)
}

/// Puts what a characteristic has at a current after a text: a voltage in nV, of a reactor a flux in pWb.
fn put_due(text: &mut Vec<u8>, reactor: bool, due: &i128) -> Result<(), AllocError>
    ensures { OnOk result (text.new.items
        ≡ text.old.items ++ place_text reactor CHARACTERISTIC.now (within_range due.now)) }
{
    let due = within_range(*due);
    put_place(text, reactor, CHARACTERISTIC, &due)
}

/// Puts the greatest magnitude of the points on a characteristic after a text: a voltage in nV, of a reactor a current in nA.
fn put_on(text: &mut Vec<u8>, reactor: bool, value: &i64) -> Result<(), AllocError>
    ensures { OnOk result (text.new.items ≡ text.old.items ++ on_text reactor value.now) }
{
    if reactor {
        put_quantity(text, CURRENT_ON, 9, AMPERE, value)
    } else {
        put_quantity(text, VOLTAGE_ON, 9, VOLT, value)
    }
}

/// A number held to 10^18.
fn within_range(x: i128) -> i64
    ensures { result ≡ within_range x }
{
    let most = LARGEST_VALUE as i128;
    x.clamp(-most, most) as i64
}

/// A magnitude held to 10^18.
fn capped(x: u128) -> i64
    ensures { result ≡ capped x }
{
    x.min(LARGEST_VALUE as u128) as i64
}

// ---- words by the kind of a branch

fn place_word(reactor: bool) -> &'static [u8]
    ensures { result.now ≡ place_word reactor }
{
    if reactor { FLUX } else { VOLTAGE }
}

fn peak_word(reactor: bool) -> &'static [u8]
    ensures { result.now ≡ peak_word reactor }
{
    if reactor { CURRENT_OFF } else { VOLTAGE_OFF }
}

fn false_word(reactor: bool) -> &'static [u8]
    ensures { result.now ≡ false_word reactor }
{
    if reactor {
        FALSE_CURRENT
    } else {
        FALSE_VOLTAGE
    }
}

// ---- the lines of a branch

/// Puts a point after a text, with what the characteristic has at its current.
#[tactic(auto, unfolding(crate::specs::JudgedLines::point_text))]
fn put_point(text: &mut Vec<u8>, reactor: bool, r: &Reading) -> Result<(), AllocError>
    ensures { OnOk result (text.new.items ≡ text.old.items ++ point_text reactor r.now) }
{
    put_count(text, STEP, r.step)?;
    put_quantity(text, CURRENT, 9, AMPERE, &r.current)?;
    put_value(text, reactor, &r.value)?;
    put_due(text, reactor, &r.due)
}

/// Puts how often the points of a branch lay off its characteristic, and the greatest of those that lay on it.
#[tactic(auto, unfolding(crate::specs::JudgedLines::branch_line))]
fn put_branch(text: &mut Vec<u8>, nodes: &[Name], j: &Judged) -> Result<(), AllocError>
    ensures { OnOk result (text.new.items ≡ text.old.items ++ branch_line nodes.now j.now) }
{
    let greatest = capped(u128::from(j.found.greatest));
    put_branch_front(text, nodes, &Branch::Pseudo(j.card))?;
    put_count(text, OFF_IN_STEPS, j.found.steps)?;
    put_count(text, OFF_IN_SAMPLES, j.found.samples)?;
    put_on(text, j.card.reactor, &greatest)?;
    put(text, b"\n")
}

/// Puts the line of a point off a characteristic that has the greatest voltage, of a reactor the greatest current.
#[tactic(auto, unfolding(crate::specs::JudgedLines::peak_line))]
fn put_peak_line(
    text: &mut Vec<u8>,
    line: u32,
    reactor: bool,
    r: &Reading,
) -> Result<(), AllocError>
    ensures { OnOk result (text.new.items ≡ text.old.items ++ peak_line line reactor r.now) }
{
    put_front(text, line, peak_word(reactor))?;
    put_point(text, reactor, r)?;
    put(text, b"\n")
}

fn put_peak(
    text: &mut Vec<u8>,
    line: u32,
    reactor: bool,
    highest: &Option<Reading>,
) -> Result<(), AllocError>
    ensures { OnOk result (text.new.items ≡ text.old.items ++ peak_text line reactor highest.now) }
{
    match highest {
        None => Ok(()),
        Some(r) => put_peak_line(text, line, reactor, r),
    }
}

/// Puts the line of the point that lies farthest off a characteristic.
#[tactic(auto, unfolding(crate::specs::JudgedLines::farthest_line))]
fn put_farthest_line(
    text: &mut Vec<u8>,
    line: u32,
    reactor: bool,
    excess: u128,
    r: &Reading,
) -> Result<(), AllocError>
    ensures { OnOk result (text.new.items ≡ text.old.items ++ farthest_line line reactor excess r.now) }
{
    let by = capped(excess);
    put_front(text, line, FARTHEST)?;
    put_place(text, reactor, BY, &by)?;
    put_point(text, reactor, r)?;
    put(text, b"\n")
}

fn put_farthest(
    text: &mut Vec<u8>,
    line: u32,
    reactor: bool,
    excess: u128,
    worst: &Option<Reading>,
) -> Result<(), AllocError>
    ensures { OnOk result (text.new.items ≡ text.old.items ++ farthest_text line reactor excess worst.now) }
{
    match worst {
        None => Ok(()),
        Some(r) => put_farthest_line(text, line, reactor, excess, r),
    }
}

#[tactic(auto, unfolding(crate::specs::JudgedLines::false_line))]
fn put_false_line(text: &mut Vec<u8>, nodes: &[Name], card: &Pseudo) -> Result<(), AllocError>
    ensures { OnOk result (text.new.items ≡ text.old.items ++ false_line nodes.now card.now) }
{
    put(text, b"warning, ")?;
    put_branch_front(text, nodes, &Branch::Pseudo(*card))?;
    put(text, b", ")?;
    put(text, false_word(card.reactor))?;
    put(text, b"\n")
}

/// Puts a warning after a text where the greatest point off a characteristic exceeds the greatest one on it.
fn put_false(
    text: &mut Vec<u8>,
    nodes: &[Name],
    card: &Pseudo,
    found: &Found,
) -> Result<(), AllocError>
    ensures { OnOk result (text.new.items ≡ text.old.items ++ false_text nodes.now card.now found.now) }
{
    if found.greatest < found.peak {
        put_false_line(text, nodes, card)
    } else {
        Ok(())
    }
}

/// Puts the lines of a branch after a text.
#[tactic(auto, unfolding(crate::specs::JudgedLines::judged_text))]
fn put_judged(text: &mut Vec<u8>, nodes: &[Name], j: &Judged) -> Result<(), AllocError>
    ensures { OnOk result (text.new.items ≡ text.old.items ++ judged_text nodes.now j.now) }
{
    let (line, reactor) = (j.card.line, j.card.reactor);
    put_branch(text, nodes, j)?;
    put_peak(text, line, reactor, &j.found.highest)?;
    put_farthest(text, line, reactor, j.found.excess, &j.found.worst)?;
    put_false(text, nodes, &j.card, &j.found)
}

/// Puts the lines of all branches after a text, by the names of the case's nodes.
pub(crate) fn put_all_judged(
    text: &mut Vec<u8>,
    nodes: &[Name],
    judged: &[Judged],
) -> Result<(), AllocError>
    ensures { OnOk result (text.new.items ≡ text.old.items ++ judged_lines nodes.now judged.now) }
{
    for j in judged {
        put_judged(text, nodes, j)?;
    }
    Ok(())
}
