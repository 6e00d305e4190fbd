//! Lines of the section of supplemental cards, and the points and times that follow them.

ghost use Rattle.emtp_case.specs.declared.limit.TheConstants.{MOST_POINTS};
ghost use Rattle.std.specs.Prelude.{◌≡◌, ◌<◌, ◌≤◌, length, Ok, Err, IfOk, IfErr};
ghost use Rattle.emtp_walk.specs.held.Answer.{IsWant, Leaves};
ghost use Rattle.emtp_walk.specs.ControlSteps.{device_point_step, device_scale, end_device, extra_step, keep_extra, points_follow, take_device, take_device_point, take_extra};
ghost use Rattle.emtp_walk.specs.held.Sound.{IsDeviceGroup, IsDeviceDue, IsExtraDue, IsExtraEntry, IsSound, IsWhole};
ghost use Rattle.emtp_netcards.specs.PointCard.{fewest_of};
ghost use Rattle.emtp_netcards.specs.held.PointCard.{Follows, IsPointOf};

use crate::control_cards::{ControlPlace, DeviceGroup, ExtraEntry};
use crate::deck::{Deck, Place};
use emtp_card::{Line, MAX_BYTES, Refused, ends_section};
use emtp_case::{DeviceCode, Point};
use emtp_netcards::{PointScale, next_point};
use emtp_taccards::{DeviceCard, ExtraCard, extra};
use std::alloc::Global;

/// Takes a line of the section of supplemental cards.
#[tactic(auto, unfolding(crate::specs::ControlSteps::extra_step))]
pub(crate) fn extra_step(alloc: Global, deck: &mut Deck, line: &Line<'_>) -> Result<Place, Refused>
    requires short { length line.now.bytes.now ≤ MAX_BYTES }
    requires whole { IsWhole deck.old }
    ensures value { Leaves result (extra_step deck.old line.now.number line.now.bytes.now) deck.new }
    ensures sound { IfOk result (IsSound deck.new) }
{
    if ends_section(line.bytes) {
        return Ok(Place::Control(ControlPlace::TacsOutputs));
    }
    match extra(alloc, *line) {
        Ok(card) => take_extra(deck, card),
        Err(refused) => Err(refused),
    }
}

/// Keeps a supplemental card, or waits for the points that follow it.
fn take_extra(deck: &mut Deck, card: ExtraCard) -> Result<Place, Refused>
    requires whole { IsWhole deck.old }
    requires extra { IsExtraDue card }
    ensures ok { IfOk result (λ next. take_extra deck.old card ≡ (deck.new, next)) }
    ensures bad { IfErr result IsWant }
    ensures sound { IfOk result (IsSound deck.new) }
{
    match card {
        ExtraCard::Device(card) => take_device(deck, card),
        ExtraCard::Formula(card) => keep_extra(deck, ExtraEntry::Formula(card)),
    }
}

/// Whether points or times follow the card of a device.
fn points_follow(code: DeviceCode) -> bool
    ensures { result ≡ points_follow code }
{
    matches!(code, DeviceCode::Table | DeviceCode::Window)
}

/// Keeps a device without points, or waits for those of another one.
fn take_device(deck: &mut Deck, card: DeviceCard) -> Result<Place, Refused>
    requires whole { IsWhole deck.old }
    requires device { IsDeviceDue card }
    ensures ok { IfOk result (λ next. take_device deck.old card ≡ (deck.new, next)) }
    ensures bad { IfErr result IsWant }
    ensures sound { IfOk result (IsSound deck.new) }
{
    if points_follow(card.code) {
        return Ok(Place::Control(ControlPlace::DevicePoints(DeviceGroup {
            card,
            first: deck.points.len(),
            count: 0,
            before: None,
        })));
    }
    keep_extra(
        deck,
        ExtraEntry::Device {
            card,
            first: 0,
            count: 0,
        },
    )
}

/// Keeps a supplemental card, its points with it.
fn keep_extra(deck: &mut Deck, entry: ExtraEntry) -> Result<Place, Refused>
    requires whole { IsWhole deck.old }
    requires extra { IsExtraEntry deck.old.points entry }
    ensures ok { IfOk result (λ next. keep_extra deck.old entry ≡ (deck.new, next)) }
    ensures bad { IfErr result IsWant }
    ensures sound { IfOk result (IsSound deck.new) }
{
    deck.control.extras.push(entry)?;
    Ok(Place::Control(ControlPlace::Extras))
}

/// What the cards after a device hold.
pub(crate) fn device_scale(code: DeviceCode) -> PointScale
    ensures { result ≡ device_scale code }
{
    match code {
        DeviceCode::Window => PointScale::Times,
        _ => PointScale::Table,
    }
}

/// Takes a point or a pair of times of a device, or its ending card.
#[tactic(auto, unfolding(crate::specs::ControlSteps::device_point_step))]
pub(crate) fn device_point_step(
    deck: &mut Deck,
    line: &Line<'_>,
    group: &DeviceGroup,
) -> Result<Place, Refused>
    requires short { length line.now.bytes.now ≤ MAX_BYTES }
    requires sound { IsWhole deck.old × IsDeviceGroup deck.old group.now }
    ensures value { Leaves result (device_point_step deck.old line.now.number line.now.bytes.now group.now) deck.new }
    ensures sound { IfOk result (IsSound deck.new) }
{
    let scale = device_scale(group.card.code);
    match next_point(*line, scale, &group.before, group.count, deck.run.dt) {
        Ok(Some(point)) => take_device_point(deck, group, point),
        Ok(None) => end_device(deck, group),
        Err(bad) => Err(Refused::Bad(bad)),
    }
}

fn take_device_point(deck: &mut Deck, group: &DeviceGroup, point: Point) -> Result<Place, Refused>
    requires whole { IsWhole deck.old }
    requires group { IsDeviceGroup deck.old group.now }
    requires room { group.now.count < MOST_POINTS }
    requires range { IsPointOf (device_scale group.now.card.code) point }
    requires follows { Follows (device_scale group.now.card.code) deck.old.run.dt group.now.before point }
    ensures ok { IfOk result (λ next. take_device_point deck.old group.now point ≡ (deck.new, next)) }
    ensures bad { IfErr result IsWant }
    ensures sound { IfOk result (IsSound deck.new) }
{
    deck.points.push(point)?;
    Ok(Place::Control(ControlPlace::DevicePoints(DeviceGroup {
        card: group.card,
        first: group.first,
        count: group.count + 1,
        before: Some(point),
    })))
}

fn end_device(deck: &mut Deck, group: &DeviceGroup) -> Result<Place, Refused>
    requires whole { IsWhole deck.old }
    requires group { IsDeviceGroup deck.old group.now }
    requires some { fewest_of (device_scale group.now.card.code) ≤ group.now.count }
    ensures ok { IfOk result (λ next. end_device deck.old group.now ≡ (deck.new, next)) }
    ensures bad { IfErr result IsWant }
    ensures sound { IfOk result (IsSound deck.new) }
{
    keep_extra(
        deck,
        ExtraEntry::Device {
            card: group.card,
            first: group.first,
            count: group.count,
        },
    )
}
