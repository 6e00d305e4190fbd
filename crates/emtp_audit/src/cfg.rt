//! The comparison of the configuration, and what it says of the data.
ghost use Rattle.std.specs.Prelude.{◌≡◌, ◌+◌, ◌-◌, ◌<◌, ◌≤ℤ◌, ◌++◌, [], ◌∷◌, None, Some, All, length, max, pos, IfOk, IfErr, OnOk};
ghost use Rattle.emtp_comtrade.specs.Record.{joined, analog_before, status_before};
ghost use Rattle.emtp_audit.specs.Cfg.{head_rules, numbers_rule, analog_rule_at, status_rule_at, middle_rules, rate_rule, rate_rules, date_rules, end_rules, file_line, rates_on, unit_on, scales_in, cfg_differs};
ghost use Rattle.emtp_audit.specs.held.Cfg.{analog_scales_on, scales_at};
ghost use Rattle.emtp_audit.specs.held.Dat.{told_by, IsScale};
ghost use Rattle.emtp_audit.specs.held.Walk.{finds_lines, difference_in, Passes, StopsAt, OnDiffers};
ghost use Rattle.emtp_audit.specs.declared.limit.TheConstants.{LARGEST_UNIT};

use crate::cfg_lines::{read_rates, read_scale, read_unit};
use crate::check::Check;
use crate::differs::{AuditFault, DifferCause, Differs};
use crate::limit::MOST_BYTES;
use crate::lines::{Lines, walk_any, walk_line};
use crate::scale::{Cfg, Scale};
use emtp_case::Case;
use emtp_comtrade::{analog_count, is_status_at, status_count};
use std::alloc::Global;

/// Compares the configuration with a case of so many samples, and answers what it says of the data.
#[tactic(auto, unfolding(crate::specs::Cfg::cfg_differs))]
pub fn read_cfg(alloc: Global, bytes: &[u8], case: &Case, count: u32) -> Result<Cfg, AuditFault>
    ensures same { OnOk result (cfg_differs case.now.parts count bytes.now ≡ None) }
    ensures differs { IfErr result (λ fault. OnDiffers fault (λ differs.
        cfg_differs case.now.parts count bytes.now ≡ Some differs)) }
    ensures says { IfOk result (λ cfg. told_by cfg ≡ scales_in case.now.parts bytes.now) }
    ensures count { IfOk result (λ cfg. length cfg.scales.items
        ≡ analog_before case.now.parts (length case.now.parts.channels)) }
    ensures scales { IfOk result (λ cfg. All IsScale cfg.scales.items) }
    ensures least { IfOk result (λ cfg. pos 1 ≤ℤ cfg.multiplier) }
    ensures most { IfOk result (λ cfg. cfg.multiplier ≤ℤ pos LARGEST_UNIT) }
{
    if bytes.len() > MOST_BYTES {
        return Err(AuditFault::Differs(Differs {
            dat: false,
            line: 0,
            field: 0,
            cause: DifferCause::Long,
        }));
    }
    let mut lines = Lines::of(bytes);
    match walk_head(&mut lines, case) {
        Ok(()) => {}
        Err(differs) => return Err(AuditFault::Differs(differs)),
    }
    let scales = match read_scales(alloc, &mut lines, case) {
        Ok(scales) => scales,
        Err(fault) => return Err(fault),
    };
    match walk_statuses(&mut lines, case) {
        Ok(()) => {}
        Err(differs) => return Err(AuditFault::Differs(differs)),
    }
    match read_end(lines, count) {
        Ok(multiplier) => Ok(Cfg { scales, multiplier }),
        Err(differs) => Err(AuditFault::Differs(differs)),
    }
}

// ---- the head

/// The station and the numbers of channels have to come next.
fn walk_head(lines: &mut Lines<'_>, case: &Case) -> Result<(), Differs>
    ensures ok { OnOk result (Passes lines.old lines.new (head_rules case.now.parts)) }
    ensures err { IfErr result (StopsAt lines.old (head_rules case.now.parts)) }
{
    match walk_line(lines, &[Check::Any, Check::Any, Check::Text(b"1999")]) {
        Ok(()) => walk_numbers(lines, case),
        Err(differs) => Err(differs),
    }
}

fn walk_numbers(lines: &mut Lines<'_>, case: &Case) -> Result<(), Differs>
    ensures ok { OnOk result (Passes lines.old lines.new (numbers_rule case.now.parts ∷ [])) }
    ensures err { IfErr result (StopsAt lines.old (numbers_rule case.now.parts ∷ [])) }
{
    let channels = case.parts.channels.len() as u32;
    let analog = analog_count(case) as u32;
    let status = status_count(case) as u32;
    walk_line(
        lines,
        &[
            Check::Number(channels),
            Check::Count(b'A', analog),
            Check::Count(b'D', status),
        ],
    )
}

// ---- the channels

/// The analog channels have to come next. Answers their scales.
fn read_scales(alloc: Global, lines: &mut Lines<'_>, case: &Case) -> Result<Vec<Scale>, AuditFault>
    ensures ok { OnOk result (Passes lines.old lines.new
        (joined (length case.now.parts.channels) (analog_rule_at case.now.parts))) }
    ensures err { IfErr result (λ fault. OnDiffers fault
        (StopsAt lines.old (joined (length case.now.parts.channels) (analog_rule_at case.now.parts)))) }
    ensures scales { IfOk result (λ scales. scales.items
        ≡ analog_scales_on (analog_before case.now.parts (length case.now.parts.channels)) lines.old.lines) }
    ensures are { IfOk result (λ scales. All IsScale scales.items) }
{
    let mut scales = Vec::new(alloc);
    for place in 0..case.parts.channels.len() {
        match push_scale(lines, case, &mut scales, place) {
            Ok(()) => {}
            Err(fault) => return Err(fault),
        }
    }
    Ok(scales)
}

/// The analog channel at a place has to come next, where there is one. Its scale is put behind the others.
fn push_scale(
    lines: &mut Lines<'_>,
    case: &Case,
    scales: &mut Vec<Scale>,
    place: usize,
) -> Result<(), AuditFault>
    requires place { place < length case.now.parts.channels }
    requires analog { length scales.old.items ≡ analog_before case.now.parts place }
    requires are { All IsScale scales.old.items }
    ensures ok { OnOk result (Passes lines.old lines.new (analog_rule_at case.now.parts place)) }
    ensures err { IfErr result (λ fault. OnDiffers fault
        (StopsAt lines.old (analog_rule_at case.now.parts place))) }
    ensures scales { OnOk result (scales.new.items
        ≡ scales.old.items ++ scales_at case.now.parts place lines.old.lines) }
    ensures are { OnOk result (All IsScale scales.new.items) }
{
    if is_status_at(case, place) {
        return Ok(());
    }
    match read_scale(lines, case, place, scales.len() as u32) {
        Ok(scale) => match scales.push(scale) {
            Ok(()) => Ok(()),
            Err(_) => Err(AuditFault::NoMemory),
        },
        Err(differs) => Err(AuditFault::Differs(differs)),
    }
}

/// The status channels have to come next.
fn walk_statuses(lines: &mut Lines<'_>, case: &Case) -> Result<(), Differs>
    ensures ok { OnOk result (Passes lines.old lines.new
        (joined (length case.now.parts.channels) (status_rule_at case.now.parts))) }
    ensures err { IfErr result (StopsAt lines.old
        (joined (length case.now.parts.channels) (status_rule_at case.now.parts))) }
{
    let mut status = 0;
    for place in 0..case.parts.channels.len() {
        match walk_status_at(lines, case, place, status) {
            Ok(next) => status = next,
            Err(differs) => return Err(differs),
        }
    }
    Ok(())
}

/// The status channel at a place has to come next, where there is one. Answers how many stand up to there.
fn walk_status_at(
    lines: &mut Lines<'_>,
    case: &Case,
    place: usize,
    status: u32,
) -> Result<u32, Differs>
    requires place { place < length case.now.parts.channels }
    requires status { status ≡ status_before case.now.parts place }
    ensures ok { OnOk result (Passes lines.old lines.new (status_rule_at case.now.parts place)) }
    ensures err { IfErr result (StopsAt lines.old (status_rule_at case.now.parts place)) }
    ensures status { IfOk result (λ status. status ≡ status_before case.now.parts (place + 1)) }
{
    if !is_status_at(case, place) {
        return Ok(status);
    }
    let mut name = [0; 16];
    let len = case.channel_name(place, &mut name);
    match walk_line(
        lines,
        &[
            Check::Number(status + 1),
            Check::Text(&name[..len]),
            Check::Any,
            Check::Any,
            Check::Any,
        ],
    ) {
        Ok(()) => Ok(status + 1),
        Err(differs) => Err(differs),
    }
}

// ---- what stands behind the channels

/// The line frequency and all behind it have to come next, and nothing else. Answers the unit of time stamps.
fn read_end(mut lines: Lines<'_>, count: u32) -> Result<i64, Differs>
    ensures same { let rates = rates_on (file_line lines.entry.lines 1) in
        finds_lines lines.entry (middle_rules count rates ++ end_rules) ≡ difference_in result }
    ensures value { let rates = rates_on (file_line lines.entry.lines 1) in
        IfOk result (λ unit. unit ≡ unit_on (file_line lines.entry.lines (5 + max rates 1))) }
    ensures least { IfOk result (λ unit. pos 1 ≤ℤ unit) }
    ensures most { IfOk result (λ unit. unit ≤ℤ pos LARGEST_UNIT) }
{
    match walk_any(&mut lines) {
        Ok(()) => {}
        Err(differs) => return Err(differs),
    }
    match read_rates(&mut lines) {
        Ok(rates) => read_times(lines, count, rates),
        Err(differs) => Err(differs),
    }
}

/// The lines of the sampling rates and all behind them have to come next, and nothing else.
fn read_times(mut lines: Lines<'_>, count: u32, rates: u32) -> Result<i64, Differs>
    ensures same { finds_lines lines.entry (rate_rules rates count ++ end_rules) ≡ difference_in result }
    ensures value { IfOk result (λ unit. unit ≡ unit_on (file_line lines.entry.lines (3 + max rates 1))) }
    ensures least { IfOk result (λ unit. pos 1 ≤ℤ unit) }
    ensures most { IfOk result (λ unit. unit ≤ℤ pos LARGEST_UNIT) }
{
    match walk_rates(&mut lines, count, rates) {
        Ok(()) => {}
        Err(differs) => return Err(differs),
    }
    match walk_dates(&mut lines) {
        Ok(()) => {}
        Err(differs) => return Err(differs),
    }
    match read_unit(&mut lines) {
        Ok(unit) => match lines.finish() {
            Ok(()) => Ok(unit),
            Err(differs) => Err(differs),
        },
        Err(differs) => Err(differs),
    }
}

/// A line a sampling rate has to come next, and one for none. The last tells the number of samples.
fn walk_rates(lines: &mut Lines<'_>, count: u32, rates: u32) -> Result<(), Differs>
    ensures ok { OnOk result (Passes lines.old lines.new (rate_rules rates count)) }
    ensures err { IfErr result (StopsAt lines.old (rate_rules rates count)) }
{
    match walk_early_rates(lines, rates) {
        Ok(()) => walk_line(lines, &[Check::Any, Check::Number(count)]),
        Err(differs) => Err(differs),
    }
}

fn walk_early_rates(lines: &mut Lines<'_>, rates: u32) -> Result<(), Differs>
    ensures ok { OnOk result (Passes lines.old lines.new (joined (rates - 1) (λ rate. rate_rule ∷ []))) }
    ensures err { IfErr result (StopsAt lines.old (joined (rates - 1) (λ rate. rate_rule ∷ []))) }
{
    let early = rates.saturating_sub(1);
    for _rate in 0..early {
        match walk_line(lines, &[Check::Any, Check::Whole]) {
            Ok(()) => {}
            Err(differs) => return Err(differs),
        }
    }
    Ok(())
}

/// Both dates and the file's type have to come next.
fn walk_dates(lines: &mut Lines<'_>) -> Result<(), Differs>
    ensures ok { OnOk result (Passes lines.old lines.new date_rules) }
    ensures err { IfErr result (StopsAt lines.old date_rules) }
{
    match walk_any(lines) {
        Ok(()) => {}
        Err(differs) => return Err(differs),
    }
    match walk_any(lines) {
        Ok(()) => {}
        Err(differs) => return Err(differs),
    }
    walk_line(lines, &[Check::Letters(b"ASCII")])
}
