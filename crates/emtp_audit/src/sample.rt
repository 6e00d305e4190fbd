//! The comparison of the data.
ghost use Rattle.std.specs.Prelude.{◌≡◌, true, ◌+◌, ◌<◌, ◌≤◌, ℤ, pos, ◌≤ℤ◌, unsigned_abs, ◌^◌, length, OnOk, IfOk};
ghost use Rattle.emtp_comtrade.specs.Record.{is_status_at, analog_before};
ghost use Rattle.emtp_comtrade.specs.Record.{joined};
ghost use Rattle.emtp_audit.specs.Rules.{line_differs, Fields};
ghost use Rattle.emtp_audit.specs.held.Dat.{line_rule, raw_rules, state_rules, IsAudited};
ghost use Rattle.emtp_audit.specs.held.Walk.{Walks, difference_in};
ghost use Rattle.emtp_audit.specs.declared.limit.TheConstants.{MOST_FIELDS};

use crate::differs::Differs;
use crate::fields::{Fields, walk_number};
use crate::scale::Cfg;
use crate::values::{walk_raw, walk_stamp, walk_state};
use emtp_case::Case;
use emtp_comtrade::{is_status_at, sample_time};
use emtp_machine::Samples;

/// What the data is compared with.
#[derive(Clone, Copy)]
pub(crate) struct Audited<'a> {
    /// The case.
    pub(crate) case: &'a Case,
    /// Its samples.
    pub(crate) samples: &'a Samples,
    /// What the configuration says of the data.
    pub(crate) cfg: &'a Cfg,
}

/// Compares a line of the data with a sample.
pub(crate) fn read_line(
    line: u32,
    text: &[u8],
    audited: &Audited<'_>,
    sample: u32,
    first: i64,
) -> Result<(), Differs>
    requires audited { IsAudited audited.now }
    requires sample { sample < length audited.now.samples.now.rows }
    requires room { sample + 1 < 2 ^ 32 }
    requires first_low { pos 0 ≤ℤ first }
    requires first_high { unsigned_abs first < 10 ^ 10 }
    ensures { line_differs true line (line_rule audited.now first sample) text.now ≡ difference_in result }
{
    let mut fields = Fields::of(true, line, text);
    match walk_number(&mut fields, sample + 1) {
        Ok(()) => {}
        Err(differs) => return Err(differs),
    }
    match walk_stamp(
        &mut fields,
        sample_time(audited.case),
        audited.cfg.multiplier,
        first,
        sample,
    ) {
        Ok(()) => {}
        Err(differs) => return Err(differs),
    }
    match walk_raws(&mut fields, audited, sample) {
        Ok(()) => {}
        Err(differs) => return Err(differs),
    }
    match walk_states(&mut fields, audited, sample) {
        Ok(()) => {}
        Err(differs) => return Err(differs),
    }
    fields.finish()
}

/// The raw values of a sample have to come next.
fn walk_raws(fields: &mut Fields<'_>, audited: &Audited<'_>, sample: u32) -> Result<(), Differs>
    requires number { fields.old.number ≤ 67 }
    requires audited { IsAudited audited.now }
    requires sample { sample < length audited.now.samples.now.rows }
    ensures walks { Walks result fields.old fields.new
        (joined (length audited.now.case.now.parts.channels) (raw_rules audited.now sample)) }
    ensures next { OnOk result (fields.new.number ≤ fields.old.number + length audited.now.case.now.parts.channels) }
{
    let mut analog = 0;
    for place in 0..audited.case.parts.channels.len() {
        match walk_raw_at(fields, audited, sample, place, analog) {
            Ok(next) => analog = next,
            Err(differs) => return Err(differs),
        }
    }
    Ok(())
}

fn walk_raw_at(
    fields: &mut Fields<'_>,
    audited: &Audited<'_>,
    sample: u32,
    place: usize,
    analog: usize,
) -> Result<usize, Differs>
    requires number { fields.old.number ≤ MOST_FIELDS }
    requires audited { IsAudited audited.now }
    requires sample { sample < length audited.now.samples.now.rows }
    requires place { place < length audited.now.case.now.parts.channels }
    requires analog { analog ≡ analog_before audited.now.case.now.parts place }
    ensures walks { Walks result fields.old fields.new (raw_rules audited.now sample place) }
    ensures analog { IfOk result (λ a. a ≡ analog_before audited.now.case.now.parts (place + 1)) }
    ensures next { OnOk result (fields.new.number ≤ fields.old.number + 1) }
{
    if is_status_at(audited.case, place) {
        return Ok(analog);
    }
    walk_raw(
        fields,
        audited.cfg.scales.as_slice()[analog],
        audited.samples.value(sample, place),
    )?;
    Ok(analog + 1)
}

/// The states of a sample have to come next.
fn walk_states(fields: &mut Fields<'_>, audited: &Audited<'_>, sample: u32) -> Result<(), Differs>
    requires number { fields.old.number ≤ 131 }
    requires audited { IsAudited audited.now }
    requires sample { sample < length audited.now.samples.now.rows }
    ensures walks { Walks result fields.old fields.new
        (joined (length audited.now.case.now.parts.channels) (state_rules audited.now sample)) }
    ensures next { OnOk result (fields.new.number ≤ fields.old.number + length audited.now.case.now.parts.channels) }
{
    for place in 0..audited.case.parts.channels.len() {
        match walk_state_at(fields, audited, sample, place) {
            Ok(()) => {}
            Err(differs) => return Err(differs),
        }
    }
    Ok(())
}

fn walk_state_at(
    fields: &mut Fields<'_>,
    audited: &Audited<'_>,
    sample: u32,
    place: usize,
) -> Result<(), Differs>
    requires number { fields.old.number ≤ MOST_FIELDS }
    requires audited { IsAudited audited.now }
    requires sample { sample < length audited.now.samples.now.rows }
    requires place { place < length audited.now.case.now.parts.channels }
    ensures walks { Walks result fields.old fields.new (state_rules audited.now sample place) }
    ensures next { OnOk result (fields.new.number ≤ fields.old.number + 1) }
{
    if !is_status_at(audited.case, place) {
        return Ok(());
    }
    walk_state(fields, audited.samples.value(sample, place))
}
