//! The lines of the data, one after the other.
ghost use Rattle.std.specs.Prelude.{◌≡◌, true, ◌+◌, ◌<◌, ◌≤◌, ℤ, pos, ◌≤ℤ◌, unsigned_abs, ◌^◌, length, All, Ok, Err, IfOk, IfErr};
ghost use Rattle.emtp_comtrade.specs.Record.{analog_before};
ghost use Rattle.emtp_audit.specs.Dat.{first_stamp, dat_differs};
ghost use Rattle.emtp_audit.specs.held.Dat.{line_rule, told_by, IsAudited, IsScale};
ghost use Rattle.emtp_audit.specs.held.Walk.{LineWalks, difference_in, stamp_in};
ghost use Rattle.emtp_audit.specs.declared.limit.TheConstants.{LARGEST_UNIT};

use crate::differs::{DifferCause, Differs};
use crate::fields::Fields;
use crate::limit::MOST_BYTES;
use crate::lines::next_audited;
use crate::numbers::stamp;
use crate::sample::{Audited, read_line};
use crate::scale::Cfg;
use emtp_case::Case;
use emtp_machine::Samples;

/// Compares the data with the samples, in one pass. It takes no memory.
#[tactic(auto, unfolding(crate::specs::Dat::dat_differs))]
pub fn read_dat(bytes: &[u8], case: &Case, samples: &Samples, cfg: &Cfg) -> Result<(), Differs>
    requires channels { samples.now.channels ≡ length case.now.parts.channels }
    requires count { length cfg.now.scales.items ≡ analog_before case.now.parts (length case.now.parts.channels) }
    requires scales { All IsScale cfg.now.scales.items }
    requires multiplier { unsigned_abs cfg.now.multiplier ≤ LARGEST_UNIT }
    ensures { dat_differs case.now.parts samples.now.rows (told_by cfg.now) bytes.now ≡ difference_in result }
{
    if bytes.len() > MOST_BYTES {
        return Err(Differs {
            dat: true,
            line: 0,
            field: 0,
            cause: DifferCause::Long,
        });
    }
    let audited = Audited { case, samples, cfg };
    let first = first_stamp(bytes);
    let mut rest = bytes;
    for sample in 0..samples.count() {
        match read_sample(rest, &audited, sample, first) {
            Ok(tail) => rest = tail,
            Err(differs) => return Err(differs),
        }
    }
    match next_audited(rest) {
        None => Ok(()),
        Some(_) => Err(Differs {
            dat: true,
            line: samples.count() + 1,
            field: 1,
            cause: DifferCause::Extra,
        }),
    }
}

/// Compares the first line of a text with a sample, and answers what stands after it.
fn read_sample<'a>(
    rest: &'a [u8],
    audited: &Audited<'_>,
    sample: u32,
    first: i64,
) -> Result<&'a [u8], Differs>
    requires audited { IsAudited audited.now }
    requires sample { sample < length audited.now.samples.now.rows }
    requires room { sample + 1 < 2 ^ 32 }
    requires first_low { pos 0 ≤ℤ first }
    requires first_high { unsigned_abs first < 10 ^ 10 }
    ensures ok { IfOk result (λ tail. LineWalks (Ok tail.now) (sample + 1) (line_rule audited.now first sample) rest.now) }
    ensures short { IfOk result (λ tail. length tail.now < length rest.now) }
    ensures err { IfErr result (λ differs.
        LineWalks (Err differs) (sample + 1) (line_rule audited.now first sample) rest.now) }
{
    match next_audited(rest) {
        None => Err(Differs {
            dat: true,
            line: sample + 1,
            field: 1,
            cause: DifferCause::Missing,
        }),
        Some((line, tail)) => {
            match read_line(sample + 1, line, audited, sample, first) {
                Ok(()) => Ok(tail),
                Err(differs) => Err(differs),
            }
        }
    }
}

/// The stamp in the first line of the data.
fn first_stamp(bytes: &[u8]) -> i64
    ensures value { result ≡ first_stamp bytes.now }
    ensures low { pos 0 ≤ℤ result }
    ensures high { unsigned_abs result < 10 ^ 10 }
{
    match next_audited(bytes) {
        None => 0,
        Some((line, _)) => stamp_in(line),
    }
}

/// The stamp in a line, or 0.
fn stamp_in(line: &[u8]) -> i64
    ensures value { result ≡ stamp_in line.now }
    ensures low { pos 0 ≤ℤ result }
    ensures high { unsigned_abs result < 10 ^ 10 }
{
    let mut fields = Fields::of(true, 1, line);
    match fields.take() {
        Err(_) => 0,
        Ok(_) => match fields.take() {
            Err(_) => 0,
            Ok(field) => match stamp(field) {
                Some(stamp) => stamp,
                None => 0,
            },
        },
    }
}
