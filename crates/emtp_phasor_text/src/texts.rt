//! The lines of the texts.

ghost use Rattle.std.specs.Prelude.{◌≡◌, ◌++◌, length, slice_index_or, OnOk};
ghost use Rattle.emtp_phasor_text.specs.Texts.{answer_text, is_peak, node_line, node_lines, refusal_name, refusal_note, refusal_number, resonance_by, resonance_line, resonance_lines, scan_line, scan_line_texts, scan_summary, size_seen, square_size, steady_end_note, steady_line, steady_summary, zero_phasor};

use emtp_admittance::Refusal;
use emtp_case::Name;
use emtp_machine::{Cause, put_cause};
use emtp_phasor::{Phasor, ScanAnswer, ScanLine};
use emtp_text::{put, put_fixed, put_number};
use std::alloc::AllocError;

/// The places of a frequency in hertz, which counts micro-hertz.
const HERTZ_PLACES: usize = 6;

/// The places of a voltage in V or an impedance in ohm, which count 10^-9.
const NANO_PLACES: usize = 9;

fn refusal_number(reason: Refusal) -> u32
    ensures { result ≡ refusal_number reason }
{
    match reason {
        Refusal::Size => 31,
        Refusal::NoSource => 32,
        Refusal::Control => 33,
        Refusal::Switch => 34,
        Refusal::Nonlinear => 35,
        Refusal::Loss => 36,
        Refusal::Phases => 37,
        Refusal::Impedance => 38,
        Refusal::Source => 39,
        Refusal::Probe => 40,
    }
}

fn refusal_name(reason: Refusal) -> &'static [u8]
    ensures { result.now ≡ refusal_name reason }
{
    match reason {
        Refusal::Size => b"Size",
        Refusal::NoSource => b"NoSource",
        Refusal::Control => b"Control",
        Refusal::Switch => b"Switch",
        Refusal::Nonlinear => b"Nonlinear",
        Refusal::Loss => b"Loss",
        Refusal::Phases => b"Phases",
        Refusal::Impedance => b"Impedance",
        Refusal::Source => b"Source",
        Refusal::Probe => b"Probe",
    }
}

/// Puts which card is refused, and why.
pub(crate) fn put_refusal(text: &mut Vec<u8>, line: u32, reason: Refusal) -> Result<(), AllocError>
    ensures { OnOk result (text.new.items ≡ text.old.items ++ refusal_note line reason) }
{
    put(text, b"REFUSED LINE ")?;
    put_number(text, line)?;
    put(text, b" REASON ")?;
    put_number(text, refusal_number(reason))?;
    put(text, b" ")?;
    put(text, refusal_name(reason))?;
    put(text, b"\n")
}

/// Puts how a solution ended.
pub(crate) fn put_end(
    text: &mut Vec<u8>,
    cause: Cause,
    name: &Name,
    measured: i128,
) -> Result<(), AllocError>
    ensures { OnOk result (text.new.items ≡ text.old.items ++ steady_end_note cause name.now measured) }
{
    put(text, b"PHASOR ENDED ")?;
    put_cause(text, cause, name, measured)?;
    put(text, b"\n")
}

/// Puts the first line of a steady state.
fn put_head(text: &mut Vec<u8>, freq: i64, residual: i128) -> Result<(), AllocError>
    ensures { OnOk result (text.new.items ≡ text.old.items ++ steady_line freq residual) }
{
    put(text, b"PHASOR F ")?;
    put_fixed(text, freq, HERTZ_PLACES)?;
    put(text, b" RESIDUAL ")?;
    put_number(text, residual)?;
    put(text, b"\n")
}

/// Puts the line of a node.
fn put_node(text: &mut Vec<u8>, name: &Name, v: Phasor) -> Result<(), AllocError>
    ensures { OnOk result (text.new.items ≡ text.old.items ++ node_line name.now v) }
{
    put(text, b"NODE ")?;
    put(text, name.as_slice())?;
    put(text, b" RE ")?;
    put_fixed(text, v.re, NANO_PLACES)?;
    put(text, b" IM ")?;
    put_fixed(text, v.im, NANO_PLACES)?;
    put(text, b"\n")
}

/// Puts a steady state.
pub(crate) fn put_steady(
    text: &mut Vec<u8>,
    names: &[Name],
    freq: i64,
    residual: i128,
    volts: &[Phasor],
) -> Result<(), AllocError>
    ensures { OnOk result (text.new.items ≡ text.old.items ++ steady_summary names.now freq residual volts.now) }
{
    put_head(text, freq, residual)?;
    put_nodes(text, names, volts)
}

/// The voltage at a place.
fn volt_at(volts: &[Phasor], at: usize) -> Phasor
    ensures { result ≡ slice_index_or volts.now at zero_phasor }
{
    match volts.get(at) {
        Some(v) => *v,
        None => Phasor { re: 0, im: 0 },
    }
}

/// Puts the lines of all nodes.
fn put_nodes(text: &mut Vec<u8>, names: &[Name], volts: &[Phasor]) -> Result<(), AllocError>
    ensures { OnOk result (text.new.items ≡ text.old.items ++ node_lines names.now volts.now (length names.now)) }
{
    for at in 0..names.len() {
        put_node(text, &names[at], volt_at(volts, at))?;
    }
    Ok(())
}

/// Puts what a scan found at a frequency.
#[tactic(auto, unfolding(crate::specs::Texts::answer_text))]
fn put_answer(text: &mut Vec<u8>, answer: &ScanAnswer) -> Result<(), AllocError>
    ensures { OnOk result (text.new.items ≡ text.old.items ++ answer_text answer.now) }
{
    match answer {
        ScanAnswer::Impedance { re, im } => {
            put(text, b"RE ")?;
            put_fixed(text, *re, NANO_PLACES)?;
            put(text, b" IM ")?;
            put_fixed(text, *im, NANO_PLACES)
        }
        ScanAnswer::Refused { line } => {
            put(text, b"REFUSED LINE ")?;
            put_number(text, *line)
        }
        ScanAnswer::Ended {
            name,
            cause,
            measured,
        } => {
            put(text, b"ENDED ")?;
            put_cause(text, *cause, name, *measured)
        }
    }
}

/// Puts the line of a frequency.
#[tactic(auto, unfolding(crate::specs::Texts::scan_line))]
fn put_line(text: &mut Vec<u8>, line: &ScanLine) -> Result<(), AllocError>
    ensures { OnOk result (text.new.items ≡ text.old.items ++ scan_line line.now) }
{
    put(text, b"F ")?;
    put_fixed(text, line.freq, HERTZ_PLACES)?;
    put(text, b" ")?;
    put_answer(text, &line.answer)?;
    put(text, b"\n")
}

/// Puts the lines of all frequencies.
fn put_lines(text: &mut Vec<u8>, lines: &[ScanLine]) -> Result<(), AllocError>
    ensures { OnOk result (text.new.items ≡ text.old.items ++ scan_line_texts lines.now) }
{
    for line in lines {
        put_line(text, line)?;
    }
    Ok(())
}

/// The square of an impedance's magnitude, in 10^-18 square ohm.
fn square_size(re: i64, im: i64) -> u128
    ensures { result ≡ square_size re im }
{
    let (re, im) = (u128::from(re.unsigned_abs()), u128::from(im.unsigned_abs()));
    re * re + im * im
}

fn size_seen(answer: &ScanAnswer) -> Option<u128>
    ensures { result ≡ size_seen answer.now }
{
    match answer {
        ScanAnswer::Impedance { re, im } => Some(square_size(*re, *im)),
        ScanAnswer::Refused { .. } | ScanAnswer::Ended { .. } => None,
    }
}

fn is_peak(before: Option<u128>, here: Option<u128>, after: Option<u128>) -> bool
    ensures { result ≡ is_peak before here after }
{
    match (before, here, after) {
        (Some(before), Some(here), Some(after)) => before < here && after < here,
        _ => false,
    }
}

/// Puts the line of a resonance, where there is one.
fn put_peak(text: &mut Vec<u8>, is_peak: bool, freq: i64) -> Result<(), AllocError>
    ensures { OnOk result (text.new.items ≡ text.old.items ++ resonance_by is_peak freq) }
{
    if !is_peak {
        return Ok(());
    }
    put(text, b"RESONANCE ")?;
    put_fixed(text, freq, HERTZ_PLACES)?;
    put(text, b"\n")
}

/// Puts the line of a resonance at the middle one of three lines, where there is one.
#[tactic(auto, unfolding(crate::specs::Texts::resonance_line))]
fn put_resonance(
    text: &mut Vec<u8>,
    before: &ScanLine,
    here: &ScanLine,
    after: &ScanLine,
) -> Result<(), AllocError>
    ensures { OnOk result (text.new.items ≡ text.old.items ++ resonance_line before.now here.now after.now) }
{
    let found = is_peak(
        size_seen(&before.answer),
        size_seen(&here.answer),
        size_seen(&after.answer),
    );
    put_peak(text, found, here.freq)
}

/// Puts the resonances of a scan.
fn put_resonances(text: &mut Vec<u8>, lines: &[ScanLine]) -> Result<(), AllocError>
    ensures { OnOk result (text.new.items ≡ text.old.items ++ resonance_lines lines.now) }
{
    for at in 2..lines.len() {
        put_resonance(text, &lines[at - 2], &lines[at - 1], &lines[at])?;
    }
    Ok(())
}

/// Puts a scan.
pub(crate) fn put_scan(text: &mut Vec<u8>, lines: &[ScanLine]) -> Result<(), AllocError>
    ensures { OnOk result (text.new.items ≡ text.old.items ++ scan_summary lines.now) }
{
    put_lines(text, lines)?;
    put_resonances(text, lines)
}
