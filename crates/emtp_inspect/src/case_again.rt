//! What the case of a run adds to the words of its status, where its file is read again.

ghost use Rattle.std.specs.List.{list_any};
ghost use Rattle.std.specs.Prelude.{◌≡◌, ◌++◌, IfOk, OnOk, option_map};
ghost use Rattle.emtp_causes.specs.Notes.{ended_name, ended_step};
ghost use Rattle.emtp_inspect.specs.CaseAgain.{case_in, control_in, control_text, frequency_text, growing_at, growing_in, has_frequency, is_driven, takes_control};

use crate::growing::put_growing;
use emtp_card::{Cards, Refused};
use emtp_case::{Case, Parts, Shape, Source};
use emtp_causes::{ended_name, ended_step, unsolved_reason};
use emtp_deck::read;
use emtp_text::put;
use std::alloc::{AllocError, Global};

const COSINE_OF_THE_CONTROL: &[u8] =
    b"A cosine of the control is no source of the network, and a steady state has no control: put a source card of type 14 in\nplace of the source of type 60 that takes it.\n";

/// The case that a text is; none where a card is refused.
fn case_in(alloc: Global, text: &[u8]) -> Result<Option<Case>, AllocError>
    ensures { IfOk result (λ found. option_map (λ case. case.parts) found ≡ case_in text.now) }
{
    match Cards::split(alloc, text) {
        Ok(cards) => match read(alloc, &cards) {
            Ok(case) => Ok(Some(case)),
            Err(Refused::Bad(_)) => Ok(None),
            Err(Refused::NoMemory) => Err(AllocError),
        },
        Err(Refused::Bad(_)) => Ok(None),
        Err(Refused::NoMemory) => Err(AllocError),
    }
}

// ---- an early end

/// Puts after a text which branch makes a current grow up to the step of a note.
pub(crate) fn put_growing_in(
    alloc: Global,
    out: &mut Vec<u8>,
    note: &[u8],
    bytes: &[u8],
) -> Result<(), AllocError>
    ensures { OnOk result (out.new.items ≡ out.old.items ++ growing_in note.now (case_in bytes.now)) }
{
    match case_in(alloc, bytes)? {
        Some(case) => put_growing_at(out, &case, note),
        None => Ok(()),
    }
}

fn put_growing_at(out: &mut Vec<u8>, case: &Case, note: &[u8]) -> Result<(), AllocError>
    ensures { OnOk result (out.new.items ≡ out.old.items ++ growing_at (ended_step note.now) (ended_name note.now) case.now.parts) }
{
    match ended_step(note) {
        Some(step) => put_growing(out, case, step, ended_name(note)),
        None => Ok(()),
    }
}

// ---- no frequency

/// Puts after a text that a case without a frequency has a cosine of its control.
pub(crate) fn put_frequency(
    alloc: Global,
    out: &mut Vec<u8>,
    note: &[u8],
    bytes: &[u8],
) -> Result<(), AllocError>
    ensures { OnOk result (out.new.items ≡ out.old.items ++ frequency_text note.now bytes.now) }
{
    if unsolved_reason(note) == b"NoSource".as_slice() {
        put_control_in(alloc, out, bytes)
    } else {
        Ok(())
    }
}

fn put_control_in(alloc: Global, out: &mut Vec<u8>, bytes: &[u8]) -> Result<(), AllocError>
    ensures { OnOk result (out.new.items ≡ out.old.items ++ control_in (case_in bytes.now)) }
{
    match case_in(alloc, bytes)? {
        Some(case) => put_control(out, &case.parts),
        None => Ok(()),
    }
}

fn put_control(out: &mut Vec<u8>, parts: &Parts) -> Result<(), AllocError>
    ensures { OnOk result (out.new.items ≡ out.old.items ++ control_text parts.now) }
{
    if takes_control(parts) {
        put(out, COSINE_OF_THE_CONTROL)
    } else {
        Ok(())
    }
}

/// Whether the control has a cosine, or a source of type 60 takes a value of it.
fn takes_control(parts: &Parts) -> bool
    ensures { result ≡ takes_control parts.now }
{
    has_cosine(parts.tacs_sources.as_slice()) || has_driven(parts.sources.as_slice())
}

fn has_cosine(sources: &[Source]) -> bool
    ensures { result ≡ list_any has_frequency sources.now }
{
    sources.iter().any(|s| has_frequency(s))
}

fn has_driven(sources: &[Source]) -> bool
    ensures { result ≡ list_any is_driven sources.now }
{
    sources.iter().any(|s| is_driven(s))
}

/// Whether a source is a cosine with a frequency above 0.
fn has_frequency(source: &Source) -> bool
    ensures { result ≡ has_frequency source.now }
{
    matches!(source.shape, Shape::Cosine { freq, .. } if 0 < freq)
}

/// Whether the value of a source is that of a variable.
fn is_driven(source: &Source) -> bool
    ensures { result ≡ is_driven source.now }
{
    matches!(source.shape, Shape::Tacs { .. })
}
