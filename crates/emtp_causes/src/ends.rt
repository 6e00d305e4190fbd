//! What an early end means, and why a case has no steady state.

ghost use Rattle.std.specs.Prelude.{◌≡◌, ◌++◌, OnOk};
ghost use Rattle.emtp_causes.specs.Ends.{end_text, pivot_text, range_text, residual_text, steady_pivot_text, steady_range_text, step_pivot_text, step_range_text, step_text, tacs_pivot_text, tacs_range_text, tacs_text, tied_text, unsolved_text};

use crate::texts::{
    AT, IN, LOOP, LOOP_AROUND, LOOP_CURE, NEAR, NOTHING_TIES, PIVOT, PIVOT_CURE, RANGE, RANGE_CURE,
    RESIDUAL, RESIDUAL_CURE, RESIDUAL_NODE, STEADY_CONTROL, STEADY_IMPEDANCE, STEADY_LOSS,
    STEADY_NO_SOURCE, STEADY_NONLINEAR, STEADY_PHASES, STEADY_PIVOT_CURE, STEADY_PROBE,
    STEADY_RANGE_CURE, STEADY_SIZE, STEADY_SOURCE, STEADY_SWITCH, STEP, TACS_RANGE_CURE,
    THE_STEADY_STATE, TIED, TIED_CURE,
};
use emtp_text::put;
use std::alloc::AllocError;

/// Puts after a text what the cause of an early end means, and the usual cure: by the word of its cause, the number of its step
/// (nothing of a steady state) and what the note names; nothing for a word that is no cause.
///
/// # Errors
///
/// [`AllocError`] where memory is wanting.
pub fn put_end(out: &mut Vec<u8>, cause: &[u8], step: &[u8], name: &[u8]) -> Result<(), AllocError>
    ensures { OnOk result (out.new.items ≡ out.old.items ++ end_text cause.now step.now name.now) }
{
    if cause == b"TIED".as_slice() {
        put_tied(out, step, name)
    } else if cause == b"ZEROPIVOT".as_slice() {
        put_pivot(out, step, name)
    } else if cause == b"RANGE".as_slice() {
        put_range(out, step, name)
    } else if cause == b"RESIDUAL".as_slice() {
        put_residual(out, step, name)
    } else {
        put_tacs(out, cause, step, name)
    }
}

/// Puts where a run ended: its step, or the steady state.
fn put_step(out: &mut Vec<u8>, step: &[u8]) -> Result<(), AllocError>
    ensures { OnOk result (out.new.items ≡ out.old.items ++ step_text step.now) }
{
    if step.is_empty() {
        return put(out, THE_STEADY_STATE);
    }
    put(out, STEP)?;
    put(out, step)
}

fn put_pivot(out: &mut Vec<u8>, step: &[u8], name: &[u8]) -> Result<(), AllocError>
    ensures { OnOk result (out.new.items ≡ out.old.items ++ pivot_text step.now name.now) }
{
    if step.is_empty() {
        put_steady_pivot(out, name)
    } else {
        put_step_pivot(out, step, name)
    }
}

fn put_range(out: &mut Vec<u8>, step: &[u8], name: &[u8]) -> Result<(), AllocError>
    ensures { OnOk result (out.new.items ≡ out.old.items ++ range_text step.now name.now) }
{
    if step.is_empty() {
        put_steady_range(out, name)
    } else {
        put_step_range(out, step, name)
    }
}

/// Puts what the causes of the control mean.
fn put_tacs(out: &mut Vec<u8>, cause: &[u8], step: &[u8], name: &[u8]) -> Result<(), AllocError>
    ensures { OnOk result (out.new.items ≡ out.old.items ++ tacs_text cause.now step.now name.now) }
{
    if cause == b"TACSPIVOT".as_slice() {
        put_tacs_pivot(out, step, name)
    } else if cause == b"TACSRANGE".as_slice() {
        put_tacs_range(out, step, name)
    } else {
        Ok(())
    }
}

fn put_tied(out: &mut Vec<u8>, step: &[u8], name: &[u8]) -> Result<(), AllocError>
    ensures { OnOk result (out.new.items ≡ out.old.items ++ tied_text step.now name.now) }
{
    put(out, IN)?;
    put_step(out, step)?;
    put(out, TIED)?;
    put(out, name)?;
    put(out, TIED_CURE)?;
    Ok(())
}

fn put_steady_pivot(out: &mut Vec<u8>, name: &[u8]) -> Result<(), AllocError>
    ensures { OnOk result (out.new.items ≡ out.old.items ++ steady_pivot_text name.now) }
{
    put(out, AT)?;
    put(out, name)?;
    put(out, STEADY_PIVOT_CURE)?;
    Ok(())
}

fn put_step_pivot(out: &mut Vec<u8>, step: &[u8], name: &[u8]) -> Result<(), AllocError>
    ensures { OnOk result (out.new.items ≡ out.old.items ++ step_pivot_text step.now name.now) }
{
    put(out, NOTHING_TIES)?;
    put(out, name)?;
    put(out, PIVOT)?;
    put_step(out, step)?;
    put(out, PIVOT_CURE)?;
    Ok(())
}

fn put_steady_range(out: &mut Vec<u8>, name: &[u8]) -> Result<(), AllocError>
    ensures { OnOk result (out.new.items ≡ out.old.items ++ steady_range_text name.now) }
{
    put(out, NEAR)?;
    put(out, name)?;
    put(out, STEADY_RANGE_CURE)?;
    Ok(())
}

fn put_step_range(out: &mut Vec<u8>, step: &[u8], name: &[u8]) -> Result<(), AllocError>
    ensures { OnOk result (out.new.items ≡ out.old.items ++ step_range_text step.now name.now) }
{
    put(out, NEAR)?;
    put(out, name)?;
    put(out, RANGE)?;
    put_step(out, step)?;
    put(out, RANGE_CURE)?;
    Ok(())
}

fn put_residual(out: &mut Vec<u8>, step: &[u8], name: &[u8]) -> Result<(), AllocError>
    ensures { OnOk result (out.new.items ≡ out.old.items ++ residual_text step.now name.now) }
{
    put(out, RESIDUAL)?;
    put_step(out, step)?;
    put(out, RESIDUAL_NODE)?;
    put(out, name)?;
    put(out, RESIDUAL_CURE)?;
    Ok(())
}

fn put_tacs_pivot(out: &mut Vec<u8>, step: &[u8], name: &[u8]) -> Result<(), AllocError>
    ensures { OnOk result (out.new.items ≡ out.old.items ++ tacs_pivot_text step.now name.now) }
{
    put(out, LOOP_AROUND)?;
    put(out, name)?;
    put(out, LOOP)?;
    put_step(out, step)?;
    put(out, LOOP_CURE)?;
    Ok(())
}

fn put_tacs_range(out: &mut Vec<u8>, step: &[u8], name: &[u8]) -> Result<(), AllocError>
    ensures { OnOk result (out.new.items ≡ out.old.items ++ tacs_range_text step.now name.now) }
{
    put(out, IN)?;
    put_step(out, step)?;
    put(out, b" ")?;
    put(out, name)?;
    put(out, TACS_RANGE_CURE)?;
    Ok(())
}

/// Why a case has no steady state, by the word of the reason; nothing for a word that is none.
pub fn unsolved(reason: &[u8]) -> &'static [u8]
    ensures { result.now ≡ unsolved_text reason.now }
{
    if reason == b"Size".as_slice() {
        STEADY_SIZE
    } else if reason == b"NoSource".as_slice() {
        STEADY_NO_SOURCE
    } else if reason == b"Probe".as_slice() {
        STEADY_PROBE
    } else if reason == b"Control".as_slice() {
        STEADY_CONTROL
    } else if reason == b"Switch".as_slice() {
        STEADY_SWITCH
    } else if reason == b"Nonlinear".as_slice() {
        STEADY_NONLINEAR
    } else if reason == b"Loss".as_slice() {
        STEADY_LOSS
    } else if reason == b"Phases".as_slice() {
        STEADY_PHASES
    } else if reason == b"Impedance".as_slice() {
        STEADY_IMPEDANCE
    } else if reason == b"Source".as_slice() {
        STEADY_SOURCE
    } else {
        b""
    }
}
