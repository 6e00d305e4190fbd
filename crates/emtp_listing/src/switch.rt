//! The lines of switches.

ghost use Rattle.std.specs.Prelude.{◌≡◌, OnOk};
ghost use Rattle.emtp_case.specs.held.Sizes.{sizes_of};
ghost use Rattle.emtp_case.specs.held.Switch.{IsSwitch, IsSwitchKind};
ghost use Rattle.emtp_listing.specs.Puts.{Puts};
ghost use Rattle.emtp_listing.specs.Lines.{all_separated};
ghost use Rattle.emtp_listing.specs.NetworkLines.{switch_word, switch_kind_entries, switch_line};

use crate::piece::{
    put_choice, put_head, put_node, put_quantity, put_time, put_variable, put_word,
};
use emtp_case::{Parts, Switch, SwitchKind};
use std::alloc::AllocError;

/// Puts the line of a switch after a text.
pub(crate) fn put_switch(
    out: &mut Vec<u8>,
    parts: &Parts,
    switch: &Switch,
) -> Result<(), AllocError>
    requires { IsSwitch (sizes_of parts.now) switch.now }
    ensures { OnOk result (Puts out.old.items (switch_line parts.now.nodes parts.now.vars switch.now) out.new.items) }
{
    put_head(out, b"line", switch.line)?;
    put_word(out, switch_word(&switch.kind))?;
    put_node(out, b"BUS1", parts, switch.from)?;
    put_node(out, b"BUS2", parts, switch.to)?;
    put_kind(out, parts, &switch.kind)?;
    Ok(())
}

fn switch_word(kind: &SwitchKind) -> &'static [u8]
    ensures { result.now ≡ switch_word kind.now }
{
    match kind {
        SwitchKind::Time { .. } => b"time switch",
        SwitchKind::Measuring => b"measuring switch",
        SwitchKind::Valve { .. } => b"valve",
        SwitchKind::Control { .. } => b"controlled switch",
    }
}

fn put_kind(out: &mut Vec<u8>, parts: &Parts, kind: &SwitchKind) -> Result<(), AllocError>
    requires { IsSwitchKind (sizes_of parts.now) kind.now }
    ensures { OnOk result (Puts out.old.items (all_separated (switch_kind_entries parts.now.vars kind.now)) out.new.items) }
{
    match kind {
        SwitchKind::Time {
            close,
            open_at,
            margin,
        } => {
            put_quantity(out, b"T-CLOSE", 12, b"s", close)?;
            put_time(out, b"T-OPEN", open_at)?;
            put_quantity(out, b"margin", 9, b"A", margin)?;
            Ok(())
        }
        SwitchKind::Measuring => Ok(()),
        SwitchKind::Valve {
            ignition,
            holding,
            control,
        } => {
            put_quantity(out, b"ignition", 9, b"V", ignition)?;
            put_quantity(out, b"holding", 9, b"A", holding)?;
            put_choice(out, b"control", b"(always)", parts, *control)?;
            Ok(())
        }
        SwitchKind::Control { control } => put_variable(out, b"control", parts, *control),
    }
}
