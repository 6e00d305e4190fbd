//! What is the same at all frequencies: the kinds of the rows, by the switches at rest, and the right side.

ghost use Rattle.std.specs.Prelude.{◌≡◌, ◌*◌, None, length, IfOk, IfErr, OnOk};
ghost use Rattle.emtp_case.specs.held.RowKinds.{AreKinds};
ghost use Rattle.emtp_case.specs.RowOrder.{order_of};
ghost use Rattle.emtp_case.specs.held.RowOrder.{IsRowOrder};
ghost use Rattle.emtp_case.specs.StepRecord.{rest_of};
ghost use Rattle.emtp_switch.specs.Groups.{tied_of};
ghost use Rattle.emtp_phasor.specs.declared.resting_rows.Closed.{Closed};
ghost use Rattle.emtp_phasor.specs.held.Opening.{IsClosed};
ghost use Rattle.emtp_phasor.specs.held.SteadyNetwork.{IsSteadyNetwork};
ghost use Rattle.emtp_phasor.specs.Steady.{resting_kinds, steady_right};

use crate::sources::fill_right;
use crate::steady_network::SteadyNetwork;
use emtp_case::{Case, RowKind, RowOrder};
use emtp_switch::{Switches, Tied};
use emtp_wave::CosTable;
use std::alloc::{AllocError, Global};

/// Why nothing was opened: a switch ties two known voltages, or no memory is left.
#[derive(Clone, Copy, Debug)]
pub enum Closed {
    Tied(usize),
    NoMemory,
}

impl From<AllocError> for Closed {
    ghost use Rattle.emtp_phasor.specs.declared.resting_rows.Closed.TheVariants.{NoMemory};

    ghost from_gives = { λ _ e. e ≡ NoMemory };

    fn from(_: AllocError) -> Closed {
        Closed::NoMemory
    }
}

/// The kinds of the rows, by the switches at rest.
pub(crate) fn row_kinds(
    alloc: Global,
    case: &Case,
    order: &RowOrder,
) -> Result<Vec<RowKind>, Closed>
    requires order { order.now ≡ order_of case.now.parts }
    requires lawful { IsRowOrder case.now.parts order.now }
    ensures kinds { IfOk result (λ kinds. kinds.items ≡ resting_kinds case.now.parts) }
    ensures are { IfOk result (λ kinds. AreKinds (length case.now.parts.nodes) order.now.fixed kinds.items) }
    ensures untied { OnOk result
        (tied_of case.now.parts.switches (order_of case.now.parts) (rest_of case.now.parts).switch_states ≡ None) }
    ensures closed { IfErr result (IsClosed case.now.parts) }
{
    let mut kinds = vec![in alloc; RowKind::Kcl; case.parts.nodes.len()]?;
    let switches = Switches::open(alloc, case, order)?;
    match switches.kinds(&mut kinds) {
        Ok(()) => {
            drop(switches);
            Ok(kinds)
        }
        Err(Tied { switch }) => {
            drop(switches);
            Err(Closed::Tied(switch))
        }
    }
}

/// The right side, by row.
pub(crate) fn right_side(
    alloc: Global,
    table: &CosTable,
    network: SteadyNetwork<'_>,
) -> Result<Vec<i128>, AllocError>
    requires network { IsSteadyNetwork network }
    requires kinds { network.kinds.now ≡ resting_kinds network.case.now.parts }
    ensures { IfOk result (λ right. right.items ≡ steady_right network.entry.case.now.parts) }
{
    let mut right = vec![in alloc; 0i128; 2 * network.case.parts.nodes.len()]?;
    fill_right(table, network, &mut right);
    Ok(right)
}
