//! The nodes that faults of the elimination are named by.

ghost use Rattle.std.specs.Prelude.{◌≡◌, ◌<◌, length};
ghost use Rattle.emtp_case.specs.RowOrder.{order_of};
ghost use Rattle.emtp_net.specs.held.Fault.{NamesNode};
ghost use Rattle.emtp_net.specs.Step.{fault_by};
ghost use Rattle.emtp_rows.specs.Nodal.{node_at};

use crate::fault::NetFault;
use emtp_case::{Case, RowOrder};
use emtp_elim::{RowCause, RowFault};

/// A fault of the elimination, by the node of its row.
pub(crate) fn row_fault(case: &Case, order: &RowOrder, fault: RowFault) -> NetFault
    requires order { order.now ≡ order_of case.now.parts }
    requires row { fault.row < length case.now.parts.nodes }
    ensures value { result ≡ fault_by fault.cause (node_at case.now.parts fault.row) }
    ensures node { NamesNode case.now.parts result }
{
    let node = order.node_at(fault.row);
    match fault.cause {
        RowCause::Range => NetFault::Range(node),
        RowCause::ZeroPivot => NetFault::ZeroPivot(node),
    }
}
