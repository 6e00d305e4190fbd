//! The doubled matrix of a frequency, eliminated from its first row.

ghost use Rattle.std.specs.Prelude.{◌≡◌, ◌*◌, length, OnOk, IfErr};
ghost use Rattle.emtp_case.specs.held.EndNames.{IsNode};
ghost use Rattle.emtp_elim.specs.held.Finished.{AreAllFinished};
ghost use Rattle.emtp_elim.specs.held.WorkRow.{IsClearRow};
ghost use Rattle.emtp_phasor.specs.Doubled.{doubled_matrix};
ghost use Rattle.emtp_phasor.specs.held.SteadyNetwork.{IsSteadyNetwork, RowsEnd, doubled_of};

use crate::ending::{Ending, cause_of, ending_at};
use crate::fill::fill_row;
use crate::steady_network::SteadyNetwork;
use emtp_elim::{SparseRows, WorkRow, eliminate_work_row, row_fault_ends_systems};
use emtp_fix::Steps;
use std::sync::ledger::Ledger;

/// Finishes the rows of the matrix with these admittances, whatever rows were finished before. Each row is written over
/// zeros and cleared again, so that it costs its numbers and those that are filled in, and not the width of the matrix. The
/// end is that of the least faulty row, whatever the right side.
pub(crate) fn eliminate_rows<L: Ledger>(
    network: SteadyNetwork<'_>,
    done: &mut SparseRows,
    work: &mut WorkRow,
    steps: &mut Steps<L>,
) -> Result<(), Ending>
    requires network { IsSteadyNetwork network }
    requires size { done.old.size ≡ 2 * length network.case.now.parts.nodes }
    requires clear { IsClearRow (2 * length network.case.now.parts.nodes) work.old }
    ensures size { done.new.size ≡ done.old.size }
    ensures clear { IsClearRow (2 * length network.entry.case.now.parts.nodes) work.new }
    ensures finished { OnOk result (AreAllFinished (doubled_matrix (doubled_of network.entry)) done.new.rows) }
    ensures fault { IfErr result (RowsEnd network.entry) }
    ensures node { IfErr result (λ e. IsNode network.entry.case.now.parts e.node) }
{
    row_fault_ends_systems();
    done.cut(0);
    for row in 0..work.len() {
        fill_row(network, row, work);
        if let Err(cause) = eliminate_work_row(done, work, steps) {
            return Err(ending_at(network.order.node_at(row / 2), cause_of(cause)));
        }
    }
    Ok(())
}
