//! The voltages at a frequency, and whether they are good.

ghost use Rattle.emtp_fix.specs.declared.limit.TheConstants.{LARGEST_VALUE};
ghost use Rattle.std.specs.Prelude.{◌≡◌, ◌*◌, ◌+◌, ◌<◌, All, Ok, Err, length, IfOk, IfErr, OnOk};
ghost use Rattle.emtp_elim.specs.held.Finished.{AreAllFinished};
ghost use Rattle.emtp_elim.specs.Matrix.{Matrix};
ghost use Rattle.emtp_elim.specs.held.Matrix.{AreWithin};
ghost use Rattle.emtp_elim.specs.Outcome.{outcome};
ghost use Rattle.emtp_case.specs.held.EndNames.{IsNode};
ghost use Rattle.emtp_case.specs.RowOrder.{order_of};
ghost use Rattle.emtp_phasor.specs.held.SteadyNetwork.{IsSteadyNetwork};
ghost use Rattle.emtp_phasor.specs.Steady.{resting_kinds, named_ending};
ghost use Rattle.emtp_phasor.specs.held.Steady.{AreGood, judged_volts};
ghost use Rattle.emtp_phasor.specs.Volts.{volt_in, phasors_of};
ghost use Rattle.emtp_phasor.specs.held.Volts.{IsVolt};

use crate::ending::{Ending, ending_at};
use crate::flow::{first_out, judge};
use crate::phasor::{NOTHING, Phasor};
use crate::steady_network::SteadyNetwork;
use emtp_case::{Case, RowOrder, branch_name};
use emtp_elim::SparseRows;
use emtp_machine::Cause;

/// The voltages by node, ground first, from the unknowns by row.
pub(crate) fn fill_volts(case: &Case, order: &RowOrder, x: &[i64], out: &mut [Phasor])
    requires order { order.now ≡ order_of case.now.parts }
    requires x { length x.now ≡ 2 * length case.now.parts.nodes }
    requires out { length out.old ≡ length case.now.parts.nodes + 1 }
    ensures { out.new ≡ phasors_of case.now.parts x.now }
{
    out[0] = NOTHING;
    for at in 0..case.parts.nodes.len() {
        out[at + 1] = volt_in(x, order.row_of(at as u32 + 1));
    }
}

/// The two unknowns of a row.
fn volt_in(x: &[i64], row: usize) -> Phasor
    requires { 2 * row + 1 < length x.now }
    ensures { result ≡ volt_in x.now row }
{
    Phasor {
        re: x[2 * row],
        im: x[2 * row + 1],
    }
}

/// Solves for the unknowns of a right side by the finished rows.
pub(crate) fn solve_right(
    network: SteadyNetwork<'_>,
    done: &SparseRows,
    right: &[i128],
    rhs: &mut [i128],
    x: &mut [i64],
) -> Result<(), Ending>
    requires network { IsSteadyNetwork network }
    requires size { done.now.size ≡ 2 * length network.case.now.parts.nodes }
    requires all { length done.now.rows ≡ done.now.size }
    requires right { length right.now ≡ 2 * length network.case.now.parts.nodes }
    requires rhs { length rhs.old ≡ 2 * length network.case.now.parts.nodes }
    requires x { length x.old ≡ 2 * length network.case.now.parts.nodes }
    ensures solved { OnOk result ((rows : Matrix) → AreAllFinished rows done.now.rows → outcome rows right.now ≡ Ok x.new) }
    ensures within { OnOk result (AreWithin LARGEST_VALUE x.new) }
    ensures fault { IfErr result
        (λ e. (rows : Matrix) → AreAllFinished rows done.now.rows
        → named_ending network.entry.case.now.parts (outcome rows right.now) ≡ Err e) }
    ensures node { IfErr result (λ e. IsNode network.entry.case.now.parts e.node) }
{
    rhs.copy_from_slice(right);
    match done.solve(rhs, x) {
        Ok(()) => Ok(()),
        Err(fault) => Err(ending_at(network.order.node_at(fault.row / 2), Cause::Range)),
    }
}

/// The greatest residual at these voltages, or the first branch or row that ends the solution.
pub(crate) fn judge_volts(network: SteadyNetwork<'_>, volts: &[Phasor]) -> Result<i128, Ending>
    requires network { IsSteadyNetwork network }
    requires kinds { network.kinds.now ≡ resting_kinds network.case.now.parts }
    requires volts { All IsVolt volts.now }
    requires nodes { length volts.now ≡ length network.case.now.parts.nodes + 1 }
    ensures good { IfOk result (λ greatest. AreGood network.entry.case.now.parts network.entry.ports.now volts.now greatest) }
    ensures fault { IfErr result (λ e. judged_volts network.entry.case.now.parts network.entry.ports.now volts.now ≡ Err e) }
    ensures node { IfErr result (λ e. IsNode network.entry.case.now.parts e.node) }
{
    let case = network.case;
    if let Some(b) = first_out(case, network.ports, volts) {
        return Err(ending_at(branch_name(case, b), Cause::Range));
    }
    match judge(network, volts) {
        Ok(greatest) => Ok(greatest),
        Err((row, measured)) => Err(Ending {
            node: network.order.node_at(row),
            cause: Cause::Residual,
            measured,
        }),
    }
}
