//! What is true of the voltages and the currents at the nodes. The functions do nothing: their clauses are proved.

ghost use Rattle.std.specs.Prelude.{◌≡◌, ℕ, IfOk, List, Ok};
ghost use Rattle.emtp_case.specs.StepRecord.{StepRecord, latest};
ghost use Rattle.emtp_machine.specs.Laws.{records_upto};
ghost use Rattle.emtp_net.specs.Part.{NetworkPart};
ghost use Rattle.emtp_net.specs.Step.{network_part};
ghost use Rattle.emtp_laws.specs.Nodes.{AreSourcesKept, HoldsCurrentLaw, IsGroundKept, JoinEnds, KeepSources, KeepsCurrentLaw, KeepsGround};

use emtp_case::Case;

/// A closed switch has no voltage across it, to the last digit: neither in a step nor in a record of a run.
pub fn closed_switch_has_no_voltage(case: &Case)
    ensures step { (H : List StepRecord) (part : NetworkPart) → network_part case.now.parts H ≡ Ok part
        → JoinEnds case.now.parts part.switch_states part.voltages }
    ensures run { (n : ℕ) → JoinEnds case.now.parts (latest (records_upto case.now.parts n)).switch_states
        (latest (records_upto case.now.parts n)).voltages }
{}

/// A node that closed switches join to ground, through other nodes too, is exactly at 0: in each step, and in each record of a
/// run, of which the first is rest.
pub fn grounded_nodes_have_no_voltage(case: &Case)
    ensures step { (H : List StepRecord)
        → IfOk (network_part case.now.parts H) (λ part. KeepsGround case.now.parts H part.voltages) }
    ensures run { (n : ℕ) → IsGroundKept case.now.parts (records_upto case.now.parts n) }
{}

/// The node of a voltage source has the source's value, to the last digit: in each step, and in each record of a run but the
/// first, which is rest.
pub fn voltage_sources_are_exact(case: &Case)
    ensures step { (H : List StepRecord) (part : NetworkPart) → network_part case.now.parts H ≡ Ok part
        → KeepSources case.now.parts H part.voltages }
    ensures run { (n : ℕ) → AreSourcesKept case.now.parts (records_upto case.now.parts n) }
{}

/// Kirchhoff's current law at every node: where the voltage of a node isn't known, what leaves it through branches and switches,
/// less what its current sources bring, is at most the tolerance, and exactly 0 at each node of a group but its root. So it is in
/// each step and in each record of a run.
pub fn currents_at_each_node_add_up_to_zero(case: &Case)
    ensures step { (H : List StepRecord) (part : NetworkPart) → network_part case.now.parts H ≡ Ok part
        → HoldsCurrentLaw case.now.parts H part }
    ensures run { (n : ℕ) → KeepsCurrentLaw case.now.parts (records_upto case.now.parts n) }
{}
