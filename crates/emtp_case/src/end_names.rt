//! The nodes that branches and switches are named by.

ghost use Rattle.std.specs.Prelude.{◌≡◌, ◌<◌, length};
ghost use Rattle.emtp_case.specs.EndNames.{node_of_branch, node_of_switch};
ghost use Rattle.emtp_case.specs.held.EndNames.{IsNode};

use crate::case::Case;

/// The node that the branch at a place is named by: its `from`, or its `to` where `from` is ground. This project's own.
pub fn branch_name(case: &Case, at: usize) -> u32
    requires { at < length case.now.parts.branches }
    ensures value { result ≡ node_of_branch case.now.parts at }
    ensures node { IsNode case.now.parts result }
{
    let (from, to) = case.parts.branches.as_slice()[at].ends();
    if from == 0 { to } else { from }
}

/// The node that the switch at a place is named by, as a branch is.
pub fn switch_name(case: &Case, at: usize) -> u32
    requires { at < length case.now.parts.switches }
    ensures value { result ≡ node_of_switch case.now.parts at }
    ensures node { IsNode case.now.parts result }
{
    let switch = case.parts.switches.as_slice()[at];
    if switch.from == 0 {
        switch.to
    } else {
        switch.from
    }
}
