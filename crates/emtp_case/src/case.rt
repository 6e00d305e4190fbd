//! A case: the records of its cards, which fit each other.

ghost use Rattle.std.specs.Prelude.{◌≡◌, ◌≢◌, ◌-◌, ◌≤◌, length, count_by, position, slice_get, All, IsNone, IfSome};
ghost use Rattle.std.specs.Str.{bytes_eq};
ghost use Rattle.emtp_case.specs.held.Node.{node_of};
ghost use Rattle.emtp_case.specs.Switch.{is_time_switch, with_times};
ghost use Rattle.emtp_case.specs.held.Switch.{HasTimes};
ghost use Rattle.emtp_case.specs.held.Case.{IsCase};
ghost use Rattle.emtp_case.specs.held.OneProof.{IsCase-prop};

use crate::branch::{Branch, Point, Trio};
use crate::channel::Channel;
use crate::control::{Block, Extra};
use crate::items::Items;
use crate::name::Name;
use crate::run_data::RunData;
use crate::source::Source;
use crate::switch::{Switch, Times};

/// The records of a case, as the cards give them.
#[derive(Drop)]
pub struct Parts {
    /// The numbers of the miscellaneous cards.
    pub run: RunData,
    /// The names of the nodes 1, 2 and so on, in order of first appearance. Ground is number 0.
    pub nodes: Items<Name>,
    /// The branches in card order.
    pub branches: Items<Branch>,
    /// The modes of the three-phase lines, in card order.
    pub trios: Items<Trio>,
    /// The points of characteristics and tables, and the times of devices.
    pub points: Items<Point>,
    /// The switches in card order.
    pub switches: Items<Switch>,
    /// The sources of the network, in card order.
    pub sources: Items<Source>,
    /// The names of the TACS variables 0, 1 and so on; the six standing ones come first.
    pub vars: Items<Name>,
    /// The TACS sources in card order.
    pub tacs_sources: Items<Source>,
    /// The blocks in card order.
    pub blocks: Items<Block>,
    /// The supplemental cards in card order.
    pub extras: Items<Extra>,
    /// The channels of the record.
    pub channels: Items<Channel>,
}

impl Parts {
    ghost use Rattle.emtp_case.specs.RowOrder.{touches_switch};

    /// Whether a switch of any kind, open or closed, ends at a node.
    pub fn touches_switch(&self, node: u32) -> bool
        ensures { result ≡ touches_switch self.now node }
    {
        self.switches
            .as_slice()
            .iter()
            .any(|s| s.from == node || s.to == node)
    }
}

/// A case: records whose numbers are in range and which fit each other.
#[derive(Drop)]
pub struct Case {
    /// The records.
    pub parts: Parts,
    pub ghost fits: { IsCase parts } by { IsCase-prop parts },
}

impl Case {
    /// The case of these records.
    pub fn new(parts: Parts) -> Case
        requires { IsCase parts }
        ensures { result.parts ≡ parts }
    {
        Case { parts }
    }

    /// The number of the node with a name, from 1; none where no node has it.
    pub fn node(&self, name: &str) -> Option<u32>
        ensures value { result ≡ node_of self.now.parts name.now }
        ensures found { IfSome result (λ n. (1 ≤ n) × (slice_get self.now.parts.nodes (n - 1) ≡ Some name.now)) }
        ensures missing { IsNone result → All (λ node. node ≢ name.now) self.now.parts.nodes }
    {
        match first_place(self.parts.nodes.as_slice(), name.as_bytes()) {
            Some(at) => Some(at as u32 + 1),
            None => None,
        }
    }

    /// Gives the time switches other times, one entry each, in card order. Nothing else changes.
    pub fn set_times(&mut self, times: &[Times])
        requires count { length times.now ≡ count_by is_time_switch self.old.parts.switches }
        requires small { All (λ (t : Times). HasTimes t.close t.open_at) times.now }
        ensures { self.new.parts ≡ record self.old.parts { switches = with_times self.old.parts.switches times.now } }
    {
        set_switch_times(&mut self.parts.switches, times);
    }
}

/// The first place of a name.
fn first_place(names: &[Name], name: &[u8]) -> Option<usize>
    ensures { result ≡ position (λ n. bytes_eq n name.now) names.now }
{
    names.iter().position(|n| n.as_slice() == name)
}

fn set_switch_times(switches: &mut Items<Switch>, times: &[Times])
    requires { length times.now ≡ count_by is_time_switch switches.old }
    ensures { switches.new ≡ with_times switches.old times.now }
{
    let mut next = 0;
    for at in 0..switches.len() {
        let switch = switches.as_slice()[at];
        if switch.is_time() {
            switches.set(at, switch.with_times(times[next]));
            next += 1;
        }
    }
}
