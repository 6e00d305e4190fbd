//! The groups of the nodes that closed switches join, and the tree of the bridges in each.

ghost use Rattle.std.specs.Prelude.{◌≡◌, ◌≤◌, ◌<◌, ◌+◌, ℕ, length, map, slice_index, take, IfOk};
ghost use Rattle.std.specs.List.{All};
ghost use Rattle.emtp_case.specs.RowOrder.{Rows};
ghost use Rattle.emtp_switch.specs.Groups.{alone, bridges, closed_switches, groups, tied_of};
ghost use Rattle.emtp_switch.specs.held.Grouping.{AreGroups, HasPlaces, group_capacities};
ghost use Rattle.emtp_switch.specs.Kinds.{kind_of};
ghost use Rattle.emtp_switch.specs.held.Plan.{IsPlan};
ghost use Rattle.emtp_switch.specs.held.Tree.{AreLinks, AreRoots, IsTree};

use crate::bridges::find_bridges;
use crate::grow::grow;
use crate::kinds::{NOTHING, Tally, count, find_kinds};
use crate::plan::Plan;
use crate::roots::{find_roots, mark, reset};
use crate::sweep::{Link, NO_LINK};
use emtp_case::{Case, RowKind, RowOrder, SwitchState};
use std::alloc::{AllocError, Global};

/// The groups of the states of the switches. All room is taken once.
#[derive(Drop)]
pub struct Groups {
    /// By node, ground first: the label of its group.
    pub labels: Vec<u32>,
    /// By label: whether the group holds a known voltage.
    pub knowing: Vec<bool>,
    /// Room for the bridges.
    pub bridges: Vec<u32>,
    /// By label: the root of the group.
    pub roots: Vec<u32>,
    /// By node, ground first: whether the tree reaches it.
    pub reached: Vec<bool>,
    /// The tree of the bridges in each group, from the roots on, and unused room behind it.
    pub links: Vec<Link>,
    /// The number of bridges.
    pub link_count: usize,
    /// The first switch that joins two known voltages.
    pub tied: Option<u32>,
    /// By label: what ends at the nodes of the group.
    pub tallies: Vec<Tally>,
    /// The kinds of the rows.
    pub kinds: Vec<RowKind>,
}

impl Groups {
    /// Room for the groups of a case.
    pub(crate) fn room(alloc: Global, case: &Case) -> Result<Groups, AllocError>
        ensures { IfOk result (HasPlaces case.now.parts) }
    {
        let rows = case.parts.nodes.len();
        Ok(Groups {
            labels: vec![in alloc; 0u32; rows + 1]?,
            knowing: vec![in alloc; false; rows + 1]?,
            bridges: vec![in alloc; 0u32; case.parts.switches.len()]?,
            roots: vec![in alloc; 0u32; rows + 1]?,
            reached: vec![in alloc; false; rows + 1]?,
            links: vec![in alloc; NO_LINK; rows + 1]?,
            link_count: 0,
            tied: None,
            tallies: vec![in alloc; NOTHING; rows + 1]?,
            kinds: vec![in alloc; RowKind::Kcl; rows]?,
        })
    }

    /// Finds the groups of the states anew, in the room that was taken.
    pub(crate) fn regroup(
        &mut self,
        case: &Case,
        order: &RowOrder,
        plan: &Plan,
        states: &[SwitchState],
    )
        requires plan { IsPlan case.now.parts order.now plan.now }
        requires room { HasPlaces case.now.parts self.old }
        requires states { length states.now ≡ length case.now.parts.switches }
        ensures groups { AreGroups case.now.parts order.now states.now self.new }
        ensures capacities { group_capacities self.new ≡ group_capacities self.old }
    {
        let bridges = self.join(case, plan, states);
        self.grow(case, order, plan, bridges);
        self.find_kinds(case, order, plan);
    }

    /// Joins the sides of the closed switches. Answers the number of bridges among them.
    fn join(&mut self, case: &Case, plan: &Plan, states: &[SwitchState]) -> usize
        requires known { length plan.now.known.items ≡ length case.now.parts.nodes + 1 }
        requires room { HasPlaces case.now.parts self.old }
        requires states { length states.now ≡ length case.now.parts.switches }
        ensures room { HasPlaces case.now.parts self.new }
        ensures within { result ≤ length self.new.bridges.items }
        ensures labels { self.new.labels.items
            ≡ groups case.now.parts.switches (alone (length case.now.parts.nodes)) (closed_switches states.now) }
        ensures bridges { take result self.new.bridges.items
            ≡ bridges case.now.parts.switches (alone (length case.now.parts.nodes)) (closed_switches states.now) }
        ensures numbers { All (λ s. s < length case.now.parts.switches) (take result self.new.bridges.items) }
        ensures tied { (rows : Rows) → IsPlan case.now.parts rows plan.now
            → self.new.tied ≡ tied_of case.now.parts.switches rows states.now }
        ensures capacities { group_capacities self.new ≡ group_capacities self.old }
    {
        reset(&mut self.labels);
        self.knowing.copy_from_slice(&plan.known);
        let switches = case.parts.switches.as_slice();
        let found = find_bridges(
            switches,
            states,
            &mut self.labels,
            &mut self.knowing,
            &mut self.bridges,
        );
        self.tied = found.tied;
        found.bridges
    }

    /// Finds the roots, and grows the tree of so many bridges from them.
    fn grow(&mut self, case: &Case, order: &RowOrder, plan: &Plan, bridges: usize)
        requires plan { IsPlan case.now.parts order.now plan.now }
        requires room { HasPlaces case.now.parts self.old }
        requires within { bridges ≤ length self.old.bridges.items }
        requires numbers { All (λ s. s < length case.now.parts.switches) (take bridges self.old.bridges.items) }
        requires labels { self.old.labels.items
            ≡ groups case.now.parts.switches (alone (length order.now.nodes)) (take bridges self.old.bridges.items) }
        ensures room { HasPlaces case.now.parts self.new }
        ensures labels { self.new.labels ≡ self.old.labels }
        ensures tied { self.new.tied ≡ self.old.tied }
        ensures roots { AreRoots order.now self.old.labels.items self.new.roots.items }
        ensures within { self.new.link_count ≤ length self.new.links.items }
        ensures links { AreLinks (take self.new.link_count self.new.links.items)
            (length order.now.nodes + 1) (length case.now.parts.switches) }
        ensures tree { IsTree case.now.parts.switches order.now (take bridges self.old.bridges.items)
            self.old.labels.items (take self.new.link_count self.new.links.items) }
        ensures capacities { group_capacities self.new ≡ group_capacities self.old }
    {
        find_roots(&plan.ranked, &self.labels, &mut self.roots);
        mark(&self.roots, &self.labels, &mut self.reached);
        let switches = case.parts.switches.as_slice();
        let bridges = &self.bridges[..bridges];
        self.link_count = grow(switches, bridges, order, &mut self.reached, &mut self.links);
    }

    /// Finds the kinds of the rows.
    fn find_kinds(&mut self, case: &Case, order: &RowOrder, plan: &Plan)
        requires plan { IsPlan case.now.parts order.now plan.now }
        requires room { HasPlaces case.now.parts self.old }
        requires labels { (x : ℕ) → x ≤ length order.now.nodes → slice_index self.old.labels.items x ≤ length order.now.nodes }
        requires roots { AreRoots order.now self.old.labels.items self.old.roots.items }
        ensures room { HasPlaces case.now.parts self.new }
        ensures tied { self.new.tied ≡ self.old.tied }
        ensures links { self.new.links ≡ self.old.links }
        ensures link_count { self.new.link_count ≡ self.old.link_count }
        ensures kinds { self.new.kinds.items ≡ map (kind_of case.now.parts order.now self.old.labels.items) order.now.nodes }
        ensures capacities { group_capacities self.new ≡ group_capacities self.old }
    {
        count(order, &self.labels, &plan.ends, &mut self.tallies);
        find_kinds(
            order,
            &self.labels,
            &self.roots,
            &self.tallies,
            &mut self.kinds,
        );
    }
}
