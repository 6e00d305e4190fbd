//! The switches of a case.

ghost use Rattle.std.specs.Prelude.{◌≡◌, ◌≢◌, ◌≤◌, ◌<◌, ◌+◌, ◌∷◌, [], ◌^◌, false, true, None, Some, length, map, pos, replicate, unsigned_abs, IfErr, IfOk};
ghost use Rattle.std.specs.List.{All};
ghost use Rattle.emtp_case.specs.held.RowKinds.{AreKinds};
ghost use Rattle.emtp_case.specs.held.RowOrder.{IsRowOrder};
ghost use Rattle.emtp_case.specs.StepRecord.{is_closed, rest_of, starting_state};
ghost use Rattle.emtp_case.specs.declared.switch.Switch.{Switch as SwitchCard};
ghost use Rattle.emtp_fix.specs.declared.limit.TheConstants.{LARGEST_VALUE};
ghost use Rattle.emtp_switch.specs.Currents.{currents_of};
ghost use Rattle.emtp_switch.specs.held.Currents.{Balances, IsFirstBeyond};
ghost use Rattle.emtp_switch.specs.Groups.{is_closed_at, tied_of};
ghost use Rattle.emtp_switch.specs.Kinds.{kinds_of};
ghost use Rattle.emtp_switch.specs.held.Switching.{MovesSwitches, StandsFor};

use crate::bridges::is_closed;
use crate::currents::{SwitchRange, clear, load, narrow};
use crate::groups::Groups;
use crate::plan::Plan;
use crate::states::{LastNumbers, move_states, starting_state};
use crate::sweep::sweep;
use emtp_case::{Case, RowKind, RowOrder, SwitchState};
use std::alloc::{AllocError, Global};
use std::marker::Model;

/// The first closed switch, in card order, that joins two groups with a known voltage each.
#[derive(Clone, Copy, Debug, PartialEq, Eq)]
pub struct Tied {
    /// The switch.
    pub switch: usize,
}

/// The switches of a case, their groups, and the kinds of the rows. It stands for a list of records.
#[derive(Drop)]
pub struct Switches<'a> {
    case: &'a Case,
    order: RowOrder,
    plan: Plan,
    groups: Groups,
    states: Vec<SwitchState>,
    before: Vec<i64>,
    changed: bool,
    rest: Vec<i128>,
    flows: Vec<i128>,
}

impl<'a> Model for Switches<'a> {
    ghost use Rattle.std.specs.Prelude.{◌∷◌, vec_capacity};
    ghost use Rattle.emtp_switch.specs.held.Grouping.{group_capacities};
    ghost use Rattle.emtp_switch.specs.held.Switching.{IsSwitching, Switching};

    ghost Value = { Switching };

    ghost use Rattle.std.specs.Coded.{codes};

    ghost coded = { Prim.hlevel codes };

    ghost view = { λ s. record {
      case = s.case.now.parts;
      rows = s.order;
      states = s.states.items;
      before = s.before.items;
      changed = s.changed;
      capacities =
          vec_capacity s.states
          ∷ vec_capacity s.before
          ∷ vec_capacity s.rest
          ∷ vec_capacity s.flows
          ∷ group_capacities s.groups;
    } };

    ghost invariant = { λ s. IsSwitching s.case.now.parts s.order s.plan s.groups s.states.items s.before.items s.rest.items s.flows.items };
}

impl<'a> Switches<'a> {
    /// The switches of record 0. They keep their own copy of the row order.
    pub fn open(alloc: Global, case: &'a Case, order: &RowOrder) -> Result<Switches<'a>, AllocError>
        requires order { IsRowOrder case.now.parts order.now }
        ensures case { IfOk result (λ s. s.case ≡ case.now.parts) }
        ensures rows { IfOk result (λ s. s.rows ≡ order.now) }
        ensures stands { IfOk result (λ s. StandsFor s (rest_of case.now.parts ∷ [])) }
    {
        let count = case.parts.switches.len();
        let states = starting_states(alloc, case)?;
        let before = no_currents(alloc, count)?;
        let rest = vec![in alloc; 0i128; case.parts.nodes.len() + 1]?;
        let flows = vec![in alloc; 0i128; count]?;
        let rows = order.copy(alloc)?;
        let plan = Plan::open(alloc, case, order)?;
        let mut groups = Groups::room(alloc, case)?;
        groups.regroup(case, order, &plan, &states);
        Ok(Switches {
            case,
            order: rows,
            plan,
            groups,
            states,
            before,
            changed: true,
            rest,
            flows,
        })
    }

    /// Moves the switches to their states of a step. The lists are the node voltages in nV with ground first, the switch
    /// currents in nA and the values of the control of the record before. It takes no memory: the lists that it writes keep
    /// their capacities.
    pub fn decide(&mut self, step: u32, voltages: &[i64], currents: &[i64], tacs: &[i64])
        requires step { step ≤ self.old.case.run.steps }
        requires voltages { length voltages.now ≡ length self.old.case.nodes + 1 }
        requires small { All (λ v. unsigned_abs v ≤ LARGEST_VALUE) voltages.now }
        requires currents { length currents.now ≡ length self.old.case.switches }
        requires tacs { length tacs.now ≡ length self.old.case.vars }
        ensures case { self.new.case ≡ self.old.case }
        ensures rows { self.new.rows ≡ self.old.rows }
        ensures stands { MovesSwitches self.old self.new step voltages.now currents.now tacs.now }
        ensures same { self.new.changed ≡ false → self.new.states ≡ self.old.states }
        ensures other { self.new.changed ≡ true → self.new.states ≢ self.old.states }
        ensures capacities { self.new.capacities ≡ self.old.capacities }
    {
        let last = LastNumbers {
            voltages,
            currents,
            values: tacs,
        };
        self.changed = move_states(self.case, step, last, &self.before, &mut self.states);
        self.before.copy_from_slice(currents);
        if self.changed {
            self.groups
                .regroup(self.case, &self.order, &self.plan, &self.states);
        }
    }

    /// Whether a switch is closed.
    pub fn closed(&self, switch: usize) -> bool
        requires { switch < length self.now.case.switches }
        ensures { result ≡ is_closed_at self.now.states switch }
    {
        is_closed(self.states[switch])
    }

    /// Writes for each switch whether it is closed.
    pub fn write_closed(&self, out: &mut [bool])
        requires { length out.old ≡ length self.now.case.switches }
        ensures { out.new ≡ map is_closed self.now.states }
    {
        mark_closed(&self.states, out);
    }

    /// Whether the last `decide` gave a switch another state, so that kinds may differ; after `open` it is true.
    pub fn changed(&self) -> bool
        ensures { result ≡ self.now.changed }
    {
        self.changed
    }

    /// Writes the kinds of the rows, or answers the first switch that ties two known voltages.
    pub fn kinds(&self, out: &mut [RowKind]) -> Result<(), Tied>
        requires { length out.old ≡ length self.now.case.nodes }
        ensures kinds { IfOk result (λ done. out.new ≡ kinds_of self.now.case self.now.rows self.now.states) }
        ensures are { self.now.rows.fixed ≤ length self.now.case.nodes
            → IfOk result (λ done. AreKinds (length self.now.case.nodes) self.now.rows.fixed out.new) }
        ensures untied { IfOk result (λ done. tied_of self.now.case.switches self.now.rows self.now.states ≡ None) }
        ensures tied { IfErr result (λ e. tied_of self.now.case.switches self.now.rows self.now.states ≡ Some e.switch) }
        ensures there { IfErr result (λ e. e.switch < length self.now.case.switches) }
    {
        match self.groups.tied {
            Some(switch) => Err(Tied {
                switch: switch as usize,
            }),
            None => {
                out.copy_from_slice(&self.groups.kinds);
                Ok(())
            }
        }
    }

    /// Finds the currents of all switches, in nA, from what leaves the node of each row through branches, less what its
    /// current sources bring. An error is the first switch that is out of range.
    pub fn currents(&mut self, leaving: &[i128], out: &mut [i64]) -> Result<(), SwitchRange>
        requires leaving { length leaving.now ≡ length self.old.case.nodes }
        requires small { All (λ x. unsigned_abs x ≤ 10 ^ 24) leaving.now }
        requires out { length out.old ≡ length self.old.case.switches }
        ensures value { IfOk result (λ done.
            out.new ≡ currents_of self.old.case.switches self.old.rows self.old.states leaving.now) }
        ensures small { IfOk result (λ done. All (λ i. unsigned_abs i ≤ LARGEST_VALUE) out.new) }
        ensures first { IfErr result (λ e.
            IsFirstBeyond (currents_of self.old.case.switches self.old.rows self.old.states leaving.now) e.switch) }
        ensures kirchhoff { IfOk result (λ done.
            Balances self.old.case.switches self.old.rows self.old.states leaving.now out.new) }
        ensures same { self.new ≡ self.old }
    {
        load(leaving, &mut self.rest);
        clear(&mut self.flows);
        let links = &self.groups.links[..self.groups.link_count];
        sweep(links, &mut self.rest, &mut self.flows);
        narrow(&self.flows, out)
    }
}

fn no_currents(alloc: Global, count: usize) -> Result<Vec<i64>, AllocError>
    ensures { IfOk result (λ currents. currents.items ≡ replicate count (pos 0)) }
{
    vec![in alloc; 0i64; count]
}

fn mark_closed(states: &[SwitchState], out: &mut [bool])
    requires { length out.old ≡ length states.now }
    ensures { out.new ≡ map is_closed states.now }
{
    for s in 0..states.len() {
        out[s] = is_closed(states[s]);
    }
}

fn starting_states(alloc: Global, case: &Case) -> Result<Vec<SwitchState>, AllocError>
    ensures { IfOk result (λ states. states.items ≡ map (λ (s : SwitchCard). starting_state s.kind) case.now.parts.switches) }
{
    let mut states = Vec::new(alloc);
    for switch in case.parts.switches.as_slice() {
        states.push(starting_state(switch.kind))?;
    }
    Ok(states)
}
