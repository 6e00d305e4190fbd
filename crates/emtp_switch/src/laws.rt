//! What is true of switches in the field's own words. The functions do nothing: their clauses are proved.

ghost use Rattle.std.specs.Prelude.{◌≡◌, ◌↔◌, ℕ, ℤ, IsSome, List, length, map, true};
ghost use Rattle.std.specs.List.Sorted.{IsPermutation};
ghost use Rattle.emtp_case.specs.held.RowOrder.{IsRowOrder};
ghost use Rattle.emtp_case.specs.StepRecord.{StepRecord, latest, switch_state_at};
ghost use Rattle.emtp_case.specs.Switch.{is_time_switch};
ghost use Rattle.emtp_switch.specs.Currents.{currents_of};
ghost use Rattle.emtp_switch.specs.held.Currents.{Balances, RootsBalance};
ghost use Rattle.emtp_switch.specs.Groups.{alone, closed_switches, groups, labels_of, switch_at, tied_of};
ghost use Rattle.emtp_switch.specs.held.Groups.{KnownMeet};
ghost use Rattle.emtp_switch.specs.Kinds.{kind_of, kinds_of};
ghost use Rattle.emtp_switch.specs.States.{next_state};
ghost use Rattle.emtp_switch.specs.held.States.{MovesOn};

use emtp_case::{Case, RowOrder, SwitchState};

/// Within a step, at given states and a given order of rows, the kinds of the rows are the same in whatever order the
/// closed switches are joined: the order decides only which switch of a loop is slack. Over several steps it may decide
/// more, since a slack switch carries no current and opens by that.
pub fn kinds_in_any_order(case: &Case, order: &RowOrder, states: &[SwitchState])
    requires order { IsRowOrder case.now.parts order.now }
    ensures { (taken : List ℕ) → IsPermutation (closed_switches states.now) taken
        → kinds_of case.now.parts order.now states.now
        ≡ map (kind_of case.now.parts order.now (groups case.now.parts.switches (alone (length order.now.nodes)) taken))
        order.now.nodes }
{}

/// A breaker goes one way, from waiting over closed to opened, by at most one change a step: it never closes again.
pub fn breaker_goes_one_way(case: &Case, switch: usize)
    requires breaker { is_time_switch (switch_at case.now.parts.switches switch) ≡ true }
    ensures { (H : List StepRecord) → MovesOn (switch_state_at switch (latest H)) (next_state case.now.parts H switch) }
{}

/// A switch is tied exactly where two nodes with a known voltage come into one group: which order the cards have doesn't
/// matter.
pub fn tied_where_known_voltages_meet(case: &Case, order: &RowOrder, states: &[SwitchState])
    requires order { IsRowOrder case.now.parts order.now }
    ensures { IsSome (tied_of case.now.parts.switches order.now states.now)
        ↔ KnownMeet order.now (labels_of case.now.parts.switches order.now states.now) }
{}

/// Kirchhoff's law at the nodes that closed switches join, whatever currents leave them through branches: at each node but the
/// root of its group, what leaves through branches and what leaves through switches cancel to the last digit; a root takes
/// what leaves its whole group through branches.
pub fn switch_currents_balance(case: &Case, order: &RowOrder, states: &[SwitchState])
    requires order { IsRowOrder case.now.parts order.now }
    requires states { length states.now ≡ length case.now.parts.switches }
    ensures nodes { (leaving : List ℤ) → length leaving ≡ length order.now.nodes
        → Balances case.now.parts.switches order.now states.now leaving
        (currents_of case.now.parts.switches order.now states.now leaving) }
    ensures roots { (leaving : List ℤ) → length leaving ≡ length order.now.nodes
        → RootsBalance case.now.parts.switches order.now states.now leaving
        (currents_of case.now.parts.switches order.now states.now leaving) }
{}
