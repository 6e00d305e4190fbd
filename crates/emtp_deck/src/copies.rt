//! Where a branch card's values come from: itself, or the first earlier branch of its type between the two nodes that it
//! names.

ghost use Rattle.emtp_case.specs.declared.limit.TheConstants.{MOST_NODES};
ghost use Rattle.std.specs.Prelude.{◌≡◌, ◌≤◌, ◌<◌, find, length};
ghost use Rattle.emtp_case.specs.held.Branch.{IsBranch};
ghost use Rattle.emtp_case.specs.held.Sizes.{sizes_of};
ghost use Rattle.emtp_deck.specs.Copies.{is_like, line_numbers, missing_fault, mode_numbers, modes_for, numbers_of_branch, numbers_of_card, phase_numbers, type_of_branch, type_of_kind, values_from};
ghost use Rattle.emtp_deck.specs.held.Copies.{AreTakenBy, IsTaken, IsTakenBy};
ghost use Rattle.emtp_netcards.specs.held.BranchCard.{kind_of_values};

use emtp_card::{Fault, Why};
use emtp_case::{Branch, Draft, Name, Phase, Trio};
use emtp_netcards::{BranchCard, BranchKind, BranchValues};
use emtp_sense::node_number;
use indexmap::IndexSet;

/// Where a branch card's values come from.
#[derive(Clone, Copy)]
pub enum ValuesFrom {
    /// The card itself.
    Card,
    /// An earlier branch.
    Earlier(Branch),
    /// A branch that isn't there.
    Missing,
}

/// The numbers of a line, or of one mode of it.
#[derive(Clone, Copy)]
pub struct LineNumbers {
    /// The surge impedance, in micro-ohm: from 10 to 10^15.
    pub zc: i64,
    /// The total resistance, in micro-ohm: from 0 to 10^15.
    pub r: i64,
    /// The travel time, in ps: from the time step to 10^18.
    pub delay: i64,
}

/// What a branch card takes, found once.
#[derive(Clone, Copy)]
pub(crate) struct Taken {
    /// Where its values come from.
    pub(crate) values: ValuesFrom,
    /// The numbers of a line; none of another branch, nor where the values are missing.
    pub(crate) numbers: Option<LineNumbers>,
}

/// What the cards -1 and -2 of a line take: the zero and the positive sequence.
#[derive(Clone, Copy)]
pub(crate) struct TakenPair {
    /// What the card -1 takes.
    pub(crate) zero_sequence: Taken,
    /// What the card -2 takes.
    pub(crate) positive_sequence: Taken,
}

/// The number in the type columns of the card that made a branch.
fn type_of_branch(branch: &Branch) -> i64
    ensures { result ≡ type_of_branch branch.now }
{
    match branch {
        Branch::Lumped(_) => 0,
        Branch::Line(_) => -1,
        Branch::Pseudo(b) => { if b.reactor { 98 } else { 99 } }
        Branch::Phase(b) => match b.phase {
            0 => -1,
            1 => -2,
            _ => -3,
        },
    }
}

/// The number in the type columns of a card.
fn type_of_kind(kind: BranchKind) -> i64
    ensures { result ≡ type_of_kind kind }
{
    match kind {
        BranchKind::Series => 0,
        BranchKind::Line => -1,
        BranchKind::Second => -2,
        BranchKind::Third => -3,
        BranchKind::Reactor => 98,
        BranchKind::Resistor => 99,
    }
}

fn is_like(branch: &Branch, number: i64, from: u32, to: u32) -> bool
    ensures { result ≡ is_like number from to branch.now }
{
    branch.ends() == (from, to) && type_of_branch(branch) == number
}

fn first_like(branches: &[Branch], number: i64, from: u32, to: u32) -> Option<Branch>
    ensures { result ≡ find (is_like number from to) branches.now }
{
    branches
        .iter()
        .copied()
        .find(|branch| is_like(branch, number, from, to))
}

/// The first branch of a kind from one node, by its number, to another; none if there isn't one.
pub fn first_of_kind(branches: &[Branch], kind: BranchKind, from: u32, to: u32) -> Option<Branch>
    ensures { result ≡ find (is_like (type_of_kind kind) from to) branches.now }
{
    first_like(branches, type_of_kind(kind), from, to)
}

/// Where a card's values come from, behind the branches of a draft.
fn values_from(names: &IndexSet<Name>, draft: &Draft, card: &BranchCard) -> ValuesFrom
    requires { length names.now.keys ≤ MOST_NODES }
    ensures value { result ≡ values_from names.now.keys draft.now.parts.branches card.now }
    ensures taken { IsTaken draft.now.parts (type_of_kind (kind_of_values card.now.values)) result }
{
    match &card.values {
        BranchValues::Copied { kind, from, to } => {
            let found = first_of_kind(
                draft.parts.branches.as_slice(),
                *kind,
                node_number(names, from),
                node_number(names, to),
            );
            match found {
                Some(branch) => ValuesFrom::Earlier(branch),
                None => ValuesFrom::Missing,
            }
        }
        _ => ValuesFrom::Card,
    }
}

pub(crate) fn missing_fault(values: &ValuesFrom) -> Option<Fault>
    ensures { result ≡ missing_fault values.now }
{
    match values {
        ValuesFrom::Card | ValuesFrom::Earlier(_) => None,
        ValuesFrom::Missing => Some(Fault {
            column: 15,
            why: Why::UnknownName,
        }),
    }
}

/// The numbers of one mode of a three-phase line.
fn mode_numbers(trio: &Trio, mode: usize) -> LineNumbers
    requires { mode < 2 }
    ensures { result ≡ mode_numbers trio.now mode }
{
    LineNumbers {
        zc: trio.zc[mode],
        r: trio.r[mode],
        delay: trio.delay[mode],
    }
}

pub(crate) fn phase_numbers(trios: &[Trio], phase: &Phase) -> LineNumbers
    requires { phase.now.trio < length trios.now }
    ensures { result ≡ phase_numbers trios.now phase.now }
{
    let mode = if phase.phase == 0 { 0 } else { 1 };
    mode_numbers(&trios[phase.trio as usize], mode)
}

fn numbers_of_branch(draft: &Draft, branch: &Branch) -> Option<LineNumbers>
    requires { IsBranch draft.now.parts.run (sizes_of draft.now.parts) draft.now.parts.points branch.now }
    ensures { result ≡ numbers_of_branch draft.now.parts.trios branch.now }
{
    match branch {
        Branch::Lumped(_) | Branch::Pseudo(_) => None,
        Branch::Line(b) => Some(LineNumbers {
            zc: b.zc,
            r: b.r,
            delay: b.delay,
        }),
        Branch::Phase(b) => Some(phase_numbers(draft.parts.trios.as_slice(), b)),
    }
}

fn numbers_of_card(values: &BranchValues) -> Option<LineNumbers>
    ensures { result ≡ numbers_of_card values.now }
{
    match *values {
        BranchValues::Line { zc, r, delay } | BranchValues::Second { zc, r, delay } => {
            Some(LineNumbers { zc, r, delay })
        }
        _ => None,
    }
}

/// The numbers that a line's card gives its branch, given where its values come from.
fn line_numbers(draft: &Draft, card: &BranchCard, values: &ValuesFrom) -> Option<LineNumbers>
    requires { IsTaken draft.now.parts (type_of_kind (kind_of_values card.now.values)) values.now }
    ensures { result ≡ line_numbers draft.now.parts.trios card.now.values values.now }
{
    match values {
        ValuesFrom::Card => numbers_of_card(&card.values),
        ValuesFrom::Earlier(branch) => numbers_of_branch(draft, branch),
        ValuesFrom::Missing => None,
    }
}

/// What a card takes, behind the branches of a draft.
pub(crate) fn taken_by(nodes: &IndexSet<Name>, draft: &Draft, card: &BranchCard) -> Taken
    requires { nodes.now.keys ≡ draft.now.parts.nodes }
    ensures { IsTakenBy draft.now.parts card.now result }
{
    let values = values_from(nodes, draft, card);
    let numbers = line_numbers(draft, card, &values);
    Taken { values, numbers }
}

/// What the cards -1 and -2 of a line take.
pub(crate) fn taken_by_pair(
    nodes: &IndexSet<Name>,
    draft: &Draft,
    zero: &BranchCard,
    positive: &BranchCard,
) -> TakenPair
    requires { nodes.now.keys ≡ draft.now.parts.nodes }
    ensures { AreTakenBy draft.now.parts zero.now positive.now result }
{
    let z = taken_by(nodes, draft, zero);
    let q = taken_by(nodes, draft, positive);
    TakenPair {
        zero_sequence: z,
        positive_sequence: q,
    }
}

/// The modes of a line whose cards have numbers. Their first branch isn't placed yet.
pub(crate) fn modes_for(taken: &TakenPair) -> Option<Trio>
    ensures { result ≡ modes_for taken.now.zero_sequence.numbers taken.now.positive_sequence.numbers }
{
    match (taken.zero_sequence.numbers, taken.positive_sequence.numbers) {
        (Some(z), Some(q)) => Some(Trio {
            first: 0,
            zc: [z.zc, q.zc],
            r: [z.r, q.r],
            delay: [z.delay, q.delay],
        }),
        _ => None,
    }
}
