//! The branches of a case, and the faults of sense of their cards.

ghost use Rattle.emtp_case.specs.declared.limit.TheConstants.{MOST_BRANCHES, MOST_CHANNELS, MOST_HISTORY_VALUES, MOST_NODES};
ghost use Rattle.emtp_case.specs.held.RunData.{IsTimeStep};
ghost use Rattle.std.specs.Prelude.{◌≡◌, ◌+◌, ◌*◌, ◌^◌, ◌<◌, ◌≤◌, All, length, Ok, IfErr, OnOk, false, true};
ghost use Rattle.emtp_case.specs.held.Branch.{IsBranch};
ghost use Rattle.emtp_case.specs.HistoryValues.{history_values_of};
ghost use Rattle.emtp_case.specs.held.Range.{AreEnds};
ghost use Rattle.emtp_case.specs.held.Sizes.{sizes_of};
ghost use Rattle.emtp_walk.specs.held.Answer.{IsWant};
ghost use Rattle.emtp_deck.specs.Branches.{card_bad, card_fault, card_history, counts_of, first_counts, first_fault, line_branch, line_history, moved, pair_fault, pending_fault, phase_for, second_counts, second_fault, take_branches, take_entry, third_fault, with_counts, with_own, with_points, with_single};
ghost use Rattle.emtp_deck.specs.held.Branches.{NeedsMore, line_count, line_fault, take_line, take_one, taken_history, with_line, with_one, with_taken};
ghost use Rattle.emtp_deck.specs.Channels.{channel_count};
ghost use Rattle.emtp_deck.specs.Copies.{numbers_of_card, type_of_kind, values_behind};
ghost use Rattle.emtp_deck.specs.held.Copies.{AreTakenBy, HasModes, IsTaken, IsTakenBy};
ghost use Rattle.emtp_deck.specs.held.Filling.{IsFilling, Makes, made_of};
ghost use Rattle.emtp_deck.specs.Made.{count_asked};
ghost use Rattle.emtp_sense.specs.held.Naming.{HasEndNodes, HasEntryNodes, HasTrioNodes};
ghost use Rattle.emtp_deck.specs.held.Sensible.{AreOwnPoints, HasOwnPoints, IsSensibleSingle, IsSensibleTrio};
ghost use Rattle.emtp_walk.specs.held.Sound.{IsEntry, IsTrioEntry, is_pseudo, is_reactor};
ghost use Rattle.emtp_walk.specs.Walk.{is_phase};
ghost use Rattle.emtp_netcards.specs.held.BranchCard.{HasNumbers, HasValues, kind_of_values};

use crate::channels::{ask_branch, ask_line, channel_count};
use crate::copies::{
    LineNumbers, Taken, TakenPair, ValuesFrom, missing_fault, modes_for, phase_numbers, taken_by,
    taken_by_pair,
};
use crate::filling::Filling;
use emtp_card::{Bad, Fault, Refused, least};
use emtp_case::{
    Branch, Draft, Line, Lumped, MOST_BRANCHES, MOST_CHANNELS, MOST_HISTORY_VALUES, MOST_NODES,
    Name, Phase, Point, Pseudo, line_history_values,
};
use emtp_netcards::{BranchCard, BranchValues};
use emtp_sense::{node_number, too_many};
use emtp_walk::{BranchEntry, Place};
use indexmap::IndexSet;

/// How many there are of what has a limit.
#[derive(Clone, Copy)]
pub struct Counts {
    /// Branches.
    pub branches: usize,
    /// History values.
    pub history: u64,
    /// Channels.
    pub channels: usize,
}

// ---- faults of sense

fn counts_of(filling: &Filling) -> Counts
    requires { IsFilling filling.now }
    ensures { result ≡ counts_of (made_of filling.now) }
{
    Counts {
        branches: filling.draft.parts.branches.len(),
        history: filling.history,
        channels: filling.asked.count(),
    }
}

/// The counts with one more card, which needs so many history values.
fn with_counts(counts: &Counts, card: &BranchCard, history: u64) -> Counts
    requires branches { counts.now.branches ≤ 10000 }
    requires history { counts.now.history ≤ 10 ^ 18 }
    requires more { history ≤ 10 ^ 18 }
    requires channels { counts.now.channels ≤ 100 }
    ensures { result ≡ with_counts counts.now card.now history }
{
    Counts {
        branches: counts.branches + 1,
        history: counts.history + history,
        channels: counts.channels + channel_count(card.asked),
    }
}

/// How many past values a line keeps at both ends of so many phases.
fn line_history(phases: u64, dt: i64, numbers: &Option<LineNumbers>) -> u64
    requires phases { phases ≤ 3 }
    requires dt { IsTimeStep dt }
    ensures value { result ≡ line_history phases dt numbers.now }
    ensures few { result ≤ 2 * 10 ^ 17 }
{
    match numbers {
        None => 0,
        Some(numbers) => phases * line_history_values(dt, numbers.delay),
    }
}

/// How many past values a card needs, which takes these numbers for so many phases.
fn card_history(phases: u64, draft: &Draft, taken: &Taken) -> u64
    requires { phases ≤ 3 }
    ensures value { result ≡ line_history phases draft.now.parts.run.dt taken.now.numbers }
    ensures few { result ≤ 2 * 10 ^ 17 }
{
    line_history(phases, draft.parts.run.dt, &taken.numbers)
}

/// The faults of a card, given the nodes, and the counts with its own.
#[tactic(auto, unfolding(crate::specs::Branches::card_fault))]
fn card_fault(
    names: &IndexSet<Name>,
    counts: &Counts,
    card: &BranchCard,
    values: &ValuesFrom,
) -> Option<Fault>
    requires { length names.now.keys ≤ MOST_NODES }
    ensures { result ≡ card_fault names.now.keys counts.now card.now values.now }
{
    least(&[
        too_many(MOST_BRANCHES < counts.branches, 1),
        too_many(MOST_HISTORY_VALUES < counts.history, 1),
        too_many(MOST_CHANNELS < counts.channels, 1),
        too_many(MOST_NODES < node_number(names, &card.from) as usize, 3),
        too_many(MOST_NODES < node_number(names, &card.to) as usize, 9),
        missing_fault(values),
    ])
}

fn card_bad(
    names: &IndexSet<Name>,
    counts: &Counts,
    card: &BranchCard,
    values: &ValuesFrom,
) -> Option<Bad>
    requires { length names.now.keys ≤ MOST_NODES }
    ensures { result ≡ card_bad names.now.keys counts.now card.now values.now }
{
    match card_fault(names, counts, card, values) {
        Some(fault) => Some(fault.on_line(card.line)),
        None => None,
    }
}

/// The counts with a card of one branch, or with the card -1 of three phases.
fn first_counts(filling: &Filling, card: &BranchCard, taken: &Taken) -> Counts
    requires filling { IsFilling filling.now }
    requires taken { IsTakenBy filling.now.draft.parts card.now taken.now }
    ensures value { result ≡ first_counts (made_of filling.now) card.now }
    ensures few { result.history ≤ 3 * 10 ^ 17 }
{
    let history = card_history(1, &filling.draft, taken);
    with_counts(&counts_of(filling), card, history)
}

/// The counts with the card -2 too.
fn second_counts(
    filling: &Filling,
    zero: &BranchCard,
    positive: &BranchCard,
    taken: &TakenPair,
) -> Counts
    requires filling { IsFilling filling.now }
    requires taken { AreTakenBy filling.now.draft.parts zero.now positive.now taken.now }
    ensures value { result ≡ second_counts (made_of filling.now) zero.now positive.now }
    ensures few { result.history ≤ 5 * 10 ^ 17 }
{
    let history = card_history(3, &filling.draft, &taken.positive_sequence);
    with_counts(
        &first_counts(filling, zero, &taken.zero_sequence),
        positive,
        history,
    )
}

fn first_fault(filling: &Filling, card: &BranchCard, taken: &Taken) -> Option<Bad>
    requires filling { IsFilling filling.now }
    requires taken { IsTakenBy filling.now.draft.parts card.now taken.now }
    ensures { result ≡ first_fault (made_of filling.now) card.now }
{
    let counts = first_counts(filling, card, taken);
    card_bad(&filling.nodes, &counts, card, &taken.values)
}

fn second_fault(
    filling: &Filling,
    zero: &BranchCard,
    positive: &BranchCard,
    taken: &TakenPair,
) -> Option<Bad>
    requires filling { IsFilling filling.now }
    requires taken { AreTakenBy filling.now.draft.parts zero.now positive.now taken.now }
    ensures { result ≡ second_fault (made_of filling.now) zero.now positive.now }
{
    let counts = second_counts(filling, zero, positive, taken);
    card_bad(
        &filling.nodes,
        &counts,
        positive,
        &taken.positive_sequence.values,
    )
}

/// What refuses one of the first two phases of a line.
fn pair_fault(
    filling: &Filling,
    zero: &BranchCard,
    positive: &BranchCard,
    taken: &TakenPair,
) -> Option<Bad>
    requires filling { IsFilling filling.now }
    requires taken { AreTakenBy filling.now.draft.parts zero.now positive.now taken.now }
    ensures { result ≡ pair_fault (made_of filling.now) zero.now positive.now }
{
    match first_fault(filling, zero, &taken.zero_sequence) {
        Some(bad) => Some(bad),
        None => second_fault(filling, zero, positive, taken),
    }
}

fn third_fault(
    filling: &Filling,
    zero: &BranchCard,
    positive: &BranchCard,
    third: &BranchCard,
    taken: &TakenPair,
) -> Option<Bad>
    requires filling { IsFilling filling.now }
    requires taken { AreTakenBy filling.now.draft.parts zero.now positive.now taken.now }
    ensures { result ≡ third_fault (made_of filling.now) zero.now positive.now third.now }
{
    let counts = with_counts(&second_counts(filling, zero, positive, taken), third, 0);
    card_bad(&filling.nodes, &counts, third, &ValuesFrom::Card)
}

/// What refuses a line: the first of its cards that has a fault decides.
fn line_fault(
    filling: &Filling,
    zero: &BranchCard,
    positive: &BranchCard,
    third: &BranchCard,
    taken: &TakenPair,
) -> Option<Bad>
    requires filling { IsFilling filling.now }
    requires taken { AreTakenBy filling.now.draft.parts zero.now positive.now taken.now }
    ensures { result ≡ line_fault (made_of filling.now) zero.now positive.now third.now }
{
    match pair_fault(filling, zero, positive, taken) {
        Some(bad) => Some(bad),
        None => third_fault(filling, zero, positive, third, taken),
    }
}

// ---- records

fn line_branch(line: u32, from: u32, to: u32, numbers: &LineNumbers) -> Branch
    ensures { result ≡ line_branch line from to numbers.now }
{
    Branch::Line(Line {
        line,
        from,
        to,
        zc: numbers.zc,
        r: numbers.r,
        delay: numbers.delay,
    })
}

/// The values of an earlier branch, between these nodes.
fn moved(draft: &Draft, line: u32, from: u32, to: u32, branch: Branch) -> Branch
    requires { IsBranch draft.now.parts.run (sizes_of draft.now.parts) draft.now.parts.points branch }
    ensures { result ≡ moved draft.now.parts.trios line from to branch }
{
    match branch {
        Branch::Lumped(b) => Branch::Lumped(Lumped {
            line,
            from,
            to,
            ..b
        }),
        Branch::Line(b) => Branch::Line(Line {
            line,
            from,
            to,
            ..b
        }),
        Branch::Pseudo(b) => Branch::Pseudo(Pseudo {
            line,
            from,
            to,
            ..b
        }),
        Branch::Phase(b) => {
            let numbers = phase_numbers(draft.parts.trios.as_slice(), &b);
            line_branch(line, from, to, &numbers)
        }
    }
}

/// Adds a branch with its card's own values.
fn add_own(
    draft: &mut Draft,
    points: &[Point],
    card: &BranchCard,
    from: u32,
    to: u32,
) -> Result<(), Refused>
    requires room { length draft.old.parts.branches < MOST_BRANCHES }
    requires ends { AreEnds (length draft.old.parts.nodes) from to }
    requires single { is_phase (Ok (kind_of_values card.now.values)) ≡ false }
    requires values { HasValues draft.old.parts.run.dt card.now.values }
    requires points { is_pseudo card.now.values ≡ true
        → AreOwnPoints (is_reactor card.now.values) draft.old.parts.run.dt points.now }
    requires history { history_values_of draft.old.parts
        + line_history 1 draft.old.parts.run.dt (numbers_of_card card.now.values) ≤ MOST_HISTORY_VALUES }
    ensures ok { OnOk result (draft.new.parts ≡ with_own points.now draft.old.parts card.now.line from to card.now.values) }
    ensures history { OnOk result
        (history_values_of draft.new.parts
        ≡ history_values_of draft.old.parts
        + line_history 1 draft.old.parts.run.dt (numbers_of_card card.now.values)) }
    ensures err { IfErr result IsWant }
{
    let line = card.line;
    match card.values {
        BranchValues::Lumped { r, l, c } => draft.add_lumped(Lumped {
            line,
            from,
            to,
            r,
            l,
            c,
        })?,
        BranchValues::Line { zc, r, delay } => {
            let numbers = LineNumbers { zc, r, delay };
            draft.add_branch(line_branch(line, from, to, &numbers))?;
        }
        BranchValues::Reactor => add_pseudo(draft, points, line, (from, to), true)?,
        BranchValues::Resistor => add_pseudo(draft, points, line, (from, to), false)?,
        BranchValues::Second { .. } | BranchValues::Third => {}
        BranchValues::Copied { .. } => {}
    }
    Ok(())
}

/// Adds a pseudo-nonlinear branch with its points.
fn add_pseudo(
    draft: &mut Draft,
    points: &[Point],
    line: u32,
    ends: (u32, u32),
    reactor: bool,
) -> Result<(), Refused>
    requires room { length draft.old.parts.branches < MOST_BRANCHES }
    requires ends { AreEnds (length draft.old.parts.nodes) ends.0 ends.1 }
    requires points { AreOwnPoints reactor draft.old.parts.run.dt points.now }
    ensures ok { OnOk result (draft.new.parts ≡ with_points points.now draft.old.parts line ends.0 ends.1 reactor) }
    ensures history { OnOk result (history_values_of draft.new.parts ≡ history_values_of draft.old.parts) }
    ensures err { IfErr result IsWant }
{
    let pseudo = Pseudo {
        line,
        from: ends.0,
        to: ends.1,
        reactor,
        first: 0,
        count: 0,
    };
    draft.add_pseudo(pseudo, points)?;
    Ok(())
}

/// Adds the branch of a card, which takes these values.
fn add_single(
    draft: &mut Draft,
    nodes: &IndexSet<Name>,
    points: &[Point],
    card: &BranchCard,
    values: ValuesFrom,
) -> Result<(), Refused>
    requires nodes { nodes.now.keys ≡ draft.old.parts.nodes }
    requires sensible { IsSensibleSingle draft.old.parts card.now }
    requires single { is_phase (Ok (kind_of_values card.now.values)) ≡ false }
    requires numbers { HasNumbers draft.old.parts.run.dt card.now }
    requires points { HasOwnPoints draft.old.parts.run.dt points.now card.now }
    requires values { values ≡ values_behind draft.old.parts card.now }
    requires kind { IsTaken draft.old.parts (type_of_kind (kind_of_values card.now.values)) values }
    ensures ok { OnOk result (draft.new.parts ≡ with_single points.now draft.old.parts card.now) }
    ensures history { OnOk result (NeedsMore draft.old.parts draft.new.parts (card_history 1 draft.old.parts card.now)) }
    ensures err { IfErr result IsWant }
{
    let from = node_number(nodes, &card.from);
    let to = node_number(nodes, &card.to);
    match values {
        ValuesFrom::Card => add_own(draft, points, card, from, to)?,
        ValuesFrom::Earlier(branch) => {
            let branch = moved(draft, card.line, from, to, branch);
            draft.add_branch(branch)?;
        }
        ValuesFrom::Missing => {}
    }
    Ok(())
}

fn phase_for(draft: &Draft, nodes: &IndexSet<Name>, card: &BranchCard) -> Phase
    requires nodes { nodes.now.keys ≡ draft.now.parts.nodes }
    ensures { result ≡ phase_for draft.now.parts card.now }
{
    Phase {
        line: card.line,
        from: node_number(nodes, &card.from),
        to: node_number(nodes, &card.to),
        trio: 0,
        phase: 0,
    }
}

/// Adds the three phases of a line, whose cards take these values.
fn add_phases(
    draft: &mut Draft,
    taken: &TakenPair,
    a: Phase,
    b: Phase,
    c: Phase,
) -> Result<(), Refused>
    requires room { length draft.old.parts.branches + 3 ≤ MOST_BRANCHES }
    requires a { AreEnds (length draft.old.parts.nodes) a.from a.to }
    requires b { AreEnds (length draft.old.parts.nodes) b.from b.to }
    requires c { AreEnds (length draft.old.parts.nodes) c.from c.to }
    requires numbers { HasModes draft.old.parts taken.now.zero_sequence.numbers taken.now.positive_sequence.numbers }
    ensures ok { OnOk result (draft.new.parts ≡ with_taken draft.old.parts a b c taken.now) }
    ensures history { OnOk result (NeedsMore draft.old.parts draft.new.parts (taken_history draft.old.parts taken.now)) }
    ensures err { IfErr result IsWant }
{
    match modes_for(taken) {
        Some(modes) => {
            draft.add_trio(modes, a, b, c)?;
            Ok(())
        }
        None => Ok(()),
    }
}

/// How many past values the cards of a line need.
fn taken_history(draft: &Draft, taken: &TakenPair) -> u64
    ensures value { result ≡ taken_history draft.now.parts taken.now }
    ensures few { result ≤ 10 ^ 18 }
{
    card_history(1, draft, &taken.zero_sequence) + card_history(3, draft, &taken.positive_sequence)
}

// ---- a card of one branch

/// Takes a card of one branch, with its own points.
fn take_one(filling: &mut Filling, points: &[Point], card: &BranchCard) -> Result<(), Refused>
    requires filling { IsFilling filling.old }
    requires nodes { HasEndNodes filling.old.nodes.keys card.now.from card.now.to }
    requires single { is_phase (Ok (kind_of_values card.now.values)) ≡ false }
    requires numbers { HasNumbers filling.old.draft.parts.run.dt card.now }
    requires points { HasOwnPoints filling.old.draft.parts.run.dt points.now card.now }
    ensures value { Makes result (take_one points.now (made_of filling.old) card.now) (made_of filling.new) }
    ensures filling { OnOk result (IsFilling filling.new) }
    ensures run { OnOk result (filling.new.draft.parts.run ≡ filling.old.draft.parts.run) }
    ensures nodes { filling.new.nodes.keys ≡ filling.old.nodes.keys }
{
    let taken = taken_by(&filling.nodes, &filling.draft, card);
    match first_fault(filling, card, &taken) {
        Some(bad) => Err(Refused::Bad(bad)),
        None => add_one(filling, points, card, &taken),
    }
}

/// Adds the branch and the channels of a card without a fault.
fn add_one(
    filling: &mut Filling,
    points: &[Point],
    card: &BranchCard,
    taken: &Taken,
) -> Result<(), Refused>
    requires filling { IsFilling filling.old }
    requires taken { IsTakenBy filling.old.draft.parts card.now taken.now }
    requires sensible { IsSensibleSingle filling.old.draft.parts card.now }
    requires room { count_asked filling.old.asked + channel_count card.now.asked ≤ MOST_CHANNELS }
    requires single { is_phase (Ok (kind_of_values card.now.values)) ≡ false }
    requires numbers { HasNumbers filling.old.draft.parts.run.dt card.now }
    requires points { HasOwnPoints filling.old.draft.parts.run.dt points.now card.now }
    ensures ok { OnOk result (made_of filling.new ≡ with_one points.now (made_of filling.old) card.now) }
    ensures err { IfErr result IsWant }
    ensures filling { OnOk result (IsFilling filling.new) }
    ensures run { OnOk result (filling.new.draft.parts.run ≡ filling.old.draft.parts.run) }
    ensures nodes { filling.new.nodes.keys ≡ filling.old.nodes.keys }
{
    let at = filling.draft.parts.branches.len() as u32;
    let history = card_history(1, &filling.draft, taken);
    add_single(
        &mut filling.draft,
        &filling.nodes,
        points,
        card,
        taken.values,
    )?;
    filling.history += history;
    ask_branch(&mut filling.asked.branches, at, card)
}

// ---- a line of three phases

/// Takes the cards of a line.
fn take_line(
    filling: &mut Filling,
    zero: &BranchCard,
    positive: &BranchCard,
    third: &BranchCard,
) -> Result<(), Refused>
    requires filling { IsFilling filling.old }
    requires nodes { HasTrioNodes filling.old.nodes.keys zero.now positive.now third.now }
    requires trio { IsTrioEntry filling.old.draft.parts.run zero.now positive.now }
    requires third { HasNumbers filling.old.draft.parts.run.dt third.now }
    ensures value { Makes result (take_line (made_of filling.old) zero.now positive.now third.now) (made_of filling.new) }
    ensures filling { OnOk result (IsFilling filling.new) }
    ensures run { OnOk result (filling.new.draft.parts.run ≡ filling.old.draft.parts.run) }
    ensures nodes { filling.new.nodes.keys ≡ filling.old.nodes.keys }
{
    let taken = taken_by_pair(&filling.nodes, &filling.draft, zero, positive);
    match line_fault(filling, zero, positive, third, &taken) {
        Some(bad) => Err(Refused::Bad(bad)),
        None => add_line(filling, zero, positive, third, &taken),
    }
}

/// Adds the phases and the channels of a line without a fault.
fn add_line(
    filling: &mut Filling,
    zero: &BranchCard,
    positive: &BranchCard,
    third: &BranchCard,
    taken: &TakenPair,
) -> Result<(), Refused>
    requires filling { IsFilling filling.old }
    requires taken { AreTakenBy filling.old.draft.parts zero.now positive.now taken.now }
    requires sensible { IsSensibleTrio filling.old.draft.parts zero.now positive.now third.now }
    requires room { count_asked filling.old.asked + line_count zero.now positive.now third.now ≤ MOST_CHANNELS }
    requires trio { IsTrioEntry filling.old.draft.parts.run zero.now positive.now }
    ensures ok { OnOk result (made_of filling.new ≡ with_line (made_of filling.old) zero.now positive.now third.now) }
    ensures err { IfErr result IsWant }
    ensures filling { OnOk result (IsFilling filling.new) }
    ensures run { OnOk result (filling.new.draft.parts.run ≡ filling.old.draft.parts.run) }
    ensures nodes { filling.new.nodes.keys ≡ filling.old.nodes.keys }
{
    let at = filling.draft.parts.branches.len() as u32;
    let history = taken_history(&filling.draft, taken);
    let a = phase_for(&filling.draft, &filling.nodes, zero);
    let b = phase_for(&filling.draft, &filling.nodes, positive);
    let c = phase_for(&filling.draft, &filling.nodes, third);
    add_phases(&mut filling.draft, taken, a, b, c)?;
    filling.history += history;
    ask_line(&mut filling.asked.branches, at, zero, positive, third)
}

// ---- all entries

/// Takes an entry.
#[tactic(auto, unfolding(crate::specs::Branches::take_entry))]
fn take_entry(filling: &mut Filling, points: &[Point], entry: &BranchEntry) -> Result<(), Refused>
    requires filling { IsFilling filling.old }
    requires entry { IsEntry filling.old.draft.parts.run points.now entry.now }
    requires nodes { HasEntryNodes filling.old.nodes.keys entry.now }
    ensures value { Makes result (take_entry points.now (made_of filling.old) entry.now) (made_of filling.new) }
    ensures filling { OnOk result (IsFilling filling.new) }
    ensures run { OnOk result (filling.new.draft.parts.run ≡ filling.old.draft.parts.run) }
    ensures nodes { filling.new.nodes.keys ≡ filling.old.nodes.keys }
{
    match entry {
        BranchEntry::Single { card, first, count } => {
            take_one(filling, &points[*first..*first + *count], card)
        }
        BranchEntry::Trio {
            zero,
            positive,
            third,
        } => take_line(filling, zero, positive, third),
    }
}

/// Takes all entries, up to the first that has a fault.
pub(crate) fn take_branches(
    filling: &mut Filling,
    points: &[Point],
    entries: &[BranchEntry],
) -> Result<(), Refused>
    requires filling { IsFilling filling.old }
    requires entries { All (IsEntry filling.old.draft.parts.run points.now) entries.now }
    requires nodes { All (HasEntryNodes filling.old.nodes.keys) entries.now }
    ensures value { Makes result (take_branches points.now (made_of filling.old) entries.now) (made_of filling.new) }
    ensures filling { OnOk result (IsFilling filling.new) }
    ensures run { OnOk result (filling.new.draft.parts.run ≡ filling.old.draft.parts.run) }
{
    for entry in entries {
        match take_entry(filling, points, entry) {
            Ok(()) => {}
            Err(refused) => return Err(refused),
        }
    }
    Ok(())
}

/// What refuses a card of a group that the file cuts off at this place.
pub(crate) fn pending_fault(filling: &Filling, place: &Place) -> Option<Bad>
    requires { IsFilling filling.now }
    ensures { result ≡ pending_fault (made_of filling.now) place.now }
{
    match place {
        Place::Points(group) => pending_card(filling, &group.card),
        Place::Waiting { card, .. } => pending_card(filling, card),
        Place::Third { zero, positive, .. } => pending_pair(filling, zero, positive),
        _ => None,
    }
}

fn pending_card(filling: &Filling, card: &BranchCard) -> Option<Bad>
    requires { IsFilling filling.now }
    ensures { result ≡ first_fault (made_of filling.now) card.now }
{
    let taken = taken_by(&filling.nodes, &filling.draft, card);
    first_fault(filling, card, &taken)
}

fn pending_pair(filling: &Filling, zero: &BranchCard, positive: &BranchCard) -> Option<Bad>
    requires { IsFilling filling.now }
    ensures { result ≡ pair_fault (made_of filling.now) zero.now positive.now }
{
    let taken = taken_by_pair(&filling.nodes, &filling.draft, zero, positive);
    pair_fault(filling, zero, positive, &taken)
}
