//! How a line begins that tells of a branch or a switch.
ghost use Rattle.std.specs.Prelude.{◌≡◌, ◌++◌, OnOk};
ghost use Rattle.emtp_assess.specs.Fronts.{branch_front, branch_word, ends_text, front, switch_front};
ghost use Rattle.emtp_listing.specs.Entry.{node_entry, node_word};
ghost use Rattle.emtp_listing.specs.Lines.{separated};
ghost use Rattle.emtp_listing.specs.NetworkLines.{pseudo_word, switch_word};

use emtp_case::{Branch, Name, Switch, SwitchKind};
use emtp_text::{put, put_number};
use std::alloc::AllocError;

/// Puts `line 50, words` after a text.
#[tactic(auto, unfolding(crate::specs::Fronts::front))]
pub(crate) fn put_front(text: &mut Vec<u8>, line: u32, words: &[u8]) -> Result<(), AllocError>
    ensures { OnOk result (text.new.items ≡ text.old.items ++ front line words.now) }
{
    put(text, b"line ")?;
    put_number(text, line)?;
    put(text, b", ")?;
    put(text, words)
}

/// Puts the line, the kind and the ends of a branch after a text.
#[tactic(auto, unfolding(crate::specs::Fronts::branch_front))]
pub(crate) fn put_branch_front(
    text: &mut Vec<u8>,
    nodes: &[Name],
    branch: &Branch,
) -> Result<(), AllocError>
    ensures { OnOk result (text.new.items ≡ text.old.items ++ branch_front nodes.now branch.now) }
{
    let (from, to) = branch.ends();
    put_front(text, branch.line(), branch_word(branch))?;
    put_ends(text, nodes, from, to)
}

/// Puts the line, the kind and the ends of a switch after a text.
#[tactic(auto, unfolding(crate::specs::Fronts::switch_front))]
pub(crate) fn put_switch_front(
    text: &mut Vec<u8>,
    nodes: &[Name],
    switch: &Switch,
) -> Result<(), AllocError>
    ensures { OnOk result (text.new.items ≡ text.old.items ++ switch_front nodes.now switch.now) }
{
    put_front(text, switch.line, switch_word(&switch.kind))?;
    put_ends(text, nodes, switch.from, switch.to)
}

/// Puts both ends after a text, by their names.
#[tactic(auto, unfolding(crate::specs::Fronts::ends_text))]
fn put_ends(text: &mut Vec<u8>, nodes: &[Name], from: u32, to: u32) -> Result<(), AllocError>
    ensures { OnOk result (text.new.items ≡ text.old.items ++ ends_text nodes.now from to) }
{
    put_node(text, b"BUS1", nodes, from)?;
    put_node(text, b"BUS2", nodes, to)
}

/// Puts an entry with a node after a text.
pub(crate) fn put_node(
    text: &mut Vec<u8>,
    name: &[u8],
    nodes: &[Name],
    node: u32,
) -> Result<(), AllocError>
    ensures { OnOk result (text.new.items ≡ text.old.items ++ separated (node_entry name.now nodes.now node)) }
{
    put(text, b", ")?;
    put(text, name)?;
    put(text, b"=")?;
    put(text, node_word(nodes, node))
}

/// The name of a node, or the word for ground.
fn node_word(nodes: &[Name], node: u32) -> &[u8]
    ensures { result.now ≡ node_word nodes.now node }
{
    if node == 0 {
        return b"(ground)";
    }
    match nodes.get(node as usize - 1) {
        Some(name) => name.as_slice(),
        None => b"",
    }
}

// ---- words by the kind of a branch or a switch

fn branch_word(branch: &Branch) -> &'static [u8]
    ensures { result.now ≡ branch_word branch.now }
{
    match branch {
        Branch::Lumped(_) => b"series branch",
        Branch::Line(_) => b"line",
        Branch::Pseudo(x) => pseudo_word(x.reactor),
        Branch::Phase(_) => b"phase of a line",
    }
}

fn pseudo_word(reactor: bool) -> &'static [u8]
    ensures { result.now ≡ pseudo_word reactor }
{
    if reactor {
        b"nonlinear reactor"
    } else {
        b"nonlinear resistor"
    }
}

fn switch_word(kind: &SwitchKind) -> &'static [u8]
    ensures { result.now ≡ switch_word kind.now }
{
    match kind {
        SwitchKind::Time { .. } => b"time switch",
        SwitchKind::Measuring => b"measuring switch",
        SwitchKind::Valve { .. } => b"valve",
        SwitchKind::Control { .. } => b"controlled switch",
    }
}
