//! The case in the making, while cards are taken.

ghost use Rattle.emtp_case.specs.declared.limit.TheConstants.{MOST_NODES};
ghost use Rattle.std.specs.Prelude.{◌≡◌, ◌≤◌, All, length, IfErr, IfOk, OnOk};
ghost use Rattle.emtp_case.specs.Case.{empty_parts};
ghost use Rattle.emtp_case.specs.held.Case.{DefinesEach};
ghost use Rattle.emtp_case.specs.held.Name.{IsName};
ghost use Rattle.emtp_case.specs.held.RunData.{IsRun};
ghost use Rattle.emtp_walk.specs.held.Answer.{IsWant};
ghost use Rattle.emtp_deck.specs.held.Filling.{made_of};
ghost use Rattle.emtp_deck.specs.held.Made.{named_made};
ghost use Rattle.emtp_sense.specs.held.Naming.{Continues};

use crate::asked::Asked;
use emtp_card::Refused;
use emtp_case::{Case, Draft, Name, RunData};
use emtp_sense::KnownNames;
use indexmap::IndexSet;
use std::alloc::Global;

/// What is made of the cards so far.
#[derive(Drop)]
pub(crate) struct Filling {
    /// The records of the case, without channels.
    pub(crate) draft: Draft,
    /// The names of its nodes again, where they are found fast.
    pub(crate) nodes: IndexSet<Name>,
    /// The names of its variables again.
    pub(crate) variables: IndexSet<Name>,
    /// The channels that were asked for.
    pub(crate) asked: Asked,
    /// How many history values its records need.
    pub(crate) history: u64,
}

impl Filling {
    /// What is made of the miscellaneous cards alone, with the nodes of the case and the names of its variables.
    pub(crate) fn new(alloc: Global, run: RunData, names: KnownNames) -> Result<Filling, Refused>
        requires run { IsRun run }
        requires few { length names.nodes.keys ≤ MOST_NODES }
        requires names { All IsName names.nodes.keys }
        ensures ok { IfOk result (λ filling. made_of filling ≡ named_made names.nodes.keys run) }
        ensures err { IfErr result IsWant }
        ensures nodes { IfOk result (λ filling. filling.nodes.keys ≡ names.nodes.keys) }
        ensures variables { IfOk result (λ filling. filling.variables.keys ≡ names.variables.keys) }
        ensures history { IfOk result (λ filling. filling.history ≡ 0) }
    {
        let draft = draft_with(alloc, run, &names.nodes)?;
        let KnownNames { nodes, variables } = names;
        Ok(Filling {
            draft,
            nodes,
            variables,
            asked: Asked::new(alloc),
            history: 0,
        })
    }

    /// The case of its records.
    pub(crate) fn into_case(self) -> Case
        requires { DefinesEach self.draft.parts }
        ensures { result.parts ≡ self.draft.parts }
    {
        let Filling {
            draft,
            nodes,
            variables,
            asked,
            ..
        } = self;
        // Dropped in place, each list would be proved here anew.
        drop(nodes);
        drop(variables);
        drop(asked);
        draft.finish()
    }
}

/// The draft of the miscellaneous cards, with these nodes.
fn draft_with(alloc: Global, run: RunData, nodes: &IndexSet<Name>) -> Result<Draft, Refused>
    requires run { IsRun run }
    requires few { length nodes.now.keys ≤ MOST_NODES }
    requires names { All IsName nodes.now.keys }
    ensures ok { IfOk result (λ draft. draft.parts ≡ record (empty_parts run) { nodes = nodes.now.keys }) }
    ensures err { IfErr result IsWant }
{
    let mut draft = Draft::new(alloc, run)?;
    add_nodes(&mut draft, nodes)?;
    Ok(draft)
}

/// Gives a draft the nodes that are new.
fn add_nodes(draft: &mut Draft, nodes: &IndexSet<Name>) -> Result<(), Refused>
    requires grows { Continues draft.old.parts.nodes nodes.now.keys }
    requires few { length nodes.now.keys ≤ MOST_NODES }
    requires names { All IsName nodes.now.keys }
    ensures ok { OnOk result (draft.new.parts ≡ record draft.old.parts { nodes = nodes.now.keys }) }
    ensures err { IfErr result IsWant }
{
    for at in draft.parts.nodes.len()..nodes.len() {
        draft.add_node(nodes.as_slice()[at])?;
    }
    Ok(())
}
