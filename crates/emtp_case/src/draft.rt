//! A case that a reader fills card by card.

ghost use Rattle.emtp_case.specs.declared.limit.TheConstants.{MOST_BRANCHES, MOST_CHANNELS, MOST_CONTROL_CARDS, MOST_HISTORY_VALUES, MOST_NODES, MOST_POINTS, MOST_SOURCES, MOST_STORED_VALUES, MOST_SWITCHES, MOST_VARIABLES};
ghost use Rattle.std.specs.Prelude.{◌≡◌, ◌+◌, ◌*◌, ◌<◌, ◌≤◌, ◌++◌, [], ◌∷◌, length, false, IfOk, OnOk, OnErr};
ghost use Rattle.std.specs.List.{list_any};
ghost use Rattle.emtp_case.specs.held.Branch.{IsBranch, IsLumped, IsSingle, IsCharacteristic, IsTrio};
ghost use Rattle.emtp_case.specs.held.Range.{AreEnds};
ghost use Rattle.emtp_case.specs.Case.{empty_parts, phase_branches, standing_names};
ghost use Rattle.emtp_case.specs.held.Case.{IsDraft, DefinesEach, HasNoControl};
ghost use Rattle.emtp_case.specs.held.Channel.{IsChannel};
ghost use Rattle.emtp_case.specs.held.Control.{IsBlock, IsDeviceCard, HasDevicePoints, IsFormula};
ghost use Rattle.emtp_case.specs.HistoryValues.{history_values_of, branch_history_values, trio_history_values, device_history_values};
ghost use Rattle.emtp_case.specs.held.Name.{IsName};
ghost use Rattle.emtp_case.specs.held.OneProof.{IsDraft-prop};
ghost use Rattle.emtp_case.specs.RunData.{samples_of};
ghost use Rattle.emtp_case.specs.held.RunData.{IsRun};
ghost use Rattle.emtp_case.specs.held.Sizes.{sizes_of};
ghost use Rattle.emtp_case.specs.Source.{is_voltage_source_at};
ghost use Rattle.emtp_case.specs.held.Source.{IsSource, IsTacsSource};
ghost use Rattle.emtp_case.specs.held.Switch.{IsSwitch};

use crate::branch::{Branch, Lumped, Phase, Point, Pseudo, Trio};
use crate::case::{Case, Parts};
use crate::channel::Channel;
use crate::control::{Block, Device, Extra, Formula};
use crate::items::{Items, push_both};
use crate::name::Name;
use crate::run_data::RunData;
use crate::source::Source;
use crate::switch::Switch;
use std::alloc::{AllocError, Global};

/// A case in the making. What it holds fits each other at each moment; a variable may still lack the card that
/// defines it. Each call asks for what the card has to meet. Where no memory is left, the draft is as before.
#[derive(Drop)]
pub struct Draft {
    /// The records so far.
    pub parts: Parts,
    pub ghost fits: { IsDraft parts } by { IsDraft-prop parts },
}

impl Draft {
    /// The draft of the miscellaneous cards. It has the six standing variables and nothing else.
    pub fn new(alloc: Global, run: RunData) -> Result<Draft, AllocError>
        requires { IsRun run }
        ensures { IfOk result (λ draft. draft.parts ≡ empty_parts run) }
    {
        let vars = standing_vars(alloc)?;
        Ok(Draft {
            parts: Parts {
                run,
                nodes: Items::new(alloc),
                branches: Items::new(alloc),
                trios: Items::new(alloc),
                points: Items::new(alloc),
                switches: Items::new(alloc),
                sources: Items::new(alloc),
                vars,
                tacs_sources: Items::new(alloc),
                blocks: Items::new(alloc),
                extras: Items::new(alloc),
                channels: Items::new(alloc),
            },
        })
    }

    /// Adds the next node.
    pub fn add_node(&mut self, name: Name) -> Result<(), AllocError>
        requires room { length self.old.parts.nodes < MOST_NODES }
        requires name { IsName name }
        ensures ok { OnOk result (self.new.parts ≡ record self.old.parts { nodes = self.old.parts.nodes ++ name ∷ [] }) }
        ensures err { OnErr result (self.new ≡ self.old) }
    {
        self.parts.nodes.push(name)?;
        Ok(())
    }

    /// Adds the next variable.
    pub fn add_variable(&mut self, name: Name) -> Result<(), AllocError>
        requires room { length self.old.parts.vars < MOST_VARIABLES }
        requires name { IsName name }
        ensures ok { OnOk result (self.new.parts ≡ record self.old.parts { vars = self.old.parts.vars ++ name ∷ [] }) }
        ensures err { OnErr result (self.new ≡ self.old) }
    {
        self.parts.vars.push(name)?;
        Ok(())
    }

    /// Adds a series branch.
    pub fn add_lumped(&mut self, branch: Lumped) -> Result<(), AllocError>
        requires room { length self.old.parts.branches < MOST_BRANCHES }
        requires fits { IsLumped self.old.parts.run (sizes_of self.old.parts) branch }
        ensures ok { OnOk result
            (self.new.parts ≡ record self.old.parts
            { branches = self.old.parts.branches ++ Branch.Lumped branch ∷ [] }) }
        ensures history { OnOk result (history_values_of self.new.parts ≡ history_values_of self.old.parts) }
        ensures err { OnErr result (self.new ≡ self.old) }
    {
        self.add_branch(Branch::Lumped(branch))
    }

    /// Adds a branch other than a phase. A pseudo-nonlinear one has the points of an earlier one.
    pub fn add_branch(&mut self, branch: Branch) -> Result<(), AllocError>
        requires room { length self.old.parts.branches < MOST_BRANCHES }
        requires single { IsSingle branch }
        requires fits { IsBranch self.old.parts.run (sizes_of self.old.parts) self.old.parts.points branch }
        requires history { history_values_of self.old.parts + branch_history_values self.old.parts.run.dt branch
            ≤ MOST_HISTORY_VALUES }
        ensures ok { OnOk result (self.new.parts ≡ record self.old.parts { branches = self.old.parts.branches ++ branch ∷ [] }) }
        ensures history { OnOk result
            (history_values_of self.new.parts
            ≡ history_values_of self.old.parts + branch_history_values self.old.parts.run.dt branch) }
        ensures err { OnErr result (self.new ≡ self.old) }
    {
        self.parts.branches.push(branch)?;
        Ok(())
    }

    /// Adds a pseudo-nonlinear branch with its points. Their place and number in `branch` don't matter: they are
    /// set here.
    pub fn add_pseudo(&mut self, branch: Pseudo, points: &[Point]) -> Result<(), AllocError>
        requires room { length self.old.parts.branches < MOST_BRANCHES }
        requires ends { AreEnds (length self.old.parts.nodes) branch.from branch.to }
        requires some { 1 ≤ length points.now }
        requires few { length points.now ≤ MOST_POINTS }
        requires characteristic { IsCharacteristic branch.reactor self.old.parts.run.dt points.now }
        ensures ok { OnOk result
            (self.new.parts ≡ record self.old.parts {
              points = self.old.parts.points ++ points.now;
              branches = self.old.parts.branches
                  ++ Branch.Pseudo (record branch
                  { first = length self.old.parts.points; count = length points.now }) ∷ [];
            }) }
        ensures history { OnOk result (history_values_of self.new.parts ≡ history_values_of self.old.parts) }
        ensures err { OnErr result (self.new ≡ self.old) }
    {
        let branch = Branch::Pseudo(Pseudo {
            first: self.parts.points.len() as u32,
            count: points.len() as u32,
            ..branch
        });
        push_both(
            &mut self.parts.points,
            points,
            &mut self.parts.branches,
            branch,
        )
    }

    /// Adds a three-phase line: its modes and the cards of its phases. The place in `modes`, and the trio and the number
    /// in each phase, don't matter: they are set here. The number of each card's line is the caller's.
    pub fn add_trio(&mut self, modes: Trio, a: Phase, b: Phase, c: Phase) -> Result<(), AllocError>
        requires room { length self.old.parts.branches + 3 ≤ MOST_BRANCHES }
        requires a { AreEnds (length self.old.parts.nodes) a.from a.to }
        requires b { AreEnds (length self.old.parts.nodes) b.from b.to }
        requires c { AreEnds (length self.old.parts.nodes) c.from c.to }
        requires modes { IsTrio self.old.parts.run modes }
        requires history { history_values_of self.old.parts + trio_history_values self.old.parts.run.dt modes
            ≤ MOST_HISTORY_VALUES }
        ensures ok { OnOk result
            (self.new.parts ≡ record self.old.parts {
              branches = self.old.parts.branches ++ phase_branches (length self.old.parts.trios) a b c;
              trios = self.old.parts.trios ++ record modes { first = length self.old.parts.branches } ∷ [];
            }) }
        ensures history { OnOk result
            (history_values_of self.new.parts
            ≡ history_values_of self.old.parts + trio_history_values self.old.parts.run.dt modes) }
        ensures err { OnErr result (self.new ≡ self.old) }
    {
        let first = self.parts.branches.len() as u32;
        let trio = self.parts.trios.len() as u32;
        let phases = [
            Branch::Phase(Phase {
                trio,
                phase: 0,
                ..a
            }),
            Branch::Phase(Phase {
                trio,
                phase: 1,
                ..b
            }),
            Branch::Phase(Phase {
                trio,
                phase: 2,
                ..c
            }),
        ];
        push_both(
            &mut self.parts.branches,
            &phases,
            &mut self.parts.trios,
            Trio { first, ..modes },
        )
    }

    /// Adds a switch.
    pub fn add_switch(&mut self, switch: Switch) -> Result<(), AllocError>
        requires room { length self.old.parts.switches < MOST_SWITCHES }
        requires fits { IsSwitch (sizes_of self.old.parts) switch }
        ensures ok { OnOk result (self.new.parts ≡ record self.old.parts { switches = self.old.parts.switches ++ switch ∷ [] }) }
        ensures err { OnErr result (self.new ≡ self.old) }
    {
        self.parts.switches.push(switch)?;
        Ok(())
    }

    /// Whether a node has a voltage source.
    pub fn has_voltage_source(&self, node: u32) -> bool
        ensures { result ≡ list_any (is_voltage_source_at node) self.now.parts.sources }
    {
        self.parts
            .sources
            .as_slice()
            .iter()
            .any(|s| s.is_voltage_at(node))
    }

    /// Adds a source of the network. A second voltage source of a node is out.
    pub fn add_source(&mut self, source: Source) -> Result<(), AllocError>
        requires room { length self.old.parts.sources < MOST_SOURCES }
        requires fits { IsSource (sizes_of self.old.parts) source }
        requires one { source.current ≡ false → list_any (is_voltage_source_at source.node) self.old.parts.sources ≡ false }
        ensures ok { OnOk result (self.new.parts ≡ record self.old.parts { sources = self.old.parts.sources ++ source ∷ [] }) }
        ensures err { OnErr result (self.new ≡ self.old) }
    {
        self.parts.sources.push(source)?;
        Ok(())
    }

    /// Adds a source of the control.
    pub fn add_tacs_source(&mut self, source: Source) -> Result<(), AllocError>
        requires room { length self.old.parts.tacs_sources < MOST_CONTROL_CARDS }
        requires fits { IsTacsSource (sizes_of self.old.parts) source }
        ensures ok { OnOk result
            (self.new.parts ≡ record self.old.parts { tacs_sources = self.old.parts.tacs_sources ++ source ∷ [] }) }
        ensures err { OnErr result (self.new ≡ self.old) }
    {
        self.parts.tacs_sources.push(source)?;
        Ok(())
    }

    /// Adds a block.
    pub fn add_block(&mut self, block: Block) -> Result<(), AllocError>
        requires room { length self.old.parts.blocks < MOST_CONTROL_CARDS }
        requires fits { IsBlock self.old.parts.run (sizes_of self.old.parts) block }
        ensures ok { OnOk result (self.new.parts ≡ record self.old.parts { blocks = self.old.parts.blocks ++ block ∷ [] }) }
        ensures err { OnErr result (self.new ≡ self.old) }
    {
        self.parts.blocks.push(block)?;
        Ok(())
    }

    /// Adds a device with its points or times. Their place and number in `device` don't matter: they are set here.
    pub fn add_device(&mut self, mut device: Device, points: &[Point]) -> Result<(), AllocError>
        requires room { length self.old.parts.extras < MOST_CONTROL_CARDS }
        requires card { IsDeviceCard (sizes_of self.old.parts) device }
        requires few { length points.now ≤ MOST_POINTS }
        requires points { HasDevicePoints device.code points.now }
        requires history { history_values_of self.old.parts
            + device_history_values self.old.parts.run.dt device.code device.a ≤ MOST_HISTORY_VALUES }
        ensures ok { OnOk result
            (self.new.parts ≡ record self.old.parts {
              points = self.old.parts.points ++ points.now;
              extras = self.old.parts.extras
                  ++ Extra.Device (record device
                  { first = length self.old.parts.points; count = length points.now }) ∷ [];
            }) }
        ensures history { OnOk result
            (history_values_of self.new.parts
            ≡ history_values_of self.old.parts + device_history_values self.old.parts.run.dt device.code device.a) }
        ensures err { OnErr result (self.new ≡ self.old) }
    {
        device.first = self.parts.points.len() as u32;
        device.count = points.len() as u32;
        push_both(
            &mut self.parts.points,
            points,
            &mut self.parts.extras,
            Extra::Device(device),
        )
    }

    /// Adds a formula.
    pub fn add_formula(&mut self, formula: Formula) -> Result<(), AllocError>
        requires room { length self.old.parts.extras < MOST_CONTROL_CARDS }
        requires fits { IsFormula (sizes_of self.old.parts) formula }
        ensures ok { OnOk result
            (self.new.parts ≡ record self.old.parts
            { extras = self.old.parts.extras ++ Extra.Formula formula ∷ [] }) }
        ensures history { OnOk result (history_values_of self.new.parts ≡ history_values_of self.old.parts) }
        ensures err { OnErr result (self.new ≡ self.old) }
    {
        self.parts.extras.push(Extra::Formula(formula))?;
        Ok(())
    }

    /// Adds a channel.
    pub fn add_channel(&mut self, channel: Channel) -> Result<(), AllocError>
        requires room { length self.old.parts.channels < MOST_CHANNELS }
        requires fits { IsChannel (sizes_of self.old.parts) channel }
        requires stored { (length self.old.parts.channels + 1) * samples_of self.old.parts.run ≤ MOST_STORED_VALUES }
        ensures ok { OnOk result (self.new.parts ≡ record self.old.parts { channels = self.old.parts.channels ++ channel ∷ [] }) }
        ensures err { OnErr result (self.new ≡ self.old) }
    {
        self.parts.channels.push(channel)?;
        Ok(())
    }

    /// The case, where each variable but the standing ones is that of exactly one card.
    pub fn finish(self) -> Case
        requires { DefinesEach self.parts }
        ensures { result.parts ≡ self.parts }
    {
        let Draft { parts } = self;
        Case { parts }
    }

    /// The case of a network without control.
    pub fn finish_network(self) -> Case
        requires { HasNoControl self.parts }
        ensures { result.parts ≡ self.parts }
    {
        self.finish()
    }
}

/// The names of the variables that every case has.
fn standing_vars(alloc: Global) -> Result<Items<Name>, AllocError>
    ensures { IfOk result (λ vars. vars ≡ standing_names) }
{
    let names = [
        Name::new(b"TIMEX"),
        Name::new(b"ISTEP"),
        Name::new(b"DELTAT"),
        Name::new(b"ZERO"),
        Name::new(b"PLUS1"),
        Name::new(b"MINUS1"),
    ];
    Ok(Items::from_vec(Vec::from_array(alloc, names)?))
}
