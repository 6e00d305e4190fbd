//! All branches of a case, by their laws.

ghost use Rattle.std.specs.Prelude.{◌≡◌, ◌+◌, ◌^◌, ◌<◌, ◌≤◌, ◌∷◌, [], List, length, unsigned_abs, IfErr, IfOk};
ghost use Rattle.emtp_case.specs.StepRecord.{StepRecord, rest_of};
ghost use Rattle.emtp_fix.specs.declared.limit.TheConstants.{LARGEST_ENTRY};
ghost use Rattle.emtp_net.specs.held.Branches.{HasCase, StandsFor};
ghost use Rattle.emtp_net.specs.held.Fault.{NamesNode};
ghost use Rattle.emtp_net.specs.held.Stages.{TakesVoltages};
ghost use Rattle.emtp_net.specs.held.Moving.{IsBroughtAt, IsCurrentAt, MovesAll, MovesAt};
ghost use Rattle.emtp_net.specs.held.System.{conductance_at};
ghost use Rattle.emtp_net.specs.Part.{phase_voltages};
ghost use Rattle.emtp_net.specs.System.{history_at, taken, through};

use crate::fault::NetFault;
use emtp_case::{Branch, Case, branch_name};
use emtp_line::Lines;
use emtp_lumped::Lumps;
use emtp_pseudo::Pseudos;
use emtp_rows::phase_node;
use std::alloc::{AllocError, Global};

/// The branches of a case, each kind in the hands of its law.
#[derive(Drop)]
pub(crate) struct Branches<'a> {
    /// The series branches.
    pub(crate) lumps: Lumps<'a>,
    /// The lines and the phases of three-phase lines.
    pub(crate) lines: Lines<'a>,
    /// The pseudo-nonlinear branches.
    pub(crate) pseudos: Pseudos<'a>,
}

impl<'a> Branches<'a> {
    /// All branches at rest, as record 0 has them.
    pub(crate) fn open(alloc: Global, case: &'a Case) -> Result<Branches<'a>, AllocError>
        ensures same { IfOk result (λ branches. HasCase branches case.now.parts) }
        ensures rest { IfOk result (λ branches. StandsFor branches (rest_of case.now.parts ∷ [])) }
    {
        let lumps = Lumps::open(alloc, case)?;
        let lines = Lines::open(alloc, case)?;
        let pseudos = Pseudos::open(alloc, case)?;
        Ok(Branches {
            lumps,
            lines,
            pseudos,
        })
    }

    /// The conductance of a branch in the next step, in pS: from 0 to 10^17.
    pub(crate) fn conductance(&self, case: &Case, at: usize) -> i64
        requires same { HasCase self.now case.now.parts }
        requires there { at < length case.now.parts.branches }
        ensures small { unsigned_abs result ≤ LARGEST_ENTRY }
        ensures value { (H : List StepRecord) → StandsFor self.now H → result ≡ conductance_at case.now.parts H at }
    {
        match case.parts.branches.as_slice()[at] {
            Branch::Lumped(_) => self.lumps.conductance(at),
            Branch::Line(_) => self.lines.conductance(at),
            Branch::Pseudo(_) => self.pseudos.conductance(at),
            Branch::Phase(_) => self.lines.conductance(at),
        }
    }

    /// The history currents that a branch brings to its two nodes in the next step, in nA.
    pub(crate) fn history(&self, case: &Case, at: usize) -> (i128, i128)
        requires same { HasCase self.now case.now.parts }
        requires there { at < length case.now.parts.branches }
        ensures first { unsigned_abs result.0 ≤ 10 ^ 30 }
        ensures second { unsigned_abs result.1 ≤ 10 ^ 30 }
        ensures value { (H : List StepRecord) → StandsFor self.now H → result ≡ history_at case.now.parts H at }
    {
        match case.parts.branches.as_slice()[at] {
            Branch::Lumped(_) => through(self.lumps.history_current(at)),
            Branch::Line(_) => taken(self.lines.history_currents(at)),
            Branch::Pseudo(_) => through(self.pseudos.history_current(at)),
            Branch::Phase(_) => taken(self.lines.history_currents(at)),
        }
    }

    /// Takes the node voltages into the branch at a place, and answers its current in nA, or 0 for a phase: phase 0 moves
    /// all three phases of its line, and the others nothing. An error is the first branch that is out of range.
    fn accept_one(&mut self, case: &Case, voltages: &[i64], at: usize) -> Result<i64, usize>
        requires same { HasCase self.old case.now.parts }
        requires each { length voltages.now ≡ length case.now.parts.nodes + 1 }
        requires there { at < length case.now.parts.branches }
        ensures same { HasCase self.new case.now.parts }
        ensures there { IfErr result (λ out. out < length case.now.parts.branches) }
        ensures moves { MovesAt result case.now.parts voltages.now at self.old self.new }
    {
        let branch = case.parts.branches.as_slice()[at];
        let (from, to) = branch.ends();
        let (v, w) = (voltages[from as usize], voltages[to as usize]);
        match branch {
            Branch::Lumped(_) => match self.lumps.accept(at, v, w) {
                Ok(current) => Ok(current),
                Err(_) => Err(at),
            },
            Branch::Line(_) => match self.lines.accept(at, v, w) {
                Ok(current) => Ok(current),
                Err(_) => Err(at),
            },
            Branch::Pseudo(_) => match self.pseudos.accept(at, v, w) {
                Ok(current) => Ok(current),
                Err(_) => Err(at),
            },
            Branch::Phase(b) => {
                if b.phase != 0 {
                    return Ok(0);
                }
                let v = phase_voltages(case, false, b.trio, voltages);
                let w = phase_voltages(case, true, b.trio, voltages);
                match self.lines.accept_three(b.trio as usize, v, w) {
                    Ok(_) => Ok(0),
                    Err(fault) => Err(at + fault.phase),
                }
            }
        }
    }

    /// Takes the node voltages in nV into all branches, in card order, and writes the currents of series branches and
    /// pseudo-nonlinear ones in nA. An error is the first branch that is out of range.
    fn accept_all(
        &mut self,
        case: &Case,
        voltages: &[i64],
        currents: &mut [i64],
    ) -> Result<(), usize>
        requires same { HasCase self.old case.now.parts }
        requires each { length voltages.now ≡ length case.now.parts.nodes + 1 }
        requires currents { length currents.old ≡ length case.now.parts.branches }
        ensures same { HasCase self.new case.now.parts }
        ensures there { IfErr result (λ out. out < length case.now.parts.branches) }
        ensures moves { MovesAll result case.now.parts voltages.now currents.new self.old self.new }
    {
        for at in 0..case.parts.branches.len() {
            match self.accept_one(case, voltages, at) {
                Ok(current) => currents[at] = current,
                Err(out) => return Err(out),
            }
        }
        Ok(())
    }

    /// The same, where an error is the fault that the branch is named by.
    pub(crate) fn accept(
        &mut self,
        case: &Case,
        voltages: &[i64],
        currents: &mut [i64],
    ) -> Result<(), NetFault>
        requires same { HasCase self.old case.now.parts }
        requires each { length voltages.now ≡ length case.now.parts.nodes + 1 }
        requires currents { length currents.old ≡ length case.now.parts.branches }
        ensures same { HasCase self.new case.now.parts }
        ensures moves { TakesVoltages result case.now.parts voltages.now currents.new self.old self.new }
        ensures node { IfErr result (NamesNode case.now.parts) }
    {
        match self.accept_all(case, voltages, currents) {
            Ok(()) => Ok(()),
            Err(at) => Err(NetFault::Range(branch_name(case, at))),
        }
    }

    /// The current of a branch in the last record, in nA: into a line at its first end. `currents` has those of series
    /// branches and pseudo-nonlinear ones.
    pub(crate) fn current(&self, case: &Case, currents: &[i64], at: usize) -> i64
        requires same { HasCase self.now case.now.parts }
        requires currents { length currents.now ≡ length case.now.parts.branches }
        requires there { at < length case.now.parts.branches }
        ensures { IsCurrentAt result self.now case.now.parts currents.now at }
    {
        match case.parts.branches.as_slice()[at] {
            Branch::Lumped(_) => currents[at],
            Branch::Line(_) => self.lines.end_currents(at).0,
            Branch::Pseudo(_) => currents[at],
            Branch::Phase(_) => self.lines.end_currents(at).0,
        }
    }

    /// What a branch brings to its two nodes by its currents of the last record, in nA. `currents` has those of series
    /// branches and pseudo-nonlinear ones.
    pub(crate) fn brought(&self, case: &Case, currents: &[i64], at: usize) -> (i128, i128)
        requires same { HasCase self.now case.now.parts }
        requires currents { length currents.now ≡ length case.now.parts.branches }
        requires there { at < length case.now.parts.branches }
        ensures first { unsigned_abs result.0 ≤ 10 ^ 19 }
        ensures second { unsigned_abs result.1 ≤ 10 ^ 19 }
        ensures value { IsBroughtAt result self.now case.now.parts currents.now at }
    {
        match case.parts.branches.as_slice()[at] {
            Branch::Lumped(_) => through(currents[at] as i128),
            Branch::Line(_) => taken(wide(self.lines.end_currents(at))),
            Branch::Pseudo(_) => through(currents[at] as i128),
            Branch::Phase(_) => taken(wide(self.lines.end_currents(at))),
        }
    }
}

/// The voltages of the three phases of a line at an end.
fn phase_voltages(case: &Case, second: bool, trio: u32, voltages: &[i64]) -> [i64; 3]
    requires each { length voltages.now ≡ length case.now.parts.nodes + 1 }
    requires trio { trio < length case.now.parts.trios }
    ensures { result ≡ phase_voltages case.now.parts second trio voltages.now }
{
    [
        voltages[phase_node(case, second, trio, 0) as usize],
        voltages[phase_node(case, second, trio, 1) as usize],
        voltages[phase_node(case, second, trio, 2) as usize],
    ]
}

/// The same currents, as sums of currents are kept.
fn wide(currents: (i64, i64)) -> (i128, i128)
    ensures value { result ≡ currents }
    ensures first { unsigned_abs result.0 ≤ 10 ^ 19 }
    ensures second { unsigned_abs result.1 ≤ 10 ^ 19 }
{
    (currents.0 as i128, currents.1 as i128)
}

/// What a current through a branch brings to its first and its second node.
fn through(current: i128) -> (i128, i128)
    requires { unsigned_abs current ≤ 10 ^ 30 }
    ensures value { result ≡ through current }
    ensures first { unsigned_abs result.0 ≡ unsigned_abs current }
    ensures second { unsigned_abs result.1 ≡ unsigned_abs current }
{
    (-current, current)
}

/// What currents into both ends of a branch bring to its nodes.
fn taken(currents: (i128, i128)) -> (i128, i128)
    requires first { unsigned_abs currents.0 ≤ 10 ^ 30 }
    requires second { unsigned_abs currents.1 ≤ 10 ^ 30 }
    ensures value { result ≡ taken currents }
    ensures first { unsigned_abs result.0 ≡ unsigned_abs currents.0 }
    ensures second { unsigned_abs result.1 ≡ unsigned_abs currents.1 }
{
    (-currents.0, -currents.1)
}
