//! The order of the rows: which node stands in which row of the nodal matrix.

ghost use Rattle.emtp_case.specs.declared.limit.TheConstants.{MOST_BRANCHES, MOST_NODES};
ghost use Rattle.std.specs.Prelude.{◌≡◌, ◌+◌, ◌<◌, ◌≤◌, ℕ, length, map, count_by, sum_by, IfOk, slice_index};
ghost use Rattle.std.specs.List.{range_with_len, list_any};
ghost use Rattle.std.specs.List.Sorted.{IsPermutation, IsSortedByKey};
ghost use Rattle.emtp_case.specs.held.RowTable.{AreRows};
ghost use Rattle.emtp_case.specs.RowOrder.{Rows, ends_at, is_pseudo_at, has_source, class_of, key_of, key_cmp, order_of};
ghost use Rattle.emtp_case.specs.held.RowOrder.{IsRowOrder};

use crate::branch::Branch;
use crate::case::{Case, Parts};
use std::alloc::{AllocError, Global};
use std::marker::Model;

/// Which part of the order a node belongs to.
#[derive(Clone, Copy, PartialEq, Eq, PartialOrd, Ord)]
pub enum Class {
    /// It has a voltage source, so that its row is known.
    Source,
    /// Its row is the same in all steps: it touches neither a switch nor a pseudo-nonlinear branch.
    Constant,
    /// Its row may change from step to step: it touches a switch or a pseudo-nonlinear branch. Such rows come last, so
    /// that few rows are redone where one of them changes.
    Changing,
}

/// By what a node is put in order.
#[derive(Clone, Copy, PartialEq, Eq, PartialOrd, Ord)]
pub struct Key {
    /// Its part of the order.
    pub class: Class,
    /// The number of its branch ends, where its row is constant; else 0. Few ends first keeps the factor sparse.
    pub ends: u32,
    /// The node. A reader of a deck numbers nodes by first appearance; nothing else here rests on that.
    pub node: u32,
}

/// The order of the rows: first the nodes with a voltage source, then those of constant rows by rising number of branch
/// ends, last those of rows that may change. Ties go by the number of the node, which is first appearance where nodes are
/// numbered so. This project's own.
#[derive(Drop)]
pub struct RowOrder {
    nodes: Vec<u32>,
    rows: Vec<u32>,
    fixed: usize,
}

impl Model for RowOrder {
    ghost use Rattle.emtp_case.specs.RowOrder.{Rows};
    ghost use Rattle.emtp_case.specs.held.RowTable.{AreRows};

    ghost Value = { Rows };

    ghost view = { λ s. record { nodes = s.nodes.items; fixed = s.fixed } };

    ghost invariant = { λ s. AreRows s.nodes.items s.rows.items };
}

impl RowOrder {
    /// The row of a node.
    pub fn row_of(&self, node: u32) -> usize
        requires low { 1 ≤ node }
        requires high { node ≤ length self.now.nodes }
        ensures within { result < length self.now.nodes }
        ensures there { slice_index self.now.nodes result ≡ node }
        ensures only { (row : ℕ) → row < length self.now.nodes → slice_index self.now.nodes row ≡ node → row ≡ result }
    {
        self.rows[node as usize] as usize
    }

    /// The node of a row.
    pub fn node_at(&self, row: usize) -> u32
        requires { row < length self.now.nodes }
        ensures node { slice_index self.now.nodes row ≡ result }
        ensures low { 1 ≤ result }
        ensures high { result ≤ length self.now.nodes }
    {
        self.nodes[row]
    }

    /// The number of nodes with a voltage source; their rows come first.
    pub fn fixed(&self) -> usize
        ensures { result ≡ self.now.fixed }
    {
        self.fixed
    }

    /// Another one that says the same.
    pub fn copy(&self, alloc: Global) -> Result<RowOrder, AllocError>
        ensures { IfOk result (λ copy. copy ≡ self.now) }
    {
        Ok(RowOrder {
            nodes: copied(alloc, &self.nodes)?,
            rows: copied(alloc, &self.rows)?,
            fixed: self.fixed,
        })
    }
}

fn copied(alloc: Global, list: &[u32]) -> Result<Vec<u32>, AllocError>
    ensures { IfOk result (λ copy. copy.items ≡ list.now) }
{
    list.iter().copied().collect(alloc)
}

/// The order of the rows of a case.
pub fn order(alloc: Global, case: &Case) -> Result<RowOrder, AllocError>
    ensures value { IfOk result (λ rows. rows ≡ order_of case.now.parts) }
    ensures order { IfOk result (λ rows. IsRowOrder case.now.parts rows) }
    ensures rows { IfOk result (λ rows. length rows.nodes ≡ length case.now.parts.nodes) }
{
    let nodes = nodes_in_order(alloc, &case.parts)?;
    let rows = rows_of(alloc, &nodes)?;
    let fixed = fixed_of(&case.parts);
    Ok(RowOrder { nodes, rows, fixed })
}

fn nodes_in_order(alloc: Global, parts: &Parts) -> Result<Vec<u32>, AllocError>
    requires branches { length parts.now.branches ≤ MOST_BRANCHES }
    requires nodes { length parts.now.nodes ≤ MOST_NODES }
    ensures each_once { IfOk result (λ nodes. IsPermutation (range_with_len 1 (length parts.now.nodes)) nodes.items) }
    ensures rising { IfOk result (λ nodes. IsSortedByKey (key_of parts.now) key_cmp nodes.items) }
{
    let mut keys = keys_of(alloc, parts)?;
    keys.sort_unstable();
    let nodes = nodes_of(alloc, &keys)?;
    Ok(nodes)
}

/// The keys of all nodes, by node.
fn keys_of(alloc: Global, parts: &Parts) -> Result<Vec<Key>, AllocError>
    requires branches { length parts.now.branches ≤ MOST_BRANCHES }
    requires nodes { length parts.now.nodes ≤ MOST_NODES }
    ensures { IfOk result (λ keys. keys.items ≡ map (key_of parts.now) (range_with_len 1 (length parts.now.nodes))) }
{
    let mut keys = Vec::new(alloc);
    for at in 0..parts.nodes.len() as u32 {
        keys.push(key_of(parts, at + 1))?;
    }
    Ok(keys)
}

fn nodes_of(alloc: Global, keys: &[Key]) -> Result<Vec<u32>, AllocError>
    ensures { IfOk result (λ nodes. nodes.items ≡ map (λ (k : Key). k.node) keys.now) }
{
    keys.iter().map(|k| k.node).collect(alloc)
}

fn fixed_of(parts: &Parts) -> usize
    requires { length parts.now.nodes ≤ MOST_NODES }
    ensures { result ≡ count_by (has_source parts.now) (range_with_len 1 (length parts.now.nodes)) }
{
    let mut count = 0;
    for at in 0..parts.nodes.len() as u32 {
        if has_source(parts, at + 1) {
            count += 1;
        }
    }
    count
}

fn key_of(parts: &Parts, node: u32) -> Key
    requires { length parts.now.branches ≤ MOST_BRANCHES }
    ensures { result ≡ key_of parts.now node }
{
    let class = class_of(parts, node);
    let ends = if class == Class::Constant {
        ends_of(parts, node)
    } else {
        0
    };
    Key { class, ends, node }
}

fn class_of(parts: &Parts, node: u32) -> Class
    ensures { result ≡ class_of parts.now node }
{
    if has_source(parts, node) {
        Class::Source
    } else if parts.touches_switch(node) || has_pseudo(parts, node) {
        Class::Changing
    } else {
        Class::Constant
    }
}

fn has_source(parts: &Parts, node: u32) -> bool
    ensures { result ≡ has_source parts.now node }
{
    parts
        .sources
        .as_slice()
        .iter()
        .any(|s| s.is_voltage_at(node))
}

fn has_pseudo(parts: &Parts, node: u32) -> bool
    ensures { result ≡ list_any (is_pseudo_at node) parts.now.branches }
{
    parts
        .branches
        .as_slice()
        .iter()
        .any(|b| is_pseudo_at(b, node))
}

fn is_pseudo_at(branch: &Branch, node: u32) -> bool
    ensures { result ≡ is_pseudo_at node branch.now }
{
    match branch {
        Branch::Pseudo(b) => b.from == node || b.to == node,
        Branch::Lumped(_) | Branch::Line(_) | Branch::Phase(_) => false,
    }
}

/// The number of branch ends at a node.
fn ends_of(parts: &Parts, node: u32) -> u32
    requires { length parts.now.branches ≤ MOST_BRANCHES }
    ensures { result ≡ sum_by (ends_at node) parts.now.branches }
{
    parts
        .branches
        .as_slice()
        .iter()
        .map(|b| ends_at(b, node))
        .sum()
}

fn ends_at(branch: &Branch, node: u32) -> u32
    ensures value { result ≡ ends_at node branch.now }
    ensures few { result ≤ 2 }
{
    let (from, to) = branch.ends();
    u32::from(from == node) + u32::from(to == node)
}

/// The row of each node, with an unused place for ground.
fn rows_of(alloc: Global, nodes: &[u32]) -> Result<Vec<u32>, AllocError>
    requires few { length nodes.now ≤ MOST_NODES }
    requires each_once { IsPermutation (range_with_len 1 (length nodes.now)) nodes.now }
    ensures { IfOk result (λ rows. AreRows nodes.now rows.items) }
{
    let mut rows = vec![in alloc; 0u32; nodes.len() + 1]?;
    for (row, node) in nodes.iter().enumerate() {
        rows[*node as usize] = row as u32;
    }
    Ok(rows)
}
