//! The nodal rows of a case.

ghost use Rattle.std.specs.Prelude.{◌≡◌, ◌<◌, ◌≤◌, pos, replicate, length, unsigned_abs, slice_set, IfOk};
ghost use Rattle.emtp_fix.specs.declared.limit.TheConstants.{LARGEST_ENTRY};
ghost use Rattle.emtp_elim.specs.Matrix.{item};
ghost use Rattle.emtp_case.specs.held.RowKinds.{AreKinds};
ghost use Rattle.emtp_case.specs.RowOrder.{order_of};
ghost use Rattle.emtp_rows.specs.Nodal.{Nodal};
ghost use Rattle.emtp_rows.specs.held.Terms.{kinds_from, nodal_at_rest};
ghost use Rattle.emtp_rows.specs.held.Touched.{NodalRows, Touches};

use crate::fill::fill_row;
use crate::term::Term;
use crate::terms::{ends_of_branches, terms_of_rows};
use crate::touched::{touched_by_branch, touched_by_kinds, touched_by_phases};
use emtp_case::{Case, Items, RowKind, RowOrder};
use emtp_elim::Rows;
use std::alloc::{AllocError, Global};
use std::marker::Model;

/// The rows of a nodal matrix (Dommel 1969), in pS. What the matrix depends on changes in place, and each row holds the
/// terms of its node, so that filling it costs its length and the branches there. Besides it is known which row is the
/// first one that was touched.
///
/// `ends` has the rows of the two nodes of each branch, where ground has the number of rows.
#[derive(Drop)]
pub struct NetRows<'a> {
    case: &'a Case,
    fixed: usize,
    touched: usize,
    ends: Vec<(u32, u32)>,
    rows: Vec<Items<Term>>,
    own: Vec<i64>,
    coupling: Vec<i64>,
    kinds: Vec<RowKind>,
}

impl<'a> Model for NetRows<'a> {
    ghost use Rattle.std.specs.Prelude.{◌∷◌, [], vec_capacity};
    ghost use Rattle.emtp_rows.specs.held.Terms.{IsHeld};
    ghost use Rattle.emtp_rows.specs.held.Touched.{NodalRows};

    ghost Value = { NodalRows };

    ghost use Rattle.std.specs.Coded.{codes};

    ghost coded = { Prim.hlevel codes };

    ghost view = { λ s. record {
      nodal = record {
        case = s.case.now.parts;
        own = s.own.items;
        coupling = s.coupling.items;
        kinds = s.kinds.items;
      };
      touched = s.touched;
      capacities = vec_capacity s.own ∷ vec_capacity s.coupling ∷ vec_capacity s.kinds ∷ [];
    } };

    ghost invariant = { λ s. IsHeld s.case.now.parts s.fixed s.touched s.ends.items s.rows.items s.own.items s.coupling.items s.kinds.items };
}

impl<'a> NetRows<'a> {
    /// All conductances are 0, and all rows are current equations but those of voltage sources, which come first. No
    /// memory is taken after it.
    pub fn open(alloc: Global, case: &'a Case, order: &RowOrder) -> Result<NetRows<'a>, AllocError>
        requires { order.now ≡ order_of case.now.parts }
        ensures nodal { IfOk result (λ s. s.nodal ≡ nodal_at_rest case.now.parts) }
        ensures touched { IfOk result (λ s. s.touched ≡ 0) }
    {
        let ends = ends_of_branches(alloc, case, order)?;
        let rows = terms_of_rows(alloc, case, order)?;
        let own = zeros(alloc, case.parts.branches.len())?;
        let coupling = zeros(alloc, case.parts.trios.len())?;
        let fixed = order.fixed();
        let kinds = starting_kinds(alloc, case.parts.nodes.len(), fixed)?;
        Ok(NetRows {
            case,
            fixed,
            touched: 0,
            ends,
            rows,
            own,
            coupling,
            kinds,
        })
    }

    /// Gives a branch another conductance, in pS: from 0 to 10^17.
    pub fn set_conductance(&mut self, branch: usize, g: i64)
        requires there { branch < length self.old.nodal.case.branches }
        requires small { unsigned_abs g ≤ LARGEST_ENTRY }
        ensures nodal { self.new.nodal ≡ record self.old.nodal { own = slice_set self.old.nodal.own branch g } }
        ensures touched { Touches self.old self.new }
        ensures capacities { self.new.capacities ≡ self.old.capacities }
        ensures same { g ≡ item self.old.nodal.own branch → self.new ≡ self.old }
    {
        if self.own[branch] != g {
            self.own[branch] = g;
            let row = touched_by_branch(&self.kinds, self.ends[branch]);
            self.touched = self.touched.min(row);
        }
    }

    /// Gives a three-phase line another mutual conductance, in pS: to 10^17 in magnitude.
    pub fn set_mutual(&mut self, trio: usize, g: i64)
        requires there { trio < length self.old.nodal.case.trios }
        requires small { unsigned_abs g ≤ LARGEST_ENTRY }
        ensures nodal { self.new.nodal ≡ record self.old.nodal { coupling = slice_set self.old.nodal.coupling trio g } }
        ensures touched { Touches self.old self.new }
        ensures capacities { self.new.capacities ≡ self.old.capacities }
        ensures same { g ≡ item self.old.nodal.coupling trio → self.new ≡ self.old }
    {
        if self.coupling[trio] != g {
            self.coupling[trio] = g;
            let first = self.case.parts.trios.as_slice()[trio].first as usize;
            let row = touched_by_phases(&self.kinds, &self.ends, first);
            self.touched = self.touched.min(row);
        }
    }

    /// Gives the rows other kinds, one a row: the rows of voltage sources are sources, and each tie names a row.
    pub fn set_kinds(&mut self, kinds: &[RowKind])
        requires { AreKinds (length self.old.nodal.case.nodes) (order_of self.old.nodal.case).fixed kinds.now }
        ensures nodal { self.new.nodal ≡ record self.old.nodal { kinds = kinds.now } }
        ensures touched { Touches self.old self.new }
        ensures capacities { self.new.capacities ≡ self.old.capacities }
        ensures same { kinds.now ≡ self.old.nodal.kinds → self.new ≡ self.old }
    {
        let row = touched_by_kinds(&self.kinds, kinds);
        self.kinds.copy_from_slice(kinds);
        self.touched = self.touched.min(row);
    }

    /// The first row that was touched since this was asked last, or since the opening, and the number of rows where none
    /// was. The rows before it have stayed. Until then nothing is touched any more.
    pub fn take_touched(&mut self) -> usize
        ensures first { result ≡ self.old.touched }
        ensures within { result ≤ length self.old.nodal.case.nodes }
        ensures rest { self.new ≡ record self.old { touched = length self.old.nodal.case.nodes } }
    {
        let first = self.touched;
        self.touched = self.case.parts.nodes.len();
        first
    }
}

impl<'a> Rows for NetRows<'a> {
    ghost use Rattle.emtp_case.specs.RowOrder.{order_of};
    ghost use Rattle.emtp_rows.specs.Nodal.{nodal_matrix};

    ghost matrix = { λ s. nodal_matrix s.nodal };

    ghost fixed = { λ s. (order_of s.nodal.case).fixed };

    fn size(&self) -> usize {
        self.case.parts.nodes.len()
    }

    fn fixed(&self) -> usize {
        self.fixed
    }

    fn row(&self, i: usize, out: &mut [i128]) {
        fill_row(&self.rows, &self.own, &self.coupling, &self.kinds, i, out);
    }
}

/// A row of a source for each node with one, and then current equations.
fn starting_kinds(alloc: Global, size: usize, fixed: usize) -> Result<Vec<RowKind>, AllocError>
    requires { fixed ≤ size }
    ensures { IfOk result (λ kinds. kinds.items ≡ kinds_from size fixed) }
{
    let mut kinds = vec![in alloc; RowKind::Kcl; size]?;
    for i in 0..fixed {
        kinds[i] = RowKind::Source;
    }
    Ok(kinds)
}

fn zeros(alloc: Global, count: usize) -> Result<Vec<i64>, AllocError>
    ensures { IfOk result (λ numbers. numbers.items ≡ replicate count (pos 0)) }
{
    vec![in alloc; 0i64; count]
}
