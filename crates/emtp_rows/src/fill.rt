//! Filling a row.

ghost use Rattle.emtp_case.specs.declared.limit.TheConstants.{MOST_NODES};
ghost use Rattle.std.specs.Prelude.{◌≡◌, ◌^◌, ◌<◌, ◌≤◌, ◌+ℤ◌, ℕ, All, [], pos, if◌then◌else◌, length, unsigned_abs, slice_index_or, slice_set};
ghost use Rattle.emtp_elim.specs.Matrix.{item};
ghost use Rattle.emtp_rows.specs.declared.term.Term.{Term};
ghost use Rattle.emtp_case.specs.Sums.{sum_below, total};
ghost use Rattle.emtp_fix.specs.declared.limit.TheConstants.{LARGEST_ENTRY, PICO};
ghost use Rattle.emtp_rows.specs.Nodal.{is_member, is_tie_to, kind_at};
ghost use Rattle.emtp_rows.specs.held.Terms.{amount_of, in_column, IsTerm, IsSmall, AreRowTerms, filled_entry, AmountIsThere};
ghost use Rattle.emtp_case.specs.held.RowKinds.{TieIsThere};

use crate::term::{Amount, Term};
use emtp_case::{Items, RowKind};
use emtp_fix::PICO;

/// Fills `out` with row `i`.
pub(crate) fn fill_row(
    rows: &[Items<Term>],
    own: &[i64],
    coupling: &[i64],
    kinds: &[RowKind],
    i: usize,
    out: &mut [i128],
)
    requires row { i < length rows.now }
    requires few { length rows.now ≤ MOST_NODES }
    requires kinds { length kinds.now ≡ length rows.now }
    requires ties { All (TieIsThere (length rows.now)) kinds.now }
    requires out { length out.old ≡ length rows.now }
    requires terms { AreRowTerms (length rows.now) (length own.now) (length coupling.now) rows.now }
    requires own { All IsSmall own.now }
    requires coupling { All IsSmall coupling.now }
    ensures { (j : ℕ) → j < length out.old
        → item out.new j ≡ filled_entry rows.now own.now coupling.now kinds.now i j (kind_at kinds.now i) }
{
    out.fill(0);
    match kinds[i] {
        RowKind::Kcl => add_terms(rows[i].as_slice(), own, coupling, out),
        RowKind::Sum => add_group(rows, own, coupling, kinds, i, out),
        RowKind::Tie(row) => {
            add_to(out, i, PICO);
            add_to(out, row as usize, -PICO);
        }
        RowKind::Ground | RowKind::Source => add_to(out, i, PICO),
    }
}

/// Adds the terms of each row of a group.
fn add_group(
    rows: &[Items<Term>],
    own: &[i64],
    coupling: &[i64],
    kinds: &[RowKind],
    i: usize,
    out: &mut [i128],
)
    requires few { length rows.now ≤ MOST_NODES }
    requires kinds { length kinds.now ≡ length rows.now }
    requires out { length out.old ≡ length rows.now }
    requires zeros { (j : ℕ) → j < length out.old → item out.old j ≡ pos 0 }
    requires terms { AreRowTerms (length rows.now) (length own.now) (length coupling.now) rows.now }
    requires own { All IsSmall own.now }
    requires coupling { All IsSmall coupling.now }
    ensures { (j : ℕ) → j < length out.old
        → item out.new j ≡ sum_below (length rows.now)
        (λ k. if is_member kinds.now i k
        then total (in_column own.now coupling.now j) (slice_index_or rows.now k []) else pos 0) }
{
    for k in 0..rows.len() {
        add_member(
            rows[k].as_slice(),
            own,
            coupling,
            is_member(kinds, i, k),
            out,
        );
    }
}

/// Adds the terms of a row, where it is one of the group.
fn add_member(terms: &[Term], own: &[i64], coupling: &[i64], is_member: bool, out: &mut [i128])
    requires few { length terms.now ≤ 15000 }
    requires terms { All (IsTerm (length out.old) (length own.now) (length coupling.now)) terms.now }
    requires own { All IsSmall own.now }
    requires coupling { All IsSmall coupling.now }
    requires out { (j : ℕ) → j < length out.old → unsigned_abs (item out.old j) ≤ 10 ^ 30 }
    ensures { (j : ℕ) → j < length out.old
        → item out.new j ≡ item out.old j
        +ℤ (if is_member then total (in_column own.now coupling.now j) terms.now else pos 0) }
{
    if is_member {
        add_terms(terms, own, coupling, out);
    }
}

fn is_member(kinds: &[RowKind], i: usize, k: usize) -> bool
    requires { k < length kinds.now }
    ensures { result ≡ is_member kinds.now i k }
{
    k == i || is_tie_to(i, kinds[k])
}

fn is_tie_to(i: usize, kind: RowKind) -> bool
    ensures { result ≡ is_tie_to i kind }
{
    match kind {
        RowKind::Tie(row) => row as usize == i,
        RowKind::Kcl | RowKind::Sum | RowKind::Ground | RowKind::Source => false,
    }
}

/// Adds the terms of a row, each in its column.
fn add_terms(terms: &[Term], own: &[i64], coupling: &[i64], out: &mut [i128])
    requires few { length terms.now ≤ 15000 }
    requires terms { All (IsTerm (length out.old) (length own.now) (length coupling.now)) terms.now }
    requires own { All IsSmall own.now }
    requires coupling { All IsSmall coupling.now }
    requires out { (j : ℕ) → j < length out.old → unsigned_abs (item out.old j) ≤ 10 ^ 30 }
    ensures { (j : ℕ) → j < length out.old
        → item out.new j ≡ item out.old j +ℤ total (in_column own.now coupling.now j) terms.now }
{
    for term in terms {
        add_to(
            out,
            term.column as usize,
            amount_of(own, coupling, term.amount),
        );
    }
}

/// The number of a term.
fn amount_of(own: &[i64], coupling: &[i64], amount: Amount) -> i128
    requires there { AmountIsThere (length own.now) (length coupling.now) amount }
    requires own { All IsSmall own.now }
    requires coupling { All IsSmall coupling.now }
    ensures value { result ≡ amount_of own.now coupling.now amount }
    ensures small { unsigned_abs result ≤ LARGEST_ENTRY }
{
    match amount {
        Amount::Own(b) => own[b as usize] as i128,
        Amount::Turned(b) => -(own[b as usize] as i128),
        Amount::Mutual(t) => coupling[t as usize] as i128,
    }
}

/// Adds an amount to an entry of a row.
fn add_to(out: &mut [i128], at: usize, amount: i128)
    requires place { at < length out.old }
    requires entry { unsigned_abs (item out.old at) ≤ 10 ^ 31 }
    requires amount { unsigned_abs amount ≤ 10 ^ 18 }
    ensures { out.new ≡ slice_set out.old at (item out.old at +ℤ amount) }
{
    out[at] += amount;
}
