//! What the first changed row is, in the words of the subject. The function does nothing: its clauses are proved.

ghost use Rattle.std.specs.Prelude.{◌≡◌, ℕ, ◌≤◌, length, []};
ghost use Rattle.emtp_elim.specs.Matrix.{Matrix};
ghost use Rattle.emtp_tail.specs.Good.{first_change};
ghost use Rattle.emtp_tail.specs.held.Good.{IsFirstChange};

/// `first_change` is the least row that differs, of no rows 0 and of rows that don't change their number.
pub fn first_change_is_least()
    ensures none { (new : Matrix) → first_change [] new ≡ 0 }
    ensures same { (rows : Matrix) → first_change rows rows ≡ length rows }
    ensures least { (old new : Matrix) → length old ≤ length new → IsFirstChange old new (first_change old new) }
    ensures only { (old new : Matrix) (i : ℕ) → length old ≤ length new → IsFirstChange old new i → i ≡ first_change old new }
{}
