//! The cosine of sources: its table and its period. The functions do nothing: their clauses are proved.

ghost use Rattle.std.specs.Prelude.{◌≡◌, ◌≤◌, ◌+◌, ◌*◌, ◌^◌, ◌+ℤ◌, ◌*ℤ◌, ℕ, ℤ, pos, unsigned_abs};
ghost use Rattle.emtp_fix.specs.declared.limit.TheConstants.{TURN};
ghost use Rattle.emtp_laws_of_units.specs.CosineTable.{excess_of_squares, excess_of_sum};
ghost use Rattle.emtp_wave.specs.Cosine.{entry};
ghost use Rattle.emtp_wave.specs.Wave.{cosine_wave};

/// The table of a quarter turn is that of the cosine: at hundredths of a degree cos (a + b) is cos a cos b - sin a sin b as far as
/// the right angle, and cos^2 + sin^2 is 1, each within 6e-12, where the sine is the cosine of what is missing to a right angle.
pub fn cosine_table_adds_up()
    ensures sums { (j k : ℕ) → j + k ≤ 9000 → unsigned_abs (excess_of_sum j k (entry (j + k))) ≤ 6 * 10 ^ 12 }
    ensures squares { (j : ℕ) → j ≤ 9000 → unsigned_abs (excess_of_squares j) ≤ 6 * 10 ^ 12 }
{}

/// A cosine repeats after its period, to the last digit: where its frequency in uHz times a time in ps makes whole turns of 10^18,
/// it has the same value that time later.
pub fn cosine_repeats_after_its_period()
    ensures { (amplitude freq phase t later : ℤ) (k : ℕ) → freq *ℤ later ≡ pos (k * TURN)
        → cosine_wave amplitude freq phase (t +ℤ later) ≡ cosine_wave amplitude freq phase t }
{}
