// A matrix that is given row by row.
ghost use Rattle.std.specs.Prelude.{◌≡◌, ℕ, ◌<◌, length};
ghost use Rattle.emtp_elim.specs.Matrix.{Matrix, row_of};
ghost use Rattle.emtp_elim.specs.held.Rows.{IsLawful};

/// A square matrix of at most `MOST_ROWS` rows, given row by row, in units of 1e-12.
///
/// An unchanged value always gives the same rows. No entry exceeds 1e26 in magnitude.
pub trait Rows {
    /// The rows, from the first one on.
    ghost matrix: { Self → Matrix };

    /// How many rows are fixed.
    ghost fixed: { Self → ℕ };

    /// How many rows and columns there are.
    fn size(&self) -> usize
        ensures size { result ≡ length (matrix self.now) }
        ensures law { IsLawful (matrix self.now) (fixed self.now) };

    /// How many rows, from the first on, have 1e12 in their own column and 0 elsewhere.
    fn fixed(&self) -> usize
        ensures { result ≡ fixed self.now };

    /// Fills `out` with row `i`.
    fn row(&self, i: usize, out: &mut [i128])
        requires index { i < length (matrix self.now) }
        requires size { length out.old ≡ length (matrix self.now) }
        ensures { out.new ≡ row_of (matrix self.now) i };
}
