//! A matrix by its numbers, for the tests.
ghost use Rattle.std.specs.Prelude.{◌≡◌, ◌*◌, ◌+◌, ◌^◌, ◌<◌, ◌≤◌, length, slice_range, vec_len, IfOk};
ghost use Rattle.emtp_elim.specs.held.Matrix.{AreWithin};
ghost use Rattle.emtp_tests_numbers.specs.Tables.{unit_row, table_rows};

use emtp_elim::Rows;
use std::alloc::{AllocError, Global};

/// 1 S in pS.
pub const P: i64 = 1_000_000_000_000;

/// A matrix by its rows, one after another, of which the first ones are unit rows whatever stands there.
#[derive(Drop)]
pub struct Table {
    pub size: usize,
    pub fixed: usize,
    pub cells: Vec<i128>,
    ghost few: { size ≤ 1000 },
    ghost fixed_first: { fixed ≤ size },
    ghost square: { vec_len cells ≡ size * size },
    ghost limit: { AreWithin (10 ^ 26) cells.items },
}

impl Rows for Table {
    ghost matrix = { λ t. table_rows t.size t.fixed t.cells.items };

    ghost fixed = { λ t. t.fixed };

    fn size(&self) -> usize {
        self.size
    }

    fn fixed(&self) -> usize {
        self.fixed
    }

    fn row(&self, i: usize, out: &mut [i128]) {
        fill_row(self.size, self.fixed, &self.cells, i, out);
    }
}

fn fill_row(size: usize, fixed: usize, cells: &[i128], i: usize, out: &mut [i128])
    requires few { size ≤ 1000 }
    requires index { i < size }
    requires cells { length cells.now ≡ size * size }
    requires out { length out.old ≡ size }
    ensures fixed { i < fixed → out.new ≡ unit_row size i }
    ensures given { fixed ≤ i → out.new ≡ slice_range cells.now (i * size) (i * size + size) }
{
    if i < fixed {
        out.fill(0);
        out[i] = i128::from(P);
    } else {
        let at = i * size;
        out.copy_from_slice(&cells[at..at + size]);
    }
}

/// The table of these numbers, row after row.
pub fn filled(alloc: Global, size: usize, fixed: usize, cells: &[i64]) -> Result<Table, AllocError>
    requires few { size ≤ 1000 }
    requires fixed { fixed ≤ size }
    requires cells { length cells.now ≡ size * size }
    ensures { IfOk result (λ table. table.size ≡ size) }
{
    let mut wide = Vec::new(alloc);
    for cell in cells {
        wide.push(i128::from(*cell))?;
    }
    Ok(Table {
        size,
        fixed,
        cells: wide,
    })
}
