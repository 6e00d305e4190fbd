//! The voltages by node.

ghost use Rattle.std.specs.Prelude.{◌≡◌, ◌+◌, length};
ghost use Rattle.emtp_case.specs.RowOrder.{order_of};
ghost use Rattle.emtp_net.specs.Part.{voltages_of};

use emtp_case::{Case, RowOrder};

/// The voltages by node, ground first, from the unknowns by row.
pub(crate) fn fill_voltages(case: &Case, order: &RowOrder, x: &[i64], out: &mut [i64])
    requires order { order.now ≡ order_of case.now.parts }
    requires x { length x.now ≡ length case.now.parts.nodes }
    requires out { length out.old ≡ length case.now.parts.nodes + 1 }
    ensures { out.new ≡ voltages_of case.now.parts x.now }
{
    out[0] = 0;
    for at in 0..x.len() {
        out[at + 1] = x[order.row_of(at as u32 + 1)];
    }
}
