//! The value of a formula.

ghost use Rattle.std.specs.Prelude.{◌≡◌, ◌≤◌, length, map};
ghost use Rattle.emtp_case.specs.held.Control.{AreKnown, IsFormula};
ghost use Rattle.emtp_case.specs.held.Sizes.{sizes_of};
ghost use Rattle.emtp_elim.specs.Matrix.{item};
ghost use Rattle.emtp_expr.specs.held.Value.{Evaluates};
ghost use Rattle.emtp_tacs.specs.Step.{formula_value};

use emtp_case::{Case, Formula};
use emtp_expr::eval;
use emtp_fix::OutOfRange;

/// The value of a formula, in nano, from what its names read; `names` is room for the values of its names.
pub(crate) fn formula_value(
    case: &Case,
    formula: &Formula,
    values: &[i64],
    names: &mut [i64],
) -> Result<i64, OutOfRange>
    requires formula { IsFormula (sizes_of case.now.parts) formula.now }
    requires values { AreKnown case.now.parts values.now }
    requires names { length formula.now.vars ≤ length names.old }
    ensures { Evaluates result (formula_value values.now formula.now) }
{
    let count = formula.vars.len();
    copy_values(case, formula, values, &mut names[..count]);
    eval(formula.expr.as_slice(), &names[..count])
}

/// Fills `out` with what the names of a formula read.
fn copy_values(case: &Case, formula: &Formula, values: &[i64], out: &mut [i64])
    requires formula { IsFormula (sizes_of case.now.parts) formula.now }
    requires values { AreKnown case.now.parts values.now }
    requires out { length out.old ≡ length formula.now.vars }
    ensures { out.new ≡ map (item values.now) formula.now.vars }
{
    let vars = formula.vars.as_slice();
    for at in 0..vars.len() {
        out[at] = values[vars[at] as usize];
    }
}
