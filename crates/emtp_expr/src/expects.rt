//! What may come next while an expression is read.

ghost use Rattle.std.specs.Prelude.{◌≡◌};
ghost use Rattle.emtp_expr.specs.Expects.{right_side, takes_sign, wants_operator, wants_value};

/// What may come next.
#[derive(Clone, Copy)]
pub(crate) enum Expects {
    /// A condition, after so many `.NOT.` in a row.
    Condition(u32),
    /// A sum, which may have a sign.
    Sum,
    /// A factor.
    Factor,
    /// The parenthesis of a function.
    Argument,
    /// An operator, or the end of a parenthesis or of all.
    Operator,
}

impl Expects {
    /// Whether a value may begin.
    pub(crate) fn wants_value(self) -> bool
        ensures { result ≡ wants_value self }
    {
        match self {
            Expects::Condition(_) | Expects::Sum | Expects::Factor => true,
            Expects::Argument | Expects::Operator => false,
        }
    }

    /// Whether a sign may stand.
    pub(crate) fn takes_sign(self) -> bool
        ensures { result ≡ takes_sign self }
    {
        match self {
            Expects::Condition(_) | Expects::Sum => true,
            Expects::Factor | Expects::Argument | Expects::Operator => false,
        }
    }

    /// Whether an operator or an end may stand.
    pub(crate) fn wants_operator(self) -> bool
        ensures { result ≡ wants_operator self }
    {
        match self {
            Expects::Operator => true,
            Expects::Condition(_) | Expects::Sum | Expects::Factor | Expects::Argument => false,
        }
    }
}

/// What an operator expects on its right, by how tightly it binds.
pub(crate) fn right_side(rank: u32) -> Expects
    ensures { result ≡ right_side rank }
{
    if rank < 3 {
        Expects::Condition(0)
    } else if rank < 5 {
        Expects::Sum
    } else {
        Expects::Factor
    }
}
