//! The expressions of formulas, in postfix order. Parentheses and a leading `+` make no node.

/// A node of an expression. An expression is the list of its nodes in postfix order: an operator stands after what
/// it works on, so `A + B*2.` is A, B, 2, `*`, `+`. Such a list is read from left to right over a stack of values.
#[derive(Clone, Copy, PartialEq, Eq)]
pub enum Node {
    /// A number, in nano: from 0 to 10^18.
    Number(i64),
    /// The value of a variable, by its place among the formula's variables.
    Var(u32),
    /// An operator or a function of the value on top.
    Unary(UnaryOp),
    /// An operator between the two values on top; the upper one is its right side.
    Binary(BinaryOp),
}

/// The most values of an expression that wait at once: five at each of 17 levels of parentheses, and one.
pub const MOST_VALUES: usize = 86;

/// The operators and functions of one value.
#[derive(Clone, Copy, PartialEq, Eq)]
pub enum UnaryOp {
    /// The leading `-`.
    Minus,
    /// `.NOT.`
    Not,
    /// `ABS`
    Abs,
    /// `SQRT`
    Sqrt,
    /// `TRUNC`
    Trunc,
    /// `SIGN`
    Sign,
}

/// The operators between two values.
#[derive(Clone, Copy, PartialEq, Eq)]
pub enum BinaryOp {
    /// `+`
    Add,
    /// `-`
    Sub,
    /// `*`
    Mul,
    /// `/`
    Div,
    /// `.GT.`
    Gt,
    /// `.GE.`
    Ge,
    /// `.LT.`
    Lt,
    /// `.LE.`
    Le,
    /// `.EQ.`
    Eq,
    /// `.NE.`
    Ne,
    /// `.AND.`
    And,
    /// `.OR.`
    Or,
}
