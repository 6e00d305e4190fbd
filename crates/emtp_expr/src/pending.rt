//! What waits while an expression is read.

ghost use Rattle.std.specs.Prelude.{◌≡◌};
ghost use Rattle.emtp_expr.specs.Pending.{node_made, rank, rank_of};

use emtp_case::{BinaryOp, Node, UnaryOp};

/// What waits for its right side or its end.
#[derive(Clone, Copy)]
pub(crate) enum Pending {
    /// A parenthesis, with the function that it belongs to.
    Group(Option<UnaryOp>),
    /// An operator after its left side.
    Binary(BinaryOp),
    /// `.NOT.`
    Not,
    /// A leading sign.
    Sign {
        /// Whether it is `-`.
        minus: bool,
    },
}

/// How tightly an operator binds.
pub(crate) fn rank(op: BinaryOp) -> u32
    ensures { result ≡ rank_of op }
{
    match op {
        BinaryOp::Or => 1,
        BinaryOp::And => 2,
        BinaryOp::Gt | BinaryOp::Ge | BinaryOp::Lt | BinaryOp::Le | BinaryOp::Eq | BinaryOp::Ne =>
            4,
        BinaryOp::Add | BinaryOp::Sub => 5,
        BinaryOp::Mul | BinaryOp::Div => 6,
    }
}

impl Pending {
    /// How tightly it binds; a parenthesis not at all.
    pub(crate) fn rank(&self) -> u32
        ensures { result ≡ rank self.now }
    {
        match self {
            Pending::Group(_) => 0,
            Pending::Binary(op) => rank(*op),
            Pending::Not => 3,
            Pending::Sign { .. } => 5,
        }
    }

    /// The node that it becomes.
    pub(crate) fn node(&self) -> Option<Node>
        ensures { result ≡ node_made self.now }
    {
        match self {
            Pending::Group(None) => None,
            Pending::Group(Some(function)) => Some(Node::Unary(*function)),
            Pending::Binary(op) => Some(Node::Binary(*op)),
            Pending::Not => Some(Node::Unary(UnaryOp::Not)),
            Pending::Sign { minus: true } => Some(Node::Unary(UnaryOp::Minus)),
            Pending::Sign { minus: false } => None,
        }
    }
}
