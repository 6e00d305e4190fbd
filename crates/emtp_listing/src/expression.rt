//! The text of an expression as a formula has it, with all its parentheses.

ghost use Rattle.std.specs.Char.{is_ascii_alphanumeric};
ghost use Rattle.std.specs.List.{list_all};
ghost use Rattle.std.specs.Prelude.{◌≡◌, ◌<◌, [], ◌∷◌, All, IfOk, List, MatchOption, OnOk, length, ℕ};
ghost use Rattle.emtp_case.specs.held.Control.{IsFormula};
ghost use Rattle.emtp_case.specs.held.Expr.{FitsPlaces};
ghost use Rattle.emtp_case.specs.held.Sizes.{sizes_of};
ghost use Rattle.emtp_listing.specs.ExpressionText.{binary_after, binary_text, binary_word, expression_text, is_new, is_plain, opening, texts_after, texts_of, unary_after, unary_text, variable_text};

use emtp_case::{BinaryOp, Formula, Node, Parts, UnaryOp};
use emtp_text::{put, put_fixed, put_number};
use std::alloc::{AllocError, Global};
use std::marker::Model;

/// Texts of expressions that aren't yet part of another one, which contracts see as a list, the newest first.
#[derive(Drop)]
struct Texts {
    vec: Vec<Vec<u8>>,
}

impl Model for Texts {
    ghost use Rattle.std.specs.Prelude.{List, map, reverse, ℕ};
    ghost use Rattle.std.specs.Global.{Vec};

    ghost Value = { List (List ℕ) };

    ghost view = { λ s. reverse (map (λ (text : Vec ℕ). text.items) s.vec.items) };
}

impl Texts {
    /// No text.
    fn new(alloc: Global) -> Texts
        ensures { result ≡ [] }
    {
        Texts {
            vec: Vec::new(alloc),
        }
    }

    /// Puts a text on top.
    fn push(&mut self, text: Vec<u8>) -> Result<(), AllocError>
        ensures { OnOk result (self.new ≡ text.items ∷ self.old) }
    {
        self.vec.push(text)?;
        Ok(())
    }

    /// Takes the text on top.
    fn pop(&mut self) -> Option<Vec<u8>>
        ensures { MatchOption result ((self.old ≡ []) × (self.new ≡ [])) (λ text. self.old ≡ text.items ∷ self.new) }
    {
        self.vec.pop()
    }
}

/// The text of a formula's expression: each operator with its two sides in parentheses, variables by their names.
pub(crate) fn expression_text(
    alloc: Global,
    parts: &Parts,
    formula: &Formula,
) -> Result<Vec<u8>, AllocError>
    requires { IsFormula (sizes_of parts.now) formula.now }
    ensures { IfOk result (λ text. text.items ≡ expression_text parts.now.vars formula.now.vars formula.now.expr) }
{
    let mut texts = Texts::new(alloc);
    put_nodes(alloc, &mut texts, parts, formula)?;
    match texts.pop() {
        Some(text) => Ok(text),
        None => Ok(Vec::new(alloc)),
    }
}

/// Takes the nodes of an expression one after another.
fn put_nodes(
    alloc: Global,
    texts: &mut Texts,
    parts: &Parts,
    formula: &Formula,
) -> Result<(), AllocError>
    requires { IsFormula (sizes_of parts.now) formula.now }
    ensures { OnOk result (texts.new ≡ texts_of parts.now.vars formula.now.vars formula.now.expr texts.old) }
{
    for node in formula.expr.as_slice() {
        put_node(alloc, texts, parts, formula.vars.as_slice(), node)?;
    }
    Ok(())
}

/// Takes a node of an expression.
fn put_node(
    alloc: Global,
    texts: &mut Texts,
    parts: &Parts,
    vars: &[u32],
    node: &Node,
) -> Result<(), AllocError>
    requires vars { All (λ v. v < length parts.now.vars) vars.now }
    requires places { FitsPlaces (length vars.now) node.now }
    ensures { OnOk result (texts.new ≡ texts_after parts.now.vars vars.now node.now texts.old) }
{
    match node {
        Node::Number(x) => {
            let mut text = Vec::new(alloc);
            put_fixed(&mut text, *x, 9)?;
            texts.push(text)
        }
        Node::Var(at) => {
            let text = variable_text(alloc, parts, vars, *at)?;
            texts.push(text)
        }
        Node::Unary(op) => put_unary(alloc, texts, *op),
        Node::Binary(op) => put_binary(alloc, texts, *op),
    }
}

/// Puts an operator or a function around the text on top.
fn put_unary(alloc: Global, texts: &mut Texts, op: UnaryOp) -> Result<(), AllocError>
    ensures { OnOk result (texts.new ≡ unary_after op texts.old) }
{
    let Some(a) = texts.pop() else {
        return Ok(());
    };
    let text = unary_text(alloc, op, a.as_slice())?;
    texts.push(text)
}

/// Puts an operator between the two texts on top, of which the upper one is its right side.
fn put_binary(alloc: Global, texts: &mut Texts, op: BinaryOp) -> Result<(), AllocError>
    ensures { OnOk result (texts.new ≡ binary_after op texts.old) }
{
    let Some(b) = texts.pop() else {
        return Ok(());
    };
    let Some(a) = texts.pop() else {
        return texts.push(b);
    };
    let text = binary_text(alloc, op, a.as_slice(), b.as_slice())?;
    texts.push(text)
}

fn unary_text(alloc: Global, op: UnaryOp, a: &[u8]) -> Result<Vec<u8>, AllocError>
    ensures { IfOk result (λ text. text.items ≡ unary_text op a.now) }
{
    let mut text = Vec::new(alloc);
    put(&mut text, opening(op))?;
    put(&mut text, a)?;
    put(&mut text, b")")?;
    Ok(text)
}

fn binary_text(alloc: Global, op: BinaryOp, a: &[u8], b: &[u8]) -> Result<Vec<u8>, AllocError>
    ensures { IfOk result (λ text. text.items ≡ binary_text op a.now b.now) }
{
    let mut text = Vec::new(alloc);
    put(&mut text, b"(")?;
    put(&mut text, a)?;
    put(&mut text, b" ")?;
    put(&mut text, binary_word(op))?;
    put(&mut text, b" ")?;
    put(&mut text, b)?;
    put(&mut text, b")")?;
    Ok(text)
}

fn opening(op: UnaryOp) -> &'static [u8]
    ensures { result.now ≡ opening op }
{
    match op {
        UnaryOp::Minus => b"(-",
        UnaryOp::Not => b"(.NOT. ",
        UnaryOp::Abs => b"ABS(",
        UnaryOp::Sqrt => b"SQRT(",
        UnaryOp::Trunc => b"TRUNC(",
        UnaryOp::Sign => b"SIGN(",
    }
}

fn binary_word(op: BinaryOp) -> &'static [u8]
    ensures { result.now ≡ binary_word op }
{
    match op {
        BinaryOp::Add => b"+",
        BinaryOp::Sub => b"-",
        BinaryOp::Mul => b"*",
        BinaryOp::Div => b"/",
        BinaryOp::Gt => b".GT.",
        BinaryOp::Ge => b".GE.",
        BinaryOp::Lt => b".LT.",
        BinaryOp::Le => b".LE.",
        BinaryOp::Eq => b".EQ.",
        BinaryOp::Ne => b".NE.",
        BinaryOp::And => b".AND.",
        BinaryOp::Or => b".OR.",
    }
}

/// A variable of a formula, by its place among those that the formula lists: its name, or that place.
fn variable_text(alloc: Global, parts: &Parts, vars: &[u32], at: u32) -> Result<Vec<u8>, AllocError>
    requires vars { All (λ v. v < length parts.now.vars) vars.now }
    requires there { at < length vars.now }
    ensures { IfOk result (λ text. text.items ≡ variable_text parts.now.vars vars.now at) }
{
    let at = at as usize;
    let var = vars[at];
    let name = parts.vars.as_slice()[var as usize].as_slice();
    let mut text = Vec::new(alloc);
    if is_plain(name) && is_new(var, &vars[..at]) {
        put(&mut text, name)?;
    } else {
        put(&mut text, b"#")?;
        put_number(&mut text, at + 1)?;
    }
    Ok(text)
}

/// Whether a formula can have the name.
fn is_plain(name: &[u8]) -> bool
    ensures { result ≡ is_plain name.now }
{
    match name {
        [letter, others @ ..] => letter.is_ascii_alphabetic() && are_alphanumeric(others),
        [] => false,
    }
}

fn are_alphanumeric(text: &[u8]) -> bool
    ensures { result ≡ list_all is_ascii_alphanumeric text.now }
{
    text.iter().all(|byte| byte.is_ascii_alphanumeric())
}

/// Whether a variable isn't among these.
fn is_new(var: u32, vars: &[u32]) -> bool
    ensures { result ≡ is_new var vars.now }
{
    vars.iter().all(|other| *other != var)
}
