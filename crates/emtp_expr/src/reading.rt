//! Words read from left to right: what waits, and what may come next.

ghost use Rattle.std.specs.Prelude.{◌≡◌, ◌+◌, ◌≤◌, ◌++◌, ◌<◌, length, Some, None, OnOk, if◌then◌else◌};
ghost use Rattle.std.specs.Str.{bytes_eq};
ghost use Rattle.indexmap.specs.IndexSet.{insert_key};
ghost use Rattle.emtp_expr.specs.Expects.{wants_value};
ghost use Rattle.emtp_expr.specs.Pending.{emitted, relation_waits, settle};
ghost use Rattle.emtp_card.specs.declared.cards.TheConstants.{MAX_BYTES};
ghost use Rattle.emtp_expr.specs.Reading.{closed, names_after, opened, place_in, settled, start, take_close, take_next, take_not, take_open, take_operator, with_operator, with_pending, with_sign, with_value};
ghost use Rattle.emtp_expr.specs.held.Reading.{IfTaken, Takes};

use crate::expects::{Expects, right_side};
use crate::pending::{Pending, rank};
use crate::stack::Stack;
use crate::words::Word;
use emtp_case::{BinaryOp, Items, Name, Node, UnaryOp};
use indexmap::IndexSet;
use std::alloc::{AllocError, Global};

/// Words that have been read.
#[derive(Drop)]
pub(crate) struct Reading {
    /// The nodes so far, in postfix order.
    pub(crate) nodes: Items<Node>,
    /// What waits, the newest first.
    pub(crate) pending: Stack<Pending>,
    /// How many parentheses are open, with those that functions wait for.
    pub(crate) depth: u32,
    /// What may come next.
    pub(crate) expects: Expects,
}

impl Reading {
    /// Nothing has been read.
    pub(crate) fn new(alloc: Global) -> Reading
        ensures { result ≡ start }
    {
        Reading {
            nodes: Items::new(alloc),
            pending: Stack::new(alloc),
            depth: 0,
            expects: Expects::Condition(0),
        }
    }
}

/// Puts what waited after what it works on.
fn emit(nodes: &mut Items<Node>, pending: &Pending) -> Result<(), AllocError>
    ensures { OnOk result (nodes.new ≡ nodes.old ++ emitted pending.now) }
{
    match pending.node() {
        Some(node) => {
            nodes.push(node)?;
            Ok(())
        }
        None => Ok(()),
    }
}

/// Ends all that binds at least so tightly.
#[tactic(auto, unfolding(crate::specs::Pending::settle))]
fn settle(
    least: u32,
    pending: &mut Stack<Pending>,
    nodes: &mut Items<Node>,
) -> Result<(), AllocError>
    ensures { OnOk result ((pending.new, nodes.new) ≡ settle least pending.old nodes.old) }
{
    while let Some(top) = pending.top() {
        if top.rank() < least {
            return Ok(());
        }
        pending.pop();
        emit(nodes, &top)?;
    }
    Ok(())
}

impl Reading {
    /// Whether a relation waits on top.
    fn relation_waits(&self) -> bool
        ensures { result ≡ relation_waits self.now.pending }
    {
        match self.pending.top() {
            Some(top) => top.rank() == 4,
            None => false,
        }
    }

    /// Ends all that binds at least so tightly.
    pub(crate) fn settle(&mut self, least: u32) -> Result<(), AllocError>
        ensures { OnOk result (self.new ≡ settled self.old least) }
    {
        settle(least, &mut self.pending, &mut self.nodes)
    }

    /// Puts what waits on top.
    fn wait(&mut self, pending: Pending, next: Expects) -> Result<bool, AllocError>
        ensures { Takes result self.new (Some (with_pending self.old pending next)) }
    {
        self.pending.push(pending)?;
        self.expects = next;
        Ok(true)
    }

    /// Takes a value.
    fn take_value(&mut self, node: Node) -> Result<bool, AllocError>
        ensures { Takes result self.new (Some (with_value self.old node)) }
    {
        self.nodes.push(node)?;
        self.expects = Expects::Operator;
        Ok(true)
    }

    /// Takes an operator between two values.
    #[tactic(auto, unfolding(crate::specs::Reading::with_operator))]
    fn with_operator(&mut self, op: BinaryOp) -> Result<bool, AllocError>
        ensures { Takes result self.new (with_operator self.old op) }
    {
        let rank = rank(op);
        if rank != 4 {
            self.settle(rank)?;
            return self.wait(Pending::Binary(op), right_side(rank));
        }
        self.settle(5)?;
        if self.relation_waits() {
            Ok(false)
        } else {
            self.wait(Pending::Binary(op), Expects::Sum)
        }
    }

    /// Takes a leading sign.
    fn take_sign(&mut self, op: BinaryOp) -> Result<bool, AllocError>
        ensures { Takes result self.new (with_sign self.old op) }
    {
        match op {
            BinaryOp::Add => self.wait(Pending::Sign { minus: false }, Expects::Factor),
            BinaryOp::Sub => self.wait(Pending::Sign { minus: true }, Expects::Factor),
            _ => Ok(false),
        }
    }

    fn take_operator(&mut self, op: BinaryOp) -> Result<bool, AllocError>
        ensures { Takes result self.new (take_operator self.old op) }
    {
        if self.expects.wants_operator() {
            self.with_operator(op)
        } else if self.expects.takes_sign() {
            self.take_sign(op)
        } else {
            Ok(false)
        }
    }

    /// Begins a parenthesis, or a function whose parenthesis is due.
    fn begin(&mut self, function: Option<UnaryOp>, next: Expects) -> Result<bool, AllocError>
        ensures { Takes result self.new (opened self.old function next) }
    {
        if !self.expects.wants_value() || self.depth >= 16 {
            return Ok(false);
        }
        self.depth += 1;
        self.wait(Pending::Group(function), next)
    }

    fn take_open(&mut self) -> Result<bool, AllocError>
        ensures { Takes result self.new (take_open self.old self.old.expects) }
    {
        match self.expects {
            Expects::Argument => {
                self.expects = Expects::Condition(0);
                Ok(true)
            }
            Expects::Condition(_) => self.begin(None, Expects::Condition(0)),
            Expects::Sum => self.begin(None, Expects::Condition(0)),
            Expects::Factor => self.begin(None, Expects::Condition(0)),
            Expects::Operator => Ok(false),
        }
    }

    fn take_not(&mut self) -> Result<bool, AllocError>
        ensures { Takes result self.new (take_not self.old self.old.expects) }
    {
        match self.expects {
            Expects::Condition(row) => {
                if row < 16 {
                    self.wait(Pending::Not, Expects::Condition(row + 1))
                } else {
                    Ok(false)
                }
            }
            Expects::Sum => Ok(false),
            Expects::Factor => Ok(false),
            Expects::Argument => Ok(false),
            Expects::Operator => Ok(false),
        }
    }

    /// Ends a parenthesis.
    #[tactic(auto, unfolding(crate::specs::Reading::take_close))]
    fn take_close(&mut self) -> Result<bool, AllocError>
        ensures { Takes result self.new (take_close self.old) }
    {
        if !self.expects.wants_operator() || self.depth == 0 {
            return Ok(false);
        }
        self.settle(1)?;
        self.end_group()?;
        Ok(true)
    }

    /// Ends the newest group.
    fn end_group(&mut self) -> Result<(), AllocError>
        requires { 0 < self.old.depth }
        ensures { OnOk result (self.new ≡ closed self.old self.old.pending) }
    {
        match self.pending.pop() {
            Some(top) => {
                emit(&mut self.nodes, &top)?;
                self.depth -= 1;
                self.expects = Expects::Operator;
                Ok(())
            }
            None => Ok(()),
        }
    }

    /// Takes the name of a variable.
    fn take_name(&mut self, names: &mut IndexSet<Name>, name: &Name) -> Result<bool, AllocError>
        requires { length names.old.keys ≤ MAX_BYTES }
        ensures value { Takes result self.new
            (if wants_value self.old.expects
            then Some (with_value self.old (Node.Var (place_in names.old.keys name.now))) else None) }
        ensures names { IfTaken result (names.new.keys ≡ insert_key bytes_eq names.old.keys name.now) }
    {
        if !self.expects.wants_value() {
            return Ok(false);
        }
        let (place, _) = names.insert_full(*name)?;
        self.take_value(Node::Var(place as u32))
    }

    /// Takes the next word; tells whether an expression goes on so.
    #[tactic(auto, unfolding(crate::specs::Reading::take_next))]
    pub(crate) fn take(
        &mut self,
        names: &mut IndexSet<Name>,
        word: &Word,
    ) -> Result<bool, AllocError>
        requires { length names.old.keys ≤ MAX_BYTES }
        ensures value { Takes result self.new (take_next names.old.keys self.old word.now) }
        ensures names { IfTaken result (names.new.keys ≡ names_after names.old.keys word.now) }
    {
        match word {
            Word::Number(x) => {
                if self.expects.wants_value() {
                    self.take_value(Node::Number(*x))
                } else {
                    Ok(false)
                }
            }
            Word::Name(name) => self.take_name(names, name),
            Word::Function(function) => self.begin(Some(*function), Expects::Argument),
            Word::Operator(op) => self.take_operator(*op),
            Word::Not => self.take_not(),
            Word::Open => self.take_open(),
            Word::Close => self.take_close(),
            Word::Nothing => Ok(false),
        }
    }
}
