//! Calls that are counted, and those that are told to fail.
ghost use Rattle.std.specs.Prelude.{◌≡◌};
ghost use Rattle.emtp_io.specs.held.Calls.{calls_of, counted, lists};

use crate::count::count_one;

/// A kind of call of a cabinet.
#[derive(Clone, Copy, Debug, PartialEq, Eq)]
pub enum Op {
    /// `open`
    Open,
    /// `read`
    Read,
    /// `create`
    Create,
    /// `write`
    Write,
}

/// A call that is told to fail.
#[derive(Clone, Copy, Debug, PartialEq, Eq)]
pub struct Failing {
    /// The kind of call.
    pub op: Op,
    /// Which call of that kind, counted from 1.
    pub nth: u32,
}

/// How often each kind of call was made. Each count stays at its last value once it has reached it.
#[derive(Clone, Copy, Debug, PartialEq, Eq)]
pub struct Calls {
    /// Calls of `open`.
    pub opens: u64,
    /// Calls of `read`.
    pub reads: u64,
    /// Calls of `create`.
    pub creates: u64,
    /// Calls of `write`.
    pub writes: u64,
}

impl Calls {
    /// Counts a call of this kind, and answers whether it is told to fail.
    pub fn next_fails(&mut self, op: Op, fails: &[Failing]) -> bool
        ensures calls { self.new ≡ counted self.old op }
        ensures listed { result ≡ lists fails.now op (calls_of self.new op) }
    {
        is_listed(fails, op, self.count(op))
    }

    /// Counts a call of this kind, and answers which one it is.
    fn count(&mut self, op: Op) -> u64
        ensures calls { self.new ≡ counted self.old op }
        ensures nth { result ≡ calls_of self.new op }
    {
        match op {
            Op::Open => count_one(&mut self.opens),
            Op::Read => count_one(&mut self.reads),
            Op::Create => count_one(&mut self.creates),
            Op::Write => count_one(&mut self.writes),
        }
    }
}

fn is_listed(fails: &[Failing], op: Op, nth: u64) -> bool
    ensures { result ≡ lists fails.now op nth }
{
    fails.iter().any(|failing| failing.op == op && u64::from(failing.nth) == nth)
}
