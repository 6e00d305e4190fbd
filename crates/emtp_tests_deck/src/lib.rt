//! The test of the deck: what order the rows of a case have. A caller that has the clauses of `read` stands here too.
//!
//! A crate with tests is proved twice, with and without them. So these stand above the crates that they test. A test
//! calls public items alone. Its expected values are worked out by hand or come from another program, and never from
//! the output of the code that it tests.
#![tactic(auto)]

#[cfg(test)]
mod calling;
#[cfg(test)]
mod rows;
