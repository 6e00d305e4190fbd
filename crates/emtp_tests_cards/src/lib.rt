//! The tests of emtp_card: tables of lines, fields and numbers. The answers are those of an independent program,
//! and of the rules by hand.
//!
//! A crate with tests is proved twice, with and without them. So these stand above the crate that they test. A test calls
//! public items alone, and no expected value comes from the output of the code that it tests.
#![tactic(auto)]

#[cfg(test)]
mod fields;
#[cfg(test)]
mod lines;
#[cfg(test)]
mod numbers;
