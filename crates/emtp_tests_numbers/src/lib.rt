//! The tests of the crates of numbers and matrices, one module a crate.
//!
//! A crate with tests is proved twice, with and without them. So they stand here, above the crates that they test, and
//! each of those is proved once. A test calls public items alone. Its expected values are worked out by hand or come
//! from another program, and never from the output of the code that it tests. The callers of the CALLING pages stand
//! here too, so that they are proved.
#![tactic(auto)]

#[cfg(test)]
mod elim;
#[cfg(test)]
mod fix;
#[cfg(test)]
mod table;
#[cfg(test)]
mod tail;
