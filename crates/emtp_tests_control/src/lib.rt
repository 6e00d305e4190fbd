//! The tests of the crates of the control, one module a crate.
//!
//! A crate with tests is proved twice, with and without them. So these stand above the crates that they test, and each of
//! those is proved once. A test calls public items alone. Its expected values are worked out by hand or come from another
//! program, and never from the output of the code that it tests. The callers of the CALLING pages stand here too, so that
//! they are proved.
#![tactic(auto)]

#[cfg(test)]
mod blocks;
#[cfg(test)]
mod devices;
#[cfg(test)]
mod expr;
#[cfg(test)]
mod tacs;
