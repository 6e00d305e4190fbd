//! The tests of the network's parts beside and above the laws of single branches: sources, switches and rows; one module a
//! crate.
//!
//! A crate with tests is proved twice, with and without them. So they stand here, above the crates that they test, and
//! each of those is proved once. A test calls public items alone. Its expected values are worked out by hand or come
//! from another program, and never from the output of the code that it tests. The callers of the CALLING pages stand
//! here too, so that they are proved.
#![tactic(auto)]

#[cfg(test)]
mod rows;
#[cfg(test)]
mod switch;
#[cfg(test)]
mod wave;
