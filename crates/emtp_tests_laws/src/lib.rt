//! The tests of the laws of branches and of what they stand on; one module a crate.
//!
//! A crate with tests is proved twice, with and without them. So they stand here, above the crates that they test, and
//! each of those is proved once. A test calls public items alone. Its expected values are worked out by hand or come
//! from another program, and never from the output of the code that it tests. The callers of the CALLING pages stand
//! here too, so that they are proved.
#![tactic(auto)]

#[cfg(test)]
mod case;
#[cfg(test)]
mod fixtures;
#[cfg(test)]
mod hist;
#[cfg(test)]
mod line;
#[cfg(test)]
mod lumped;
#[cfg(test)]
mod pseudo;
