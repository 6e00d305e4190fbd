//! The tests of the outside: whole calls over a cabinet that fails, and the words of a command line.
//!
//! The modules are named as the crates that they test: `comtrade`, `run` with its table `rows`, and `words` for the words
//! of a command line. They stand here, above those crates, because the gate proves a crate that has tests twice. A
//! test calls public items alone. Its expected values are worked out by hand or come from another program, and never come
//! from the output of the code that it tests. A row of the program that needs no such cabinet is a folder of `cases/`.
#![tactic(auto)]

#[cfg(test)]
mod comtrade;
#[cfg(test)]
mod rows;
#[cfg(test)]
mod run;
#[cfg(test)]
mod words;
