//! The tests of the audit: the files of a record beside the samples of a case, changed field by field.
//!
//! They stand here, above `emtp_audit`, because the gate proves a crate that has tests twice. The expected differences are
//! worked out by hand from the table of docs/tools.md.
#![tactic(auto)]

#[cfg(test)]
mod audit;
