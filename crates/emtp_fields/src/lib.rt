//! The fields of a case's lines: what stands where, and by what name.
//!
//! An editor that colours columns, names the field under a cursor or offers a ruler needs no rule of the cards of its own.
//! [`put_lines`] writes of each line its number, as what it is read and the names of its fields, and below it each field: its
//! columns, its name, what stands there and, of a number, its unit, its range and what it is read as. [`put_refused`] writes
//! which field a refusal means. The columns are those of the rulers of `emtp_warnings`, of which it is proved that a card's
//! reader reads no others; the names are those of `emtp_causes`; the numbers are those of `emtp_netcards` and
//! `emtp_taccards`. Besides it stands on the lines of `emtp_card`, on as what `emtp_walk` reads each, and on `emtp_text`.
//!
//! ```text
//! put_lines(&mut text, &cards, &readings)?;
//!     5<TAB>a branch card<TAB>TYBUS1--BUS2--BUS3--BUS4--R-----L-----C-----                                   A
//!     <TAB>3-8<TAB>BUS1<TAB>SRC<TAB><TAB><TAB>
//!     <TAB>27-32<TAB>R<TAB>1.0<TAB>ohm<TAB>0 to 1000000000<TAB>1
//! ```
//!
//! - `lines`: the lines of a case
//! - `fields`: the fields of a line
//! - `measure`, `measures`, `numbers`: what the number of a field is, and of which field
//! - `refused`: the field that a refusal means
#![tactic(auto)]

mod fields;
mod lines;
mod measure;
mod measures;
mod numbers;
mod refused;

pub use lines::put_lines;
pub use refused::put_refused;
