//! The files of the outside, behind one trait.
//!
//! [`Cabinet`] opens and reads named files and makes four outputs. Its clauses say what each call reads
//! and writes, which call made which output, and that each refusal has its cause in a count. [`read_all`] and [`write_all`] go over a
//! whole file and over whole texts. [`DiskCabinet`] works on real files; [`MemoryCabinet`] keeps all in
//! memory, and fails where it is told to. It stands on std alone.
//!
//! ```text
//! cabinet.open("divider.case")?;
//! let bytes = read_all(alloc, cabinet, 9_000_001)?;
//! cabinet.create(Output::Note, "")?;
//! write_all(cabinet, Output::Note, b"USAGE")?;
//! ```
#![tactic(auto)]

mod buffer;
mod cabinet;
mod calls;
mod count;
mod disk;
mod files;
mod memory;
mod turns;
mod whole;

pub use cabinet::{Cabinet, Failed, Output};
pub use calls::{Failing, Op};
pub use disk::DiskCabinet;
pub use memory::MemoryCabinet;
pub use whole::{ReadEnd, read_all, write_all};
