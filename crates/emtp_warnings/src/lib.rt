//! Warnings: what of a case may have been read otherwise than it was meant.
//!
//! A case of fixed columns is read wherever it can be: a number that stands one column off is another number, and a
//! name that is misspelt another node. [`warnings`] lists what is seldom meant so, each warning with its line and its
//! columns where it has some, and [`warnings_text`] writes the list. A warning refuses nothing. The crate stands on the
//! lines of `emtp_card`, the card readers of `emtp_netcards` and `emtp_taccards`, as what `emtp_walk` reads a line, and the
//! records of `emtp_case`.
//!
//! ```text
//! let readings = line_readings(alloc, &cards)?;
//! let found = warnings(alloc, &cards, &readings, &case)?;
//! warnings_text(alloc, &cards, &readings, &found)?    "warning, line 39, columns 45-54, not read" is one of its lines
//! ```
//!
//! - `finding`: what a warning is
//! - `rulers`, `marked`: which columns of a line are read
//! - `columns`: the warnings of a line's columns
//! - `records`, `channels`: the warnings of a case
//! - `listed`: all warnings, in order
//! - `acting`, `arresters`: the warnings of series branches that act as others, and of arresters that waves come to
//! - `text`, `words`: their text
//! - `laws`: what is true of columns that no field has
#![tactic(auto)]

mod acting;
mod arresters;
mod channels;
mod columns;
mod finding;
mod laws;
mod listed;
mod marked;
mod records;
mod rulers;
mod text;
mod words;

pub use columns::last_of;
pub use finding::{Finding, Spot, Warning};
pub use laws::{
    unmarked_columns_of_the_control_dont_matter, unmarked_columns_of_the_network_dont_matter,
};
pub use listed::warnings;
pub use marked::field_ruler;
pub use text::warnings_text;
