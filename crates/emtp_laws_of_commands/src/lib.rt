//! How the commands fit together: what one of them makes, another one reads, over the bytes of files.
//!
//! Each law is a function that does nothing: its clauses are proved, and say what holds of the words of a command line and of all
//! files. No program calls them. They are stated over `outcome`, the table of what the program writes and answers (`emtp_run`), so
//! this crate stands above it, and nothing stands on it. To use a law in a proof, call it:
//!
//! ```text
//! own_record_is_audited_as_the_same();
//! // now `audit` over the files that `run` makes of a case is known to say AUDIT SAME
//! ```
//!
//! Beside the laws stand worked runs (`proofs/Worked*.antt`): of a folder of `examples/` or `cases/` each byte that is written,
//! by computation from the bytes of its case. `cases/scripts/worked` writes these files and compares them with the folders. And
//! of each relation in which the clauses of `emtp` speak stand states that it refuses (`proofs/Refused*.antt`): a byte wrong,
//! two files exchanged, a call too many, a failure that is not counted.
#![tactic(auto)]

mod records;
mod rows;

pub use records::{data_file_tells_records_that_balance, own_record_is_audited_as_the_same};
pub use rows::{row_is_the_run_of_its_case, row_is_the_run_of_the_cards_with_its_times};
