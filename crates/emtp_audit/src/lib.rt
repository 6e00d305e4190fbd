//! Is this the case's record: two files of a COMTRADE record (IEEE C37.111-1999, ASCII form) beside a case's samples.
//!
//! [`audit`] compares them field by field and answers the first difference ([`Differs`]), if there is one. Another
//! program may have written the record: numbers are compared as numbers, values and times by the scales and the unit
//! that the configuration tells, each to within one step. [`read_cfg`] compares the configuration and answers what it
//! says of the data ([`Cfg`]); [`read_dat`] compares the data in one pass, without memory. The crate stands on `emtp_card`
//! for lines and numbers, on `emtp_case` for the channels' names, on `emtp_machine` for the samples, and on
//! `emtp_comtrade` for the channels' units and counts, and for the time between two samples.
//!
//! ```text
//! match audit(alloc, &case, machine.samples(), cfg_bytes, dat_bytes) {
//!     Ok(()) => the files are the case's record,
//!     Err(AuditFault::Differs(d)) => line d.line, field d.field of the dat (d.dat) or of the cfg, by d.cause,
//!     Err(AuditFault::NoMemory) => nothing is known,
//! }
//! ```
#![tactic(auto)]

mod cfg;
mod cfg_lines;
mod check;
mod dat;
mod differs;
mod fields;
mod laws;
mod limit;
mod lines;
mod numbers;
mod record;
mod sample;
mod scale;
mod values;

pub use cfg::read_cfg;
pub use dat::read_dat;
pub use differs::{AuditFault, DifferCause, Differs};
pub use laws::{lines_are_pieces, numbers_read_back, own_record_is_the_same};
pub use limit::LARGEST_UNIT;
pub use record::audit;
pub use scale::{Cfg, Scale};
