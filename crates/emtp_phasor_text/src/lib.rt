//! The texts of steady states and scans.
//!
//! [`steady_report`] and [`scan_report`] solve a case and tell the answer: the summary of a steady state or of a scan with
//! its resonances, the card that is refused, or how the solution ended. Each text is made whole in memory. The crate stands
//! on `emtp_phasor`, whose answers it tells, and on `emtp_text`, which puts pieces after a text.
//!
//! ```text
//! match steady_report(alloc, &case, None)? {
//!     Report::Summary(text) => ..     PHASOR F 60 RESIDUAL 0, and a line a node
//!     Report::Refused(note) => ..     REFUSED LINE 5 REASON 38 Impedance
//!     Report::Ended(note) => ..       PHASOR ENDED ZEROPIVOT B
//! }
//! ```
#![tactic(auto)]

mod report;
mod texts;

pub use report::{Report, scan_report, steady_report};
