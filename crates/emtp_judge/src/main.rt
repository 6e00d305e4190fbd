//! The program that tells what the run of a case is worth: the words of its command line, over the real files.
//!
//! ```text
//! emtp_judge breaker.case
//! emtp_judge --samples divider.case
//! ```
//!
//! It reads the cards of a case and runs it, and writes the note of the run with what the run is worth or with all digits of its
//! samples, or which card is refused, to standard output. The exit status is the number of the [`Status`], as that of `emtp`. It
//! stands on `emtp_assess` for all that, and on `emtp_io` for the files.
#![tactic(auto)]

use emtp_assess::assess;
use emtp_io::DiskCabinet;
use emtp_run::Status;
use std::alloc::{AllocError, Global};
use std::env;
use std::io::ErrorKind;
use std::process::ExitCode;
use std::rt::Env;

/// The words after the program's name; none where the environment refuses them for another cause than memory.
fn words(rt: &(impl Env + AllocGlobal)) -> Result<Vec<String>, AllocError> {
    let alloc = rt.alloc();
    match env::args(rt) {
        Ok(args) => {
            let mut words = Vec::new(alloc);
            for word in args.skip(1) {
                words.push(word)?;
            }
            Ok(words)
        }
        Err(error) if error.kind() == ErrorKind::OutOfMemory => Err(AllocError),
        Err(_) => Ok(Vec::new(alloc)),
    }
}

fn main(rt: HostRuntime) -> ExitCode {
    let alloc = rt.alloc();
    match words(&rt) {
        Ok(words) => {
            let mut cabinet = DiskCabinet::new(rt);
            ExitCode::from(assess(alloc, &words, &mut cabinet).code())
        }
        Err(_) => ExitCode::from(Status::NoMemory.code()),
    }
}
