//! Which call made each output.
ghost use Rattle.std.specs.Prelude.{◌≡◌};
ghost use Rattle.emtp_io.specs.held.Cabinet.{with_turn};

use crate::Output;

/// Which of the calls of `create`, counted from 1, made each output; 0 where none did. Where an output was created more than
/// once, it is the last of those calls.
#[derive(Clone, Copy, Debug, PartialEq, Eq)]
pub struct Turns {
    /// Of the configuration file.
    pub cfg: u64,
    /// Of the data file.
    pub dat: u64,
    /// Of the note.
    pub note: u64,
    /// Of the summary.
    pub summary: u64,
}

impl Turns {
    /// No output was created.
    pub fn none() -> Turns
        ensures { result ≡ record { cfg = 0; dat = 0; note = 0; summary = 0 } }
    {
        Turns {
            cfg: 0,
            dat: 0,
            note: 0,
            summary: 0,
        }
    }

    /// Keeps which call made an output.
    pub fn put(&mut self, out: Output, call: u64)
        ensures { self.new ≡ with_turn self.old out call }
    {
        match out {
            Output::Cfg => self.cfg = call,
            Output::Dat => self.dat = call,
            Output::Note => self.note = call,
            Output::Summary => self.summary = call,
        }
    }
}
