//! How a call of the program ends.
ghost use Rattle.std.specs.Prelude.{◌≡◌};
ghost use Rattle.emtp_run.specs.Status.{exit_code};

/// How a call of the program ends, with the number that it exits with.
#[derive(Clone, Copy, Debug, PartialEq, Eq)]
pub enum Status {
    /// The run came to its last step, or the tool to its end; all that it makes is whole.
    Done = 0,
    /// The words don't fit.
    Usage = 1,
    /// A card of the case is refused, and the note names it.
    BadCard = 2,
    /// The run ended early, and the note names step, cause and node. The record holds the samples before.
    Ended = 3,
    /// A file couldn't be opened or read, and nothing was created.
    ReadFault = 4,
    /// An output couldn't be created or written. It wasn't created, or holds the first of its bytes; those before it are
    /// whole, and those after it weren't created.
    WriteFault = 5,
    /// There was not enough memory, and nothing was created.
    NoMemory = 6,
    /// A card of the case is one that the tool can't take, and the note names it.
    Refused = 7,
    /// The files of a record aren't those of the case, and the note names the first field that differs.
    Differs = 8,
    /// A row of a table of switch times is refused, and the note names its line and item.
    BadRow = 9,
}

impl Status {
    /// The number that the program exits with.
    pub fn code(self) -> u8
        ensures { result ≡ exit_code self }
    {
        self as u8
    }
}
