//! The first difference of a record.
ghost use Rattle.std.specs.Prelude.{◌≡◌, ◌≤◌, length};
ghost use Rattle.emtp_audit.specs.Note.{difference_word, file_word};

/// Why a field differs.
#[derive(Clone, Copy, Debug, PartialEq, Eq)]
pub enum DifferCause {
    /// A line or field that isn't there.
    Missing,
    /// The first line or field too many.
    Extra,
    /// A number that isn't spelled so, or lies outside its range.
    NotNumber,
    /// Any other comparison that fails.
    Wrong,
    /// A file of too many bytes.
    Long,
}

impl DifferCause {
    /// The cause in capital letters, as a note tells it.
    pub fn word(self) -> &'static [u8]
        ensures word { result.now ≡ difference_word self }
        ensures short { length result.now ≤ 9 }
    {
        match self {
            DifferCause::Missing => b"MISSING",
            DifferCause::Extra => b"EXTRA",
            DifferCause::NotNumber => b"NOTNUMBER",
            DifferCause::Wrong => b"WRONG",
            DifferCause::Long => b"LONG",
        }
    }
}

/// The first difference of a record: whether it stands in the data, the line and the field, both from 1, and why. A line
/// that is missing or too many has field 1; a file that is too long has line 0 and field 0.
#[derive(Clone, Copy, Debug, PartialEq, Eq)]
pub struct Differs {
    pub dat: bool,
    pub line: u32,
    pub field: u32,
    pub cause: DifferCause,
}

impl Differs {
    /// The file, `CFG` or `DAT`, as a note tells it.
    pub fn file(&self) -> &'static [u8]
        ensures word { result.now ≡ file_word self.now.dat }
        ensures short { length result.now ≤ 3 }
    {
        if self.dat { b"DAT" } else { b"CFG" }
    }
}

/// Why no sameness was found.
#[derive(Clone, Copy, Debug, PartialEq, Eq)]
pub enum AuditFault {
    /// The record differs.
    Differs(Differs),
    /// The memory for the scales wasn't there.
    NoMemory,
}
