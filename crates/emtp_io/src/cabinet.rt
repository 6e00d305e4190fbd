//! The one trait of the outside.
ghost use Rattle.std.specs.Prelude.{◌≡◌, ◌<◌, ◌≤◌, [], Some, length, take, IsTrue, IsSome, IsOk, OnOk, OnErr, IfOk};
ghost use Rattle.emtp_io.specs.Cabinet.{CabinetState, output, with_output, appended, one_more, put_back, IsAtEnd, HasRoom, IsCreatedBy, IsInputCall, IsOutputCall};

/// A file could not be opened, read, created or written.
#[derive(Clone, Copy, Debug, PartialEq, Eq)]
pub struct Failed;

/// What a run makes.
#[derive(Clone, Copy, Debug, PartialEq, Eq)]
pub enum Output {
    /// The configuration file of a COMTRADE record (IEEE C37.111-1999).
    Cfg,
    /// The data file of a COMTRADE record, in ASCII form (IEEE C37.111-1999).
    Dat,
    /// One line on how the run ended, under the name `""`.
    Note,
    /// The summary of a tool, under the name `""`.
    Summary,
}

/// Files that are read, and four outputs that are written. This project's own.
///
/// Each call that fails raises one of two counts, and each call that works leaves both. After a failed
/// call the opened file, its read position and the outputs are as before. Calls of `open` and of `create`
/// are counted, failed ones too, and each output has its turn: which of the calls of `create` made it.
/// What a file or an output holds is known only where the cabinet tells it; a calm cabinet fails only as
/// the clauses named `calm` allow. A count that has reached its last value, 2 ^ 64 - 1, stays there.
pub trait Cabinet {
    /// What clauses see: its nature, what is unread of the opened file, the outputs, the counts and the
    /// outputs' turns.
    ghost state: { Self → CabinetState };

    /// Makes the named file the one that is read, from its first byte. It fails where the file isn't
    /// there.
    fn open(&mut self, name: &str) -> Result<(), Failed>
        ensures call { IsInputCall (state self.old) (state self.new) result }
        ensures counted { (state self.new).opens ≡ one_more (state self.old).opens }
        ensures err { OnErr result ((state self.new).unread ≡ (state self.old).unread) }
        ensures ok { IsTrue (state self.old).nature.tells → OnOk result
            ((state self.new).unread ≡ (state self.old).nature.files name.now) }
        ensures there { IsTrue (state self.old).nature.tells → OnOk result
            (IsSome ((state self.old).nature.files name.now)) }
        ensures calm { IsTrue (state self.old).nature.calm →
            IsSome ((state self.old).nature.files name.now) → IsOk result };

    /// Puts the next bytes of the opened file at the start of `buf`, and answers how many. It answers 0
    /// for a `buf` that isn't empty only at the end of the file. It fails before a file was opened.
    fn read(&mut self, buf: &mut [u8]) -> Result<usize, Failed>
        ensures call { IsInputCall (state self.old) (state self.new) result }
        ensures err { OnErr result ((state self.new).unread ≡ (state self.old).unread) }
        ensures opens { (state self.new).opens ≡ (state self.old).opens }
        ensures bound { IfOk result (λ n. n ≤ length buf.new) }
        ensures ok { IsTrue (state self.old).nature.tells → IfOk result
            (λ n. (state self.old).unread ≡ put_back (take n buf.new) (state self.new).unread) }
        ensures opened { IsTrue (state self.old).nature.tells → OnOk result
            (IsSome (state self.old).unread) }
        ensures end { IsTrue (state self.old).nature.tells → IfOk result
            (λ n. n ≡ 0 → 0 < length buf.new → IsAtEnd (state self.new).unread) }
        ensures calm { IsTrue (state self.old).nature.calm → IsSome (state self.old).unread → IsOk result };

    /// Makes an output empty, under this name, and leaves the others.
    fn create(&mut self, out: Output, name: &str) -> Result<(), Failed>
        ensures call { IsOutputCall (state self.old) (state self.new) out result }
        ensures counted { (state self.new).creates ≡ one_more (state self.old).creates }
        ensures made { OnOk result (IsCreatedBy (state self.new).creates out (state self.new)) }
        ensures unmade { OnErr result ((state self.new).turns ≡ (state self.old).turns) }
        ensures err { OnErr result ((state self.new).outputs ≡ (state self.old).outputs) }
        ensures ok { IsTrue (state self.old).nature.tells → OnOk result ((state self.new).outputs
            ≡ with_output (state self.old).outputs out (Some (record { name = name.now; bytes = [] }))) }
        ensures calm { IsTrue (state self.old).nature.calm →
            length name.now ≤ (state self.old).nature.room → IsOk result };

    /// Appends the first bytes of a piece to an output, and answers how many: at least one of a piece
    /// that isn't empty. It leaves the other outputs, and fails where the output wasn't created.
    fn write(&mut self, out: Output, piece: &[u8]) -> Result<usize, Failed>
        ensures call { IsOutputCall (state self.old) (state self.new) out result }
        ensures err { OnErr result ((state self.new).outputs ≡ (state self.old).outputs) }
        ensures creates { (state self.new).creates ≡ (state self.old).creates }
        ensures turns { (state self.new).turns ≡ (state self.old).turns }
        ensures bound { IfOk result (λ n. n ≤ length piece.now) }
        ensures some { IfOk result (λ n. 0 < length piece.now → 0 < n) }
        ensures ok { IsTrue (state self.old).nature.tells → IfOk result (λ n. (state self.new).outputs
            ≡ appended (state self.old).outputs out (take n piece.now)) }
        ensures created { IsTrue (state self.old).nature.tells → OnOk result
            (IsSome (output (state self.old).outputs out)) }
        ensures calm_empty { IsTrue (state self.old).nature.calm →
            IsSome (output (state self.old).outputs out) → length piece.now ≡ 0 → IsOk result }
        ensures calm { IsTrue (state self.old).nature.calm →
            HasRoom (output (state self.old).outputs out) 1 (state self.old).nature.room → IsOk result };
}
