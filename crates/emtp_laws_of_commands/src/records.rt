//! What `run` made: what `audit` says of it, and how near it is to the records of the run. The functions do nothing: their
//! clauses are proved.

ghost use Rattle.std.specs.Prelude.{◌≡◌, ◌+◌, ℕ, List, Option, Some, Ok, IsSomeAnd, length, slice_get, take};
ghost use Rattle.emtp_audit.specs.Note.{same_text};
ghost use Rattle.emtp_card.specs.declared.cards.TheConstants.{MAX_BYTES};
ghost use Rattle.emtp_case.specs.declared.case.Parts.{Parts};
ghost use Rattle.emtp_io.specs.Writes.{Written};
ghost use Rattle.emtp_io.specs.declared.cabinet.Output.TheVariants.{Dat};
ghost use Rattle.emtp_laws_of_commands.specs.Files.{HoldsFiles, audit_words, run_words};
ghost use Rattle.emtp_laws_of_commands.specs.Written.{TellsRecords};
ghost use Rattle.emtp_machine.specs.History.{history, samples};
ghost use Rattle.emtp_run.specs.Command.{outcome};
ghost use Rattle.emtp_run.specs.Outcome.{Outcome, summarised};
ghost use Rattle.emtp_run.specs.Reading.{deck};
ghost use Rattle.emtp_run.specs.Words.{Run, RunFiles, fits};

/// Over files that hold what `run CASE CFG DAT` makes of them, `audit CASE CFG DAT` comes to its end and says that the two files
/// are the case's record: AUDIT SAME, and the number of its samples. So it is of every case whose deck is accepted, also where the
/// run ends early.
pub fn own_record_is_audited_as_the_same()
    ensures { (names : RunFiles) (files : List ℕ → Option (List ℕ)) (text : List ℕ) (p : Parts) (made : Outcome)
        → fits (run_words names) ≡ Some (Run names) → files names.case ≡ Some text → deck (take (MAX_BYTES + 1) text) ≡ Ok p
        → outcome (run_words names) files ≡ Some made → HoldsFiles files made.writes
        → outcome (audit_words names) files ≡ Some (summarised (same_text (length (samples p (history p))))) }
{}

/// The data file that `run CASE CFG DAT` makes has a line a sample. The raw value of each analog channel, times the multiplier
/// that the configuration gives it, lies within half that multiplier of the channel's value in the sample's record; and in this
/// record the currents at each node or group of nodes add up to 0 within the tolerance. Its scope is every case whose deck is
/// accepted, also where the run ends early. (The first sample is rest, which balances.)
pub fn data_file_tells_records_that_balance()
    ensures { (names : RunFiles) (files : List ℕ → Option (List ℕ)) (text : List ℕ) (p : Parts) (made : Outcome)
        → fits (run_words names) ≡ Some (Run names) → files names.case ≡ Some text → deck (take (MAX_BYTES + 1) text) ≡ Ok p
        → outcome (run_words names) files ≡ Some made
        → IsSomeAnd (slice_get made.writes 1) (λ (w : Written). (w.out ≡ Dat) × (w.name ≡ names.dat) × TellsRecords p w.bytes) }
{}
