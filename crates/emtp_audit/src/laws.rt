// What is true of the definitions in the reader's own words. The functions do nothing: their clauses are proved.
ghost use Rattle.std.specs.Prelude.{◌≡◌, ℕ, ℤ, List, [], ◌∷◌, ◌++◌, Some, None, pos, ◌<◌, ◌^◌, decimal, unsigned_abs};
ghost use Rattle.std.specs.Fmt.{signed_decimal};
ghost use Rattle.emtp_card.specs.held.Lines.{HasNoNewline};
ghost use Rattle.emtp_case.specs.held.Case.{IsCase};
ghost use Rattle.emtp_case.specs.declared.case.Parts.{Parts};
ghost use Rattle.emtp_audit.specs.Audit.{audit_differs};
ghost use Rattle.emtp_machine.specs.History.{history, samples};
ghost use Rattle.emtp_machine.specs.Ranges.{AreSamplesInRange};
ghost use Rattle.emtp_audit.specs.Numbers.{whole_of, stamp_of};
ghost use Rattle.emtp_audit.specs.held.Pieces.{IsLines, ended};
ghost use Rattle.emtp_comtrade.specs.Record.{cfg_text, dat_text};

/// The lines of a text that is made of pieces, each ended by CR and LF, are those pieces, and then those of the rest.
pub fn lines_are_pieces()
    ensures piece { (piece : List ℕ) → HasNoNewline piece → IsLines (ended piece) (piece ∷ []) }
    ensures both { (a b : List ℕ) (x y : List (List ℕ)) → IsLines a x → IsLines b y → IsLines (a ++ b) (x ++ y) }
{}

/// A whole number and a time stamp are read back as they are printed.
pub fn numbers_read_back()
    ensures whole { (z : ℤ) → unsigned_abs z < 10 ^ 9 → whole_of (signed_decimal z) ≡ Some z }
    ensures stamp { (n : ℕ) → n < 10 ^ 10 → stamp_of (decimal n) ≡ Some (pos n) }
{}

/// The record that the program writes has no difference: of a case and any samples that fit it, and so of a case and the
/// samples of its run.
pub fn own_record_is_the_same()
    ensures any { (p : Parts) (rows : List (List ℤ)) → IsCase p → AreSamplesInRange p rows
        → audit_differs p rows (cfg_text p rows) (dat_text p rows) ≡ None }
    ensures run { (p : Parts) → IsCase p → let rows = samples p (history p) in
        audit_differs p rows (cfg_text p rows) (dat_text p rows) ≡ None }
{}
