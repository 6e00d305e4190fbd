//! What is true of listings in the reader's own words. The functions do nothing: their clauses are proved.

ghost use Rattle.std.specs.Prelude.{◌≡◌, ◌<◌, ◌^◌, ℕ, ℤ, List, unsigned_abs};
ghost use Rattle.emtp_case.specs.held.Case.{IsCase};
ghost use Rattle.emtp_case.specs.declared.case.Parts.{Parts};
ghost use Rattle.emtp_fix.specs.Decimal.{fixed_text};
ghost use Rattle.emtp_listing.specs.Law.{AllFree, AreApart, AreSame, FitsTypes};
ghost use Rattle.emtp_listing.specs.Limits.{AreWithinLimits};
ghost use Rattle.emtp_listing.specs.Lines.{lines_text};
ghost use Rattle.emtp_listing.specs.Listing.{listing};

/// Two cases of the same listing are the same case: their run, their nodes and variables by name and number, all records
/// with the points of each, and their channels. A listing hides nothing.
pub fn same_listing_is_same_case()
    ensures { (p q : Parts) → IsCase p → IsCase q → FitsTypes p → FitsTypes q → AreApart p.nodes → AreApart p.vars
        → listing p ≡ listing q → AreSame p q }
{}

/// No count of a case is above the limit that is listed beside it.
pub fn counts_are_within_their_limits()
    ensures { (p : Parts) → IsCase p → AreWithinLimits p }
{}

/// A decimal is known by its text.
pub fn decimals_differ()
    ensures { (x y : ℤ) (places : ℕ) → unsigned_abs x < 2 ^ 64 → unsigned_abs y < 2 ^ 64
        → fixed_text x places ≡ fixed_text y places → x ≡ y }
{}

/// Lines without LF are known by their text.
pub fn lines_differ()
    ensures { (xs ys : List (List ℕ)) → AllFree 10 xs → AllFree 10 ys → lines_text xs ≡ lines_text ys → xs ≡ ys }
{}
