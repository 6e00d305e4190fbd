//! What an accepted deck gives. The functions do nothing: their clauses are proved.

ghost use Rattle.std.specs.Prelude.{◌≡◌, ℕ, List, Ok};
ghost use Rattle.emtp_case.specs.Switch.{card_times};
ghost use Rattle.emtp_case.specs.held.Case.{IsCase};
ghost use Rattle.emtp_case.specs.declared.case.Parts.{Parts};
ghost use Rattle.emtp_deck.specs.Deck.{deck_of};
ghost use Rattle.emtp_deck_laws.specs.NamesApart.{HasNamesApart};
ghost use Rattle.emtp_deck_laws.specs.OtherTimes.{HasOtherTimes, case_with_times};
ghost use Rattle.emtp_listing.specs.Law.{AreSame, FitsTypes};
ghost use Rattle.emtp_listing.specs.Listing.{listing};

/// What an accepted deck gives is a case: every number is in its range, every count within its limit, every place that a
/// record names is there, and each variable of the control has one card that defines it. No name of a node and none of a
/// variable stands twice in it. Lines of any number and any length are meant: memory decides only whether they are read.
pub fn accepted_decks_are_cases()
    ensures case { (lines : List (List ℕ)) (p : Parts) → deck_of lines ≡ Ok p → IsCase p }
    ensures apart { (lines : List (List ℕ)) (p : Parts) → deck_of lines ≡ Ok p → HasNamesApart p }
{}

/// Two decks of the same listing are the same case, where the numbers of their lines are below 2^32.
pub fn decks_of_one_listing_are_one_case()
    ensures { (xs ys : List (List ℕ)) (p q : Parts) → deck_of xs ≡ Ok p → deck_of ys ≡ Ok q → FitsTypes p
        → FitsTypes q → listing p ≡ listing q → AreSame p q }
{}

/// Other times of time switches give the same case with these times: where the lines of two accepted decks are the same but
/// for columns 15 to 34 of cards of time switches, T-CLOSE and T-OPEN, the one case is the other with its times.
pub fn other_times_give_the_case_with_them()
    ensures { (xs ys : List (List ℕ)) (p q : Parts) → HasOtherTimes xs ys → deck_of xs ≡ Ok p → deck_of ys ≡ Ok q
        → q ≡ case_with_times p (card_times q.switches) }
{}
