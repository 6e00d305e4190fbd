//! Which forms of a card are the same card. The functions do nothing: their clauses are proved.

ghost use Rattle.std.specs.Prelude.{ℕ, List, false, true};
ghost use Rattle.emtp_deck_laws.specs.WideCards.{HaveSameTexts, IsReadAlike};

/// A series branch's card with wide fields has the values of the narrow one with the same texts, wherever in their columns these
/// stand, and the other way round: where one of them is read, so is the other, as the same card.
pub fn wide_series_card_has_the_narrow_values()
    ensures wide { (narrow wide : List ℕ) → HaveSameTexts narrow wide → IsReadAlike narrow false wide true }
    ensures narrow { (narrow wide : List ℕ) → HaveSameTexts narrow wide → IsReadAlike wide true narrow false }
{}
