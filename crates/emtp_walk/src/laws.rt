//! What holds of every walk. The functions do nothing: their clauses are proved.

ghost use Rattle.std.specs.Prelude.{◌≡◌, ◌+◌, ℕ, List, length, map, Ok};
ghost use Rattle.emtp_card.specs.Field.{without_trailing};
ghost use Rattle.emtp_walk.specs.Laws.{AreAlike, AreRead, Rises, card_lines};
ghost use Rattle.emtp_walk.specs.Walk.{empty_deck, walk};
ghost use Rattle.emtp_walk.specs.declared.deck.Deck.{Deck};
ghost use Rattle.emtp_walk.specs.declared.deck.Place.{Place as Places};
ghost use Rattle.emtp_walk.specs.declared.deck.Place.TheVariants.{Begin};

/// The text of comments doesn't matter: lines that are the same but for it are as many, and give the same cards or the
/// same fault.
pub fn walk_skips_comments()
    ensures walk { (xs ys : List (List ℕ)) → AreAlike xs ys → walk 1 empty_deck Begin xs ≡ walk 1 empty_deck Begin ys }
    ensures count { (xs ys : List (List ℕ)) → AreAlike xs ys → length xs ≡ length ys }
{}

/// Blanks at the ends of lines don't matter: lines that are the same without them are as many, and give the same cards or
/// the same fault.
pub fn walk_skips_blanks_at_ends()
    ensures walk { (xs ys : List (List ℕ)) → map without_trailing xs ≡ map without_trailing ys
        → walk 1 empty_deck Begin xs ≡ walk 1 empty_deck Begin ys }
    ensures count { (xs ys : List (List ℕ)) → map without_trailing xs ≡ map without_trailing ys → length xs ≡ length ys }
{}

/// The cards stand in the order of their lines, section by section, the second miscellaneous card first. The reader of the
/// deck judges their sense in this order, so the first card that has a fault is the one with the least line.
pub fn cards_stand_in_order()
    ensures { (lines : List (List ℕ)) (deck : Deck) (place : Places)
        → walk 1 empty_deck Begin lines ≡ Ok (deck, place)
        → Rises (deck.second + 1) (card_lines deck place) (length lines + 1) }
{}

/// Where no line has a fault of form, the cards of the deck are those of the lines that are read so, in their order: its
/// blocks, sources, supplemental cards and outputs of the control, its branches, switches, sources and outputs, those that
/// wait for the cards behind them too. There is one reading more than lines, for what is due behind the last.
pub fn readings_tell_the_cards()
    ensures { (lines : List (List ℕ)) (deck : Deck) (place : Places)
        → walk 1 empty_deck Begin lines ≡ Ok (deck, place) → AreRead lines deck place }
{}
