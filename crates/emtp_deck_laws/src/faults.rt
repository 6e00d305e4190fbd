//! Which fault of a file is answered. The functions do nothing: their clauses are proved.

ghost use Rattle.std.specs.Prelude.{◌≡◌, ◌+◌, ◌++◌, ℕ, List, Ok, Err, length, map};
ghost use Rattle.emtp_card.specs.declared.reason.Bad.{Bad};
ghost use Rattle.emtp_case.specs.declared.case.Parts.{Parts};
ghost use Rattle.emtp_deck.specs.Deck.{deck_of};
ghost use Rattle.emtp_deck_laws.specs.FormFaults.{IsFirstRefused, IsRefusedSwitch};
ghost use Rattle.emtp_deck_laws.specs.JudgedCards.{Judged, judged_cards};
ghost use Rattle.emtp_deck_laws.specs.LeastFault.{IsFaultAmong, IsLeastAmong};
ghost use Rattle.emtp_walk.specs.Laws.{Rises};
ghost use Rattle.emtp_walk.specs.Walk.{empty_deck, walk};
ghost use Rattle.emtp_walk.specs.declared.deck.Deck.{Deck};
ghost use Rattle.emtp_walk.specs.declared.deck.Place.{Place};
ghost use Rattle.emtp_walk.specs.declared.deck.Place.TheVariants.{Begin, Switches};

/// Where all cards of a file can be read, its refusal is the least fault of all its cards by line, column and number of the
/// reason: one card has it, and no card has one that comes before it. A file whose cards have no fault is a case. The cards
/// are judged in the order of their lines, the second miscellaneous card first and the end of the file last.
pub fn the_fault_is_the_least()
    ensures order { (lines : List (List ℕ)) (deck : Deck) (place : Place)
        → walk 1 empty_deck Begin lines ≡ Ok (deck, place)
        → Rises deck.second (map (λ (card : Judged). card.line) (judged_cards (length lines) deck place))
        (length lines + 2) }
    ensures refused { (lines : List (List ℕ)) (deck : Deck) (place : Place) (bad : Bad)
        → walk 1 empty_deck Begin lines ≡ Ok (deck, place) → deck_of lines ≡ Err bad
        → IsLeastAmong (judged_cards (length lines) deck place) bad }
    ensures accepted { (lines : List (List ℕ)) (deck : Deck) (place : Place) (case : Parts) (bad : Bad)
        → walk 1 empty_deck Begin lines ≡ Ok (deck, place) → deck_of lines ≡ Ok case
        → ¬ IsFaultAmong (judged_cards (length lines) deck place) bad }
{}

/// Lines behind a card that can't be read don't matter: where the lines of a file as far as one of them are refused, so is
/// the file, whatever comes behind within the limits of a file's lines and bytes.
pub fn lines_behind_a_fault_do_not_matter()
    ensures { (front behind : List (List ℕ)) (bad : Bad) → walk 1 empty_deck Begin front ≡ Err bad
        → deck_of (front ++ behind) ≡ Err bad }
{}

/// Where a line of a file can't be read, the file is refused for the first such line: the lines in front of it are read, and
/// it is refused where they lead to.
pub fn the_first_line_that_cannot_be_read_is_refused()
    ensures refused { (lines : List (List ℕ)) (bad : Bad) → walk 1 empty_deck Begin lines ≡ Err bad → deck_of lines ≡ Err bad }
    ensures first { (lines : List (List ℕ)) (bad : Bad) → walk 1 empty_deck Begin lines ≡ Err bad
        → IsFirstRefused lines bad }
{}

/// Where this line is a switch card, it is refused for its first byte that may not stand where it does, and else for the
/// least by column and number of the faults of its fields: the two names, that both ends have one name, where both were read,
/// the type, what its type asks for, and column 80, each judged by itself.
pub fn a_switch_card_is_refused_for_its_least_fault()
    ensures { (lines : List (List ℕ)) (bad : Bad) (first : IsFirstRefused lines bad) → first.place ≡ Switches
        → IsRefusedSwitch (length first.front + 1) first.line bad }
{}
