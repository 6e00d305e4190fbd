//! A caller that has the clauses of `read`.

ghost use Rattle.std.specs.Prelude.{◌≡◌, Err, None};
ghost use Rattle.emtp_card.specs.declared.reason.Bad.{Bad as Bads};
ghost use Rattle.emtp_deck.specs.Deck.{deck_of};

use emtp_card::Cards;
use emtp_deck::read;
use std::alloc::Global;

/// The number of branches of a deck; none where a card is refused.
pub fn branch_count(alloc: Global, cards: &Cards<'_>) -> Option<usize>
    ensures { (bad : Bads) → deck_of cards.now ≡ Err bad → result ≡ None }
{
    match read(alloc, cards) {
        Ok(case) => {
            let count = case.parts.branches.len();
            drop(case);
            Some(count)
        }
        Err(_) => None,
    }
}
