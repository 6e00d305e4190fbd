//! What holds of every deck. The functions do nothing but call the laws of the crates below: their clauses are
//! proved.

ghost use Rattle.std.specs.Prelude.{◌≡◌, ◌++◌, ◌∷◌, ℕ, List, map};
ghost use Rattle.emtp_card.specs.Field.{without_trailing};
ghost use Rattle.emtp_card.specs.Lines.{lines_of};
ghost use Rattle.emtp_card.specs.held.Lines.{without_return};
ghost use Rattle.emtp_deck.specs.Deck.{deck_of};
ghost use Rattle.emtp_walk.specs.Laws.{AreAlike};

use emtp_walk::{walk_skips_blanks_at_ends, walk_skips_comments};

/// The text of comments doesn't matter, neither for the case nor for the fault.
pub fn comments_do_not_matter()
    ensures { (xs ys : List (List ℕ)) → AreAlike xs ys → deck_of xs ≡ deck_of ys }
{
    walk_skips_comments();
}

/// Blanks at the ends of lines don't matter, neither for the case nor for the fault: decks whose lines are the same without
/// them are read alike. It holds in every column, also past column 80, of every line: a blank one, a comment, a `BLANK`.
///
/// The number of lines has to stay: blanks alone that no LF follows are a file's last line.
pub fn blanks_at_ends_do_not_matter()
    ensures { (xs ys : List (List ℕ)) → map without_trailing xs ≡ map without_trailing ys → deck_of xs ≡ deck_of ys }
{
    walk_skips_blanks_at_ends();
}

/// A CR before an LF doesn't matter, wherever it stands in a file, neither for the case nor for the fault. A second CR
/// before it does, and so does one that no LF follows: it is a byte of the line.
///
/// The limit of a file's bytes, which counts each CR, is judged before the lines are: see `size_fault` of emtp_card.
pub fn returns_do_not_matter()
    ensures { (before after : List ℕ) → without_return before ≡ before
        → deck_of (lines_of (before ++ 13 ∷ 10 ∷ after)) ≡ deck_of (lines_of (before ++ 10 ∷ after)) }
{}
