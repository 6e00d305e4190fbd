//! The trial case: a ladder of equal sections whose number is chosen, as a deck of cards.
ghost use Rattle.std.specs.Prelude.{◌≡◌, ◌+◌, ◌≤◌, ◌<◌, ◌%◌, ◌++◌, IfOk, OnOk};
ghost use Rattle.emtp_run.specs.TrialDeck.{head_cards, ladder_cards, node_name, section_cards, tail_cards, trial_cards};

use crate::text::{Text, push};
use std::alloc::{AllocError, Global};

/// The cards of the trial case with so many sections: a cosine source of 100 kV and 60 Hz, sections of 0.5 ohm, 1 mH and
/// 0.01 microfarad, and a load of 100 ohm at the far end, joined from 2 ms to 6 ms. This project's own.
#[tactic(auto, unfolding(crate::specs::TrialDeck::trial_cards, crate::specs::TrialDeck::head_cards))]
pub fn trial_deck(alloc: Global, number: u32) -> Result<Vec<u8>, AllocError>
    requires some { 1 ≤ number }
    requires most { number ≤ 900 }
    ensures { IfOk result (λ cards. cards.items ≡ trial_cards number) }
{
    let mut cards = Vec::from_slice(
        alloc,
        b"BEGIN NEW DATA CASE\n   1.E-5     .02\n       1      20\n",
    )?;
    push_ladder(&mut cards, number)?;
    cards.extend_from_slice(tail_cards(number).as_slice())?;
    Ok(cards)
}

/// Puts the sections of the ladder after the cards.
fn push_ladder(cards: &mut Vec<u8>, number: u32) -> Result<(), AllocError>
    requires { number ≤ 900 }
    ensures { OnOk result (cards.new.items ≡ cards.old.items ++ ladder_cards number) }
{
    for section in 0..number {
        cards.extend_from_slice(section_cards(section).as_slice())?;
    }
    Ok(())
}

/// The two cards of a section.
#[tactic(auto, unfolding(crate::specs::TrialDeck::section_cards))]
fn section_cards(section: u32) -> Text
    requires { section < 900 }
    ensures { result.items ≡ section_cards section }
{
    let mut cards = Text::new();
    push(&mut cards, b"  ");
    push(&mut cards, &node_name(section));
    push(&mut cards, b" ");
    push(&mut cards, &node_name(section + 1));
    push(&mut cards, b"                 .5   1.0\n  ");
    push(&mut cards, &node_name(section + 1));
    push(&mut cards, b"                                  .01\n");
    cards
}

/// The cards after the ladder: the load, the switch, the source and the output.
#[tactic(auto, unfolding(crate::specs::TrialDeck::tail_cards))]
fn tail_cards(number: u32) -> Text
    requires { number ≤ 900 }
    ensures { result.items ≡ tail_cards number }
{
    let mut cards = Text::new();
    push(&mut cards, b"  LOAD                      100.\nBLANK\n  ");
    push(&mut cards, &node_name(number));
    push(
        &mut cards,
        b" LOAD        .002      .006                                             1\nBLANK\n14N0000         1.E5       60.\nBLANK\n  ",
    );
    push(&mut cards, &node_name(number));
    push(&mut cards, b"\nBLANK\n");
    cards
}

/// The name of a node of the ladder: `N` and four digits.
#[tactic(auto, unfolding(crate::specs::TrialDeck::node_name))]
fn node_name(node: u32) -> [u8; 5]
    requires { node ≤ 900 }
    ensures { result ≡ node_name node }
{
    [
        b'N',
        digit(node / 1000),
        digit(node / 100),
        digit(node / 10),
        digit(node),
    ]
}

/// The last digit of a number.
fn digit(number: u32) -> u8
    ensures { result ≡ 48 + number % 10 }
{
    b'0' + (number % 10) as u8
}
