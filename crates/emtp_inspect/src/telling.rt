//! The text that the bytes of a file give.
ghost use Rattle.std.specs.Prelude.{◌≡◌, ◌++◌, Err, IfOk, Ok, OnOk, Some, take};
ghost use Rattle.emtp_deck.specs.Deck.{deck_of};
ghost use Rattle.emtp_causes.specs.KindText.{kinds_text};
ghost use Rattle.emtp_inspect.specs.Telling.{behind_fields, cards_text, cause_of, count_text, fields_told, listed_front, listed_of, listing_text, refused_by, refused_text, told_case, told_of, told_of_lines, told_unread};
ghost use Rattle.emtp_listing.specs.Lines.{lines_text};
ghost use Rattle.emtp_run.specs.Note.{card_note};

use crate::channel_cards::put_channels;
use crate::copy_cards::put_copies;
use crate::each_card::Shown;
use crate::run_cards::put_run_cards;
use crate::words::Wanted;
use emtp_card::{Bad, Cards, Refused};
use emtp_case::{Case, Items};
use emtp_causes::{kind_name, put_kinds, put_refusal, put_section, put_size};
use emtp_deck::read;
use emtp_fields::{put_lines, put_refused};
use emtp_listing::listing;
use emtp_run::bad_card;
use emtp_text::{put, put_number};
use emtp_walk::{LineReading, line_readings};
use emtp_warnings::{warnings, warnings_text};
use std::alloc::{AllocError, Global};

/// What is told of a file, each text with its line ends.
#[derive(Drop)]
pub enum Told {
    /// What is wanted of its case.
    Answer(Items<u8>),
    /// What is told of a card that is refused.
    Refusal(Items<u8>),
}

/// What is told of these bytes: the listing of their case and its warnings, how many warnings there are, or as what each line
/// is read, or the fields of the lines; of a card that is refused, the records before it, its note and as what it was read, or
/// what helps to mend it.
///
/// # Errors
///
/// [`AllocError`] where memory is wanting.
pub fn tell(alloc: Global, wanted: Wanted, bytes: &[u8]) -> Result<Told, AllocError>
    ensures { IfOk result (λ told. told ≡ told_of wanted bytes.now) }
{
    match Cards::split(alloc, bytes) {
        Ok(cards) => tell_cards(alloc, wanted, &cards),
        Err(Refused::Bad(bad)) => tell_unread(alloc, wanted, &bad),
        Err(Refused::NoMemory) => Err(AllocError),
    }
}

/// Of a file that is too long no line is read.
fn tell_unread(alloc: Global, wanted: Wanted, bad: &Bad) -> Result<Told, AllocError>
    ensures { IfOk result (λ told. told ≡ told_unread wanted bad.now) }
{
    match wanted {
        Wanted::Cause => {
            let mut text = Vec::new(alloc);
            put_size(&mut text)?;
            Ok(Told::Answer(Items::from_vec(text)))
        }
        _ => tell_size(alloc, bad),
    }
}

fn tell_cards(alloc: Global, wanted: Wanted, cards: &Cards<'_>) -> Result<Told, AllocError>
    ensures { IfOk result (λ told. told ≡ told_of_lines wanted cards.now) }
{
    let readings = line_readings(alloc, cards)?;
    match wanted {
        Wanted::Listing => tell_listing(alloc, cards, &readings),
        Wanted::WarningCount => tell_count(alloc, cards, &readings),
        Wanted::Kinds => tell_kinds(alloc, cards.len(), &readings),
        Wanted::Cause => tell_cause(alloc, cards, &readings),
        Wanted::Fields => tell_fields(alloc, cards, &readings),
    }
}

fn tell_kinds(alloc: Global, count: usize, readings: &[LineReading]) -> Result<Told, AllocError>
    ensures { IfOk result (λ told. told ≡ Told.Answer (kinds_text count 1 readings.now)) }
{
    let mut text = Vec::new(alloc);
    put_kinds(&mut text, count, readings)?;
    Ok(Told::Answer(Items::from_vec(text)))
}

fn tell_cause(
    alloc: Global,
    cards: &Cards<'_>,
    readings: &[LineReading],
) -> Result<Told, AllocError>
    ensures { IfOk result (λ told. told ≡ Told.Answer (cause_of readings.now cards.now (deck_of cards.now))) }
{
    let mut text = Vec::new(alloc);
    match read(alloc, cards) {
        Ok(_) => Ok(Told::Answer(Items::from_vec(text))),
        Err(Refused::Bad(bad)) => {
            put_refusal(&mut text, cards, readings, &bad)?;
            Ok(Told::Answer(Items::from_vec(text)))
        }
        Err(Refused::NoMemory) => Err(AllocError),
    }
}

fn tell_fields(
    alloc: Global,
    cards: &Cards<'_>,
    readings: &[LineReading],
) -> Result<Told, AllocError>
    ensures { IfOk result (λ told. told ≡ Told.Answer (fields_told readings.now cards.now (deck_of cards.now))) }
{
    let mut text = Vec::new(alloc);
    put_lines(&mut text, cards, readings)?;
    put_behind(alloc, &mut text, cards, readings)?;
    Ok(Told::Answer(Items::from_vec(text)))
}

/// Puts the warnings of a case, or its refusal, behind the fields of its lines.
fn put_behind(
    alloc: Global,
    out: &mut Vec<u8>,
    cards: &Cards<'_>,
    readings: &[LineReading],
) -> Result<(), AllocError>
    ensures { OnOk result (out.new.items ≡ out.old.items ++ behind_fields readings.now cards.now (deck_of cards.now)) }
{
    match read(alloc, cards) {
        Ok(case) => put_warnings(alloc, out, cards, readings, &case),
        Err(Refused::Bad(bad)) => put_bad(out, cards, readings, &bad),
        Err(Refused::NoMemory) => Err(AllocError),
    }
}

fn put_warnings(
    alloc: Global,
    out: &mut Vec<u8>,
    cards: &Cards<'_>,
    readings: &[LineReading],
    case: &Case,
) -> Result<(), AllocError>
    ensures { OnOk result (out.new.items ≡ out.old.items ++ behind_fields readings.now cards.now (Ok case.now.parts)) }
{
    let found = warnings(alloc, cards, readings, case)?;
    let text = warnings_text(alloc, cards, readings, &found)?;
    put(out, &text)
}

/// Puts where a refusal points, its note, and what helps to mend the card.
fn put_bad(
    out: &mut Vec<u8>,
    cards: &Cards<'_>,
    readings: &[LineReading],
    bad: &Bad,
) -> Result<(), AllocError>
    ensures { OnOk result (out.new.items ≡ out.old.items ++ behind_fields readings.now cards.now (Err bad.now)) }
{
    put_refused(out, cards, readings, bad)?;
    put(out, bad_card(bad).as_slice())?;
    put_refusal(out, cards, readings, bad)
}

fn tell_listing(
    alloc: Global,
    cards: &Cards<'_>,
    readings: &[LineReading],
) -> Result<Told, AllocError>
    ensures { IfOk result (λ told. told ≡ told_case listing_text readings.now cards.now (deck_of cards.now)) }
{
    match read(alloc, cards) {
        Ok(case) => {
            let shown = Shown {
                cards,
                readings,
                case: &case,
            };
            let text = listing_with(alloc, shown)?;
            Ok(Told::Answer(Items::from_vec(text)))
        }
        Err(Refused::Bad(bad)) => tell_bad(alloc, cards, readings, &bad),
        Err(Refused::NoMemory) => Err(AllocError),
    }
}

fn tell_count(
    alloc: Global,
    cards: &Cards<'_>,
    readings: &[LineReading],
) -> Result<Told, AllocError>
    ensures { IfOk result (λ told. told ≡ told_case count_text readings.now cards.now (deck_of cards.now)) }
{
    match read(alloc, cards) {
        Ok(case) => {
            let found = warnings(alloc, cards, readings, &case)?;
            let mut text = Vec::new(alloc);
            put_number(&mut text, found.len())?;
            put(&mut text, b"\n")?;
            Ok(Told::Answer(Items::from_vec(text)))
        }
        Err(Refused::Bad(bad)) => tell_bad(alloc, cards, readings, &bad),
        Err(Refused::NoMemory) => Err(AllocError),
    }
}

/// The warnings of a case, and behind them its listing and what its cards say besides.
fn listing_with(alloc: Global, shown: Shown<'_>) -> Result<Vec<u8>, AllocError>
    ensures { IfOk result (λ text. text.items
        ≡ listing_text shown.entry.readings.now shown.entry.cards.now shown.entry.case.now.parts) }
{
    let found = warnings(alloc, shown.cards, shown.readings, shown.case)?;
    let mut text = warnings_text(alloc, shown.cards, shown.readings, &found)?;
    let listed = listing(alloc, shown.case)?;
    put(&mut text, &listed)?;
    put_cards(alloc, &mut text, shown)?;
    Ok(text)
}

/// Puts after a text what the cards of a case say that no case keeps.
fn put_cards(alloc: Global, out: &mut Vec<u8>, shown: Shown<'_>) -> Result<(), AllocError>
    ensures { OnOk result (out.new.items ≡ out.old.items
        ++ cards_text shown.entry.readings.now shown.entry.cards.now shown.entry.case.now.parts) }
{
    put_run_cards(out, shown)?;
    put_copies(out, shown)?;
    put_channels(alloc, out, shown)
}

/// The note of a refusal alone.
fn tell_size(alloc: Global, bad: &Bad) -> Result<Told, AllocError>
    ensures { IfOk result (λ told. told ≡ Told.Refusal (card_note bad.now)) }
{
    let mut text = Vec::new(alloc);
    put(&mut text, bad_card(bad).as_slice())?;
    Ok(Told::Refusal(Items::from_vec(text)))
}

fn tell_bad(
    alloc: Global,
    cards: &Cards<'_>,
    readings: &[LineReading],
    bad: &Bad,
) -> Result<Told, AllocError>
    ensures { IfOk result (λ told. told ≡ Told.Refusal (refused_text readings.now cards.now bad.now)) }
{
    match readings.get(bad.line.saturating_sub(1) as usize) {
        Some(read) => tell_read(alloc, cards, bad, read),
        None => tell_size(alloc, bad),
    }
}

/// Of a refused card: the whole records before it, its note, and as what it was read.
fn tell_read(
    alloc: Global,
    cards: &Cards<'_>,
    bad: &Bad,
    read: &LineReading,
) -> Result<Told, AllocError>
    ensures { IfOk result (λ told. told ≡ Told.Refusal (refused_by cards.now bad.now (Some read.now))) }
{
    let mut text = listed_front(alloc, cards, read.first.saturating_sub(1) as usize)?;
    put(&mut text, bad_card(bad).as_slice())?;
    let there = bad.line as usize <= cards.len();
    put_section(&mut text, bad.line, there, kind_name(read.kind))?;
    Ok(Told::Refusal(Items::from_vec(text)))
}

/// The first lines, each ended by LF.
fn front_text(alloc: Global, cards: &Cards<'_>, count: usize) -> Result<Vec<u8>, AllocError>
    ensures { IfOk result (λ text. text.items ≡ lines_text (take count cards.now)) }
{
    let mut text = Vec::new(alloc);
    for at in 0..count.min(cards.len()) {
        put(&mut text, cards.line(at).bytes)?;
        put(&mut text, b"\n")?;
    }
    Ok(text)
}

/// The records of the first lines: the listing of the case that they are with an end of each section behind them, or
/// nothing where they are none.
fn listed_front(alloc: Global, cards: &Cards<'_>, count: usize) -> Result<Vec<u8>, AllocError>
    ensures { IfOk result (λ text. text.items ≡ listed_front cards.now count) }
{
    let mut text = front_text(alloc, cards, count)?;
    // An end of each section, of the control and of the network.
    put(
        &mut text,
        b"BLANK\nBLANK\nBLANK\nBLANK\nBLANK\nBLANK\nBLANK\nBLANK\nBLANK\n",
    )?;
    listed_of(alloc, &text)
}

/// The listing of a text's case, or nothing where it is none.
fn listed_of(alloc: Global, text: &[u8]) -> Result<Vec<u8>, AllocError>
    ensures { IfOk result (λ listed. listed.items ≡ listed_of text.now) }
{
    match Cards::split(alloc, text) {
        Ok(cards) => match read(alloc, &cards) {
            Ok(case) => listing(alloc, &case),
            Err(Refused::Bad(_)) => Ok(Vec::new(alloc)),
            Err(Refused::NoMemory) => Err(AllocError),
        },
        Err(Refused::Bad(_)) => Ok(Vec::new(alloc)),
        Err(Refused::NoMemory) => Err(AllocError),
    }
}
