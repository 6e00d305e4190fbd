//! What a line was meant as that isn't read here.

ghost use Rattle.std.specs.Prelude.{◌≡◌};
ghost use Rattle.emtp_causes.specs.Slip.{begins_a_request, begins_a_section, is_comment_like, is_request, is_small_blank, is_small_comment, is_special, slip, stands_among_cards};

use crate::texts::{COMMENT_WITHOUT_BLANK, SMALL_BLANK, SMALL_COMMENT, SPECIAL_REQUEST};
use emtp_card::field_text;

/// What is said of a line that was meant as a card of ATP, as the end of a section or as a comment; nothing of any other.
pub(crate) fn slip(line: &[u8]) -> &'static [u8]
    ensures { result.now ≡ slip line.now }
{
    if is_special(line) {
        SPECIAL_REQUEST
    } else if is_small_blank(line) {
        SMALL_BLANK
    } else if is_small_comment(line) {
        SMALL_COMMENT
    } else if is_comment_like(line) {
        COMMENT_WITHOUT_BLANK
    } else {
        b""
    }
}

/// Whether it is a card of ATP that isn't read here.
fn is_special(line: &[u8]) -> bool
    ensures { result ≡ is_special line.now }
{
    begins_a_section(line) || is_request(field_text(line, 1, 80))
}

/// Whether it begins as `/BRANCH` or `$INCLUDE` do; a vintage card is read.
fn begins_a_section(line: &[u8]) -> bool
    ensures { result ≡ begins_a_section line.now }
{
    line.starts_with(b"/") || (line.starts_with(b"$") && !line.starts_with(b"$VINTAGE"))
}

/// Whether a text is one of the requests of ATP in words.
fn is_request(text: &[u8]) -> bool
    ensures { result ≡ is_request text.now }
{
    begins_a_request(text) || stands_among_cards(text)
}

/// Whether it is one of those that stand among the cards, or in place of them.
fn stands_among_cards(text: &[u8]) -> bool
    ensures { result ≡ stands_among_cards text.now }
{
    text.starts_with(b"TRANSFORMER")
        || text.starts_with(b"STATISTICS")
        || text.starts_with(b"SYSTEMATIC")
        || text.starts_with(b"CASCADED PI")
        || text.starts_with(b"LINE CONSTANTS")
        || text.starts_with(b"CABLE CONSTANTS")
        || text.starts_with(b"CABLE PARAMETERS")
        || text.starts_with(b"UNIVERSAL MACHINE")
}

/// Whether it is one of those that stand in front of the miscellaneous cards.
fn begins_a_request(text: &[u8]) -> bool
    ensures { result ≡ begins_a_request text.now }
{
    text.starts_with(b"POWER FREQUENCY")
        || text.starts_with(b"FREQUENCY SCAN")
        || text.starts_with(b"HARMONIC FREQUENCY")
        || text.starts_with(b"ABSOLUTE TACS")
        || text.starts_with(b"RELATIVE TACS")
        || text.starts_with(b"CHANGE SWITCH")
        || text.starts_with(b"PRINTED NUMBER")
        || text.starts_with(b"PEAK VOLTAGE")
        || text.starts_with(b"TIME OF DIALOGUE")
        || text.starts_with(b"START AGAIN")
        || text.starts_with(b"AUTO NAME")
        || text.starts_with(b"FIX SOURCE")
}

fn is_small_blank(line: &[u8]) -> bool
    ensures { result ≡ is_small_blank line.now }
{
    line.starts_with(b"blank") || line.starts_with(b"Blank")
}

fn is_small_comment(line: &[u8]) -> bool
    ensures { result ≡ is_small_comment line.now }
{
    line == b"c".as_slice() || line.starts_with(b"c ")
}

/// Whether a line that is no comment begins as one.
fn is_comment_like(line: &[u8]) -> bool
    ensures { result ≡ is_comment_like line.now }
{
    line.starts_with(b"C")
}
