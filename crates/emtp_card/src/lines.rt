//! One line of a case: what it is, and whether its bytes may stand there.

ghost use Rattle.std.specs.Prelude.{◌≡◌, ◌+◌, ◌≤◌, length, MatchOption};
ghost use Rattle.std.specs.List.{list_all};
ghost use Rattle.emtp_card.specs.Lines.{is_blank, is_comment, is_section_end, fault_of_line, fault_of_byte};
ghost use Rattle.emtp_card.specs.held.Lines.{IsFaultless, IsFirstFault};

use crate::cards::MAX_BYTES;
use crate::reason::Why;

/// A line of a case: its number, counted from 1, and its bytes without LF or CR LF.
#[derive(Clone, Copy, Debug)]
pub struct Line<'a> {
    /// Its number, counted from 1; comments count.
    pub number: u32,
    /// Its bytes, one a column; what is past its end is blank.
    pub bytes: &'a [u8],
}

/// Whether a line is a comment: `C` alone, or `C` and a blank in front.
#[tactic(auto, unfolding(crate::specs::Lines::is_comment))]
pub fn comment(line: &[u8]) -> bool
    ensures { result ≡ is_comment line.now }
{
    line == b"C".as_slice() || line.starts_with(b"C ")
}

/// Whether a line ends a section: it is all blank, or begins with `BLANK`.
#[tactic(auto, unfolding(crate::specs::Lines::is_section_end))]
pub fn ends_section(line: &[u8]) -> bool
    ensures { result ≡ is_section_end line.now }
{
    all_blank(line) || line.starts_with(b"BLANK")
}

/// Whether a text has nothing but blanks.
fn all_blank(text: &[u8]) -> bool
    ensures { result ≡ list_all is_blank text.now }
{
    text.iter().all(|byte| *byte == b' ')
}

/// The first byte of a line that may not stand there: its column, counted from 1, and why.
#[tactic(auto, unfolding(crate::specs::Lines::fault_of_line))]
pub fn line_fault(line: &[u8]) -> Option<(u32, Why)>
    requires { length line.now ≤ MAX_BYTES }
    ensures value { result ≡ fault_of_line line.now }
    ensures first { MatchOption result (IsFaultless line.now) (λ fault. IsFirstFault line.now fault.0 fault.1) }
{
    for (place, byte) in line.iter().enumerate() {
        let column = place as u32 + 1;
        if let Some(why) = byte_fault(column, *byte) {
            return Some((column, why));
        }
    }
    None
}

/// Why a byte may not stand in a column, if it may not.
fn byte_fault(column: u32, byte: u8) -> Option<Why>
    ensures { result ≡ fault_of_byte column byte }
{
    if byte < 0x20 || byte > 0x7E {
        Some(Why::ByteOutside)
    } else if column > 80 && byte != b' ' {
        Some(Why::PastColumn80)
    } else {
        None
    }
}
