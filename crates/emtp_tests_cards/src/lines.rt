use emtp_card::*;
use std::alloc::Global;

macro_rules! rows {
    ($($line:expr => $comment:expr, $end:expr, $fault:expr;)*) => {
        &[$(($line, $comment, $end, $fault)),*]
    };
}

/// A line, whether it is a comment, whether it ends a section, and the first fault of its bytes.
const LINES: &[(&str, bool, bool, Option<(u32, Why)>)] = rows! {
    "C" => true, false, None; "C " => true, false, None; "C x" => true, false, None;
    "C  comment" => true, false, None; "CX" => false, false, None; "c" => false, false, None;
    "c " => false, false, None; "CC" => false, false, None; "C1 2" => false, false, None;
    "C\t" => false, false, Some((2, Why::ByteOutside)); "C\r" => false, false, Some((2, Why::ByteOutside));
    " C" => false, false, None; "  C " => false, false, None; "" => false, true, None; " " => false, true, None;
    "    " => false, true, None;
    "                                                                                " => false, true, None;
    "                                                                                   " => false, true, None;
    "BLANK" => false, true, None; "BLANK " => false, true, None; "BLANK CARD ENDING BRANCHES" => false, true, None;
    "BLANKET" => false, true, None; "blank" => false, false, None; " BLANK" => false, false, None;
    "BLAN" => false, false, None; "BLAN K" => false, false, None; "B" => false, false, None;
    "BLANK\r" => false, true, Some((6, Why::ByteOutside)); "BLANK\u{1}" => false, true, Some((6, Why::ByteOutside));
    "BLANK                                                                                X" => false, true, Some((86, Why::PastColumn80));
    "                                                                                X" => false, false, Some((81, Why::PastColumn80));
    "                                                                                  X" => false, false, Some((83, Why::PastColumn80));
    "                                                                                \u{7f}" => false, false, Some((81, Why::ByteOutside));
    "                                                                                 \u{1f}" => false, false, Some((82, Why::ByteOutside));
    "  SRC   MID                  1.0" => false, false, None; "11SRC        100.0" => false, false, None;
    "~" => false, false, None; "}" => false, false, None; "\u{7f}" => false, false, Some((1, Why::ByteOutside));
    "\u{1f}" => false, false, Some((1, Why::ByteOutside)); " \0" => false, false, Some((2, Why::ByteOutside));
    "\u{80}" => false, false, Some((1, Why::ByteOutside)); "A\u{7f}B" => false, false, Some((2, Why::ByteOutside));
    "\tA" => false, false, Some((1, Why::ByteOutside)); "A\t" => false, false, Some((2, Why::ByteOutside));
    "A\r" => false, false, Some((2, Why::ByteOutside));
    "AAAAAAAAAAAAAAAAAAAAAAAAAAAAAAAAAAAAAAAAAAAAAAAAAAAAAAAAAAAAAAAAAAAAAAAAAAAAAAAA" => false, false, None;
    "AAAAAAAAAAAAAAAAAAAAAAAAAAAAAAAAAAAAAAAAAAAAAAAAAAAAAAAAAAAAAAAAAAAAAAAAAAAAAAAAA" => false, false, Some((81, Why::PastColumn80));
    "AAAAAAAAAAAAAAAAAAAAAAAAAAAAAAAAAAAAAAAAAAAAAAAAAAAAAAAAAAAAAAAAAAAAAAAAAAAAAAAA " => false, false, None;
    "AAAAAAAAAAAAAAAAAAAAAAAAAAAAAAAAAAAAAAAAAAAAAAAAAAAAAAAAAAAAAAAAAAAAAAAAAAAAAAAA                    " => false, false, None;
    "AAAAAAAAAAAAAAAAAAAAAAAAAAAAAAAAAAAAAAAAAAAAAAAAAAAAAAAAAAAAAAAAAAAAAAAAAAAAAAAA B" => false, false, Some((82, Why::PastColumn80));
    "AAAAAAAAAAAAAAAAAAAAAAAAAAAAAAAAAAAAAAAAAAAAAAAAAAAAAAAAAAAAAAAAAAAAAAAAAAAAAAA\u{1f}B" => false, false, Some((80, Why::ByteOutside));
    "AAAAAAAAAAAAAAAAAAAAAAAAAAAAAAAAAAAAAAAAAAAAAAAAAAAAAAAAAAAAAAAAAAAAAAAAAAAAAAAA\u{1f}" => false, false, Some((81, Why::ByteOutside));
    "AAAAAAAAAAAAAAAAAAAAAAAAAAAAAAAAAAAAAAAAAAAAAAAAAAAAAAAAAAAAAAAAAAAAAAAAAAAAAAAAB\u{1f}" => false, false, Some((81, Why::PastColumn80));
    "AAAAAAAAAAAAAAAAAAAAAAAAAAAAAAAAAAAAAAAAAAAAAAAAAAAAAAAAAAAAAAAAAAAAAAAAAAAAAAAA \u{1f}B" => false, false, Some((82, Why::ByteOutside));
    "\u{1f}AAAAAAAAAAAAAAAAAAAAAAAAAAAAAAAAAAAAAAAAAAAAAAAAAAAAAAAAAAAAAAAAAAAAAAAAAAAAAAAAAAAAAAAAAA" => false, false, Some((1, Why::ByteOutside));
    "AAAAAAAAAAAAAAAAAAAAAAAAAAAAAAAAAAAAAAAAAAAAAAAAAAAAAAAAAAAAAAAAAAAAAAAAAAAAAAAAAA" => false, false, Some((81, Why::PastColumn80));
    "                                                                               \u{7f}" => false, false, Some((80, Why::ByteOutside));
    "C                                                                                X" => true, false, Some((82, Why::PastColumn80));
    "C \u{7f}\u{7f}\u{7f}" => true, false, Some((3, Why::ByteOutside));
    "C \0xxxxxxxxxxxxxxxxxxxxxxxxxxxxxxxxxxxxxxxxxxxxxxxxxxxxxxxxxxxxxxxxxxxxxxxxxxxxxxxxxxxxxxxxxxxxxxxxxxxx" => true, false, Some((3, Why::ByteOutside));
};

/// A case, and its lines.
const CASES: &[(&str, &[&str])] = &[
    ("", &[]),
    ("\n", &[""]),
    ("A", &["A"]),
    ("A\n", &["A"]),
    ("A\r\n", &["A"]),
    ("A\r", &["A\r"]),
    ("\r\n", &[""]),
    ("\r", &["\r"]),
    ("A\r\r\n", &["A\r"]),
    ("\n\n", &["", ""]),
    ("A\nB", &["A", "B"]),
    ("A\nB\n", &["A", "B"]),
    ("A\n\r", &["A", "\r"]),
    ("A\r\nB\r\n", &["A", "B"]),
    ("A\n\n B \n", &["A", "", " B "]),
    ("\rA\n", &["\rA"]),
];

/// Whether a line is judged so.
fn is_judged(line: &[u8], is_comment: bool, is_end: bool, fault: &Option<(u32, Why)>) -> bool {
    line.len() < 1000
        && comment(line) == is_comment
        && ends_section(line) == is_end
        && line_fault(line) == *fault
}

#[test]
fn judges_lines(rt: HostRuntime) {
    for (line, is_comment, is_end, fault) in LINES {
        let is = is_judged(line.as_bytes(), *is_comment, *is_end, fault);
        assert!(rt; is, "at {line}");
    }
}

/// Whether the lines of the cards are these.
fn has_lines(cards: &Cards<'_>, lines: &[&str]) -> bool {
    for (at, line) in lines.iter().enumerate() {
        if at >= cards.len() {
            return false;
        }
        let read = cards.line(at);
        if read.number as usize != at + 1 || read.bytes != line.as_bytes() {
            return false;
        }
    }
    cards.len() == lines.len()
}

/// Whether a text is split into these lines.
fn is_split(alloc: Global, text: &[u8], lines: &[&str]) -> bool {
    let Ok(cards) = Cards::split(alloc, text) else {
        return false;
    };
    let is = has_lines(&cards, lines);
    drop(cards);
    is
}

#[test]
fn splits_into_lines(rt: HostRuntime) {
    for (text, lines) in CASES {
        let is = is_split(rt.alloc(), text.as_bytes(), lines);
        assert!(rt; is, "lines of {text}");
    }
}
