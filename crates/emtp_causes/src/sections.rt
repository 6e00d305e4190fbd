//! Where sections end.

ghost use Rattle.std.specs.Prelude.{◌≡◌, ◌++◌, OnOk};
ghost use Rattle.emtp_causes.specs.Sections.{after, blank_text, end_line, end_text, next, section_name, sections_text};

use crate::texts::{
    BLOCKS, BRANCHES, ENDED_AT_LINE, INITIAL_CONDITIONS, NODE_OUTPUTS, SOURCES, SUPPLEMENTAL_CARDS,
    SWITCHES, TACS_OUTPUTS, TACS_SOURCES, THE_SECTION, WHICH_IS_BLANK,
};
use emtp_card::Cards;
use emtp_text::{put, put_number};
use emtp_walk::{Kind, LineReading, read_at};
use std::alloc::AllocError;

/// The section that a line stands in.
#[derive(Clone, Copy, PartialEq, Eq)]
pub(crate) enum Section {
    /// None: in front of the sections, or behind them.
    Outside,
    /// The blocks of the control.
    Blocks,
    /// The sources of the control.
    TacsSources,
    /// The supplemental cards of the control.
    Extras,
    /// The outputs of the control.
    TacsOutputs,
    /// The initial conditions of the control.
    Initial,
    /// The branches.
    Branches,
    /// The switches.
    Switches,
    /// The sources.
    Sources,
    /// The node outputs.
    Outputs,
}

/// Puts a line after a text for each section that one of these lines ends: its name, and the line that ends it.
pub(crate) fn put_sections(
    out: &mut Vec<u8>,
    cards: &Cards<'_>,
    readings: &[LineReading],
) -> Result<(), AllocError>
    ensures { OnOk result (out.new.items ≡ out.old.items ++ sections_text readings.now cards.now) }
{
    let mut section = Section::Outside;
    for at in 0..cards.len().min(readings.len()) {
        let read = read_at(readings, at);
        put_end(out, section, at + 1, cards.line(at).bytes, read.kind)?;
        section = after(section, read.kind);
    }
    Ok(())
}

/// The section behind a line.
fn after(section: Section, kind: Kind) -> Section
    ensures { result ≡ after section kind }
{
    match kind {
        Kind::SecondRun => Section::Branches,
        Kind::Hybrid => Section::Blocks,
        Kind::SectionEnd => next(section),
        _ => section,
    }
}

/// The section behind another one.
fn next(section: Section) -> Section
    ensures { result ≡ next section }
{
    match section {
        Section::Blocks => Section::TacsSources,
        Section::TacsSources => Section::Extras,
        Section::Extras => Section::TacsOutputs,
        Section::TacsOutputs => Section::Initial,
        Section::Initial => Section::Branches,
        Section::Branches => Section::Switches,
        Section::Switches => Section::Sources,
        Section::Sources => Section::Outputs,
        Section::Outputs | Section::Outside => Section::Outside,
    }
}

/// Puts that a line ends a section, where it does.
fn put_end(
    out: &mut Vec<u8>,
    section: Section,
    number: usize,
    line: &[u8],
    kind: Kind,
) -> Result<(), AllocError>
    ensures { OnOk result (out.new.items ≡ out.old.items ++ end_text section number line.now kind) }
{
    match (section, kind) {
        (Section::Outside, _) => Ok(()),
        (_, Kind::SectionEnd) => put_end_line(out, section_name(section), number, line),
        _ => Ok(()),
    }
}

fn put_end_line(
    out: &mut Vec<u8>,
    name: &[u8],
    number: usize,
    line: &[u8],
) -> Result<(), AllocError>
    ensures { OnOk result (out.new.items ≡ out.old.items ++ end_line name.now number line.now) }
{
    put(out, THE_SECTION)?;
    put(out, name)?;
    put(out, ENDED_AT_LINE)?;
    put_number(out, number)?;
    put_blank(out, line)?;
    put(out, b".\n")?;
    Ok(())
}

/// Puts that a line is blank, where it is.
fn put_blank(out: &mut Vec<u8>, line: &[u8]) -> Result<(), AllocError>
    ensures { OnOk result (out.new.items ≡ out.old.items ++ blank_text line.now) }
{
    put(out, blank_text(line))
}

/// A blank line may be one by mistake.
fn blank_text(line: &[u8]) -> &'static [u8]
    ensures { result.now ≡ blank_text line.now }
{
    if line.starts_with(b"BLANK") {
        b""
    } else {
        WHICH_IS_BLANK
    }
}

fn section_name(section: Section) -> &'static [u8]
    ensures { result.now ≡ section_name section }
{
    match section {
        Section::Outside => b"",
        Section::Blocks => BLOCKS,
        Section::TacsSources => TACS_SOURCES,
        Section::Extras => SUPPLEMENTAL_CARDS,
        Section::TacsOutputs => TACS_OUTPUTS,
        Section::Initial => INITIAL_CONDITIONS,
        Section::Branches => BRANCHES,
        Section::Switches => SWITCHES,
        Section::Sources => SOURCES,
        Section::Outputs => NODE_OUTPUTS,
    }
}
