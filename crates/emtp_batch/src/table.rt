//! The table of switch times: a row a line.

ghost use Rattle.emtp_case.specs.declared.limit.TheConstants.{MOST_SWITCHES};
ghost use Rattle.std.specs.Prelude.{◌≡◌, ◌≤◌, length, All, IfOk, IfErr};
ghost use Rattle.emtp_batch.specs.held.Altered.{time_switches};
ghost use Rattle.emtp_batch.specs.held.Answer.{IsRefused};
ghost use Rattle.emtp_batch.specs.held.Row.{AreTimesInRange, IsRowFor};
ghost use Rattle.emtp_batch.specs.Table.{is_skipped, row_on_line, rows_in, times_table};
ghost use Rattle.emtp_card.specs.Lines.{is_blank};
ghost use Rattle.std.specs.List.{list_all};

use crate::row::{card_times, read_row};
use emtp_card::{MAX_BYTES, next_line};
use emtp_case::{Case, Items, Times};
use std::alloc::{AllocError, AllocFailed, Global};

/// The greatest number of rows of a table.
pub const MAX_ROWS: usize = 1_000;

/// A row of the table: the times of the time switches of a case, in card order.
#[derive(Drop)]
pub struct Row {
    /// One entry a time switch.
    pub times: Items<Times>,
}

/// Why a table isn't read.
#[derive(Debug, Drop)]
pub enum TimesFault {
    /// An item that gives no time, is lacking or is one too many; a row too many, at its first item; a table without
    /// rows, at the line after its last. A table of too many bytes is refused at line 0 and item 0.
    Bad {
        /// The line, counted from 1.
        line: u32,
        /// The item, counted from 1.
        item: u32,
    },
    /// Memory was wanting.
    NoMemory,
}

impl From<AllocError> for TimesFault {
    ghost use Rattle.emtp_batch.specs.declared.table.TimesFault.TheVariants.{NoMemory};

    ghost from_gives = { λ _ fault. fault ≡ NoMemory };

    fn from(_error: AllocError) -> TimesFault {
        TimesFault::NoMemory
    }
}

impl<T: Drop> From<AllocFailed<T>> for TimesFault {
    ghost use Rattle.emtp_batch.specs.declared.table.TimesFault.TheVariants.{NoMemory};

    ghost from_gives = { λ _ fault. fault ≡ NoMemory };

    fn from(_error: AllocFailed<T>) -> TimesFault {
        TimesFault::NoMemory
    }
}

/// The rows of a table of switch times for a case.
///
/// A line of blanks and one that begins with `#` are no rows. Each other line has a closing and an opening time for
/// each time switch, in card order, parted by blanks: a number of seconds, `*` for the card's own time, or `-` for
/// never opening. This project's own form.
#[tactic(auto, unfolding(crate::specs::Table::times_table))]
pub fn read_times(alloc: Global, bytes: &[u8], case: &Case) -> Result<Vec<Row>, TimesFault>
    ensures ok { IfOk result (λ rows. times_table bytes.now case.now.parts ≡ Ok rows.items) }
    ensures bad { IfErr result (λ fault. IsRefused fault (times_table bytes.now case.now.parts)) }
    ensures fit { IfOk result (λ rows. All (IsRowFor (time_switches case.now.parts)) rows.items) }
{
    if bytes.len() > MAX_BYTES {
        return Err(TimesFault::Bad { line: 0, item: 0 });
    }
    let cards = card_times(alloc, case)?;
    read_rows(alloc, bytes, &cards)
}

/// Whether a line is no row.
fn is_skipped(line: &[u8]) -> bool
    ensures { result ≡ is_skipped line.now }
{
    all_blank(line) || line.starts_with(b"#")
}

fn all_blank(line: &[u8]) -> bool
    ensures { result ≡ list_all is_blank line.now }
{
    line.iter().all(|byte| *byte == b' ')
}

/// The rows of a table for time switches with these times on their cards.
#[tactic(auto, unfolding(crate::specs::Table::rows_in))]
fn read_rows(alloc: Global, bytes: &[u8], cards: &[Times]) -> Result<Vec<Row>, TimesFault>
    requires short { length bytes.now ≤ MAX_BYTES }
    requires few { length cards.now ≤ MOST_SWITCHES }
    requires cards { All AreTimesInRange cards.now }
    ensures ok { IfOk result (λ rows. rows_in cards.now bytes.now ≡ Ok rows.items) }
    ensures bad { IfErr result (λ fault. IsRefused fault (rows_in cards.now bytes.now)) }
    ensures fit { IfOk result (λ rows. All (IsRowFor (length cards.now)) rows.items) }
{
    let mut rows = Vec::new(alloc);
    let mut rest = bytes;
    let mut line = 1;
    while let Some((text, tail)) = next_line(rest) {
        if !is_skipped(text) {
            let row = row_after(alloc, rows.len(), text, line, cards)?;
            rows.push(row)?;
        }
        rest = tail;
        line += 1;
    }
    if rows.is_empty() {
        return Err(TimesFault::Bad { line, item: 1 });
    }
    Ok(rows)
}

/// The row of a line after so many rows.
fn row_after(
    alloc: Global,
    count: usize,
    text: &[u8],
    line: u32,
    cards: &[Times],
) -> Result<Row, TimesFault>
    requires few { length cards.now ≤ MOST_SWITCHES }
    requires cards { All AreTimesInRange cards.now }
    ensures ok { IfOk result (λ row. row_on_line cards.now line count text.now ≡ Ok row) }
    ensures bad { IfErr result (λ fault. IsRefused fault (row_on_line cards.now line count text.now)) }
    ensures fits { IfOk result (IsRowFor (length cards.now)) }
{
    if count == MAX_ROWS {
        return Err(TimesFault::Bad { line, item: 1 });
    }
    read_row(alloc, text, line, cards)
}
