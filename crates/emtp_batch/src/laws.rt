//! What is true of every batch in the field's own words. The functions make nothing: their clauses are proved.

ghost use Rattle.std.specs.Prelude.{◌≡◌, ◌<◌, ◌++◌, ◌∷◌, ℕ, List, All, Ok, Some, length, slice_get};
ghost use Rattle.emtp_case.specs.Switch.{card_times};
ghost use Rattle.emtp_case.specs.declared.switch.Times.{Times};
ghost use Rattle.emtp_batch.specs.Altered.{altered};
ghost use Rattle.emtp_batch.specs.Items.{items_of};
ghost use Rattle.emtp_batch.specs.Laws.{IsGreatestPeak, IsPeak, stars};
ghost use Rattle.emtp_batch.specs.Report.{report_of, reports_of};
ghost use Rattle.emtp_batch.specs.Row.{row_times};
ghost use Rattle.emtp_batch.specs.Summary.{first_row_with, greatest_peak};
ghost use Rattle.emtp_batch.specs.declared.table.Row.{Row};

use emtp_case::Case;
use emtp_machine::samples_are_in_range;

/// A line of stars, two a time switch, keeps the times of the cards.
pub fn stars_keep_the_cards()
    ensures { (cards : List Times) (line : List ℕ) → items_of line ≡ stars cards → row_times cards line ≡ Ok cards }
{}

/// A row with the times of the cards gives the case's own end and its own peaks.
pub fn own_times_give_the_case(case: &Case)
    ensures { (row : Row) → row.times ≡ card_times case.now.parts.switches
        → report_of (altered case.now.parts row) ≡ report_of case.now.parts }
{}

/// The report of a row doesn't depend on the rows before and after it.
pub fn each_row_stands_alone(case: &Case)
    ensures { (before after : List Row) (row : Row)
        → slice_get (reports_of case.now.parts (before ++ row ∷ after)) (length before)
        ≡ Some (report_of (altered case.now.parts row)) }
{}

/// Each peak of a case's run is from 0 to 10^18 units.
pub fn peaks_are_in_range(case: &Case)
    ensures { All IsPeak (report_of case.now.parts).peaks }
{
    samples_are_in_range(case);
}

/// No row has a greater peak of an analog channel than the one that the summary names, and the row that it names is the
/// first that has it.
pub fn greatest_peak_is_of_a_row(case: &Case)
    ensures { (rows : List Row) (channel : ℕ) → 0 < length rows
        → IsGreatestPeak channel (reports_of case.now.parts rows) (greatest_peak channel (reports_of case.now.parts rows))
        (first_row_with channel (greatest_peak channel (reports_of case.now.parts rows)) (reports_of case.now.parts rows)) }
{}
