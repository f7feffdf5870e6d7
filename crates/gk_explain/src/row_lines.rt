//! The row that a case comes from, and the line that names it.
ghost use Rattle.std.specs.Prelude.{◌≡◌, map};
ghost use Rattle.gk_select.specs.ExampleRows.{cell_value, entry_value, example_row_value};
ghost use Rattle.gk_report.specs.ReportTexts.{Pushes};
ghost use Rattle.gk_explain.specs.RowLines as spec;
ghost use Rattle.gk_explain.specs.RowLines.{borrowed_row};

use crate::shown::push_escaped;
use gk_select::{ExampleCell, ExampleRow};
use std::alloc::AllocError;

/// Returns the row at the index of a case, if the case comes from one. Doesn't allocate.
pub fn row_of(rows: &[Option<ExampleRow>], index: usize) -> Option<&ExampleRow>
    ensures { borrowed_row result ≡ spec.row_of index (map entry_value rows.now) }
{
    match rows.get(index) {
        Some(Some(row)) => Some(row),
        _ => None,
    }
}

// Returns what is between the cell with this index and the text before it.
fn separator(index: usize) -> &'static str
    ensures { result.now ≡ spec.separator index }
{
    if index == 0 { ": " } else { ", " }
}

// Appends the cell with this index after its header.
fn push_cell(out: &mut String, index: usize, cell: &ExampleCell) -> Result<(), AllocError>
    ensures { Pushes out.old (spec.cell_text (index, cell_value cell.now)) result out.new }
{
    out.push_str(separator(index))?;
    push_escaped(out, cell.header.as_str())?;
    out.push_str("=")?;
    push_escaped(out, cell.text.as_str())
}

// Appends cells, each after its header.
fn push_cells(out: &mut String, cells: &[ExampleCell]) -> Result<(), AllocError>
    ensures { Pushes out.old (spec.cells_text (map cell_value cells.now)) result out.new }
{
    for (index, cell) in cells.iter().enumerate() {
        push_cell(out, index, cell)?;
    }
    Ok(())
}

// Appends the line that names a row.
#[tactic(auto, unfolding(crate::specs::RowLines::row_line))]
fn push_row_line(out: &mut String, row: &ExampleRow) -> Result<(), AllocError>
    ensures { Pushes out.old (spec.row_line (example_row_value row.now)) result out.new }
{
    write!(out, "  row {}", row.number)?;
    push_cells(out, &row.cells)?;
    out.push_str("\n")
}

/// Appends the line that names a row of an outline, if there is one. An error comes only if a growth was
/// refused; a part of the line may have been appended then.
pub fn push_named_row(out: &mut String, row: Option<&ExampleRow>) -> Result<(), AllocError>
    ensures { Pushes out.old (spec.named_row (borrowed_row row.entry)) result out.new }
{
    match row {
        Some(row) => push_row_line(out, row),
        None => Ok(()),
    }
}
