//! Faults of a table of files and of its rows.
ghost use Rattle.std.specs.Prelude.{◌≡◌, map};
ghost use Rattle.gk_gherkin.specs.Feature.{texts, block_value};
ghost use Rattle.gk_run.specs.Acting as acting;
ghost use Rattle.gk_report.specs.ReportTexts.{Pushes};
ghost use Rattle.gk_explain.specs.Tables as spec;
ghost use Rattle.gk_explain.specs.Tables.{file_value};

use crate::shown::push_shown;
use gk_gherkin::Block;
use gk_world::{LONGEST_TEXT, is_bad_name};
use std::alloc::AllocError;

/// The name and the text that a row of a table gives for a file.
#[derive(Clone, Copy)]
pub struct RowFile<'a> {
    pub name: &'a str,
    pub text: &'a str,
}

// Appends a cell between quotes, after a space.
fn push_cell(out: &mut String, cell: &str) -> Result<(), AllocError>
    ensures { Pushes out.old (spec.quoted cell.now) result out.new }
{
    out.push_str(" \"")?;
    push_shown(out, cell)?;
    out.push_str("\"")
}

// Appends the cells of a row, each between quotes.
fn push_cells(out: &mut String, cells: &[String]) -> Result<(), AllocError>
    ensures { Pushes out.old (spec.quoted_cells (texts cells.now)) result out.new }
{
    for cell in cells {
        push_cell(out, cell.as_str())?;
    }
    Ok(())
}

// Appends the line with the header that was found.
#[tactic(auto, unfolding(crate::specs::Tables::header_line))]
fn push_header(out: &mut String, cells: &[String]) -> Result<(), AllocError>
    ensures { Pushes out.old (spec.header_line (texts cells.now)) result out.new }
{
    out.push_str("      found    the header")?;
    push_cells(out, cells)?;
    out.push_str("\n")?;
    Ok(())
}

// Appends the line with the header of these rows, which is their first row.
fn push_first(out: &mut String, rows: &[Vec<String>]) -> Result<(), AllocError>
    ensures { Pushes out.old (spec.found_header (map (λ row. texts row.items) rows.now))
        result out.new }
{
    match rows.split_first() {
        Some((header, _)) => push_header(out, header),
        None => out.push_str("      found    no row\n"),
    }
}

/// Appends which table of files is expected, and the header of the one that was found. An error comes only if a
/// growth was refused; a part of it may have been appended then.
pub fn push_table(out: &mut String, block: &Block) -> Result<(), AllocError>
    ensures { Pushes out.old (spec.other_table (block_value block.now)) result out.new }
{
    match block {
        Block::Table(rows) => {
            out.push_str("      expected the header \"name\" \"text\", and rows of two cells\n")?;
            push_first(out, rows)
        }
        _ => Ok(()),
    }
}

// Returns the file that a row of a table gives.
fn file_of(row: &[String]) -> RowFile<'_>
    ensures { file_value result ≡ acting.row_file (texts row.now) }
{
    match row {
        [name, text] => RowFile {
            name: name.as_str(),
            text: text.as_str(),
        },
        _ => RowFile { name: "", text: "" },
    }
}

// Returns whether a file can't be written because of its name or its text.
fn is_refused(file: RowFile<'_>) -> bool
    ensures { result ≡ spec.is_refused (file_value file.entry) }
{
    is_bad_name(file.name) || file.text.len() > LONGEST_TEXT
}

// Returns the first file of these rows that can't be written. If all can, it has no name and no text.
fn first_refused(rows: &[Vec<String>]) -> RowFile<'_>
    ensures { file_value result
        ≡ spec.first_refused (map (λ row. texts row.items) rows.now) }
{
    for row in rows {
        let file = file_of(row);
        if is_refused(file) {
            return file;
        }
    }
    RowFile { name: "", text: "" }
}

/// Returns the file at which writing the rows of a table ends: the first that can't be written. For a table
/// without such a row, and for any other block, it has no name and no text. Doesn't allocate.
pub fn refused_file(block: &Block) -> RowFile<'_>
    ensures { file_value result ≡ spec.refused_file (block_value block.now) }
{
    match block {
        Block::Table(rows) => match rows.split_first() {
            Some((_, files)) => first_refused(files),
            None => RowFile { name: "", text: "" },
        },
        _ => RowFile { name: "", text: "" },
    }
}
