//! The rows of the table of a match.
ghost use Rattle.std.specs.Prelude.{◌≡◌, ◌<◌, ◌≤◌, ◌+◌, ℕ, List, [], length, IfOk, OnOk};
ghost use Rattle.gk_steps.specs.FilledCells.{GoesOnBy};
ghost use Rattle.gk_steps.specs.Pattern.{piece_value};
ghost use Rattle.gk_steps.specs.Digits.{IsNumberRow};
ghost use Rattle.gk_steps.specs.CharBoundaries.{AreBoundaries};
ghost use Rattle.gk_steps.specs.TableRows.{IsRow, IsRowOver, IsPlainRow};

use crate::advances::advance;
use crate::digits::{Digits, has_number};
use crate::filled_cells::CellCounter;
use crate::pattern::{FieldKind, Piece};
use std::alloc::{AllocError, Global};

/// Returns the row of no pieces, which match only an empty text.
pub(crate) fn first_row(
    cells: &mut CellCounter,
    alloc: Global,
    boundaries: &[usize],
) -> Result<Vec<bool>, AllocError>
    ensures row { (text : List ℕ) → AreBoundaries text boundaries.now
        → IfOk result (λ row. IsRow [] text boundaries.now row.items) }
    ensures most { cells.new.filled ≤ cells.old.filled + length boundaries.now }
    ensures least { cells.old.filled ≤ cells.new.filled }
    ensures filled { OnOk result
        (GoesOnBy (length boundaries.now) cells.old.filled cells.new.filled) }
{
    let mut row = Vec::new(alloc);
    for column in 0..boundaries.len() {
        cells.fill(&mut row, column == 0)?;
    }
    Ok(row)
}

// Returns the row of a plain field: each cell says whether a cell before it is true in the row below.
fn plain_field_row(
    cells: &mut CellCounter,
    alloc: Global,
    below: &[bool],
) -> Result<Vec<bool>, AllocError>
    ensures row { IfOk result (λ row. IsPlainRow (length below.now) below.now row.items) }
    ensures most { cells.new.filled ≤ cells.old.filled + length below.now }
    ensures least { cells.old.filled ≤ cells.new.filled }
    ensures filled { OnOk result
        (GoesOnBy (length below.now) cells.old.filled cells.new.filled) }
{
    let mut row = Vec::new(alloc);
    let mut any = false;
    for column in 0..below.len() {
        cells.fill(&mut row, any)?;
        any = any || below[column];
    }
    Ok(row)
}

// Returns the row of a number, in one pass: at a leading zero it uses what is known at the column after.
fn decimal_row(
    cells: &mut CellCounter,
    alloc: Global,
    text: &str,
    boundaries: &[usize],
    below: &[bool],
) -> Result<Vec<bool>, AllocError>
    requires boundaries { AreBoundaries text.now boundaries.now }
    requires width { length below.now ≡ length boundaries.now }
    ensures row { IfOk result (λ row.
        IsNumberRow (length boundaries.now)
        text.now boundaries.now below.now row.items) }
    ensures most { cells.new.filled ≤ cells.old.filled + length boundaries.now }
    ensures least { cells.old.filled ≤ cells.new.filled }
    ensures filled { OnOk result
        (GoesOnBy (length boundaries.now) cells.old.filled cells.new.filled) }
{
    let mut row = Vec::new(alloc);
    let mut digits = Digits {
        positive: false,
        negative: false,
    };
    for column in 0..boundaries.len() {
        let here = digits.next(text, boundaries, below, column);
        cells.fill(
            &mut row,
            has_number(text, boundaries, below, column, digits, here),
        )?;
        digits = here;
    }
    Ok(row)
}

/// Returns the row of a piece in front of those of the row below. Each cell says whether they match the text after its
/// position.
pub(crate) fn row_over(
    cells: &mut CellCounter,
    alloc: Global,
    piece: &Piece,
    text: &str,
    boundaries: &[usize],
    below: &[bool],
) -> Result<Vec<bool>, AllocError>
    requires boundaries { AreBoundaries text.now boundaries.now }
    requires width { length below.now ≡ length boundaries.now }
    ensures row { IfOk result (λ row.
        IsRowOver (piece_value piece.now)
        text.now boundaries.now below.now row.items) }
    ensures most { cells.new.filled ≤ cells.old.filled + length boundaries.now }
    ensures least { cells.old.filled ≤ cells.new.filled }
    ensures filled { OnOk result
        (GoesOnBy (length boundaries.now) cells.old.filled cells.new.filled) }
{
    if let Piece::Field { kind, .. } = piece {
        return match kind {
            FieldKind::Plain => plain_field_row(cells, alloc, below),
            FieldKind::Decimal => decimal_row(cells, alloc, text, boundaries, below),
        };
    }
    let mut row = Vec::new(alloc);
    for column in 0..boundaries.len() {
        let cell = advance(piece, text, boundaries, below, column).is_some();
        cells.fill(&mut row, cell)?;
    }
    Ok(row)
}
