//! Matching a text by a table.
ghost use Rattle.std.specs.Prelude.{◌≡◌, ◌⊎◌, ◌<◌, ◌≤◌, ◌+◌, ◌-◌, ◌*◌, ◌^◌, ◌++◌, ◌∷◌, [], ℕ, List, length};
ghost use Rattle.std.specs.Prelude.{false, IfOk, IfErr, OnOk, IsTrue, Some};
ghost use Rattle.std.specs.Str.{chars};
ghost use Rattle.gk_steps.specs.Pattern.{Literal, piece_value, piece_values, pattern_value};
ghost use Rattle.gk_steps.specs.Matching.{Matches, IsMatchResult};
ghost use Rattle.gk_steps.specs.Matching.{field_values};
ghost use Rattle.gk_steps.specs.CharBoundaries.{AreBoundaries};
ghost use Rattle.gk_steps.specs.TableRows.{IsWholeTable};
ghost use Rattle.gk_steps.specs.Captures.{IsKeptResult, KeepsMore, kept_if};
ghost use Rattle.gk_steps.specs.LiteralEnds.{EndsWith, FitsStart, FitsEnd};
ghost use Rattle.gk_steps.specs.Finding.{MayNeedTable};
ghost use Rattle.gk_steps.specs.FilledCells.{GoesOnBy, table_cells};

use crate::advances::advance;
use crate::captures::Captures;
use crate::char_boundaries::boundaries_of;
use crate::filled_cells::CellCounter;
use crate::leftmost::{PieceEnd, piece_end};
use crate::literal_ends::after_start;
use crate::literal_order::has_literals;
use crate::pattern::{Field, Pattern, Piece};
use crate::table_rows::{first_row, row_over};
use std::alloc::{AllocError, Global};

// Returns whether 64 bits can count the cells of a whole table.
fn can_count(pieces: &[Piece], boundaries: &[usize]) -> bool
    ensures fits { IsTrue result
        → (length pieces.now + 1) * length boundaries.now ≤ 2 ^ 64 - 1 }
    ensures only { result ≡ false → 0 < length boundaries.now
        → 2 ^ 64 - 1 < (length pieces.now + 1) * length boundaries.now }
{
    match pieces.len().checked_add(1) {
        Some(rows) => rows.checked_mul(boundaries.len()).is_some(),
        None => false,
    }
}

// Returns the rows for the last pieces, from none to all of them.
fn table_of(
    cells: &mut CellCounter,
    alloc: Global,
    pieces: &[Piece],
    text: &str,
    boundaries: &[usize],
) -> Result<Vec<Vec<bool>>, AllocError>
    requires { AreBoundaries text.now boundaries.now }
    ensures table { IfOk result (λ rows.
        IsWholeTable pieces.now text.now boundaries.now rows.items) }
    ensures most { cells.new.filled
        ≤ cells.old.filled + (length pieces.now + 1) * length boundaries.now }
    ensures least { cells.old.filled ≤ cells.new.filled }
    ensures filled { OnOk result
        (GoesOnBy ((length pieces.now + 1) * length boundaries.now)
        cells.old.filled cells.new.filled) }
{
    let mut rows = Vec::new(alloc);
    let first = first_row(cells, alloc, boundaries)?;
    rows.push(first)?;
    for below in 0..pieces.len() {
        let piece = &pieces[pieces.len() - 1 - below];
        let row = row_over(cells, alloc, piece, text, boundaries, &rows[below])?;
        rows.push(row)?;
    }
    Ok(rows)
}

// Reads the preferred match from the table.
fn read<'t, K: Captures<'t>>(
    alloc: Global,
    pieces: &[Piece],
    text: &'t str,
    boundaries: &[usize],
    rows: &[Vec<bool>],
) -> Result<K, AllocError>
    requires boundaries { AreBoundaries text.now boundaries.now }
    requires table { IsWholeTable pieces.now text.now boundaries.now rows.now }
    requires matched { (spans : List (List ℕ)) × Matches (piece_values pieces.now) text.now spans }
    ensures { IfOk result (λ kept.
        IsKeptResult K.keeps (piece_values pieces.now) text.now (Some kept)) }
{
    let mut kept = K::empty(alloc);
    let mut column = boundaries.len() - 1;
    for taken in 0..pieces.len() {
        let piece = &pieces[taken];
        let below = &rows[pieces.len() - 1 - taken];
        let next = advance(piece, text, boundaries, below, column).unwrap();
        kept.add(alloc, piece, &text[boundaries[column]..boundaries[next]])?;
        column = next;
    }
    Ok(kept)
}

// Matches pieces by a table over these boundaries.
fn match_pieces<'t, K: Captures<'t>>(
    cells: &mut CellCounter,
    alloc: Global,
    pieces: &[Piece],
    text: &'t str,
    boundaries: &[usize],
) -> Result<Option<K>, AllocError>
    requires { AreBoundaries text.now boundaries.now }
    ensures found { IfOk result (λ found.
        IsKeptResult K.keeps (piece_values pieces.now) text.now found) }
    ensures most { cells.new.filled
        ≤ cells.old.filled + (length pieces.now + 1) * length boundaries.now }
    ensures least { cells.old.filled ≤ cells.new.filled }
    ensures filled { OnOk result
        (GoesOnBy ((length pieces.now + 1) * length boundaries.now)
        cells.old.filled cells.new.filled) }
{
    let rows = table_of(cells, alloc, pieces, text, boundaries)?;
    if !rows[pieces.len()][boundaries.len() - 1] {
        return Ok(None);
    }
    let kept = read(alloc, pieces, text, boundaries, &rows)?;
    Ok(Some(kept))
}

impl Pattern {
    /// Returns the fields of the preferred match of a text, if there is one, and the number of cells of the table that
    /// were filled. All of them are filled, even if the match needs few. Memory is also refused if the table has more
    /// cells than 64 bits can count.
    pub fn matches_counted(
        &self,
        alloc: Global,
        text: &str,
    ) -> Result<(Option<Vec<Field>>, u64), AllocError>
        ensures found { IfOk result (λ r.
            IsMatchResult (pattern_value self.now) text.now (field_values r.0)) }
        ensures count { IfOk result (λ r.
            r.1 ≡ (length self.now.pieces.items + 1) * (length (chars text.now) + 1)) }
    {
        let boundaries = boundaries_of(alloc, text)?;
        if !can_count(&self.pieces, &boundaries) {
            return Err(AllocError);
        }
        let mut cells = CellCounter::new();
        let found = match_pieces(&mut cells, alloc, &self.pieces, text, &boundaries)?;
        Ok((found, cells.filled))
    }
}

// Matches the pieces that are left by a table, and adds to what is kept so far.
#[inline(never)]
fn match_rest<'t, K: Captures<'t>>(
    cells: &mut CellCounter,
    alloc: Global,
    kept: &mut K,
    left: &[Piece],
    rest: &'t str,
) -> Result<bool, AllocError>
    ensures found { IfOk result (λ found. KeepsMore K.keeps kept.old
        (piece_values left.now) rest.now (kept_if found kept.new)) }
    ensures most { cells.new.filled
        ≤ cells.old.filled + table_cells (piece_values left.now) rest.now }
    ensures least { cells.old.filled ≤ cells.new.filled }
    ensures filled { OnOk result (GoesOnBy (table_cells (piece_values left.now) rest.now)
        cells.old.filled cells.new.filled) }
{
    let boundaries = boundaries_of(alloc, rest)?;
    match match_pieces(cells, alloc, left, rest, &boundaries)? {
        Some(later) => {
            kept.join(later)?;
            Ok(true)
        }
        None => Ok(false),
    }
}

// Matches pieces from the left, and adds to what is kept so far. A table is made for the pieces from the first one whose
// share depends on the pieces after it, if the literals among them stand in the rest of the text in order. What is kept
// is unspecified if there is no match, or after an error.
// Kept out of line, so that an entry that is passed over costs little.
#[inline(never)]
fn match_from_left<'t, K: Captures<'t>>(
    cells: &mut CellCounter,
    alloc: Global,
    kept: &mut K,
    pieces: &[Piece],
    text: &'t str,
) -> Result<bool, AllocError>
    ensures found { IfOk result (λ found. KeepsMore K.keeps kept.old
        (piece_values pieces.now) text.now (kept_if found kept.new)) }
    ensures table { IfErr result (λ e. K.allocates ⊎ MayNeedTable (piece_values pieces.now)) }
    ensures most { cells.new.filled
        ≤ cells.old.filled + table_cells (piece_values pieces.now) text.now }
    ensures least { cells.old.filled ≤ cells.new.filled }
{
    let mut left = pieces;
    let mut rest = text;
    'pieces: while let Some((piece, after)) = left.split_first() {
        match piece_end(piece, after, rest) {
            PieceEnd::At(position) => {
                kept.add(alloc, piece, &rest[..position])?;
                left = after;
                rest = &rest[position..];
            }
            PieceEnd::Nowhere => return Ok(false),
            PieceEnd::Unknown => {
                if !has_literals(left, rest) {
                    return Ok(false);
                }
                return match_rest(cells, alloc, kept, left, rest);
            }
        }
    }
    Ok(rest.is_empty())
}

// Matches pieces and the literal after them, which ends the text if it isn't longer, and adds to what is kept so far.
#[inline(always)]
fn match_before<'t, K: Captures<'t>>(
    cells: &mut CellCounter,
    alloc: Global,
    kept: &mut K,
    pieces: &[Piece],
    last: &Piece,
    literal: &str,
    text: &'t str,
) -> Result<bool, AllocError>
    requires last { piece_value last.now ≡ Literal literal.now }
    requires ends { length literal.now ≤ length text.now → EndsWith text.now literal.now }
    ensures found { IfOk result (λ found. KeepsMore K.keeps kept.old
        (piece_values pieces.now ++ Literal literal.now ∷ []) text.now (kept_if found kept.new)) }
    ensures table { IfErr result (λ e. K.allocates ⊎ MayNeedTable (piece_values pieces.now)) }
    ensures most { cells.new.filled
        ≤ cells.old.filled + table_cells (piece_values pieces.now) text.now }
    ensures least { cells.old.filled ≤ cells.new.filled }
{
    if text.len() < literal.len() {
        return Ok(false);
    }
    let size = text.len() - literal.len();
    if !match_from_left(cells, alloc, kept, pieces, &text[..size])? {
        return Ok(false);
    }
    kept.add(alloc, last, &text[size..])?;
    Ok(true)
}

/// Matches pieces that fit the ends of a text, and replaces what was kept. The literals at their ends aren't compared
/// again. A table is made only for the pieces from the first one whose share depends on the pieces after it. What is
/// kept is unspecified if there is no match, or after an error.
#[inline(always)]
pub(crate) fn match_fitting<'t, K: Captures<'t>>(
    cells: &mut CellCounter,
    alloc: Global,
    kept: &mut K,
    pieces: &[Piece],
    text: &'t str,
) -> Result<bool, AllocError>
    requires start { FitsStart (piece_values pieces.now) text.now }
    requires back { FitsEnd (piece_values pieces.now) text.now }
    ensures found { IfOk result (λ found.
        IsKeptResult K.keeps (piece_values pieces.now) text.now (kept_if found kept.new)) }
    ensures table { IfErr result (λ e. K.allocates ⊎ MayNeedTable (piece_values pieces.now)) }
    ensures most { cells.new.filled
        ≤ cells.old.filled + table_cells (piece_values pieces.now) text.now }
    ensures least { cells.old.filled ≤ cells.new.filled }
{
    *kept = K::empty(alloc);
    let (left, rest) = after_start(pieces, text);
    if let Some((last, middle)) = left.split_last() {
        if let Piece::Literal(literal) = last {
            return match_before(cells, alloc, kept, middle, last, literal, rest);
        }
    }
    match_from_left(cells, alloc, kept, left, rest)
}

impl Pattern {
    /// Returns the fields of the preferred match of a text, if there is one. A text that doesn't fit the ends of the
    /// pattern is passed over. A table is made only for the pieces from the first field whose share the literal and
    /// the field after it leave open. At most one whole table is filled: (pieces + 1) times (characters + 1) cells. An
    /// error comes only if memory was refused, and never for a text that is passed over.
    pub fn matches(&self, alloc: Global, text: &str) -> Result<Option<Vec<Field>>, AllocError>
        ensures found { IfOk result (λ found.
            IsMatchResult (pattern_value self.now) text.now (field_values found)) }
        // Memory is never refused to a text that is passed over.
        ensures memory { IfErr result (λ e. FitsStart (pattern_value self.now) text.now
            × FitsEnd (pattern_value self.now) text.now) }
    {
        if !self.can_match(text) {
            return Ok(None);
        }
        let mut cells = CellCounter::new();
        let mut fields = Vec::new(alloc);
        let found = match_fitting(&mut cells, alloc, &mut fields, &self.pieces, text)?;
        Ok(if found { Some(fields) } else { None })
    }
}
