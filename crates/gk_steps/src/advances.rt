//! Advances over a piece, from one column of the table to another.
ghost use Rattle.std.specs.Prelude.{◌≡◌, ◌<◌, [], length};
ghost use Rattle.gk_steps.specs.declared.pattern.FieldKind.TheVariants.{Decimal};
ghost use Rattle.gk_steps.specs.Pattern.{Literal, FieldPiece, piece_value};
ghost use Rattle.gk_steps.specs.CharBoundaries.{AreBoundaries};
ghost use Rattle.gk_steps.specs.Advances.{IsAdvance, IsNearest};

use crate::decimal::LARGEST;
use crate::digits::longest_digits;
use crate::literal_ends::rest_after;
use crate::pattern::{FieldKind, Piece};

/// Returns the advance over a literal.
fn literal_advance(
    literal: &str,
    text: &str,
    boundaries: &[usize],
    below: &[bool],
    column: usize,
) -> Option<usize>
    requires boundaries { AreBoundaries text.now boundaries.now }
    requires column { column < length boundaries.now }
    requires width { length below.now ≡ length boundaries.now }
    ensures { IsAdvance (Literal literal.now)
        text.now boundaries.now below.now column result }
{
    let rest = rest_after(&text[boundaries[column]..], literal)?;
    let end = text.len() - rest.len();
    for back in 0..column + 1 {
        if boundaries[column - back] == end {
            return if below[column - back] {
                Some(column - back)
            } else {
                None
            };
        }
    }
    None
}

/// Returns the shortest advance over one or more characters.
fn plain_advance(below: &[bool], column: usize) -> Option<usize>
    requires { column < length below.now }
    ensures { IsNearest below.now column result }
{
    for back in 0..column {
        if below[column - 1 - back] {
            return Some(column - 1 - back);
        }
    }
    None
}

/// Returns the longest advance over a number. Scans a run of digits once.
fn decimal_advance(text: &str, boundaries: &[usize], below: &[bool], column: usize) -> Option<usize>
    requires boundaries { AreBoundaries text.now boundaries.now }
    requires column { column < length boundaries.now }
    requires width { length below.now ≡ length boundaries.now }
    ensures { IsAdvance (FieldPiece [] Decimal)
        text.now boundaries.now below.now column result }
{
    if column == 0 {
        return None;
    }
    let byte = text.as_bytes()[boundaries[column]];
    if byte == b'+' {
        return longest_digits(LARGEST, text, boundaries, below, column - 1);
    }
    if byte == b'-' {
        return longest_digits(LARGEST + 1, text, boundaries, below, column - 1);
    }
    longest_digits(LARGEST, text, boundaries, below, column)
}

/// Returns the preferred advance over a piece.
#[tactic(auto, using(std::proofs::lemmas::Grind::common_steps, crate::proofs::AdvanceLemmas::plain_is, crate::proofs::AdvanceLemmas::named, crate::proofs::AdvanceLemmas::field_piece))]
pub(crate) fn advance(
    piece: &Piece,
    text: &str,
    boundaries: &[usize],
    below: &[bool],
    column: usize,
) -> Option<usize>
    requires boundaries { AreBoundaries text.now boundaries.now }
    requires column { column < length boundaries.now }
    requires width { length below.now ≡ length boundaries.now }
    ensures { IsAdvance (piece_value piece.now)
        text.now boundaries.now below.now column result }
{
    match piece {
        Piece::Literal(literal) => literal_advance(literal, text, boundaries, below, column),
        Piece::Field { kind, .. } => match kind {
            FieldKind::Plain => plain_advance(below, column),
            FieldKind::Decimal => decimal_advance(text, boundaries, below, column),
        },
    }
}
