//! Texts that a pattern can't match because its literals don't stand there in order, found without a table.
ghost use Rattle.std.specs.Prelude.{MatchBool};
ghost use Rattle.gk_steps.specs.Pattern.{piece_values};
ghost use Rattle.gk_steps.specs.LiteralOrder.{HasLiterals, LacksLiterals};

use crate::pattern::Piece;

/// Returns whether the literals among some pieces stand in a text in order. Takes each one at the first place after the
/// one before it, since that leaves the most for the others. Doesn't allocate.
pub(crate) fn has_literals(pieces: &[Piece], text: &str) -> bool
    ensures { MatchBool result (HasLiterals (piece_values pieces.now) text.now)
        (LacksLiterals (piece_values pieces.now) text.now) }
{
    let mut left = pieces;
    let mut rest = text;
    'pieces: while let Some((piece, after)) = left.split_first() {
        if let Piece::Literal(literal) = piece {
            match rest.split_once(literal.as_str()) {
                Some((_, later)) => rest = later,
                None => return false,
            }
        }
        left = after;
    }
    true
}
