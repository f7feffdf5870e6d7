//! What the first pieces of a pattern take from the left, if the pieces after them leave no choice.
ghost use Rattle.std.specs.Prelude.{◌≡◌, ◌≤◌, [], ◌∷◌, ℕ, List, length, false, IsTrue, MatchBool};
ghost use Rattle.gk_steps.specs.declared.pattern.FieldKind.TheVariants as kinds;
ghost use Rattle.gk_steps.specs.Pattern.{Literal, FieldPiece, piece_value, piece_values};
ghost use Rattle.gk_steps.specs.Finding.{MayTakeDigit};
ghost use Rattle.gk_steps.specs.Leftmost.{CanStandAt, IsFirstPosition, IsPieceEnd, IsEndBefore};
ghost use Rattle.gk_steps.specs.Leftmost.{BeginWithoutDigit, HasNumberTo, IsDigitsEnd};

use crate::decimal::number_of;
use crate::literal_ends::{begins_with, begins_with_bytes, ends_with};
use crate::pattern::{FieldKind, Piece};

/// How much of a text the first piece of a pattern takes.
#[derive(Clone, Copy, Debug, PartialEq, Eq)]
pub(crate) enum PieceEnd {
    /// This number of bytes.
    At(usize),
    /// The pattern has no match.
    Nowhere,
    /// It depends on the pieces after it.
    Unknown,
}

// Returns whether a literal occurs at a position that is a character boundary.
#[inline(always)]
#[tactic(auto, using(std::proofs::lemmas::Grind::common_steps, crate::proofs::LeftmostLemmas::stands, crate::proofs::LeftmostLemmas::match_not, crate::proofs::LeftmostLemmas::compared))]
fn stands_at(literal: &str, text: &str, position: usize) -> bool
    requires { position ≤ length text.now }
    ensures { MatchBool result (CanStandAt literal.now text.now position)
        (CanStandAt literal.now text.now position → ⊥) }
{
    begins_with_bytes(&text.as_bytes()[position..], literal.as_bytes())
        && text.is_char_boundary(position)
}

// Returns the first position after one or more characters at which an empty literal occurs.
fn first_boundary(literal: &str, text: &str) -> Option<usize>
    ensures { IsFirstPosition literal.now text.now result }
{
    (1..text.len() + 1).find(|position| stands_at(literal, text, *position))
}

// Returns the first position after one or more characters at which a literal occurs that begins with this byte.
#[inline(always)]
fn first_of_byte(first: u8, literal: &str, text: &str) -> Option<usize>
    requires { (rest : List ℕ) × (literal.now ≡ first ∷ rest) }
    ensures { IsFirstPosition literal.now text.now result }
{
    let bytes = text.as_bytes();
    if bytes.len() < literal.len() {
        return None;
    }
    for position in 1..bytes.len() - literal.len() + 1 {
        if bytes[position] == first && stands_at(literal, text, position) {
            return Some(position);
        }
    }
    None
}

// Returns the first position after one or more characters at which a literal occurs.
#[inline(always)]
fn first_position(literal: &str, text: &str) -> Option<usize>
    ensures { IsFirstPosition literal.now text.now result }
{
    match literal.as_bytes().first() {
        Some(first) => first_of_byte(*first, literal, text),
        None => first_boundary(literal, text),
    }
}

// Returns what a literal takes.
#[inline(always)]
fn literal_end(literal: &str, after: &[Piece], text: &str) -> PieceEnd
    ensures { IsPieceEnd (Literal literal.now) (piece_values after.now) text.now result }
{
    if begins_with(text, literal) {
        PieceEnd::At(literal.len())
    } else {
        PieceEnd::Nowhere
    }
}

// Returns what a plain field takes before a literal that is the last piece.
#[inline(always)]
fn end_before_last(literal: &str, text: &str) -> PieceEnd
    ensures { IsEndBefore literal.now [] text.now result }
{
    if literal.len() < text.len() && ends_with(text, literal) {
        PieceEnd::At(text.len() - literal.len())
    } else {
        PieceEnd::Nowhere
    }
}

// Returns what a plain field takes before a literal that another plain field follows: the less the first takes, the
// more is left for the other.
#[inline(always)]
fn end_before_field(literal: &str, other: &str, after: &[Piece], text: &str) -> PieceEnd
    ensures { let left = FieldPiece other.now kinds.Plain ∷ piece_values after.now in
        IsEndBefore literal.now left text.now result }
{
    match first_position(literal, text) {
        Some(position) => PieceEnd::At(position),
        None => PieceEnd::Nowhere,
    }
}

// Returns what a plain field takes before a literal that a number follows, if the literal occurs at most once.
fn end_before_number(literal: &str, other: &str, after: &[Piece], text: &str) -> PieceEnd
    ensures { let left = FieldPiece other.now kinds.Decimal ∷ piece_values after.now in
        IsEndBefore literal.now left text.now result }
{
    let Some(position) = first_position(literal, text) else {
        return PieceEnd::Nowhere;
    };
    match first_position(literal, &text[position..]) {
        Some(_) => PieceEnd::Unknown,
        None => PieceEnd::At(position),
    }
}

// Returns what a plain field takes before a literal.
#[inline(always)]
fn end_before(literal: &str, after: &[Piece], text: &str) -> PieceEnd
    ensures { IsEndBefore literal.now (piece_values after.now) text.now result }
{
    match after.split_first() {
        None => end_before_last(literal, text),
        Some((piece, later)) => match piece {
            Piece::Field { name, kind } => match kind {
                FieldKind::Plain => end_before_field(literal, name, later, text),
                FieldKind::Decimal => end_before_number(literal, name, later, text),
            },
            Piece::Literal(_) => PieceEnd::Unknown,
        },
    }
}

// Returns what a plain field takes.
#[inline(always)]
fn plain_end(after: &[Piece], text: &str) -> PieceEnd
    ensures { (name : List ℕ)
        → IsPieceEnd (FieldPiece name kinds.Plain) (piece_values after.now) text.now result }
{
    match after.split_first() {
        None => {
            if text.is_empty() {
                PieceEnd::Nowhere
            } else {
                PieceEnd::At(text.len())
            }
        }
        Some((piece, later)) => match piece {
            Piece::Literal(literal) => end_before(literal, later, text),
            Piece::Field { .. } => PieceEnd::Unknown,
        },
    }
}

// Returns whether pieces begin with a literal whose first byte is no digit, or whether there are no pieces.
fn begin_without_digit(pieces: &[Piece]) -> bool
    ensures none { IsTrue result → BeginWithoutDigit (piece_values pieces.now) }
    ensures other { result ≡ false → MayTakeDigit (piece_values pieces.now) }
{
    let Some(piece) = pieces.first() else {
        return true;
    };
    match piece {
        Piece::Literal(literal) => match literal.as_bytes().first() {
            Some(byte) => !byte.is_ascii_digit(),
            None => false,
        },
        Piece::Field { .. } => false,
    }
}

// Returns the first position after the beginning of some bytes at which no digit is.
fn digits_end(bytes: &[u8]) -> usize
    ensures { IsDigitsEnd bytes.now result }
{
    let mut end = 1;
    while end < bytes.len() && bytes[end].is_ascii_digit() {
        end += 1;
    }
    end
}

// Returns whether a text has a number before a position.
#[tactic(auto, using(std::proofs::lemmas::Grind::common_steps, crate::proofs::LeftmostLemmas::number_tested))]
fn has_number_to(text: &str, end: usize) -> bool
    ensures { MatchBool result (HasNumberTo text.now end) (HasNumberTo text.now end → ⊥) }
{
    text.is_char_boundary(end) && number_of(&text[..end]).is_some()
}

// Returns what a number takes. It takes all digits, unless the pieces after it may take a digit first.
fn decimal_end(after: &[Piece], text: &str) -> PieceEnd
    ensures { (name : List ℕ)
        → IsPieceEnd (FieldPiece name kinds.Decimal) (piece_values after.now) text.now result }
{
    if !begin_without_digit(after) {
        return PieceEnd::Unknown;
    }
    let end = digits_end(text.as_bytes());
    if has_number_to(text, end) {
        PieceEnd::At(end)
    } else {
        PieceEnd::Nowhere
    }
}

/// Returns what the first piece of a pattern takes, if that is known without a table.
#[inline(always)]
pub(crate) fn piece_end(piece: &Piece, after: &[Piece], text: &str) -> PieceEnd
    ensures { IsPieceEnd (piece_value piece.now) (piece_values after.now) text.now result }
{
    match piece {
        Piece::Literal(literal) => literal_end(literal, after, text),
        Piece::Field { kind, .. } => match kind {
            FieldKind::Plain => plain_end(after, text),
            FieldKind::Decimal => decimal_end(after, text),
        },
    }
}
