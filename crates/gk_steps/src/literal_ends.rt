//! Texts that a pattern can't match because of its ends, found without a table.
ghost use Rattle.std.specs.Prelude.{◌≡◌, ◌≤◌, ◌++◌, ℕ, List, length, false, IsTrue, MatchBool, nat_eq, IfSome, IsSomeAnd};
ghost use Rattle.std.specs.List.{starts_with, ends_with};
ghost use Rattle.std.specs.Str.{chars};
ghost use Rattle.gk_steps.specs.Pattern.{piece_values, pattern_value};
ghost use Rattle.gk_steps.specs.Matching.{MatchesNot};
ghost use Rattle.gk_steps.specs.LiteralEnds.{BeginsWith, BeginsNotWith, EndsWith, EndsNotWith};
ghost use Rattle.gk_steps.specs.LiteralEnds.{FitsStart, FitsEnd, IsAfterStart};

use crate::pattern::{Pattern, Piece};

/// Returns whether some bytes begin with others. Compares the last byte of the others first, because the patterns of a
/// library often begin alike.
#[tactic(auto, using(crate::proofs::LiteralEndLemmas::last_of_first_differs))]
pub(crate) fn begins_with_bytes(bytes: &[u8], first: &[u8]) -> bool
    ensures value { result ≡ starts_with nat_eq bytes.now first.now }
{
    let size = first.len();
    if 0 < size && size <= bytes.len() && bytes[size - 1] != first[size - 1] {
        false
    } else {
        bytes.starts_with(first)
    }
}

// Returns whether some bytes end with others. Compares the last byte first.
#[tactic(auto, using(crate::proofs::LiteralEndLemmas::last_differs))]
fn ends_with_bytes(bytes: &[u8], last: &[u8]) -> bool
    ensures value { result ≡ ends_with nat_eq bytes.now last.now }
{
    if !bytes.is_empty() && !last.is_empty() && bytes[bytes.len() - 1] != last[last.len() - 1] {
        false
    } else {
        bytes.ends_with(last)
    }
}

/// Returns whether a text ends with another.
#[tactic(auto, using(std::proofs::lemmas::Grind::common_steps, crate::proofs::LiteralEndLemmas::ends_match))]
pub(crate) fn ends_with(text: &str, back: &str) -> bool
    ensures { MatchBool result (EndsWith text.now back.now) (EndsNotWith text.now back.now) }
{
    ends_with_bytes(text.as_bytes(), back.as_bytes())
}

/// Returns whether a text begins with another.
#[inline(always)]
#[tactic(auto, using(std::proofs::lemmas::Grind::common_steps, crate::proofs::LiteralEndLemmas::begins_match))]
pub(crate) fn begins_with(text: &str, start: &str) -> bool
    ensures { MatchBool result (BeginsWith text.now start.now) (BeginsNotWith text.now start.now) }
{
    begins_with_bytes(text.as_bytes(), start.as_bytes())
}

/// Returns the rest of a text after a prefix, or `None` if the text doesn't begin with it.
pub(crate) fn rest_after<'a>(text: &'a str, prefix: &str) -> Option<&'a str>
    ensures found { IfSome result (λ rest. text.entry.now ≡ prefix.now ++ rest.now) }
    ensures only { (rest : List ℕ) → text.entry.now ≡ prefix.now ++ rest
        → IsSomeAnd result (λ found. found.now ≡ rest) }
{
    text.strip_prefix(prefix)
}

// Returns whether the first piece, if it is a literal, begins the text.
fn fits_start(pieces: &[Piece], text: &str) -> bool
    ensures kept { IsTrue result → FitsStart (piece_values pieces.now) text.now }
    ensures refused { result ≡ false → MatchesNot (piece_values pieces.now) text.now }
{
    match pieces.first() {
        Some(piece) => match piece {
            Piece::Literal(literal) => begins_with(text, literal),
            Piece::Field { .. } => true,
        },
        None => true,
    }
}

// Returns whether the last piece, if it is a literal, ends the text.
fn fits_end(pieces: &[Piece], text: &str) -> bool
    ensures kept { IsTrue result → FitsEnd (piece_values pieces.now) text.now }
    ensures refused { result ≡ false → MatchesNot (piece_values pieces.now) text.now }
{
    match pieces.last() {
        Some(piece) => match piece {
            Piece::Literal(literal) => ends_with(text, literal),
            Piece::Field { .. } => true,
        },
        None => true,
    }
}

/// Returns the pieces after the literal that a pattern begins with, and the text after that literal. Returns all pieces
/// and the whole text if the pattern begins with a field or has no pieces.
#[inline(always)]
pub(crate) fn after_start<'p, 't>(pieces: &'p [Piece], text: &'t str) -> (&'p [Piece], &'t str)
    requires { FitsStart (piece_values pieces.now) text.now }
    ensures cut { IsAfterStart (piece_values pieces.now) text.now
        (piece_values result.0.now) result.1.now }
    ensures fewer { length (chars result.1.now) ≤ length (chars text.now) }
{
    if let Some((Piece::Literal(literal), after)) = pieces.split_first() {
        (after, &text[literal.len()..])
    } else {
        (pieces, text)
    }
}

impl Pattern {
    /// Returns true only if the text begins and ends with the literals at the pattern's ends, and false only if the
    /// pattern doesn't match it. Doesn't allocate.
    pub fn can_match(&self, text: &str) -> bool
        ensures prefix { IsTrue result → FitsStart (pattern_value self.now) text.now }
        ensures back { IsTrue result → FitsEnd (pattern_value self.now) text.now }
        ensures refused { result ≡ false → MatchesNot (pattern_value self.now) text.now }
    {
        fits_start(&self.pieces, text) && fits_end(&self.pieces, text)
    }
}
