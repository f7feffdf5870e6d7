//! Reading a pattern from its text.
ghost use Rattle.std.specs.Prelude.{◌≡◌, ◌≤◌, ◌<◌, ◌++◌, ℕ, List, length, flat_map, string_bytes};
ghost use Rattle.std.specs.Prelude.{IfOk, IfErr, IfSome, IsSomeAnd, MatchBool, MatchOption, None, Err};
ghost use Rattle.std.specs.List.{prefix_len, position_or_len, list_all};
ghost use Rattle.gk_steps.specs.declared.pattern.FieldKind.{FieldKind as Kind};
ghost use Rattle.gk_steps.specs.declared.pattern.PatternFault.TheVariants.{BadPattern, Memory};
ghost use Rattle.gk_steps.specs.Pattern as spec;
ghost use Rattle.gk_steps.specs.Pattern.{PieceValue, piece_values, pattern_value, spelled_literal};
ghost use Rattle.gk_steps.specs.Pattern.{BeginsWithPiece, SpellsPattern};
ghost use Rattle.gk_steps.specs.Spelling as machinery;
ghost use Rattle.gk_steps.specs.Spelling.{BeginsAtBrace, EndsLiteral, IsOnlyName, HasLiteral};
ghost use Rattle.gk_steps.specs.Spelling.{HasField, HasNoField, PushesLiteral, PushesField};
ghost use Rattle.gk_steps.specs.Spelling.{IsSpelled, AnswersPieces, field_tail};

use crate::literal_ends::rest_after;
use crate::pattern::{FieldKind, Pattern, PatternFault, Piece};
use std::alloc::{AllocError, Global};

fn is_brace(byte: u8) -> bool
    ensures { result ≡ machinery.is_brace byte }
{
    byte == b'{' || byte == b'}'
}

fn is_name_letter(byte: u8) -> bool
    ensures { result ≡ spec.is_name_letter byte }
{
    byte.is_ascii_alphabetic() || byte == b'_'
}

fn is_name_byte(byte: u8) -> bool
    ensures { result ≡ spec.is_name_byte byte }
{
    is_name_letter(byte) || byte.is_ascii_digit()
}

fn are_name_bytes(text: &[u8]) -> bool
    ensures { result ≡ list_all spec.is_name_byte text.now }
{
    text.iter().all(|byte| is_name_byte(*byte))
}

fn is_field_name(text: &[u8]) -> bool
    ensures { result ≡ spec.is_field_name text.now }
{
    match text.split_first() {
        Some((first, rest)) => is_name_letter(*first) && are_name_bytes(rest),
        None => false,
    }
}

// Returns the number of bytes before the first brace.
fn plain_len(text: &[u8]) -> usize
    ensures value { result ≡ position_or_len machinery.is_brace text.now }
    ensures within { result ≤ length text.now }
{
    for (i, byte) in text.iter().enumerate() {
        if is_brace(*byte) {
            return i;
        }
    }
    text.len()
}

// Returns the number of name bytes that a text begins with.
fn name_len(text: &[u8]) -> usize
    ensures value { result ≡ prefix_len spec.is_name_byte text.now }
    ensures within { result ≤ length text.now }
{
    for (i, byte) in text.iter().enumerate() {
        if !is_name_byte(*byte) {
            return i;
        }
    }
    text.len()
}

// Returns the text before the first brace, and the rest.
#[tactic(auto, using(std::proofs::lemmas::Grind::common_steps, crate::proofs::SpellingLemmas::brace_boundary, crate::proofs::SpellingLemmas::plain_of, crate::proofs::SpellingLemmas::begins_of))]
fn plain_run<'a>(text: &'a str) -> (&'a str, &'a str)
    ensures whole { text.entry.now ≡ result.0.now ++ result.1.now }
    ensures plain { flat_map spelled_literal result.0.now ≡ result.0.now }
    ensures end { BeginsAtBrace result.1.now }
{
    let end = plain_len(text.as_bytes());
    (&text[..end], &text[end..])
}

// Returns the brace that a text begins with, if it is doubled, and the rest after both.
fn doubled_brace<'a>(text: &'a str) -> Option<(&'a str, &'a str)>
    ensures found { IfSome result (λ p.
        text.entry.now ≡ flat_map spelled_literal p.0.now ++ p.1.now) }
    ensures shorter { IfSome result (λ p. length p.1.now < length text.entry.now) }
    ensures some { IfSome result (λ p. EndsLiteral text.entry.now → ⊥) }
    ensures none { result ≡ None → BeginsAtBrace text.entry.now → EndsLiteral text.entry.now }
{
    if let Some(rest) = rest_after(text, "{{") {
        return Some(("{", rest));
    }
    let rest = rest_after(text, "}}")?;
    Some(("}", rest))
}

// Returns whether a text begins with a literal: with a byte that is no brace, or with a doubled brace.
fn begins_with_literal(text: &str) -> bool
    ensures { MatchBool result (EndsLiteral text.now → ⊥) (EndsLiteral text.now) }
{
    match text.as_bytes().first() {
        Some(byte) => !is_brace(*byte) || doubled_brace(text).is_some(),
        None => false,
    }
}

// Returns the literal that a text begins with, which may be empty, and the rest.
fn literal_run<'a>(alloc: Global, text: &'a str) -> Result<(String, &'a str), AllocError>
    ensures literal { IfOk result (λ p. HasLiteral text.entry.now (string_bytes p.0) p.1.now) }
    ensures within { IfOk result (λ p. length p.1.now ≤ length text.entry.now) }
{
    let (plain, end) = plain_run(text);
    let mut literal = String::from_str(alloc, plain)?;
    let mut rest = end;
    while let Some((brace, after)) = doubled_brace(rest) {
        literal.push_str(brace)?;
        let (plain, end) = plain_run(after);
        literal.push_str(plain)?;
        rest = end;
    }
    Ok((literal, rest))
}

// Returns the bytes of a name that a text begins with, and the rest.
fn name_run<'a>(text: &'a str) -> (&'a str, &'a str)
    ensures whole { text.entry.now ≡ result.0.now ++ result.1.now }
    ensures only { IsOnlyName text.entry.now result.0.now result.1.now }
{
    let end = name_len(text.as_bytes());
    (&text[..end], &text[end..])
}

// Returns the kind of a field, from what follows its name, and the rest.
fn field_end<'a>(text: &'a str) -> Option<(FieldKind, &'a str)>
    ensures found { IfSome result (λ p. text.entry.now ≡ field_tail p.0 ++ p.1.now) }
    ensures only { (kind : Kind) (rest : List ℕ) → text.entry.now ≡ field_tail kind ++ rest
        → IsSomeAnd result (λ p. (p.0 ≡ kind) × (p.1.now ≡ rest)) }
{
    if let Some(rest) = rest_after(text, "}") {
        return Some((FieldKind::Plain, rest));
    }
    let rest = rest_after(text, ":d}")?;
    Some((FieldKind::Decimal, rest))
}

// Returns the field that a text begins with: its name, its kind and the rest.
fn field_at<'a>(text: &'a str) -> Option<(&'a str, FieldKind, &'a str)>
    ensures { MatchOption result (HasNoField text.entry.now) (λ f.
        HasField text.entry.now f.0.now f.1 f.2.now) }
{
    let body = rest_after(text, "{")?;
    let (name, end) = name_run(body);
    if !is_field_name(name.as_bytes()) {
        return None;
    }
    match field_end(end) {
        Some((kind, rest)) => Some((name, kind, rest)),
        None => None,
    }
}

// Adds the literal that a text begins with, unless it is empty, and returns the rest.
#[tactic(auto, using(crate::proofs::FindingLemmas::of_fault, crate::proofs::SpellingLemmas::literal_begins))]
fn push_literal<'a>(
    pieces: &mut Vec<Piece>,
    alloc: Global,
    text: &'a str,
) -> Result<&'a str, AllocError>
    ensures added { IfOk result (λ rest.
        PushesLiteral text.entry.now pieces.old.items pieces.new.items rest.now) }
    ensures within { IfOk result (λ rest. length rest.now ≤ length text.entry.now) }
    ensures memory { IfErr result (λ e. BeginsWithPiece text.entry.now) }
{
    if !begins_with_literal(text) {
        return Ok(text);
    }
    let (literal, rest) = literal_run(alloc, text)?;
    pieces.push(Piece::Literal(literal))?;
    Ok(rest)
}

// Adds the field that a text begins with, and returns the rest, or `None` if there is no field.
#[tactic(auto, using(crate::proofs::FindingLemmas::of_fault, crate::proofs::SpellingLemmas::field_begins))]
fn push_field<'a>(
    pieces: &mut Vec<Piece>,
    alloc: Global,
    text: &'a str,
) -> Result<Option<&'a str>, AllocError>
    ensures added { IfOk result (λ o. MatchOption o (HasNoField text.entry.now) (λ rest.
        PushesField text.entry.now pieces.old.items pieces.new.items rest.now)) }
    ensures shorter { IfOk result (λ o.
        IfSome o (λ rest. length rest.now < length text.entry.now)) }
    ensures memory { IfErr result (λ e. BeginsWithPiece text.entry.now) }
{
    match field_at(text) {
        Some((name, kind, rest)) => {
            let name = String::from_str(alloc, name)?;
            pieces.push(Piece::Field { name, kind })?;
            Ok(Some(rest))
        }
        None => Ok(None),
    }
}

// Returns the pieces that a text spells, if names may occur twice.
fn read_pieces(alloc: Global, text: &str) -> Result<Vec<Piece>, PatternFault>
    ensures found { IfOk result (λ ps. IsSpelled text.now (piece_values ps.items)) }
    ensures only { (ps : List PieceValue) → IsSpelled text.now ps → AnswersPieces result ps }
    ensures memory { result ≡ Err Memory → BeginsWithPiece text.now }
{
    let mut pieces = Vec::new(alloc);
    let mut rest = push_literal(&mut pieces, alloc, text)?;
    while !rest.is_empty() {
        match push_field(&mut pieces, alloc, rest)? {
            Some(after) => rest = push_literal(&mut pieces, alloc, after)?,
            None => return Err(PatternFault::BadPattern),
        }
    }
    Ok(pieces)
}

/// Returns the kind of the field of this name, or `None` if the pieces have no such field.
pub fn field_kind(pieces: &[Piece], name: &str) -> Option<FieldKind>
    ensures { result ≡ spec.field_kind (piece_values pieces.now) name.now }
{
    for piece in pieces {
        if let Piece::Field { name: other, kind } = piece {
            if other.as_str() == name {
                return Some(*kind);
            }
        }
    }
    None
}

// Returns whether no name occurs twice.
fn are_distinct(pieces: &[Piece]) -> bool
    ensures { result ≡ machinery.are_distinct (piece_values pieces.now) }
{
    let mut rest = pieces;
    while let Some((piece, later)) = rest.split_first() {
        if let Piece::Field { name, .. } = piece {
            if field_kind(later, name).is_some() {
                return false;
            }
        }
        rest = later;
    }
    true
}

// Returns whether pieces form a pattern: there is at least one, and no name occurs twice.
fn is_pattern(pieces: &[Piece]) -> bool
    ensures { result ≡ machinery.is_pattern (piece_values pieces.now) }
{
    !pieces.is_empty() && are_distinct(pieces)
}

/// Reads the pattern that a text spells. `{{` is a literal `{` and `}}` a literal `}`, read from left to right. Any
/// other `{` opens a field: a name (an ASCII letter or `_`, then ASCII letters, digits and `_`), optionally `:d`, and
/// `}`.
///
/// `BadPattern` comes only if the text spells no pattern: the text is empty, or has a lone `{` or `}`, any other text in
/// braces, or a name that occurs twice. `Memory` comes only if a growth was refused, and only if the text begins with a
/// literal or a field: any other text asks for no memory. (behave's documentation: step parameters)
#[tactic(auto, using(std::proofs::lemmas::Grind::common_steps, crate::proofs::SpellingLemmas::not_pattern, crate::proofs::SpellingLemmas::spelled_of, crate::proofs::SpellingLemmas::spells))]
pub fn read_pattern(alloc: Global, text: &str) -> Result<Pattern, PatternFault>
    // What is returned is what the text spells.
    ensures found { IfOk result (λ p. SpellsPattern text.now (pattern_value p)) }
    // A text that spells a pattern is never a bad pattern.
    ensures bad { (ps : List PieceValue) → SpellsPattern text.now ps → result ≡ Err BadPattern → ⊥ }
    // Memory is refused only if the text begins with a piece.
    ensures memory { result ≡ Err Memory → BeginsWithPiece text.now }
{
    let pieces = read_pieces(alloc, text)?;
    if !is_pattern(&pieces) {
        return Err(PatternFault::BadPattern);
    }
    Ok(Pattern { pieces })
}
