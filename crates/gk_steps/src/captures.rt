//! What a match keeps of its fields' values.
ghost use Rattle.std.specs.Prelude.{◌≡◌, ◌++◌, ◌∷◌, ℕ, List, [], map, IfOk, IfErr, OnOk};
ghost use Rattle.gk_steps.specs.Pattern.{PieceValue, Literal, piece_value};
ghost use Rattle.gk_steps.specs.Matching.{FieldValue, IsSpan, field_value, span_value};
ghost use Rattle.gk_steps.specs.Advances.{CanTake, values_of};
ghost use Rattle.gk_steps.specs.Captures.{capture_value};

use crate::decimal::number_of;
use crate::pattern::{Field, FieldKind, Piece};
use std::alloc::{AllocError, Global};

/// The value of a field, borrowed from the text that the field matched in.
#[derive(Clone, Copy, Debug)]
pub(crate) enum Capture<'t> {
    Text(&'t str),
    Number(i64),
}

/// What a match keeps of its fields' values, in the pattern's order.
pub(crate) trait Captures<'t>: Drop {
    /// Whether this is what is kept of these fields of these pieces.
    ghost keeps: { List PieceValue → Self → List FieldValue → Type 0 };
    /// Whether keeping a field may take memory.
    ghost allocates: { Type 0 };

    /// Returns what is kept of no pieces, or of a literal alone. Doesn't allocate.
    fn empty(alloc: Global) -> Self
        ensures none { keeps [] result [] }
        ensures literal { (text : List ℕ) → keeps (Literal text ∷ []) result [] };

    /// Adds what is kept of a piece that took a span.
    fn add(&mut self, alloc: Global, piece: &Piece, span: &'t str) -> Result<(), AllocError>
        requires { CanTake (piece_value piece.now) span.now }
        ensures kept { let p = piece_value piece.now in
            OnOk result ((ps : List PieceValue) (before : List FieldValue)
            → keeps ps self.old before
            → keeps (ps ++ p ∷ []) self.new (before ++ values_of p span.now)) }
        ensures memory { IfErr result (λ e. allocates) };

    /// Adds what is kept of the fields of the pieces after these.
    fn join(&mut self, later: Self) -> Result<(), AllocError>
        ensures { OnOk result ((ps qs : List PieceValue) (before after : List FieldValue)
            → keeps ps self.old before → keeps qs later after
            → keeps (ps ++ qs) self.new (before ++ after)) };
}

/// Returns the value of a field that took a span.
#[inline(always)]
#[tactic(auto, using(crate::proofs::DecimalLemmas::number_some, crate::proofs::DecimalLemmas::some_number))]
pub(crate) fn capture_of<'t>(kind: FieldKind, span: &'t str) -> Capture<'t>
    requires { IsSpan kind span.now }
    ensures { capture_value result ≡ span_value kind span.now }
{
    match kind {
        FieldKind::Plain => Capture::Text(span),
        FieldKind::Decimal => Capture::Number(number_of(span).unwrap()),
    }
}

// Returns a field with this value, and with a copy of its text.
#[inline(always)]
fn copy_of(alloc: Global, taken: Capture<'_>) -> Result<Field, AllocError>
    ensures { IfOk result (λ field. field_value field ≡ capture_value taken.entry) }
{
    match taken {
        Capture::Text(text) => Ok(Field::Text(String::from_str(alloc, text)?)),
        Capture::Number(number) => Ok(Field::Number(number)),
    }
}

// Adds the value of a piece that took a span, if the piece is a field.
#[inline(always)]
fn push_capture(
    fields: &mut Vec<Field>,
    alloc: Global,
    piece: &Piece,
    span: &str,
) -> Result<(), AllocError>
    requires { CanTake (piece_value piece.now) span.now }
    ensures { let more = values_of (piece_value piece.now) span.now in
        OnOk result (map field_value fields.new.items ≡ map field_value fields.old.items ++ more) }
{
    if let Piece::Field { kind, .. } = piece {
        fields.push(copy_of(alloc, capture_of(*kind, span))?)?;
    }
    Ok(())
}

/// Keeps all fields, with copies of their texts.
impl<'t> Captures<'t> for Vec<Field> {
    ghost keeps = { λ pieces kept fields. map field_value kept.items ≡ fields };

    ghost allocates = { Unit {0} };

    fn empty(alloc: Global) -> Self {
        Vec::new(alloc)
    }

    #[inline(always)]
    fn add(&mut self, alloc: Global, piece: &Piece, span: &'t str) -> Result<(), AllocError> {
        push_capture(self, alloc, piece, span)
    }

    fn join(&mut self, later: Self) -> Result<(), AllocError> {
        let mut later = later;
        self.append(&mut later)
    }
}

/// Nothing is kept: for searches that only ask whether there is a match.
#[derive(Drop)]
pub(crate) struct NoCaptures;

impl<'t> Captures<'t> for NoCaptures {
    ghost keeps = { λ pieces kept fields. Unit {0} };

    ghost allocates = { ⊥ };

    fn empty(_alloc: Global) -> Self {
        NoCaptures
    }

    #[inline(always)]
    fn add(&mut self, _alloc: Global, _piece: &Piece, _span: &'t str) -> Result<(), AllocError> {
        Ok(())
    }

    fn join(&mut self, _later: Self) -> Result<(), AllocError> {
        Ok(())
    }
}
