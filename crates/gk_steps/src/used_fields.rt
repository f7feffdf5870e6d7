//! Field values that actions use.
ghost use Rattle.std.specs.Prelude.{◌≡◌, ◌++◌, ◌∷◌, [], codes, map, List, IfOk, IfErr, option_map, option_and_then};
ghost use Rattle.gk_steps.specs.Pattern.{PieceValue, piece_value, piece_values};
ghost use Rattle.gk_steps.specs.Advances.{CanTake, values_of};
ghost use Rattle.gk_steps.specs.Matching.{FieldValue, field_value};
ghost use Rattle.gk_steps.specs.Finding as spec;
ghost use Rattle.gk_steps.specs.Finding.{FoundValue, HasCandidateFor, HasTableCandidateFor, HasUsedFields, IsUseOf, LibraryValue, library_value, found_value};
ghost use Rattle.gk_steps.specs.Captures.{capture_value};
ghost use Rattle.gk_steps.specs.UsedFields.{captured, first_of, AreFirst, AreJoined, IsAdded, KeepsFirst};

use crate::action::Action;
use crate::captures::{Capture, Captures, capture_of};
use crate::filled_cells::CellCounter;
use crate::finding::Found;
use crate::library::Library;
use crate::pattern::{Field, Piece};
use gk_gherkin::StepType;
use std::alloc::{AllocError, Global};

/// The field values that actions use. Each is `None` if the pattern has no such field, or if the field is of the other
/// kind.
#[derive(Clone, Copy, Debug)]
pub struct UsedFields<'a> {
    /// The text of the field `name`.
    pub name: Option<&'a str>,
    /// The text of the field `to`.
    pub to: Option<&'a str>,
    /// The text of the field `step`.
    pub step: Option<&'a str>,
    /// The number of the field `n`.
    pub number: Option<i64>,
    /// The text of the field `text`.
    pub text: Option<&'a str>,
}

/// What a step's action works with: the action, and the field values that actions use, as slices of the step's text.
#[derive(Clone, Copy, Debug)]
pub struct FoundUse<'a> {
    pub action: Action,
    pub fields: UsedFields<'a>,
}

/// The value of the first field of each of these names.
#[derive(Clone, Copy, Debug)]
pub(crate) struct FirstFields<'a> {
    pub name: Option<Capture<'a>>,
    pub to: Option<Capture<'a>>,
    pub step: Option<Capture<'a>>,
    pub number: Option<Capture<'a>>,
    pub text: Option<Capture<'a>>,
}

/// Keeps no other fields, and doesn't allocate.
impl<'t> Captures<'t> for FirstFields<'t> {
    ghost keeps = { KeepsFirst };

    ghost allocates = { ⊥ };

    #[inline(always)]
    fn empty(_alloc: Global) -> Self {
        NO_FIELDS
    }

    #[inline(always)]
    fn add(&mut self, _alloc: Global, piece: &Piece, span: &'t str) -> Result<(), AllocError> {
        add_piece(self, piece, span);
        Ok(())
    }

    #[inline(always)]
    fn join(&mut self, later: Self) -> Result<(), AllocError> {
        *self = joined(*self, later);
        Ok(())
    }
}

// The first fields if there are no fields.
const NO_FIELDS: FirstFields<'static> = FirstFields {
    name: None,
    to: None,
    step: None,
    number: None,
    text: None,
};

// Adds one more field to the first field of a name, if it has that name.
#[inline(always)]
fn add_first<'a>(first: &mut Option<Capture<'a>>, is_named: bool, taken: Capture<'a>)
    ensures { captured first.new
        ≡ first_of (captured first.old) is_named (capture_value taken.entry) }
{
    if is_named && first.is_none() {
        *first = Some(taken);
    }
}

// Adds one more field to the first fields.
#[inline(always)]
fn add_field<'a>(firsts: &mut FirstFields<'a>, name: &str, taken: Capture<'a>)
    ensures { IsAdded name.now (capture_value taken.entry) firsts.old firsts.new }
{
    add_first(&mut firsts.name, name == "name", taken);
    add_first(&mut firsts.to, name == "to", taken);
    add_first(&mut firsts.step, name == "step", taken);
    add_first(&mut firsts.number, name == "n", taken);
    add_first(&mut firsts.text, name == "text", taken);
}

// Adds one more piece that took a span to the first fields. Only a field changes them.
#[inline(always)]
fn add_piece<'a>(firsts: &mut FirstFields<'a>, piece: &Piece, span: &'a str)
    requires { CanTake (piece_value piece.now) span.now }
    ensures { let p = piece_value piece.now in (ps : List PieceValue) (before : List FieldValue)
        → KeepsFirst ps firsts.old before
        → KeepsFirst (ps ++ p ∷ []) firsts.new (before ++ values_of p span.now) }
{
    if let Piece::Field { name, kind } = piece {
        add_field(firsts, name.as_str(), capture_of(*kind, span));
    }
}

// Returns the first fields, joined with those of the pieces after these.
#[inline(always)]
fn joined<'a>(so_far: FirstFields<'a>, later: FirstFields<'a>) -> FirstFields<'a>
    ensures { AreJoined so_far.entry later.entry result }
{
    FirstFields {
        name: so_far.name.or(later.name),
        to: so_far.to.or(later.to),
        step: so_far.step.or(later.step),
        number: so_far.number.or(later.number),
        text: so_far.text.or(later.text),
    }
}

// Returns the value of a field, with its text borrowed.
#[inline(always)]
fn borrowed<'a>(field: &'a Field) -> Capture<'a>
    ensures { capture_value result ≡ field_value field.now }
{
    match field {
        Field::Text(text) => Capture::Text(text),
        Field::Number(number) => Capture::Number(*number),
    }
}

// Returns the first fields of the names. Looks at each field once.
#[inline(always)]
fn first_fields<'a>(pieces: &[Piece], fields: &'a [Field]) -> FirstFields<'a>
    ensures { let ps = piece_values pieces.now in let fs = map field_value fields.now in
        AreFirst (λ name. spec.field_named name ps fs) result }
{
    let mut firsts = NO_FIELDS;
    let mut rest = fields;
    for piece in pieces {
        if let Piece::Field { name, .. } = piece {
            let Some((field, later)) = rest.split_first() else {
                return firsts;
            };
            add_field(&mut firsts, name.as_str(), borrowed(field));
            rest = later;
        }
    }
    firsts
}

// Returns the text that a field took, if it took one.
#[inline(always)]
fn text_in<'a>(taken: Option<Capture<'a>>) -> Option<&'a str>
    ensures { option_map (λ t. t.now) result ≡ option_and_then spec.as_text (captured taken.entry) }
{
    match taken? {
        Capture::Text(text) => Some(text),
        Capture::Number(_) => None,
    }
}

// Returns the number that a field took, if it took one.
#[inline(always)]
fn number_in(taken: Option<Capture<'_>>) -> Option<i64>
    ensures { result ≡ option_and_then spec.as_number (captured taken.entry) }
{
    match taken? {
        Capture::Text(_) => None,
        Capture::Number(number) => Some(number),
    }
}

// Returns the field values that actions use.
#[inline(always)]
fn used_in<'a>(firsts: FirstFields<'a>) -> UsedFields<'a>
    ensures { (library : LibraryValue) (f : FoundValue)
        → AreFirst (spec.field_of library f) firsts.entry → HasUsedFields library f result }
{
    UsedFields {
        name: text_in(firsts.name),
        to: text_in(firsts.to),
        step: text_in(firsts.step),
        number: number_in(firsts.number),
        text: text_in(firsts.text),
    }
}

impl Library {
    // Returns the first fields of the names in what was found in this library.
    #[inline(always)]
    fn first_fields<'a>(&self, found: &'a Found) -> FirstFields<'a>
        ensures { AreFirst (spec.field_of (library_value self.now) (found_value found.now)) result }
    {
        match self.entries.get(found.entry) {
            Some(entry) => first_fields(&entry.pattern.pieces, &found.fields),
            None => first_fields(&[], &found.fields),
        }
    }

    /// Returns the field values that actions use, from what was found in this library. Looks at each field once. Takes
    /// no memory.
    #[inline(always)]
    pub fn used_fields<'a>(&self, found: &'a Found) -> UsedFields<'a>
        ensures name { option_map (λ t. t.now) result.name
            ≡ spec.text_field (library_value self.now) (found_value found.now) (codes "name") }
        ensures to { option_map (λ t. t.now) result.to
            ≡ spec.text_field (library_value self.now) (found_value found.now) (codes "to") }
        ensures step { option_map (λ t. t.now) result.step
            ≡ spec.text_field (library_value self.now) (found_value found.now) (codes "step") }
        ensures number { result.number
            ≡ spec.number_field (library_value self.now) (found_value found.now) (codes "n") }
        ensures text { option_map (λ t. t.now) result.text
            ≡ spec.text_field (library_value self.now) (found_value found.now) (codes "text") }
    {
        used_in(self.first_fields(found))
    }

    /// Finds what `find` does, and returns it as a step's action uses it. Copies no text: the field texts are slices of
    /// this text. At most one whole table is filled for each entry of the step's type and of type `step`:
    /// (pieces + 1) times (characters + 1) cells. Errors come as from `knows`. (behave's documentation: step
    /// implementations)
    #[inline(always)]
    pub fn find_used<'a>(
        &self,
        alloc: Global,
        step_type: StepType,
        text: &'a str,
    ) -> Result<Option<FoundUse<'a>>, AllocError>
        ensures found { IfOk result (λ used. IsUseOf (library_value self.now)
            (spec.found (library_value self.now) step_type text.now) used) }
        // Memory is refused only if the text fits the ends of an entry.
        ensures memory { IfErr result (λ e.
            HasCandidateFor (library_value self.now) step_type text.now) }
        // Memory is refused only if the match of such an entry may need a table.
        ensures table { IfErr result (λ e.
            HasTableCandidateFor (library_value self.now) step_type text.now) }
    {
        let mut cells = CellCounter::new();
        let mut firsts = NO_FIELDS;
        match self.search(alloc, &mut cells, &mut firsts, step_type, text)? {
            Some(entry) => Ok(Some(FoundUse {
                action: self.action_at(entry),
                fields: used_in(firsts),
            })),
            None => Ok(None),
        }
    }
}
