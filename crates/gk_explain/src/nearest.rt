//! The entry of a library that the author of an undefined step may have meant.
ghost use Rattle.std.specs.Prelude.{◌≡◌};
ghost use Rattle.gk_steps.specs.Pattern.{piece_value, piece_values};
ghost use Rattle.gk_steps.specs.Finding.{entry_value};
ghost use Rattle.gk_lint.specs.Findings.{hint_value};
ghost use Rattle.gk_report.specs.ReportTexts.{Pushes};
ghost use Rattle.gk_explain.specs.Nearest as spec;

use crate::shown::push_literal;
use gk_gherkin::StepType;
use gk_lint::Hint;
use gk_steps::{Entry, FieldKind, Piece};
use std::alloc::AllocError;

/// Returns the word for the steps that an entry is for. Doesn't allocate.
pub fn type_word(step_type: Option<StepType>) -> &'static str
    ensures { result.now ≡ spec.type_word step_type }
{
    match step_type {
        None => "step",
        Some(StepType::Given) => "given",
        Some(StepType::When) => "when",
        Some(StepType::Then) => "then",
    }
}

// Appends a field as it is written in a pattern.
fn push_field(out: &mut String, name: &str, kind: FieldKind) -> Result<(), AllocError>
    ensures { Pushes out.old (spec.field_shown name.now kind) result out.new }
{
    out.push_str("{")?;
    out.push_str(name)?;
    match kind {
        FieldKind::Plain => out.push_str("}"),
        FieldKind::Decimal => out.push_str(":d}"),
    }
}

// Appends a piece of a pattern.
fn push_piece(out: &mut String, piece: &Piece) -> Result<(), AllocError>
    ensures { Pushes out.old (spec.piece_shown (piece_value piece.now)) result out.new }
{
    match piece {
        Piece::Literal(text) => push_literal(out, text.as_str()),
        Piece::Field { name, kind } => push_field(out, name.as_str(), *kind),
    }
}

// Appends the pieces of a pattern.
fn push_pattern(out: &mut String, pattern: &[Piece]) -> Result<(), AllocError>
    ensures { Pushes out.old (spec.pattern_shown (piece_values pattern.now)) result out.new }
{
    for piece in pattern {
        push_piece(out, piece)?;
    }
    Ok(())
}

/// Appends an entry as it is shown: the steps that it is for, and its pattern, with invisible characters as escapes. An
/// error comes only if a growth was refused; a part of it may have been appended then.
pub fn push_entry(out: &mut String, entry: &Entry) -> Result<(), AllocError>
    ensures { Pushes out.old (spec.entry_shown (entry_value entry.now)) result out.new }
{
    out.push_str(type_word(entry.step_type))?;
    out.push_str(" ")?;
    push_pattern(out, &entry.pattern.pieces)
}

#[tactic(auto, unfolding(crate::specs::Nearest::before_nearest))]
fn before_nearest() -> &'static str
    ensures { result.now ≡ spec.before_nearest }
{
    "      the nearest entry is: "
}

// Appends the line that names the nearest entry.
fn push_nearest_line(out: &mut String, entry: &Entry) -> Result<(), AllocError>
    ensures { Pushes out.old (spec.nearest_line (entry_value entry.now)) result out.new }
{
    out.push_str(before_nearest())?;
    push_entry(out, entry)?;
    out.push_str("\n")
}

// Appends the line that names an entry for steps of another type.
#[tactic(auto, unfolding(crate::specs::Nearest::other_type_line))]
fn push_other_type_line(out: &mut String, entry: &Entry) -> Result<(), AllocError>
    ensures { Pushes out.old (spec.other_type_line (entry_value entry.now)) result out.new }
{
    out.push_str("      an entry of another type matches: ")?;
    push_entry(out, entry)?;
    out.push_str("; step would match every keyword\n")
}

/// Appends the line for a hint: an entry for steps of another type that matches, or the nearest entry. Nothing is
/// appended if there is neither. An error comes only if a growth was refused; a part of the line may have been appended
/// then.
pub fn push_hint(out: &mut String, hint: Hint<'_>) -> Result<(), AllocError>
    ensures { Pushes out.old (spec.hint_text (hint_value hint.entry)) result out.new }
{
    match hint {
        Hint::Nearest(entry) => push_nearest_line(out, entry),
        Hint::OtherType(entry) => push_other_type_line(out, entry),
        _ => Ok(()),
    }
}
