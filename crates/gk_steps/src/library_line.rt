//! Reading one line of a step library file.
ghost use Rattle.std.specs.Prelude.{◌≡◌, is_some, codes, option_map, IfOk, IfErr};
ghost use Rattle.gk_gherkin.specs.Text as texts;
ghost use Rattle.gk_gherkin.specs.Lines.{borrowed_value};
ghost use Rattle.gk_steps.specs.Pattern.{pattern_value, piece_values, SpellsPattern};
ghost use Rattle.gk_steps.specs.Pattern.{field_kind as field_kind_of};
ghost use Rattle.gk_steps.specs.Finding.{entry_values, entry_value};
ghost use Rattle.gk_steps.specs.EntryIndex.{AreListed};
ghost use Rattle.gk_steps.specs.LibraryFile as spec;
ghost use Rattle.gk_steps.specs.LibraryFile.{SpellsEntry};
ghost use Rattle.gk_steps.specs.Action as actions;
ghost use Rattle.gk_steps.specs.LibraryLine as parts;
ghost use Rattle.std.specs.List.{list_all};
ghost use Rattle.gk_steps.specs.LibraryLine.{FitsAction, ActionFaultSays, PatternFaultSays};
ghost use Rattle.gk_steps.specs.LibraryLine.{IsEntryText, EntryTextFaultSays, EntryFaultSays};

use crate::action::{Action, row_named};
use crate::captures::NoCaptures;
use crate::entry_index::IndexedEntries;
use crate::filled_cells::CellCounter;
use crate::finding::find_of;
use crate::library::Entry;
use crate::library_fault::LibraryFault;
use crate::pattern::{FieldKind, Pattern, PatternFault, Piece};
use crate::spelling::{field_kind, read_pattern};
use gk_gherkin::text::{begins, split_word, trim};
use gk_gherkin::{BorrowedLine, StepType};
use std::alloc::Global;

/// Returns whether a line of a library file is ignored: trimmed, it is empty or begins with `#`. Doesn't allocate.
pub fn is_ignored(line: &BorrowedLine<'_>) -> bool
    ensures { result ≡ spec.is_ignored (borrowed_value line.now) }
{
    let text = trim(line.text);
    text.is_empty() || begins(text, "#")
}

// Returns the entry type that a word names, if it names one.
fn entry_type(word: &str) -> Option<Option<StepType>>
    ensures { result ≡ spec.entry_type word.now }
{
    if word == "given" {
        Some(Some(StepType::Given))
    } else if word == "when" {
        Some(Some(StepType::When))
    } else if word == "then" {
        Some(Some(StepType::Then))
    } else if word == "step" {
        Some(None)
    } else {
        None
    }
}

// Returns whether bytes begin with an arrow.
fn is_arrow(bytes: &[u8]) -> bool
    ensures { result ≡ texts.begins bytes.now (codes "=>") }
{
    bytes.starts_with(b"=>")
}

// Returns the two sides of the last arrow.
fn last_arrow<'a>(text: &'a str) -> Option<(&'a str, &'a str)>
    ensures { option_map (λ p. parts.sides p.0.now p.1.now) result
        ≡ spec.last_arrow text.entry.now }
{
    let bytes = text.as_bytes();
    let mut position = bytes.len();
    while position > 0 {
        position -= 1;
        if is_arrow(&bytes[position..]) {
            return Some((&text[..position], &text[position + 2..]));
        }
    }
    None
}

/// The type of a line's entry, and the trimmed sides of the line's last arrow.
#[derive(Clone, Copy, Debug)]
pub struct EntryText<'a> {
    /// The type, or `None` for steps of every type.
    pub step_type: Option<StepType>,
    /// The text of the pattern.
    pub pattern: &'a str,
    /// The name of the action.
    pub action: &'a str,
}

/// Returns the type of a line's entry, and the trimmed sides of the line's last arrow. A line that has no type, or no
/// arrow after it, is a fault. Doesn't look at the pattern or the action, and doesn't allocate.
/// (behave's documentation: step implementations)
#[tactic(auto, unfolding(crate::specs::LibraryFile::type_of, crate::specs::LibraryFile::sides_of))]
pub fn entry_text<'a>(line: &BorrowedLine<'a>) -> Result<EntryText<'a>, LibraryFault>
    ensures said { IfOk result (λ said.
        IsEntryText (borrowed_value line.now) said.step_type said.pattern.now said.action.now) }
    ensures fault { IfErr result (λ f. EntryTextFaultSays f (borrowed_value line.now)) }
{
    let number = line.place.line;
    let (word, rest) = split_word(trim(line.text));
    match entry_type(word) {
        None => Err(LibraryFault::BadType { line: number }),
        Some(step_type) => match last_arrow(rest) {
            None => Err(LibraryFault::BadPattern { line: number }),
            Some((pattern, action)) => Ok(EntryText {
                step_type,
                pattern: trim(pattern),
                action: trim(action),
            }),
        },
    }
}

// Reads the pattern of a line.
fn pattern_at(alloc: Global, line: u32, text: &str) -> Result<Pattern, LibraryFault>
    ensures pattern { IfOk result (λ p. SpellsPattern text.now (pattern_value p)) }
    ensures fault { IfErr result (λ f. PatternFaultSays f line text.now) }
{
    match read_pattern(alloc, text) {
        Ok(pattern) => Ok(pattern),
        Err(PatternFault::BadPattern) => Err(LibraryFault::BadPattern { line }),
        Err(PatternFault::Memory) => Err(LibraryFault::Memory),
    }
}

// Returns whether pieces have a field of this name.
fn has_field(pieces: &[Piece], name: &str) -> bool
    ensures { result ≡ is_some (field_kind_of (piece_values pieces.now) name.now) }
{
    field_kind(pieces, name).is_some()
}

fn has_needed(names: &[&str], pieces: &[Piece]) -> bool
    ensures { result
        ≡ list_all (λ name. is_some (field_kind_of (piece_values pieces.now) name.now)) names.now }
{
    names.iter().all(|name| has_field(pieces, *name))
}

// Returns whether the field of this name, if there is one, is of this kind.
fn is_none_or_kind(pieces: &[Piece], name: &str, kind: FieldKind) -> bool
    ensures { result
        ≡ parts.is_none_or_kind (field_kind_of (piece_values pieces.now) name.now) kind }
{
    match field_kind(pieces, name) {
        None => true,
        Some(other) => match other {
            FieldKind::Plain => match kind {
                FieldKind::Plain => true,
                FieldKind::Decimal => false,
            },
            FieldKind::Decimal => match kind {
                FieldKind::Plain => false,
                FieldKind::Decimal => true,
            },
        },
    }
}

// Returns the kind that a field of this name must have.
fn kind_of_field(name: &str) -> FieldKind
    ensures { result ≡ actions.kind_of_field name.now }
{
    if name == "n" {
        FieldKind::Decimal
    } else {
        FieldKind::Plain
    }
}

/// Returns whether the field of this name, if there is one, is of the kind that the name requires: a number for `n`,
/// and a text for any other name.
pub fn has_right_kind(pieces: &[Piece], name: &str) -> bool
    ensures { result ≡ parts.has_right_kind (piece_values pieces.now) name.now }
{
    is_none_or_kind(pieces, name, kind_of_field(name))
}

fn has_right_kinds(names: &[&str], pieces: &[Piece]) -> bool
    ensures { result
        ≡ list_all (λ name. parts.has_right_kind (piece_values pieces.now) name.now) names.now }
{
    names.iter().all(|name| has_right_kind(pieces, *name))
}

// Returns the action of this name, if the pieces have its needed fields and its used fields are of the right kinds.
fn action_at(line: u32, name: &str, pieces: &[Piece]) -> Result<Action, LibraryFault>
    ensures action { IfOk result (λ a. FitsAction name.now (piece_values pieces.now) a) }
    ensures fault { IfErr result (λ f. ActionFaultSays f line name.now (piece_values pieces.now)) }
{
    match row_named(name) {
        None => Err(LibraryFault::UnknownAction { line }),
        Some(row) => {
            if !has_needed(row.needs, pieces) {
                return Err(LibraryFault::MissingField { line });
            }
            if !has_right_kinds(row.uses, pieces) {
                return Err(LibraryFault::FieldKind { line });
            }
            Ok(row.action)
        }
    }
}

// Returns the entry of a line, from its type and the sides of its arrow.
fn entry_from(
    alloc: Global,
    earlier: &IndexedEntries<'_>,
    line: &BorrowedLine<'_>,
    said: &EntryText<'_>,
) -> Result<Entry, LibraryFault>
    requires indexed { AreListed earlier.now.index.now earlier.now.entries.now }
    requires said { IsEntryText (borrowed_value line.now)
        said.now.step_type said.now.pattern.now said.now.action.now }
    ensures entry { IfOk result (λ e.
        SpellsEntry (entry_values earlier.now.entries.now)
        (borrowed_value line.now) (entry_value e)) }
    ensures fault { IfErr result (λ f.
        EntryFaultSays f (entry_values earlier.now.entries.now) (borrowed_value line.now)) }
{
    let number = line.place.line;
    let pattern = pattern_at(alloc, number, said.pattern)?;
    let action = action_at(number, said.action, &pattern.pieces)?;
    let mut cells = CellCounter::new();
    match find_of(
        &mut cells,
        alloc,
        &mut NoCaptures,
        earlier,
        said.step_type,
        said.pattern,
    )? {
        Some(_) => Err(LibraryFault::Ambiguous { line: number }),
        None => Ok(Entry {
            line: number,
            step_type: said.step_type,
            pattern,
            action,
        }),
    }
}

/// Returns the entry that a line spells after earlier ones.
#[tactic(auto, using(crate::proofs::LibraryLineLemmas::cut_fault))]
pub(crate) fn read_entry(
    alloc: Global,
    earlier: &IndexedEntries<'_>,
    line: &BorrowedLine<'_>,
) -> Result<Entry, LibraryFault>
    requires { AreListed earlier.now.index.now earlier.now.entries.now }
    ensures entry { IfOk result (λ e.
        SpellsEntry (entry_values earlier.now.entries.now)
        (borrowed_value line.now) (entry_value e)) }
    ensures fault { IfErr result (λ f.
        EntryFaultSays f (entry_values earlier.now.entries.now) (borrowed_value line.now)) }
{
    let said = entry_text(line)?;
    entry_from(alloc, earlier, line, &said)
}
