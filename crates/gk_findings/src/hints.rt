//! Hints on how to fix faults, in one line each.
ghost use Rattle.std.specs.Prelude.{◌≡◌, map, option_map, string_bytes, IfOk};
ghost use Rattle.gk_request.specs.Source.{source_value};
ghost use Rattle.gk_findings.specs.Hints as spec;

use crate::notes::{position_of, text_lines, without_mark};
use gk_gherkin::ReadFault;
use gk_lint::{cause_at, library_cause};
use gk_request::{RunFault, Source};
use gk_select::SelectFault;
use gk_steps::LibraryFault;
use std::alloc::{AllocError, Global};

/// The hint for a file that can't be opened or read.
pub const UNREADABLE: &str =
    "check its name and permissions; for a folder, name its files, as in features/*.feature; for FILE:12, write --line 12 FILE";

// Hints for faults that more than one reader has.
const TOO_LONG: &str = "divide the file";

const NOT_UTF8: &str = "save the file as UTF-8";

const NO_MEMORY: &str = "divide the files, or spread them over several runs";

/// What is wrong with an argument of `--env`.
#[derive(Clone, Copy, Debug, PartialEq, Eq)]
pub enum EnvMistake {
    /// It has no `=`.
    NoEquals,
    /// No variable may have its name.
    BadName,
    /// Its value is longer than a text may be.
    LongValue,
}

/// Returns the hint for an argument of `--env`.
pub fn env_hint(mistake: EnvMistake) -> &'static str
    ensures { result.now ≡ spec.env_hint mistake }
{
    match mistake {
        EnvMistake::NoEquals => "write NAME=VALUE, with = after the name",
        EnvMistake::BadName => "give the variable a name of 1 to 255 bytes before the =",
        EnvMistake::LongValue => "shorten its value: at most 1048576 bytes",
    }
}

// Returns the hint for a fault of a feature file.
fn feature_hint(fault: ReadFault) -> &'static str
    ensures { result.now ≡ spec.feature_hint fault }
{
    match fault {
        ReadFault::NotUtf8 { .. } => NOT_UTF8,
        ReadFault::Unexpected { .. } => "look at the lines above, too",
        ReadFault::BadTag { .. } => "write an @ before each tag, and a # before remarks",
        ReadFault::CellCount { .. } => {
            "give each row as many cells as the first; write \\| for a bar inside a cell"
        }
        ReadFault::UnclosedText { .. } => {
            "close it with a line of the same three characters alone"
        }
        ReadFault::TagsAtEnd { .. } => "give the tags a scenario, or take them out",
        ReadFault::Language { .. } => { "write the keywords in English, and take this comment out" }
        ReadFault::TooLong => TOO_LONG,
        ReadFault::Memory => NO_MEMORY,
        ReadFault::BadHook { .. } => {
            "write before_ or after_, and then all:, feature:, rule:, scenario: or tag @NAME:, each heading once"
        }
        ReadFault::BadRow { .. } => "close the row with a bar",
    }
}

// Returns the hint for a fault of a hooks file.
fn hooks_hint(fault: ReadFault) -> &'static str
    ensures { result.now ≡ spec.hooks_hint fault }
{
    match fault {
        ReadFault::Unexpected { .. } => {
            "write each heading as before_all: or after_all:, and below it only steps, each with its keyword"
        }
        _ => feature_hint(fault),
    }
}

// Returns the hint for a fault of a library file.
fn library_hint(fault: LibraryFault) -> &'static str
    ensures { result.now ≡ spec.library_hint fault }
{
    match fault {
        LibraryFault::NotUtf8 { .. } => NOT_UTF8,
        LibraryFault::BadType { .. } => {
            "begin the line with given, when, then or step, in lower case"
        }
        LibraryFault::BadPattern { .. } => {
            "write PATTERN => ACTION, with {{ and }} for braces, and a name of its own for each field"
        }
        LibraryFault::UnknownAction { .. } => {
            "take a name of the table of actions, in lower case"
        }
        LibraryFault::MissingField { .. } => "name the fields as the action does",
        LibraryFault::FieldKind { .. } => {
            "write {n:d} for the number; name, to, text and step are texts"
        }
        LibraryFault::Ambiguous { .. } => "put the special entry first, or make it differ",
        LibraryFault::TooLong => TOO_LONG,
        LibraryFault::Memory => NO_MEMORY,
    }
}

/// Returns the hint for texts of tags, or for the cases of a feature.
pub fn select_hint(fault: SelectFault) -> &'static str
    ensures { result.now ≡ spec.select_hint fault }
{
    match fault {
        SelectFault::TooMany => "divide the outline or the file",
        SelectFault::BadTagText => "write it as '@a and not @b', or as @a,~@b",
        SelectFault::Memory => NO_MEMORY,
    }
}

// Returns the hint for a fault of a run, by the fault alone.
fn hint(fault: RunFault) -> &'static str
    ensures { result.now ≡ spec.hint fault }
{
    match fault {
        RunFault::Read { fault, .. } => feature_hint(fault),
        RunFault::Hooks(fault) => hooks_hint(fault),
        RunFault::Library(fault) => library_hint(fault),
        RunFault::Select { fault, .. } => select_hint(fault),
        RunFault::Write => "make room, and run again",
        RunFault::Memory => NO_MEMORY,
    }
}

// Returns the hint for a fault of a file with these lines.
fn hint_by(alloc: Global, lines: &[&str], fault: RunFault) -> Result<String, AllocError>
    ensures { IfOk result (λ text. string_bytes text
        ≡ spec.hint_by (map (λ line. line.now) lines.now) fault) }
{
    match fault {
        RunFault::Read {
            fault: ReadFault::Unexpected { line },
            ..
        } => match cause_at(alloc, lines, position_of(line))? {
            Some(cause) => cause.text(alloc),
            None => String::from_str(alloc, hint(fault)),
        },
        RunFault::Library(of_library) => match library_cause(alloc, lines, of_library)? {
            Some(cause) => cause.text(alloc),
            None => String::from_str(alloc, hint(fault)),
        },
        _ => String::from_str(alloc, hint(fault)),
    }
}

/// Returns the hint for a fault of a run in a file, if it is in one. An error comes only if a growth was refused.
pub fn hint_in(alloc: Global, file: Option<&Source>, fault: RunFault) -> Result<String, AllocError>
    ensures { IfOk result (λ text. string_bytes text
        ≡ spec.hint_in (option_map (λ file. source_value file.now) file.entry) fault) }
{
    match file {
        Some(file) => {
            let text = String::from_utf8_lossy(alloc, file.bytes.as_slice())?;
            let lines = text_lines(alloc, without_mark(text.as_str()))?;
            hint_by(alloc, &lines, fault)
        }
        None => String::from_str(alloc, hint(fault)),
    }
}
