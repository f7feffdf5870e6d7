//! Patterns and step libraries. The crate reads the text of a pattern or a library, and finds what matches a step's
//! text, with its fields. A comment that names no source describes this project's profile.
#![tactic(auto)]

// Patterns, and reading one from its text.
mod pattern;
mod spelling;

// Numbers, and the literals of patterns.
mod decimal;
mod literal_ends;
mod literal_order;

// Matching a text: from the left, or by a table.
mod advances;
mod captures;
mod char_boundaries;
mod digits;
mod filled_cells;
mod leftmost;
mod matching;
mod table_rows;

// Actions, and the table of files.
mod action;
mod files_table;

// A library, and finding an entry.
mod entry_index;
mod finding;
mod keyed_numbers;
mod library;
mod used_fields;

// Library files, and the default one.
mod default_file;
mod library_file;
mod library_line;

// Faults and laws.
mod laws;
mod library_fault;

pub use action::{Action, ActionRow, ActsOn, Does, Takes, action_rows, row_named};
pub use decimal::number_of;
pub use default_file::{DEFAULT_TEXT, default_library};
pub use files_table::files_below;
pub use finding::Found;
pub use laws::{
    default_text_reads_as_its_entries, finding_is_determined, library_fault_is_unique,
    library_reading_is_unique, matches_are_determined, spelling_is_computed, spelling_is_unique,
};
pub use library::{Entry, Library};
pub use library_fault::LibraryFault;
pub use library_file::read_library;
pub use library_line::{EntryText, entry_text, has_right_kind, is_ignored};
pub use pattern::{Field, FieldKind, Pattern, PatternFault, Piece};
pub use spelling::{field_kind, read_pattern};
pub use used_fields::{FoundUse, UsedFields};
