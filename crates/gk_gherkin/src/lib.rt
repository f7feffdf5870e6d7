//! Gherkin: the lines of a text, feature files and hooks files. The readers take bytes. They return
//! a `Document`, a `Feature` or a `HookFile` exactly if the bytes spell one, unless memory is
//! refused.
#![tactic(auto)]

// Texts and their lines.
mod lines;
pub mod text;

// What one line says.
mod class;
mod doc_strings;
mod keyword;
mod language;
mod rows;
mod step_types;
mod tags;

// What a file says, or why it can't be read.
mod feature;
mod hook_headings;
mod hooks;
mod read_fault;

// What the readers of both kinds of file share.
mod open_parts;
mod reading;

// The reader of a feature file.
mod feature_reader;

// The reader of a hooks file.
mod hook_index;
mod hooks_reader;
mod hooks_so_far;

// Looking up hooks, and laws.
mod hook_table;
mod laws;

pub use class::{Class, Fence, class_of_line};
pub use doc_strings::closes;
pub use feature::{Background, Block, Examples, Feature, Row, Rule, Scenario, Step, StepType};
pub use feature_reader::read_feature;
pub use hook_table::HookTable;
pub use hooks::{Hook, HookFile, HookKind};
pub use hooks_reader::read_hooks;
pub use keyword::Keyword;
pub use laws::{
    escaped_fences_are_read, fault_is_unique, hooks_reading_is_unique, parts_are_concatenations,
    reading_is_unique, rules_are_counted,
};
pub use lines::{
    BorrowedLine, Document, LONGEST_FILE, Line, Place, borrowed_line, read_lines, text_of,
};
pub use read_fault::{AllocationError, ReadFault};
