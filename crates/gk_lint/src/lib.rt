//! Findings before a run: parts of a feature file that a run would silently ignore, steps that are undefined or can't
//! work, and parts of a library or a hooks file that aren't used. The functions take what a run would read, and return
//! all of its findings and no others, in the order of their lines. They run nothing.
//! If a comment names no source, what it says is this project's profile.
#![tactic(auto)]

mod blocks;
mod entry_hints;
mod example_parts;
mod feature_file;
mod findings;
mod laws;
mod library_causes;
mod library_use;
mod likeness;
mod line_context;
mod line_ends;
mod lookups;
mod missing_parts;
mod misspelt;
mod named_tags;
mod nearest_entry;
mod number_sets;
mod placeholders;
mod scenario_lines;
mod scenario_names;
mod step_faults;
mod step_sites;
mod tag_use;
mod text_sets;
mod unexpected_lines;
mod written_steps;

pub use entry_hints::EntryHints;
pub use feature_file::lint_feature;
pub use findings::{Finding, FindingKind, Hint, in_order};
pub use laws::{exchanged_is_within_exchange, one_off_is_within_one, what_is_run_is_looked_up};
pub use library_causes::{LibraryCause, library_cause};
pub use library_use::lint_library;
pub use named_tags::tags_that_stand_nowhere;
pub use scenario_lines::lines_without_scenario;
pub use step_faults::StepFault;
pub use tag_use::lint_hook_tags;
pub use unexpected_lines::{Cause, cause_at};
pub use written_steps::{StepFindings, lint_hooks, lint_steps};
