//! The text of `--lint`: the findings in a whole request, before any run, and the notes below faults.
#![tactic(auto)]

mod fault_notes;
mod finding_lines;
mod hints;
mod laws;
mod linted_sources;
mod linted_suite;
mod notes;
mod tag_hints;

pub use fault_notes::{push_env_notes, push_notes, push_unreadable_note};
pub use hints::EnvMistake;
pub use laws::{found_faults_are_failures, steps_run_at_their_sites};
pub use linted_suite::findings_text;
