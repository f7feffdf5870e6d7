//! Explanations of a run. An explainer receives the run's events as its observer. It makes the lines about each
//! scenario that failed, and about the hooks and cleanups of each section in which they failed. A comment that
//! names no source describes this project's profile.
#![tactic(auto)]

mod details;
mod differences;
mod differing_lines;
mod event;
mod event_lines;
mod explainer;
mod explanation;
mod headings;
mod nearest;
mod nearest_lines;
mod row_lines;
mod section_events;
mod shown;
mod tables;

pub use differing_lines::differing_lines_are_shown;
pub use event_lines::push_place;
pub use explainer::{Explainer, cases_are_explained};
pub use nearest::{push_entry, type_word};
pub use shown::{push_file, push_shown, push_unquoted};
