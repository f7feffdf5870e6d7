//! The report of a run. The crate takes a style, the results of the run's features, and how the run's own hooks and
//! cleanups ended. It returns the report's text piece by piece, and the status that the run ends with.
#![tactic(auto)]

mod json_report;
mod part_pieces;
mod plain_report;
mod progress_report;
mod report;
mod report_texts;
mod rule_groups;
mod summary;

pub use part_pieces::{PartPieces, part, pieces};
pub use plain_report::push_ending;
pub use report::{
    FORMATS, Format, Style, format_named, head, json_reports_are_documents, reports_grow_by_parts,
    tail,
};
pub use report_texts::push_one_line;
pub use rule_groups::rules_follow_their_scenarios;
pub use summary::{Counts, Summary};
