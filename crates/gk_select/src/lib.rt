//! Expansion of features into cases, and the choice of cases by tags and lines. A feature becomes its cases in
//! file order; a `--tags` text becomes a tag rule.
#![tactic(auto)]

// A case.
mod case;

// Names in a list, for lookup.
mod names;

// Parts of a case: filled texts, copied and inherited tags and steps, a name.
mod copies;
mod filling;
mod inherited;
mod outline;

// The cases of a feature, and the rows of its outlines.
mod counting;
mod example_rows;
mod expansion;

// The lists of a case's tags.
mod tag_lists;

// The words of a text of tags.
mod tag_words;

// Expressions, and the sets of tags that they hold for.
mod tag_grammar;
mod tag_values;

// Alternatives, and texts of either form.
mod alternatives;
mod tag_rules;
mod tag_stops;

// The choice of cases.
mod choice;
mod selecting;

// Faults and laws.
mod laws;
mod select_fault;

pub use case::Case;
pub use choice::Choice;
pub use copies::{copied_texts, fill_step};
pub use counting::{STEP_LIMIT, has_room};
pub use example_rows::{ExampleCell, ExampleRow, outline_rows};
pub use expansion::{expand, into_cases};
pub use laws::{
    alternatives_are_tag_rules, cases_are_in_file_order, cases_fall_into_rules,
    cases_keep_without_tags, plain_scenarios_are_cases, read_features_are_expandable,
    rows_are_at_cases, rows_are_cases, texts_have_one_cut, texts_have_one_tag_rule,
};
pub use names::Names;
pub use outline::is_outline;
pub use select_fault::SelectFault;
pub use selecting::selected_cases;
pub use tag_rules::read_tags;
pub use tag_stops::{TagStop, Wanted, tag_stop};
pub use tag_values::TagRule;
