//! A feature's cases, and which of them are selected.

use gk_select::Case;

/// The heading of a rule.
#[derive(Debug, Drop)]
pub struct RuleHead {
    /// The line of the heading, counted from 1.
    pub line: u32,
    /// The tags of the rule alone, each with its `@`.
    pub tags: Vec<String>,
}

/// A feature with its rules and its cases in file order, and for each case whether it is selected.
/// `selected` and `cases` have the same length. The rule of a case, if it has one, is a place in
/// `rules`. These places are non-decreasing from case to case, and cases without a rule come first.
#[derive(Debug, Drop)]
pub struct Chosen {
    /// The name of the source that the feature was read from.
    pub source: String,
    pub name: String,
    pub line: u32,
    pub tags: Vec<String>,
    pub rules: Vec<RuleHead>,
    pub cases: Vec<Case>,
    pub selected: Vec<bool>,
}
