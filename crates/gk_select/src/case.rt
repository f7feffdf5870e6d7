//! A scenario as it is run.

use gk_gherkin::{Keyword, Step};
use std::rc::Rc;

/// A plain scenario, or an outline filled from one row.
#[derive(Debug, Drop)]
pub struct Case {
    /// The scenario's name; for a row `NAME -- @E.R EXAMPLESNAME`, without trailing spaces and tabs.
    pub name: String,
    /// The scenario's keyword, without its colon.
    pub keyword: Keyword,
    /// The line of the scenario's heading, or of the row, counted from 1.
    pub line: u32,
    /// The index of the case's rule among the feature's rules, counted from 0; `None` if it is in no rule.
    pub rule: Option<u32>,
    /// The tags of the feature, the rule, the scenario and the Examples, in that order, each with its `@`. The
    /// rows of one Examples share this list and the next.
    pub tags: Rc<Vec<String>>,
    /// The tags of the scenario and the Examples only.
    pub own_tags: Rc<Vec<String>>,
    /// The steps of the feature's Background, of the rule's Background, and then the scenario's own.
    pub steps: Vec<Step>,
}
