//! The contents of a feature file. Tags include their `@`, and keywords don't include their colon.
//! Lines are counted from 1.

use crate::keyword::Keyword;

/// A feature: its name, the line of its heading, its own tags, its background, the scenarios before
/// its first rule, and its rules. (Cucumber's Gherkin reference: feature)
#[derive(Clone, Debug, Drop)]
pub struct Feature {
    pub name: String,
    pub line: u32,
    pub tags: Vec<String>,
    pub background: Option<Background>,
    pub scenarios: Vec<Scenario>,
    pub rules: Vec<Rule>,
}

/// A rule: its name, the line of its heading, its own tags, its background and its scenarios.
/// (Cucumber's Gherkin reference: rule)
#[derive(Clone, Debug, Drop)]
pub struct Rule {
    pub name: String,
    pub line: u32,
    pub tags: Vec<String>,
    pub background: Option<Background>,
    pub scenarios: Vec<Scenario>,
}

/// A scenario or an outline: its keyword as written, its name, the line of its heading, its own
/// tags, its steps and its examples in order. (Cucumber's Gherkin reference: example, scenario
/// outline)
#[derive(Clone, Debug, Drop)]
pub struct Scenario {
    pub keyword: Keyword,
    pub name: String,
    pub line: u32,
    pub tags: Vec<String>,
    pub steps: Vec<Step>,
    pub examples: Vec<Examples>,
}

/// A background: the line of its heading, and its steps in order. (Cucumber's Gherkin reference:
/// background)
#[derive(Clone, Debug, Drop)]
pub struct Background {
    pub line: u32,
    pub steps: Vec<Step>,
}

/// A step: its keyword as written, its type, its text after the keyword, the block under it, and
/// its line. (Cucumber's Gherkin reference: steps)
#[derive(Clone, Debug, Drop)]
pub struct Step {
    pub keyword: Keyword,
    pub step_type: StepType,
    pub text: String,
    pub block: Block,
    pub line: u32,
}

/// The block under a step: nothing, a doc string's text, or a table's cells, row by row.
/// (Cucumber's Gherkin reference: step arguments)
#[derive(Clone, Debug, Drop)]
pub enum Block {
    Empty,
    Text(String),
    Table(Vec<Vec<String>>),
}

/// The type of a step: that of its keyword. For `And`, `But` and `*` it is the type of the step
/// before it among the same steps, or `Given` if there is none before it. (Cucumber's Gherkin
/// reference: steps)
#[derive(Clone, Copy, Debug, PartialEq, Eq)]
pub enum StepType {
    Given,
    When,
    Then,
}

/// A row under the header of examples. (Cucumber's Gherkin reference: examples)
#[derive(Clone, Debug, Drop)]
pub struct Row {
    pub line: u32,
    pub cells: Vec<String>,
}

/// Examples: a header and the rows under it. If there is no table, the header has no cells and
/// there are no rows. (Cucumber's Gherkin reference: examples)
#[derive(Clone, Debug, Drop)]
pub struct Examples {
    pub name: String,
    pub line: u32,
    pub tags: Vec<String>,
    pub header: Vec<String>,
    pub rows: Vec<Row>,
}
