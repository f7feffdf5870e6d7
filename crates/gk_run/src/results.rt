//! The results of running.
ghost use Rattle.std.specs.Prelude.{◌≡◌, ◌≤◌, [], length, vec_capacity, IfOk};

use gk_gherkin::Keyword;
use std::alloc::{AllocError, Global};

/// The status of a step, a scenario or a feature, or of the hooks and cleanups of a section. A step can
/// have any of them; a scenario or a feature is never `Undefined`; hooks and cleanups are `Passed`,
/// `Failed` or `Memory`. An undefined step of a hook counts as failed. A feature has the first status
/// that applies, in the order `Memory`, `Failed`, `Untested`, `Passed`, `Skipped`. (behave's
/// documentation: the statuses of steps)
#[derive(Clone, Copy, Debug, PartialEq, Eq)]
pub enum Status {
    /// A step passed; each step, hook and cleanup of a scenario passed; or a scenario of a feature
    /// passed.
    Passed,
    /// A step's action failed; in a scenario, a step, a hook or a cleanup failed, or a step is
    /// undefined; or in a feature, a scenario, the feature's hooks and cleanups, or those of one of its
    /// rules failed.
    Failed,
    /// A step comes after the one that ended its scenario, or its scenario skipped itself or isn't
    /// selected; a scenario skipped itself or isn't selected; or no scenario of a feature passed.
    Skipped,
    /// No entry of the library matches a step.
    Undefined,
    /// Memory was refused before a step was reached; a scenario and its steps weren't reached; or a
    /// scenario of a feature is untested. In a dry run: an entry of the library matches a step; or a
    /// scenario is selected, and memory was refused at none of its steps.
    Untested,
    /// Memory was refused: in a step; in a step, a hook or a cleanup of a scenario; or in a feature's
    /// scenario, in its hooks and cleanups, or in those of one of its rules.
    Memory,
}

/// Why an action fails.
#[derive(Clone, Copy, Debug, PartialEq, Eq)]
pub enum Reason {
    /// There is no such file, variable or value.
    Absent,
    /// There is such a file, variable or value.
    Present,
    /// The text or the number is a different one, or the text doesn't contain the one asked for.
    Differs,
    /// The text has more bytes than `gk_world::LONGEST_TEXT`.
    TextTooLong,
    /// The name is empty, or has more bytes than `gk_world::LONGEST_NAME`.
    BadName,
    /// The value was set only in an outer layer.
    OtherLayer,
    /// The step has no text: its pattern has no field `text`, and it has no doc string.
    NoText,
    /// The step has no table.
    NoTable,
    /// The table isn't one of names and texts.
    BadTable,
    /// The value isn't a number.
    NotNumber,
    /// The sum isn't a signed 64-bit number.
    OutOfRange,
    /// No entry of type `step` matches the step that is to be registered as a cleanup.
    NoStep,
    /// The site doesn't allow the action: a cleanup registers a cleanup; or a cleanup, or a hook other
    /// than a scenario's before hook, skips a scenario.
    NotHere,
    /// The step's action is `fail`.
    Asked,
}

/// How an action ended.
#[derive(Clone, Copy, Debug, PartialEq, Eq)]
pub enum Outcome {
    /// It passed.
    Passed,
    /// It failed for this reason.
    Failed(Reason),
    /// It skips the scenario.
    Skip,
    /// Memory was refused in it.
    Memory,
}

/// The mark of a step: what became of it.
#[derive(Clone, Copy, Debug, PartialEq, Eq)]
pub enum Mark {
    /// Its action was carried out, with this outcome; or memory was refused while it was looked up.
    Acted(Outcome),
    /// No entry of the library matches it.
    Undefined,
    /// It isn't carried out, because an earlier step ended the scenario or the scenario isn't selected.
    Skipped,
    /// It isn't reached, or, in a dry run, an entry of the library matches it.
    Untested,
}

/// The results of running couldn't be reserved, because memory was refused.
#[derive(Clone, Copy, Debug, PartialEq, Eq)]
pub struct NoRoom;

/// The result of a step.
#[derive(Debug, Drop)]
pub struct StepResult {
    pub keyword: Keyword,
    pub text: String,
    pub line: u32,
    pub status: Status,
    /// Why it failed, if its status is `Failed`.
    pub reason: Option<Reason>,
}

/// The result of a scenario, or of one row of an outline.
#[derive(Debug, Drop)]
pub struct CaseResult {
    pub keyword: Keyword,
    pub name: String,
    pub line: u32,
    pub status: Status,
    /// How its hooks and cleanups ended: `Passed`, `Failed` or `Memory`.
    pub around: Status,
    /// The outcomes of its cleanups in running order, the last registered first.
    pub cleanups: Vec<Outcome>,
    pub steps: Vec<StepResult>,
}

/// The result of a rule without its scenarios, which are among those of its feature.
#[derive(Clone, Copy, Debug, PartialEq, Eq)]
pub struct RuleResult {
    /// The line of the rule's heading, counted from 1.
    pub line: u32,
    /// How its hooks and cleanups ended: `Passed`, `Failed` or `Memory`.
    pub around: Status,
}

/// The result of a feature, with the name of the source that it was read from.
#[derive(Debug, Drop)]
pub struct FeatureResult {
    pub source: String,
    pub name: String,
    pub line: u32,
    pub status: Status,
    /// How its own hooks and cleanups ended: `Passed`, `Failed` or `Memory`.
    pub around: Status,
    /// One for each rule, in file order.
    pub rules: Vec<RuleResult>,
    pub cases: Vec<CaseResult>,
}

/// A list of what is to be run, with room for the result of each element.
#[derive(Drop)]
pub struct Reserved<T, R> {
    pub list: Vec<T>,
    pub results: Vec<R>,
    ghost empty: { results.items ≡ [] },
    ghost room: { length list.items ≤ vec_capacity results },
}

/// Reserves room for the result of each element of a list.
pub fn reserve<T: Drop, R: Drop>(alloc: Global, list: Vec<T>) -> Result<Reserved<T, R>, NoRoom>
    ensures { IfOk result (λ reserved. reserved.list ≡ list) }
{
    match Vec::with_capacity(alloc, list.len()) {
        Ok(results) => Ok(Reserved { list, results }),
        Err(AllocError) => Err(NoRoom),
    }
}
