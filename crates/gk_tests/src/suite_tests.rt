ghost use Rattle.std.specs.Prelude.{IfOk};
ghost use Rattle.gk_run.specs.Chosen.{IsFormed};

use crate::checks::{equal, holds, same};
use crate::run_tests::{cases_of, chosen_of, feature_of, run_chosen};
use gk_gherkin::{HookFile, HookTable, Step, read_hooks};
use gk_report::{Format, Style, part};
use gk_run::{
    CaseResult, Chosen, Cleanup, FeatureResult, Level, Mark, NoRoom, Observer, Outcome, Reason,
    RuleResult, Stage, Status, StepDone, Suite, dry_feature, is_failed_or_memory, reason_of,
    run_case_watched, status_of,
};
use gk_select::Case;
use gk_steps::{Library, default_library};
use gk_world::Sandbox;
use std::alloc::Global;
use std::test::Fail;

#[test]
fn failures_are_told_from_the_rest(rt: HostRuntime) {
    holds(
        &rt,
        is_failed_or_memory(Status::Failed) && is_failed_or_memory(Status::Memory),
    );
    holds(
        &rt,
        !is_failed_or_memory(Status::Passed) && !is_failed_or_memory(Status::Skipped),
    );
    holds(
        &rt,
        !is_failed_or_memory(Status::Undefined) && !is_failed_or_memory(Status::Untested),
    );
}

// What became of steps, the status of each, and why it failed.
const MARKS: [(Mark, Status, Option<Reason>); 7] = [
    (Mark::Acted(Outcome::Passed), Status::Passed, None),
    (
        Mark::Acted(Outcome::Failed(Reason::Absent)),
        Status::Failed,
        Some(Reason::Absent),
    ),
    (Mark::Acted(Outcome::Skip), Status::Skipped, None),
    (Mark::Acted(Outcome::Memory), Status::Memory, None),
    (Mark::Undefined, Status::Undefined, None),
    (Mark::Skipped, Status::Skipped, None),
    (Mark::Untested, Status::Untested, None),
];

#[test]
fn steps_have_statuses_and_reasons(rt: HostRuntime) {
    for (mark, status, reason) in MARKS {
        equal(&rt, &status_of(mark), &status);
        equal(&rt, &reason_of(mark), &reason);
    }
}

// Returns the feature of a text with its cases. All are chosen except those with the tag `@out`.
pub(crate) fn chosen(alloc: Global, text: &str) -> Result<Chosen, Fail>
    ensures { IfOk result (λ chosen. IsFormed chosen) }
{
    let feature = feature_of(alloc, text)?;
    chosen_of(alloc, feature, "~@out")
}

// Runs a feature alone with the built-in library. Returns its result.
pub(crate) fn ran(alloc: Global, text: &str) -> Result<FeatureResult, Fail> {
    let library = default_library(alloc)?;
    let hooks = read_hooks(alloc, b"")?;
    let chosen = chosen(alloc, text)?;
    Ok(run_chosen(alloc, &library, &hooks, false, chosen)?)
}

// A feature with a step that is undefined, and a scenario that isn't chosen.
const ORDERS: &str =
    "Feature: Orders\n  Scenario: An order is written\n    Given a file named \"order\" containing \"bread\"\n    When the file \"order\" is extendid with \", milk\"\n    Then the file \"order\" should be \"bread, milk\"\n  @out\n  Scenario: Another\n    Given it passes\n";

// Its part of the report of a dry run.
const LOOKED_UP: &str =
    "Feature: Orders ... untested\n  Scenario: An order is written ... untested\n    Given a file named \"order\" containing \"bread\" ... untested\n    When the file \"order\" is extendid with \", milk\" ... undefined\n    Then the file \"order\" should be \"bread, milk\" ... untested\n  Scenario: Another ... skipped\n    Given it passes ... skipped\n\n";

#[test]
fn steps_are_looked_up(rt: HostRuntime) -> Result<(), Fail> {
    let library = default_library(rt.alloc())?;
    let chosen = chosen(rt.alloc(), ORDERS)?;
    let result = dry_feature(rt.alloc(), &library, chosen)?;
    let style = Style {
        format: Format::Plain,
        no_skipped: false,
    };
    let part = part(rt.alloc(), style, true, &result)?;
    same(&rt, part.as_str(), LOOKED_UP);
    Ok(())
}

/// An observer that keeps a line of each call: the place, the outcome, whether a step's action was carried out and
/// registered a cleanup, and the value `n` after it.
#[derive(Debug, Drop)]
struct EventLines {
    text: String,
}

impl Observer for EventLines {
    ghost hears = { λ old event new. Unit {0} };

    ghost ends = { λ old ended new. Unit {0} };

    fn step(&mut self, stage: Stage, step: &Step, done: &StepDone<'_>, sandbox: &Sandbox) {
        let value = sandbox.value("n");
        let Stage { level, part } = stage;
        let StepDone {
            mark,
            registered,
            ..
        } = *done;
        let is_used = done.used.is_some();
        let _ = write!(
            self.text,
            "{level:?} {part:?} {} {mark:?} {is_used} {registered} {value:?}\n",
            step.line
        );
    }

    fn cleanup(&mut self, level: Level, cleanup: &Cleanup, outcome: Outcome, sandbox: &Sandbox) {
        let value = sandbox.value("n");
        let _ = write!(
            self.text,
            "{level:?} cleanup of {:?} {} {:?} {outcome:?} {value:?}\n",
            cleanup.at.part, cleanup.at.line, cleanup.found.fields
        );
    }

    fn case_ended(&mut self, index: usize, row: &CaseResult) {
        let _ = write!(
            self.text,
            "scenario {index} {} {:?}\n",
            row.line, row.status
        );
    }

    fn rule_ended(&mut self, row: &RuleResult) {
        let _ = write!(self.text, "rule {} {:?}\n", row.line, row.around);
    }
}

// A feature with a scenario that registers a cleanup, and with a rule.
const FEATURE: &str =
    "Feature: f\n  Scenario: a\n    Given the value \"n\" is set to \"1\"\n    And at cleanup the value \"n\" should be \"1\"\n  Rule: r\n    Scenario: b\n      Then the value \"n\" should be \"1\"\n";

// Hooks around the run and the rule.
const HOOKS: &str =
    "before_all:\n  Given it passes\nafter_rule:\n  Then it fails\nafter_all:\n  Then it passes\n";

// The lines of its first scenario, and of the whole run.
const CASE_LINES: &str =
    "Scenario Steps 3 Acted(Passed) true false Some(\"1\")\nScenario Steps 4 Acted(Passed) true true Some(\"1\")\nScenario cleanup of Steps 4 [Text(\"n\"), Text(\"1\")] Passed Some(\"1\")\nscenario 0 2 Passed\n";

const RUN_LINES: &str =
    "Run Before 2 Acted(Passed) true false None\nScenario Steps 3 Acted(Passed) true false Some(\"1\")\nScenario Steps 4 Acted(Passed) true true Some(\"1\")\nScenario cleanup of Steps 4 [Text(\"n\"), Text(\"1\")] Passed Some(\"1\")\nscenario 0 2 Passed\nScenario Steps 7 Acted(Failed(Absent)) true false None\nscenario 1 6 Failed\nRule After 4 Acted(Failed(Asked)) true false None\nrule 5 Failed\nRun After 6 Acted(Passed) true false None\n";

// Returns the first scenario of a feature.
fn first_case(alloc: Global, text: &str) -> Result<Case, Fail> {
    match cases_of(alloc, text)?.into_iter().next() {
        Some(case) => Ok(case),
        None => Err("no scenario".into()),
    }
}

// Runs a scenario alone in a new sandbox, and adds the lines of its events.
fn run_case_with_lines(
    alloc: Global,
    library: &Library,
    hooks: &HookFile,
    case: Case,
    lines: &mut EventLines,
) -> Result<CaseResult, NoRoom> {
    let mut sandbox = Sandbox::new(alloc);
    run_case_watched(alloc, &mut sandbox, library, hooks, case, lines)
}

// Runs the first scenario of a feature alone without hooks. Returns its status, and the lines of its events.
fn lines_of_case(alloc: Global, library: &Library, text: &str) -> Result<(Status, String), Fail> {
    let mut lines = EventLines {
        text: String::new(alloc),
    };
    let hooks = read_hooks(alloc, b"")?;
    let case = first_case(alloc, text)?;
    let result = run_case_with_lines(alloc, library, &hooks, case, &mut lines)?;
    Ok((result.status, lines.text))
}

#[test]
fn observers_receive_the_events_of_a_case(rt: HostRuntime) -> Result<(), Fail> {
    let library = default_library(rt.alloc())?;
    let (status, lines) = lines_of_case(rt.alloc(), &library, FEATURE)?;
    equal(&rt, &status, &Status::Passed);
    same(&rt, lines.as_str(), CASE_LINES);
    Ok(())
}

// Returns the status of a feature, and that of its hooks and cleanups, if it ran.
fn statuses_of(ran: Result<FeatureResult, NoRoom>) -> Option<(Status, Status)> {
    match ran {
        Ok(feature) => Some((feature.status, feature.around)),
        Err(_) => None,
    }
}

// Runs one feature. Returns the feature's statuses, how the run's hooks and cleanups ended, and the lines of the run's
// events.
fn lines_of_run(
    alloc: Global,
    library: &Library,
    hooks: &HookFile,
    chosen: Chosen,
) -> (Option<(Status, Status)>, Status, String)
    requires { IsFormed chosen }
{
    let hooks = HookTable::new(alloc, hooks);
    let mut sandbox = Sandbox::new(alloc);
    let mut lines = EventLines {
        text: String::new(alloc),
    };
    let mut suite = Suite::start_watched(alloc, &mut sandbox, library, &hooks, false, &mut lines);
    let ran = suite.feature_watched(alloc, &mut sandbox, library, &hooks, chosen, &mut lines);
    let statuses = statuses_of(ran);
    let around = suite.finish_watched(alloc, &mut sandbox, library, &hooks, &mut lines);
    (statuses, around, lines.text)
}

#[test]
fn observers_receive_the_events_of_a_run(rt: HostRuntime) -> Result<(), Fail> {
    let library = default_library(rt.alloc())?;
    let hooks = read_hooks(rt.alloc(), HOOKS.as_bytes())?;
    let chosen = chosen(rt.alloc(), FEATURE)?;
    let (statuses, around, lines) = lines_of_run(rt.alloc(), &library, &hooks, chosen);
    equal(&rt, &statuses, &Some((Status::Failed, Status::Passed)));
    equal(&rt, &around, &Status::Passed);
    same(&rt, lines.as_str(), RUN_LINES);
    Ok(())
}

// Runs two features. The run stops at a failure. Returns the statuses of both, with those of their hooks and cleanups,
// and how the run's hooks and cleanups ended.
fn run_of_two(
    alloc: Global,
    library: &Library,
    hooks: &HookFile,
    first: Chosen,
    second: Chosen,
) -> (Option<(Status, Status)>, Option<(Status, Status)>, Status)
    requires formed_first { IsFormed first }
    requires formed_second { IsFormed second }
{
    let mut sandbox = Sandbox::new(alloc);
    let mut suite = Suite::start(alloc, &mut sandbox, library, hooks, true);
    let first = statuses_of(suite.feature(alloc, &mut sandbox, library, hooks, first));
    let second = statuses_of(suite.feature(alloc, &mut sandbox, library, hooks, second));
    let around = suite.finish(alloc, &mut sandbox, library, hooks);
    (first, second, around)
}

// The feature that comes second.
const SECOND: &str = "Feature: g\n  Scenario: t\n    Given it passes\n";

// Runs the feature of a text, and then the second.
fn run_before_second(
    alloc: Global,
    library: &Library,
    hooks: &HookFile,
    text: &str,
) -> Result<(Option<(Status, Status)>, Option<(Status, Status)>, Status), Fail> {
    let first = chosen(alloc, text)?;
    let second = chosen(alloc, SECOND)?;
    Ok(run_of_two(alloc, library, hooks, first, second))
}

// Features of which the first fails or passes, and the status of each. That of the second follows.
const STOPPING: [(&str, Status, Status); 2] = [
    (
        "Feature: f\n  Scenario: s\n    Given it fails\n",
        Status::Failed,
        Status::Untested,
    ),
    (
        "Feature: f\n  Scenario: s\n    Given it passes\n",
        Status::Passed,
        Status::Passed,
    ),
];

#[test]
fn runs_stop_after_a_feature_that_failed(rt: HostRuntime) -> Result<(), Fail> {
    let library = default_library(rt.alloc())?;
    let hooks = read_hooks(rt.alloc(), b"after_all:\n  Then it fails\n")?;
    for (text, status, after) in STOPPING {
        let statuses = run_before_second(rt.alloc(), &library, &hooks, text)?;
        let wanted = (
            Some((status, Status::Passed)),
            Some((after, Status::Passed)),
            Status::Failed,
        );
        equal(&rt, &statuses, &wanted);
    }
    Ok(())
}
