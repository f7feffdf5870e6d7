//! Running a feature.
ghost use Rattle.std.specs.Prelude.{◌≡◌, ◌<◌, ◌∷◌, ◌||◌, true, suc, map, IfOk, OnErr};
ghost use Rattle.std.specs.List.{list_any};
ghost use Rattle.gk_world.specs.State.{state_of, layers};
ghost use Rattle.gk_world.specs.Sandbox.{depth, IsSame};
ghost use Rattle.gk_run.specs.Running.{case_statuses};
ghost use Rattle.gk_run.specs.Results as rows;
ghost use Rattle.gk_run.specs.Results.{case_row, rule_row, feature_row};
ghost use Rattle.gk_run.specs.OpenSection.{run_of, run_value};
ghost use Rattle.gk_run.specs.Chosen.{chosen_value, IsFormed};
ghost use Rattle.gk_run.specs.Features as spec;
ghost use Rattle.gk_run.specs.Features.{IsFeatureResult, rule_statuses, feature_verdict};
ghost use Rattle.gk_run.specs.PrivateContracts.{EndsFeature, RunsFeature, RunsInside};
ghost use Rattle.gk_run.specs.PrivateContracts.{StopsFeature, StopsFeatureEnd, StopsInside};

use crate::cases::{Content, divide, run_cases};
use crate::chosen::Chosen;
use crate::ending::{both, either, has_passed};
use crate::observer::{Observer, Unwatched};
use crate::open_section::{end_around, leave_section, open_section};
use crate::results::{CaseResult, FeatureResult, NoRoom, RuleResult, Status};
use crate::rules::run_rules;
use crate::section::{Level, Run, Section};
use gk_gherkin::{HookFile, HookTable};
use gk_steps::Library;
use gk_world::Sandbox;
use std::alloc::Global;

/// The results of what is inside a feature: its rules and its cases.
#[derive(Drop)]
struct InsideResults {
    rules: Vec<RuleResult>,
    cases: Vec<CaseResult>,
}

// Runs what is inside a feature: its own cases, and then its rules. `is_open` says whether the feature
// is open.
fn run_inside<O: Observer>(
    run: &Run<'_>,
    sandbox: &mut Sandbox,
    is_open: bool,
    content: Content,
    observer: &mut O,
) -> Result<InsideResults, NoRoom>
    requires layer { suc (depth sandbox.old) < layers }
    ensures inside { IfOk result (RunsInside O.hears O.ends run.now
        (state_of sandbox.old.now) is_open content observer.old observer.new) }
    ensures stopped { OnErr result (StopsInside O.hears O.ends run.now
        (state_of sandbox.old.now) is_open content observer.old observer.new) }
    ensures same { IsSame sandbox.old sandbox.new }
{
    let Content {
        own,
        rules,
        results,
    } = content;
    let mut cases = results;
    let all_stay = run_cases(run, sandbox, is_open, own, &mut cases, observer)?;
    let is_open = both(is_open, all_stay);
    let rules = run_rules(run, sandbox, is_open, rules, &mut cases, observer)?;
    Ok(InsideResults { rules, cases })
}

/// How a feature's hooks and cleanups ended, and the results of what is inside it.
#[derive(Drop)]
struct FeatureEnd {
    around: Status,
    inside: InsideResults,
}

// Runs a feature in its own layer if it is begun; otherwise returns the results of what is inside it.
fn feature_end<O: Observer>(
    run: &Run<'_>,
    sandbox: &mut Sandbox,
    is_begun: bool,
    tags: &[String],
    content: Content,
    observer: &mut O,
) -> Result<FeatureEnd, NoRoom>
    requires layer { suc (suc (depth sandbox.old)) < layers }
    ensures end { IfOk result (EndsFeature O.hears O.ends run.now (state_of sandbox.old.now)
        is_begun tags.now content observer.old observer.new) }
    ensures stopped { OnErr result (StopsFeatureEnd O.hears O.ends run.now
        (state_of sandbox.old.now) is_begun tags.now content observer.old observer.new) }
    ensures same { IsSame sandbox.old sandbox.new }
{
    if !is_begun {
        let inside = run_inside(run, sandbox, false, content, observer)?;
        return Ok(FeatureEnd {
            around: Status::Passed,
            inside,
        });
    }
    let section = Section {
        level: Level::Feature,
        tags,
    };
    let opened = open_section(run, sandbox, &section, observer);
    match run_inside(run, sandbox, has_passed(opened.before), content, observer) {
        Err(NoRoom) => {
            leave_section(sandbox, opened);
            Err(NoRoom)
        }
        Ok(inside) => Ok(FeatureEnd {
            around: end_around(run, sandbox, &section, opened, observer),
            inside,
        }),
    }
}

fn has_selected(selected: &[bool]) -> bool
    ensures { result ≡ list_any (λ s. s) selected.now }
{
    selected.iter().any(|s| *s)
}

fn has_status(status: Status, wanted: Status) -> bool
    ensures { result ≡ rows.is_status wanted status }
{
    status == wanted
}

fn verdict_by(memory: bool, failed: bool, untested: bool, passed: bool) -> Status
    ensures { result ≡ spec.verdict_by memory failed untested passed }
{
    if memory {
        Status::Memory
    } else if failed {
        Status::Failed
    } else if untested {
        Status::Untested
    } else if passed {
        Status::Passed
    } else {
        Status::Skipped
    }
}

// Returns whether the hooks and cleanups of a rule ended with the wanted status.
fn has_around(rules: &[RuleResult], wanted: Status) -> bool
    ensures { result ≡ list_any (λ (r : RuleResult). rows.is_status wanted r.around) rules.now }
{
    rules.iter().any(|rule| has_status(rule.around, wanted))
}

fn has_case(cases: &[CaseResult], wanted: Status) -> bool
    ensures { result ≡ list_any (λ (c : CaseResult). rows.is_status wanted c.status) cases.now }
{
    cases.iter().any(|case| has_status(case.status, wanted))
}

// Returns whether a feature's hooks and cleanups, those of a rule or a case have the wanted status.
fn has_anywhere(around: Status, rules: &[RuleResult], cases: &[CaseResult], wanted: Status) -> bool
    ensures { result
        ≡ (list_any (rows.is_status wanted) (around ∷ rule_statuses (map rule_row rules.now))
        || list_any (rows.is_status wanted) (case_statuses (map case_row cases.now))) }
{
    let has_ended = either(has_status(around, wanted), has_around(rules, wanted));
    either(has_ended, has_case(cases, wanted))
}

/// Returns the verdict of a feature.
pub fn feature_status(around: Status, rules: &[RuleResult], cases: &[CaseResult]) -> Status
    ensures { result ≡ feature_verdict around (rule_statuses (map rule_row rules.now))
        (case_statuses (map case_row cases.now)) }
{
    verdict_by(
        has_anywhere(around, rules, cases, Status::Memory),
        has_anywhere(around, rules, cases, Status::Failed),
        has_case(cases, Status::Untested),
        has_case(cases, Status::Passed),
    )
}

// Runs a feature of a run. `is_open` says whether the run is open.
pub(crate) fn feature_in<O: Observer>(
    run: &Run<'_>,
    sandbox: &mut Sandbox,
    is_open: bool,
    chosen: Chosen,
    observer: &mut O,
) -> Result<FeatureResult, NoRoom>
    requires layer { suc (suc (depth sandbox.old)) < layers }
    requires formed { IsFormed chosen }
    ensures ran { IfOk result (λ r. RunsFeature O.hears O.ends (run_value run.now)
        (state_of sandbox.old.now) is_open (chosen_value chosen) observer.old observer.new
        (feature_row r)) }
    ensures stopped { OnErr result (StopsFeature O.hears O.ends (run_value run.now)
        (state_of sandbox.old.now) is_open (chosen_value chosen) observer.old observer.new) }
    ensures same { IsSame sandbox.old sandbox.new }
{
    let Chosen {
        source,
        name,
        line,
        tags,
        rules,
        cases,
        selected,
    } = chosen;
    let is_begun = both(is_open, has_selected(selected.as_slice()));
    let content = divide(run.alloc, rules, cases, selected)?;
    let end = feature_end(run, sandbox, is_begun, tags.as_slice(), content, observer)?;
    Ok(FeatureResult {
        source,
        name,
        line,
        status: feature_status(
            end.around,
            end.inside.rules.as_slice(),
            end.inside.cases.as_slice(),
        ),
        around: end.around,
        rules: end.inside.rules,
        cases: end.inside.cases,
    })
}

/// Runs a feature in its own layer: its before hooks, its cases without a rule in order, each in its
/// own layer, its rules in order, its after hooks and its cleanups. A rule runs the same way in its own
/// layer, with the hooks of rules and of the rule's tags. Unselected cases and their steps are skipped.
/// If the before hooks of a feature or a rule don't pass, its selected cases are untested; with `stop`,
/// so are those after a case or a rule that is failed or memory. A feature or a rule without a selected
/// case isn't begun. The sandbox is as it was, whatever is returned. `NoRoom` is returned if results
/// couldn't be reserved; the layers that were begun are ended. The sandbox has at most one open layer.
/// (behave's documentation: context layers, environment file functions, cleanups)
pub fn run_feature(
    alloc: Global,
    sandbox: &mut Sandbox,
    library: &Library,
    hooks: &HookFile,
    stop: bool,
    chosen: Chosen,
) -> Result<FeatureResult, NoRoom>
    requires layer { suc (suc (depth sandbox.old)) < layers }
    requires formed { IsFormed chosen }
    ensures row { IfOk result (λ r. IsFeatureResult (run_of library.now hooks.now stop)
        (state_of sandbox.old.now) true (chosen_value chosen) (feature_row r)) }
    ensures same { IsSame sandbox.old sandbox.new }
{
    let hooks = HookTable::new(alloc, hooks);
    let run = Run {
        alloc,
        library,
        hooks: &hooks,
        stop,
    };
    feature_in(&run, sandbox, true, chosen, &mut Unwatched)
}
