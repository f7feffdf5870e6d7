ghost use Rattle.std.specs.Prelude.{◌≡◌, IfOk, length};
ghost use Rattle.gk_gherkin.specs.Feature.{feature_value};
ghost use Rattle.gk_select.specs.Expansion.{IsExpandable};
ghost use Rattle.gk_run.specs.Chosen.{IsFormed};

use crate::checks::{equal, same};
use gk_gherkin::{Feature, HookFile, Rule, read_feature, read_hooks};
use gk_report::{Format, Style, part};
use gk_run::{
    CaseResult, Chosen, FeatureResult, NoRoom, RuleHead, StepResult, run_case, run_feature,
};
use gk_select::{
    Case, Choice, cases_fall_into_rules, expand, read_features_are_expandable, read_tags,
};
use gk_steps::{Library, default_library, read_library};
use gk_world::Sandbox;
use std::alloc::{AllocError, Global};
use std::test::Fail;

// Reads the feature of a text.
pub(crate) fn feature_of(alloc: Global, text: &str) -> Result<Feature, Fail>
    ensures { IfOk result (λ feature. IsExpandable (feature_value feature)) }
{
    // No code runs here: the law says that what was read can be expanded.
    read_features_are_expandable();
    match read_feature(alloc, text.as_bytes()) {
        Ok(Some(feature)) => Ok(feature),
        _ => Err("no feature".into()),
    }
}

// Returns the headings of rules.
fn heads_of(alloc: Global, rules: Vec<Rule>) -> Result<Vec<RuleHead>, AllocError>
    ensures { IfOk result (λ heads. length heads.items ≡ length rules.items) }
{
    let mut heads = Vec::new(alloc);
    for rule in rules {
        let Rule { line, tags, .. } = rule;
        heads.push(RuleHead { line, tags })?;
    }
    Ok(heads)
}

// Reports for each case whether it is chosen.
fn selections(alloc: Global, choice: &Choice, cases: &[Case]) -> Result<Vec<bool>, AllocError>
    ensures { IfOk result (λ selected. length selected.items ≡ length cases.now) }
{
    let mut selected = Vec::new(alloc);
    for case in cases {
        selected.push(choice.chooses(case))?;
    }
    Ok(selected)
}

// Returns the choice by one tag rule.
fn choice_by(alloc: Global, tags: &str) -> Result<Choice, Fail> {
    let mut rules = Vec::new(alloc);
    rules.push(read_tags(alloc, tags)?)?;
    Ok(Choice::new(rules, Vec::new(alloc)))
}

// Returns a feature with its cases. Those whose tags fit are chosen.
pub(crate) fn chosen_of(alloc: Global, feature: Feature, tags: &str) -> Result<Chosen, Fail>
    requires { IsExpandable (feature_value feature) }
    ensures { IfOk result (λ chosen. IsFormed chosen) }
{
    let choice = choice_by(alloc, tags)?;
    let cases = expand(alloc, &feature)?;
    let selected = selections(alloc, &choice, &cases)?;
    // No code runs here: the law says that a feature's cases fall into its rules.
    cases_fall_into_rules();
    let Feature {
        name,
        line,
        tags,
        rules,
        ..
    } = feature;
    let rules = heads_of(alloc, rules)?;
    Ok(Chosen {
        source: String::from_str(alloc, "two.feature")?,
        name,
        line,
        tags,
        rules,
        cases,
        selected,
    })
}

// A feature whose cases end in different ways.
const CASES: &str =
    "Feature: f\n  Background:\n    Given the value \"n\" is set to \"1\"\n  @t\n  Scenario: passes\n    Then the value \"n\" should be \"1\"\n  Scenario: fails\n    When the file \"a\" is removed\n    Then it passes\n    And nothing knows this\n  Scenario: is skipped\n    When the scenario is skipped\n    Then it fails\n  Scenario: cleans up\n    Given at cleanup it passes\n    And at cleanup it fails\n  Scenario Outline: of <a>\n    Then the value \"n\" should be \"<a>\"\n    Examples:\n      | a |\n      | 1 |\n      | 2 |\n";

// Hooks for these cases.
const CASE_HOOKS: &str =
    "before_scenario:\n  Given the value \"n\" should be absent\nafter_scenario:\n  Then the value \"n\" should be \"1\"\nafter_tag @t:\n  Then it fails\n";

// The result of each: its status, that of its hooks and cleanups, the cleanups, and the steps.
const RUN: [&str; 6] = [
    "Scenario: passes (5) Failed Failed []; 3 Passed None; 6 Passed None",
    "Scenario: fails (7) Failed Passed []; 3 Passed None; 8 Failed Some(Absent); 9 Skipped None; 10 Undefined None",
    "Scenario: is skipped (11) Skipped Passed []; 3 Passed None; 12 Skipped None; 13 Skipped None",
    "Scenario: cleans up (14) Failed Failed [Failed(Asked), Passed]; 3 Passed None; 15 Passed None; 16 Passed None",
    "Scenario Outline: of 1 -- @1.1 (21) Passed Passed []; 3 Passed None; 18 Passed None",
    "Scenario Outline: of 2 -- @1.2 (22) Failed Passed []; 3 Passed None; 18 Failed Some(Differs)",
];

// Shows which case a result is of.
fn shown_heading(alloc: Global, case: &CaseResult) -> Result<String, AllocError> {
    format!(in alloc; "{}: {} ({})", case.keyword.as_str(), case.name, case.line)
}

// Shows how a case, its hooks and its cleanups ended.
fn shown_end(alloc: Global, case: &CaseResult) -> Result<String, AllocError> {
    format!(in alloc; " {:?} {:?} {:?}", case.status, case.around, case.cleanups)
}

// Shows the result of a step.
fn shown_step(alloc: Global, step: &StepResult) -> Result<String, AllocError> {
    format!(in alloc; "; {} {:?} {:?}", step.line, step.status, step.reason)
}

// Shows the result of a case.
fn shown(alloc: Global, case: &CaseResult) -> Result<String, AllocError> {
    let mut shown = shown_heading(alloc, case)?;
    shown.push_str(shown_end(alloc, case)?.as_str())?;
    for step in &case.steps {
        shown.push_str(shown_step(alloc, step)?.as_str())?;
    }
    Ok(shown)
}

// Returns the cases of a text's feature.
pub(crate) fn cases_of(alloc: Global, text: &str) -> Result<Vec<Case>, Fail> {
    let feature = feature_of(alloc, text)?;
    Ok(expand(alloc, &feature)?)
}

// Returns the results of the cases as one text each, in order, from a new sandbox.
fn shown_results(
    alloc: Global,
    library: &Library,
    hooks: &HookFile,
    cases: Vec<Case>,
) -> Result<Vec<String>, Fail> {
    let mut sandbox = Sandbox::new(alloc);
    let mut results = Vec::new(alloc);
    for case in cases {
        let result = run_case(alloc, &mut sandbox, library, hooks, case)?;
        results.push(shown(alloc, &result)?)?;
    }
    Ok(results)
}

#[test]
fn cases_run_alone(rt: HostRuntime) -> Result<(), Fail> {
    let library = default_library(rt.alloc())?;
    let hooks = read_hooks(rt.alloc(), CASE_HOOKS.as_bytes())?;
    let cases = cases_of(rt.alloc(), CASES)?;
    let results = shown_results(rt.alloc(), &library, &hooks, cases)?;
    equal(&rt, &results.len(), &RUN.len());
    for (result, wanted) in results.iter().zip(RUN) {
        same(&rt, result.as_str(), wanted);
    }
    Ok(())
}

// A feature with rules.
const FEATURE: &str =
    "@f\nFeature: two\n  Scenario: A\n    Given it passes\n  @out\n  Scenario: B\n    Given it fails\n  @x\n  Rule: r1\n    Scenario: C\n      Then the number \"n\" should be 11\n    Scenario: D\n      Then the number \"n\" should be 1\n  Rule: r2\n    Scenario: E\n      Given it passes\n";

// Hooks for this feature and its rules. The one after the second rule fails.
const FEATURE_HOOKS: &str =
    "before_tag @f:\n  Given the number \"n\" is set to 1\nbefore_tag @x:\n  Given the number \"n\" grows by 10\nafter_rule:\n  Then the number \"n\" should be 11\n";

// The library for this feature.
const LIBRARY: &str =
    "given it passes => pass\ngiven it fails => fail\ngiven the number \"{name}\" is set to {n:d} => set_number\ngiven the number \"{name}\" grows by {n:d} => add_number\nthen the number \"{name}\" should be {n:d} => number_is\n";

// Runs a feature in a new sandbox.
pub(crate) fn run_chosen(
    alloc: Global,
    library: &Library,
    hooks: &HookFile,
    stop: bool,
    chosen: Chosen,
) -> Result<FeatureResult, NoRoom>
    requires { IsFormed chosen }
{
    let mut sandbox = Sandbox::new(alloc);
    run_feature(alloc, &mut sandbox, library, hooks, stop, chosen)
}

// Returns the result of the feature. The cases whose tags fit are chosen.
pub(crate) fn result_of(alloc: Global, tags: &str, stop: bool) -> Result<FeatureResult, Fail> {
    let library = read_library(alloc, LIBRARY.as_bytes())?;
    let hooks = read_hooks(alloc, FEATURE_HOOKS.as_bytes())?;
    let chosen = chosen_of(alloc, feature_of(alloc, FEATURE)?, tags)?;
    Ok(run_chosen(alloc, &library, &hooks, stop, chosen)?)
}

// The tags of the cases that are chosen, whether the run stops at a failure, and the format; whether
// what is skipped is omitted, whether the part is the first one, and the part.
const PARTS: [(&str, bool, Format, bool, bool, &str); 9] = [
    (
        "~@out",
        false,
        Format::Plain,
        false,
        true,
        "Feature: two ... failed\n  Scenario: A ... passed\n    Given it passes ... passed\n  Scenario: B ... skipped\n    Given it fails ... skipped\n  Scenario: C ... passed\n    Then the number \"n\" should be 11 ... passed\n  Scenario: D ... failed\n    Then the number \"n\" should be 1 ... failed: differs\n  Scenario: E ... passed\n    Given it passes ... passed\n  (rule, line 14: hooks and cleanups) ... failed\n\n",
    ),
    (
        "~@out",
        true,
        Format::Plain,
        true,
        true,
        "Feature: two ... failed\n  Scenario: A ... passed\n    Given it passes ... passed\n  Scenario: C ... passed\n    Then the number \"n\" should be 11 ... passed\n  Scenario: D ... failed\n    Then the number \"n\" should be 1 ... failed: differs\n  Scenario: E ... untested\n    Given it passes ... untested\n\n",
    ),
    (
        "~@out",
        false,
        Format::Progress,
        false,
        true,
        "two.feature  .S.F.  failed\n",
    ),
    (
        "~@out",
        true,
        Format::Progress,
        true,
        false,
        "two.feature  ..FU  failed\n",
    ),
    (
        "@out",
        true,
        Format::Json,
        true,
        true,
        "{\"around\":\"passed\",\"line\":2,\"name\":\"two\",\"rules\":[{\"around\":\"passed\",\"line\":9},{\"around\":\"passed\",\"line\":14}],\"scenarios\":[{\"around\":\"passed\",\"keyword\":\"Scenario\",\"line\":6,\"name\":\"B\",\"status\":\"failed\",\"steps\":[{\"keyword\":\"Given\",\"line\":7,\"reason\":\"fail step\",\"status\":\"failed\",\"text\":\"it fails\"}]}],\"source\":\"two.feature\",\"status\":\"failed\"}",
    ),
    (
        "@out",
        false,
        Format::Json,
        true,
        false,
        ",{\"around\":\"passed\",\"line\":2,\"name\":\"two\",\"rules\":[{\"around\":\"passed\",\"line\":9},{\"around\":\"passed\",\"line\":14}],\"scenarios\":[{\"around\":\"passed\",\"keyword\":\"Scenario\",\"line\":6,\"name\":\"B\",\"status\":\"failed\",\"steps\":[{\"keyword\":\"Given\",\"line\":7,\"reason\":\"fail step\",\"status\":\"failed\",\"text\":\"it fails\"}]}],\"source\":\"two.feature\",\"status\":\"failed\"}",
    ),
    (
        "@none",
        false,
        Format::Progress,
        false,
        true,
        "two.feature  SSSSS  skipped\n",
    ),
    ("@none", false, Format::Plain, true, true, ""),
    ("@none", false, Format::Json, true, true, ""),
];

#[test]
fn features_are_run_and_reported(rt: HostRuntime) -> Result<(), Fail> {
    for (tags, stop, format, no_skipped, first, wanted) in PARTS {
        let feature = result_of(rt.alloc(), tags, stop)?;
        let style = Style { format, no_skipped };
        let part = part(rt.alloc(), style, first, &feature)?;
        same(&rt, part.as_str(), wanted);
    }
    Ok(())
}
