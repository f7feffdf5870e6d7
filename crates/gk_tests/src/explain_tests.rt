ghost use Rattle.gk_run.specs.Chosen.{IsFormed};

use crate::checks::same;
use crate::run_tests::feature_of;
use crate::suite_tests::chosen;
use gk_explain::{
    Explainer, push_entry, push_file, push_place, push_shown, push_unquoted, type_word,
};
use gk_gherkin::{HookFile, HookTable, StepType, read_hooks};
use gk_run::{Chosen, FeatureResult, NoRoom, Suite};
use gk_select::{ExampleRow, outline_rows};
use gk_steps::{Library, default_library, read_library};
use gk_world::Sandbox;
use std::alloc::{AllocError, Global};
use std::test::Fail;

// Writes a place, the name of a file, and a text as it is shown between quotes and without them.
fn written(alloc: Global) -> Result<String, AllocError> {
    let mut out = String::new(alloc);
    push_place(&mut out, "a\tb\\.feature", 7)?;
    push_file(&mut out, "::a:b\u{a0}##[c] ")?;
    push_shown(&mut out, "a\tb\u{a0}c\\\"é##[")?;
    push_unquoted(&mut out, " \t\u{a0}\\\"é##[::")?;
    Ok(out)
}

#[test]
fn places_and_texts_are_written(rt: HostRuntime) -> Result<(), AllocError> {
    let out = written(rt.alloc())?;
    same(
        &rt,
        out.as_str(),
        "a\\tb\\.feature:7: :\\u{3a}a:b\u{a0}##\\u{5b}c] a\\tb\\u{a0}c\\\\\"é##\\u{5b} \\t\\u{a0}\\\"é##\\u{5b}::",
    );
    Ok(())
}

// Shows the entries of a library, a line for each.
fn shown_entries(alloc: Global, library: &Library) -> Result<String, AllocError> {
    let mut out = String::new(alloc);
    for entry in &library.entries {
        push_entry(&mut out, entry)?;
        out.push_str("\n")?;
    }
    Ok(out)
}

#[test]
fn entries_are_shown(rt: HostRuntime) -> Result<(), Fail> {
    same(&rt, type_word(None), "step");
    same(&rt, type_word(Some(StepType::Given)), "given");
    same(&rt, type_word(Some(StepType::When)), "when");
    same(&rt, type_word(Some(StepType::Then)), "then");
    let text = "step a {name} => remove_file\nthen b\u{a0}{n:d} {{}} => pass\n";
    let library = read_library(rt.alloc(), text.as_bytes())?;
    let shown = shown_entries(rt.alloc(), &library)?;
    same(
        &rt,
        shown.as_str(),
        "step a {name}\nthen b\\u{a0}{n:d} {{}}\n",
    );
    Ok(())
}

// The feature of the guide's page on explanations.
const BOXES: &str =
    "Feature: Stock\n  Scenario: A delivery arrives\n    Given the number \"boxes\" is set to 3\n    When the number \"boxes\" grows by 2\n    Then the number \"boxes\" should be 6\n\n  Scenario: A label is printed\n    Given a file named \"label\" with:\n      \"\"\"\n      To: Ada\n      From: Bob\n      \"\"\"\n    Then the file \"label\" should be:\n      \"\"\"\n      To: Ada\n      From: Rob\n      \"\"\"\n    And the file \"label\" should exist\n\n  Scenario: A box is opened\n    Given a file named \"box\" containng \"a bell\"\n";

// Hooks that fail after it and after the run.
const HOOKS: &str = "after_feature:\n  Then it fails\nafter_all:\n  Then it fails\n";

// What is ready once the feature has ended and once the run has, and the list of what failed, each with a line below
// it.
const EXPLAINED: &str =
    "boxes.feature:2: Scenario: A delivery arrives ... failed\n  boxes.feature:3: Given the number \"boxes\" is set to 3 ... passed\n  boxes.feature:4: When the number \"boxes\" grows by 2 ... passed\n  boxes.feature:5: Then the number \"boxes\" should be 6 ... failed: differs\n      expected 6\n      found    \"5\"\n\nboxes.feature:7: Scenario: A label is printed ... failed\n  boxes.feature:8: Given a file named \"label\" with: ... passed\n  boxes.feature:13: Then the file \"label\" should be: ... failed: differs\n      expected \"To: Ada\"\n      expected \"From: Rob\"\n      found    \"To: Ada\"\n      found    \"From: Bob\"\n      first difference: line 2, column 7\n  boxes.feature:18: And the file \"label\" should exist ... skipped\n\nboxes.feature:20: Scenario: A box is opened ... failed\n  boxes.feature:21: Given a file named \"box\" containng \"a bell\" ... undefined\n      the nearest entry is: step a file named \"{name}\" containing \"{text}\"\n\nboxes.feature:1: Feature: Stock (hooks and cleanups) ... failed\n  h.hooks:2: after: Then it fails ... failed: fail step\n\n--\nRun: (hooks and cleanups) ... failed\n  h.hooks:4: after: Then it fails ... failed: fail step\n\n--\nboxes.feature:2: Scenario: A delivery arrives\nboxes.feature:7: Scenario: A label is printed\nboxes.feature:20: Scenario: A box is opened\nboxes.feature:1: Feature: Stock (hooks and cleanups)\nRun: (hooks and cleanups)\n\n--\n";

// Ends a feature, if it ran. Returns what is ready then.
fn ready_after(
    explainer: &mut Explainer,
    ran: Result<FeatureResult, NoRoom>,
) -> Result<String, AllocError> {
    if let Ok(feature) = &ran {
        explainer.end_feature(feature);
    }
    explainer.take_ready()
}

// Runs a feature that an explainer hears. Returns what is ready once the feature has ended, and once the run has.
fn ready(
    alloc: Global,
    library: &Library,
    hooks: &HookFile,
    chosen: Chosen,
    explainer: &mut Explainer,
) -> (Result<String, AllocError>, Result<String, AllocError>)
    requires { IsFormed chosen }
{
    let hooks = HookTable::new(alloc, hooks);
    let mut sandbox = Sandbox::new(alloc);
    let mut suite = Suite::start_watched(alloc, &mut sandbox, library, &hooks, false, explainer);
    explainer.begin_feature("boxes.feature");
    let ran = suite.feature_watched(alloc, &mut sandbox, library, &hooks, chosen, explainer);
    let feature_ready = ready_after(explainer, ran);
    let around = suite.finish_watched(alloc, &mut sandbox, library, &hooks, explainer);
    explainer.end_run(around);
    (feature_ready, explainer.take_ready())
}

// Returns the list of what failed, unless memory was refused.
fn failures(explainer: Explainer) -> Result<String, AllocError> {
    if explainer.is_cut() {
        return Err(AllocError);
    }
    explainer.into_failures()
}

// Appends a text and a line below it.
fn push_text(out: &mut String, text: Result<String, AllocError>) -> Result<(), AllocError> {
    out.push_str(text?.as_str())?;
    out.push_str("--\n")
}

// Joins three texts, each with a line below it.
fn joined(
    alloc: Global,
    (first, second): (Result<String, AllocError>, Result<String, AllocError>),
    last: Result<String, AllocError>,
) -> Result<String, AllocError> {
    let mut out = String::new(alloc);
    push_text(&mut out, first)?;
    push_text(&mut out, second)?;
    push_text(&mut out, last)?;
    Ok(out)
}

// Explains a run of a feature whose outlines have these rows.
fn explained(
    alloc: Global,
    library: &Library,
    hooks: &HookFile,
    rows: &[Vec<Option<ExampleRow>>],
    chosen: Chosen,
) -> Result<String, AllocError>
    requires { IsFormed chosen }
{
    let mut explainer = Explainer::new(alloc, library, "h.hooks", rows);
    let ready = ready(alloc, library, hooks, chosen, &mut explainer);
    joined(alloc, ready, failures(explainer))
}

#[test]
fn runs_are_explained(rt: HostRuntime) -> Result<(), Fail> {
    let library = default_library(rt.alloc())?;
    let hooks = read_hooks(rt.alloc(), HOOKS.as_bytes())?;
    let chosen = chosen(rt.alloc(), BOXES)?;
    let explained = explained(rt.alloc(), &library, &hooks, &[], chosen)?;
    same(&rt, explained.as_str(), EXPLAINED);
    Ok(())
}

// A scenario and an outline that fail. Its rows are on lines 8 and 9.
const ROWS: &str =
    "Feature: Rows\n  Scenario: Plain\n    Given it fails\n  Scenario Outline: Row\n    Given it fails\n    Examples:\n      | a | b\\nc |\n      | 1 | x   |\n      | 2 |     |\n";

// What is ready once the feature has ended and once the run has, and the list of what failed, each with a line below
// it.
const NAMED_ROWS: &str =
    "boxes.feature:2: Scenario: Plain ... failed\n  boxes.feature:3: Given it fails ... failed: fail step\n\nboxes.feature:8: Scenario Outline: Row -- @1.1 ... failed\n  row 1: a=1, b\\nc=x\n  boxes.feature:5: Given it fails ... failed: fail step\n\nboxes.feature:9: Scenario Outline: Row -- @1.2 ... failed\n  row 2: a=2, b\\nc=\n  boxes.feature:5: Given it fails ... failed: fail step\n\n--\n--\nboxes.feature:2: Scenario: Plain\nboxes.feature:8: Scenario Outline: Row -- @1.1\nboxes.feature:9: Scenario Outline: Row -- @1.2\n\n--\n";

// Returns the rows of a text's feature, as the only feature of a run.
fn rows_of(alloc: Global, text: &str) -> Result<Vec<Vec<Option<ExampleRow>>>, Fail> {
    let feature = feature_of(alloc, text)?;
    let mut rows = Vec::new(alloc);
    rows.push(outline_rows(alloc, &feature)?)?;
    Ok(rows)
}

#[test]
fn rows_are_named(rt: HostRuntime) -> Result<(), Fail> {
    let library = default_library(rt.alloc())?;
    let hooks = read_hooks(rt.alloc(), b"")?;
    let rows = rows_of(rt.alloc(), ROWS)?;
    let chosen = chosen(rt.alloc(), ROWS)?;
    let explained = explained(rt.alloc(), &library, &hooks, &rows, chosen)?;
    same(&rt, explained.as_str(), NAMED_ROWS);
    Ok(())
}
