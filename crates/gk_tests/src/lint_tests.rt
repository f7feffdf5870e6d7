use crate::checks::{equal, holds, same};
use crate::run_tests::feature_of;
use gk_gherkin::{Feature, Keyword, LONGEST_FILE, ReadFault, read_feature, read_hooks, text_of};
use gk_lint::{
    Cause, EntryHints, Finding, FindingKind, Hint, LibraryCause, StepFault, StepFindings, cause_at,
    in_order, library_cause, lines_without_scenario, lint_feature, lint_hook_tags, lint_hooks,
    lint_library, lint_steps, tags_that_stand_nowhere,
};
use gk_select::read_tags;
use gk_steps::{LibraryFault, read_library};
use std::alloc::{AllocError, Global};
use std::test::Fail;

// Shows what the author of a line may have meant: a column, or the line of an entry.
fn shown_hint(alloc: Global, hint: Hint<'_>) -> Result<String, AllocError> {
    match hint {
        Hint::Nothing => Ok(String::new(alloc)),
        Hint::Column(column) => format!(in alloc; " ({column})"),
        Hint::OtherType(entry) => format!(in alloc; " (of another type: {})", entry.line),
        Hint::Nearest(entry) => format!(in alloc; " (nearest: {})", entry.line),
    }
}

// Shows findings, a line for each.
fn shown(alloc: Global, findings: &[Finding<'_>]) -> Result<String, AllocError> {
    let mut shown = String::new(alloc);
    for finding in findings {
        let text = FindingKind::text(finding.kind, alloc)?;
        let hint = shown_hint(alloc, finding.hint)?;
        write!(shown, "{}: {text}{hint}\n", finding.line)?;
    }
    Ok(shown)
}

// Returns the lines of a text.
fn lines_of(alloc: Global, text: &str) -> Result<Vec<&str>, AllocError> {
    let mut lines = Vec::new(alloc);
    for line in text.lines() {
        lines.push(line)?;
    }
    Ok(lines)
}

// Shows what is found in a feature file, a line for each finding.
fn found_in(alloc: Global, bytes: &[u8]) -> Result<String, ReadFault> {
    let feature = read_feature(alloc, bytes)?;
    let lines = lines_of(alloc, text_of(bytes)?)?;
    if lines.len() > LONGEST_FILE {
        return Err(ReadFault::TooLong);
    }
    let findings = lint_feature(alloc, &feature, lines.as_slice())?;
    Ok(shown(alloc, &findings)?)
}

// An outline with a misspelt placeholder.
const OUTLINE: &[u8] =
    b"Feature: f\n  Scenario Outline: s\n    Given <nmae> is <lit>\n    Examples:\n      | name |\n      | a |\n";

// Feature files, and what is found in them.
const FILES: [(&[u8], &str); 6] = [
    (b"# nothing\n", "1: file without feature\n"),
    (b"\nFeature: f\nRule: r\n", "2: feature without scenarios\n"),
    (
        b"Feature: f\n  Scenaro: old\n  Scenario: s\n    given a lamp\n  Scenario Outline: o\n    Given <x>\n      \"\"\"\n      Scenaro: old\n      \"\"\"\n    Examples:\n      | x |\n",
        "2: description begins like the keyword Scenario:\n3: scenario without steps\n4: description begins like the keyword Given\n5: outline without rows\n",
    ),
    (b"Feature: f\n  Scenario: s\n    Given a lamp\n", ""),
    (
        b"Feature: f\n  Scenario: s\n    Given a lamp\n  Rule: r\n    Scenario: s\n      Given a lamp\n",
        "5: scenario with the name of one before it\n",
    ),
    (OUTLINE, "3: placeholder that no column has (name)\n"),
];

#[test]
fn what_vanishes_is_found(rt: HostRuntime) -> Result<(), ReadFault> {
    for (bytes, wanted) in FILES {
        let found = found_in(rt.alloc(), bytes)?;
        same(&rt, found.as_str(), wanted);
    }
    Ok(())
}

#[test]
fn causes_are_named(rt: HostRuntime) -> Result<(), AllocError> {
    let lines = ["Feature: f", "Scenario: s", "Given a lamp", "THEN a lamp"];
    let cause = cause_at(rt.alloc(), &lines, 3)?;
    equal(&rt, &cause, &Some(Cause::OtherCase(Keyword::Then)));
    let text = Cause::text(Cause::OtherCase(Keyword::Then), rt.alloc())?;
    same(&rt, text.as_str(), "upper and lower case count: write Then");
    Ok(())
}

// Libraries with faults, and what to do about each.
const FAULTY: [(&str, &str); 7] = [
    (
        "step the {name} is {m:d} => set_number",
        "set_number needs {name} and {n:d}; missing: {n:d}",
    ),
    (
        "step the {{name}} is lit => file_exists",
        "file_exists needs {name}; missing: {name}",
    ),
    (
        "step the {name} is {n} => set_number",
        "write {n:d}: n is a number in set_number",
    ),
    (
        "step the {name:d} is lit => file_exists",
        "write {name}: name is a text in file_exists",
    ),
    (
        "step a lamp => wirte_file",
        "the nearest action is write_file; docs/guide/library_files.md lists all",
    ),
    ("step a lamp => shine", "none"),
    (
        "# lamps\ngiven a {x} => pass\nstep a {x} => pass\n\nstep a lamp => fail",
        "line 3 matches it, too: put the special entry first, or make it differ",
    ),
];

// Returns why a library has a fault.
fn cause_of(
    alloc: Global,
    text: &str,
    fault: LibraryFault,
) -> Result<Option<LibraryCause>, AllocError> {
    library_cause(alloc, &lines_of(alloc, text)?, fault)
}

// Shows what to do about the fault of a library.
fn shown_cause(alloc: Global, text: &str, fault: LibraryFault) -> Result<String, AllocError> {
    match cause_of(alloc, text, fault)? {
        Some(cause) => LibraryCause::text(cause, alloc),
        None => String::from_str(alloc, "none"),
    }
}

#[test]
fn causes_of_libraries_are_named(rt: HostRuntime) -> Result<(), AllocError> {
    for (text, wanted) in FAULTY {
        let fault = read_library(rt.alloc(), text.as_bytes()).err();
        holds(&rt, fault.is_some());
        if let Some(fault) = fault {
            same(&rt, shown_cause(rt.alloc(), text, fault)?.as_str(), wanted);
        }
    }
    Ok(())
}

// A library of two entries.
const LIBRARY: &str = "# lamps\nthen the lamp is red => pass\nstep the lamp is lit => pass\n";

// Texts of undefined steps, and the entries that may be meant.
const HINTS: [(&str, &str); 3] = [
    ("the lamp is red", " (of another type: 2)"),
    ("A lamp is Lit", " (nearest: 3)"),
    ("it is dark", ""),
];

#[test]
fn entries_are_meant(rt: HostRuntime) -> Result<(), LibraryFault> {
    let library = read_library(rt.alloc(), LIBRARY.as_bytes())?;
    let hints = EntryHints::new(rt.alloc(), &library)?;
    for (text, wanted) in HINTS {
        let hint = hints.hint(rt.alloc(), text)?;
        same(&rt, shown_hint(rt.alloc(), hint)?.as_str(), wanted);
    }
    equal(&rt, &hints.library().entries.len(), &2);
    Ok(())
}

// What is wrong with steps, and how each is called.
const STEP_FAULTS: [(StepFault, &str); 6] = [
    (StepFault::NotAllowed, "action that isn't allowed here"),
    (
        StepFault::NoText,
        "step without the text that its action needs",
    ),
    (
        StepFault::NoTable,
        "step without the table that its action needs",
    ),
    (StepFault::BadTable, "table without the header name, text"),
    (StepFault::IgnoredText, "doc string that is ignored"),
    (StepFault::IgnoredTable, "table that is ignored"),
];

#[test]
fn faults_of_steps_have_texts(rt: HostRuntime) {
    for (fault, text) in STEP_FAULTS {
        same(&rt, StepFault::text(fault), text);
    }
}

// Lines and kinds of findings, of which two are at one line.
const UNORDERED: [(u32, FindingKind); 4] = [
    (5, FindingKind::NameTwice),
    (3, FindingKind::UnusedEntry),
    (5, FindingKind::ScenarioWithoutSteps),
    (1, FindingKind::FileWithoutFeature),
];

#[test]
fn findings_are_put_in_order(rt: HostRuntime) -> Result<(), AllocError> {
    let mut findings = Vec::new(rt.alloc());
    for (line, kind) in UNORDERED {
        let hint = Hint::Nothing;
        findings.push(Finding { line, kind, hint })?;
    }
    let ordered = in_order(findings)?;
    let shown = shown(rt.alloc(), &ordered)?;
    same(
        &rt,
        shown.as_str(),
        "1: file without feature\n3: entry that no step finds\n5: scenario with the name of one before it\n5: scenario without steps\n",
    );
    Ok(())
}

// The suite of the guide's page on linting: its library, its hooks and its feature.
const WICK_STEPS: &str =
    "step the wick \"{name}\" is trimmed => write_file\nstep the wick \"{name}\" is put out => remove_file\nstep the night is over => skip_scenario\nthen the wick \"{name}\" should be gone => file_absent\nstep at last {step} => at_cleanup\n";

const WICK_HOOKS: &str =
    "before_tag @quick:\n  Given the wick \"night\" is put out\n\nafter_scenario:\n  Then the night is over\n";

const WICK: &str =
    "Feature: A wick\n  Scenario: It is trimmed\n    Given the wick \"hall\" is trimmed\n    When the wick \"hall\" is lit\n    And at last the wick \"hall\" should be gone\n\n  Scenario Outline: It smokes <often>\n    Given the wick \"hall\" is put out\n";

// Shows what was found of steps, and the entries that they use.
fn shown_steps(alloc: Global, found: &StepFindings<'_>) -> Result<String, AllocError> {
    let findings = shown(alloc, &found.findings)?;
    format!(in alloc; "{findings}{:?}", found.used)
}

#[test]
fn steps_are_linted(rt: HostRuntime) -> Result<(), Fail> {
    let library = read_library(rt.alloc(), WICK_STEPS.as_bytes())?;
    let hints = EntryHints::new(rt.alloc(), &library)?;
    let feature = feature_of(rt.alloc(), WICK)?;
    let found = lint_steps(rt.alloc(), &hints, &feature)?;
    same(
        &rt,
        shown_steps(rt.alloc(), &found)?.as_str(),
        "3: step without the text that its action needs\n4: undefined step (nearest: 1)\n5: cleanup without step (of another type: 4)\n[0, 4]",
    );
    let hooks = read_hooks(rt.alloc(), WICK_HOOKS.as_bytes())?;
    let found = lint_hooks(rt.alloc(), &hints, &hooks)?;
    same(
        &rt,
        shown_steps(rt.alloc(), &found)?.as_str(),
        "5: action that isn't allowed here\n[1, 2]",
    );
    Ok(())
}

#[test]
fn unused_entries_are_found(rt: HostRuntime) -> Result<(), LibraryFault> {
    let text = "given a => pass\n\n# b\nstep c => pass\nstep d => pass\n";
    let library = read_library(rt.alloc(), text.as_bytes())?;
    let findings = lint_library(rt.alloc(), &library, &[1, 1])?;
    let shown = shown(rt.alloc(), &findings)?;
    same(
        &rt,
        shown.as_str(),
        "1: entry that no step finds\n5: entry that no step finds\n",
    );
    Ok(())
}

// A feature with tags at each place, a rule and an outline.
const TAGGED: &str =
    "@f\nFeature: f\n  @s\n  Scenario: s\n    Given a\n  @r\n  Rule: r\n    @o\n    Scenario Outline: o\n      Given <x>\n      @e\n      Examples:\n        | x |\n        | 1 |\n";

// That feature alone.
fn tagged(alloc: Global) -> Result<Vec<Feature>, Fail> {
    let mut features = Vec::new(alloc);
    features.push(feature_of(alloc, TAGGED)?)?;
    Ok(features)
}

#[test]
fn tags_and_lines_that_choose_nothing_are_found(rt: HostRuntime) -> Result<(), Fail> {
    let features = tagged(rt.alloc())?;
    let lines = lines_without_scenario(rt.alloc(), &[14, 9, 4, 3, 9], &features)?;
    let shown_lines = format!(in rt.alloc(); "{lines:?}")?;
    same(&rt, shown_lines.as_str(), "[9, 3, 9]");
    let mut rules = Vec::new(rt.alloc());
    rules.push(read_tags(rt.alloc(), "@f and not @y or @s")?)?;
    rules.push(read_tags(rt.alloc(), "~@r,@z,@o,@y,@e")?)?;
    let tags = tags_that_stand_nowhere(rt.alloc(), &rules, &features)?;
    let shown_tags = format!(in rt.alloc(); "{tags:?}")?;
    same(&rt, shown_tags.as_str(), "[\"@y\", \"@z\", \"@y\"]");
    let text = b"before_tag @e:\nafter_tag @y:\nbefore_all:\nbefore_tag @r:\n";
    let hooks = read_hooks(rt.alloc(), text)?;
    let findings = lint_hook_tags(rt.alloc(), &hooks, &features)?;
    same(
        &rt,
        shown(rt.alloc(), &findings)?.as_str(),
        "2: hook for a tag that isn't used\n",
    );
    Ok(())
}
