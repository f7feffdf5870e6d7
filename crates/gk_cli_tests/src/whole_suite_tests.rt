use crate::counted_tests::{Writer, counted};
use gk_cli::{Mode, write_suite};
use gk_findings::push_notes;
use gk_gherkin::ReadFault;
use gk_io::Counted;
use gk_request::{Options, RunFault, Source, SuiteFiles, faults_after, name_at_fault};
use gk_world::Sandbox;
use std::alloc::{AllocError, Global};
use std::str;
use std::test::Fail;

// A file of this name.
pub(crate) fn source(alloc: Global, name: &str, text: &str) -> Result<Source, AllocError> {
    let mut bytes = Vec::new(alloc);
    bytes.extend_from_slice(text.as_bytes())?;
    Ok(Source {
        name: String::from_str(alloc, name)?,
        bytes,
    })
}

// The files of a run of one feature.
pub(crate) fn files_with(
    alloc: Global,
    library: Option<Source>,
    hooks: Option<Source>,
    feature: Source,
) -> Result<SuiteFiles, AllocError> {
    let mut sources = Vec::new(alloc);
    sources.push(feature)?;
    Ok(SuiteFiles {
        library,
        hooks,
        sources,
    })
}

// Writes in a mode what there is to write of some files, from a new sandbox. Returns the status.
fn write(
    alloc: Global,
    options: &Options,
    mode: Mode,
    files: &SuiteFiles,
    out: &mut Counted<Writer>,
) -> Result<u8, RunFault> {
    let mut sandbox = Sandbox::new(alloc);
    write_suite(alloc, &mut sandbox, options, mode, files, out)
}

// Formats the bytes of a writer as text, with a status after them.
fn shown(alloc: Global, out: &Counted<Writer>, status: u8) -> Result<String, Fail> {
    match str::from_utf8(out.inner().bytes.as_slice()) {
        Ok(text) => Ok(format!(in alloc; "{text}{status}")?),
        Err(_) => Err("not UTF-8".into()),
    }
}

// Returns what is written of some files in a mode, and the status after it.
fn written(
    alloc: Global,
    options: &Options,
    mode: Mode,
    files: &SuiteFiles,
) -> Result<String, Fail> {
    let mut out = counted(alloc, usize::MAX, 0);
    let status = write(alloc, options, mode, files, &mut out)?;
    shown(alloc, &out, status)
}

// The feature of the guide's page on reports, and the report of its run with the status.
const COUNTER: &str =
    "Feature: A counter\n  Scenario: It counts up\n    Given the number \"visits\" is set to 1\n    When the number \"visits\" grows by 1\n    Then the number \"visits\" should be 2\n\n  Scenario: It counts down\n    Given the number \"visits\" is set to 1\n    When the number \"visits\" grows by -1\n    Then the number \"visits\" should be 1\n    And the value \"visits\" is deleted\n\n  Scenario: It forgets\n    When the counter forgets\n";

const REPORT: &str =
    "Feature: A counter ... failed\n  Scenario: It counts up ... passed\n    Given the number \"visits\" is set to 1 ... passed\n    When the number \"visits\" grows by 1 ... passed\n    Then the number \"visits\" should be 2 ... passed\n  Scenario: It counts down ... failed\n    Given the number \"visits\" is set to 1 ... passed\n    When the number \"visits\" grows by -1 ... passed\n    Then the number \"visits\" should be 1 ... failed: differs\n    And the value \"visits\" is deleted ... skipped\n  Scenario: It forgets ... failed\n    When the counter forgets ... undefined\n\n0 features passed, 1 failed, 0 skipped\n1 scenario passed, 2 failed, 0 skipped\n5 steps passed, 1 failed, 1 skipped, 1 undefined\n1";

#[test]
fn suites_are_reported(rt: HostRuntime) -> Result<(), Fail> {
    let feature = source(rt.alloc(), "counter.feature", COUNTER)?;
    let files = files_with(rt.alloc(), None, None, feature)?;
    let options = Options::plain(rt.alloc());
    let report = written(rt.alloc(), &options, Mode::Report, &files)?;
    assert_eq!(rt; report.as_str(), REPORT);
    Ok(())
}

// The hooks and the feature of the guide's page on explanations, and what is explained with the status.
const HALL: [&str; 3] = [
    "before_scenario:\n  Given a file named \"lamp\" containing \"off\"\n  And at cleanup the file \"lamp\" should be \"off\"\n",
    "Feature: A hall\n  Scenario: The lamp is left on\n    When the file \"lamp\" is extended with \", then on\"\n",
    "hall.feature:2: Scenario: The lamp is left on ... failed\n  hall.hooks:2: before: Given a file named \"lamp\" containing \"off\" ... passed\n  hall.hooks:3: before: And at cleanup the file \"lamp\" should be \"off\" ... passed\n  hall.feature:3: When the file \"lamp\" is extended with \", then on\" ... passed\n  hall.hooks:3: cleanup ... failed: differs\n      expected \"off\"\n      found    \"off, then on\"\n      first difference: line 1, column 4\n\nhall.feature:2: Scenario: The lamp is left on\n\n0 features passed, 1 failed, 0 skipped\n0 scenarios passed, 1 failed, 0 skipped\n1 step passed, 0 failed, 0 skipped, 0 undefined\n1",
];

#[test]
fn suites_are_explained(rt: HostRuntime) -> Result<(), Fail> {
    let [hooks, feature, wanted] = HALL;
    let files = files_with(
        rt.alloc(),
        None,
        Some(source(rt.alloc(), "hall.hooks", hooks)?),
        source(rt.alloc(), "hall.feature", feature)?,
    )?;
    let options = Options::plain(rt.alloc());
    let explanation = written(rt.alloc(), &options, Mode::Explanation, &files)?;
    assert_eq!(rt; explanation.as_str(), wanted);
    Ok(())
}

// The library, the hooks and the feature of the guide's page on linting, and what is found in them.
const WICK: [&str; 4] = [
    "step the wick \"{name}\" is trimmed => write_file\nstep the wick \"{name}\" is put out => remove_file\nstep the night is over => skip_scenario\nthen the wick \"{name}\" should be gone => file_absent\nstep at last {step} => at_cleanup\n",
    "before_tag @quick:\n  Given the wick \"night\" is put out\n\nafter_scenario:\n  Then the night is over\n",
    "Feature: A wick\n  Scenario: It is trimmed\n    Given the wick \"hall\" is trimmed\n    When the wick \"hall\" is lit\n    And at last the wick \"hall\" should be gone\n\n  Scenario Outline: It smokes <offen>\n    Given the wick \"hall\" is put out\n    Examples:\n      | often |\n",
    "wick.hooks:1: hook for a tag that isn't used\nwick.hooks:5: action that isn't allowed here\nwick.feature:3: step without the text that its action needs\nwick.feature:4: undefined step\n    | When the wick \"hall\" is lit\n    the nearest entry is: step the wick \"{name}\" is trimmed\nwick.feature:5: cleanup without step\n    | And at last the wick \"hall\" should be gone\n    matches line 4 of wick.steps, which is a then entry; a cleanup needs step\nwick.feature:7: outline without rows\nwick.feature:7: placeholder that no column has\n    the nearest column is: often\n--tags @quik: no such tag\n--line 7: chooses no scenario\nwick.steps:4: entry that no step finds\nwick.steps: no step finds 1 of 5 entries\n1",
];

// The same without a look-up of steps.
const WICK_ALONE: &str =
    "wick.hooks:1: hook for a tag that isn't used\nwick.feature:7: outline without rows\nwick.feature:7: placeholder that no column has\n    the nearest column is: often\n--tags @quik: no such tag\n--line 7: chooses no scenario\n1";

// The modes of linting, with and without a look-up of steps.
const LINT: Mode = Mode::Findings { steps: true };

const LINT_ALONE: Mode = Mode::Findings { steps: false };

#[test]
fn suites_are_linted(rt: HostRuntime) -> Result<(), Fail> {
    let [library, hooks, feature, wanted] = WICK;
    let files = files_with(
        rt.alloc(),
        Some(source(rt.alloc(), "wick.steps", library)?),
        Some(source(rt.alloc(), "wick.hooks", hooks)?),
        source(rt.alloc(), "wick.feature", feature)?,
    )?;
    let mut options = Options::plain(rt.alloc());
    options.tags.push(String::from_str(rt.alloc(), "@quik")?)?;
    options.lines.push(7)?;
    let findings = written(rt.alloc(), &options, LINT, &files)?;
    assert_eq!(rt; findings.as_str(), wanted);
    let findings = written(rt.alloc(), &options, LINT_ALONE, &files)?;
    assert_eq!(rt; findings.as_str(), WICK_ALONE);
    Ok(())
}

#[test]
fn nothing_is_found_in_a_suite(rt: HostRuntime) -> Result<(), Fail> {
    let [_, feature, _] = HALL;
    let hall = source(rt.alloc(), "hall.feature", feature)?;
    let files = files_with(rt.alloc(), None, None, hall)?;
    let findings = written(rt.alloc(), &Options::plain(rt.alloc()), LINT, &files)?;
    assert_eq!(rt; findings.as_str(), "0");
    Ok(())
}

// The files with faults of the guide's page on linting.
const OIL_STEPS: &str = "step the oil is filled up => pass\nstep the oil burns => shine\n";

const OIL: &str = "@lamp oil\nFeature: Oil\n  Scenario: It burns\n    Given the oil burns\n";

pub(crate) fn oil(alloc: Global) -> Result<SuiteFiles, AllocError> {
    let library = source(alloc, "oil.steps", OIL_STEPS)?;
    let feature = source(alloc, "oil.feature", OIL)?;
    files_with(alloc, Some(library), None, feature)
}

// The first fault of some files.
fn first_fault(alloc: Global, files: &SuiteFiles) -> Result<RunFault, Fail> {
    let mut out = counted(alloc, usize::MAX, 0);
    let options = Options::plain(alloc);
    match write(alloc, &options, LINT, files, &mut out) {
        Ok(_) => Err("no fault".into()),
        Err(fault) => Ok(fault),
    }
}

// Returns the name of the file of a fault, the fault, and its notes.
fn described(alloc: Global, files: &SuiteFiles, fault: RunFault) -> Result<String, AllocError> {
    let mut notes = String::new(alloc);
    push_notes(&mut notes, alloc, None, files, fault)?;
    format!(in alloc; "{:?} {fault:?}\n{notes}", name_at_fault(files, fault))
}

const IN_LIBRARY: &str =
    "Some(\"oil.steps\") Library(UnknownAction { line: 2 })\n    | step the oil burns => shine\n    take a name of the table of actions, in lower case\n";

const IN_FEATURE: &str =
    "Some(\"oil.feature\") Read { input: 0, fault: BadTag { line: 1 } }\n    | @lamp oil\n    write an @ before each tag, and a # before remarks\n";

#[test]
fn all_faults_are_named(rt: HostRuntime) -> Result<(), Fail> {
    let files = oil(rt.alloc())?;
    let first = first_fault(rt.alloc(), &files)?;
    assert_eq!(rt; described(rt.alloc(), &files, first)?.as_str(), IN_LIBRARY);
    let others = faults_after(rt.alloc(), &files, first)?;
    let [second] = others.as_slice() else {
        return Err("other faults".into());
    };
    assert_eq!(rt;
        described(rt.alloc(), &files, *second)?.as_str(),
        IN_FEATURE
    );
    assert!(rt; faults_after(rt.alloc(), &files, *second)?.is_empty());
    assert_eq!(rt; name_at_fault(&files, RunFault::Write), None);
    assert_eq!(rt; RunFault::status(&first), 3);
    assert_eq!(rt; RunFault::status(&RunFault::Memory), 4);
    assert_eq!(rt;
        name_at_fault(&files, RunFault::Hooks(ReadFault::TooLong)),
        None
    );
    Ok(())
}
