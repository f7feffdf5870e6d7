use crate::counted_tests::{Writer, counted};
use crate::whole_suite_tests::source;
use gk_cli::{Counted, RunFault, Source, Words, read_words, run_suite};
use gk_world::Sandbox;
use std::alloc::{AllocError, Global};
use std::str;
use std::test::Fail;

// The files of a run: the name and the text of each.
type Files<'a> = &'a [(&'a str, &'a str)];

// Returns the text of a file, if it is named.
fn text_of<'a>(files: Files<'a>, name: Option<&str>) -> Option<&'a str> {
    let name = name?;
    for file in files {
        if file.0 == name {
            return Some(file.1);
        }
    }
    None
}

// Returns the sources of these names.
fn sources_of(
    alloc: Global,
    files: Files<'_>,
    names: &[String],
) -> Result<Vec<Source>, AllocError> {
    let mut sources = Vec::new(alloc);
    for name in names {
        let text = text_of(files, Some(name.as_str())).unwrap_or("");
        sources.push(source(alloc, name.as_str(), text)?)?;
    }
    Ok(sources)
}

// Returns what the program's words ask for.
fn words_of(alloc: Global, line: &str) -> Result<Words, Fail> {
    let mut words = Vec::new(alloc);
    words.push(String::from_str(alloc, "gherkin_run")?)?;
    for word in line.split(' ') {
        words.push(String::from_str(alloc, word)?)?;
    }
    match read_words(alloc, words.as_slice()) {
        Ok(words) => Ok(words),
        Err(_) => Err("a mistake in the words".into()),
    }
}

// Runs some files in a new sandbox, as the words say.
fn run(
    alloc: Global,
    words: &Words,
    files: Files<'_>,
    sources: &[Source],
    out: &mut Counted<Writer>,
) -> Result<u8, RunFault> {
    let mut sandbox = Sandbox::new(alloc);
    let library = text_of(files, words.library.as_deref());
    let hooks = text_of(files, words.hooks.as_deref());
    run_suite(
        alloc,
        &mut sandbox,
        &words.options,
        library.map(|text| text.as_bytes()),
        hooks.map(|text| text.as_bytes()),
        sources,
        out,
    )
}

// Formats what a run writes and returns if this call of the writer fails, counted from 1; at 0, none does.
fn ran(alloc: Global, line: &str, files: Files<'_>, fails_at: usize) -> Result<String, Fail> {
    let words = words_of(alloc, line)?;
    let sources = sources_of(alloc, files, words.files.as_slice())?;
    let mut out = counted(alloc, usize::MAX, fails_at);
    let ended = run(alloc, &words, files, sources.as_slice(), &mut out);
    match str::from_utf8(out.inner().bytes.as_slice()) {
        Ok(text) => Ok(format!(in alloc; "{text}{ended:?}")?),
        Err(_) => Err("not UTF-8".into()),
    }
}

// The words of runs, their files, and what they write and return.
const RUNS: [(&str, Files<'static>, &str); 9] = [
    // A library: an entry of the own type comes before one of type `step`.
    (
        "--library lib.steps a.feature",
        &[
            (
                "a.feature",
                "Feature: a\nScenario: s\nGiven a b\nWhen a b\n",
            ),
            ("lib.steps", "step a {x} => fail\ngiven a {x} => pass\n"),
        ],
        "Feature: a ... failed\n  Scenario: s ... failed\n    Given a b ... passed\n    When a b ... failed: fail step\n\n0 features passed, 1 failed, 0 skipped\n0 scenarios passed, 1 failed, 0 skipped\n1 step passed, 1 failed, 0 skipped, 0 undefined\nOk(1)",
    ),
    // Hooks: those of tags come first, in order, and cleanups last.
    (
        "--hooks h.hooks a.feature",
        &[
            (
                "a.feature",
                "Feature: hooks\n  @a @b\n  Scenario: s\n    Given at cleanup the file \"log\" should be \"absSB\"\n    Then the file \"log\" should be \"abs\"\n",
            ),
            (
                "h.hooks",
                "before_tag @a:\n  Given a file named \"log\" containing \"a\"\nbefore_tag @b:\n  Given the file \"log\" is extended with \"b\"\nbefore_scenario:\n  Given the file \"log\" is extended with \"s\"\nafter_scenario:\n  Given the file \"log\" is extended with \"S\"\nafter_tag @a:\n  Then the file \"log\" should be \"absS\"\nafter_tag @b:\n  Given the file \"log\" is extended with \"B\"\n",
            ),
        ],
        "Feature: hooks ... passed\n  Scenario: s ... passed\n    Given at cleanup the file \"log\" should be \"absSB\" ... passed\n    Then the file \"log\" should be \"abs\" ... passed\n\n1 feature passed, 0 failed, 0 skipped\n1 scenario passed, 0 failed, 0 skipped\n2 steps passed, 0 failed, 0 skipped, 0 undefined\nOk(0)",
    ),
    // Two sources.
    (
        "a.feature b.feature",
        &[
            (
                "a.feature",
                "Feature: one\n  Scenario: first\n    Given it passes\n",
            ),
            (
                "b.feature",
                "Feature: one\n  Scenario: first\n    Given it passes\n",
            ),
        ],
        "Feature: one ... passed\n  Scenario: first ... passed\n    Given it passes ... passed\n\nFeature: one ... passed\n  Scenario: first ... passed\n    Given it passes ... passed\n\n2 features passed, 0 failed, 0 skipped\n2 scenarios passed, 0 failed, 0 skipped\n2 steps passed, 0 failed, 0 skipped, 0 undefined\nOk(0)",
    ),
    // A line that chooses one row of an outline.
    (
        "--line 10 o.feature",
        &[(
            "o.feature",
            "Feature: o\n  Scenario Outline: s\n    Given the variable \"V\" is set to \"<a>\"\n    Then the variable \"V\" should be \"<a>\"\n    Examples:\n      | a   | b |\n      | <b> | x |\n    Examples: more\n      | a | b |\n      | y | z |\n",
        )],
        "Feature: o ... passed\n  Scenario Outline: s -- @1.1 ... skipped\n    Given the variable \"V\" is set to \"<b>\" ... skipped\n    Then the variable \"V\" should be \"<b>\" ... skipped\n  Scenario Outline: s -- @2.1 more ... passed\n    Given the variable \"V\" is set to \"y\" ... passed\n    Then the variable \"V\" should be \"y\" ... passed\n\n1 feature passed, 0 failed, 0 skipped\n1 scenario passed, 0 failed, 1 skipped\n2 steps passed, 0 failed, 2 skipped, 0 undefined\nOk(0)",
    ),
    // Tags: two rules, of which one has an alternative.
    (
        "--tags ~@slow,@db --tags @ui f.feature",
        &[(
            "f.feature",
            "@ui\nFeature: f\n  Scenario: a\n    Given it passes\n  @slow\n  Scenario: b\n    Given it passes\n  @db\n  Scenario: c\n    Given it passes\n  @slow @db\n  Scenario: d\n    Given it passes\n",
        )],
        "Feature: f ... passed\n  Scenario: a ... passed\n    Given it passes ... passed\n  Scenario: b ... skipped\n    Given it passes ... skipped\n  Scenario: c ... passed\n    Given it passes ... passed\n  Scenario: d ... passed\n    Given it passes ... passed\n\n1 feature passed, 0 failed, 0 skipped\n3 scenarios passed, 0 failed, 1 skipped\n3 steps passed, 0 failed, 1 skipped, 0 undefined\nOk(0)",
    ),
    // A run that stops after a failure, as progress.
    (
        "--stop --format progress s.feature",
        &[(
            "s.feature",
            "Feature: four\n  Scenario: 1\n    Given it passes\n  Scenario: 2\n    Given it fails\n  Scenario: 3\n    Given it passes\n  Scenario: 4\n    Given it passes\n",
        )],
        "s.feature  .FUU  failed\n0 features passed, 1 failed, 0 skipped\n1 scenario passed, 1 failed, 0 skipped, 2 untested\n1 step passed, 1 failed, 0 skipped, 0 undefined, 2 untested\nOk(1)",
    ),
    // A dry run.
    (
        "--dry-run a.feature",
        &[(
            "a.feature",
            "Feature: later steps\n  Scenario: s\n    Given it fails\n    When it passes\n    Then nothing knows this\n",
        )],
        "Feature: later steps ... untested\n  Scenario: s ... untested\n    Given it fails ... untested\n    When it passes ... untested\n    Then nothing knows this ... undefined\n\n0 features passed, 0 failed, 0 skipped, 1 untested\n0 scenarios passed, 0 failed, 0 skipped, 1 untested\n0 steps passed, 0 failed, 0 skipped, 1 undefined, 2 untested\nOk(1)",
    ),
    // JSON.
    (
        "--format json a.feature",
        &[(
            "a.feature",
            "Feature: one\n  Scenario: first\n    Given it passes\n",
        )],
        "{\"features\":[{\"around\":\"passed\",\"line\":1,\"name\":\"one\",\"scenarios\":[{\"around\":\"passed\",\"keyword\":\"Scenario\",\"line\":2,\"name\":\"first\",\"status\":\"passed\",\"steps\":[{\"keyword\":\"Given\",\"line\":3,\"status\":\"passed\",\"text\":\"it passes\"}]}],\"source\":\"a.feature\",\"status\":\"passed\"}],\"run\":\"passed\",\"status\":0,\"summary\":{\"features\":{\"failed\":0,\"memory\":0,\"passed\":1,\"skipped\":0,\"untested\":0},\"scenarios\":{\"failed\":0,\"memory\":0,\"passed\":1,\"skipped\":0,\"untested\":0},\"steps\":{\"failed\":0,\"memory\":0,\"passed\":1,\"skipped\":0,\"undefined\":0,\"untested\":0}}}\nOk(0)",
    ),
    // Tags, as progress without what is skipped.
    (
        "--tags ~@slow,@db --tags @ui --format progress --no-skipped f.feature",
        &[(
            "f.feature",
            "@ui\nFeature: f\n  Scenario: a\n    Given it passes\n  @slow\n  Scenario: b\n    Given it passes\n  @db\n  Scenario: c\n    Given it passes\n  @slow @db\n  Scenario: d\n    Given it passes\n",
        )],
        "f.feature  ...  passed\n1 feature passed, 0 failed, 0 skipped\n3 scenarios passed, 0 failed, 1 skipped\n3 steps passed, 0 failed, 1 skipped, 0 undefined\nOk(0)",
    ),
];

#[test]
fn suites_are_run(rt: HostRuntime) -> Result<(), Fail> {
    for (line, files, wanted) in RUNS {
        let found = ran(rt.alloc(), line, files, 0)?;
        assert_eq!(rt; found.as_str(), wanted);
    }
    Ok(())
}

// The same of runs whose files or tags don't read.
const FAULTS: [(&str, Files<'static>, &str); 4] = [
    (
        "--library lib.steps a.feature",
        &[
            ("a.feature", ""),
            ("lib.steps", "step x => pass\nstep y => dance\n"),
        ],
        "Err(Library(UnknownAction { line: 2 }))",
    ),
    (
        "--tags @a --tags=-x a.feature",
        &[("a.feature", "")],
        "Err(Select { input: None, fault: BadTagText })",
    ),
    (
        "a.feature b.feature",
        &[
            ("a.feature", "Feature: a\n"),
            (
                "b.feature",
                "Feature: b\nScenario: s\nGiven it passes\nstray\n",
            ),
        ],
        "Err(Read { input: 1, fault: Unexpected { line: 4 } })",
    ),
    (
        "--hooks h.hooks a.feature",
        &[("a.feature", ""), ("h.hooks", "before_step:\n")],
        "Err(Hooks(BadHook { line: 1 }))",
    ),
];

#[test]
fn suites_that_do_not_read_write_nothing(rt: HostRuntime) -> Result<(), Fail> {
    for (line, files, wanted) in FAULTS {
        let found = ran(rt.alloc(), line, files, 0)?;
        assert_eq!(rt; found.as_str(), wanted);
    }
    Ok(())
}

// The feature of two sources.
const ONE: &str = "Feature: a\n  Scenario: s\n    Given it passes\n";

// The call of the writer that fails, and what a run of both sources writes and returns.
const CUT: [(usize, &str); 4] = [
    (1, "Err(Write)"),
    (
        2,
        "Feature: a ... passed\n  Scenario: s ... passed\n    Given it passes ... passed\n\nErr(Write)",
    ),
    (
        3,
        "Feature: a ... passed\n  Scenario: s ... passed\n    Given it passes ... passed\n\nFeature: a ... passed\n  Scenario: s ... passed\n    Given it passes ... passed\n\nErr(Write)",
    ),
    (
        4,
        "Feature: a ... passed\n  Scenario: s ... passed\n    Given it passes ... passed\n\nFeature: a ... passed\n  Scenario: s ... passed\n    Given it passes ... passed\n\n2 features passed, 0 failed, 0 skipped\n2 scenarios passed, 0 failed, 0 skipped\n2 steps passed, 0 failed, 0 skipped, 0 undefined\nOk(0)",
    ),
];

#[test]
fn failed_writes_end_a_run(rt: HostRuntime) -> Result<(), Fail> {
    for (fails_at, wanted) in CUT {
        let found = ran(
            rt.alloc(),
            "a.feature a.feature",
            &[("a.feature", ONE)],
            fails_at,
        )?;
        assert_eq!(rt; found.as_str(), wanted);
    }
    Ok(())
}
