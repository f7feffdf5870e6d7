use crate::checks::{equal, same};
use gk_gherkin::text::trim_back;
use gk_gherkin::{
    HookKind, HookTable, Keyword, LONGEST_FILE, ReadFault, read_feature, read_hooks, read_lines,
};
use std::alloc::{AllocError, Global};
use std::test::Fail;

// A feature that has every construct.
const WHOLE: &str =
    "# language: en\n@f @g # h\nFeature: one: two\n  about\n  Given no step\n\n  Background:\n    | no row\n    Given a\n      | a\\|b |  |\n      # between\n      | c\\nd | \\\\ |\n  @s\n\n  Scenario: s\n    text\n    When b\n      \"\"\" json\n      x\n        \\\"\\\"\\\"\n\n      ```\n      \"\"\"\n    And c\n    But d\n    Then e\n      ```\n      ```\n    * f\n  Scenario Outline: o\n    Given <x>\n    @e\n    Examples: first\n      Given no step\n      | x |\n      | 1 |\n      | 2 |\n    Scenarios:\n@r\nRule: r\n  Background:\n  Example: y\n";

// Shows the number of lines in some bytes, and the text, number and column of the last one.
fn lines_of(alloc: Global, bytes: &[u8]) -> Result<String, ReadFault> {
    let document = read_lines(alloc, bytes)?;
    let count = document.lines.len();
    let shown = match document.lines.as_slice().last() {
        Some(last) => {
            format!(in alloc;
                "{count}: {:?} {} {}",
                last.text, last.place.line, last.place.column
            )
        }
        None => format!(in alloc; "{count}"),
    };
    Ok(shown?)
}

// Bytes, and their lines.
const LINES: [(&[u8], &str); 5] = [
    (b"", "0"),
    (b"\xEF\xBB\xBF", "0"),
    (b"a\rb\n", "1: \"a\\rb\" 1 1"),
    (b"a\n\nb\r\n", "3: \"b\" 3 1"),
    (b"a\n \tb", "2: \" \\tb\" 2 3"),
];

#[test]
fn lines_end_at_lf_or_crlf(rt: HostRuntime) -> Result<(), ReadFault> {
    for (bytes, wanted) in LINES {
        let lines = lines_of(rt.alloc(), bytes)?;
        same(&rt, lines.as_str(), wanted);
    }
    Ok(())
}

#[test]
fn bytes_without_lines_are_faults(rt: HostRuntime) -> Result<(), AllocError> {
    equal(
        &rt,
        &lines_of(rt.alloc(), b"a\n\xFF"),
        &Err(ReadFault::NotUtf8 { line: 2 }),
    );
    let bytes = vec![in rt.alloc(); b'a'; LONGEST_FILE + 1]?;
    equal(&rt, &lines_of(rt.alloc(), &bytes), &Err(ReadFault::TooLong));
    Ok(())
}

// The result of reading `WHOLE`.
const SHOWN: &str =
    "Feature { name: \"one: two\", line: 3, tags: [\"@f\", \"@g\"], background: Some(Background { line: 7, steps: [Step { keyword: Given, step_type: Given, text: \"a\", block: Table([[\"a|b\", \"\"], [\"c\\nd\", \"\\\\\"]]), line: 9 }] }), scenarios: [Scenario { keyword: Scenario, name: \"s\", line: 15, tags: [\"@s\"], steps: [Step { keyword: When, step_type: When, text: \"b\", block: Text(\"x\\n  \\\"\\\"\\\"\\n\\n```\"), line: 17 }, Step { keyword: And, step_type: When, text: \"c\", block: Empty, line: 24 }, Step { keyword: But, step_type: When, text: \"d\", block: Empty, line: 25 }, Step { keyword: Then, step_type: Then, text: \"e\", block: Text(\"\"), line: 26 }, Step { keyword: Star, step_type: Then, text: \"f\", block: Empty, line: 29 }], examples: [] }, Scenario { keyword: ScenarioOutline, name: \"o\", line: 30, tags: [], steps: [Step { keyword: Given, step_type: Given, text: \"<x>\", block: Empty, line: 31 }], examples: [Examples { name: \"first\", line: 33, tags: [\"@e\"], header: [\"x\"], rows: [Row { line: 36, cells: [\"1\"] }, Row { line: 37, cells: [\"2\"] }] }, Examples { name: \"\", line: 38, tags: [], header: [], rows: [] }] }], rules: [Rule { name: \"r\", line: 40, tags: [\"@r\"], background: Some(Background { line: 41, steps: [] }), scenarios: [Scenario { keyword: Example, name: \"y\", line: 42, tags: [], steps: [], examples: [] }] }] }";

#[test]
fn reads_each_construct(rt: HostRuntime) -> Result<(), Fail> {
    let feature = read_feature(rt.alloc(), WHOLE.as_bytes())?.ok_or("none")?;
    let shown = format!(in rt.alloc(); "{feature:?}")?;
    same(&rt, shown.as_str(), SHOWN);
    Ok(())
}

#[test]
fn trims_blanks_at_the_end(rt: HostRuntime) -> Result<(), Fail> {
    let cases: [(&str, &str); 4] = [("", ""), (" \t", ""), (" a \t", " a"), ("a\r", "a\r")];
    for (text, trimmed) in cases {
        same(&rt, trim_back(text), trimmed);
    }
    Ok(())
}

// A hooks file that has every construct.
const HOOKS: &str =
    "# language: de\nbefore_all:\n  Given a\n    | x | |\n\n  And b\n    \"\"\"\n    after_all:\n    \"\"\"\nafter_all:\nbefore_feature:\nafter_feature:\nbefore_scenario:\nafter_scenario:\nbefore_tag @a:b:\n  * c\nafter_tag\t @a:\nafter_tag @b:\n";

// The result of reading `HOOKS`.
const SHOWN_HOOKS: &str =
    "HookFile { hooks: [Hook { kind: BeforeAll, tag: None, line: 2, steps: [Step { keyword: Given, step_type: Given, text: \"a\", block: Table([[\"x\", \"\"]]), line: 3 }, Step { keyword: And, step_type: Given, text: \"b\", block: Text(\"after_all:\"), line: 6 }] }, Hook { kind: AfterAll, tag: None, line: 10, steps: [] }, Hook { kind: BeforeFeature, tag: None, line: 11, steps: [] }, Hook { kind: AfterFeature, tag: None, line: 12, steps: [] }, Hook { kind: BeforeScenario, tag: None, line: 13, steps: [] }, Hook { kind: AfterScenario, tag: None, line: 14, steps: [] }, Hook { kind: BeforeTag, tag: Some(\"@a:b\"), line: 15, steps: [Step { keyword: Star, step_type: Given, text: \"c\", block: Empty, line: 16 }] }, Hook { kind: AfterTag, tag: Some(\"@a\"), line: 17, steps: [] }, Hook { kind: AfterTag, tag: Some(\"@b\"), line: 18, steps: [] }] }";

#[test]
fn reads_each_hook(rt: HostRuntime) -> Result<(), Fail> {
    let file = read_hooks(rt.alloc(), HOOKS.as_bytes())?;
    let shown = format!(in rt.alloc(); "{file:?}")?;
    same(&rt, shown.as_str(), SHOWN_HOOKS);
    equal(&rt, &read_hooks(rt.alloc(), b"")?.hooks.is_empty(), &true);
    Ok(())
}

// A hooks file that is looked up by an index.
const LONG_HOOKS: &str =
    "before_all:\nbefore_tag @a:\nafter_tag @a:\nbefore_tag @b:\nafter_tag @b:\nbefore_tag @c:\nafter_tag @c:\nbefore_tag @d:\nafter_tag @d:\nbefore_tag @e:\nafter_tag @e:\nbefore_tag @f:\nafter_tag @f:\nbefore_tag @g:\nafter_tag @g:\nbefore_tag @h:\nafter_tag @h:\nafter_all:\n";

// A hook that is looked up, and the line of the hook that is found.
const LOOKED_UP: [(HookKind, Option<&str>, Option<u32>); 5] = [
    (HookKind::BeforeAll, None, Some(1)),
    (HookKind::AfterTag, Some("@a"), Some(3)),
    (HookKind::BeforeTag, Some("@h"), Some(16)),
    (HookKind::AfterTag, Some("@i"), None),
    (HookKind::BeforeFeature, None, None),
];

#[test]
fn looks_hooks_up(rt: HostRuntime) -> Result<(), Fail> {
    let file = read_hooks(rt.alloc(), LONG_HOOKS.as_bytes())?;
    let tables = [
        HookTable::new(rt.alloc(), &file),
        HookTable::without_index(&file),
    ];
    for table in &tables {
        for (kind, tag, line) in LOOKED_UP {
            let found = table.hook(kind, tag).map(|hook| hook.line);
            equal(&rt, &found, &line);
        }
    }
    Ok(())
}

// Keywords, as each is written, and as it has to be spelt.
const KEYWORDS: [(Keyword, &str, &str); 15] = [
    (Keyword::Feature, "Feature", "Feature:"),
    (Keyword::Rule, "Rule", "Rule:"),
    (Keyword::Background, "Background", "Background:"),
    (
        Keyword::ScenarioOutline,
        "Scenario Outline",
        "Scenario Outline:",
    ),
    (
        Keyword::ScenarioTemplate,
        "Scenario Template",
        "Scenario Template:",
    ),
    (Keyword::Scenarios, "Scenarios", "Scenarios:"),
    (Keyword::Scenario, "Scenario", "Scenario:"),
    (Keyword::Examples, "Examples", "Examples:"),
    (Keyword::Example, "Example", "Example:"),
    (Keyword::Given, "Given", "Given"),
    (Keyword::When, "When", "When"),
    (Keyword::Then, "Then", "Then"),
    (Keyword::And, "And", "And"),
    (Keyword::But, "But", "But"),
    (Keyword::Star, "*", "*"),
];

#[test]
fn keywords_are_spelt(rt: HostRuntime) {
    for (keyword, text, spelling) in KEYWORDS {
        same(&rt, keyword.as_str(), text);
        equal(&rt, &keyword.spelling(), &spelling);
    }
}
