use crate::checks::{equal, holds, same};
use crate::run_tests::feature_of;
use gk_gherkin::read_feature;
use gk_select::{
    Case, Choice, SelectFault, TagRule, expand, has_room, into_cases, outline_rows,
    read_features_are_expandable, read_tags, selected_cases, tag_stop,
};
use std::alloc::{AllocError, Global};
use std::test::Fail;

// A feature with a scenario, and with an outline whose text has a placeholder inside another's bounds.
const FEATURE: &str =
    "@f\nFeature: f\n  Background:\n    Given b\n  @s\n  Scenario: plain\n    When p\n  @o\n  Scenario Outline: o <a>\n    Then <a<a>>\n    @e\n    Examples: first\n      | a |\n      | 1 |\n  Rule: r\n    Example: e\n      Then q\n";

// Its cases.
const CASES: &str =
    "[Case { name: \"plain\", keyword: Scenario, line: 6, rule: None, tags: [\"@f\", \"@s\"], own_tags: [\"@s\"], steps: [Step { keyword: Given, step_type: Given, text: \"b\", block: Empty, line: 4 }, Step { keyword: When, step_type: When, text: \"p\", block: Empty, line: 7 }] }, Case { name: \"o 1 -- @1.1 first\", keyword: ScenarioOutline, line: 14, rule: None, tags: [\"@f\", \"@o\", \"@e\"], own_tags: [\"@o\", \"@e\"], steps: [Step { keyword: Given, step_type: Given, text: \"b\", block: Empty, line: 4 }, Step { keyword: Then, step_type: Then, text: \"<a1>\", block: Empty, line: 10 }] }, Case { name: \"e\", keyword: Example, line: 16, rule: Some(0), tags: [\"@f\"], own_tags: [], steps: [Step { keyword: Given, step_type: Given, text: \"b\", block: Empty, line: 4 }, Step { keyword: Then, step_type: Then, text: \"q\", block: Empty, line: 17 }] }]";

// Shows the cases of a text's feature: when the feature is borrowed, and when it is consumed.
fn shown_cases(alloc: Global, text: &str) -> Result<(String, String), Fail> {
    let feature = match read_feature(alloc, text.as_bytes()) {
        Ok(Some(feature)) => feature,
        _ => return Err("no feature".into()),
    };
    if !has_room(&feature) {
        return Err("too many steps".into());
    }
    read_features_are_expandable();
    let kept = expand(alloc, &feature)?;
    let moved = into_cases(alloc, feature)?;
    Ok((
        format!(in alloc; "{kept:?}")?,
        format!(in alloc; "{moved:?}")?,
    ))
}

#[test]
fn features_are_expanded(rt: HostRuntime) -> Result<(), Fail> {
    let (kept, moved) = shown_cases(rt.alloc(), FEATURE)?;
    same(&rt, kept.as_str(), CASES);
    same(&rt, moved.as_str(), CASES);
    Ok(())
}

// A feature with an outline of so many steps and rows.
fn outline_of(alloc: Global, steps: usize, rows: usize) -> Result<String, AllocError> {
    let mut text = String::from_str(alloc, "Feature: f\nScenario Outline: o\n")?;
    for _ in 0..steps {
        text.push_str("Given a\n")?;
    }
    text.push_str("Examples:\n| a |\n")?;
    for _ in 0..rows {
        text.push_str("| 1 |\n")?;
    }
    Ok(text)
}

// The number of cases.
fn counted(cases: Result<Vec<Case>, SelectFault>) -> Result<usize, SelectFault> {
    Ok(cases?.len())
}

#[test]
fn more_steps_than_the_limit_are_refused(rt: HostRuntime) -> Result<(), Fail> {
    let text = outline_of(rt.alloc(), 1_001, 1_000)?;
    let feature = feature_of(rt.alloc(), text.as_str())?;
    holds(&rt, !has_room(&feature));
    let refused = Err(SelectFault::TooMany);
    equal(&rt, &counted(expand(rt.alloc(), &feature)), &refused);
    equal(&rt, &counted(into_cases(rt.alloc(), feature)), &refused);
    Ok(())
}

// Shows for each case of a text's feature whether a text of tags chooses it.
fn shown_choice(alloc: Global, text: &str, tags: &str) -> Result<String, Fail> {
    let feature = match read_feature(alloc, text.as_bytes()) {
        Ok(Some(feature)) => feature,
        _ => return Err("no feature".into()),
    };
    let mut rules = Vec::new(alloc);
    rules.push(read_tags(alloc, tags)?)?;
    let choice = Choice::new(rules, Vec::new(alloc));
    read_features_are_expandable();
    let selected = selected_cases(alloc, &choice, &feature)?;
    Ok(format!(in alloc; "{selected:?}")?)
}

#[test]
fn cases_are_chosen_by_all_of_their_tags(rt: HostRuntime) -> Result<(), Fail> {
    for (tags, wanted) in [
        ("@f", "[true, true, true]"),
        ("@s", "[true, false, false]"),
        ("@o and @e", "[false, true, false]"),
        ("~@e", "[true, false, true]"),
    ] {
        same(
            &rt,
            shown_choice(rt.alloc(), FEATURE, tags)?.as_str(),
            wanted,
        );
    }
    Ok(())
}

// The rows of a text's feature.
fn shown_rows(alloc: Global, text: &str) -> Result<String, Fail> {
    let feature = feature_of(alloc, text)?;
    let rows = outline_rows(alloc, &feature)?;
    Ok(format!(in alloc; "{rows:?}")?)
}

#[test]
fn rows_are_listed(rt: HostRuntime) -> Result<(), Fail> {
    same(
        &rt,
        shown_rows(rt.alloc(), FEATURE)?.as_str(),
        "[None, Some(ExampleRow { line: 14, number: 1, cells: [ExampleCell { header: \"a\", text: \"1\" }] }), None]",
    );
    Ok(())
}

// Texts, and the tag rules that they spell.
const RULES: [(&str, &str); 25] = [
    (
        "slow,~@db",
        "Ok(TagRule { words: [Tag(\"@slow\"), Or, Not, Tag(\"@db\")] })",
    ),
    ("~slow", "Ok(TagRule { words: [Not, Tag(\"@slow\")] })"),
    ("~@slow", "Ok(TagRule { words: [Not, Tag(\"@slow\")] })"),
    ("@~x", "Ok(TagRule { words: [Tag(\"@~x\")] })"),
    (
        "@slow or not @db",
        "Ok(TagRule { words: [Tag(\"@slow\"), Or, Not, Tag(\"@db\")] })",
    ),
    (
        "\t(@slow)and((@db)) ",
        "Ok(TagRule { words: [Open, Tag(\"@slow\"), Close, And, Open, Open, Tag(\"@db\"), Close, Close] })",
    ),
    ("and", "Ok(TagRule { words: [Tag(\"@and\")] })"),
    ("@not ", "Ok(TagRule { words: [Tag(\"@not\")] })"),
    ("", "Err(BadTagText)"),
    ("@", "Err(BadTagText)"),
    ("~", "Err(BadTagText)"),
    ("~~x", "Err(BadTagText)"),
    ("-x", "Err(BadTagText)"),
    ("a,,b", "Err(BadTagText)"),
    ("a b", "Err(BadTagText)"),
    (" ", "Err(BadTagText)"),
    ("@a or", "Err(BadTagText)"),
    ("or @a", "Err(BadTagText)"),
    ("@a @b", "Err(BadTagText)"),
    ("(@a", "Err(BadTagText)"),
    ("@a)", "Err(BadTagText)"),
    ("()", "Err(BadTagText)"),
    ("not (", "Err(BadTagText)"),
    ("a or @b", "Err(BadTagText)"),
    ("@a, @b", "Err(BadTagText)"),
];

#[test]
fn rules_of_tags_are_read(rt: HostRuntime) -> Result<(), AllocError> {
    for (text, wanted) in RULES {
        let rule = read_tags(rt.alloc(), text);
        let shown = format!(in rt.alloc(); "{rule:?}")?;
        same(&rt, shown.as_str(), wanted);
    }
    Ok(())
}

// Texts, and where each stops spelling a rule.
const STOPS: [(&str, &str); 6] = [
    ("@a and not (@b or @c)", "None"),
    (
        "@a and and @b",
        "Some(TagStop { at: Some(\"and\"), wanted: Operand })",
    ),
    ("not ", "Some(TagStop { at: None, wanted: Operand })"),
    ("@a)", "Some(TagStop { at: Some(\")\"), wanted: Operator })"),
    ("(@a or @b", "Some(TagStop { at: None, wanted: Close })"),
    (
        "~@a,-b",
        "Some(TagStop { at: Some(\"-b\"), wanted: Alternative })",
    ),
];

#[test]
fn texts_stop_at_their_first_bad_word(rt: HostRuntime) -> Result<(), AllocError> {
    for (text, wanted) in STOPS {
        let stop = tag_stop(text);
        let shown = format!(in rt.alloc(); "{stop:?}")?;
        same(&rt, shown.as_str(), wanted);
    }
    Ok(())
}

// The sets over three tags, and whether both `~@slow,@db` and `@ui` hold of them.
const SETS: [(&[&str], bool); 8] = [
    (&[], false),
    (&["@slow"], false),
    (&["@db"], false),
    (&["@slow", "@db"], false),
    (&["@ui"], true),
    (&["@slow", "@ui"], false),
    (&["@db", "@ui"], true),
    (&["@slow", "@db", "@ui"], true),
];

// Reports whether both rules hold of a set of tags.
fn both_hold(
    alloc: Global,
    first: &TagRule,
    second: &TagRule,
    set: &[&str],
) -> Result<bool, AllocError> {
    Ok(holds_of(alloc, first, set)? && holds_of(alloc, second, set)?)
}

#[test]
fn rules_select_sets_of_tags(rt: HostRuntime) -> Result<(), Fail> {
    let first = read_tags(rt.alloc(), "~@slow,@db")?;
    let second = read_tags(rt.alloc(), "@ui")?;
    let tags = first.tags(rt.alloc())?;
    let shown = format!(in rt.alloc(); "{tags:?}")?;
    same(&rt, shown.as_str(), "[\"@slow\", \"@db\"]");
    for (set, wanted) in SETS {
        let holds = both_hold(rt.alloc(), &first, &second, set)?;
        equal(&rt, &holds, &wanted);
    }
    Ok(())
}

// Expressions of the tags `@a`, `@b` and `@c`, and whether each holds of the sets of them: none, a, b, c, ab,
// ac, bc and abc.
const EXPRESSIONS: [(&str, [bool; 8]); 12] = [
    (
        "@a or @b and not @c",
        [false, true, true, false, true, true, false, true],
    ),
    (
        "(@a or @b) and not @c",
        [false, true, true, false, true, false, false, false],
    ),
    (
        "not @a or @b",
        [true, false, true, true, true, false, true, true],
    ),
    (
        "not @a and @b",
        [false, false, true, false, false, false, true, false],
    ),
    (
        "not (@a or @b)",
        [true, false, false, true, false, false, false, false],
    ),
    (
        "not (@a and @b)",
        [true, true, true, true, false, true, true, false],
    ),
    (
        "@a and @b or @c",
        [false, false, false, true, true, true, true, true],
    ),
    (
        "@a and (@b or @c)",
        [false, false, false, false, true, true, false, true],
    ),
    (
        "not not @a",
        [false, true, false, false, true, true, false, true],
    ),
    (
        "((@a)or(@b))",
        [false, true, true, false, true, true, true, true],
    ),
    (
        "@a and not @a",
        [false, false, false, false, false, false, false, false],
    ),
    ("~@a,@b", [true, false, true, true, true, false, true, true]),
];

const TAG_SETS: [&[&str]; 8] = [
    &[],
    &["@a"],
    &["@b"],
    &["@c"],
    &["@a", "@b"],
    &["@a", "@c"],
    &["@b", "@c"],
    &["@a", "@b", "@c"],
];

// Reports whether a rule holds of a set of tags.
fn holds_of(alloc: Global, rule: &TagRule, set: &[&str]) -> Result<bool, AllocError> {
    let mut tags = Vec::new(alloc);
    for tag in set {
        tags.push(String::from_str(alloc, tag)?)?;
    }
    Ok(rule.selects(&tags))
}

// Returns whether a rule holds, for each set of tags.
fn values_of(alloc: Global, rule: &TagRule) -> Result<Vec<bool>, AllocError> {
    let mut values = Vec::new(alloc);
    for set in TAG_SETS {
        values.push(holds_of(alloc, rule, set)?)?;
    }
    Ok(values)
}

#[test]
fn expressions_select_sets_of_tags(rt: HostRuntime) -> Result<(), Fail> {
    for (text, wanted) in EXPRESSIONS {
        let rule = read_tags(rt.alloc(), text)?;
        let values = values_of(rt.alloc(), &rule)?;
        equal(&rt, &values.as_slice(), &wanted.as_slice());
    }
    Ok(())
}

// Returns a text repeated `times` times, with another text after it.
fn repeated(alloc: Global, part: &str, times: u64, end: &str) -> Result<String, AllocError> {
    let mut text = String::new(alloc);
    for _ in 0..times {
        text.push_str(part)?;
    }
    text.push_str(end)?;
    Ok(text)
}

// A term that is repeated many times, the last term, and whether their expression holds of `@a` and
// `@b`. No recursion goes over the terms.
const LONG: [(&str, &str, bool); 4] = [
    ("@c or ", "@b", true),
    ("@c or ", "@c", false),
    ("@b and ", "@a", true),
    ("@b and not @c and ", "@c", false),
];

#[test]
fn long_expressions_are_read(rt: HostRuntime) -> Result<(), Fail> {
    for (part, end, wanted) in LONG {
        let text = repeated(rt.alloc(), part, 25_000, end)?;
        let rule = read_tags(rt.alloc(), text.as_str())?;
        let holds = holds_of(rt.alloc(), &rule, &["@a", "@b"])?;
        equal(&rt, &holds, &wanted);
    }
    Ok(())
}

// Text before and after one term, how often each is repeated, and whether the whole text is read.
const DEEP: [(&str, &str, u64, bool); 6] = [
    ("(", ")", 100, true),
    ("(", ")", 101, false),
    ("not ", "", 100, true),
    ("not ", "", 101, false),
    ("not (", ")", 50, true),
    ("not (", ")", 51, false),
];

#[test]
fn expressions_are_no_deeper_than_the_limit(rt: HostRuntime) -> Result<(), AllocError> {
    for (front, back, times, wanted) in DEEP {
        let closing = repeated(rt.alloc(), back, times, "")?;
        let inner = format!(in rt.alloc(); "@a{closing}")?;
        let text = repeated(rt.alloc(), front, times, inner.as_str())?;
        let is_read = read_tags(rt.alloc(), text.as_str()).is_ok();
        equal(&rt, &is_read, &wanted);
    }
    Ok(())
}
