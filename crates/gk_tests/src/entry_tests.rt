use crate::checks::{equal, holds, same};
use gk_gherkin::{StepType, borrowed_line};
use gk_steps::{
    Action, ActsOn, Does, Entry, FieldKind, Library, LibraryFault, PatternFault, Takes,
    action_rows, entry_text, field_kind, has_right_kind, is_ignored, number_of, read_pattern,
    row_named,
};
use std::alloc::Global;
use std::test::Fail;

#[test]
fn lines_are_ignored(rt: HostRuntime) {
    holds(
        &rt,
        is_ignored(&borrowed_line(1, "")) && is_ignored(&borrowed_line(2, " \t")),
    );
    holds(
        &rt,
        is_ignored(&borrowed_line(3, "# given")) && is_ignored(&borrowed_line(4, "\t#")),
    );
    holds(&rt, !is_ignored(&borrowed_line(5, "given a => pass # b")));
}

#[test]
fn lines_are_divided(rt: HostRuntime) -> Result<(), LibraryFault> {
    let text = entry_text(&borrowed_line(1, " given\ta => b =>  Pass "))?;
    equal(&rt, &text.step_type, &Some(StepType::Given));
    same(&rt, text.pattern, "a => b");
    same(&rt, text.action, "Pass");
    let fault = entry_text(&borrowed_line(2, "step a")).err();
    equal(&rt, &fault, &Some(LibraryFault::BadPattern { line: 2 }));
    Ok(())
}

#[test]
fn actions_have_rows(rt: HostRuntime) {
    for row in action_rows() {
        holds(&rt, row_named(row.name).is_some());
    }
    holds(&rt, row_named("Pass").is_none());
    let mut found = false;
    if let Some(row) = row_named("set_number") {
        found = row.action == Action::SetNumber && row.needs.len() == 2 && row.uses.len() == 2;
    }
    holds(&rt, found);
    let row = Action::AppendFile.row();
    holds(
        &rt,
        row.action == Action::AppendFile && row.does == Does::Changes,
    );
    holds(&rt, row.acts_on == ActsOn::File && row.takes == Takes::Text);
}

#[test]
fn fields_have_kinds(rt: HostRuntime) -> Result<(), PatternFault> {
    let pattern = read_pattern(rt.alloc(), "{name:d} is {n}")?;
    equal(
        &rt,
        &field_kind(&pattern.pieces, "name"),
        &Some(FieldKind::Decimal),
    );
    equal(
        &rt,
        &field_kind(&pattern.pieces, "n"),
        &Some(FieldKind::Plain),
    );
    equal(&rt, &field_kind(&pattern.pieces, "to"), &None);
    holds(&rt, !has_right_kind(&pattern.pieces, "name"));
    holds(&rt, !has_right_kind(&pattern.pieces, "n"));
    holds(&rt, has_right_kind(&pattern.pieces, "to"));
    Ok(())
}

#[test]
fn numbers_are_read(rt: HostRuntime) {
    equal(&rt, &number_of("007"), &Some(7));
    equal(&rt, &number_of("+7"), &Some(7));
    equal(&rt, &number_of("-9223372036854775808"), &Some(i64::MIN));
    equal(&rt, &number_of("9223372036854775808"), &None);
    equal(&rt, &number_of(""), &None);
    equal(&rt, &number_of("-"), &None);
    equal(&rt, &number_of(" 7"), &None);
    equal(&rt, &number_of("٣"), &None);
}

// An entry with the pattern that a text spells.
fn entry(
    alloc: Global,
    step_type: Option<StepType>,
    spelled: &str,
    action: Action,
) -> Result<Entry, PatternFault> {
    Ok(Entry {
        line: 1,
        step_type,
        pattern: read_pattern(alloc, spelled)?,
        action,
    })
}

// A library that was not read from a text.
fn library(alloc: Global) -> Result<Library, Fail> {
    let mut entries = Vec::new(alloc);
    entries.push(entry(
        alloc,
        Some(StepType::Given),
        "the number {name} grows by {n:d}",
        Action::AddNumber,
    )?)?;
    entries.push(entry(alloc, None, "{step} at {to} with {text}", Action::Pass)?)?;
    entries.push(entry(alloc, None, "{other} {name}", Action::Fail)?)?;
    entries.push(entry(
        alloc,
        Some(StepType::Then),
        "{n} {name:d}",
        Action::NumberIs,
    )?)?;
    Ok(Library::new(entries))
}

// What a step finds: the entry, its action, and the fields that actions use.
fn found(
    alloc: Global,
    library: &Library,
    step_type: StepType,
    text: &str,
) -> Result<String, Fail> {
    let Some(found) = library.find(alloc, step_type, text)? else {
        return Err("no entry".into());
    };
    let action = library.action(&found);
    let fields = library.used_fields(&found);
    Ok(format!(in alloc; "{} {action:?} {fields:?}", found.entry)?)
}

// Steps, and what each finds.
const FOUND: [(StepType, &str, &str); 4] = [
    (
        StepType::Given,
        "the number a grows by 5",
        "0 AddNumber UsedFields { name: Some(\"a\"), to: None, step: None, number: Some(5), text: None }",
    ),
    (
        StepType::When,
        "x at y with z",
        "1 Pass UsedFields { name: None, to: Some(\"y\"), step: Some(\"x\"), number: None, text: Some(\"z\") }",
    ),
    (
        StepType::When,
        "a b",
        "2 Fail UsedFields { name: Some(\"b\"), to: None, step: None, number: None, text: None }",
    ),
    (
        StepType::Then,
        "a 5",
        "3 NumberIs UsedFields { name: None, to: None, step: None, number: None, text: None }",
    ),
];

#[test]
fn made_libraries_are_asked(rt: HostRuntime) -> Result<(), Fail> {
    let library = library(rt.alloc())?;
    for (step_type, text, wanted) in FOUND {
        let found = found(rt.alloc(), &library, step_type, text)?;
        same(&rt, found.as_str(), wanted);
    }
    Ok(())
}

// Faults, the line that each names, and its text.
const FAULTS: [(LibraryFault, Option<u32>, &str); 9] = [
    (LibraryFault::NotUtf8 { line: 1 }, Some(1), "not UTF-8"),
    (LibraryFault::BadType { line: 2 }, Some(2), "bad step type"),
    (LibraryFault::BadPattern { line: 3 }, Some(3), "bad pattern"),
    (
        LibraryFault::UnknownAction { line: 4 },
        Some(4),
        "unknown action",
    ),
    (
        LibraryFault::MissingField { line: 5 },
        Some(5),
        "missing field",
    ),
    (
        LibraryFault::FieldKind { line: 6 },
        Some(6),
        "wrong kind of field",
    ),
    (
        LibraryFault::Ambiguous { line: 7 },
        Some(7),
        "ambiguous with an earlier line",
    ),
    (LibraryFault::TooLong, None, "longer than 16777216 bytes"),
    (LibraryFault::Memory, None, "out of memory"),
];

#[test]
fn faults_of_libraries_have_lines_and_texts(rt: HostRuntime) -> Result<(), Fail> {
    for (fault, line, text) in FAULTS {
        equal(&rt, &LibraryFault::line(&fault), &line);
        let displayed = format!(in rt.alloc(); "{fault}")?;
        same(&rt, displayed.as_str(), text);
    }
    Ok(())
}
