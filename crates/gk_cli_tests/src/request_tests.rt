use crate::whole_suite_tests::{files_with, oil, source};
use gk_findings::{EnvMistake, findings_text, push_env_notes, push_notes, push_unreadable_note};
use gk_gherkin::ReadFault;
use gk_request::{
    Options, ReadInputs, RunFault, SuiteFiles, bytes_of, file_at_fault, first_bad_tags,
    line_at_fault, name_of, read_before, read_feature_at, read_inputs,
};
use gk_select::SelectFault;
use std::alloc::{AllocError, Global};
use std::test::Fail;

const HOOKS: &str = "before_all:\n  Given it passes\nafter_tag @bell:\n  Then it fails\n";

const BELLS: &str =
    "@bell\nFeature: Bells\n  Scenario: It rings\n  Rule: At night\n    Scenario Outline: It is still\n      Given it passes\n      Examples:\n        | hour |\n        | one  |\n        | two  |\n";

fn bells(alloc: Global) -> Result<SuiteFiles, AllocError> {
    let hooks = source(alloc, "bells.hooks", HOOKS)?;
    let feature = source(alloc, "bells.feature", BELLS)?;
    files_with(alloc, None, Some(hooks), feature)
}

// The scenarios with a tag, on two lines.
fn tagged(alloc: Global) -> Result<Options, AllocError> {
    let mut options = Options::plain(alloc);
    options.tags.push(String::from_str(alloc, "@bell")?)?;
    options.lines.push(3)?;
    options.lines.push(10)?;
    Ok(options)
}

// What was read of one feature: whether the library is empty, the number of hooks, the feature's file, its name, its
// rules, its choice and the rows of its outlines.
fn shown(alloc: Global, read: &ReadInputs) -> Result<String, Fail> {
    let [feature] = read.features.as_slice() else {
        return Err("not one feature".into());
    };
    Ok(format!(in alloc;
        "{} {}; {} {} {:?} {:?} {:?}",
        read.library.entries.is_empty(),
        read.hooks.hooks.len(),
        feature.source,
        feature.name,
        feature.rules,
        feature.selected,
        read.rows
    )?)
}

fn inputs(
    alloc: Global,
    options: &Options,
    with_rows: bool,
    files: &SuiteFiles,
) -> Result<ReadInputs, RunFault> {
    let library = bytes_of(&files.library);
    let hooks = bytes_of(&files.hooks);
    read_inputs(
        alloc,
        options,
        with_rows,
        library,
        hooks,
        files.sources.as_slice(),
    )
}

#[test]
fn requests_are_read(rt: HostRuntime) -> Result<(), Fail> {
    let options = tagged(rt.alloc())?;
    let files = bells(rt.alloc())?;
    let read = inputs(rt.alloc(), &options, false, &files)?;
    assert_eq!(rt;
        shown(rt.alloc(), &read)?.as_str(),
        "false 2; bells.feature Bells [RuleHead { line: 4, tags: [] }] [true, false, true] []"
    );
    Ok(())
}

#[test]
fn rows_are_read_if_they_are_asked_for(rt: HostRuntime) -> Result<(), Fail> {
    let options = Options::plain(rt.alloc());
    let files = bells(rt.alloc())?;
    let read = inputs(rt.alloc(), &options, true, &files)?;
    let rows = format!(in rt.alloc(); "{:?}", read.rows)?;
    assert_eq!(rt;
        rows.as_str(),
        "[[None, Some(ExampleRow { line: 9, number: 1, cells: [ExampleCell { header: \"hour\", text: \"one\" }] }), Some(ExampleRow { line: 10, number: 2, cells: [ExampleCell { header: \"hour\", text: \"two\" }] })]]"
    );
    Ok(())
}

#[test]
fn requests_are_read_without_their_sources(rt: HostRuntime) -> Result<(), Fail> {
    let options = tagged(rt.alloc())?;
    let library = "step the bell rings => pass\n";
    let before = read_before(
        rt.alloc(),
        &options,
        Some(library.as_bytes()),
        Some(HOOKS.as_bytes()),
    )?;
    assert_eq!(rt; before.library.entries.len(), 1);
    assert_eq!(rt; before.hooks.hooks.len(), 2);
    assert_eq!(rt; before.rules.len(), 1);
    Ok(())
}

// The name of the feature of a source at a place, or its fault.
fn feature_name(alloc: Global, place: usize, text: &str) -> Result<String, AllocError> {
    let read = read_feature_at(alloc, place, text.as_bytes());
    format!(in alloc;
        "{:?}",
        read.map(|feature| feature.map(|feature| feature.name))
    )
}

#[test]
fn features_are_read(rt: HostRuntime) -> Result<(), AllocError> {
    assert_eq!(rt;
        feature_name(rt.alloc(), 0, BELLS)?.as_str(),
        "Ok(Some(\"Bells\"))"
    );
    assert_eq!(rt;
        feature_name(rt.alloc(), 0, "# None\n")?.as_str(),
        "Ok(None)"
    );
    assert_eq!(rt;
        feature_name(rt.alloc(), 3, "@bell rings\n")?.as_str(),
        "Err(Read { input: 3, fault: BadTag { line: 1 } })"
    );
    Ok(())
}

// The name and the number of bytes of the file of a fault, and the line that the fault names.
fn place(alloc: Global, files: &SuiteFiles, fault: RunFault) -> Result<String, AllocError> {
    let file = file_at_fault(files, fault);
    let named = file.map(|file| (file.name.as_str(), file.bytes.len()));
    format!(in alloc; "{named:?} {:?}", line_at_fault(fault))
}

#[test]
fn faults_have_places(rt: HostRuntime) -> Result<(), Fail> {
    let files = bells(rt.alloc())?;
    let hooks = RunFault::Hooks(ReadFault::BadHook { line: 3 });
    assert_eq!(rt;
        place(rt.alloc(), &files, hooks)?.as_str(),
        "Some((\"bells.hooks\", 63)) Some(3)"
    );
    assert_eq!(rt;
        place(rt.alloc(), &files, RunFault::Memory)?.as_str(),
        "None None"
    );
    assert_eq!(rt; name_of(&files.hooks), "bells.hooks");
    assert_eq!(rt; name_of(&files.library), "");
    assert_eq!(rt; bytes_of(&files.hooks), Some(HOOKS.as_bytes()));
    assert_eq!(rt; bytes_of(&files.library), None);
    Ok(())
}

const FOUND: &str = "bells.feature:3: scenario without steps\n";

#[test]
fn findings_are_listed(rt: HostRuntime) -> Result<(), Fail> {
    let files = bells(rt.alloc())?;
    let options = tagged(rt.alloc())?;
    let text = findings_text(rt.alloc(), &options, true, &files)?;
    assert_eq!(rt; text.as_str(), FOUND);
    let none = SuiteFiles {
        library: None,
        hooks: None,
        sources: Vec::new(rt.alloc()),
    };
    let text = findings_text(rt.alloc(), &Options::plain(rt.alloc()), true, &none)?;
    assert_eq!(rt; text.as_str(), "");
    let oil = oil(rt.alloc())?;
    let text = format!(in rt.alloc(); "{:?}", findings_text(rt.alloc(), &options, true, &oil))?;
    assert_eq!(rt; text.as_str(), "Err(Library(UnknownAction { line: 2 }))");
    Ok(())
}

#[test]
fn first_bad_text_of_tags_is_found(rt: HostRuntime) -> Result<(), Fail> {
    let mut options = tagged(rt.alloc())?;
    let none = first_bad_tags(rt.alloc(), options.tags.as_slice())?;
    assert_eq!(rt; none, None);
    options
        .tags
        .push(String::from_str(rt.alloc(), "@bell and")?)?;
    options.tags.push(String::from_str(rt.alloc(), "-")?)?;
    let found = first_bad_tags(rt.alloc(), options.tags.as_slice())?;
    assert_eq!(rt; found, Some("@bell and"));
    Ok(())
}

#[test]
fn bad_text_of_tags_has_notes(rt: HostRuntime) -> Result<(), Fail> {
    let files = bells(rt.alloc())?;
    let fault = RunFault::Select {
        input: None,
        fault: SelectFault::BadTagText,
    };
    let mut notes = String::new(rt.alloc());
    push_notes(&mut notes, rt.alloc(), Some("@bell and"), &files, fault)?;
    let wanted =
        "    | @bell and\n    it breaks at its end, where \"not\", \"(\" or a tag such as @a is expected\n";
    assert_eq!(rt; notes.as_str(), wanted);
    Ok(())
}

#[test]
fn bad_variables_have_notes(rt: HostRuntime) -> Result<(), Fail> {
    let mut notes = String::new(rt.alloc());
    push_env_notes(&mut notes, EnvMistake::NoEquals, "COLOUR")?;
    let wanted = "    | COLOUR\n    write NAME=VALUE, with = after the name\n";
    assert_eq!(rt; notes.as_str(), wanted);
    notes.clear();
    push_env_notes(&mut notes, EnvMistake::BadName, "")?;
    let wanted = "    | =\n    give the variable a name of 1 to 255 bytes before the =\n";
    assert_eq!(rt; notes.as_str(), wanted);
    notes.clear();
    push_env_notes(&mut notes, EnvMistake::LongValue, "A")?;
    let wanted = "    | A=\n    shorten its value: at most 1048576 bytes\n";
    assert_eq!(rt; notes.as_str(), wanted);
    Ok(())
}

#[test]
fn unreadable_files_have_a_note(rt: HostRuntime) -> Result<(), Fail> {
    let mut notes = String::new(rt.alloc());
    push_unreadable_note(&mut notes)?;
    assert!(rt;
        notes
            .as_str()
            .starts_with("    check its name and permissions; ")
    );
    Ok(())
}
