use crate::checks::{equal, same};
use gk_gherkin::StepType;
use gk_steps::{Found, FoundUse, Library, default_library, read_library};
use std::alloc::{AllocError, Global};
use std::test::Fail;

// A library with an entry for steps of one type, and another for steps of each type.
const LIBRARY: &str = "step {a} b => fail\n\ngiven a {b} => pass\n";

// Shows what a text finds as a step of a type and as one of any type, and whether the first finds
// anything.
fn looked_up(
    alloc: Global,
    library: &Library,
    step_type: StepType,
    text: &str,
) -> Result<String, AllocError> {
    let found = library.find(alloc, step_type, text)?;
    let any = library.find_any(alloc, text)?;
    let known = library.knows(alloc, step_type, text)?;
    format!(in alloc; "{} {} {known}", shown(alloc, found)?, shown(alloc, any)?)
}

// Shows what was found.
fn shown(alloc: Global, found: Option<Found>) -> Result<String, AllocError> {
    match found {
        Some(found) => format!(in alloc; "{} {:?}", found.entry, found.fields),
        None => String::from_str(alloc, "none"),
    }
}

// Shows the action of a step, and the name and the number among the field values that it uses.
fn used(
    alloc: Global,
    library: &Library,
    step_type: StepType,
    text: &str,
) -> Result<String, AllocError> {
    match library.find_used(alloc, step_type, text)? {
        Some(FoundUse { action, fields }) => {
            format!(in alloc; "{action:?} {:?} {:?}", fields.name, fields.number)
        }
        None => String::from_str(alloc, "none"),
    }
}

// A step's type and text, and what is found.
const FOUND: [(StepType, &str, &str); 4] = [
    (
        StepType::Given,
        "a b",
        "1 [Text(\"b\")] 0 [Text(\"a\")] true",
    ),
    (
        StepType::When,
        "a b",
        "0 [Text(\"a\")] 0 [Text(\"a\")] true",
    ),
    (StepType::Given, "a c", "1 [Text(\"c\")] none true"),
    (StepType::When, "a c", "none none false"),
];

#[test]
fn libraries_are_read_and_asked(rt: HostRuntime) -> Result<(), Fail> {
    let library = read_library(rt.alloc(), LIBRARY.as_bytes())?;
    for (step_type, text, wanted) in FOUND {
        let found = looked_up(rt.alloc(), &library, step_type, text)?;
        same(&rt, found.as_str(), wanted);
    }
    Ok(())
}

#[test]
fn the_built_in_library_has_its_entries(rt: HostRuntime) -> Result<(), Fail> {
    let library = default_library(rt.alloc())?;
    let text = "a file named \"n\" with:";
    let found = looked_up(rt.alloc(), &library, StepType::Given, text)?;
    same(&rt, found.as_str(), "0 [Text(\"n\")] 0 [Text(\"n\")] true");
    let text = "the number \"n\" grows by 5";
    let used = used(rt.alloc(), &library, StepType::Then, text)?;
    same(&rt, used.as_str(), "AddNumber Some(\"n\") Some(5)");
    Ok(())
}

#[test]
fn known_steps_are_messages_from_others(rt: HostRuntime) -> Result<(), Fail> {
    let library = read_library(rt.alloc(), LIBRARY.as_bytes())?;
    for (text, wanted) in [("a b", true), ("a c", false)] {
        let known = library.knows(rt.alloc(), StepType::When, text)?;
        equal(&rt, &known, &wanted);
    }
    Ok(())
}
