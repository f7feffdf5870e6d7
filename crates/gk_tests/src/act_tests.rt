ghost use Rattle.std.specs.Prelude.{◌≡◌, ◌<◌};
ghost use Rattle.gk_world.specs.Sandbox.{depth, KeepsLayers};

use crate::checks::{equal, same};
use crate::run_tests::cases_of;
use gk_gherkin::{Block, Step};
use gk_run::{Cleanups, Outcome, Reason, Site, act, used_of};
use gk_steps::{Library, default_library, files_below};
use gk_world::Sandbox;
use std::alloc::Global;
use std::test::Fail;

// Carries out a step at a site.
fn acted(
    alloc: Global,
    sandbox: &mut Sandbox,
    cleanups: &mut Cleanups,
    library: &Library,
    site: Site,
    step: &Step,
) -> Result<Outcome, Fail>
    requires { 0 < depth sandbox.old }
    ensures { KeepsLayers sandbox.old sandbox.new }
{
    match library.find(alloc, step.step_type, step.text.as_str())? {
        Some(found) => Ok(act(alloc, sandbox, cleanups, library, site, &found, &step.block)),
        None => Err("no such step".into()),
    }
}

// Carries out steps at a site, one after another. Returns the outcome of the last.
fn last_of(
    alloc: Global,
    sandbox: &mut Sandbox,
    library: &Library,
    site: Site,
    steps: Vec<Step>,
) -> Result<Outcome, Fail>
    requires { 0 < depth sandbox.old }
    ensures { KeepsLayers sandbox.old sandbox.new }
{
    let mut cleanups = Cleanups::new(alloc);
    let mut outcome = Outcome::Passed;
    for step in steps {
        outcome = acted(alloc, sandbox, &mut cleanups, library, site, &step)?;
    }
    Ok(outcome)
}

// Carries out steps in a layer inside a layer in which the value `outer` is 1.
fn in_layers(
    alloc: Global,
    library: &Library,
    site: Site,
    steps: Vec<Step>,
) -> Result<Outcome, Fail> {
    let mut sandbox = Sandbox::new(alloc);
    let outer = sandbox.begin();
    // Without this value, the outcomes differ from the wanted ones.
    let _set = sandbox.set_value("outer", "1");
    let inner = sandbox.begin();
    let outcome = last_of(alloc, &mut sandbox, library, site, steps);
    sandbox.end(inner);
    sandbox.end(outer);
    outcome
}

// Returns the steps of the scenario that has these lines.
fn steps_of(alloc: Global, lines: &str) -> Result<Vec<Step>, Fail> {
    let text = format!(in alloc; "Feature: f\n  Scenario: s\n{}", lines)?;
    for case in cases_of(alloc, text.as_str())? {
        return Ok(case.steps);
    }
    Err("no scenario".into())
}

const LONG_NAME: &str =
    "Given a file named \"nnnnnnnnnnnnnnnnnnnnnnnnnnnnnnnnnnnnnnnnnnnnnnnnnnnnnnnnnnnnnnnnnnnnnnnnnnnnnnnnnnnnnnnnnnnnnnnnnnnnnnnnnnnnnnnnnnnnnnnnnnnnnnnnnnnnnnnnnnnnnnnnnnnnnnnnnnnnnnnnnnnnnnnnnnnnnnnnnnnnnnnnnnnnnnnnnnnnnnnnnnnnnnnnnnnnnnnnnnnnnnnnnnnnnnnnnnnnnnnnnnnnnnnnnnnnnnnn\" containing \"x\"";

// Each action, when it passes and for each reason for which it fails: its site, the steps that end with
// it, and its outcome.
const ACTED: [(Site, &str, Outcome); 63] = [
    (
        Site::Step,
        "Given a file named \"a\" with:\n\"\"\"\nx\n\"\"\"",
        Outcome::Passed,
    ),
    (
        Site::Step,
        "Given a file named \"a\" with:",
        Outcome::Failed(Reason::NoText),
    ),
    (
        Site::Step,
        "Given a file named \"a\" containing \"x\"\nAnd the file \"a\" is extended with \"y\"\nThen the file \"a\" should be \"xy\"",
        Outcome::Passed,
    ),
    (
        Site::Step,
        "Given a file named \"a\" containing \"x\"\nAnd the file \"a\" is extended with \"y\"",
        Outcome::Passed,
    ),
    (
        Site::Step,
        "Given the file \"a\" is extended with \"y\"",
        Outcome::Failed(Reason::Absent),
    ),
    (
        Site::Step,
        "Given the file \"a\" is extended with:",
        Outcome::Failed(Reason::NoText),
    ),
    (
        Site::Step,
        "Given a file named \"a\" containing \"x\"\nAnd the file \"a\" is removed",
        Outcome::Passed,
    ),
    (
        Site::Step,
        "Given a file named \"a\" containing \"x\"\nAnd the file \"a\" is removed\nThen the file \"a\" should not exist",
        Outcome::Passed,
    ),
    (
        Site::Step,
        "Given the file \"a\" is removed",
        Outcome::Failed(Reason::Absent),
    ),
    (
        Site::Step,
        "Given a file named \"a\" containing \"x\"\nAnd the file \"a\" is renamed to \"b\"",
        Outcome::Passed,
    ),
    (
        Site::Step,
        "Given a file named \"a\" containing \"x\"\nAnd the file \"a\" is renamed to \"b\"\nThen the file \"b\" should be \"x\"",
        Outcome::Passed,
    ),
    (
        Site::Step,
        "Given the file \"a\" is renamed to \"b\"",
        Outcome::Failed(Reason::Absent),
    ),
    (
        Site::Step,
        "Given these files:\n| name | text |\n| a | x |\n| b | y |",
        Outcome::Passed,
    ),
    (
        Site::Step,
        "Given these files:\n| name | text |\n| a | x |\n| b | y |\nThen the file \"b\" should be \"y\"",
        Outcome::Passed,
    ),
    (
        Site::Step,
        "Given these files:",
        Outcome::Failed(Reason::NoTable),
    ),
    (
        Site::Step,
        "Given these files:\n| text | name |\n| a | x |",
        Outcome::Failed(Reason::BadTable),
    ),
    (
        Site::Step,
        "Given a file named \"a\" containing \"x\"\nThen the file \"a\" should exist",
        Outcome::Passed,
    ),
    (
        Site::Step,
        "Then the file \"a\" should exist",
        Outcome::Failed(Reason::Absent),
    ),
    (
        Site::Step,
        "Then the file \"a\" should not exist",
        Outcome::Passed,
    ),
    (
        Site::Step,
        "Given a file named \"a\" containing \"x\"\nThen the file \"a\" should not exist",
        Outcome::Failed(Reason::Present),
    ),
    (
        Site::Step,
        "Given a file named \"a\" containing \"x\"\nThen the file \"a\" should be \"y\"",
        Outcome::Failed(Reason::Differs),
    ),
    (
        Site::Step,
        "Then the file \"a\" should be \"y\"",
        Outcome::Failed(Reason::Absent),
    ),
    (
        Site::Step,
        "Then the file \"a\" should be:",
        Outcome::Failed(Reason::NoText),
    ),
    (
        Site::Step,
        "Given a file named \"a\" containing \"xyz\"\nThen the file \"a\" should contain \"y\"",
        Outcome::Passed,
    ),
    (
        Site::Step,
        "Given a file named \"a\" containing \"xyz\"\nThen the file \"a\" should contain \"a\"",
        Outcome::Failed(Reason::Differs),
    ),
    (
        Site::Step,
        "Then the file \"a\" should contain \"a\"",
        Outcome::Failed(Reason::Absent),
    ),
    (
        Site::Step,
        "Then the file \"a\" should contain:",
        Outcome::Failed(Reason::NoText),
    ),
    (
        Site::Step,
        "Given the variable \"V\" is set to \"1\"",
        Outcome::Passed,
    ),
    (
        Site::Step,
        "Given the variable \"V\" is set to \"1\"\nThen the variable \"V\" should be \"1\"",
        Outcome::Passed,
    ),
    (
        Site::Step,
        "Given the variable \"V\" is set to \"1\"\nThen the variable \"V\" should be \"2\"",
        Outcome::Failed(Reason::Differs),
    ),
    (
        Site::Step,
        "Then the variable \"V\" should be \"1\"",
        Outcome::Failed(Reason::Absent),
    ),
    (
        Site::Step,
        "Given the variable \"V\" is set to \"1\"\nAnd the variable \"V\" is unset",
        Outcome::Passed,
    ),
    (
        Site::Step,
        "Given the variable \"V\" is unset",
        Outcome::Failed(Reason::Absent),
    ),
    (
        Site::Step,
        "Then the variable \"V\" should be unset",
        Outcome::Passed,
    ),
    (
        Site::Step,
        "Given the variable \"V\" is set to \"1\"\nThen the variable \"V\" should be unset",
        Outcome::Failed(Reason::Present),
    ),
    (
        Site::Step,
        "Given the value \"v\" is set to \"1\"",
        Outcome::Passed,
    ),
    (
        Site::Step,
        "Given the value \"v\" is set to \"1\"\nThen the value \"v\" should be \"1\"",
        Outcome::Passed,
    ),
    (
        Site::Step,
        "Then the value \"outer\" should be \"2\"",
        Outcome::Failed(Reason::Differs),
    ),
    (
        Site::Step,
        "Then the value \"v\" should be \"1\"",
        Outcome::Failed(Reason::Absent),
    ),
    (
        Site::Step,
        "Given the value \"v\" is set to \"1\"\nAnd the value \"v\" is deleted",
        Outcome::Passed,
    ),
    (
        Site::Step,
        "Given the value \"v\" is deleted",
        Outcome::Failed(Reason::Absent),
    ),
    (
        Site::Step,
        "Given the value \"outer\" is deleted",
        Outcome::Failed(Reason::OtherLayer),
    ),
    (
        Site::Step,
        "Then the value \"v\" should be absent",
        Outcome::Passed,
    ),
    (
        Site::Step,
        "Then the value \"outer\" should be absent",
        Outcome::Failed(Reason::Present),
    ),
    (
        Site::Step,
        "Given the number \"n\" is set to -7",
        Outcome::Passed,
    ),
    (
        Site::Step,
        "Given the number \"n\" is set to -7\nThen the number \"n\" should be -7",
        Outcome::Passed,
    ),
    (
        Site::Step,
        "Given the number \"outer\" grows by 2\nThen the value \"outer\" should be \"3\"",
        Outcome::Passed,
    ),
    (
        Site::Step,
        "Given the number \"outer\" grows by 2",
        Outcome::Passed,
    ),
    (
        Site::Step,
        "Given the number \"n\" grows by 2",
        Outcome::Failed(Reason::Absent),
    ),
    (
        Site::Step,
        "Given the value \"n\" is set to \"x\"\nAnd the number \"n\" grows by 2",
        Outcome::Failed(Reason::NotNumber),
    ),
    (
        Site::Step,
        "Given the number \"n\" is set to 9223372036854775807\nAnd the number \"n\" grows by 1",
        Outcome::Failed(Reason::OutOfRange),
    ),
    (
        Site::Step,
        "Then the number \"outer\" should be 2",
        Outcome::Failed(Reason::Differs),
    ),
    (
        Site::Step,
        "Then the number \"n\" should be 2",
        Outcome::Failed(Reason::Absent),
    ),
    (
        Site::Step,
        "Given the value \"n\" is set to \"x\"\nThen the number \"n\" should be 2",
        Outcome::Failed(Reason::NotNumber),
    ),
    (Site::Hook, "Given at cleanup it passes", Outcome::Passed),
    (
        Site::Step,
        "Given at cleanup nothing knows this",
        Outcome::Failed(Reason::NoStep),
    ),
    (
        Site::Cleanup,
        "Given at cleanup it passes",
        Outcome::Failed(Reason::NotHere),
    ),
    (
        Site::CaseHook,
        "Given the scenario is skipped",
        Outcome::Skip,
    ),
    (
        Site::Hook,
        "Given the scenario is skipped",
        Outcome::Failed(Reason::NotHere),
    ),
    (
        Site::Cleanup,
        "Given the scenario is skipped",
        Outcome::Failed(Reason::NotHere),
    ),
    (Site::Cleanup, "Then it passes", Outcome::Passed),
    (Site::Step, "Then it fails", Outcome::Failed(Reason::Asked)),
    (Site::Step, LONG_NAME, Outcome::Failed(Reason::BadName)),
];

#[test]
fn actions_have_their_outcomes(rt: HostRuntime) -> Result<(), Fail> {
    let library = default_library(rt.alloc())?;
    for (site, lines, wanted) in ACTED {
        let steps = steps_of(rt.alloc(), lines)?;
        let outcome = in_layers(rt.alloc(), &library, site, steps)?;
        equal(&rt, &outcome, &wanted);
    }
    Ok(())
}

// Returns steps that put a text of the greatest length into a file and extend it.
fn too_long(alloc: Global) -> Result<String, Fail> {
    let mut longest = String::from_str(alloc, "x")?;
    for _ in 0..20 {
        let again = longest.clone()?;
        longest.push_str(again.as_str())?;
    }
    let lines = format!(in alloc;
        "Given a file named \"a\" with:\n\"\"\"\n{}\n\"\"\"\nAnd the file \"a\" is extended with \"x\"",
        longest.as_str()
    )?;
    Ok(lines)
}

#[test]
fn texts_have_a_greatest_length(rt: HostRuntime) -> Result<(), Fail> {
    let library = default_library(rt.alloc())?;
    let lines = too_long(rt.alloc())?;
    let steps = steps_of(rt.alloc(), lines.as_str())?;
    let outcome = in_layers(rt.alloc(), &library, Site::Step, steps)?;
    equal(&rt, &outcome, &Outcome::Failed(Reason::TextTooLong));
    Ok(())
}

#[test]
fn arguments_are_those_of_a_step(rt: HostRuntime) -> Result<(), Fail> {
    let library = default_library(rt.alloc())?;
    let lines = "Given a file named \"a\" containing \"b\"\n\"\"\"\nc\n\"\"\"";
    for step in steps_of(rt.alloc(), lines)? {
        match library.find(rt.alloc(), step.step_type, step.text.as_str())? {
            Some(found) => {
                let used = used_of(&library, &found, &step.block);
                let given = used.arguments;
                same(&rt, given.name, "a");
                equal(&rt, &given.text, &Some("b"));
                equal(&rt, &given.number, &0);
            }
            None => return Err("no such step".into()),
        }
    }
    Ok(())
}

// Returns the number of rows below the header of the table of files under the step with these lines.
fn files_under(alloc: Global, lines: &str) -> Result<Option<usize>, Fail> {
    for step in steps_of(alloc, lines)? {
        if let Block::Table(rows) = &step.block {
            return Ok(files_below(rows).map(|files| files.len()));
        }
    }
    Err("no table".into())
}

#[test]
fn tables_of_files_have_a_header(rt: HostRuntime) -> Result<(), Fail> {
    let files = files_under(rt.alloc(), "Given a\n| name | text |\n| a | 1 |\n| b | 2 |")?;
    equal(&rt, &files, &Some(2));
    equal(
        &rt,
        &files_under(rt.alloc(), "Given a\n| name | text |")?,
        &Some(0),
    );
    equal(
        &rt,
        &files_under(rt.alloc(), "Given a\n| text | name |\n| a | 1 |")?,
        &None,
    );
    Ok(())
}
