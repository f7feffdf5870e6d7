//! Details below the line of an event that failed.
ghost use Rattle.std.specs.Prelude.{◌≡◌, ◌++◌, length, option_copied};
ghost use Rattle.gk_gherkin.specs.Feature.{block_value};
ghost use Rattle.gk_steps.specs.Finding.{found_value};
ghost use Rattle.gk_world.specs.State.{state_of};
ghost use Rattle.gk_run.specs.Acting.{arguments_value, use_of, use_value};
ghost use Rattle.gk_run.specs.Events.{used_in};
ghost use Rattle.gk_run.specs.declared.results.Outcome.TheVariants.{Failed};
ghost use Rattle.gk_report.specs.ReportTexts.{Pushes};
ghost use Rattle.gk_explain.specs.Details as spec;
ghost use Rattle.gk_explain.specs.Event.{event_value};

use crate::differences::{Position, first_difference};
use crate::event::{CleanupEvent, Event, StepEvent};
use crate::nearest_lines::NearestLines;
use crate::shown::{push_shown, push_text, push_text_with};
use crate::tables::{push_table, refused_file};
use gk_run::{Arguments, Mark, Outcome, Reason, Used, used_of};
use gk_steps::{Action, ActsOn};
use gk_world::Sandbox;
use std::alloc::{AllocError, Global};

// Returns the text of a file or a variable, or the value that is seen, under a name.
fn held<'a>(acts_on: ActsOn, sandbox: &'a Sandbox, name: &str) -> Option<&'a str>
    ensures { option_copied result ≡ spec.held acts_on (state_of sandbox.now.now) name.now }
{
    match acts_on {
        ActsOn::File => sandbox.file(name),
        ActsOn::Variable => sandbox.env(name),
        ActsOn::Value => sandbox.value(name),
    }
}

// Returns the text that an action finds under the name that it is given; it is empty if there is none.
fn found_text<'a>(action: Action, given: &Arguments<'_>, sandbox: &'a Sandbox) -> &'a str
    ensures { result.now ≡ spec.found_text action (arguments_value given.now)
        (state_of sandbox.now.now) }
{
    held(action.row().acts_on, sandbox, given.name).unwrap_or("")
}

// Appends the line with the position at which two texts first differ.
#[tactic(auto, unfolding(crate::specs::Details::difference_line))]
fn push_position(out: &mut String, first: Position) -> Result<(), AllocError>
    ensures { Pushes out.old (spec.difference_line first) result out.new }
{
    let Position { line, column } = first;
    write!(
        out,
        "      first difference: line {line}, column {column}\n"
    )?;
    Ok(())
}

// Appends the line with an expected number.
fn push_expected(out: &mut String, number: i64) -> Result<(), AllocError>
    ensures { Pushes out.old (spec.expected_number number) result out.new }
{
    write!(out, "      expected {number}\n")?;
    Ok(())
}

// Appends an expected text and a found text.
#[tactic(auto, unfolding(crate::specs::Details::both))]
fn push_both(alloc: Global, out: &mut String, expected: &str, found: &str) -> Result<(), AllocError>
    ensures { Pushes out.old (spec.both expected.now found.now) result out.new }
{
    push_text(alloc, out, "expected", expected)?;
    push_text(alloc, out, "found   ", found)
}

// Appends both texts, each with the line in which they first differ among its shown lines, and the position at
// which they first differ.
#[tactic(auto, unfolding(crate::specs::Details::compared))]
fn push_compared(
    alloc: Global,
    out: &mut String,
    expected: &str,
    found: &str,
) -> Result<(), AllocError>
    ensures { Pushes out.old (spec.compared expected.now found.now) result out.new }
{
    let first = first_difference(expected, found);
    push_text_with(alloc, out, "expected", first, expected)?;
    push_text_with(alloc, out, "found   ", first, found)?;
    push_position(out, first)
}

// Appends a text that was expected in another text, and that other text.
#[tactic(auto, unfolding(crate::specs::Details::lacking))]
fn push_lacking(
    alloc: Global,
    out: &mut String,
    expected: &str,
    found: &str,
) -> Result<(), AllocError>
    ensures { Pushes out.old (spec.lacking expected.now found.now) result out.new }
{
    push_both(alloc, out, expected, found)?;
    out.push_str("      the found text doesn't contain the expected text\n")
}

// Appends an expected number, and the text of the found value.
#[tactic(auto, using(std::proofs::lemmas::Result::on_ok_weaker), unfolding(crate::specs::Details::unequal))]
fn push_unequal(
    alloc: Global,
    out: &mut String,
    expected: i64,
    found: &str,
) -> Result<(), AllocError>
    ensures { Pushes out.old (spec.unequal expected found.now) result out.new }
{
    push_expected(out, expected)?;
    push_text(alloc, out, "found   ", found)
}

// Appends what an action expected and what it found instead.
fn push_difference(
    alloc: Global,
    out: &mut String,
    action: Action,
    given: &Arguments<'_>,
    found: &str,
) -> Result<(), AllocError>
    ensures { Pushes out.old
        (spec.difference action (arguments_value given.now) found.now) result out.new }
{
    match action {
        Action::FileContains => push_lacking(alloc, out, given.text.unwrap_or(""), found),
        Action::NumberIs => push_unequal(alloc, out, given.number, found),
        _ => push_compared(alloc, out, given.text.unwrap_or(""), found),
    }
}

fn word_of(acts_on: ActsOn) -> &'static str
    ensures { result.now ≡ spec.word_of acts_on }
{
    match acts_on {
        ActsOn::File => "file",
        ActsOn::Variable => "variable",
        ActsOn::Value => "value",
    }
}

// Appends the line that says that nothing exists under a name.
#[tactic(auto, unfolding(crate::specs::Details::absent_line))]
fn push_absent(out: &mut String, acts_on: ActsOn, name: &str) -> Result<(), AllocError>
    ensures { Pushes out.old (spec.absent_line acts_on name.now) result out.new }
{
    out.push_str("      there is no ")?;
    out.push_str(word_of(acts_on))?;
    out.push_str(" \"")?;
    push_shown(out, name)?;
    out.push_str("\"\n")
}

// Appends the line with a number that is to be added.
fn push_added(out: &mut String, number: i64) -> Result<(), AllocError>
    ensures { Pushes out.old (spec.added_number number) result out.new }
{
    write!(out, "      to be added: {number}\n")?;
    Ok(())
}

// Appends the text of a value, and the number that can't be added to it.
#[tactic(auto, unfolding(crate::specs::Details::sum_out_of_range))]
fn push_sum(alloc: Global, out: &mut String, found: &str, number: i64) -> Result<(), AllocError>
    ensures { Pushes out.old (spec.sum_out_of_range found.now number) result out.new }
{
    push_text(alloc, out, "found   ", found)?;
    push_added(out, number)
}

// Appends the text of a value that is set only in an outer layer.
#[tactic(auto, unfolding(crate::specs::Details::in_outer_layer))]
fn push_in_outer_layer(alloc: Global, out: &mut String, found: &str) -> Result<(), AllocError>
    ensures { Pushes out.old (spec.in_outer_layer found.now) result out.new }
{
    push_text(alloc, out, "found   ", found)?;
    out.push_str("      only an outer layer has set it\n")
}

// Returns the name that an action gives to what it changes.
fn given_name<'a>(action: Action, given: &Arguments<'a>) -> &'a str
    ensures { result.now ≡ spec.given_name action (arguments_value given.now) }
{
    match action {
        Action::RenameFile => given.to,
        Action::WriteFiles => refused_file(given.block).name,
        _ => given.name,
    }
}

// Appends the line with the number of bytes of a bad name.
#[tactic(auto, unfolding(crate::specs::Details::name_length))]
fn push_name_length(out: &mut String, count: usize) -> Result<(), AllocError>
    ensures { Pushes out.old (spec.name_length count) result out.new }
{
    write!(
        out,
        "      the name has {count} bytes; 1 to 255 are allowed\n"
    )?;
    Ok(())
}

// Returns the number of bytes of a text with `more` at its end.
fn joined_len(text: &str, more: &str) -> u128
    ensures { result ≡ length (text.now ++ more.now) }
{
    text.len() as u128 + more.len() as u128
}

// Returns the number of bytes of the text that an action gives to what it changes.
fn new_text_len(action: Action, given: &Arguments<'_>, sandbox: &Sandbox) -> u128
    ensures { result ≡ length (spec.new_text action (arguments_value given.now)
        (state_of sandbox.now.now)) }
{
    let text = given.text.unwrap_or("");
    match action {
        Action::AppendFile => joined_len(sandbox.file(given.name).unwrap_or(""), text),
        Action::WriteFiles => joined_len("", refused_file(given.block).text),
        _ => joined_len("", text),
    }
}

// Appends the line with the number of bytes of a text that is too long.
#[tactic(auto, unfolding(crate::specs::Details::text_length))]
fn push_text_length(out: &mut String, count: u128) -> Result<(), AllocError>
    ensures { Pushes out.old (spec.text_length count) result out.new }
{
    write!(
        out,
        "      the text has {count} bytes; at most 1048576 are allowed\n"
    )?;
    Ok(())
}

// Appends what the reason of a failed action means, from the sandbox that it left.
fn push_details(
    alloc: Global,
    out: &mut String,
    nearest: &mut NearestLines<'_>,
    used: &Used<'_>,
    reason: Reason,
    sandbox: &Sandbox,
) -> Result<(), AllocError>
    ensures pushed { Pushes out.old (spec.details nearest.old (use_value used.now) reason
        (state_of sandbox.now.now)) result out.new }
    ensures kept { nearest.new ≡ nearest.old }
{
    let action = used.action;
    let given = &used.arguments;
    let found = found_text(action, given, sandbox);
    match reason {
        Reason::Differs => push_difference(alloc, out, action, given, found),
        Reason::Absent => push_absent(out, action.row().acts_on, given.name),
        Reason::Present | Reason::NotNumber => push_text(alloc, out, "found   ", found),
        Reason::OutOfRange => push_sum(alloc, out, found, given.number),
        Reason::OtherLayer => push_in_outer_layer(alloc, out, found),
        Reason::BadTable => push_table(out, given.block),
        Reason::BadName => push_name_length(out, given_name(action, given).len()),
        Reason::TextTooLong => push_text_length(out, new_text_len(action, given, sandbox)),
        Reason::NoStep => nearest.push(alloc, out, given.step),
        _ => Ok(()),
    }
}

// Appends what a reason means for the action of a step, if one was carried out.
fn push_reason(
    alloc: Global,
    out: &mut String,
    nearest: &mut NearestLines<'_>,
    event: &StepEvent<'_>,
    reason: Reason,
) -> Result<(), AllocError>
    ensures pushed { Pushes out.old (spec.details_if_used nearest.old
        (used_in event.now.done.now) (Failed reason)
        (state_of event.now.sandbox.now.now)) result out.new }
    ensures kept { nearest.new ≡ nearest.old }
{
    match event.done.used {
        Some(used) => push_details(alloc, out, nearest, used, reason, event.sandbox),
        None => Ok(()),
    }
}

// Appends what a reason means for a cleanup.
fn push_cleanup_reason(
    alloc: Global,
    out: &mut String,
    nearest: &mut NearestLines<'_>,
    event: &CleanupEvent<'_>,
    reason: Reason,
) -> Result<(), AllocError>
    ensures pushed { Pushes out.old (spec.outcome_details nearest.old
        (use_of nearest.old (found_value event.now.cleanup.now.found)
        (block_value event.now.cleanup.now.block)) (Failed reason)
        (state_of event.now.sandbox.now.now)) result out.new }
    ensures kept { nearest.new ≡ nearest.old }
{
    let cleanup = event.cleanup;
    let used = used_of(nearest.library(), &cleanup.found, &cleanup.block);
    push_details(alloc, out, nearest, &used, reason, event.sandbox)
}

/// Appends the text below the line of an event: what the reason means if its action failed, or the nearest
/// entry if a step is undefined. An error comes only if a growth was refused; a part of it may have been
/// appended then.
#[tactic(auto, unfolding(crate::specs::Details::event_details))]
pub fn push_event_details(
    alloc: Global,
    out: &mut String,
    nearest: &mut NearestLines<'_>,
    event: Event<'_>,
) -> Result<(), AllocError>
    ensures pushed { Pushes out.old
        (spec.event_details nearest.old (event_value event.entry)) result out.new }
    ensures kept { nearest.new ≡ nearest.old }
{
    match event {
        Event::Step(step) => match step.done.mark {
            Mark::Acted(Outcome::Failed(why)) => push_reason(alloc, out, nearest, &step, why),
            Mark::Undefined => nearest.push(alloc, out, step.step.text.as_str()),
            _ => Ok(()),
        },
        Event::Cleanup(cleanup) => match cleanup.outcome {
            Outcome::Failed(why) => push_cleanup_reason(alloc, out, nearest, &cleanup, why),
            _ => Ok(()),
        },
    }
}
