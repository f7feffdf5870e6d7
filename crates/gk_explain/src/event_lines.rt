//! What is kept of an event of a run, and its lines.
ghost use Rattle.std.specs.Prelude.{◌≡◌, ◌++◌, codes, IfOk};
ghost use Rattle.gk_report.specs.ReportTexts.{line_feed, Pushes};
ghost use Rattle.gk_explain.specs.Event.{event_value};
ghost use Rattle.gk_explain.specs.EventLines as spec;
ghost use Rattle.gk_explain.specs.EventLines.{names_value, mark_text, step_words, kept_value};
ghost use Rattle.gk_explain.specs.Shown.{escaped};

use crate::details::push_event_details;
use crate::event::Event;
use crate::nearest_lines::NearestLines;
use crate::shown::{push_escaped, push_file};
use gk_gherkin::Keyword;
use gk_report::push_ending;
use gk_run::{Mark, Part, Registration, reason_of, status_of};
use std::alloc::{AllocError, Global};

/// The names of the hooks file and of the feature file that contain the steps.
#[derive(Clone, Copy, Debug)]
pub struct Names<'a> {
    pub hooks: &'a str,
    pub source: &'a str,
}

/// Appends a place in a file: its name, and a line. An error comes only if a growth was refused; a part of it
/// may have been appended then.
#[tactic(auto, unfolding(crate::specs::EventLines::place_text))]
pub fn push_place(out: &mut String, file: &str, line: u32) -> Result<(), AllocError>
    ensures { Pushes out.old (spec.place_text file.now line) result out.new }
{
    push_file(out, file)?;
    write!(out, ":{line}: ")?;
    Ok(())
}

// Returns the name of the file that contains the steps of a part of a section.
fn file_of<'a>(names: Names<'a>, part: Part) -> &'a str
    ensures { result.now ≡ spec.file_of (names_value names.entry) part }
{
    match part {
        Part::Before | Part::After => names.hooks,
        Part::Steps => names.source,
    }
}

fn part_text(part: Part) -> &'static str
    ensures { result.now ≡ spec.part_text part }
{
    match part {
        Part::Before => "before: ",
        Part::Steps => "",
        Part::After => "after: ",
    }
}

// Appends the end of an event's line.
fn push_mark(out: &mut String, mark: Mark) -> Result<(), AllocError>
    ensures { Pushes out.old (codes " ... " ++ mark_text mark ++ line_feed) result out.new }
{
    push_ending(out, status_of(mark), reason_of(mark))
}

// Appends the keyword and the text of a step.
fn push_words(out: &mut String, keyword: &str, text: &str) -> Result<(), AllocError>
    ensures { Pushes out.old (keyword.now ++ codes " " ++ escaped text.now) result out.new }
{
    out.push_str(keyword)?;
    out.push_str(" ")?;
    push_escaped(out, text)
}

/// The keyword and the text of a step.
#[derive(Debug, Drop)]
struct KeptStep {
    keyword: Keyword,
    text: String,
}

/// What is kept of an event until its lines are made: the place of the step, or of the step that registered
/// the cleanup; the step, unless it is a cleanup; its mark; and the text below its line.
#[derive(Debug, Drop)]
pub struct KeptEvent {
    at: Registration,
    step: Option<KeptStep>,
    mark: Mark,
    details: String,
}

/// Returns what is kept of an event. Text is made only of one that failed. An error comes only if a growth was
/// refused.
pub fn kept_of(
    alloc: Global,
    nearest: &mut NearestLines<'_>,
    event: Event<'_>,
) -> Result<KeptEvent, AllocError>
    ensures kept { IfOk result (λ kept. kept_value kept
        ≡ spec.kept_of nearest.old (event_value event.entry)) }
    ensures library { nearest.new ≡ nearest.old }
{
    let mut details = String::new(alloc);
    push_event_details(alloc, &mut details, nearest, event)?;
    match event {
        Event::Step(event) => Ok(KeptEvent {
            at: Registration {
                part: event.stage.part,
                line: event.step.line,
            },
            step: Some(KeptStep {
                keyword: event.step.keyword,
                text: String::from_str(alloc, event.step.text.as_str())?,
            }),
            mark: event.done.mark,
            details,
        }),
        Event::Cleanup(event) => Ok(KeptEvent {
            at: event.cleanup.at,
            step: None,
            mark: Mark::Acted(event.outcome),
            details,
        }),
    }
}

// Appends the line of a step and its mark.
#[tactic(auto, unfolding(crate::specs::EventLines::line_of_step, gk_report::specs::PlainReport::status_line))]
fn push_step_line(
    out: &mut String,
    names: Names<'_>,
    at: Registration,
    step: &KeptStep,
    mark: Mark,
) -> Result<(), AllocError>
    ensures { Pushes out.old
        (spec.line_of_step (names_value names.entry) at (step_words step.now) mark)
        result out.new }
{
    out.push_str("  ")?;
    push_place(out, file_of(names, at.part), at.line)?;
    out.push_str(part_text(at.part))?;
    push_words(out, step.keyword.as_str(), step.text.as_str())?;
    push_mark(out, mark)
}

// Appends the line of a cleanup: the place where it was registered, and its mark.
#[tactic(auto, unfolding(crate::specs::EventLines::line_of_cleanup, gk_report::specs::PlainReport::status_line))]
fn push_cleanup_line(
    out: &mut String,
    names: Names<'_>,
    at: Registration,
    mark: Mark,
) -> Result<(), AllocError>
    ensures { Pushes out.old
        (spec.line_of_cleanup (names_value names.entry) at mark) result out.new }
{
    out.push_str("  ")?;
    push_place(out, file_of(names, at.part), at.line)?;
    out.push_str("cleanup")?;
    push_mark(out, mark)
}

// Appends the line of an event.
fn push_event_line(out: &mut String, names: Names<'_>, event: &KeptEvent) -> Result<(), AllocError>
    ensures { Pushes out.old
        (spec.event_line (names_value names.entry) (kept_value event.now)) result out.new }
{
    match &event.step {
        Some(step) => push_step_line(out, names, event.at, step, event.mark),
        None => push_cleanup_line(out, names, event.at, event.mark),
    }
}

/// Appends the lines of an event: its own, and the text below it. An error comes only if a growth was refused;
/// a part of the lines may have been appended then.
pub fn push_event_lines(
    out: &mut String,
    names: Names<'_>,
    event: &KeptEvent,
) -> Result<(), AllocError>
    ensures { Pushes out.old
        (spec.event_lines (names_value names.entry) (kept_value event.now)) result out.new }
{
    push_event_line(out, names, event)?;
    out.push_str(event.details.as_str())
}
