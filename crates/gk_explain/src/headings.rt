//! Headings and explanations of what failed.
ghost use Rattle.std.specs.Prelude.{◌≡◌, ◌++◌};
ghost use Rattle.gk_run.specs.Results.{case_row, rule_row, feature_row};
ghost use Rattle.gk_report.specs.ReportTexts.{Pushes};
ghost use Rattle.gk_explain.specs.RowLines.{named_row, borrowed_row};
ghost use Rattle.gk_explain.specs.EventLines.{names_value};
ghost use Rattle.gk_explain.specs.SectionEvents.{section_lines, section_value};
ghost use Rattle.gk_explain.specs.Headings as spec;

use crate::event_lines::{Names, push_place};
use crate::row_lines::push_named_row;
use crate::section_events::SectionEvents;
use crate::shown::push_escaped;
use gk_report::push_ending;
use gk_run::{CaseResult, FeatureResult, RuleResult, Status};
use gk_select::ExampleRow;
use std::alloc::AllocError;

/// A scenario that has ended, or the hooks and cleanups of a rule, of a feature or of the run, and how they
/// ended.
#[derive(Clone, Copy)]
pub enum ExplainedEnd<'a> {
    Scenario(&'a CaseResult),
    Rule(&'a RuleResult),
    Feature(&'a FeatureResult),
    Run(Status),
}

/// Returns the status with which it ended. Doesn't allocate.
pub fn ended_status(ended: ExplainedEnd<'_>) -> Status
    ensures { result ≡ spec.ended_status ended.entry }
{
    match ended {
        ExplainedEnd::Scenario(case) => case.status,
        ExplainedEnd::Rule(rule) => rule.around,
        ExplainedEnd::Feature(feature) => feature.around,
        ExplainedEnd::Run(around) => around,
    }
}

// Appends the heading of a scenario of a file.
#[tactic(auto, unfolding(crate::specs::Headings::case_heading))]
fn push_case_heading(out: &mut String, source: &str, case: &CaseResult) -> Result<(), AllocError>
    ensures { Pushes out.old (spec.case_heading source.now (case_row case.now)) result out.new }
{
    push_place(out, source, case.line)?;
    out.push_str(case.keyword.as_str())?;
    out.push_str(": ")?;
    push_escaped(out, case.name.as_str())
}

// Appends the heading of the hooks and cleanups of a rule of a file.
#[tactic(auto, unfolding(crate::specs::Headings::rule_heading))]
fn push_rule_heading(out: &mut String, source: &str, rule: &RuleResult) -> Result<(), AllocError>
    ensures { Pushes out.old (spec.rule_heading source.now (rule_row rule.now)) result out.new }
{
    push_place(out, source, rule.line)?;
    out.push_str("Rule: (hooks and cleanups)")
}

// Appends the text after the name of a feature.
#[tactic(auto, unfolding(crate::specs::Headings::around_text))]
fn push_around(out: &mut String) -> Result<(), AllocError>
    ensures { Pushes out.old spec.around_text result out.new }
{
    out.push_str(" (hooks and cleanups)")
}

// Appends the heading of the hooks and cleanups of the feature of a file.
#[tactic(auto, unfolding(crate::specs::Headings::feature_heading))]
fn push_feature_heading(
    out: &mut String,
    source: &str,
    feature: &FeatureResult,
) -> Result<(), AllocError>
    ensures { Pushes out.old
        (spec.feature_heading source.now (feature_row feature.now)) result out.new }
{
    push_place(out, source, feature.line)?;
    out.push_str("Feature: ")?;
    push_escaped(out, feature.name.as_str())?;
    push_around(out)
}

// Appends the heading of the hooks and cleanups of the run.
#[tactic(auto, unfolding(crate::specs::Headings::run_heading))]
fn push_run_heading(out: &mut String) -> Result<(), AllocError>
    ensures { Pushes out.old spec.run_heading result out.new }
{
    out.push_str("Run: (hooks and cleanups)")
}

/// Appends the heading of what has ended, in the file with this name. An error comes only if a growth was
/// refused; a part of the heading may have been appended then.
pub fn push_heading(
    out: &mut String,
    source: &str,
    ended: ExplainedEnd<'_>,
) -> Result<(), AllocError>
    ensures { Pushes out.old (spec.heading_of source.now ended.entry) result out.new }
{
    match ended {
        ExplainedEnd::Scenario(case) => push_case_heading(out, source, case),
        ExplainedEnd::Rule(rule) => push_rule_heading(out, source, rule),
        ExplainedEnd::Feature(feature) => push_feature_heading(out, source, feature),
        ExplainedEnd::Run(_) => push_run_heading(out),
    }
}

/// Appends an explanation: the heading of what has ended with its status, the line that names its row if it
/// has one, the lines of events, and an empty line. An error comes only if a growth was refused; a part of it
/// may have been appended then.
#[tactic(auto, unfolding(crate::specs::Headings::explanation_text, gk_report::specs::PlainReport::status_line))]
pub fn push_explanation(
    out: &mut String,
    names: Names<'_>,
    ended: ExplainedEnd<'_>,
    row: Option<&ExampleRow>,
    section: &SectionEvents,
) -> Result<(), AllocError>
    ensures { Pushes out.old (spec.explanation_text
        (spec.heading_of names.entry.source.now ended.entry)
        (spec.ended_status ended.entry) (named_row (borrowed_row row.entry) ++
        section_lines (names_value names.entry) (section_value section.now))) result out.new }
{
    push_heading(out, names.source, ended)?;
    push_ending(out, ended_status(ended), None)?;
    push_named_row(out, row)?;
    section.push_lines(out, names)?;
    out.push_str("\n")
}
