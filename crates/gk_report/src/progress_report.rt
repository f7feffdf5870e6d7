//! The progress report: a line for each feature.
ghost use Rattle.std.specs.Prelude.{◌≡◌, [], ◌∷◌, map, cond};
ghost use Rattle.gk_run.specs.Results.{case_row, feature_row};
ghost use Rattle.gk_report.specs.ReportTexts.{is_hidden, Pushes};
ghost use Rattle.gk_report.specs.ProgressReport.{status_character, case_characters, progress_line};

use crate::report_texts::{hides, push_one_line, status_text};
use gk_run::{CaseResult, FeatureResult, Status};
use std::alloc::AllocError;

fn character_text(status: Status) -> &'static str
    ensures { result.now ≡ status_character status ∷ [] }
{
    match status {
        Status::Passed => ".",
        Status::Failed | Status::Undefined => "F",
        Status::Skipped => "S",
        Status::Untested => "U",
        Status::Memory => "M",
    }
}

// Appends the character of a scenario, unless it is hidden.
fn push_character(out: &mut String, no_skipped: bool, status: Status) -> Result<(), AllocError>
    ensures { Pushes out.old
        (cond (is_hidden no_skipped status) [] (status_character status ∷ [])) result out.new }
{
    if !hides(no_skipped, status) {
        out.push_str(character_text(status))?;
    }
    Ok(())
}

fn push_characters(
    out: &mut String,
    no_skipped: bool,
    cases: &[CaseResult],
) -> Result<(), AllocError>
    ensures { Pushes out.old (case_characters no_skipped (map case_row cases.now)) result out.new }
{
    for case in cases {
        push_character(out, no_skipped, case.status)?;
    }
    Ok(())
}

/// Appends the line of a feature. An error comes only if a growth was refused.
pub fn push_progress_line(
    out: &mut String,
    no_skipped: bool,
    feature: &FeatureResult,
) -> Result<(), AllocError>
    ensures { Pushes out.old (progress_line no_skipped (feature_row feature.now)) result out.new }
{
    push_one_line(out, feature.source.as_str())?;
    out.push_str("  ")?;
    push_characters(out, no_skipped, feature.cases.as_slice())?;
    out.push_str("  ")?;
    out.push_str(status_text(feature.status))?;
    out.push_str("\n")
}
