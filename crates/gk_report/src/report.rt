//! The report of a run in a style: its head, the part of each feature, and its tail.
ghost use Rattle.std.specs.Prelude.{◌≡◌, ◌≢◌, [], bytes_eq, find, IfOk, IfErr, option_copied, string_bytes};
ghost use Rattle.std.specs.Option.{IfSome};
ghost use Rattle.gk_report.specs.Report as spec;
ghost use Rattle.gk_report.specs.ReportTexts.{AnswersText};
ghost use Rattle.gk_report.specs.Report.{IsTailOf, IsOneDocument, ReportsGrowByParts};

use crate::json_report::{json_head, json_tail};
use crate::plain_report::closing_text;
use crate::summary::Summary;
use gk_run::Status;
use std::alloc::{AllocError, Global};

/// The format of a report.
#[derive(Clone, Copy, Debug, PartialEq, Eq)]
pub enum Format {
    /// A line for each feature, scenario and step, and lines of counts. (behave's documentation: the plain
    /// formatter)
    Plain,
    /// A line for each feature with a character for each scenario, and lines of counts. (behave's
    /// documentation: the progress formatter)
    Progress,
    /// One JSON document on one line.
    Json,
}

/// All formats, in the order in which messages list them. The first is that of a report for which none is asked.
pub static FORMATS: [Format; 3] = [Format::Plain, Format::Progress, Format::Json];

impl Format {
    /// Returns the name of the format. (behave's documentation: formatters)
    pub fn name(self) -> &'static str
        ensures { result.now ≡ spec.format_name self }
    {
        match self {
            Format::Plain => "plain",
            Format::Progress => "progress",
            Format::Json => "json",
        }
    }
}

fn has_name(format: Format, name: &str) -> bool
    ensures { result ≡ bytes_eq (spec.format_name format) name.now }
{
    format.name() == name
}

// Returns the first of some formats that has this name.
fn first_named<'a>(formats: &'a [Format], name: &str) -> Option<&'a Format>
    ensures { option_copied result ≡ spec.format_among formats.now name.now }
{
    formats.iter().find(|format| has_name(**format, name))
}

/// Returns the format of this name, or `None` if no format has it. Doesn't allocate.
#[tactic(auto, using(crate::proofs::FormatLemmas::among_named))]
pub fn format_named(name: &str) -> Option<Format>
    ensures found { result ≡ spec.format_named name.now }
    ensures named { IfSome result (λ format. spec.format_name format ≡ name.now) }
{
    first_named(&FORMATS, name).copied()
}

/// How a report is written.
#[derive(Clone, Copy, Debug, PartialEq, Eq)]
pub struct Style {
    pub format: Format,
    /// Skipped features and scenarios are left out; they still count. (behave's documentation:
    /// `--no-skipped`)
    pub no_skipped: bool,
}

/// Returns the beginning of a report, which is empty in plain and progress. An error comes only if a growth was
/// refused, and never in place of an empty text.
#[tactic(auto, unfolding(crate::specs::JsonReport::json_head))]
pub fn head(alloc: Global, style: Style) -> Result<String, AllocError>
    ensures text { AnswersText result (spec.head style) }
    ensures needed { IfErr result (λ e. spec.head style ≢ []) }
{
    match style.format {
        Format::Plain | Format::Progress => Ok(String::new(alloc)),
        Format::Json => json_head(alloc),
    }
}

/// Returns the end of a report: the counts of a summary, and how the run's own hooks and cleanups ended (`around`). For
/// the report of a run, the summary is that of all its features, including hidden ones. An error comes only if a growth
/// was refused. (behave's documentation: summary)
#[tactic(auto, using(crate::proofs::SummaryLemmas::status_counted))]
pub fn tail(
    alloc: Global,
    style: Style,
    summary: &Summary,
    around: Status,
) -> Result<String, AllocError>
    ensures counts { AnswersText result (spec.tail_by style summary.now around) }
    ensures tail { IfOk result (λ text. IsTailOf style summary.now around (string_bytes text)) }
{
    match style.format {
        Format::Plain | Format::Progress => closing_text(alloc, summary, around),
        Format::Json => json_tail(alloc, summary, around),
    }
}

/// States that each JSON report is the compact text of one document, followed by a line feed.
#[tactic(auto, using(crate::proofs::ReportLemmas::one_document))]
pub fn json_reports_are_documents()
    ensures { IsOneDocument }
{}

/// States that the head, the parts in order and the tail make up the report. What is written after some features begins
/// the report of all results that begin with them.
#[tactic(auto, using(crate::proofs::ReportLemmas::grow_by_parts))]
pub fn reports_grow_by_parts()
    ensures { ReportsGrowByParts }
{}
