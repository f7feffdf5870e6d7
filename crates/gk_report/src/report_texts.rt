//! The texts that the formats share, and what each format leaves out.
#![tactic(auto, unfolding(crate::specs::ReportTexts::status_text, crate::specs::ReportTexts::reason_text))]

ghost use Rattle.std.specs.Prelude.{◌≡◌};
ghost use Rattle.gk_report.specs.ReportTexts as spec;
ghost use Rattle.gk_report.specs.ReportTexts.{is_hidden, one_line, Pushes};

use gk_run::{Reason, Status};
use std::alloc::AllocError;

/// Returns whether a feature or a scenario with this verdict is left out.
pub fn hides(no_skipped: bool, status: Status) -> bool
    ensures { result ≡ is_hidden no_skipped status }
{
    no_skipped && status == Status::Skipped
}

/// Returns a status as it is printed.
pub fn status_text(status: Status) -> &'static str
    ensures { result.now ≡ spec.status_text status }
{
    match status {
        Status::Passed => "passed",
        Status::Failed => "failed",
        Status::Skipped => "skipped",
        Status::Undefined => "undefined",
        Status::Untested => "untested",
        Status::Memory => "memory",
    }
}

/// Returns a reason as it is printed.
pub fn reason_text(reason: Reason) -> &'static str
    ensures { result.now ≡ spec.reason_text reason }
{
    match reason {
        Reason::Absent => "absent",
        Reason::Present => "present",
        Reason::Differs => "differs",
        Reason::TextTooLong => "text too long",
        Reason::BadName => "bad name",
        Reason::OtherLayer => "other layer",
        Reason::NoText => "no text",
        Reason::NoTable => "no table",
        Reason::BadTable => "bad table",
        Reason::NotNumber => "not a number",
        Reason::OutOfRange => "out of range",
        Reason::NoStep => "no such step",
        Reason::NotHere => "not allowed here",
        Reason::Asked => "fail step",
    }
}

// Appends a text that may have line feeds, with a backslash and `n` in place of each.
fn push_lines(out: &mut String, text: &str) -> Result<(), AllocError>
    ensures { Pushes out.old (one_line text.now) result out.new }
{
    let mut rest = text;
    while let Some((line, after)) = rest.split_once('\n') {
        out.push_str(line)?;
        out.push_str("\\n")?;
        rest = after;
    }
    out.push_str(rest)?;
    Ok(())
}

/// Appends a name or a text, with a backslash and `n` in place of each line feed. An error comes only if a growth was
/// refused.
#[inline(always)]
#[tactic(auto, using(crate::proofs::PushLemmas::one_line_plain, std::proofs::lemmas::Grind::common_steps))]
pub fn push_one_line(out: &mut String, text: &str) -> Result<(), AllocError>
    ensures { Pushes out.old (one_line text.now) result out.new }
{
    if text.as_bytes().contains(&b'\n') {
        return push_lines(out, text);
    }
    out.push_str(text)
}
