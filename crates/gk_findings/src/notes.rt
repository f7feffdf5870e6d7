//! Notes below faults and findings, and the lines that they quote.
ghost use Rattle.std.specs.Prelude.{◌≡◌, ◌≤◌, ◌-◌, length, map, IfOk};
ghost use Rattle.std.specs.Str.Lines.{lines};
ghost use Rattle.gk_gherkin.specs.Lines as of_lines;
ghost use Rattle.gk_report.specs.ReportTexts.{Pushes};
ghost use Rattle.gk_explain.specs.Shown.{unquoted};
ghost use Rattle.gk_findings.specs.Notes as spec;

use gk_explain::push_unquoted;
use std::alloc::{AllocError, Global};

/// Appends a text below a fault or a finding, on a separate line.
#[tactic(auto, unfolding(crate::specs::Notes::note))]
pub fn push_note(out: &mut String, text: &str) -> Result<(), AllocError>
    ensures { Pushes out.old (spec.note text.now) result out.new }
{
    out.push_str("    ")?;
    out.push_str(text)?;
    out.push_str("\n")
}

/// Appends a line of a file, or another text of the user's, below a fault or a finding.
#[tactic(auto, unfolding(crate::specs::Notes::quoted))]
pub fn push_quoted(out: &mut String, text: &str) -> Result<(), AllocError>
    ensures { Pushes out.old (spec.quoted (unquoted text.now)) result out.new }
{
    out.push_str("    | ")?;
    push_unquoted(out, text)?;
    out.push_str("\n")
}

/// Returns a text without a leading byte-order mark.
pub fn without_mark(text: &str) -> &str
    ensures { result.now ≡ of_lines.without_mark text.now }
{
    if text.starts_with("\u{feff}") {
        &text[3..]
    } else {
        text
    }
}

/// Returns the lines of a text. An error comes only if a growth was refused.
pub fn text_lines(alloc: Global, text: &str) -> Result<Vec<&str>, AllocError>
    ensures lines { IfOk result (λ found. map (λ line. line.now) found.items ≡ lines text.now) }
    ensures within { IfOk result (λ found. length found.items ≤ length text.now) }
{
    text.lines().collect(alloc)
}

/// Returns the position of a line, counted from 0.
pub fn position_of(line: u32) -> usize
    ensures { result ≡ line - 1 }
{
    line.saturating_sub(1) as usize
}
