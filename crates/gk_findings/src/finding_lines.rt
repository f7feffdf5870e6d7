//! The output lines of findings, and the notes below them.
ghost use Rattle.std.specs.Prelude.{◌≡◌, ◌-◌, map, option_map, slice_get};
ghost use Rattle.gk_steps.specs.Finding.{entry_value};
ghost use Rattle.gk_report.specs.ReportTexts.{Pushes};
ghost use Rattle.gk_lint.specs.Findings.{finding_value, finding_values, hint_value};
ghost use Rattle.gk_findings.specs.FindingLines as spec;

use crate::notes::{position_of, push_note, push_quoted};
use gk_explain::{push_entry, push_file, push_place, push_unquoted, type_word};
use gk_gherkin::text::trim;
use gk_lint::{EntryHints, Finding, FindingKind, Hint};
use gk_steps::Entry;
use std::alloc::{AllocError, Global};

/// A library as notes name it.
#[derive(Drop)]
pub struct NotedLibrary<'a> {
    /// The library, with the words of its patterns.
    pub hints: EntryHints<'a>,
    /// Whether steps are looked up in it.
    pub steps: bool,
    /// The name of its file.
    pub name: &'a str,
}

// Appends the line of a finding in a file of this name.
fn push_finding(
    out: &mut String,
    alloc: Global,
    name: &str,
    finding: &Finding<'_>,
) -> Result<(), AllocError>
    ensures { Pushes out.old
        (spec.finding_line name.now (finding_value finding.now)) result out.new }
{
    push_place(out, name, finding.line)?;
    let text = finding.kind.text(alloc)?;
    out.push_str(text.as_str())?;
    out.push_str("\n")
}

// Returns the words after the type of an entry for steps of another type than that of a step with this finding.
#[tactic(auto, unfolding(crate::specs::FindingLines::after_type))]
fn after_type(kind: FindingKind) -> &'static str
    ensures { result.now ≡ spec.after_type kind }
{
    match kind {
        FindingKind::CleanupWithoutStep => " entry; a cleanup needs step",
        _ => " entry; step would match every keyword",
    }
}

// Appends the note that names a column.
#[tactic(auto, unfolding(crate::specs::FindingLines::column_note))]
fn push_column_note(out: &mut String, alloc: Global, column: &str) -> Result<(), AllocError>
    ensures { Pushes out.old (spec.column_note column.now) result out.new }
{
    let mut text = String::from_str(alloc, "the nearest column is: ")?;
    push_unquoted(&mut text, column)?;
    push_note(out, text.as_str())
}

// Appends the note that names the nearest entry.
#[tactic(auto, unfolding(crate::specs::FindingLines::nearest_note))]
fn push_nearest_note(out: &mut String, alloc: Global, entry: &Entry) -> Result<(), AllocError>
    ensures { Pushes out.old (spec.nearest_note (entry_value entry.now)) result out.new }
{
    let mut text = String::from_str(alloc, "the nearest entry is: ")?;
    push_entry(&mut text, entry)?;
    push_note(out, text.as_str())
}

#[tactic(auto, unfolding(crate::specs::FindingLines::matches_line))]
fn push_matches_line(out: &mut String, line: u32) -> Result<(), AllocError>
    ensures { Pushes out.old (spec.matches_line line) result out.new }
{
    write!(out, "matches line {line} of ")?;
    Ok(())
}

// Appends a line of a file of this name, as a part of a sentence.
fn push_line_in_file(out: &mut String, name: &str, line: u32) -> Result<(), AllocError>
    ensures { Pushes out.old (spec.line_in_file name.now line) result out.new }
{
    push_matches_line(out, line)?;
    push_unquoted(out, name)
}

// Appends the words for an entry for steps of another type, with these words after its type.
#[tactic(auto, unfolding(crate::specs::FindingLines::other_type))]
fn push_other_type(out: &mut String, after: &str, entry: &Entry) -> Result<(), AllocError>
    ensures { Pushes out.old (spec.other_type after.now (entry_value entry.now)) result out.new }
{
    out.push_str(", which is a ")?;
    out.push_str(type_word(entry.step_type))?;
    out.push_str(after)
}

// Appends the note that an entry of the library file of this name matches but is for other steps.
fn push_other_type_note(
    out: &mut String,
    alloc: Global,
    after: &str,
    library: &str,
    entry: &Entry,
) -> Result<(), AllocError>
    ensures { Pushes out.old
        (spec.other_type_note after.now library.now (entry_value entry.now)) result out.new }
{
    let mut text = String::new(alloc);
    push_line_in_file(&mut text, library, entry.line)?;
    push_other_type(&mut text, after, entry)?;
    push_note(out, text.as_str())
}

// Appends the note on what the author of a step may have meant.
fn push_hint_note(
    out: &mut String,
    alloc: Global,
    after: &str,
    library: &str,
    hint: Hint<'_>,
) -> Result<(), AllocError>
    ensures { Pushes out.old
        (spec.hint_note after.now library.now (hint_value hint.entry)) result out.new }
{
    match hint {
        Hint::Nothing => Ok(()),
        Hint::Column(column) => push_column_note(out, alloc, column),
        Hint::OtherType(entry) => push_other_type_note(out, alloc, after, library, entry),
        Hint::Nearest(entry) => push_nearest_note(out, alloc, entry),
    }
}

// Returns the line with a number, counted from 1.
fn line_at<'a>(lines: &[&'a str], line: u32) -> Option<&'a str>
    ensures { option_map (λ text. text.now) result
        ≡ slice_get (map (λ text. text.now) lines.now) (line - 1) }
{
    lines.get(position_of(line)).copied()
}

// Appends the line with a number, if there is one.
fn push_line(out: &mut String, lines: &[&str], line: u32) -> Result<(), AllocError>
    ensures { Pushes out.old
        (spec.line_note (slice_get (map (λ text. text.now) lines.now) (line - 1)))
        result out.new }
{
    match line_at(lines, line) {
        Some(text) => push_quoted(out, trim(text)),
        None => Ok(()),
    }
}

// Appends the line of a finding, among these lines, if it is a step whose text or whose cleanup's text finds nothing.
fn push_step_line(
    out: &mut String,
    lines: &[&str],
    line: u32,
    kind: FindingKind,
) -> Result<(), AllocError>
    ensures { Pushes out.old
        (spec.step_line (map (λ text. text.now) lines.now) line kind) result out.new }
{
    match kind {
        FindingKind::UndefinedStep | FindingKind::CleanupWithoutStep => push_line(out, lines, line),
        _ => Ok(()),
    }
}

// Appends the line of a finding and its notes.
fn push_noted(
    out: &mut String,
    alloc: Global,
    library: &str,
    name: &str,
    lines: &[&str],
    finding: &Finding<'_>,
) -> Result<(), AllocError>
    ensures { Pushes out.old (spec.noted library.now name.now
        (map (λ text. text.now) lines.now) (finding_value finding.now)) result out.new }
{
    push_finding(out, alloc, name, finding)?;
    push_step_line(out, lines, finding.line, finding.kind)?;
    push_hint_note(out, alloc, after_type(finding.kind), library, finding.hint)
}

/// Appends the lines of findings in a file of this name and with these lines, one after the other, each with its notes.
/// `library` is the name of the library file. An error comes only if a growth was refused; a part of the lines may have
/// been appended then.
pub fn push_noted_findings(
    out: &mut String,
    alloc: Global,
    library: &str,
    name: &str,
    lines: &[&str],
    findings: &[Finding<'_>],
) -> Result<(), AllocError>
    ensures { Pushes out.old (spec.noted_lines library.now name.now
        (map (λ text. text.now) lines.now) (finding_values findings.now)) result out.new }
{
    for finding in findings {
        push_noted(out, alloc, library, name, lines, finding)?;
    }
    Ok(())
}

/// Appends the lines of findings in a file of this name, one after the other, without notes. An error comes only if a
/// growth was refused; a part of the lines may have been appended then.
pub fn push_findings(
    out: &mut String,
    alloc: Global,
    name: &str,
    findings: &[Finding<'_>],
) -> Result<(), AllocError>
    ensures { Pushes out.old
        (spec.finding_lines name.now (finding_values findings.now)) result out.new }
{
    for finding in findings {
        push_finding(out, alloc, name, finding)?;
    }
    Ok(())
}

/// Appends the line that counts the unused entries of a library file of this name, if there are any. An error comes
/// only if a growth was refused; a part of the line may have been appended then.
#[tactic(auto, unfolding(crate::specs::FindingLines::count_line))]
pub fn push_count_line(
    out: &mut String,
    name: &str,
    unused: usize,
    entries: usize,
) -> Result<(), AllocError>
    ensures { Pushes out.old (spec.count_line name.now unused entries) result out.new }
{
    if unused == 0 {
        return Ok(());
    }
    push_file(out, name)?;
    write!(out, ": no step finds {unused} of {entries} entries\n")?;
    Ok(())
}

// Appends the line for a tag of `--tags` that occurs nowhere.
#[tactic(auto, unfolding(crate::specs::FindingLines::tag_line))]
fn push_tag_line(out: &mut String, tag: &str) -> Result<(), AllocError>
    ensures { Pushes out.old (spec.tag_line tag.now) result out.new }
{
    out.push_str("--tags ")?;
    push_unquoted(out, tag)?;
    out.push_str(": no such tag\n")
}

/// Appends a line for each of some tags of `--tags` that occur nowhere. An error comes only if a growth was refused; a
/// part of the lines may have been appended then.
pub fn push_tag_lines(out: &mut String, tags: &[&str]) -> Result<(), AllocError>
    ensures { Pushes out.old (spec.tag_lines (map (λ t. t.now) tags.now)) result out.new }
{
    for tag in tags {
        push_tag_line(out, *tag)?;
    }
    Ok(())
}

// Appends the line for a `--line` that chooses nothing.
fn push_idle_line(out: &mut String, line: u32) -> Result<(), AllocError>
    ensures { Pushes out.old (spec.idle_line line) result out.new }
{
    write!(out, "--line {line}: chooses no scenario\n")?;
    Ok(())
}

/// Appends a line for each of some numbers of `--line` that choose nothing. An error comes only if a growth was
/// refused; a part of the lines may have been appended then.
pub fn push_idle_lines(out: &mut String, lines: &[u32]) -> Result<(), AllocError>
    ensures { Pushes out.old (spec.idle_lines lines.now) result out.new }
{
    for line in lines {
        push_idle_line(out, *line)?;
    }
    Ok(())
}
