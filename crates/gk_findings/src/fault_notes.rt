//! The notes below a fault: what it is about, and a hint on how to fix it. Each is a line that begins with four spaces;
//! invisible characters are escapes. An error comes only if a growth was refused; a part of the notes may have been
//! appended then.
ghost use Rattle.std.specs.Prelude.{◌≡◌, ◌-◌, option_map, slice_get};
ghost use Rattle.std.specs.Str.Lines.{lines};
ghost use Rattle.gk_report.specs.ReportTexts.{Pushes};
ghost use Rattle.gk_request.specs.Source.{source_value};
ghost use Rattle.gk_request.specs.Request.{files_value};
ghost use Rattle.gk_findings.specs.Notes.{quote};
ghost use Rattle.gk_findings.specs.FaultNotes as spec;

use crate::hints::{EnvMistake, UNREADABLE, env_hint, hint_in};
use crate::notes::{push_note, push_quoted};
use crate::tag_hints::tags_hint;
use gk_explain::push_unquoted;
use gk_request::{RunFault, Source, SuiteFiles, file_at_fault, line_at_fault};
use std::alloc::{AllocError, Global};

// Returns what follows the name in an argument with this mistake.
fn after_name(mistake: EnvMistake) -> &'static str
    ensures { result.now ≡ spec.after_name mistake }
{
    match mistake {
        EnvMistake::NoEquals => "",
        EnvMistake::BadName | EnvMistake::LongValue => "=",
    }
}

/// Appends the notes below the fault of an argument of `--env`: the argument up to its `=`, and a hint.
#[tactic(auto, unfolding(crate::specs::Notes::quoted))]
pub fn push_env_notes(out: &mut String, mistake: EnvMistake, name: &str) -> Result<(), AllocError>
    ensures { Pushes out.old (spec.env_notes mistake name.now) result out.new }
{
    out.push_str("    | ")?;
    push_unquoted(out, name)?;
    out.push_str(after_name(mistake))?;
    out.push_str("\n")?;
    push_note(out, env_hint(mistake))
}

/// Appends the note below a file that can't be opened or read: a hint.
pub fn push_unreadable_note(out: &mut String) -> Result<(), AllocError>
    ensures { Pushes out.old spec.unreadable_note result out.new }
{
    push_note(out, UNREADABLE)
}

// Returns the line number `line`, counted from 1, of a text.
fn line_of(text: &str, line: u32) -> Option<&str>
    ensures { option_map (λ part. part.now) result ≡ slice_get (lines text.now) (line - 1) }
{
    text.lines().nth(line.saturating_sub(1) as usize)
}

// Appends the line of a file with this number, if the file has it.
fn push_line(out: &mut String, alloc: Global, bytes: &[u8], line: u32) -> Result<(), AllocError>
    ensures { Pushes out.old (quote (spec.line_text bytes.now line)) result out.new }
{
    let text = String::from_utf8_lossy(alloc, bytes)?;
    match line_of(text.as_str(), line) {
        Some(text) => push_quoted(out, text),
        None => Ok(()),
    }
}

// Appends the line of a file, if both are known.
fn push_quote(
    out: &mut String,
    alloc: Global,
    file: Option<&Source>,
    line: Option<u32>,
) -> Result<(), AllocError>
    ensures { Pushes out.old
        (spec.quote_of (option_map (λ file. source_value file.now) file.entry) line)
        result out.new }
{
    match file {
        Some(file) => match line {
            Some(line) => push_line(out, alloc, file.bytes.as_slice(), line),
            None => Ok(()),
        },
        None => Ok(()),
    }
}

// Appends the notes below a fault of a file, or of none.
fn push_file_notes(
    out: &mut String,
    alloc: Global,
    files: &SuiteFiles,
    fault: RunFault,
) -> Result<(), AllocError>
    ensures { Pushes out.old
        (spec.file_notes (files_value files.now) fault) result out.new }
{
    let file = file_at_fault(files, fault);
    push_quote(out, alloc, file, line_at_fault(fault))?;
    let text = hint_in(alloc, file, fault)?;
    push_note(out, text.as_str())
}

/// Appends the notes below a fault of a run. If `tags` is given, the fault is that this text of tags spells no rule:
/// the notes are the text and where it breaks. Otherwise they are the line that the fault names, if it names one, and a
/// hint. `Write` and `Memory` have none.
pub fn push_notes(
    out: &mut String,
    alloc: Global,
    tags: Option<&str>,
    files: &SuiteFiles,
    fault: RunFault,
) -> Result<(), AllocError>
    ensures { Pushes out.old (spec.notes (option_map (λ text. text.now) tags.entry)
        (files_value files.now) fault) result out.new }
{
    match tags {
        Some(text) => {
            push_quoted(out, text)?;
            let hint = tags_hint(alloc, text)?;
            push_note(out, hint.as_str())
        }
        None => match fault {
            RunFault::Write | RunFault::Memory => Ok(()),
            _ => push_file_notes(out, alloc, files, fault),
        },
    }
}
