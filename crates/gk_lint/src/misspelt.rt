//! Description lines that were probably not meant as descriptions: those that begin like a keyword, and steps outside
//! of scenarios. Lines that prose surrounds are part of it, except for headings with their colons.
ghost use Rattle.std.specs.Prelude.{◌≡◌, ◌≤◌, ◌++◌, ◌∷◌, false, true, cond, None, Some, map, IfOk, OnOk, length};
ghost use Rattle.gk_lint.specs.Findings.{finding_values};
ghost use Rattle.gk_lint.specs.Likeness.{like};
ghost use Rattle.gk_lint.specs.Misspelt as spec;
ghost use Rattle.gk_lint.specs.Misspelt.{IsAbove};
ghost use Rattle.gk_lint.specs.declared.line_context.LineContext.TheVariants.{Elsewhere};

use crate::findings::{Finding, FindingKind, add_if};
use crate::likeness::{is_like_heading, like};
use crate::line_context::{LineContext, after, class_in};
use gk_gherkin::text::{begins_word, trim};
use gk_gherkin::{Class, Keyword, LONGEST_FILE};
use std::alloc::{AllocError, Global};

/// How a line is worded.
#[derive(Clone, Copy)]
pub enum Wording {
    /// A line of a description that begins like no keyword.
    Prose,
    /// A line of a description that is a heading of this keyword with its colon, but misspelt.
    Heading(Keyword),
    /// A line of a description that begins like this keyword otherwise.
    Like(Keyword),
    /// The words of a step where no step is possible.
    Outside {
        /// Whether they begin with a keyword that opens a group of steps.
        opens: bool,
    },
    /// A step that runs.
    Step,
    /// A line of any other kind, or of a doc string.
    Other,
}

/// A line's number and its wording.
#[derive(Clone, Copy)]
pub struct WordedLine {
    pub line: u32,
    pub wording: Wording,
}

// The keywords that a group of steps begins with, before others add further steps to it.
const OPENING_WORDS: [Keyword; 3] = [Keyword::Given, Keyword::When, Keyword::Then];

// Returns the wording of a description line with this trimmed text.
fn of_description(alloc: Global, text: &str) -> Result<Wording, AllocError>
    ensures { IfOk result (λ wording. wording ≡ spec.likened text.now (like text.now)) }
{
    match like(alloc, text)? {
        Some(keyword) => {
            if is_like_heading(alloc, text)? {
                Ok(Wording::Heading(keyword))
            } else {
                Ok(Wording::Like(keyword))
            }
        }
        None => Ok(Wording::Prose),
    }
}

// Returns whether a text begins with one of some keywords that a space or tab follows.
fn begins_with_one_of(text: &str, some: &[Keyword]) -> bool
    ensures { result ≡ spec.begins_with_one_of some.now text.now }
{
    some.iter().any(|word| begins_word(text, word.as_str()))
}

// Returns the wording of a step line with this trimmed text.
fn of_step(context: LineContext, text: &str) -> Wording
    ensures { result ≡ spec.of_step context text.now }
{
    match context {
        LineContext::Elsewhere => Wording::Outside {
            opens: begins_with_one_of(text, &OPENING_WORDS),
        },
        _ => Wording::Step,
    }
}

// Returns the wording of a line of this class in this context, by its trimmed text.
fn wording_of(
    alloc: Global,
    context: LineContext,
    class: Class,
    text: &str,
) -> Result<Wording, AllocError>
    ensures { IfOk result (λ wording. wording ≡ spec.wording context class text.now) }
{
    match class {
        Class::Other => of_description(alloc, text),
        Class::StepLine => Ok(of_step(context, text)),
        _ => Ok(Wording::Other),
    }
}

// Returns lines with their wordings.
fn worded(alloc: Global, lines: &[&str]) -> Result<Vec<WordedLine>, AllocError>
    requires { length lines.now ≤ LONGEST_FILE }
    ensures { IfOk result (λ all. all.items
        ≡ spec.worded Elsewhere 1 (map (λ line. line.now) lines.now)) }
{
    let mut all = Vec::new(alloc);
    let mut context = LineContext::Elsewhere;
    for (index, text) in lines.iter().enumerate() {
        let line = index as u32 + 1;
        let class = class_in(context, *text);
        let wording = wording_of(alloc, context, class, trim(*text))?;
        all.push(WordedLine { line, wording })?;
        context = after(context, class, *text);
    }
    Ok(all)
}

// Returns whether lines that begin like keywords are prose, by the lines below the first of them and by whether prose
// is directly above it.
fn is_prose(above: bool, below: &[WordedLine]) -> bool
    ensures { result ≡ spec.is_prose above below.now }
{
    let mut above = above;
    for line in below {
        match line.wording {
            Wording::Prose => return true,
            Wording::Step => return false,
            Wording::Heading(_) | Wording::Other => return above,
            Wording::Like(_) | Wording::Outside { .. } => above = false,
        }
    }
    above
}

// Returns whether a line that begins like a keyword may be prose.
fn begins_like(wording: Wording) -> bool
    ensures { result ≡ spec.begins_like wording }
{
    matches!(wording, Wording::Like(_) | Wording::Outside { .. })
}

// Adds the finding of a line, if it has one. `prose`: whether it is prose if it begins like a keyword.
fn add_meant(
    findings: &mut Vec<Finding<'_>>,
    line: &WordedLine,
    prose: bool,
) -> Result<(), AllocError>
    ensures { OnOk result (finding_values findings.new.items ≡ finding_values findings.old.items
        ++ spec.meant prose line.now.line line.now.wording) }
{
    match line.wording {
        Wording::Heading(keyword) => {
            add_if(findings, true, line.line, FindingKind::LikeKeyword(keyword))
        }
        Wording::Like(keyword) => {
            add_if(
                findings,
                !prose,
                line.line,
                FindingKind::LikeKeyword(keyword),
            )
        }
        Wording::Outside { opens } => {
            add_if(
                findings,
                !prose && opens,
                line.line,
                FindingKind::StepOutside,
            )
        }
        _ => Ok(()),
    }
}

/// What is known of the line above.
#[derive(Clone, Copy)]
pub struct Above {
    /// Whether it is prose that begins like no keyword.
    pub plain: bool,
    /// Whether it is prose, if it begins like a keyword. Lines that begin like keywords, one directly below the other,
    /// are prose together or not at all.
    pub group: Option<bool>,
}

// Returns whether a line that begins like a keyword is prose.
fn is_prose_here(above: Above, line: &WordedLine, below: &[WordedLine]) -> bool
    requires like { spec.begins_like line.now.wording ≡ true }
    requires known { IsAbove above (line.now ∷ below.now) }
    ensures { result ≡ spec.is_prose above.plain below.now }
{
    match above.group {
        Some(prose) => prose,
        None => is_prose(above.plain, below),
    }
}

// Adds the finding of a line, if it has one. Returns what the next line has to know.
fn add_at(
    findings: &mut Vec<Finding<'_>>,
    above: Above,
    line: &WordedLine,
    below: &[WordedLine],
) -> Result<Above, AllocError>
    requires { IsAbove above (line.now ∷ below.now) }
    ensures found { OnOk result (finding_values findings.new.items
        ≡ finding_values findings.old.items
        ++ spec.meant (spec.is_prose above.plain below.now) line.now.line line.now.wording) }
    ensures plain { IfOk result (λ next. next.plain ≡ spec.is_plain line.now.wording) }
    // A line that begins like a keyword and may be prose is in a group, and what is kept for the next line says whether the group is prose.
    ensures group { IfOk result (λ next. next.group ≡ cond (spec.begins_like line.now.wording)
        (Some (spec.is_prose above.plain below.now)) None) }
    ensures known { IfOk result (λ next. IsAbove next below.now) }
{
    if begins_like(line.wording) {
        let prose = is_prose_here(above, line, below);
        add_meant(findings, line, prose)?;
        return Ok(Above {
            plain: false,
            group: Some(prose),
        });
    }
    add_meant(findings, line, false)?;
    Ok(Above {
        plain: matches!(line.wording, Wording::Prose),
        group: None,
    })
}

// Adds the findings of lines.
fn add_of_worded(findings: &mut Vec<Finding<'_>>, all: &[WordedLine]) -> Result<(), AllocError>
    ensures { OnOk result (finding_values findings.new.items
        ≡ finding_values findings.old.items ++ spec.of_worded false all.now) }
{
    let mut above = Above {
        plain: false,
        group: None,
    };
    for (index, line) in all.iter().enumerate() {
        above = add_at(findings, above, line, &all[index + 1..])?;
    }
    Ok(())
}

/// Adds the findings of the misspelt ones of a file's lines. An error comes only if a growth was refused; some of the
/// findings may have been added then.
pub fn add_misspelt(
    findings: &mut Vec<Finding<'_>>,
    alloc: Global,
    lines: &[&str],
) -> Result<(), AllocError>
    requires { length lines.now ≤ LONGEST_FILE }
    ensures { OnOk result (finding_values findings.new.items
        ≡ finding_values findings.old.items
        ++ spec.misspelt (map (λ line. line.now) lines.now)) }
{
    let all = worded(alloc, lines)?;
    add_of_worded(findings, &all)
}
