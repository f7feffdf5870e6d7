//! The text of a doc string.
ghost use Rattle.std.specs.Prelude.{option_map, Ok, ◌≡◌, ◌-◌, ◌++◌, ◌&&◌, drop, min};
ghost use Rattle.std.specs.List.{prefix_len};
ghost use Rattle.std.specs.String.{string_bytes};
ghost use Rattle.gk_gherkin.specs.Lines.{borrowed_value};
ghost use Rattle.gk_gherkin.specs.Text.{is_blank};
ghost use Rattle.gk_gherkin.specs.Class as class;
ghost use Rattle.gk_gherkin.specs.Results.{Agrees};
ghost use Rattle.gk_gherkin.specs.Reading as reading;
ghost use Rattle.gk_gherkin.specs.Reading.Views.{text_value};
ghost use Rattle.gk_gherkin.specs.DocStrings as spec;

use crate::class::Fence;
use crate::lines::BorrowedLine;
use crate::read_fault::ReadFault;
use crate::text::{begins, leading_blanks, trim};
use std::alloc::Global;
use std::mem;

/// Returns whether a line closes the doc string that a fence opened.
#[tactic(auto, unfolding(crate::specs::DocStrings::closes))]
pub fn closes(fence: Fence, line: &BorrowedLine<'_>) -> bool
    ensures { result ≡ spec.closes fence (borrowed_value line.now) }
{
    let text = trim(line.text);
    begins(text, fence_text(fence)) && text.len() == 3
}

// Removes leading spaces and tabs from a text, at most `margin` of them.
#[tactic(auto, using(std::proofs::lemmas::Grind::common_steps, crate::proofs::LineCuts::boundary_at))]
fn without_margin(margin: usize, text: &str) -> &str
    ensures { result.now ≡ drop (min margin (prefix_len is_blank text.now)) text.now }
{
    let blanks = leading_blanks(text.as_bytes());
    &text[margin.min(blanks)..]
}

fn fence_text(fence: Fence) -> &'static str
    ensures { result.now ≡ class.fence_text fence }
{
    match fence {
        Fence::Quotes => "\"\"\"",
        Fence::Backticks => "```",
    }
}

fn escaped_fence(fence: Fence) -> &'static str
    ensures { result.now ≡ spec.escaped_fence fence }
{
    match fence {
        Fence::Quotes => "\\\"\\\"\\\"",
        Fence::Backticks => "\\`\\`\\`",
    }
}

// Appends the rest of a content line with its escaped fences read.
fn with_fences(text: String, fence: Fence, rest: &str) -> Result<String, ReadFault>
    ensures { Agrees string_bytes result
        (Ok (string_bytes text ++ spec.fences_read fence 0 rest.now)) }
{
    let mut text = text;
    let mut rest = rest;
    'fences: loop {
        match rest.split_once(escaped_fence(fence)) {
            Some((before, after)) => {
                text.push_str(before)?;
                text.push_str(fence_text(fence))?;
                rest = after;
            }
            None => {
                text.push_str(rest)?;
                return Ok(text);
            }
        }
    }
}

// Appends the text of a content line to a text.
#[tactic(auto, using(std::proofs::lemmas::Grind::common_steps, crate::proofs::FenceTexts::plain_text, crate::proofs::RowParts::no_backslash), unfolding(crate::specs::DocStrings::content_of))]
fn with_content(
    text: String,
    fence: Fence,
    column: u32,
    line: &BorrowedLine<'_>,
) -> Result<String, ReadFault>
    ensures { Agrees string_bytes result
        (Ok (string_bytes text ++ spec.content_of fence (column - 1) (borrowed_value line.now))) }
{
    let rest = without_margin(column.saturating_sub(1) as usize, line.text);
    if rest.as_bytes().contains(&b'\\') {
        return with_fences(text, fence, rest);
    }
    let mut text = text;
    text.push_str(rest)?;
    Ok(text)
}

#[tactic(auto, using(crate::proofs::TextEnds::after_end))]
fn with_line(
    alloc: Global,
    content: Option<String>,
    fence: Fence,
    column: u32,
    line: &BorrowedLine<'_>,
) -> Result<String, ReadFault>
    ensures { let next = spec.content_of fence (column - 1) (borrowed_value line.now) in
        Agrees string_bytes result
        (Ok (reading.with_line (option_map string_bytes content) next)) }
{
    match content {
        Some(text) => {
            let mut text = text;
            text.push_str("\n")?;
            with_content(text, fence, column, line)
        }
        None => with_content(String::new(alloc), fence, column, line),
    }
}

/// An open doc string: its fence, the column and the number of the fence's line, and the text so
/// far, if it has a line.
#[derive(Drop)]
pub struct DocString {
    pub fence: Fence,
    pub column: u32,
    pub line: u32,
    pub content: Option<String>,
}

impl DocString {
    /// Returns the doc string that a fence opens.
    pub fn opened(fence: Fence, line: &BorrowedLine<'_>) -> DocString
        ensures { text_value result ≡ reading.opened fence (borrowed_value line.now) }
    {
        DocString {
            fence,
            column: line.place.column,
            line: line.place.line,
            content: None,
        }
    }

    /// Returns whether a line closes it.
    pub fn is_closed_by(&self, line: &BorrowedLine<'_>) -> bool
        ensures { result ≡ spec.closes self.now.fence (borrowed_value line.now) }
    {
        closes(self.fence, line)
    }

    /// Appends a line.
    pub fn add(&mut self, alloc: Global, line: &BorrowedLine<'_>) -> Result<(), ReadFault>
        ensures { Agrees (λ _. text_value self.new) result
            (Ok (reading.longer (text_value self.old) (borrowed_value line.now))) }
    {
        let before = mem::replace(&mut self.content, None);
        self.content = Some(with_line(alloc, before, self.fence, self.column, line)?);
        Ok(())
    }

    /// Returns its whole text.
    pub fn into_text(self, alloc: Global) -> String
        ensures { string_bytes result ≡ reading.whole_text (text_value self).content }
    {
        match self.content {
            Some(text) => text,
            None => String::new(alloc),
        }
    }
}
