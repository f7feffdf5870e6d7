//! Reading a file line by line, for feature files and hooks files alike.
ghost use Rattle.std.specs.Prelude.{None, Ok, IfOk, IfErr, ◌≡◌, ◌≢◌, ◌≤◌, length};
ghost use Rattle.std.specs.Str.Lines.{lines};
ghost use Rattle.std.specs.String.{string_bytes};
ghost use Rattle.gk_gherkin.specs.Lines.{LineValue, borrowed_value, numbered_from, lines_of, IsText};
ghost use Rattle.gk_gherkin.specs.Class as words;
ghost use Rattle.gk_gherkin.specs.Results.{Agrees};
ghost use Rattle.gk_gherkin.specs.Reading as spec;
ghost use Rattle.gk_gherkin.specs.Reading.Views.{state_value, EndsText};
ghost use Rattle.gk_gherkin.specs.declared.read_fault.ReadFault.TheVariants.{Memory};

use crate::class::{Class, Fence, class_of_line};
use crate::doc_strings::DocString;
use crate::lines::{BorrowedLine, LONGEST_FILE, borrowed_line, first_line, text_of};
use crate::read_fault::ReadFault;
use std::alloc::Global;
use std::mem;

/// A reader of a file, with everything read so far outside of doc strings.
pub trait FileReader: Drop {
    /// What the file says.
    type Answer;

    /// The value of a reader in contracts.
    ghost Value: { Type 0 };

    /// The value of an `Answer` in contracts.
    ghost AnswerValue: { Type 0 };

    ghost value: { Self → Value };

    ghost answer_value: { Self.Answer → AnswerValue };

    ghost readers: { spec.Readers Value AnswerValue };

    /// Returns the reader before the first line. Doesn't allocate.
    fn first(alloc: Global) -> Self
        ensures { value result ≡ readers.first };

    /// Returns whether a doc string is allowed under the last step.
    fn takes_text(&self) -> bool
        ensures { result ≡ readers.takes_text (value self.now) };

    /// Puts a doc string under the last step.
    fn put_text(&mut self, text: String)
        ensures { value self.new ≡ readers.after_text (value self.old) (string_bytes text) };

    /// Takes a line of this class that isn't part of a doc string.
    fn take(
        &mut self,
        alloc: Global,
        line: &BorrowedLine<'_>,
        class: Class,
    ) -> Result<(), ReadFault>
        requires { class ≡ words.class (borrowed_value line.now) }
        ensures says { Agrees (λ _. value self.new) result
            (readers.after_line (value self.old) (borrowed_value line.now)) }
        ensures memory { IfErr result (λ e. e ≡ Memory →
            readers.needs (value self.old) (borrowed_value line.now)) };

    /// Returns what the file says if the lines end here.
    fn answer(self) -> Result<Self::Answer, ReadFault>
        ensures says { Agrees answer_value result (readers.answer (value self)) }
        ensures free { IfErr result (λ e. e ≢ Memory) };
}

// Returns the fence of a line of this class, if it opens a doc string.
fn opening<P: FileReader>(reader: &P, class: Class) -> Option<Fence>
    ensures { result ≡ spec.opening (P.readers.takes_text (P.value reader.now)) class }
{
    match class {
        Class::FenceLine(fence) => {
            if reader.takes_text() {
                Some(fence)
            } else {
                None
            }
        }
        _ => None,
    }
}

// Takes a line outside of doc strings. It may open one.
#[tactic(auto, unfolding(crate::specs::Reading::step))]
fn outside_text<P: FileReader>(
    alloc: Global,
    reader: &mut P,
    text: &mut Option<DocString>,
    line: &BorrowedLine<'_>,
) -> Result<(), ReadFault>
    requires { text.old ≡ None }
    ensures says { Agrees (λ _. state_value (P.value reader.new) text.new) result
        (spec.step P.readers (spec.Outside (P.value reader.old)) (borrowed_value line.now)) }
    ensures memory { IfErr result (λ e. e ≡ Memory →
        P.readers.needs (P.value reader.old) (borrowed_value line.now)) }
{
    let class = class_of_line(line);
    match opening(reader, class) {
        Some(fence) => {
            *text = Some(DocString::opened(fence, line));
            Ok(())
        }
        None => reader.take(alloc, line, class),
    }
}

// Ends the open doc string.
fn end_text<P: FileReader>(alloc: Global, reader: &mut P, text: &mut Option<DocString>)
    ensures { EndsText P.readers (P.value reader.old) text.old (P.value reader.new) text.new }
{
    if let Some(it) = mem::replace(text, None) {
        reader.put_text(it.into_text(alloc));
    }
}

// Replaces the state before a line by the state after it.
#[tactic(auto, unfolding(crate::specs::Reading::step))]
fn next_line<P: FileReader>(
    alloc: Global,
    reader: &mut P,
    text: &mut Option<DocString>,
    line: &BorrowedLine<'_>,
) -> Result<(), ReadFault>
    ensures says { let old = state_value (P.value reader.old) text.old in
        Agrees (λ _. state_value (P.value reader.new) text.new) result
        (spec.step P.readers old (borrowed_value line.now)) }
    ensures memory { let old = state_value (P.value reader.old) text.old in
        IfErr result (λ e. e ≡ Memory → spec.NeedsIn P.readers old (borrowed_value line.now)) }
{
    match text {
        None => outside_text(alloc, reader, text, line),
        Some(it) => {
            if it.is_closed_by(line) {
                end_text(alloc, reader, text);
                Ok(())
            } else {
                it.add(alloc, line)
            }
        }
    }
}

// Replaces the state before the lines of a text by the state after them.
fn run<P: FileReader>(
    alloc: Global,
    reader: &mut P,
    doc_string: &mut Option<DocString>,
    text: &str,
) -> Result<(), ReadFault>
    requires { length text.now ≤ LONGEST_FILE }
    ensures says { Agrees (λ _. state_value (P.value reader.new) doc_string.new) result
        (spec.run P.readers (state_value (P.value reader.old) doc_string.old)
        (numbered_from 1 (lines text.now))) }
    ensures memory { IfErr result (λ e. e ≡ Memory →
        spec.NeedSome P.readers (state_value (P.value reader.old) doc_string.old)
        (numbered_from 1 (lines text.now))) }
{
    let mut number: u32 = 1;
    let mut rest = text;
    'lines: while !rest.is_empty() {
        let (line, after) = first_line(rest);
        next_line(alloc, reader, doc_string, &borrowed_line(number, line))?;
        number += 1;
        rest = after;
    }
    Ok(())
}

// Returns what the file says if the lines end here.
#[tactic(auto, unfolding(crate::specs::Reading::finish))]
fn finish<P: FileReader>(reader: P, doc_string: Option<DocString>) -> Result<P::Answer, ReadFault>
    ensures says { Agrees P.answer_value result
        (spec.finish P.readers (state_value (P.value reader) doc_string)) }
    ensures free { IfErr result (λ e. e ≢ Memory) }
{
    match doc_string {
        None => reader.answer(),
        Some(text) => Err(ReadFault::UnclosedText { line: text.line }),
    }
}

#[tactic(auto, unfolding(crate::specs::Reading::reading))]
fn read_text<P: FileReader>(alloc: Global, text: &str) -> Result<P::Answer, ReadFault>
    requires { length text.now ≤ LONGEST_FILE }
    ensures says { Agrees P.answer_value result
        (spec.reading P.readers (numbered_from 1 (lines text.now))) }
    ensures memory { IfErr result (λ e. e ≡ Memory →
        spec.NeedSome P.readers (spec.Outside P.readers.first) (numbered_from 1 (lines text.now))) }
{
    let mut reader = P::first(alloc);
    let mut doc_string = None;
    run(alloc, &mut reader, &mut doc_string, text)?;
    finish(reader, doc_string)
}

/// Reads the bytes of a file line by line: returns what they say, or the first fault.
pub fn read<P: FileReader>(alloc: Global, bytes: &[u8]) -> Result<P::Answer, ReadFault>
    ensures says { IfOk result (λ a.
        IsText bytes.now × (spec.reading P.readers (lines_of bytes.now) ≡ Ok (P.answer_value a))) }
    ensures fault { IfErr result (λ e. spec.FailsAs P.readers e bytes.now) }
{
    let text = text_of(bytes)?;
    read_text::<P>(alloc, text)
}
