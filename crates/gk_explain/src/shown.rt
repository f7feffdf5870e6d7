//! Texts as they are shown below an event.
ghost use Rattle.std.specs.Prelude.{◌≡◌, ◌<◌, ◌+◌, chars, drop, flat_map, length, map, take, IfOk};
ghost use Rattle.std.specs.List.{list_any};
ghost use Rattle.gk_report.specs.ReportTexts.{Pushes};
ghost use Rattle.gk_explain.specs.Shown as spec;

use crate::differences::Position;
use std::alloc::{AllocError, Global};

fn is_within(first: u32, end: u32, code: u32) -> bool
    ensures { result ≡ spec.is_within first end code }
{
    code >= first && code < end
}

// Returns whether a character is a control character, by Unicode's general category Cc, ends a line, or turns the
// direction of the text, by Unicode's property Bidi_Control.
fn is_control(code: u32) -> bool
    ensures { result ≡ spec.is_control code }
{
    code < 0x20
        || is_within(0x7F, 0xA0, code)
        || code == 0x61C
        || is_within(0x200E, 0x2010, code)
        || is_within(0x2028, 0x202F, code)
        || is_within(0x2066, 0x206A, code)
}

// Returns whether a character looks like ASCII's space but is another character.
fn is_unicode_space(code: u32) -> bool
    ensures { result ≡ spec.is_unicode_space code }
{
    code == 0xA0
        || code == 0x1680
        || is_within(0x2000, 0x200B, code)
        || is_within(0x2028, 0x202A, code)
        || code == 0x202F
        || code == 0x205F
        || code == 0x2800
        || code == 0x3000
}

// Returns whether a character below U+10000 is invisible, by Unicode's property Default_Ignorable_Code_Point or
// as a mark of annotations.
fn is_low_ignorable(code: u32) -> bool
    ensures { result ≡ spec.is_low_ignorable code }
{
    code == 0xAD
        || code == 0x34F
        || code == 0x61C
        || is_within(0x115F, 0x1161, code)
        || is_within(0x17B4, 0x17B6, code)
        || is_within(0x180B, 0x1810, code)
        || is_within(0x200B, 0x2010, code)
        || is_within(0x202A, 0x202F, code)
        || is_within(0x2060, 0x2070, code)
        || code == 0x3164
        || is_within(0xFE00, 0xFE10, code)
        || code == 0xFEFF
        || code == 0xFFA0
        || is_within(0xFFF0, 0xFFFC, code)
}

// Returns whether a character from U+10000 on is invisible, by the property above.
fn is_high_ignorable(code: u32) -> bool
    ensures { result ≡ spec.is_high_ignorable code }
{
    is_within(0x1BCA0, 0x1BCA4, code)
        || is_within(0x1D173, 0x1D17B, code)
        || is_within(0xE0000, 0xE1000, code)
}

// Returns whether a character is invisible or looks like a space that it isn't. No control character is among
// these.
fn is_disguised(code: u32) -> bool
    ensures { result ≡ spec.is_disguised code }
{
    is_unicode_space(code) || is_low_ignorable(code) || is_high_ignorable(code)
}

// Appends a character by its number, in hexadecimal.
fn push_number(out: &mut String, code: u32) -> Result<(), AllocError>
    ensures { Pushes out.old (spec.numbered code) result out.new }
{
    out.push_str("\\u{")?;
    write!(out, "{code:x}")?;
    out.push_str("}")
}

/// The forms in which texts are shown.
#[derive(Clone, Copy, Debug)]
pub enum Form {
    /// The name of a file, which may begin a line. Control characters are escaped.
    File,
    /// Another name, or the text of a step. Control characters are escaped.
    Name,
    /// A text without quotes. All that can't be seen is escaped.
    Unquoted,
    /// A text between quotes. Backslashes are doubled, too.
    Quoted,
    /// A literal of a pattern. Braces are doubled, too.
    Literal,
}

// Returns whether a form shows a character by its number.
fn is_numbered(form: Form, code: u32) -> bool
    ensures { result ≡ spec.is_numbered form code }
{
    match form {
        Form::File | Form::Name => is_control(code),
        Form::Unquoted | Form::Quoted | Form::Literal => is_control(code) || is_disguised(code),
    }
}

// Returns whether a form doubles a character.
fn is_doubled(form: Form, c: char) -> bool
    ensures { result ≡ spec.is_doubled form c }
{
    match form {
        Form::File | Form::Name | Form::Unquoted => false,
        Form::Quoted => c == '\\',
        Form::Literal => c == '\\' || c == '{' || c == '}',
    }
}

// Appends a character as a form shows it.
fn push_char(out: &mut String, form: Form, c: char) -> Result<(), AllocError>
    ensures { Pushes out.old (spec.char_in form c) result out.new }
{
    match c {
        '\t' => out.push_str("\\t"),
        '\n' => out.push_str("\\n"),
        '\r' => out.push_str("\\r"),
        _ => {
            if is_numbered(form, c as u32) {
                return push_number(out, c as u32);
            }
            if is_doubled(form, c) {
                out.push(c)?;
            }
            out.push(c)
        }
    }
}

/// What is before a character, as far as the log of a CI looks for commands in it.
#[derive(Clone, Copy, Debug)]
pub enum Before {
    /// Nothing with which a command may begin.
    Other,
    /// A colon.
    Colon,
    /// One `#`.
    Hash,
    /// Two, and perhaps letters: `##` or `##vso`.
    Hashes,
}

// Returns whether a character is a letter of ASCII.
fn is_letter(code: u32) -> bool
    ensures { result ≡ spec.is_letter code }
{
    is_within(65, 91, code) || is_within(97, 123, code)
}

// Returns what is before the next character if `before` is before `c`.
fn past_char(before: Before, c: char) -> Before
    ensures { result ≡ spec.past_char before c }
{
    match c {
        '#' => match before {
            Before::Other | Before::Colon => Before::Hash,
            Before::Hash | Before::Hashes => Before::Hashes,
        },
        ':' => Before::Colon,
        _ => {
            if matches!(before, Before::Hashes) && is_letter(c as u32) {
                Before::Hashes
            } else {
                Before::Other
            }
        }
    }
}

// Returns whether a character completes what the log of a CI reads as the beginning of a command: `##[` or `##vso[`,
// and `::` in a text that may begin a line.
fn is_commanding(form: Form, before: Before, c: char) -> bool
    ensures { result ≡ spec.is_commanding form before c }
{
    match c {
        '[' => matches!(before, Before::Hashes),
        ':' => matches!(before, Before::Colon) && matches!(form, Form::File),
        _ => false,
    }
}

// Appends a character as a form shows it, but by its number if it completes the beginning of a command.
fn push_char_after(out: &mut String, form: Form, before: Before, c: char) -> Result<(), AllocError>
    ensures { Pushes out.old (spec.char_after form before c) result out.new }
{
    if is_commanding(form, before, c) {
        push_number(out, c as u32)
    } else {
        push_char(out, form, c)
    }
}

// Appends the characters of a text as a form shows them.
fn push_text_as(out: &mut String, form: Form, text: &str) -> Result<(), AllocError>
    ensures { Pushes out.old (spec.text_as form text.now) result out.new }
{
    let mut before = Before::Other;
    for c in text.chars() {
        push_char_after(out, form, before, c)?;
        before = past_char(before, c);
    }
    Ok(())
}

// Returns whether the character of a byte may not be shown as it is in a name.
fn is_suspect(byte: u8) -> bool
    ensures { result ≡ spec.is_suspect byte }
{
    byte < 0x20
        || byte == 0x3A
        || byte == 0x5B
        || byte == 0x7F
        || byte == 0xC2
        || byte == 0xD8
        || byte == 0xE2
}

fn has_suspect(text: &str) -> bool
    ensures { result ≡ list_any spec.is_suspect text.now }
{
    text.as_bytes().iter().any(|byte| is_suspect(*byte))
}

/// Appends the name of a file, which may begin a line, with its control characters escaped. An error comes only if a
/// growth was refused; a part of it may have been appended then.
#[tactic(auto, using(crate::proofs::ShownLemmas::plain_file), unfolding(crate::specs::Shown::file_shown))]
pub fn push_file(out: &mut String, name: &str) -> Result<(), AllocError>
    ensures { Pushes out.old (spec.file_shown name.now) result out.new }
{
    if has_suspect(name) {
        push_text_as(out, Form::File, name)
    } else {
        out.push_str(name)
    }
}

/// Appends a name or a text on one line, with its control characters escaped. An error comes only if a growth was
/// refused; a part of it may have been appended then.
#[tactic(auto, using(crate::proofs::ShownLemmas::plain_name), unfolding(crate::specs::Shown::escaped))]
pub fn push_escaped(out: &mut String, text: &str) -> Result<(), AllocError>
    ensures { Pushes out.old (spec.escaped text.now) result out.new }
{
    if has_suspect(text) {
        push_text_as(out, Form::Name, text)
    } else {
        out.push_str(text)
    }
}

/// Appends a text as it is shown without quotes, with an escape for what can't be seen. An error comes only if a
/// growth was refused; a part of it may have been appended then.
pub fn push_unquoted(out: &mut String, text: &str) -> Result<(), AllocError>
    ensures { Pushes out.old (spec.unquoted text.now) result out.new }
{
    push_text_as(out, Form::Unquoted, text)
}

/// Appends a text as it is shown between quotes: as without them, but with backslashes doubled. An error comes only if a
/// growth was refused; a part of it may have been appended then.
pub fn push_shown(out: &mut String, text: &str) -> Result<(), AllocError>
    ensures { Pushes out.old (spec.shown text.now) result out.new }
{
    push_text_as(out, Form::Quoted, text)
}

/// Appends a literal as it is written in a pattern: as between quotes, but with braces doubled. An error comes only if a
/// growth was refused; a part of it may have been appended then.
pub fn push_literal(out: &mut String, text: &str) -> Result<(), AllocError>
    ensures { Pushes out.old (spec.literal_shown text.now) result out.new }
{
    push_text_as(out, Form::Literal, text)
}

// Returns the lines of a text.
fn lines_of(alloc: Global, text: &str) -> Result<Vec<&str>, AllocError>
    ensures { IfOk result (λ lines. map (λ line. line.now) lines.items ≡ spec.text_lines text.now) }
{
    text.split('\n').collect(alloc)
}

// Appends a line of a text after a mark.
#[tactic(auto, unfolding(crate::specs::Shown::marked_line))]
fn push_line(out: &mut String, mark: &str, line: &str) -> Result<(), AllocError>
    ensures { Pushes out.old (spec.marked_line mark.now line.now) result out.new }
{
    out.push_str("      ")?;
    out.push_str(mark)?;
    out.push_str(" \"")?;
    push_shown(out, line)?;
    out.push_str("\"\n")
}

// Returns the number of characters that are cut from the start of a line with `count` characters.
fn cut_before(column: usize, count: usize) -> usize
    ensures { result ≡ spec.cut_before column count }
{
    let before = column.saturating_sub(31);
    let most = count.saturating_sub(60);
    if before < most { before } else { most }
}

// Appends characters as they are shown between quotes.
fn push_chars(out: &mut String, line: &[char]) -> Result<(), AllocError>
    ensures { Pushes out.old (spec.chars_after Form.Quoted Before.Other line.now) result out.new }
{
    let mut before = Before::Other;
    for c in line {
        push_char_after(out, Form::Quoted, before, *c)?;
        before = past_char(before, *c);
    }
    Ok(())
}

// Appends the mark of a side on which characters are cut.
fn push_cut_mark(out: &mut String, cut: bool) -> Result<(), AllocError>
    ensures { Pushes out.old (spec.cut_mark cut) result out.new }
{
    if cut { out.push_str("...") } else { Ok(()) }
}

// Returns the number of characters of a line.
fn count_of(line: &str) -> usize
    ensures { result ≡ length (chars line.now) }
{
    line.chars().count()
}

// Returns at most sixty characters of a line, without the first ones.
fn window(alloc: Global, before: usize, line: &str) -> Result<Vec<char>, AllocError>
    ensures { IfOk result (λ shown. shown.items ≡ take 60 (drop before (chars line.now))) }
{
    line.chars().skip(before).take(60).collect(alloc)
}

// Appends the characters of a line around a column, between quotes, with a mark on each side that is cut.
#[tactic(auto, unfolding(crate::specs::Shown::quoted_window))]
fn push_window(alloc: Global, out: &mut String, column: usize, line: &str) -> Result<(), AllocError>
    ensures { Pushes out.old (spec.quoted_window column (chars line.now)) result out.new }
{
    let count = count_of(line);
    let before = cut_before(column, count);
    let shown = window(alloc, before, line)?;
    push_cut_mark(out, 0 < before)?;
    out.push_str("\"")?;
    push_chars(out, &shown)?;
    out.push_str("\"")?;
    push_cut_mark(out, before < count.saturating_sub(60))
}

// Appends a line after a mark, cut to the characters around a column.
#[tactic(auto, unfolding(crate::specs::Shown::cut_line))]
fn push_cut_line(
    alloc: Global,
    out: &mut String,
    mark: &str,
    column: usize,
    line: &str,
) -> Result<(), AllocError>
    ensures { Pushes out.old (spec.cut_line mark.now column (chars line.now)) result out.new }
{
    out.push_str("      ")?;
    out.push_str(mark)?;
    out.push_str(" ")?;
    push_window(alloc, out, column, line)?;
    out.push_str("\n")
}

// Appends a line of a text after a mark, whole or cut to the characters around a column.
fn push_row(
    alloc: Global,
    out: &mut String,
    mark: &str,
    around: Option<usize>,
    line: &str,
) -> Result<(), AllocError>
    ensures { Pushes out.old (spec.row mark.now around line.now) result out.new }
{
    match around {
        None => push_line(out, mark, line),
        Some(column) => push_cut_line(alloc, out, mark, column, line),
    }
}

// Appends lines of a text, each shown in the same way.
fn push_lines(
    alloc: Global,
    out: &mut String,
    mark: &str,
    around: Option<usize>,
    lines: &[&str],
) -> Result<(), AllocError>
    ensures { Pushes out.old (spec.marked_lines (spec.row mark.now around)
        (map (λ line. line.now) lines.now)) result out.new }
{
    for line in lines {
        push_row(alloc, out, mark, around, line)?;
    }
    Ok(())
}

// Appends the row that replaces lines that are left out.
fn push_left_out(out: &mut String, count: usize) -> Result<(), AllocError>
    ensures { Pushes out.old (spec.left_out count) result out.new }
{
    write!(out, "      ... {count} more lines ...\n")?;
    Ok(())
}

// Appends lines of a text in at most twenty rows.
#[tactic(auto, using(std::proofs::lemmas::Result::on_ok_weaker, crate::proofs::ShownLemmas::many_lines))]
fn push_few_lines(
    alloc: Global,
    out: &mut String,
    mark: &str,
    around: Option<usize>,
    lines: &[&str],
) -> Result<(), AllocError>
    ensures { Pushes out.old (spec.few_lines (spec.row mark.now around)
        (map (λ line. line.now) lines.now)) result out.new }
{
    let count = lines.len();
    if count <= 20 {
        return push_lines(alloc, out, mark, around, lines);
    }
    let (first, _) = lines.split_at(10);
    let (_, last) = lines.split_at(count - 9);
    push_lines(alloc, out, mark, around, first)?;
    push_left_out(out, count - 19)?;
    push_lines(alloc, out, mark, around, last)
}

// Returns whether a line, counted from 1, is one of those left out of `count` lines.
fn is_left_out(line: usize, count: usize) -> bool
    ensures { result ≡ spec.is_left_out line count }
{
    count > 20 && line > 10 && line < count - 8
}

// Appends lines of a text around one that would be left out, with three on either side of it.
fn push_lines_round(
    alloc: Global,
    out: &mut String,
    mark: &str,
    around: Option<usize>,
    line: usize,
    lines: &[&str],
) -> Result<(), AllocError>
    requires above { 10 < line }
    requires below { line + 8 < length lines.now }
    ensures { Pushes out.old
        (spec.lines_round (spec.row mark.now around) line (map (λ line. line.now) lines.now))
        result out.new }
{
    let count = lines.len();
    let (first, _) = lines.split_at(5);
    let (_, rest) = lines.split_at(line - 4);
    let (round, _) = rest.split_at(7);
    let (_, last) = lines.split_at(count - 4);
    push_lines(alloc, out, mark, around, first)?;
    push_left_out(out, line - 9)?;
    push_lines(alloc, out, mark, around, round)?;
    push_left_out(out, count - (line + 7))?;
    push_lines(alloc, out, mark, around, last)
}

// Appends lines of a text in at most twenty rows, with this line among those that are shown.
fn push_few_lines_with(
    alloc: Global,
    out: &mut String,
    mark: &str,
    around: Option<usize>,
    line: usize,
    lines: &[&str],
) -> Result<(), AllocError>
    ensures { Pushes out.old
        (spec.few_lines_with (spec.row mark.now around) line
        (map (λ line. line.now) lines.now))
        result out.new }
{
    if is_left_out(line, lines.len()) {
        push_lines_round(alloc, out, mark, around, line, lines)
    } else {
        push_few_lines(alloc, out, mark, around, lines)
    }
}

/// Appends the lines of a text in at most twenty rows, each line after a mark and between quotes. Of more than
/// twenty lines, those in the middle are left out. An error comes only if a growth was refused; some of the
/// rows may have been appended then.
#[tactic(auto, unfolding(crate::specs::Shown::marked_text))]
pub fn push_text(alloc: Global, out: &mut String, mark: &str, text: &str) -> Result<(), AllocError>
    ensures { Pushes out.old (spec.marked_text mark.now text.now) result out.new }
{
    let lines = lines_of(alloc, text)?;
    push_few_lines(alloc, out, mark, None, &lines)
}

/// Appends the lines of a text as `push_text` does, with the line of a position among those that are shown. If it
/// would be left out, the rows show the first five lines, this line with three on either side, and the last four.
/// Of a line with more than sixty characters, sixty around the column of the position are shown; `...` outside the
/// quotes marks each side that is cut. An error comes only if a growth was refused; some of the rows may have been
/// appended then.
#[tactic(auto, unfolding(crate::specs::Shown::marked_text_with))]
pub fn push_text_with(
    alloc: Global,
    out: &mut String,
    mark: &str,
    at: Position,
    text: &str,
) -> Result<(), AllocError>
    ensures { Pushes out.old (spec.marked_text_with mark.now at text.now) result out.new }
{
    let lines = lines_of(alloc, text)?;
    push_few_lines_with(alloc, out, mark, Some(at.column), at.line, &lines)
}
