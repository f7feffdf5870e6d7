//! The lines of a text.
ghost use Rattle.std.specs.Prelude.{◌≡◌, ◌≢◌, ◌≤◌, ◌<◌, ◌==◌, [], ◌∷◌, map, length, count_by, IfOk, IfErr};
ghost use Rattle.std.specs.List.{prefix_len};
ghost use Rattle.std.specs.Str.Lines.{lines, strip_carriage_return};
ghost use Rattle.gk_gherkin.specs.Lines as spec;
ghost use Rattle.gk_gherkin.specs.Lines.{line_value, borrowed_value, line_at};
ghost use Rattle.gk_gherkin.specs.Text.{is_blank};
ghost use Rattle.gk_gherkin.specs.Lines.{numbered_from, lines_of, IsText};
ghost use Rattle.gk_gherkin.specs.ReadFault.{LinesFaultSays};
ghost use Rattle.gk_gherkin.specs.declared.read_fault.ReadFault.TheVariants.{Memory};

use crate::read_fault::ReadFault;
use crate::text::leading_blanks;
use memchr::memchr;
use std::alloc::Global;
use std::str;

/// The maximum size of a file in bytes. (this project's profile)
pub const LONGEST_FILE: usize = 16_777_216;

/// The position at which a line's text begins. Lines and columns are counted from 1, columns in
/// bytes. (this project's profile)
#[derive(Clone, Copy, Debug, PartialEq, Eq)]
pub struct Place {
    pub line: u32,
    pub column: u32,
}

/// A line with its whole text, without the LF or CRLF that ends it. Its column is that of the first
/// byte that is neither a space nor a tab, or the column after the last byte if there is no such
/// byte. (this project's profile)
#[derive(Debug, Drop)]
pub struct Line {
    pub place: Place,
    pub text: String,
}

/// A line whose text is borrowed.
#[derive(Clone, Copy)]
pub struct BorrowedLine<'a> {
    pub place: Place,
    pub text: &'a str,
}

/// The lines of a text in order.
#[derive(Debug, Drop)]
pub struct Document {
    pub lines: Vec<Line>,
}

fn count_ends(bytes: &[u8]) -> usize
    ensures value { result ≡ count_by (λ b. b == 10) bytes.now }
    ensures within { result ≤ length bytes.now }
{
    bytes.iter().filter(|byte| **byte == b'\n').count()
}

/// Returns a text without a leading byte-order mark.
pub fn without_mark(text: &str) -> &str
    ensures { result.now ≡ spec.without_mark text.now }
{
    if text.starts_with("\u{feff}") {
        &text[3..]
    } else {
        text
    }
}

fn line_from(alloc: Global, line: u32, text: &str) -> Result<Line, ReadFault>
    requires { length text.now ≤ LONGEST_FILE }
    ensures ok { IfOk result (λ l. line_value l ≡ line_at line text.now) }
    ensures fault { IfErr result (λ e. e ≡ Memory) }
{
    let column = 1 + leading_blanks(text.as_bytes()) as u32;
    Ok(Line {
        place: Place { line, column },
        text: String::from_str(alloc, text)?,
    })
}

/// Returns the line with this number and this text, which has at most `LONGEST_FILE` bytes.
pub fn borrowed_line<'a>(line: u32, text: &'a str) -> BorrowedLine<'a>
    requires { length text.now ≤ LONGEST_FILE }
    ensures { borrowed_value result ≡ line_at line text.now }
{
    let column = 1 + leading_blanks(text.as_bytes()) as u32;
    BorrowedLine {
        place: Place { line, column },
        text,
    }
}

// Returns a line without the CR at its end, if it has one.
fn without_return(line: &str) -> &str
    ensures { result.now ≡ strip_carriage_return line.now }
{
    let size = line.len();
    if size > 0 && line.as_bytes()[size - 1] == b'\r' {
        &line[..size - 1]
    } else {
        line
    }
}

/// Returns the first line of a text, without the LF or CRLF that ends it, and the text after it.
pub fn first_line(text: &str) -> (&str, &str)
    requires { 0 < length text.now }
    ensures lines { lines text.now ≡ result.0.now ∷ lines result.1.now }
    ensures within { length result.0.now ≤ length text.now }
    ensures shorter { length result.1.now < length text.now }
{
    match memchr(b'\n', text.as_bytes()) {
        Some(end) => (without_return(&text[..end]), &text[end + 1..]),
        None => (text, ""),
    }
}

fn lines_from(alloc: Global, text: &str) -> Result<Document, ReadFault>
    requires { length text.now ≤ LONGEST_FILE }
    ensures ok { IfOk result (λ d.
        map line_value d.lines.items ≡ numbered_from 1 (lines text.now)) }
    ensures fault { IfErr result (λ e. e ≡ Memory) }
    ensures memory { IfErr result (λ e. numbered_from 1 (lines text.now) ≢ []) }
{
    let mut lines = Vec::new(alloc);
    let mut number: u32 = 1;
    for part in text.lines() {
        lines.push(line_from(alloc, number, part)?)?;
        number += 1;
    }
    Ok(Document { lines })
}

/// Returns some bytes as a text, without a leading byte-order mark. `TooLong` and `NotUtf8` come as
/// from `read_lines`, and never `Memory`.
pub fn text_of(bytes: &[u8]) -> Result<&str, ReadFault>
    ensures ok { IfOk result (λ t. IsText bytes.now × (t.now ≡ spec.without_mark bytes.now)) }
    ensures within { IfOk result (λ t. length t.now ≤ LONGEST_FILE) }
    ensures fault { IfErr result (λ e. LinesFaultSays e bytes.now) }
    ensures free { IfErr result (λ e. e ≢ Memory) }
{
    if bytes.len() > LONGEST_FILE {
        return Err(ReadFault::TooLong);
    }
    match str::from_utf8(bytes) {
        Ok(text) => Ok(without_mark(text)),
        Err(e) => {
            let line = 1 + count_ends(&bytes[..e.valid_up_to()]) as u32;
            Err(ReadFault::NotUtf8 { line })
        }
    }
}

/// Returns the lines of a text, numbered from 1, without a leading byte-order mark. LF or CRLF ends
/// a line. A CR alone stays in its line. After the last line end there is no further line.
///
/// More than `LONGEST_FILE` bytes are `TooLong`, whatever they contain. Other bytes that aren't UTF-8 are
/// `NotUtf8`, with the line of the first byte after the longest prefix that is UTF-8. `Memory`
/// comes only if a growth was refused, and so never for a text without lines. A fault returns no
/// line. (this project's profile)
pub fn read_lines(alloc: Global, bytes: &[u8]) -> Result<Document, ReadFault>
    // The lines returned are those of the text.
    ensures ok { IfOk result (λ d.
        IsText bytes.now × (map line_value d.lines.items ≡ lines_of bytes.now)) }
    // Which fault is returned.
    ensures fault { IfErr result (λ e. LinesFaultSays e bytes.now) }
    // Memory is refused only if there is a line to copy.
    ensures memory { IfErr result (λ e. e ≡ Memory → lines_of bytes.now ≢ []) }
{
    let text = text_of(bytes)?;
    lines_from(alloc, text)
}
