//! The cells of a row.
ghost use Rattle.std.specs.Prelude.{Ok, ◌≡◌, ◌≤◌, ◌<◌, ◌++◌, ◌∷◌, length, take, drop, slice_index};
ghost use Rattle.std.specs.String.{string_bytes};
ghost use Rattle.gk_gherkin.specs.Lines.{borrowed_value};
ghost use Rattle.gk_gherkin.specs.Feature.{found_texts};
ghost use Rattle.gk_gherkin.specs.Results.{Agrees};
ghost use Rattle.gk_gherkin.specs.Rows as spec;

use crate::lines::BorrowedLine;
use crate::read_fault::ReadFault;
use crate::text::trim;
use memchr::memchr2;
use std::alloc::Global;

// Returns the number of bytes before the first bar that no backslash escapes, or before the end.
fn part_len(text: &[u8]) -> usize
    ensures parts { spec.parts_of text.now
        ≡ spec.parts_after (take result text.now) (drop result text.now) }
    ensures within { result ≤ length text.now }
    ensures bar { result < length text.now → slice_index text.now result ≡ 124 }
{
    let mut at = 0;
    'escapes: while let Some(found) = memchr2(b'|', b'\\', &text[at..]) {
        let place = at + found;
        if text[place] == b'|' {
            return place;
        }
        at = text.len().min(place + 2);
    }
    text.len()
}

// Returns what a backslash before this text means, and the text after the escape.
fn escape(after: &str) -> (&str, &str)
    ensures means { spec.unescaped (92 ∷ after.now) ≡ result.0.now ++ spec.unescaped result.1.now }
    ensures within { length result.1.now ≤ length after.now }
{
    if let Some(rest) = after.strip_prefix('n') {
        ("\n", rest)
    } else if let Some(rest) = after.strip_prefix('|') {
        ("|", rest)
    } else if let Some(rest) = after.strip_prefix('\\') {
        ("\\", rest)
    } else {
        ("\\", after)
    }
}

fn unescaped(alloc: Global, part: &str) -> Result<String, ReadFault>
    ensures { Agrees string_bytes result (Ok (spec.unescaped part.now)) }
{
    let mut cell = String::with_capacity(alloc, part.len())?;
    let mut rest = part;
    'escapes: loop {
        match rest.split_once('\\') {
            Some((before, after)) => {
                let (character, next) = escape(after);
                cell.push_str(before)?;
                cell.push_str(character)?;
                rest = next;
            }
            None => {
                cell.push_str(rest)?;
                return Ok(cell);
            }
        }
    }
}

// Returns the cell of a trimmed part.
#[tactic(auto, using(std::proofs::lemmas::Grind::common_steps, crate::proofs::RowParts::no_backslash, crate::proofs::RowParts::no_escape))]
fn cell_from(alloc: Global, part: &str) -> Result<String, ReadFault>
    ensures { Agrees string_bytes result (Ok (spec.unescaped part.now)) }
{
    if part.as_bytes().contains(&b'\\') {
        return unescaped(alloc, part);
    }
    let mut cell = String::with_capacity(alloc, part.len())?;
    cell.push_str(part)?;
    Ok(cell)
}

// Returns the cells after a row's first bar, or `None` if no unescaped bar ends them. Reserves room
// for `width` cells.
fn cells_in(alloc: Global, width: usize, text: &str) -> Result<Option<Vec<String>>, ReadFault>
    ensures { Agrees found_texts result (Ok (spec.cells_of_parts (spec.parts_of text.now))) }
{
    let mut cells = Vec::with_capacity(alloc, width)?;
    let mut rest = text;
    'parts: while !rest.is_empty() {
        let end = part_len(rest.as_bytes());
        if end == rest.len() {
            return Ok(None);
        }
        cells.push(cell_from(alloc, trim(&rest[..end]))?)?;
        rest = &rest[end + 1..];
    }
    if cells.is_empty() {
        Ok(None)
    } else {
        Ok(Some(cells))
    }
}

/// Returns the cells of a row, or `None` if the row isn't between two bars. `width` is the number
/// of cells that it should have, or 0 if that isn't known.
pub fn cells_of(
    alloc: Global,
    width: usize,
    line: &BorrowedLine<'_>,
) -> Result<Option<Vec<String>>, ReadFault>
    ensures { Agrees found_texts result (Ok (spec.cells_of (borrowed_value line.now))) }
{
    match trim(line.text).strip_prefix('|') {
        Some(text) => cells_in(alloc, width, text),
        None => Ok(None),
    }
}
