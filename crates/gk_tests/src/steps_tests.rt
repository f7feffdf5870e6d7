use crate::checks::{equal, holds, same};
use gk_steps::{FieldKind, Pattern, PatternFault, Piece, read_pattern};
use std::alloc::{AllocError, Global};

// A piece: a literal's text, or a field's name.
#[derive(Clone, Copy)]
enum Part {
    Literal(&'static str),
    Plain(&'static str),
    Decimal(&'static str),
}

fn piece(alloc: Global, part: Part) -> Result<Piece, AllocError> {
    let (name, kind) = match part {
        Part::Literal(text) => return Ok(Piece::Literal(String::from_str(alloc, text)?)),
        Part::Plain(name) => (name, FieldKind::Plain),
        Part::Decimal(name) => (name, FieldKind::Decimal),
    };
    Ok(Piece::Field {
        name: String::from_str(alloc, name)?,
        kind,
    })
}

// Returns the pattern of these pieces.
fn pattern_of(alloc: Global, parts: &[Part]) -> Result<Pattern, AllocError> {
    let mut pieces = Vec::new(alloc);
    for part in parts {
        pieces.push(piece(alloc, *part)?)?;
    }
    Ok(Pattern { pieces })
}

// Shows a pattern's match in a text, and the number of cells that were filled.
fn counted(alloc: Global, parts: &[Part], text: &str) -> Result<String, AllocError> {
    let answer = pattern_of(alloc, parts)?.matches_counted(alloc, text)?;
    format!(in alloc; "{answer:?}")
}

// The pieces of a pattern, a text, and the pattern's match in it, with the number of cells. One match
// has the shortest text first, the other characters of several bytes.
const COUNTED: [(&[Part], &str, &str); 2] = [
    (
        &[Part::Plain("a"), Part::Literal(" and "), Part::Plain("b")],
        "x and y and z",
        "(Some([Text(\"x\"), Text(\"y and z\")]), 56)",
    ),
    (
        &[Part::Plain("a"), Part::Literal("é"), Part::Plain("b")],
        "üé€é",
        "(Some([Text(\"ü\"), Text(\"€é\")]), 20)",
    ),
];

#[test]
fn shortest_first(rt: HostRuntime) -> Result<(), AllocError> {
    for (parts, text, wanted) in COUNTED {
        same(&rt, counted(rt.alloc(), parts, text)?.as_str(), wanted);
    }
    Ok(())
}

// Shows a pattern's match in a text.
fn matched(alloc: Global, parts: &[Part], text: &str) -> Result<String, AllocError> {
    let found = pattern_of(alloc, parts)?.matches(alloc, text)?;
    format!(in alloc; "{found:?}")
}

// Returns a letter repeated `count` times, with another letter after it.
pub(crate) fn repeated(
    alloc: Global,
    letter: char,
    count: usize,
    last: char,
) -> Result<String, AllocError> {
    let mut text = String::new(alloc);
    for _ in 0..count {
        text.push(letter)?;
    }
    text.push(last)?;
    Ok(text)
}

// Returns the number of cells that a pattern fills for a text that it doesn't match.
fn refused_cells(alloc: Global, parts: &[Part], text: &str) -> Result<Option<u64>, AllocError> {
    let (found, filled) = pattern_of(alloc, parts)?.matches_counted(alloc, text)?;
    Ok(if found.is_none() { Some(filled) } else { None })
}

const A: Part = Part::Plain("a");

const X: Part = Part::Literal("x");

// The pieces of a pattern, a letter, how often it is repeated, and the letter after it; and the number
// of cells that are filled until the pattern is known not to match.
const REFUSED_CELLS: [(&[Part], char, usize, char, u64); 3] = [
    (&[A, A, A, A, X], 'a', 40, 'y', 252),
    (&[A, A, A, A, A, A, A, A, X], 'a', 400, 'y', 4020),
    (
        &[Part::Decimal("n"), Part::Decimal("m"), X],
        '0',
        999_999,
        '0',
        4_000_004,
    ),
];

#[test]
fn cells_of_refused_texts(rt: HostRuntime) -> Result<(), AllocError> {
    for (parts, letter, count, last, cells) in REFUSED_CELLS {
        let text = repeated(rt.alloc(), letter, count, last)?;
        equal(&rt, &refused_cells(rt.alloc(), parts, &text)?, &Some(cells));
    }
    Ok(())
}

#[test]
fn the_longest_of_many_numbers(rt: HostRuntime) -> Result<(), AllocError> {
    let text = repeated(rt.alloc(), '0', 100_000, 'x')?;
    let found = matched(rt.alloc(), &[Part::Decimal("n"), Part::Plain("b")], &text)?;
    same(&rt, found.as_str(), "Some([Number(0), Text(\"x\")])");
    Ok(())
}

// Shows the match of the pattern that a text spells.
fn read_and_matched(alloc: Global, spelled: &str, text: &str) -> Result<String, PatternFault> {
    let found = read_pattern(alloc, spelled)?.matches(alloc, text)?;
    Ok(format!(in alloc; "{found:?}")?)
}

// Texts that spell patterns, each with a text and the pattern's match in it.
const SPELLED: [(&str, &str, &str); 7] = [
    ("{{{a}}}", "{x}", "Some([Text(\"x\")])"),
    (
        "{a} and {b}",
        "x and y and z",
        "Some([Text(\"x\"), Text(\"y and z\")])",
    ),
    ("{n:d}{m:d}", "123", "Some([Number(12), Number(3)])"),
    (
        "{n:d}",
        "9223372036854775807",
        "Some([Number(9223372036854775807)])",
    ),
    (
        "{n:d}",
        "-9223372036854775808",
        "Some([Number(-9223372036854775808)])",
    ),
    ("{n:d}", "9223372036854775808", "None"),
    (
        "{n:d}",
        "+00000000000000000000000000007",
        "Some([Number(7)])",
    ),
];

#[test]
fn patterns_are_read(rt: HostRuntime) -> Result<(), PatternFault> {
    for (spelled, text, wanted) in SPELLED {
        same(
            &rt,
            read_and_matched(rt.alloc(), spelled, text)?.as_str(),
            wanted,
        );
    }
    Ok(())
}

#[test]
fn ends_of_texts_are_compared(rt: HostRuntime) -> Result<(), PatternFault> {
    let pattern = read_pattern(rt.alloc(), "a {n:d} b")?;
    holds(
        &rt,
        pattern.can_match("a 1 b") && !pattern.can_match("a 1 c"),
    );
    Ok(())
}
