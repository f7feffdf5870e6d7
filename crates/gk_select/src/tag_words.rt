//! The words of a tag expression.
ghost use Rattle.std.specs.Prelude.{codes, not, ◌≡◌, ◌⊎◌, ◌&&◌, ◌<◌, ◌≤◌, ◌++◌, ◌∷◌, [], ℕ, List, Err, Some, true, false, map, take, drop, length, slice_index, slice_index_or, IsSome, IfOk, IfErr, if◌then◌else◌};
ghost use Rattle.std.specs.List.{list_any};
ghost use Rattle.std.specs.Str.{IsUtf8, IsCharBoundary};
ghost use Rattle.gk_gherkin.specs.Tags.{is_tag};
ghost use Rattle.gk_gherkin.specs.Text as blanks;
ghost use Rattle.gk_select.specs.declared.select_fault.SelectFault.TheVariants.{BadTagText, Memory};
ghost use Rattle.gk_select.specs.SelectFault.{AnswersOrLacksMemory};
ghost use Rattle.gk_select.specs.TagWords as spec;
ghost use Rattle.gk_select.specs.TagWords.{AreWords, WordValue, word_value, words_of_text};

use crate::select_fault::SelectFault;
use gk_gherkin::text::{begins, is_blank};
use std::alloc::Global;

/// A word of a tag expression.
#[derive(Debug, Drop)]
pub enum Word {
    /// `(`
    Open,
    /// `)`
    Close,
    /// `not`
    Not,
    /// `and`
    And,
    /// `or`
    Or,
    /// A tag, with its `@`.
    Tag(String),
}

/// Returns whether a byte ends a word: a space, a tab or a parenthesis.
pub fn is_of_new_form(byte: u8) -> bool
    ensures { result ≡ spec.is_of_new_form byte }
{
    is_blank(byte) || byte == b'(' || byte == b')'
}

fn has_left_out(word: &str) -> bool
    ensures { result ≡ list_any spec.is_left_out word.now }
{
    word.as_bytes()
        .iter()
        .any(|byte| *byte == b',' || *byte == b'\\')
}

/// Returns whether a word is a tag of an expression: `@` and at least one byte, none of them a comma or a backslash.
pub fn is_tag_word(word: &str) -> bool
    ensures { result ≡ (is_tag word.now && not (list_any spec.is_left_out word.now)) }
{
    begins(word, "@") && 2 <= word.len() && !has_left_out(word)
}

fn word_said(alloc: Global, word: &str) -> Result<Word, SelectFault>
    ensures { AnswersOrLacksMemory word_value result (spec.word_said word.now) }
{
    if word == "(" {
        return Ok(Word::Open);
    }
    if word == ")" {
        return Ok(Word::Close);
    }
    if word == "not" {
        return Ok(Word::Not);
    }
    if word == "and" {
        return Ok(Word::And);
    }
    if word == "or" {
        return Ok(Word::Or);
    }
    if is_tag_word(word) {
        return Ok(Word::Tag(String::from_str(alloc, word)?));
    }
    Err(SelectFault::BadTagText)
}

fn first_cut(text: &[u8]) -> usize
    ensures within { result ≤ length text.now }
    ensures before { (k : ℕ) → k < result →
        spec.is_of_new_form (slice_index text.now k) ≡ false }
    ensures at { result < length text.now →
        spec.is_of_new_form (slice_index text.now result) ≡ true }
{
    text.iter()
        .position(|byte| is_of_new_form(*byte))
        .unwrap_or(text.len())
}

/// Returns the end of the word at the front of a text, or of the space or tab there.
#[tactic(auto, using(crate::proofs::TagTextWords::word_is, crate::proofs::TagTextWords::byte_word, crate::proofs::TagTextWords::edge_one))]
pub fn word_end(text: &[u8]) -> usize
    requires { 0 < length text.now }
    ensures within { result ≤ length text.now }
    ensures some { 0 < result }
    ensures edge { IsUtf8 text.now → result < length text.now → IsCharBoundary text.now result }
    ensures word { words_of_text text.now ≡
        (if blanks.is_blank (slice_index text.now 0) then [] else take result text.now ∷ [])
        ++ words_of_text (drop result text.now) }
{
    let end = first_cut(text);
    if end == 0 { 1 } else { end }
}

/// Returns the words of a text, in time linear in its length. (Cucumber's tag expressions)
pub fn words_of(alloc: Global, text: &str) -> Result<Vec<Word>, SelectFault>
    // The result is what the text says.
    ensures found { IfOk result (λ v. AreWords text.now (map word_value v.items)) }
    // Memory runs out only if the first word is valid in an expression.
    ensures memory { result ≡ Err Memory →
        IsSome (spec.word_said (slice_index_or (words_of_text text.now) 0 [])) }
    // The fault is `Memory` or, only for a text with an invalid word, `BadTagText`.
    ensures fault { IfErr result (λ e. (e ≡ Memory) ⊎
        ((e ≡ BadTagText) × ((words : List WordValue) → AreWords text.now words → ⊥))) }
{
    let mut words = Vec::new(alloc);
    let mut rest = text;
    'words: while !rest.is_empty() {
        let end = word_end(rest.as_bytes());
        if !is_blank(rest.as_bytes()[0]) {
            words.push(word_said(alloc, &rest[..end])?)?;
        }
        rest = &rest[end..];
    }
    Ok(words)
}
