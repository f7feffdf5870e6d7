//! Comments that name a language.
ghost use Rattle.std.specs.Prelude.{option_map, ◌≡◌};
ghost use Rattle.std.specs.List.{list_all};
ghost use Rattle.gk_gherkin.specs.Lines.{borrowed_value};
ghost use Rattle.gk_gherkin.specs.Language as spec;

use crate::lines::BorrowedLine;
use crate::text::{trim, trim_front};

#[tactic(auto, using(std::proofs::lemmas::Str::Pattern::starts_text))]
fn rest_after<'a>(word: &str, text: &'a str) -> Option<&'a str>
    ensures { option_map (λ t. t.now) result ≡ spec.rest_after word.now text.now }
{
    if text.starts_with(word) {
        Some(trim_front(&text[word.len()..]))
    } else {
        None
    }
}

fn is_language_letter(byte: u8) -> bool
    ensures { result ≡ spec.is_language_letter byte }
{
    byte.is_ascii_alphabetic() || byte == b'-' || byte == b'_'
}

fn are_language_letters(text: &[u8]) -> bool
    ensures { result ≡ list_all spec.is_language_letter text.now }
{
    text.iter().all(|byte| is_language_letter(*byte))
}

fn language_word(text: &str) -> Option<&str>
    ensures { option_map (λ t. t.now) result ≡ spec.language_word text.now }
{
    if !text.is_empty() && are_language_letters(text.as_bytes()) {
        Some(text)
    } else {
        None
    }
}

/// Returns the language that a comment names, or `None` for any other comment.
#[tactic(auto, unfolding(crate::specs::Language::language_of))]
pub fn language_of<'a>(line: &BorrowedLine<'a>) -> Option<&'a str>
    ensures { option_map (λ t. t.now) result ≡ spec.language_of (borrowed_value line.now) }
{
    let text = rest_after("#", trim(line.text))?;
    let text = rest_after("language", text)?;
    let text = rest_after(":", text)?;
    language_word(text)
}
