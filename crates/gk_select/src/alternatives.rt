//! The old form of a tag rule: alternatives separated by commas.
ghost use Rattle.std.specs.Prelude.{◌≡◌, ◌⊎◌, ℕ, List, [], ◌∷◌, Err, false, IsSome, is_some, IfOk, IfErr, map, slice_index_or};
ghost use Rattle.std.specs.List.{list_any};
ghost use Rattle.std.specs.String.{string_bytes};
ghost use Rattle.gk_select.specs.declared.select_fault.SelectFault.TheVariants.{BadTagText, Memory};
ghost use Rattle.gk_select.specs.SelectFault.{AnswersOrLacksMemory};
ghost use Rattle.gk_select.specs.Alternatives as spec;
ghost use Rattle.gk_select.specs.Alternatives.{AlternativeValue, alternative_value, pieces, words_with, or_of};
ghost use Rattle.gk_select.specs.TagGrammar.{spelling};
ghost use Rattle.gk_select.specs.TagWords.{word_value};

use crate::select_fault::SelectFault;
use crate::tag_words::Word;
use gk_gherkin::text::begins;
use std::alloc::{AllocError, Global};

/// A tag, with its `@`, that has to be present or, if negated, absent.
#[derive(Debug, Drop)]
pub struct Alternative {
    negated: bool,
    tag: String,
}

// Returns whether a text names a tag.
fn names_tag(text: &str) -> bool
    ensures { result ≡ is_some (spec.tag_named text.now) }
{
    if begins(text, "@") {
        text.len() >= 2
    } else {
        !(text.is_empty() || begins(text, "~") || begins(text, "-"))
    }
}

fn tag_named(alloc: Global, text: &str) -> Result<String, SelectFault>
    ensures { AnswersOrLacksMemory string_bytes result (spec.tag_named text.now) }
{
    if !names_tag(text) {
        return Err(SelectFault::BadTagText);
    }
    if begins(text, "@") {
        return Ok(String::from_str(alloc, text)?);
    }
    let mut tag = String::from_str(alloc, "@")?;
    tag.push_str(text)?;
    Ok(tag)
}

/// Returns whether a text is an alternative.
pub fn is_alternative(text: &str) -> bool
    ensures { result ≡ is_some (spec.alternative text.now) }
{
    match text.strip_prefix('~') {
        Some(name) => names_tag(name),
        None => names_tag(text),
    }
}

fn read_alternative(alloc: Global, text: &str) -> Result<Alternative, SelectFault>
    ensures { AnswersOrLacksMemory alternative_value result (spec.alternative text.now) }
{
    match text.strip_prefix('~') {
        Some(name) => Ok(Alternative {
            negated: true,
            tag: tag_named(alloc, name)?,
        }),
        None => Ok(Alternative {
            negated: false,
            tag: tag_named(alloc, text)?,
        }),
    }
}

// Appends the words of an alternative to those of the alternatives before it.
fn push_alternative(words: &mut Vec<Word>, alternative: Alternative) -> Result<(), AllocError>
    ensures { IfOk result (λ _. map word_value words.new.items ≡
        words_with (map word_value words.old.items) (alternative_value alternative)) }
{
    if !words.is_empty() {
        words.push(Word::Or)?;
    }
    if alternative.negated {
        words.push(Word::Not)?;
    }
    words.push(Word::Tag(alternative.tag))?;
    Ok(())
}

/// Returns the words of the `or` of the alternatives between the commas of a text.
pub fn words_of_alternatives(alloc: Global, text: &str) -> Result<Vec<Word>, SelectFault>
    // The words spell the `or` of the text's alternatives.
    ensures found { IfOk result (λ v.
        (first : AlternativeValue) × (others : List AlternativeValue) ×
        (map spec.alternative (pieces text.now) ≡ map Some (first ∷ others)) ×
        (spelling (or_of first others) ≡ map word_value v.items)) }
    // Memory runs out only if the first alternative is valid.
    ensures memory { result ≡ Err Memory →
        IsSome (spec.alternative (slice_index_or (pieces text.now) 0 [])) }
    // The fault is `Memory` or, only for a text with an invalid alternative, `BadTagText`.
    ensures fault { IfErr result (λ e. (e ≡ Memory) ⊎ ((e ≡ BadTagText) ×
        ((alternatives : List AlternativeValue) →
        map spec.alternative (pieces text.now) ≡ map Some alternatives → ⊥))) }
{
    let mut words = Vec::new(alloc);
    for piece in text.split(',') {
        push_alternative(&mut words, read_alternative(alloc, piece)?)?;
    }
    Ok(words)
}
