//! The tags of a line.
ghost use Rattle.std.specs.Prelude.{Ok, IfOk, IfErr, ◌≡◌, ◌++◌, ◌∷◌, []};
ghost use Rattle.gk_gherkin.specs.Lines.{borrowed_value};
ghost use Rattle.gk_gherkin.specs.Feature.{found_texts, texts};
ghost use Rattle.gk_gherkin.specs.Results.{Agrees};
ghost use Rattle.gk_gherkin.specs.ReadFault.{BeginsWithTag};
ghost use Rattle.gk_gherkin.specs.Tags as spec;
ghost use Rattle.gk_gherkin.specs.declared.read_fault.ReadFault.TheVariants.{Memory};

use crate::lines::BorrowedLine;
use crate::read_fault::ReadFault;
use crate::text::{begins, first_blank, trim_front};
use std::alloc::Global;

/// Returns whether a word begins with `@` and has at least one more byte.
pub fn is_tag(word: &str) -> bool
    ensures { result ≡ spec.is_tag word.now }
{
    begins(word, "@") && 2 <= word.len()
}

// Appends a word to the tags.
#[tactic(auto, using(crate::proofs::TagWords::text_more))]
fn push_tag(alloc: Global, tags: &mut Vec<String>, word: &str) -> Result<(), ReadFault>
    ensures pushed { IfOk result (λ _.
        texts tags.new.items ≡ texts tags.old.items ++ word.now ∷ []) }
    ensures fault { IfErr result (λ e. e ≡ Memory) }
{
    tags.push(String::from_str(alloc, word)?)?;
    Ok(())
}

/// Returns the tags of a tag line, each with its `@`, or `None` if a word before any comment isn't
/// a tag.
pub fn tags_of(alloc: Global, line: &BorrowedLine<'_>) -> Result<Option<Vec<String>>, ReadFault>
    ensures says { Agrees found_texts result (Ok (spec.tags_of (borrowed_value line.now))) }
    ensures memory { IfErr result (λ e. BeginsWithTag (borrowed_value line.now)) }
{
    let mut tags = Vec::new(alloc);
    let mut rest = trim_front(line.text);
    'words: while !rest.is_empty() && !begins(rest, "#") {
        let end = first_blank(rest.as_bytes());
        let word = &rest[..end];
        if !is_tag(word) {
            return Ok(None);
        }
        push_tag(alloc, &mut tags, word)?;
        rest = trim_front(&rest[end..]);
    }
    Ok(Some(tags))
}
