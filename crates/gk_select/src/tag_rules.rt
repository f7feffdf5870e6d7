//! Tag rules, read from a text.
ghost use Rattle.std.specs.Prelude.{◌≡◌, ◌⊎◌, Some, Err, true, false, IfOk, IfErr};
ghost use Rattle.std.specs.List.{list_any};
ghost use Rattle.gk_select.specs.declared.select_fault.SelectFault.TheVariants.{BadTagText, Memory};
ghost use Rattle.gk_select.specs.SelectFault.{AnswersOrLacksMemory};
ghost use Rattle.gk_select.specs.Alternatives.{FirstAlternativeSays};
ghost use Rattle.gk_select.specs.TagGrammar.{Expression};
ghost use Rattle.gk_select.specs.TagRules.{ReadsTags, ReadsOldForm, ReadsNewForm, SpellsNone, NeedsMemory, FirstWordSays};
ghost use Rattle.gk_select.specs.TagWords as spec;

use crate::alternatives::words_of_alternatives;
use crate::select_fault::SelectFault;
use crate::tag_grammar::check_words;
use crate::tag_values::TagRule;
use crate::tag_words::{is_of_new_form, words_of};
use std::alloc::Global;

/// Returns whether a text is an expression: it has a space, a tab or a parenthesis.
pub fn has_new_form(text: &str) -> bool
    ensures { result ≡ list_any spec.is_of_new_form text.now }
{
    text.as_bytes().iter().any(|byte| is_of_new_form(*byte))
}

fn read_old_form(alloc: Global, text: &str) -> Result<TagRule, SelectFault>
    requires { list_any spec.is_of_new_form text.now ≡ false }
    ensures found { IfOk result (λ r. ReadsOldForm text.now r) }
    ensures memory { result ≡ Err Memory → FirstAlternativeSays text.now }
    ensures fault { IfErr result (λ e. (e ≡ Memory) ⊎ ((e ≡ BadTagText) × SpellsNone text.now)) }
{
    let words = words_of_alternatives(alloc, text)?;
    Ok(TagRule::of_words(words))
}

fn read_new_form(alloc: Global, text: &str) -> Result<TagRule, SelectFault>
    requires { list_any spec.is_of_new_form text.now ≡ true }
    ensures found { IfOk result (λ r. ReadsNewForm text.now r) }
    ensures memory { result ≡ Err Memory → FirstWordSays text.now }
    ensures fault { IfErr result (λ e. (e ≡ Memory) ⊎ ((e ≡ BadTagText) × SpellsNone text.now)) }
{
    let words = words_of(alloc, text)?;
    check_words(alloc, &words)?;
    Ok(TagRule::of_words(words))
}

fn read_either_form(alloc: Global, text: &str) -> Result<TagRule, SelectFault>
    ensures found { IfOk result (λ r. ReadsTags text.now r) }
    ensures memory { result ≡ Err Memory → NeedsMemory text.now }
    ensures fault { IfErr result (λ e. (e ≡ Memory) ⊎ ((e ≡ BadTagText) × SpellsNone text.now)) }
{
    if has_new_form(text) {
        read_new_form(alloc, text)
    } else {
        read_old_form(alloc, text)
    }
}

/// Returns the tag rule that a text spells.
///
/// A text with a space, a tab or a parenthesis is an expression. Any other text is alternatives separated by
/// commas; at least one of them has to hold.
///
/// In an expression `not` binds before `and`, and `and` before `or`; parentheses make groups. A tag is `@` and
/// at least one byte. Words end at a space, a tab or a parenthesis.
///
/// An alternative is an optional `~`, an optional `@` and a name of at least one byte. With `~` the tag has to
/// be absent. A name without an `@` must not begin with `~` or `-`; the `@` is added.
///
/// A text of alternatives spells no tag rule if one of them is malformed. An expression spells none if its words
/// don't follow the grammar, or if one of its tags has a comma or a backslash. Nor does it if more than 100
/// `not` and `(` are nested.
///
/// `BadTagText` comes only for a text that spells no tag rule. `Memory` comes only if a growth was refused, so it
/// can come in place of a tag rule or of `BadTagText`. It never comes if the first alternative is malformed, if the
/// first word of an expression is invalid, or if there is no word.
///
/// The time is linear in the length of the text. (behave's documentation: tag expressions; Cucumber's tag
/// expressions)
pub fn read_tags(alloc: Global, text: &str) -> Result<TagRule, SelectFault>
    // The result is a tag rule that the text spells.
    ensures found { IfOk result (λ r. ReadsTags text.now r) }
    // If the text spells a tag rule, that one is returned, unless memory runs out.
    ensures only { (rule : Expression) → ReadsTags text.now rule →
        AnswersOrLacksMemory (λ r. r) result (Some rule) }
    // Memory runs out only if the first alternative, or the first word of an expression, is valid.
    ensures memory { result ≡ Err Memory → NeedsMemory text.now }
    // The fault is `Memory` or, only for a text that spells no tag rule, `BadTagText`.
    ensures fault { IfErr result (λ e. (e ≡ Memory) ⊎ ((e ≡ BadTagText) × SpellsNone text.now)) }
{
    read_either_form(alloc, text)
}
