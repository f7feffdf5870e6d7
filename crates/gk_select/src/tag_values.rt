//! Tag rules, evaluated for a set of tags. The words of an expression are read from the last to the first.
ghost use Rattle.std.specs.Prelude.{◌≡◌, ◌-◌, ◌<◌, ◌^◌, ◌++◌, length, map, OnOk, IfOk};
ghost use Rattle.std.specs.List.{list_any};
ghost use Rattle.std.specs.Str.{bytes_eq};
ghost use Rattle.gk_gherkin.specs.Feature.{texts};
ghost use Rattle.gk_select.specs.TagLists.{tags_of};
ghost use Rattle.gk_select.specs.TagGrammar.{Expression, SpeltBy, spelling, tags_in};
ghost use Rattle.gk_select.specs.TagTrees.{spelt_once};
ghost use Rattle.gk_select.specs.TagValues.{holds, seen_before, seen_value, seen_depth};
ghost use Rattle.gk_select.specs.TagWords.{word_value, tags_among};

use crate::names::Names;
use crate::tag_lists::TagLists;
use crate::tag_words::Word;
use std::alloc::{AllocError, Global};
use std::marker::Model;

/// The state of the evaluation after the words read so far.
#[derive(Clone, Copy, Debug)]
pub enum Seen {
    /// The value of the factor just read. All that is joined to it holds, and nothing after the next `or` does.
    Value(bool),
    /// The term fails, and the rest of it is skipped. The number is how many groups deep the skipped words are
    /// now.
    Failed(usize),
    /// The expression holds, and the rest of it is skipped. The number is how many groups deep the skipped
    /// words are now.
    Held(usize),
}

impl Seen {
    /// Returns the value of the expression once all of its words are read.
    pub fn value(self) -> bool
        ensures { result ≡ seen_value self }
    {
        match self {
            Seen::Value(value) => value,
            Seen::Failed(_) => false,
            Seen::Held(_) => true,
        }
    }

    // Returns the state once the word before those read so far is read too.
    pub fn before(self, word: &Word, tags: &TagLists<'_, '_>) -> Seen
        requires { seen_depth self < 2 ^ 64 - 1 }
        ensures { result ≡ seen_before (tags_of tags.now) (word_value word.now) self }
    {
        match self {
            Seen::Value(value) => match word {
                Word::Tag(tag) => Seen::Value(is_in_one(tag, tags)),
                Word::Not => Seen::Value(!value),
                Word::And => if value { self } else { Seen::Failed(0) },
                Word::Or => if value { Seen::Held(0) } else { self },
                Word::Open | Word::Close => self,
            },
            Seen::Failed(depth) => match word {
                Word::Open => if depth == 0 {
                    Seen::Value(false)
                } else {
                    Seen::Failed(depth - 1)
                },
                Word::Close => Seen::Failed(depth + 1),
                Word::Or => if depth == 0 { Seen::Value(false) } else { self },
                Word::And | Word::Not | Word::Tag(_) => self,
            },
            Seen::Held(depth) => match word {
                Word::Open => if depth == 0 {
                    Seen::Value(true)
                } else {
                    Seen::Held(depth - 1)
                },
                Word::Close => Seen::Held(depth + 1),
                Word::And | Word::Or | Word::Not | Word::Tag(_) => self,
            },
        }
    }
}

// Returns whether a tag is in one of the lists of a case's tags.
fn is_in_one(tag: &str, tags: &TagLists<'_, '_>) -> bool
    ensures { result ≡ list_any (bytes_eq tag.now) (tags_of tags.now) }
{
    tags.feature.has(tag) || tags.rule.has(tag) || tags.scenario.has(tag) || tags.examples.has(tag)
}

// Appends the tags among the words.
fn push_tags<'a>(all: &mut Vec<&'a str>, words: &'a [Word]) -> Result<(), AllocError>
    ensures { OnOk result (map (λ t. t.now) all.new.items
        ≡ map (λ t. t.now) all.old.items ++ tags_among (map word_value words.now)) }
{
    for word in words {
        if let Word::Tag(tag) = word {
            all.push(tag.as_str())?;
        }
    }
    Ok(())
}

/// A tag rule, in either form. It holds for a set of tags or doesn't.
#[derive(Debug, Drop)]
pub struct TagRule {
    words: Vec<Word>,
    ghost spelt: { SpeltBy (map word_value words.items) } by { spelt_once (map word_value words.items) },
}

impl Model for TagRule {
    ghost use Rattle.gk_select.specs.TagGrammar.{Expression};
    ghost use Rattle.gk_select.specs.TagTrees.{expression_code};

    ghost Value = { Expression };

    ghost coded = { expression_code };

    ghost view = { λ rule. rule.spelt.0 };
}

impl TagRule {
    /// Returns the tag rule that these words spell.
    pub(crate) fn of_words(words: Vec<Word>) -> TagRule
        requires { SpeltBy (map word_value words.items) }
        ensures { (e : Expression) → spelling e ≡ map word_value words.items →
            result ≡ e }
    {
        TagRule { words }
    }

    /// Returns the number of its words.
    pub(crate) fn word_count(&self) -> usize
        ensures { result ≡ length (spelling self.now) }
    {
        self.words.len()
    }

    /// Returns whether the tag rule holds for a set of tags, each with its `@`. Doesn't allocate. (behave's
    /// documentation: tag expressions; Cucumber's tag expressions)
    pub fn selects(&self, tags: &[String]) -> bool
        ensures { result ≡ holds self.now (texts tags.now) }
    {
        let all = Names::scanned(tags);
        let none = Names::scanned(&[]);
        self.holds_for(&TagLists {
            feature: &all,
            rule: &none,
            scenario: &none,
            examples: &none,
        })
    }

    /// Returns whether the tag rule holds for the tags of a case. Doesn't allocate.
    #[tactic(auto, using(std::proofs::lemmas::Grind::common_steps, crate::proofs::TagShows::value_seen, crate::proofs::TagShows::depth_seen))]
    pub(crate) fn holds_for(&self, tags: &TagLists<'_, '_>) -> bool
        ensures { result ≡ holds self.now (tags_of tags.now) }
    {
        let words = self.words.as_slice();
        let mut seen = Seen::Value(false);
        let mut at = words.len();
        while at > 0 {
            at -= 1;
            seen = seen.before(&words[at], tags);
        }
        seen.value()
    }

    /// Returns the tags that the tag rule names, each with its `@`, in the order of its text. A tag is listed as
    /// often as it occurs there, whether negated or not. An error comes only if a growth was refused.
    #[tactic(auto, using(crate::proofs::TagNames::among_words))]
    pub fn tags(&self, alloc: Global) -> Result<Vec<&str>, AllocError>
        ensures { IfOk result (λ tags. map (λ t. t.now) tags.items
            ≡ tags_in self.now) }
    {
        let mut tags = Vec::new(alloc);
        push_tags(&mut tags, self.words.as_slice())?;
        Ok(tags)
    }
}
