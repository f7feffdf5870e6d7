//! The place where a text stops spelling a tag rule.
ghost use Rattle.std.specs.Prelude.{◌≡◌, ◌≤◌, ◌<◌, ◌+◌, ◌-◌, ◌^◌, Some, None, option_map};
ghost use Rattle.gk_select.specs.Alternatives as of_alternatives;
ghost use Rattle.gk_select.specs.TagGrammar.{Expression};
ghost use Rattle.gk_select.specs.TagRules.{ReadsTags};
ghost use Rattle.gk_select.specs.TagStops as spec;
ghost use Rattle.gk_select.specs.TagStops.{stop_value};
ghost use Rattle.gk_select.specs.declared.tag_stops.TagPlace.{TagPlace};
ghost use Rattle.gk_select.specs.TagWords.{word_said, words_of_text};

use crate::alternatives::is_alternative;
use crate::tag_rules::has_new_form;
use crate::tag_words::{is_tag_word, word_end};
use gk_gherkin::text::is_blank;

/// What a tag rule has to have at a place.
#[derive(Clone, Copy, Debug, PartialEq, Eq)]
pub enum Wanted {
    /// A tag, `not` or `(`.
    Operand,
    /// `and` or `or`. In a group also `)`, and outside of groups also the end.
    Operator,
    /// `)`, since the text ends in a group.
    Close,
    /// A tag, with or without `~`.
    Alternative,
}

/// A place at which a text stops spelling a tag rule.
#[derive(Clone, Copy, Debug)]
pub struct TagStop<'a> {
    /// The word or the alternative that isn't allowed there; `None` at the end of the text.
    pub at: Option<&'a str>,
    pub wanted: Wanted,
}

/// A place between two words of an expression.
#[derive(Clone, Copy, Debug)]
struct TagPlace {
    /// Whether an operand is wanted.
    operand: bool,
    /// The number of groups that are open.
    groups: usize,
}

impl TagPlace {
    // Returns the place after an operand's word, if it is one.
    fn after_operand(self, word: &str) -> Option<TagPlace>
        requires { self.groups < 2 ^ 64 - 1 }
        ensures place { result ≡ spec.after_operand self.groups (word_said word.now) }
        ensures grown { (next : TagPlace) → result ≡ Some next → next.groups ≤ self.groups + 1 }
    {
        if word == "(" {
            return Some(TagPlace {
                operand: true,
                groups: self.groups + 1,
            });
        }
        if word == "not" {
            return Some(TagPlace {
                operand: true,
                groups: self.groups,
            });
        }
        if is_tag_word(word) {
            return Some(TagPlace {
                operand: false,
                groups: self.groups,
            });
        }
        None
    }

    // Returns the place after a word that follows an operand, if it is one.
    fn after_operator(self, word: &str) -> Option<TagPlace>
        ensures place { result ≡ spec.after_operator self.groups (word_said word.now) }
        ensures grown { (next : TagPlace) → result ≡ Some next → next.groups ≤ self.groups + 1 }
    {
        if word == ")" {
            if self.groups == 0 {
                return None;
            }
            return Some(TagPlace {
                operand: false,
                groups: self.groups - 1,
            });
        }
        if word == "and" || word == "or" {
            return Some(TagPlace {
                operand: true,
                groups: self.groups,
            });
        }
        None
    }

    // Returns the place after a word, if the word may stand here.
    fn after(self, word: &str) -> Option<TagPlace>
        requires { self.groups < 2 ^ 64 - 1 }
        ensures place { result ≡ spec.place_after self (word_said word.now) }
        ensures grown { (next : TagPlace) → result ≡ Some next → next.groups ≤ self.groups + 1 }
    {
        if self.operand {
            self.after_operand(word)
        } else {
            self.after_operator(word)
        }
    }

    // Returns what is expected here.
    fn wanted(self) -> Wanted
        ensures { result ≡ spec.wanted_at self }
    {
        if self.operand {
            Wanted::Operand
        } else {
            Wanted::Operator
        }
    }

    // Returns the stop at the end of a text that ends here, if it may not end here.
    fn end(self) -> Option<TagStop<'static>>
        ensures { option_map stop_value result ≡ spec.stop_at_end self }
    {
        if self.operand {
            return Some(TagStop {
                at: None,
                wanted: Wanted::Operand,
            });
        }
        if self.groups > 0 {
            return Some(TagStop {
                at: None,
                wanted: Wanted::Close,
            });
        }
        None
    }
}

// Returns the stop in the words of a text, if there is one: the first word that isn't allowed where it is, or the end.
fn stop_in_words(text: &str) -> Option<TagStop<'_>>
    ensures { option_map stop_value result
        ≡ spec.stop_in spec.first_place (words_of_text text.now) }
{
    let mut place = TagPlace {
        operand: true,
        groups: 0,
    };
    let mut rest = text;
    'words: while !rest.is_empty() {
        let end = word_end(rest.as_bytes());
        if !is_blank(rest.as_bytes()[0]) {
            let word = &rest[..end];
            match place.after(word) {
                Some(next) => place = next,
                None => {
                    return Some(TagStop {
                        at: Some(word),
                        wanted: place.wanted(),
                    });
                }
            }
        }
        rest = &rest[end..];
    }
    place.end()
}

// Returns the stop at the first malformed alternative, if there is one.
fn stop_in_alternatives(text: &str) -> Option<TagStop<'_>>
    ensures { option_map stop_value result
        ≡ spec.stop_in_pieces (of_alternatives.pieces text.now) }
{
    for piece in text.split(',') {
        if !is_alternative(piece) {
            return Some(TagStop {
                at: Some(piece),
                wanted: Wanted::Alternative,
            });
        }
    }
    None
}

/// Returns the place at which a text stops spelling a tag rule, if it does. In an expression it is the first word that
/// isn't allowed after the words before it, or the end. Otherwise it is the first malformed alternative. A text whose
/// groups are only nested too deep stops nowhere. (behave's documentation: tag expressions; Cucumber's tag expressions)
pub fn tag_stop(text: &str) -> Option<TagStop<'_>>
    ensures stop { option_map stop_value result ≡ spec.tag_stop text.now }
    // A text that spells a tag rule stops nowhere.
    ensures none { (rule : Expression) → ReadsTags text.now rule → spec.tag_stop text.now ≡ None }
{
    if has_new_form(text) {
        stop_in_words(text)
    } else {
        stop_in_alternatives(text)
    }
}
