//! The headings of a hooks file.
ghost use Rattle.std.specs.Prelude.{codes, nat_eq, option_map, not, ◌≡◌};
ghost use Rattle.std.specs.List.{list_all, ends_with};
ghost use Rattle.gk_gherkin.specs.Lines.{borrowed_value};
ghost use Rattle.gk_gherkin.specs.Text.{is_blank};
ghost use Rattle.gk_gherkin.specs.Class as words;
ghost use Rattle.gk_gherkin.specs.HookHeadings as spec;

use crate::class::Class;
use crate::hooks::HookKind;
use crate::lines::BorrowedLine;
use crate::tags::is_tag;
use crate::text::{begins, begins_word, is_blank, is_word, trim, trim_front};

/// The class of a line in a hooks file: a hook line if its trimmed text begins with `before_` or
/// `after_`, and otherwise the line's class in a feature file. (this project's profile)
#[derive(Clone, Copy)]
pub enum HooksClass {
    HookLine,
    Plain(Class),
}

/// The contents of a hook's heading: its kind, and the tag that it is for, if its kind has one.
/// (behave's documentation: environment file functions)
#[derive(Clone, Copy)]
pub struct HookHeading<'a> {
    pub kind: HookKind,
    pub tag: Option<&'a str>,
}

/// Returns the class in a hooks file of a line with this class in a feature file.
#[tactic(auto, unfolding(crate::specs::HookHeadings::hooks_class))]
pub fn hooks_class(line: &BorrowedLine<'_>, class: Class) -> HooksClass
    requires { class ≡ words.class (borrowed_value line.now) }
    ensures { result ≡ spec.hooks_class (borrowed_value line.now) }
{
    let text = trim(line.text);
    if begins(text, "before_") || begins(text, "after_") {
        HooksClass::HookLine
    } else {
        HooksClass::Plain(class)
    }
}

// Returns the kind of the heading that a text spells, if it is one without a tag.
fn plain_kind(text: &str) -> Option<HookKind>
    ensures { option_map (λ kind. spec.plain kind) result ≡ spec.plain_heading text.now }
{
    if is_word(text, "before_all:") {
        Some(HookKind::BeforeAll)
    } else if is_word(text, "after_all:") {
        Some(HookKind::AfterAll)
    } else if is_word(text, "before_feature:") {
        Some(HookKind::BeforeFeature)
    } else if is_word(text, "after_feature:") {
        Some(HookKind::AfterFeature)
    } else if is_word(text, "before_rule:") {
        Some(HookKind::BeforeRule)
    } else if is_word(text, "after_rule:") {
        Some(HookKind::AfterRule)
    } else if is_word(text, "before_scenario:") {
        Some(HookKind::BeforeScenario)
    } else if is_word(text, "after_scenario:") {
        Some(HookKind::AfterScenario)
    } else {
        None
    }
}

fn has_no_blank(text: &[u8]) -> bool
    ensures { result ≡ list_all (λ b. not (is_blank b)) text.now }
{
    text.iter().all(|byte| !is_blank(*byte))
}

fn tag_alone(text: &str) -> Option<&str>
    ensures { option_map (λ t. t.now) result ≡ spec.tag_alone text.now }
{
    if is_tag(text) && has_no_blank(text.as_bytes()) {
        Some(text)
    } else {
        None
    }
}

fn ends_in_colon(text: &str) -> bool
    ensures { result ≡ ends_with nat_eq text.now (codes ":") }
{
    text.as_bytes().ends_with(b":")
}

// Returns the tag between a word followed by a space or a tab and the colon at the text's end.
#[tactic(auto, using(std::proofs::lemmas::Grind::common_steps, crate::proofs::HookHeadingTexts::between))]
fn tag_between<'a>(word: &str, text: &'a str) -> Option<&'a str>
    ensures { option_map (λ t. t.now) result ≡ spec.tag_between word.now text.now }
{
    if begins_word(text, word) && ends_in_colon(text) {
        tag_alone(trim_front(&text[word.len()..text.len() - 1]))
    } else {
        None
    }
}

/// Returns the heading that a line spells, or `None` for any other text.
#[tactic(auto, unfolding(crate::specs::HookHeadings::hook_heading))]
pub fn hook_heading<'a>(line: &BorrowedLine<'a>) -> Option<HookHeading<'a>>
    ensures { option_map spec.heading_value result ≡ spec.hook_heading (borrowed_value line.now) }
{
    let text = trim(line.text);
    if let Some(kind) = plain_kind(text) {
        Some(HookHeading { kind, tag: None })
    } else if let Some(tag) = tag_between("before_tag", text) {
        Some(HookHeading {
            kind: HookKind::BeforeTag,
            tag: Some(tag),
        })
    } else if let Some(tag) = tag_between("after_tag", text) {
        Some(HookHeading {
            kind: HookKind::AfterTag,
            tag: Some(tag),
        })
    } else {
        None
    }
}
