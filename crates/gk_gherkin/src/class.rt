//! The classes of lines.
ghost use Rattle.std.specs.Prelude.{◌≡◌, IsTrue};
ghost use Rattle.std.specs.List.{list_any};
ghost use Rattle.std.specs.Str.{bytes_eq};
ghost use Rattle.gk_gherkin.specs.Keyword.{keyword_text};
ghost use Rattle.gk_gherkin.specs.Lines.{borrowed_value};
ghost use Rattle.gk_gherkin.specs.Class as spec;
ghost use Rattle.gk_gherkin.specs.Class.{scenario_words};
ghost use Rattle.gk_gherkin.specs.declared.class.Class.TheVariants.{ScenarioHeading, StepLine};

use crate::keyword::Keyword;
use crate::lines::BorrowedLine;
use crate::text::{begins, begins_word, is_word, split_word, trim};

/// The two fences of doc strings. (Cucumber's Gherkin reference: doc strings)
#[derive(Clone, Copy)]
pub enum Fence {
    /// Three double quotes.
    Quotes,
    /// Three backticks.
    Backticks,
}

/// The class of a line: the first that fits its text, without leading and trailing spaces and tabs.
/// A heading's class is that of its keyword with the colon. (Cucumber's Gherkin reference:
/// keywords)
#[derive(Clone, Copy)]
pub enum Class {
    /// No text.
    Blank,
    /// Begins with `#`.
    Comment,
    /// Begins with `@`.
    TagLine,
    /// Begins with `Feature:`.
    FeatureHeading,
    /// Begins with `Rule:`.
    RuleHeading,
    /// Begins with `Background:`.
    BackgroundHeading,
    /// Begins with `Scenario:`, `Example:`, `Scenario Outline:` or `Scenario Template:`.
    ScenarioHeading,
    /// Begins with `Examples:` or `Scenarios:`.
    ExamplesHeading,
    /// Begins with `Given`, `When`, `Then`, `And`, `But` or `*`, and a space or a tab.
    StepLine,
    /// Begins with `|`.
    RowLine,
    /// Begins with three double quotes or three backticks.
    FenceLine(Fence),
    /// Anything else.
    Other,
}

fn begins_as_step(text: &str) -> bool
    ensures { result ≡ spec.begins_as_step text.now }
{
    begins_word(text, "Given")
        || begins_word(text, "When")
        || begins_word(text, "Then")
        || begins_word(text, "And")
        || begins_word(text, "But")
        || begins_word(text, "*")
}

fn begins_as_scenario(text: &str) -> bool
    ensures { result ≡ spec.begins_with_one text.now spec.scenario_keywords }
{
    begins(text, "Scenario:")
        || begins(text, "Example:")
        || begins(text, "Scenario Outline:")
        || begins(text, "Scenario Template:")
}

fn begins_as_examples(text: &str) -> bool
    ensures { result ≡ spec.begins_with_one text.now spec.examples_keywords }
{
    begins(text, "Examples:") || begins(text, "Scenarios:")
}

#[tactic(auto, unfolding(crate::specs::Class::class_of_words))]
fn class_of_words(text: &str) -> Class
    ensures { result ≡ spec.class_of_words text.now }
{
    if begins(text, "Feature:") {
        Class::FeatureHeading
    } else if begins(text, "Rule:") {
        Class::RuleHeading
    } else if begins(text, "Background:") {
        Class::BackgroundHeading
    } else if begins_as_scenario(text) {
        Class::ScenarioHeading
    } else if begins_as_examples(text) {
        Class::ExamplesHeading
    } else if begins_as_step(text) {
        Class::StepLine
    } else if begins(text, "|") {
        Class::RowLine
    } else if begins(text, "\"\"\"") {
        Class::FenceLine(Fence::Quotes)
    } else if begins(text, "```") {
        Class::FenceLine(Fence::Backticks)
    } else {
        Class::Other
    }
}

#[tactic(auto, unfolding(crate::specs::Class::class_of))]
fn class_of(text: &str) -> Class
    ensures { result ≡ spec.class_of text.now }
{
    if text.is_empty() {
        Class::Blank
    } else if begins(text, "#") {
        Class::Comment
    } else if begins(text, "@") {
        Class::TagLine
    } else {
        class_of_words(text)
    }
}

/// Returns the class of a line.
#[tactic(auto, unfolding(crate::specs::Class::class))]
pub fn class_of_line(line: &BorrowedLine<'_>) -> Class
    ensures { result ≡ spec.class (borrowed_value line.now) }
{
    class_of(trim(line.text))
}

// Returns the keyword of a heading, without its colon.
#[tactic(auto, using(std::proofs::lemmas::Grind::common_steps, crate::proofs::ClassWords::at_colon, crate::proofs::ClassWords::no_colon), unfolding(crate::specs::Class::heading_keyword))]
fn heading_keyword<'a>(line: &BorrowedLine<'a>) -> &'a str
    ensures { result.now ≡ spec.heading_keyword (borrowed_value line.now) }
{
    let text = trim(line.text);
    match text.split_once(':') {
        Some((keyword, _)) => keyword,
        None => text,
    }
}

// Returns the keyword of a scenario or an outline that a word is.
fn scenario_word(word: &str) -> Keyword
    requires { IsTrue (list_any (bytes_eq word.now) scenario_words) }
    ensures { keyword_text result ≡ word.now }
{
    if is_word(word, "Scenario") {
        Keyword::Scenario
    } else if is_word(word, "Scenario Outline") {
        Keyword::ScenarioOutline
    } else if is_word(word, "Example") {
        Keyword::Example
    } else {
        Keyword::ScenarioTemplate
    }
}

/// Returns the keyword of the heading of a scenario or an outline.
#[tactic(auto, using(crate::proofs::KeywordWords::scenario_is_word))]
pub fn scenario_keyword(line: &BorrowedLine<'_>) -> Keyword
    requires { spec.class (borrowed_value line.now) ≡ ScenarioHeading }
    ensures { keyword_text result ≡ spec.heading_keyword (borrowed_value line.now) }
{
    scenario_word(heading_keyword(line))
}

/// Returns the name of a heading: the text after its first colon, trimmed.
pub fn heading_name<'a>(line: &BorrowedLine<'a>) -> &'a str
    ensures { result.now ≡ spec.heading_name (borrowed_value line.now) }
{
    let text = trim(line.text);
    match text.split_once(':') {
        Some((_, name)) => trim(name),
        None => "",
    }
}

// Returns the keyword of a step that a word is.
fn step_word(word: &str) -> Keyword
    requires { IsTrue (list_any (bytes_eq word.now) spec.step_keywords) }
    ensures { keyword_text result ≡ word.now }
{
    if is_word(word, "Given") {
        Keyword::Given
    } else if is_word(word, "When") {
        Keyword::When
    } else if is_word(word, "Then") {
        Keyword::Then
    } else if is_word(word, "And") {
        Keyword::And
    } else if is_word(word, "But") {
        Keyword::But
    } else {
        Keyword::Star
    }
}

/// Returns the keyword of a step, and the text after the keyword, trimmed.
#[tactic(auto, using(crate::proofs::KeywordWords::step_is_word), unfolding(crate::specs::Class::step_keyword, crate::specs::Class::step_text))]
pub fn step_parts<'a>(line: &BorrowedLine<'a>) -> (Keyword, &'a str)
    requires { spec.class (borrowed_value line.now) ≡ StepLine }
    ensures keyword { keyword_text result.0 ≡ spec.step_keyword (borrowed_value line.now) }
    ensures text { result.1.now ≡ spec.step_text (borrowed_value line.now) }
{
    let (word, rest) = split_word(trim(line.text));
    (step_word(word), trim(rest))
}
