//! Causes of an unexpected line of a feature file, and what to do about each.
ghost use Rattle.std.specs.Prelude.{◌≡◌, map, take, find, reverse, IfOk};
ghost use Rattle.std.specs.String.{string_bytes};
ghost use Rattle.gk_lint.specs.Likeness.{like};
ghost use Rattle.gk_lint.specs.UnexpectedLines as spec;
ghost use Rattle.gk_lint.specs.declared.line_context.LineContext.TheVariants.{Elsewhere};

use crate::likeness::{like, same_letters};
use crate::line_context::{LineContext, after, class_in};
use gk_gherkin::text::{begins, trim};
use gk_gherkin::{Class, Keyword};
use std::alloc::{AllocError, Global};

/// Why a line of a feature file is unexpected.
#[derive(Clone, Copy, Debug, PartialEq, Eq)]
pub enum Cause {
    /// No heading is above it.
    NoFeature,
    /// It is the heading of another feature.
    SecondFeature,
    /// It is the heading of a Background below a scenario.
    LateBackground,
    /// It is the heading of a Background directly below another one.
    SecondBackground,
    /// It is the heading of a Background with tags.
    TaggedBackground,
    /// It is the heading of Examples, and no scenario is above it.
    ExamplesAlone,
    /// It has tags above it, and is no heading.
    BelowTags,
    /// It is a step, a fence or a text below the rows of Examples.
    BelowRows,
    /// It is a row or a fence below the block of a step.
    SecondBlock,
    /// It is another text below a doc string.
    BelowText,
    /// It begins with three single quotes.
    SingleQuotes,
    /// It begins with the step keyword, without a plain space and a text after it.
    OpenKeyword(Keyword),
    /// It begins with the keyword, and a heading's colon, in another case.
    OtherCase(Keyword),
    /// It begins like the keyword, or with a heading's keyword that no colon follows directly.
    Misspelt(Keyword),
    /// It is another text below a step or a table.
    FreeText,
}

impl Cause {
    // Returns what to do about the line, without the keyword that is named behind it.
    #[tactic(auto, unfolding(crate::specs::UnexpectedLines::cause_words))]
    fn words(self) -> &'static str
        ensures { result.now ≡ spec.cause_words self }
    {
        match self {
            Cause::NoFeature => "begin the file with Feature: and a name",
            Cause::SecondFeature => "a file has one feature: move this one into another file",
            Cause::LateBackground => "move the Background above the first scenario",
            Cause::SecondBackground => "a feature or a rule has one Background: join the two",
            Cause::TaggedBackground => "a Background has no tags: take out those above it",
            Cause::ExamplesAlone => "Examples: or Scenarios: belongs below the steps of a scenario",
            Cause::BelowTags => "tags belong above a heading: move those above this line",
            Cause::BelowRows => "write steps and texts above the Examples, not below their rows",
            Cause::SecondBlock => "a step has one doc string or one table: take out the other",
            Cause::BelowText => {
                "a doc string ends above: begin this line with a keyword, or close an earlier one"
            }
            Cause::SingleQuotes => "write three double quotes, or three backticks",
            Cause::OpenKeyword(_) => "write a plain space and a text directly after ",
            Cause::OtherCase(_) => "upper and lower case count: write ",
            Cause::Misspelt(_) => "the keyword is misspelt: write ",
            Cause::FreeText => {
                "a description ends at the first step: begin this line with a keyword, or with #"
            }
        }
    }

    // Returns the keyword that is named behind these words, or an empty text.
    #[tactic(auto, unfolding(crate::specs::UnexpectedLines::keyword_named))]
    fn keyword(self) -> &'static str
        ensures { result.now ≡ spec.keyword_named self }
    {
        match self {
            Cause::OpenKeyword(keyword) | Cause::OtherCase(keyword) | Cause::Misspelt(keyword) =>
                keyword.spelling(),
            _ => "",
        }
    }

    /// Returns what to do about the line. An error comes only if a growth was refused.
    pub fn text(self, alloc: Global) -> Result<String, AllocError>
        ensures { IfOk result (λ text. string_bytes text ≡ spec.cause_text self) }
    {
        let mut text = String::from_str(alloc, self.words())?;
        text.push_str(self.keyword())?;
        Ok(text)
    }
}

// Returns the classes of lines.
fn classes_of(alloc: Global, lines: &[&str]) -> Result<Vec<Class>, AllocError>
    ensures { IfOk result (λ classes. classes.items
        ≡ spec.classes_from Elsewhere (map (λ line. line.now) lines.now)) }
{
    let mut classes = Vec::new(alloc);
    let mut context = LineContext::Elsewhere;
    for text in lines {
        let class = class_in(context, *text);
        classes.push(class)?;
        context = after(context, class, *text);
    }
    Ok(classes)
}

fn is_heading(class: Class) -> bool
    ensures { result ≡ spec.is_heading class }
{
    match class {
        Class::FeatureHeading
        | Class::RuleHeading
        | Class::BackgroundHeading
        | Class::ScenarioHeading
        | Class::ExamplesHeading => true,
        _ => false,
    }
}

fn is_seen(class: Class) -> bool
    ensures { result ≡ spec.is_seen class }
{
    match class {
        Class::Blank | Class::Comment => false,
        _ => true,
    }
}

// Returns the nearest heading above a line, by the classes of the lines above.
fn heading_above(above: &[Class]) -> Option<Class>
    ensures { result ≡ spec.heading_above above.now }
{
    above.iter().rev().copied().find(|class| is_heading(*class))
}

// Returns the class of the nearest line above that is neither blank nor a comment.
fn seen_above(above: &[Class]) -> Option<Class>
    ensures { result ≡ spec.seen_above above.now }
{
    above.iter().rev().copied().find(|class| is_seen(*class))
}

// Returns the cause of an unexpected Background below a heading.
fn background_below(heading: Class) -> Cause
    ensures { result ≡ spec.background_below heading }
{
    match heading {
        Class::BackgroundHeading => Cause::SecondBackground,
        Class::ScenarioHeading | Class::ExamplesHeading => Cause::LateBackground,
        _ => Cause::TaggedBackground,
    }
}

// Returns the cause of an unexpected text, by the line directly above it.
fn text_below(seen: Option<Class>) -> Cause
    ensures { result ≡ spec.text_below seen }
{
    match seen {
        Some(Class::FenceLine(_)) => Cause::BelowText,
        _ => Cause::FreeText,
    }
}

// Returns the cause of another unexpected line below a heading, without tags directly above it.
fn part_below(heading: Class, seen: Option<Class>, class: Class) -> Cause
    ensures { result ≡ spec.part_below heading seen class }
{
    match heading {
        Class::ExamplesHeading => Cause::BelowRows,
        _ => match class {
            Class::RowLine | Class::FenceLine(_) => Cause::SecondBlock,
            _ => text_below(seen),
        },
    }
}

// Returns the cause of an unexpected line below a heading that is no heading itself.
fn line_below(heading: Class, seen: Option<Class>, class: Class) -> Cause
    ensures { result ≡ spec.line_below heading seen class }
{
    match seen {
        Some(Class::TagLine) => Cause::BelowTags,
        _ => part_below(heading, seen, class),
    }
}

// Returns the cause of an unexpected line below a heading.
fn below(heading: Class, seen: Option<Class>, class: Class) -> Cause
    ensures { result ≡ spec.below heading seen class }
{
    match class {
        Class::FeatureHeading => Cause::SecondFeature,
        Class::BackgroundHeading => background_below(heading),
        Class::ExamplesHeading => Cause::ExamplesAlone,
        _ => line_below(heading, seen, class),
    }
}

// Returns the cause of an unexpected line of this class below lines of these classes.
fn cause_by_place(above: &[Class], class: Class) -> Cause
    ensures { result ≡ spec.cause_by_place (spec.heading_above above.now)
        (spec.seen_above above.now) class }
{
    match heading_above(above) {
        None => Cause::NoFeature,
        Some(heading) => below(heading, seen_above(above), class),
    }
}

/// Returns the first values of some.
pub(crate) fn front<T>(len: usize, values: &[T]) -> &[T]
    ensures { result.now ≡ take len values.now }
{
    if len < values.len() {
        &values[..len]
    } else {
        values
    }
}

/// Returns the first texts of some.
pub(crate) fn first_texts<'a, 'b>(len: usize, texts: &'a [&'b str]) -> &'a [&'b str]
    ensures { map (λ text. text.now) result.now
        ≡ take len (map (λ text. text.now) texts.entry.now) }
{
    front(len, texts)
}

// Returns whether a text begins with a keyword in any case.
fn begins_in_any_case(text: &str, word: &str) -> bool
    ensures { result ≡ spec.begins_in_any_case text.now word.now }
{
    same_letters(front(word.len(), text.as_bytes()), word.as_bytes())
}

// Returns the cause of an unexpected text that begins like a keyword.
fn cause_by_keyword(text: &str, keyword: Keyword) -> Cause
    ensures { result ≡ spec.cause_by_keyword text.now keyword }
{
    if begins(text, keyword.spelling()) {
        Cause::OpenKeyword(keyword)
    } else if begins_in_any_case(text, keyword.spelling()) {
        Cause::OtherCase(keyword)
    } else {
        Cause::Misspelt(keyword)
    }
}

// Returns the cause of an unexpected text.
fn cause_by_text(alloc: Global, text: &str, otherwise: Cause) -> Result<Cause, AllocError>
    ensures { IfOk result (λ cause.
        cause ≡ spec.cause_by_text text.now (like text.now) otherwise) }
{
    match like(alloc, text)? {
        Some(keyword) => Ok(cause_by_keyword(text, keyword)),
        None => {
            if begins(text, "'''") {
                Ok(Cause::SingleQuotes)
            } else {
                Ok(otherwise)
            }
        }
    }
}

// Returns the cause of an unexpected line below lines of these classes.
fn cause_below(
    alloc: Global,
    above: &[Class],
    class: Class,
    text: &str,
) -> Result<Cause, AllocError>
    ensures { IfOk result (λ cause. cause ≡ spec.cause_below above.now class text.now) }
{
    let otherwise = cause_by_place(above, class);
    match class {
        Class::Other => cause_by_text(alloc, text, otherwise),
        _ => Ok(otherwise),
    }
}

/// Returns why the line at a position of a feature file is unexpected, if `read_feature` returned `Unexpected` for it.
/// Positions are counted from 0; without a line at this one, nothing is returned. An error comes only if a growth was
/// refused.
pub fn cause_at(alloc: Global, lines: &[&str], position: usize) -> Result<Option<Cause>, AllocError>
    ensures { IfOk result (λ cause.
        cause ≡ spec.cause_at (map (λ line. line.now) lines.now) position) }
{
    let classes = classes_of(alloc, lines)?;
    match lines.get(position) {
        Some(text) => match classes.get(position).copied() {
            Some(class) => {
                let above = front(position, classes.as_slice());
                let cause = cause_below(alloc, above, class, trim(*text))?;
                Ok(Some(cause))
            }
            None => Ok(None),
        },
        None => Ok(None),
    }
}
