//! The reader of a feature file: the feature so far, and the effect of each line.
ghost use Rattle.std.specs.Prelude.{Option, option_map, map, Ok, IfOk, IfErr, ◌≡◌, ◌≢◌};
ghost use Rattle.std.specs.String.{string_bytes};
ghost use Rattle.gk_gherkin.specs.Lines.{borrowed_value, lines_of, IsText};
ghost use Rattle.gk_gherkin.specs.Class as words;
ghost use Rattle.gk_gherkin.specs.Feature.{FeatureValue, texts, rule_value, feature_value};
ghost use Rattle.gk_gherkin.specs.Grammar.{Reads};
ghost use Rattle.gk_gherkin.specs.ReadFault.{AnswersOrLacksMemory, BeginsWithTag, FaultSays, FeatureFault};
ghost use Rattle.gk_gherkin.specs.Results.{Agrees};
ghost use Rattle.gk_gherkin.specs.OpenParts as parts;
ghost use Rattle.gk_gherkin.specs.FeatureReader as spec;
ghost use Rattle.gk_gherkin.specs.FeatureReader.Views.{so_far_value, tagged_value, reader_value};
ghost use Rattle.gk_gherkin.specs.FeatureReader.Views.{TakesHeading, AddsTags};
ghost use Rattle.gk_gherkin.specs.declared.read_fault.ReadFault.TheVariants.{Memory};

use crate::class::{Class, heading_name};
use crate::feature::{Feature, Rule};
use crate::language::language_of;
use crate::lines::BorrowedLine;
use crate::open_parts::{
    children_take_text, heading_in, on_children, put, put_text_in, unexpected,
};
use crate::read_fault::ReadFault;
use crate::reading::{FileReader, read};
use crate::tags::tags_of;
use crate::text::is_word;
use std::alloc::Global;
use std::mem;

/// The tags of some lines, and the number of the last of these lines.
#[derive(Drop)]
pub struct TagLines {
    pub tags: Vec<String>,
    pub last: u32,
}

/// The feature so far, and the tags that wait for their heading, if there are any. Without these
/// tags and outside of doc strings, the lines so far read as the feature so far.
#[derive(Drop)]
pub struct FeatureReader {
    pub feature: Option<Feature>,
    pub tags: Option<TagLines>,
}

#[inline(never)]
fn feature_from(
    alloc: Global,
    tags: Vec<String>,
    line: &BorrowedLine<'_>,
) -> Result<Feature, ReadFault>
    ensures { Agrees feature_value result
        (Ok (spec.feature_from (texts tags.items) (borrowed_value line.now))) }
{
    let name = String::from_str(alloc, heading_name(line))?;
    Ok(Feature {
        name,
        line: line.place.line,
        tags,
        background: None,
        scenarios: Vec::new(alloc),
        rules: Vec::new(alloc),
    })
}

#[inline(never)]
fn rule_from(alloc: Global, tags: Vec<String>, line: &BorrowedLine<'_>) -> Result<Rule, ReadFault>
    ensures { Agrees rule_value result
        (Ok (spec.rule_from (texts tags.items) (borrowed_value line.now))) }
{
    Ok(Rule {
        name: String::from_str(alloc, heading_name(line))?,
        line: line.place.line,
        tags,
        background: None,
        scenarios: Vec::new(alloc),
    })
}

// Takes the heading of a scenario or of examples.
#[tactic(auto, using(crate::proofs::LastItems::get_last, crate::proofs::LastItems::set_last))]
fn heading_in_feature(
    alloc: Global,
    feature: &mut Feature,
    tags: Vec<String>,
    line: &BorrowedLine<'_>,
    class: Class,
) -> Result<(), ReadFault>
    requires { class ≡ words.class (borrowed_value line.now) }
    ensures { let old = feature_value feature.old in
        Agrees (λ _. feature_value feature.new) result
        (spec.heading_in_feature old (texts tags.items) (borrowed_value line.now) class) }
{
    match feature.rules.last_mut() {
        Some(rule) => heading_in(alloc, &mut rule.scenarios, tags, line, class),
        None => heading_in(alloc, &mut feature.scenarios, tags, line, class),
    }
}

#[tactic(auto, unfolding(crate::specs::FeatureReader::on_heading))]
fn on_heading(
    alloc: Global,
    feature: &mut Option<Feature>,
    tags: Vec<String>,
    line: &BorrowedLine<'_>,
    class: Class,
) -> Result<(), ReadFault>
    requires { class ≡ words.class (borrowed_value line.now) }
    ensures says { TakesHeading feature.old tags.items line.now class result feature.new }
    ensures memory { IfErr result (λ e. e ≡ Memory →
        spec.NeedsAt (so_far_value feature.old) (borrowed_value line.now) class) }
{
    match feature {
        None => match class {
            Class::FeatureHeading => {
                put(feature, Some(feature_from(alloc, tags, line)?));
                Ok(())
            }
            _ => Err(unexpected(line)),
        },
        Some(feature) => match class {
            Class::RuleHeading => {
                feature.rules.push(rule_from(alloc, tags, line)?)?;
                Ok(())
            }
            _ => heading_in_feature(alloc, feature, tags, line, class),
        },
    }
}

#[tactic(auto, using(crate::proofs::LastItems::get_last, crate::proofs::LastItems::set_last))]
fn line_in_feature(
    alloc: Global,
    feature: &mut Feature,
    line: &BorrowedLine<'_>,
    class: Class,
) -> Result<(), ReadFault>
    requires { class ≡ words.class (borrowed_value line.now) }
    ensures { Agrees (λ _. feature_value feature.new) result
        (spec.line_in_feature (feature_value feature.old) (borrowed_value line.now) class) }
{
    match feature.rules.last_mut() {
        Some(rule) => on_children(
            alloc,
            &mut rule.background,
            &mut rule.scenarios,
            line,
            class,
        ),
        None => on_children(
            alloc,
            &mut feature.background,
            &mut feature.scenarios,
            line,
            class,
        ),
    }
}

#[tactic(auto, unfolding(crate::specs::FeatureReader::on_line))]
fn on_line(
    alloc: Global,
    feature: &mut Option<Feature>,
    line: &BorrowedLine<'_>,
    class: Class,
) -> Result<(), ReadFault>
    requires { class ≡ words.class (borrowed_value line.now) }
    ensures says { Agrees (λ _. so_far_value feature.new) result
        (spec.on_line (so_far_value feature.old) (borrowed_value line.now) class) }
    ensures memory { IfErr result (λ e. e ≡ Memory →
        spec.NeedsAt (so_far_value feature.old) (borrowed_value line.now) class) }
{
    match feature {
        None => Err(unexpected(line)),
        Some(feature) => line_in_feature(alloc, feature, line, class),
    }
}

fn check_comment(feature: &Option<Feature>, line: &BorrowedLine<'_>) -> Result<(), ReadFault>
    ensures says { (old : spec.FeatureReader) → Agrees (λ _. old) result
        (spec.on_comment (so_far_value feature.now) old (borrowed_value line.now)) }
    ensures free { IfErr result (λ e. e ≢ Memory) }
{
    match feature {
        None => match language_of(line) {
            Some(word) => {
                if is_word(word, "en") {
                    Ok(())
                } else {
                    Err(ReadFault::Language {
                        line: line.place.line,
                    })
                }
            }
            None => Ok(()),
        },
        Some(_) => Ok(()),
    }
}

// Appends the tags of a line to those before it.
#[tactic(auto, using(crate::proofs::FirstTags::good_found))]
fn tag_line(
    alloc: Global,
    tags: Vec<String>,
    line: &BorrowedLine<'_>,
) -> Result<TagLines, ReadFault>
    ensures says { AddsTags tags.items line.now result }
    ensures memory { IfErr result (λ e. e ≡ Memory → BeginsWithTag (borrowed_value line.now)) }
{
    match tags_of(alloc, line)? {
        Some(more) => {
            let mut tags = tags;
            let mut more = more;
            tags.append(&mut more)?;
            let last = line.place.line;
            Ok(TagLines { tags, last })
        }
        None => Err(ReadFault::BadTag {
            line: line.place.line,
        }),
    }
}

// Takes a line after no tags. Returns the tags that wait for a heading then.
#[tactic(auto, unfolding(crate::specs::FeatureReader::on))]
fn after_no_tags(
    alloc: Global,
    feature: &mut Option<Feature>,
    line: &BorrowedLine<'_>,
    class: Class,
) -> Result<Option<TagLines>, ReadFault>
    requires { class ≡ words.class (borrowed_value line.now) }
    ensures says { Agrees (λ tags. tagged_value feature.new tags) result
        (spec.on (spec.Untagged (so_far_value feature.old)) (borrowed_value line.now) class) }
    ensures memory { IfErr result (λ e. e ≡ Memory →
        spec.NeedsAt (so_far_value feature.old) (borrowed_value line.now) class) }
{
    match class {
        Class::Blank => Ok(None),
        Class::TagLine => Ok(Some(tag_line(alloc, Vec::new(alloc), line)?)),
        Class::Comment => {
            check_comment(feature, line)?;
            Ok(None)
        }
        Class::FeatureHeading
        | Class::RuleHeading
        | Class::ScenarioHeading
        | Class::ExamplesHeading => {
            on_heading(alloc, feature, Vec::new(alloc), line, class)?;
            Ok(None)
        }
        _ => {
            on_line(alloc, feature, line, class)?;
            Ok(None)
        }
    }
}

// Takes a line after tags. Returns the tags that wait for a heading then.
#[tactic(auto, unfolding(crate::specs::FeatureReader::on))]
fn after_tags(
    alloc: Global,
    feature: &mut Option<Feature>,
    before: TagLines,
    line: &BorrowedLine<'_>,
    class: Class,
) -> Result<Option<TagLines>, ReadFault>
    requires { class ≡ words.class (borrowed_value line.now) }
    ensures { let old = spec.Tagged (so_far_value feature.old) (texts before.tags.items) in
        Agrees (λ tags. tagged_value feature.new tags) result
        (spec.on (old before.last) (borrowed_value line.now) class) }
{
    match class {
        Class::Blank => Ok(Some(before)),
        Class::TagLine => Ok(Some(tag_line(alloc, before.tags, line)?)),
        Class::Comment => {
            check_comment(feature, line)?;
            Ok(Some(before))
        }
        _ => {
            on_heading(alloc, feature, before.tags, line, class)?;
            Ok(None)
        }
    }
}

fn feature_takes_text(feature: &Feature) -> bool
    ensures { result ≡ parts.children_take_text (spec.last_children (feature_value feature.now)) }
{
    match feature.rules.last() {
        Some(rule) => children_take_text(&rule.background, &rule.scenarios),
        None => children_take_text(&feature.background, &feature.scenarios),
    }
}

#[tactic(auto, using(crate::proofs::LastItems::get_last, crate::proofs::LastItems::set_last))]
fn put_text_below(feature: &mut Feature, text: String)
    ensures { feature_value feature.new
        ≡ spec.with_text (string_bytes text) (feature_value feature.old) }
{
    match feature.rules.last_mut() {
        Some(rule) => put_text_in(&mut rule.background, &mut rule.scenarios, text),
        None => put_text_in(&mut feature.background, &mut feature.scenarios, text),
    }
}

impl FileReader for FeatureReader {
    type Answer = Option<Feature>;

    ghost Value = { spec.FeatureReader };

    ghost AnswerValue = { Option FeatureValue };

    ghost value = { reader_value };

    ghost answer_value = { so_far_value };

    ghost readers = { spec.feature_readers };

    fn first(_: Global) -> FeatureReader {
        FeatureReader {
            feature: None,
            tags: None,
        }
    }

    fn takes_text(&self) -> bool {
        match &self.feature {
            None => false,
            Some(feature) => self.tags.is_none() && feature_takes_text(feature),
        }
    }

    fn put_text(&mut self, text: String) {
        if self.tags.is_none() {
            if let Some(feature) = &mut self.feature {
                put_text_below(feature, text);
            }
        }
    }

    fn take(
        &mut self,
        alloc: Global,
        line: &BorrowedLine<'_>,
        class: Class,
    ) -> Result<(), ReadFault> {
        let tags = match mem::replace(&mut self.tags, None) {
            None => after_no_tags(alloc, &mut self.feature, line, class)?,
            Some(before) => after_tags(alloc, &mut self.feature, before, line, class)?,
        };
        self.tags = tags;
        Ok(())
    }

    fn answer(self) -> Result<Option<Feature>, ReadFault> {
        let FeatureReader { feature, tags } = self;
        match tags {
            None => Ok(feature),
            Some(lines) => Err(ReadFault::TagsAtEnd { line: lines.last }),
        }
    }
}

/// Reads the feature that the bytes spell, or `None` if they contain only blank lines and comments.
///
/// A file is a feature with its tags, description, background, scenarios and rules. A scenario has
/// steps and examples, and a step may have a table or a doc string. Blank lines and comments are
/// allowed anywhere. Descriptions, comments and media types aren't kept. (Cucumber's Gherkin
/// reference; this project's profile)
///
/// `TooLong` and `NotUtf8` are those of `read_lines`, and come before any fault of a line. Of the
/// faults of lines, the first line's is returned:
///
/// - `Unexpected`: no line of its class is allowed there.
/// - `BadTag`: a tag line with a word, before any that begins with `#`, that isn't `@` and at least
///   one more byte.
/// - `BadRow`: a row that isn't between two unescaped bars.
/// - `CellCount`: a row whose number of cells differs from that of the first row of its table.
/// - `Language`: a comment above the feature that names a language other than `en`.
/// - `UnclosedText`, at the line of its opening fence: the file ends in a doc string.
/// - `TagsAtEnd`, at the last tag line: the file ends after tags.
///
/// `Memory` comes only if a growth was refused. No growth is requested before the first tag or the
/// feature's heading. A fault returns nothing of what was read before it.
pub fn read_feature(alloc: Global, bytes: &[u8]) -> Result<Option<Feature>, ReadFault>
    // What is returned is what the lines say.
    ensures found { IfOk result (λ f.
        IsText bytes.now × Reads (lines_of bytes.now) (option_map feature_value f)) }
    // What the lines say is returned, unless memory runs out.
    ensures only { (f : Option FeatureValue) → IsText bytes.now → Reads (lines_of bytes.now) f
        → AnswersOrLacksMemory (option_map feature_value) result f }
    // Which fault is returned.
    ensures fault { IfErr result (λ e. FaultSays FeatureFault e bytes.now) }
{
    read::<FeatureReader>(alloc, bytes)
}
