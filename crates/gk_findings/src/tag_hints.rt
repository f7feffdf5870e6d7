//! Hints on where a text of tags stops spelling a rule.
ghost use Rattle.std.specs.Prelude.{◌≡◌, option_map, string_bytes, IfOk};
ghost use Rattle.gk_report.specs.ReportTexts.{Pushes};
ghost use Rattle.gk_select.specs.TagStops.{stop_value, tag_stop as stop_of};
ghost use Rattle.gk_findings.specs.TagHints as spec;

use crate::hints::select_hint;
use gk_explain::push_shown;
use gk_select::{SelectFault, TagStop, Wanted, tag_stop};
use std::alloc::{AllocError, Global};

// Returns what is expected at the point at which a text of tags stops spelling a rule.
#[tactic(auto, unfolding(crate::specs::TagHints::wanted_text))]
fn wanted_text(wanted: Wanted) -> &'static str
    ensures { result.now ≡ spec.wanted_text wanted }
{
    match wanted {
        Wanted::Operand => "\"not\", \"(\" or a tag such as @a",
        Wanted::Operator => "\"and\" or \"or\"",
        Wanted::Close => "\")\"",
        Wanted::Alternative => "a tag such as @a or ~@a",
    }
}

// Appends a word in quotes, or what an empty alternative is called.
fn push_word(out: &mut String, word: &str) -> Result<(), AllocError>
    ensures { Pushes out.old (spec.word_text word.now) result out.new }
{
    if word.is_empty() {
        return out.push_str("an empty part");
    }
    out.push_str("\"")?;
    push_shown(out, word)?;
    out.push_str("\"")
}

// Appends the place at which a text of tags stops.
#[tactic(auto, unfolding(crate::specs::TagHints::stop_place_text))]
fn push_stop_place(out: &mut String, at: Option<&str>) -> Result<(), AllocError>
    ensures { Pushes out.old
        (spec.stop_place_text (option_map (λ text. text.now) at.entry)) result out.new }
{
    match at {
        Some(word) => push_word(out, word),
        None => out.push_str("its end"),
    }
}

// Returns the hint for a text of tags that stops spelling a rule.
#[tactic(auto, unfolding(crate::specs::TagHints::stop_text))]
fn stop_hint(alloc: Global, stop: TagStop<'_>) -> Result<String, AllocError>
    ensures { IfOk result (λ text. string_bytes text ≡ spec.stop_text (stop_value stop.entry)) }
{
    let mut out = String::from_str(alloc, "it breaks at ")?;
    push_stop_place(&mut out, stop.at)?;
    out.push_str(", where ")?;
    out.push_str(wanted_text(stop.wanted))?;
    out.push_str(" is expected")?;
    Ok(out)
}

/// Returns the hint for a text of tags that spells no rule. An error comes only if a growth was refused.
pub fn tags_hint(alloc: Global, text: &str) -> Result<String, AllocError>
    ensures { IfOk result (λ hint. string_bytes hint ≡ spec.tags_hint (stop_of text.now)) }
{
    match tag_stop(text) {
        Some(stop) => stop_hint(alloc, stop),
        None => String::from_str(alloc, select_hint(SelectFault::BadTagText)),
    }
}
