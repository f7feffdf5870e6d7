//! The choice of cases by tags and lines.
ghost use Rattle.std.specs.Prelude.{◌≡◌, ◌&&◌};
ghost use Rattle.gk_gherkin.specs.Feature.{texts};
ghost use Rattle.gk_select.specs.Case.{case_value};
ghost use Rattle.gk_select.specs.TagLists.{tags_of};

use crate::case::Case;
use crate::names::Names;
use crate::tag_lists::TagLists;
use crate::tag_values::TagRule;
use std::alloc::Global;
use std::marker::Model;

// The number of tags, and of words of tag rules, from which an index of the tags is worth its cost.
const MANY: usize = 64;

/// A condition by which cases are chosen: every tag rule holds for the case's tags, and its line is among the
/// lines, if there are any. (behave's documentation: tag expressions)
#[derive(Debug, Drop)]
pub struct Choice {
    rules: Vec<TagRule>,
    lines: Vec<u32>,
}

impl Model for Choice {
    ghost use Rattle.std.specs.List.Sorted.{IsNonDecreasing};
    ghost use Rattle.gk_select.specs.Choice.{ChoiceValue, choice_code};

    ghost Value = { ChoiceValue };

    ghost coded = { choice_code };

    ghost view = { λ choice. record { rules = choice.rules.items; lines = choice.lines.items } };

    ghost invariant = { λ choice. IsNonDecreasing choice.lines.items };
}

impl Choice {
    ghost use Rattle.gk_select.specs.Choice.{all_hold, chosen_by, is_at_lines, is_chosen};

    /// Returns the choice by these tag rules and lines, which may be in any order. Doesn't allocate.
    pub fn new(rules: Vec<TagRule>, lines: Vec<u32>) -> Choice
        ensures { chosen_by result ≡ is_chosen rules.items lines.items }
    {
        let mut lines = lines;
        lines.sort_unstable();
        Choice { rules, lines }
    }

    /// Returns whether a case is chosen. Doesn't allocate.
    #[tactic(auto, using(std::proofs::lemmas::Grind::common_steps), unfolding(crate::specs::Choice::is_chosen))]
    pub fn chooses(&self, case: &Case) -> bool
        ensures { result ≡ chosen_by self.now (case_value case.now) }
    {
        let all = Names::scanned(case.tags.as_slice());
        let none = Names::scanned(&[]);
        let tags = TagLists {
            feature: &all,
            rule: &none,
            scenario: &none,
            examples: &none,
        };
        self.takes(self.rules_hold(&tags), case.line)
    }

    // Returns whether the tag rules have many words. Each has one at least.
    fn has_many_words(&self) -> bool {
        self.rules.len() > MANY || self.rules.iter().any(|rule| rule.word_count() > MANY)
    }

    /// Returns tags for lookup, without an index if they are few and few words look them up.
    pub(crate) fn lookup<'a>(&self, alloc: Global, tags: &'a [String]) -> Names<'a>
        ensures { result ≡ texts tags.now }
    {
        if tags.len() > MANY || self.has_many_words() {
            Names::new(alloc, tags)
        } else {
            Names::scanned(tags)
        }
    }

    /// Returns whether every tag rule holds for the tags of a case.
    pub(crate) fn rules_hold(&self, tags: &TagLists<'_, '_>) -> bool
        ensures { result ≡ all_hold self.now.rules (tags_of tags.now) }
    {
        self.rules.iter().all(|rule| rule.holds_for(tags))
    }

    /// Returns whether a case at this line is chosen. `hold`: whether the tag rules hold for its tags.
    pub(crate) fn takes(&self, hold: bool, line: u32) -> bool
        ensures { result ≡ hold && is_at_lines self.now.lines line }
    {
        hold && self.has_line(line)
    }

    fn has_line(&self, line: u32) -> bool
        ensures { result ≡ is_at_lines self.now.lines line }
    {
        let lines = self.lines.as_slice();
        lines.is_empty() || lines.binary_search(&line).is_ok()
    }
}
