//! Laws of this crate's definitions. Each is the contract of an empty function.
ghost use Rattle.std.specs.Prelude.{◌≡◌, ℕ, List, Some, length, map};
ghost use Rattle.std.specs.List.{list_any};
ghost use Rattle.gk_gherkin.specs.Lines.{lines_of, IsText};
ghost use Rattle.gk_gherkin.specs.Feature.{FeatureValue};
ghost use Rattle.gk_gherkin.specs.Grammar.{Reads};
ghost use Rattle.gk_select.specs.Filling.{FillsByCut};
ghost use Rattle.gk_select.specs.Expansion.{cases, IsExpandable, HasNoOutline, plain_cases, case_count};
ghost use Rattle.gk_select.specs.OwnTags.{HasSameCasesUntagged};
ghost use Rattle.gk_select.specs.RuleOrder.{FallIntoRules};
ghost use Rattle.gk_select.specs.FileOrder.{CasesAreInFileOrder};
ghost use Rattle.gk_select.specs.ExampleRows.{RowsAreAtCases};
ghost use Rattle.gk_select.specs.TagGrammar.{Expression};
ghost use Rattle.gk_select.specs.TagValues.{holds};
ghost use Rattle.gk_select.specs.Alternatives.{AlternativeValue, ReadsAlternatives, alternative_holds};
ghost use Rattle.gk_select.specs.TagRules.{ReadsTags};

use gk_gherkin::rules_are_counted;

/// States that each text has exactly one cut for a header row, and that the filled text is made of the filled
/// parts. (Cucumber's Gherkin reference: scenario outline)
#[tactic(auto, using(crate::proofs::OneCut::fills_by_cut))]
pub fn texts_have_one_cut()
    ensures { (headers cells : List (List ℕ)) (text : List ℕ) → FillsByCut headers cells text }
{}

/// States that features that `read_feature` returns meet the condition of `expand` and `into_cases`. In what the
/// grammar reads, each row of Examples has as many cells as its header. There are fewer than 2^32 rules, because
/// each rule has its own line. (Cucumber's Gherkin reference: examples, rule)
pub fn read_features_are_expandable()
    ensures { (bytes : List ℕ) (f : FeatureValue) → IsText bytes → Reads (lines_of bytes) (Some f)
        → IsExpandable f }
{
    rules_are_counted();
}

/// States that without outlines the cases are the scenarios, each with its inherited tags and steps before its
/// own. (Cucumber's Gherkin reference: example, background, tag inheritance)
#[tactic(auto, using(crate::proofs::CaseCounts::without_outlines))]
pub fn plain_scenarios_are_cases()
    ensures { (f : FeatureValue) → HasNoOutline f → cases f ≡ plain_cases f }
{}

/// States that a feature has one case for each row under the headers of an outline's tables, and one for each
/// other scenario. (Cucumber's Gherkin reference: scenario outline)
#[tactic(auto, using(crate::proofs::CaseCounts::cases_counted))]
pub fn rows_are_cases()
    ensures { (f : FeatureValue) → length (cases f) ≡ case_count f }
{}

/// States that at the index of each case of a feature is the row that the case comes from, on the case's line, or
/// none. (Cucumber's Gherkin reference: scenario outline)
#[tactic(auto, using(crate::proofs::RowLines::at_cases))]
pub fn rows_are_at_cases()
    ensures { RowsAreAtCases }
{}

/// States that the rules of the cases are indexes among the feature's rules and are non-decreasing from case to
/// case. A case without a rule counts lowest. (Cucumber's Gherkin reference: rule)
pub fn cases_fall_into_rules()
    ensures { (f : FeatureValue) → FallIntoRules (length f.rules) (map (λ c. c.rule) (cases f)) }
{}

/// States that without the tags of a feature and of its rules, its cases are the same, except that each has only
/// its own tags. (Cucumber's Gherkin reference: tag inheritance)
pub fn cases_keep_without_tags()
    ensures { (f : FeatureValue) → HasSameCasesUntagged f }
{}

/// States that in a feature read from a file, the lines of the rules rise, those of the cases rise, and both
/// together rise. So each case is below the heading of its rule and above that of the next rule. (Cucumber's
/// Gherkin reference: rule)
pub fn cases_are_in_file_order()
    ensures { CasesAreInFileOrder }
{}

/// States that no text spells two different tag rules, whichever form it has. (behave's documentation: tag
/// expressions; Cucumber's tag expressions)
pub fn texts_have_one_tag_rule()
    ensures { (text : List ℕ) (a b : Expression) →
        ReadsTags text a → ReadsTags text b → a ≡ b }
{}

/// States that a text of alternatives spells a tag rule, which holds for a set of tags if and only if one of the
/// alternatives does. (behave's documentation: tag expressions)
#[tactic(auto, using(crate::proofs::TagReading::rules_of_alternatives))]
pub fn alternatives_are_tag_rules()
    ensures { (text : List ℕ) (alternatives : List AlternativeValue) →
        ReadsAlternatives text alternatives → (rule : Expression) × ReadsTags text rule ×
        ((tags : List (List ℕ)) →
        holds rule tags ≡ list_any (alternative_holds tags) alternatives) }
{}
