//! The cases of a feature.
ghost use Rattle.std.specs.Prelude.{◌≡◌, ◌<◌, ◌^◌, ◌++◌, length, map, nat_lt, MatchBool, IfOk, IfErr, Err};
ghost use Rattle.std.specs.List.{AllByRecursion};
ghost use Rattle.std.specs.String.{string_bytes};
ghost use Rattle.gk_gherkin.specs.Feature.{texts, step_value, row_value, examples_value, scenario_value, rule_value, feature_value};
ghost use Rattle.gk_select.specs.Case.{case_value};
ghost use Rattle.gk_select.specs.Copies.{Appends};
ghost use Rattle.gk_select.specs.Filling.{filled, filled_step};
ghost use Rattle.gk_select.specs.Expansion as spec;
ghost use Rattle.gk_select.specs.Expansion.{cases, step_count, step_limit, HasPart, HasTooManySteps, IsExpandable, RowsFit};
ghost use Rattle.gk_select.specs.Expansion.{name_of_row, case_of_row, cases_of_rows, AreTagsOfRows, RowsFitHeader};
ghost use Rattle.gk_select.specs.Expansion.{cases_of_parts, cases_of_scenarios, cases_of_rules};
ghost use Rattle.gk_select.specs.Inherited.{inherited_value};
ghost use Rattle.gk_select.specs.Outline.{FitsHeader, AllFit};
ghost use Rattle.gk_select.specs.declared.select_fault.SelectFault.TheVariants.{TooMany, Memory};

use crate::case::Case;
use crate::copies::{copied_texts, push_filled_steps, push_texts};
use crate::counting::has_room;
use crate::filling::push_filled;
use crate::inherited::{
    CaseTags, Inherited, after_inherited_steps, case_tags, inherited_in_feature, inherited_in_rule,
    push_inherited_steps,
};
use crate::names::Names;
use crate::outline::{case_name, is_outline};
use crate::select_fault::SelectFault;
use gk_gherkin::{Examples, Feature, Row, Rule, Scenario, Step};
use std::alloc::{AllocError, Global};
use std::mem::replace;

fn plain_case(
    alloc: Global,
    inherited: &Inherited<'_>,
    scenario: Scenario,
) -> Result<Case, AllocError>
    ensures { IfOk result (λ c. case_value c ≡
        spec.plain_case (inherited_value inherited.now) (scenario_value scenario)) }
{
    let Scenario {
        keyword,
        name,
        line,
        tags: own_tags,
        steps,
        examples: _,
    } = scenario;
    let tags = case_tags(alloc, inherited, own_tags)?;
    Ok(Case {
        name,
        keyword,
        line,
        rule: inherited.rule,
        tags: tags.all,
        own_tags: tags.own,
        steps: after_inherited_steps(alloc, inherited, steps)?,
    })
}

// Examples of an outline, with their number, counted from 1, the columns of their header and the tags of their
// cases.
#[derive(Drop)]
struct NumberedExamples<'a> {
    number: usize,
    examples: &'a Examples,
    columns: Names<'a>,
    tags: CaseTags,
}

// The room for the numbers in the name of a row's case. With greater numbers the name grows.
const NUMBERS_ROOM: usize = 16;

// Returns the name of a row's case: the scenario's filled name, the numbers of the Examples and the row, and
// the name of the Examples.
fn row_name(
    alloc: Global,
    scenario: &Scenario,
    part: &NumberedExamples<'_>,
    row_number: usize,
    row: &Row,
) -> Result<String, AllocError>
    requires fits { FitsHeader (examples_value part.now.examples.now) (row_value row.now) }
    requires columns { part.now.columns ≡ texts part.now.examples.now.header.items }
    ensures { IfOk result (λ name. string_bytes name
        ≡ name_of_row scenario.now part.now.number part.now.examples.now row_number row.now) }
{
    let examples_name = part.examples.name.as_str();
    let room = (scenario.name.len() + NUMBERS_ROOM).saturating_add(examples_name.len());
    let mut name = String::with_capacity(alloc, room)?;
    push_filled(&mut name, scenario.name.as_str(), &part.columns, &row.cells)?;
    case_name(name, part.number, row_number, examples_name)
}

// Returns the tags of the cases of Examples. A case's own tags are those of its scenario, then those of its
// Examples.
fn tags_of_rows(
    alloc: Global,
    inherited: &Inherited<'_>,
    scenario: &Scenario,
    examples: &Examples,
) -> Result<CaseTags, AllocError>
    ensures { IfOk result (AreTagsOfRows inherited.now scenario.now examples.now) }
{
    let mut own = copied_texts(alloc, &scenario.tags)?;
    push_texts(alloc, &mut own, &examples.tags)?;
    case_tags(alloc, inherited, own)
}

// Returns copies of the inherited steps and, after them, the scenario's own steps, filled from a row.
fn row_steps(
    alloc: Global,
    inherited: &Inherited<'_>,
    scenario: &Scenario,
    columns: &Names<'_>,
    cells: &[String],
) -> Result<Vec<Step>, AllocError>
    requires { length cells.now ≡ length columns.now }
    ensures { let fill = filled columns.now (texts cells.now) in
        IfOk result (λ steps. map step_value steps.items ≡
        (inherited_value inherited.now).steps
        ++ map (filled_step fill) (scenario_value scenario.now).steps) }
{
    let feature_count = inherited.feature_steps.len();
    let inherited_count = feature_count.saturating_add(inherited.rule_steps.len());
    let count = inherited_count.saturating_add(scenario.steps.len());
    let mut steps = Vec::with_capacity(alloc, count)?;
    push_inherited_steps(&mut steps, inherited)?;
    push_filled_steps(alloc, &mut steps, &scenario.steps, columns, cells)?;
    Ok(steps)
}

fn row_case(
    alloc: Global,
    inherited: &Inherited<'_>,
    scenario: &Scenario,
    part: &NumberedExamples<'_>,
    row_number: usize,
    row: &Row,
) -> Result<Case, AllocError>
    requires fits { FitsHeader (examples_value part.now.examples.now) (row_value row.now) }
    requires columns { part.now.columns ≡ texts part.now.examples.now.header.items }
    requires tags { AreTagsOfRows inherited.now scenario.now part.now.examples.now part.now.tags }
    ensures { IfOk result (λ c. case_value c ≡ case_of_row
        inherited.now scenario.now part.now.number part.now.examples.now row_number row.now) }
{
    Ok(Case {
        name: row_name(alloc, scenario, part, row_number, row)?,
        keyword: scenario.keyword,
        line: row.line,
        rule: inherited.rule,
        tags: part.tags.all.clone()?,
        own_tags: part.tags.own.clone()?,
        steps: row_steps(alloc, inherited, scenario, &part.columns, &row.cells)?,
    })
}

fn push_row_cases(
    alloc: Global,
    cases: &mut Vec<Case>,
    inherited: &Inherited<'_>,
    scenario: &Scenario,
    part: &NumberedExamples<'_>,
    rows: &[Row],
) -> Result<(), AllocError>
    requires fit { RowsFitHeader part.now.examples.now rows.now }
    requires columns { part.now.columns ≡ texts part.now.examples.now.header.items }
    requires tags { AreTagsOfRows inherited.now scenario.now part.now.examples.now part.now.tags }
    ensures { Appends case_value result cases.old.items cases.new.items (cases_of_rows
        inherited.now scenario.now part.now.number part.now.examples.now 1 rows.now) }
{
    cases.reserve(rows.len())?;
    for (i, row) in rows.iter().enumerate() {
        cases.push(row_case(alloc, inherited, scenario, part, i + 1, row)?)?;
    }
    Ok(())
}

fn push_examples_cases(
    alloc: Global,
    cases: &mut Vec<Case>,
    inherited: &Inherited<'_>,
    scenario: &Scenario,
    examples_number: usize,
    examples: &Examples,
) -> Result<(), AllocError>
    requires { AllFit (examples_value examples.now) }
    ensures { Appends case_value result cases.old.items cases.new.items (cases_of_rows
        inherited.now scenario.now examples_number examples.now 1 examples.now.rows.items) }
{
    let part = NumberedExamples {
        number: examples_number,
        examples,
        columns: Names::new(alloc, &examples.header),
        tags: tags_of_rows(alloc, inherited, scenario, examples)?,
    };
    push_row_cases(alloc, cases, inherited, scenario, &part, &examples.rows)
}

fn push_outline_cases(
    alloc: Global,
    cases: &mut Vec<Case>,
    inherited: &Inherited<'_>,
    scenario: &Scenario,
    parts: &[Examples],
) -> Result<(), AllocError>
    requires { AllByRecursion AllFit (map examples_value parts.now) }
    ensures { Appends case_value result cases.old.items cases.new.items
        (cases_of_parts inherited.now scenario.now parts.now) }
{
    for (i, examples) in parts.iter().enumerate() {
        push_examples_cases(alloc, cases, inherited, scenario, i + 1, examples)?;
    }
    Ok(())
}

fn push_scenario_cases(
    alloc: Global,
    cases: &mut Vec<Case>,
    inherited: &Inherited<'_>,
    scenario: Scenario,
) -> Result<(), AllocError>
    requires { AllByRecursion AllFit (map examples_value scenario.examples.items) }
    ensures { Appends case_value result cases.old.items cases.new.items
        (spec.scenario_cases (inherited_value inherited.now) (scenario_value scenario)) }
{
    if is_outline(&scenario) {
        push_outline_cases(alloc, cases, inherited, &scenario, &scenario.examples)
    } else {
        cases.push(plain_case(alloc, inherited, scenario)?)?;
        Ok(())
    }
}

fn push_scenarios_cases(
    alloc: Global,
    cases: &mut Vec<Case>,
    inherited: &Inherited<'_>,
    scenarios: Vec<Scenario>,
) -> Result<(), AllocError>
    requires { RowsFit (map scenario_value scenarios.items) }
    ensures cases { Appends case_value result cases.old.items cases.new.items
        (cases_of_scenarios inherited.now scenarios.items) }
    ensures memory { IfErr result (λ e. 0 < length scenarios.items) }
{
    for scenario in scenarios {
        push_scenario_cases(alloc, cases, inherited, scenario)?;
    }
    Ok(())
}

fn push_rule_cases(
    alloc: Global,
    cases: &mut Vec<Case>,
    feature: &Feature,
    index: u32,
    rule: Rule,
) -> Result<(), AllocError>
    requires { RowsFit (map scenario_value rule.scenarios.items) }
    ensures { Appends case_value result cases.old.items cases.new.items
        (spec.rule_cases (feature_value feature.now) (index, rule_value rule)) }
{
    let mut rule = rule;
    let scenarios = replace(&mut rule.scenarios, Vec::new(alloc));
    let inherited = inherited_in_rule(feature, index, &rule);
    push_scenarios_cases(alloc, cases, &inherited, scenarios)
}

fn push_rules_cases(
    alloc: Global,
    cases: &mut Vec<Case>,
    feature: &Feature,
    rules: Vec<Rule>,
) -> Result<(), AllocError>
    requires fit { AllByRecursion (λ r. RowsFit r.scenarios) (map rule_value rules.items) }
    requires counted { length rules.items < 2 ^ 32 }
    ensures cases { Appends case_value result cases.old.items cases.new.items
        (cases_of_rules feature.now 0 rules.items) }
    ensures memory { IfErr result (λ e. 0 < length rules.items) }
{
    let mut index: u32 = 0;
    for rule in rules {
        push_rule_cases(alloc, cases, feature, index, rule)?;
        index += 1;
    }
    Ok(())
}

// Returns the cases of a feature that is consumed: the texts of its plain scenarios are moved.
#[tactic(auto, unfolding(crate::specs::Expansion::cases))]
fn moved_cases(alloc: Global, feature: Feature) -> Result<Vec<Case>, AllocError>
    requires { IsExpandable (feature_value feature) }
    ensures cases { IfOk result (λ v. map case_value v.items ≡ cases (feature_value feature)) }
    ensures memory { IfErr result (λ e. HasPart (feature_value feature)) }
{
    let mut feature = feature;
    let scenarios = replace(&mut feature.scenarios, Vec::new(alloc));
    let rules = replace(&mut feature.rules, Vec::new(alloc));
    let mut cases = Vec::with_capacity(alloc, scenarios.len())?;
    let inherited = inherited_in_feature(&feature);
    push_scenarios_cases(alloc, &mut cases, &inherited, scenarios)?;
    push_rules_cases(alloc, &mut cases, &feature, rules)?;
    Ok(cases)
}

#[tactic(auto, using(gk_gherkin::proofs::Copies::feature_copy))]
fn copied(feature: &Feature) -> Result<Feature, AllocError>
    ensures { IfOk result (λ f. feature_value f ≡ feature_value feature.now) }
{
    feature.clone()
}

/// Returns the cases of a feature in file order: each plain scenario once, and each row of an outline once.
///
/// A scenario is an outline if its keyword is `Scenario Outline` or `Scenario Template`, or if it has Examples.
/// An outline has one case for each row of its tables, and none if there is no row. Name, step texts, doc
/// strings and table cells are filled from the row; tags and the steps of a Background are not.
///
/// `TooMany` comes if and only if the cases have more steps than `STEP_LIMIT`; they are counted before anything
/// is built. `Memory` comes only if a growth was refused, and never in place of `TooMany`. On an error no cases
/// are returned. The feature's texts are copied; `into_cases` moves them. Each row has to be as wide as its
/// header, and there have to be fewer than 2^32 rules, as in every feature that was read. (Cucumber's Gherkin
/// reference: scenario outline, background, tag inheritance)
#[tactic(auto, unfolding(crate::specs::Expansion::cases))]
pub fn expand(alloc: Global, feature: &Feature) -> Result<Vec<Case>, SelectFault>
    requires { IsExpandable (feature_value feature.now) }
    // The result is the feature's cases.
    ensures ok { IfOk result (λ v. map case_value v.items ≡ cases (feature_value feature.now)) }
    // More steps than the limit are refused.
    ensures too_many { HasTooManySteps (feature_value feature.now) → result ≡ Err TooMany }
    // The fault is `TooMany` if there are more steps than the limit, otherwise `Memory`.
    ensures fault { IfErr result (λ e. MatchBool
        (nat_lt step_limit (step_count (feature_value feature.now))) (e ≡ TooMany) (e ≡ Memory)) }
    // Memory is refused only if the feature has a scenario or a rule.
    ensures memory { result ≡ Err Memory → HasPart (feature_value feature.now) }
{
    if !has_room(feature) {
        return Err(SelectFault::TooMany);
    }
    if feature.scenarios.is_empty() && feature.rules.is_empty() {
        return Ok(Vec::new(alloc));
    }
    Ok(moved_cases(alloc, copied(feature)?)?)
}

/// Returns the same cases as `expand`, but consumes the feature: the texts of a plain scenario are moved into
/// its case. On an error no cases are returned, and the feature is dropped.
pub fn into_cases(alloc: Global, feature: Feature) -> Result<Vec<Case>, SelectFault>
    requires { IsExpandable (feature_value feature) }
    // The result is the feature's cases.
    ensures ok { IfOk result (λ v. map case_value v.items ≡ cases (feature_value feature)) }
    // More steps than the limit are refused.
    ensures too_many { HasTooManySteps (feature_value feature) → result ≡ Err TooMany }
    // The fault is `TooMany` if there are more steps than the limit, otherwise `Memory`.
    ensures fault { IfErr result (λ e. MatchBool
        (nat_lt step_limit (step_count (feature_value feature))) (e ≡ TooMany) (e ≡ Memory)) }
    // Memory is refused only if the feature has a scenario or a rule.
    ensures memory { result ≡ Err Memory → HasPart (feature_value feature) }
{
    if !has_room(&feature) {
        return Err(SelectFault::TooMany);
    }
    Ok(moved_cases(alloc, feature)?)
}
