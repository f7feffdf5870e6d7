//! The choice among the cases of a feature, made before the cases are built.
ghost use Rattle.std.specs.Prelude.{◌≡◌, ◌<◌, ◌++◌, length, flat_map, map, OnOk, IfOk, IfErr};
ghost use Rattle.gk_gherkin.specs.Feature.{row_value, examples_value, scenario_value, feature_value};
ghost use Rattle.gk_select.specs.Choice.{chosen_by};
ghost use Rattle.gk_select.specs.Expansion.{cases, IsExpandable};
ghost use Rattle.gk_select.specs.Selecting.{rows_selected, examples_selected, plain_selected, scenario_selected};

use crate::choice::Choice;
use crate::names::Names;
use crate::outline::is_outline;
use crate::tag_lists::TagLists;
use gk_gherkin::{Examples, Feature, Row, Scenario};
use std::alloc::{AllocError, Global};

// Appends for each row whether its case is chosen. `hold`: whether the tag rules hold for its tags.
fn select_rows(
    choice: &Choice,
    hold: bool,
    rows: &[Row],
    selected: &mut Vec<bool>,
) -> Result<(), AllocError>
    ensures chosen { OnOk result (selected.new.items ≡ selected.old.items
        ++ rows_selected choice.now hold (map row_value rows.now)) }
    ensures memory { IfErr result (λ e.
        0 < length (rows_selected choice.now hold (map row_value rows.now))) }
{
    for row in rows {
        selected.push(choice.takes(hold, row.line))?;
    }
    Ok(())
}

// Appends for each row of Examples whether its case is chosen, if its scenario has these tags of its own.
#[tactic(auto, using(std::proofs::lemmas::Grind::common_steps, std::proofs::lemmas::List::append_assoc))]
fn select_examples<'t, 'a>(
    alloc: Global,
    choice: &Choice,
    feature: &'t Names<'a>,
    rule: &'t Names<'a>,
    own: &'t Names<'a>,
    examples: &'a Examples,
    selected: &mut Vec<bool>,
) -> Result<(), AllocError>
    ensures chosen { OnOk result (selected.new.items ≡ selected.old.items
        ++ examples_selected choice.now (feature.now ++ rule.now) own.now
        (examples_value examples.now)) }
    ensures memory { IfErr result (λ e.
        0 < length (examples_selected choice.now (feature.now ++ rule.now) own.now
        (examples_value examples.now))) }
{
    let tags = choice.lookup(alloc, &examples.tags);
    let lists = TagLists {
        feature: &*feature,
        rule: &*rule,
        scenario: &*own,
        examples: &tags,
    };
    let hold = choice.rules_hold(&lists);
    select_rows(choice, hold, &examples.rows, selected)
}

// Appends for each row of an outline whether its case is chosen.
fn select_outline<'t, 'a>(
    alloc: Global,
    choice: &Choice,
    feature: &'t Names<'a>,
    rule: &'t Names<'a>,
    scenario: &'a Scenario,
    selected: &mut Vec<bool>,
) -> Result<(), AllocError>
    ensures chosen { let s = scenario_value scenario.now in OnOk result (selected.new.items
        ≡ selected.old.items
        ++ flat_map (examples_selected choice.now (feature.now ++ rule.now) s.tags) s.examples) }
    ensures memory { let s = scenario_value scenario.now in IfErr result (λ e. 0 < length
        (flat_map (examples_selected choice.now (feature.now ++ rule.now) s.tags) s.examples)) }
{
    let own = choice.lookup(alloc, &scenario.tags);
    for examples in &scenario.examples {
        select_examples(alloc, choice, &*feature, &*rule, &own, examples, selected)?;
    }
    Ok(())
}

// Returns whether the case of a plain scenario is chosen.
#[tactic(auto, using(std::proofs::lemmas::Grind::common_steps, std::proofs::lemmas::List::append_assoc))]
fn takes_plain<'t, 'a>(
    alloc: Global,
    choice: &Choice,
    feature: &'t Names<'a>,
    rule: &'t Names<'a>,
    scenario: &'a Scenario,
) -> bool
    ensures { let s = scenario_value scenario.now in
        result ≡ plain_selected choice.now (feature.now ++ rule.now) s }
{
    let own = choice.lookup(alloc, &scenario.tags);
    let none = Names::scanned(&[]);
    let lists = TagLists {
        feature: &*feature,
        rule: &*rule,
        scenario: &own,
        examples: &none,
    };
    let hold = choice.rules_hold(&lists);
    choice.takes(hold, scenario.line)
}

// Appends for each case of a scenario whether it is chosen.
fn select_scenario<'t, 'a>(
    alloc: Global,
    choice: &Choice,
    feature: &'t Names<'a>,
    rule: &'t Names<'a>,
    scenario: &'a Scenario,
    selected: &mut Vec<bool>,
) -> Result<(), AllocError>
    ensures chosen { OnOk result (selected.new.items ≡ selected.old.items
        ++ scenario_selected choice.now (feature.now ++ rule.now)
        (scenario_value scenario.now)) }
    ensures memory { IfErr result (λ e.
        0 < length (scenario_selected choice.now (feature.now ++ rule.now)
        (scenario_value scenario.now))) }
{
    if is_outline(scenario) {
        return select_outline(alloc, choice, feature, rule, scenario, selected);
    }
    selected.push(takes_plain(alloc, choice, feature, rule, scenario))?;
    Ok(())
}

// Appends for each case of scenarios whether it is chosen.
#[tactic(auto, using(crate::proofs::Selected::if_err, crate::proofs::Selected::some_part))]
fn select_scenarios<'t, 'a>(
    alloc: Global,
    choice: &Choice,
    feature: &'t Names<'a>,
    rule: &'t Names<'a>,
    scenarios: &'a [Scenario],
    selected: &mut Vec<bool>,
) -> Result<(), AllocError>
    ensures chosen { OnOk result (selected.new.items ≡ selected.old.items
        ++ flat_map (scenario_selected choice.now (feature.now ++ rule.now))
        (map scenario_value scenarios.now)) }
    ensures memory { IfErr result (λ e.
        0 < length (flat_map (scenario_selected choice.now (feature.now ++ rule.now))
        (map scenario_value scenarios.now))) }
{
    for scenario in scenarios {
        select_scenario(alloc, choice, feature, rule, scenario, selected)?;
    }
    Ok(())
}

/// Returns for each case of a feature, in file order, whether it is chosen. No case is built. The feature has
/// to be as `expand` asks. An error comes only if a growth was refused. (behave's documentation: tag
/// expressions)
#[tactic(auto, using(crate::proofs::Selected::all_selected))]
pub fn selected_cases(
    alloc: Global,
    choice: &Choice,
    feature: &Feature,
) -> Result<Vec<bool>, AllocError>
    requires { IsExpandable (feature_value feature.now) }
    ensures chosen { IfOk result (λ selected. selected.items
        ≡ map (chosen_by choice.now) (cases (feature_value feature.now))) }
    // Memory is refused only if the feature has a case.
    ensures memory { IfErr result (λ e. 0 < length (cases (feature_value feature.now))) }
{
    let mut selected = Vec::new(alloc);
    let tags = choice.lookup(alloc, &feature.tags);
    let none = Names::scanned(&[]);
    select_scenarios(
        alloc,
        choice,
        &tags,
        &none,
        &feature.scenarios,
        &mut selected,
    )?;
    for rule in &feature.rules {
        let own = choice.lookup(alloc, &rule.tags);
        select_scenarios(alloc, choice, &tags, &own, &rule.scenarios, &mut selected)?;
    }
    Ok(selected)
}
