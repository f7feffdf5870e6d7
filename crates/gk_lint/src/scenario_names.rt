//! Scenarios of one feature that have the same name.
ghost use Rattle.std.specs.Prelude.{◌≡◌, ◌∷◌, ◌++◌, List, map, OnOk, IfOk};
ghost use Rattle.gk_gherkin.specs.Feature.{ScenarioValue, scenario_value, rule_value, feature_value};
ghost use Rattle.gk_lint.specs.Findings.{finding_values};
ghost use Rattle.gk_lint.specs.TextSets.{in_set};
ghost use Rattle.gk_lint.specs.ScenarioNames as spec;

use crate::findings::{Finding, FindingKind, add_if};
use crate::text_sets::TextSet;
use gk_gherkin::{Feature, Rule, Scenario};
use std::alloc::{AllocError, Global};

fn push_scenarios<'a>(
    all: &mut Vec<&'a Scenario>,
    scenarios: &'a [Scenario],
) -> Result<(), AllocError>
    ensures { OnOk result (map (λ s. scenario_value s.now) all.new.items
        ≡ map (λ s. scenario_value s.now) all.old.items ++ map scenario_value scenarios.now) }
{
    for scenario in scenarios {
        all.push(scenario)?;
    }
    Ok(())
}

fn push_rules<'a>(all: &mut Vec<&'a Scenario>, rules: &'a [Rule]) -> Result<(), AllocError>
    ensures { OnOk result (map (λ s. scenario_value s.now) all.new.items
        ≡ map (λ s. scenario_value s.now) all.old.items
        ++ spec.scenarios_of_rules (map rule_value rules.now)) }
{
    for rule in rules {
        push_scenarios(all, &rule.scenarios)?;
    }
    Ok(())
}

/// Returns all scenarios of a feature: its own, and then those of its rules. An error comes only if a growth was
/// refused.
pub fn scenarios_of<'a>(
    alloc: Global,
    feature: &'a Feature,
) -> Result<Vec<&'a Scenario>, AllocError>
    ensures { IfOk result (λ all. map (λ s. scenario_value s.now) all.items
        ≡ spec.scenarios_of (feature_value feature.now)) }
{
    let mut all = Vec::new(alloc);
    push_scenarios(&mut all, &feature.scenarios)?;
    push_rules(&mut all, &feature.rules)?;
    Ok(all)
}

// Adds the finding of a scenario, if its name was seen before, and adds its name to `seen`.
fn add_named<'a>(
    findings: &mut Vec<Finding<'_>>,
    seen: &mut TextSet<'a>,
    scenario: &'a Scenario,
) -> Result<(), AllocError>
    ensures { OnOk result ((rest : List ScenarioValue) →
        finding_values findings.new.items ++ spec.named_again (in_set seen.new) rest
        ≡ finding_values findings.old.items
        ++ spec.named_again (in_set seen.old) (scenario_value scenario.now ∷ rest)) }
{
    let is_new = seen.add(scenario.name.as_str())?;
    add_if(findings, !is_new, scenario.line, FindingKind::NameTwice)
}

/// Adds a finding for each of some scenarios that has the name of an earlier one. An error comes only if a growth was
/// refused; some of the findings may have been added then.
pub fn add_same_names(
    findings: &mut Vec<Finding<'_>>,
    alloc: Global,
    scenarios: &[&Scenario],
) -> Result<(), AllocError>
    ensures { OnOk result (finding_values findings.new.items
        ≡ finding_values findings.old.items
        ++ spec.same_names (map (λ s. scenario_value s.now) scenarios.now)) }
{
    let mut seen = TextSet::new(alloc);
    for scenario in scenarios {
        add_named(findings, &mut seen, *scenario)?;
    }
    Ok(())
}
