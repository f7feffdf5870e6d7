//! Hooks for tags that no feature has.
ghost use Rattle.std.specs.Prelude.{◌≡◌, ◌++◌, ℕ, List, map, OnOk, IfOk};
ghost use Rattle.gk_gherkin.specs.Feature.{texts, scenario_value, rule_value, feature_value};
ghost use Rattle.gk_gherkin.specs.Hooks.{hook_value, hooks_value};
ghost use Rattle.gk_lint.specs.Findings.{AreInOrder, finding_values};
ghost use Rattle.gk_lint.specs.TextSets.{in_set, is_one_of};
ghost use Rattle.gk_lint.specs.TagUse as spec;

use crate::findings::{Finding, FindingKind, add_if, in_order};
use crate::scenario_names::scenarios_of;
use crate::text_sets::{TextSet, set_of};
use gk_gherkin::{Feature, Hook, HookFile, Rule, Scenario};
use std::alloc::{AllocError, Global};

fn push_tags<'a>(all: &mut Vec<&'a str>, tags: &'a [String]) -> Result<(), AllocError>
    ensures { OnOk result (map (λ t. t.now) all.new.items
        ≡ map (λ t. t.now) all.old.items ++ texts tags.now) }
{
    for tag in tags {
        all.push(tag.as_str())?;
    }
    Ok(())
}

fn push_scenario_tags<'a>(all: &mut Vec<&'a str>, scenario: &'a Scenario) -> Result<(), AllocError>
    ensures { OnOk result (map (λ t. t.now) all.new.items ≡ map (λ t. t.now) all.old.items
        ++ spec.tags_of_scenario (scenario_value scenario.now)) }
{
    push_tags(all, &scenario.tags)?;
    for part in &scenario.examples {
        push_tags(all, &part.tags)?;
    }
    Ok(())
}

fn push_rule_tags<'a>(all: &mut Vec<&'a str>, rules: &'a [Rule]) -> Result<(), AllocError>
    ensures { OnOk result (map (λ t. t.now) all.new.items ≡ map (λ t. t.now) all.old.items
        ++ spec.tags_of_rules (map rule_value rules.now)) }
{
    for rule in rules {
        push_tags(all, &rule.tags)?;
    }
    Ok(())
}

fn push_feature_tags<'a>(
    all: &mut Vec<&'a str>,
    alloc: Global,
    feature: &'a Feature,
) -> Result<(), AllocError>
    ensures { OnOk result (map (λ t. t.now) all.new.items ≡ map (λ t. t.now) all.old.items
        ++ spec.tags_of (feature_value feature.now)) }
{
    push_tags(all, &feature.tags)?;
    push_rule_tags(all, &feature.rules)?;
    let scenarios = scenarios_of(alloc, feature)?;
    for scenario in &scenarios {
        push_scenario_tags(all, *scenario)?;
    }
    Ok(())
}

// Returns all tags in features.
fn tags_in<'a>(alloc: Global, features: &'a [Feature]) -> Result<Vec<&'a str>, AllocError>
    ensures { IfOk result (λ all. map (λ t. t.now) all.items
        ≡ spec.tags_in (map feature_value features.now)) }
{
    let mut all = Vec::new(alloc);
    for feature in features {
        push_feature_tags(&mut all, alloc, feature)?;
    }
    Ok(all)
}

/// Returns the set of all tags in features: above a feature, a rule, a scenario or its Examples. An error comes only if
/// a growth was refused.
pub fn set_of_tags<'a>(alloc: Global, features: &'a [Feature]) -> Result<TextSet<'a>, AllocError>
    ensures { IfOk result (λ set. (tag : List ℕ) →
        in_set set tag ≡ is_one_of (spec.tags_in (map feature_value features.now)) tag) }
{
    let all = tags_in(alloc, features)?;
    let tags = set_of(alloc, &all)?;
    Ok(tags)
}

// Returns the findings of hooks, by the tags that the features have.
fn idle_hooks<'a>(
    alloc: Global,
    tags: &TextSet<'_>,
    hooks: &'a [Hook],
) -> Result<Vec<Finding<'a>>, AllocError>
    ensures { IfOk result (λ findings. finding_values findings.items
        ≡ spec.idle_hooks (in_set tags.now) (map hook_value hooks.now)) }
{
    let mut findings = Vec::new(alloc);
    for hook in hooks {
        if let Some(tag) = &hook.tag {
            let is_idle = !tags.has(tag.as_str());
            add_if(&mut findings, is_idle, hook.line, FindingKind::HookOfNoTag)?;
        }
    }
    Ok(findings)
}

/// Returns the findings of a hooks file that is used with these features, in the order of lines: each hook for a tag
/// that they don't have, neither above a feature or a rule nor above a scenario or its Examples. An error comes only if
/// a growth was refused.
pub fn lint_hook_tags<'a>(
    alloc: Global,
    hooks: &'a HookFile,
    features: &[Feature],
) -> Result<Vec<Finding<'a>>, AllocError>
    // Returns all findings, and no others.
    ensures { IfOk result (λ findings. AreInOrder
        (spec.hooks_of_no_tag (map feature_value features.now) (hooks_value hooks.now))
        (finding_values findings.items)) }
{
    let tags = set_of_tags(alloc, features)?;
    let findings = idle_hooks(alloc, &tags, &hooks.hooks)?;
    let ordered = in_order(findings)?;
    Ok(ordered)
}
