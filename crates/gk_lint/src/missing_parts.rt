//! Missing parts: features without scenarios, scenarios without steps, outlines without rows.
ghost use Rattle.std.specs.Prelude.{◌≡◌, ◌++◌, map, OnOk};
ghost use Rattle.gk_gherkin.specs.Feature.{examples_value, scenario_value};
ghost use Rattle.gk_lint.specs.Findings.{finding_values};
ghost use Rattle.gk_lint.specs.MissingParts as spec;

use crate::findings::{Finding, FindingKind, add_if};
use gk_gherkin::{Examples, Scenario};
use gk_select::is_outline;
use std::alloc::AllocError;

fn have_no_rows(examples: &[Examples]) -> bool
    ensures { result ≡ spec.have_no_rows (map examples_value examples.now) }
{
    for part in examples {
        if !part.rows.is_empty() {
            return false;
        }
    }
    true
}

#[tactic(auto, unfolding(crate::specs::MissingParts::missing_in_scenario))]
fn add_of_scenario(findings: &mut Vec<Finding<'_>>, scenario: &Scenario) -> Result<(), AllocError>
    ensures { OnOk result (finding_values findings.new.items
        ≡ finding_values findings.old.items
        ++ spec.missing_in_scenario (scenario_value scenario.now)) }
{
    let line = scenario.line;
    let no_steps = scenario.steps.is_empty();
    add_if(findings, no_steps, line, FindingKind::ScenarioWithoutSteps)?;
    let no_rows = is_outline(scenario) && have_no_rows(&scenario.examples);
    add_if(findings, no_rows, line, FindingKind::OutlineWithoutRows)
}

/// Adds the missing parts of a feature with this line and these scenarios. An error comes only if a growth was refused;
/// some of the findings may have been added then.
pub fn add_missing_parts(
    findings: &mut Vec<Finding<'_>>,
    line: u32,
    scenarios: &[&Scenario],
) -> Result<(), AllocError>
    ensures { OnOk result (finding_values findings.new.items
        ≡ finding_values findings.old.items
        ++ spec.missing_parts line (map (λ s. scenario_value s.now) scenarios.now)) }
{
    let none = scenarios.is_empty();
    add_if(findings, none, line, FindingKind::FeatureWithoutScenarios)?;
    for scenario in scenarios {
        add_of_scenario(findings, *scenario)?;
    }
    Ok(())
}
