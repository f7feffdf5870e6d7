//! Lines of cases, and the lines of `--line` that have no case.
ghost use Rattle.std.specs.Prelude.{◌≡◌, ◌++◌, not, map, filter, OnOk, IfOk};
ghost use Rattle.std.specs.List.Sorted.{IsNonDecreasing};
ghost use Rattle.gk_gherkin.specs.Feature.{row_value, scenario_value, feature_value};
ghost use Rattle.gk_lint.specs.NumberSets.{is_among};
ghost use Rattle.gk_lint.specs.ScenarioLines as spec;

use crate::number_sets::{has, rising};
use crate::scenario_names::scenarios_of;
use gk_gherkin::{Feature, Row, Scenario};
use gk_select::is_outline;
use std::alloc::{AllocError, Global};

fn push_row_lines(lines: &mut Vec<usize>, rows: &[Row]) -> Result<(), AllocError>
    ensures { OnOk result (lines.new.items
        ≡ lines.old.items ++ spec.lines_of_rows (map row_value rows.now)) }
{
    for row in rows {
        lines.push(row.line as usize)?;
    }
    Ok(())
}

fn push_lines(lines: &mut Vec<usize>, scenario: &Scenario) -> Result<(), AllocError>
    ensures { OnOk result (lines.new.items
        ≡ lines.old.items ++ spec.lines_of_scenario (scenario_value scenario.now)) }
{
    if !is_outline(scenario) {
        lines.push(scenario.line as usize)?;
        return Ok(());
    }
    for part in &scenario.examples {
        push_row_lines(lines, &part.rows)?;
    }
    Ok(())
}

fn push_feature_lines(
    lines: &mut Vec<usize>,
    alloc: Global,
    feature: &Feature,
) -> Result<(), AllocError>
    ensures { OnOk result (lines.new.items
        ≡ lines.old.items ++ spec.lines_of_feature (feature_value feature.now)) }
{
    let scenarios = scenarios_of(alloc, feature)?;
    for scenario in &scenarios {
        push_lines(lines, *scenario)?;
    }
    Ok(())
}

// Returns the lines of the cases of features.
fn lines_of_features(alloc: Global, features: &[Feature]) -> Result<Vec<usize>, AllocError>
    ensures { IfOk result (λ lines. lines.items
        ≡ spec.lines_of_features (map feature_value features.now)) }
{
    let mut lines = Vec::new(alloc);
    for feature in features {
        push_feature_lines(&mut lines, alloc, feature)?;
    }
    Ok(lines)
}

// Returns the lines that aren't among numbers in ascending order.
fn not_among(alloc: Global, numbers: &[usize], lines: &[u32]) -> Result<Vec<u32>, AllocError>
    requires { IsNonDecreasing numbers.now }
    ensures { IfOk result (λ left. left.items
        ≡ filter (λ line. not (is_among numbers.now line)) lines.now) }
{
    let mut left = Vec::new(alloc);
    for line in lines {
        if !has(numbers, *line as usize) {
            left.push(*line)?;
        }
    }
    Ok(left)
}

/// Returns the lines at which these features have neither a plain scenario nor a row of an outline, in their order. A
/// `--line` with such a line selects nothing. An error comes only if a growth was refused.
pub fn lines_without_scenario(
    alloc: Global,
    lines: &[u32],
    features: &[Feature],
) -> Result<Vec<u32>, AllocError>
    ensures { IfOk result (λ left. left.items
        ≡ spec.without_scenario (map feature_value features.now) lines.now) }
{
    let all = lines_of_features(alloc, features)?;
    let numbers = rising(alloc, &all)?;
    let left = not_among(alloc, &numbers, lines)?;
    Ok(left)
}
