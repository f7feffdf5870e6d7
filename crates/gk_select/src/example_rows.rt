//! The rows of a feature's outlines, with the headers of their cells.
ghost use Rattle.std.specs.Prelude.{◌≡◌, flat_map, map, zip, IfOk};
ghost use Rattle.gk_gherkin.specs.Feature.{texts, examples_value, scenario_value, feature_value};
ghost use Rattle.gk_select.specs.Copies.{Appends};
ghost use Rattle.gk_select.specs.ExampleRows as spec;
ghost use Rattle.gk_select.specs.ExampleRows.{cell_value, entry_value};

use crate::outline::is_outline;
use gk_gherkin::{Examples, Feature, Scenario};
use std::alloc::{AllocError, Global};

/// A cell of a row, with the header above it. (Cucumber's Gherkin reference: examples)
#[derive(Debug, Drop)]
pub struct ExampleCell {
    pub header: String,
    pub text: String,
}

/// A row under the header of Examples. (Cucumber's Gherkin reference: examples)
#[derive(Debug, Drop)]
pub struct ExampleRow {
    /// The line of the row, counted from 1. It is also the line of the row's case.
    pub line: u32,
    /// The number of the row among the rows of its Examples, counted from 1.
    pub number: usize,
    /// The cells of the row, from left to right.
    pub cells: Vec<ExampleCell>,
}

// Returns copies of a cell and of the header above it.
fn cell_under(alloc: Global, header: &str, text: &str) -> Result<ExampleCell, AllocError>
    ensures { IfOk result (λ c. cell_value c ≡ (header.now, text.now)) }
{
    Ok(ExampleCell {
        header: String::from_str(alloc, header)?,
        text: String::from_str(alloc, text)?,
    })
}

// Returns copies of cells and of the headers above them. A cell without a header above it is left out.
fn cells_under(
    alloc: Global,
    header: &[String],
    cells: &[String],
) -> Result<Vec<ExampleCell>, AllocError>
    ensures { IfOk result (λ v. map cell_value v.items
        ≡ zip (texts header.now) (texts cells.now)) }
{
    let mut copies = Vec::new(alloc);
    for (i, name) in header.iter().enumerate() {
        if let Some(cell) = cells.get(i) {
            copies.push(cell_under(alloc, name.as_str(), cell.as_str())?)?;
        }
    }
    Ok(copies)
}

// Appends the rows of Examples.
fn push_rows(
    alloc: Global,
    rows: &mut Vec<Option<ExampleRow>>,
    examples: &Examples,
) -> Result<(), AllocError>
    ensures { Appends entry_value result rows.old.items rows.new.items
        (spec.rows_of_examples (examples_value examples.now)) }
{
    for (i, row) in examples.rows.iter().enumerate() {
        rows.push(Some(ExampleRow {
            line: row.line,
            number: i + 1,
            cells: cells_under(alloc, &examples.header, &row.cells)?,
        }))?;
    }
    Ok(())
}

// Appends the rows of an outline's Examples, or for any other scenario that its case has no row.
fn push_scenario_rows(
    alloc: Global,
    rows: &mut Vec<Option<ExampleRow>>,
    scenario: &Scenario,
) -> Result<(), AllocError>
    ensures { Appends entry_value result rows.old.items rows.new.items
        (spec.rows_of_scenario (scenario_value scenario.now)) }
{
    if !is_outline(scenario) {
        rows.push(None)?;
        return Ok(());
    }
    for examples in &scenario.examples {
        push_rows(alloc, rows, examples)?;
    }
    Ok(())
}

// Appends the rows of the cases of scenarios.
fn push_scenarios_rows(
    alloc: Global,
    rows: &mut Vec<Option<ExampleRow>>,
    scenarios: &[Scenario],
) -> Result<(), AllocError>
    ensures { Appends entry_value result rows.old.items rows.new.items
        (flat_map spec.rows_of_scenario (map scenario_value scenarios.now)) }
{
    for scenario in scenarios {
        push_scenario_rows(alloc, rows, scenario)?;
    }
    Ok(())
}

/// Returns for each case of a feature, in the cases' order, the row that it comes from, or nothing if its
/// scenario isn't an outline. Each text is copied. An error comes only if a growth was refused. (Cucumber's
/// Gherkin reference: scenario outline, examples)
#[tactic(auto, unfolding(crate::specs::ExampleRows::outline_rows))]
pub fn outline_rows(alloc: Global, feature: &Feature) -> Result<Vec<Option<ExampleRow>>, AllocError>
    ensures { IfOk result (λ v. map entry_value v.items
        ≡ spec.outline_rows (feature_value feature.now)) }
{
    let mut rows = Vec::new(alloc);
    push_scenarios_rows(alloc, &mut rows, &feature.scenarios)?;
    for rule in &feature.rules {
        push_scenarios_rows(alloc, &mut rows, &rule.scenarios)?;
    }
    Ok(rows)
}
