//! Outlines, and the names of the cases of their rows.
ghost use Rattle.std.specs.Prelude.{◌≡◌, IfOk};
ghost use Rattle.std.specs.String.{string_bytes};
ghost use Rattle.gk_gherkin.specs.Feature.{scenario_value};
ghost use Rattle.gk_select.specs.Outline as spec;
ghost use Rattle.gk_select.specs.Outline.{outline_name};

use gk_gherkin::text::trim_back;
use gk_gherkin::{Keyword, Scenario};
use std::alloc::AllocError;

/// Returns whether a scenario is an outline: by its keyword, or because it has Examples. (Cucumber's
/// Gherkin reference: scenario outline)
pub fn is_outline(scenario: &Scenario) -> bool
    ensures { result ≡ spec.is_outline (scenario_value scenario.now) }
{
    let by_keyword = matches!(
        scenario.keyword,
        Keyword::ScenarioOutline | Keyword::ScenarioTemplate
    );
    by_keyword || !scenario.examples.is_empty()
}

/// Returns the name of the case of a row under Examples, from the filled name of its scenario. Rows and Examples are
/// counted from 1.
#[tactic(auto, using(std::proofs::lemmas::List::append_assoc, crate::proofs::CaseNames::front_is, crate::proofs::CaseNames::splits))]
pub fn case_name(
    name: String,
    examples_number: usize,
    row_number: usize,
    examples_name: &str,
) -> Result<String, AllocError>
    ensures { IfOk result (λ s. string_bytes s
        ≡ outline_name (string_bytes name) examples_number row_number examples_name.now) }
{
    let mut whole = name;
    write!(whole, " -- @{examples_number}.{row_number} {examples_name}")?;
    let end = trim_back(whole.as_str()).len();
    whole.truncate(end);
    Ok(whole)
}
