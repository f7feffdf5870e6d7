//! Findings of the steps of a feature and of a hooks file.
ghost use Rattle.std.specs.Prelude.{◌≡◌, [], ◌∷◌, ◌++◌, None, map, option_map, length, OnOk, IfOk};
ghost use Rattle.std.specs.List.{AllByRecursion};
ghost use Rattle.gk_gherkin.specs.Feature.{texts, step_value, examples_value, background_value};
ghost use Rattle.gk_gherkin.specs.Feature.{scenario_value, rule_value, feature_value};
ghost use Rattle.gk_gherkin.specs.Hooks.{hook_value, hooks_value};
ghost use Rattle.gk_select.specs.Filling.{filled, filled_step};
ghost use Rattle.gk_select.specs.Outline.{AllFit};
ghost use Rattle.gk_select.specs.Expansion.{RowsFit, IsExpandable};
ghost use Rattle.gk_lint.specs.ExampleParts.{part_value};
ghost use Rattle.gk_lint.specs.Findings.{AreInOrder, finding_values, hint_value, with_hint, named_once};
ghost use Rattle.gk_lint.specs.StepFaults.{step_faults};
ghost use Rattle.gk_lint.specs.declared.findings.FindingKind.TheVariants as kinds;
ghost use Rattle.gk_lint.specs.Lookups.{positions_in};
ghost use Rattle.gk_lint.specs.WrittenSteps as spec;
ghost use Rattle.gk_lint.specs.WrittenSteps.{AreAdded, AreLookedUp, found_in, used_in};

use crate::entry_hints::EntryHints;
use crate::example_parts::{Part, parts_of};
use crate::findings::{Finding, FindingKind, add_hinted, add_once, in_order};
use crate::lookups::Lookups;
use crate::scenario_names::scenarios_of;
use crate::step_faults::STEP_FAULTS;
use crate::step_sites::{StepSite, site_of_hook};
use gk_gherkin::{Background, Feature, Hook, HookFile, Rule, Scenario, Step};
use gk_select::{Names, fill_step, is_outline};
use std::alloc::{AllocError, Global};
use std::mem;

/// The findings of steps, and the position in the library of each entry that a step or its cleanup finds. A position is
/// repeated as often as its entry is found.
#[derive(Debug, Drop)]
pub struct StepFindings<'a> {
    pub findings: Vec<Finding<'a>>,
    pub used: Vec<usize>,
}

// How the steps of a scenario, a Background or a hook are run.
#[derive(Drop)]
enum Runs<'a> {
    // As they are written.
    AsWritten,
    // Once for each row of these Examples.
    InRows(Vec<Part<'a>>),
}

// Returns how the steps of a scenario are run.
fn runs_of(alloc: Global, scenario: &Scenario) -> Result<Runs<'_>, AllocError>
    ensures { IfOk result (λ runs.
        spec.runs_value runs ≡ spec.rows_of (scenario_value scenario.now)) }
{
    if is_outline(scenario) {
        Ok(Runs::InRows(parts_of(alloc, &scenario.examples)?))
    } else {
        Ok(Runs::AsWritten)
    }
}

// Looks up a step filled from a row.
fn look_up_row<'a>(
    lookups: &mut Lookups<'a>,
    alloc: Global,
    hints: &EntryHints<'a>,
    site: StepSite,
    step: &Step,
    columns: &Names<'_>,
    cells: &[String],
) -> Result<(), AllocError>
    requires { length cells.now ≡ length columns.now }
    ensures { OnOk result (AreLookedUp hints.now site
        (filled_step (filled columns.now (texts cells.now)) (step_value step.now) ∷ [])
        lookups.old lookups.new) }
{
    let filled = fill_step(alloc, step, columns, cells)?;
    lookups.add(alloc, hints, site, &filled)
}

// Looks up a step filled from each row of Examples.
fn look_up_rows<'a>(
    lookups: &mut Lookups<'a>,
    alloc: Global,
    hints: &EntryHints<'a>,
    site: StepSite,
    step: &Step,
    part: &Part<'_>,
) -> Result<(), AllocError>
    requires { AllFit (part_value part.now) }
    ensures { let e = part_value part.now in OnOk result (AreLookedUp hints.now site
        (spec.in_rows (step_value step.now) e.header e.rows) lookups.old lookups.new) }
{
    for row in &part.examples.rows {
        look_up_row(lookups, alloc, hints, site, step, &part.columns, &row.cells)?;
    }
    Ok(())
}

// Looks up a step filled from each row of some Examples.
fn look_up_examples<'a>(
    lookups: &mut Lookups<'a>,
    alloc: Global,
    hints: &EntryHints<'a>,
    site: StepSite,
    step: &Step,
    parts: &[Part<'_>],
) -> Result<(), AllocError>
    requires { AllByRecursion AllFit (map part_value parts.now) }
    ensures { OnOk result (AreLookedUp hints.now site
        (spec.in_examples (step_value step.now) (map part_value parts.now))
        lookups.old lookups.new) }
{
    for part in parts {
        look_up_rows(lookups, alloc, hints, site, step, part)?;
    }
    Ok(())
}

// Looks up the steps that a step is run as.
#[tactic(auto, using(crate::proofs::FirstHints::no_other_hint))]
fn look_up_runs<'a>(
    lookups: &mut Lookups<'a>,
    alloc: Global,
    hints: &EntryHints<'a>,
    site: StepSite,
    runs: &Runs<'_>,
    step: &Step,
) -> Result<(), AllocError>
    requires { spec.RunsFit (spec.runs_value runs.now) }
    ensures { OnOk result (AreLookedUp hints.now site
        (spec.runs (spec.runs_value runs.now) (step_value step.now)) lookups.old lookups.new) }
{
    match runs {
        Runs::AsWritten => lookups.add(alloc, hints, site, step),
        Runs::InRows(parts) => look_up_examples(lookups, alloc, hints, site, step, parts),
    }
}

// Adds the results of one written step. The entries that it uses come after those that were used before.
fn add_lookups<'a>(
    found: &mut StepFindings<'a>,
    line: u32,
    lookups: Lookups<'a>,
) -> Result<(), AllocError>
    ensures found { OnOk result (finding_values found.new.findings.items
        ≡ finding_values found.old.findings.items
        ++ (with_hint line kinds.UndefinedStep (option_map hint_value lookups.entry.undefined)
        ++ (with_hint line kinds.CleanupWithoutStep (option_map hint_value lookups.entry.cleanup)
        ++ named_once step_faults line lookups.entry.faults.items))) }
    ensures used { OnOk result (found.new.used ≡ lookups.entry.used) }
{
    let findings = &mut found.findings;
    add_hinted(
        findings,
        line,
        FindingKind::UndefinedStep,
        lookups.undefined,
    )?;
    add_hinted(
        findings,
        line,
        FindingKind::CleanupWithoutStep,
        lookups.cleanup,
    )?;
    add_once(findings, &STEP_FAULTS, line, &lookups.faults)?;
    found.used = lookups.used;
    Ok(())
}

// Takes the entries that are used out of the results, to look up a step after others.
fn take_used<'a>(found: &mut StepFindings<'a>, alloc: Global) -> Lookups<'a>
    ensures faults { result.faults.items ≡ [] }
    ensures used { result.used ≡ found.old.used }
    ensures undefined { result.undefined ≡ None }
    ensures cleanup { result.cleanup ≡ None }
    ensures found { found.new.findings ≡ found.old.findings }
{
    Lookups::new(alloc, mem::replace(&mut found.used, Vec::new(alloc)))
}

// Adds the results of a written step.
fn add_step<'a>(
    found: &mut StepFindings<'a>,
    alloc: Global,
    hints: &EntryHints<'a>,
    site: StepSite,
    runs: &Runs<'_>,
    step: &Step,
) -> Result<(), AllocError>
    requires { spec.RunsFit (spec.runs_value runs.now) }
    ensures found { OnOk result (finding_values found.new.findings.items
        ≡ finding_values found.old.findings.items
        ++ spec.at_step hints.now
        (spec.written site (spec.runs_value runs.now) (step_value step.now))) }
    ensures used { OnOk result (found.new.used.items ≡ found.old.used.items
        ++ positions_in hints.now (spec.runs (spec.runs_value runs.now) (step_value step.now))) }
{
    let mut lookups = take_used(found, alloc);
    look_up_runs(&mut lookups, alloc, hints, site, runs, step)?;
    add_lookups(found, step.line, lookups)
}

fn add_steps<'a>(
    found: &mut StepFindings<'a>,
    alloc: Global,
    hints: &EntryHints<'a>,
    site: StepSite,
    runs: &Runs<'_>,
    steps: &[Step],
) -> Result<(), AllocError>
    requires { spec.RunsFit (spec.runs_value runs.now) }
    ensures { OnOk result (AreAdded hints.now
        (spec.all_written site (spec.runs_value runs.now) (map step_value steps.now))
        found.old found.new) }
{
    for step in steps {
        add_step(found, alloc, hints, site, runs, step)?;
    }
    Ok(())
}

fn add_background<'a>(
    found: &mut StepFindings<'a>,
    alloc: Global,
    hints: &EntryHints<'a>,
    background: &Option<Background>,
) -> Result<(), AllocError>
    ensures { OnOk result (AreAdded hints.now
        (spec.of_background (option_map background_value background.now)) found.old found.new) }
{
    let steps: &[Step] = match background {
        Some(background) => &background.steps,
        None => &[],
    };
    add_steps(
        found,
        alloc,
        hints,
        StepSite::Scenario,
        &Runs::AsWritten,
        steps,
    )
}

fn add_rules<'a>(
    found: &mut StepFindings<'a>,
    alloc: Global,
    hints: &EntryHints<'a>,
    rules: &[Rule],
) -> Result<(), AllocError>
    ensures { OnOk result (AreAdded hints.now
        (spec.of_rules (map rule_value rules.now)) found.old found.new) }
{
    for rule in rules {
        add_background(found, alloc, hints, &rule.background)?;
    }
    Ok(())
}

fn add_scenario<'a>(
    found: &mut StepFindings<'a>,
    alloc: Global,
    hints: &EntryHints<'a>,
    scenario: &Scenario,
) -> Result<(), AllocError>
    requires { AllByRecursion AllFit (scenario_value scenario.now).examples }
    ensures { OnOk result (AreAdded hints.now
        (spec.of_scenario (scenario_value scenario.now)) found.old found.new) }
{
    let runs = runs_of(alloc, scenario)?;
    add_steps(
        found,
        alloc,
        hints,
        StepSite::Scenario,
        &runs,
        &scenario.steps,
    )
}

fn add_scenarios<'a>(
    found: &mut StepFindings<'a>,
    alloc: Global,
    hints: &EntryHints<'a>,
    scenarios: &[&Scenario],
) -> Result<(), AllocError>
    requires { RowsFit (map (λ s. scenario_value s.now) scenarios.now) }
    ensures { OnOk result (AreAdded hints.now
        (spec.of_scenarios (map (λ s. scenario_value s.now) scenarios.now))
        found.old found.new) }
{
    for scenario in scenarios {
        add_scenario(found, alloc, hints, *scenario)?;
    }
    Ok(())
}

fn add_feature<'a>(
    found: &mut StepFindings<'a>,
    alloc: Global,
    hints: &EntryHints<'a>,
    feature: &Feature,
) -> Result<(), AllocError>
    requires { IsExpandable (feature_value feature.now) }
    ensures { OnOk result (AreAdded hints.now
        (spec.of_feature (feature_value feature.now)) found.old found.new) }
{
    add_background(found, alloc, hints, &feature.background)?;
    add_rules(found, alloc, hints, &feature.rules)?;
    let scenarios = scenarios_of(alloc, feature)?;
    add_scenarios(found, alloc, hints, &scenarios)
}

fn add_hooks<'a>(
    found: &mut StepFindings<'a>,
    alloc: Global,
    hints: &EntryHints<'a>,
    hooks: &[Hook],
) -> Result<(), AllocError>
    ensures { OnOk result (AreAdded hints.now
        (spec.of_hooks (map hook_value hooks.now)) found.old found.new) }
{
    for hook in hooks {
        let site = site_of_hook(hook.kind);
        add_steps(found, alloc, hints, site, &Runs::AsWritten, &hook.steps)?;
    }
    Ok(())
}

// Returns empty results.
fn nothing_found<'a>(alloc: Global) -> StepFindings<'a>
    ensures found { result.findings.items ≡ [] }
    ensures used { result.used.items ≡ [] }
{
    StepFindings {
        findings: Vec::new(alloc),
        used: Vec::new(alloc),
    }
}

// Puts the findings in the order of their lines.
fn ordered(found: StepFindings<'_>) -> Result<StepFindings<'_>, AllocError>
    ensures found { IfOk result (λ o.
        AreInOrder (finding_values found.entry.findings.items) (finding_values o.findings.items)) }
    ensures used { IfOk result (λ o. o.used.items ≡ found.entry.used.items) }
{
    let StepFindings { findings, used } = found;
    Ok(StepFindings {
        findings: in_order(findings)?,
        used,
    })
}

/// Returns the findings of the steps of a feature that `read_feature` returned, in the order of lines: those of its
/// Backgrounds, its scenarios and its rules. For an outline the steps of its cases are looked up, each filled from its
/// row. Findings of several rows are listed once, at the line of the step, and each finding at a step is listed once.
///
/// An error comes only if a growth was refused.
pub fn lint_steps<'a>(
    alloc: Global,
    hints: &EntryHints<'a>,
    feature: &Feature,
) -> Result<StepFindings<'a>, AllocError>
    requires { IsExpandable (feature_value feature.now) }
    // Returns all findings, and no others.
    ensures found { IfOk result (λ r. AreInOrder
        (found_in hints.now (spec.of_feature (feature_value feature.now)))
        (finding_values r.findings.items)) }
    // Returns the positions of all entries that the steps find.
    ensures used { IfOk result (λ r. r.used.items
        ≡ used_in hints.now (spec.of_feature (feature_value feature.now))) }
{
    let mut found = nothing_found(alloc);
    add_feature(&mut found, alloc, hints, feature)?;
    ordered(found)
}

/// Returns the findings of the steps of hooks, in the order of lines, as `lint_steps` does for a feature. An error
/// comes only if a growth was refused.
pub fn lint_hooks<'a>(
    alloc: Global,
    hints: &EntryHints<'a>,
    hooks: &HookFile,
) -> Result<StepFindings<'a>, AllocError>
    // Returns all findings, and no others.
    ensures found { IfOk result (λ r. AreInOrder
        (found_in hints.now (spec.of_hooks (hooks_value hooks.now)))
        (finding_values r.findings.items)) }
    // Returns the positions of all entries that the steps find.
    ensures used { IfOk result (λ r. r.used.items
        ≡ used_in hints.now (spec.of_hooks (hooks_value hooks.now))) }
{
    let mut found = nothing_found(alloc);
    add_hooks(&mut found, alloc, hints, &hooks.hooks)?;
    ordered(found)
}
