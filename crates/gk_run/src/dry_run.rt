//! Dry runs.
ghost use Rattle.std.specs.Prelude.{◌≡◌, false, cond, List, map, IfOk};
ghost use Rattle.gk_gherkin.specs.Feature.{step_value};
ghost use Rattle.gk_steps.specs.Finding.{library_value};
ghost use Rattle.gk_run.specs.declared.results.Status.TheVariants as statuses;
ghost use Rattle.gk_run.specs.Results.{step_row, case_row, rule_row, feature_row};
ghost use Rattle.gk_run.specs.Section.{Cut};
ghost use Rattle.gk_run.specs.Chosen.{head_value, member_of, members_of, chosen_value, IsPaired};
ghost use Rattle.gk_run.specs.Features.{FeatureCuts};
ghost use Rattle.gk_run.specs.DryRun.{dry_case_of, dry_cases_of, dry_rules_of, dry_feature_of, IsDryStep, AreDrySteps};

use crate::chosen::{Chosen, RuleHead};
use crate::ending::{either, is_memory_mark};
use crate::features::feature_status;
use crate::results::{
    CaseResult, FeatureResult, Mark, NoRoom, Reserved, RuleResult, Status, StepResult, reserve,
};
use crate::running::unrun_case;
use crate::walk::{look_up, row_of};
use gk_gherkin::Step;
use gk_select::Case;
use gk_steps::Library;
use std::alloc::Global;

// Looks up a step, unless memory was refused before it.
fn dry_step(alloc: Global, library: &Library, is_refused: bool, step: &Step) -> Mark
    ensures { IsDryStep (library_value library.now) is_refused (step_value step.now) result }
{
    if is_refused {
        return Mark::Untested;
    }
    look_up(alloc, library, step, Mark::Untested)
}

/// The results of steps, and whether memory was refused at one.
#[derive(Drop)]
struct DrySteps {
    results: Vec<StepResult>,
    is_refused: bool,
}

// Looks up the steps of a case.
fn dry_steps(alloc: Global, library: &Library, steps: Reserved<Step, StepResult>) -> DrySteps
    ensures { AreDrySteps (library_value library.now) false (map step_value steps.list.items)
        (map step_row result.results.items) result.is_refused }
{
    let Reserved { list, mut results } = steps;
    let mut is_refused = false;
    for step in list {
        let mark = dry_step(alloc, library, is_refused, &step);
        is_refused = either(is_refused, is_memory_mark(mark));
        results.push_reserved(row_of(step, mark));
    }
    DrySteps {
        results,
        is_refused,
    }
}

fn dry_status(is_refused: bool) -> Status
    ensures { result ≡ cond is_refused statuses.Memory statuses.Untested }
{
    if is_refused {
        return Status::Memory;
    }
    Status::Untested
}

// Returns the result of a case, selected or not.
fn dry_member(
    alloc: Global,
    library: &Library,
    case: Case,
    selected: bool,
) -> Result<CaseResult, NoRoom>
    ensures { IfOk result (λ r. (cut : Cut) × (case_row r
        ≡ dry_case_of (library_value library.now) cut (member_of case selected))) }
{
    if !selected {
        return unrun_case(alloc, case, Status::Skipped, Mark::Skipped);
    }
    let Case {
        keyword,
        name,
        line,
        steps,
        own_tags: _,
        rule: _,
        tags: _,
    } = case;
    let looked = dry_steps(alloc, library, reserve(alloc, steps)?);
    Ok(CaseResult {
        keyword,
        name,
        line,
        status: dry_status(looked.is_refused),
        around: Status::Passed,
        cleanups: Vec::new(alloc),
        steps: looked.results,
    })
}

// Returns the results of a feature's cases.
fn dry_cases(
    alloc: Global,
    library: &Library,
    cases: Reserved<Case, CaseResult>,
    selected: Vec<bool>,
) -> Result<Vec<CaseResult>, NoRoom>
    ensures { IfOk result (λ rs. (cuts : List Cut) × (map case_row rs.items
        ≡ dry_cases_of (library_value library.now) cuts
        (members_of cases.list.items selected.items))) }
{
    let Reserved { list, mut results } = cases;
    for (case, selected) in list.into_iter().zip(selected) {
        results.push_reserved(dry_member(alloc, library, case, selected)?);
    }
    Ok(results)
}

// Returns the results of rules that aren't begun.
#[tactic(auto, using(crate::proofs::Nothing::nothing_in))]
fn dry_rules(rules: Reserved<RuleHead, RuleResult>) -> Vec<RuleResult>
    ensures { map rule_row result.items ≡ dry_rules_of (map head_value rules.list.items) }
{
    let Reserved { list, mut results } = rules;
    for head in list {
        results.push_reserved(RuleResult {
            line: head.line,
            around: Status::Passed,
        });
    }
    results
}

/// Returns the result of a feature in a dry run. No hook, no step and no cleanup runs. Each step of a
/// selected case is untested if the library matches it and undefined if it doesn't, and the case is
/// untested. If memory is refused while a step is looked up, that step and the case are `Memory`, and
/// the steps after it are untested. The other cases and their steps are skipped. A dry run needs no
/// `Suite`. `NoRoom` is returned if results couldn't be reserved. (behave's documentation: `--dry-run`)
pub fn dry_feature(
    alloc: Global,
    library: &Library,
    chosen: Chosen,
) -> Result<FeatureResult, NoRoom>
    requires paired { IsPaired chosen }
    ensures row { IfOk result (λ r. (cuts : FeatureCuts) × (feature_row r
        ≡ dry_feature_of (library_value library.now) cuts (chosen_value chosen))) }
{
    let Chosen {
        source,
        name,
        line,
        tags: _,
        rules,
        cases,
        selected,
    } = chosen;
    let rules = dry_rules(reserve(alloc, rules)?);
    let cases = dry_cases(alloc, library, reserve(alloc, cases)?, selected)?;
    Ok(FeatureResult {
        source,
        name,
        line,
        status: feature_status(Status::Passed, rules.as_slice(), cases.as_slice()),
        around: Status::Passed,
        rules,
        cases,
    })
}
