//! The calls of the libraries that no run of the program makes, each made once.
ghost use Rattle.std.specs.Prelude.{IfSome};
ghost use Rattle.std.specs.List.{AllByRecursion};
ghost use Rattle.gk_gherkin.specs.Feature.{feature_value};
ghost use Rattle.gk_select.specs.Expansion.{IsExpandable};
ghost use Rattle.gk_run.specs.Chosen.{IsFormed};

use gk_cli::{Options, Source};
use gk_gherkin::{Feature, ReadFault, read_feature, read_lines};
use gk_report::part;
use gk_request::{ReadInputs, read_inputs};
use gk_run::{
    CaseResult, Chosen, FeatureResult, NoRoom, Status, Suite, dry_feature, run_case, run_feature,
};
use gk_select::{SelectFault, expand, read_features_are_expandable};
use gk_world::Sandbox;
use std::alloc::{AllocError, Global};

const GARDEN: &str =
    "Feature: A garden\n  Scenario: A tree\n    Given a file named \"tree\" containing \"apple\"\n    And at cleanup it passes\n";

const HOOKS: &str =
    "before_all:\n  Given a file named \"gate\" containing \"open\"\nafter_all:\n  When the file \"gate\" is extended with \", then closed\"\n";

/// What each call came to.
#[derive(Drop)]
pub struct Made {
    /// The number of the lines that were read.
    pub lines: Result<usize, ReadFault>,
    /// The number of the cases of a feature.
    pub cases: Result<usize, SelectFault>,
    /// How a case ended.
    pub case: Result<Status, NoRoom>,
    /// How a feature ended.
    pub feature: Result<Status, NoRoom>,
    /// The length of a feature's part of a report.
    pub part: Result<usize, AllocError>,
    /// How the feature of a suite ended.
    pub of_suite: Result<Status, NoRoom>,
    /// How the hooks and cleanups of the suite ended.
    pub suite: Status,
}

fn garden(alloc: Global) -> Option<Source> {
    let name = String::from_str(alloc, "garden.feature").ok()?;
    let bytes = Vec::from_slice(alloc, GARDEN.as_bytes()).ok()?;
    Some(Source { name, bytes })
}

// Reads what the calls below need.
fn inputs(alloc: Global) -> Option<ReadInputs>
    ensures { IfSome result (λ read. AllByRecursion IsFormed read.features.items) }
{
    let mut sources = Vec::new(alloc);
    sources.push(garden(alloc)?).ok()?;
    let options = Options::plain(alloc);
    let hooks = Some(HOOKS.as_bytes());
    match read_inputs(alloc, &options, false, None, hooks, sources.as_slice()) {
        Ok(read) => Some(read),
        Err(_) => None,
    }
}

fn first_of(features: Vec<Chosen>) -> Option<Chosen>
    requires { AllByRecursion IsFormed features.items }
    ensures { IfSome result (λ chosen. IsFormed chosen) }
{
    features.into_iter().next()
}

fn feature_of(alloc: Global) -> Option<Feature>
    ensures { IfSome result (λ feature. IsExpandable (feature_value feature)) }
{
    // No code runs here: the law says that what was read can be expanded.
    read_features_are_expandable();
    match read_feature(alloc, GARDEN.as_bytes()) {
        Ok(Some(feature)) => Some(feature),
        _ => None,
    }
}

fn status_of_case(ended: Result<CaseResult, NoRoom>) -> Result<Status, NoRoom> {
    match ended {
        Ok(row) => Ok(row.status),
        Err(fault) => Err(fault),
    }
}

fn status_of_feature(ended: Result<FeatureResult, NoRoom>) -> Result<Status, NoRoom> {
    match ended {
        Ok(row) => Ok(row.status),
        Err(fault) => Err(fault),
    }
}

fn count_lines(alloc: Global) -> Result<usize, ReadFault> {
    match read_lines(alloc, GARDEN.as_bytes()) {
        Ok(document) => Ok(document.lines.len()),
        Err(fault) => Err(fault),
    }
}

fn count_cases(alloc: Global, feature: &Feature) -> Result<usize, SelectFault>
    requires { IsExpandable (feature_value feature.now) }
{
    match expand(alloc, feature) {
        Ok(cases) => Ok(cases.len()),
        Err(fault) => Err(fault),
    }
}

fn case_alone(alloc: Global) -> Option<Result<Status, NoRoom>> {
    let ReadInputs {
        library,
        hooks,
        features,
        ..
    } = inputs(alloc)?;
    let case = first_of(features)?.cases.into_iter().next()?;
    let mut sandbox = Sandbox::new(alloc);
    let result = run_case(alloc, &mut sandbox, &library, &hooks, case);
    Some(status_of_case(result))
}

fn feature_alone(alloc: Global) -> Option<Result<Status, NoRoom>> {
    let ReadInputs {
        library,
        hooks,
        features,
        ..
    } = inputs(alloc)?;
    let chosen = first_of(features)?;
    let mut sandbox = Sandbox::new(alloc);
    let result = run_feature(alloc, &mut sandbox, &library, &hooks, false, chosen);
    Some(status_of_feature(result))
}

fn part_alone(alloc: Global) -> Option<Result<usize, AllocError>> {
    let ReadInputs {
        library,
        features,
        ..
    } = inputs(alloc)?;
    let result = dry_feature(alloc, &library, first_of(features)?).ok()?;
    let style = Options::plain(alloc).style;
    Some(match part(alloc, style, true, &result) {
        Ok(text) => Ok(text.len()),
        Err(fault) => Err(fault),
    })
}

// How the feature of a suite ended, and then the suite's own hooks and cleanups.
fn suite_of_one(alloc: Global) -> Option<(Result<Status, NoRoom>, Status)> {
    let ReadInputs {
        library,
        hooks,
        features,
        ..
    } = inputs(alloc)?;
    let chosen = first_of(features)?;
    let mut sandbox = Sandbox::new(alloc);
    let mut suite = Suite::start(alloc, &mut sandbox, &library, &hooks, false);
    let result = suite.feature(alloc, &mut sandbox, &library, &hooks, chosen);
    let around = suite.finish(alloc, &mut sandbox, &library, &hooks);
    Some((status_of_feature(result), around))
}

/// Makes each call once. Returns nothing if memory was refused before one of them.
pub fn make_calls(alloc: Global) -> Option<Made> {
    let feature = feature_of(alloc)?;
    let (of_suite, suite) = suite_of_one(alloc)?;
    Some(Made {
        lines: count_lines(alloc),
        cases: count_cases(alloc, &feature),
        case: case_alone(alloc)?,
        feature: feature_alone(alloc)?,
        part: part_alone(alloc)?,
        of_suite,
        suite,
    })
}
