//! Findings of a feature file.
ghost use Rattle.std.specs.Prelude.{◌≡◌, ◌≤◌, ◌++◌, length, map, option_map, OnOk, IfOk};
ghost use Rattle.gk_gherkin.specs.Feature.{feature_value};
ghost use Rattle.gk_lint.specs.Findings.{AreInOrder, finding_values};
ghost use Rattle.gk_lint.specs.FeatureFile as spec;

use crate::findings::{Finding, FindingKind, add_if, in_order};
use crate::line_ends::add_cr_alone;
use crate::missing_parts::add_missing_parts;
use crate::misspelt::add_misspelt;
use crate::placeholders::add_of_outlines;
use crate::scenario_names::{add_same_names, scenarios_of};
use gk_gherkin::{Feature, LONGEST_FILE};
use std::alloc::{AllocError, Global};

// Adds the findings of a feature.
fn add_of_feature<'a>(
    findings: &mut Vec<Finding<'a>>,
    alloc: Global,
    feature: &'a Feature,
) -> Result<(), AllocError>
    ensures { OnOk result (finding_values findings.new.items
        ≡ finding_values findings.old.items ++ spec.of_feature (feature_value feature.now)) }
{
    let scenarios = scenarios_of(alloc, feature)?;
    add_missing_parts(findings, feature.line, &scenarios)?;
    add_same_names(findings, alloc, &scenarios)?;
    add_of_outlines(findings, alloc, &scenarios)
}

// Adds the findings of a file's feature, or that the file has none.
fn add_of_reading<'a>(
    findings: &mut Vec<Finding<'a>>,
    alloc: Global,
    feature: &'a Option<Feature>,
) -> Result<(), AllocError>
    ensures { OnOk result (finding_values findings.new.items
        ≡ finding_values findings.old.items
        ++ spec.of_reading (option_map feature_value feature.now)) }
{
    match feature {
        Some(feature) => add_of_feature(findings, alloc, feature),
        None => add_if(findings, true, 1, FindingKind::FileWithoutFeature),
    }
}

/// Returns the findings of a feature file that has been read, in the order of lines. They are of all kinds of
/// `FindingKind` that need neither a library nor hooks: parts that never run, texts that aren't read as they were meant,
/// and names that mislead. Prose is left out: lines with a `LikeKeyword` or `StepOutside`, one directly below the
/// other, if a description line that begins like no keyword is directly below them, and a single one that is directly
/// below such a line, unless a step is directly below it.
///
/// `feature` is what `read_feature` returned for the file's bytes, and `lines` are the lines of the text that `text_of`
/// returned for them: at most `gk_gherkin::LONGEST_FILE`. An error comes only if a growth was refused.
pub fn lint_feature<'a>(
    alloc: Global,
    feature: &'a Option<Feature>,
    lines: &[&str],
) -> Result<Vec<Finding<'a>>, AllocError>
    requires { length lines.now ≤ LONGEST_FILE }
    // Returns all findings, and no others.
    ensures { IfOk result (λ findings. AreInOrder (spec.file_findings
        (option_map feature_value feature.now) (map (λ line. line.now) lines.now))
        (finding_values findings.items)) }
{
    let mut findings = Vec::new(alloc);
    add_cr_alone(&mut findings, lines)?;
    add_of_reading(&mut findings, alloc, feature)?;
    add_misspelt(&mut findings, alloc, lines)?;
    in_order(findings)
}
