//! The findings of sources, which are read one after another.
ghost use Rattle.std.specs.Prelude.{◌≡◌, ◌≤◌, ◌++◌, [], map, length, option_map, option_to_list, string_bytes, IfOk, IfErr, OnOk};
ghost use Rattle.gk_gherkin.specs.Lines.{IsText, without_mark};
ghost use Rattle.gk_gherkin.specs.Feature.{feature_value};
ghost use Rattle.gk_lint.specs.Findings.{AreInOrder, finding_values};
ghost use Rattle.gk_findings.specs.FindingLines.{noted_library_value};
ghost use Rattle.gk_request.specs.Inputs.{IsReadAs};
ghost use Rattle.gk_request.specs.Source.{source_value};
ghost use Rattle.gk_request.specs.RunFault.{SaysSourceAt};
ghost use Rattle.gk_findings.specs.LintedSources as spec;
ghost use Rattle.gk_findings.specs.LintedSources.{IsAppended, IsLintOf, IsLintedOnto, SaysOfSources, used_by};

use crate::finding_lines::{NotedLibrary, push_noted_findings};
use crate::notes::text_lines;
use gk_gherkin::{Feature, LONGEST_FILE, text_of};
use gk_lint::{Finding, StepFindings, in_order, lint_feature, lint_steps};
use gk_request::{RunFault, Source, read_feature_at};
use gk_select::read_features_are_expandable;
use std::alloc::{AllocError, Global};

/// The results for the sources so far: the text of their findings, the places of the entries that their steps use, and
/// the features.
#[derive(Drop)]
pub struct LintSoFar {
    pub text: String,
    pub used: Vec<usize>,
    pub features: Vec<Feature>,
}

/// Returns the text in these bytes, without the byte-order mark that it may begin with. Doesn't allocate.
pub fn known_text(bytes: &[u8]) -> &str
    requires { IsText bytes.now }
    ensures text { result.now ≡ without_mark bytes.now }
    ensures within { length result.now ≤ LONGEST_FILE }
{
    match text_of(bytes) {
        Ok(text) => text,
        Err(_) => "",
    }
}

/// Returns the findings of no step.
pub fn no_steps<'a>(alloc: Global) -> StepFindings<'a>
    ensures found { result.findings.items ≡ [] }
    ensures used { result.used.items ≡ [] }
{
    StepFindings {
        findings: Vec::new(alloc),
        used: Vec::new(alloc),
    }
}

// Returns the findings of the steps of a feature, if there is one and steps are looked up.
fn step_findings<'a>(
    alloc: Global,
    library: &NotedLibrary<'a>,
    feature: &Option<Feature>,
) -> Result<StepFindings<'a>, AllocError>
    requires { spec.AreExpandable (option_map feature_value feature.now) }
    ensures found { IfOk result (λ r. AreInOrder (spec.step_findings
        (noted_library_value library.now) (option_map feature_value feature.now))
        (finding_values r.findings.items)) }
    ensures used { IfOk result (λ r. r.used.items ≡ used_by (noted_library_value library.now)
        (option_to_list (option_map feature_value feature.now))) }
{
    match feature {
        Some(feature) => {
            if library.steps {
                lint_steps(alloc, &library.hints, feature)
            } else {
                Ok(no_steps(alloc))
            }
        }
        None => Ok(no_steps(alloc)),
    }
}

/// Merges the findings of steps with other findings of their file, in the order of lines. An error comes only if a
/// growth was refused.
pub fn with_findings<'a>(
    findings: Vec<Finding<'a>>,
    of_steps: StepFindings<'a>,
) -> Result<StepFindings<'a>, AllocError>
    ensures found { IfOk result (λ r. AreInOrder
        (finding_values findings.entry.items ++ finding_values of_steps.entry.findings.items)
        (finding_values r.findings.items)) }
    ensures used { IfOk result (λ r. r.used.items ≡ of_steps.entry.used.items) }
{
    let mut findings = findings;
    let mut of_steps = of_steps;
    findings.append(&mut of_steps.findings)?;
    Ok(StepFindings {
        findings: in_order(findings)?,
        used: of_steps.used,
    })
}

// Returns the findings of a file with these lines and this feature, or none, in the order of lines.
fn all_findings<'a>(
    alloc: Global,
    library: &NotedLibrary<'a>,
    feature: &'a Option<Feature>,
    lines: &[&str],
) -> Result<StepFindings<'a>, AllocError>
    requires expandable { spec.AreExpandable (option_map feature_value feature.now) }
    requires within { length lines.now ≤ LONGEST_FILE }
    ensures found { IfOk result (λ r. AreInOrder (spec.source_findings
        (noted_library_value library.now) (option_map feature_value feature.now)
        (map (λ line. line.now) lines.now)) (finding_values r.findings.items)) }
    ensures used { IfOk result (λ r. r.used.items ≡ used_by (noted_library_value library.now)
        (option_to_list (option_map feature_value feature.now))) }
{
    let findings = lint_feature(alloc, feature, lines)?;
    let of_steps = step_findings(alloc, library, feature)?;
    with_findings(findings, of_steps)
}

// Appends the findings of a source that reads as this feature, or as none. Returns the places of the entries that its
// steps use.
#[tactic(auto, using(crate::proofs::LintedSourcesLemmas::expandable))]
fn push_source(
    out: &mut String,
    alloc: Global,
    library: &NotedLibrary<'_>,
    source: &Source,
    feature: &Option<Feature>,
) -> Result<Vec<usize>, AllocError>
    requires { IsReadAs source.now.bytes.items (option_map feature_value feature.now) }
    ensures appended { OnOk result (IsAppended (noted_library_value library.now)
        (source_value source.now) (option_map feature_value feature.now)
        (string_bytes out.old) (string_bytes out.new)) }
    ensures used { IfOk result (λ used. used.items ≡ used_by (noted_library_value library.now)
        (option_to_list (option_map feature_value feature.now))) }
{
    // No code runs here: the law says that what was read can be expanded.
    read_features_are_expandable();
    let lines = text_lines(alloc, known_text(source.bytes.as_slice()))?;
    let found = all_findings(alloc, library, feature, &lines)?;
    let name = source.name.as_str();
    push_noted_findings(out, alloc, library.name, name, &lines, &found.findings)?;
    Ok(found.used)
}

// Adds the findings of a source that reads as this feature, or as none.
fn add_source(
    so_far: &mut LintSoFar,
    alloc: Global,
    library: &NotedLibrary<'_>,
    source: &Source,
    feature: Option<Feature>,
) -> Result<(), AllocError>
    requires { IsReadAs source.now.bytes.items (option_map feature_value feature) }
    ensures { OnOk result (IsLintedOnto (noted_library_value library.now)
        (source_value source.now) so_far.old so_far.new) }
{
    let mut used = push_source(&mut so_far.text, alloc, library, source, &feature)?;
    so_far.used.append(&mut used)?;
    if let Some(feature) = feature {
        so_far.features.push(feature)?;
    }
    Ok(())
}

// Reads the source at a place and adds its findings.
fn lint_source(
    alloc: Global,
    library: &NotedLibrary<'_>,
    input: usize,
    source: &Source,
    so_far: &mut LintSoFar,
) -> Result<(), RunFault>
    ensures ok { OnOk result (IsLintedOnto (noted_library_value library.now)
        (source_value source.now) so_far.old so_far.new) }
    ensures fault { IfErr result (λ e. SaysSourceAt input source.now.bytes.items e) }
{
    match read_feature_at(alloc, input, source.bytes.as_slice()) {
        Ok(feature) => Ok(add_source(so_far, alloc, library, source, feature)?),
        Err(fault) => Err(fault),
    }
}

/// Reads the sources one after another and collects their findings: those of the file, and those of the steps, if they
/// are looked up in the library. An error names the first source that doesn't read, as that of a run does; `Memory`
/// comes only if a growth was refused.
pub fn lint_sources(
    alloc: Global,
    library: &NotedLibrary<'_>,
    sources: &[Source],
) -> Result<LintSoFar, RunFault>
    ensures linted { IfOk result (λ l. IsLintOf (noted_library_value library.now)
        (map source_value sources.now) l) }
    ensures fault { IfErr result (λ e. SaysOfSources (map source_value sources.now) e) }
{
    let mut so_far = LintSoFar {
        text: String::new(alloc),
        used: Vec::new(alloc),
        features: Vec::new(alloc),
    };
    for (input, source) in sources.iter().enumerate() {
        if let Err(fault) = lint_source(alloc, library, input, source, &mut so_far) {
            return Err(fault);
        }
    }
    Ok(so_far)
}
