//! Findings, their texts and their order.
ghost use Rattle.std.specs.Prelude.{◌≡◌, ◌++◌, option_map, OnOk, IfOk};
ghost use Rattle.std.specs.String.{string_bytes};
ghost use Rattle.gk_lint.specs.Findings as spec;
ghost use Rattle.gk_lint.specs.Findings.{AreInOrder, finding_values, hint_value};

use crate::step_faults::{StepFault, has_fault};
use gk_gherkin::Keyword;
use gk_steps::Entry;
use std::alloc::{AllocError, Global};

/// The kind of a finding.
#[derive(Clone, Copy, Debug, PartialEq, Eq)]
pub enum FindingKind {
    /// The lines of the file end with CR alone. CR ends no line, so the file is read as one line. The finding is at
    /// line 1.
    CrAlone,
    /// The file has no feature. The finding is at line 1, even in an empty file.
    FileWithoutFeature,
    /// The feature has no scenarios, and none of its rules has any.
    FeatureWithoutScenarios,
    /// The scenario itself has no steps.
    ScenarioWithoutSteps,
    /// The outline has no rows, so it has no case.
    OutlineWithoutRows,
    /// The description line begins like the keyword.
    LikeKeyword(Keyword),
    /// A step with `Given`, `When` or `Then` is in a place in which no step is possible, and so is part of a
    /// description.
    StepOutside,
    /// An earlier scenario of the feature has the same name.
    NameTwice,
    /// In an outline, `<WORD>` stays as it is, since no column has this name. It comes near to the column of the hint.
    NoColumn,
    /// The step finds no entry of the library as it is run; in an outline, in at least one row.
    /// (behave's documentation: undefined steps)
    UndefinedStep,
    /// The step registers a cleanup whose text finds no entry of type `step`; in an outline, in at least one row.
    /// (behave's documentation: cleanups)
    CleanupWithoutStep,
    /// The step has the fault as it is run; in an outline, in at least one row.
    OfStep(StepFault),
    /// No step and no cleanup finds the entry of the library.
    UnusedEntry,
    /// The hook is for a tag that no feature has.
    HookOfNoTag,
}

/// What the author of a line may have meant.
#[derive(Clone, Copy, Debug)]
pub enum Hint<'a> {
    /// Nothing that is known.
    Nothing,
    /// This column of the outline.
    Column(&'a str),
    /// This entry, which the text finds, but as a step of another type.
    OtherType(&'a Entry),
    /// This entry, which is the nearest.
    Nearest(&'a Entry),
}

/// A finding. Its line is counted from 1.
#[derive(Clone, Copy, Debug)]
pub struct Finding<'a> {
    pub line: u32,
    pub kind: FindingKind,
    pub hint: Hint<'a>,
}

impl FindingKind {
    /// Returns the text of a finding. It names a keyword by its correct spelling. An error comes only if a growth was
    /// refused.
    #[tactic(auto, unfolding(crate::specs::Findings::finding_text))]
    pub fn text(self, alloc: Global) -> Result<String, AllocError>
        ensures { IfOk result (λ text. string_bytes text ≡ spec.finding_text self) }
    {
        match self {
            FindingKind::CrAlone => String::from_str(alloc, "file whose lines end with CR alone"),
            FindingKind::FileWithoutFeature => String::from_str(alloc, "file without feature"),
            FindingKind::FeatureWithoutScenarios => {
                String::from_str(alloc, "feature without scenarios")
            }
            FindingKind::ScenarioWithoutSteps => String::from_str(alloc, "scenario without steps"),
            FindingKind::OutlineWithoutRows => String::from_str(alloc, "outline without rows"),
            FindingKind::StepOutside => { String::from_str(alloc, "step outside of a scenario") }
            FindingKind::NameTwice => {
                String::from_str(alloc, "scenario with the name of one before it")
            }
            FindingKind::NoColumn => { String::from_str(alloc, "placeholder that no column has") }
            FindingKind::UndefinedStep => String::from_str(alloc, "undefined step"),
            FindingKind::CleanupWithoutStep => String::from_str(alloc, "cleanup without step"),
            FindingKind::OfStep(fault) => String::from_str(alloc, fault.text()),
            FindingKind::HookOfNoTag => {
                String::from_str(alloc, "hook for a tag that isn't used")
            }
            FindingKind::UnusedEntry => String::from_str(alloc, "entry that no step finds"),
            FindingKind::LikeKeyword(keyword) => {
                let mut text = String::from_str(alloc, "description begins like the keyword ")?;
                text.push_str(keyword.spelling())?;
                Ok(text)
            }
        }
    }
}

/// Adds a finding at a line if a test holds. An error comes only if a growth was refused.
pub fn add_if(
    findings: &mut Vec<Finding<'_>>,
    holds: bool,
    line: u32,
    kind: FindingKind,
) -> Result<(), AllocError>
    ensures { OnOk result (finding_values findings.new.items
        ≡ finding_values findings.old.items ++ spec.found_if holds line kind) }
{
    if holds {
        let hint = Hint::Nothing;
        findings.push(Finding { line, kind, hint })?;
    }
    Ok(())
}

/// Adds a finding at a line if there is a hint for it. An error comes only if a growth was refused.
pub fn add_hinted<'a>(
    findings: &mut Vec<Finding<'a>>,
    line: u32,
    kind: FindingKind,
    hint: Option<Hint<'a>>,
) -> Result<(), AllocError>
    ensures { OnOk result (finding_values findings.new.items
        ≡ finding_values findings.old.items
        ++ spec.with_hint line kind (option_map hint_value hint.entry)) }
{
    if let Some(hint) = hint {
        findings.push(Finding { line, kind, hint })?;
    }
    Ok(())
}

/// Adds the findings at a line with some faults: one for each fault of `these` that is among `faults`, even if it is
/// there several times. An error comes only if a growth was refused; some of the findings may have been added then.
pub fn add_once(
    findings: &mut Vec<Finding<'_>>,
    these: &[StepFault],
    line: u32,
    faults: &[StepFault],
) -> Result<(), AllocError>
    ensures { OnOk result (finding_values findings.new.items
        ≡ finding_values findings.old.items ++ spec.named_once these.now line faults.now) }
{
    for fault in these {
        let holds = has_fault(faults, *fault);
        add_if(findings, holds, line, FindingKind::OfStep(*fault))?;
    }
    Ok(())
}

/// Returns the same findings in the order of their lines. Those of one line keep their order. An error comes only if a
/// growth was refused; the findings are dropped then.
pub fn in_order(findings: Vec<Finding<'_>>) -> Result<Vec<Finding<'_>>, AllocError>
    ensures { IfOk result (λ ordered.
        AreInOrder (finding_values findings.entry.items) (finding_values ordered.items)) }
{
    let mut findings = findings;
    findings.sort_by_key(|finding| finding.line)?;
    Ok(findings)
}
