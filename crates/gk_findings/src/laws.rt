//! Laws on what the findings of steps mean for a run. Each is the contract of an empty function.
ghost use Rattle.gk_findings.specs.LintedSteps.{FoundFaultsAreFailures, StepsRunAtTheirSites};

/// States that each step of a scenario, and each step of a hook before or after a section of a run, runs at a site that
/// the linter's site for it means. (behave's documentation: environment file functions)
#[tactic(auto, using(crate::proofs::LintedStepsLemmas::steps_at_their_sites))]
pub fn steps_run_at_their_sites()
    ensures { StepsRunAtTheirSites }
{}

/// States that the linter is right if it finds for a step that its action isn't allowed, that its text or its table is
/// missing, or that its table isn't one of files. Wherever the step may run, and whatever files, variables and values
/// exist there, it fails for this reason; or it passes, and registers a cleanup that fails for this reason, whatever
/// exists when it runs. Refused memory, for which nothing passes, is left out. (behave's documentation: cleanups,
/// skipping scenarios)
#[tactic(auto, using(crate::proofs::LintedStepsLemmas::faults_fail))]
pub fn found_faults_are_failures()
    ensures { FoundFaultsAreFailures }
{}
