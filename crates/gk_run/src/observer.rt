//! Observers of a run.
ghost use Rattle.std.specs.Prelude.{◌≡◌, List};
ghost use Rattle.gk_gherkin.specs.Feature.{step_value};
ghost use Rattle.gk_world.specs.State.{state_of};
ghost use Rattle.gk_run.specs.Acting.{CleanupValue, cleanup_value};
ghost use Rattle.gk_run.specs.Results.{case_row, rule_row};
ghost use Rattle.gk_run.specs.Events.{Event, of_step, of_cleanup, has_cleanup, used_in, Ended, of_case, of_rule};

use crate::acting::Used;
use crate::cleanups::Cleanup;
use crate::results::{CaseResult, Mark, Outcome, RuleResult};
use crate::section::{Level, Stage};
use gk_gherkin::Step;
use gk_world::Sandbox;

/// What was done for a step.
#[derive(Clone, Copy)]
pub struct StepDone<'a> {
    pub mark: Mark,
    /// The action that was carried out, if there was one and memory wasn't refused in it.
    pub used: Option<&'a Used<'a>>,
    /// Whether a cleanup was registered.
    pub registered: bool,
}

/// An observer of a run. It receives the run's events in order, each once it has happened. It sees the
/// sandbox as the event left it, which after a failed check is what the check found. It can't change
/// the sandbox. Its methods return nothing, so memory that is refused to an observer is no event of the
/// run.
pub trait Observer {
    /// What it may become when it receives an event.
    ghost hears: { Self → Event → Self → Type 0 };

    /// What it may become when a scenario or a rule has ended.
    ghost ends: { Self → Ended → Self → Type 0 };

    /// Receives a step of a scenario or of a hook, with its stage and what was done for it.
    fn step(&mut self, stage: Stage, step: &Step, done: &StepDone<'_>, sandbox: &Sandbox)
        ensures { (registered : List CleanupValue) → has_cleanup registered ≡ done.now.registered →
            hears self.old (of_step stage (step_value step.now) done.now.mark (used_in done.now)
            registered (state_of sandbox.now.now)) self.new };

    /// Receives a cleanup of a section of this level, and its outcome.
    fn cleanup(&mut self, level: Level, cleanup: &Cleanup, outcome: Outcome, sandbox: &Sandbox)
        ensures { hears self.old (of_cleanup level (cleanup_value cleanup.now) outcome
            (state_of sandbox.now.now)) self.new };

    /// Receives the result of a scenario that has ended, after its events, and its index among the
    /// scenarios of its feature, counted from 0. A scenario that isn't run has no events.
    fn case_ended(&mut self, index: usize, row: &CaseResult)
        ensures { ends self.old (of_case index (case_row row.now)) self.new };

    /// Receives the result of a rule that has ended, after its events and its scenarios.
    fn rule_ended(&mut self, row: &RuleResult)
        ensures { ends self.old (of_rule (rule_row row.now)) self.new };
}

/// An observer that ignores what it receives.
#[derive(Drop)]
pub struct Unwatched;

impl Observer for Unwatched {
    ghost hears = { λ old event new. Unit {0} };

    ghost ends = { λ old ended new. Unit {0} };

    fn step(&mut self, _stage: Stage, _step: &Step, _done: &StepDone<'_>, _sandbox: &Sandbox) {}

    fn cleanup(
        &mut self,
        _level: Level,
        _cleanup: &Cleanup,
        _outcome: Outcome,
        _sandbox: &Sandbox,
    ) {}

    fn case_ended(&mut self, _index: usize, _row: &CaseResult) {}

    fn rule_ended(&mut self, _row: &RuleResult) {}
}
