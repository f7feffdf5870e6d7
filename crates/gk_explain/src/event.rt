//! Events of a run, as an explainer receives them.
ghost use Rattle.std.specs.Prelude.{◌≡◌};
ghost use Rattle.gk_explain.specs.Event as spec;

use gk_gherkin::Step;
use gk_run::{Cleanup, Level, Outcome, Stage, StepDone};
use gk_world::Sandbox;

/// What happened to a step: its stage, what was done for it, and the sandbox that it left.
#[derive(Clone, Copy)]
pub struct StepEvent<'a> {
    pub stage: Stage,
    pub step: &'a Step,
    pub done: &'a StepDone<'a>,
    pub sandbox: &'a Sandbox,
}

/// What happened to a cleanup of a section of a level: its outcome, and the sandbox that it left.
#[derive(Clone, Copy)]
pub struct CleanupEvent<'a> {
    pub level: Level,
    pub cleanup: &'a Cleanup,
    pub outcome: Outcome,
    pub sandbox: &'a Sandbox,
}

/// What happened to a step or to a cleanup.
#[derive(Clone, Copy)]
pub enum Event<'a> {
    Step(StepEvent<'a>),
    Cleanup(CleanupEvent<'a>),
}

/// Returns the level of the section that an event belongs to. Doesn't allocate.
pub fn level_of(event: Event<'_>) -> Level
    ensures { result ≡ spec.level_of (spec.event_value event.entry) }
{
    match event {
        Event::Step(step) => step.stage.level,
        Event::Cleanup(cleanup) => cleanup.level,
    }
}
