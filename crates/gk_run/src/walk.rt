//! Walking through steps.
ghost use Rattle.std.specs.Prelude.{◌≡◌, ◌<◌, [], None};
ghost use Rattle.gk_gherkin.specs.Feature.{step_value};
ghost use Rattle.gk_steps.specs.Finding.{library_value};
ghost use Rattle.gk_world.specs.Sandbox.{depth, KeepsLayers};
ghost use Rattle.gk_world.specs.State.{state_of};
ghost use Rattle.gk_run.specs.declared.results.Mark.TheVariants.{Acted};
ghost use Rattle.gk_run.specs.Events.{of_step};
ghost use Rattle.gk_run.specs.Section.{steps_of_case};
ghost use Rattle.gk_run.specs.Results.{step_row};
ghost use Rattle.gk_run.specs.Walk.{IsLookedUp, row_of_step};
ghost use Rattle.gk_run.specs.PrivateContracts.{RunsStep, StepNeedsCandidate, StepKeepsAtMemory, WalksHook, TakesNext, NotifiesStep, NotifiesNext, IsDoneBy, RunsSteps};

use crate::acting::{Used, arguments_by, carry_out};
use crate::cleanups::{Cleanups, Registration};
use crate::ending::{Ending, ending_of, has_passed, reason_of, status_of, worse};
use crate::observer::{Observer, StepDone};
use crate::results::{Mark, Outcome, Reserved, StepResult};
use crate::section::{Level, Part, Run, Stage, site_of};
use gk_gherkin::Step;
use gk_steps::Library;
use gk_world::Sandbox;
use std::alloc::{AllocError, Global};

// Returns what was done for a step whose action was carried out with this outcome.
fn done_by<'a>(used: &'a Used<'a>, outcome: Outcome, registered: bool) -> StepDone<'a>
    ensures mark { result.mark ≡ Acted outcome }
    ensures done { IsDoneBy used.entry.now outcome registered result }
{
    let mark = Mark::Acted(outcome);
    match outcome {
        Outcome::Memory => StepDone {
            mark,
            used: None,
            registered: false,
        },
        _ => StepDone {
            mark,
            used: Some(used),
            registered,
        },
    }
}

// Notifies the observer of a step of which no action was carried out. Returns the step's mark.
fn notify<O: Observer>(
    observer: &mut O,
    stage: Stage,
    step: &Step,
    mark: Mark,
    sandbox: &Sandbox,
) -> Mark
    ensures mark { result ≡ mark }
    ensures notified { O.hears observer.old (of_step stage (step_value step.now) mark None []
        (state_of sandbox.now.now)) observer.new }
{
    let done = StepDone {
        mark,
        used: None,
        registered: false,
    };
    observer.step(stage, step, &done, sandbox);
    mark
}

// Carries out a step at a stage, if an entry matches it, and notifies the observer of it.
#[tactic(auto, using(crate::proofs::ActingLemmas::none_written, crate::proofs::WalkLemmas::undefined_event))]
fn run_step<O: Observer>(
    run: &Run<'_>,
    sandbox: &mut Sandbox,
    cleanups: &mut Cleanups,
    stage: Stage,
    step: &Step,
    observer: &mut O,
) -> Mark
    requires in_layer { 0 < depth sandbox.old }
    ensures ran { RunsStep run.now stage step.now
        sandbox.old cleanups.old result sandbox.new cleanups.new }
    ensures notified { NotifiesStep O.hears run.now stage step.now
        sandbox.old result sandbox.new observer.old observer.new }
    ensures memory { StepNeedsCandidate run.now step.now result }
    ensures kept { StepKeepsAtMemory run.now stage step.now sandbox.old result sandbox.new }
    ensures layers { KeepsLayers sandbox.old sandbox.new }
{
    match run
        .library
        .find_used(run.alloc, step.step_type, step.text.as_str())
    {
        Ok(Some(found)) => {
            let used = Used {
                action: found.action,
                arguments: arguments_by(found.fields, &step.block),
            };
            let at = Registration {
                part: stage.part,
                line: step.line,
            };
            let site = site_of(stage);
            let before = cleanups.len();
            let outcome = carry_out(run.alloc, sandbox, cleanups, run.library, site, at, &used);
            let done = done_by(&used, outcome, cleanups.len() != before);
            observer.step(stage, step, &done, sandbox);
            done.mark
        }
        Ok(None) => notify(observer, stage, step, Mark::Undefined, sandbox),
        Err(AllocError) => {
            let mark = Mark::Acted(Outcome::Memory);
            notify(observer, stage, step, mark, sandbox)
        }
    }
}

/// Walks through the steps of a hook at a stage.
pub fn walk_hook<O: Observer>(
    run: &Run<'_>,
    sandbox: &mut Sandbox,
    cleanups: &mut Cleanups,
    stage: Stage,
    steps: &[Step],
    observer: &mut O,
) -> Ending
    requires in_layer { 0 < depth sandbox.old }
    ensures walked { WalksHook O.hears run.now stage steps.now sandbox.old cleanups.old result
        sandbox.new cleanups.new observer.old observer.new }
    ensures layers { KeepsLayers sandbox.old sandbox.new }
{
    let mut ending = Ending::Passed;
    for step in steps {
        if !has_passed(ending) {
            return ending;
        }
        ending = ending_of(run_step(run, sandbox, cleanups, stage, step, observer));
    }
    ending
}

/// Looks up a step that isn't carried out. Its mark is `matched` if an entry matches it.
#[tactic(auto, using(std::proofs::lemmas::Grind::common_steps))]
pub fn look_up(alloc: Global, library: &Library, step: &Step, matched: Mark) -> Mark
    ensures { IsLookedUp (library_value library.now) matched (step_value step.now) result }
{
    match library.knows(alloc, step.step_type, step.text.as_str()) {
        Ok(true) => matched,
        Ok(false) => Mark::Undefined,
        Err(AllocError) => Mark::Acted(Outcome::Memory),
    }
}

// Takes the next step of a case that has ended so far with `ending`, and notifies the observer of it.
// After refused memory nothing more happens. Returns the step's mark.
#[tactic(auto, using(crate::proofs::ActingLemmas::none_written, crate::proofs::WalkLemmas::look_needs))]
fn next_step<O: Observer>(
    run: &Run<'_>,
    sandbox: &mut Sandbox,
    cleanups: &mut Cleanups,
    step: &Step,
    ending: Ending,
    observer: &mut O,
) -> Mark
    requires in_layer { 0 < depth sandbox.old }
    ensures layers { KeepsLayers sandbox.old sandbox.new }
    ensures next { TakesNext run.now ending step.now
        sandbox.old cleanups.old result sandbox.new cleanups.new }
    ensures notified { NotifiesNext O.hears run.now ending step.now
        sandbox.old result sandbox.new observer.old observer.new }
    ensures memory { StepNeedsCandidate run.now step.now result }
    ensures kept { StepKeepsAtMemory run.now steps_of_case step.now sandbox.old result sandbox.new }
{
    let stage = Stage {
        level: Level::Scenario,
        part: Part::Steps,
    };
    match ending {
        Ending::Passed => run_step(run, sandbox, cleanups, stage, step, observer),
        Ending::Failed => {
            let mark = look_up(run.alloc, run.library, step, Mark::Skipped);
            notify(observer, stage, step, mark, sandbox)
        }
        Ending::Skipped => notify(observer, stage, step, Mark::Skipped, sandbox),
        Ending::Memory => Mark::Untested,
    }
}

/// Returns the result of a step with this mark.
#[inline(always)]
pub fn row_of(step: Step, mark: Mark) -> StepResult
    ensures { step_row result ≡ row_of_step (step_value step) mark }
{
    let Step {
        keyword,
        text,
        line,
        step_type: _,
        block: _,
    } = step;
    StepResult {
        keyword,
        text,
        line,
        status: status_of(mark),
        reason: reason_of(mark),
    }
}

/// How a case has ended after its steps, and their results.
#[derive(Drop)]
pub struct StepsEnd {
    pub ending: Ending,
    pub results: Vec<StepResult>,
}

/// Runs the steps of a case whose before list ended with `before`.
pub fn run_steps<O: Observer>(
    run: &Run<'_>,
    sandbox: &mut Sandbox,
    cleanups: &mut Cleanups,
    before: Ending,
    steps: Reserved<Step, StepResult>,
    observer: &mut O,
) -> StepsEnd
    requires in_layer { 0 < depth sandbox.old }
    ensures stepped { RunsSteps O.hears run.now before steps sandbox.old cleanups.old result
        sandbox.new cleanups.new observer.old observer.new }
    ensures layers { KeepsLayers sandbox.old sandbox.new }
{
    let Reserved { list, mut results } = steps;
    let mut ending = before;
    for step in list {
        let mark = next_step(run, sandbox, cleanups, &step, ending, observer);
        ending = worse(ending, ending_of(mark));
        results.push_reserved(row_of(step, mark));
    }
    StepsEnd { ending, results }
}
