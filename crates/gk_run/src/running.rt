//! Running a case.
ghost use Rattle.std.specs.Prelude.{◌≡◌, ◌<◌, map, IfOk, OnErr, false};
ghost use Rattle.gk_gherkin.specs.Feature.{step_value};
ghost use Rattle.gk_select.specs.Case.{case_value};
ghost use Rattle.gk_world.specs.State.{state_of, layers};
ghost use Rattle.gk_world.specs.Sandbox.{depth, IsSame};
ghost use Rattle.gk_run.specs.Results.{step_row, case_row};
ghost use Rattle.gk_run.specs.OpenSection.{run_of, run_value};
ghost use Rattle.gk_run.specs.Running.{unrun_row, NotifiesEvents, NotifiesCase, IsReached, same_marks};
ghost use Rattle.gk_run.specs.Walk.{row_of_step};

use crate::ending::{around_status, verdict_status, worse};
use crate::observer::{Observer, Unwatched};
use crate::open_section::{end_section, open_section};
use crate::results::{CaseResult, Mark, NoRoom, Reserved, Status, StepResult, reserve};
use crate::section::{Level, Run, Section};
use crate::walk::{row_of, run_steps};
use gk_gherkin::{HookFile, HookTable, Step};
use gk_select::Case;
use gk_steps::Library;
use gk_world::Sandbox;
use std::alloc::Global;

/// Runs a case of a run in its own layer, and notifies an observer of its events.
pub(crate) fn case_in<O: Observer>(
    run: &Run<'_>,
    sandbox: &mut Sandbox,
    case: Case,
    observer: &mut O,
) -> Result<CaseResult, NoRoom>
    requires room { depth sandbox.old < layers }
    ensures notified { IfOk result (λ r. NotifiesEvents O.hears (run_value run.now)
        (state_of sandbox.old.now) (case_value case) (case_row r) observer.old observer.new) }
    ensures silent { OnErr result (observer.new ≡ observer.old) }
    ensures same { IsSame sandbox.old sandbox.new }
{
    let Case {
        keyword,
        name,
        line,
        steps,
        own_tags,
        rule: _,
        tags: _,
    } = case;
    let steps = reserve(run.alloc, steps)?;
    let section = Section {
        level: Level::Scenario,
        tags: own_tags.as_slice(),
    };
    let mut opened = open_section(run, sandbox, &section, observer);
    let before = opened.before;
    let stepped = run_steps(run, sandbox, &mut opened.cleanups, before, steps, observer);
    let ending = stepped.ending;
    let closed = end_section(run, sandbox, &section, opened, ending, observer);
    Ok(CaseResult {
        keyword,
        name,
        line,
        status: verdict_status(worse(ending, closed.ending)),
        around: around_status(worse(before, closed.ending)),
        cleanups: closed.outcomes,
        steps: stepped.results,
    })
}

/// Runs a case in its own layer: its before hooks, its steps, its after hooks and its cleanups. Its
/// result is the one that plain maps give it alone from the sandbox's contents. If memory is refused in
/// one of these, that event is `Memory`, those before it stay, and those after it don't happen. The
/// sandbox is as it was, whatever is returned. `NoRoom` is returned if memory is refused before the
/// first of them. The sandbox has fewer than `gk_world::LAYERS` open layers. (behave's documentation:
/// context layers, environment file functions, cleanups)
pub fn run_case(
    alloc: Global,
    sandbox: &mut Sandbox,
    library: &Library,
    hooks: &HookFile,
    case: Case,
) -> Result<CaseResult, NoRoom>
    requires room { depth sandbox.old < layers }
    ensures row { IfOk result (λ r. IsReached (run_of library.now hooks.now false)
        (state_of sandbox.old.now) (case_value case) (case_row r)) }
    ensures same { IsSame sandbox.old sandbox.new }
{
    run_case_watched(alloc, sandbox, library, hooks, case, &mut Unwatched)
}

/// Runs a case as `run_case` does, and notifies an observer of its events in order, each once it has
/// happened, and then of its result, with the index 0. The observer gets all events of the case, or, if
/// memory is refused in one, those up to that one. They are the events from which the result comes. It
/// gets none if `NoRoom` is returned. An observer changes nothing in the run. The sandbox has fewer than
/// `gk_world::LAYERS` open layers.
#[tactic(auto, using(std::proofs::lemmas::Grind::common_steps))]
pub fn run_case_watched<O: Observer>(
    alloc: Global,
    sandbox: &mut Sandbox,
    library: &Library,
    hooks: &HookFile,
    case: Case,
    observer: &mut O,
) -> Result<CaseResult, NoRoom>
    requires room { depth sandbox.old < layers }
    ensures row { IfOk result (λ r. IsReached (run_of library.now hooks.now false)
        (state_of sandbox.old.now) (case_value case) (case_row r)) }
    ensures notified { IfOk result (λ r. NotifiesCase O.hears O.ends
        (run_of library.now hooks.now false) (state_of sandbox.old.now)
        0 (case_value case) (case_row r) observer.old observer.new) }
    ensures silent { OnErr result (observer.new ≡ observer.old) }
    ensures same { IsSame sandbox.old sandbox.new }
{
    let hooks = HookTable::without_index(hooks);
    let run = Run {
        alloc,
        library,
        hooks: &hooks,
        stop: false,
    };
    let result = case_in(&run, sandbox, case, observer)?;
    observer.case_ended(0, &result);
    Ok(result)
}

// Returns the results of steps that aren't run. Each has this mark.
#[tactic(auto, using(crate::proofs::Nothing::nothing_in))]
fn unrun_steps(steps: Reserved<Step, StepResult>, mark: Mark) -> Vec<StepResult>
    ensures { map step_row result.items
        ≡ map (λ step. row_of_step step mark) (map step_value steps.list.items) }
{
    let Reserved { list, mut results } = steps;
    for step in list {
        results.push_reserved(row_of(step, mark));
    }
    results
}

/// Returns the result of a case in which nothing happens. The case has this verdict, and each of its
/// steps has this mark.
#[tactic(auto, using(crate::proofs::CasesLemmas::all_unrun))]
pub fn unrun_case(
    alloc: Global,
    case: Case,
    status: Status,
    mark: Mark,
) -> Result<CaseResult, NoRoom>
    ensures { IfOk result (λ r. case_row r
        ≡ unrun_row (case_value case) status (same_marks mark (case_value case))) }
{
    let Case {
        keyword,
        name,
        line,
        steps,
        own_tags: _,
        rule: _,
        tags: _,
    } = case;
    let steps = reserve(alloc, steps)?;
    Ok(CaseResult {
        keyword,
        name,
        line,
        status,
        around: Status::Passed,
        cleanups: Vec::new(alloc),
        steps: unrun_steps(steps, mark),
    })
}
