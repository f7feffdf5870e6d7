//! The end of a section: its after hooks, and then its cleanups.
ghost use Rattle.std.specs.Prelude.{◌<◌};
ghost use Rattle.gk_world.specs.State.{state_of};
ghost use Rattle.gk_world.specs.Sandbox.{depth, KeepsLayers};
ghost use Rattle.gk_steps.specs.Finding.{library_value};
ghost use Rattle.gk_run.specs.Acting.{IsActed, cleanup_value};
ghost use Rattle.gk_run.specs.SectionHooks.{cleanup_done};
ghost use Rattle.gk_run.specs.Events.{of_cleanup};
ghost use Rattle.gk_run.specs.PrivateContracts.{Cleans, Closes};

use crate::acting::{Site, act};
use crate::cleanups::{Cleanup, Cleanups};
use crate::ending::{Ending, ending_of, is_memory, worse};
use crate::observer::Observer;
use crate::results::{Mark, Outcome};
use crate::section::{Level, Run, Section};
use crate::section_hooks::walk_after;
use gk_world::Sandbox;

/// How the after lists and the cleanups of a section ended, and the outcomes of the cleanups in running
/// order.
#[derive(Drop)]
pub struct Closed {
    pub ending: Ending,
    pub outcomes: Vec<Outcome>,
}

// Carries out a cleanup. One that registers a cleanup or skips fails, as its row of the table says.
fn clean_one<O: Observer>(
    run: &Run<'_>,
    sandbox: &mut Sandbox,
    level: Level,
    cleanup: Cleanup,
    observer: &mut O,
) -> Outcome
    requires in_layer { 0 < depth sandbox.old }
    ensures acted { IsActed (cleanup_done (library_value run.now.library.now)
        (cleanup_value cleanup) (state_of sandbox.old.now)) sandbox.old result sandbox.new }
    ensures notified { O.hears observer.old (of_cleanup level (cleanup_value cleanup)
        result (state_of sandbox.new.now)) observer.new }
{
    // A cleanup registers no cleanups.
    let mut none = Cleanups::new(run.alloc);
    let outcome = act(
        run.alloc,
        sandbox,
        &mut none,
        run.library,
        Site::Cleanup,
        &cleanup.found,
        &cleanup.block,
    );
    observer.cleanup(level, &cleanup, outcome, sandbox);
    outcome
}

// Runs registered cleanups, the last first. After refused memory nothing more happens.
fn clean<O: Observer>(
    run: &Run<'_>,
    sandbox: &mut Sandbox,
    level: Level,
    cleanups: Cleanups,
    observer: &mut O,
) -> Closed
    requires in_layer { 0 < depth sandbox.old }
    ensures cleaned { Cleans O.hears run.now level cleanups
        sandbox.old result sandbox.new observer.old observer.new }
    ensures layers { KeepsLayers sandbox.old sandbox.new }
{
    let Cleanups {
        mut list,
        mut outcomes,
    } = cleanups;
    let mut ending = Ending::Passed;
    while let Some(cleanup) = list.pop() {
        if is_memory(ending) {
            return Closed { ending, outcomes };
        }
        let outcome = clean_one(run, sandbox, level, cleanup, observer);
        outcomes.push_reserved(outcome);
        ending = worse(ending, ending_of(Mark::Acted(outcome)));
    }
    Closed { ending, outcomes }
}

/// Closes a section whose body ended with `ending`: walks through its after lists, and then runs its
/// cleanups. After refused memory nothing more happens.
pub fn close<O: Observer>(
    run: &Run<'_>,
    sandbox: &mut Sandbox,
    section: &Section<'_>,
    ending: Ending,
    cleanups: Cleanups,
    observer: &mut O,
) -> Closed
    requires in_layer { 0 < depth sandbox.old }
    ensures closed { Closes O.hears ending run.now section.now cleanups
        sandbox.old result observer.old observer.new }
    ensures layers { KeepsLayers sandbox.old sandbox.new }
{
    if is_memory(ending) {
        return Closed {
            ending: Ending::Passed,
            outcomes: cleanups.none(),
        };
    }
    let mut cleanups = cleanups;
    let after = walk_after(run, sandbox, &mut cleanups, section, observer);
    if is_memory(after) {
        return Closed {
            ending: after,
            outcomes: cleanups.none(),
        };
    }
    let Closed { ending, outcomes } = clean(run, sandbox, section.level, cleanups, observer);
    Closed {
        ending: worse(after, ending),
        outcomes,
    }
}
