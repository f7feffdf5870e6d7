//! The hooks of a section, and the walks through them.
ghost use Rattle.std.specs.Prelude.{◌≡◌, ◌<◌, option_copied, map};
ghost use Rattle.gk_gherkin.specs.Feature.{step_value};
ghost use Rattle.gk_gherkin.specs.Hooks.{hooks_value};
ghost use Rattle.gk_world.specs.Sandbox.{depth, KeepsLayers};
ghost use Rattle.gk_run.specs.SectionHooks as spec;
ghost use Rattle.gk_run.specs.PrivateContracts.{WalksBefore, WalksAfter};

use crate::cleanups::Cleanups;
use crate::ending::{Ending, has_passed, is_memory, worse};
use crate::observer::Observer;
use crate::section::{Level, Part, Run, Section, Stage};
use crate::walk::walk_hook;
use gk_gherkin::{HookKind, HookTable, Step};
use gk_world::Sandbox;

/// Returns the kind of the hook before a section.
pub fn before_kind(level: Level) -> HookKind
    ensures { result ≡ spec.before_kind level }
{
    match level {
        Level::Run => HookKind::BeforeAll,
        Level::Feature => HookKind::BeforeFeature,
        Level::Rule => HookKind::BeforeRule,
        Level::Scenario => HookKind::BeforeScenario,
    }
}

/// Returns the kind of the hook after a section.
pub fn after_kind(level: Level) -> HookKind
    ensures { result ≡ spec.after_kind level }
{
    match level {
        Level::Run => HookKind::AfterAll,
        Level::Feature => HookKind::AfterFeature,
        Level::Rule => HookKind::AfterRule,
        Level::Scenario => HookKind::AfterScenario,
    }
}

/// Returns the steps of the hook with this kind and this tag. A hook that isn't in the file has none.
pub fn hook_steps<'a>(hooks: &HookTable<'a>, kind: HookKind, tag: Option<&str>) -> &'a [Step]
    ensures { map step_value result.now
        ≡ spec.hook_steps (hooks_value hooks.now.file.now) kind (option_copied tag.entry) }
{
    match hooks.hook(kind, tag) {
        Some(hook) => hook.steps.as_slice(),
        None => &[],
    }
}

/// Walks through a section's before list.
pub fn walk_before<O: Observer>(
    run: &Run<'_>,
    sandbox: &mut Sandbox,
    cleanups: &mut Cleanups,
    section: &Section<'_>,
    observer: &mut O,
) -> Ending
    requires in_layer { 0 < depth sandbox.old }
    ensures walked { WalksBefore O.hears run.now section.now sandbox.old cleanups.old result
        sandbox.new cleanups.new observer.old observer.new }
    ensures layers { KeepsLayers sandbox.old sandbox.new }
{
    let stage = Stage {
        level: section.level,
        part: Part::Before,
    };
    for tag in section.tags {
        let steps = hook_steps(run.hooks, HookKind::BeforeTag, Some(tag.as_str()));
        let ending = walk_hook(run, sandbox, cleanups, stage, steps, observer);
        if !has_passed(ending) {
            return ending;
        }
    }
    let steps = hook_steps(run.hooks, before_kind(section.level), None);
    walk_hook(run, sandbox, cleanups, stage, steps, observer)
}

/// Walks through each of a section's after lists by itself. After refused memory nothing more happens.
#[tactic(auto, using(crate::proofs::GoesLemmas::begin, crate::proofs::GoesLemmas::with_rest, crate::proofs::WalkLemmas::drop_next, crate::proofs::WalkLemmas::drop_none, crate::proofs::WalkLemmas::each_on))]
pub fn walk_after<O: Observer>(
    run: &Run<'_>,
    sandbox: &mut Sandbox,
    cleanups: &mut Cleanups,
    section: &Section<'_>,
    observer: &mut O,
) -> Ending
    requires in_layer { 0 < depth sandbox.old }
    ensures walked { WalksAfter O.hears run.now section.now sandbox.old cleanups.old result
        sandbox.new cleanups.new observer.old observer.new }
    ensures layers { KeepsLayers sandbox.old sandbox.new }
{
    let stage = Stage {
        level: section.level,
        part: Part::After,
    };
    let own = hook_steps(run.hooks, after_kind(section.level), None);
    let mut ending = walk_hook(run, sandbox, cleanups, stage, own, observer);
    for tag in section.tags {
        if is_memory(ending) {
            return ending;
        }
        let of_tag = hook_steps(run.hooks, HookKind::AfterTag, Some(tag.as_str()));
        let this = walk_hook(run, sandbox, cleanups, stage, of_tag, observer);
        ending = worse(ending, this);
    }
    ending
}
