//! What stays the same during a run, and its sections: the run itself, a feature, a rule, a scenario.
ghost use Rattle.std.specs.Prelude.{◌≡◌};
ghost use Rattle.gk_run.specs.Section as spec;

use crate::acting::Site;
use gk_gherkin::HookTable;
use gk_steps::Library;
use std::alloc::Global;

/// What stays the same during a run, and the allocator of its memory.
#[derive(Clone, Copy)]
pub struct Run<'a> {
    pub alloc: Global,
    pub library: &'a Library,
    pub hooks: &'a HookTable<'a>,
    /// The first case, rule or feature that is failed or memory stops the run.
    pub stop: bool,
}

/// The level of a section of a run. Each section has its own layer. (behave's documentation: context
/// layers)
#[derive(Clone, Copy, Debug, PartialEq, Eq)]
pub enum Level {
    Run,
    Feature,
    Rule,
    Scenario,
}

/// A section of a run: its level, and the tags at its heading.
#[derive(Clone, Copy)]
pub struct Section<'a> {
    pub level: Level,
    pub tags: &'a [String],
}

/// A part of a section in which steps are carried out.
#[derive(Clone, Copy, Debug, PartialEq, Eq)]
pub enum Part {
    /// The hooks before what is inside the section.
    Before,
    /// The steps of a scenario.
    Steps,
    /// The hooks after what is inside the section.
    After,
}

/// The stage of a step in a run: the level of its section, and the part of this section.
#[derive(Clone, Copy, Debug, PartialEq, Eq)]
pub struct Stage {
    pub level: Level,
    pub part: Part,
}

fn before_site(level: Level) -> Site
    ensures { result ≡ spec.before_site level }
{
    match level {
        Level::Run => Site::Hook,
        Level::Feature | Level::Rule => Site::Hook,
        Level::Scenario => Site::CaseHook,
    }
}

/// Returns the site of the steps at a stage.
pub fn site_of(stage: Stage) -> Site
    ensures { result ≡ spec.site_of stage }
{
    match stage.part {
        Part::Before => before_site(stage.level),
        Part::Steps => Site::Step,
        Part::After => Site::Hook,
    }
}
