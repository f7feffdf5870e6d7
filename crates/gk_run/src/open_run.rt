//! A run that was begun and isn't finished.
ghost use Rattle.std.specs.Prelude.{◌≡◌, ◌<◌, suc, IfOk, OnErr};
ghost use Rattle.gk_world.specs.State.{state_of, layers};
ghost use Rattle.gk_world.specs.Sandbox.{depth, EndsLayer, IsSame};
ghost use Rattle.gk_run.specs.Results.{feature_row};
ghost use Rattle.gk_run.specs.OpenSection.{run_of};
ghost use Rattle.gk_run.specs.Chosen.{chosen_value, IsFormed};
ghost use Rattle.gk_run.specs.Features.{NotifiesFeature, NotifiesFeatureInPart};
ghost use Rattle.gk_run.specs.OpenRun as spec;
ghost use Rattle.gk_run.specs.OpenRun.{IsStarted, NotifiesStart, IsKept, IsNextRun, IsFinished, NotifiesFinish};

use crate::chosen::Chosen;
use crate::ending::{either, has_passed, is_failed_or_memory};
use crate::features::feature_in;
use crate::observer::{Observer, Unwatched};
use crate::open_section::{OpenSection, end_around, open_section};
use crate::results::{FeatureResult, NoRoom, Status};
use crate::section::{Level, Run, Section};
use gk_gherkin::{HookFile, HookTable};
use gk_steps::Library;
use gk_world::Sandbox;
use std::alloc::Global;
use std::marker::Model;

/// A run that was begun: its layer is open, and its `before_all` hook was run. It must be finished.
/// Inside its layer there is room for the layers of a feature, of a rule and of a scenario. (behave's
/// documentation: context layers, environment file functions)
pub struct Suite {
    section: OpenSection,
    stop: bool,
    // A feature so far is failed or memory.
    has_failed: bool,
}

impl Model for Suite {
    ghost use Rattle.std.specs.Prelude.{◌<◌, suc};
    ghost use Rattle.gk_world.specs.State.{layers};
    ghost use Rattle.gk_run.specs.OpenRun.{SuiteValue};

    ghost Value = { SuiteValue };

    ghost view = { λ s. record {
      layer = s.section.layer;
      before = s.section.before;
      cleanups = s.section.cleanups;
      stop = s.stop;
      has_failed = s.has_failed;
    } };

    ghost invariant = { λ s. suc (suc s.section.layer) < layers };
}

impl Suite {
    // Returns whether further features are begun.
    fn opens_features(&self) -> bool
        ensures { result ≡ spec.opens_features self.now }
    {
        has_passed(self.section.before) && !(self.stop && self.has_failed)
    }

    /// Begins a run: begins its layer, and runs the `before_all` hook. No layer of the sandbox is open.
    /// Takes only the memory that the hook's steps take. With `stop`, once a scenario, a rule or a feature is failed or memory, later
    /// scenarios are untested and later rules and features aren't begun; what was begun is ended as
    /// always. No feature has failed yet. (behave's documentation: context layers, environment file
    /// functions, `--stop`)
    #[tactic(auto, using(std::proofs::lemmas::Grind::common_steps))]
    pub fn start(
        alloc: Global,
        sandbox: &mut Sandbox,
        library: &Library,
        hooks: &HookFile,
        stop: bool,
    ) -> Suite
        requires { suc (suc (suc (depth sandbox.old))) < layers }
        ensures { IsStarted (run_of library.now hooks.now stop) sandbox.old sandbox.new result }
    {
        let hooks = HookTable::without_index(hooks);
        Suite::start_watched(alloc, sandbox, library, &hooks, stop, &mut Unwatched)
    }

    /// Begins a run as `start` does, and notifies an observer of the events of the `before_all` hook. No layer
    /// of the sandbox is open.
    pub fn start_watched<O: Observer>(
        alloc: Global,
        sandbox: &mut Sandbox,
        library: &Library,
        hooks: &HookTable<'_>,
        stop: bool,
        observer: &mut O,
    ) -> Suite
        requires { suc (suc (suc (depth sandbox.old))) < layers }
        ensures { NotifiesStart O.hears (run_of library.now hooks.now.file.now stop)
            sandbox.old sandbox.new result observer.old observer.new }
    {
        let run = Run {
            alloc,
            library,
            hooks,
            stop,
        };
        let section = Section {
            level: Level::Run,
            tags: &[],
        };
        let section = open_section(&run, sandbox, &section, observer);
        Suite {
            section,
            stop,
            has_failed: false,
        }
    }

    /// Runs a feature of the run, as `run_feature` does, if the `before_all` hook passed whole and the
    /// run hasn't stopped; otherwise its selected cases are untested. The sandbox is as it was,
    /// whatever is returned, and after `NoRoom` the run is as it was. The run's layer is the innermost
    /// open one. Each call makes a `HookTable`; `feature_watched` is passed one. (behave's
    /// documentation: context layers)
    pub fn feature(
        &mut self,
        alloc: Global,
        sandbox: &mut Sandbox,
        library: &Library,
        hooks: &HookFile,
        chosen: Chosen,
    ) -> Result<FeatureResult, NoRoom>
        requires innermost { self.old.layer ≡ depth sandbox.old }
        requires formed { IsFormed chosen }
        ensures ran { IfOk result (λ r. IsNextRun (run_of library.now hooks.now self.old.stop)
            (state_of sandbox.old.now) (chosen_value chosen) (feature_row r) self.old self.new) }
        ensures kept { IsKept self.old self.new }
        ensures no_room { OnErr result (self.new ≡ self.old) }
        ensures same { IsSame sandbox.old sandbox.new }
    {
        let hooks = HookTable::new(alloc, hooks);
        self.feature_watched(alloc, sandbox, library, &hooks, chosen, &mut Unwatched)
    }

    /// Runs a feature of the run as `feature` does, and notifies an observer of what happens: the events
    /// of the feature's before hooks, then each of its scenarios without a rule, then each rule, and then
    /// the events of its after hooks and its cleanups. For a scenario it gets the events and then the
    /// result; for a rule its hooks, its scenarios and its cleanups and then the result. If memory is
    /// refused in the hooks or the cleanups of a scenario, a rule or the feature, it gets these up to
    /// that event. After `NoRoom` it got a beginning of this, up to the end of a scenario or a rule, or
    /// into a list of before hooks: each scenario whole, and no after hook or cleanup of a rule or a
    /// feature that hasn't ended. The run's layer is the innermost open one.
    pub fn feature_watched<O: Observer>(
        &mut self,
        alloc: Global,
        sandbox: &mut Sandbox,
        library: &Library,
        hooks: &HookTable<'_>,
        chosen: Chosen,
        observer: &mut O,
    ) -> Result<FeatureResult, NoRoom>
        requires innermost { self.old.layer ≡ depth sandbox.old }
        requires formed { IsFormed chosen }
        ensures ran { IfOk result (λ r. IsNextRun
            (run_of library.now hooks.now.file.now self.old.stop) (state_of sandbox.old.now)
            (chosen_value chosen) (feature_row r) self.old self.new) }
        ensures notified { IfOk result (λ r. NotifiesFeature O.hears O.ends
            (run_of library.now hooks.now.file.now self.old.stop) (state_of sandbox.old.now)
            (spec.opens_features self.old) (chosen_value chosen) (feature_row r)
            observer.old observer.new) }
        ensures notified_in_part { OnErr result (NotifiesFeatureInPart O.hears O.ends
            (run_of library.now hooks.now.file.now self.old.stop) (state_of sandbox.old.now)
            (spec.opens_features self.old) (chosen_value chosen) observer.old observer.new) }
        ensures kept { IsKept self.old self.new }
        ensures no_room { OnErr result (self.new ≡ self.old) }
        ensures same { IsSame sandbox.old sandbox.new }
    {
        let run = Run {
            alloc,
            library,
            hooks,
            stop: self.stop,
        };
        let is_open = self.opens_features();
        let result = feature_in(&run, sandbox, is_open, chosen, observer)?;
        self.has_failed = either(self.has_failed, is_failed_or_memory(result.status));
        Ok(result)
    }

    /// Ends the run: runs its `after_all` hook and its cleanups, and ends its layer. Returns how its
    /// hooks and cleanups ended: `Passed`, `Failed` or `Memory`. Takes only the memory that the steps
    /// take. The run's layer is the innermost open one. (behave's documentation: context layers,
    /// environment file functions, cleanups)
    #[tactic(auto, using(std::proofs::lemmas::Grind::common_steps))]
    pub fn finish(
        self,
        alloc: Global,
        sandbox: &mut Sandbox,
        library: &Library,
        hooks: &HookFile,
    ) -> Status
        requires innermost { self.layer ≡ depth sandbox.old }
        ensures around { IsFinished (run_of library.now hooks.now self.stop) self
            sandbox.old result }
        ensures ends { EndsLayer sandbox.old sandbox.new }
    {
        let hooks = HookTable::without_index(hooks);
        self.finish_watched(alloc, sandbox, library, &hooks, &mut Unwatched)
    }

    /// Ends the run as `finish` does, and notifies an observer of the events of the `after_all` hook and
    /// of the run's cleanups. If memory is refused in one, it gets those up to that one. The run's layer
    /// is the innermost open one.
    pub fn finish_watched<O: Observer>(
        self,
        alloc: Global,
        sandbox: &mut Sandbox,
        library: &Library,
        hooks: &HookTable<'_>,
        observer: &mut O,
    ) -> Status
        requires innermost { self.layer ≡ depth sandbox.old }
        ensures notified { NotifiesFinish O.hears
            (run_of library.now hooks.now.file.now self.stop) self sandbox.old result
            observer.old observer.new }
        ensures ends { EndsLayer sandbox.old sandbox.new }
    {
        let Suite {
            section: opened,
            stop,
            has_failed: _,
        } = self;
        let run = Run {
            alloc,
            library,
            hooks,
            stop,
        };
        let section = Section {
            level: Level::Run,
            tags: &[],
        };
        end_around(&run, sandbox, &section, opened, observer)
    }
}
