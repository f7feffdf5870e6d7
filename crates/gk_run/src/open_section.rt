//! The course of a section: it is begun and its before list is walked through, what is inside it runs,
//! and it is closed and ended. The run, a feature, a rule and a scenario are sections.
ghost use Rattle.std.specs.Prelude.{◌≡◌, ◌<◌};
ghost use Rattle.gk_gherkin.specs.Feature.{texts};
ghost use Rattle.gk_world.specs.State.{layers};
ghost use Rattle.gk_world.specs.Sandbox.{depth, EndsLayer};
ghost use Rattle.gk_run.specs.Events.{section_now};
ghost use Rattle.gk_run.specs.OpenSection.{EndsAround, run_value};
ghost use Rattle.gk_run.specs.PrivateContracts.{Closes, Opens};

use crate::cleanups::Cleanups;
use crate::ending::{Ending, around_status, worse};
use crate::observer::Observer;
use crate::results::Status;
use crate::section::{Run, Section};
use crate::section_end::{Closed, close};
use crate::section_hooks::walk_before;
use gk_world::{Layer, Sandbox, layers_enter};

/// A section that was begun. It must be ended. (behave's documentation: context layers)
pub struct OpenSection {
    pub layer: Layer,
    /// How its before list ended.
    pub before: Ending,
    /// The cleanups that are registered in it.
    pub cleanups: Cleanups,
}

/// Begins a section: begins its layer, and walks through its before list.
pub fn open_section<O: Observer>(
    run: &Run<'_>,
    sandbox: &mut Sandbox,
    section: &Section<'_>,
    observer: &mut O,
) -> OpenSection
    requires room { depth sandbox.old < layers }
    ensures { Opens O.hears run.now section.now sandbox.old result sandbox.new
        observer.old observer.new }
{
    // No code runs here: the law says that the layer's state is the one outside, entered.
    layers_enter();
    let layer = sandbox.begin();
    let mut cleanups = Cleanups::new(run.alloc);
    let before = walk_before(run, sandbox, &mut cleanups, section, observer);
    OpenSection {
        layer,
        before,
        cleanups,
    }
}

/// Ends a section whose body ended with `ending`: closes it, unless memory was refused in it, and ends
/// its layer.
pub fn end_section<O: Observer>(
    run: &Run<'_>,
    sandbox: &mut Sandbox,
    section: &Section<'_>,
    opened: OpenSection,
    ending: Ending,
    observer: &mut O,
) -> Closed
    requires innermost { opened.layer ≡ depth sandbox.old }
    ensures closed { Closes O.hears ending run.now section.now opened.cleanups
        sandbox.old result observer.old observer.new }
    ensures ends { EndsLayer sandbox.old sandbox.new }
{
    let OpenSection {
        layer,
        before: _,
        cleanups,
    } = opened;
    let closed = close(run, sandbox, section, ending, cleanups, observer);
    sandbox.end(layer);
    closed
}

/// Ends a section without its own steps. Returns how its hooks and cleanups ended.
pub fn end_around<O: Observer>(
    run: &Run<'_>,
    sandbox: &mut Sandbox,
    section: &Section<'_>,
    opened: OpenSection,
    observer: &mut O,
) -> Status
    requires innermost { opened.layer ≡ depth sandbox.old }
    ensures around { EndsAround O.hears (run_value run.now) section.now.level
        (texts section.now.tags.now) opened.before (section_now sandbox.old opened.cleanups)
        result observer.old observer.new }
    ensures ends { EndsLayer sandbox.old sandbox.new }
{
    let before = opened.before;
    let closed = end_section(run, sandbox, section, opened, before, observer);
    around_status(worse(before, closed.ending))
}

/// Ends the layer of a section in which results couldn't be reserved. Nothing more runs in the section.
pub fn leave_section(sandbox: &mut Sandbox, opened: OpenSection)
    requires innermost { opened.layer ≡ depth sandbox.old }
    ensures ends { EndsLayer sandbox.old sandbox.new }
{
    let OpenSection {
        layer,
        before: _,
        cleanups: _,
    } = opened;
    sandbox.end(layer);
}
