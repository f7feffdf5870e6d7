//! An observer that explains a run.
ghost use Rattle.std.specs.Prelude.{◌≡◌, true, false, IfOk, OnOk, OnErr, string_bytes};
ghost use Rattle.gk_select.specs.ExampleRows.{row_lists};
ghost use Rattle.gk_steps.specs.Finding.{library_value};
ghost use Rattle.gk_run.specs.Results.{feature_row};
ghost use Rattle.gk_explain.specs.Headings.{failures_text};
ghost use Rattle.gk_explain.specs.Explanation.{nothing_said, with_source, with_feature, with_run, with_taken};
ghost use Rattle.gk_explain.specs.Explainer as spec;
ghost use Rattle.gk_explain.specs.Explainer.{said, Becomes, Hears, HearsEnd, CasesAreExplained, IsCutOnlyByFailure, IsCutOnlyByLongName};

use crate::event::{CleanupEvent, Event, StepEvent};
use crate::explanation::Explanation;
use gk_gherkin::Step;
use gk_run::{
    CaseResult, Cleanup, FeatureResult, Level, Observer, Outcome, RuleResult, Stage, Status,
    StepDone,
};
use gk_select::ExampleRow;
use gk_steps::Library;
use gk_world::Sandbox;
use std::alloc::{AllocError, Global};

/// An observer that explains a run.
///
/// It explains each scenario that failed or was refused memory, and in the same way the hooks and cleanups of
/// each rule, each feature and the run. An explanation has a line for each event, in order. Above them is a
/// line that names the row, if the scenario is the case of a row of an outline. Below the line of an event that
/// failed, it says what the reason means there. Below an undefined step, it names the entry of the library that
/// may be meant, if there is one. It keeps no event.
///
/// If a growth is refused to it, in any call and at any event, it is cut: from then on it adds nothing, and
/// calls for its texts return an error. The run that it hears goes on.
#[derive(Debug, Drop)]
pub struct Explainer<'a> {
    alloc: Global,
    explanation: Explanation<'a>,
    cut: bool,
}

impl<'a> Explainer<'a> {
    /// Returns an explainer before any event. `library` is the library in which the run finds its steps,
    /// and `hooks` is the run's name for the hooks file. `rows` has for each feature, in order, the rows of its
    /// cases, as `outline_rows` returns them; a feature without a list there has none. Doesn't allocate.
    pub fn new(
        alloc: Global,
        library: &'a Library,
        hooks: &'a str,
        rows: &'a [Vec<Option<ExampleRow>>],
    ) -> Explainer<'a>
        ensures uncut { spec.is_cut result ≡ false }
        ensures said { said result
            ≡ nothing_said (library_value library.entry.now) hooks.entry.now
            (row_lists rows.entry.now) }
    {
        Explainer {
            alloc,
            explanation: Explanation::new(alloc, library, hooks, rows),
            cut: false,
        }
    }

    /// Returns whether a growth was refused to the explainer. Doesn't allocate.
    pub fn is_cut(&self) -> bool
        ensures { result ≡ spec.is_cut self.now }
    {
        self.cut
    }

    // Cuts the explainer if a growth was refused to it.
    fn cut_after(&mut self, added: Result<(), AllocError>)
        ensures cut { OnErr added (spec.is_cut self.new ≡ true) }
        ensures uncut { OnOk added (self.new ≡ self.old) }
    {
        if added.is_err() {
            self.cut = true;
        }
    }

    /// Begins a feature of the source with this name, and goes on to the next list of rows. Call it before the
    /// feature's first event. If a growth is refused, the explainer is cut; none is asked for unless the name is
    /// longer than the room that is kept for names.
    pub fn begin_feature(&mut self, source: &str)
        ensures becomes { Becomes self.old (with_source source.now) self.new }
        ensures kept { IsCutOnlyByLongName source.now self.old self.new }
    {
        if self.cut {
            return;
        }
        let added = self.explanation.begin_feature(source);
        self.cut_after(added);
    }

    /// Ends a feature with this result, after its events. If the feature's hooks and cleanups failed or were
    /// refused memory, their explanation is ready then, too. If a growth is refused, the explainer is cut; none
    /// is asked for unless they failed or were refused memory.
    pub fn end_feature(&mut self, feature: &FeatureResult)
        ensures becomes { Becomes self.old (with_feature (feature_row feature.now)) self.new }
        ensures kept { IsCutOnlyByFailure feature.now.around self.old self.new }
    {
        if self.cut {
            return;
        }
        let added = self.explanation.end_feature(feature);
        self.cut_after(added);
    }

    /// Ends the run, after all events. `around` is the status of the run's hooks and cleanups. If they failed or
    /// were refused memory, their explanation is ready then, too. If a growth is refused, the explainer is cut;
    /// none is asked for unless they failed or were refused memory.
    pub fn end_run(&mut self, around: Status)
        ensures becomes { Becomes self.old (with_run around) self.new }
        ensures kept { IsCutOnlyByFailure around self.old self.new }
    {
        if self.cut {
            return;
        }
        let added = self.explanation.end_run(around);
        self.cut_after(added);
    }

    /// Returns the explanations that are ready and weren't taken before; after that, none is ready. Doesn't
    /// allocate. An error comes only if a growth was refused to the explainer before, so that it is cut, and
    /// it stays cut.
    pub fn take_ready(&mut self) -> Result<String, AllocError>
        ensures uncut { IfOk result (λ text. spec.is_cut self.old ≡ false) }
        ensures text { let old = said self.old in IfOk result (λ text.
            string_bytes text ≡ old.ready) }
        ensures left { IfOk result (λ text. said self.new ≡ with_taken (said self.old)) }
        ensures still { spec.is_cut self.new ≡ spec.is_cut self.old }
        ensures cut { OnErr result (spec.is_cut self.old ≡ true) }
    {
        if self.cut {
            return Err(AllocError);
        }
        Ok(self.explanation.take_ready(self.alloc))
    }

    /// Returns the list of what failed, one line each, followed by an empty line. If nothing failed, the text
    /// is empty. An error comes only if a growth was refused: before, so that the explainer is cut, or in this
    /// call. The explainer is dropped then.
    pub fn into_failures(self) -> Result<String, AllocError>
        ensures uncut { IfOk result (λ text. spec.is_cut self.entry ≡ false) }
        ensures text { let said = said self.entry in IfOk result (λ text.
            string_bytes text ≡ failures_text said.failures) }
    {
        if self.cut {
            return Err(AllocError);
        }
        self.explanation.into_failures()
    }
}

impl Observer for Explainer<'_> {
    ghost hears = { Hears };

    ghost ends = { HearsEnd };

    fn step(&mut self, stage: Stage, step: &Step, done: &StepDone<'_>, sandbox: &Sandbox) {
        if self.cut {
            return;
        }
        let event = Event::Step(StepEvent {
            stage,
            step,
            done,
            sandbox,
        });
        let added = self.explanation.add(self.alloc, event);
        self.cut_after(added);
    }

    fn cleanup(&mut self, level: Level, cleanup: &Cleanup, outcome: Outcome, sandbox: &Sandbox) {
        if self.cut {
            return;
        }
        let event = Event::Cleanup(CleanupEvent {
            level,
            cleanup,
            outcome,
            sandbox,
        });
        let added = self.explanation.add(self.alloc, event);
        self.cut_after(added);
    }

    fn case_ended(&mut self, index: usize, row: &CaseResult) {
        if self.cut {
            return;
        }
        let added = self.explanation.end_case(index, row);
        self.cut_after(added);
    }

    fn rule_ended(&mut self, row: &RuleResult) {
        if self.cut {
            return;
        }
        let added = self.explanation.end_rule(row);
        self.cut_after(added);
    }
}

/// A case is explained by an explainer that kept nothing before and isn't cut, if it failed or was refused
/// memory. The explanation has the lines of all its events in order, with the text below those that
/// failed. Nothing is said about any other case.
pub fn cases_are_explained()
    ensures { CasesAreExplained }
{}
