//! The state that explains a run: what is kept of its events until their lines are wanted.
ghost use Rattle.std.specs.Prelude.{◌≡◌, ◌++◌, true, false, IfOk, OnOk, OnErr, string_bytes};
ghost use Rattle.gk_run.specs.Running as cases;
ghost use Rattle.gk_report.specs.ReportTexts.{line_feed, Pushes};
ghost use Rattle.gk_explain.specs.RowLines.{named_row, borrowed_row};
ghost use Rattle.gk_explain.specs.Headings as headings;
ghost use Rattle.gk_explain.specs.SectionEvents.{section_value, section_lines, no_event};
ghost use Rattle.gk_explain.specs.Explanation.{names_with};

use crate::event::{Event, level_of};
use crate::event_lines::Names;
use crate::headings::{ExplainedEnd, ended_status, push_explanation, push_heading};
use crate::nearest_lines::NearestLines;
use crate::row_lines::row_of;
use crate::section_events::SectionEvents;
use gk_run::{CaseResult, FeatureResult, Level, RuleResult, Status, is_failed_or_memory};
use gk_select::ExampleRow;
use gk_steps::Library;
use std::alloc::{AllocError, Global};
use std::mem;

/// What is kept of each open section, the rows of the open feature's cases and of those of later ones, and what
/// is explained.
#[derive(Debug, Drop)]
pub struct Explanation<'a> {
    nearest: NearestLines<'a>,
    source: String,
    rows: &'a [Option<ExampleRow>],
    coming: &'a [Vec<Option<ExampleRow>>],
    run: SectionEvents,
    feature: SectionEvents,
    rule: SectionEvents,
    scenario: SectionEvents,
    explained: Explained<'a>,
}

/// The name of the hooks file, the explanations that are ready to be written, and the list of what failed.
#[derive(Debug, Drop)]
struct Explained<'a> {
    hooks: &'a str,
    ready: String,
    failures: String,
}

impl Explained<'_> {
    // Adds the explanation of what failed, and its line in the list.
    fn add(
        &mut self,
        source: &str,
        ended: ExplainedEnd<'_>,
        row: Option<&ExampleRow>,
        section: &SectionEvents,
    ) -> Result<(), AllocError>
        ensures ready { Pushes self.old.ready
            (headings.explanation_text (headings.heading_of source.now ended.entry)
            (headings.ended_status ended.entry) (named_row (borrowed_row row.entry) ++
            section_lines (names_with self.old source.now) (section_value section.now)))
            result self.new.ready }
        ensures failures { Pushes self.old.failures
            (headings.heading_of source.now ended.entry ++ line_feed) result self.new.failures }
        ensures hooks { self.new.hooks ≡ self.old.hooks }
    {
        let names = Names {
            hooks: self.hooks,
            source,
        };
        push_explanation(&mut self.ready, names, ended, row, section)?;
        push_heading(&mut self.failures, source, ended)?;
        self.failures.push_str("\n")
    }

    // Explains what has ended if it failed or was refused memory, and names its row if it has one. On success
    // nothing is kept of its section.
    fn end(
        &mut self,
        source: &str,
        ended: ExplainedEnd<'_>,
        row: Option<&ExampleRow>,
        section: &mut SectionEvents,
    ) -> Result<(), AllocError>
        ensures ready { Pushes self.old.ready
            (headings.explained (headings.heading_of source.now ended.entry)
            (headings.ended_status ended.entry) (named_row (borrowed_row row.entry) ++
            section_lines (names_with self.old source.now) (section_value section.old)))
            result self.new.ready }
        ensures failures { Pushes self.old.failures
            (headings.listed (headings.heading_of source.now ended.entry)
            (headings.ended_status ended.entry)) result self.new.failures }
        ensures hooks { self.new.hooks ≡ self.old.hooks }
        ensures section { OnOk result (section_value section.new ≡ no_event) }
        ensures free { cases.is_failed_or_memory (headings.ended_status ended.entry) ≡ false →
            OnErr result ⊥ }
    {
        if is_failed_or_memory(ended_status(ended)) {
            self.add(source, ended, row, section)?;
        }
        section.clear();
        Ok(())
    }
}

impl<'a> Explanation<'a> {
    ghost use Rattle.std.specs.Prelude.{◌≡◌, ◌≤◌, length, IfOk, OnOk, string_bytes};
    ghost use Rattle.gk_select.specs.ExampleRows.{row_lists};
    ghost use Rattle.gk_steps.specs.Finding.{library_value};
    ghost use Rattle.gk_run.specs.Results.{case_row, rule_row, feature_row};
    ghost use Rattle.gk_explain.specs.Event.{event_value};
    ghost use Rattle.gk_explain.specs.Headings.{failures_text};
    ghost use Rattle.gk_explain.specs.Explanation.{explanation_value, name_room, nothing_said, with_event, with_case, with_rule, with_rows, with_source, with_feature, with_run, with_taken};

    /// Returns an explanation of nothing, before any feature has begun. The run finds its steps in
    /// `library`, and `hooks` is the name of the hooks file. `rows` has for each feature, in order, the rows of
    /// its cases. Doesn't allocate.
    pub fn new(
        alloc: Global,
        library: &'a Library,
        hooks: &'a str,
        rows: &'a [Vec<Option<ExampleRow>>],
    ) -> Explanation<'a>
        ensures { explanation_value result
            ≡ nothing_said (library_value library.entry.now) hooks.entry.now
            (row_lists rows.entry.now) }
    {
        Explanation {
            nearest: NearestLines::new(alloc, library),
            source: String::new(alloc),
            rows: &[],
            coming: rows,
            run: SectionEvents::new(alloc),
            feature: SectionEvents::new(alloc),
            rule: SectionEvents::new(alloc),
            scenario: SectionEvents::new(alloc),
            explained: Explained {
                hooks,
                ready: String::new(alloc),
                failures: String::new(alloc),
            },
        }
    }

    // Goes on to the rows of the next feature.
    fn begin_rows(&mut self)
        ensures rows { let old = explanation_value self.old in
            explanation_value self.new ≡ with_rows old.coming old }
        ensures name { self.new.source ≡ self.old.source }
    {
        match self.coming.split_first() {
            Some((rows, others)) => {
                self.rows = rows.as_slice();
                self.coming = others;
            }
            None => self.rows = &[],
        }
    }

    /// Begins a feature of a file with this name. An error comes only if a growth was refused; the source has
    /// no name then.
    pub fn begin_feature(&mut self, source: &str) -> Result<(), AllocError>
        ensures begun { OnOk result (explanation_value self.new
            ≡ with_source source.now (explanation_value self.old)) }
        ensures free { length source.now ≤ name_room self.old → OnErr result ⊥ }
    {
        self.begin_rows();
        self.source.clear();
        self.source.push_str(source)
    }

    /// Ends the open feature with this result. Errors are those of `end_case`.
    pub fn end_feature(&mut self, feature: &FeatureResult) -> Result<(), AllocError>
        ensures ended { OnOk result (explanation_value self.new
            ≡ with_feature (feature_row feature.now) (explanation_value self.old)) }
        ensures free { cases.is_failed_or_memory feature.now.around ≡ false → OnErr result ⊥ }
    {
        let source = self.source.as_str();
        self.explained.end(
            source,
            ExplainedEnd::Feature(feature),
            None,
            &mut self.feature,
        )
    }

    /// Adds an event to what is kept of its section. An error comes only if a growth was refused.
    pub fn add(&mut self, alloc: Global, event: Event<'_>) -> Result<(), AllocError>
        ensures { OnOk result (explanation_value self.new
            ≡ with_event (event_value event.entry) (explanation_value self.old)) }
    {
        let nearest = &mut self.nearest;
        match level_of(event) {
            Level::Run => self.run.add(alloc, nearest, event),
            Level::Feature => self.feature.add(alloc, nearest, event),
            Level::Rule => self.rule.add(alloc, nearest, event),
            Level::Scenario => self.scenario.add(alloc, nearest, event),
        }
    }

    /// Ends the open scenario, which has this index in its feature, with this result. If it is the case of a row,
    /// its explanation names the row. An error comes only if a growth was refused; a part of its explanation may
    /// be ready then.
    pub fn end_case(&mut self, index: usize, case: &CaseResult) -> Result<(), AllocError>
        ensures ended { OnOk result (explanation_value self.new
            ≡ with_case index (case_row case.now) (explanation_value self.old)) }
        ensures free { cases.is_failed_or_memory case.now.status ≡ false → OnErr result ⊥ }
    {
        let row = row_of(self.rows, index);
        let source = self.source.as_str();
        self.explained.end(
            source,
            ExplainedEnd::Scenario(case),
            row,
            &mut self.scenario,
        )
    }

    /// Ends the open rule with this result. Errors are those of `end_case`.
    pub fn end_rule(&mut self, rule: &RuleResult) -> Result<(), AllocError>
        ensures ended { OnOk result (explanation_value self.new
            ≡ with_rule (rule_row rule.now) (explanation_value self.old)) }
        ensures free { cases.is_failed_or_memory rule.now.around ≡ false → OnErr result ⊥ }
    {
        let source = self.source.as_str();
        self.explained
            .end(source, ExplainedEnd::Rule(rule), None, &mut self.rule)
    }

    /// Ends the run. `around` is the status of the run's hooks and cleanups. Errors are those of `end_case`.
    pub fn end_run(&mut self, around: Status) -> Result<(), AllocError>
        ensures ended { OnOk result (explanation_value self.new
            ≡ with_run around (explanation_value self.old)) }
        ensures free { cases.is_failed_or_memory around ≡ false → OnErr result ⊥ }
    {
        let source = self.source.as_str();
        self.explained
            .end(source, ExplainedEnd::Run(around), None, &mut self.run)
    }

    /// Returns what is ready; after that, nothing is ready. Doesn't allocate.
    pub fn take_ready(&mut self, alloc: Global) -> String
        ensures taken { let old = explanation_value self.old in string_bytes result ≡ old.ready }
        ensures left { explanation_value self.new ≡ with_taken (explanation_value self.old) }
    {
        mem::replace(&mut self.explained.ready, String::new(alloc))
    }

    /// Returns the list of what failed, followed by an empty line unless the list is empty. An error comes only
    /// if a growth was refused; the explanation is dropped then.
    pub fn into_failures(self) -> Result<String, AllocError>
        ensures { let said = explanation_value self.entry in IfOk result (λ text.
            string_bytes text ≡ failures_text said.failures) }
    {
        let Explanation { explained, .. } = self;
        let Explained { mut failures, .. } = explained;
        if !failures.is_empty() {
            failures.push_str("\n")?;
        }
        Ok(failures)
    }
}
