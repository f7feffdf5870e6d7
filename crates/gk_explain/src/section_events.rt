//! The events that are kept of an open section, and their lines.
ghost use Rattle.std.specs.Prelude.{◌≡◌, OnOk};
ghost use Rattle.gk_report.specs.ReportTexts.{Pushes};
ghost use Rattle.gk_explain.specs.Event.{event_value};
ghost use Rattle.gk_explain.specs.EventLines.{names_value};
ghost use Rattle.gk_explain.specs.SectionEvents as spec;
ghost use Rattle.gk_explain.specs.SectionEvents.{section_value};

use crate::event::Event;
use crate::event_lines::{KeptEvent, Names, kept_of, push_event_lines};
use crate::nearest_lines::NearestLines;
use std::alloc::{AllocError, Global};

/// What is kept of a section's events so far.
#[derive(Debug, Drop)]
pub struct SectionEvents {
    events: Vec<KeptEvent>,
}

impl SectionEvents {
    /// Returns a section without events. Doesn't allocate.
    pub fn new(alloc: Global) -> SectionEvents
        ensures { section_value result ≡ spec.no_event }
    {
        SectionEvents {
            events: Vec::new(alloc),
        }
    }

    /// Appends the lines of the events, in order. An error comes only if a growth was refused; a part of the
    /// lines may have been appended then.
    pub fn push_lines(&self, out: &mut String, names: Names<'_>) -> Result<(), AllocError>
        ensures { Pushes out.old
            (spec.section_lines (names_value names.entry) (section_value self.now))
            result out.new }
    {
        for event in &self.events {
            push_event_lines(out, names, event)?;
        }
        Ok(())
    }

    /// Keeps an event. An error comes only if a growth was refused.
    pub fn add(
        &mut self,
        alloc: Global,
        nearest: &mut NearestLines<'_>,
        event: Event<'_>,
    ) -> Result<(), AllocError>
        ensures added { OnOk result (section_value self.new ≡ spec.after_event nearest.old
            (event_value event.entry) (section_value self.old)) }
        ensures kept { nearest.new ≡ nearest.old }
    {
        let kept = kept_of(alloc, nearest, event)?;
        self.events.push(kept)?;
        Ok(())
    }

    /// Drops all events. Doesn't allocate.
    pub fn clear(&mut self)
        ensures { section_value self.new ≡ spec.no_event }
    {
        self.events.clear();
    }
}
