//! A cache of the lines that name the entries that may be meant.
ghost use Rattle.std.specs.Prelude.{◌≡◌, IfOk, IfSome, string_bytes};
ghost use Rattle.gk_steps.specs.Finding.{library_value};
ghost use Rattle.gk_report.specs.ReportTexts.{Pushes};
ghost use Rattle.gk_explain.specs.Nearest.{nearest_text};

use crate::nearest::push_hint;
use gk_lint::EntryHints;
use gk_steps::Library;
use std::alloc::{AllocError, Global};
use std::collections::HashMap;
use std::marker::Model;

/// A library and, for each text that was asked for, the line, if any, that names the entry that may be meant. So a
/// text that occurs again, such as a step of a Background in each scenario, isn't compared with all entries again.
#[derive(Debug, Drop)]
pub struct NearestLines<'a> {
    library: &'a Library,
    // Made for the first text.
    hints: Option<EntryHints<'a>>,
    lines: HashMap<String, String>,
}

impl<'a> Model for NearestLines<'a> {
    ghost use Rattle.std.specs.Prelude.{◌≡◌, IfSome};
    ghost use Rattle.gk_steps.specs.Finding.{LibraryValue, library_value};
    ghost use Rattle.gk_explain.specs.NearestLines.{AreNearest};

    ghost Value = { LibraryValue };

    ghost view = { λ nearest. library_value nearest.library.now };

    ghost invariant = { λ nearest. let library = library_value nearest.library.now in
        AreNearest library nearest.lines
        × IfSome nearest.hints (λ hints. hints ≡ library) };
}

impl<'a> NearestLines<'a> {
    /// Returns a cache for this library that was asked for no text. Doesn't allocate.
    pub fn new(alloc: Global, library: &'a Library) -> NearestLines<'a>
        ensures { result ≡ library_value library.entry.now }
    {
        NearestLines {
            library,
            hints: None,
            lines: HashMap::new(alloc),
        }
    }

    /// Returns the library. Doesn't allocate.
    pub fn library(&self) -> &'a Library
        ensures { library_value result.now ≡ self.now }
    {
        self.library
    }

    // Returns the line kept for a text, if any.
    fn kept(&self, text: &str) -> Option<&str>
        ensures { IfSome result (λ line. line.now ≡ nearest_text self.now text.now) }
    {
        match self.lines.get(text) {
            Some(line) => Some(line.as_str()),
            None => None,
        }
    }

    // Keeps the line for a text.
    fn keep(&mut self, alloc: Global, text: &str, line: String) -> Result<(), AllocError>
        requires { string_bytes line ≡ nearest_text self.old text.now }
        ensures kept { self.new ≡ self.old }
    {
        let text = String::from_str(alloc, text)?;
        self.lines.insert(text, line)?;
        Ok(())
    }

    // Takes out the hints, or makes them.
    fn take_hints(&mut self, alloc: Global) -> Result<EntryHints<'a>, AllocError>
        ensures hints { IfOk result (λ hints. hints ≡ self.old) }
        ensures kept { self.new ≡ self.old }
    {
        match self.hints.take() {
            Some(hints) => Ok(hints),
            None => EntryHints::new(alloc, self.library),
        }
    }

    // Compares a text with the entries, and appends the line that names the entry that it may mean.
    fn push_compared(
        &mut self,
        alloc: Global,
        out: &mut String,
        text: &str,
    ) -> Result<(), AllocError>
        ensures pushed { Pushes out.old (nearest_text self.old text.now) result out.new }
        ensures kept { self.new ≡ self.old }
    {
        let hints = self.take_hints(alloc)?;
        let hint = hints.hint(alloc, text)?;
        self.hints = Some(hints);
        push_hint(out, hint)
    }

    /// Appends the line that names the entry that a text may mean, as `gk_lint::EntryHints` finds it. An error comes only
    /// if a growth was refused; a part of the line may have been appended then.
    pub fn push(&mut self, alloc: Global, out: &mut String, text: &str) -> Result<(), AllocError>
        ensures pushed { Pushes out.old (nearest_text self.old text.now) result out.new }
        ensures kept { self.new ≡ self.old }
    {
        if let Some(line) = self.kept(text) {
            return out.push_str(line);
        }
        let mut line = String::new(alloc);
        self.push_compared(alloc, &mut line, text)?;
        out.push_str(line.as_str())?;
        self.keep(alloc, text, line)
    }
}
