//! Faults of a step as it is run, the entries of the library that it finds, and hints if it finds none.
ghost use Rattle.std.specs.Prelude.{◌≡◌, [], ◌++◌, option_map, Some, None, OnOk};
ghost use Rattle.std.specs.Option.{option_or};
ghost use Rattle.gk_gherkin.specs.Feature.{step_value, block_value};
ghost use Rattle.gk_steps.specs.Finding.{library_value, found_value, found_any, action_of};
ghost use Rattle.gk_lint.specs.EntryHints.{entry_hint};
ghost use Rattle.gk_lint.specs.Findings.{hint_value};
ghost use Rattle.gk_lint.specs.StepHints.{hint_unless_found, registered_hint, step_hint, cleanup_hint};
ghost use Rattle.gk_lint.specs.Lookups as spec;

use crate::blocks::{add_block_faults, add_fault_if};
use crate::entry_hints::EntryHints;
use crate::findings::Hint;
use crate::step_faults::StepFault;
use crate::step_sites::{StepSite, may_stand};
use gk_gherkin::{Block, Step};
use gk_steps::{Action, Found, Library};
use std::alloc::{AllocError, Global};

/// The results of steps that were looked up, after those of others.
#[derive(Debug, Drop)]
pub struct Lookups<'a> {
    /// The faults of the steps.
    pub faults: Vec<StepFault>,
    /// The positions in the library of the entries that the steps and the others found.
    pub used: Vec<usize>,
    /// The hint for the first step that is undefined.
    pub undefined: Option<Hint<'a>>,
    /// The hint for the first cleanup whose text finds no entry of type `step`.
    pub cleanup: Option<Hint<'a>>,
}

// Returns the text of the step that `at_cleanup` registers.
fn cleanup_text<'a>(library: &Library, found: &'a Found) -> &'a str
    ensures { result.now ≡ spec.cleanup_text (library_value library.now) (found_value found.now) }
{
    library.used_fields(found).step.unwrap_or("")
}

// Returns whether the entry that was found has a field `text`.
fn has_text(library: &Library, found: &Found) -> bool
    ensures { result ≡ spec.has_text (library_value library.now) (found_value found.now) }
{
    library.used_fields(found).text.is_some()
}

// Adds a fault if an action always fails at a site.
fn add_site_faults(
    faults: &mut Vec<StepFault>,
    action: Action,
    site: StepSite,
) -> Result<(), AllocError>
    ensures { OnOk result (faults.new.items ≡ faults.old.items ++ spec.site_faults action site) }
{
    let fails = !may_stand(action.row().does, site);
    add_fault_if(faults, fails, StepFault::NotAllowed)
}

// Sets the hint for a text that finds no entry, unless an earlier text has one.
fn set_hint<'a>(
    hint: &mut Option<Hint<'a>>,
    alloc: Global,
    hints: &EntryHints<'a>,
    text: &str,
) -> Result<(), AllocError>
    ensures { OnOk result (option_map hint_value hint.new
        ≡ option_or (option_map hint_value hint.old) (Some (entry_hint hints.now text.now))) }
{
    if hint.is_none() {
        *hint = Some(hints.hint(alloc, text)?);
    }
    Ok(())
}

impl<'a> Lookups<'a> {
    /// Returns the results of no step, after others that use these entries. Doesn't allocate.
    pub fn new(alloc: Global, used: Vec<usize>) -> Lookups<'a>
        ensures faults { result.faults.items ≡ [] }
        ensures used { result.used ≡ used }
        ensures undefined { result.undefined ≡ None }
        ensures cleanup { result.cleanup ≡ None }
    {
        Lookups {
            faults: Vec::new(alloc),
            used,
            undefined: None,
            cleanup: None,
        }
    }

    // Looks up the text of a cleanup. It is carried out with the block of the step that registers it.
    #[tactic(auto, using(crate::proofs::FirstHints::no_other_hint))]
    fn add_cleanup(
        &mut self,
        alloc: Global,
        hints: &EntryHints<'a>,
        text: &str,
        block: &Block,
    ) -> Result<(), AllocError>
        ensures faults { OnOk result (self.new.faults.items ≡ self.old.faults.items
            ++ spec.cleanup_faults hints.now (found_any hints.now text.now)
            (block_value block.now)) }
        ensures used { OnOk result (self.new.used.items ≡ self.old.used.items
            ++ spec.position_of (found_any hints.now text.now)) }
        ensures undefined { self.new.undefined ≡ self.old.undefined }
        ensures cleanup { OnOk result (option_map hint_value self.new.cleanup
            ≡ option_or (option_map hint_value self.old.cleanup)
            (hint_unless_found hints.now text.now (found_any hints.now text.now))) }
    {
        let library = hints.library();
        match library.find_any(alloc, text)? {
            Some(found) => {
                self.used.push(found.entry)?;
                let action = library.action(&found);
                add_site_faults(&mut self.faults, action, StepSite::Cleanup)?;
                let has_text = has_text(library, &found);
                add_block_faults(&mut self.faults, action.row().takes, has_text, block)
            }
            None => set_hint(&mut self.cleanup, alloc, hints, text),
        }
    }

    // Adds the faults of the block, by the entry that was found, or the results of the cleanup that it registers.
    #[tactic(auto, using(crate::proofs::FirstHints::no_other_hint))]
    fn add_found(
        &mut self,
        alloc: Global,
        hints: &EntryHints<'a>,
        found: &Found,
        block: &Block,
    ) -> Result<(), AllocError>
        ensures faults { let f = found_value found.now in
            OnOk result (self.new.faults.items ≡ self.old.faults.items
            ++ spec.action_faults (action_of hints.now f) hints.now f (block_value block.now)) }
        ensures used { let f = found_value found.now in
            OnOk result (self.new.used.items
            ≡ self.old.used.items ++ spec.cleanup_positions (action_of hints.now f) hints.now f) }
        ensures undefined { self.new.undefined ≡ self.old.undefined }
        ensures cleanup { let f = found_value found.now in
            OnOk result (option_map hint_value self.new.cleanup
            ≡ option_or (option_map hint_value self.old.cleanup)
            (registered_hint (action_of hints.now f) hints.now f)) }
    {
        let library = hints.library();
        let action = library.action(found);
        match action {
            Action::AtCleanup => {
                self.add_cleanup(alloc, hints, cleanup_text(library, found), block)
            }
            _ => {
                let has_text = has_text(library, found);
                add_block_faults(&mut self.faults, action.row().takes, has_text, block)
            }
        }
    }

    /// Looks up a step as it is run at a site. An error comes only if a growth was refused; some of the results may
    /// have been added then.
    #[tactic(auto, unfolding(crate::specs::Lookups::faults_of, crate::specs::Lookups::positions_of, crate::specs::StepHints::step_hint, crate::specs::StepHints::cleanup_hint), using(crate::proofs::FirstHints::no_other_hint))]
    pub fn add(
        &mut self,
        alloc: Global,
        hints: &EntryHints<'a>,
        site: StepSite,
        step: &Step,
    ) -> Result<(), AllocError>
        ensures faults { OnOk result (self.new.faults.items ≡ self.old.faults.items
            ++ spec.faults_of hints.now site (step_value step.now)) }
        ensures used { OnOk result (self.new.used.items ≡ self.old.used.items
            ++ spec.positions_of hints.now (step_value step.now)) }
        ensures undefined { OnOk result (option_map hint_value self.new.undefined
            ≡ option_or (option_map hint_value self.old.undefined)
            (step_hint hints.now (step_value step.now))) }
        ensures cleanup { OnOk result (option_map hint_value self.new.cleanup
            ≡ option_or (option_map hint_value self.old.cleanup)
            (cleanup_hint hints.now (step_value step.now))) }
    {
        let library = hints.library();
        match library.find(alloc, step.step_type, step.text.as_str())? {
            Some(found) => {
                self.used.push(found.entry)?;
                add_site_faults(&mut self.faults, library.action(&found), site)?;
                self.add_found(alloc, hints, &found, &step.block)
            }
            None => set_hint(&mut self.undefined, alloc, hints, step.text.as_str()),
        }
    }
}
