//! The hooks of a file read so far, and the effect of a line on the last of them.
ghost use Rattle.gk_gherkin.specs.HookIndex.{AreListed};

use crate::class::Class;
use crate::hook_index::{HookIndex, find_hook};
use crate::hooks::{Hook, HookFile, HookKind};
use crate::lines::BorrowedLine;
use crate::open_parts::{on_steps, put_text, steps_take_text, unexpected};
use crate::read_fault::ReadFault;
use std::alloc::{AllocError, Global};

/// The hooks read so far, in order. Outside of doc strings, the lines so far read as these hooks.
#[derive(Drop)]
pub struct HooksSoFar {
    pub hooks: Vec<Hook>,
    /// The index of their positions.
    pub index: HookIndex,
    ghost listed: { AreListed index hooks.items },
}

impl HooksSoFar {
    ghost use Rattle.std.specs.Prelude.{◌≡◌, ◌≢◌, ◌++◌, ◌∷◌, [], IfErr, OnOk, option_copied};
    ghost use Rattle.std.specs.List.{list_any};
    ghost use Rattle.gk_gherkin.specs.Hooks.{hook_value, hooks_value, is_for};
    ghost use Rattle.std.specs.String.{string_bytes};
    ghost use Rattle.gk_gherkin.specs.Class as words;
    ghost use Rattle.gk_gherkin.specs.HooksReader as spec;
    ghost use Rattle.gk_gherkin.specs.HooksSoFar.{so_far_value};
    ghost use Rattle.gk_gherkin.specs.Lines.{borrowed_value};
    ghost use Rattle.gk_gherkin.specs.Results.{Agrees};
    ghost use Rattle.gk_gherkin.specs.declared.read_fault.ReadFault.TheVariants.{Memory};

    /// Returns a list without hooks. Doesn't allocate.
    pub fn new(alloc: Global) -> HooksSoFar
        ensures { so_far_value result ≡ [] }
    {
        HooksSoFar {
            hooks: Vec::new(alloc),
            index: HookIndex::new(alloc),
        }
    }

    /// Appends a hook.
    pub fn push(&mut self, hook: Hook) -> Result<(), AllocError>
        ensures { OnOk result
            (so_far_value self.new ≡ so_far_value self.old ++ hook_value hook ∷ []) }
    {
        self.index.add(&hook.tag, self.hooks.len())?;
        self.hooks.push(hook)?;
        Ok(())
    }

    /// Returns whether one of them is for this kind and this tag. The time it takes hardly grows
    /// with the hooks for other tags.
    pub fn has(&self, kind: HookKind, tag: Option<&str>) -> bool
        ensures { let hooks = so_far_value self.now in
            result ≡ list_any (λ hook. is_for hook kind (option_copied tag.entry)) hooks }
    {
        find_hook(&self.hooks, &self.index, kind, tag).is_some()
    }

    /// Takes a line under the last hook. The line isn't content of a doc string.
    #[tactic(auto, using(crate::proofs::LastItems::get_last, crate::proofs::LastItems::set_last), unfolding(crate::specs::HooksReader::on_plain_line))]
    pub fn on_line(
        &mut self,
        alloc: Global,
        line: &BorrowedLine<'_>,
        class: Class,
    ) -> Result<(), ReadFault>
        requires { class ≡ words.class (borrowed_value line.now) }
        ensures says { Agrees (λ _. so_far_value self.new) result
            (spec.on_plain_line (so_far_value self.old) (borrowed_value line.now) class) }
        ensures memory { IfErr result (λ e. e ≡ Memory → so_far_value self.old ≢ []) }
    {
        match self.hooks.last_mut() {
            Some(hook) => on_steps(alloc, &mut hook.steps, line, class),
            None => Err(unexpected(line)),
        }
    }

    /// Returns whether a doc string is allowed under the last step of the last hook.
    #[tactic(auto, using(crate::proofs::LastItems::last_is))]
    pub fn last_takes_text(&self) -> bool
        ensures { result ≡ spec.takes_text (so_far_value self.now) }
    {
        match self.hooks.last() {
            Some(hook) => steps_take_text(&hook.steps),
            None => false,
        }
    }

    /// Puts a doc string under the last step of the last hook, if there is one.
    #[tactic(auto, using(crate::proofs::LastItems::get_last, crate::proofs::LastItems::set_last))]
    pub fn put_text_below(&mut self, text: String)
        ensures { so_far_value self.new
            ≡ spec.after_text (so_far_value self.old) (string_bytes text) }
    {
        if let Some(hook) = self.hooks.last_mut() {
            put_text(&mut hook.steps, text);
        }
    }

    /// Returns a file with these hooks.
    pub fn into_file(self) -> HookFile
        ensures { hooks_value result ≡ so_far_value self }
    {
        HookFile { hooks: self.hooks }
    }
}
