//! What a step's action does.
ghost use Rattle.std.specs.Prelude.{◌≡◌, ◌<◌, option_copied, bytes_eq};
ghost use Rattle.gk_gherkin.specs.Feature.{block_value};
ghost use Rattle.gk_gherkin.specs.Text.{contains};
ghost use Rattle.gk_steps.specs.declared.action.Action.TheVariants as actions;
ghost use Rattle.gk_steps.specs.Finding.{library_value, found_value};
ghost use Rattle.gk_world.specs.State.{State, state_of};
ghost use Rattle.gk_world.specs.Sandbox.{depth};
ghost use Rattle.gk_run.specs.Acting as words;
ghost use Rattle.gk_run.specs.Acting.{arguments_by_uses, arguments_value, act_of, agrees, called, use_of, use_value, Performs, IsActed, IsDone, HasRegistered, NeedsCandidate, CleanupNeedsCandidate};

mod file_actions;
mod value_actions;

use crate::cleanups::{Cleanups, Registration};
use crate::results::{Outcome, Reason};
use crate::section::Part;
use file_actions::{append_file, remove_file, rename_file, write_file, write_files};
use gk_gherkin::Block;
use gk_gherkin::text::contains;
use gk_steps::{Action, Does, Found, Library, UsedFields, number_of};
use gk_world::{Sandbox, WorldFault};
use std::alloc::{AllocError, Global};
use value_actions::{add_number, delete_value, remove_env, set_env, set_number, set_value};

/// The site at which an action is carried out.
#[derive(Clone, Copy, Debug, PartialEq, Eq)]
pub enum Site {
    /// A step of a scenario.
    Step,
    /// A step of a scenario's before hook.
    CaseHook,
    /// A step of any other hook.
    Hook,
    /// A cleanup.
    Cleanup,
}

/// The arguments of a step's action: the fields of the step, its text and its block. A field that the pattern doesn't
/// have is empty, or 0.
#[derive(Clone, Copy)]
pub struct Arguments<'a> {
    /// The field `name`.
    pub name: &'a str,
    /// The field `to`.
    pub to: &'a str,
    /// The field `step`.
    pub step: &'a str,
    /// The field `n`.
    pub number: i64,
    /// The field `text` if the pattern has it, otherwise the step's doc string.
    pub text: Option<&'a str>,
    /// The step's block: a doc string, a table or nothing.
    pub block: &'a Block,
}

/// An action that is carried out, and its arguments.
#[derive(Clone, Copy)]
pub struct Used<'a> {
    pub action: Action,
    pub arguments: Arguments<'a>,
}

// Returns the outcome for what a change of the world returned.
fn outcome_of(answer: Result<(), WorldFault>) -> Outcome
    ensures { result ≡ words.outcome_of answer }
{
    match answer {
        Ok(()) => Outcome::Passed,
        Err(WorldFault::Absent) => Outcome::Failed(Reason::Absent),
        Err(WorldFault::TextTooLong) => Outcome::Failed(Reason::TextTooLong),
        Err(WorldFault::BadName) => Outcome::Failed(Reason::BadName),
        Err(WorldFault::OtherLayer) => Outcome::Failed(Reason::OtherLayer),
        Err(WorldFault::Memory) => Outcome::Memory,
    }
}

// Passes if something is held.
fn exists(held: Option<&str>) -> Outcome
    ensures { result ≡ words.exists (option_copied held.entry) }
{
    match held {
        Some(_) => Outcome::Passed,
        None => Outcome::Failed(Reason::Absent),
    }
}

// Passes if nothing is held.
fn is_absent(held: Option<&str>) -> Outcome
    ensures { result ≡ words.is_absent (option_copied held.entry) }
{
    match held {
        Some(_) => Outcome::Failed(Reason::Present),
        None => Outcome::Passed,
    }
}

// Passes if what is held agrees with what the step says.
fn agreement(agrees: bool) -> Outcome
    ensures { result ≡ words.agreement agrees }
{
    if agrees {
        Outcome::Passed
    } else {
        Outcome::Failed(Reason::Differs)
    }
}

// Passes if `held` equals `text`.
fn is_text(held: Option<&str>, text: Option<&str>) -> Outcome
    ensures { result ≡ agrees bytes_eq (option_copied held.entry) (option_copied text.entry) }
{
    match (held, text) {
        (_, None) => Outcome::Failed(Reason::NoText),
        (None, Some(_)) => Outcome::Failed(Reason::Absent),
        (Some(held), Some(text)) => agreement(held == text),
    }
}

// Passes if `held` contains `text`.
fn has_text(held: Option<&str>, text: Option<&str>) -> Outcome
    ensures { result ≡ agrees contains (option_copied held.entry) (option_copied text.entry) }
{
    match (held, text) {
        (_, None) => Outcome::Failed(Reason::NoText),
        (None, Some(_)) => Outcome::Failed(Reason::Absent),
        (Some(held), Some(text)) => agreement(contains(held, text)),
    }
}

// Passes if `held` is this number.
fn is_number(held: Option<&str>, number: i64) -> Outcome
    ensures { result ≡ words.is_number (option_copied held.entry) number }
{
    let Some(held) = held else {
        return Outcome::Failed(Reason::Absent);
    };
    match number_of(held) {
        None => Outcome::Failed(Reason::NotNumber),
        Some(held) => agreement(held == number),
    }
}

fn doc_string(block: &Block) -> Option<&str>
    ensures { option_copied result ≡ words.doc_string (block_value block.now) }
{
    match block {
        Block::Text(text) => Some(text.as_str()),
        _ => None,
    }
}

// Returns the arguments for these used fields and this block.
#[inline(always)]
pub(crate) fn arguments_by<'a>(used: UsedFields<'a>, block: &'a Block) -> Arguments<'a>
    ensures { arguments_value result ≡ arguments_by_uses used.entry (block_value block.now) }
{
    Arguments {
        name: used.name.unwrap_or(""),
        to: used.to.unwrap_or(""),
        step: used.step.unwrap_or(""),
        number: used.number.unwrap_or(0),
        text: used.text.or(doc_string(block)),
        block,
    }
}

/// Returns the action of a step that was found in a library and its arguments, with the step's block. Doesn't allocate.
#[tactic(auto, using(crate::proofs::ActingLemmas::used_given))]
pub fn used_of<'a>(library: &Library, found: &'a Found, block: &'a Block) -> Used<'a>
    ensures { use_value result ≡ use_of
        (library_value library.now) (found_value found.now) (block_value block.now) }
{
    Used {
        action: library.action(found),
        arguments: arguments_by(library.used_fields(found), block),
    }
}

#[inline(always)]
fn perform(
    alloc: Global,
    sandbox: &mut Sandbox,
    action: Action,
    arguments: &Arguments<'_>,
) -> Outcome
    requires { 0 < depth sandbox.old }
    ensures { Performs action arguments.now sandbox.old result sandbox.new }
{
    match action {
        Action::WriteFile => write_file(sandbox, arguments),
        Action::AppendFile => append_file(sandbox, arguments),
        Action::RemoveFile => remove_file(sandbox, arguments.name),
        Action::RenameFile => rename_file(sandbox, arguments),
        Action::WriteFiles => write_files(sandbox, arguments),
        Action::FileExists => exists(sandbox.file(arguments.name)),
        Action::FileAbsent => is_absent(sandbox.file(arguments.name)),
        Action::FileIs => is_text(sandbox.file(arguments.name), arguments.text),
        Action::FileContains => has_text(sandbox.file(arguments.name), arguments.text),
        Action::SetEnv => set_env(sandbox, arguments),
        Action::RemoveEnv => remove_env(sandbox, arguments),
        Action::EnvIs => is_text(sandbox.env(arguments.name), arguments.text),
        Action::EnvAbsent => is_absent(sandbox.env(arguments.name)),
        Action::SetValue => set_value(sandbox, arguments),
        Action::DeleteValue => delete_value(sandbox, arguments),
        Action::ValueIs => is_text(sandbox.value(arguments.name), arguments.text),
        Action::ValueAbsent => is_absent(sandbox.value(arguments.name)),
        Action::SetNumber => set_number(alloc, sandbox, arguments),
        Action::AddNumber => add_number(alloc, sandbox, arguments),
        Action::NumberIs => is_number(sandbox.value(arguments.name), arguments.number),
        Action::AtCleanup => Outcome::Failed(Reason::NotHere),
        Action::SkipScenario => Outcome::Failed(Reason::NotHere),
        Action::Pass => Outcome::Passed,
        Action::Fail => Outcome::Failed(Reason::Asked),
    }
}

fn may_register(site: Site) -> bool
    ensures { result ≡ words.may_register site }
{
    !matches!(site, Site::Cleanup)
}

// Skips the scenario, if the site allows it.
fn skip(site: Site) -> Outcome
    ensures { result ≡ words.skip_outcome site }
{
    match site {
        Site::Step | Site::CaseHook => Outcome::Skip,
        Site::Hook | Site::Cleanup => Outcome::Failed(Reason::NotHere),
    }
}

// Registers what the field `step` finds among the entries of type `step`, if the site allows it.
fn at_cleanup(
    alloc: Global,
    cleanups: &mut Cleanups,
    library: &Library,
    site: Site,
    at: Registration,
    arguments: &Arguments<'_>,
) -> Outcome
    ensures done { (s : State) → IsDone (words.done_of (words.registers_at
        site s (library_value library.now) (arguments_value arguments.now))) result s }
    ensures registered { (s : State) → HasRegistered (words.registers_at
        site s (library_value library.now) (arguments_value arguments.now)) at
        cleanups.old result cleanups.new }
    ensures memory { NeedsCandidate (library_value library.now) arguments.now.step.now result }
{
    if !may_register(site) {
        return Outcome::Failed(Reason::NotHere);
    }
    match library.find_any(alloc, arguments.step) {
        Err(AllocError) => Outcome::Memory,
        Ok(None) => Outcome::Failed(Reason::NoStep),
        Ok(Some(found)) => match cleanups.add(found, arguments.block, at) {
            Ok(()) => Outcome::Passed,
            Err(AllocError) => Outcome::Memory,
        },
    }
}

/// Carries out an action at a site, as `act` does. A cleanup that it registers gets this place.
#[inline(always)]
pub(crate) fn carry_out(
    alloc: Global,
    sandbox: &mut Sandbox,
    cleanups: &mut Cleanups,
    library: &Library,
    site: Site,
    at: Registration,
    used: &Used<'_>,
) -> Outcome
    requires in_layer { 0 < depth sandbox.old }
    ensures acted { IsActed (words.done_of
        (called library.now site used.now (state_of sandbox.old.now)))
        sandbox.old result sandbox.new }
    ensures registered { HasRegistered
        (called library.now site used.now (state_of sandbox.old.now)) at
        cleanups.old result cleanups.new }
    ensures memory { used.now.action ≡ actions.AtCleanup →
        NeedsCandidate (library_value library.now) used.now.arguments.step.now result }
{
    let arguments = &used.arguments;
    match used.action.row().does {
        Does::Registers => at_cleanup(alloc, cleanups, library, site, at, arguments),
        Does::Skips => skip(site),
        Does::Changes | Does::Checks => perform(alloc, sandbox, used.action, arguments),
    }
}

/// Carries out the action of a step that was found in a library, with the step's block. A layer of the
/// sandbox is open.
///
/// The outcome is `Passed`, `Failed` with the first of the action's reasons that holds, `Skip`, or
/// `Memory`. `Memory` comes only if a growth was refused. It never comes for an action that only
/// checks, or for one that is refused before a part of it passed. Nor does it come for `at_cleanup`
/// with a step that has the ends of no entry of type `step`. `at_cleanup` adds a cleanup to those that
/// are registered, at line 0, since this call doesn't know the step's line; every other action, and a
/// refusal, leaves these as they are. An action that fails midway keeps what it did before: rows of
/// `write_files` before the refused one stay. At `Memory` the sandbox and the cleanups are as they were,
/// except for what `write_files` changed before; the end of the layer restores what the sandbox held
/// when the layer began. (behave's documentation: cleanups)
pub fn act(
    alloc: Global,
    sandbox: &mut Sandbox,
    cleanups: &mut Cleanups,
    library: &Library,
    site: Site,
    found: &Found,
    block: &Block,
) -> Outcome
    requires in_layer { 0 < depth sandbox.old }
    ensures acted { IsActed (words.done_of
        (act_of library.now site found.now block.now (state_of sandbox.old.now)))
        sandbox.old result sandbox.new }
    ensures registered { HasRegistered
        (act_of library.now site found.now block.now (state_of sandbox.old.now)) words.no_place
        cleanups.old result cleanups.new }
    ensures memory { CleanupNeedsCandidate library.now found.now block.now result }
{
    let at = Registration {
        part: Part::Steps,
        line: 0,
    };
    let used = used_of(library, found, block);
    carry_out(alloc, sandbox, cleanups, library, site, at, &used)
}
