//! Actions on variables and values.
ghost use Rattle.std.specs.Prelude.{◌≡◌, ◌<◌, false};
ghost use Rattle.std.specs.Fmt.{signed_decimal};
ghost use Rattle.gk_steps.specs.declared.action.Action.TheVariants as actions;
ghost use Rattle.gk_world.specs.State.{state_of};
ghost use Rattle.gk_world.specs.Refusals as refusals;
ghost use Rattle.gk_world.specs.Sandbox.{depth};
ghost use Rattle.gk_run.specs.Acting.{passes, put, with_own, IsActed, Performs};

use crate::acting::{Arguments, outcome_of};
use crate::results::{Outcome, Reason};
use gk_steps::number_of;
use gk_world::{Sandbox, is_bad_name};
use std::alloc::{AllocError, Global};

#[tactic(auto, using(crate::proofs::ActingLemmas::acted, crate::proofs::ActingLemmas::put_tests, crate::proofs::ActingLemmas::env_put))]
pub fn set_env(sandbox: &mut Sandbox, arguments: &Arguments<'_>) -> Outcome
    ensures { Performs actions.SetEnv arguments.now sandbox.old result sandbox.new }
{
    match arguments.text {
        None => Outcome::Failed(Reason::NoText),
        Some(text) => outcome_of(sandbox.put_env(arguments.name, text)),
    }
}

#[tactic(auto, using(crate::proofs::ActingLemmas::acted, crate::proofs::ActingLemmas::remove_tests, crate::proofs::ActingLemmas::env_removed))]
pub fn remove_env(sandbox: &mut Sandbox, arguments: &Arguments<'_>) -> Outcome
    ensures { Performs actions.RemoveEnv arguments.now sandbox.old result sandbox.new }
{
    outcome_of(sandbox.remove_env(arguments.name))
}

// Sets the innermost layer's value to a text.
#[tactic(auto, using(crate::proofs::ActingLemmas::acted, crate::proofs::ActingLemmas::put_tests, crate::proofs::ActingLemmas::value_put))]
fn set(sandbox: &mut Sandbox, name: &str, text: &str) -> Outcome
    requires { 0 < depth sandbox.old }
    ensures { IsActed (put (state_of sandbox.old.now) name.now text.now
        (with_own (state_of sandbox.old.now) name.now text.now))
        sandbox.old result sandbox.new }
{
    // The innermost layer has its values.
    sandbox.undos_give_back();
    outcome_of(sandbox.set_value(name, text))
}

pub fn set_value(sandbox: &mut Sandbox, arguments: &Arguments<'_>) -> Outcome
    requires { 0 < depth sandbox.old }
    ensures { Performs actions.SetValue arguments.now sandbox.old result sandbox.new }
{
    match arguments.text {
        None => Outcome::Failed(Reason::NoText),
        Some(text) => set(sandbox, arguments.name, text),
    }
}

#[tactic(auto, using(crate::proofs::ActingLemmas::acted, crate::proofs::ActingLemmas::delete_tests, crate::proofs::ActingLemmas::value_removed))]
pub fn delete_value(sandbox: &mut Sandbox, arguments: &Arguments<'_>) -> Outcome
    requires { 0 < depth sandbox.old }
    ensures { Performs actions.DeleteValue arguments.now sandbox.old result sandbox.new }
{
    sandbox.undos_give_back();
    outcome_of(sandbox.delete_value(arguments.name))
}

// Sets the innermost layer's value to a number.
fn put_number(alloc: Global, sandbox: &mut Sandbox, name: &str, number: i64) -> Outcome
    requires open { 0 < depth sandbox.old }
    requires good { refusals.is_bad_name name.now ≡ false }
    ensures { IsActed
        (passes (with_own (state_of sandbox.old.now) name.now (signed_decimal number)))
        sandbox.old result sandbox.new }
{
    match number.to_string(alloc) {
        Err(AllocError) => Outcome::Memory,
        Ok(text) => set(sandbox, name, text.as_str()),
    }
}

pub fn set_number(alloc: Global, sandbox: &mut Sandbox, arguments: &Arguments<'_>) -> Outcome
    requires { 0 < depth sandbox.old }
    ensures { Performs actions.SetNumber arguments.now sandbox.old result sandbox.new }
{
    if is_bad_name(arguments.name) {
        return Outcome::Failed(Reason::BadName);
    }
    put_number(alloc, sandbox, arguments.name, arguments.number)
}

pub fn add_number(alloc: Global, sandbox: &mut Sandbox, arguments: &Arguments<'_>) -> Outcome
    requires { 0 < depth sandbox.old }
    ensures { Performs actions.AddNumber arguments.now sandbox.old result sandbox.new }
{
    if is_bad_name(arguments.name) {
        return Outcome::Failed(Reason::BadName);
    }
    let Some(held) = sandbox.value(arguments.name) else {
        return Outcome::Failed(Reason::Absent);
    };
    let Some(number) = number_of(held) else {
        return Outcome::Failed(Reason::NotNumber);
    };
    let Some(sum) = number.checked_add(arguments.number) else {
        return Outcome::Failed(Reason::OutOfRange);
    };
    put_number(alloc, sandbox, arguments.name, sum)
}
