//! Running the cases of a section, one after another.
ghost use Rattle.std.specs.Prelude.{◌≡◌, ◌+◌, ◌≤◌, ◌<◌, length, vec_capacity, IfOk, OnOk, OnErr};
ghost use Rattle.std.specs.List.{list_any};
ghost use Rattle.gk_world.specs.State.{state_of, layers};
ghost use Rattle.gk_world.specs.Sandbox.{depth, IsSame};
ghost use Rattle.gk_run.specs.Events.{notifies};
ghost use Rattle.gk_run.specs.PrivateContracts.{AreCasesInPart, IsMember, RunsCases};
ghost use Rattle.gk_run.specs.Chosen.{member_of, members_in};
ghost use Rattle.gk_run.specs.Results.{case_row};
ghost use Rattle.gk_run.specs.OpenSection.{run_value};

use super::Member;
use crate::ending::{both, stays_open};
use crate::observer::Observer;
use crate::results::{CaseResult, Mark, NoRoom, Status};
use crate::running::{case_in, unrun_case};
use crate::section::Run;
use gk_world::Sandbox;

/// Returns whether a case among these is selected.
pub fn selects(members: &[Member]) -> bool
    ensures { result ≡ list_any (λ (m : Member). m.selected) members.now }
{
    members.iter().any(|member| member.selected)
}

// Runs a case if it is selected and its section is open, and returns its result.
fn run_member<O: Observer>(
    run: &Run<'_>,
    sandbox: &mut Sandbox,
    is_open: bool,
    member: Member,
    observer: &mut O,
) -> Result<CaseResult, NoRoom>
    requires room { depth sandbox.old < layers }
    ensures ran { IfOk result (λ r. IsMember O.hears (run_value run.now)
        (state_of sandbox.old.now) is_open (member_of member.case member.selected) (case_row r)
        observer.old observer.new) }
    ensures silent { OnErr result (observer.new ≡ observer.old) }
    ensures same { IsSame sandbox.old sandbox.new }
{
    let Member { case, selected } = member;
    if !selected {
        return unrun_case(run.alloc, case, Status::Skipped, Mark::Skipped);
    }
    if !is_open {
        return unrun_case(run.alloc, case, Status::Untested, Mark::Untested);
    }
    case_in(run, sandbox, case, observer)
}

/// Runs cases in a section, and adds their results to those of the feature's cases before them.
/// `is_open` says whether the section is open. Returns whether what comes after the cases is still
/// reached.
pub fn run_cases<O: Observer>(
    run: &Run<'_>,
    sandbox: &mut Sandbox,
    is_open: bool,
    members: Vec<Member>,
    results: &mut Vec<CaseResult>,
    observer: &mut O,
) -> Result<bool, NoRoom>
    requires layer { depth sandbox.old < layers }
    requires room { length results.old.items + length members.items ≤ vec_capacity results.old }
    ensures cases { IfOk result (RunsCases O.hears O.ends (run_value run.now)
        (state_of sandbox.old.now) is_open (members_in members.items) results.old.items
        results.new.items observer.old observer.new) }
    ensures counted { OnOk result (length results.new.items
        ≡ length results.old.items + length members.items) }
    ensures capacity { vec_capacity results.new ≡ vec_capacity results.old }
    ensures stopped { OnErr result (AreCasesInPart (notifies O.hears O.ends)
        (length results.old.items) (run_value run.now) (state_of sandbox.old.now) is_open
        (members_in members.items) observer.old observer.new) }
    ensures same { IsSame sandbox.old sandbox.new }
{
    let mut all_stay = true;
    for member in members {
        let row = run_member(run, sandbox, both(is_open, all_stay), member, observer)?;
        observer.case_ended(results.len(), &row);
        all_stay = both(all_stay, stays_open(run.stop, row.status));
        results.push_reserved(row);
    }
    Ok(all_stay)
}
