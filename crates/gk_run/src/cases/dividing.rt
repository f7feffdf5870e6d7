//! Dividing the cases of a feature into its own and those of each rule.
ghost use Rattle.std.specs.Prelude.{◌≡◌, ◌∷◌, ◌++◌, ◌≤◌, List, [], length, map, IfOk, OnOk};
ghost use Rattle.gk_select.specs.RuleOrder.{FallIntoRules, rank};
ghost use Rattle.gk_run.specs.Chosen.{HeadValue, MemberValue, bare_group, groups_in, head_value, member_of, members_of};
ghost use Rattle.gk_run.specs.PrivateContracts.{AreDivided};

use super::{Content, Member, RuleCases};
use crate::chosen::RuleHead;
use crate::results::{NoRoom, Reserved, reserve};
use gk_select::Case;
use std::alloc::Global;

// Returns rules that have no cases yet.
#[tactic(auto, using(crate::proofs::Nothing::nothing_in))]
fn without_cases(alloc: Global, heads: Vec<RuleHead>) -> Result<Vec<RuleCases>, NoRoom>
    ensures { IfOk result (λ rules. groups_in rules.items
        ≡ map bare_group (map head_value heads.items)) }
{
    let Reserved { list, mut results } = reserve(alloc, heads)?;
    for head in list {
        results.push_reserved(RuleCases {
            head,
            members: Vec::new(alloc),
        });
    }
    Ok(results)
}

fn push_member(members: &mut Vec<Member>, member: Member) -> Result<(), NoRoom>
    ensures { OnOk result (members.new.items ≡ members.old.items ++ member ∷ []) }
{
    match members.push(member) {
        Ok(()) => Ok(()),
        Err(_) => Err(NoRoom),
    }
}

// Adds a case to those of its rule, or to the feature's own.
fn add_member(
    own: &mut Vec<Member>,
    rules: &mut Vec<RuleCases>,
    member: Member,
) -> Result<(), NoRoom>
    requires { rank member.case.rule ≤ length rules.old.items }
    ensures { OnOk result ((heads : List HeadValue) (before : List MemberValue) →
        AreDivided heads before own.old.items rules.old.items →
        AreDivided heads (before ++ member_of member.case member.selected ∷ [])
        own.new.items rules.new.items) }
{
    match member.case.rule {
        None => push_member(own, member),
        Some(rule) => push_member(&mut rules[rule as usize].members, member),
    }
}

/// Divides the cases of a feature. Reserves room for the results of all of them, and as if none were in a rule.
pub fn divide(
    alloc: Global,
    heads: Vec<RuleHead>,
    cases: Vec<Case>,
    selected: Vec<bool>,
) -> Result<Content, NoRoom>
    requires paired { length selected.items ≡ length cases.items }
    requires falls { FallIntoRules (length heads.items) (map (λ case. case.rule) cases.items) }
    ensures { IfOk result (λ content. AreDivided (map head_value heads.items)
        (members_of cases.items selected.items) content.own.items content.rules.list.items) }
{
    let Reserved { list, results } = reserve(alloc, cases)?;
    let Reserved {
        list,
        results: mut own,
    } = reserve(alloc, list)?;
    let mut rules = without_cases(alloc, heads)?;
    for (case, selected) in list.into_iter().zip(selected) {
        add_member(&mut own, &mut rules, Member { case, selected })?;
    }
    Ok(Content {
        own,
        rules: reserve(alloc, rules)?,
        results,
    })
}
