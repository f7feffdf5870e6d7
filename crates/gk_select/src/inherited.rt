//! The rule, the tags and the Background steps that scenarios have in common.
ghost use Rattle.std.specs.Prelude.{◌≡◌, ◌++◌, map, option_map, IfOk};
ghost use Rattle.gk_gherkin.specs.Feature.{texts, background_value, step_value, feature_value, rule_value};
ghost use Rattle.gk_select.specs.Copies.{Appends};
ghost use Rattle.gk_select.specs.Inherited as spec;
ghost use Rattle.gk_select.specs.Inherited.{background_steps, inherited_value, AreCaseTags};

use crate::copies::{copied_texts, push_steps, push_texts};
use gk_gherkin::{Background, Feature, Rule, Step};
use std::alloc::{AllocError, Global};
use std::rc::Rc;

/// The index of the rule that scenarios are in, if any, and the tags and Background steps that they inherit.
/// Those of the feature come first, then those of the rule.
#[derive(Clone, Copy, Debug)]
pub struct Inherited<'a> {
    pub rule: Option<u32>,
    pub feature_tags: &'a [String],
    pub rule_tags: &'a [String],
    pub feature_steps: &'a [Step],
    pub rule_steps: &'a [Step],
}

fn steps_of<'a>(background: &'a Option<Background>) -> &'a [Step]
    ensures { map step_value result.now ≡
        background_steps (option_map background_value background.now) }
{
    match background {
        Some(background) => &background.steps,
        None => &[],
    }
}

/// Returns what a feature's own scenarios inherit.
pub fn inherited_in_feature<'a>(feature: &'a Feature) -> Inherited<'a>
    ensures { inherited_value result ≡ spec.inherited_in_feature (feature_value feature.now) }
{
    Inherited {
        rule: None,
        feature_tags: &feature.tags,
        rule_tags: &[],
        feature_steps: steps_of(&feature.background),
        rule_steps: &[],
    }
}

/// Returns what the scenarios of the rule at this index inherit.
pub fn inherited_in_rule<'a>(feature: &'a Feature, index: u32, rule: &'a Rule) -> Inherited<'a>
    ensures { inherited_value result ≡
        spec.inherited_in_rule (feature_value feature.now) index (rule_value rule.now) }
{
    Inherited {
        rule: Some(index),
        feature_tags: &feature.tags,
        rule_tags: &rule.tags,
        feature_steps: steps_of(&feature.background),
        rule_steps: steps_of(&rule.background),
    }
}

/// Appends copies of the inherited steps.
pub fn push_inherited_steps(
    steps: &mut Vec<Step>,
    inherited: &Inherited<'_>,
) -> Result<(), AllocError>
    ensures { Appends step_value result steps.old.items steps.new.items
        (inherited_value inherited.now).steps }
{
    push_steps(steps, inherited.feature_steps)?;
    push_steps(steps, inherited.rule_steps)
}

/// Returns copies of the inherited steps, followed by the own steps.
pub fn after_inherited_steps(
    alloc: Global,
    inherited: &Inherited<'_>,
    own: Vec<Step>,
) -> Result<Vec<Step>, AllocError>
    ensures { IfOk result (λ steps. map step_value steps.items ≡
        (inherited_value inherited.now).steps ++ map step_value own.items) }
{
    if inherited.feature_steps.is_empty() && inherited.rule_steps.is_empty() {
        return Ok(own);
    }
    let mut own = own;
    let mut steps = Vec::new(alloc);
    push_inherited_steps(&mut steps, inherited)?;
    steps.append(&mut own)?;
    Ok(steps)
}

// Returns copies of the inherited tags, followed by copies of the own tags.
fn after_inherited_tags(
    alloc: Global,
    inherited: &Inherited<'_>,
    own: &[String],
) -> Result<Vec<String>, AllocError>
    ensures { IfOk result (λ tags. texts tags.items ≡
        (inherited_value inherited.now).tags ++ texts own.now) }
{
    let mut tags = copied_texts(alloc, inherited.feature_tags)?;
    push_texts(alloc, &mut tags, inherited.rule_tags)?;
    push_texts(alloc, &mut tags, own)?;
    Ok(tags)
}

/// The tags of cases that have the same ones: all of them, and those that aren't inherited.
#[derive(Drop)]
pub struct CaseTags {
    pub all: Rc<Vec<String>>,
    pub own: Rc<Vec<String>>,
}

/// Returns the tags of cases with these own tags. If no tag is inherited, the two lists are the same one.
pub fn case_tags(
    alloc: Global,
    inherited: &Inherited<'_>,
    own: Vec<String>,
) -> Result<CaseTags, AllocError>
    ensures { IfOk result (AreCaseTags inherited.now (texts own.items)) }
{
    let own = Rc::new(alloc, own)?;
    if inherited.feature_tags.is_empty() && inherited.rule_tags.is_empty() {
        let all = own.clone()?;
        return Ok(CaseTags { all, own });
    }
    let all = after_inherited_tags(alloc, inherited, &own)?;
    Ok(CaseTags {
        all: Rc::new(alloc, all)?,
        own,
    })
}
