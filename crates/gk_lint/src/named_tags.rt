//! Tags that tag rules name and that no feature has.
ghost use Rattle.std.specs.Prelude.{◌≡◌, map, IfOk};
ghost use Rattle.gk_gherkin.specs.Feature.{feature_value};
ghost use Rattle.gk_lint.specs.NamedTags as spec;
ghost use Rattle.gk_lint.specs.TextSets.{in_set};

use crate::tag_use::set_of_tags;
use crate::text_sets::TextSet;
use gk_gherkin::Feature;
use gk_select::TagRule;
use std::alloc::{AllocError, Global};

// Returns the tags that tag rules name, one rule after the other.
fn named_by<'a>(alloc: Global, rules: &'a [TagRule]) -> Result<Vec<&'a str>, AllocError>
    ensures { IfOk result (λ named. map (λ t. t.now) named.items
        ≡ spec.named_by rules.now) }
{
    let mut named = Vec::new(alloc);
    for rule in rules {
        let mut tags = rule.tags(alloc)?;
        named.append(&mut tags)?;
    }
    Ok(named)
}

// Returns the tags that aren't in a set, in their order.
fn not_in<'a>(
    alloc: Global,
    tags: &TextSet<'_>,
    named: &[&'a str],
) -> Result<Vec<&'a str>, AllocError>
    ensures { IfOk result (λ left. map (λ t. t.now) left.items
        ≡ spec.without (in_set tags.now) (map (λ t. t.now) named.now)) }
{
    let mut left = Vec::new(alloc);
    for tag in named {
        if !tags.has(*tag) {
            left.push(*tag)?;
        }
    }
    Ok(left)
}

/// Returns the tags that tag rules name and that these features don't have, neither above a feature or a rule nor above
/// a scenario or its Examples. They are in the order of the rules and of the tags in each, and a tag is repeated as
/// often as it is named. An error comes only if a growth was refused.
pub fn tags_that_stand_nowhere<'a>(
    alloc: Global,
    rules: &'a [TagRule],
    features: &[Feature],
) -> Result<Vec<&'a str>, AllocError>
    // Returns all of these tags, and no others.
    ensures { IfOk result (λ left. map (λ t. t.now) left.items
        ≡ spec.nowhere (map feature_value features.now) rules.now) }
{
    let named = named_by(alloc, rules)?;
    let tags = set_of_tags(alloc, features)?;
    let left = not_in(alloc, &tags, &named)?;
    Ok(left)
}
