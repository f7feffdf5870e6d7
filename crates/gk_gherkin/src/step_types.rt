//! The types of steps.
ghost use Rattle.std.specs.Prelude.{◌≡◌};
ghost use Rattle.gk_gherkin.specs.Keyword.{keyword_text};
ghost use Rattle.gk_gherkin.specs.StepTypes as spec;

use crate::feature::StepType;
use crate::keyword::Keyword;

/// Returns the type that a keyword gives to a step after a step of type `before`.
#[tactic(auto, unfolding(crate::specs::StepTypes::type_after))]
pub fn type_after(before: StepType, keyword: Keyword) -> StepType
    ensures { result ≡ spec.type_after before (keyword_text keyword) }
{
    match keyword {
        Keyword::Given => StepType::Given,
        Keyword::When => StepType::When,
        Keyword::Then => StepType::Then,
        _ => before,
    }
}
