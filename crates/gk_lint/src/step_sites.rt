//! Sites at which steps are carried out, and the actions that are allowed there.
ghost use Rattle.std.specs.Prelude.{◌≡◌};
ghost use Rattle.gk_lint.specs.StepSites as spec;

use gk_gherkin::HookKind;
use gk_steps::Does;

/// The site at which a step is carried out. It decides which actions are allowed there.
#[derive(Clone, Copy, Debug, PartialEq, Eq)]
pub enum StepSite {
    /// In a scenario, including its Backgrounds, or in a hook before a scenario or a tag.
    Scenario,
    /// In another hook.
    Hook,
    /// In a cleanup.
    Cleanup,
}

/// Returns the site of a hook's steps.
pub fn site_of_hook(kind: HookKind) -> StepSite
    ensures { result ≡ spec.site_of_hook kind }
{
    match kind {
        HookKind::BeforeScenario | HookKind::BeforeTag => StepSite::Scenario,
        _ => StepSite::Hook,
    }
}

/// Returns whether an action that does this is allowed at a site. An action that isn't allowed always fails there.
pub fn may_stand(does: Does, site: StepSite) -> bool
    ensures { result ≡ spec.may_stand does site }
{
    match does {
        Does::Registers => !matches!(site, StepSite::Cleanup),
        Does::Skips => matches!(site, StepSite::Scenario),
        Does::Changes | Does::Checks => true,
    }
}
