//! The keywords of headings and steps.
ghost use Rattle.std.specs.Prelude.{◌≡◌};
ghost use Rattle.gk_gherkin.specs.Keyword as spec;

/// A keyword of a heading or of a step. (Cucumber's Gherkin reference: keywords)
#[derive(Clone, Copy, Debug, PartialEq, Eq)]
pub enum Keyword {
    Feature,
    Rule,
    Background,
    ScenarioOutline,
    ScenarioTemplate,
    Scenarios,
    Scenario,
    Examples,
    Example,
    Given,
    When,
    Then,
    And,
    But,
    Star,
}

impl Keyword {
    /// Returns the keyword as it is written, without the colon of a heading.
    pub fn as_str(self) -> &'static str
        ensures { result.now ≡ spec.keyword_text self }
    {
        match self {
            Keyword::Feature => "Feature",
            Keyword::Rule => "Rule",
            Keyword::Background => "Background",
            Keyword::ScenarioOutline => "Scenario Outline",
            Keyword::ScenarioTemplate => "Scenario Template",
            Keyword::Scenarios => "Scenarios",
            Keyword::Scenario => "Scenario",
            Keyword::Examples => "Examples",
            Keyword::Example => "Example",
            Keyword::Given => "Given",
            Keyword::When => "When",
            Keyword::Then => "Then",
            Keyword::And => "And",
            Keyword::But => "But",
            Keyword::Star => "*",
        }
    }

    /// Returns the correct spelling of the keyword, with the colon of a heading.
    pub fn spelling(self) -> &'static str
        ensures { result.now ≡ spec.spelling self }
    {
        match self {
            Keyword::Feature => "Feature:",
            Keyword::Rule => "Rule:",
            Keyword::Background => "Background:",
            Keyword::ScenarioOutline => "Scenario Outline:",
            Keyword::ScenarioTemplate => "Scenario Template:",
            Keyword::Scenarios => "Scenarios:",
            Keyword::Scenario => "Scenario:",
            Keyword::Examples => "Examples:",
            Keyword::Example => "Example:",
            Keyword::Given => "Given",
            Keyword::When => "When",
            Keyword::Then => "Then",
            Keyword::And => "And",
            Keyword::But => "But",
            Keyword::Star => "*",
        }
    }
}
