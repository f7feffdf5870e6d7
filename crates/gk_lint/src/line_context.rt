//! The context of a line: among steps, in a doc string or elsewhere.
ghost use Rattle.std.specs.Prelude.{◌≡◌};
ghost use Rattle.gk_gherkin.specs.Lines.{borrowed_value};
ghost use Rattle.gk_lint.specs.LineContext as spec;

use gk_gherkin::{BorrowedLine, Class, Fence, Place, class_of_line, closes};

/// The context of a line.
#[derive(Clone, Copy)]
pub enum LineContext {
    /// A place in which no step is possible.
    Elsewhere,
    /// Under the heading of a background or a scenario.
    AmongSteps,
    /// Under such a heading, with only blank lines and comments since a step.
    AfterStep,
    /// In a doc string.
    InText(Fence),
}

/// Returns a line with this text. Its place doesn't matter.
pub fn unplaced(text: &str) -> BorrowedLine<'_>
    ensures { borrowed_value result ≡ spec.unplaced text.now }
{
    BorrowedLine {
        place: Place { line: 1, column: 1 },
        text,
    }
}

/// Returns the class of a line in this context. A line of a doc string may hold anything, so it counts as blank.
pub fn class_in(context: LineContext, text: &str) -> Class
    ensures { result ≡ spec.class_in context text.now }
{
    match context {
        LineContext::InText(_) => Class::Blank,
        _ => class_of_line(&unplaced(text)),
    }
}

// Returns the context of the line after one of this class, outside of doc strings.
fn after_class(context: LineContext, class: Class) -> LineContext
    ensures { result ≡ spec.after_class context class }
{
    match class {
        Class::Blank | Class::Comment => context,
        Class::BackgroundHeading | Class::ScenarioHeading => LineContext::AmongSteps,
        Class::FeatureHeading | Class::RuleHeading | Class::ExamplesHeading =>
            LineContext::Elsewhere,
        Class::StepLine => match context {
            LineContext::Elsewhere => LineContext::Elsewhere,
            _ => LineContext::AfterStep,
        },
        Class::FenceLine(fence) => match context {
            LineContext::Elsewhere => LineContext::Elsewhere,
            LineContext::AfterStep => LineContext::InText(fence),
            _ => LineContext::AmongSteps,
        },
        _ => match context {
            LineContext::Elsewhere => LineContext::Elsewhere,
            _ => LineContext::AmongSteps,
        },
    }
}

/// Returns the context of the line after this one, which has this class in its own context.
#[tactic(auto, unfolding(crate::specs::LineContext::after))]
pub fn after(context: LineContext, class: Class, text: &str) -> LineContext
    ensures { result ≡ spec.after context class text.now }
{
    match context {
        LineContext::InText(fence) => {
            if closes(fence, &unplaced(text)) {
                LineContext::AmongSteps
            } else {
                LineContext::InText(fence)
            }
        }
        _ => after_class(context, class),
    }
}
