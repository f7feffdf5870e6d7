//! Reasons why a feature is not expanded or a text of tags is refused.
ghost use Rattle.std.specs.Prelude.{◌≡◌, Some};
ghost use Rattle.gk_select.specs.SelectFault.{text_of_select_fault};
ghost use Rattle.gk_select.specs.declared.select_fault.SelectFault.TheVariants.{Memory};

use gk_gherkin::AllocationError;
use std::fmt;
use std::fmt::Display;

/// The reason why a feature is not expanded or a text of tags is refused.
#[derive(Clone, Copy, Debug, PartialEq, Eq)]
pub enum SelectFault {
    /// The cases of a feature have more than `STEP_LIMIT` steps.
    TooMany,
    /// The text spells no tag rule.
    BadTagText,
    /// A growth of memory was refused.
    Memory,
}

impl<E: AllocationError> From<E> for SelectFault {
    ghost from_gives = { λ _ e. e ≡ Memory };

    fn from(_refused: E) -> SelectFault {
        SelectFault::Memory
    }
}

// Writes the text of the fault.
impl Display for SelectFault {
    ghost output = { λ e. Some (text_of_select_fault e) };

    fn fmt<W: fmt::Write>(&self, f: &mut fmt::Formatter<W>) -> fmt::Result {
        f.write_str(match self {
            SelectFault::TooMany => "more than 1000000 steps",
            SelectFault::BadTagText => "bad tag expression",
            SelectFault::Memory => "out of memory",
        })
    }
}

impl std::error::Error for SelectFault {}
