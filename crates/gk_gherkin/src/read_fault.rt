//! Why a file could not be read.
ghost use Rattle.std.specs.Prelude.{◌≡◌, Some};
ghost use Rattle.gk_gherkin.specs.ReadFault.{line_of_fault, text_of_fault};
ghost use Rattle.gk_gherkin.specs.declared.read_fault.ReadFault.TheVariants.{Memory};

use std::alloc::{AllocError, AllocFailed};
use std::fmt;
use std::fmt::Display;

/// An error of a refused growth of memory. With this trait, a fault type needs only one `From` for
/// all of them.
pub trait AllocationError: Drop {}

impl AllocationError for AllocError {}

impl<T: Drop> AllocationError for AllocFailed<T> {}

/// Why a file could not be read. Lines are counted from 1. Of several faults, `TooLong` comes
/// before `NotUtf8`, and both come before any fault of a line. Of the faults of lines, the first
/// line's comes. (this project's profile)
#[derive(Clone, Copy, Debug, PartialEq, Eq)]
pub enum ReadFault {
    /// The bytes aren't UTF-8. The line is that of the first byte after the longest prefix that is
    /// UTF-8.
    NotUtf8 { line: u32 },
    /// A line in a place where no line of its class is allowed.
    Unexpected { line: u32 },
    /// A tag line with a word that isn't a tag.
    BadTag { line: u32 },
    /// A row whose number of cells differs from that of its table.
    CellCount { line: u32 },
    /// The text ends in the doc string that this line opens.
    UnclosedText { line: u32 },
    /// The text ends after this tag line.
    TagsAtEnd { line: u32 },
    /// A comment above the feature that names a language other than English.
    Language { line: u32 },
    /// More bytes than `LONGEST_FILE`, whatever they contain.
    TooLong,
    /// A growth of memory was refused.
    Memory,
    /// A hook line that isn't the heading of a hook, or that repeats an earlier heading.
    BadHook { line: u32 },
    /// A row that isn't between two bars.
    BadRow { line: u32 },
}

impl ReadFault {
    /// Returns the line that the fault names, or `None` if it names no line.
    pub fn line(&self) -> Option<u32>
        ensures { result ≡ line_of_fault self.now }
    {
        match self {
            ReadFault::NotUtf8 { line } => Some(*line),
            ReadFault::Unexpected { line } => Some(*line),
            ReadFault::BadTag { line } => Some(*line),
            ReadFault::CellCount { line } => Some(*line),
            ReadFault::UnclosedText { line } => Some(*line),
            ReadFault::TagsAtEnd { line } => Some(*line),
            ReadFault::Language { line } => Some(*line),
            ReadFault::TooLong => None,
            ReadFault::Memory => None,
            ReadFault::BadHook { line } => Some(*line),
            ReadFault::BadRow { line } => Some(*line),
        }
    }
}

// Writes the text of the fault, without its line.
impl Display for ReadFault {
    ghost output = { λ e. Some (text_of_fault e) };

    fn fmt<W: fmt::Write>(&self, f: &mut fmt::Formatter<W>) -> fmt::Result {
        f.write_str(match self {
            ReadFault::NotUtf8 { .. } => "not UTF-8",
            ReadFault::Unexpected { .. } => "unexpected line",
            ReadFault::BadTag { .. } => "bad tag",
            ReadFault::CellCount { .. } => "row with another number of cells",
            ReadFault::UnclosedText { .. } => "doc string without end",
            ReadFault::TagsAtEnd { .. } => "tags before nothing",
            ReadFault::Language { .. } => "language not known",
            ReadFault::TooLong => "longer than 16777216 bytes",
            ReadFault::Memory => "out of memory",
            ReadFault::BadHook { .. } => "bad hook heading",
            ReadFault::BadRow { .. } => "row without closing bar",
        })
    }
}

impl std::error::Error for ReadFault {}

impl<E: AllocationError> From<E> for ReadFault {
    ghost from_gives = { λ _ e. e ≡ Memory };

    fn from(_e: E) -> ReadFault {
        ReadFault::Memory
    }
}
