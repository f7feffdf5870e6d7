//! Why a step library could not be read.
ghost use Rattle.std.specs.Prelude.{◌≡◌, Some};
ghost use Rattle.gk_steps.specs.LibraryFault.{line_of_library_fault, text_of_library_fault};
ghost use Rattle.gk_steps.specs.declared.library_fault.LibraryFault.TheVariants.{Memory};

use gk_gherkin::AllocationError;
use std::fmt;
use std::fmt::Display;

/// Why a step library could not be read. Lines are counted from 1. If a line has more than one fault, the first of
/// `BadType`, `BadPattern`, `UnknownAction`, `MissingField`, `FieldKind` and `Ambiguous` is reported. If more than one
/// line is faulty, the first is reported.
#[derive(Clone, Copy, Debug, PartialEq, Eq)]
pub enum LibraryFault {
    /// The bytes aren't UTF-8. The line is that of the first byte after the longest prefix that is UTF-8.
    NotUtf8 { line: u32 },
    /// A line whose first word is not `given`, `when`, `then` or `step`.
    BadType { line: u32 },
    /// A line without `=>`, or whose pattern's text spells no pattern.
    BadPattern { line: u32 },
    /// A line that names no action.
    UnknownAction { line: u32 },
    /// A line whose pattern lacks a field that its action needs.
    MissingField { line: u32 },
    /// A line whose pattern has a field that its action uses, but of the other kind.
    FieldKind { line: u32 },
    /// A line whose pattern's text, as written, is matched by an earlier entry of its type.
    Ambiguous { line: u32 },
    /// More bytes than a file may have, whatever they spell.
    TooLong,
    /// A growth of memory was refused.
    Memory,
}

impl LibraryFault {
    /// Returns the line that the fault names, or `None` if it names no line.
    pub fn line(&self) -> Option<u32>
        ensures { result ≡ line_of_library_fault self.now }
    {
        match self {
            LibraryFault::NotUtf8 { line }
            | LibraryFault::BadType { line }
            | LibraryFault::BadPattern { line }
            | LibraryFault::UnknownAction { line }
            | LibraryFault::MissingField { line }
            | LibraryFault::FieldKind { line }
            | LibraryFault::Ambiguous { line } => Some(*line),
            LibraryFault::TooLong | LibraryFault::Memory => None,
        }
    }
}

// Writes the text of the fault, without its line.
impl Display for LibraryFault {
    ghost output = { λ e. Some (text_of_library_fault e) };

    fn fmt<W: fmt::Write>(&self, f: &mut fmt::Formatter<W>) -> fmt::Result {
        f.write_str(match self {
            LibraryFault::TooLong => "longer than 16777216 bytes",
            LibraryFault::NotUtf8 { .. } => "not UTF-8",
            LibraryFault::Memory => "out of memory",
            LibraryFault::BadType { .. } => "bad step type",
            LibraryFault::BadPattern { .. } => "bad pattern",
            LibraryFault::UnknownAction { .. } => "unknown action",
            LibraryFault::MissingField { .. } => "missing field",
            LibraryFault::FieldKind { .. } => "wrong kind of field",
            LibraryFault::Ambiguous { .. } => "ambiguous with an earlier line",
        })
    }
}

impl std::error::Error for LibraryFault {}

impl<E: AllocationError> From<E> for LibraryFault {
    ghost from_gives = { λ _ e. e ≡ Memory };

    fn from(_refused: E) -> LibraryFault {
        LibraryFault::Memory
    }
}
