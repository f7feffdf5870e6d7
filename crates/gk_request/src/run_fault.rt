//! The faults that end a run without its whole report.
ghost use Rattle.std.specs.Prelude.{◌≡◌};

use gk_gherkin::ReadFault;
use gk_select::SelectFault;
use gk_steps::LibraryFault;
use std::alloc::{AllocError, AllocFailed};
use thiserror::Error;

/// Why a run ended without its whole report. If several faults apply, the first is returned: the texts of tags come
/// first, then the library, then the hooks, then the sources in order.
#[derive(Clone, Copy, Debug, PartialEq, Eq, Error)]
pub enum RunFault {
    /// The source at place `input`, counted from 0, is the first that doesn't read, for this reason. Nothing was
    /// written.
    #[error("source {input}: {fault}")]
    Read {
        input: usize,
        fault: ReadFault,
    },
    /// The library file doesn't read, for this reason. Nothing was written.
    #[error("library: {0}")]
    Library(LibraryFault),
    /// The hooks file doesn't read, for this reason. Nothing was written.
    #[error("hooks: {0}")]
    Hooks(ReadFault),
    /// `BadTagText`, without an input: a text of tags spells no rule. `TooMany`: the cases of the source at place
    /// `input`, counted from 0, have too many steps. Nothing was written.
    #[error("{fault}")]
    Select {
        input: Option<usize>,
        fault: SelectFault,
    },
    /// The writer failed in this call, or took no byte of a piece. A prefix of the report, of the explanation or of the
    /// findings was written.
    #[error("cannot write")]
    Write,
    /// Memory ran out outside the steps of scenarios, hooks and cleanups. A prefix of the report or of the explanation
    /// was written, or nothing if the inputs were still being read. Of the findings before a run, nothing was written.
    #[error("out of memory")]
    Memory,
}

impl RunFault {
    ghost use Rattle.gk_request.specs.RunFault.{status_of_fault};

    /// Returns the exit status of a program: 4 if memory was refused, 2 for a text of tags that spells no rule, and 3
    /// otherwise. Doesn't allocate.
    pub fn status(&self) -> u8
        ensures { result ≡ status_of_fault self.now }
    {
        match self {
            RunFault::Memory => 4,
            RunFault::Select {
                fault: SelectFault::BadTagText,
                ..
            } => 2,
            _ => 3,
        }
    }
}

impl From<AllocError> for RunFault {
    ghost use Rattle.gk_request.specs.declared.run_fault.RunFault.TheVariants.{Memory};

    ghost from_gives = { λ _ e. e ≡ Memory };

    fn from(_e: AllocError) -> RunFault {
        RunFault::Memory
    }
}

impl<T: Drop> From<AllocFailed<T>> for RunFault {
    ghost use Rattle.gk_request.specs.declared.run_fault.RunFault.TheVariants.{Memory};

    ghost from_gives = { λ _ e. e ≡ Memory };

    fn from(_e: AllocFailed<T>) -> RunFault {
        RunFault::Memory
    }
}
