//! How steps, hooks and cleanups end, and whether what comes next is reached.
ghost use Rattle.std.specs.Prelude.{◌≡◌, ◌&&◌, ◌||◌};
ghost use Rattle.gk_run.specs.Ending as spec;
ghost use Rattle.gk_run.specs.Running as running;

use crate::results::{Mark, Outcome, Reason, Status};

/// How steps that come one after another end.
#[derive(Clone, Copy, Debug, PartialEq, Eq)]
pub enum Ending {
    /// None failed, is undefined or skipped the scenario, and memory was refused in none.
    Passed,
    /// One failed or is undefined, and memory was refused in none.
    Failed,
    /// One skipped the scenario, none failed or is undefined, and memory was refused in none.
    Skipped,
    /// Memory was refused in one.
    Memory,
}

/// Returns the worse of two endings. From the worst on, these are `Memory`, `Failed`, `Skipped` and
/// `Passed`.
pub fn worse(a: Ending, b: Ending) -> Ending
    ensures { result ≡ spec.worse a b }
{
    match a {
        Ending::Passed => b,
        Ending::Memory => Ending::Memory,
        Ending::Failed => match b {
            Ending::Memory => Ending::Memory,
            _ => Ending::Failed,
        },
        Ending::Skipped => match b {
            Ending::Passed => Ending::Skipped,
            _ => b,
        },
    }
}

/// Returns whether memory was refused.
pub fn is_memory(ending: Ending) -> bool
    ensures { result ≡ spec.is_memory_ending ending }
{
    matches!(ending, Ending::Memory)
}

/// Returns whether none failed, is undefined or skipped the scenario, and memory was refused in none.
pub fn has_passed(ending: Ending) -> bool
    ensures { result ≡ spec.has_passed ending }
{
    matches!(ending, Ending::Passed)
}

/// Returns how one step, hook step or cleanup with this mark ends by itself.
pub fn ending_of(mark: Mark) -> Ending
    ensures { result ≡ spec.ending_of mark }
{
    match mark {
        Mark::Acted(Outcome::Passed) | Mark::Skipped | Mark::Untested => Ending::Passed,
        Mark::Acted(Outcome::Failed(_)) | Mark::Undefined => Ending::Failed,
        Mark::Acted(Outcome::Skip) => Ending::Skipped,
        Mark::Acted(Outcome::Memory) => Ending::Memory,
    }
}

/// Returns whether memory was refused in a step with this mark.
pub fn is_memory_mark(mark: Mark) -> bool
    ensures { result ≡ spec.is_memory_mark mark }
{
    matches!(mark, Mark::Acted(Outcome::Memory))
}

/// Returns the status of a step with this mark.
pub fn status_of(mark: Mark) -> Status
    ensures { result ≡ spec.status_of_mark mark }
{
    match mark {
        Mark::Acted(Outcome::Passed) => Status::Passed,
        Mark::Acted(Outcome::Failed(_)) => Status::Failed,
        Mark::Acted(Outcome::Skip) => Status::Skipped,
        Mark::Acted(Outcome::Memory) => Status::Memory,
        Mark::Undefined => Status::Undefined,
        Mark::Skipped => Status::Skipped,
        Mark::Untested => Status::Untested,
    }
}

/// Returns the reason of a step that failed.
pub fn reason_of(mark: Mark) -> Option<Reason>
    ensures { result ≡ spec.reason_of_mark mark }
{
    match mark {
        Mark::Acted(Outcome::Failed(reason)) => Some(reason),
        _ => None,
    }
}

/// Returns the status of hooks and cleanups with this ending.
pub fn around_status(ending: Ending) -> Status
    ensures { result ≡ spec.around_status ending }
{
    match ending {
        Ending::Skipped => Status::Passed,
        _ => verdict_status(ending),
    }
}

/// Returns the verdict of a scenario whose hooks, steps and cleanups have this ending.
pub fn verdict_status(ending: Ending) -> Status
    ensures { result ≡ spec.verdict_status ending }
{
    match ending {
        Ending::Passed => Status::Passed,
        Ending::Failed => Status::Failed,
        Ending::Skipped => Status::Skipped,
        Ending::Memory => Status::Memory,
    }
}

/// Returns whether a status is failed or memory.
pub fn is_failed_or_memory(status: Status) -> bool
    ensures { result ≡ running.is_failed_or_memory status }
{
    matches!(status, Status::Failed | Status::Memory)
}

/// Returns whether what comes next is still reached.
pub fn stays_open(stop: bool, status: Status) -> bool
    ensures { result ≡ running.stays_open_by stop status }
{
    !(stop && is_failed_or_memory(status))
}

/// Returns whether both hold.
pub fn both(a: bool, b: bool) -> bool
    ensures { result ≡ (a && b) }
{
    a && b
}

/// Returns whether at least one of two holds.
pub fn either(a: bool, b: bool) -> bool
    ensures { result ≡ (a || b) }
{
    a || b
}
