//! Faults of a step that finds an entry, in the order in which they are named.
ghost use Rattle.std.specs.Prelude.{◌≡◌};
ghost use Rattle.gk_lint.specs.StepFaults as spec;

/// A fault of a step that finds an entry.
#[derive(Clone, Copy, Debug, PartialEq, Eq)]
pub enum StepFault {
    /// The action of the step, or of the cleanup that it registers, always fails at its site: a cleanup registers
    /// another one or skips the scenario, or a hook that isn't before a scenario or a tag skips it. (behave's
    /// documentation: cleanups, skipping scenarios)
    NotAllowed,
    /// The action works with a text, but there is neither a field `text` nor a doc string.
    NoText,
    /// The action works with a table, but there is none.
    NoTable,
    /// The action works with a table of files, but this is a different table: its first row isn't `name` and `text`, or
    /// another row doesn't have two cells.
    BadTable,
    /// The doc string is ignored: the action works with no text, or with the field `text`.
    IgnoredText,
    /// The table is ignored: the action works with none.
    IgnoredTable,
}

impl StepFault {
    /// Returns the text of the fault.
    pub fn text(self) -> &'static str
        ensures { result.now ≡ spec.fault_text self }
    {
        match self {
            StepFault::NotAllowed => "action that isn't allowed here",
            StepFault::NoText => "step without the text that its action needs",
            StepFault::NoTable => "step without the table that its action needs",
            StepFault::BadTable => "table without the header name, text",
            StepFault::IgnoredText => "doc string that is ignored",
            StepFault::IgnoredTable => "table that is ignored",
        }
    }
}

/// The faults that a step can have.
pub const STEP_FAULTS: [StepFault; 6] = [
    StepFault::NotAllowed,
    StepFault::NoText,
    StepFault::NoTable,
    StepFault::BadTable,
    StepFault::IgnoredText,
    StepFault::IgnoredTable,
];

fn is_same_fault(a: StepFault, b: StepFault) -> bool
    ensures { result ≡ spec.is_same_fault a b }
{
    a == b
}

/// Returns whether a fault is among some faults.
pub fn has_fault(faults: &[StepFault], fault: StepFault) -> bool
    ensures { result ≡ spec.has_fault faults.now fault }
{
    faults.iter().any(|other| is_same_fault(fault, *other))
}
