//! The changes of names and texts that are refused, and why.
ghost use Rattle.std.specs.Prelude.{◌≡◌, ◌++◌, None};
ghost use Rattle.gk_world.specs.Refusals as refusals;

use std::alloc::AllocError;

/// The reason why a change is refused. A refused change changes nothing. If there are several reasons, the first in the
/// order `BadName`, `Absent`, `OtherLayer`, `TextTooLong` is returned.
#[derive(Clone, Copy, Debug, PartialEq, Eq)]
pub enum WorldFault {
    /// The file, variable or value to be extended, removed, renamed or deleted doesn't exist.
    Absent,
    /// The text would have more bytes than `LONGEST_TEXT`.
    TextTooLong,
    /// The name is empty, or has more bytes than `LONGEST_NAME`.
    BadName,
    /// The value is set only in an outer layer.
    OtherLayer,
    /// Memory couldn't be allocated.
    Memory,
}

impl From<AllocError> for WorldFault {
    ghost use Rattle.std.specs.Prelude.{◌≡◌};
    ghost use Rattle.gk_world.specs.declared.refusals.WorldFault.TheVariants.{Memory};

    ghost from_gives = { λ _ e. e ≡ Memory };

    fn from(_e: AllocError) -> WorldFault {
        WorldFault::Memory
    }
}

/// The largest number of bytes in a name; the smallest is 1.
pub const LONGEST_NAME: usize = 255;

/// The largest number of bytes in a text.
pub const LONGEST_TEXT: usize = 1_048_576;

/// Returns whether a name is empty, or has more bytes than `LONGEST_NAME`. It doesn't allocate.
pub fn is_bad_name(name: &str) -> bool
    ensures { result ≡ refusals.is_bad_name name.now }
{
    name.is_empty() || name.len() > LONGEST_NAME
}

/// Returns whether `text` followed by `more` is too long.
pub fn is_too_long(text: &str, more: &str) -> bool
    ensures { result ≡ refusals.is_too_long (text.now ++ more.now) }
{
    text.len() > LONGEST_TEXT || more.len() > LONGEST_TEXT - text.len()
}

/// Returns the reason why a text can't be put under a name, if there is one.
pub fn put_refusal(name: &str, text: &str) -> Option<WorldFault>
    ensures { refusals.IsReason (refusals.put_refusal name.now text.now) result }
{
    if is_bad_name(name) {
        return Some(WorldFault::BadName);
    }
    if is_too_long("", text) {
        return Some(WorldFault::TextTooLong);
    }
    None
}
