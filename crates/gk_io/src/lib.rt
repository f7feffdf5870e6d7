//! Readers and writers whose calls are counted, writing bytes and texts whole, and reading a whole source.
#![tactic(auto)]

mod counted;
mod whole_read;

pub use counted::{Counted, NotWritten, write_displayed, write_whole};
pub use whole_read::{SourceFault, read_source};
