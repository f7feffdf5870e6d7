//! The sources of a run.

/// A source: its name and its bytes.
#[derive(Debug, Drop)]
pub struct Source {
    pub name: String,
    pub bytes: Vec<u8>,
}
