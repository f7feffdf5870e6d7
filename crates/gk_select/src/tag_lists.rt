//! The tags of a case, in the lists in which they are written.
use crate::names::Names;

/// The tags of a case, each with its `@`: those of its feature, its rule, its scenario and its Examples.
#[derive(Clone, Copy)]
pub struct TagLists<'t, 'a> {
    pub feature: &'t Names<'a>,
    pub rule: &'t Names<'a>,
    pub scenario: &'t Names<'a>,
    pub examples: &'t Names<'a>,
}
