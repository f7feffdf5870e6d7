//! Checks that end a test if they fail. Tests call them because `assert_eq!` is proved anew wherever it is written.
use std::fmt::Debug;
use std::process::Abort;

// Ends the test unless a fact holds.
pub(crate) fn holds(rt: &impl Abort, fact: bool) {
    assert!(rt; fact);
}

// Ends the test unless two values are equal.
pub(crate) fn equal<T: Debug + PartialEq>(rt: &impl Abort, found: &T, wanted: &T) {
    assert_eq!(rt; found, wanted);
}

// Ends the test unless two texts are equal.
pub(crate) fn same(rt: &impl Abort, found: &str, wanted: &str) {
    assert_eq!(rt; found, wanted);
}
