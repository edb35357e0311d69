//! The one comparison of the tests.
use std::fmt::Debug;
use std::process::Abort;

// Ends the test where two values differ, and tells both. One call costs the prover less than an `assert_eq!` written out.
pub(crate) fn same<T: PartialEq + Debug + Copy>(rt: &impl Abort, found: T, expected: T) {
    assert!(rt; found == expected, "found {found:?}, expected {expected:?}");
}
