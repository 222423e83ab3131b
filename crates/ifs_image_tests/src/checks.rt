//! Assertions of the tests, in functions: each is proved once, and a call of one is short to prove.

use std::fmt::{Debug, Display};
use std::process::Abort;

/// Asserts that what was found is what was wanted.
pub fn same<T: PartialEq + Debug + Drop>(rt: &impl Abort, found: T, wanted: T) {
    assert_eq!(rt; found, wanted);
}

/// Asserts that what was found in a case is what was wanted.
pub fn same_in<N: Display + Drop, T: PartialEq + Debug + Drop>(
    rt: &impl Abort,
    case: N,
    found: T,
    wanted: T,
) {
    assert_eq!(rt; found, wanted, "{case}");
}

/// Asserts that something holds.
pub fn holds(rt: &impl Abort, found: bool) {
    assert!(rt; found);
}

/// Asserts that something holds in a case.
pub fn holds_in<N: Display + Drop>(rt: &impl Abort, case: N, found: bool) {
    assert!(rt; found, "{case}");
}
