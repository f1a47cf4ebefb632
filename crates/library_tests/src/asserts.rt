//! Assertions that several tests make.

use std::process::Abort;

/// Asserts that a case is right.
pub fn assert_right(rt: &impl Abort, is_right: bool, case: &str) {
    assert!(rt; is_right, "{case}");
}
