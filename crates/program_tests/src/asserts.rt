//! What several tests ask and assert.

use engines::{Refusal, report};
use std::alloc::Global;
use std::process::Abort;

/// Asserts that a case is right.
pub fn assert_right(rt: &impl Abort, is_right: bool, case: &str) {
    assert!(rt; is_right, "{case}");
}

/// Whether a refusal is reported by this line and the exit status 1.
pub fn is_reported(alloc: Global, refusal: &Refusal, line: &str) -> bool {
    let mut errors = Vec::new(alloc);
    report(refusal, &mut errors) == 1 && errors.as_slice() == line.as_bytes()
}
