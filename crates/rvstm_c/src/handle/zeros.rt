//! A handle before it is opened, as a C program has it.

ghost use Rattle.std.specs.Prelude.{◌≡◌, None};

use super::Handle;
use std::ptr::null_mut;

/// A handle whose bytes are all zero. It has no session.
pub fn zeros() -> Handle
    ensures { result.value ≡ None }
{
    Handle {
        at: null_mut(),
        full: false,
    }
}
