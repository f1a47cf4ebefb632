//! A handle before it is opened, as a C program has it.

ghost use Rattle.std.specs.Prelude.{◌≡◌, None};

use super::ImageHandle;
use std::ptr::null_mut;

/// A handle whose bytes are all zero. It has nothing.
pub fn zeros() -> ImageHandle
    ensures { result.value ≡ None }
{
    ImageHandle {
        at: null_mut(),
        full: false,
    }
}
