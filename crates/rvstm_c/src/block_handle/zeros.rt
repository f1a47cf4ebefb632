//! A handle before it is opened, as a C program has it.

ghost use Rattle.std.specs.Prelude.{◌≡◌, None};

use super::BlockHandle;
use std::ptr::null_mut;

/// A handle whose bytes are all zero. It has nothing.
pub fn zeros() -> BlockHandle
    ensures { result.value ≡ None }
{
    BlockHandle {
        at: null_mut(),
        full: false,
    }
}
