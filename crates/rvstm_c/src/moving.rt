//! Handles that go from one thread to another.

use crate::block_handle::BlockHandle;
use crate::handle::Handle;
use crate::image_handle::ImageHandle;

/// Compiles only for a type whose values may go to another thread.
fn may_move<T: Send>() {}

/// For readers of the header: each handle may go to another thread. Does nothing when it runs.
pub fn handles_may_move() {
    may_move::<Handle>();
    may_move::<ImageHandle>();
    may_move::<BlockHandle>();
}
