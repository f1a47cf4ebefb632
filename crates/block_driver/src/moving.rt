//! Blocks and workers that go from one thread to another.

use crate::shared_block::SharedBlock;
use crate::worker::Worker;

/// Compiles only for a type whose values may go to another thread.
fn may_move<T: Send>() {}

/// For a caller's proof: a block and a worker may go to another thread. Does nothing when it runs.
pub fn blocks_may_move() {
    may_move::<SharedBlock>();
    may_move::<Worker>();
}
