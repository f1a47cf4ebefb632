//! Which calls of a block wait for which, as a function of the block alone.
#![tactic(auto)]

mod block;
mod call_lists;
mod hot_key;
mod hot_keys;
mod in_order;
mod key_waits;
mod keys;
mod laws;
mod paths;
mod reading;
mod sums;
mod text;
mod wait_counts;
mod write;

pub use block::{Conflicts, find_conflicts};
pub use hot_key::HotKey;
pub use in_order::CallWaits;
pub use key_waits::KeyWaits;
pub use laws::{calls_can_be_left_out, lines_name_the_waits, only_keys_read_matter};
pub use write::write_conflicts;
